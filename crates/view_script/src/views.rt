//! Views by the steps of a manifest.
ghost use Rattle.std.specs.Prelude.{◌≡◌, IfOk};
ghost use Rattle.value_core.specs.View.{view as value_view, assigns_view};
ghost use Rattle.expr_eval.specs.Variables.{variables_view};
ghost use Rattle.view_api.specs.View.{Means};
ghost use Rattle.view_script.specs.Views.{script_of, variable, begun, nothing_done, taken, meaning_of_script};

use crate::script::effects_of;
use bundle_files::{Events, Steps};
use expr_eval::Variables;
use std::alloc::Global;
use text_core::{ByKey, OutOfMemory, Seq, Text};
use value_core::{Assigns, Value, copy};
use view_api::{Effects, Owner, ViewFault, Views};

/// One view, number 0, whose handlers are steps: at its mount, and at each event that it knows. It does nothing at
/// params and messages. Other views, and components, raise.
#[derive(Debug, Drop)]
pub struct ScriptViews {
    mount: Steps,
    events: Events,
}

impl ScriptViews {
    /// The view with these steps at its mount and at its events.
    pub fn of(mount: Steps, events: Events) -> ScriptViews
        ensures { result ≡ script_of mount events }
    {
        ScriptViews { mount, events }
    }
}

fn nothing_done(alloc: Global, view: u32) -> Result<Effects, ViewFault>
    ensures { Means result (nothing_done view) }
{
    if view != 0 {
        return Err(ViewFault::Raised);
    }
    Ok(Seq::new(alloc))
}

// The one variable of a handler.
fn variable(alloc: Global, name: &str, value: &Value) -> Result<Variables, OutOfMemory>
    ensures { IfOk result (λ vs. variables_view vs.scopes ≡ variable name.now (value_view value.now)) }
{
    Variables::of(alloc, Text::copy_of(alloc, name)?, copy(alloc, value)?)
}

fn begun(
    alloc: Global,
    views: &ScriptViews,
    view: u32,
    params: &Value,
) -> Result<Effects, ViewFault>
    ensures { Means result (begun views.now view (value_view params.now)) }
{
    if view != 0 {
        return Err(ViewFault::Raised);
    }
    let assigns = ByKey::new(alloc);
    let variables = variable(alloc, "params", params)?;
    effects_of(alloc, &views.mount, &variables, &assigns)
}

fn taken(
    alloc: Global,
    views: &ScriptViews,
    owner: Owner,
    event: &Text,
    value: &Value,
    assigns: &Assigns,
) -> Result<Effects, ViewFault>
    ensures { Means result (taken views.now owner event.now (value_view value.now) (assigns_view assigns.now)) }
{
    let Owner::View(view) = owner else {
        return Err(ViewFault::Raised);
    };
    if view != 0 {
        return Err(ViewFault::Raised);
    }
    match views.events.get(event.as_str()) {
        Some(steps) => {
            let variables = variable(alloc, "value", value)?;
            effects_of(alloc, steps, &variables, assigns)
        }
        None => Err(ViewFault::Raised),
    }
}

impl Views for ScriptViews {
    ghost meaning = { meaning_of_script };

    fn mount(&self, alloc: Global, view: u32, params: &Value) -> Result<Effects, ViewFault> {
        begun(alloc, self, view, params)
    }

    fn handle_params(
        &self,
        alloc: Global,
        view: u32,
        _params: &Value,
        _assigns: &Assigns,
    ) -> Result<Effects, ViewFault> {
        nothing_done(alloc, view)
    }

    fn handle_event(
        &self,
        alloc: Global,
        owner: Owner,
        event: &Text,
        value: &Value,
        assigns: &Assigns,
    ) -> Result<Effects, ViewFault> {
        taken(alloc, self, owner, event, value, assigns)
    }

    fn handle_info(
        &self,
        alloc: Global,
        view: u32,
        _message: &Value,
        _assigns: &Assigns,
    ) -> Result<Effects, ViewFault> {
        nothing_done(alloc, view)
    }

    fn mount_component(&self, _alloc: Global, _module: u32) -> Result<Effects, ViewFault> {
        Err(ViewFault::Raised)
    }

    fn update_component(
        &self,
        _alloc: Global,
        _module: u32,
        _attributes: &Assigns,
        _assigns: &Assigns,
    ) -> Result<Effects, ViewFault> {
        Err(ViewFault::Raised)
    }
}
