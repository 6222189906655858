//! Small views in memory.
ghost use Rattle.std.specs.Prelude.{List, [], ◌∷◌, Some, None, ◌==◌, codes, if◌then◌else◌};
ghost use Rattle.value_core.specs.Value.{text};
ghost use Rattle.view_api.specs.Effect.{assign_to, push_event};

use crate::{Effect, Effects, Owner, ViewFault, Views};
use std::alloc::Global;
use text_core::{Seq, Text};
use value_core::{Assigns, Value};

/// Views in memory, as an example: view 0 greets at its mount and tells its client each message; events and components
/// raise.
#[derive(Debug, Drop)]
pub struct Greeting;

impl Views for Greeting {
    ghost meaning = { λ _. record {
      mount = λ view _. if view == 0 then Some (assign_to (codes "greeting") (text (codes "hello")) ∷ []) else None;
      handle_params = λ _ _ _. Some [];
      handle_event = λ _ _ _ _. None;
      handle_info = λ _ message _. Some (push_event (codes "told") message ∷ []);
      mount_component = λ _. None;
      update_component = λ _ _ _. None;
    } };

    fn mount(&self, alloc: Global, view: u32, _params: &Value) -> Result<Effects, ViewFault> {
        if view != 0 {
            return Err(ViewFault::Raised);
        }
        let name = Text::copy_of(alloc, "greeting")?;
        let value = Value::Text(Text::copy_of(alloc, "hello")?);
        let mut effects = Seq::new(alloc);
        effects.push(Effect::Assign { name, value })?;
        Ok(effects)
    }

    fn handle_params(
        &self,
        alloc: Global,
        _view: u32,
        _params: &Value,
        _assigns: &Assigns,
    ) -> Result<Effects, ViewFault> {
        Ok(Seq::new(alloc))
    }

    fn handle_event(
        &self,
        _alloc: Global,
        _owner: Owner,
        _event: &Text,
        _value: &Value,
        _assigns: &Assigns,
    ) -> Result<Effects, ViewFault> {
        Err(ViewFault::Raised)
    }

    fn handle_info(
        &self,
        alloc: Global,
        _view: u32,
        message: &Value,
        _assigns: &Assigns,
    ) -> Result<Effects, ViewFault> {
        let name = Text::copy_of(alloc, "told")?;
        let value = value_core::copy(alloc, message)?;
        let mut effects = Seq::new(alloc);
        effects.push(Effect::PushEvent { name, value })?;
        Ok(effects)
    }

    fn mount_component(&self, _alloc: Global, _module: u32) -> Result<Effects, ViewFault> {
        Err(ViewFault::Raised)
    }

    fn update_component(
        &self,
        _alloc: Global,
        _module: u32,
        _attributes: &Assigns,
        _assigns: &Assigns,
    ) -> Result<Effects, ViewFault> {
        Err(ViewFault::Raised)
    }
}
