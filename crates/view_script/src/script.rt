//! The effects of steps.
ghost use Rattle.std.specs.Prelude.{OnOk};
ghost use Rattle.value_core.specs.Value.{Assigns as Scope};
ghost use Rattle.value_core.specs.View.{view, assigns_view};
ghost use Rattle.ast_core.specs.ExprView.{expr_view};
ghost use Rattle.doc_model.specs.Environment.{over};
ghost use Rattle.expr_eval.specs.Variables.{variables_view};
ghost use Rattle.bundle_files.specs.StepsView.{step_view, steps_view};
ghost use Rattle.view_api.specs.View.{Means};
ghost use Rattle.view_script.specs.Script.{Done, given, value_in, step_done, steps_done, effects_of};
ghost use Rattle.view_script.specs.Doing.{Stands, Does, Values};

use bundle_files::{Step, Steps};
use expr_eval::{EvalFault, Variables, eval_over, is_true};
use slot_compile::Formula;
use std::alloc::Global;
use text_core::{ByKey, OutOfMemory, Seq, Text};
use value_core::{Assigns, Value, copy};
use view_api::{Effect, Effects, ViewFault};

/// How far steps are done.
#[derive(Debug, Drop)]
pub(crate) struct Doing {
    /// The assigns that were given since, over the assigns as they were.
    pub given: Assigns,
    pub effects: Effects,
}

// The value of an expression where some assigns were given since.
fn value_of(
    alloc: Global,
    doing: &Doing,
    variables: &Variables,
    assigns: &Assigns,
    value: &Formula,
) -> Result<Value, ViewFault>
    ensures { Values result (value_in (variables_view variables.now.scopes) (over (assigns_view doing.now.given) (assigns_view assigns.now)) (expr_view value.now)) }
{
    match eval_over(alloc, &doing.given, assigns, variables, value.expr()) {
        Ok(value) => Ok(value),
        Err(EvalFault::Raised(_)) => Err(ViewFault::Raised),
        Err(EvalFault::OutOfMemory) => Err(ViewFault::OutOfMemory),
    }
}

// Gives an assign a value.
fn give(alloc: Global, name: &Text, value: Value, doing: &mut Doing) -> Result<(), OutOfMemory>
    ensures { (before : Scope) → (d : Done) → Stands before doing.old d
        → OnOk result (Stands before doing.new (given name.now d (view value))) }
{
    let kept = copy(alloc, &value)?;
    let effect = Effect::Assign {
        name: name.copy(alloc)?,
        value,
    };
    doing.effects.push(effect)?;
    doing.given.insert(name.copy(alloc)?, kept)
}

// Does a step.
#[cycle(steps)]
fn do_step(
    alloc: Global,
    step: &Step,
    variables: &Variables,
    assigns: &Assigns,
    doing: &mut Doing,
) -> Result<(), ViewFault>
    ensures { (d : Done) → Stands (assigns_view assigns.now) doing.old d
        → Does (assigns_view assigns.now) doing.new result (step_done (variables_view variables.now.scopes) (step_view step.now) d) }
{
    match step {
        Step::Assign { name, value } => {
            let value = value_of(alloc, doing, variables, assigns, value)?;
            give(alloc, name, value, doing)?;
            Ok(())
        }
        Step::When { test, yes, no } => {
            let value = value_of(alloc, doing, variables, assigns, test)?;
            if is_true(&value) {
                do_steps(alloc, yes, variables, assigns, doing)
            } else {
                do_steps(alloc, no, variables, assigns, doing)
            }
        }
    }
}

// Does steps, one after the other.
#[cycle(steps)]
fn do_steps(
    alloc: Global,
    steps: &Steps,
    variables: &Variables,
    assigns: &Assigns,
    doing: &mut Doing,
) -> Result<(), ViewFault>
    ensures { (d : Done) → Stands (assigns_view assigns.now) doing.old d
        → Does (assigns_view assigns.now) doing.new result (steps_done (variables_view variables.now.scopes) (steps_view steps.now) d) }
{
    'steps: for step in steps.as_slice() {
        do_step(alloc, step, variables, assigns, doing)?;
    }
    Ok(())
}

/// The effects of steps where these variables and assigns are in scope; each step sees the assigns as the earlier ones
/// left them. Raised where an expression raises.
pub fn effects_of(
    alloc: Global,
    steps: &Steps,
    variables: &Variables,
    assigns: &Assigns,
) -> Result<Effects, ViewFault>
    ensures { Means result (effects_of (variables_view variables.now.scopes) (assigns_view assigns.now) (steps_view steps.now)) }
{
    let mut doing = Doing {
        given: ByKey::new(alloc),
        effects: Seq::new(alloc),
    };
    do_steps(alloc, steps, variables, assigns, &mut doing)?;
    let Doing {
        given: _given,
        effects,
    } = doing;
    Ok(effects)
}
