//! The texts of values.
ghost use Rattle.std.specs.Prelude.{◌≡◌, ◌++◌};
ghost use Rattle.value_core.specs.View.{view, values_view};
ghost use Rattle.doc_model.specs.Evaluation.{printed, joined, on_res};
ghost use Rattle.expr_eval.specs.Gives.{Gives, text_as_is};
ghost use Rattle.expr_eval.specs.Held.{held_view};
ghost use Rattle.expr_eval.specs.Operands.{joined_on};

use crate::EvalFault;
use crate::held::Held;
use std::alloc::Global;
use text_core::Text;
use value_core::{PrintFault, Raise, Value, Values, to_text};

/// The text of a value.
pub(crate) fn print(alloc: Global, value: &Value) -> Result<Text, EvalFault>
    ensures { Gives text_as_is result (printed (view value.now)) }
{
    match to_text(alloc, value) {
        Ok(text) => Ok(text),
        Err(PrintFault::NotPrintable) => Err(EvalFault::Raised(Raise::NotPrintable)),
        Err(PrintFault::OutOfMemory) => Err(EvalFault::OutOfMemory),
    }
}

/// The text of a value, which goes.
pub(crate) fn printed_out(alloc: Global, value: Held<'_>) -> Result<Text, EvalFault>
    ensures { Gives text_as_is result (printed (held_view value.entry)) }
{
    print(alloc, value.value())
}

/// The texts of the items, with a text between them.
pub(crate) fn join(alloc: Global, items: &Values, between: &str) -> Result<Text, EvalFault>
    ensures { Gives text_as_is result (joined between.now (values_view items.now)) }
{
    let [first, rest @ ..] = items.as_slice() else {
        return Ok(Text::new(alloc));
    };
    let text = print(alloc, first)?;
    join_on(alloc, text, rest, between)
}

// A text, and then each item's text behind the text between them.
fn join_on(alloc: Global, text: Text, items: &[Value], between: &str) -> Result<Text, EvalFault>
    ensures { Gives text_as_is result (on_res (λ s. text ++ s) (joined_on between.now (values_view items.now))) }
{
    let mut text = text;
    'items: for item in items {
        text.push_str(between)?;
        let more = print(alloc, item)?;
        text.push_str(more.as_str())?;
    }
    Ok(text)
}
