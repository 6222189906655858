//! The text of a value.
ghost use Rattle.std.specs.Prelude.{◌≡◌, Some, None, IfOk, IsErrOf, option_map};
ghost use Rattle.text_core.specs.Escape.{escape_text};
ghost use Rattle.value_core.specs.Print.{text_of_value};
ghost use Rattle.value_core.specs.View.{view};

use crate::Value;
use std::alloc::Global;
use text_core::{OutOfMemory, Text, decimal, escape_html};

/// Why a value has no text.
#[derive(Clone, Copy, Debug, PartialEq, Eq)]
pub enum PrintFault {
    /// It is a list, a tuple, a map or a slot.
    NotPrintable,
    /// Memory was wanting.
    OutOfMemory,
}

impl From<OutOfMemory> for PrintFault {
    ghost use Rattle.std.specs.Prelude.{◌≡◌};
    ghost use Rattle.value_core.specs.declared.printing.PrintFault.TheVariants as fault;

    ghost from_gives = { λ _ e. e ≡ fault.OutOfMemory };

    fn from(_: OutOfMemory) -> PrintFault {
        PrintFault::OutOfMemory
    }
}

/// The text of a value: nil has the empty text, a boolean its word, a number its decimal, a text and an atom
/// themselves. It answers NotPrintable exactly for a list, a tuple, a map and a slot.
pub fn to_text(alloc: Global, value: &Value) -> Result<Text, PrintFault>
    ensures ok { IfOk result (λ t. text_of_value (view value.now) ≡ Some t) }
    ensures refused { IsErrOf result PrintFault.NotPrintable → text_of_value (view value.now) ≡ None }
{
    match value {
        Value::Nil => Ok(Text::new(alloc)),
        Value::Bool(true) => Ok(Text::copy_of(alloc, "true")?),
        Value::Bool(false) => Ok(Text::copy_of(alloc, "false")?),
        Value::Int(n) => Ok(decimal(alloc, *n)?),
        Value::Text(text) | Value::Atom(text) => Ok(text.copy(alloc)?),
        Value::List(_) | Value::Tuple(_) | Value::Map(_) | Value::Slot(_) => {
            Err(PrintFault::NotPrintable)
        }
    }
}

/// The text of a value, escaped for HTML. It refuses what `to_text` refuses.
pub fn to_html(alloc: Global, value: &Value) -> Result<Text, PrintFault>
    ensures ok { IfOk result (λ t. option_map escape_text (text_of_value (view value.now)) ≡ Some t) }
    ensures refused { IsErrOf result PrintFault.NotPrintable → text_of_value (view value.now) ≡ None }
{
    let text = to_text(alloc, value)?;
    let mut html = Text::new(alloc);
    escape_html(alloc, text.as_str(), &mut html)?;
    Ok(html)
}
