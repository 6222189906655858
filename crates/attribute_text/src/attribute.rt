//! What an attribute shows.
ghost use Rattle.std.specs.Prelude.{◌≡◌, ◌++◌, ◌∷◌, ◌||◌, codes, OnOk};
ghost use Rattle.std.specs.Str.{bytes_eq};
ghost use Rattle.value_core.specs.Value.{list};
ghost use Rattle.value_core.specs.View.{view, values_view};
ghost use Rattle.doc_model.specs.Evaluation.{printed, on_res};
ghost use Rattle.doc_model.specs.Printing.{left_out, equals, print_attribute};
ghost use Rattle.attribute_text.specs.Prints.{Prints, Adds};

use crate::AttributeFault;
use crate::class_list::{add_classes, add_with_spaces};
use std::alloc::Global;
use text_core::{OutOfMemory, Seq, Text, escape_html};
use value_core::{PrintFault, Raise, Value, Values, to_text};

/// What an attribute of an element shows, with a space before it: its name, and then the text of its value in quotes,
/// escaped. For true that is the name alone, and for nil and false nothing, but `class` and `style` stand there
/// empty. `class` takes a list too: it shows the texts of the items with spaces between them, those of a list inside
/// it among them, and leaves nil and false out. A list elsewhere and what has no text raise NotPrintable.
pub fn attribute_text(alloc: Global, name: &str, value: &Value) -> Result<Text, AttributeFault>
    ensures { Prints result (print_attribute name.now (view value.now)) }
{
    let mut out = Text::new(alloc);
    add_attribute(alloc, name, value, &mut out)?;
    Ok(out)
}

/// Adds what an attribute shows; after a fault a part of it may stand there.
pub(crate) fn add_attribute(
    alloc: Global,
    name: &str,
    value: &Value,
    out: &mut Text,
) -> Result<(), AttributeFault>
    ensures { Adds result out.old out.new (print_attribute name.now (view value.now)) }
{
    match value {
        Value::Nil | Value::Bool(false) => Ok(add_left_out(name, out)?),
        Value::Bool(true) => Ok(add_name(name, out)?),
        Value::List(items) => add_class_list(alloc, name, items, out),
        _ => add_printed(alloc, name, value, out),
    }
}

/// The text of a value.
pub(crate) fn print(alloc: Global, value: &Value) -> Result<Text, AttributeFault>
    ensures { Prints result (printed (view value.now)) }
{
    match to_text(alloc, value) {
        Ok(text) => Ok(text),
        Err(PrintFault::NotPrintable) => Err(AttributeFault::Raised(Raise::NotPrintable)),
        Err(PrintFault::OutOfMemory) => Err(AttributeFault::OutOfMemory),
    }
}

// Whether an attribute stays, empty, where its value is nil or false.
fn is_kept(name: &str) -> bool
    ensures { result ≡ (bytes_eq name.now (codes "class") || bytes_eq name.now (codes "style")) }
{
    name == "class" || name == "style"
}

fn add_left_out(name: &str, out: &mut Text) -> Result<(), OutOfMemory>
    ensures { OnOk result (out.new ≡ out.old ++ left_out name.now) }
{
    if !is_kept(name) {
        return Ok(());
    }
    begin_value(name, out)?;
    out.push_str("\"")
}

fn add_name(name: &str, out: &mut Text) -> Result<(), OutOfMemory>
    ensures { OnOk result (out.new ≡ out.old ++ 32 ∷ name.now) }
{
    out.push_str(" ")?;
    out.push_str(name)
}

fn begin_value(name: &str, out: &mut Text) -> Result<(), OutOfMemory>
    ensures { OnOk result (out.new ≡ out.old ++ 32 ∷ (name.now ++ codes "=\"")) }
{
    add_name(name, out)?;
    out.push_str("=\"")
}

fn add_class_list(
    alloc: Global,
    name: &str,
    items: &Values,
    out: &mut Text,
) -> Result<(), AttributeFault>
    ensures { Adds result out.old out.new (print_attribute name.now (list (values_view items.now))) }
{
    if name != "class" {
        return Err(AttributeFault::Raised(Raise::NotPrintable));
    }
    let mut classes = Seq::new(alloc);
    add_classes(alloc, items, &mut classes)?;
    begin_value(name, out)?;
    add_with_spaces(alloc, &classes, out)?;
    out.push_str("\"")?;
    Ok(())
}

// A value that is shown by its text.
fn add_printed(
    alloc: Global,
    name: &str,
    value: &Value,
    out: &mut Text,
) -> Result<(), AttributeFault>
    ensures { Adds result out.old out.new (on_res (equals name.now) (printed (view value.now))) }
{
    let text = print(alloc, value)?;
    begin_value(name, out)?;
    escape_html(alloc, text.as_str(), out)?;
    out.push_str("\"")?;
    Ok(())
}
