//! The texts of a class list.
ghost use Rattle.std.specs.Prelude.{◌≡◌, ◌++◌, OnOk};
ghost use Rattle.text_core.specs.Escape.{escape_text};
ghost use Rattle.value_core.specs.View.{view, values_view};
ghost use Rattle.doc_model.specs.Printing.{class_item, class_items, with_spaces};
ghost use Rattle.attribute_text.specs.Prints.{Adds, with_space_each};

use crate::AttributeFault;
use crate::attribute::print;
use std::alloc::Global;
use text_core::{Names, OutOfMemory, Text, escape_html};
use value_core::{Value, Values};

/// Adds the texts of the items, those of lists among them, without nil and false; after a fault some may stand there.
#[cycle(classes)]
pub(crate) fn add_classes(
    alloc: Global,
    items: &Values,
    classes: &mut Names,
) -> Result<(), AttributeFault>
    ensures { Adds result classes.old classes.new (class_items (values_view items.now)) }
{
    'items: for item in items.as_slice() {
        add_class(alloc, item, classes)?;
    }
    Ok(())
}

#[cycle(classes)]
fn add_class(alloc: Global, value: &Value, classes: &mut Names) -> Result<(), AttributeFault>
    ensures { Adds result classes.old classes.new (class_item (view value.now)) }
{
    match value {
        Value::Nil | Value::Bool(false) => Ok(()),
        Value::List(items) => add_classes(alloc, items, classes),
        _ => {
            classes.push(print(alloc, value)?)?;
            Ok(())
        }
    }
}

/// Adds the texts, escaped, with a space between them; after a fault some may stand there.
pub(crate) fn add_with_spaces(
    alloc: Global,
    texts: &Names,
    out: &mut Text,
) -> Result<(), OutOfMemory>
    ensures { OnOk result (out.new ≡ out.old ++ escape_text (with_spaces texts.now)) }
{
    let [first, rest @ ..] = texts.as_slice() else {
        return Ok(());
    };
    escape_html(alloc, first.as_str(), out)?;
    add_with_space_each(alloc, rest, out)
}

fn add_with_space_each(alloc: Global, texts: &[Text], out: &mut Text) -> Result<(), OutOfMemory>
    ensures { OnOk result (out.new ≡ out.old ++ escape_text (with_space_each texts.now)) }
{
    'texts: for text in texts {
        out.push_str(" ")?;
        escape_html(alloc, text.as_str(), out)?;
    }
    Ok(())
}
