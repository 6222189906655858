//! What a spread shows.
ghost use Rattle.std.specs.Prelude.{◌≡◌, Err, if◌then◌else◌};
ghost use Rattle.value_core.specs.View.{view, assigns_view};
ghost use Rattle.value_core.specs.declared.raise.Raise.TheVariants as raise;
ghost use Rattle.doc_model.specs.Printing.{print_attribute, is_name_byte, all_name_bytes, is_attribute_name, entry_texts, print_spread};
ghost use Rattle.attribute_text.specs.Prints.{Prints, Adds};

use crate::AttributeFault;
use crate::attribute::add_attribute;
use std::alloc::Global;
use text_core::Text;
use value_core::{Assigns, Raise, Value};

/// What a spread shows: the entries of a map in the order of their keys, each as an attribute, and nothing for nil.
/// Another value, and a key that is no name of an attribute, raises BadArgument.
pub fn spread_text(alloc: Global, value: &Value) -> Result<Text, AttributeFault>
    ensures { Prints result (print_spread (view value.now)) }
{
    match value {
        Value::Nil => Ok(Text::new(alloc)),
        Value::Map(entries) => entries_text(alloc, entries),
        _ => Err(AttributeFault::Raised(Raise::BadArgument)),
    }
}

fn entries_text(alloc: Global, entries: &Assigns) -> Result<Text, AttributeFault>
    ensures { Prints result (entry_texts (assigns_view entries.now)) }
{
    let mut out = Text::new(alloc);
    'entries: for entry in entries.as_slice() {
        add_entry(alloc, entry.key.as_str(), &entry.value, &mut out)?;
    }
    Ok(out)
}

fn add_entry(alloc: Global, key: &str, value: &Value, out: &mut Text) -> Result<(), AttributeFault>
    ensures { Adds result out.old out.new (if is_attribute_name key.now then print_attribute key.now (view value.now) else Err raise.BadArgument) }
{
    if !is_attribute_name(key) {
        return Err(AttributeFault::Raised(Raise::BadArgument));
    }
    add_attribute(alloc, key, value, out)
}

fn is_attribute_name(name: &str) -> bool
    ensures { result ≡ is_attribute_name name.now }
{
    if name.is_empty() {
        return false;
    }
    are_name_bytes(name.as_bytes())
}

fn are_name_bytes(bytes: &[u8]) -> bool
    ensures { result ≡ all_name_bytes bytes.now }
{
    bytes.iter().all(|byte| is_name_byte(*byte))
}

// What stands in no name of an attribute is white space, quotes, braces, `<`, `>`, `/` and `=`.
fn is_name_byte(byte: u8) -> bool
    ensures { result ≡ is_name_byte byte }
{
    !matches!(
        byte,
        b' ' | b'\t' | b'\n' | b'\r' | b'"' | b'\'' | b'<' | b'>' | b'/' | b'=' | b'{' | b'}'
    )
}
