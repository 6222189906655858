//! A text put at its path.
ghost use Rattle.std.specs.Prelude.{◌≡◌, None, Some, IfOk, map, option_map};
ghost use Rattle.text_core.specs.Keyed.{on_value, Ascending};
ghost use Rattle.value_core.specs.View.{view};
ghost use Rattle.params_core.specs.Form.{put_at, entries_at, items_at};

use crate::path::Step;
use std::alloc::Global;
use text_core::{ByKey, OutOfMemory, Seq, Text};
use value_core::{Assigns, Value, Values};

/// What stands somewhere once a text was put at a path from there.
pub fn put_at(
    alloc: Global,
    path: &[Step],
    text: Text,
    old: Option<Value>,
) -> Result<Value, OutOfMemory>
    ensures { IfOk result (λ v. view v ≡ put_at path.now text (option_map view old)) }
{
    let [step, steps @ ..] = path else {
        return Ok(Value::Text(text));
    };
    match step {
        Step::At(key) => {
            let mut entries = entries_at(alloc, old);
            let before = entries.remove(key.as_str());
            let after = put_at(alloc, steps, text, before)?;
            let again = key.copy(alloc)?;
            entries.insert(again, after)?;
            Ok(Value::Map(entries))
        }
        Step::Append => {
            let mut items = items_at(alloc, old);
            let item = put_at(alloc, steps, text, None)?;
            items.push(item)?;
            Ok(Value::List(items))
        }
    }
}

// The entries of a map; what is no map has none.
fn entries_at(alloc: Global, old: Option<Value>) -> Assigns
    ensures value { map (on_value view) result ≡ entries_at (option_map view old) }
    ensures ascending { Ascending result }
{
    let entries = match old {
        Some(value) => entries_of(alloc, value),
        None => ByKey::new(alloc),
    };
    // The call says that the keys ascend.
    let _ = entries.as_slice();
    entries
}

fn entries_of(alloc: Global, value: Value) -> Assigns
    ensures { map (on_value view) result ≡ entries_at (Some (view value)) }
{
    match value {
        Value::Map(entries) => entries,
        _ => ByKey::new(alloc),
    }
}

// The items of a list; what is no list has none.
fn items_at(alloc: Global, old: Option<Value>) -> Values
    ensures { map view result ≡ items_at (option_map view old) }
{
    match old {
        Some(value) => items_of(alloc, value),
        None => Seq::new(alloc),
    }
}

fn items_of(alloc: Global, value: Value) -> Values
    ensures { map view result ≡ items_at (Some (view value)) }
{
    match value {
        Value::List(items) => items,
        _ => Seq::new(alloc),
    }
}
