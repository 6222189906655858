//! How deep values nest.
ghost use Rattle.std.specs.Prelude.{◌≡◌, ◌-◌, ◌^◌, min, max};
ghost use Rattle.value_core.specs.Nesting.{depth_of, values_depth, assigns_depth};
ghost use Rattle.value_core.specs.View.{view, values_view, assigns_view};

use crate::{Assigns, Value, Values};

/// How deep a value nests: each list, tuple and map is one level, an empty one too, and a slot adds
/// none, whatever it captured. A depth that
/// does not fit 32 bits counts as the greatest that does.
#[cycle(depth)]
pub fn depth(value: &Value) -> u32
    ensures { result ≡ min (depth_of (view value.now)) (2 ^ 32 - 1) }
{
    match value {
        Value::List(items) | Value::Tuple(items) => depth_of_items(items).saturating_add(1),
        Value::Map(entries) => depth_of_entries(entries).saturating_add(1),
        _ => 0,
    }
}

#[cycle(depth)]
fn depth_of_items(items: &Values) -> u32
    ensures { result ≡ min (values_depth (values_view items.now)) (2 ^ 32 - 1) }
{
    let mut deepest = 0;
    for item in items.as_slice() {
        deepest = depth(item).max(deepest);
    }
    deepest
}

#[cycle(depth)]
fn depth_of_entries(entries: &Assigns) -> u32
    ensures { result ≡ min (assigns_depth (assigns_view entries.now)) (2 ^ 32 - 1) }
{
    let mut deepest = 0;
    for entry in entries.as_slice() {
        deepest = depth(&entry.value).max(deepest);
    }
    deepest
}
