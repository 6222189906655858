//! The values of places under their numbers.
ghost use Rattle.std.specs.Prelude.{◌≡◌, IfOk, OnOk};
ghost use Rattle.std.specs.Fmt.{decimal};
ghost use Rattle.serde_json.specs.Data.{put};
ghost use Rattle.diff_tree.specs.Parts.{place_data, places_json, seen};
ghost use Rattle.diff_render.specs.Values.{numbered, numbered_changes, options_seen, values_seen};

use diff_tree::PlaceValue;
use std::alloc::Global;
use text_core::{ByKey, OutOfMemory, Seq, Text};

/// All values, by the numbers of their places.
pub(crate) fn by_number(
    alloc: Global,
    values: Seq<PlaceValue>,
) -> Result<ByKey<PlaceValue>, OutOfMemory>
    ensures { IfOk result (λ es. places_json (seen es) ≡ numbered 0 (values_seen values)) }
{
    let mut values = values;
    let mut places = ByKey::new(alloc);
    'values: while let Some(value) = values.pop() {
        put_at(alloc, &mut places, values.len(), value)?;
    }
    Ok(places)
}

/// The values of the places that change, by their numbers.
pub(crate) fn changes_by_number(
    alloc: Global,
    changes: Seq<Option<PlaceValue>>,
) -> Result<ByKey<PlaceValue>, OutOfMemory>
    ensures { IfOk result (λ es. places_json (seen es) ≡ numbered_changes 0 (options_seen changes)) }
{
    let mut changes = changes;
    let mut places = ByKey::new(alloc);
    'changes: while let Some(change) = changes.pop() {
        if let Some(value) = change {
            put_at(alloc, &mut places, changes.len(), value)?;
        }
    }
    Ok(places)
}

// Puts a value in the place of a number.
fn put_at(
    alloc: Global,
    places: &mut ByKey<PlaceValue>,
    number: usize,
    value: PlaceValue,
) -> Result<(), OutOfMemory>
    ensures { OnOk result (places_json (seen places.new) ≡ put (decimal number) (place_data value) (places_json (seen places.old))) }
{
    let key = Text::from_string(number.to_string(alloc)?);
    places.insert(key, value)
}
