//! Pushed events read from JSON.
ghost use Rattle.std.specs.Prelude.{◌≡◌, true, false, Some, IfOk, IsErrOf, codes, map};
ghost use Rattle.serde_json.specs.Data.{array, item, no_items, Members, put};
ghost use Rattle.serde_json.specs.View.{view, items_view};
ghost use Rattle.diff_tree.specs.Spelling.{with_events, events_json};
ghost use Rattle.diff_tree.specs.Parts.{pushed_of, push_data};
ghost use Rattle.diff_tree.specs.Grammar.{is_event, are_events, events_fit};

use crate::{DiffFault, Push, Pushes};
use serde_json::Value;
use std::alloc::Global;
use text_core::{Seq, Text};

/// The events that a list under `e` has, which is not empty.
pub(crate) fn listed_events(alloc: Global, value: &Value) -> Result<Pushes, DiffFault>
    ensures ok { IfOk result (λ ps. (events_fit (Some (view value.now)) ≡ true) × ((ms : Members) → with_events (map pushed_of ps) ms ≡ put (codes "e") (view value.now) ms)) }
    ensures bad { IsErrOf result DiffFault.BadDiff → events_fit (Some (view value.now)) ≡ false }
{
    let Some(items) = value.as_array() else {
        return Err(DiffFault::BadDiff);
    };
    let items = items.as_slice();
    if items.is_empty() {
        return Err(DiffFault::BadDiff);
    }
    let events = read_events(alloc, items)?;
    Ok(events)
}

fn read_events(alloc: Global, items: &[Value]) -> Result<Pushes, DiffFault>
    ensures ok { IfOk result (λ ps. (are_events (items_view items.now) ≡ true) × (events_json (map pushed_of ps) ≡ items_view items.now)) }
    ensures bad { IsErrOf result DiffFault.BadDiff → are_events (items_view items.now) ≡ false }
{
    let mut events = Seq::new(alloc);
    'items: for item in items {
        events.push(read_event(alloc, item)?)?;
    }
    Ok(events)
}

fn read_event(alloc: Global, value: &Value) -> Result<Push, DiffFault>
    ensures ok { IfOk result (λ p. (is_event (view value.now) ≡ true) × (push_data p ≡ view value.now)) }
    ensures bad { IsErrOf result DiffFault.BadDiff → is_event (view value.now) ≡ false }
{
    match value.as_array() {
        Some(items) => event_of_items(alloc, items.as_slice()),
        None => Err(DiffFault::BadDiff),
    }
}

// An event has two items.
fn event_of_items(alloc: Global, items: &[Value]) -> Result<Push, DiffFault>
    ensures ok { IfOk result (λ p. (is_event (array (items_view items.now)) ≡ true) × (push_data p ≡ array (items_view items.now))) }
    ensures bad { IsErrOf result DiffFault.BadDiff → is_event (array (items_view items.now)) ≡ false }
{
    match items {
        [name, payload] => event_from(alloc, name, payload),
        _ => Err(DiffFault::BadDiff),
    }
}

fn event_from(alloc: Global, name: &Value, payload: &Value) -> Result<Push, DiffFault>
    ensures ok { IfOk result (λ p. (is_event (array (item (view name.now) (item (view payload.now) no_items))) ≡ true) × (push_data p ≡ array (item (view name.now) (item (view payload.now) no_items)))) }
    ensures bad { IsErrOf result DiffFault.BadDiff → is_event (array (item (view name.now) (item (view payload.now) no_items))) ≡ false }
{
    let Some(name) = name.as_str() else {
        return Err(DiffFault::BadDiff);
    };
    match Push::new(Text::copy_of(alloc, name)?, payload.clone()?) {
        Some(push) => Ok(push),
        None => Err(DiffFault::BadDiff),
    }
}
