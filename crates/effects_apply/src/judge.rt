//! What effects may carry.
ghost use Rattle.std.specs.Prelude.{◌≡◌, IfOk, nat_lt, is_ok, false};
ghost use Rattle.serde_json.specs.Written.{compact_text, has_float};
ghost use Rattle.serde_json.specs.View.{view as json_view};
ghost use Rattle.value_core.specs.View.{view, values_view, assigns_view};
ghost use Rattle.doc_model.specs.Calls.{has_slot, have_slot, hold_slot};
ghost use Rattle.value_core.specs.Nesting.{depth_of};
ghost use Rattle.doc_model.specs.Effects.{storable, sendable, position_of, limit_of, is_kept_name};
ghost use Rattle.effects_apply.specs.Applied.{GivesJson, GivesPush};

use crate::fault::EffectFault;
use diff_tree::Push;
use serde_json::Value as Json;
use std::alloc::Global;
use text_core::{Bytes, OutOfMemory, Text};
use value_core::{Assigns, ToJsonFault, Value, Values, depth, to_json};

// How many levels a value may have that is stored or sent.
const MOST_LEVELS: u32 = 100;

/// Whether a slot stands inside a value.
#[cycle(slot)]
pub fn holds_slot(value: &Value) -> bool
    ensures { result ≡ has_slot (view value.now) }
{
    match value {
        Value::List(items) | Value::Tuple(items) => items_hold_slot(items),
        Value::Map(entries) => entries_hold_slot(entries),
        Value::Slot(_) => true,
        _ => false,
    }
}

#[cycle(slot)]
fn items_hold_slot(items: &Values) -> bool
    ensures { result ≡ have_slot (values_view items.now) }
{
    'items: for item in items.as_slice() {
        if holds_slot(item) {
            return true;
        }
    }
    false
}

#[cycle(slot)]
fn entries_hold_slot(entries: &Assigns) -> bool
    ensures { result ≡ hold_slot (assigns_view entries.now) }
{
    'entries: for entry in entries.as_slice() {
        if holds_slot(&entry.value) {
            return true;
        }
    }
    false
}

// Whether a value nests deeper than one may that is stored or sent.
fn is_deep(value: &Value) -> bool
    ensures { result ≡ nat_lt 100 (depth_of (view value.now)) }
{
    depth(value) > MOST_LEVELS
}

/// Whether a value may be assigned, or inserted into a stream: no slot stands inside, and it has at most 100 levels.
pub(crate) fn is_storable(value: &Value) -> bool
    ensures { result ≡ is_ok (storable (view value.now)) }
{
    if holds_slot(value) {
        return false;
    }
    !is_deep(value)
}

/// Whether no effect assigns the name.
pub(crate) fn is_kept(name: &str) -> bool
    ensures { result ≡ is_kept_name name.now }
{
    name == "streams" || name == "myself"
}

/// Whether an insert may have this position: -1 for the end, or a place from 0 on.
pub(crate) fn is_position(at: i64) -> bool
    ensures { result ≡ is_ok (position_of at) }
{
    at >= -1
}

/// Whether an insert may have this limit.
pub(crate) fn is_limit(limit: Option<i64>) -> bool
    ensures { result ≡ is_ok (limit_of limit) }
{
    limit != Some(0)
}

/// The JSON value that a value is published, sent or pushed as. It raises exactly where the value has none or has more
/// than 100 levels.
pub(crate) fn sendable_json(alloc: Global, value: &Value) -> Result<Json, EffectFault>
    ensures { GivesJson result (sendable (view value.now)) }
{
    if is_deep(value) {
        return Err(EffectFault::Raised);
    }
    match to_json(alloc, value) {
        Ok(json) => Ok(json),
        Err(ToJsonFault::NoJson) => Err(EffectFault::Raised),
        Err(ToJsonFault::OutOfMemory) => Err(EffectFault::OutOfMemory),
    }
}

/// The event for the page's browser of this name, with the value. It raises where the value may not be sent.
pub(crate) fn sendable_push(alloc: Global, name: Text, value: &Value) -> Result<Push, EffectFault>
    ensures { GivesPush result name (sendable (view value.now)) }
{
    let payload = sendable_json(alloc, value)?;
    match Push::new(name, payload) {
        Some(push) => Ok(push),
        None => Err(EffectFault::Raised),
    }
}

/// A JSON value as text with no space.
pub(crate) fn compact(alloc: Global, json: &Json) -> Result<Bytes, OutOfMemory>
    requires { has_float (json_view json.now) ≡ false }
    ensures { IfOk result (λ b. b ≡ compact_text (json_view json.now)) }
{
    Ok(Bytes::from_vec(json.to_string(alloc)?.into_bytes()))
}
