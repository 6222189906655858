//! The JSON value that a value is written as.
ghost use Rattle.std.specs.Prelude.{◌≡◌, Some, None, IfOk, IsErrOf};
ghost use Rattle.serde_json.specs.View.{view as json_view, items_view, members_view};
ghost use Rattle.value_core.specs.Json.{json_of_value, json_of_values, json_of_assigns};
ghost use Rattle.value_core.specs.View.{view, values_view, assigns_view};

use crate::{Assigns, Value, Values};
use serde_json::{Map, Value as Json};
use std::alloc::{AllocError, AllocFailed, Global};

/// Why a value is not written as JSON.
#[derive(Clone, Copy, Debug, PartialEq, Eq)]
pub enum ToJsonFault {
    /// An atom, a tuple or a slot stands inside.
    NoJson,
    /// Memory was wanting.
    OutOfMemory,
}

impl From<AllocError> for ToJsonFault {
    ghost use Rattle.std.specs.Prelude.{◌≡◌};
    ghost use Rattle.value_core.specs.declared.writing.ToJsonFault.TheVariants as fault;

    ghost from_gives = { λ _ e. e ≡ fault.OutOfMemory };

    fn from(_: AllocError) -> ToJsonFault {
        ToJsonFault::OutOfMemory
    }
}

impl<T: Drop> From<AllocFailed<T>> for ToJsonFault {
    ghost use Rattle.std.specs.Prelude.{◌≡◌};
    ghost use Rattle.value_core.specs.declared.writing.ToJsonFault.TheVariants as fault;

    ghost from_gives = { λ _ e. e ≡ fault.OutOfMemory };

    fn from(_: AllocFailed<T>) -> ToJsonFault {
        ToJsonFault::OutOfMemory
    }
}

/// The JSON value that a value is written as. It answers NoJson exactly where an atom, a tuple or a slot stands inside.
#[cycle(write)]
pub fn to_json(alloc: Global, value: &Value) -> Result<Json, ToJsonFault>
    ensures ok { IfOk result (λ j. json_of_value (view value.now) ≡ Some (json_view j)) }
    ensures refused { IsErrOf result ToJsonFault.NoJson → json_of_value (view value.now) ≡ None }
{
    match value {
        Value::Nil => Ok(Json::Null),
        Value::Bool(b) => Ok(Json::Bool(*b)),
        Value::Int(n) => Ok(Json::from(*n)),
        Value::Text(text) => Ok(Json::try_from_str(alloc, text.as_str())?),
        Value::List(items) => Ok(Json::Array(write_items(alloc, items)?)),
        Value::Map(entries) => Ok(Json::Object(write_entries(alloc, entries)?)),
        Value::Atom(_) | Value::Tuple(_) | Value::Slot(_) => Err(ToJsonFault::NoJson),
    }
}

#[cycle(write)]
fn write_items(alloc: Global, items: &Values) -> Result<Vec<Json>, ToJsonFault>
    ensures ok { IfOk result (λ v. json_of_values (values_view items.now) ≡ Some (items_view v.items)) }
    ensures refused { IsErrOf result ToJsonFault.NoJson → json_of_values (values_view items.now) ≡ None }
{
    let mut written = Vec::new(alloc);
    'items: for item in items.as_slice() {
        written.push(to_json(alloc, item)?)?;
    }
    Ok(written)
}

#[cycle(write)]
fn write_entries(alloc: Global, entries: &Assigns) -> Result<Map<String, Json>, ToJsonFault>
    ensures ok { IfOk result (λ m. json_of_assigns (assigns_view entries.now) ≡ Some (members_view m.entries)) }
    ensures refused { IsErrOf result ToJsonFault.NoJson → json_of_assigns (assigns_view entries.now) ≡ None }
{
    let mut members = Map::new(alloc);
    'entries: for entry in entries.as_slice() {
        let member = to_json(alloc, &entry.value)?;
        serde_json::put(&mut members, alloc, entry.key.as_str(), member)?;
    }
    Ok(members)
}
