//! The value that a JSON value stands for.
ghost use Rattle.std.specs.Prelude.{◌≡◌, Some, None, IfOk, IsErrOf};
ghost use Rattle.serde_json.specs.View.{view as json_view, items_view, members_view};
ghost use Rattle.value_core.specs.Json.{value_of_json, value_within, values_within, assigns_within};
ghost use Rattle.value_core.specs.View.{view, values_view, assigns_view};

use crate::{Assigns, Value, Values};
use serde_json::{Map, Value as Json};
use std::alloc::Global;
use text_core::{ByKey, OutOfMemory, Seq, Text};

// How deep arrays and objects may nest.
const MOST_LEVELS: u32 = 100;

/// Why a JSON value stands for no value.
#[derive(Clone, Copy, Debug, PartialEq, Eq)]
pub enum JsonFault {
    /// A number is no whole number of 64 bits signed, or arrays and objects nest deeper than 100.
    NoValue,
    /// Memory was wanting.
    OutOfMemory,
}

impl From<OutOfMemory> for JsonFault {
    ghost use Rattle.std.specs.Prelude.{◌≡◌};
    ghost use Rattle.value_core.specs.declared.reading.JsonFault.TheVariants as fault;

    ghost from_gives = { λ _ e. e ≡ fault.OutOfMemory };

    fn from(_: OutOfMemory) -> JsonFault {
        JsonFault::OutOfMemory
    }
}

/// The value that a JSON value stands for. It answers NoValue exactly where there is none.
pub fn from_json(alloc: Global, json: &Json) -> Result<Value, JsonFault>
    ensures ok { IfOk result (λ v. value_of_json (json_view json.now) ≡ Some (view v)) }
    ensures refused { IsErrOf result JsonFault.NoValue → value_of_json (json_view json.now) ≡ None }
{
    read(alloc, json, MOST_LEVELS)
}

// The value, where arrays and objects nest at most that deep.
#[cycle(read)]
fn read(alloc: Global, json: &Json, levels: u32) -> Result<Value, JsonFault>
    ensures ok { IfOk result (λ v. value_within levels (json_view json.now) ≡ Some (view v)) }
    ensures refused { IsErrOf result JsonFault.NoValue → value_within levels (json_view json.now) ≡ None }
{
    match json {
        Json::Null => Ok(Value::Nil),
        Json::Bool(b) => Ok(Value::Bool(*b)),
        Json::Number(n) => match n.as_i64() {
            Some(whole) => Ok(Value::Int(whole)),
            None => Err(JsonFault::NoValue),
        },
        Json::String(text) => Ok(Value::Text(Text::copy_of(alloc, text.as_str())?)),
        Json::Array(items) => {
            if levels == 0 {
                return Err(JsonFault::NoValue);
            }
            Ok(Value::List(read_items(alloc, items, levels - 1)?))
        }
        Json::Object(members) => {
            if levels == 0 {
                return Err(JsonFault::NoValue);
            }
            Ok(Value::Map(read_members(alloc, members, levels - 1)?))
        }
    }
}

#[cycle(read)]
fn read_items(alloc: Global, items: &Vec<Json>, levels: u32) -> Result<Values, JsonFault>
    ensures ok { IfOk result (λ vs. values_within levels (items_view items.now.items) ≡ Some (values_view vs)) }
    ensures refused { IsErrOf result JsonFault.NoValue → values_within levels (items_view items.now.items) ≡ None }
{
    let mut values = Seq::new(alloc);
    'items: for item in items {
        values.push(read(alloc, item, levels)?)?;
    }
    Ok(values)
}

#[cycle(read)]
fn read_members(
    alloc: Global,
    members: &Map<String, Json>,
    levels: u32,
) -> Result<Assigns, JsonFault>
    ensures ok { IfOk result (λ es. assigns_within levels (members_view members.now.entries) ≡ Some (assigns_view es)) }
    ensures refused { IsErrOf result JsonFault.NoValue → assigns_within levels (members_view members.now.entries) ≡ None }
{
    let mut entries = ByKey::new(alloc);
    'members: for (key, member) in members.iter() {
        let value = read(alloc, member, levels)?;
        entries.push_last(Text::copy_of(alloc, key.as_str())?, value)?;
    }
    Ok(entries)
}
