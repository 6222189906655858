//! Nodes read from JSON.
ghost use Rattle.std.specs.Prelude.{◌≡◌, ◌&&◌, ◌||◌, true, false, Some, None, IfOk, IsErrOf, MatchOption, option_map, codes, map, if◌then◌else◌};
ghost use Rattle.std.specs.List.{list_all};
ghost use Rattle.std.specs.Char.{is_ascii_digit};
ghost use Rattle.std.specs.Str.{bytes_eq};
ghost use Rattle.serde_json.specs.Data.{Data, array, object, number, unsigned};
ghost use Rattle.serde_json.specs.Find.{get, get_member};
ghost use Rattle.serde_json.specs.View.{view, items_of, items_view, members_view, number_view};
ghost use Rattle.text_core.specs.Keyed.{ascend};
ghost use Rattle.diff_tree.specs.Plain.{names};
ghost use Rattle.diff_tree.specs.Spelling.{texts_json};
ghost use Rattle.diff_tree.specs.Parts.{part_data, place_data, row_data, rows_data, places_json, seen};
ghost use Rattle.diff_tree.specs.Grammar.{is_place, are_texts, count_of, has_places, surround, are_statics, statics_fit, is_number, is_node, is_value, are_places, are_listed, is_rows, are_rows, is_row, are_values, without, with_member};

use crate::list_reading::list_of;
use crate::{DiffFault, Part, PlaceValue, Row};
use serde_json::{Map, Number, Value};
use std::alloc::Global;
use text_core::{ByKey, Names, OutOfMemory, Seq, Text};

/// The node that a JSON value is.
#[cycle(read)]
pub(crate) fn read_node(alloc: Global, value: &Value) -> Result<Part, DiffFault>
    ensures ok { IfOk result (λ p. (is_node (view value.now) ≡ true) × (part_data p ≡ view value.now)) }
    ensures bad { IsErrOf result DiffFault.BadDiff → is_node (view value.now) ≡ false }
{
    match value {
        Value::Object(members) => {
            if value.get("d").is_some() {
                return list_of(alloc, value, read_listed(alloc, members)?);
            }
            node_of(alloc, value, read_places(alloc, members)?)
        }
        Value::Null | Value::Bool(_) | Value::Number(_) | Value::String(_) | Value::Array(_) => {
            Err(DiffFault::BadDiff)
        }
    }
}

#[cycle(read)]
fn read_places(alloc: Global, members: &Map<String, Value>) -> Result<ByKey<PlaceValue>, DiffFault>
    ensures ok { IfOk result (λ es. (are_places (members_view members.now.entries) ≡ true) × (places_json (seen es) ≡ without (codes "s") (members_view members.now.entries))) }
    ensures in_order { IfOk result (λ _. ascend (names (members_view members.now.entries)) ≡ true) }
    ensures bad { IsErrOf result DiffFault.BadDiff → are_places (members_view members.now.entries) ≡ false }
{
    let mut places = ByKey::new(alloc);
    'members: for (key, member) in members.iter() {
        if key.as_str() == "s" {
            continue;
        }
        let place = read_place(alloc, key.as_str(), member)?;
        places.push_last(Text::copy_of(alloc, key.as_str())?, place)?;
    }
    Ok(places)
}

#[cycle(read)]
fn read_place(alloc: Global, key: &str, value: &Value) -> Result<PlaceValue, DiffFault>
    ensures ok { IfOk result (λ p. ((is_place key.now && is_value (view value.now)) ≡ true) × (place_data p ≡ view value.now)) }
    ensures bad { IsErrOf result DiffFault.BadDiff → (is_place key.now && is_value (view value.now)) ≡ false }
{
    if !is_place(key) {
        return Err(DiffFault::BadDiff);
    }
    read_value(alloc, value)
}

#[cycle(read)]
fn read_value(alloc: Global, value: &Value) -> Result<PlaceValue, DiffFault>
    ensures ok { IfOk result (λ p. (is_value (view value.now) ≡ true) × (place_data p ≡ view value.now)) }
    ensures bad { IsErrOf result DiffFault.BadDiff → is_value (view value.now) ≡ false }
{
    match value {
        Value::String(text) => Ok(PlaceValue::Text(Text::copy_of(alloc, text.as_str())?)),
        Value::Number(number) => Ok(PlaceValue::Number(read_number(number)?)),
        Value::Object(_) => Ok(PlaceValue::Node(read_node(alloc, value)?)),
        Value::Null | Value::Bool(_) | Value::Array(_) => Err(DiffFault::BadDiff),
    }
}

// The rows under `d` of the members of a list node.
#[cycle(read)]
fn read_listed(alloc: Global, members: &Map<String, Value>) -> Result<Seq<Row>, DiffFault>
    ensures ok { IfOk result (λ rs. (are_listed (members_view members.now.entries) ≡ true) × ((d : Data) → get_member (codes "d") (members_view members.now.entries) ≡ Some d → array (rows_data rs) ≡ d)) }
    ensures in_order { IfOk result (λ _. ascend (names (members_view members.now.entries)) ≡ true) }
    ensures bad { IsErrOf result DiffFault.BadDiff → are_listed (members_view members.now.entries) ≡ false }
{
    let mut rows = Seq::new(alloc);
    'members: for (key, member) in members.iter() {
        rows = rows_after(alloc, key.as_str(), member, rows)?;
    }
    Ok(rows)
}

// The rows after one more member, which are those under `d`.
#[cycle(read)]
fn rows_after(
    alloc: Global,
    key: &str,
    value: &Value,
    rows: Seq<Row>,
) -> Result<Seq<Row>, DiffFault>
    ensures ok { IfOk result (λ rs. ((bytes_eq key.now (codes "s") || bytes_eq key.now (codes "stream") || (bytes_eq key.now (codes "d") && is_rows (view value.now))) ≡ true)
        × (bytes_eq key.now (codes "d") ≡ true → array (rows_data rs) ≡ view value.now) × (bytes_eq key.now (codes "d") ≡ false → rs ≡ rows)) }
    ensures bad { IsErrOf result DiffFault.BadDiff → (bytes_eq key.now (codes "s") || bytes_eq key.now (codes "stream") || (bytes_eq key.now (codes "d") && is_rows (view value.now))) ≡ false }
{
    match key {
        "s" | "stream" => Ok(rows),
        "d" => read_rows(alloc, value),
        _ => Err(DiffFault::BadDiff),
    }
}

#[cycle(read)]
fn read_rows(alloc: Global, value: &Value) -> Result<Seq<Row>, DiffFault>
    ensures ok { IfOk result (λ rs. (is_rows (view value.now) ≡ true) × (array (rows_data rs) ≡ view value.now)) }
    ensures bad { IsErrOf result DiffFault.BadDiff → is_rows (view value.now) ≡ false }
{
    match value {
        Value::Array(items) => rows_of_items(alloc, items),
        Value::Null | Value::Bool(_) | Value::Number(_) | Value::String(_) | Value::Object(_) => {
            Err(DiffFault::BadDiff)
        }
    }
}

#[cycle(read)]
fn rows_of_items(alloc: Global, items: &Vec<Value>) -> Result<Seq<Row>, DiffFault>
    ensures ok { IfOk result (λ rs. (are_rows (items_view items.now.items) ≡ true) × (rows_data rs ≡ items_view items.now.items)) }
    ensures bad { IsErrOf result DiffFault.BadDiff → are_rows (items_view items.now.items) ≡ false }
{
    let mut rows = Seq::new(alloc);
    'items: for item in items {
        rows.push(read_row(alloc, item)?)?;
    }
    Ok(rows)
}

#[cycle(read)]
fn read_row(alloc: Global, value: &Value) -> Result<Row, DiffFault>
    ensures ok { IfOk result (λ r. (is_row (view value.now) ≡ true) × (array (row_data r) ≡ view value.now)) }
    ensures bad { IsErrOf result DiffFault.BadDiff → is_row (view value.now) ≡ false }
{
    match value {
        Value::Array(items) => Ok(Row::new(values_of_items(alloc, items)?)),
        Value::Null | Value::Bool(_) | Value::Number(_) | Value::String(_) | Value::Object(_) => {
            Err(DiffFault::BadDiff)
        }
    }
}

#[cycle(read)]
fn values_of_items(alloc: Global, items: &Vec<Value>) -> Result<Seq<PlaceValue>, DiffFault>
    ensures ok { IfOk result (λ vs. (are_values (items_view items.now.items) ≡ true) × (items_of (map place_data vs) ≡ items_view items.now.items)) }
    ensures bad { IsErrOf result DiffFault.BadDiff → are_values (items_view items.now.items) ≡ false }
{
    let mut values = Seq::new(alloc);
    'items: for item in items {
        values.push(read_value(alloc, item)?)?;
    }
    Ok(values)
}

// The number of a component.
fn read_number(number: &Number) -> Result<u64, DiffFault>
    ensures ok { IfOk result (λ n. (is_number (number_view number.now) ≡ true) × (unsigned n ≡ number_view number.now)) }
    ensures bad { IsErrOf result DiffFault.BadDiff → is_number (number_view number.now) ≡ false }
{
    match number.as_u64() {
        Some(number) => if number == 0 {
            Err(DiffFault::BadDiff)
        } else {
            Ok(number)
        },
        None => Err(DiffFault::BadDiff),
    }
}

/// Whether a key is a decimal with no zero in front.
pub(crate) fn is_place(key: &str) -> bool
    ensures { result ≡ is_place key.now }
{
    match key.as_bytes() {
        [] => false,
        [b'0', rest @ ..] => rest.is_empty(),
        digits => are_digits(digits),
    }
}

fn are_digits(bytes: &[u8]) -> bool
    ensures { result ≡ list_all is_ascii_digit bytes.now }
{
    bytes.iter().all(|byte| byte.is_ascii_digit())
}

// The node of an object that has the values of these places.
fn node_of(alloc: Global, value: &Value, places: ByKey<PlaceValue>) -> Result<Part, DiffFault>
    ensures ok { IfOk result (λ p. (statics_fit (view value.now) ≡ true) × (part_data p ≡ object (with_member (codes "s") (get (codes "s") (view value.now)) (places_json (seen places))))) }
    ensures bad { IsErrOf result DiffFault.BadDiff → statics_fit (view value.now) ≡ false }
{
    let statics = read_statics(alloc, value)?;
    Ok(Part::new(statics, places))
}

// The statics of an object, where it has any.
fn read_statics(alloc: Global, value: &Value) -> Result<Option<Names>, DiffFault>
    ensures ok { IfOk result (λ st. (statics_fit (view value.now) ≡ true) × (option_map (λ ts. array (texts_json ts)) st ≡ get (codes "s") (view value.now))) }
    ensures bad { IsErrOf result DiffFault.BadDiff → statics_fit (view value.now) ≡ false }
{
    match value.get("s") {
        None => Ok(None),
        Some(statics) => Ok(Some(statics_around(alloc, value, statics)?)),
    }
}

// The statics that stand around the places of an object.
fn statics_around(alloc: Global, value: &Value, statics: &Value) -> Result<Names, DiffFault>
    ensures ok { IfOk result (λ ts. (are_statics (Some (view statics.now)) (view value.now) ≡ true) × (array (texts_json ts) ≡ view statics.now)) }
    ensures bad { IsErrOf result DiffFault.BadDiff → are_statics (Some (view statics.now)) (view value.now) ≡ false }
{
    let Some(items) = statics.as_array() else {
        return Err(DiffFault::BadDiff);
    };
    let items = items.as_slice();
    let texts = read_texts(alloc, items)?;
    if !surround(alloc, value, items.len())? {
        return Err(DiffFault::BadDiff);
    }
    Ok(texts)
}

/// A list of texts.
pub(crate) fn read_texts(alloc: Global, items: &[Value]) -> Result<Names, DiffFault>
    ensures ok { IfOk result (λ ts. (are_texts (items_view items.now) ≡ true) × (texts_json ts ≡ items_view items.now)) }
    ensures bad { IsErrOf result DiffFault.BadDiff → are_texts (items_view items.now) ≡ false }
{
    let mut texts = Seq::new(alloc);
    'items: for item in items {
        let Some(text) = item.as_str() else {
            return Err(DiffFault::BadDiff);
        };
        texts.push(Text::copy_of(alloc, text)?)?;
    }
    Ok(texts)
}

// Whether so many statics stand around the places from 0 on, with no other member.
fn surround(alloc: Global, value: &Value, statics: usize) -> Result<bool, OutOfMemory>
    ensures { IfOk result (λ b. b ≡ surround statics (view value.now)) }
{
    if count_of(value) != statics {
        return Ok(false);
    }
    has_places(alloc, value, statics.saturating_sub(1))
}

fn count_of(value: &Value) -> usize
    ensures { result ≡ count_of (view value.now) }
{
    match value.as_object() {
        Some(members) => members.len(),
        None => 0,
    }
}

// Whether each number below this one is a key.
fn has_places(alloc: Global, value: &Value, count: usize) -> Result<bool, OutOfMemory>
    ensures { IfOk result (λ b. b ≡ has_places count (view value.now)) }
{
    'places: for place in 0..count {
        let key = place.to_string(alloc)?;
        if value.get(key.as_str()).is_none() {
            return Ok(false);
        }
    }
    Ok(true)
}
