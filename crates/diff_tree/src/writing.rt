//! Diffs written as JSON.
ghost use Rattle.std.specs.Prelude.{◌≡◌, IfOk, OnOk, map, codes};
ghost use Rattle.serde_json.specs.Data.{string, array, no_members, put};
ghost use Rattle.serde_json.specs.View.{view, items_view, members_view};
ghost use Rattle.serde_json.specs.Written.{compact_text};
ghost use Rattle.diff_tree.specs.Spelling.{texts_json, events_json, with_events, with_components, members_of};
ghost use Rattle.diff_tree.specs.Parts.{part_data, place_data, body_members, diff_data, places_json, row_data, rows_data, seen, with_statics, with_stream, limit_data, insert_data, inserts_data, stream_data, components_data, pushed_of, push_data};

use crate::{ComponentPart, Diff, Part, PartBody, PlaceValue, Push, Row, StreamInsert, StreamPart};
use serde_json::{Map, Value, put};
use std::alloc::Global;
use text_core::{ByKey, Names, OutOfMemory, Seq, Text};

/// The text of a diff: compact JSON (RFC 8259) with the keys of objects in byte order.
pub fn write_diff(alloc: Global, diff: &Diff) -> Result<Text, OutOfMemory>
    ensures { IfOk result (λ t. t ≡ compact_text (diff_data diff.now)) }
{
    let value = diff_value(alloc, diff)?;
    Ok(Text::from_string(value.to_string(alloc)?))
}

/// The JSON value of a diff.
pub fn diff_value(alloc: Global, diff: &Diff) -> Result<Value, OutOfMemory>
    ensures { IfOk result (λ v. view v ≡ diff_data diff.now) }
{
    let mut members = members_of(alloc, part_value(alloc, diff.root())?);
    add_components(alloc, &mut members, diff.components())?;
    add_events(alloc, &mut members, diff.events())?;
    Ok(Value::Object(members))
}

// The members of an object.
fn members_of(alloc: Global, value: Value) -> Map<String, Value>
    ensures { members_view result.entries ≡ members_of (view value) }
{
    match value {
        Value::Object(members) => members,
        _ => Map::new(alloc),
    }
}

// Components, where there are any, go under `c`.
fn add_components(
    alloc: Global,
    members: &mut Map<String, Value>,
    components: &[ComponentPart],
) -> Result<(), OutOfMemory>
    ensures { OnOk result (members_view members.new.entries ≡ with_components (components_data components.now) (members_view members.old.entries)) }
{
    if components.is_empty() {
        return Ok(());
    }
    let values = components_value(alloc, components)?;
    put(members, alloc, "c", Value::Object(values))?;
    Ok(())
}

// The last component is put first, so that of two with one number the first stays.
fn components_value(
    alloc: Global,
    components: &[ComponentPart],
) -> Result<Map<String, Value>, OutOfMemory>
    ensures { IfOk result (λ m. members_view m.entries ≡ components_data components.now) }
{
    let mut members = Map::new(alloc);
    let mut left = components.len();
    'components: while left > 0 {
        left -= 1;
        let component = &components[left];
        let key = component.number.to_string(alloc)?;
        let value = part_value(alloc, &component.part)?;
        put(&mut members, alloc, key.as_str(), value)?;
    }
    Ok(members)
}

// Events, where there are any, go under `e`.
fn add_events(
    alloc: Global,
    members: &mut Map<String, Value>,
    events: &[Push],
) -> Result<(), OutOfMemory>
    ensures { OnOk result (members_view members.new.entries ≡ with_events (map pushed_of events.now) (members_view members.old.entries)) }
{
    if events.is_empty() {
        return Ok(());
    }
    let values = events_value(alloc, events)?;
    put(members, alloc, "e", Value::Array(values))?;
    Ok(())
}

fn events_value(alloc: Global, events: &[Push]) -> Result<Vec<Value>, OutOfMemory>
    ensures { IfOk result (λ vs. items_view vs.items ≡ events_json (map pushed_of events.now)) }
{
    let mut values = Vec::new(alloc);
    'events: for event in events {
        values.push(event_value(alloc, event)?)?;
    }
    Ok(values)
}

fn event_value(alloc: Global, event: &Push) -> Result<Value, OutOfMemory>
    ensures { IfOk result (λ v. view v ≡ push_data event.now) }
{
    let mut items = Vec::new(alloc);
    items.push(text_value(alloc, &event.name)?)?;
    items.push(event.payload.clone()?)?;
    Ok(Value::Array(items))
}

#[cycle(write)]
fn part_value(alloc: Global, part: &Part) -> Result<Value, OutOfMemory>
    ensures { IfOk result (λ v. view v ≡ part_data part.now) }
{
    let mut members = body_value(alloc, &part.body)?;
    add_statics(alloc, &mut members, &part.statics)?;
    Ok(Value::Object(members))
}

#[cycle(write)]
fn body_value(alloc: Global, body: &PartBody) -> Result<Map<String, Value>, OutOfMemory>
    ensures { IfOk result (λ m. members_view m.entries ≡ body_members body.now) }
{
    match body {
        PartBody::Places(places) => places_value(alloc, places),
        PartBody::List { rows, stream } => {
            let rows = rows_value(alloc, rows)?;
            list_value(alloc, rows, stream)
        }
    }
}

#[cycle(write)]
fn place_value(alloc: Global, place: &PlaceValue) -> Result<Value, OutOfMemory>
    ensures { IfOk result (λ v. view v ≡ place_data place.now) }
{
    match place {
        PlaceValue::Text(text) => text_value(alloc, text),
        PlaceValue::Number(number) => Ok(Value::from(*number)),
        PlaceValue::Node(part) => part_value(alloc, part),
    }
}

#[cycle(write)]
fn places_value(
    alloc: Global,
    places: &ByKey<PlaceValue>,
) -> Result<Map<String, Value>, OutOfMemory>
    ensures { IfOk result (λ m. members_view m.entries ≡ places_json (seen places.now)) }
{
    let mut members = Map::new(alloc);
    'places: for entry in places.as_slice() {
        let value = place_value(alloc, &entry.value)?;
        put(&mut members, alloc, entry.key.as_str(), value)?;
    }
    Ok(members)
}

#[cycle(write)]
fn rows_value(alloc: Global, rows: &Seq<Row>) -> Result<Vec<Value>, OutOfMemory>
    ensures { IfOk result (λ vs. items_view vs.items ≡ rows_data rows.now) }
{
    let mut values = Vec::new(alloc);
    'rows: for row in rows.as_slice() {
        values.push(row_value(alloc, row)?)?;
    }
    Ok(values)
}

#[cycle(write)]
fn row_value(alloc: Global, row: &Row) -> Result<Value, OutOfMemory>
    ensures { IfOk result (λ v. view v ≡ array (row_data row.now)) }
{
    let mut values = Vec::new(alloc);
    'places: for place in row.values.as_slice() {
        values.push(place_value(alloc, place)?)?;
    }
    Ok(Value::Array(values))
}

// Rows under `d`, with the operations of a stream where it is one.
fn list_value(
    alloc: Global,
    rows: Vec<Value>,
    stream: &Option<StreamPart>,
) -> Result<Map<String, Value>, OutOfMemory>
    ensures { IfOk result (λ m. members_view m.entries ≡ put (codes "d") (array (items_view rows.items)) (with_stream stream.now no_members)) }
{
    let mut members = Map::new(alloc);
    if let Some(stream) = stream {
        put(&mut members, alloc, "stream", stream_value(alloc, stream)?)?;
    }
    put(&mut members, alloc, "d", Value::Array(rows))?;
    Ok(members)
}

fn stream_value(alloc: Global, stream: &StreamPart) -> Result<Value, OutOfMemory>
    ensures { IfOk result (λ v. view v ≡ stream_data stream.now) }
{
    let mut items = Vec::new(alloc);
    items.push(text_value(alloc, &stream.name)?)?;
    items.push(Value::Array(inserts_value(alloc, stream.inserts.as_slice())?))?;
    items.push(Value::Array(texts_value(alloc, stream.deletes.as_slice())?))?;
    if stream.reset {
        items.push(Value::Bool(true))?;
    }
    Ok(Value::Array(items))
}

fn inserts_value(alloc: Global, inserts: &[StreamInsert]) -> Result<Vec<Value>, OutOfMemory>
    ensures { IfOk result (λ vs. items_view vs.items ≡ inserts_data inserts.now) }
{
    let mut values = Vec::new(alloc);
    'inserts: for insert in inserts {
        values.push(insert_value(alloc, insert)?)?;
    }
    Ok(values)
}

fn insert_value(alloc: Global, insert: &StreamInsert) -> Result<Value, OutOfMemory>
    ensures { IfOk result (λ v. view v ≡ insert_data insert.now) }
{
    let mut items = Vec::new(alloc);
    items.push(text_value(alloc, &insert.id)?)?;
    items.push(Value::from(insert.at))?;
    items.push(limit_value(insert.limit))?;
    Ok(Value::Array(items))
}

fn limit_value(limit: Option<i64>) -> Value
    ensures { view result ≡ limit_data limit }
{
    match limit {
        Some(limit) => Value::from(limit),
        None => Value::Null,
    }
}

// Statics, where there are any, go under `s`.
fn add_statics(
    alloc: Global,
    members: &mut Map<String, Value>,
    statics: &Option<Names>,
) -> Result<(), OutOfMemory>
    ensures { OnOk result (members_view members.new.entries ≡ with_statics statics.now (members_view members.old.entries)) }
{
    let Some(statics) = statics else {
        return Ok(());
    };
    let texts = texts_value(alloc, statics.as_slice())?;
    put(members, alloc, "s", Value::Array(texts))?;
    Ok(())
}

fn text_value(alloc: Global, text: &Text) -> Result<Value, OutOfMemory>
    ensures { IfOk result (λ v. view v ≡ string text.now) }
{
    Ok(Value::String(String::from_str(alloc, text.as_str())?))
}

fn texts_value(alloc: Global, texts: &[Text]) -> Result<Vec<Value>, OutOfMemory>
    ensures { IfOk result (λ vs. items_view vs.items ≡ texts_json texts.now) }
{
    let mut values = Vec::new(alloc);
    'texts: for text in texts {
        values.push(text_value(alloc, text)?)?;
    }
    Ok(values)
}
