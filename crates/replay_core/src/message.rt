//! The messages that a browser sends, as compact JSON with the keys of objects in byte order.
ghost use Rattle.std.specs.Prelude.{◌≡◌, IfOk, false};
ghost use Rattle.serde_json.specs.Data.{string, object, member, no_members};
ghost use Rattle.serde_json.specs.Written.{compact_text, has_float};
ghost use Rattle.serde_json.specs.View.{view as json_view};
ghost use Rattle.value_core.specs.View.{view};
ghost use Rattle.value_core.specs.Json.{value_of_json};
ghost use Rattle.std.specs.Prelude.{Some};
ghost use Rattle.replay_core.specs.Spoken.{reference_data, written, event_data, topic_of, message_data, join_payload, event_payload, join_text, event_text};

use serde_json::{Map, Value as Json, put};
use std::alloc::Global;
use text_core::{Bytes, OutOfMemory, Text};
use value_core::{JsonFault, ToJsonFault, Value, from_json, to_json};

fn word(alloc: Global, text: &str) -> Result<Json, OutOfMemory>
    ensures { IfOk result (λ j. json_view j ≡ string text.now) }
{
    Ok(Json::String(String::from_str(alloc, text)?))
}

// A reference or null.
fn reference_json(alloc: Global, reference: &Option<Text>) -> Result<Json, OutOfMemory>
    ensures { IfOk result (λ j. json_view j ≡ reference_data reference.now) }
{
    match reference {
        Some(reference) => word(alloc, reference.as_str()),
        None => Ok(Json::Null),
    }
}

fn topic_of(alloc: Global, name: &str) -> Result<Text, OutOfMemory>
    ensures { IfOk result (λ t. t ≡ topic_of name.now) }
{
    let mut topic = Text::copy_of(alloc, "lv:")?;
    topic.push_str(name)?;
    Ok(topic)
}

// The JSON of a value, or null where it has none.
fn written(alloc: Global, value: &Value) -> Result<Json, OutOfMemory>
    ensures data { IfOk result (λ j. json_view j ≡ written (Some (view value.now))) }
    ensures whole { IfOk result (λ j. has_float (json_view j) ≡ false) }
{
    match to_json(alloc, value) {
        Ok(json) => Ok(json),
        Err(ToJsonFault::NoJson) => Ok(Json::Null),
        Err(ToJsonFault::OutOfMemory) => Err(OutOfMemory),
    }
}

// The JSON of the value that JSON stands for, or null where it stands for none.
fn plain(alloc: Global, json: &Json) -> Result<Json, OutOfMemory>
    ensures data { IfOk result (λ j. json_view j ≡ written (value_of_json (json_view json.now))) }
    ensures whole { IfOk result (λ j. has_float (json_view j) ≡ false) }
{
    match from_json(alloc, json) {
        Ok(value) => written(alloc, &value),
        Err(JsonFault::NoValue) => Ok(Json::Null),
        Err(JsonFault::OutOfMemory) => Err(OutOfMemory),
    }
}

// The JSON that an event carries.
#[tactic(auto, unfolding(crate::specs::Spoken::event_data))]
fn event_json(alloc: Global, text: &str) -> Result<Json, OutOfMemory>
    ensures data { IfOk result (λ j. json_view j ≡ event_data text.now) }
    ensures whole { IfOk result (λ j. has_float (json_view j) ≡ false) }
{
    match Json::from_str(alloc, text) {
        Ok(json) => plain(alloc, &json),
        Err(fault) => {
            if fault.is_memory() {
                Err(OutOfMemory)
            } else {
                Ok(Json::Null)
            }
        }
    }
}

fn join_payload(alloc: Global, url: &str) -> Result<Json, OutOfMemory>
    ensures { IfOk result (λ j. json_view j ≡ join_payload url.now) }
{
    let mut members = Map::new(alloc);
    put(&mut members, alloc, "url", word(alloc, url)?)?;
    Ok(Json::Object(members))
}

fn event_payload(alloc: Global, kind: &str, event: &str, value: Json) -> Result<Json, OutOfMemory>
    ensures { IfOk result (λ j. json_view j ≡ event_payload kind.now event.now (json_view value)) }
{
    let mut members = Map::new(alloc);
    let event = word(alloc, event)?;
    put(&mut members, alloc, "event", event)?;
    let kind = word(alloc, kind)?;
    put(&mut members, alloc, "type", kind)?;
    put(&mut members, alloc, "value", value)?;
    Ok(Json::Object(members))
}

fn message_json(
    alloc: Global,
    join_reference: &Option<Text>,
    reference: &Text,
    topic: &Text,
    event: &str,
    payload: Json,
) -> Result<Json, OutOfMemory>
    ensures { IfOk result (λ j. json_view j ≡ message_data join_reference.now reference.now topic.now event.now (json_view payload)) }
{
    let mut items = Vec::new(alloc);
    items.push(reference_json(alloc, join_reference)?)?;
    items.push(word(alloc, reference.as_str())?)?;
    items.push(word(alloc, topic.as_str())?)?;
    items.push(word(alloc, event)?)?;
    items.push(payload)?;
    Ok(Json::Array(items))
}

fn compact(alloc: Global, json: &Json) -> Result<Bytes, OutOfMemory>
    requires { has_float (json_view json.now) ≡ false }
    ensures { IfOk result (λ b. b ≡ compact_text (json_view json.now)) }
{
    Ok(Bytes::from_vec(json.to_string(alloc)?.into_bytes()))
}

/// The message by which the browser of that name joins a page, with this reference.
pub(crate) fn join_text(
    alloc: Global,
    name: &str,
    reference: &Text,
    url: &str,
) -> Result<Bytes, OutOfMemory>
    ensures { IfOk result (λ b. b ≡ join_text name.now reference.now url.now) }
{
    let join_reference = Some(reference.copy(alloc)?);
    let topic = topic_of(alloc, name)?;
    let payload = join_payload(alloc, url)?;
    let json = message_json(
        alloc,
        &join_reference,
        reference,
        &topic,
        "phx_join",
        payload,
    )?;
    compact(alloc, &json)
}

/// The message by which the browser of that name tells an event of this type, under this reference.
pub(crate) fn event_text(
    alloc: Global,
    name: &str,
    join_reference: &Option<Text>,
    reference: &Text,
    kind: &str,
    event: &str,
    value: &str,
) -> Result<Bytes, OutOfMemory>
    ensures { IfOk result (λ b. b ≡ event_text name.now join_reference.now reference.now kind.now event.now value.now) }
{
    let topic = topic_of(alloc, name)?;
    let value = event_json(alloc, value)?;
    let payload = event_payload(alloc, kind, event, value)?;
    let json = message_json(alloc, join_reference, reference, &topic, "event", payload)?;
    compact(alloc, &json)
}
