//! What an event carries.
ghost use Rattle.std.specs.Prelude.{◌≡◌, codes, IfOk, option_map};
ghost use Rattle.serde_json.specs.Find.{get};
ghost use Rattle.serde_json.specs.View.{view};
ghost use Rattle.wire_v2.specs.Message.{component_number, event_value, form_value, value_or_empty};
ghost use Rattle.wire_v2.specs.View.{event_value_view};

use serde_json::Value as Json;
use std::alloc::Global;
use text_core::{ByKey, OutOfMemory, Text};
use value_core::{JsonFault, Value, from_json};

// The greatest number that a message may name.
const GREATEST_NUMBER: u64 = 9_223_372_036_854_775_807;

/// The value of an event.
#[derive(Debug, Drop)]
pub enum EventValue {
    /// A value.
    Plain(Value),
    /// The text of a form, URL-encoded as the browser sent it.
    Form(Text),
}

/// The value of an event of this type, if the payload has one.
pub fn event_value(
    alloc: Global,
    kind: &str,
    payload: &Json,
) -> Result<Option<EventValue>, OutOfMemory>
    ensures { IfOk result (λ v. option_map event_value_view v ≡ event_value kind.now (view payload.now)) }
{
    let value = payload.get("value");
    if kind == "form" {
        form_value(alloc, value)
    } else {
        plain_value(alloc, value)
    }
}

// The text of a form.
fn form_value(alloc: Global, value: Option<&Json>) -> Result<Option<EventValue>, OutOfMemory>
    ensures { IfOk result (λ v. option_map event_value_view v ≡ form_value (option_map (λ x. view x.now) value.entry)) }
{
    match value.and_then(Json::as_str) {
        Some(text) => Ok(Some(EventValue::Form(Text::copy_of(alloc, text)?))),
        None => Ok(None),
    }
}

// The value; an absent one is the empty map.
fn plain_value(alloc: Global, value: Option<&Json>) -> Result<Option<EventValue>, OutOfMemory>
    ensures { IfOk result (λ v. option_map event_value_view v ≡ value_or_empty (option_map (λ x. view x.now) value.entry)) }
{
    let Some(json) = value else {
        return Ok(Some(EventValue::Plain(Value::Map(ByKey::new(alloc)))));
    };
    match from_json(alloc, json) {
        Ok(value) => Ok(Some(EventValue::Plain(value))),
        Err(JsonFault::NoValue) => Ok(None),
        Err(JsonFault::OutOfMemory) => Err(OutOfMemory),
    }
}

/// The number of the component that an event names, if it names one, where `cid` may stand there.
pub fn component_number(payload: &Json) -> Option<Option<u64>>
    ensures { result ≡ component_number (get (codes "cid") (view payload.now)) }
{
    match payload.get("cid") {
        Some(cid) => number_at(cid),
        None => Some(None),
    }
}

// Null, or a whole number of at most 63 bits.
fn number_at(cid: &Json) -> Option<Option<u64>>
    ensures { result ≡ component_number (Some (view cid.now)) }
{
    if cid.is_null() {
        return Some(None);
    }
    let number = cid.as_u64()?;
    if number <= GREATEST_NUMBER {
        Some(Some(number))
    } else {
        None
    }
}
