//! The messages that a browser sends.
ghost use Rattle.std.specs.Prelude.{◌≡◌, Some, None, codes, IfOk, IsErrOf, option_map};
ghost use Rattle.serde_json.specs.Data.{array};
ghost use Rattle.serde_json.specs.View.{view, items_view};
ghost use Rattle.wire_v2.specs.Message.{destroyed, event_message, if_numbers, is_live_topic, join, live_message, message_by_topic, message_from, message_of, message_of_json, patch, text_at, url_of, will_destroy};
ghost use Rattle.wire_v2.specs.View.{head_view, message_view};

use crate::event::{EventValue, component_number, event_value};
use crate::head::{MessageHead, head_of};
use crate::payload::{has_numbers, text_at, url_of};
use serde_json::Value as Json;
use std::alloc::Global;
use text_core::{OutOfMemory, Text};

/// What a browser says (Phoenix Channels V2).
#[derive(Debug, Drop)]
pub enum Message {
    /// The browser is still there.
    Beat(MessageHead),
    /// It joins the page at this URL.
    Join {
        head: MessageHead,
        url: Text,
    },
    /// It leaves the page.
    Leave(MessageHead),
    /// Something happened on the page: the event's name, its value, and the component that it is
    /// for (from 1 on), if it is for one.
    Event {
        head: MessageHead,
        event: Text,
        value: EventValue,
        cid: Option<u64>,
    },
    /// The page goes to another URL of the same view.
    Patch {
        head: MessageHead,
        url: Text,
    },
    /// Components are about to go.
    WillDestroy(MessageHead),
    /// Components are gone.
    Destroyed(MessageHead),
}

/// Why bytes give no message.
#[derive(Clone, Copy, Debug, PartialEq, Eq)]
pub enum MessageFault {
    /// They spell none.
    Malformed,
    /// Memory was wanting.
    OutOfMemory,
}

impl From<OutOfMemory> for MessageFault {
    ghost use Rattle.std.specs.Prelude.{◌≡◌};
    ghost use Rattle.wire_v2.specs.declared.message.MessageFault.TheVariants as fault;

    ghost from_gives = { λ _ e. e ≡ fault.OutOfMemory };

    fn from(_: OutOfMemory) -> MessageFault {
        MessageFault::OutOfMemory
    }
}

fn join(alloc: Global, head: MessageHead, payload: &Json) -> Result<Option<Message>, OutOfMemory>
    ensures { IfOk result (λ m. option_map message_view m ≡ option_map (join (head_view head)) (url_of (view payload.now))) }
{
    match url_of(payload) {
        Some(url) => Ok(Some(Message::Join {
            head,
            url: Text::copy_of(alloc, url)?,
        })),
        None => Ok(None),
    }
}

fn patch(alloc: Global, head: MessageHead, payload: &Json) -> Result<Option<Message>, OutOfMemory>
    ensures { IfOk result (λ m. option_map message_view m ≡ option_map (patch (head_view head)) (text_at (codes "url") (view payload.now))) }
{
    match text_at(payload, "url") {
        Some(url) => Ok(Some(Message::Patch {
            head,
            url: Text::copy_of(alloc, url)?,
        })),
        None => Ok(None),
    }
}

// What may refuse comes first: then nothing that was copied is thrown away.
fn event_message(
    alloc: Global,
    head: MessageHead,
    payload: &Json,
) -> Result<Option<Message>, OutOfMemory>
    ensures { IfOk result (λ m. option_map message_view m ≡ event_message (head_view head) (view payload.now)) }
{
    let Some(kind) = text_at(payload, "type") else {
        return Ok(None);
    };
    let Some(event) = text_at(payload, "event") else {
        return Ok(None);
    };
    let Some(cid) = component_number(payload) else {
        return Ok(None);
    };
    let Some(value) = event_value(alloc, kind, payload)? else {
        return Ok(None);
    };
    Ok(Some(Message::Event {
        head,
        event: Text::copy_of(alloc, event)?,
        value,
        cid,
    }))
}

fn will_destroy(head: MessageHead, payload: &Json) -> Option<Message>
    ensures { option_map message_view result ≡ if_numbers (will_destroy (head_view head)) (view payload.now) }
{
    if has_numbers(payload) {
        Some(Message::WillDestroy(head))
    } else {
        None
    }
}

fn destroyed(head: MessageHead, payload: &Json) -> Option<Message>
    ensures { option_map message_view result ≡ if_numbers (destroyed (head_view head)) (view payload.now) }
{
    if has_numbers(payload) {
        Some(Message::Destroyed(head))
    } else {
        None
    }
}

// The message of a page, by its event.
fn live_message(
    alloc: Global,
    head: MessageHead,
    event: &str,
    payload: &Json,
) -> Result<Option<Message>, OutOfMemory>
    ensures { IfOk result (λ m. option_map message_view m ≡ live_message (head_view head) event.now (view payload.now)) }
{
    match event {
        "phx_join" => join(alloc, head, payload),
        "phx_leave" => Ok(Some(Message::Leave(head))),
        "event" => event_message(alloc, head, payload),
        "live_patch" => patch(alloc, head, payload),
        "cids_will_destroy" => Ok(will_destroy(head, payload)),
        "cids_destroyed" => Ok(destroyed(head, payload)),
        _ => Ok(None),
    }
}

// A topic of a page is `lv:` and more.
fn is_live_topic(topic: &str) -> bool
    ensures { result ≡ is_live_topic topic.now }
{
    if topic.len() <= 3 {
        return false;
    }
    &topic.as_bytes()[..3] == b"lv:".as_slice()
}

// The message, by its topic and its event.
fn message_by_topic(
    alloc: Global,
    head: MessageHead,
    event: &str,
    payload: &Json,
) -> Result<Option<Message>, OutOfMemory>
    ensures { IfOk result (λ m. option_map message_view m ≡ message_by_topic (head_view head) event.now (view payload.now)) }
{
    if head.topic.as_str() == "phoenix" && event == "heartbeat" {
        return Ok(Some(Message::Beat(head)));
    }
    if is_live_topic(head.topic.as_str()) {
        return live_message(alloc, head, event, payload);
    }
    Ok(None)
}

fn message_from(
    alloc: Global,
    join_ref: &Json,
    reference: &Json,
    topic: &Json,
    event: &Json,
    payload: &Json,
) -> Result<Option<Message>, OutOfMemory>
    ensures { IfOk result (λ m. option_map message_view m ≡ message_from (view join_ref.now) (view reference.now) (view topic.now) (view event.now) (view payload.now)) }
{
    let Some(event) = event.as_str() else {
        return Ok(None);
    };
    if !payload.is_object() {
        return Ok(None);
    }
    match head_of(alloc, join_ref, reference, topic)? {
        Some(head) => message_by_topic(alloc, head, event, payload),
        None => Ok(None),
    }
}

// A message has five items.
fn message_of_items(alloc: Global, items: &[Json]) -> Result<Option<Message>, OutOfMemory>
    ensures { IfOk result (λ m. option_map message_view m ≡ message_of_json (array (items_view items.now))) }
{
    match items {
        [join_ref, reference, topic, event, payload] => {
            message_from(alloc, join_ref, reference, topic, event, payload)
        }
        _ => Ok(None),
    }
}

fn message_of_json(alloc: Global, json: &Json) -> Result<Option<Message>, OutOfMemory>
    ensures { IfOk result (λ m. option_map message_view m ≡ message_of_json (view json.now)) }
{
    match json.as_array() {
        Some(items) => message_of_items(alloc, items.as_slice()),
        None => Ok(None),
    }
}

// The message that bytes spell, if they spell one.
fn message_of(alloc: Global, text: &[u8]) -> Result<Option<Message>, OutOfMemory>
    ensures { IfOk result (λ m. option_map message_view m ≡ message_of text.now) }
{
    match Json::from_slice(alloc, text) {
        Ok(json) => message_of_json(alloc, &json),
        Err(fault) => {
            if fault.is_memory() {
                Err(OutOfMemory)
            } else {
                Ok(None)
            }
        }
    }
}

/// The message that the bytes spell: a JSON text in UTF-8, an array of join reference and
/// reference (each a text or null), topic, event and a payload, an object. The topic `phoenix` has
/// `heartbeat`; a topic of a page, `lv:` and more, has `phx_join`, `phx_leave`, `event`,
/// `live_patch`, `cids_will_destroy` and `cids_destroyed` (Phoenix Channels V2). Members that these
/// do not name are not looked at, and of a member written twice the last holds. It answers Malformed
/// exactly where the bytes spell no message.
pub fn read_message(alloc: Global, text: &[u8]) -> Result<Message, MessageFault>
    ensures ok { IfOk result (λ m. message_of text.now ≡ Some (message_view m)) }
    ensures malformed { IsErrOf result MessageFault.Malformed → message_of text.now ≡ None }
{
    match message_of(alloc, text)? {
        Some(message) => Ok(message),
        None => Err(MessageFault::Malformed),
    }
}
