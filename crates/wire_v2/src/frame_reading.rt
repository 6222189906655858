//! Frames read from JSON.
ghost use Rattle.std.specs.Prelude.{◌≡◌, ◌&&◌, true, false, Some, is_some, IfOk, IsErrOf, option_map, codes};
ghost use Rattle.serde_json.specs.Data.{Data, string, array};
ghost use Rattle.serde_json.specs.View.{view, items_view};
ghost use Rattle.diff_tree.specs.Frame.{one_member, reply};
ghost use Rattle.diff_tree.specs.Grammar.{is_diff};
ghost use Rattle.wire_v2.specs.FrameData.{IsBody, reply_under, event_name, payload_data, framed, frame_data, carries_diff};
ghost use Rattle.wire_v2.specs.Message.{head_of};
ghost use Rattle.wire_v2.specs.FrameGrammar.{only_member, two_members, is_null, is_empty_object, is_empty_list, is_reason, is_content, is_response, is_reply_of, is_reply, is_fault, is_body, is_frame, SpellsFrame};

use crate::frame::{Frame, FrameBody};
use crate::head::{MessageHead, head_of};
use crate::message::MessageFault;
use crate::page_reading::{read_page, read_tree};
use serde_json::Value as Json;
use std::alloc::Global;
use text_core::Text;

// The only member of an object.
fn only_member(value: &Json) -> Option<(&str, &Json)>
    ensures { option_map (λ p. (p.0.now, view p.1.now)) result ≡ only_member (view value.entry.now) }
{
    let mut members = value.as_object()?.iter();
    let (key, member) = members.next()?;
    if members.next().is_some() {
        return None;
    }
    Some((key.as_str(), member))
}

// The members of an object of two.
fn two_members(value: &Json) -> Option<((&str, &Json), (&str, &Json))>
    ensures { option_map (λ p. ((p.0.0.now, view p.0.1.now), (p.1.0.now, view p.1.1.now))) result ≡ two_members (view value.entry.now) }
{
    let mut members = value.as_object()?.iter();
    let (first_key, first) = members.next()?;
    let (second_key, second) = members.next()?;
    if members.next().is_some() {
        return None;
    }
    Some(((first_key.as_str(), first), (second_key.as_str(), second)))
}

fn is_empty_object(value: &Json) -> bool
    ensures { result ≡ is_empty_object (view value.now) }
{
    match value.as_object() {
        Some(members) => members.is_empty(),
        None => false,
    }
}

fn is_empty_list(value: &Json) -> bool
    ensures { result ≡ is_empty_list (view value.now) }
{
    match value.as_array() {
        Some(items) => items.as_slice().is_empty(),
        None => false,
    }
}

// The reason that is an object's only member.
fn read_reason(alloc: Global, value: &Json) -> Result<Text, MessageFault>
    ensures ok { IfOk result (λ t. (is_reason (only_member (view value.now)) ≡ true) × (one_member (codes "reason") (string t) ≡ view value.now)) }
    ensures malformed { IsErrOf result MessageFault.Malformed → is_reason (only_member (view value.now)) ≡ false }
{
    let Some((key, reason)) = only_member(value) else {
        return Err(MessageFault::Malformed);
    };
    if key != "reason" {
        return Err(MessageFault::Malformed);
    }
    let Some(text) = reason.as_str() else {
        return Err(MessageFault::Malformed);
    };
    Ok(Text::copy_of(alloc, text)?)
}

// What a reply has under one key.
fn read_content(alloc: Global, key: &str, content: &Json) -> Result<FrameBody, MessageFault>
    ensures ok { IfOk result (λ b. (is_content (Some (key.now, view content.now)) ≡ true) × IsBody (codes "phx_reply") (reply (codes "ok") (one_member key.now (view content.now))) b) }
    ensures malformed { IsErrOf result MessageFault.Malformed → is_content (Some (key.now, view content.now)) ≡ false }
{
    match key {
        "rendered" => Ok(FrameBody::Rendered(read_tree(alloc, content)?)),
        "diff" => Ok(FrameBody::Changed(read_page(alloc, content)?)),
        "cids" => if is_empty_list(content) {
            Ok(FrameBody::NoCids)
        } else {
            Err(MessageFault::Malformed)
        },
        _ => Err(MessageFault::Malformed),
    }
}

fn read_response(alloc: Global, response: &Json) -> Result<FrameBody, MessageFault>
    ensures ok { IfOk result (λ b. (is_response (view response.now) ≡ true) × IsBody (codes "phx_reply") (reply (codes "ok") (view response.now)) b) }
    ensures malformed { IsErrOf result MessageFault.Malformed → is_response (view response.now) ≡ false }
{
    if is_empty_object(response) {
        return Ok(FrameBody::Empty);
    }
    match only_member(response) {
        Some((key, content)) => read_content(alloc, key, content),
        None => Err(MessageFault::Malformed),
    }
}

fn read_reply_of(alloc: Global, response: &Json, status: &Json) -> Result<FrameBody, MessageFault>
    ensures ok { IfOk result (λ b. (is_reply_of (view response.now) (view status.now) ≡ true) × IsBody (codes "phx_reply") (reply_under (view status.now) (view response.now)) b) }
    ensures malformed { IsErrOf result MessageFault.Malformed → is_reply_of (view response.now) (view status.now) ≡ false }
{
    let Some(status) = status.as_str() else {
        return Err(MessageFault::Malformed);
    };
    match status {
        "ok" => read_response(alloc, response),
        "error" => Ok(FrameBody::Refusal(read_reason(alloc, response)?)),
        _ => Err(MessageFault::Malformed),
    }
}

fn read_reply(alloc: Global, payload: &Json) -> Result<FrameBody, MessageFault>
    ensures ok { IfOk result (λ b. (is_reply (two_members (view payload.now)) ≡ true) × IsBody (codes "phx_reply") (view payload.now) b) }
    ensures malformed { IsErrOf result MessageFault.Malformed → is_reply (two_members (view payload.now)) ≡ false }
{
    let Some(((first, response), (second, status))) = two_members(payload) else {
        return Err(MessageFault::Malformed);
    };
    if first != "response" {
        return Err(MessageFault::Malformed);
    }
    if second != "status" {
        return Err(MessageFault::Malformed);
    }
    read_reply_of(alloc, response, status)
}

// A diff that answers no message has no reference.
fn read_push(alloc: Global, reference: &Json, payload: &Json) -> Result<FrameBody, MessageFault>
    ensures ok { IfOk result (λ b. ((is_null (view reference.now) && is_diff (view payload.now)) ≡ true) × IsBody (codes "diff") (view payload.now) b) }
    ensures malformed { IsErrOf result MessageFault.Malformed → (is_null (view reference.now) && is_diff (view payload.now)) ≡ false }
{
    if !reference.is_null() {
        return Err(MessageFault::Malformed);
    }
    Ok(FrameBody::Pushed(read_page(alloc, payload)?))
}

fn read_close(payload: &Json) -> Result<FrameBody, MessageFault>
    ensures ok { IfOk result (λ b. (is_empty_object (view payload.now) ≡ true) × IsBody (codes "phx_close") (view payload.now) b) }
    ensures malformed { IsErrOf result MessageFault.Malformed → is_empty_object (view payload.now) ≡ false }
{
    if is_empty_object(payload) {
        Ok(FrameBody::Closed)
    } else {
        Err(MessageFault::Malformed)
    }
}

fn read_fault(alloc: Global, payload: &Json) -> Result<FrameBody, MessageFault>
    ensures ok { IfOk result (λ b. (is_fault (view payload.now) ≡ true) × IsBody (codes "phx_error") (view payload.now) b) }
    ensures malformed { IsErrOf result MessageFault.Malformed → is_fault (view payload.now) ≡ false }
{
    if is_empty_object(payload) {
        return Ok(FrameBody::Faulted(None));
    }
    Ok(FrameBody::Faulted(Some(read_reason(alloc, payload)?)))
}

fn read_body(
    alloc: Global,
    event: &str,
    reference: &Json,
    payload: &Json,
) -> Result<FrameBody, MessageFault>
    ensures ok { IfOk result (λ b. (is_body event.now (view reference.now) (view payload.now) ≡ true) × IsBody event.now (view payload.now) b) }
    ensures malformed { IsErrOf result MessageFault.Malformed → is_body event.now (view reference.now) (view payload.now) ≡ false }
{
    match event {
        "phx_reply" => read_reply(alloc, payload),
        "diff" => read_push(alloc, reference, payload),
        "phx_close" => read_close(payload),
        "phx_error" => read_fault(alloc, payload),
        _ => Err(MessageFault::Malformed),
    }
}

// A frame with this body, where its first three items are a head.
fn frame_with(
    alloc: Global,
    join_ref: &Json,
    reference: &Json,
    topic: &Json,
    body: FrameBody,
) -> Result<Frame, MessageFault>
    ensures ok { IfOk result (λ f. (is_some (head_of (view join_ref.now) (view reference.now) (view topic.now)) ≡ true) × (frame_data f ≡ framed (view join_ref.now) (view reference.now) (view topic.now) (string (event_name body)) (payload_data body))) }
    ensures carries { IfOk result (λ f. carries_diff f.body ≡ carries_diff body) }
    ensures malformed { IsErrOf result MessageFault.Malformed → is_some (head_of (view join_ref.now) (view reference.now) (view topic.now)) ≡ false }
{
    match head_of(alloc, join_ref, reference, topic)? {
        Some(head) => {
            let MessageHead {
                join_ref,
                reference,
                topic,
            } = head;
            Ok(Frame {
                join_ref,
                reference,
                topic,
                body,
            })
        }
        None => Err(MessageFault::Malformed),
    }
}

fn frame_from(
    alloc: Global,
    join_ref: &Json,
    reference: &Json,
    topic: &Json,
    event: &Json,
    payload: &Json,
) -> Result<Frame, MessageFault>
    ensures ok { IfOk result (λ f. (is_frame (framed (view join_ref.now) (view reference.now) (view topic.now) (view event.now) (view payload.now)) ≡ true) × (frame_data f ≡ framed (view join_ref.now) (view reference.now) (view topic.now) (view event.now) (view payload.now))) }
    ensures carries { IfOk result (λ f. carries_diff f.body ≡ true) }
    ensures malformed { IsErrOf result MessageFault.Malformed → is_frame (framed (view join_ref.now) (view reference.now) (view topic.now) (view event.now) (view payload.now)) ≡ false }
{
    let Some(event) = event.as_str() else {
        return Err(MessageFault::Malformed);
    };
    let body = read_body(alloc, event, reference, payload)?;
    frame_with(alloc, join_ref, reference, topic, body)
}

// A frame has five items.
fn frame_of_items(alloc: Global, items: &[Json]) -> Result<Frame, MessageFault>
    ensures ok { IfOk result (λ f. (is_frame (array (items_view items.now)) ≡ true) × (frame_data f ≡ array (items_view items.now))) }
    ensures carries { IfOk result (λ f. carries_diff f.body ≡ true) }
    ensures malformed { IsErrOf result MessageFault.Malformed → is_frame (array (items_view items.now)) ≡ false }
{
    match items {
        [join_ref, reference, topic, event, payload] => {
            frame_from(alloc, join_ref, reference, topic, event, payload)
        }
        _ => Err(MessageFault::Malformed),
    }
}

fn frame_of_json(alloc: Global, json: &Json) -> Result<Frame, MessageFault>
    ensures ok { IfOk result (λ f. (is_frame (view json.now) ≡ true) × (frame_data f ≡ view json.now)) }
    ensures carries { IfOk result (λ f. carries_diff f.body ≡ true) }
    ensures malformed { IsErrOf result MessageFault.Malformed → is_frame (view json.now) ≡ false }
{
    match json.as_array() {
        Some(items) => frame_of_items(alloc, items.as_slice()),
        None => Err(MessageFault::Malformed),
    }
}

/// The frame that the bytes spell: a JSON text in UTF-8, an array of join reference and reference
/// (each a text or null), topic, event and payload, whose members are exactly those of one kind of
/// frame (Phoenix Channels V2). White space and the order of members do not matter. A tree has
/// statics in each of its nodes, a diff that answers no message has no reference, and what a frame
/// carries of a page is a diff. It answers Malformed exactly where the bytes spell no frame.
pub fn read_frame(alloc: Global, text: &[u8]) -> Result<Frame, MessageFault>
    ensures ok { IfOk result (λ f. SpellsFrame text.now (frame_data f)) }
    ensures carries { IfOk result (λ f. carries_diff f.body ≡ true) }
    ensures malformed { IsErrOf result MessageFault.Malformed → (d : Data) → ¬ SpellsFrame text.now d }
{
    match Json::from_slice(alloc, text) {
        Ok(json) => frame_of_json(alloc, &json),
        Err(fault) => {
            if fault.is_memory() {
                Err(MessageFault::OutOfMemory)
            } else {
                Err(MessageFault::Malformed)
            }
        }
    }
}
