//! Frames written as compact JSON (RFC 8259), with the keys of objects in byte order.
ghost use Rattle.std.specs.Prelude.{◌≡◌, ◌≤◌, true, IfOk};
ghost use Rattle.serde_json.specs.Data.{string, depth};
ghost use Rattle.serde_json.specs.Written.{compact_text};
ghost use Rattle.serde_json.specs.View.{view};
ghost use Rattle.diff_tree.specs.Frame.{reference_json, one_member, reply, fault_json};
ghost use Rattle.wire_v2.specs.FrameData.{event_name, payload_data, frame_data};
ghost use Rattle.wire_v2.specs.FrameGrammar.{SpellsFrame};
ghost use Rattle.wire_v2.specs.FrameLaws.{body_fits};

use crate::frame::{Frame, FrameBody};
use diff_tree::diff_value;
use serde_json::{Map, Value, put};
use std::alloc::Global;
use text_core::{Bytes, OutOfMemory, Text};

fn text_value(alloc: Global, text: &str) -> Result<Value, OutOfMemory>
    ensures { IfOk result (λ v. view v ≡ string text.now) }
{
    Ok(Value::String(String::from_str(alloc, text)?))
}

// A text or null.
fn reference_value(alloc: Global, reference: &Option<Text>) -> Result<Value, OutOfMemory>
    ensures { IfOk result (λ v. view v ≡ reference_json reference.now) }
{
    match reference {
        Some(text) => text_value(alloc, text.as_str()),
        None => Ok(Value::Null),
    }
}

// An object of one member.
fn one_member(alloc: Global, name: &str, value: Value) -> Result<Value, OutOfMemory>
    ensures { IfOk result (λ v. view v ≡ one_member name.now (view value)) }
{
    let mut members = Map::new(alloc);
    put(&mut members, alloc, name, value)?;
    Ok(Value::Object(members))
}

fn reply(alloc: Global, status: &str, response: Value) -> Result<Value, OutOfMemory>
    ensures { IfOk result (λ v. view v ≡ reply status.now (view response)) }
{
    let mut members = Map::new(alloc);
    let status = text_value(alloc, status)?;
    put(&mut members, alloc, "status", status)?;
    put(&mut members, alloc, "response", response)?;
    Ok(Value::Object(members))
}

// A reply whose response has one member.
fn reply_with(alloc: Global, status: &str, name: &str, value: Value) -> Result<Value, OutOfMemory>
    ensures { IfOk result (λ v. view v ≡ reply status.now (one_member name.now (view value))) }
{
    let response = one_member(alloc, name, value)?;
    reply(alloc, status, response)
}

fn fault_value(alloc: Global, fault: &Option<Text>) -> Result<Value, OutOfMemory>
    ensures { IfOk result (λ v. view v ≡ fault_json fault.now) }
{
    match fault {
        Some(text) => one_member(alloc, "reason", text_value(alloc, text.as_str())?),
        None => Ok(Value::Object(Map::new(alloc))),
    }
}

fn event_name(body: &FrameBody) -> &'static str
    ensures { result.now ≡ event_name body.now }
{
    match body {
        FrameBody::Pushed(_) => "diff",
        FrameBody::Closed => "phx_close",
        FrameBody::Faulted(_) => "phx_error",
        FrameBody::Empty
        | FrameBody::Rendered(_)
        | FrameBody::Changed(_)
        | FrameBody::Refusal(_)
        | FrameBody::NoCids => "phx_reply",
    }
}

fn payload_value(alloc: Global, body: &FrameBody) -> Result<Value, OutOfMemory>
    ensures { IfOk result (λ v. view v ≡ payload_data body.now) }
{
    match body {
        FrameBody::Empty => reply(alloc, "ok", Value::Object(Map::new(alloc))),
        FrameBody::Rendered(tree) => {
            reply_with(alloc, "ok", "rendered", diff_value(alloc, tree)?)
        }
        FrameBody::Changed(diff) => reply_with(alloc, "ok", "diff", diff_value(alloc, diff)?),
        FrameBody::Refusal(reason) => {
            let text = text_value(alloc, reason.as_str())?;
            reply_with(alloc, "error", "reason", text)
        }
        FrameBody::NoCids => reply_with(alloc, "ok", "cids", Value::Array(Vec::new(alloc))),
        FrameBody::Pushed(diff) => diff_value(alloc, diff),
        FrameBody::Closed => Ok(Value::Object(Map::new(alloc))),
        FrameBody::Faulted(reason) => fault_value(alloc, reason),
    }
}

fn frame_value(alloc: Global, frame: &Frame) -> Result<Value, OutOfMemory>
    ensures { IfOk result (λ v. view v ≡ frame_data frame.now) }
{
    let mut items = Vec::new(alloc);
    items.push(reference_value(alloc, &frame.join_ref)?)?;
    items.push(reference_value(alloc, &frame.reference)?)?;
    items.push(text_value(alloc, frame.topic.as_str())?)?;
    items.push(text_value(alloc, event_name(&frame.body))?)?;
    items.push(payload_value(alloc, &frame.body)?)?;
    Ok(Value::Array(items))
}

/// The text of a frame: compact JSON (RFC 8259) with the keys of objects in byte order. It spells
/// the frame for a reader where it nests at most 127 deep, its tree or its diff is one, and a diff
/// that answers no message has no reference.
pub fn write_frame(alloc: Global, frame: &Frame) -> Result<Bytes, OutOfMemory>
    ensures text { IfOk result (λ b. b ≡ compact_text (frame_data frame.now)) }
    ensures spells { IfOk result (λ b. body_fits frame.now.reference frame.now.body ≡ true → depth (frame_data frame.now) ≤ 127 → SpellsFrame b (frame_data frame.now)) }
{
    let value = frame_value(alloc, frame)?;
    Ok(Bytes::from_vec(value.to_string(alloc)?.into_bytes()))
}
