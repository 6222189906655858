//! What a turn of a page gives: the frames of its diff, and what it left beside the page.
ghost use Rattle.std.specs.Prelude.{◌≡◌, ◌&&◌, [], map, IfOk};
ghost use Rattle.serde_json.specs.Data.{object};
ghost use Rattle.diff_tree.specs.Container.{is_none};
ghost use Rattle.diff_tree.specs.Client.{PageDiff};
ghost use Rattle.diff_tree.specs.Spelling.{changes_json};
ghost use Rattle.wire_v2.specs.FrameGrammar.{is_empty_object};
ghost use Rattle.diff_tree.specs.Parts.{body_members, part_data, pushed_of};
ghost use Rattle.wire_v2.specs.FrameLaws.{BodyStandsFor};
ghost use Rattle.wire_v2.specs.View.{head_view};
ghost use Rattle.doc_model.specs.Process.{diff_body, reply_diff};
ghost use Rattle.process_core.specs.Turned.{SpellsDiff, Sums, SumsUp, push_under};

use crate::frames::{push, reply};
use crate::outcome::{Outcome, only};
use diff_tree::{Diff, Part, PartBody, Pushes};
use effects_apply::Rest;
use live_page::{LivePage, PageFault};
use std::alloc::Global;
use text_core::{Frames, OutOfMemory, Seq};
use wire_v2::{FrameBody, MessageHead};

// Whether nothing of the page is sent.
fn is_bare(part: &Part) -> bool
    ensures { result ≡ is_empty_object (part_data part.now) }
{
    match part.statics() {
        Some(_statics) => false,
        None => has_nothing(part.body()),
    }
}

// Whether a body has neither a place nor rows.
fn has_nothing(body: &PartBody) -> bool
    ensures { result ≡ is_empty_object (object (body_members body.now)) }
{
    match body {
        PartBody::Places(places) => places.is_empty(),
        PartBody::List { .. } => false,
    }
}

// Whether neither the page nor an event is sent.
fn is_nothing(part: &Part, events: &Pushes) -> bool
    ensures { result ≡ (is_none events.now && is_empty_object (part_data part.now)) }
{
    if !events.is_empty() {
        return false;
    }
    is_bare(part)
}

// What a reply carries: the diff, or nothing where it is empty.
fn reply_body(alloc: Global, part: Part, events: Pushes) -> FrameBody
    ensures { (d : PageDiff) → d.components ≡ [] → part_data part ≡ object (changes_json 0 d.root) → BodyStandsFor result (diff_body d (map pushed_of events)) }
{
    if is_nothing(&part, &events) {
        return FrameBody::Empty;
    }
    let diff = Diff::new(part, Seq::new(alloc), events);
    FrameBody::Changed(diff)
}

// The frame that pushes a diff, where there is one.
fn diff_push(
    alloc: Global,
    page: &LivePage,
    part: Part,
    events: Pushes,
) -> Result<Frames, OutOfMemory>
    ensures { IfOk result (SpellsDiff (push_under page.now.join_ref page.now.topic) part events) }
{
    if is_nothing(&part, &events) {
        return Ok(Seq::new(alloc));
    }
    let diff = Diff::new(part, Seq::new(alloc), events);
    push(alloc, page, FrameBody::Pushed(diff))
}

/// What a turn gives that answers a message. After a raise it gives the last frames of the page.
pub(crate) fn replies(
    alloc: Global,
    head: &MessageHead,
    turn: Result<Part, PageFault>,
    rest: Rest,
    last: Frames,
) -> Result<Outcome, OutOfMemory>
    ensures { IfOk result (Sums (reply_diff (head_view head.now)) turn rest last) }
{
    match turn {
        Ok(part) => replied(alloc, head, part, rest),
        Err(PageFault::Raised) => Ok(only(alloc, last, true)),
        Err(PageFault::OutOfMemory) => Err(OutOfMemory),
    }
}

fn replied(
    alloc: Global,
    head: &MessageHead,
    part: Part,
    rest: Rest,
) -> Result<Outcome, OutOfMemory>
    ensures { IfOk result (SumsUp (reply_diff (head_view head.now)) part rest) }
{
    let Rest {
        generation: _generation,
        free: _free,
        sent,
        actions,
        pushed,
    } = rest;
    let body = reply_body(alloc, part, pushed);
    let frames = reply(alloc, head, body)?;
    Ok(Outcome {
        frames,
        sent,
        actions,
        crashed: false,
    })
}

/// What a turn gives that answers no message. After a raise it gives the last frames of the page.
pub(crate) fn pushes(
    alloc: Global,
    page: &LivePage,
    turn: Result<Part, PageFault>,
    rest: Rest,
    last: Frames,
) -> Result<Outcome, OutOfMemory>
    ensures { IfOk result (Sums (push_under page.now.join_ref page.now.topic) turn rest last) }
{
    match turn {
        Ok(part) => pushed(alloc, page, part, rest),
        Err(PageFault::Raised) => Ok(only(alloc, last, true)),
        Err(PageFault::OutOfMemory) => Err(OutOfMemory),
    }
}

fn pushed(alloc: Global, page: &LivePage, part: Part, rest: Rest) -> Result<Outcome, OutOfMemory>
    ensures { IfOk result (SumsUp (push_under page.now.join_ref page.now.topic) part rest) }
{
    let Rest {
        generation: _generation,
        free: _free,
        sent,
        actions,
        pushed,
    } = rest;
    let frames = diff_push(alloc, page, part, pushed)?;
    Ok(Outcome {
        frames,
        sent,
        actions,
        crashed: false,
    })
}
