//! The frames of a message, as bytes.
ghost use Rattle.std.specs.Prelude.{◌≡◌, [], ◌∷◌, IfOk, None, codes, ◌++◌};
ghost use Rattle.serde_json.specs.Written.{compact_text};
ghost use Rattle.diff_tree.specs.Frame as model;
ghost use Rattle.doc_model.specs.Process.{frame_of, reply_to};
ghost use Rattle.doc_model.specs.Journal.{spelled};
ghost use Rattle.wire_v2.specs.View.{head_view};
ghost use Rattle.wire_v2.specs.FrameLaws.{BodyStandsFor};

use live_page::LivePage;
use std::alloc::Global;
use text_core::{Bytes, Frames, OutOfMemory, Seq, Text};
use wire_v2::{Frame, FrameBody, MessageHead, frames_agree, write_frame};

/// A text or null, copied.
pub(crate) fn reference_copy(
    alloc: Global,
    reference: &Option<Text>,
) -> Result<Option<Text>, OutOfMemory>
    ensures { IfOk result (λ copy. copy ≡ reference.now) }
{
    match reference {
        Some(text) => Ok(Some(text.copy(alloc)?)),
        None => Ok(None),
    }
}

// One frame.
fn one_frame(
    alloc: Global,
    join_ref: &Option<Text>,
    reference: &Option<Text>,
    topic: &Text,
    body: FrameBody,
) -> Result<Frames, OutOfMemory>
    ensures { IfOk result (λ fs. (b : model.FrameBody) → BodyStandsFor body b → fs ≡ spelled (frame_of join_ref.now reference.now topic.now b ∷ [])) }
{
    let join_ref = reference_copy(alloc, join_ref)?;
    let reference = reference_copy(alloc, reference)?;
    let topic = topic.copy(alloc)?;
    let bytes = frame_bytes(alloc, join_ref, reference, topic, body)?;
    let mut list = Seq::new(alloc);
    list.push(bytes)?;
    Ok(list)
}

fn frame_bytes(
    alloc: Global,
    join_ref: Option<Text>,
    reference: Option<Text>,
    topic: Text,
    body: FrameBody,
) -> Result<Bytes, OutOfMemory>
    ensures { IfOk result (λ t. (b : model.FrameBody) → BodyStandsFor body b → t ≡ compact_text (model.frame_json (frame_of join_ref reference topic b))) }
{
    frames_agree();
    let frame = Frame {
        join_ref,
        reference,
        topic,
        body,
    };
    let bytes = write_frame(alloc, &frame)?;
    Ok(bytes)
}

/// The reply to a message.
pub(crate) fn reply(
    alloc: Global,
    head: &MessageHead,
    body: FrameBody,
) -> Result<Frames, OutOfMemory>
    ensures { IfOk result (λ fs. (b : model.FrameBody) → BodyStandsFor body b → fs ≡ spelled (reply_to (head_view head.now) b ∷ [])) }
{
    one_frame(alloc, &head.join_ref, &head.reference, &head.topic, body)
}

/// The answer to a sign of life.
pub(crate) fn heartbeat(alloc: Global, head: &MessageHead) -> Result<Frames, OutOfMemory>
    ensures { IfOk result (λ fs. fs ≡ spelled (frame_of None head.now.reference (codes "phoenix") model.empty ∷ [])) }
{
    let topic = Text::copy_of(alloc, "phoenix")?;
    one_frame(alloc, &None, &head.reference, &topic, FrameBody::Empty)
}

/// A frame of the page itself: its join's reference stands for its own.
pub(crate) fn own_frame(
    alloc: Global,
    page: &LivePage,
    body: FrameBody,
) -> Result<Frames, OutOfMemory>
    ensures { IfOk result (λ fs. (b : model.FrameBody) → BodyStandsFor body b → fs ≡ spelled (frame_of page.now.join_ref page.now.join_ref page.now.topic b ∷ [])) }
{
    one_frame(alloc, &page.join_ref, &page.join_ref, &page.topic, body)
}

/// A frame of the page that answers no message.
pub(crate) fn push(alloc: Global, page: &LivePage, body: FrameBody) -> Result<Frames, OutOfMemory>
    ensures { IfOk result (λ fs. (b : model.FrameBody) → BodyStandsFor body b → fs ≡ spelled (frame_of page.now.join_ref None page.now.topic b ∷ [])) }
{
    one_frame(alloc, &page.join_ref, &None, &page.topic, body)
}

/// Frames, and then others.
pub(crate) fn followed_by(frames: Frames, later: Frames) -> Result<Frames, OutOfMemory>
    ensures { IfOk result (λ fs. fs ≡ frames ++ later) }
{
    let mut frames = frames;
    'later: for frame in later.into_vec() {
        frames.push(frame)?;
    }
    Ok(frames)
}
