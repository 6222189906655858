//! A client takes the bytes of frames, and shows its page.
ghost use Rattle.std.specs.Prelude.{◌≡◌, Some, None, Option, OnOk, OnErr, IfOk, codes};
ghost use Rattle.std.specs.Result.{IsErrOf};
ghost use Rattle.text_core.specs.Keyed.{Ascending, without_key};
ghost use Rattle.text_core.specs.Outside.{Writes, Rises};
ghost use Rattle.diff_tree.specs.Tree.{Tree};
ghost use Rattle.client_merge.specs.declared.fault.MergeFault.TheVariants as MergeFault;
ghost use Rattle.diff_tree.specs.Parts.{part_data};
ghost use Rattle.client_merge.specs.Bodies.{after_body, after_refusal, root_sent};
ghost use Rattle.client_merge.specs.Reading.{tree_of};
ghost use Rattle.client_merge.specs.Frames.{client_reads, page_with, without_events};
ghost use Rattle.diff_tree.specs.Client.{and_then};

use crate::{Client, MergeFault};
use diff_tree::{Diff, Part, PartBody, PlaceValue};
use std::alloc::Global;
use text_core::{ByKey, Bytes, OutOfMemory, Sink, Text, Wrote};
use wire_v2::{Frame, FrameBody, MessageFault, read_frame};

// The frame that bytes spell, if they spell one.
fn frame_of(alloc: Global, frame: &[u8]) -> Result<Frame, MergeFault>
    ensures ok { IfOk result (λ f. (held : Option Tree) → client_reads held frame.now ≡ after_body held f.body) }
    ensures bad { IsErrOf result MergeFault.BadFrame → (held : Option Tree) → client_reads held frame.now ≡ None }
{
    match read_frame(alloc, frame) {
        Ok(frame) => Ok(frame),
        Err(MessageFault::Malformed) => Err(MergeFault::BadFrame),
        Err(MessageFault::OutOfMemory) => Err(MergeFault::OutOfMemory),
    }
}

fn body_of(frame: Frame) -> FrameBody
    ensures { result ≡ frame.body }
{
    let Frame {
        join_ref,
        reference,
        topic,
        body,
    } = frame;
    body
}

// The root of a diff, where it has no components: these are not held.
fn root_of(diff: Diff) -> Result<Part, MergeFault>
    ensures ok { IfOk result (λ p. root_sent diff ≡ Some (part_data p)) }
    ensures bad { OnErr result (root_sent diff ≡ None) }
{
    let (root, components, events) = diff.into_parts();
    if components.is_empty() {
        Ok(without_events(root))
    } else {
        Err(MergeFault::BadFrame)
    }
}

// A root without what stands under `e`, which is where a diff has its events.
fn without_events(root: Part) -> Part
    ensures { part_data result ≡ without_events (part_data root) }
{
    let (statics, body) = root.into_parts();
    match body {
        PartBody::Places(places) => Part::new(statics, without_place(places)),
        PartBody::List { rows, stream } => Part::list(statics, rows, stream),
    }
}

fn without_place(mut places: ByKey<PlaceValue>) -> ByKey<PlaceValue>
    ensures value { result ≡ without_key (codes "e") places }
    ensures ascending { Ascending places }
{
    // The call says that the keys ascend.
    let _ = places.as_slice();
    let _place = places.remove("e");
    places
}

impl Client {
    ghost use Rattle.client_merge.specs.Page.{tree_held, merged_page, text_shown};
    ghost use Rattle.client_merge.specs.Frames.{client_reads_all, ReadsFront};

    /// Takes the bytes of a frame: a reply with a whole tree gives the page, a diff changes it, `phx_close`,
    /// `phx_error` and the refusal `join crashed` end it, and other frames change nothing. Events for the page's own
    /// code are not looked at. Components and streams are not held. Bytes that spell no frame, a tree or a diff that
    /// does not fit or has a component or a stream are a BadFrame, and after an error the client is as before.
    pub fn take(&mut self, alloc: Global, frame: &[u8]) -> Result<(), MergeFault>
        ensures ok { OnOk result (client_reads (tree_held self.old) frame.now ≡ Some (tree_held self.new)) }
        ensures bad { IsErrOf result MergeFault.BadFrame → client_reads (tree_held self.old) frame.now ≡ None }
        ensures kept { OnErr result (self.new ≡ self.old) }
    {
        let frame = frame_of(alloc, frame)?;
        self.take_body(alloc, body_of(frame))
    }

    // Takes what a frame carries.
    fn take_body(&mut self, alloc: Global, body: FrameBody) -> Result<(), MergeFault>
        ensures ok { OnOk result (after_body (tree_held self.old) body ≡ Some (tree_held self.new)) }
        ensures bad { IsErrOf result MergeFault.BadFrame → after_body (tree_held self.old) body ≡ None }
        ensures kept { OnErr result (self.new ≡ self.old) }
    {
        match body {
            FrameBody::Rendered(diff) => self.take_rendered(alloc, diff),
            FrameBody::Changed(diff) => self.take_changed(alloc, diff),
            FrameBody::Pushed(diff) => self.take_changed(alloc, diff),
            FrameBody::Refusal(reason) => {
                self.take_refusal(&reason);
                Ok(())
            }
            FrameBody::Closed => {
                self.end();
                Ok(())
            }
            FrameBody::Faulted(reason) => {
                self.end();
                Ok(())
            }
            FrameBody::Empty => Ok(()),
            FrameBody::NoCids => Ok(()),
        }
    }

    // Takes a whole page.
    fn take_rendered(&mut self, alloc: Global, diff: Diff) -> Result<(), MergeFault>
        ensures ok { OnOk result (page_with (and_then (root_sent diff) tree_of) ≡ Some (tree_held self.new)) }
        ensures bad { IsErrOf result MergeFault.BadFrame → and_then (root_sent diff) tree_of ≡ None }
        ensures kept { OnErr result (self.new ≡ self.old) }
    {
        let root = root_of(diff)?;
        self.take_whole(alloc, root)
    }

    // Takes what changes of a page.
    fn take_changed(&mut self, alloc: Global, diff: Diff) -> Result<(), MergeFault>
        ensures ok { OnOk result (page_with (and_then (root_sent diff) (merged_page (tree_held self.old))) ≡ Some (tree_held self.new)) }
        ensures bad { IsErrOf result MergeFault.BadFrame → and_then (root_sent diff) (merged_page (tree_held self.old)) ≡ None }
        ensures kept { OnErr result (self.new ≡ self.old) }
    {
        let root = root_of(diff)?;
        self.take_diff(alloc, root)
    }

    // A join that crashed leaves no page.
    fn take_refusal(&mut self, reason: &Text)
        ensures { after_refusal (tree_held self.old) reason.now ≡ Some (tree_held self.new) }
    {
        if reason.as_str() == "join crashed" {
            self.end();
        }
    }

    /// Takes frames in order, up to the first that it does not take: that one is a BadFrame, or memory was wanting.
    /// After an error it holds what the frames before that one made.
    pub fn take_all(&mut self, alloc: Global, frames: &[Bytes]) -> Result<(), MergeFault>
        ensures ok { OnOk result (client_reads_all (tree_held self.old) frames.now ≡ Some (tree_held self.new)) }
        ensures bad { IsErrOf result MergeFault.BadFrame → client_reads_all (tree_held self.old) frames.now ≡ None }
        ensures front { OnErr result (ReadsFront (tree_held self.old) frames.now (tree_held self.new)) }
    {
        'frames: for frame in frames {
            self.take(alloc, frame.as_slice())?;
        }
        Ok(())
    }

    /// Writes what its page shows, and nothing where it holds no page. Where memory is wanting nothing is written.
    pub fn show_into<S: Sink>(&self, alloc: Global, sink: &mut S) -> Result<Wrote, OutOfMemory>
        ensures bytes { IfOk result (Writes (S.written sink.old) (S.written sink.new) (text_shown (tree_held self.now))) }
        ensures cause { IfOk result (Rises (S.failed sink.old) (S.failed sink.new)) }
        ensures kept { OnErr result (sink.new ≡ sink.old) }
    {
        match self.html(alloc)? {
            Some(page) => Ok(write_page(sink, &page)),
            None => Ok(Wrote::Whole),
        }
    }
}

fn write_page<S: Sink>(sink: &mut S, page: &Text) -> Wrote
    ensures bytes { Writes (S.written sink.old) (S.written sink.new) page.now result }
    ensures cause { Rises (S.failed sink.old) (S.failed sink.new) result }
{
    sink.write(page.as_str().as_bytes())
}
