//! What was read so far.
ghost use Rattle.std.specs.Prelude.{◌≡◌, ℕ, option_map};
ghost use Rattle.ast_core.specs.Syntax as model;
ghost use Rattle.heex_reader.specs.Machine as machine;
ghost use Rattle.heex_reader.specs.Seen.{content_view, framed, seen, reopened, opens_call, awaits_clause, awaits, first_of, first_byte, IsAt, AllAt};
ghost use Rattle.heex_reader.specs.Leads.{state_view, Faults, Leads};

use crate::TemplateKind;
use crate::content::Content;
use crate::frame::{Frame, Open, Spot};
use crate::pile::Pile;
use crate::refusal::ReadFault;
use crate::tag_node::is_call;
use std::alloc::Global;

/// At most so many tags and blocks stand inside one another.
const MOST_OPEN: usize = 128;

/// What was read so far: what is open, and what stands in that.
#[derive(Drop)]
pub(crate) struct State {
    pub here: Content,
    pub frames: Pile,
}

impl State {
    /// Nothing is read.
    pub(crate) fn new(alloc: Global) -> State
        ensures value { state_view result ≡ machine.beginning }
        ensures placed { (place : ℕ → model.Location) → AllAt place result.frames }
    {
        State {
            here: Content::new(alloc),
            frames: Pile::new(alloc),
        }
    }
}

fn opens_call(form: &Open) -> bool
    ensures { result ≡ opens_call form.now }
{
    match form {
        Open::Tag(tag) => is_call(tag.name.as_str()),
        _ => false,
    }
}

/// Whether what is read next stands directly in a call.
#[tactic(auto, using(crate::proofs::Frames::in_call_first))]
pub(crate) fn in_call(frames: &Pile) -> bool
    ensures { result ≡ machine.in_call (seen frames.now) }
{
    match frames.top() {
        Some(frame) => opens_call(&frame.form),
        None => false,
    }
}

fn awaits_clause(form: &Open) -> bool
    ensures { result ≡ awaits_clause form.now }
{
    match form {
        Open::BeforeClauses(_) => true,
        _ => false,
    }
}

/// Whether a `case` waits for its first clause.
pub(crate) fn awaits(frames: &Pile) -> bool
    ensures { result ≡ awaits frames.now }
{
    match frames.top() {
        Some(frame) => awaits_clause(&frame.form),
        None => false,
    }
}

/// The byte of the innermost that is open.
pub(crate) fn innermost(frames: &Pile) -> Option<usize>
    ensures { result ≡ first_byte (first_of frames.now) }
{
    match frames.top() {
        Some(frame) => Some(frame.spot.byte),
        None => None,
    }
}

/// One more tag or block is open.
pub(crate) fn opened(
    alloc: Global,
    spot: Spot,
    form: Open,
    state: State,
) -> Result<State, ReadFault>
    ensures { (place : ℕ → model.Location) → IsAt place spot → AllAt place state.frames → Leads place result (machine.opened spot.byte (framed form spot.byte (content_view state.here)) (seen state.frames)) }
{
    let State { here, frames } = state;
    let mut frames = frames;
    if frames.len() >= MOST_OPEN {
        return Err(ReadFault::Faulty {
            at: spot.byte,
            kind: TemplateKind::TooDeep,
        });
    }
    frames.push(Frame {
        spot,
        before: here,
        form,
    })?;
    Ok(State {
        here: Content::new(alloc),
        frames,
    })
}

/// A token that is broken, after what would be open.
pub(crate) fn broken_open(at: usize, byte: usize, kind: TemplateKind, frames: &Pile) -> ReadFault
    ensures { Faults result (machine.broken_open at byte kind (seen frames.now)) }
{
    if frames.len() >= MOST_OPEN {
        ReadFault::Faulty {
            at,
            kind: TemplateKind::TooDeep,
        }
    } else {
        ReadFault::Faulty { at: byte, kind }
    }
}

/// One that is open is another now, where it may be.
pub(crate) fn reopened(
    alloc: Global,
    at: usize,
    form: Option<Open>,
    spot: Spot,
    before: Content,
    frames: Pile,
) -> Result<State, ReadFault>
    ensures { (place : ℕ → model.Location) → IsAt place spot → AllAt place frames → Leads place result (reopened at (option_map (λ o. framed o spot.byte (content_view before)) form) (seen frames)) }
{
    let mut frames = frames;
    match form {
        Some(form) => {
            frames.push(Frame { spot, before, form })?;
            Ok(State {
                here: Content::new(alloc),
                frames,
            })
        }
        None => Err(ReadFault::Faulty {
            at,
            kind: TemplateKind::BadBlock,
        }),
    }
}
