//! How signs are read, one after the other.
ghost use Rattle.std.specs.Prelude.{◌≡◌, ℕ, true, false};
ghost use Rattle.ast_core.specs.Syntax as model;
ghost use Rattle.ast_core.specs.PatternView.{pattern_view};
ghost use Rattle.ast_core.specs.NodeView.{node_view, place_view};
ghost use Rattle.heex_reader.specs.Signs as signs;
ghost use Rattle.heex_reader.specs.Grammar.{sign_at};
ghost use Rattle.heex_reader.specs.Contents as contents;
ghost use Rattle.heex_reader.specs.Machine as machine;
ghost use Rattle.heex_reader.specs.Seen as view;
ghost use Rattle.heex_reader.specs.Seen.{content_view, tag_view, framed, block_view, sign_view, seen, node_put, awaits as awaits_first, IsAt, AllAt};
ghost use Rattle.heex_reader.specs.declared.machine.Early.TheVariants as early_form;
ghost use Rattle.heex_reader.specs.declared.sign.Sign.{Sign};
ghost use Rattle.heex_reader.specs.declared.sign.Sign.TheVariants as sign;
ghost use Rattle.heex_reader.specs.Leads.{state_view, Leads, Gives};

use crate::TemplateKind;
use crate::blank::is_blank;
use crate::close::{bad_block, close_tag, else_branch, end_block, next_clause};
use crate::content::{Content, nodes_in, with_node};
use crate::frame::{Open, Spot};
use crate::pile::Pile;
use crate::refusal::ReadFault;
use crate::sign::{Block, Sign, Tag};
use crate::state::{State, awaits, broken_open, in_call, innermost, opened};
use crate::tag_node::add_tag;
use ast_core::{Node, Nodes, Pattern, Place};
use heex_token::is_void;
use std::alloc::Global;
use text_core::Text;

// What a block's head opens.
fn open_of(block: Block) -> Open
    ensures { (n : ℕ) (c : contents.Content) → framed result n c ≡ machine.frame_of n c (block_view block) }
{
    match block {
        Block::If(test) => Open::Yes(test),
        Block::For(generator) => Open::Loop(generator),
        Block::Case(value) => Open::BeforeClauses(value),
    }
}

// A node behind what stands here.
fn put(node: Node, state: State) -> Result<State, ReadFault>
    ensures { (place : ℕ → model.Location) → AllAt place state.frames → Leads place result (node_put (node_view node) (content_view state.here) (seen state.frames)) }
{
    let State { here, frames } = state;
    let here = with_node(here, node)?;
    Ok(State { here, frames })
}

// Characters as they stand.
fn put_text(text: Text, state: State) -> Result<State, ReadFault>
    ensures { (place : ℕ → model.Location) (at : ℕ) → AllAt place state.frames → Leads place result (machine.within place at (signs.words text) (content_view state.here) (seen state.frames)) }
{
    put(Node::Text(text), state)
}

// An interpolation.
fn put_place(spot: Spot, place: Place, state: State) -> Result<State, ReadFault>
    ensures { (stands : ℕ → model.Location) → IsAt stands spot → AllAt stands state.frames → Leads stands result (machine.within stands spot.byte (signs.value (place_view place)) (content_view state.here) (seen state.frames)) }
{
    let at = spot.location;
    put(Node::Place { at, place }, state)
}

// A tag that opens nothing.
#[tactic(auto, using(crate::proofs::Within::whole_is))]
fn whole_tag(alloc: Global, spot: Spot, tag: Tag, state: State) -> Result<State, ReadFault>
    ensures { (place : ℕ → model.Location) → IsAt place spot → AllAt place state.frames → Leads place result (machine.within place spot.byte (signs.whole (tag_view tag)) (content_view state.here) (seen state.frames)) }
{
    let State { here, frames } = state;
    let in_call = in_call(&frames);
    let inner = Content::new(alloc);
    let here = add_tag(alloc, in_call, spot.location, tag, inner, here)?;
    Ok(State { here, frames })
}

// An end tag.
fn end_tag(alloc: Global, at: usize, name: &Text, state: State) -> Result<State, ReadFault>
    ensures { (place : ℕ → model.Location) → AllAt place state.frames → Leads place result (machine.within place at (signs.closes name.now) (content_view state.here) (seen state.frames)) }
{
    if is_void(name.as_str()) {
        return Err(ReadFault::Faulty {
            at,
            kind: TemplateKind::VoidClosed,
        });
    }
    close_tag(alloc, at, name.as_str(), state)
}

// A block's head.
fn open_block(alloc: Global, spot: Spot, block: Block, state: State) -> Result<State, ReadFault>
    ensures { (place : ℕ → model.Location) → IsAt place spot → AllAt place state.frames → Leads place result (machine.within place spot.byte (signs.block (block_view block)) (content_view state.here) (seen state.frames)) }
{
    opened(alloc, spot, open_of(block), state)
}

// Another clause.
fn later_clause(
    alloc: Global,
    at: usize,
    pattern: Pattern,
    state: State,
) -> Result<State, ReadFault>
    ensures { (place : ℕ → model.Location) → AllAt place state.frames → awaits_first state.frames ≡ false → Leads place result (machine.within place at (signs.clause_head (pattern_view pattern)) (content_view state.here) (seen state.frames)) }
{
    next_clause(alloc, at, pattern, state)
}

// A sign that stands where nodes may stand.
fn within(alloc: Global, spot: Spot, sign: Sign, state: State) -> Result<State, ReadFault>
    ensures { (place : ℕ → model.Location) → IsAt place spot → AllAt place state.frames → awaits_first state.frames ≡ false → Leads place result (machine.within place spot.byte (sign_view sign) (content_view state.here) (seen state.frames)) }
{
    let at = spot.byte;
    match sign {
        Sign::Dropped => Ok(state),
        Sign::Words(text) => put_text(text, state),
        Sign::Value(place) => put_place(spot, place, state),
        Sign::Whole(tag) => whole_tag(alloc, spot, tag, state),
        Sign::Opens(tag) => opened(alloc, spot, Open::Tag(tag), state),
        Sign::Closes(name) => end_tag(alloc, at, &name, state),
        Sign::Block(block) => open_block(alloc, spot, block, state),
        Sign::ClauseHead(pattern) => later_clause(alloc, at, pattern, state),
        Sign::Otherwise => else_branch(alloc, at, state),
        Sign::Ends => end_block(alloc, at, state),
        Sign::Broken { at, kind } => Err(ReadFault::Faulty { at, kind }),
        Sign::BrokenOpening { at: byte, kind } => Err(broken_open(at, byte, kind, &state.frames)),
    }
}

/// What a sign is before the first clause of a `case`.
#[derive(Drop)]
pub(crate) enum Early {
    /// White space, or a comment of which nothing is left.
    Gap,
    /// The first clause's head.
    Head(Pattern),
    /// What may not stand there.
    Stray,
}

fn early_words(text: Text) -> Early
    ensures { result ≡ view.early_of (sign.Words text) }
{
    if is_blank(text.as_str()) {
        Early::Gap
    } else {
        Early::Stray
    }
}

// What may not stand there, whatever it holds.
fn stray<T: Drop>(_held: T) -> Early
    ensures { result ≡ early_form.Stray }
{
    Early::Stray
}

fn early_of(sign: Sign) -> Early
    ensures { result ≡ view.early_of sign }
{
    match sign {
        Sign::Dropped => Early::Gap,
        Sign::Words(text) => early_words(text),
        Sign::ClauseHead(pattern) => Early::Head(pattern),
        Sign::Value(place) => stray(place),
        Sign::Whole(tag) => stray(tag),
        Sign::Opens(tag) => stray(tag),
        Sign::Closes(name) => stray(name),
        Sign::Block(block) => stray(block),
        Sign::Otherwise => Early::Stray,
        Sign::Ends => Early::Stray,
        Sign::Broken {
            at: _at,
            kind: _kind,
        } => Early::Stray,
        Sign::BrokenOpening {
            at: _at,
            kind: _kind,
        } => Early::Stray,
    }
}

// What is open, and nothing that stands in it.
fn emptied(alloc: Global, frames: Pile) -> State
    ensures value { state_view result ≡ record { here = contents.nothing_yet; frames = seen frames } }
    ensures same { result.frames ≡ frames }
{
    State {
        here: Content::new(alloc),
        frames,
    }
}

// A sign before the first clause of a `case`.
fn before_first(alloc: Global, at: usize, early: Early, frames: Pile) -> Result<State, ReadFault>
    ensures { (place : ℕ → model.Location) (s : Sign) (here : contents.Content) → early ≡ view.early_of s → AllAt place frames → awaits_first frames ≡ true → Leads place result (machine.step place (sign_at at (sign_view s)) (record { here = here; frames = seen frames })) }
{
    let state = emptied(alloc, frames);
    match early {
        Early::Gap => Ok(state),
        Early::Head(pattern) => next_clause(alloc, at, pattern, state),
        Early::Stray => Err(bad_block(at)),
    }
}

/// A sign behind what was read.
pub(crate) fn step(alloc: Global, spot: Spot, sign: Sign, state: State) -> Result<State, ReadFault>
    ensures { (place : ℕ → model.Location) → IsAt place spot → AllAt place state.frames → Leads place result (machine.step place (sign_at spot.byte (sign_view sign)) (state_view state)) }
{
    if awaits(&state.frames) {
        before_first(alloc, spot.byte, early_of(sign), state.frames)
    } else {
        within(alloc, spot, sign, state)
    }
}

/// The nodes that were read, where nothing is open any more.
pub(crate) fn finished(state: State) -> Result<Nodes, ReadFault>
    ensures { (place : ℕ → model.Location) → Gives result (machine.finished place (state_view state)) }
{
    let State { here, frames } = state;
    match innermost(&frames) {
        Some(at) => Err(ReadFault::Faulty {
            at,
            kind: TemplateKind::Unclosed,
        }),
        None => Ok(nodes_in(here)),
    }
}
