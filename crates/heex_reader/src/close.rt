//! What ends, or goes on as another branch or clause.
ghost use Rattle.std.specs.Prelude.{◌≡◌, ◌∷◌, [], ◌++◌, ℕ, IfOk, map, option_map};
ghost use Rattle.ast_core.specs.Syntax as model;
ghost use Rattle.ast_core.specs.ExprView.{expr_view};
ghost use Rattle.ast_core.specs.PatternView.{pattern_view};
ghost use Rattle.ast_core.specs.NodeView.{clause_view, clauses_of, nodes_view, place_view};
ghost use Rattle.heex_reader.specs.Contents as contents;
ghost use Rattle.heex_reader.specs.Machine as machine;
ghost use Rattle.heex_reader.specs.Seen as view;
ghost use Rattle.heex_reader.specs.Seen.{content_view, tag_view, framed, frame_view, seen, IsAt, AllAt};
ghost use Rattle.heex_reader.specs.Leads.{Leads};
ghost use Rattle.heex_reader.specs.declared.fault.TemplateKind.TheVariants as kind;
ghost use Rattle.heex_reader.specs.declared.refusal.ReadFault.TheVariants as fault;

use crate::TemplateKind;
use crate::content::{Content, nodes_in, with_node};
use crate::frame::{Frame, Open};
use crate::pile::Pile;
use crate::refusal::ReadFault;
use crate::sign::Tag;
use crate::state::{State, in_call, reopened};
use crate::tag_node::add_tag;
use ast_core::{Clause, Clauses, Expr, Generator, Node, Nodes, Pattern, Place};
use std::alloc::Global;
use text_core::{OutOfMemory, Seq};

// One more clause of a `case`.
#[tactic(auto, using(crate::proofs::Nodes::clauses_more))]
fn with_clause(clauses: Clauses, pattern: Pattern, body: Nodes) -> Result<Clauses, OutOfMemory>
    ensures { IfOk result (λ cs. map clause_view cs ≡ map clause_view clauses ++ (pattern_view pattern, nodes_view body) ∷ []) }
{
    let mut clauses = clauses;
    clauses.push(Clause { pattern, body })?;
    Ok(clauses)
}

#[tactic(auto, using(crate::proofs::Nodes::sees_if))]
fn if_place(test: Expr, yes: Nodes, no: Nodes) -> Place
    ensures { place_view result ≡ model.if_place (expr_view test) (nodes_view yes) (nodes_view no) }
{
    Place::If { test, yes, no }
}

#[tactic(auto, using(crate::proofs::Nodes::sees_for))]
fn for_place(generator: Generator, body: Nodes) -> Place
    ensures { place_view result ≡ model.for_place (pattern_view generator.pattern) (expr_view generator.list) (nodes_view body) }
{
    let Generator { pattern, list } = generator;
    Place::For {
        pattern,
        list,
        body,
    }
}

#[tactic(auto, using(crate::proofs::Nodes::sees_case))]
fn case_place(
    value: Expr,
    clauses: Clauses,
    pattern: Pattern,
    body: Nodes,
) -> Result<Place, OutOfMemory>
    ensures { IfOk result (λ p. place_view p ≡ model.case_place (expr_view value) (clauses_of (map clause_view clauses ++ (pattern_view pattern, nodes_view body) ∷ []))) }
{
    let clauses = with_clause(clauses, pattern, body)?;
    Ok(Place::Case { value, clauses })
}

// What a block's end makes of what is open.
fn ended(alloc: Global, form: Open, here: Nodes) -> Result<Option<Place>, OutOfMemory>
    ensures { IfOk result (λ p. view.ended form (nodes_view here) ≡ option_map place_view p) }
{
    match form {
        Open::Yes(test) => Ok(Some(if_place(test, here, Seq::new(alloc)))),
        Open::No(test, yes) => Ok(Some(if_place(test, yes, here))),
        Open::Loop(generator) => Ok(Some(for_place(generator, here))),
        Open::Clause(value, clauses, pattern) => {
            Ok(Some(case_place(value, clauses, pattern, here)?))
        }
        Open::Tag(_tag) => Ok(None),
        Open::BeforeClauses(_value) => Ok(None),
    }
}

// What an `else` makes of what is open.
fn other_branch(form: Open, here: Nodes) -> Option<Open>
    ensures { (n : ℕ) (c : contents.Content) → view.other_branch form (nodes_view here) n c ≡ option_map (λ o. framed o n c) result }
{
    match form {
        Open::Yes(test) => Some(Open::No(test, here)),
        Open::No(_test, _yes) => None,
        Open::Loop(_generator) => None,
        Open::Clause(_value, _clauses, _pattern) => None,
        Open::Tag(_tag) => None,
        Open::BeforeClauses(_value) => None,
    }
}

// What a clause's head makes of what is open.
fn another_clause(
    alloc: Global,
    form: Open,
    next: Pattern,
    here: Nodes,
) -> Result<Option<Open>, OutOfMemory>
    ensures { IfOk result (λ r. (n : ℕ) (c : contents.Content) → view.another_clause form (pattern_view next) (nodes_view here) n c ≡ option_map (λ o. framed o n c) r) }
{
    match form {
        Open::Clause(value, clauses, pattern) => {
            let clauses = with_clause(clauses, pattern, here)?;
            Ok(Some(Open::Clause(value, clauses, next)))
        }
        Open::BeforeClauses(value) => Ok(Some(Open::Clause(value, Seq::new(alloc), next))),
        Open::Yes(_test) => Ok(None),
        Open::No(_test, _yes) => Ok(None),
        Open::Loop(_generator) => Ok(None),
        Open::Tag(_tag) => Ok(None),
    }
}

// A tag, if it has this name.
fn if_named(tag: Tag, name: &str) -> Option<Tag>
    ensures { option_map tag_view result ≡ view.if_named tag name.now }
{
    if name == tag.name.as_str() {
        Some(tag)
    } else {
        None
    }
}

// The tag of this name, where one is open.
fn tag_named(form: Open, name: &str) -> Option<Tag>
    ensures { option_map tag_view result ≡ view.tag_named form name.now }
{
    match form {
        Open::Tag(tag) => if_named(tag, name),
        Open::Yes(_test) => None,
        Open::No(_test, _yes) => None,
        Open::Loop(_generator) => None,
        Open::Clause(_value, _clauses, _pattern) => None,
        Open::BeforeClauses(_value) => None,
    }
}

/// This stands where it may not.
pub(crate) fn bad_block(at: usize) -> ReadFault
    ensures { result ≡ fault.Faulty at kind.BadBlock }
{
    ReadFault::Faulty {
        at,
        kind: TemplateKind::BadBlock,
    }
}

fn wrong_close(at: usize) -> ReadFault
    ensures { result ≡ fault.Faulty at kind.WrongClose }
{
    ReadFault::Faulty {
        at,
        kind: TemplateKind::WrongClose,
    }
}

// A block's end, where this is open.
#[tactic(auto, using(crate::proofs::Closes::block_ends, crate::proofs::Closes::block_stays))]
fn end_frame(
    alloc: Global,
    at: usize,
    here: Content,
    frame: Frame,
    frames: Pile,
) -> Result<State, ReadFault>
    ensures { (place : ℕ → model.Location) → IsAt place frame.spot → AllAt place frames → Leads place result (machine.end_block place at (content_view here) (frame_view frame ∷ seen frames)) }
{
    let Frame { spot, before, form } = frame;
    match ended(alloc, form, nodes_in(here))? {
        Some(place) => {
            let at = spot.location;
            let here = with_node(before, Node::Place { at, place })?;
            Ok(State { here, frames })
        }
        None => Err(bad_block(at)),
    }
}

/// A block's end.
pub(crate) fn end_block(alloc: Global, at: usize, state: State) -> Result<State, ReadFault>
    ensures { (place : ℕ → model.Location) → AllAt place state.frames → Leads place result (machine.end_block place at (content_view state.here) (seen state.frames)) }
{
    let State { here, frames } = state;
    let mut frames = frames;
    match frames.pop() {
        Some(frame) => end_frame(alloc, at, here, frame, frames),
        None => Err(bad_block(at)),
    }
}

// An `else`, where this is open.
fn else_frame(
    alloc: Global,
    at: usize,
    here: Content,
    frame: Frame,
    frames: Pile,
) -> Result<State, ReadFault>
    ensures { (place : ℕ → model.Location) → IsAt place frame.spot → AllAt place frames → Leads place result (machine.else_branch place at (content_view here) (frame_view frame ∷ seen frames)) }
{
    let Frame { spot, before, form } = frame;
    let form = other_branch(form, nodes_in(here));
    reopened(alloc, at, form, spot, before, frames)
}

/// An `else`.
pub(crate) fn else_branch(alloc: Global, at: usize, state: State) -> Result<State, ReadFault>
    ensures { (place : ℕ → model.Location) → AllAt place state.frames → Leads place result (machine.else_branch place at (content_view state.here) (seen state.frames)) }
{
    let State { here, frames } = state;
    let mut frames = frames;
    match frames.pop() {
        Some(frame) => else_frame(alloc, at, here, frame, frames),
        None => Err(bad_block(at)),
    }
}

// A clause's head, where this is open.
fn clause_frame(
    alloc: Global,
    at: usize,
    pattern: Pattern,
    here: Content,
    frame: Frame,
    frames: Pile,
) -> Result<State, ReadFault>
    ensures { (place : ℕ → model.Location) → IsAt place frame.spot → AllAt place frames → Leads place result (view.clause_step place at (pattern_view pattern) (content_view here) (frame_view frame ∷ seen frames)) }
{
    let Frame { spot, before, form } = frame;
    let form = another_clause(alloc, form, pattern, nodes_in(here))?;
    reopened(alloc, at, form, spot, before, frames)
}

/// A clause's head.
pub(crate) fn next_clause(
    alloc: Global,
    at: usize,
    pattern: Pattern,
    state: State,
) -> Result<State, ReadFault>
    ensures { (place : ℕ → model.Location) → AllAt place state.frames → Leads place result (view.clause_step place at (pattern_view pattern) (content_view state.here) (seen state.frames)) }
{
    let State { here, frames } = state;
    let mut frames = frames;
    match frames.pop() {
        Some(frame) => clause_frame(alloc, at, pattern, here, frame, frames),
        None => Err(bad_block(at)),
    }
}

// An end tag, where this is open.
#[tactic(auto, using(crate::proofs::Closes::tag_ends, crate::proofs::Closes::tag_stays))]
fn close_frame(
    alloc: Global,
    at: usize,
    name: &str,
    here: Content,
    frame: Frame,
    frames: Pile,
) -> Result<State, ReadFault>
    ensures { (place : ℕ → model.Location) → IsAt place frame.spot → AllAt place frames → Leads place result (machine.close_tag place at name.now (content_view here) (frame_view frame ∷ seen frames)) }
{
    let Frame { spot, before, form } = frame;
    match tag_named(form, name) {
        Some(tag) => {
            let in_call = in_call(&frames);
            let here = add_tag(alloc, in_call, spot.location, tag, here, before)?;
            Ok(State { here, frames })
        }
        None => Err(wrong_close(at)),
    }
}

/// An end tag.
pub(crate) fn close_tag(
    alloc: Global,
    at: usize,
    name: &str,
    state: State,
) -> Result<State, ReadFault>
    ensures { (place : ℕ → model.Location) → AllAt place state.frames → Leads place result (machine.close_tag place at name.now (content_view state.here) (seen state.frames)) }
{
    let State { here, frames } = state;
    let mut frames = frames;
    match frames.pop() {
        Some(frame) => close_frame(alloc, at, name, here, frame, frames),
        None => Err(wrong_close(at)),
    }
}
