//! The tags of blocks.
ghost use Rattle.std.specs.Prelude.{◌≡◌, Ok, codes, true, false, IfOk, MatchOption};
ghost use Rattle.heex_reader.specs.Pieces.{then_do, expr_at, pattern_at, generator_at, ends_with_do, before_end, block_sign, head_by, head_sign, clause_sign, block_tag_sign, put_sign};
ghost use Rattle.heex_reader.specs.SeenSigns.{sign_view, HasRoom};
ghost use Rattle.heex_reader.specs.Signs.{if_block, for_block, case_block};

use crate::TemplateKind;
use crate::piece::{PieceFault, expr_at, generator_at, pattern_at};
use crate::sign::{Block, Sign};
use crate::value::value_sign;
use crate::white::{before_end, behind, ends_in_name, name_length, trimmed, white_before};
use std::alloc::Global;
use text_core::OutOfMemory;

// An `if`.
fn if_sign(alloc: Global, at: usize, text: &str) -> Result<Sign, OutOfMemory>
    requires { HasRoom at text.now }
    ensures { IfOk result (λ s. sign_view s ≡ block_sign (then_do (expr_at at text.now) (λ e. Ok (if_block e)))) }
{
    match expr_at(alloc, at, text) {
        Ok(test) => Ok(Sign::Block(Block::If(test))),
        Err(PieceFault::Faulty { at, kind }) => Ok(Sign::BrokenOpening { at, kind }),
        Err(PieceFault::OutOfMemory) => Err(OutOfMemory),
    }
}

// A `for`.
fn for_sign(alloc: Global, at: usize, text: &str) -> Result<Sign, OutOfMemory>
    requires { HasRoom at text.now }
    ensures { IfOk result (λ s. sign_view s ≡ block_sign (then_do (generator_at at text.now) (λ g. Ok (for_block g.pattern g.items)))) }
{
    match generator_at(alloc, at, text) {
        Ok(generator) => Ok(Sign::Block(Block::For(generator))),
        Err(PieceFault::Faulty { at, kind }) => Ok(Sign::BrokenOpening { at, kind }),
        Err(PieceFault::OutOfMemory) => Err(OutOfMemory),
    }
}

// A `case`.
fn case_sign(alloc: Global, at: usize, text: &str) -> Result<Sign, OutOfMemory>
    requires { HasRoom at text.now }
    ensures { IfOk result (λ s. sign_view s ≡ block_sign (then_do (expr_at at text.now) (λ e. Ok (case_block e)))) }
{
    match expr_at(alloc, at, text) {
        Ok(value) => Ok(Sign::Block(Block::Case(value))),
        Err(PieceFault::Faulty { at, kind }) => Ok(Sign::BrokenOpening { at, kind }),
        Err(PieceFault::OutOfMemory) => Err(OutOfMemory),
    }
}

// The head of a block by its first word, with the text behind that.
fn head_by(
    alloc: Global,
    start: usize,
    word: &[u8],
    at: usize,
    text: &str,
) -> Result<Sign, OutOfMemory>
    requires { HasRoom at text.now }
    ensures { IfOk result (λ s. sign_view s ≡ head_by start word.now at text.now) }
{
    if word == b"if".as_slice() {
        return if_sign(alloc, at, text);
    }
    if word == b"for".as_slice() {
        return for_sign(alloc, at, text);
    }
    if word == b"case".as_slice() {
        return case_sign(alloc, at, text);
    }
    Ok(Sign::Broken {
        at: start,
        kind: TemplateKind::BadBlock,
    })
}

/// The head of a block without its `do`.
pub(crate) fn head_sign(
    alloc: Global,
    start: usize,
    at: usize,
    text: &str,
) -> Result<Sign, OutOfMemory>
    requires { HasRoom at text.now }
    ensures { IfOk result (λ s. sign_view s ≡ head_sign start at text.now) }
{
    let bytes = text.as_bytes();
    let white = white_before(bytes);
    let behind_white = bytes.split_at(white).1;
    let length = name_length(behind_white);
    let word = behind_white.split_at(length).0;
    let size = white + length;
    head_by(alloc, start, word, at + size, behind(text, size))
}

// The head that a text is which ends with the word `do`, without that.
fn head_in(text: &str) -> Option<&str>
    ensures { MatchOption result (ends_with_do text.now ≡ false) (λ t. (ends_with_do text.now ≡ true) × (t.now ≡ before_end (codes "do") text.now)) }
{
    let head = before_end(text, "do")?;
    if ends_in_name(head.as_bytes()) {
        return None;
    }
    Some(head)
}

/// `<%= .. %>`: the head of a block, or an interpolation.
pub(crate) fn put_sign(
    alloc: Global,
    start: usize,
    at: usize,
    text: &str,
) -> Result<Sign, OutOfMemory>
    requires { HasRoom at text.now }
    ensures { IfOk result (λ s. sign_view s ≡ put_sign start at text.now) }
{
    match head_in(text) {
        Some(head) => head_sign(alloc, start, at, head),
        None => value_sign(alloc, at, text),
    }
}

// The head of a clause without its arrow.
fn clause_sign(alloc: Global, at: usize, text: &str) -> Result<Sign, OutOfMemory>
    requires { HasRoom at text.now }
    ensures { IfOk result (λ s. sign_view s ≡ clause_sign (pattern_at at text.now)) }
{
    match pattern_at(alloc, at, text) {
        Ok(pattern) => Ok(Sign::ClauseHead(pattern)),
        Err(PieceFault::Faulty { at, kind }) => Ok(Sign::Broken { at, kind }),
        Err(PieceFault::OutOfMemory) => Err(OutOfMemory),
    }
}

/// `<% .. %>`
pub(crate) fn block_tag_sign(
    alloc: Global,
    start: usize,
    at: usize,
    text: &str,
) -> Result<Sign, OutOfMemory>
    requires { HasRoom at text.now }
    ensures { IfOk result (λ s. sign_view s ≡ block_tag_sign start at text.now) }
{
    let word = trimmed(text).as_bytes();
    if word == b"else".as_slice() {
        return Ok(Sign::Otherwise);
    }
    if word == b"end".as_slice() {
        return Ok(Sign::Ends);
    }
    match before_end(text, "->") {
        Some(pattern) => clause_sign(alloc, at, pattern),
        None => Ok(Sign::Broken {
            at: start,
            kind: TemplateKind::BadBlock,
        }),
    }
}
