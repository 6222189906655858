//! The tokens of texts.
ghost use Rattle.std.specs.Prelude.{◌≡◌, ◌<◌, ◌+◌, ◌-◌, ◌++◌, length, drop, min, reverse, IfOk, OnOk};
ghost use Rattle.std.specs.List.{slice_index};
ghost use Rattle.expr_token.specs.Tokens.{passed, behind_piece, beginning, token_by, first_token, near_of, placed, opened_by, placed_tokens, left_open};
ghost use Rattle.expr_token.specs.Lexing.{innermost, next_cut, Steps};

use crate::byte::{begins_name, begins_with, is_white};
use crate::module::module_word;
use crate::number::number;
use crate::opening::{in_parted, in_quoted, innermost, near_of, update};
use crate::sign::{quote, sign};
use crate::token::{Cut, Near, Opened, Placed, Token, sized};
use crate::word::word;
use std::alloc::Global;
use text_core::{OutOfMemory, Seq};

/// The tokens of a text.
#[derive(Debug, Drop)]
pub struct Tokens {
    /// In the order of the text.
    pub list: Seq<Placed>,
    /// The innermost of the openings that the text ends without closing.
    pub unclosed: Option<Opened>,
}

/// How far a text is read.
#[derive(Debug, Drop)]
pub(crate) struct Lexer {
    /// The tokens so far.
    pub list: Seq<Placed>,
    /// What is not closed, the innermost last.
    pub openings: Seq<Opened>,
    /// What ends directly before the next byte.
    pub near: Near,
    /// The next byte.
    pub at: usize,
}

// A byte that is passed over.
fn passed() -> Cut
    ensures { result ≡ passed }
{
    Cut {
        token: None,
        size: 1,
    }
}

// What stands behind a piece of a text.
fn behind_piece(rest: &[u8]) -> Cut
    ensures { result ≡ behind_piece rest.now }
{
    if begins_with(rest, b"\"") {
        return sized(Token::QuoteEnd, 1);
    }
    if begins_with(rest, b"#{") {
        return sized(Token::PartOpening, 2);
    }
    if !begins_with(rest, b"\\") {
        return sized(Token::Foreign, 1);
    }
    if rest.len() == 1 {
        passed()
    } else {
        sized(Token::Foreign, 1)
    }
}

// What stands at this byte outside of the characters of texts.
fn token_outside(
    alloc: Global,
    text: &str,
    at: usize,
    near: Near,
    part: bool,
) -> Result<Cut, OutOfMemory>
    requires within { at < length text.now }
    ensures { IfOk result (λ c. c ≡ token_by (beginning (slice_index text.now at)) at near part (drop at text.now)) }
{
    let byte = text.as_bytes()[at];
    if is_white(byte) {
        return Ok(passed());
    }
    if begins_name(byte) {
        return word(alloc, text, at);
    }
    if byte.is_ascii_uppercase() {
        return module_word(alloc, text, at);
    }
    if byte.is_ascii_digit() {
        return Ok(number(text.as_bytes().split_at(at).1));
    }
    if byte == b'"' {
        return quote(alloc, text, at);
    }
    sign(alloc, text, at, near, part)
}

// What stands at this byte, by whether the innermost opening is a text or a part of one.
fn token_at(
    alloc: Global,
    text: &str,
    at: usize,
    near: Near,
    quoted: bool,
    part: bool,
) -> Result<Cut, OutOfMemory>
    requires within { at < length text.now }
    ensures { IfOk result (λ c. c ≡ first_token quoted at near part (slice_index text.now at) (drop (at + 1) text.now)) }
{
    if quoted {
        return Ok(behind_piece(text.as_bytes().split_at(at).1));
    }
    token_outside(alloc, text, at, near, part)
}

// Where a token of this size ends: behind its first byte, and within the text.
fn end_of(at: usize, size: usize, length: usize) -> usize
    requires { at < length }
    ensures { result ≡ min (at + 1 + (size - 1)) length }
{
    at + size.max(1).min(length - at)
}

// Adds a token, if there is one.
fn add(lexer: &mut Lexer, token: Option<Token>) -> Result<(), OutOfMemory>
    ensures list { OnOk result (lexer.new.list ≡ lexer.old.list ++ placed lexer.old.at token) }
    ensures openings { OnOk result (reverse lexer.new.openings ≡ opened_by (reverse lexer.old.openings) (placed lexer.old.at token)) }
{
    match token {
        Some(token) => {
            update(&mut lexer.openings, &token, lexer.at)?;
            lexer.list.push(Placed {
                at: lexer.at,
                token,
            })
        }
        None => Ok(()),
    }
}

// Goes past what stands at the next byte.
fn pass(lexer: &mut Lexer, cut: Cut, length: usize) -> Result<(), OutOfMemory>
    requires { lexer.old.at < length }
    ensures list { OnOk result (lexer.new.list ≡ lexer.old.list ++ placed lexer.old.at cut.token) }
    ensures openings { OnOk result (reverse lexer.new.openings ≡ opened_by (reverse lexer.old.openings) (placed lexer.old.at cut.token)) }
    ensures near { OnOk result (lexer.new.near ≡ near_of cut.token) }
    ensures at { OnOk result (lexer.new.at ≡ min (lexer.old.at + 1 + (cut.size - 1)) length) }
{
    let Cut { token, size } = cut;
    let near = near_of(&token);
    let end = end_of(lexer.at, size, length);
    add(lexer, token)?;
    lexer.near = near;
    lexer.at = end;
    Ok(())
}

// What stands at the next byte.
fn next(alloc: Global, text: &str, lexer: &Lexer) -> Result<Cut, OutOfMemory>
    requires { lexer.now.at < length text.now }
    ensures { IfOk result (λ c. c ≡ next_cut text.now lexer.now) }
{
    let inner = innermost(lexer.openings.as_slice());
    let quoted = in_quoted(inner);
    let part = in_parted(inner);
    token_at(alloc, text, lexer.at, lexer.near, quoted, part)
}

// Reads on by a token, or a byte that is passed over.
fn step(alloc: Global, text: &str, lexer: &mut Lexer) -> Result<(), OutOfMemory>
    requires { lexer.old.at < length text.now }
    ensures { OnOk result (Steps text.now lexer.old lexer.new) }
{
    let cut = next(alloc, text, lexer)?;
    pass(lexer, cut, text.len())?;
    Ok(())
}

/// The tokens of a text, and what it leaves open.
pub fn lex(alloc: Global, text: &str) -> Result<Tokens, OutOfMemory>
    ensures tokens { IfOk result (λ ts. ts.list ≡ placed_tokens text.now) }
    ensures open { IfOk result (λ ts. ts.unclosed ≡ innermost (left_open text.now)) }
{
    let mut lexer = Lexer {
        list: Seq::new(alloc),
        openings: Seq::new(alloc),
        near: Near {
            value: false,
            name: false,
        },
        at: 0,
    };
    'more: while lexer.at < text.len() {
        step(alloc, text, &mut lexer)?;
    }
    let unclosed = innermost(lexer.openings.as_slice());
    let Lexer {
        list,
        openings: _openings,
        near: _near,
        at: _at,
    } = lexer;
    Ok(Tokens { list, unclosed })
}
