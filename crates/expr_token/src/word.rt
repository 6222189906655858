//! Names, reserved words, the names of calls, and atoms.
ghost use Rattle.std.specs.Prelude.{◌≡◌, ◌≤◌, ◌<◌, ◌+◌, length, drop, take, IfOk, true};
ghost use Rattle.std.specs.Str.{IsAscii};
ghost use Rattle.expr_token.specs.Tokens.{first_is, begins_name, name_of, reserved_token, is_reserved, call_mark, word_or_function, reserved_word, word};

use crate::byte::{begins_with, name_length};
use crate::token::{Cut, Token, sized};
use ast_core::BinaryOp;
use std::alloc::Global;
use text_core::{OutOfMemory, Text};

// What a reserved word is.
fn reserved_token(name: &[u8]) -> Option<Token>
    ensures { result ≡ reserved_token name.now }
{
    if name == b"and".as_slice() {
        return Some(Token::Operator(BinaryOp::And));
    }
    if name == b"or".as_slice() {
        return Some(Token::Operator(BinaryOp::Or));
    }
    if name == b"in".as_slice() {
        return Some(Token::Operator(BinaryOp::Member));
    }
    if name == b"not".as_slice() {
        return Some(Token::NotWord);
    }
    if name == b"nil".as_slice() {
        return Some(Token::Nil);
    }
    if name == b"true".as_slice() {
        return Some(Token::Boolean(true));
    }
    if name == b"false".as_slice() {
        return Some(Token::Boolean(false));
    }
    if name == b"if".as_slice() {
        return Some(Token::If);
    }
    if name == b"do".as_slice() {
        return Some(Token::Foreign);
    }
    if name == b"else".as_slice() {
        return Some(Token::Foreign);
    }
    if name == b"end".as_slice() {
        return Some(Token::Foreign);
    }
    None
}

/// How long the `?` or `!` is that makes the name before it the name of a call.
pub(crate) fn call_mark(behind: &[u8]) -> usize
    ensures { result ≡ length (call_mark behind.now) }
{
    if begins_with(behind, b"?(") || begins_with(behind, b"!(") {
        1
    } else {
        0
    }
}

/// The ASCII characters that stand at a byte of a text.
pub(crate) fn copy_ascii(
    alloc: Global,
    text: &str,
    at: usize,
    size: usize,
) -> Result<Text, OutOfMemory>
    requires some { 0 < size }
    requires within { at + size ≤ length text.now }
    requires ascii { IsAscii (take size (drop at text.now)) }
    ensures { IfOk result (λ t. t ≡ take size (drop at text.now)) }
{
    let end = at + size;
    Text::copy_of(alloc, &text[at..end])
}

// A reserved word, or `do:` or `else:`.
fn reserved_word(token: Token, name: &[u8], behind: &[u8]) -> Cut
    ensures { result ≡ reserved_word token name.now behind.now }
{
    let colon = begins_with(behind, b":");
    if colon && name == b"do".as_slice() {
        return sized(Token::DoColon, 3);
    }
    if colon && name == b"else".as_slice() {
        return sized(Token::ElseColon, 5);
    }
    sized(token, name.len())
}

// A name, or what a mark makes the name of a call.
fn name_or_function(
    alloc: Global,
    text: &str,
    at: usize,
    size: usize,
    mark: usize,
) -> Result<Cut, OutOfMemory>
    requires begins { first_is begins_name (drop at text.now) ≡ true }
    requires name { size ≡ length (name_of (drop at text.now)) }
    requires mark { mark ≡ length (call_mark (drop size (drop at text.now))) }
    ensures { IfOk result (λ c. c ≡ word_or_function at (name_of (drop at text.now)) (call_mark (drop size (drop at text.now)))) }
{
    if mark == 0 {
        let name = copy_ascii(alloc, text, at, size)?;
        return Ok(sized(Token::Word { at, name }, size));
    }
    let full = size + mark;
    let name = copy_ascii(alloc, text, at, full)?;
    Ok(sized(Token::Function { at, name }, full))
}

/// What begins with a small letter or `_`.
pub(crate) fn word(alloc: Global, text: &str, at: usize) -> Result<Cut, OutOfMemory>
    requires within { at ≤ length text.now }
    requires begins { first_is begins_name (drop at text.now) ≡ true }
    ensures { IfOk result (λ c. c ≡ word at (drop at text.now)) }
{
    let rest = text.as_bytes().split_at(at).1;
    let size = name_length(rest);
    let (name, behind) = rest.split_at(size);
    match reserved_token(name) {
        Some(token) => Ok(reserved_word(token, name, behind)),
        None => name_or_function(alloc, text, at, size, call_mark(behind)),
    }
}

/// Whether a word is reserved.
pub(crate) fn is_reserved(name: &[u8]) -> bool
    ensures { result ≡ is_reserved name.now }
{
    reserved_token(name).is_some()
}
