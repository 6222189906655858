//! Modules with the name of a call, and what a colon begins.
ghost use Rattle.std.specs.Prelude.{◌≡◌, ◌≤◌, length, drop, IfOk};
ghost use Rattle.expr_token.specs.Tokens.{module_goes_on, module_of, module_word, atom_mark, colon};

use crate::byte::{begins_with, begins_with_name, begins_with_upper, in_name, name_length};
use crate::token::{Cut, Token, sized};
use crate::word::{call_mark, copy_ascii, is_reserved};
use std::alloc::Global;
use text_core::OutOfMemory;

// Whether a module goes on with the first of these bytes.
fn goes_on(rest: &[u8]) -> bool
    ensures { result ≡ module_goes_on rest.now }
{
    match rest {
        [first, behind @ ..] => {
            if in_name(*first) {
                true
            } else if *first == b'.' {
                begins_with_upper(behind)
            } else {
                false
            }
        }
        [] => false,
    }
}

// How many bytes the module has that these bytes begin with.
fn module_length(rest: &[u8]) -> usize
    ensures { result ≡ length (module_of rest.now) }
{
    let mut end = 0;
    'more: while end < rest.len() && goes_on(rest.split_at(end).1) {
        end += 1;
    }
    end
}

/// What begins with an upper-case letter.
pub(crate) fn module_word(alloc: Global, text: &str, at: usize) -> Result<Cut, OutOfMemory>
    requires within { at ≤ length text.now }
    ensures { IfOk result (λ c. c ≡ module_word at (drop at text.now)) }
{
    let rest = text.as_bytes().split_at(at).1;
    let size = module_length(rest);
    let behind = rest.split_at(size).1;
    if !begins_with(behind, b".") {
        return Ok(sized(Token::Foreign, size));
    }
    let called = behind.split_at(1).1;
    if !begins_with_name(called) {
        return Ok(sized(Token::Foreign, size));
    }
    let length = name_length(called);
    let (name, after) = called.split_at(length);
    if is_reserved(name) {
        return Ok(sized(Token::Foreign, size));
    }
    let mark = call_mark(after);
    let full = size + (1 + (length + mark));
    let name = copy_ascii(alloc, text, at, full)?;
    Ok(sized(Token::Function { at, name }, full))
}

// How long the `?` or `!` is that belongs to the atom before it.
fn atom_mark(behind: &[u8]) -> usize
    ensures { result ≡ length (atom_mark behind.now) }
{
    if begins_with(behind, b"?") {
        return 1;
    }
    if !begins_with(behind, b"!") {
        return 0;
    }
    if begins_with(behind, b"!=") { 0 } else { 1 }
}

/// What a colon begins, with this behind it.
pub(crate) fn colon(alloc: Global, text: &str, from: usize) -> Result<Cut, OutOfMemory>
    requires within { from ≤ length text.now }
    ensures { IfOk result (λ c. c ≡ colon (drop from text.now)) }
{
    let rest = text.as_bytes().split_at(from).1;
    let size = name_length(rest);
    let (name, behind) = rest.split_at(size);
    if begins_with_upper(rest) {
        return Ok(sized(Token::Foreign, 1));
    }
    if is_reserved(name) {
        return Ok(sized(Token::Foreign, 1));
    }
    if !begins_with_name(rest) {
        return Ok(sized(Token::Colon, 1));
    }
    let full = size + atom_mark(behind);
    let name = copy_ascii(alloc, text, from, full)?;
    Ok(sized(Token::Atom(name), full + 1))
}
