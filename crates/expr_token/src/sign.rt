//! Signs.
ghost use Rattle.std.specs.Prelude.{◌≡◌, ◌<◌, ◌≤◌, ◌+◌, length, drop, false, if◌then◌else◌, IfOk};
ghost use Rattle.std.specs.List.{slice_index};
ghost use Rattle.expr_token.specs.Tokens.{begins, token_where, long_signs, short_signs, long_by, with_piece, piece_from, sign};
ghost use Rattle.expr_token.specs.declared.token.Token.TheVariants.{Quote, PartClosing, CallOpening, OpeningRound, IndexOpening, OpeningSquare, Dot, Foreign};

use crate::byte::begins_with;
use crate::module::colon;
use crate::piece::piece;
use crate::token::{Bracket, Cut, Near, Piece, Token, sized};
use ast_core::BinaryOp;
use std::alloc::Global;
use text_core::OutOfMemory;

// The sign of two characters that these bytes begin with.
fn long_sign(rest: &[u8]) -> Option<Token>
    ensures { result ≡ token_where (λ s. begins s rest.now) long_signs }
{
    if begins_with(rest, b"||") {
        return Some(Token::Operator(BinaryOp::OrElse));
    }
    if begins_with(rest, b"&&") {
        return Some(Token::Operator(BinaryOp::AndAlso));
    }
    if begins_with(rest, b"==") {
        return Some(Token::Operator(BinaryOp::Equal));
    }
    if begins_with(rest, b"!=") {
        return Some(Token::Operator(BinaryOp::Unequal));
    }
    if begins_with(rest, b"<=") {
        return Some(Token::Operator(BinaryOp::AtMost));
    }
    if begins_with(rest, b">=") {
        return Some(Token::Operator(BinaryOp::AtLeast));
    }
    if begins_with(rest, b"++") {
        return Some(Token::Operator(BinaryOp::Append));
    }
    if begins_with(rest, b"<>") {
        return Some(Token::Operator(BinaryOp::Concat));
    }
    if begins_with(rest, b"|>") {
        return Some(Token::Pipe);
    }
    if begins_with(rest, b"=>") {
        return Some(Token::Arrow);
    }
    if begins_with(rest, b"%{") {
        return Some(Token::OpeningMap);
    }
    None
}

// The sign of one character that these bytes begin with, where it is the same wherever it stands.
fn short_sign(rest: &[u8]) -> Option<Token>
    ensures { result ≡ token_where (λ s. begins s rest.now) short_signs }
{
    if begins_with(rest, b"<") {
        return Some(Token::Operator(BinaryOp::Less));
    }
    if begins_with(rest, b">") {
        return Some(Token::Operator(BinaryOp::Greater));
    }
    if begins_with(rest, b"+") {
        return Some(Token::Operator(BinaryOp::Plus));
    }
    if begins_with(rest, b"-") {
        return Some(Token::Operator(BinaryOp::Minus));
    }
    if begins_with(rest, b"*") {
        return Some(Token::Operator(BinaryOp::Times));
    }
    if begins_with(rest, b"!") {
        return Some(Token::Bang);
    }
    if begins_with(rest, b"@") {
        return Some(Token::At);
    }
    if begins_with(rest, b",") {
        return Some(Token::Comma);
    }
    if begins_with(rest, b"{") {
        return Some(Token::OpeningCurly);
    }
    if begins_with(rest, b")") {
        return Some(Token::Closing(Bracket::Round));
    }
    if begins_with(rest, b"]") {
        return Some(Token::Closing(Bracket::Square));
    }
    None
}

// A sign that is the same wherever it stands, or a byte that begins no token.
fn by_table(rest: &[u8]) -> Cut
    ensures { result ≡ long_by (token_where (λ s. begins s rest.now) long_signs) rest.now }
{
    if let Some(token) = long_sign(rest) {
        return sized(token, 2);
    }
    match short_sign(rest) {
        Some(token) => sized(token, 1),
        None => sized(Token::Foreign, 1),
    }
}

fn round(near: Near) -> Token
    ensures { result ≡ (if near.name then CallOpening else OpeningRound) }
{
    if near.name {
        Token::CallOpening
    } else {
        Token::OpeningRound
    }
}

fn square(near: Near) -> Token
    ensures { result ≡ (if near.value then IndexOpening else OpeningSquare) }
{
    if near.value {
        Token::IndexOpening
    } else {
        Token::OpeningSquare
    }
}

fn dot(near: Near) -> Token
    ensures { result ≡ (if near.value then Dot else Foreign) }
{
    if near.value {
        Token::Dot
    } else {
        Token::Foreign
    }
}

// The piece of a text behind the byte that stands here.
fn piece_behind(alloc: Global, text: &str, at: usize) -> Result<Piece, OutOfMemory>
    requires within { at < length text.now }
    requires ascii { slice_index text.now at < 128 }
    ensures value { IfOk result (λ p. p ≡ piece_from false (drop 1 (drop at text.now))) }
    ensures within { IfOk result (λ p. at + 1 + p.size ≤ length text.now) }
{
    piece(alloc, text, at + 1)
}

/// The quote that begins a text, with the piece behind it.
pub(crate) fn quote(alloc: Global, text: &str, at: usize) -> Result<Cut, OutOfMemory>
    requires within { at < length text.now }
    requires ascii { slice_index text.now at < 128 }
    ensures { IfOk result (λ c. c ≡ with_piece Quote (drop 1 (drop at text.now))) }
{
    let piece = piece_behind(alloc, text, at)?;
    let size = piece.size + 1;
    Ok(sized(Token::Quote(piece.text), size))
}

// The brace that ends a part of a text, with the piece behind it.
fn part_end(alloc: Global, text: &str, at: usize) -> Result<Cut, OutOfMemory>
    requires within { at < length text.now }
    requires ascii { slice_index text.now at < 128 }
    ensures { IfOk result (λ c. c ≡ with_piece PartClosing (drop 1 (drop at text.now))) }
{
    let piece = piece_behind(alloc, text, at)?;
    let size = piece.size + 1;
    Ok(sized(Token::PartClosing(piece.text), size))
}

/// What begins with a sign, or with a byte that begins no token.
pub(crate) fn sign(
    alloc: Global,
    text: &str,
    at: usize,
    near: Near,
    part: bool,
) -> Result<Cut, OutOfMemory>
    requires within { at < length text.now }
    ensures { IfOk result (λ c. c ≡ sign near part (drop at text.now)) }
{
    let rest = text.as_bytes().split_at(at).1;
    if begins_with(rest, b"(") {
        return Ok(sized(round(near), 1));
    }
    if begins_with(rest, b"[") {
        return Ok(sized(square(near), 1));
    }
    if begins_with(rest, b".") {
        return Ok(sized(dot(near), 1));
    }
    if begins_with(rest, b":") {
        return colon(alloc, text, at + 1);
    }
    if !begins_with(rest, b"}") {
        return Ok(by_table(rest));
    }
    if part {
        return part_end(alloc, text, at);
    }
    Ok(sized(Token::Closing(Bracket::Curly), 1))
}
