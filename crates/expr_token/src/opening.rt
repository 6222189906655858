//! What tokens end, open and close.
ghost use Rattle.std.specs.Prelude.{◌≡◌, ◌∷◌, [], Some, None, true, reverse, OnOk};
ghost use Rattle.expr_token.specs.Tokens.{ends_value, ends_name, near_of, opening_of, closes, opened_or, opened};
ghost use Rattle.expr_token.specs.Lexing.{innermost, in_quoted, in_parted, at_place};

use crate::token::{Near, Opened, Opening, Token};
use text_core::{OutOfMemory, Seq};

// Whether a value ends with this token.
fn ends_value(token: &Token) -> bool
    ensures { result ≡ ends_value (Some token.now) }
{
    match token {
        Token::Number(_) => true,
        Token::Word { at: _, name: _ } => true,
        Token::Atom(_) => true,
        Token::Nil => true,
        Token::Boolean(_) => true,
        Token::Closing(_) => true,
        Token::QuoteEnd => true,
        _ => false,
    }
}

// Whether this token may be the name of a call.
fn ends_name(token: &Token) -> bool
    ensures { result ≡ ends_name (Some token.now) }
{
    match token {
        Token::Word { at: _, name: _ } => true,
        Token::Function { at: _, name: _ } => true,
        _ => false,
    }
}

/// What ends directly before what follows on this token.
pub(crate) fn near_of(token: &Option<Token>) -> Near
    ensures { result ≡ near_of token.now }
{
    match token {
        Some(token) => Near {
            value: ends_value(token),
            name: ends_name(token),
        },
        None => Near {
            value: false,
            name: false,
        },
    }
}

// What a token opens.
fn opening_of(token: &Token) -> Option<Opening>
    ensures { result ≡ opening_of token.now }
{
    match token {
        Token::OpeningRound => Some(Opening::Bracketed),
        Token::CallOpening => Some(Opening::Bracketed),
        Token::OpeningSquare => Some(Opening::Bracketed),
        Token::IndexOpening => Some(Opening::Bracketed),
        Token::OpeningCurly => Some(Opening::Bracketed),
        Token::OpeningMap => Some(Opening::Bracketed),
        Token::Quote(_) => Some(Opening::Quoted),
        Token::PartOpening => Some(Opening::Parted),
        _ => None,
    }
}

// Whether a token closes the innermost opening.
fn closes(token: &Token) -> bool
    ensures { result ≡ closes token.now }
{
    match token {
        Token::Closing(_) => true,
        Token::PartClosing(_) => true,
        Token::QuoteEnd => true,
        _ => false,
    }
}

/// The innermost of these openings, which stands last.
pub(crate) fn innermost(openings: &[Opened]) -> Option<Opened>
    ensures { result ≡ innermost (reverse openings.now) }
{
    openings.last().copied()
}

/// Whether this innermost opening is a text.
pub(crate) fn in_quoted(opened: Option<Opened>) -> bool
    ensures { result ≡ in_quoted opened }
{
    match opened {
        Some(opened) => match opened.kind {
            Opening::Quoted => true,
            Opening::Parted => false,
            Opening::Bracketed => false,
        },
        None => false,
    }
}

/// Whether this innermost opening is a part of a text.
pub(crate) fn in_parted(opened: Option<Opened>) -> bool
    ensures { result ≡ in_parted opened }
{
    match opened {
        Some(opened) => match opened.kind {
            Opening::Quoted => false,
            Opening::Parted => true,
            Opening::Bracketed => false,
        },
        None => false,
    }
}

// Takes the innermost opening off.
fn close(openings: &mut Seq<Opened>, at: usize)
    ensures { reverse openings.new ≡ opened_or None true at (reverse openings.old) }
{
    let _closed = openings.pop();
}

/// What is open behind a token at this place, the innermost last.
pub(crate) fn update(
    openings: &mut Seq<Opened>,
    token: &Token,
    at: usize,
) -> Result<(), OutOfMemory>
    ensures { OnOk result (reverse openings.new ≡ opened (reverse openings.old) (at_place at token.now)) }
{
    match opening_of(token) {
        Some(kind) => openings.push(Opened { at, kind }),
        None => {
            if closes(token) {
                close(openings, at);
            }
            Ok(())
        }
    }
}
