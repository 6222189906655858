//! What a text begins with: a token, or a part of a text token.
ghost use Rattle.std.specs.Prelude.{◌≡◌, ◌<◌, ◌≤◌, ◌+◌, length, drop, codes, true, None, option_map, IfOk, IfSome};
ghost use Rattle.heex_token.specs.Tokens.{begins, through, to_brace, code_piece, start_by, end_by, start_tag, end_tag, ending, tag_piece, markup_piece, piece_in, first_piece};
ghost use Rattle.heex_token.specs.declared.token.TokenForm.TheVariants.{Curly};
ghost use Rattle.heex_token.specs.declared.token.TokenKind.TheVariants.{UnclosedExpr};
ghost use Rattle.heex_token.specs.declared.region.Inside.TheVariants.{Markup, Comment, Doctype, Raw};
ghost use Rattle.heex_token.specs.Pieces.{ended, text_of, fault_of, tag_view, TagWithin, piece_view, PieceWithin};

use crate::byte::{begins_tag, begins_with, is_tag_name, name_at};
use crate::reader::{Tag, end_from, tag_from};
use crate::region::{Inside, RawElement, Region, content_of, ends_raw};
use crate::scan::{through, to_brace};
use crate::token::{TokenForm, TokenKind};
use std::alloc::Global;
use text_core::{OutOfMemory, Text};

/// A piece of a template: a token, or a part of a text token.
#[derive(Debug, Drop)]
pub(crate) enum Piece {
    /// What it is, how many bytes it has, and what the place behind it stands in.
    Piece {
        form: TokenForm,
        size: usize,
        inside: Inside,
    },
    /// What is wrong, at this byte.
    Faulty {
        at: usize,
        kind: TokenKind,
    },
}

// So many bytes of text.
fn text_piece(size: usize, inside: Inside) -> Piece
    ensures { result ≡ text_of size inside }
{
    Piece::Piece {
        form: TokenForm::Text,
        size,
        inside,
    }
}

// A fault at this byte.
fn faulty(at: usize, kind: TokenKind) -> Piece
    ensures { result ≡ fault_of at kind }
{
    Piece::Faulty { at, kind }
}

// A piece with so many bytes, or the fault that it does not end.
fn ended(form: TokenForm, at: usize, kind: TokenKind, inside: Inside, size: Option<usize>) -> Piece
    ensures { piece_view result ≡ ended form at kind inside size }
{
    match size {
        Some(size) => Piece::Piece { form, size, inside },
        None => Piece::Faulty { at, kind },
    }
}

// How many bytes there are up to the end of the first such word behind the first bytes.
fn size_through(rest: &[u8], from: usize, word: &[u8]) -> Option<usize>
    requires { from ≤ length rest.now }
    ensures value { result ≡ option_map (λ n. from + n) (through word.now (drop from rest.now)) }
    ensures within { IfSome result (λ n. (from ≤ n) × (n ≤ length rest.now)) }
{
    match through(rest.split_at(from).1, word) {
        Some(size) => Some(from + size),
        None => None,
    }
}

// `<%!-- .. --%>`, `<%= .. %>` and `<% .. %>`
fn code_piece(text: &str, at: usize, inside: Inside) -> Piece
    requires within { at < length text.now }
    requires begins { begins (codes "<%") (drop at text.now) ≡ true }
    ensures value { piece_view result ≡ code_piece at inside (drop at text.now) }
    ensures within { PieceWithin text.now at result }
{
    let rest = text.as_bytes().split_at(at).1;
    if begins_with(rest, b"<%!--") {
        let size = size_through(rest, 5, b"--%>");
        return ended(
            TokenForm::Dropped,
            at,
            TokenKind::UnclosedComment,
            inside,
            size,
        );
    }
    if begins_with(rest, b"<%=") {
        let size = size_through(rest, 3, b"%>");
        return ended(TokenForm::Put, at, TokenKind::UnclosedExpr, inside, size);
    }
    let size = size_through(rest, 2, b"%>");
    ended(TokenForm::Block, at, TokenKind::UnclosedExpr, inside, size)
}

// `{ .. }`
fn curly_piece(alloc: Global, text: &str, at: usize) -> Result<Piece, OutOfMemory>
    requires within { at < length text.now }
    ensures value { IfOk result (λ p. piece_view p ≡ ending Curly at 1 UnclosedExpr Markup (to_brace (drop 1 (drop at text.now)))) }
    ensures within { IfOk result (PieceWithin text.now at) }
{
    let rest = text.as_bytes().split_at(at + 1).1;
    match to_brace(alloc, rest)? {
        Some(size) => Ok(Piece::Piece {
            form: TokenForm::Curly,
            size: 1 + size,
            inside: Inside::Markup,
        }),
        None => Ok(Piece::Faulty {
            at,
            kind: TokenKind::UnclosedExpr,
        }),
    }
}

// A start tag that begins at this byte.
fn start_by(text: &str, at: usize, name: Text, tag: Tag) -> Piece
    requires { TagWithin at (length text.now) tag }
    ensures value { piece_view result ≡ start_by at name (tag_view tag) }
    ensures within { PieceWithin text.now at result }
{
    match tag {
        Tag::Whole {
            attributes,
            end,
            behind,
        } => {
            let inside = content_of(name.as_str().as_bytes(), end);
            Piece::Piece {
                form: TokenForm::StartTag {
                    name,
                    attributes,
                    end,
                },
                size: behind - at,
                inside,
            }
        }
        Tag::BadAt(bad) => faulty(bad, TokenKind::BadAttribute),
        Tag::Unclosed => faulty(at, TokenKind::UnclosedTag),
    }
}

// An end tag that begins at this byte.
fn end_by(text: &str, at: usize, name: Text, tag: Tag) -> Piece
    requires { TagWithin at (length text.now) tag }
    ensures value { piece_view result ≡ end_by at name (tag_view tag) }
    ensures within { PieceWithin text.now at result }
{
    match tag {
        Tag::Whole {
            attributes: _attributes,
            end: _end,
            behind,
        } => Piece::Piece {
            form: TokenForm::EndTag { name },
            size: behind - at,
            inside: Inside::Markup,
        },
        Tag::BadAt(bad) => faulty(bad, TokenKind::BadAttribute),
        Tag::Unclosed => faulty(at, TokenKind::UnclosedTag),
    }
}

// A start tag, from its `<` on.
fn start_tag(alloc: Global, text: &str, at: usize) -> Result<Piece, OutOfMemory>
    requires { begins (codes "<") (drop at text.now) ≡ true }
    ensures value { IfOk result (λ p. piece_view p ≡ start_tag at (drop 1 (drop at text.now))) }
    ensures within { IfOk result (PieceWithin text.now at) }
{
    let from = at + 1;
    if !begins_tag(text.as_bytes().split_at(from).1) {
        return Ok(faulty(at, TokenKind::BadTagName));
    }
    let name = name_at(alloc, text, from)?;
    if !is_tag_name(name.as_str().as_bytes()) {
        return Ok(faulty(at, TokenKind::BadTagName));
    }
    let tag = tag_from(alloc, text, from + name.len())?;
    Ok(start_by(text, at, name, tag))
}

// An end tag, from its `</` on.
fn end_tag(alloc: Global, text: &str, at: usize) -> Result<Piece, OutOfMemory>
    requires { begins (codes "</") (drop at text.now) ≡ true }
    ensures value { IfOk result (λ p. piece_view p ≡ end_tag at (drop 2 (drop at text.now))) }
    ensures within { IfOk result (PieceWithin text.now at) }
{
    let from = at + 2;
    let name = name_at(alloc, text, from)?;
    if !is_tag_name(name.as_str().as_bytes()) {
        return Ok(faulty(at, TokenKind::BadTagName));
    }
    let tag = end_from(alloc, text, from + name.len());
    Ok(end_by(text, at, name, tag))
}

// What begins with `<` outside of comments, doctypes, scripts and styles.
fn tag_piece(alloc: Global, text: &str, at: usize) -> Result<Piece, OutOfMemory>
    requires { begins (codes "<") (drop at text.now) ≡ true }
    ensures value { IfOk result (λ p. piece_view p ≡ tag_piece at (drop at text.now)) }
    ensures within { IfOk result (PieceWithin text.now at) }
{
    let rest = text.as_bytes().split_at(at).1;
    if begins_with(rest, b"<!--") {
        return Ok(text_piece(4, Inside::Comment(at)));
    }
    if begins_with(rest, b"<!") {
        return Ok(text_piece(2, Inside::Doctype(at)));
    }
    if begins_with(rest, b"</") {
        return end_tag(alloc, text, at);
    }
    start_tag(alloc, text, at)
}

// What stands outside of comments, doctypes, scripts and styles.
fn markup_piece(
    alloc: Global,
    text: &str,
    at: usize,
    plain: Option<usize>,
) -> Result<Piece, OutOfMemory>
    requires { at < length text.now }
    ensures value { IfOk result (λ p. piece_view p ≡ markup_piece plain at (drop at text.now)) }
    ensures within { IfOk result (PieceWithin text.now at) }
{
    let rest = text.as_bytes().split_at(at).1;
    if begins_with(rest, b"<") {
        return tag_piece(alloc, text, at);
    }
    if plain.is_some() {
        return Ok(text_piece(1, Inside::Markup));
    }
    if begins_with(rest, b"{") {
        return curly_piece(alloc, text, at);
    }
    Ok(text_piece(1, Inside::Markup))
}

// What stands in a comment that begins at `from`.
fn comment_piece(text: &str, at: usize, from: usize) -> Piece
    requires { at < length text.now }
    ensures value { piece_view result ≡ piece_in (Comment from) None at (drop at text.now) }
    ensures within { PieceWithin text.now at result }
{
    if begins_with(text.as_bytes().split_at(at).1, b"-->") {
        text_piece(3, Inside::Markup)
    } else {
        text_piece(1, Inside::Comment(from))
    }
}

// What stands in a doctype that begins at `from`.
fn doctype_piece(text: &str, at: usize, from: usize) -> Piece
    requires { at < length text.now }
    ensures value { piece_view result ≡ piece_in (Doctype from) None at (drop at text.now) }
    ensures within { PieceWithin text.now at result }
{
    if begins_with(text.as_bytes().split_at(at).1, b">") {
        text_piece(1, Inside::Markup)
    } else {
        text_piece(1, Inside::Doctype(from))
    }
}

// What stands in a script or a style.
fn raw_piece(
    alloc: Global,
    text: &str,
    at: usize,
    element: RawElement,
) -> Result<Piece, OutOfMemory>
    requires { at < length text.now }
    ensures value { IfOk result (λ p. piece_view p ≡ piece_in (Raw element) None at (drop at text.now)) }
    ensures within { IfOk result (PieceWithin text.now at) }
{
    if ends_raw(element, text.as_bytes().split_at(at).1) {
        return end_tag(alloc, text, at);
    }
    Ok(text_piece(1, Inside::Raw(element)))
}

// What stands at this byte, by what it stands in.
fn piece_in(alloc: Global, text: &str, at: usize, region: Region) -> Result<Piece, OutOfMemory>
    requires { at < length text.now }
    ensures value { IfOk result (λ p. piece_view p ≡ piece_in region.inside region.plain at (drop at text.now)) }
    ensures within { IfOk result (PieceWithin text.now at) }
{
    match region.inside {
        Inside::Markup => markup_piece(alloc, text, at, region.plain),
        Inside::Comment(from) => Ok(comment_piece(text, at, from)),
        Inside::Doctype(from) => Ok(doctype_piece(text, at, from)),
        Inside::Raw(element) => raw_piece(alloc, text, at, element),
    }
}

/// What stands at this byte.
pub(crate) fn first_piece(
    alloc: Global,
    text: &str,
    at: usize,
    region: Region,
) -> Result<Piece, OutOfMemory>
    requires { at < length text.now }
    ensures value { IfOk result (λ p. piece_view p ≡ first_piece region at (drop at text.now)) }
    ensures within { IfOk result (PieceWithin text.now at) }
{
    if begins_with(text.as_bytes().split_at(at).1, b"<%") {
        return Ok(code_piece(text, at, region.inside));
    }
    piece_in(alloc, text, at, region)
}
