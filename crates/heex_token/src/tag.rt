//! What stands in a start tag.
ghost use Rattle.std.specs.Prelude.{◌≡◌, ◌<◌, ◌+◌, ◌^◌, length, drop, take_while, codes, true, IfOk};
ghost use Rattle.std.specs.List.{slice_index};
ghost use Rattle.std.specs.Str.{IsCharBoundary};
ghost use Rattle.heex_token.specs.Tokens.{begins, first_is, in_name, to_brace, with_value, named, spread, slash, tag_part};
ghost use Rattle.heex_token.specs.Pieces.{value_size, raw_value, bare_or_cut, PartWithin};

use crate::byte::{begins_with, in_name, is_white, name_at};
use crate::token::{RawAttribute, RawValue, TagEnd};
use crate::value::{Delimiter, raw_value, value};
use std::alloc::Global;
use text_core::{OutOfMemory, Text};

/// What stands next in a start tag.
#[derive(Debug, Drop)]
pub(crate) enum TagPart {
    /// A byte of white space.
    Space,
    /// The end of the tag.
    Ends(TagEnd),
    /// An attribute, and how many bytes it has.
    Attribute(RawAttribute, usize),
    /// Nothing that may stand there.
    Bad,
    /// Something that the end of the text cuts off.
    CutOff,
}

// An attribute with its name and a value.
fn with_value(
    alloc: Global,
    text: &str,
    at: usize,
    name: Text,
    delimiter: Delimiter,
) -> Result<TagPart, OutOfMemory>
    requires { IsCharBoundary text.now (at + length name + 2) }
    ensures value { IfOk result (λ p. p ≡ with_value at name (raw_value delimiter) (value_size delimiter (drop (at + length name + 2) text.now)) (drop (at + length name + 2) text.now)) }
    ensures within { IfOk result (PartWithin text.now at) }
{
    let size = name.len() + 2;
    let start = at + size;
    match value(alloc, text, start, delimiter)? {
        None => Ok(TagPart::CutOff),
        Some(cut) => {
            let size = size + cut.size;
            let attribute = RawAttribute {
                start: at,
                name,
                value_start: start,
                value: raw_value(delimiter, cut.text),
            };
            Ok(TagPart::Attribute(attribute, size))
        }
    }
}

// An attribute without a value, or one that the end of the text cuts off.
fn bare(at: usize, name: Text, behind: &[u8]) -> TagPart
    requires { at + length name < 2 ^ 64 }
    ensures { result ≡ bare_or_cut at name behind.now }
{
    if behind == b"=".as_slice() {
        return TagPart::CutOff;
    }
    let size = name.len();
    TagPart::Attribute(
        RawAttribute {
            start: at,
            name,
            value_start: at + size,
            value: RawValue::Bare,
        },
        size,
    )
}

// An attribute that begins with a name.
fn named(alloc: Global, text: &str, at: usize) -> Result<TagPart, OutOfMemory>
    requires cut { IsCharBoundary text.now at }
    requires begins { first_is in_name (drop at text.now) ≡ true }
    ensures value { IfOk result (λ p. p ≡ named at (take_while in_name (drop at text.now)) (drop (length (take_while in_name (drop at text.now))) (drop at text.now))) }
    ensures within { IfOk result (PartWithin text.now at) }
{
    let name = name_at(alloc, text, at)?;
    let behind = text.as_bytes().split_at(at + name.len()).1;
    if begins_with(behind, b"=\"") {
        return with_value(alloc, text, at, name, Delimiter::Double);
    }
    if begins_with(behind, b"='") {
        return with_value(alloc, text, at, name, Delimiter::Single);
    }
    if begins_with(behind, b"={") {
        return with_value(alloc, text, at, name, Delimiter::Braces);
    }
    Ok(bare(at, name, behind))
}

// A spread, from its `{` on.
fn spread(alloc: Global, text: &str, at: usize) -> Result<TagPart, OutOfMemory>
    requires within { at < length text.now }
    requires brace { slice_index text.now at ≡ 123 }
    ensures value { IfOk result (λ p. p ≡ spread at (to_brace (drop (at + 1) text.now)) (drop (at + 1) text.now)) }
    ensures within { IfOk result (PartWithin text.now at) }
{
    match value(alloc, text, at + 1, Delimiter::Braces)? {
        None => Ok(TagPart::CutOff),
        Some(cut) => {
            let size = 1 + cut.size;
            let attribute = RawAttribute {
                start: at,
                name: Text::new(alloc),
                value_start: at + 1,
                value: RawValue::Spread(cut.text),
            };
            Ok(TagPart::Attribute(attribute, size))
        }
    }
}

// What a `/` in a start tag is, with this behind it.
fn slash(rest: &[u8]) -> TagPart
    ensures { result ≡ slash rest.now }
{
    match rest {
        [] => TagPart::CutOff,
        [b'>', ..] => TagPart::Ends(TagEnd::SelfClosed),
        _ => TagPart::Bad,
    }
}

/// What stands at this byte of a start tag.
pub(crate) fn tag_part(alloc: Global, text: &str, at: usize) -> Result<TagPart, OutOfMemory>
    requires some { at < length text.now }
    requires cut { IsCharBoundary text.now at }
    ensures value { IfOk result (λ p. p ≡ tag_part at (slice_index text.now at) (drop (at + 1) text.now)) }
    ensures within { IfOk result (PartWithin text.now at) }
{
    let byte = text.as_bytes()[at];
    if is_white(byte) {
        return Ok(TagPart::Space);
    }
    if byte == b'>' {
        return Ok(TagPart::Ends(TagEnd::Open));
    }
    if byte == b'/' {
        return Ok(slash(text.as_bytes().split_at(at + 1).1));
    }
    if byte == b'{' {
        return spread(alloc, text, at);
    }
    if in_name(byte) {
        return named(alloc, text, at);
    }
    Ok(TagPart::Bad)
}
