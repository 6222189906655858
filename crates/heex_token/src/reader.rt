//! Tags, from behind their names on.
ghost use Rattle.std.specs.Prelude.{◌≡◌, ◌<◌, ◌≤◌, ◌+◌, ◌^◌, length, drop, IfOk};
ghost use Rattle.std.specs.List.{prefix_len};
ghost use Rattle.std.specs.Str.{IsCharBoundary};
ghost use Rattle.heex_token.specs.Tokens.{is_white, end_size, tag_from, end_from};
ghost use Rattle.heex_token.specs.Pieces.{Stepped, with_attributes, stopped, StopWithin, tag_view, TagWithin};

use crate::byte::is_white;
use crate::tag::{TagPart, tag_part};
use crate::token::{RawAttributes, TagEnd};
use std::alloc::Global;
use text_core::{OutOfMemory, Seq};

/// How far a start tag is read.
#[derive(Debug, Drop)]
pub(crate) struct TagReader {
    /// The attributes so far.
    pub attributes: RawAttributes,
    /// The next byte.
    pub at: usize,
}

/// Where the reading of a tag stops.
#[derive(Clone, Copy, Debug, PartialEq, Eq)]
pub(crate) enum Stop {
    /// At its end.
    Ends(TagEnd),
    /// At what may not stand there.
    Bad,
    /// At what the end of the text cuts off.
    CutOff,
}

/// What a tag is.
#[derive(Debug, Drop)]
pub(crate) enum Tag {
    Whole {
        attributes: RawAttributes,
        end: TagEnd,
        /// The byte behind it.
        behind: usize,
    },
    /// What stands at this byte may not stand there.
    BadAt(usize),
    /// It does not end.
    Unclosed,
}

// How many bytes the end of a tag has.
fn end_size(end: TagEnd) -> usize
    ensures { result ≡ end_size end }
{
    match end {
        TagEnd::Open => 1,
        TagEnd::SelfClosed => 2,
    }
}

// Reads on by an attribute or a byte of white space, or says where the tag stops.
fn step(alloc: Global, text: &str, reader: &mut TagReader) -> Result<Option<Stop>, OutOfMemory>
    requires some { reader.old.at < length text.now }
    requires cut { IsCharBoundary text.now reader.old.at }
    ensures { IfOk result (Stepped text.now reader.old reader.new) }
{
    match tag_part(alloc, text, reader.at)? {
        TagPart::Space => {
            reader.at += 1;
            Ok(None)
        }
        TagPart::Attribute(attribute, size) => {
            reader.attributes.push(attribute)?;
            reader.at += size;
            Ok(None)
        }
        TagPart::Ends(end) => Ok(Some(Stop::Ends(end))),
        TagPart::Bad => Ok(Some(Stop::Bad)),
        TagPart::CutOff => Ok(Some(Stop::CutOff)),
    }
}

// The tag that stops here.
fn stopped(text: &str, reader: TagReader, stop: Stop) -> Tag
    requires { StopWithin text.now reader.at stop }
    ensures value { tag_view result ≡ with_attributes reader.attributes (stopped reader.at stop) }
    ensures within { TagWithin reader.at (length text.now) result }
{
    let TagReader { attributes, at } = reader;
    match stop {
        Stop::Ends(end) => Tag::Whole {
            attributes,
            end,
            behind: at + end_size(end),
        },
        Stop::Bad => Tag::BadAt(at),
        Stop::CutOff => Tag::Unclosed,
    }
}

/// A start tag from this byte on.
pub(crate) fn tag_from(alloc: Global, text: &str, from: usize) -> Result<Tag, OutOfMemory>
    requires { IsCharBoundary text.now from }
    ensures value { IfOk result (λ t. tag_view t ≡ tag_from from 0 (drop from text.now)) }
    ensures within { IfOk result (TagWithin from (length text.now)) }
{
    let mut reader = TagReader {
        attributes: Seq::new(alloc),
        at: from,
    };
    'more: while reader.at < text.len() {
        if let Some(stop) = step(alloc, text, &mut reader)? {
            return Ok(stopped(text, reader, stop));
        }
    }
    Ok(Tag::Unclosed)
}

// How many bytes of white space these begin with.
fn white_length(rest: &[u8]) -> usize
    ensures { result ≡ prefix_len is_white rest.now }
{
    let mut end = 0;
    'more: while end < rest.len() && is_white(rest[end]) {
        end += 1;
    }
    end
}

// An end tag from here on, where no white space stands.
fn end_here(alloc: Global, rest: &[u8], at: usize) -> Tag
    requires black { prefix_len is_white rest.now ≡ 0 }
    requires room { at + length rest.now < 2 ^ 64 }
    ensures value { tag_view result ≡ end_from at rest.now }
    ensures within { TagWithin at (at + length rest.now) result }
{
    match rest {
        [] => Tag::Unclosed,
        [b'>', ..] => Tag::Whole {
            attributes: Seq::new(alloc),
            end: TagEnd::Open,
            behind: at + 1,
        },
        _ => Tag::BadAt(at),
    }
}

/// An end tag from behind its name on.
pub(crate) fn end_from(alloc: Global, text: &str, from: usize) -> Tag
    requires { from ≤ length text.now }
    ensures value { tag_view result ≡ end_from from (drop from text.now) }
    ensures within { TagWithin from (length text.now) result }
{
    let rest = text.as_bytes().split_at(from).1;
    let size = white_length(rest);
    end_here(alloc, rest.split_at(size).1, from + size)
}
