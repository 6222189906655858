//! Start tags.
ghost use Rattle.std.specs.Prelude.{◌≡◌, ◌<◌, length, Ok, Err, IfOk, OnOk};
ghost use Rattle.heex_reader.specs.Contents.{kind_of_tag};
ghost use Rattle.heex_reader.specs.Fits.{AttributesFit, Follows, ValueFits};
ghost use Rattle.heex_reader.specs.Onto.{said_view, with_said, one_onto, tag_onto, bare_tag};
ghost use Rattle.heex_reader.specs.SeenSigns.{Given, sign_view, tag_view};
ghost use Rattle.heex_reader.specs.Tags.{has_no_content, start_sign, tag_of, tag_sign_by};

use crate::TemplateKind;
use crate::cursor::Cursor;
use crate::piece::PieceFault;
use crate::said::{Said, say};
use crate::sign::{Sign, Tag};
use heex_token::{RawAttribute, RawAttributes, TagEnd, is_void};
use std::alloc::Global;
use text_core::{OutOfMemory, Seq, Text};

// A tag with what one more attribute says.
fn put(tag: &mut Tag, said: Said) -> Result<(), OutOfMemory>
    ensures said { OnOk result (tag_view tag.new ≡ with_said (said_view said) (tag_view tag.old)) }
    ensures name { OnOk result (tag.new.name ≡ tag.old.name) }
{
    match said {
        Said::Attribute(attribute) => tag.attributes.push(attribute),
        Said::Repeats(generator) => {
            tag.generator = Some(generator);
            Ok(())
        }
        Said::Tests(test) => {
            tag.test = Some(test);
            Ok(())
        }
        Said::Binds(pattern) => {
            tag.binds = Some(pattern);
            Ok(())
        }
    }
}

// A tag with what one more attribute of the file says.
fn with_attribute(
    alloc: Global,
    text: &str,
    tag: Tag,
    raw: RawAttribute,
    cursor: &mut Cursor,
) -> Result<Tag, PieceFault>
    requires small { length text.now < 4294967295 }
    requires fits { ValueFits raw.value_start raw.value }
    requires follows { Follows text.now cursor.old }
    ensures tag { Given tag_view result (one_onto (kind_of_tag tag.name) (tag_view tag) raw) }
    ensures name { IfOk result (λ t. t.name ≡ tag.name) }
    ensures follows { Follows text.now cursor.new }
{
    let at = cursor.location(text, raw.start);
    let said = say(alloc, &tag, raw, at)?;
    let mut tag = tag;
    put(&mut tag, said)?;
    Ok(tag)
}

// A tag of this name with what its attributes say.
fn tag_of(
    alloc: Global,
    text: &str,
    name: Text,
    attributes: RawAttributes,
    cursor: &mut Cursor,
) -> Result<Tag, PieceFault>
    requires small { length text.now < 4294967295 }
    requires fits { AttributesFit attributes }
    requires follows { Follows text.now cursor.old }
    ensures tag { Given tag_view result (tag_onto (kind_of_tag name) (bare_tag name) attributes) }
    ensures follows { Follows text.now cursor.new }
{
    let mut tag = Tag {
        name,
        attributes: Seq::new(alloc),
        generator: None,
        test: None,
        binds: None,
    };
    'attributes: for raw in attributes.into_vec() {
        tag = with_attribute(alloc, text, tag, raw, cursor)?;
    }
    Ok(tag)
}

// Whether a start tag has no content.
fn has_no_content(name: &str, end: TagEnd) -> bool
    ensures { result ≡ has_no_content name.now end }
{
    match end {
        TagEnd::SelfClosed => true,
        TagEnd::Open => is_void(name),
    }
}

// A tag that was read.
fn tag_sign(whole: bool, tag: Tag) -> Sign
    ensures { sign_view result ≡ tag_sign_by whole (Ok (tag_view tag)) }
{
    if whole {
        Sign::Whole(tag)
    } else {
        Sign::Opens(tag)
    }
}

// What is wrong with a tag.
fn broken(whole: bool, at: usize, kind: TemplateKind) -> Sign
    ensures { sign_view result ≡ tag_sign_by whole (Err (record { at = at; kind = kind })) }
{
    if whole {
        Sign::Broken { at, kind }
    } else {
        Sign::BrokenOpening { at, kind }
    }
}

/// A start tag of this file.
pub(crate) fn start_sign(
    alloc: Global,
    text: &str,
    name: Text,
    attributes: RawAttributes,
    end: TagEnd,
    cursor: &mut Cursor,
) -> Result<Sign, OutOfMemory>
    requires small { length text.now < 4294967295 }
    requires fits { AttributesFit attributes }
    requires follows { Follows text.now cursor.old }
    ensures sign { IfOk result (λ s. sign_view s ≡ start_sign name attributes end) }
    ensures follows { Follows text.now cursor.new }
{
    let whole = has_no_content(name.as_str(), end);
    match tag_of(alloc, text, name, attributes, cursor) {
        Ok(tag) => Ok(tag_sign(whole, tag)),
        Err(PieceFault::Faulty { at, kind }) => Ok(broken(whole, at, kind)),
        Err(PieceFault::OutOfMemory) => Err(OutOfMemory),
    }
}
