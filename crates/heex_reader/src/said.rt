//! What the attributes of tags say.
ghost use Rattle.std.specs.Prelude.{◌≡◌};
ghost use Rattle.heex_reader.specs.Contents.{kind_of_tag};
ghost use Rattle.heex_reader.specs.Fits.{ValueFits};
ghost use Rattle.heex_reader.specs.Onto.{said_view, attribute_said, has_said, special_onto, said_onto};
ghost use Rattle.heex_reader.specs.SeenSigns.{Given, HasRoom, tag_view};
ghost use Rattle.heex_reader.specs.Tags.{special_by, in_braces, value_said, plain};
ghost use Rattle.heex_reader.specs.declared.fault.TemplateKind.TheVariants as kind;
ghost use Rattle.heex_reader.specs.declared.piece.PieceFault.TheVariants as fault;

use crate::TemplateKind;
use crate::name::{is_live_call, is_module, is_special, may_bind};
use crate::piece::{PieceFault, expr_at, generator_at, pattern_at};
use crate::sign::Tag;
use crate::white::trimmed;
use ast_core::{Attribute, AttributeValue, Expr, Generator, Location, Pattern};
use heex_token::{RawAttribute, RawValue};
use std::alloc::Global;
use text_core::Text;

/// What an attribute says.
#[derive(Drop)]
pub(crate) enum Said {
    Attribute(Attribute),
    /// `:for`
    Repeats(Generator),
    /// `:if`
    Tests(Expr),
    /// `:let`
    Binds(Pattern),
}

// A special attribute is none, or stands where it may not.
fn bad_special(start: usize) -> PieceFault
    ensures { result ≡ fault.Faulty start kind.BadSpecial }
{
    PieceFault::Faulty {
        at: start,
        kind: TemplateKind::BadSpecial,
    }
}

// Whether a tag has what the special attribute with this name says.
fn has_said(tag: &Tag, name: &[u8]) -> bool
    ensures { result ≡ has_said name.now (tag_view tag.now) }
{
    if name == b":if".as_slice() {
        return tag.test.is_some();
    }
    if name == b":for".as_slice() {
        return tag.generator.is_some();
    }
    if name == b":let".as_slice() {
        return tag.binds.is_some();
    }
    false
}

// What a special attribute with this text in braces says on a tag of this name.
fn special_by(alloc: Global, tag: &[u8], raw: &RawAttribute, text: &str) -> Result<Said, PieceFault>
    requires { HasRoom raw.now.value_start text.now }
    ensures { Given said_view result (special_by (kind_of_tag tag.now) raw.now text.now) }
{
    let name = raw.name.as_str().as_bytes();
    if name == b":if".as_slice() {
        return Ok(Said::Tests(expr_at(alloc, raw.value_start, text)?));
    }
    if name == b":for".as_slice() {
        return Ok(Said::Repeats(generator_at(alloc, raw.value_start, text)?));
    }
    if name != b":let".as_slice() {
        return Err(bad_special(raw.start));
    }
    if !may_bind(tag) {
        return Err(bad_special(raw.start));
    }
    Ok(Said::Binds(pattern_at(alloc, raw.value_start, text)?))
}

// What a special attribute says behind those that made this tag.
fn special(alloc: Global, tag: &Tag, raw: &RawAttribute) -> Result<Said, PieceFault>
    requires { ValueFits raw.now.value_start raw.now.value }
    ensures { Given said_view result (special_onto (kind_of_tag tag.now.name) (tag_view tag.now) raw.now) }
{
    match &raw.value {
        RawValue::Braces(text) => {
            if has_said(tag, raw.name.as_str().as_bytes()) {
                return Err(bad_special(raw.start));
            }
            special_by(alloc, tag.name.as_str().as_bytes(), raw, text.as_str())
        }
        _ => Err(bad_special(raw.start)),
    }
}

// What an attribute with this text in braces says, by whether it stands on a call of a LiveComponent.
fn in_braces(
    alloc: Global,
    live: bool,
    name: &[u8],
    at: usize,
    text: &str,
) -> Result<AttributeValue, PieceFault>
    requires { HasRoom at text.now }
    ensures { Given (attribute_said name.now) result (in_braces live name.now at text.now) }
{
    if !live {
        return Ok(AttributeValue::Put(expr_at(alloc, at, text)?));
    }
    if name != b"module".as_slice() {
        return Ok(AttributeValue::Put(expr_at(alloc, at, text)?));
    }
    let module = trimmed(text);
    if is_module(module.as_bytes()) {
        return Ok(AttributeValue::Module(Text::copy_of(alloc, module)?));
    }
    Ok(AttributeValue::Put(expr_at(alloc, at, text)?))
}

// What the value of an attribute that is not special says, by whether it stands on a call of a LiveComponent.
fn value_of(
    alloc: Global,
    live: bool,
    name: &[u8],
    at: usize,
    value: RawValue,
) -> Result<AttributeValue, PieceFault>
    requires { ValueFits at value }
    ensures { Given (attribute_said name.now) result (value_said live name.now at value) }
{
    match value {
        RawValue::Double(text) => Ok(AttributeValue::Double(text)),
        RawValue::Single(text) => Ok(AttributeValue::Single(text)),
        RawValue::Bare => Ok(AttributeValue::Bare),
        RawValue::Braces(text) => in_braces(alloc, live, name, at, text.as_str()),
        RawValue::Spread(text) => Ok(AttributeValue::Spread(expr_at(alloc, at, text.as_str())?)),
    }
}

// What an attribute that is not special says.
fn plain(alloc: Global, live: bool, raw: RawAttribute, at: Location) -> Result<Said, PieceFault>
    requires { ValueFits raw.value_start raw.value }
    ensures { Given said_view result (plain live raw) }
{
    let RawAttribute {
        start: _start,
        name,
        value_start,
        value,
    } = raw;
    let value = value_of(alloc, live, name.as_str().as_bytes(), value_start, value)?;
    Ok(Said::Attribute(Attribute { at, name, value }))
}

/// What an attribute at this place says behind those that made this tag.
pub(crate) fn say(
    alloc: Global,
    tag: &Tag,
    raw: RawAttribute,
    at: Location,
) -> Result<Said, PieceFault>
    requires { ValueFits raw.value_start raw.value }
    ensures { Given said_view result (said_onto (kind_of_tag tag.now.name) (tag_view tag.now) raw) }
{
    if is_special(raw.name.as_str().as_bytes()) {
        return special(alloc, tag, &raw);
    }
    let live = is_live_call(tag.name.as_str().as_bytes());
    plain(alloc, live, raw, at)
}
