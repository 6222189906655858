//! What surrounds a place of a template.
ghost use Rattle.std.specs.Prelude.{◌≡◌, ◌<◌, ◌^◌, ◌+◌, ◌++◌, ◌==◌, ◌||◌, codes, IfSome};
ghost use Rattle.std.specs.List.{list_any};
ghost use Rattle.std.specs.Str.{bytes_eq};
ghost use Rattle.heex_token.specs.Tokens.{has_plain_braces, plain_opened, plain_closed, plain_behind, content_of, raw_name, ends_raw, first_is, is_white};

use crate::byte::{begins_with, begins_with_mark, is_white};
use crate::token::{RawAttribute, TagEnd, TokenForm};
use crate::void::is_void;

/// An element whose content is text.
#[derive(Clone, Copy, Debug, PartialEq, Eq)]
pub(crate) enum RawElement {
    Script,
    Style,
}

/// What a place stands in.
#[derive(Clone, Copy, Debug, PartialEq, Eq)]
pub(crate) enum Inside {
    Markup,
    /// A comment, with the byte of its `<`.
    Comment(usize),
    /// A doctype, with the byte of its `<`.
    Doctype(usize),
    Raw(RawElement),
}

/// What surrounds a place: what it stands in, and where braces are text, how many tags are open inside of the element
/// that says so.
#[derive(Clone, Copy, Debug, PartialEq, Eq)]
pub(crate) struct Region {
    pub inside: Inside,
    pub plain: Option<usize>,
}

/// What the content of an element stands in.
pub(crate) fn content_of(name: &[u8], end: TagEnd) -> Inside
    ensures { result ≡ content_of name.now end }
{
    if end == TagEnd::SelfClosed {
        return Inside::Markup;
    }
    if name == b"script".as_slice() {
        return Inside::Raw(RawElement::Script);
    }
    if name == b"style".as_slice() {
        return Inside::Raw(RawElement::Style);
    }
    Inside::Markup
}

// The beginning of the end tag of such an element.
fn raw_end(element: RawElement) -> &'static [u8]
    ensures { result.now ≡ codes "</" ++ raw_name element }
{
    match element {
        RawElement::Script => b"</script".as_slice(),
        RawElement::Style => b"</style".as_slice(),
    }
}

// Whether a name ends before these bytes.
fn ends_name(rest: &[u8]) -> bool
    ensures { result ≡ first_is (λ b. is_white b || (b == 62 || b == 47)) rest.now }
{
    match rest {
        [first, ..] => is_white(*first) || *first == b'>' || *first == b'/',
        [] => false,
    }
}

/// Whether the content of a script or a style ends before these bytes.
pub(crate) fn ends_raw(element: RawElement, rest: &[u8]) -> bool
    ensures { result ≡ ends_raw element rest.now }
{
    let end = raw_end(element);
    if !begins_with(rest, end) {
        return false;
    }
    ends_name(rest.split_at(end.len()).1)
}

// Whether one of these attributes says that braces are text.
fn says_plain(attributes: &[RawAttribute]) -> bool
    ensures { result ≡ list_any (λ a. bytes_eq a.name (codes "phx-no-curly-interpolation")) attributes.now }
{
    attributes.iter().any(|attribute| attribute.name.as_str() == "phx-no-curly-interpolation")
}

// Whether the content of an element has braces as text.
fn has_plain_braces(name: &[u8], attributes: &[RawAttribute]) -> bool
    ensures { result ≡ has_plain_braces name.now attributes.now }
{
    if begins_with_mark(name) {
        return false;
    }
    says_plain(attributes)
}

// How many tags are open inside of the element whose content has braces as text, behind a tag that opens.
fn plain_opened(name: &[u8], attributes: &[RawAttribute], plain: Option<usize>) -> Option<usize>
    requires { IfSome plain (λ n. n + 1 < 2 ^ 64) }
    ensures { result ≡ plain_opened name.now attributes.now plain }
{
    match plain {
        Some(open) => Some(open + 1),
        None => has_plain_braces(name, attributes).then_some(0),
    }
}

// The same behind a tag that closes.
fn plain_closed(plain: Option<usize>) -> Option<usize>
    ensures { result ≡ plain_closed plain }
{
    match plain {
        Some(0) => None,
        Some(open) => Some(open - 1),
        None => None,
    }
}

// The same behind a token.
fn plain_behind(form: &TokenForm, plain: Option<usize>) -> Option<usize>
    requires { IfSome plain (λ n. n + 1 < 2 ^ 64) }
    ensures { result ≡ plain_behind form.now plain }
{
    match form {
        TokenForm::StartTag {
            name,
            attributes,
            end: TagEnd::Open,
        } => {
            if is_void(name.as_str()) {
                plain
            } else {
                plain_opened(name.as_str().as_bytes(), attributes.as_slice(), plain)
            }
        }
        TokenForm::EndTag { name } => {
            if is_void(name.as_str()) {
                plain
            } else {
                plain_closed(plain)
            }
        }
        _ => plain,
    }
}

/// What surrounds the place behind a token.
pub(crate) fn region_behind(form: &TokenForm, region: Region, inside: Inside) -> Region
    requires { IfSome region.plain (λ n. n + 1 < 2 ^ 64) }
    ensures { result ≡ record { inside = inside; plain = plain_behind form.now region.plain } }
{
    Region {
        inside,
        plain: plain_behind(form, region.plain),
    }
}
