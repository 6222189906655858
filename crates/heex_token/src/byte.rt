//! Characters and names.
ghost use Rattle.std.specs.Prelude.{◌≡◌, ◌+◌, ◌≤◌, length, drop, take_while, IfOk};
ghost use Rattle.std.specs.List.{prefix_len};
ghost use Rattle.std.specs.Str.{IsCharBoundary};
ghost use Rattle.heex_token.specs.Tokens.{is_white, in_name, is_mark, first_is, begins, begins_tag, without_mark, is_tag_name};

use std::alloc::Global;
use text_core::{OutOfMemory, Text};

/// Whether a byte is white space.
pub(crate) fn is_white(byte: u8) -> bool
    ensures { result ≡ is_white byte }
{
    byte == b' ' || byte == b'\t' || byte == b'\n' || byte == b'\r'
}

/// Whether a byte stands in the name of a tag or an attribute.
pub(crate) fn in_name(byte: u8) -> bool
    ensures { result ≡ in_name byte }
{
    !(is_white(byte)
        || byte == b'"'
        || byte == b'\''
        || byte == b'{'
        || byte == b'}'
        || byte == b'<'
        || byte == b'>'
        || byte == b'/'
        || byte == b'=')
}

// Whether a byte is the dot of a call or the colon of a slot.
fn is_mark(byte: u8) -> bool
    ensures { result ≡ is_mark byte }
{
    byte == b'.' || byte == b':'
}

/// Whether a name is that of a call or a slot.
pub(crate) fn begins_with_mark(name: &[u8]) -> bool
    ensures { result ≡ first_is is_mark name.now }
{
    match name {
        [first, ..] => is_mark(*first),
        [] => false,
    }
}

/// Whether these bytes may follow the `<` of a start tag.
pub(crate) fn begins_tag(rest: &[u8]) -> bool
    ensures { result ≡ first_is begins_tag rest.now }
{
    match rest {
        [first, ..] => first.is_ascii_lowercase() || is_mark(*first),
        [] => false,
    }
}

// A name without its dot or colon.
fn without_mark(name: &[u8]) -> &[u8]
    ensures { result.now ≡ without_mark name.now }
{
    match name {
        [first, behind @ ..] => { if is_mark(*first) { behind } else { name } }
        [] => name,
    }
}

/// Whether a name, but for its dot or colon, is not empty and does not begin with an upper-case letter.
pub(crate) fn is_tag_name(name: &[u8]) -> bool
    ensures { result ≡ is_tag_name name.now }
{
    match without_mark(name) {
        [first, ..] => !first.is_ascii_uppercase(),
        [] => false,
    }
}

/// Whether these bytes begin with a word.
pub(crate) fn begins_with(rest: &[u8], word: &[u8]) -> bool
    ensures { result ≡ begins word.now rest.now }
{
    rest.starts_with(word)
}

// How many bytes the name has that these bytes begin with.
fn name_length(rest: &[u8]) -> usize
    ensures { result ≡ prefix_len in_name rest.now }
{
    let mut end = 0;
    'more: while end < rest.len() && in_name(rest[end]) {
        end += 1;
    }
    end
}

/// The name that begins at this byte.
pub(crate) fn name_at(alloc: Global, text: &str, at: usize) -> Result<Text, OutOfMemory>
    requires { IsCharBoundary text.now at }
    ensures value { IfOk result (λ t. t ≡ take_while in_name (drop at text.now)) }
    ensures cut { IfOk result (λ t. IsCharBoundary text.now (at + length t)) }
{
    let end = at + name_length(text.as_bytes().split_at(at).1);
    Text::copy_of(alloc, &text[at..end])
}
