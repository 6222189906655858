//! The values of attributes.
ghost use Rattle.std.specs.Prelude.{◌≡◌, ◌+◌, drop, option_map, IfOk, IfSome};
ghost use Rattle.std.specs.Str.{IsCharBoundary};
ghost use Rattle.heex_token.specs.Pieces.{value_size, raw_value, cut_of, Reaches};

use crate::scan::{through, to_brace};
use crate::token::RawValue;
use std::alloc::Global;
use text_core::{OutOfMemory, Text};

/// What a value stands between.
#[derive(Clone, Copy, Debug, PartialEq, Eq)]
pub(crate) enum Delimiter {
    Double,
    Single,
    Braces,
}

/// A value, and how many bytes it has with what ends it.
#[derive(Debug, Drop)]
pub(crate) struct Cut {
    pub text: Text,
    pub size: usize,
}

// How many bytes a value has, with what ends it.
fn value_size(
    alloc: Global,
    delimiter: Delimiter,
    rest: &[u8],
) -> Result<Option<usize>, OutOfMemory>
    ensures { IfOk result (λ n. n ≡ value_size delimiter rest.now) }
{
    match delimiter {
        Delimiter::Double => Ok(through(rest, b"\"")),
        Delimiter::Single => Ok(through(rest, b"'")),
        Delimiter::Braces => to_brace(alloc, rest),
    }
}

/// A value between these.
pub(crate) fn raw_value(delimiter: Delimiter, text: Text) -> RawValue
    ensures { result ≡ raw_value delimiter text }
{
    match delimiter {
        Delimiter::Double => RawValue::Double(text),
        Delimiter::Single => RawValue::Single(text),
        Delimiter::Braces => RawValue::Braces(text),
    }
}

/// The value that begins at this byte, if it ends.
pub(crate) fn value(
    alloc: Global,
    text: &str,
    at: usize,
    delimiter: Delimiter,
) -> Result<Option<Cut>, OutOfMemory>
    requires { IsCharBoundary text.now at }
    ensures value { IfOk result (λ v. v ≡ option_map (cut_of (drop at text.now)) (value_size delimiter (drop at text.now))) }
    ensures within { IfOk result (λ v. IfSome v (λ c. Reaches text.now at c.size)) }
{
    match value_size(alloc, delimiter, text.as_bytes().split_at(at).1)? {
        None => Ok(None),
        Some(size) => {
            let text = Text::copy_of(alloc, &text[at..at + size - 1])?;
            Ok(Some(Cut { text, size }))
        }
    }
}
