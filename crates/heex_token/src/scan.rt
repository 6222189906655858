//! Where words and interpolations end.
ghost use Rattle.std.specs.Prelude.{◌≡◌, reverse, drop, IfOk, OnOk};
ghost use Rattle.heex_token.specs.Tokens.{through, open_in_code, open_in_text, before_in_text, to_brace};
ghost use Rattle.heex_token.specs.Pieces.{in_quote, open_after, before_after};

use crate::byte::begins_with;
use std::alloc::Global;
use text_core::{OutOfMemory, Seq};

/// What is open inside an interpolation.
#[derive(Clone, Copy, Debug, PartialEq, Eq)]
pub(crate) enum Inner {
    /// `{`
    Brace,
    /// `"`
    Quote,
    /// `#{` in a text
    Part,
}

/// What the byte before is in a text, where it counts.
#[derive(Clone, Copy, Debug, PartialEq, Eq)]
pub(crate) enum Before {
    Other,
    /// A `\`, which takes the next byte with it.
    Slash,
    /// A `#`, which begins a part where `{` follows.
    Hash,
}

/// How far an interpolation is read.
#[derive(Debug, Drop)]
pub(crate) struct Scan {
    /// What is open, the innermost last.
    pub openings: Seq<Inner>,
    /// What the next byte stands behind.
    pub before: Before,
}

/// How many bytes there are up to the end of the first such word.
pub(crate) fn through(rest: &[u8], word: &[u8]) -> Option<usize>
    ensures { result ≡ through word.now rest.now }
{
    for at in 0..rest.len() {
        if begins_with(rest.split_at(at).1, word) {
            return Some(at + word.len());
        }
    }
    None
}

// Takes the innermost off.
fn close(openings: &mut Seq<Inner>)
    ensures { reverse openings.new ≡ drop 1 (reverse openings.old) }
{
    let _closed = openings.pop();
}

// What a byte outside of texts opens or closes.
fn pass_in_code(openings: &mut Seq<Inner>, byte: u8) -> Result<(), OutOfMemory>
    ensures { OnOk result (reverse openings.new ≡ open_in_code byte (reverse openings.old)) }
{
    if byte == b'"' {
        return openings.push(Inner::Quote);
    }
    if byte == b'{' {
        return openings.push(Inner::Brace);
    }
    if byte == b'}' {
        close(openings);
    }
    Ok(())
}

// What a byte of a text opens or closes.
fn pass_in_text(openings: &mut Seq<Inner>, before: Before, byte: u8) -> Result<(), OutOfMemory>
    ensures { OnOk result (reverse openings.new ≡ open_in_text before byte (reverse openings.old)) }
{
    if before == Before::Slash {
        return Ok(());
    }
    if before == Before::Hash && byte == b'{' {
        return openings.push(Inner::Part);
    }
    if byte == b'"' {
        close(openings);
    }
    Ok(())
}

// What a byte of a text is to the next one.
fn before_in_text(before: Before, byte: u8) -> Before
    ensures { result ≡ before_in_text before byte }
{
    if before == Before::Slash {
        return Before::Other;
    }
    match byte {
        b'\\' => Before::Slash,
        b'#' => Before::Hash,
        _ => Before::Other,
    }
}

// Whether the innermost of these is a text.
fn in_quote(openings: &[Inner]) -> bool
    ensures { result ≡ in_quote (reverse openings.now) }
{
    match openings.last() {
        Some(Inner::Quote) => true,
        _ => false,
    }
}

// Goes past a byte.
fn pass(scan: &mut Scan, byte: u8) -> Result<(), OutOfMemory>
    ensures openings { OnOk result (reverse scan.new.openings ≡ open_after (reverse scan.old.openings) scan.old.before byte) }
    ensures before { OnOk result (scan.new.before ≡ before_after (reverse scan.old.openings) scan.old.before byte) }
{
    if in_quote(scan.openings.as_slice()) {
        pass_in_text(&mut scan.openings, scan.before, byte)?;
        scan.before = before_in_text(scan.before, byte);
    } else {
        pass_in_code(&mut scan.openings, byte)?;
        scan.before = Before::Other;
    }
    Ok(())
}

/// How many bytes there are behind a `{` up to its `}` and with it.
pub(crate) fn to_brace(alloc: Global, rest: &[u8]) -> Result<Option<usize>, OutOfMemory>
    ensures { IfOk result (λ n. n ≡ to_brace rest.now) }
{
    let mut scan = Scan {
        openings: Seq::new(alloc),
        before: Before::Other,
    };
    scan.openings.push(Inner::Brace)?;
    for at in 0..rest.len() {
        pass(&mut scan, rest[at])?;
        if scan.openings.is_empty() {
            return Ok(Some(at + 1));
        }
    }
    Ok(None)
}
