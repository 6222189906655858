//! The characters of texts.
ghost use Rattle.std.specs.Prelude.{◌≡◌, ◌+◌, ◌≤◌, ◌++◌, length, [], ◌∷◌, take, drop, true, false, IfOk, IfSome, OnOk};
ghost use Rattle.std.specs.List.{prefix_len};
ghost use Rattle.std.specs.Str.{IsCharBoundary};
ghost use Rattle.expr_token.specs.Tokens.{piece_from};
ghost use Rattle.expr_token.specs.Pieces.{is_plain, is_mark, MarksPiece};

use crate::token::Piece;
use std::alloc::Global;
use text_core::{OutOfMemory, Text};

// Whether a byte stands for itself whatever follows.
fn is_plain(byte: u8) -> bool
    ensures { result ≡ is_plain byte }
{
    !(byte == b'"' || byte == b'#' || byte == b'\\')
}

// How many bytes from the front on stand for themselves whatever follows.
fn run_length(rest: &[u8]) -> usize
    ensures { result ≡ prefix_len is_plain rest.now }
{
    let mut end = 0;
    'more: while end < rest.len() && is_plain(rest[end]) {
        end += 1;
    }
    end
}

// What the escape or the lone `#` that these bytes begin with stands for, and how many bytes it has.
fn mark(rest: &[u8]) -> Option<(u8, usize)>
    requires { prefix_len is_plain rest.now ≡ 0 }
    ensures piece { MarksPiece rest.now result }
    ensures marks { IfSome result (λ m. is_mark m.0 ≡ true) }
{
    match rest {
        [b'#', b'{', ..] => None,
        [b'#', ..] => Some((b'#', 1)),
        [b'\\', b'"', ..] => Some((b'"', 2)),
        [b'\\', b'\\', ..] => Some((b'\\', 2)),
        [b'\\', b'#', ..] => Some((b'#', 2)),
        [b'\\', b'n', ..] => Some((b'\n', 2)),
        [b'\\', b't', ..] => Some((b'\t', 2)),
        _ => None,
    }
}

// Adds what an escape or a lone `#` stands for.
fn push_mark(out: &mut Text, byte: u8) -> Result<(), OutOfMemory>
    requires { is_mark byte ≡ true }
    ensures { OnOk result (out.new ≡ out.old ++ byte ∷ []) }
{
    let one = match byte {
        b'"' => "\"",
        b'\\' => "\\",
        b'#' => "#",
        b'\n' => "\n",
        _ => "\t",
    };
    out.push_str(one)
}

// Adds the characters that stand for themselves, and gives where they end.
fn push_run(out: &mut Text, text: &str, at: usize) -> Result<usize, OutOfMemory>
    requires { IsCharBoundary text.now at }
    ensures end { IfOk result (λ end. end ≡ at + prefix_len is_plain (drop at text.now)) }
    ensures cut { IfOk result (λ end. IsCharBoundary text.now end) }
    ensures added { OnOk result (out.new ≡ out.old ++ take (prefix_len is_plain (drop at text.now)) (drop at text.now)) }
{
    let end = at + run_length(text.as_bytes().split_at(at).1);
    out.push_str(&text[at..end])?;
    Ok(end)
}

/// The piece of a text that begins at this byte.
pub(crate) fn piece(alloc: Global, text: &str, from: usize) -> Result<Piece, OutOfMemory>
    requires { IsCharBoundary text.now from }
    ensures value { IfOk result (λ p. p ≡ piece_from false (drop from text.now)) }
    ensures within { IfOk result (λ p. from + p.size ≤ length text.now) }
{
    let mut out = Text::new(alloc);
    let mut at = from;
    'more: loop {
        at = push_run(&mut out, text, at)?;
        match mark(text.as_bytes().split_at(at).1) {
            None => break,
            Some((byte, size)) => {
                push_mark(&mut out, byte)?;
                at += size;
            }
        }
    }
    Ok(Piece {
        text: out,
        size: at - from,
    })
}
