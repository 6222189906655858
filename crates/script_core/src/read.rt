//! The reader of scripts.
ghost use Rattle.std.specs.Prelude.{◌≡◌, ℕ, ◌≢◌, ◌≤◌, ◌<◌, ◌∷◌, ◌++◌, ◌==◌, [], IfOk, IfSome, None, Some, Ok, Err, length, position, nat_lt, if◌then◌else◌};
ghost use Rattle.std.specs.Option.{option_copied};
ghost use Rattle.std.specs.Str.{is_utf8};
ghost use Rattle.script_core.specs.Script.{lines, declared, is_listed, may_stand, does_nothing, line_behind, SpellsScript, IsBadLine};
ghost use Rattle.script_core.specs.Reading.{line_of, admit, with_line, script_from, script_of, ReadsAsSpelled, NamesBadLine};

use crate::fit::is_fit;
use crate::shape::shape_of;
use crate::{Line, Script, ScriptFault};
use std::alloc::Global;
use std::marker::Model;
use std::str;
use text_core::{Names, OutOfMemory, Seq, Text};

/// How many bytes a script has at most.
pub const MOST_BYTES: usize = 16_777_216;

// How many browsers a script declares at most.
const MOST_BROWSERS: usize = 64;

// The line that does something which a text is.
#[tactic(auto, unfolding(crate::specs::Reading::line_of))]
fn line_of(alloc: Global, text: &str) -> Result<Option<Line>, OutOfMemory>
    ensures { IfOk result (λ x. x ≡ line_of text.now) }
{
    let Some(line) = shape_of(alloc, text)? else {
        return Ok(None);
    };
    if is_fit(alloc, &line)? {
        Ok(Some(line))
    } else {
        Ok(None)
    }
}

fn does_nothing(line: &[u8]) -> bool
    ensures { result ≡ does_nothing line.now }
{
    match line {
        [first, ..] => *first == b'#',
        [] => true,
    }
}

fn is_listed(name: &Text, names: &[Text]) -> bool
    ensures { result ≡ is_listed name.now names.now }
{
    names.iter().any(|n| n.as_str() == name.as_str())
}

// The bytes as a text, where they are UTF-8.
fn text_of(bytes: &[u8]) -> Option<&str>
    ensures { option_copied result ≡ (if is_utf8 bytes.entry.now then Some bytes.entry.now else None) }
{
    match str::from_utf8(bytes) {
        Ok(text) => Some(text),
        Err(_) => None,
    }
}

// The declared names, with that of a line that declares one.
fn with_declared(alloc: Global, mut names: Names, line: &Line) -> Result<Names, OutOfMemory>
    ensures { IfOk result (λ ns. ns ≡ names ++ declared (line.now ∷ [])) }
{
    if let Line::Browser { name } = line {
        names.push(name.copy(alloc)?)?;
        return Ok(names);
    }
    Ok(names)
}

// The script so far, with the names of its browsers.
#[derive(Debug, Drop)]
struct Reader {
    declared: Names,
    lines: Script,
}

impl Model for Reader {
    ghost use Rattle.std.specs.Prelude.{List, ◌≡◌};
    ghost use Rattle.script_core.specs.declared.script.Line.{Line};
    ghost use Rattle.script_core.specs.Script as specs;

    ghost Value = { List Line };

    ghost view = { λ r. r.lines };

    ghost invariant = { λ r. r.declared ≡ specs.declared r.lines };
}

impl Reader {
    fn new(alloc: Global) -> Reader
        ensures { result ≡ [] }
    {
        Reader {
            declared: Seq::new(alloc),
            lines: Seq::new(alloc),
        }
    }

    fn into_script(self) -> Script
        ensures { result ≡ self }
    {
        let Reader { lines, .. } = self;
        lines
    }

    fn is_declared(&self, name: &Text) -> bool
        ensures { result ≡ is_listed name.now (declared self.now) }
    {
        is_listed(name, self.declared.as_slice())
    }

    fn has_room(&self) -> bool
        ensures { result ≡ nat_lt (length (declared self.now)) 64 }
    {
        self.declared.len() < MOST_BROWSERS
    }

    // Whether the line may stand behind those so far.
    fn may_stand(&self, line: &Line) -> bool
        ensures { result ≡ may_stand self.now line.now }
    {
        match line {
            Line::Browser { name } => {
                if self.is_declared(name) {
                    false
                } else {
                    self.has_room()
                }
            }
            Line::Join { name, .. }
            | Line::Event { name, .. }
            | Line::Step { name }
            | Line::Run { name }
            | Line::Html { name }
            | Line::Frames { name } => self.is_declared(name),
        }
    }

    // The reader behind one line more.
    fn push(self, alloc: Global, line: Line) -> Result<Reader, OutOfMemory>
        ensures { IfOk result (λ r. r ≡ self ++ line ∷ []) }
    {
        let Reader {
            declared,
            mut lines,
        } = self;
        let declared = with_declared(alloc, declared, &line)?;
        lines.push(line)?;
        Ok(Reader { declared, lines })
    }

    // The reader behind this line, if the line may stand there.
    fn admit(self, alloc: Global, line: Line) -> Result<Option<Reader>, OutOfMemory>
        ensures { IfOk result (λ r. r ≡ admit self line) }
    {
        if !self.may_stand(&line) {
            return Ok(None);
        }
        Ok(Some(self.push(alloc, line)?))
    }

    // The reader behind a line of text, if that can be read.
    fn with_line(self, alloc: Global, line: &[u8]) -> Result<Option<Reader>, OutOfMemory>
        ensures { IfOk result (λ r. r ≡ with_line self line.now) }
    {
        let Some(text) = text_of(line) else {
            return Ok(None);
        };
        if does_nothing(line) {
            return Ok(Some(self));
        }
        match line_of(alloc, text)? {
            Some(read) => self.admit(alloc, read),
            None => Ok(None),
        }
    }
}

fn place_of_feed(bytes: &[u8]) -> Option<usize>
    ensures place { result ≡ position (λ b. b == 10) bytes.now }
    ensures within { IfSome result (λ i. i < length bytes.now) }
{
    bytes.iter().position(|b| *b == b'\n')
}

// The first line, without its line feed, and what stands behind it.
fn split_line(bytes: &[u8]) -> (&[u8], &[u8])
    requires { bytes.now ≢ [] }
    ensures cut { lines bytes.entry.now ≡ result.0.now ∷ lines result.1.now }
    ensures shorter { length result.1.now < length bytes.entry.now }
{
    match place_of_feed(bytes) {
        Some(i) => {
            let (first, _) = bytes.split_at(i);
            let (_, rest) = bytes.split_at(i + 1);
            (first, rest)
        }
        None => {
            let (_, rest) = bytes.split_at(bytes.len());
            (bytes, rest)
        }
    }
}

fn read_lines(alloc: Global, text: &[u8]) -> Result<Script, ScriptFault>
    requires { length text.now ≤ 16777216 }
    ensures read { IfOk result (λ s. script_from [] 1 (lines text.entry.now) ≡ Ok s) }
    ensures bad_line { (n : ℕ) → result ≡ Err (ScriptFault.BadLine n) → script_from [] 1 (lines text.entry.now) ≡ Err n }
{
    let mut reader = Reader::new(alloc);
    let mut rest = text;
    let mut number = 1u32;
    while !rest.is_empty() {
        let (line, later) = split_line(rest);
        let Some(next) = reader.with_line(alloc, line)? else {
            return Err(ScriptFault::BadLine(number));
        };
        reader = next;
        rest = later;
        number += 1;
    }
    Ok(reader.into_script())
}

// The number of the line in which the first byte behind these stands.
fn line_behind(bytes: &[u8]) -> u32
    requires { length bytes.now ≤ 16777216 }
    ensures { result ≡ line_behind bytes.now }
{
    let feeds = bytes.iter().filter(|b| **b == b'\n').count();
    1 + feeds as u32
}

fn read_text(alloc: Global, text: &[u8]) -> Result<Script, ScriptFault>
    ensures read { IfOk result (λ s. script_of text.entry.now ≡ Ok s) }
    ensures bad_line { (n : ℕ) → result ≡ Err (ScriptFault.BadLine n) → script_of text.entry.now ≡ Err n }
{
    if text.len() > MOST_BYTES {
        let (front, _) = text.split_at(MOST_BYTES);
        return Err(ScriptFault::BadLine(line_behind(front)));
    }
    read_lines(alloc, text)
}

/// Reads a script: lines of words with one space between them, at most `MOST_BYTES` bytes.
///
/// An empty line and a line that begins with `#` do nothing. The others are those of `Line`.
/// At most 64 browsers are declared, each once and before its use.
///
/// `BadLine` names the line of the first byte past the limit, and else the first line that cannot
/// be read. Where memory is wanting there is no script and no line.
pub fn read_script(alloc: Global, text: &[u8]) -> Result<Script, ScriptFault>
    ensures read { IfOk result (λ s. SpellsScript text.entry.now s) }
    ensures bad_line { (n : ℕ) → result ≡ Err (ScriptFault.BadLine n) → IsBadLine text.entry.now n }
    ensures script { IfOk result (λ s. script_of text.entry.now ≡ Ok s) }
    ensures number { (n : ℕ) → result ≡ Err (ScriptFault.BadLine n) → script_of text.entry.now ≡ Err n }
{
    read_text(alloc, text)
}

/// The law that the reader as a function answers a script exactly where the text spells it, and
/// the number of a line exactly where that line is the bad one. So a text spells one script at most.
pub fn script_law()
    ensures script { ReadsAsSpelled }
    ensures bad_line { NamesBadLine }
{}
