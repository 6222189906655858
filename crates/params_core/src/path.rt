//! The path that a key stands for.
ghost use Rattle.std.specs.Prelude.{◌≡◌, ◌∷◌, ◌++◌, ◌==◌, List, ℕ, map, count_by, IfOk, MatchOption, None, Some, option_map, string_bytes};
ghost use Rattle.std.specs.List.{slice_split};
ghost use Rattle.params_core.specs.Path as spec;

use std::alloc::{AllocError, Global};
use text_core::{OutOfMemory, Seq, Text};

// How many names a path may have: the first one and 98 parts.
const MOST_NAMES: usize = 99;

/// One step of a value's path.
#[derive(Debug, Drop)]
pub enum Step {
    /// To the entry of a map at that key.
    At(Text),
    /// To a new item at the end of a list.
    Append,
}

/// The path that a key stands for.
pub fn path_of(alloc: Global, key: &str) -> Result<Seq<Step>, OutOfMemory>
    ensures { IfOk result (λ path. path ≡ spec.path_of key.now) }
{
    let pieces = pieces_of(alloc, key)?;
    match nested(alloc, pieces.as_slice())? {
        Some(path) => Ok(path),
        None => whole(alloc, key),
    }
}

// What stands between a key's opening brackets.
fn pieces_of(alloc: Global, key: &str) -> Result<Vec<&str>, AllocError>
    ensures { IfOk result (λ pieces. map (λ p. p.now) pieces.items ≡ slice_split (λ b. b == 91) key.now) }
{
    key.split('[').collect(alloc)
}

// The path of a key that is a name as a whole.
fn whole(alloc: Global, key: &str) -> Result<Seq<Step>, OutOfMemory>
    ensures { IfOk result (λ path. path ≡ spec.named key.now) }
{
    let mut path = Seq::new(alloc);
    path.push(Step::At(Text::copy_of(alloc, key)?))?;
    Ok(path)
}

// The path of a name with parts, none where the key is a name as a whole.
fn nested(alloc: Global, pieces: &[&str]) -> Result<Option<Seq<Step>>, OutOfMemory>
    ensures { IfOk result (λ path. path ≡ spec.nested (map (λ p. p.now) pieces.now)) }
{
    let [name, parts @ ..] = pieces else {
        return Ok(None);
    };
    if name.is_empty() {
        return Ok(None);
    }
    match with_parts(alloc, whole(alloc, name)?, parts)? {
        Some(path) => Ok(within_limit(path)),
        None => Ok(None),
    }
}

// The path, unless it has too many names.
fn within_limit(path: Seq<Step>) -> Option<Seq<Step>>
    ensures { result ≡ spec.within_limit path }
{
    if name_count(path.as_slice()) <= MOST_NAMES {
        Some(path)
    } else {
        None
    }
}

fn name_count(path: &[Step]) -> usize
    ensures { result ≡ count_by spec.is_name path.now }
{
    path.iter().filter(|step| is_name(step)).count()
}

fn is_name(step: &Step) -> bool
    ensures { result ≡ spec.is_name step.now }
{
    match step {
        Step::At(_) => true,
        Step::Append => false,
    }
}

// The path with the steps of the pieces behind it, none where a piece is no part.
fn with_parts(
    alloc: Global,
    mut path: Seq<Step>,
    pieces: &[&str],
) -> Result<Option<Seq<Step>>, OutOfMemory>
    ensures { IfOk result (λ longer. longer ≡ option_map (λ steps. path ++ steps) (spec.steps_of (map (λ p. p.now) pieces.now))) }
{
    let mut left = pieces;
    'pieces: while let [piece, others @ ..] = left {
        match step_of(alloc, piece, others.is_empty())? {
            Some(step) => path.push(step)?,
            None => return Ok(None),
        }
        left = others;
    }
    Ok(Some(path))
}

// The step that a piece behind an opening bracket stands for.
fn step_of(alloc: Global, piece: &str, is_last: bool) -> Result<Option<Step>, OutOfMemory>
    ensures { IfOk result (λ step. step ≡ spec.step_of (spec.closed piece.now) is_last) }
{
    match closed(piece) {
        Some(part) => step_to(alloc, part, is_last),
        None => Ok(None),
    }
}

fn step_to(alloc: Global, part: &str, is_last: bool) -> Result<Option<Step>, OutOfMemory>
    ensures { IfOk result (λ step. step ≡ spec.step_to part.now is_last) }
{
    if !part.is_empty() {
        return Ok(Some(Step::At(Text::copy_of(alloc, part)?)));
    }
    if is_last {
        Ok(Some(Step::Append))
    } else {
        Ok(None)
    }
}

// What stands before the closing bracket that ends a piece, none where it has another or none.
fn closed(piece: &str) -> Option<&str>
    ensures { MatchOption result (spec.closed piece.now ≡ None) (λ part. spec.closed piece.now ≡ Some part.now) }
{
    let (part, behind) = piece.split_once(']')?;
    if behind.is_empty() { Some(part) } else { None }
}
