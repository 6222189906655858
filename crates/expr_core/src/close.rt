//! What a bracket or the end of a part ends.
ghost use Rattle.std.specs.Prelude.{◌≡◌, ◌∷◌, IfOk, map, option_map, Some};
ghost use Rattle.ast_core.specs.ExprView.{expr_view};
ghost use Rattle.ast_core.specs.NamesIn.{part_view, pair_view};
ghost use Rattle.expr_core.specs.Machine as machine;
ghost use Rattle.expr_core.specs.Seen.{value_view, meant_view, opener_view, style_view, frame_view, seen, led, has_bracket, ends_choice};

use crate::call::{finish, map_from, with_item, with_pair, with_part, with_plain};
use crate::frame::{Frame, Mode, Opener};
use crate::functions::earlier;
use crate::pile::Pile;
use crate::value::{Meant, Style, Value, chosen, chosen_else, closed, index_of};
use ast_core::{Expr, Pair, TextPart};
use expr_token::Bracket;
use std::alloc::Global;
use text_core::{OutOfMemory, Seq, Text};

// Whether a bracket ends that list.
fn has_bracket(opener: &Opener, bracket: Bracket) -> bool
    ensures { result ≡ has_bracket opener.now bracket }
{
    match (opener, bracket) {
        (Opener::Listing, Bracket::Square) => true,
        (Opener::Tupling, Bracket::Curly) => true,
        (Opener::Calling(_), Bracket::Round) => true,
        (Opener::Piping(_, _), Bracket::Round) => true,
        _ => false,
    }
}

// Whether a bracket ends an `if`.
fn ends_choice(bracket: Bracket, style: Style) -> bool
    ensures { result ≡ ends_choice bracket style }
{
    match (bracket, style) {
        (Bracket::Round, Style::Inside) => true,
        _ => false,
    }
}

// The value of a list with its last item.
#[tactic(auto, using(crate::proofs::Closes::items_end, crate::proofs::Closes::items_stay))]
fn ended_items(
    alloc: Global,
    bracket: Bracket,
    opener: Opener,
    items: Seq<Expr>,
    unknown: Option<usize>,
    value: Value,
) -> Result<Option<Value>, OutOfMemory>
    ensures { IfOk result (λ v. machine.ended_by bracket (value_view value) (machine.items (opener_view opener) (map expr_view items) unknown) ≡ option_map value_view v) }
{
    if !has_bracket(&opener, bracket) {
        return Ok(None);
    }
    let unknown = earlier(unknown, value.meant.unknown);
    let items = with_item(items, value.meant.expr)?;
    Ok(Some(finish(alloc, opener, items, unknown)?))
}

// The value of a map with its last entry.
fn ended_entries(
    bracket: Bracket,
    pairs: Seq<Pair>,
    unknown: Option<usize>,
    key: Text,
    value: Value,
) -> Result<Option<Value>, OutOfMemory>
    ensures { IfOk result (λ v. machine.ended_by bracket (value_view value) (machine.valued (map pair_view pairs) unknown key) ≡ option_map value_view v) }
{
    match bracket {
        Bracket::Curly => {
            let unknown = earlier(unknown, value.meant.unknown);
            let pairs = with_pair(pairs, key, value.meant.expr)?;
            Ok(Some(map_from(pairs, unknown)))
        }
        Bracket::Round => Ok(None),
        Bracket::Square => Ok(None),
    }
}

// The value of an `if` without `else`.
#[tactic(auto, using(crate::proofs::Closes::choice_ends, crate::proofs::Closes::choice_stays))]
fn ended_yes(
    alloc: Global,
    bracket: Bracket,
    style: Style,
    test: Meant,
    value: Value,
) -> Result<Option<Value>, OutOfMemory>
    ensures { IfOk result (λ v. machine.ended_by bracket (value_view value) (machine.yes_of (style_view style) (meant_view test)) ≡ option_map value_view v) }
{
    if !ends_choice(bracket, style) {
        return Ok(None);
    }
    Ok(Some(chosen(alloc, style, test, value.meant)?))
}

// The value of an `if` with `else`.
#[tactic(auto, using(crate::proofs::Closes::other_choice_ends, crate::proofs::Closes::other_choice_stays))]
fn ended_no(
    alloc: Global,
    bracket: Bracket,
    style: Style,
    test: Meant,
    yes: Meant,
    value: Value,
) -> Result<Option<Value>, OutOfMemory>
    ensures { IfOk result (λ v. machine.ended_by bracket (value_view value) (machine.no_of (style_view style) (meant_view test) (meant_view yes)) ≡ option_map value_view v) }
{
    if !ends_choice(bracket, style) {
        return Ok(None);
    }
    Ok(Some(chosen_else(alloc, style, test, yes, value.meant)?))
}

// The value of an index.
fn ended_index(
    alloc: Global,
    bracket: Bracket,
    left: Value,
    value: Value,
) -> Result<Option<Value>, OutOfMemory>
    ensures { IfOk result (λ v. machine.ended_by bracket (value_view value) (machine.indexed (value_view left)) ≡ option_map value_view v) }
{
    match bracket {
        Bracket::Square => Ok(Some(index_of(alloc, left, value)?)),
        Bracket::Round => Ok(None),
        Bracket::Curly => Ok(None),
    }
}

// What stands in parentheses.
fn ended_paren(bracket: Bracket, value: Value) -> Option<Value>
    ensures { machine.ended_by bracket (value_view value) machine.paren ≡ option_map value_view result }
{
    match bracket {
        Bracket::Round => Some(closed(value.meant.expr, value.meant.unknown)),
        Bracket::Square => None,
        Bracket::Curly => None,
    }
}

// The value of what a bracket ends.
#[tactic(auto, using(crate::proofs::Closes::operand_stays, crate::proofs::Closes::ahead_stays, crate::proofs::Closes::putting_stays, crate::proofs::Closes::test_stays, crate::proofs::Closes::inner_test_stays))]
fn ended_by(
    alloc: Global,
    bracket: Bracket,
    value: Value,
    frame: Frame,
) -> Result<Option<Value>, OutOfMemory>
    ensures { IfOk result (λ v. machine.ended_by bracket (value_view value) (frame_view frame) ≡ option_map value_view v) }
{
    match frame {
        Frame::Paren => Ok(ended_paren(bracket, value)),
        Frame::Indexed(left) => ended_index(alloc, bracket, left, value),
        Frame::Items(opener, items, unknown) => {
            ended_items(alloc, bracket, opener, items, unknown, value)
        }
        Frame::Valued(pairs, unknown, key) => ended_entries(bracket, pairs, unknown, key, value),
        Frame::Yes(style, test) => ended_yes(alloc, bracket, style, test, value),
        Frame::No(style, test, yes) => ended_no(alloc, bracket, style, test, yes, value),
        Frame::Operand(_op, _left) => Ok(None),
        Frame::Ahead(_op) => Ok(None),
        Frame::Putting(_parts, _unknown) => Ok(None),
        Frame::Test => Ok(None),
        Frame::InnerTest => Ok(None),
    }
}

// What comes behind a value that there may be.
fn had(value: Option<Value>) -> Option<Mode>
    ensures { (fs : machine.Frames) → machine.have_some (option_map value_view value) fs ≡ led result fs }
{
    match value {
        Some(value) => Some(Mode::Have(value)),
        None => None,
    }
}

/// A bracket behind a value.
pub(crate) fn put_closing(
    alloc: Global,
    bracket: Bracket,
    value: Value,
    frames: &mut Pile,
) -> Result<Option<Mode>, OutOfMemory>
    ensures { IfOk result (λ mode. machine.put_closing bracket (value_view value) (seen frames.old) ≡ led mode (seen frames.new)) }
{
    match frames.pop() {
        Some(frame) => {
            let value = ended_by(alloc, bracket, value, frame)?;
            Ok(had(value))
        }
        None => Ok(None),
    }
}

// The value of a list without items.
#[tactic(auto, using(crate::proofs::Closes::empty_ends, crate::proofs::Closes::empty_stays, crate::proofs::Closes::filled_stays))]
fn empty_items(
    alloc: Global,
    bracket: Bracket,
    opener: Opener,
    items: Seq<Expr>,
    unknown: Option<usize>,
) -> Result<Option<Value>, OutOfMemory>
    ensures { IfOk result (λ v. (fs : machine.Frames) → machine.put_empty bracket (machine.items (opener_view opener) (map expr_view items) unknown ∷ fs) ≡ machine.have_some (option_map value_view v) fs) }
{
    if !items.is_empty() {
        return Ok(None);
    }
    if !has_bracket(&opener, bracket) {
        return Ok(None);
    }
    Ok(Some(finish(alloc, opener, items, unknown)?))
}

// The value of what a bracket ends without an item.
#[tactic(auto, using(crate::proofs::Closes::empties))]
fn empty_ended(alloc: Global, bracket: Bracket, frame: Frame) -> Result<Option<Value>, OutOfMemory>
    ensures { IfOk result (λ v. (fs : machine.Frames) → machine.put_empty bracket (frame_view frame ∷ fs) ≡ machine.have_some (option_map value_view v) fs) }
{
    match frame {
        Frame::Items(opener, items, unknown) => {
            empty_items(alloc, bracket, opener, items, unknown)
        }
        Frame::Paren => Ok(None),
        Frame::Indexed(_left) => Ok(None),
        Frame::Valued(_pairs, _unknown, _key) => Ok(None),
        Frame::Yes(_style, _test) => Ok(None),
        Frame::No(_style, _test, _yes) => Ok(None),
        Frame::Operand(_op, _left) => Ok(None),
        Frame::Ahead(_op) => Ok(None),
        Frame::Putting(_parts, _unknown) => Ok(None),
        Frame::Test => Ok(None),
        Frame::InnerTest => Ok(None),
    }
}

/// A bracket where an item is wanted.
#[tactic(auto, using(crate::proofs::Closes::nothing_stays))]
pub(crate) fn put_empty(
    alloc: Global,
    bracket: Bracket,
    frames: &mut Pile,
) -> Result<Option<Mode>, OutOfMemory>
    ensures { IfOk result (λ mode. machine.put_empty bracket (seen frames.old) ≡ led mode (seen frames.new)) }
{
    match frames.pop() {
        Some(frame) => {
            let value = empty_ended(alloc, bracket, frame)?;
            Ok(had(value))
        }
        None => Ok(None),
    }
}

// A text goes on behind a part.
fn next_part(
    alloc: Global,
    text: &Text,
    parts: Seq<TextPart>,
    unknown: Option<usize>,
    value: Value,
) -> Result<Option<Mode>, OutOfMemory>
    ensures { IfOk result (λ mode. (fs : machine.Frames) → machine.put_part text.now (value_view value) (machine.putting (map part_view parts) unknown ∷ fs) ≡ led mode fs) }
{
    let unknown = earlier(unknown, value.meant.unknown);
    let parts = with_part(parts, value.meant.expr)?;
    let parts = with_plain(alloc, parts, text)?;
    Ok(Some(Mode::WantPart(parts, unknown)))
}

// What comes behind a part of a text.
fn part_ended(
    alloc: Global,
    text: &Text,
    value: Value,
    frame: Frame,
) -> Result<Option<Mode>, OutOfMemory>
    ensures { IfOk result (λ mode. (fs : machine.Frames) → machine.put_part text.now (value_view value) (frame_view frame ∷ fs) ≡ led mode fs) }
{
    match frame {
        Frame::Putting(parts, unknown) => next_part(alloc, text, parts, unknown, value),
        _other => Ok(None),
    }
}

/// The end of a part of a text, with the characters behind it.
pub(crate) fn put_part(
    alloc: Global,
    text: &Text,
    value: Value,
    frames: &mut Pile,
) -> Result<Option<Mode>, OutOfMemory>
    ensures { IfOk result (λ mode. machine.put_part text.now (value_view value) (seen frames.old) ≡ led mode (seen frames.new)) }
{
    match frames.pop() {
        Some(frame) => part_ended(alloc, text, value, frame),
        None => Ok(None),
    }
}
