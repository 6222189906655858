//! What stands behind an operand.
ghost use Rattle.std.specs.Prelude.{◌≡◌, ◌∷◌, ◌&&◌, IfOk, map, nat_le, option_map, Some};
ghost use Rattle.ast_core.specs.ExprView.{expr_view};
ghost use Rattle.ast_core.specs.NamesIn.{pair_view};
ghost use Rattle.expr_core.specs.Grammar.{binds as binding_of, left_of as left_bound, may_deny};
ghost use Rattle.expr_core.specs.Machine as machine;
ghost use Rattle.expr_core.specs.Seen.{is_test, test_style, choice_goes_on, meant_view, style_view, value_view, callee_view, opener_view, frame_view, seen, state_of, led};
ghost use Rattle.expr_token.specs.declared.token.Token.TheVariants as tokens;

use crate::call::{with_item, with_pair};
use crate::close::{put_closing, put_part};
use crate::frame::{Frame, Mode, Opener};
use crate::functions::earlier;
use crate::pile::Pile;
use crate::reduce::{left_of, need, reduce};
use crate::value::{Callee, Style, Value, binds};
use ast_core::{BinaryOp, Expr, Pair};
use expr_token::{Bracket, Token};
use std::alloc::Global;
use text_core::{OutOfMemory, Seq, Text};

// The left operand of `in` begins with no denial.
fn may_deny(op: BinaryOp, denies: bool) -> bool
    ensures { result ≡ may_deny op denies }
{
    match op {
        BinaryOp::Member => !denies,
        _ => true,
    }
}

// Whether an operator may stand behind this value.
fn operator_fits(op: BinaryOp, value: &Value, frames: &Pile) -> bool
    ensures { result ≡ (nat_le (left_bound (binding_of op)) value.now.holds && (nat_le (machine.need (seen frames.now)) (binding_of op) && may_deny op value.now.denies)) }
{
    let binding = binds(op);
    if left_of(binding) > value.holds {
        return false;
    }
    if need(frames) > binding {
        return false;
    }
    may_deny(op, value.denies)
}

fn put_operator(op: BinaryOp, value: Value, frames: &mut Pile) -> Result<Option<Mode>, OutOfMemory>
    ensures { IfOk result (λ mode. machine.put_operator op (value_view value) (seen frames.old) ≡ led mode (seen frames.new)) }
{
    if !operator_fits(op, &value, frames) {
        return Ok(None);
    }
    frames.push(Frame::Operand(op, value))?;
    Ok(Some(Mode::Want))
}

// Whether a pipe may stand behind this value.
fn pipe_fits(value: &Value, frames: &Pile) -> bool
    ensures { result ≡ (nat_le 5 value.now.holds && nat_le (machine.need (seen frames.now)) 5) }
{
    if value.holds < 5 {
        return false;
    }
    need(frames) <= 5
}

fn put_pipe(value: Value, frames: &Pile) -> Option<Mode>
    ensures { machine.put_pipe (value_view value) (seen frames.now) ≡ led result (seen frames.now) }
{
    if pipe_fits(&value, frames) {
        Some(Mode::WantCall(value))
    } else {
        None
    }
}

// A list goes on.
fn next_item(
    opener: Opener,
    items: Seq<Expr>,
    unknown: Option<usize>,
    value: Value,
    frames: &mut Pile,
) -> Result<Option<Mode>, OutOfMemory>
    ensures { IfOk result (λ mode. machine.put_comma (value_view value) (machine.items (opener_view opener) (map expr_view items) unknown ∷ seen frames.old) ≡ led mode (seen frames.new)) }
{
    let unknown = earlier(unknown, value.meant.unknown);
    let items = with_item(items, value.meant.expr)?;
    frames.push(Frame::Items(opener, items, unknown))?;
    Ok(Some(Mode::Want))
}

// A map goes on.
fn next_entry(
    pairs: Seq<Pair>,
    unknown: Option<usize>,
    key: Text,
    value: Value,
) -> Result<Option<Mode>, OutOfMemory>
    ensures { IfOk result (λ mode. (fs : machine.Frames) → machine.put_comma (value_view value) (machine.valued (map pair_view pairs) unknown key ∷ fs) ≡ led mode fs) }
{
    let unknown = earlier(unknown, value.meant.unknown);
    let pairs = with_pair(pairs, key, value.meant.expr)?;
    Ok(Some(Mode::WantKey(pairs, unknown)))
}

fn is_test(frame: &Frame) -> bool
    ensures { result ≡ is_test frame.now }
{
    match frame {
        Frame::Test => true,
        _ => false,
    }
}

// A comma in a parenthesis makes that the parenthesis of the `if` before it.
#[tactic(auto, using(crate::proofs::Closes::test_goes, crate::proofs::Closes::other_stays))]
fn test_behind(frame: Frame, value: Value) -> Option<Mode>
    ensures { (fs : machine.Frames) → machine.put_comma (value_view value) (machine.paren ∷ frame_view frame ∷ fs) ≡ led result fs }
{
    if !is_test(&frame) {
        return None;
    }
    if value.holds < 1 {
        return None;
    }
    Some(Mode::WantDo(Style::Inside, value.meant))
}

fn paren_ends(value: Value, frames: &mut Pile) -> Option<Mode>
    ensures { machine.put_comma (value_view value) (machine.paren ∷ seen frames.old) ≡ led result (seen frames.new) }
{
    match frames.pop() {
        Some(frame) => test_behind(frame, value),
        None => None,
    }
}

// What this is, where it waits for the test of an `if`.
fn test_style(frame: &Frame) -> Option<Style>
    ensures { result ≡ test_style frame.now }
{
    match frame {
        Frame::Test => Some(Style::Bare),
        Frame::InnerTest => Some(Style::Inside),
        _ => None,
    }
}

// A comma behind the test of an `if`.
fn test_goes_on(style: Option<Style>, value: Value) -> Option<Mode>
    ensures { (fs : machine.Frames) → led result fs ≡ option_map (λ s. machine.want_do (style_view s) (meant_view value.meant) fs) style }
{
    match style {
        Some(style) => Some(Mode::WantDo(style, value.meant)),
        None => None,
    }
}

// A comma behind a part of an `if`.
#[tactic(auto, using(crate::proofs::Commas::in_test))]
fn choice_goes_on(frame: Frame, value: Value) -> Option<Mode>
    ensures { (fs : machine.Frames) → choice_goes_on (frame_view frame) (value_view value) fs ≡ led result fs }
{
    match frame {
        Frame::Yes(style, test) => Some(Mode::WantElse(style, test, value.meant)),
        other => test_goes_on(test_style(&other), value),
    }
}

// A comma behind a value in this.
#[tactic(auto, using(crate::proofs::Commas::in_choice))]
fn comma_in(frame: Frame, value: Value, frames: &mut Pile) -> Result<Option<Mode>, OutOfMemory>
    ensures { IfOk result (λ mode. machine.put_comma (value_view value) (frame_view frame ∷ seen frames.old) ≡ led mode (seen frames.new)) }
{
    match frame {
        Frame::Items(opener, items, unknown) => next_item(opener, items, unknown, value, frames),
        Frame::Valued(pairs, unknown, key) => next_entry(pairs, unknown, key, value),
        Frame::Paren => Ok(paren_ends(value, frames)),
        other => Ok(choice_goes_on(other, value)),
    }
}

fn put_comma(value: Value, frames: &mut Pile) -> Result<Option<Mode>, OutOfMemory>
    ensures { IfOk result (λ mode. machine.put_comma (value_view value) (seen frames.old) ≡ led mode (seen frames.new)) }
{
    match frames.pop() {
        Some(frame) => comma_in(frame, value, frames),
        None => Ok(None),
    }
}

// The arguments of a call begin.
fn open_call(
    alloc: Global,
    callee: Option<Callee>,
    frames: &mut Pile,
) -> Result<Option<Mode>, OutOfMemory>
    ensures { IfOk result (λ mode. machine.open_call (option_map callee_view callee) (seen frames.old) ≡ led mode (seen frames.new)) }
{
    match callee {
        Some(callee) => {
            let opener = Opener::Calling(callee);
            frames.push(Frame::Items(opener, Seq::new(alloc), None))?;
            Ok(Some(Mode::Want))
        }
        None => Ok(None),
    }
}

fn open_index(value: Value, frames: &mut Pile) -> Result<Option<Mode>, OutOfMemory>
    ensures { IfOk result (λ mode. machine.on_have tokens.IndexOpening (value_view value) (seen frames.old) ≡ led mode (seen frames.new)) }
{
    if value.holds < 11 {
        return Ok(None);
    }
    frames.push(Frame::Indexed(value))?;
    Ok(Some(Mode::Want))
}

fn put_dot(value: Value) -> Option<Mode>
    ensures { (fs : machine.Frames) → machine.on_have tokens.Dot (value_view value) fs ≡ led result fs }
{
    if value.holds < 11 {
        None
    } else {
        Some(Mode::WantField(value))
    }
}

// An operator, with what stands before it put together.
fn on_operator(
    alloc: Global,
    op: BinaryOp,
    value: Value,
    frames: &mut Pile,
) -> Result<Option<Mode>, OutOfMemory>
    ensures { IfOk result (λ mode. machine.on_have (tokens.Operator op) (value_view value) (seen frames.old) ≡ led mode (seen frames.new)) }
{
    let value = reduce(alloc, left_of(binds(op)), value, frames)?;
    put_operator(op, value, frames)
}

fn on_pipe(alloc: Global, value: Value, frames: &mut Pile) -> Result<Option<Mode>, OutOfMemory>
    ensures { IfOk result (λ mode. machine.on_have tokens.Pipe (value_view value) (seen frames.old) ≡ led mode (seen frames.new)) }
{
    let value = reduce(alloc, 5, value, frames)?;
    Ok(put_pipe(value, frames))
}

fn on_closing(
    alloc: Global,
    bracket: Bracket,
    value: Value,
    frames: &mut Pile,
) -> Result<Option<Mode>, OutOfMemory>
    ensures { IfOk result (λ mode. machine.on_have (tokens.Closing bracket) (value_view value) (seen frames.old) ≡ led mode (seen frames.new)) }
{
    let value = reduce(alloc, 0, value, frames)?;
    put_closing(alloc, bracket, value, frames)
}

fn on_part_closing(
    alloc: Global,
    text: &Text,
    value: Value,
    frames: &mut Pile,
) -> Result<Option<Mode>, OutOfMemory>
    ensures { IfOk result (λ mode. machine.on_have (tokens.PartClosing text.now) (value_view value) (seen frames.old) ≡ led mode (seen frames.new)) }
{
    let value = reduce(alloc, 0, value, frames)?;
    put_part(alloc, text, value, frames)
}

fn on_comma(alloc: Global, value: Value, frames: &mut Pile) -> Result<Option<Mode>, OutOfMemory>
    ensures { IfOk result (λ mode. machine.on_have tokens.Comma (value_view value) (seen frames.old) ≡ led mode (seen frames.new)) }
{
    let value = reduce(alloc, 1, value, frames)?;
    put_comma(value, frames)
}

/// A token behind an operand.
pub(crate) fn on_have(
    alloc: Global,
    token: &Token,
    value: Value,
    frames: &mut Pile,
) -> Result<Option<Mode>, OutOfMemory>
    ensures { IfOk result (λ mode. machine.on_have token.now (value_view value) (seen frames.old) ≡ led mode (seen frames.new)) }
{
    match token {
        Token::Operator(op) => on_operator(alloc, *op, value, frames),
        Token::Pipe => on_pipe(alloc, value, frames),
        Token::Dot => Ok(put_dot(value)),
        Token::IndexOpening => open_index(value, frames),
        Token::CallOpening => open_call(alloc, value.callee, frames),
        Token::Closing(bracket) => on_closing(alloc, *bracket, value, frames),
        Token::PartClosing(text) => on_part_closing(alloc, text, value, frames),
        Token::Comma => on_comma(alloc, value, frames),
        _ => Ok(None),
    }
}
