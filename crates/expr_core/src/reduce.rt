//! What binds tightly enough is put together.
ghost use Rattle.std.specs.Prelude.{◌≡◌, ◌<◌, ◌≤◌, IfOk, length};
ghost use Rattle.expr_core.specs.Gathers.{KeepsReduced, FoldsOn};
ghost use Rattle.expr_core.specs.Grammar.{binds as binding_of, left_of as left_bound, right_of as right_bound};
ghost use Rattle.expr_core.specs.Machine as machine;
ghost use Rattle.expr_core.specs.Seen.{value_view, seen, first_of, is_closed_by, folded};

use crate::chain::gather;
use crate::frame::Frame;
use crate::pile::Pile;
use crate::value::{Style, Value, alone, binds, both, chosen, chosen_else};
use ast_core::BinaryOp;
use std::alloc::Global;
use text_core::OutOfMemory;

// Whether the innermost binds at least so tightly.
fn is_closed_by(least: u8, frames: &Pile) -> bool
    ensures { result ≡ is_closed_by least (first_of frames.now) }
{
    match frames.top() {
        Some(Frame::Operand(op, _)) => least <= binds(*op),
        Some(Frame::Ahead(_)) => least <= 10,
        Some(Frame::Yes(Style::Bare, _)) => least <= 0,
        Some(Frame::No(Style::Bare, _, _)) => least <= 0,
        _ => false,
    }
}

// A value with what waited for it.
fn fold(alloc: Global, frame: Frame, value: Value) -> Result<Value, OutOfMemory>
    ensures { IfOk result (λ v. value_view v ≡ folded frame (value_view value)) }
{
    match frame {
        Frame::Operand(op, left) => both(alloc, op, left, value),
        Frame::Ahead(op) => alone(alloc, op, value),
        Frame::Yes(style, test) => chosen(alloc, style, test, value.meant),
        Frame::No(style, test, yes) => chosen_else(alloc, style, test, yes, value.meant),
        Frame::Paren => Ok(value),
        Frame::Indexed(_value) => Ok(value),
        Frame::Items(_opener, _items, _unknown) => Ok(value),
        Frame::Putting(_parts, _unknown) => Ok(value),
        Frame::Valued(_pairs, _unknown, _key) => Ok(value),
        Frame::Test => Ok(value),
        Frame::InnerTest => Ok(value),
    }
}

// An operator with its operands; one that groups to the right takes those of its kind before it as well.
#[tactic(auto, using(crate::proofs::Folds::kept_both))]
fn with_left(
    alloc: Global,
    op: BinaryOp,
    left: Value,
    right: Value,
    frames: &mut Pile,
) -> Result<Value, OutOfMemory>
    ensures value { KeepsReduced (binding_of op) (machine.both op (value_view left) (value_view right)) frames.old frames.new result }
    ensures fewer { IfOk result (λ v. length frames.new ≤ length frames.old) }
{
    if binds(op) == 7 {
        return gather(alloc, op, left, right, frames);
    }
    both(alloc, op, left, right)
}

// A value with the frame that waited for it.
#[tactic(auto, using(crate::proofs::Folds::kept_frame, crate::proofs::Folds::kept_operand))]
fn fold_on(
    alloc: Global,
    frame: Frame,
    value: Value,
    frames: &mut Pile,
) -> Result<Value, OutOfMemory>
    ensures value { FoldsOn frame (value_view value) frames.old frames.new result }
    ensures fewer { IfOk result (λ v. length frames.new ≤ length frames.old) }
{
    match frame {
        Frame::Operand(op, left) => with_left(alloc, op, left, value, frames),
        other => fold(alloc, other, value),
    }
}

/// Puts together what binds at least so tightly.
#[tactic(auto, using(crate::proofs::Stacks::reduce_stays, crate::proofs::Stacks::reduce_goes))]
pub(crate) fn reduce(
    alloc: Global,
    least: u8,
    value: Value,
    frames: &mut Pile,
) -> Result<Value, OutOfMemory>
    ensures { IfOk result (λ v. machine.reduce least (value_view value) (seen frames.old) ≡ (value_view v, seen frames.new)) }
{
    let mut value = value;
    'fold: while is_closed_by(least, frames) {
        match frames.pop() {
            Some(frame) => value = fold_on(alloc, frame, value, frames)?,
            None => unreachable!(),
        }
    }
    Ok(value)
}

/// The least binding of a left operand at an operator of this binding.
#[tactic(auto, unfolding(crate::specs::Grammar::left_of))]
pub(crate) fn left_of(binding: u8) -> u8
    ensures { result ≡ left_bound binding }
{
    if binding == 6 {
        7
    } else if binding == 7 {
        8
    } else {
        binding
    }
}

// The least binding of a right operand at an operator of this binding.
#[tactic(auto, unfolding(crate::specs::Grammar::right_of))]
fn right_of(binding: u8) -> u8
    requires { binding < 12 }
    ensures { result ≡ right_bound binding }
{
    if binding == 7 { 7 } else { binding + 1 }
}

/// How tightly what comes next has to be held together.
#[tactic(auto, using(crate::proofs::Stacks::need_first))]
pub(crate) fn need(frames: &Pile) -> u8
    ensures { result ≡ machine.need (seen frames.now) }
{
    match frames.top() {
        Some(Frame::Operand(op, _)) => right_of(binds(*op)),
        Some(Frame::Ahead(_)) => 10,
        Some(Frame::Paren) => 0,
        Some(_) => 1,
        None => 0,
    }
}
