//! Operators that group to the right, put together at once.
ghost use Rattle.std.specs.Prelude.{◌≡◌, ℕ, ◌≤◌, ◌∷◌, [], IfOk, true, length, Some};
ghost use Rattle.expr_core.specs.Grammar.{binds as binding_of};
ghost use Rattle.expr_core.specs.Machine as machine;
ghost use Rattle.expr_core.specs.Seen.{value_view, seen, first_of, folded};
ghost use Rattle.expr_core.specs.Gathers.{groups_right, gathered_view};

use crate::frame::Frame;
use crate::functions::earlier;
use crate::pile::Pile;
use crate::value::{Meant, Value, binds};
use ast_core::{BinaryOp, Expr, Operand};
use std::alloc::Global;
use text_core::{OutOfMemory, Seq};

/// The first operand of operators that group to the right, and the others behind it, the last one first.
#[derive(Drop)]
struct Gathered {
    first: Value,
    behind: Seq<Operand>,
    unknown: Option<usize>,
}

// Whether the innermost is an operator that groups to the right.
fn groups_right(frames: &Pile) -> bool
    ensures { result ≡ groups_right (first_of frames.now) }
{
    match frames.top() {
        Some(Frame::Operand(op, _)) => binds(*op) == 7,
        _ => false,
    }
}

// The last two operands.
#[tactic(auto, using(crate::proofs::Chains::right_front, crate::proofs::Forms::sees_operand))]
fn begun(alloc: Global, op: BinaryOp, left: Value, right: Value) -> Result<Gathered, OutOfMemory>
    requires { binding_of op ≡ 7 }
    ensures { IfOk result (λ g. gathered_view g ≡ machine.both op (value_view left) (value_view right)) }
{
    let unknown = earlier(left.meant.unknown, right.meant.unknown);
    let mut behind = Seq::new(alloc);
    let value = right.meant.expr;
    behind.push(Operand { op, value })?;
    Ok(Gathered {
        first: left,
        behind,
        unknown,
    })
}

// One more operand before the first.
fn one_more(gathered: Gathered, op: BinaryOp, left: Value) -> Result<Gathered, OutOfMemory>
    requires { binding_of op ≡ 7 }
    ensures { IfOk result (λ g. gathered_view g ≡ machine.both op (value_view left) (gathered_view gathered)) }
{
    let Gathered {
        first,
        behind,
        unknown,
    } = gathered;
    let unknown = earlier(left.meant.unknown, unknown);
    let mut behind = behind;
    let value = first.meant.expr;
    behind.push(Operand { op, value })?;
    Ok(Gathered {
        first: left,
        behind,
        unknown,
    })
}

// The innermost operator with its left operand, before the others.
fn with_frame(gathered: Gathered, frame: Frame) -> Result<Gathered, OutOfMemory>
    requires { groups_right (Some frame) ≡ true }
    ensures { IfOk result (λ g. gathered_view g ≡ folded frame (gathered_view gathered)) }
{
    match frame {
        Frame::Operand(op, left) => one_more(gathered, op, left),
        Frame::Ahead(_op) => Ok(gathered),
        Frame::Paren => Ok(gathered),
        Frame::Indexed(_value) => Ok(gathered),
        Frame::Items(_opener, _items, _unknown) => Ok(gathered),
        Frame::Putting(_parts, _unknown) => Ok(gathered),
        Frame::Valued(_pairs, _unknown, _key) => Ok(gathered),
        Frame::Yes(_style, _test) => Ok(gathered),
        Frame::No(_style, _test, _yes) => Ok(gathered),
        Frame::Test => Ok(gathered),
        Frame::InnerTest => Ok(gathered),
    }
}

// The chain.
fn chain(alloc: Global, gathered: Gathered) -> Result<Value, OutOfMemory>
    ensures { IfOk result (λ v. value_view v ≡ gathered_view gathered) }
{
    let Gathered {
        first,
        behind,
        unknown,
    } = gathered;
    let mut rest = behind.into_vec();
    rest.reverse();
    let denies = first.denies;
    let first = Box::new(alloc, first.meant.expr)?;
    let rest = Seq::from_vec(rest);
    Ok(Value {
        meant: Meant {
            expr: Expr::RightChain { first, rest },
            unknown,
        },
        holds: 7,
        denies,
        callee: None,
    })
}

/// An operator that groups to the right with its operands, and those of its kind before it.
#[tactic(auto, using(crate::proofs::Chains::reduce_right))]
pub(crate) fn gather(
    alloc: Global,
    op: BinaryOp,
    left: Value,
    right: Value,
    frames: &mut Pile,
) -> Result<Value, OutOfMemory>
    requires { binding_of op ≡ 7 }
    ensures value { IfOk result (λ v. (n : ℕ) → n ≤ 7 → machine.reduce n (machine.both op (value_view left) (value_view right)) (seen frames.old) ≡ machine.reduce n (value_view v) (seen frames.new)) }
    ensures fewer { IfOk result (λ v. length frames.new ≤ length frames.old) }
{
    let mut gathered = begun(alloc, op, left, right)?;
    'each: while groups_right(frames) {
        match frames.pop() {
            Some(frame) => gathered = with_frame(gathered, frame)?,
            None => unreachable!(),
        }
    }
    chain(alloc, gathered)
}
