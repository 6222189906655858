//! The operators, where both operands are there.
ghost use Rattle.std.specs.Prelude.{◌≡◌};
ghost use Rattle.value_core.specs.Value.{boolean, same as same_value};
ghost use Rattle.value_core.specs.View.{view};
ghost use Rattle.doc_model.specs.Evaluation.{eval_unary, eval_binary, less_than, member_of};
ghost use Rattle.expr_eval.specs.Gives.{Gives, truth_as_is};
ghost use Rattle.expr_eval.specs.Held.{held_view};

use crate::EvalFault;
use crate::arithmetic::{difference, negative, product, sum};
use crate::held::Held;
use crate::judge::{is_true, less, not_boolean};
use crate::lists::{append, concat, member};
use ast_core::{BinaryOp, UnaryOp};
use std::alloc::Global;
use value_core::{Value, same};

/// An operator before its operand.
pub(crate) fn unary<'a>(op: UnaryOp, value: Held<'_>) -> Result<Held<'a>, EvalFault>
    ensures { Gives held_view result (eval_unary op (held_view value.entry)) }
{
    Ok(Held::Owned(unary_of(op, value.value())?))
}

fn unary_of(op: UnaryOp, value: &Value) -> Result<Value, EvalFault>
    ensures { Gives view result (eval_unary op (view value.now)) }
{
    match op {
        UnaryOp::Minus => negative(value),
        UnaryOp::Bang => Ok(Value::Bool(!is_true(value))),
        UnaryOp::Not => Ok(Value::Bool(not_boolean(value)?)),
    }
}

/// An operator between two operands: of a boolean one whose left operand decides nothing, the right is the value.
pub(crate) fn binary<'a>(
    alloc: Global,
    op: BinaryOp,
    left: Held<'a>,
    right: Held<'a>,
) -> Result<Held<'a>, EvalFault>
    ensures { Gives held_view result (eval_binary op (held_view left.entry) (held_view right.entry)) }
{
    match op {
        BinaryOp::OrElse | BinaryOp::Or | BinaryOp::AndAlso | BinaryOp::And => {
            Ok(second(left, right))
        }
        BinaryOp::Append => Ok(Held::Owned(append(alloc, left, right)?)),
        BinaryOp::Concat => Ok(Held::Owned(concat(alloc, left, right)?)),
        BinaryOp::Equal => Ok(truth(are_same(left, right))),
        BinaryOp::Unequal => Ok(truth(!are_same(left, right))),
        BinaryOp::Less => Ok(truth(is_less(left, right)?)),
        BinaryOp::Greater => Ok(truth(is_less(right, left)?)),
        BinaryOp::AtMost => Ok(truth(!is_less(right, left)?)),
        BinaryOp::AtLeast => Ok(truth(!is_less(left, right)?)),
        BinaryOp::Member => Ok(Held::Owned(is_in(left, right)?)),
        BinaryOp::Plus => Ok(Held::Owned(sum(left, right)?)),
        BinaryOp::Minus => Ok(Held::Owned(difference(left, right)?)),
        BinaryOp::Times => Ok(Held::Owned(product(left, right)?)),
    }
}

fn second<'a>(_left: Held<'a>, right: Held<'a>) -> Held<'a>
    ensures { held_view result ≡ held_view right.entry }
{
    right
}

fn truth<'a>(is_so: bool) -> Held<'a>
    ensures { held_view result ≡ boolean is_so }
{
    Held::Owned(Value::Bool(is_so))
}

fn are_same(left: Held<'_>, right: Held<'_>) -> bool
    ensures { result ≡ same_value (held_view left.entry) (held_view right.entry) }
{
    same(left.value(), right.value())
}

fn is_less(left: Held<'_>, right: Held<'_>) -> Result<bool, EvalFault>
    ensures { Gives truth_as_is result (less_than (held_view left.entry) (held_view right.entry)) }
{
    less(left.value(), right.value())
}

fn is_in(left: Held<'_>, right: Held<'_>) -> Result<Value, EvalFault>
    ensures { Gives view result (member_of (held_view left.entry) (held_view right.entry)) }
{
    member(left.value(), right.value())
}
