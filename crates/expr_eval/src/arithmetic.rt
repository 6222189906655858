//! Whole numbers of 64 bits.
ghost use Rattle.std.specs.Prelude.{◌≡◌, ◌+ℤ◌, ◌-ℤ◌, ◌*ℤ◌, pos, neg_ℤ, int_div, int_rem};
ghost use Rattle.value_core.specs.Value.{whole_number};
ghost use Rattle.value_core.specs.View.{view};
ghost use Rattle.ast_core.specs.declared.operators.UnaryOp.TheVariants.{Minus as Negative};
ghost use Rattle.doc_model.specs.Evaluation.{arithmetic, within, quotient as quotient_of, remainder as remainder_of, absolute as absolute_of, eval_unary};
ghost use Rattle.expr_eval.specs.Gives.{Gives};
ghost use Rattle.expr_eval.specs.Held.{held_view};

use crate::EvalFault;
use crate::held::Held;
use crate::judge::{numbers, were_numbers};
use value_core::{Raise, Value};

pub(crate) fn sum(left: Held<'_>, right: Held<'_>) -> Result<Value, EvalFault>
    ensures { Gives view result (arithmetic (λ x y. x +ℤ y) (held_view left.entry) (held_view right.entry)) }
{
    let (x, y) = were_numbers(left, right)?;
    add(x, y)
}

fn add(x: i64, y: i64) -> Result<Value, EvalFault>
    ensures { Gives view result (within (x +ℤ y)) }
{
    match x.checked_add(y) {
        Some(sum) => Ok(Value::Int(sum)),
        None => Err(EvalFault::Raised(Raise::Range)),
    }
}

pub(crate) fn difference(left: Held<'_>, right: Held<'_>) -> Result<Value, EvalFault>
    ensures { Gives view result (arithmetic (λ x y. x -ℤ y) (held_view left.entry) (held_view right.entry)) }
{
    let (x, y) = were_numbers(left, right)?;
    subtract(x, y)
}

fn subtract(x: i64, y: i64) -> Result<Value, EvalFault>
    ensures { Gives view result (within (x -ℤ y)) }
{
    match x.checked_sub(y) {
        Some(rest) => Ok(Value::Int(rest)),
        None => Err(EvalFault::Raised(Raise::Range)),
    }
}

pub(crate) fn product(left: Held<'_>, right: Held<'_>) -> Result<Value, EvalFault>
    ensures { Gives view result (arithmetic (λ x y. x *ℤ y) (held_view left.entry) (held_view right.entry)) }
{
    let (x, y) = were_numbers(left, right)?;
    multiply(x, y)
}

fn multiply(x: i64, y: i64) -> Result<Value, EvalFault>
    ensures { Gives view result (within (x *ℤ y)) }
{
    match x.checked_mul(y) {
        Some(product) => Ok(Value::Int(product)),
        None => Err(EvalFault::Raised(Raise::Range)),
    }
}

/// The quotient, towards zero.
pub(crate) fn quotient(left: &Value, right: &Value) -> Result<Value, EvalFault>
    ensures { Gives view result (quotient_of (view left.now) (view right.now)) }
{
    let (x, y) = numbers(left, right)?;
    divide(x, y)
}

fn divide(x: i64, y: i64) -> Result<Value, EvalFault>
    ensures { Gives view result (quotient_of (whole_number x) (whole_number y)) }
{
    if y == 0 {
        return Err(EvalFault::Raised(Raise::BadArgument));
    }
    match x.checked_div(y) {
        Some(quotient) => Ok(Value::Int(quotient)),
        None => Err(EvalFault::Raised(Raise::Range)),
    }
}

/// What is left of a quotient towards zero.
pub(crate) fn remainder(left: &Value, right: &Value) -> Result<Value, EvalFault>
    ensures { Gives view result (remainder_of (view left.now) (view right.now)) }
{
    let (x, y) = numbers(left, right)?;
    rest_of(x, y)
}

fn rest_of(x: i64, y: i64) -> Result<Value, EvalFault>
    ensures { Gives view result (remainder_of (whole_number x) (whole_number y)) }
{
    if y == 0 {
        return Err(EvalFault::Raised(Raise::BadArgument));
    }
    match x.checked_rem(y) {
        Some(rest) => Ok(Value::Int(rest)),
        None => Err(EvalFault::Raised(Raise::Range)),
    }
}

pub(crate) fn absolute(value: &Value) -> Result<Value, EvalFault>
    ensures { Gives view result (absolute_of (view value.now)) }
{
    match value {
        Value::Int(x) => unsigned(*x),
        _ => Err(EvalFault::Raised(Raise::BadArgument)),
    }
}

fn unsigned(x: i64) -> Result<Value, EvalFault>
    ensures { Gives view result (absolute_of (whole_number x)) }
{
    match x.checked_abs() {
        Some(size) => Ok(Value::Int(size)),
        None => Err(EvalFault::Raised(Raise::Range)),
    }
}

/// The number with the other sign.
pub(crate) fn negative(value: &Value) -> Result<Value, EvalFault>
    ensures { Gives view result (eval_unary Negative (view value.now)) }
{
    match value {
        Value::Int(x) => negate(*x),
        _ => Err(EvalFault::Raised(Raise::BadArgument)),
    }
}

fn negate(x: i64) -> Result<Value, EvalFault>
    ensures { Gives view result (within (neg_ℤ x)) }
{
    match x.checked_neg() {
        Some(negated) => Ok(Value::Int(negated)),
        None => Err(EvalFault::Raised(Raise::Range)),
    }
}
