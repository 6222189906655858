//! What operands and arguments are judged by.
ghost use Rattle.std.specs.Prelude.{◌≡◌, option_map, true, false, not};
ghost use Rattle.std.specs.Ordering.{nat_cmp, match_ordering};
ghost use Rattle.std.specs.Cmp.Lexicographic.{slice_cmp};
ghost use Rattle.value_core.specs.View.{view, values_view};
ghost use Rattle.doc_model.specs.Evaluation.{is_true as is_true_value, is_nil as is_nil_value, less_than, key_of as key_in, shallow as shallow_value, or_raise, on_res};
ghost use Rattle.expr_eval.specs.Gives.{Gives, text_as_is, str_as_is, truth_as_is, pair_as_is};
ghost use Rattle.expr_eval.specs.Held.{held_view};
ghost use Rattle.expr_eval.specs.Operands.{numbers_in, boolean_in, text_in, values_in, decides as decides_alone};

use crate::EvalFault;
use crate::held::Held;
use ast_core::BinaryOp;
use std::cmp::Ordering;
use text_core::Text;
use value_core::{Raise, Value, Values, depth};

// How deep a value may nest.
const MOST_LEVELS: u32 = 100;

/// All but nil and false.
pub fn is_true(value: &Value) -> bool
    ensures { result ≡ is_true_value (view value.now) }
{
    match value {
        Value::Nil => false,
        Value::Bool(b) => *b,
        _ => true,
    }
}

/// Whether the value, which goes, is true.
pub(crate) fn was_true(value: Held<'_>) -> bool
    ensures { result ≡ is_true_value (held_view value.entry) }
{
    is_true(value.value())
}

pub(crate) fn is_nil(value: &Value) -> bool
    ensures { result ≡ is_nil_value (view value.now) }
{
    match value {
        Value::Nil => true,
        _ => false,
    }
}

pub(crate) fn boolean(value: &Value) -> Result<bool, EvalFault>
    ensures { Gives truth_as_is result (boolean_in (view value.now)) }
{
    match value {
        Value::Bool(b) => Ok(*b),
        _ => Err(EvalFault::Raised(Raise::BadBoolean)),
    }
}

pub(crate) fn numbers(left: &Value, right: &Value) -> Result<(i64, i64), EvalFault>
    ensures { Gives pair_as_is result (numbers_in (view left.now) (view right.now)) }
{
    match (left, right) {
        (Value::Int(x), Value::Int(y)) => Ok((*x, *y)),
        _ => Err(EvalFault::Raised(Raise::BadArgument)),
    }
}

/// The two whole numbers that values, which go, are.
pub(crate) fn were_numbers(left: Held<'_>, right: Held<'_>) -> Result<(i64, i64), EvalFault>
    ensures { Gives pair_as_is result (numbers_in (held_view left.entry) (held_view right.entry)) }
{
    numbers(left.value(), right.value())
}

/// The text that a value is, looked at.
pub(crate) fn as_text(value: &Value) -> Result<&str, EvalFault>
    ensures { Gives str_as_is result (text_in (view value.now)) }
{
    match value {
        Value::Text(text) => Ok(text.as_str()),
        _ => Err(EvalFault::Raised(Raise::BadArgument)),
    }
}

/// The text that a value is.
pub(crate) fn into_text(value: Value) -> Result<Text, EvalFault>
    ensures { Gives text_as_is result (text_in (view value)) }
{
    match value {
        Value::Text(text) => Ok(text),
        _ => Err(EvalFault::Raised(Raise::BadArgument)),
    }
}

/// The items of the list that a value is.
pub(crate) fn into_values(value: Value) -> Result<Values, EvalFault>
    ensures { Gives values_view result (values_in (view value)) }
{
    match value {
        Value::List(items) => Ok(items),
        _ => Err(EvalFault::Raised(Raise::BadArgument)),
    }
}

/// The key that a value is: a text or an atom.
pub(crate) fn key_of(value: &Value) -> Option<&str>
    ensures { or_raise (option_map (λ k. k.now) result) Raise.BadArgument ≡ key_in (view value.now) }
{
    match value {
        Value::Text(text) | Value::Atom(text) => Some(text.as_str()),
        _ => None,
    }
}

/// Whether a value is less: of two whole numbers, or of two texts by their bytes.
pub(crate) fn less(left: &Value, right: &Value) -> Result<bool, EvalFault>
    ensures { Gives truth_as_is result (less_than (view left.now) (view right.now)) }
{
    match (left, right) {
        (Value::Int(x), Value::Int(y)) => Ok(*x < *y),
        (Value::Text(x), Value::Text(y)) => Ok(comes_before(x.as_str(), y.as_str())),
        _ => Err(EvalFault::Raised(Raise::BadArgument)),
    }
}

fn comes_before(left: &str, right: &str) -> bool
    ensures { result ≡ match_ordering (slice_cmp nat_cmp left.now right.now) true false false }
{
    match left.cmp(right) {
        Ordering::Less => true,
        Ordering::Equal => false,
        Ordering::Greater => false,
    }
}

/// A value of at most 100 levels.
pub(crate) fn shallow(value: Value) -> Result<Value, EvalFault>
    ensures { Gives view result (shallow_value (view value)) }
{
    if depth(&value) > MOST_LEVELS {
        return Err(EvalFault::Raised(Raise::Deep));
    }
    Ok(value)
}

/// A value that was built, of at most 100 levels.
pub(crate) fn built<'a>(value: Value) -> Result<Held<'a>, EvalFault>
    ensures { Gives held_view result (shallow_value (view value)) }
{
    Ok(Held::Owned(shallow(value)?))
}

/// Whether the left operand of an operator decides alone: it is then the value.
pub(crate) fn decides(op: BinaryOp, left: &Value) -> Result<bool, EvalFault>
    ensures { Gives truth_as_is result (decides_alone op (view left.now)) }
{
    match op {
        BinaryOp::OrElse => Ok(is_true(left)),
        BinaryOp::AndAlso => Ok(!is_true(left)),
        BinaryOp::Or => boolean(left),
        BinaryOp::And => not_boolean(left),
        _ => Ok(false),
    }
}

/// The opposite of a boolean.
pub(crate) fn not_boolean(value: &Value) -> Result<bool, EvalFault>
    ensures { Gives truth_as_is result (on_res not (boolean_in (view value.now))) }
{
    let b = boolean(value)?;
    Ok(!b)
}
