//! Lists and texts, added to one another, searched and turned.
ghost use Rattle.std.specs.Prelude.{◌≡◌, ◌++◌, Err, IfErr, IfOk};
ghost use Rattle.value_core.specs.View.{view, values_view};
ghost use Rattle.doc_model.specs.Evaluation.{appended, concatenated, member_of, is_member as is_member_of, reverse_values, append_values};
ghost use Rattle.expr_eval.specs.Gives.{Gives};
ghost use Rattle.expr_eval.specs.Held.{held_view};

use crate::EvalFault;
use crate::held::Held;
use crate::judge::{as_text, into_text, into_values, shallow};
use std::alloc::Global;
use text_core::{OutOfMemory, Seq};
use value_core::{Raise, Value, Values, copy_values, same};

// Both are judged before either is copied.
fn judge_lists(left: &Value, right: &Value) -> Result<(), EvalFault>
    ensures { IfErr result (λ fault. Gives view (Err fault) (appended (view left.now) (view right.now))) }
{
    match (left, right) {
        (Value::List(_), Value::List(_)) => Ok(()),
        _ => Err(EvalFault::Raised(Raise::BadArgument)),
    }
}

/// Two lists, one after the other.
pub(crate) fn append(alloc: Global, left: Held<'_>, right: Held<'_>) -> Result<Value, EvalFault>
    ensures { Gives view result (appended (held_view left.entry) (held_view right.entry)) }
{
    judge_lists(left.value(), right.value())?;
    let items = into_values(left.into_value(alloc)?)?;
    let more = into_values(right.into_value(alloc)?)?;
    let all = followed_by(items, more)?;
    shallow(Value::List(all))
}

fn followed_by(items: Values, more: Values) -> Result<Values, OutOfMemory>
    ensures { IfOk result (λ vs. values_view vs ≡ append_values (values_view items) (values_view more)) }
{
    let mut items = items.into_vec();
    let mut more = more.into_vec();
    items.append(&mut more)?;
    Ok(Seq::from_vec(items))
}

// Both are judged before either is copied.
fn judge_texts(left: &Value, right: &Value) -> Result<(), EvalFault>
    ensures { IfErr result (λ fault. Gives view (Err fault) (concatenated (view left.now) (view right.now))) }
{
    match (left, right) {
        (Value::Text(_), Value::Text(_)) => Ok(()),
        _ => Err(EvalFault::Raised(Raise::BadArgument)),
    }
}

/// Two texts, one after the other.
pub(crate) fn concat(alloc: Global, left: Held<'_>, right: Held<'_>) -> Result<Value, EvalFault>
    ensures { Gives view result (concatenated (held_view left.entry) (held_view right.entry)) }
{
    judge_texts(left.value(), right.value())?;
    let mut text = into_text(left.into_value(alloc)?)?;
    let more = as_text(right.value())?;
    text.push_str(more)?;
    Ok(Value::Text(text))
}

/// Whether a list has an item that is the same.
pub(crate) fn member(value: &Value, among: &Value) -> Result<Value, EvalFault>
    ensures { Gives view result (member_of (view value.now) (view among.now)) }
{
    match among {
        Value::List(items) => Ok(Value::Bool(is_member(value, items))),
        _ => Err(EvalFault::Raised(Raise::BadArgument)),
    }
}

fn is_member(value: &Value, items: &Values) -> bool
    ensures { result ≡ is_member_of (view value.now) (values_view items.now) }
{
    'items: for item in items.as_slice() {
        if same(value, item) {
            return true;
        }
    }
    false
}

/// A list of the same values, from the end.
pub(crate) fn reversed(alloc: Global, items: &Values) -> Result<Values, OutOfMemory>
    ensures { IfOk result (λ vs. values_view vs ≡ reverse_values (values_view items.now)) }
{
    let mut copies = copy_values(alloc, items)?.into_vec();
    copies.reverse();
    Ok(Seq::from_vec(copies))
}
