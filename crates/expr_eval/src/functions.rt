//! The functions that an expression may call.
ghost use Rattle.std.specs.Prelude.{◌≡◌, pos, Ok, if◌then◌else◌};
ghost use Rattle.value_core.specs.Value.{whole_number, text};
ghost use Rattle.value_core.specs.View.{view};
ghost use Rattle.doc_model.specs.Evaluation.{call_one, call_two, call_three, eval_function, count_of};
ghost use Rattle.ast_core.specs.declared.operators.Function.TheVariants as function;
ghost use Rattle.expr_eval.specs.Gives.{Gives, number_as_is};
ghost use Rattle.expr_eval.specs.Held.{held_view, held_values};

use crate::EvalFault;
use crate::arithmetic::{absolute, quotient, remainder};
use crate::held::Held;
use crate::judge::{is_nil, less};
use crate::lists::reversed;
use crate::maps::{get, get_or_nil, has_key};
use crate::text::{join, print};
use ast_core::Function;
use std::alloc::Global;
use text_core::Seq;
use value_core::{Raise, Value};

/// A call, whose arguments are there.
pub(crate) fn call<'a>(
    alloc: Global,
    function: Function,
    arguments: Seq<Held<'a>>,
) -> Result<Held<'a>, EvalFault>
    ensures { Gives held_view result (eval_function function (held_values arguments.entry)) }
{
    call_with(alloc, function, arguments.as_slice())
}

fn call_with<'a>(
    alloc: Global,
    function: Function,
    arguments: &[Held<'a>],
) -> Result<Held<'a>, EvalFault>
    ensures { Gives held_view result (eval_function function (held_values arguments.now)) }
{
    match arguments {
        [] => Err(EvalFault::Raised(Raise::BadArgument)),
        [one] => Ok(Held::Owned(call_with_one(alloc, function, one.value())?)),
        [one, two] => call_with_two(alloc, function, one, two),
        [one, two, three] => call_with_three(alloc, function, one, two, three),
        [_, _, _, _, ..] => Err(EvalFault::Raised(Raise::BadArgument)),
    }
}

fn call_with_one(alloc: Global, function: Function, value: &Value) -> Result<Value, EvalFault>
    ensures { Gives view result (call_one function (view value.now)) }
{
    match function {
        Function::Length => length(value),
        Function::IsNil => Ok(Value::Bool(is_nil(value))),
        Function::ToString => Ok(Value::Text(print(alloc, value)?)),
        Function::Abs => absolute(value),
        Function::Count => number_of(count(value)?),
        Function::IsEmpty => Ok(Value::Bool(count(value)? == 0)),
        Function::Join => joined_with(alloc, value, ""),
        Function::Reverse => reverse(alloc, value),
        _ => Err(EvalFault::Raised(Raise::BadArgument)),
    }
}

fn call_with_two<'a>(
    alloc: Global,
    function: Function,
    one: &Held<'a>,
    two: &Held<'a>,
) -> Result<Held<'a>, EvalFault>
    ensures { Gives held_view result (call_two function (held_view one.now) (held_view two.now)) }
{
    match function {
        Function::Div => Ok(Held::Owned(quotient(one.value(), two.value())?)),
        Function::Rem => Ok(Held::Owned(remainder(one.value(), two.value())?)),
        Function::Max => either(alloc, less(one.value(), two.value())?, two, one),
        Function::Min => either(alloc, less(two.value(), one.value())?, two, one),
        Function::Join => Ok(Held::Owned(join_by(alloc, one.value(), two.value())?)),
        Function::Get => get_or_nil(alloc, one, two.value()),
        Function::HasKey => Ok(Held::Owned(Value::Bool(has_key(one.value(), two.value())?))),
        _ => Err(EvalFault::Raised(Raise::BadArgument)),
    }
}

fn call_with_three<'a>(
    alloc: Global,
    function: Function,
    one: &Held<'a>,
    two: &Held<'a>,
    three: &Held<'a>,
) -> Result<Held<'a>, EvalFault>
    ensures { Gives held_view result (call_three function (held_view one.now) (held_view two.now) (held_view three.now)) }
{
    match function {
        Function::Get => get(alloc, one, two.value(), three),
        _ => Err(EvalFault::Raised(Raise::BadArgument)),
    }
}

// The first value where it is chosen, else the second.
fn either<'a>(
    alloc: Global,
    is_first: bool,
    first: &Held<'a>,
    second: &Held<'a>,
) -> Result<Held<'a>, EvalFault>
    ensures { Gives held_view result (Ok (if is_first then held_view first.now else held_view second.now)) }
{
    if is_first {
        Ok(first.again(alloc)?)
    } else {
        Ok(second.again(alloc)?)
    }
}

fn length(value: &Value) -> Result<Value, EvalFault>
    ensures { Gives view result (call_one function.Length (view value.now)) }
{
    match value {
        Value::List(items) => number_of(items.len()),
        _ => Err(EvalFault::Raised(Raise::BadArgument)),
    }
}

// How many items or entries there are.
fn count(value: &Value) -> Result<usize, EvalFault>
    ensures { Gives number_as_is result (count_of (view value.now)) }
{
    match value {
        Value::List(items) => Ok(items.len()),
        Value::Map(entries) => Ok(entries.len()),
        _ => Err(EvalFault::Raised(Raise::BadArgument)),
    }
}

// A count as a number: what is in memory has fewer than 2^63 parts.
fn number_of(count: usize) -> Result<Value, EvalFault>
    ensures { Gives view result (Ok (whole_number (pos count))) }
{
    match i64::try_from(count) {
        Ok(number) => Ok(Value::Int(number)),
        Err(_) => Err(EvalFault::OutOfMemory),
    }
}

fn joined_with(alloc: Global, value: &Value, between: &str) -> Result<Value, EvalFault>
    ensures { Gives view result (call_two function.Join (view value.now) (text between.now)) }
{
    match value {
        Value::List(items) => Ok(Value::Text(join(alloc, items, between)?)),
        _ => Err(EvalFault::Raised(Raise::BadArgument)),
    }
}

fn join_by(alloc: Global, value: &Value, between: &Value) -> Result<Value, EvalFault>
    ensures { Gives view result (call_two function.Join (view value.now) (view between.now)) }
{
    match between {
        Value::Text(between) => joined_with(alloc, value, between.as_str()),
        _ => Err(EvalFault::Raised(Raise::BadArgument)),
    }
}

fn reverse(alloc: Global, value: &Value) -> Result<Value, EvalFault>
    ensures { Gives view result (call_one function.Reverse (view value.now)) }
{
    match value {
        Value::List(items) => Ok(Value::List(reversed(alloc, items)?)),
        _ => Err(EvalFault::Raised(Raise::BadArgument)),
    }
}
