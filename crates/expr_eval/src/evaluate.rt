//! The value of an expression.
ghost use Rattle.std.specs.Prelude.{◌≡◌, ◌++◌, ℕ, List, Option, Ok, map};
ghost use Rattle.value_core.specs.View.{view, values_view, assigns_view};
ghost use Rattle.ast_core.specs.ExprView.{expr_view, exprs_view, parts_of, pairs_of};
ghost use Rattle.ast_core.specs.NamesIn.{part_view, pair_view, step_view, operand_view, call_view};
ghost use Rattle.doc_model.specs.Environment.{Stream, Component};
ghost use Rattle.doc_model.specs.Evaluation.{eval_expr, eval_exprs, eval_pairs, eval_parts, on_res};
ghost use Rattle.expr_eval.specs.Chains.{chain, operand_on, step_on, call_on, right_on, part_text, prepend};
ghost use Rattle.expr_eval.specs.Gives.{Gives, text_as_is};
ghost use Rattle.expr_eval.specs.Held.{held_view, held_values};
ghost use Rattle.expr_eval.specs.Scope.{env_of, env_over, env_with, place_view};

use crate::functions::call;
use crate::held::Held;
use crate::judge::{built, decides, was_true};
use crate::maps::{copied, field, found, index};
use crate::operators::{binary, unary};
use crate::right_chain::{Waiting, take_back};
use crate::scope::Scope;
use crate::text::printed_out;
use crate::{EvalFault, Variables};
use ast_core::{Expr, Exprs, Operand, Pairs, Parts, PathStep, PipeCall, TextPart};
use std::alloc::Global;
use text_core::{ByKey, Seq, Text};
use value_core::{Assigns, Raise, Value, Values};

/// The value of an expression, where these assigns and variables are in scope. It raises exactly where the definition
/// does, with the same kind.
pub fn eval(
    alloc: Global,
    assigns: &Assigns,
    variables: &Variables,
    expr: &Expr,
) -> Result<Value, EvalFault>
    ensures { (streams : Option (List ℕ → Stream)) → (components : List Component)
        → Gives view result (eval_expr (env_with assigns.now variables.now streams components) (expr_view expr.now)) }
{
    let given = ByKey::new(alloc);
    eval_over(alloc, &given, assigns, variables, expr)
}

/// The value of an expression, where some given assigns stand over the others.
pub fn eval_over(
    alloc: Global,
    given: &Assigns,
    assigns: &Assigns,
    variables: &Variables,
    expr: &Expr,
) -> Result<Value, EvalFault>
    ensures { (streams : Option (List ℕ → Stream)) → (components : List Component)
        → Gives view result (eval_expr (env_over given.now assigns.now variables.now streams components) (expr_view expr.now)) }
{
    let scope = Scope {
        given,
        assigns,
        variables,
    };
    value_of(alloc, expr, scope)
}

// The value of an expression, for a result that owns it.
#[cycle(eval)]
fn value_of(alloc: Global, expr: &Expr, scope: Scope<'_>) -> Result<Value, EvalFault>
    ensures { Gives view result (eval_expr (env_of scope.entry) (expr_view expr.now)) }
{
    let held = held_of(alloc, expr, scope)?;
    Ok(held.into_value(alloc)?)
}

// The value of an expression: one that stands in scope is not copied.
#[cycle(eval)]
fn held_of<'a>(alloc: Global, expr: &Expr, scope: Scope<'a>) -> Result<Held<'a>, EvalFault>
    ensures { Gives held_view result (eval_expr (env_of scope.entry) (expr_view expr.now)) }
{
    match expr {
        Expr::Number(n) => Ok(Held::Owned(Value::Int(*n))),
        Expr::Text(parts) => Ok(Held::Owned(Value::Text(text_of(alloc, parts, scope)?))),
        Expr::Atom(name) => Ok(Held::Owned(Value::Atom(name.copy(alloc)?))),
        Expr::Nil => Ok(Held::Owned(Value::Nil)),
        Expr::Bool(b) => Ok(Held::Owned(Value::Bool(*b))),
        Expr::Assign(name) => found(scope.assign(name.as_str()), Raise::NoAssign),
        Expr::Name(name) => found(scope.variable(name.as_str()), Raise::NoVariable),
        Expr::List(items) => built(Value::List(values_of(alloc, items, scope)?)),
        Expr::Tuple(items) => built(Value::Tuple(values_of(alloc, items, scope)?)),
        Expr::Map(pairs) => built(Value::Map(entries_of(alloc, pairs, scope)?)),
        Expr::Path { value, steps } => path(alloc, steps, held_of(alloc, value, scope)?, scope),
        Expr::Unary { op, value } => unary(*op, held_of(alloc, value, scope)?),
        Expr::LeftChain { first, rest } => {
            left_chain(alloc, rest, held_of(alloc, first, scope)?, scope)
        }
        Expr::RightChain { first, rest } => {
            right_chain(alloc, rest, held_of(alloc, first, scope)?, scope)
        }
        Expr::If { test, yes, no } => {
            if was_true(held_of(alloc, test, scope)?) {
                return held_of(alloc, yes, scope);
            }
            match no {
                Some(no) => held_of(alloc, no, scope),
                None => Ok(Held::Owned(Value::Nil)),
            }
        }
        Expr::Call {
            function,
            arguments,
        } => call(
            alloc,
            *function,
            arguments_on(alloc, arguments, Seq::new(alloc), scope)?,
        ),
        Expr::Pipes { first, calls } => {
            pipes(alloc, calls, held_of(alloc, first, scope)?, scope)
        }
    }
}

#[cycle(eval)]
fn values_of(alloc: Global, exprs: &Exprs, scope: Scope<'_>) -> Result<Values, EvalFault>
    ensures { Gives values_view result (eval_exprs (env_of scope.entry) (exprs_view exprs.now)) }
{
    let mut values = Seq::new(alloc);
    'exprs: for expr in exprs.as_slice() {
        let value = value_of(alloc, expr, scope)?;
        values.push(value)?;
    }
    Ok(values)
}

// The arguments of a call, behind those that are there.
#[cycle(eval)]
fn arguments_on<'a>(
    alloc: Global,
    exprs: &Exprs,
    given: Seq<Held<'a>>,
    scope: Scope<'a>,
) -> Result<Seq<Held<'a>>, EvalFault>
    ensures { Gives held_values result (prepend (map held_view given.entry) (eval_exprs (env_of scope.entry) (exprs_view exprs.now))) }
{
    let mut arguments = given;
    'exprs: for expr in exprs.as_slice() {
        let argument = held_of(alloc, expr, scope)?;
        arguments.push(argument)?;
    }
    Ok(arguments)
}

// The entries of a map: of equal keys the last holds.
#[cycle(eval)]
fn entries_of(alloc: Global, pairs: &Pairs, scope: Scope<'_>) -> Result<Assigns, EvalFault>
    ensures { Gives assigns_view result (eval_pairs (env_of scope.entry) (pairs_of (map pair_view pairs.now))) }
{
    let mut entries = ByKey::new(alloc);
    'pairs: for pair in pairs.as_slice() {
        let value = value_of(alloc, &pair.value, scope)?;
        entries.insert(pair.key.copy(alloc)?, value)?;
    }
    Ok(entries)
}

#[cycle(eval)]
fn text_of(alloc: Global, parts: &Parts, scope: Scope<'_>) -> Result<Text, EvalFault>
    ensures { Gives text_as_is result (eval_parts (env_of scope.entry) (parts_of (map part_view parts.now))) }
{
    let mut text = Text::new(alloc);
    'parts: for part in parts.as_slice() {
        let more = part_of(alloc, part, scope)?;
        text.push_str(more.as_str())?;
    }
    Ok(text)
}

#[cycle(eval)]
fn part_of(alloc: Global, part: &TextPart, scope: Scope<'_>) -> Result<Text, EvalFault>
    ensures { Gives text_as_is result (part_text (env_of scope.entry) (part_view part.now)) }
{
    match part {
        TextPart::Plain(text) => Ok(text.copy(alloc)?),
        TextPart::Put(expr) => {
            let value = held_of(alloc, expr, scope)?;
            printed_out(alloc, value)
        }
    }
}

// The value that steps lead to: a part of what stands in scope stands there too.
#[cycle(eval)]
fn path<'a>(
    alloc: Global,
    steps: &Seq<PathStep>,
    from: Held<'a>,
    scope: Scope<'_>,
) -> Result<Held<'a>, EvalFault>
    ensures { Gives held_view result (chain (step_on (env_of scope.entry)) (Ok (held_view from.entry)) (map step_view steps.now)) }
{
    match from {
        Held::Borrowed(from) => Ok(Held::at(walk(alloc, steps, from, scope)?)),
        Held::Owned(from) => Ok(Held::Owned(part_copied(alloc, steps, &from, scope)?)),
    }
}

#[cycle(eval)]
fn part_copied(
    alloc: Global,
    steps: &Seq<PathStep>,
    from: &Value,
    scope: Scope<'_>,
) -> Result<Value, EvalFault>
    ensures { Gives view result (chain (step_on (env_of scope.entry)) (Ok (view from.now)) (map step_view steps.now)) }
{
    copied(alloc, walk(alloc, steps, from, scope)?)
}

#[cycle(eval)]
fn walk<'a>(
    alloc: Global,
    steps: &Seq<PathStep>,
    from: &'a Value,
    scope: Scope<'_>,
) -> Result<Option<&'a Value>, EvalFault>
    ensures { Gives place_view result (chain (step_on (env_of scope.entry)) (Ok (view from.now)) (map step_view steps.now)) }
{
    let mut at = Some(from);
    'steps: for step in steps.as_slice() {
        at = go_into(alloc, step, at, scope)?;
    }
    Ok(at)
}

#[cycle(eval)]
fn go_into<'a>(
    alloc: Global,
    step: &PathStep,
    at: Option<&'a Value>,
    scope: Scope<'_>,
) -> Result<Option<&'a Value>, EvalFault>
    ensures { Gives place_view result (step_on (env_of scope.entry) (step_view step.now) (place_view at.entry)) }
{
    match step {
        PathStep::Field(key) => field(at, key.as_str()),
        PathStep::Index(expr) => {
            let key = held_of(alloc, expr, scope)?;
            index(at, key)
        }
    }
}

#[cycle(eval)]
fn left_chain<'a>(
    alloc: Global,
    rest: &Seq<Operand>,
    first: Held<'a>,
    scope: Scope<'a>,
) -> Result<Held<'a>, EvalFault>
    ensures { Gives held_view result (chain (operand_on (env_of scope.entry)) (Ok (held_view first.entry)) (map operand_view rest.now)) }
{
    let mut value = first;
    'rest: for operand in rest.as_slice() {
        value = operate(alloc, operand, value, scope)?;
    }
    Ok(value)
}

#[cycle(eval)]
fn operate<'a>(
    alloc: Global,
    operand: &Operand,
    left: Held<'a>,
    scope: Scope<'a>,
) -> Result<Held<'a>, EvalFault>
    ensures { Gives held_view result (operand_on (env_of scope.entry) (operand_view operand.now) (held_view left.entry)) }
{
    if decides(operand.op, left.value())? {
        return Ok(left);
    }
    let right = held_of(alloc, &operand.value, scope)?;
    binary(alloc, operand.op, left, right)
}

// The operands from the left, each behind the values that wait for it, until one decides or all are there.
#[cycle(eval)]
fn right_chain<'a>(
    alloc: Global,
    rest: &Seq<Operand>,
    first: Held<'a>,
    scope: Scope<'a>,
) -> Result<Held<'a>, EvalFault>
    ensures { Gives held_view result (right_on (env_of scope.entry) (held_view first.entry) (map operand_view rest.now)) }
{
    let mut waiting = Seq::new(alloc);
    let mut last = first;
    'rest: for operand in rest.as_slice() {
        if decides(operand.op, last.value())? {
            return take_back(alloc, waiting, last);
        }
        let right = held_of(alloc, &operand.value, scope)?;
        let op = operand.op;
        waiting.push(Waiting { op, left: last })?;
        last = right;
    }
    take_back(alloc, waiting, last)
}

#[cycle(eval)]
fn pipes<'a>(
    alloc: Global,
    calls: &Seq<PipeCall>,
    first: Held<'a>,
    scope: Scope<'a>,
) -> Result<Held<'a>, EvalFault>
    ensures { Gives held_view result (chain (call_on (env_of scope.entry)) (Ok (held_view first.entry)) (map call_view calls.now)) }
{
    let mut value = first;
    'calls: for pipe in calls.as_slice() {
        value = call_with(alloc, pipe, value, scope)?;
    }
    Ok(value)
}

#[cycle(eval)]
fn call_with<'a>(
    alloc: Global,
    pipe: &PipeCall,
    first: Held<'a>,
    scope: Scope<'a>,
) -> Result<Held<'a>, EvalFault>
    ensures { Gives held_view result (call_on (env_of scope.entry) (call_view pipe.now) (held_view first.entry)) }
{
    let mut given = Seq::new(alloc);
    given.push(first)?;
    let arguments = arguments_on(alloc, &pipe.arguments, given, scope)?;
    call(alloc, pipe.function, arguments)
}
