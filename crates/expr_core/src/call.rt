//! Lists that end: calls, lists, tuples and maps, and the items that go into them.
ghost use Rattle.std.specs.Prelude.{◌≡◌, ◌∷◌, ◌++◌, [], IfOk, map};
ghost use Rattle.ast_core.specs.Syntax as model;
ghost use Rattle.ast_core.specs.ExprView.{expr_view, exprs_of, expr_part};
ghost use Rattle.ast_core.specs.NamesIn.{part_view, pair_view};
ghost use Rattle.expr_core.specs.Grammar.{plain_parts};
ghost use Rattle.expr_core.specs.Machine as machine;
ghost use Rattle.expr_core.specs.Seen.{value_view, opener_view};

use crate::frame::Opener;
use crate::functions::{earlier, function_of, if_unknown, known};
use crate::value::{Callee, Meant, Value, closed};
use ast_core::{Expr, Function, Pair, PipeCall, TextPart};
use std::alloc::Global;
use text_core::{OutOfMemory, Seq, Text};

// The value of a call.
#[tactic(auto, using(crate::proofs::Forms::call_seen, crate::proofs::Forms::unknown_seen))]
fn finish_call(callee: Callee, items: Seq<Expr>, unknown: Option<usize>) -> Value
    ensures { value_view result ≡ machine.finish (machine.calling callee.at callee.name) (map expr_view items) unknown }
{
    let function = function_of(callee.name.as_str(), items.as_slice().len());
    let unknown = earlier(if_unknown(callee.at, function), unknown);
    let function = known(function);
    closed(
        Expr::Call {
            function,
            arguments: items,
        },
        unknown,
    )
}

// A call behind `|>`: pipes go on.
fn piped(
    alloc: Global,
    left: Expr,
    function: Function,
    arguments: Seq<Expr>,
) -> Result<Expr, OutOfMemory>
    ensures { IfOk result (λ e. expr_view e ≡ model.call_of function (model.expr (expr_view left) (exprs_of (map expr_view arguments)))) }
{
    let call = PipeCall {
        function,
        arguments,
    };
    match left {
        Expr::Pipes { first, calls } => {
            let mut calls = calls;
            calls.push(call)?;
            Ok(Expr::Pipes { first, calls })
        }
        other => {
            let mut calls = Seq::new(alloc);
            calls.push(call)?;
            let first = Box::new(alloc, other)?;
            Ok(Expr::Pipes { first, calls })
        }
    }
}

// The value of a call behind `|>`.
#[tactic(auto, using(crate::proofs::Forms::pipe_seen, crate::proofs::Forms::pipe_unknown))]
fn finish_pipe(
    alloc: Global,
    left: Value,
    callee: Callee,
    items: Seq<Expr>,
    unknown: Option<usize>,
) -> Result<Value, OutOfMemory>
    ensures { IfOk result (λ v. value_view v ≡ machine.finish (machine.piping (value_view left) callee.at callee.name) (map expr_view items) unknown) }
{
    let function = function_of(callee.name.as_str(), items.as_slice().len() + 1);
    let unknown = earlier(if_unknown(callee.at, function), unknown);
    let unknown = earlier(left.meant.unknown, unknown);
    let expr = piped(alloc, left.meant.expr, known(function), items)?;
    Ok(Value {
        meant: Meant { expr, unknown },
        holds: 5,
        denies: left.denies,
        callee: None,
    })
}

/// The value of a list that has ended.
#[tactic(auto, using(crate::proofs::Forms::sees_list, crate::proofs::Forms::sees_tuple))]
pub(crate) fn finish(
    alloc: Global,
    opener: Opener,
    items: Seq<Expr>,
    unknown: Option<usize>,
) -> Result<Value, OutOfMemory>
    ensures { IfOk result (λ v. value_view v ≡ machine.finish (opener_view opener) (map expr_view items) unknown) }
{
    match opener {
        Opener::Listing => Ok(closed(Expr::List(items), unknown)),
        Opener::Tupling => Ok(closed(Expr::Tuple(items), unknown)),
        Opener::Calling(callee) => Ok(finish_call(callee, items, unknown)),
        Opener::Piping(left, callee) => finish_pipe(alloc, left, callee, items, unknown),
    }
}

/// The value of a map that has ended.
#[tactic(auto, using(crate::proofs::Forms::sees_map))]
pub(crate) fn map_from(pairs: Seq<Pair>, unknown: Option<usize>) -> Value
    ensures { value_view result ≡ machine.map_from (map pair_view pairs) unknown }
{
    closed(Expr::Map(pairs), unknown)
}

/// Items with one more.
#[tactic(auto, using(crate::proofs::Forms::items_more))]
pub(crate) fn with_item(items: Seq<Expr>, item: Expr) -> Result<Seq<Expr>, OutOfMemory>
    ensures { IfOk result (λ es. map expr_view es ≡ map expr_view items ++ expr_view item ∷ []) }
{
    let mut items = items;
    items.push(item)?;
    Ok(items)
}

/// Entries of a map with one more.
#[tactic(auto, using(crate::proofs::Forms::pairs_more))]
pub(crate) fn with_pair(pairs: Seq<Pair>, key: Text, value: Expr) -> Result<Seq<Pair>, OutOfMemory>
    ensures { IfOk result (λ ps. map pair_view ps ≡ map pair_view pairs ++ (key, expr_view value) ∷ []) }
{
    let mut pairs = pairs;
    pairs.push(Pair { key, value })?;
    Ok(pairs)
}

/// Pieces of a text with an expression behind them.
#[tactic(auto, using(crate::proofs::Forms::parts_more, crate::proofs::Forms::sees_put))]
pub(crate) fn with_part(parts: Seq<TextPart>, expr: Expr) -> Result<Seq<TextPart>, OutOfMemory>
    ensures { IfOk result (λ ps. map part_view ps ≡ map part_view parts ++ expr_part (expr_view expr) ∷ []) }
{
    let mut parts = parts;
    parts.push(TextPart::Put(expr))?;
    Ok(parts)
}

/// Pieces of a text with characters behind them, where there are some.
#[tactic(auto, using(crate::proofs::Forms::parts_more, crate::proofs::Forms::sees_plain, crate::proofs::Forms::plain_some, crate::proofs::Forms::plain_none))]
pub(crate) fn with_plain(
    alloc: Global,
    parts: Seq<TextPart>,
    text: &Text,
) -> Result<Seq<TextPart>, OutOfMemory>
    ensures { IfOk result (λ ps. map part_view ps ≡ map part_view parts ++ plain_parts text.now) }
{
    if text.is_empty() {
        return Ok(parts);
    }
    let mut parts = parts;
    parts.push(TextPart::Plain(text.copy(alloc)?))?;
    Ok(parts)
}
