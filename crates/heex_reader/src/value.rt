//! Interpolations, and those that render a slot.
ghost use Rattle.std.specs.Prelude.{◌≡◌, ◌≤◌, ◌<◌, ◌+◌, ◌^◌, length, codes, true, map, IfOk, option_map};
ghost use Rattle.ast_core.specs.ExprView.{expr_view, exprs_of};
ghost use Rattle.ast_core.specs.NodeView.{place_view};
ghost use Rattle.expr_core.specs.Answers.{Refusal, expr_of};
ghost use Rattle.heex_reader.specs.Pieces.{ends_on, before_end, calls_render_slot, as_list, rendered, rendered_by, value_or, slot_sign, refused_value, value_sign};
ghost use Rattle.heex_reader.specs.SeenSigns.{sign_view, HasRoom};
ghost use Rattle.heex_reader.specs.Signs as signs;
ghost use Rattle.heex_reader.specs.declared.fault.TemplateKind.TheVariants as template_kind;

use crate::TemplateKind;
use crate::piece::read_expr_within;
use crate::sign::Sign;
use crate::white::{before_end, behind, white_before};
use ast_core::{Expr, Exprs, Place};
use expr_core::{ExprFault, ExprKind};
use std::alloc::Global;
use text_core::{OutOfMemory, Text};

// Whether a text calls `render_slot` at this place and nothing else.
fn calls_render_slot(place: usize, text: &str) -> bool
    ensures { result ≡ calls_render_slot place text.now }
{
    let bytes = text.as_bytes();
    let white = white_before(bytes);
    if place != white {
        return false;
    }
    if !bytes.split_at(place).1.starts_with(b"render_slot(") {
        return false;
    }
    before_end(text, ")").is_some()
}

// A text without the `)` at its end.
fn before_round(text: &str) -> &str
    requires { ends_on (codes ")") text.now ≡ true }
    ensures { result.now ≡ before_end (codes ")") text.now }
{
    match before_end(text, ")") {
        Some(inner) => inner,
        None => "",
    }
}

// The arguments of `render_slot` as a list, with each item at the same place.
fn as_list(alloc: Global, text: &str, place: usize) -> Result<Text, OutOfMemory>
    requires { calls_render_slot place text.now ≡ true }
    ensures { IfOk result (λ t. t ≡ as_list text.now) }
{
    let inner = before_round(text);
    let rest = behind(inner, place + 12);
    let mut list = Text::copy_of(alloc, &text[..place])?;
    list.push_str("           [")?;
    list.push_str(rest)?;
    list.push_str("]")?;
    Ok(list)
}

// The rendering of a slot with these arguments: its entries, and perhaps an argument for them.
fn rendered(arguments: Exprs) -> Option<Place>
    ensures { option_map place_view result ≡ rendered (exprs_of (map expr_view arguments)) }
{
    let mut arguments = arguments;
    let last = arguments.pop()?;
    let Some(first) = arguments.pop() else {
        return Some(Place::RenderSlot {
            value: last,
            argument: None,
        });
    };
    if !arguments.is_empty() {
        return None;
    }
    Some(Place::RenderSlot {
        value: first,
        argument: Some(last),
    })
}

// The rendering of a slot whose arguments are a list, also where a chain has that alone.
fn rendered_by(list: Expr) -> Option<Place>
    ensures { option_map place_view result ≡ rendered_by (expr_view list) }
{
    match list {
        Expr::List(arguments) => rendered(arguments),
        Expr::Path { value, steps } => {
            if !steps.is_empty() {
                return None;
            }
            rendered_by(Box::into_inner(value))
        }
        Expr::LeftChain { first, rest } => {
            if !rest.is_empty() {
                return None;
            }
            rendered_by(Box::into_inner(first))
        }
        Expr::RightChain { first, rest } => {
            if !rest.is_empty() {
                return None;
            }
            rendered_by(Box::into_inner(first))
        }
        Expr::Pipes { first, calls } => {
            if !calls.is_empty() {
                return None;
            }
            rendered_by(Box::into_inner(first))
        }
        _ => None,
    }
}

// What is wrong with an expression in a text that begins at this byte.
fn broken(at: usize, place: usize, kind: ExprKind) -> Sign
    requires { at + place < 2 ^ 64 }
    ensures { sign_view result ≡ signs.broken (at + place) (template_kind.BadExpr kind) }
{
    Sign::Broken {
        at: at + place,
        kind: TemplateKind::BadExpr(kind),
    }
}

// The rendering of a slot, or what is wrong where there is none.
fn value_or(at: usize, place: usize, kind: ExprKind, rendered: Option<Place>) -> Sign
    requires { at + place < 2 ^ 64 }
    ensures { sign_view result ≡ value_or at (record { place = place; kind = kind }) (option_map place_view rendered) }
{
    match rendered {
        Some(rendered) => Sign::Value(rendered),
        None => broken(at, place, kind),
    }
}

// A call of `render_slot` at this place, by its arguments.
fn slot_sign(
    alloc: Global,
    at: usize,
    text: &str,
    place: usize,
    kind: ExprKind,
) -> Result<Sign, OutOfMemory>
    requires room { HasRoom at text.now }
    requires within { place ≤ length text.now }
    requires calls { calls_render_slot place text.now ≡ true }
    ensures { IfOk result (λ s. sign_view s ≡ slot_sign at (record { place = place; kind = kind }) (expr_of (as_list text.now))) }
{
    let list = as_list(alloc, text, place)?;
    match read_expr_within(alloc, list.as_str()) {
        Ok(expr) => Ok(value_or(at, place, kind, rendered_by(expr))),
        Err(
            ExprFault::Refused {
                at: inner,
                kind: ExprKind::UnknownFunction,
            },
        ) => Ok(broken(at, inner, ExprKind::UnknownFunction)),
        Err(ExprFault::Refused { at: _, kind: _ }) => Ok(broken(at, place, kind)),
        Err(ExprFault::OutOfMemory) => Err(OutOfMemory),
    }
}

// A text with a fault at this place, as an expression.
fn refused_value(
    alloc: Global,
    at: usize,
    text: &str,
    place: usize,
    kind: ExprKind,
) -> Result<Sign, OutOfMemory>
    requires room { HasRoom at text.now }
    requires within { place ≤ length text.now }
    ensures { IfOk result (λ s. sign_view s ≡ refused_value at text.now (record { place = place; kind = kind })) }
{
    match kind {
        ExprKind::UnknownFunction => {
            if calls_render_slot(place, text) {
                slot_sign(alloc, at, text, place, kind)
            } else {
                Ok(broken(at, place, kind))
            }
        }
        _ => Ok(broken(at, place, kind)),
    }
}

/// An interpolation whose text begins at this byte.
pub(crate) fn value_sign(alloc: Global, at: usize, text: &str) -> Result<Sign, OutOfMemory>
    requires { HasRoom at text.now }
    ensures { IfOk result (λ s. sign_view s ≡ value_sign at text.now) }
{
    match read_expr_within(alloc, text) {
        Ok(expr) => Ok(Sign::Value(Place::Put(expr))),
        Err(ExprFault::Refused { at: place, kind }) => refused_value(alloc, at, text, place, kind),
        Err(ExprFault::OutOfMemory) => Err(OutOfMemory),
    }
}
