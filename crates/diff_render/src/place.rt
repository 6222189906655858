//! What a place shows that has nothing inside.
ghost use Rattle.std.specs.Prelude.{ℕ, List};
ghost use Rattle.value_core.specs.View.{view};
ghost use Rattle.ast_core.specs.ExprView.{expr_view};
ghost use Rattle.ast_core.specs.Syntax.{attribute, put, spread};
ghost use Rattle.doc_model.specs.Evaluation.{Res, eval_expr};
ghost use Rattle.attribute_text.specs.Prints.{Prints};
ghost use Rattle.diff_render.specs.Answers.{Shows};
ghost use Rattle.diff_render.specs.Scope.{scope_in};
ghost use Rattle.diff_render.specs.Shown.{printed_html, shown_at, Evaluates};

use crate::RenderFault;
use ast_core::Expr;
use attribute_text::{AttributeFault, attribute_text, spread_text};
use expr_eval::{EvalFault, Variables, eval};
use std::alloc::Global;
use text_core::Text;
use value_core::{Assigns, PrintFault, Value, to_html};

/// What an interpolation shows. It raises where the evaluation does, and where the value can't be shown.
pub(crate) fn show_put(
    alloc: Global,
    assigns: &Assigns,
    variables: &Variables,
    expr: &Expr,
) -> Result<Text, RenderFault>
    ensures { Shows result (shown_at (scope_in assigns.now variables.now) (put (expr_view expr.now))) }
{
    let value = value_of(alloc, assigns, variables, expr)?;
    value_text(alloc, &value)
}

/// What an attribute shows.
pub(crate) fn show_attribute(
    alloc: Global,
    assigns: &Assigns,
    variables: &Variables,
    name: &str,
    expr: &Expr,
) -> Result<Text, RenderFault>
    ensures { Shows result (shown_at (scope_in assigns.now variables.now) (attribute name.now (expr_view expr.now))) }
{
    let value = value_of(alloc, assigns, variables, expr)?;
    told(attribute_text(alloc, name, &value))
}

/// What a spread shows.
pub(crate) fn show_spread(
    alloc: Global,
    assigns: &Assigns,
    variables: &Variables,
    expr: &Expr,
) -> Result<Text, RenderFault>
    ensures { Shows result (shown_at (scope_in assigns.now variables.now) (spread (expr_view expr.now))) }
{
    let value = value_of(alloc, assigns, variables, expr)?;
    told(spread_text(alloc, &value))
}

/// The value of an expression in a template.
pub(crate) fn value_of(
    alloc: Global,
    assigns: &Assigns,
    variables: &Variables,
    expr: &Expr,
) -> Result<Value, RenderFault>
    ensures { Evaluates result (eval_expr (scope_in assigns.now variables.now) (expr_view expr.now)) }
{
    match eval(alloc, assigns, variables, expr) {
        Ok(value) => Ok(value),
        Err(EvalFault::Raised(_)) => Err(RenderFault::Raised),
        Err(EvalFault::OutOfMemory) => Err(RenderFault::OutOfMemory),
    }
}

// The text of a value, escaped.
fn value_text(alloc: Global, value: &Value) -> Result<Text, RenderFault>
    ensures { Shows result (printed_html (view value.now)) }
{
    match to_html(alloc, value) {
        Ok(text) => Ok(text),
        Err(PrintFault::NotPrintable) => Err(RenderFault::Raised),
        Err(PrintFault::OutOfMemory) => Err(RenderFault::OutOfMemory),
    }
}

// What was printed, with the fault of a rendering.
fn told(printed: Result<Text, AttributeFault>) -> Result<Text, RenderFault>
    ensures { (r : Res (List ℕ)) → Prints printed r → Shows result r }
{
    match printed {
        Ok(text) => Ok(text),
        Err(AttributeFault::Raised(_)) => Err(RenderFault::Raised),
        Err(AttributeFault::OutOfMemory) => Err(RenderFault::OutOfMemory),
    }
}
