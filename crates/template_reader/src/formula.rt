//! The reader of the expressions in bundles.
ghost use Rattle.std.specs.Prelude.{◌≡◌, IfOk, option_map};
ghost use Rattle.ast_core.specs.ExprView.{expr_view};
ghost use Rattle.template_reader.specs.Formula.{formula_of, without_streams};

use ast_core::Expr;
use expr_core::{ExprFault, read_expr};
use slot_compile::Formula;
use std::alloc::Global;
use text_core::OutOfMemory;

// An expression, unless it reads the streams.
fn without_streams(alloc: Global, expr: Expr) -> Result<Option<Formula>, OutOfMemory>
    ensures { IfOk result (λ f. option_map expr_view f ≡ without_streams (expr_view expr)) }
{
    let formula = Formula::of(alloc, expr)?;
    if formula.reads_assign("streams") {
        return Ok(None);
    }
    Ok(Some(formula))
}

/// The expression that a text is; none where it is no expression, or one that reads the streams.
pub fn read_formula(alloc: Global, text: &str) -> Result<Option<Formula>, OutOfMemory>
    ensures { IfOk result (λ f. option_map expr_view f ≡ formula_of text.now) }
{
    match read_expr(alloc, text) {
        Ok(expr) => without_streams(alloc, expr),
        Err(ExprFault::Refused { at: _, kind: _ }) => Ok(None),
        Err(ExprFault::OutOfMemory) => Err(OutOfMemory),
    }
}
