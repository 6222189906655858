//! What the rows of a loop bind.
ghost use Rattle.std.specs.Prelude.{◌≡◌};
ghost use Rattle.value_core.specs.View.{view, values_view};
ghost use Rattle.ast_core.specs.ExprView.{expr_view};
ghost use Rattle.ast_core.specs.PatternView.{pattern_view};
ghost use Rattle.ast_core.specs.Syntax.{Nodes, for_place};
ghost use Rattle.doc_model.specs.Calls.{items_of};
ghost use Rattle.diff_render.specs.Answers.{Answers};
ghost use Rattle.diff_render.specs.Scope.{AreScopes, AreValues, scope_in};
ghost use Rattle.diff_render.specs.Taken.{looped};

use crate::RenderFault;
use crate::place::value_of;
use ast_core::{Expr, Pattern};
use comprehension::{ItemsFault, bindings, items};
use expr_eval::{Bindings, Variables};
use std::alloc::Global;
use text_core::Seq;
use value_core::{Assigns, Value, Values};

/// What each row of a loop binds: one for each item that matches, in order. It raises where the list does, and where it
/// has no items.
pub(crate) fn row_scopes(
    alloc: Global,
    assigns: &Assigns,
    variables: &Variables,
    list: &Expr,
    pattern: &Pattern,
) -> Result<Seq<Bindings>, RenderFault>
    ensures { (body : Nodes) → Answers (AreScopes assigns.now variables.now) result (looped (scope_in assigns.now variables.now) (for_place (pattern_view pattern.now) (expr_view list.now) body)) }
{
    let list = value_of(alloc, assigns, variables, list)?;
    let items = items_in(alloc, list)?;
    Ok(bindings(alloc, pattern, items)?)
}

// What a loop goes over.
fn items_in(alloc: Global, list: Value) -> Result<Values, RenderFault>
    ensures { Answers AreValues result (items_of (view list)) }
{
    match items(alloc, list) {
        Ok(items) => Ok(items),
        Err(ItemsFault::Raised) => Err(RenderFault::Raised),
        Err(ItemsFault::OutOfMemory) => Err(RenderFault::OutOfMemory),
    }
}
