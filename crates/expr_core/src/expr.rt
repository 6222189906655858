//! Texts, read as expressions and patterns.
ghost use Rattle.std.specs.Prelude.{◌≡◌, IfOk, IfErr};
ghost use Rattle.ast_core.specs.ExprView.{expr_view};
ghost use Rattle.ast_core.specs.PatternView.{pattern_view};
ghost use Rattle.expr_core.specs.Answers.{SpellsExpr, expr_of, pattern_of, tokens_of};
ghost use Rattle.expr_core.specs.Language.{Spells};
ghost use Rattle.expr_core.specs.PatternGrammar.{patterns};
ghost use Rattle.expr_core.specs.Gives.{Answered, AnsweredPattern, RefusedRightly, PatternRefusedRightly};

use crate::answer::{expr_from, pattern_from};
use crate::fault::ExprFault;
use ast_core::{Expr, Pattern};
use expr_token::lex;
use std::alloc::Global;

/// The expression that a text is, in which each call names a function. Otherwise `Refused`, with the byte of the first
/// token that begins no expression with what stands before it, or of what is left open, or the text's length.
#[tactic(auto, using(crate::proofs::Told::answer_told, crate::proofs::Told::expr_found, crate::proofs::Told::expr_refused))]
pub fn read_expr(alloc: Global, text: &str) -> Result<Expr, ExprFault>
    ensures answer { Answered result (expr_of text.now) }
    ensures found { IfOk result (λ e. SpellsExpr text.now (expr_view e)) }
    ensures refused { IfErr result (λ fault. RefusedRightly text.now fault) }
{
    let tokens = lex(alloc, text)?;
    expr_from(alloc, tokens.list.as_slice(), tokens.unclosed, text.len())
}

/// The pattern that a text is; no name stands in it twice. Otherwise `Refused`, as at an expression.
#[tactic(auto, using(crate::proofs::Told::answer_told, crate::proofs::Told::pattern_found, crate::proofs::Told::pattern_refused, crate::proofs::Plain::plain_tokens))]
pub fn read_pattern(alloc: Global, text: &str) -> Result<Pattern, ExprFault>
    ensures answer { AnsweredPattern result (pattern_of text.now) }
    ensures found { IfOk result (λ p. Spells patterns (tokens_of text.now) (pattern_view p)) }
    ensures refused { IfErr result (λ fault. PatternRefusedRightly text.now fault) }
{
    let tokens = lex(alloc, text)?;
    pattern_from(alloc, tokens.list.as_slice(), tokens.unclosed, text.len())
}
