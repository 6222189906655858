//! The expressions, patterns and generators in a file.
ghost use Rattle.std.specs.Prelude.{◌≡◌, Some, None, length, IfErr};
ghost use Rattle.ast_core.specs.ExprView.{expr_view};
ghost use Rattle.ast_core.specs.PatternView.{pattern_view};
ghost use Rattle.ast_core.specs.NodeView.{generator_view};
ghost use Rattle.expr_core.specs.Answers.{expr_of, pattern_of};
ghost use Rattle.expr_core.specs.Gives.{Answered, AnsweredPattern};
ghost use Rattle.heex_reader.specs.Pieces.{expr_at, pattern_at, generator_at, generator_by, arrow_from};
ghost use Rattle.heex_reader.specs.SeenSigns.{Given, HasRoom, FaultHasRoom, StandsWithin, placed_fault};
ghost use Rattle.heex_reader.specs.declared.arrow.Quoting.TheVariants.{Outside};

use crate::TemplateKind;
use crate::arrow::find_arrow;
use ast_core::{Expr, Generator, Pattern};
use expr_core::{ExprFault, ExprKind, read_expr, read_pattern};
use std::alloc::Global;
use text_core::OutOfMemory;

/// Why a text was not read.
#[derive(Debug, Drop)]
pub(crate) enum PieceFault {
    /// It is refused at this byte of the file.
    Faulty { at: usize, kind: TemplateKind },
    /// There was not memory enough.
    OutOfMemory,
}

impl From<OutOfMemory> for PieceFault {
    ghost use Rattle.std.specs.Prelude.{◌≡◌};
    ghost use Rattle.heex_reader.specs.declared.piece.PieceFault.TheVariants.{OutOfMemory};

    ghost from_gives = { λ _ e. e ≡ OutOfMemory };

    fn from(_e: OutOfMemory) -> PieceFault {
        PieceFault::OutOfMemory
    }
}

// What is wrong in the file with a text that begins at this byte.
fn placed(at: usize, fault: ExprFault) -> PieceFault
    requires { FaultHasRoom at fault }
    ensures { result ≡ placed_fault at fault }
{
    match fault {
        ExprFault::Refused { at: place, kind } => PieceFault::Faulty {
            at: at + place,
            kind: TemplateKind::BadExpr(kind),
        },
        ExprFault::OutOfMemory => PieceFault::OutOfMemory,
    }
}

/// The expression that a text is; a fault stands in the text or at its end.
pub(crate) fn read_expr_within(alloc: Global, text: &str) -> Result<Expr, ExprFault>
    ensures answer { Answered result (expr_of text.now) }
    ensures within { IfErr result (λ f. StandsWithin (length text.now) f) }
{
    read_expr(alloc, text)
}

// The pattern that a text is; a fault stands in the text or at its end.
fn read_pattern_within(alloc: Global, text: &str) -> Result<Pattern, ExprFault>
    ensures answer { AnsweredPattern result (pattern_of text.now) }
    ensures within { IfErr result (λ f. StandsWithin (length text.now) f) }
{
    read_pattern(alloc, text)
}

/// The expression that a text is, which begins at this byte of the file.
pub(crate) fn expr_at(alloc: Global, at: usize, text: &str) -> Result<Expr, PieceFault>
    requires { HasRoom at text.now }
    ensures { Given expr_view result (expr_at at text.now) }
{
    match read_expr_within(alloc, text) {
        Ok(expr) => Ok(expr),
        Err(fault) => Err(placed(at, fault)),
    }
}

/// The pattern that a text is, which begins at this byte of the file.
pub(crate) fn pattern_at(alloc: Global, at: usize, text: &str) -> Result<Pattern, PieceFault>
    requires { HasRoom at text.now }
    ensures { Given pattern_view result (pattern_at at text.now) }
{
    match read_pattern_within(alloc, text) {
        Ok(pattern) => Ok(pattern),
        Err(fault) => Err(placed(at, fault)),
    }
}

// A text without an arrow: where it is a pattern, its end is at fault.
fn without_arrow(alloc: Global, at: usize, text: &str) -> Result<Generator, PieceFault>
    requires { HasRoom at text.now }
    ensures { Given generator_view result (generator_by None at text.now) }
{
    match pattern_at(alloc, at, text) {
        Ok(_pattern) => Err(PieceFault::Faulty {
            at: at + text.len(),
            kind: TemplateKind::BadExpr(ExprKind::Stray),
        }),
        Err(fault) => Err(fault),
    }
}

// A pattern, behind so many bytes an arrow, and then an expression.
fn with_arrow(alloc: Global, at: usize, text: &str, cut: usize) -> Result<Generator, PieceFault>
    requires room { HasRoom at text.now }
    requires arrow { arrow_from Outside text.now ≡ Some cut }
    ensures { Given generator_view result (generator_by (Some cut) at text.now) }
{
    let behind = cut + 2;
    let pattern = pattern_at(alloc, at, &text[..cut])?;
    let list = expr_at(alloc, at + behind, &text[behind..])?;
    Ok(Generator { pattern, list })
}

/// The generator that a text is, which begins at this byte of the file.
pub(crate) fn generator_at(alloc: Global, at: usize, text: &str) -> Result<Generator, PieceFault>
    requires { HasRoom at text.now }
    ensures { Given generator_view result (generator_at at text.now) }
{
    match find_arrow(text.as_bytes()) {
        Some(cut) => with_arrow(alloc, at, text, cut),
        None => without_arrow(alloc, at, text),
    }
}
