//! The answers of texts, from their tokens.
ghost use Rattle.std.specs.Prelude.{◌≡◌, Ok};
ghost use Rattle.std.specs.List.{AllByRecursion};
ghost use Rattle.expr_core.specs.Answers.{byte_of, known_or};
ghost use Rattle.expr_core.specs.Machine.{expr_reader};
ghost use Rattle.expr_core.specs.PatternMachine.{pattern_reader};
ghost use Rattle.expr_core.specs.SeenPattern.{IsPlain};
ghost use Rattle.expr_core.specs.Outcome.{outcome_of};
ghost use Rattle.expr_core.specs.Gives.{spelled, end_place, end_kind, FaultTold, Answered, AnsweredPattern, answer_of};
ghost use Rattle.expr_core.specs.declared.fault.ExprFault.TheVariants as fault;
ghost use Rattle.ast_core.specs.ExprView.{expr_view};

use crate::fault::{ExprFault, ExprKind};
use crate::pattern_read::read_pattern_tokens;
use crate::read::{TokenFault, read_tokens};
use crate::value::Meant;
use ast_core::{Expr, Pattern};
use expr_token::{Opened, Placed};
use std::alloc::Global;
use text_core::OutOfMemory;

impl From<OutOfMemory> for ExprFault {
    ghost use Rattle.std.specs.Prelude.{◌≡◌};
    ghost use Rattle.expr_core.specs.declared.fault.ExprFault.TheVariants.{OutOfMemory};

    ghost from_gives = { λ _ e. e ≡ OutOfMemory };

    fn from(_e: OutOfMemory) -> ExprFault {
        ExprFault::OutOfMemory
    }
}

// The byte of the n-th token.
#[tactic(auto, using(crate::proofs::Told::byte_at, crate::proofs::Told::byte_none))]
fn byte_of(tokens: &[Placed], n: usize) -> usize
    ensures { result ≡ byte_of tokens.now n }
{
    match tokens.get(n) {
        Some(placed) => placed.at,
        None => 0,
    }
}

// More was needed where a text of this length ends.
fn refused_end(unclosed: Option<Opened>, size: usize) -> ExprFault
    ensures { result ≡ fault.Refused (end_place unclosed size) (end_kind unclosed) }
{
    match unclosed {
        Some(opened) => refused(opened.at, ExprKind::Unclosed),
        None => refused(size, ExprKind::Stray),
    }
}

fn refused(at: usize, kind: ExprKind) -> ExprFault
    ensures { result ≡ fault.Refused at kind }
{
    ExprFault::Refused { at, kind }
}

/// The fault of a text of this length, whose tokens are these.
pub(crate) fn fault_in(
    tokens: &[Placed],
    unclosed: Option<Opened>,
    size: usize,
    fault: TokenFault,
) -> ExprFault
    ensures { FaultTold tokens.now unclosed size fault result }
{
    match fault {
        TokenFault::Stray(n) => refused(byte_of(tokens, n), ExprKind::Stray),
        TokenFault::BadNumber(n) => refused(byte_of(tokens, n), ExprKind::BadNumber),
        TokenFault::TooDeep(n) => refused(byte_of(tokens, n), ExprKind::TooDeep),
        TokenFault::Ended => refused_end(unclosed, size),
        TokenFault::OutOfMemory => ExprFault::OutOfMemory,
    }
}

// An expression, unless a call in it names no function.
fn known_or(meant: Meant) -> Result<Expr, ExprFault>
    ensures { Answered result (known_or (expr_view meant.expr) meant.unknown) }
{
    match meant.unknown {
        None => Ok(meant.expr),
        Some(at) => Err(refused(at, ExprKind::UnknownFunction)),
    }
}

/// The answer of a text of this length, whose tokens are these.
#[tactic(auto, using(crate::proofs::Told::fault_told))]
pub(crate) fn expr_from(
    alloc: Global,
    tokens: &[Placed],
    unclosed: Option<Opened>,
    size: usize,
) -> Result<Expr, ExprFault>
    ensures { Answered result (answer_of (λ m. known_or m.expr m.unknown) tokens.now unclosed size (outcome_of expr_reader (spelled tokens.now))) }
{
    match read_tokens(alloc, tokens) {
        Ok(meant) => known_or(meant),
        Err(fault) => Err(fault_in(tokens, unclosed, size, fault)),
    }
}

/// The answer of a text of this length, whose tokens are these, as a pattern.
#[tactic(auto, using(crate::proofs::Told::fault_told))]
pub(crate) fn pattern_from(
    alloc: Global,
    tokens: &[Placed],
    unclosed: Option<Opened>,
    size: usize,
) -> Result<Pattern, ExprFault>
    requires { AllByRecursion IsPlain (spelled tokens.now) }
    ensures { AnsweredPattern result (answer_of (λ p. Ok p) tokens.now unclosed size (outcome_of pattern_reader (spelled tokens.now))) }
{
    match read_pattern_tokens(alloc, tokens) {
        Ok(pattern) => Ok(pattern),
        Err(fault) => Err(fault_in(tokens, unclosed, size, fault)),
    }
}
