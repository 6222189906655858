//! Expressions, read from their tokens.
ghost use Rattle.std.specs.Prelude.{◌≡◌, ℕ, ◌+◌, ◌≤◌, IfOk, nat_le, option_map, if◌then◌else◌};
ghost use Rattle.expr_core.specs.Grammar as grammar;
ghost use Rattle.expr_core.specs.Machine as machine;
ghost use Rattle.expr_core.specs.Outcome.{Outcome, too_deep, at_end, on_step, outcome_of};
ghost use Rattle.expr_core.specs.Seen.{value_view, meant_view, style_view, seen, state_of};
ghost use Rattle.expr_core.specs.Gives.{Gives, Leads, fault_of, spelled};

use crate::frame::Mode;
use crate::pile::Pile;
use crate::reduce::reduce;
use crate::step::step;
use crate::value::{Meant, Style, Value};
use expr_token::{Placed, Token};
use std::alloc::Global;
use text_core::OutOfMemory;

/// Why tokens are not read, with the number of the token that is at fault.
#[derive(Clone, Copy)]
pub(crate) enum TokenFault {
    Stray(usize),
    BadNumber(usize),
    TooDeep(usize),
    /// More was needed.
    Ended,
    OutOfMemory,
}

impl From<OutOfMemory> for TokenFault {
    ghost use Rattle.std.specs.Prelude.{◌≡◌};
    ghost use Rattle.expr_core.specs.declared.read.TokenFault.TheVariants.{OutOfMemory};

    ghost from_gives = { λ _ e. e ≡ OutOfMemory };

    fn from(_e: OutOfMemory) -> TokenFault {
        TokenFault::OutOfMemory
    }
}

/// No token goes on like this.
pub(crate) fn fault_at(token: &Token, at: usize) -> TokenFault
    ensures { result ≡ fault_of token.now at }
{
    match token {
        Token::BadNumber => TokenFault::BadNumber(at),
        _ => TokenFault::Stray(at),
    }
}

fn style_levels(style: Style) -> usize
    ensures value { (n : ℕ) → grammar.deeper (style_view style) n ≡ n + result }
    ensures small { result ≤ 2 }
{
    match style {
        Style::Bare => 1,
        Style::Inside => 2,
    }
}

// How much deeper the last token stands than the frames.
fn more_levels(mode: &Mode) -> usize
    ensures value { (fs : machine.Frames) → machine.depth (state_of mode.now fs) ≡ machine.nest fs + result }
    ensures small { result ≤ 2 }
{
    match mode {
        Mode::WantIf => 1,
        Mode::WantDo(style, _) => style_levels(*style),
        Mode::WantElse(style, _, _) => style_levels(*style),
        Mode::WantKey(_, _) => 1,
        Mode::WantColon(_, _, _) => 1,
        Mode::WantQuote(_, _, _) => 1,
        Mode::WantArrow(_, _, _) => 1,
        _ => 0,
    }
}

fn is_shallow(mode: &Mode, frames: &Pile) -> bool
    ensures { result ≡ nat_le (machine.depth (state_of mode.now (seen frames.now))) 64 }
{
    let most = 64 - more_levels(mode);
    frames.depth() <= most
}

fn ended(alloc: Global, value: Value, frames: Pile) -> Result<Option<Meant>, OutOfMemory>
    ensures { IfOk result (λ meant. machine.meant_by (machine.ends (machine.reduce 0 (value_view value) (seen frames))) ≡ option_map meant_view meant) }
{
    let mut frames = frames;
    let value = reduce(alloc, 0, value, &mut frames)?;
    match frames.pop() {
        None => Ok(Some(value.meant)),
        Some(_frame) => Ok(None),
    }
}

// What was read, where the text may end here.
#[tactic(auto, using(crate::proofs::Turns::unfinished))]
fn finished(alloc: Global, mode: Mode, frames: Pile) -> Result<Option<Meant>, OutOfMemory>
    ensures { IfOk result (λ meant. machine.meant_by (machine.finished (state_of mode (seen frames))) ≡ option_map meant_view meant) }
{
    match mode {
        Mode::Have(value) => ended(alloc, value, frames),
        _other => Ok(None),
    }
}

// What was read, or that more was needed.
fn last_meant(alloc: Global, mode: Mode, frames: Pile) -> Result<Meant, TokenFault>
    ensures { Gives result (at_end (machine.meant_by (machine.finished (state_of mode (seen frames))))) }
{
    match finished(alloc, mode, frames)? {
        Some(meant) => Ok(meant),
        None => Err(TokenFault::Ended),
    }
}

// What comes next, unless the n-th token stands too deep.
fn if_shallow(mode: Mode, frames: &Pile, at: usize) -> Result<Mode, TokenFault>
    ensures { (go : machine.State → Outcome grammar.Meant) → Leads result (seen frames.now) go (if nat_le (machine.depth (state_of mode (seen frames.now))) 64 then go (state_of mode (seen frames.now)) else too_deep at) }
{
    if is_shallow(&mode, frames) {
        Ok(mode)
    } else {
        Err(TokenFault::TooDeep(at))
    }
}

// The n-th token.
fn turn(
    alloc: Global,
    token: &Token,
    at: usize,
    mode: Mode,
    frames: &mut Pile,
) -> Result<Mode, TokenFault>
    ensures { (go : machine.State → Outcome grammar.Meant) → Leads result (seen frames.new) go (on_step machine.depth go token.now at (machine.step (state_of mode (seen frames.old)) token.now)) }
{
    match step(alloc, token, mode, frames)? {
        Some(next) => if_shallow(next, frames, at),
        None => Err(fault_at(token, at)),
    }
}

/// What tokens mean.
pub(crate) fn read_tokens(alloc: Global, tokens: &[Placed]) -> Result<Meant, TokenFault>
    ensures { Gives result (outcome_of machine.expr_reader (spelled tokens.now)) }
{
    let mut frames = Pile::new(alloc);
    let mut mode = Mode::Want;
    let mut at = 0;
    'each: while at < tokens.len() {
        mode = turn(alloc, &tokens[at].token, at, mode, &mut frames)?;
        at += 1;
    }
    last_meant(alloc, mode, frames)
}
