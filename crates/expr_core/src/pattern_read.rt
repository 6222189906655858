//! Patterns, read from their tokens.
ghost use Rattle.std.specs.Prelude.{◌≡◌, ℕ, List, ◌+◌, ◌≤◌, nat_le, option_map};
ghost use Rattle.std.specs.List.{AllByRecursion};
ghost use Rattle.ast_core.specs.PatternView.{pattern_view};
ghost use Rattle.expr_core.specs.Outcome.{outcome_of};
ghost use Rattle.expr_core.specs.PatternMachine as machine;
ghost use Rattle.expr_core.specs.SeenPattern.{piled, state_of, GivesPattern, IsPlain};
ghost use Rattle.expr_core.specs.Gives.{spelled};

use crate::pattern_frame::{PatternFrame, PatternMode};
use crate::pattern_step::step;
use crate::read::{TokenFault, fault_at};
use ast_core::Pattern;
use expr_token::Placed;
use std::alloc::Global;
use text_core::{Names, Seq};

// How much deeper the last token stands than the frames.
fn more_levels(mode: &PatternMode) -> usize
    ensures value { (ns : List (List ℕ)) (fs : machine.Frames) → machine.depth (state_of mode.now ns fs) ≡ machine.nest fs + result }
    ensures small { result ≤ 1 }
{
    match mode {
        PatternMode::WantKey(_) => 1,
        PatternMode::WantColon(_, _) => 1,
        _ => 0,
    }
}

#[tactic(auto, using(crate::proofs::PatternForms::nest_piled))]
fn is_shallow(mode: &PatternMode, frames: &Seq<PatternFrame>) -> bool
    ensures { (ns : List (List ℕ)) → result ≡ nat_le (machine.depth (state_of mode.now ns (piled frames.now))) 64 }
{
    let most = 64 - more_levels(mode);
    frames.len() <= most
}

// What was read, where the text may end here.
fn finished(mode: PatternMode, frames: &Seq<PatternFrame>) -> Option<Pattern>
    ensures { (ns : List (List ℕ)) → machine.finished (state_of mode ns (piled frames.now)) ≡ option_map pattern_view result }
{
    if !frames.is_empty() {
        return None;
    }
    match mode {
        PatternMode::Have(pattern) => Some(pattern),
        _ => None,
    }
}

/// The pattern that tokens are.
pub(crate) fn read_pattern_tokens(alloc: Global, tokens: &[Placed]) -> Result<Pattern, TokenFault>
    requires { AllByRecursion IsPlain (spelled tokens.now) }
    ensures { GivesPattern result (outcome_of machine.pattern_reader (spelled tokens.now)) }
{
    let mut frames = Seq::new(alloc);
    let mut names = Names::new(alloc);
    let mut mode = PatternMode::Want;
    let mut at = 0;
    'each: while at < tokens.len() {
        match step(alloc, &tokens[at].token, mode, &mut names, &mut frames)? {
            None => return Err(fault_at(&tokens[at].token, at)),
            Some(next) => {
                if !is_shallow(&next, &frames) {
                    return Err(TokenFault::TooDeep(at));
                }
                mode = next;
            }
        }
        at += 1;
    }
    match finished(mode, &frames) {
        Some(pattern) => Ok(pattern),
        None => Err(TokenFault::Ended),
    }
}
