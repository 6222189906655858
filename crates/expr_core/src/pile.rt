//! What is begun, as a pile.
ghost use Rattle.std.specs.Prelude.{◌≡◌, ◌+◌, ◌≤◌, ◌∷◌, [], OnOk, MatchOption};
ghost use Rattle.std.specs.Option.{option_copied};
ghost use Rattle.expr_core.specs.Machine.{nest};
ghost use Rattle.expr_core.specs.Seen.{seen, first_of, level, style_level};

use crate::frame::Frame;
use crate::value::Style;
use std::alloc::Global;
use std::marker::Model;
use text_core::{OutOfMemory, Seq};

fn style_level(style: Style) -> usize
    ensures { result ≡ style_level style }
{
    match style {
        Style::Bare => 1,
        Style::Inside => 2,
    }
}

// How many levels a frame is.
fn level(frame: &Frame) -> usize
    ensures value { result ≡ level frame.now }
    ensures small { result ≤ 2 }
{
    match frame {
        Frame::Operand(_, _) => 0,
        Frame::Ahead(_) => 1,
        Frame::Paren => 1,
        Frame::Indexed(_) => 1,
        Frame::Items(_, _, _) => 1,
        Frame::Putting(_, _) => 1,
        Frame::Valued(_, _, _) => 1,
        Frame::Test => 1,
        Frame::InnerTest => 2,
        Frame::Yes(style, _) => style_level(*style),
        Frame::No(style, _, _) => style_level(*style),
    }
}

/// What is begun and waits for more, the innermost first.
#[derive(Drop)]
pub(crate) struct Pile {
    frames: Seq<Frame>,
    depth: usize,
}

impl Model for Pile {
    ghost use Rattle.std.specs.Prelude.{List};
    ghost use Rattle.expr_core.specs.declared.frame.Frame.{Frame};
    ghost use Rattle.expr_core.specs.Seen.{stack, Counts};
    ghost use Rattle.std.specs.Coded.{codes};
    ghost use Rattle.ast_core.specs.contracts.expr.Expr as e;
    ghost use Rattle.ast_core.specs.contracts.expr.Pair as p;
    ghost use Rattle.ast_core.specs.contracts.expr.TextPart as t;

    ghost Value = { List Frame };

    ghost coded = { Prim.hlevel (codes, e.the_row.coded, p.the_row.coded, t.the_row.coded) };

    ghost view = { λ p. stack p.frames };

    ghost invariant = { λ p. Counts p.depth p.frames };
}

impl Pile {
    /// Nothing is begun.
    pub(crate) fn new(alloc: Global) -> Pile
        ensures { result ≡ [] }
    {
        Pile {
            frames: Seq::new(alloc),
            depth: 0,
        }
    }

    /// How deep it stands.
    pub(crate) fn depth(&self) -> usize
        ensures { result ≡ nest (seen self.now) }
    {
        self.depth
    }

    /// Begins something.
    #[tactic(auto, using(crate::proofs::Stacks::stack_push))]
    pub(crate) fn push(&mut self, frame: Frame) -> Result<(), OutOfMemory>
        ensures { OnOk result (self.new ≡ frame ∷ self.old) }
    {
        let more = level(&frame);
        self.frames.push(frame)?;
        let _many = self.frames.as_slice().len();
        self.depth += more;
        Ok(())
    }

    /// Ends the innermost.
    #[tactic(auto, using(crate::proofs::Stacks::stack_push))]
    pub(crate) fn pop(&mut self) -> Option<Frame>
        ensures { MatchOption result ((self.old ≡ []) × (self.new ≡ [])) (λ frame. self.old ≡ frame ∷ self.new) }
    {
        let frame = self.frames.pop()?;
        self.depth -= level(&frame);
        Some(frame)
    }

    /// The innermost.
    #[tactic(auto, using(crate::proofs::Stacks::top_last))]
    pub(crate) fn top(&self) -> Option<&Frame>
        ensures { option_copied result ≡ first_of self.now }
    {
        self.frames.as_slice().last()
    }
}
