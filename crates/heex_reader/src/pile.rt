//! What is open, as a pile.
ghost use Rattle.std.specs.Prelude.{◌≡◌, ◌∷◌, [], length, OnOk, MatchOption};
ghost use Rattle.std.specs.Option.{option_copied};
ghost use Rattle.heex_reader.specs.Seen.{first_of};

use crate::frame::Frame;
use std::alloc::Global;
use std::marker::Model;
use text_core::{OutOfMemory, Seq};

/// What is open, the innermost first.
#[derive(Drop)]
pub(crate) struct Pile {
    frames: Seq<Frame>,
}

impl Model for Pile {
    ghost use Rattle.std.specs.Prelude.{List};
    ghost use Rattle.heex_reader.specs.declared.frame.Frame.{Frame};
    ghost use Rattle.heex_reader.specs.Stack.{stack};
    ghost use Rattle.std.specs.Coded.{codes};
    ghost use Rattle.ast_core.specs.contracts.expr.Expr as e;
    ghost use Rattle.ast_core.specs.contracts.pattern.Pattern as p;
    ghost use Rattle.ast_core.specs.contracts.node.Node as n;
    ghost use Rattle.ast_core.specs.contracts.node.Clause as c;
    ghost use Rattle.ast_core.specs.contracts.node.Entry as t;

    ghost Value = { List Frame };

    ghost coded = { Prim.hlevel (codes, e.the_row.coded, p.the_row.coded, n.the_row.coded, c.the_row.coded, t.the_row.coded) };

    ghost view = { λ p. stack p.frames };
}

impl Pile {
    /// Nothing is open.
    pub(crate) fn new(alloc: Global) -> Pile
        ensures { result ≡ [] }
    {
        Pile {
            frames: Seq::new(alloc),
        }
    }

    /// How many tags and blocks are open.
    #[tactic(auto, using(crate::proofs::Stacks::stack_length))]
    pub(crate) fn len(&self) -> usize
        ensures { result ≡ length self.now }
    {
        self.frames.len()
    }

    /// Opens something.
    #[tactic(auto, using(crate::proofs::Stacks::stack_push))]
    pub(crate) fn push(&mut self, frame: Frame) -> Result<(), OutOfMemory>
        ensures { OnOk result (self.new ≡ frame ∷ self.old) }
    {
        self.frames.push(frame)
    }

    /// Ends the innermost.
    #[tactic(auto, using(crate::proofs::Stacks::stack_push))]
    pub(crate) fn pop(&mut self) -> Option<Frame>
        ensures { MatchOption result ((self.old ≡ []) × (self.new ≡ [])) (λ frame. self.old ≡ frame ∷ self.new) }
    {
        self.frames.pop()
    }

    /// The innermost.
    #[tactic(auto, using(crate::proofs::Stacks::top_last))]
    pub(crate) fn top(&self) -> Option<&Frame>
        ensures { option_copied result ≡ first_of self.now }
    {
        self.frames.as_slice().last()
    }
}
