//! Operators that group to the right, taken back from the last.
ghost use Rattle.std.specs.Prelude.{◌≡◌, Ok, map};
ghost use Rattle.expr_eval.specs.Chains.{back, waiting_view};
ghost use Rattle.expr_eval.specs.Gives.{Gives};
ghost use Rattle.expr_eval.specs.Held.{held_view};

use crate::EvalFault;
use crate::held::Held;
use crate::operators::binary;
use ast_core::BinaryOp;
use std::alloc::Global;
use text_core::Seq;

/// A left value that waits for its right operand.
#[derive(Debug, Drop)]
pub(crate) struct Waiting<'a> {
    pub(crate) op: BinaryOp,
    pub(crate) left: Held<'a>,
}

/// The values that wait, each with what stands to its right, from the last one.
pub(crate) fn take_back<'a>(
    alloc: Global,
    waiting: Seq<Waiting<'a>>,
    last: Held<'a>,
) -> Result<Held<'a>, EvalFault>
    ensures { Gives held_view result (back (map waiting_view waiting.entry) (Ok (held_view last.entry))) }
{
    let mut waiting = waiting;
    let mut value = last;
    'waiting: while let Some(Waiting { op, left }) = waiting.pop() {
        value = binary(alloc, op, left, value)?;
    }
    Ok(value)
}
