//! Trees and diffs read from JSON.
ghost use Rattle.std.specs.Prelude.{◌≡◌, true, false, IfOk, IsErrOf};
ghost use Rattle.serde_json.specs.View.{view};
ghost use Rattle.diff_tree.specs.Grammar.{is_diff};
ghost use Rattle.diff_tree.specs.Parts.{diff_data};
ghost use Rattle.wire_v2.specs.FrameGrammar.{is_tree};

use crate::message::MessageFault;
use crate::wholes::is_whole;
use diff_tree::{Diff, DiffFault, read_diff_value};
use serde_json::Value as Json;
use std::alloc::Global;

/// The diff that a JSON value is.
pub fn read_page(alloc: Global, value: &Json) -> Result<Diff, MessageFault>
    ensures ok { IfOk result (λ d. (is_diff (view value.now) ≡ true) × (diff_data d ≡ view value.now)) }
    ensures carries { IfOk result (λ d. is_diff (diff_data d) ≡ true) }
    ensures malformed { IsErrOf result MessageFault.Malformed → is_diff (view value.now) ≡ false }
{
    match read_diff_value(alloc, value) {
        Ok(diff) => Ok(diff),
        Err(DiffFault::BadDiff) => Err(MessageFault::Malformed),
        Err(DiffFault::OutOfMemory) => Err(MessageFault::OutOfMemory),
    }
}

/// The same, where each node has its statics.
pub fn read_tree(alloc: Global, value: &Json) -> Result<Diff, MessageFault>
    ensures ok { IfOk result (λ d. (is_tree (view value.now) ≡ true) × (diff_data d ≡ view value.now)) }
    ensures carries { IfOk result (λ d. is_diff (diff_data d) ≡ true) }
    ensures malformed { IsErrOf result MessageFault.Malformed → is_tree (view value.now) ≡ false }
{
    if !is_whole(value) {
        return Err(MessageFault::Malformed);
    }
    read_page(alloc, value)
}
