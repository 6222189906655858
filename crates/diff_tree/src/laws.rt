//! What the definitions keep: each law is the promise of a function that does nothing.

ghost use Rattle.diff_tree.specs.Grammar.{SpellOne};
ghost use Rattle.diff_tree.specs.Laws.{BatchKeepsApart, ClientIgnoresLevels, InsertsComeLast, MergeHoldsReached, MergeIgnoresLevels, ShowIgnoresLevels};

/// A batch never puts an id twice into a container.
#[tactic(auto, using(crate::proofs::Batches::batch_keeps_apart))]
pub fn batch_keeps_apart()
    ensures { BatchKeepsApart }
{}

/// The inserts of a batch come after its reset and its deletes.
#[tactic(auto, using(crate::proofs::Batches::inserts_come_last))]
pub fn inserts_come_last()
    ensures { InsertsComeLast }
{}

/// After a merge each component that the root reaches is held, and no other.
pub fn merge_holds_reached()
    ensures { MergeHoldsReached }
{}

/// What a merge gives does not depend on the number of levels, where it is enough.
#[tactic(auto, using(crate::proofs::Levels::merge_ignores_levels))]
pub fn merge_ignores_levels()
    ensures { MergeIgnoresLevels }
{}

/// What a client makes of frames does not depend on the number of levels, where it is enough.
#[tactic(auto, using(crate::proofs::Levels::client_ignores_levels))]
pub fn client_ignores_levels()
    ensures { ClientIgnoresLevels }
{}

/// What a tree shows does not depend on the number of levels, where no component is missing.
#[tactic(auto, using(crate::proofs::Looks::show_ignores_levels))]
pub fn show_ignores_levels()
    ensures { ShowIgnoresLevels }
{}

/// A text spells at most one diff that nests at most 127 deep, seen as its JSON value.
pub fn text_spells_one_diff()
    ensures { SpellOne }
{}
