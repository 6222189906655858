//! What the definitions keep: each law is the promise of a function that does nothing.

ghost use Rattle.client_merge.specs.Alike.{AllReadAlike, FramesReadAlike, FramesRefusedAlike};
ghost use Rattle.client_merge.specs.Laws.{ReadsTree, ReadsChanges};

/// The JSON of a tree of texts, nodes and lists reads as that tree.
pub fn reads_tree()
    ensures { ReadsTree }
{}

/// The JSON of changes of texts, nodes and lists reads as changes that merge as they do.
pub fn reads_changes()
    ensures { ReadsChanges }
{}

/// A client that reads the bytes of a frame of texts, nodes and lists alone holds what a client of the definitions makes of
/// the frame, where that takes it.
#[tactic(auto, using(crate::proofs::Follows::frame_alike))]
pub fn frames_read_alike()
    ensures { FramesReadAlike }
{}

/// The same of frames, in order.
#[tactic(auto, using(crate::proofs::Follows::all_alike))]
pub fn all_read_alike()
    ensures { AllReadAlike }
{}

/// A frame that is bad for a client of the definitions is bad for one that reads its bytes.
#[tactic(auto, using(crate::proofs::Follows::frame_refused))]
pub fn frames_refused_alike()
    ensures { FramesRefusedAlike }
{}
