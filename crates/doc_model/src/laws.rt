//! What the definitions keep: each law is the promise of a function that does nothing.

ghost use Rattle.doc_model.specs.Effects.{Rest};
ghost use Rattle.doc_model.specs.Headline.{AllFramesShow, BundleLinks, HandlersAreHonest, JournalIsLean, JournalShows, LawfulHolds, SessionGoesOn};
ghost use Rattle.doc_model.specs.Laws.{HeldTreeShows, MergeLeanWhole, StaticsWeave, TakenWhole, UnchangedSendsNothing, WholeTreeShows};
ghost use Rattle.doc_model.specs.Mark.{MarkIsAtRoot};
ghost use Rattle.doc_model.specs.Run.{SessionShows, SettledShows};
ghost use Rattle.doc_model.specs.Session.{FramesShow};
ghost use Rattle.doc_model.specs.Walk.{OnePass, PassIsWalkAndTrace};

/// The whole tree that is sent shows the full rendering, where all streams begin empty.
#[tactic(auto, using(crate::proofs::Pages::whole_page_shows))]
pub fn whole_tree_shows()
    ensures { WholeTreeShows }
{}

/// A tree that a client holds whole shows the full rendering.
#[tactic(auto, using(crate::proofs::Pages::page_shows))]
pub fn held_tree_shows()
    ensures { HeldTreeShows }
{}

/// The whole tree that is sent, taken by a client, is whole.
#[tactic(auto, using(crate::proofs::Judged::taken_whole))]
pub fn taken_whole()
    ensures { TakenWhole }
{}

/// The lean diff, merged into a tree that is whole, gives the new whole tree.
#[tactic(auto, using(crate::proofs::Judged::merge_lean_whole))]
pub fn merge_lean_whole()
    ensures { MergeLeanWhole }
{}

/// The frames since a join, merged, are whole and show the page.
#[tactic(auto, using(crate::proofs::Sessions::frames_show))]
pub fn frames_show()
    ensures { FramesShow }
{}

/// A component's mark on its text stands at its root element.
#[tactic(auto, using(crate::proofs::Marks::mark_is_at_root))]
pub fn mark_is_at_root()
    ensures { MarkIsAtRoot }
{}

/// One pass that walks and renders is the walk and then the rendering of the state that it leaves.
#[tactic(auto, using(crate::proofs::AtProcess::pass_of_process))]
pub fn one_pass()
    ensures { OnePass Rest }
{}

/// One pass does not raise exactly where the walk alone and then the rendering do not.
pub fn pass_is_walk_and_trace()
    ensures { PassIsWalkAndTrace Rest }
{}

/// For any list of renderings since a join the merged frames are whole and show the latest state.
#[tactic(auto, using(crate::proofs::AtProcess::session_of_process))]
pub fn session_shows()
    ensures { SessionShows Rest }
{}

/// The state after its batches were applied shows what the rendering showed.
pub fn settled_shows()
    ensures { SettledShows }
{}

/// A bundle is linked where no stream has two places in one of its templates.
pub fn bundle_links()
    ensures { BundleLinks }
{}

/// The handlers of a process write to assigns and batches alone, and change no container.
pub fn handlers_are_honest()
    ensures { HandlersAreHonest }
{}

/// After any entries, lawful or not, the frames since the latest join merge and show the page, where
/// no stream has two places in one template.
#[tactic(auto, using(crate::proofs::Journals::journal_shows))]
pub fn journal_shows()
    ensures { JournalShows }
{}

/// From the beginning on no frame is bad for a client, and it holds the page exactly while the process is up.
pub fn all_frames_show()
    ensures { AllFramesShow }
{}

/// The frames of a lawful journal carry whole trees and lean diffs.
#[tactic(auto, using(crate::proofs::Leans::journal_is_lean))]
pub fn journal_is_lean()
    ensures { JournalIsLean }
{}

/// The four clauses of the headline hold of every lawful journal.
#[tactic(auto, using(crate::proofs::Leans::lawful_holds))]
pub fn lawful_holds()
    ensures { LawfulHolds }
{}

/// A session that adds one allowed entry with its frames keeps the four clauses.
pub fn session_goes_on()
    ensures { SessionGoesOn }
{}

/// The constant text of nodes, woven with what their places show, is the full rendering.
#[tactic(auto, using(crate::proofs::Shows::statics_weave))]
pub fn statics_weave()
    ensures { StaticsWeave }
{}

/// Where a rendering meets what the one before it met, the diff holds nothing.
#[tactic(auto, using(crate::proofs::Idles::unchanged_sends_nothing))]
pub fn unchanged_sends_nothing()
    ensures { UnchangedSendsNothing }
{}
