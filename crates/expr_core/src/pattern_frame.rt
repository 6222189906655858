//! What the reader of patterns has begun, and what comes next.
ghost use Rattle.std.specs.Prelude.{◌≡◌, ◌∷◌, [], OnOk, MatchOption};
ghost use Rattle.expr_core.specs.SeenPattern.{frame_view, piled};

use ast_core::{Pattern, PatternPair};
use text_core::{OutOfMemory, Seq, Text};

/// What an open list of patterns is.
#[derive(Clone, Copy)]
pub(crate) enum PatternOpener {
    Listing,
    Tupling,
}

/// What is begun and waits for more.
#[derive(Drop)]
pub(crate) enum PatternFrame {
    Items(PatternOpener, Seq<Pattern>),
    Valued(Seq<PatternPair>, Text),
}

/// What comes next.
#[derive(Drop)]
pub(crate) enum PatternMode {
    Want,
    Have(Pattern),
    /// Behind a `-`.
    WantNumber,
    /// In a text.
    WantQuote(Text),
    WantKey(Seq<PatternPair>),
    WantColon(Seq<PatternPair>, Text),
}

/// Begins something.
#[tactic(auto, using(crate::proofs::PatternForms::piled_more))]
pub(crate) fn push_frame(
    frames: &mut Seq<PatternFrame>,
    frame: PatternFrame,
) -> Result<(), OutOfMemory>
    ensures { OnOk result (piled frames.new ≡ frame_view frame ∷ piled frames.old) }
{
    frames.push(frame)
}

/// Ends the innermost.
#[tactic(auto, using(crate::proofs::PatternForms::piled_more))]
pub(crate) fn pop_frame(frames: &mut Seq<PatternFrame>) -> Option<PatternFrame>
    ensures { MatchOption result (piled frames.old ≡ []) (λ f. piled frames.old ≡ frame_view f ∷ piled frames.new) }
{
    frames.pop()
}
