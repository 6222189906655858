//! Events that a page pushes to its browser.
ghost use Rattle.std.specs.Prelude.{◌≡◌, true};
ghost use Rattle.serde_json.specs.View.{view};
ghost use Rattle.diff_tree.specs.Plain.{is_plain};

use crate::plain::is_plain;
use serde_json::Value;
use text_core::{Seq, Text};

/// An event for the page's browser: its name, and its payload, whose numbers are whole and have 64 bits.
#[derive(Debug, Drop)]
pub struct Push {
    pub name: Text,
    pub payload: Value,
    pub ghost whole: { is_plain (view payload) ≡ true },
}

/// Pushed events, in order.
pub type Pushes = Seq<Push>;

impl Push {
    ghost use Rattle.std.specs.Prelude.{MatchOption, false};
    ghost use Rattle.serde_json.specs.Written.{has_float};

    /// An event of this name and payload. There is none exactly where the payload has a number with a fraction or an
    /// exponent, or one of more than 64 bits.
    pub fn new(name: Text, payload: Value) -> Option<Push>
        ensures { MatchOption result ((has_float (view payload) ≡ true) × (is_plain (view payload) ≡ false)) (λ p. (p.name ≡ name) × (p.payload ≡ payload)) }
    {
        if is_plain(&payload) {
            Some(Push { name, payload })
        } else {
            None
        }
    }
}
