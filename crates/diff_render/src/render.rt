//! The first rendering of a page, and each later one.
ghost use Rattle.value_core.specs.View.{assigns_view};
ghost use Rattle.diff_render.specs.Renders.{FirstIsWhole, NextIsLean};

use crate::RenderFault;
use crate::lean::Lean;
use crate::print::Prints;
use crate::scope::Tracking;
use crate::values::changes_by_number;
use crate::whole::Whole;
use assigns_track::Tracked;
use diff_tree::Part;
use expr_eval::Variables;
use slot_compile::Compiled;
use std::alloc::Global;
use value_core::Assigns;

/// How many bodies may stand in one another on a page, its template among them.
pub(crate) const LEVELS: usize = 41;

/// The whole tree of a template under some assigns, and what is remembered of it. It raises exactly where the rendering
/// does.
pub fn first(
    alloc: Global,
    compiled: &Compiled,
    assigns: &Assigns,
) -> Result<(Part, Prints), RenderFault>
    ensures { FirstIsWhole compiled.now (assigns_view assigns.now) result }
{
    compiled.places_are_plain();
    let mut variables = Variables::new(alloc);
    let whole = Whole { compiled, assigns };
    whole.node(alloc, &mut variables, 0, LEVELS)
}

/// The lean diff of a template between the settled and the present assigns, from what is remembered of the last
/// rendering, and what is remembered now. It raises exactly where the rendering under the present assigns does.
pub fn next(
    alloc: Global,
    compiled: &Compiled,
    assigns: &Tracked,
    prints: Prints,
) -> Result<(Part, Prints), RenderFault>
    ensures { NextIsLean compiled.now assigns.now prints result }
{
    compiled.places_are_plain();
    let mut tracking = Tracking::new(alloc);
    let lean = Lean { compiled, assigns };
    let (changes, prints) = lean.places(alloc, &mut tracking, 0, prints, LEVELS)?;
    let places = changes_by_number(alloc, changes)?;
    Ok((Part::new(None, places), prints))
}
