//! Nodes as they are rendered again: only what changed.
ghost use Rattle.std.specs.Prelude.{◌≡◌, OnOk, option_map, true};
ghost use Rattle.diff_tree.specs.Parts.{places_json, seen};
ghost use Rattle.diff_tree.specs.Spelling.{change_json, changes_json};
ghost use Rattle.diff_tree.specs.Tree.{Changes};
ghost use Rattle.slot_compile.specs.Numbering.{ReadsRight, place_in};
ghost use Rattle.slot_compile.specs.Template.{syntax_of};
ghost use Rattle.doc_model.specs.Lean.{unless_empty};
ghost use Rattle.diff_render.specs.Again.{GivesChange, GivesChanges, GivesEntered, GivesKept, GivesReread, GivesTaken, GivesText, GivesUnchanged, deciding, emptied, had_rows, is_branching};
ghost use Rattle.diff_render.specs.Prints.{print_view};
ghost use Rattle.diff_render.specs.Taken.{is_loop};
ghost use Rattle.diff_render.specs.Tracked.{AreChanged};
ghost use Rattle.diff_render.specs.Values.{option_seen};

use crate::RenderFault;
use crate::choice::{Choice, choose};
use crate::print::{Print, Prints};
use crate::rows::row_scopes;
use crate::scope::Tracking;
use crate::values::changes_by_number;
use crate::whole::Whole;
use assigns_track::Tracked;
use diff_tree::{Part, PlaceValue};
use expr_eval::Bindings;
use slot_compile::{Compiled, Dynamic};
use std::alloc::Global;
use text_core::{ByKey, Seq, Text};

/// What is sent of a place, where it changed, and what is remembered of it.
pub(crate) type Change = (Option<PlaceValue>, Print);

/// What nodes are rendered of again: their template, and the assigns in scope with what they were.
#[derive(Clone, Copy)]
pub(crate) struct Lean<'a> {
    pub compiled: &'a Compiled,
    pub assigns: &'a Tracked,
}

impl<'a> Lean<'a> {
    /// The places of a body that was shown before, with what is remembered of that; so many levels are left.
    #[cycle(lean)]
    pub fn places(
        self,
        alloc: Global,
        tracking: &mut Tracking,
        body: usize,
        prints: Prints,
        levels: usize,
    ) -> Result<(Seq<Option<PlaceValue>>, Prints), RenderFault>
        ensures changes { GivesChanges self.entry.compiled.now self.entry.assigns.now tracking.old body prints levels result }
        ensures scope { OnOk result (tracking.new ≡ tracking.old) }
    {
        if levels == 0 {
            return Err(RenderFault::Raised);
        }
        let mut before = prints.into_vec().into_iter();
        let mut changes = Seq::new(alloc);
        let mut after = Seq::new(alloc);
        'places: for dynamic in self.compiled.dynamics(body) {
            let Some(print) = before.next() else {
                return Err(RenderFault::Raised);
            };
            let (change, print) = self.place(alloc, tracking, dynamic, print, levels - 1)?;
            changes.push(change)?;
            after.push(print)?;
        }
        Ok((changes, after))
    }

    // A place; so many levels are left below it.
    #[cycle(lean)]
    fn place(
        self,
        alloc: Global,
        tracking: &mut Tracking,
        dynamic: &Dynamic,
        print: Print,
        levels: usize,
    ) -> Result<Change, RenderFault>
        requires { ReadsRight (syntax_of self.compiled.now) dynamic.now }
        ensures change { GivesChange self.entry.compiled.now self.entry.assigns.now tracking.old (place_in (syntax_of self.entry.compiled.now) dynamic.now) print levels result }
        ensures scope { OnOk result (tracking.new ≡ tracking.old) }
    {
        if !self.is_changed(tracking, dynamic) {
            return self.unchanged(alloc, tracking, print, levels);
        }
        match dynamic {
            Dynamic::If { .. } | Dynamic::Case { .. } => {
                self.branch(alloc, tracking, dynamic, print, levels)
            }
            Dynamic::For { .. } => self.rows(alloc, tracking, dynamic, print, levels),
            Dynamic::Put(_) | Dynamic::Attribute { .. } | Dynamic::Spread(_) => {
                self.text(alloc, tracking, dynamic)
            }
        }
    }

    // A place that is not evaluated again.
    #[cycle(lean)]
    fn unchanged(
        self,
        alloc: Global,
        tracking: &mut Tracking,
        print: Print,
        levels: usize,
    ) -> Result<Change, RenderFault>
        ensures change { GivesUnchanged self.entry.compiled.now self.entry.assigns.now tracking.old print levels result }
        ensures scope { OnOk result (tracking.new ≡ tracking.old) }
    {
        match print {
            Print::Text => Ok((None, Print::Text)),
            Print::Branch { choice, places } => {
                self.kept(alloc, tracking, choice, None, places, levels)
            }
            Print::Rows(rows) => Ok((None, Print::Rows(rows))),
        }
    }

    // A place whose branch is chosen anew.
    #[cycle(lean)]
    fn branch(
        self,
        alloc: Global,
        tracking: &mut Tracking,
        dynamic: &Dynamic,
        print: Print,
        levels: usize,
    ) -> Result<Change, RenderFault>
        requires { ReadsRight (syntax_of self.compiled.now) dynamic.now }
        ensures change { is_branching (place_in (syntax_of self.entry.compiled.now) dynamic.now) ≡ true
            → GivesChange self.entry.compiled.now self.entry.assigns.now tracking.old (place_in (syntax_of self.entry.compiled.now) dynamic.now) print levels result }
        ensures scope { OnOk result (tracking.new ≡ tracking.old) }
    {
        match choose(alloc, self.assigns.assigns(), &tracking.variables, dynamic)? {
            Some(choice) => self.taken(alloc, tracking, choice, print, levels),
            None => Ok((emptied(alloc, &print), Print::Text)),
        }
    }

    // A branch over what the place showed: kept where it is the same.
    #[cycle(lean)]
    fn taken(
        self,
        alloc: Global,
        tracking: &mut Tracking,
        choice: Choice,
        print: Print,
        levels: usize,
    ) -> Result<Change, RenderFault>
        ensures change { GivesTaken self.entry.compiled.now self.entry.assigns.now tracking.old choice print levels result }
        ensures scope { OnOk result (tracking.new ≡ tracking.old) }
    {
        match print {
            Print::Branch {
                choice: before,
                places,
            } => {
                if before.index != choice.index {
                    return self.entered(alloc, tracking, choice, levels);
                }
                self.kept(alloc, tracking, choice, Some(before.bound), places, levels)
            }
            Print::Text | Print::Rows(_) => self.entered(alloc, tracking, choice, levels),
        }
    }

    // A branch that the place showed before; `before` is what it bound then, where it may differ.
    #[cycle(lean)]
    fn kept(
        self,
        alloc: Global,
        tracking: &mut Tracking,
        choice: Choice,
        before: Option<Bindings>,
        places: Prints,
        levels: usize,
    ) -> Result<Change, RenderFault>
        ensures change { GivesKept self.entry.compiled.now self.entry.assigns.now tracking.old choice before places levels result }
        ensures scope { OnOk result (tracking.new ≡ tracking.old) }
    {
        let Choice { index, bound, body } = choice;
        tracking.enter(bound, before)?;
        let (changes, places) = self.places(alloc, tracking, body, places, levels)?;
        let Some(bound) = tracking.leave() else {
            return Err(RenderFault::Raised);
        };
        let changes = changes_by_number(alloc, changes)?;
        let choice = Choice { index, bound, body };
        Ok((inner(changes), Print::Branch { choice, places }))
    }

    // A branch that the place did not show before.
    fn entered(
        self,
        alloc: Global,
        tracking: &mut Tracking,
        choice: Choice,
        levels: usize,
    ) -> Result<Change, RenderFault>
        ensures change { GivesEntered self.entry.compiled.now self.entry.assigns.now tracking.old choice levels result }
        ensures scope { OnOk result (tracking.new ≡ tracking.old) }
    {
        let whole = self.whole();
        let (value, print) = whole.branch(alloc, &mut tracking.variables, choice, levels)?;
        Ok((Some(value), print))
    }

    // A loop whose list or body reads something that differs: all its rows.
    fn rows(
        self,
        alloc: Global,
        tracking: &mut Tracking,
        dynamic: &Dynamic,
        print: Print,
        levels: usize,
    ) -> Result<Change, RenderFault>
        ensures change { is_loop (place_in (syntax_of self.entry.compiled.now) dynamic.now) ≡ true
            → GivesReread self.entry.compiled.now self.entry.assigns.now tracking.old (place_in (syntax_of self.entry.compiled.now) dynamic.now) print levels result }
        ensures scope { OnOk result (tracking.new ≡ tracking.old) }
    {
        let Dynamic::For {
            list,
            pattern,
            reads: _,
            body,
        } = dynamic
        else {
            return Ok((None, print));
        };
        let variables = &mut tracking.variables;
        let whole = self.whole();
        let scopes = row_scopes(alloc, whole.assigns, variables, list.expr(), pattern)?;
        let (rows, prints) = whole.rows(alloc, variables, scopes, *body, levels)?;
        let change = whole.rows_change(alloc, had_rows(&print), rows, *body)?;
        Ok((change, Print::Rows(prints)))
    }

    // An interpolation, an attribute or a spread.
    fn text(
        self,
        alloc: Global,
        tracking: &Tracking,
        dynamic: &Dynamic,
    ) -> Result<Change, RenderFault>
        ensures { GivesText self.entry.assigns.now tracking.now (place_in (syntax_of self.entry.compiled.now) dynamic.now) result }
    {
        let text = self.whole().text(alloc, &tracking.variables, dynamic)?;
        Ok((Some(PlaceValue::Text(text)), Print::Text))
    }

    // Whether a place is evaluated again.
    fn is_changed(self, tracking: &Tracking, dynamic: &Dynamic) -> bool
        requires { ReadsRight (syntax_of self.compiled.now) dynamic.now }
        ensures { AreChanged self.entry.assigns.now tracking.now (deciding (place_in (syntax_of self.entry.compiled.now) dynamic.now)) result }
    {
        match dynamic {
            Dynamic::Put(value)
            | Dynamic::Attribute { name: _, value }
            | Dynamic::Spread(value)
            | Dynamic::If {
                test: value,
                yes: _,
                no: _,
            }
            | Dynamic::Case { value, clauses: _ } => tracking.is_changed(
                self.assigns,
                value.reads(),
            ),
            Dynamic::For {
                list: _,
                pattern: _,
                reads,
                body: _,
            } => tracking.is_changed(self.assigns, reads),
        }
    }

    fn whole(self) -> Whole<'a>
        ensures compiled { result.compiled.now ≡ self.entry.compiled.now }
        ensures assigns { result.assigns.now ≡ self.entry.assigns.now.present }
    {
        Whole {
            compiled: self.compiled,
            assigns: self.assigns.assigns(),
        }
    }
}

// A change inside, unless it is empty.
fn inner(changes: ByKey<PlaceValue>) -> Option<PlaceValue>
    ensures { (cs : Changes) → places_json (seen changes) ≡ changes_json 0 cs → option_seen result ≡ option_map change_json (unless_empty cs) }
{
    if changes.is_empty() {
        return None;
    }
    Some(PlaceValue::Node(Part::new(None, changes)))
}

// The empty text, where a place showed a node.
fn emptied(alloc: Global, print: &Print) -> Option<PlaceValue>
    ensures { option_seen result ≡ option_map change_json (emptied (print_view print.now)) }
{
    match print {
        Print::Text => None,
        Print::Branch { .. } | Print::Rows(_) => Some(PlaceValue::Text(Text::new(alloc))),
    }
}

// Whether a loop showed rows.
fn had_rows(print: &Print) -> bool
    ensures { result ≡ had_rows (print_view print.now) }
{
    match print {
        Print::Rows(rows) => !rows.is_empty(),
        Print::Text | Print::Branch { .. } => false,
    }
}
