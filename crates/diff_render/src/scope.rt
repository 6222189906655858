//! The variables in scope of a page that is rendered again, and what they were.
ghost use Rattle.std.specs.Prelude.{◌≡◌, List, [], ◌∷◌, ◌++◌, OnOk, option_map};
ghost use Rattle.std.specs.List.{list_any};
ghost use Rattle.std.specs.Option.{option_copied};
ghost use Rattle.value_core.specs.View.{view};
ghost use Rattle.ast_core.specs.Syntax.{Name};
ghost use Rattle.ast_core.specs.Reads.{assigns_in, variables_in};
ghost use Rattle.assigns_track.specs.Track.{differ, present_of, settled_of};
ghost use Rattle.doc_model.specs.Environment.{lookup};
ghost use Rattle.diff_render.specs.Tracked.{AreChanged, Leaves, bound_before, variable_differs, variables_before};

use assigns_track::Tracked;
use ast_core::Reads;
use expr_eval::{Bindings, Variables, value_in};
use std::alloc::Global;
use text_core::{OutOfMemory, Seq, Text};
use value_core::{Value, same};

/// The variables in scope, and for each scope what it bound at the last rendering, where that was noted.
#[derive(Debug, Drop)]
pub(crate) struct Tracking {
    pub variables: Variables,
    pub before: Seq<Option<Bindings>>,
}

impl Tracking {
    /// No scope.
    pub fn new(alloc: Global) -> Tracking
        ensures variables { result.variables.scopes ≡ [] }
        ensures before { result.before ≡ [] }
    {
        Tracking {
            variables: Variables::new(alloc),
            before: Seq::new(alloc),
        }
    }

    /// Enters a scope, with what it bound before where that may differ.
    pub fn enter(&mut self, bound: Bindings, before: Option<Bindings>) -> Result<(), OutOfMemory>
        ensures variables { OnOk result (self.new.variables.scopes ≡ self.old.variables.scopes ++ bound ∷ []) }
        ensures before { OnOk result (self.new.before ≡ self.old.before ++ before ∷ []) }
    {
        self.variables.enter(bound)?;
        self.before.push(before)
    }

    /// Leaves the innermost scope, and gives what it bound.
    pub fn leave(&mut self) -> Option<Bindings>
        ensures { Leaves self.old self.new result }
    {
        let _note = self.before.pop();
        self.variables.leave()
    }

    /// Whether a name among those that are read differs from what it was.
    pub fn is_changed(&self, assigns: &Tracked, reads: &Reads) -> bool
        ensures { (names : List Name) → reads.now.assigns ≡ assigns_in names → reads.now.variables ≡ variables_in names → AreChanged assigns.now self.now names result }
    {
        any_assign(assigns, reads.assigns.as_slice())
            || self.any_variable(reads.variables.as_slice())
    }

    fn any_variable(&self, names: &[Text]) -> bool
        ensures { result ≡ list_any (λ n. variable_differs self.now n) names.now }
    {
        names
            .iter()
            .any(|name| self.variable_changed(name.as_str()))
    }

    fn variable_changed(&self, name: &str) -> bool
        ensures { result ≡ variable_differs self.now name.now }
    {
        match (self.variables.get(name), self.old(name)) {
            (Some(now), Some(before)) => !same(now, before),
            (None, None) => false,
            _ => true,
        }
    }

    // The value that a variable had at the last rendering.
    fn old(&self, name: &str) -> Option<&Value>
        ensures { option_map view (option_copied result) ≡ lookup name.now (variables_before self.now) }
    {
        let scopes = self.variables.scopes();
        let notes = self.before.as_slice();
        'scopes: for i in (0..notes.len().min(scopes.len())).rev() {
            if let Some(value) = value_in(bound_before(&notes[i], &scopes[i]), name) {
                return Some(value);
            }
        }
        None
    }
}

// What a scope bound at the last rendering.
fn bound_before<'a>(note: &'a Option<Bindings>, bound: &'a Bindings) -> &'a Bindings
    ensures { result.now ≡ bound_before note.now bound.now }
{
    match note {
        Some(before) => before,
        None => bound,
    }
}

// Whether an assign of these differs.
fn any_assign(assigns: &Tracked, names: &[Text]) -> bool
    ensures { result ≡ list_any (λ n. differ (present_of assigns.now n) (settled_of assigns.now n)) names.now }
{
    names.iter().any(|name| assigns.changed(name.as_str()))
}
