//! Nodes as they are rendered whole.
ghost use Rattle.std.specs.Prelude.{◌≡◌, IfOk, OnOk, option_map};
ghost use Rattle.ast_core.specs.Places.{cut};
ghost use Rattle.ast_core.specs.Syntax.{Nodes};
ghost use Rattle.diff_tree.specs.Parts.{place_data};
ghost use Rattle.diff_tree.specs.Spelling.{change_json, tree_json};
ghost use Rattle.diff_tree.specs.Tree.{Rows};
ghost use Rattle.slot_compile.specs.Numbering.{ReadsRight, node_at, place_in};
ghost use Rattle.slot_compile.specs.Template.{syntax_of};
ghost use Rattle.doc_model.specs.Lean.{rows_change};
ghost use Rattle.doc_model.specs.Whole.{rows_tree};
ghost use Rattle.diff_render.specs.Again.{has_rows};
ghost use Rattle.diff_render.specs.Answers.{Answers, Shows};
ghost use Rattle.diff_render.specs.Renders.{GivesBranch, GivesNode, GivesPlace, GivesPlaces, GivesRow, GivesRows};
ghost use Rattle.diff_render.specs.Scope.{scope_in};
ghost use Rattle.diff_render.specs.Shown.{shown_at};
ghost use Rattle.diff_render.specs.Values.{option_seen, rows_in, rows_seen};

use crate::RenderFault;
use crate::choice::{Choice, choose};
use crate::place::{show_attribute, show_put, show_spread};
use crate::print::{Print, Prints};
use crate::rows::row_scopes;
use crate::values::by_number;
use diff_tree::{Part, PlaceValue, Row};
use expr_eval::{Bindings, Variables};
use slot_compile::{Compiled, Dynamic};
use std::alloc::Global;
use text_core::{Names, OutOfMemory, Seq, Text};
use value_core::Assigns;

/// What nodes are rendered of: their template, and the assigns in scope.
#[derive(Clone, Copy)]
pub(crate) struct Whole<'a> {
    pub compiled: &'a Compiled,
    pub assigns: &'a Assigns,
}

impl<'a> Whole<'a> {
    /// A body with its statics; so many levels are left, itself included.
    #[cycle(whole)]
    pub fn node(
        self,
        alloc: Global,
        variables: &mut Variables,
        body: usize,
        levels: usize,
    ) -> Result<(Part, Prints), RenderFault>
        ensures node { GivesNode self.entry.compiled.now self.entry.assigns.now variables.old body levels result }
        ensures scope { OnOk result (variables.new ≡ variables.old) }
    {
        let (values, prints) = self.places(alloc, variables, body, levels)?;
        let statics = copies(alloc, self.compiled.statics(body))?;
        let places = by_number(alloc, values)?;
        Ok((Part::new(Some(statics), places), prints))
    }

    // The places of a body, in order.
    #[cycle(whole)]
    fn places(
        self,
        alloc: Global,
        variables: &mut Variables,
        body: usize,
        levels: usize,
    ) -> Result<(Seq<PlaceValue>, Prints), RenderFault>
        ensures places { GivesPlaces self.entry.compiled.now self.entry.assigns.now variables.old body levels result }
        ensures scope { OnOk result (variables.new ≡ variables.old) }
    {
        if levels == 0 {
            return Err(RenderFault::Raised);
        }
        let mut values = Seq::new(alloc);
        let mut prints = Seq::new(alloc);
        'places: for dynamic in self.compiled.dynamics(body) {
            let (value, print) = self.place(alloc, variables, dynamic, levels - 1)?;
            values.push(value)?;
            prints.push(print)?;
        }
        Ok((values, prints))
    }

    // A place; so many levels are left below it.
    #[cycle(whole)]
    fn place(
        self,
        alloc: Global,
        variables: &mut Variables,
        dynamic: &Dynamic,
        levels: usize,
    ) -> Result<(PlaceValue, Print), RenderFault>
        requires { ReadsRight (syntax_of self.compiled.now) dynamic.now }
        ensures place { GivesPlace self.entry.compiled.now self.entry.assigns.now variables.old (place_in (syntax_of self.entry.compiled.now) dynamic.now) levels result }
        ensures scope { OnOk result (variables.new ≡ variables.old) }
    {
        match dynamic {
            Dynamic::If { .. } | Dynamic::Case { .. } => {
                match choose(alloc, self.assigns, variables, dynamic)? {
                    Some(choice) => self.branch(alloc, variables, choice, levels),
                    None => Ok((PlaceValue::Text(Text::new(alloc)), Print::Text)),
                }
            }
            Dynamic::For {
                list,
                pattern,
                reads: _,
                body,
            } => {
                let scopes = row_scopes(alloc, self.assigns, variables, list.expr(), pattern)?;
                let (rows, prints) = self.rows(alloc, variables, scopes, *body, levels)?;
                let value = self.list(alloc, rows, *body)?;
                Ok((value, Print::Rows(prints)))
            }
            Dynamic::Put(_) | Dynamic::Attribute { .. } | Dynamic::Spread(_) => {
                let text = self.text(alloc, variables, dynamic)?;
                Ok((PlaceValue::Text(text), Print::Text))
            }
        }
    }

    /// A branch that is taken; so many levels are left.
    #[cycle(whole)]
    pub fn branch(
        self,
        alloc: Global,
        variables: &mut Variables,
        choice: Choice,
        levels: usize,
    ) -> Result<(PlaceValue, Print), RenderFault>
        ensures branch { GivesBranch self.entry.compiled.now self.entry.assigns.now variables.old choice levels result }
        ensures scope { OnOk result (variables.new ≡ variables.old) }
    {
        let Choice { index, bound, body } = choice;
        variables.enter(bound)?;
        let (part, places) = self.node(alloc, variables, body, levels)?;
        let Some(bound) = variables.leave() else {
            return Err(RenderFault::Raised);
        };
        let choice = Choice { index, bound, body };
        Ok((PlaceValue::Node(part), Print::Branch { choice, places }))
    }

    /// Rows of a body, one for each scope; so many levels are left.
    #[cycle(whole)]
    pub fn rows(
        self,
        alloc: Global,
        variables: &mut Variables,
        scopes: Seq<Bindings>,
        body: usize,
        levels: usize,
    ) -> Result<(Seq<Row>, Seq<Prints>), RenderFault>
        ensures rows { GivesRows self.entry.compiled.now self.entry.assigns.now variables.old scopes body levels result }
        ensures scope { OnOk result (variables.new ≡ variables.old) }
    {
        let mut rows = Seq::new(alloc);
        let mut prints = Seq::new(alloc);
        'scopes: for scope in scopes.into_vec() {
            let (values, print) = self.row(alloc, variables, scope, body, levels)?;
            rows.push(Row::new(values))?;
            prints.push(print)?;
        }
        Ok((rows, prints))
    }

    // The values of a row, in its scope.
    #[cycle(whole)]
    fn row(
        self,
        alloc: Global,
        variables: &mut Variables,
        scope: Bindings,
        body: usize,
        levels: usize,
    ) -> Result<(Seq<PlaceValue>, Prints), RenderFault>
        ensures row { GivesRow self.entry.compiled.now self.entry.assigns.now variables.old scope body levels result }
        ensures scope { OnOk result (variables.new ≡ variables.old) }
    {
        variables.enter(scope)?;
        let row = self.places(alloc, variables, body, levels)?;
        let _scope = variables.leave();
        Ok(row)
    }

    /// What a place shows that has nothing inside.
    pub fn text(
        self,
        alloc: Global,
        variables: &Variables,
        dynamic: &Dynamic,
    ) -> Result<Text, RenderFault>
        ensures { (template : Nodes) → Shows result (shown_at (scope_in self.entry.assigns.now variables.now) (place_in template dynamic.now)) }
    {
        match dynamic {
            Dynamic::Put(value) => show_put(alloc, self.assigns, variables, value.expr()),
            Dynamic::Attribute { name, value } => {
                show_attribute(alloc, self.assigns, variables, name.as_str(), value.expr())
            }
            Dynamic::Spread(value) => show_spread(alloc, self.assigns, variables, value.expr()),
            Dynamic::If { .. } | Dynamic::Case { .. } | Dynamic::For { .. } => Ok(Text::new(alloc)),
        }
    }

    /// Rows against those that were there: with statics where there were none, and nothing where there are none still.
    pub fn rows_change(
        self,
        alloc: Global,
        had_rows: bool,
        rows: Seq<Row>,
        body: usize,
    ) -> Result<Option<PlaceValue>, OutOfMemory>
        ensures { (old rs : Rows) → had_rows ≡ has_rows old → rows_seen rows ≡ rows_in rs
            → IfOk result (λ o. option_seen o ≡ option_map change_json (rows_change (cut (node_at (syntax_of self.entry.compiled.now) body)) old rs)) }
    {
        match (had_rows, rows.is_empty()) {
            (false, true) => Ok(None),
            (true, false) => Ok(Some(PlaceValue::Node(Part::list(None, rows, None)))),
            (false, false) | (true, true) => Ok(Some(self.list(alloc, rows, body)?)),
        }
    }

    /// Rows with the statics of their body, or the empty text where there are none.
    pub fn list(self, alloc: Global, rows: Seq<Row>, body: usize) -> Result<PlaceValue, OutOfMemory>
        ensures { (rs : Rows) → rows_seen rows ≡ rows_in rs
            → IfOk result (λ v. place_data v ≡ tree_json (rows_tree (cut (node_at (syntax_of self.entry.compiled.now) body)) rs)) }
    {
        if rows.is_empty() {
            return Ok(PlaceValue::Text(Text::new(alloc)));
        }
        let statics = copies(alloc, self.compiled.statics(body))?;
        Ok(PlaceValue::Node(Part::list(Some(statics), rows, None)))
    }
}

// The texts once more.
fn copies(alloc: Global, texts: &[Text]) -> Result<Names, OutOfMemory>
    ensures { IfOk result (λ copy. copy ≡ texts.now) }
{
    let mut copy = Seq::new(alloc);
    for text in texts {
        copy.push(text.copy(alloc)?)?;
    }
    Ok(copy)
}
