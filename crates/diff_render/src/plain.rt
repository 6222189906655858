//! The full rendering, from a template's source.
ghost use Rattle.std.specs.Prelude.{◌≡◌, ℕ, List, ◌∷◌, ◌++◌, IfOk, OnOk, Some, true};
ghost use Rattle.value_core.specs.Value.{Assigns};
ghost use Rattle.value_core.specs.View.{assigns_view, view};
ghost use Rattle.diff_tree.specs.Tree.{flat};
ghost use Rattle.ast_core.specs.NodeView.{attributes_view, clause_view, clauses_view, node_view, nodes_view, place_view};
ghost use Rattle.ast_core.specs.PatternView.{pattern_view};
ghost use Rattle.ast_core.specs.Places.{closing};
ghost use Rattle.slot_compile.specs.Template.{IsPlain, all_plain, clauses_plain, is_plain, node_plain};
ghost use Rattle.doc_model.specs.Environment.{Env, bind, binding};
ghost use Rattle.doc_model.specs.Evaluation.{on_res};
ghost use Rattle.doc_model.specs.FullRendering.{element_text, full_attributes, full_node, full_nodes, full_place, full_render, full_rows};
ghost use Rattle.doc_model.specs.Scopes.{Deeper};
ghost use Rattle.diff_render.specs.Answers.{Shows};
ghost use Rattle.diff_render.specs.Plain.{clauses_shown, one_attribute};
ghost use Rattle.diff_render.specs.Renders.{ShowsText};
ghost use Rattle.diff_render.specs.Scope.{AreScopes, alone, scope_in};

use crate::place::{show_attribute, show_put, show_spread, value_of};
use crate::rows::row_scopes;
use crate::{LEVELS, RenderFault};
use ast_core::{Attribute, AttributeValue, Attributes, Clause, Clauses, Node, Nodes, Place};
use comprehension::{binding, matches};
use expr_eval::{Bindings, Variables, is_true};
use heex_token::is_void;
use slot_compile::Compiled;
use std::alloc::Global;
use text_core::{OutOfMemory, Seq, Text};
use value_core::{Assigns, Value};

/// The text of a template under some assigns: the full rendering. It raises exactly where that does.
pub fn page_text(alloc: Global, compiled: &Compiled, assigns: &Assigns) -> Result<Text, RenderFault>
    ensures { ShowsText compiled.now (assigns_view assigns.now) result }
{
    compiled.places_are_plain();
    render_plain(alloc, compiled.source(), assigns)
}

/// The same from the source of a template whose places are plain, node by node.
pub fn render_plain(alloc: Global, source: &Nodes, assigns: &Assigns) -> Result<Text, RenderFault>
    requires { IsPlain source.now }
    ensures { ShowsText source.now (assigns_view assigns.now) result }
{
    let mut variables = Variables::new(alloc);
    body_text(alloc, source, assigns, &mut variables, LEVELS)
}

// A body; so many levels are left, itself included.
#[cycle(plain)]
fn body_text(
    alloc: Global,
    nodes: &Nodes,
    assigns: &Assigns,
    variables: &mut Variables,
    levels: usize,
) -> Result<Text, RenderFault>
    ensures shown { all_plain (nodes_view nodes.now) ≡ true → Shows result (full_render alone levels (scope_in assigns.now variables.old) (nodes_view nodes.now)) }
    ensures scope { OnOk result (variables.new ≡ variables.old) }
{
    if levels == 0 {
        return Err(RenderFault::Raised);
    }
    nodes_text(alloc, nodes, assigns, variables, levels - 1)
}

#[cycle(plain)]
fn nodes_text(
    alloc: Global,
    nodes: &Nodes,
    assigns: &Assigns,
    variables: &mut Variables,
    levels: usize,
) -> Result<Text, RenderFault>
    ensures shown { all_plain (nodes_view nodes.now) ≡ true → Shows result (full_nodes alone (full_render alone levels) (scope_in assigns.now variables.old) (nodes_view nodes.now)) }
    ensures scope { OnOk result (variables.new ≡ variables.old) }
{
    let mut text = Text::new(alloc);
    'nodes: for node in nodes.as_slice() {
        let more = node_text(alloc, node, assigns, variables, levels)?;
        text.push_str(more.as_str())?;
    }
    Ok(text)
}

#[cycle(plain)]
fn node_text(
    alloc: Global,
    node: &Node,
    assigns: &Assigns,
    variables: &mut Variables,
    levels: usize,
) -> Result<Text, RenderFault>
    ensures shown { node_plain (node_view node.now) ≡ true → Shows result (full_node alone (full_render alone levels) (scope_in assigns.now variables.old) (node_view node.now)) }
    ensures scope { OnOk result (variables.new ≡ variables.old) }
{
    match node {
        Node::Text(text) => Ok(text.copy(alloc)?),
        Node::Element {
            at: _,
            name,
            attributes,
            children,
        } => {
            let tag = attributes_text(alloc, attributes, assigns, variables)?;
            let inside = nodes_text(alloc, children, assigns, variables, levels)?;
            Ok(element_text(alloc, name.as_str(), tag.as_str(), inside.as_str())?)
        }
        Node::Place { at: _, place } => place_text(alloc, place, assigns, variables, levels),
    }
}

// A place; so many levels are left below it.
#[cycle(plain)]
fn place_text(
    alloc: Global,
    place: &Place,
    assigns: &Assigns,
    variables: &mut Variables,
    levels: usize,
) -> Result<Text, RenderFault>
    ensures shown { is_plain (place_view place.now) ≡ true → Shows result (full_place alone (full_render alone levels) (scope_in assigns.now variables.old) (place_view place.now)) }
    ensures scope { OnOk result (variables.new ≡ variables.old) }
{
    match place {
        Place::Put(expr) => show_put(alloc, assigns, variables, expr),
        Place::If { test, yes, no } => {
            let test = value_of(alloc, assigns, variables, test)?;
            if is_true(&test) {
                return body_text(alloc, yes, assigns, variables, levels);
            }
            if no.is_empty() {
                return Ok(Text::new(alloc));
            }
            body_text(alloc, no, assigns, variables, levels)
        }
        Place::Case { value, clauses } => {
            let value = value_of(alloc, assigns, variables, value)?;
            clauses_text(alloc, clauses, value, assigns, variables, levels)
        }
        Place::For {
            pattern,
            list,
            body,
        } => {
            let scopes = row_scopes(alloc, assigns, variables, list, pattern)?;
            rows_text(alloc, body, scopes, assigns, variables, levels)
        }
        Place::Call { .. }
        | Place::LiveCall { .. }
        | Place::RenderSlot { .. }
        | Place::StreamFor { .. } => Ok(Text::new(alloc)),
    }
}

// The first clause that matches a value.
#[cycle(plain)]
fn clauses_text(
    alloc: Global,
    clauses: &Clauses,
    value: Value,
    assigns: &Assigns,
    variables: &mut Variables,
    levels: usize,
) -> Result<Text, RenderFault>
    ensures shown { clauses_plain (clauses_view clauses.now) ≡ true → Shows result (clauses_shown (full_render alone levels) (scope_in assigns.now variables.old) (view value) (clauses_view clauses.now)) }
    ensures scope { OnOk result (variables.new ≡ variables.old) }
{
    'clauses: for clause in clauses.as_slice() {
        if matches(&clause.pattern, &value) {
            return clause_text(alloc, clause, value, assigns, variables, levels);
        }
    }
    Err(RenderFault::Raised)
}

// A clause that matches a value.
#[cycle(plain)]
fn clause_text(
    alloc: Global,
    clause: &Clause,
    value: Value,
    assigns: &Assigns,
    variables: &mut Variables,
    levels: usize,
) -> Result<Text, RenderFault>
    ensures shown { (bound : Assigns) → all_plain (clause_view clause.now).1 ≡ true → binding (pattern_view clause.now.pattern) (view value) ≡ Some bound
        → Shows result (full_render alone levels (bind bound (scope_in assigns.now variables.old)) (clause_view clause.now).1) }
    ensures scope { OnOk result (variables.new ≡ variables.old) }
{
    match binding(alloc, &clause.pattern, value)? {
        Some(bound) => inside_text(alloc, &clause.body, bound, assigns, variables, levels),
        None => Err(RenderFault::Raised),
    }
}

// The rows of a body, one for each scope.
#[cycle(plain)]
fn rows_text(
    alloc: Global,
    body: &Nodes,
    scopes: Seq<Bindings>,
    assigns: &Assigns,
    variables: &mut Variables,
    levels: usize,
) -> Result<Text, RenderFault>
    ensures shown { (envs : List Env) → all_plain (nodes_view body.now) ≡ true → AreScopes assigns.now variables.old scopes envs → Shows result (on_res flat (full_rows (full_render alone levels) (nodes_view body.now) envs)) }
    ensures scope { OnOk result (variables.new ≡ variables.old) }
{
    let mut text = Text::new(alloc);
    'scopes: for scope in scopes.into_vec() {
        let row = inside_text(alloc, body, scope, assigns, variables, levels)?;
        text.push_str(row.as_str())?;
    }
    Ok(text)
}

// A body in a scope.
#[cycle(plain)]
fn inside_text(
    alloc: Global,
    body: &Nodes,
    scope: Bindings,
    assigns: &Assigns,
    variables: &mut Variables,
    levels: usize,
) -> Result<Text, RenderFault>
    ensures shown { all_plain (nodes_view body.now) ≡ true → Shows result (full_render alone levels (bind (assigns_view scope) (scope_in assigns.now variables.old)) (nodes_view body.now)) }
    ensures scope { OnOk result (variables.new ≡ variables.old) }
{
    variables.enter(scope)?;
    let text = body_text(alloc, body, assigns, variables, levels)?;
    let _scope = variables.leave();
    Ok(text)
}

// An element of the texts of its attributes and of its children.
fn element_text(
    alloc: Global,
    name: &str,
    attributes: &str,
    inside: &str,
) -> Result<Text, OutOfMemory>
    ensures { IfOk result (λ t. t ≡ element_text name.now attributes.now inside.now) }
{
    let mut text = Text::copy_of(alloc, "<")?;
    text.push_str(name)?;
    text.push_str(attributes)?;
    text.push_str(">")?;
    text.push_str(inside)?;
    let end = end_tag(alloc, name)?;
    text.push_str(end.as_str())?;
    Ok(text)
}

// The end tag, of an element that has one.
fn end_tag(alloc: Global, name: &str) -> Result<Text, OutOfMemory>
    ensures { IfOk result (λ t. t ≡ closing name.now) }
{
    let mut text = Text::new(alloc);
    if is_void(name) {
        return Ok(text);
    }
    text.push_str("</")?;
    text.push_str(name)?;
    text.push_str(">")?;
    Ok(text)
}

fn attributes_text(
    alloc: Global,
    attributes: &Attributes,
    assigns: &Assigns,
    variables: &Variables,
) -> Result<Text, RenderFault>
    ensures { (go : Deeper (List ℕ)) → Shows result (full_attributes alone go (scope_in assigns.now variables.now) (attributes_view attributes.now)) }
{
    let mut text = Text::new(alloc);
    'attributes: for attribute in attributes.as_slice() {
        let more = attribute_shown(alloc, attribute, assigns, variables)?;
        text.push_str(more.as_str())?;
    }
    Ok(text)
}

fn attribute_shown(
    alloc: Global,
    attribute: &Attribute,
    assigns: &Assigns,
    variables: &Variables,
) -> Result<Text, RenderFault>
    ensures { Shows result (one_attribute (scope_in assigns.now variables.now) attribute.now.name attribute.now.value) }
{
    let name = attribute.name.as_str();
    match &attribute.value {
        AttributeValue::Double(value) => Ok(quoted(alloc, name, value.as_str(), "\"")?),
        AttributeValue::Single(value) => Ok(quoted(alloc, name, value.as_str(), "'")?),
        AttributeValue::Bare => Ok(named(alloc, name)?),
        AttributeValue::Put(expr) => show_attribute(alloc, assigns, variables, name, expr),
        AttributeValue::Spread(expr) => show_spread(alloc, assigns, variables, expr),
        AttributeValue::Module(_) => Ok(Text::new(alloc)),
    }
}

// The name of an attribute, behind a space.
fn named(alloc: Global, name: &str) -> Result<Text, OutOfMemory>
    ensures { IfOk result (λ t. t ≡ 32 ∷ name.now) }
{
    let mut text = Text::copy_of(alloc, " ")?;
    text.push_str(name)?;
    Ok(text)
}

fn quoted(alloc: Global, name: &str, value: &str, quote: &str) -> Result<Text, OutOfMemory>
    ensures { IfOk result (λ t. t ≡ 32 ∷ (name.now ++ ((61 ∷ quote.now) ++ (value.now ++ quote.now)))) }
{
    let mut text = named(alloc, name)?;
    text.push_str("=")?;
    text.push_str(quote)?;
    text.push_str(value)?;
    text.push_str(quote)?;
    Ok(text)
}
