//! What a text is read as, in one line.
//!
//! A text stands between `'`. An element is its name and its place, as `b@1:1`, with its attributes in `[ ]` and what
//! stands in it in `( )`, where there is any. Expressions and patterns are left out: `put@1:1` is a value, `if@1:1()()`
//! a choice with both of its branches, `for@1:1()` a loop, `case@1:1()()` a case with its clauses. `call card@1:1` and
//! `live@1:1` are calls, with `+let` where they bind their argument and their slot entries in `{ }`; an entry is its
//! name and its place, with `+for`, `+if` and `+let` where it has them. `slot@1:1` renders a slot, `slot+argument@1:1`
//! with an argument. A refusal is its place and its kind, as `1:5 WrongClose`.
use ast_core::{
    Attribute, AttributeValue, Attributes, Clause, Clauses, Entries, Entry, Location, Node, Nodes,
    Place, SlotBody,
};
use heex_reader::{TemplateFault, TemplateKind, read_nodes};
use std::alloc::{AllocError, Global};
use std::test::Fail;

fn write_place(out: &mut String, at: Location) -> Result<(), AllocError> {
    write!(out, "@{}:{}", at.line, at.column)
}

fn write_attribute(out: &mut String, attribute: &Attribute) -> Result<(), AllocError> {
    out.push_str(attribute.name.as_str())?;
    match &attribute.value {
        AttributeValue::Double(text) => write!(out, "=\"{}\"", text.as_str())?,
        AttributeValue::Single(text) => write!(out, "='{}'", text.as_str())?,
        AttributeValue::Bare => {}
        AttributeValue::Put(_) => out.push_str("={}")?,
        AttributeValue::Spread(_) => out.push_str("{}")?,
        AttributeValue::Module(name) => write!(out, "={}", name.as_str())?,
    }
    write_place(out, attribute.at)
}

fn write_attributes(out: &mut String, attributes: &Attributes) -> Result<(), AllocError> {
    let mut mark = "[";
    for attribute in attributes.as_slice() {
        out.push_str(mark)?;
        write_attribute(out, attribute)?;
        mark = " ";
    }
    if mark == " " {
        out.push(']')?;
    }
    Ok(())
}

// Nodes with spaces between them.
#[cycle(node)]
fn write_nodes(out: &mut String, nodes: &Nodes) -> Result<(), AllocError> {
    let mut is_first = true;
    for node in nodes.as_slice() {
        if !is_first {
            out.push(' ')?;
        }
        write_node(out, node)?;
        is_first = false;
    }
    Ok(())
}

// Nodes between parentheses.
#[cycle(node)]
fn write_inner(out: &mut String, nodes: &Nodes) -> Result<(), AllocError> {
    out.push('(')?;
    write_nodes(out, nodes)?;
    out.push(')')
}

// Nodes between parentheses, where there are any.
#[cycle(node)]
fn write_content(out: &mut String, nodes: &Nodes) -> Result<(), AllocError> {
    if nodes.is_empty() {
        return Ok(());
    }
    write_inner(out, nodes)
}

#[cycle(node)]
fn write_node(out: &mut String, node: &Node) -> Result<(), AllocError> {
    match node {
        Node::Text(text) => write!(out, "'{}'", text.as_str()),
        Node::Element {
            at,
            name,
            attributes,
            children,
        } => {
            out.push_str(name.as_str())?;
            write_place(out, *at)?;
            write_attributes(out, attributes)?;
            write_content(out, children)
        }
        Node::Place { at, place } => write_changing(out, place, *at),
    }
}

#[cycle(node)]
fn write_changing(out: &mut String, place: &Place, at: Location) -> Result<(), AllocError> {
    match place {
        Place::Put(_) => {
            out.push_str("put")?;
            write_place(out, at)
        }
        Place::If { test: _, yes, no } => {
            out.push_str("if")?;
            write_place(out, at)?;
            write_inner(out, yes)?;
            write_inner(out, no)
        }
        Place::Case { value: _, clauses } => {
            out.push_str("case")?;
            write_place(out, at)?;
            write_clauses(out, clauses)
        }
        Place::For {
            pattern: _,
            list: _,
            body,
        } => {
            out.push_str("for")?;
            write_place(out, at)?;
            write_inner(out, body)
        }
        Place::Call {
            template,
            attributes,
            content,
            entries,
        } => {
            write!(out, "call {}", template.as_str())?;
            write_place(out, at)?;
            write_attributes(out, attributes)?;
            write_body(out, content)?;
            write_entries(out, entries)
        }
        Place::LiveCall {
            attributes,
            content,
            entries,
        } => {
            out.push_str("live")?;
            write_place(out, at)?;
            write_attributes(out, attributes)?;
            write_body(out, content)?;
            write_entries(out, entries)
        }
        Place::RenderSlot { value: _, argument } => {
            out.push_str("slot")?;
            if argument.is_some() {
                out.push_str("+argument")?;
            }
            write_place(out, at)
        }
        Place::StreamFor {
            stream: _,
            id: _,
            pattern: _,
            body,
        } => {
            out.push_str("stream")?;
            write_place(out, at)?;
            write_inner(out, body)
        }
    }
}

#[cycle(node)]
fn write_clauses(out: &mut String, clauses: &Clauses) -> Result<(), AllocError> {
    for clause in clauses.as_slice() {
        write_clause(out, clause)?;
    }
    Ok(())
}

#[cycle(node)]
fn write_clause(out: &mut String, clause: &Clause) -> Result<(), AllocError> {
    write_inner(out, &clause.body)
}

#[cycle(node)]
fn write_body(out: &mut String, body: &SlotBody) -> Result<(), AllocError> {
    if body.pattern.is_some() {
        out.push_str("+let")?;
    }
    write_content(out, &body.nodes)
}

#[cycle(node)]
fn write_entries(out: &mut String, entries: &Entries) -> Result<(), AllocError> {
    let mut mark = '{';
    for entry in entries.as_slice() {
        out.push(mark)?;
        write_entry(out, entry)?;
        mark = ' ';
    }
    if mark == ' ' {
        out.push('}')?;
    }
    Ok(())
}

#[cycle(node)]
fn write_entry(out: &mut String, entry: &Entry) -> Result<(), AllocError> {
    out.push_str(entry.slot.as_str())?;
    write_place(out, entry.at)?;
    write_attributes(out, &entry.attributes)?;
    if entry.generator.is_some() {
        out.push_str("+for")?;
    }
    if entry.test.is_some() {
        out.push_str("+if")?;
    }
    write_body(out, &entry.body)
}

fn write_refusal(out: &mut String, place: Location, kind: TemplateKind) -> Result<(), AllocError> {
    write!(out, "{}:{} ", place.line, place.column)?;
    match kind {
        TemplateKind::Token(kind) => write!(out, "{kind:?}"),
        TemplateKind::BadExpr(kind) => write!(out, "BadExpr {kind:?}"),
        kind => write!(out, "{kind:?}"),
    }
}

/// What a text is read as.
pub(crate) fn printed(alloc: Global, text: &str) -> Result<String, Fail> {
    if text.len() >= 4294967295 {
        return Err("too long")?;
    }
    let mut out = String::new(alloc);
    match read_nodes(alloc, text) {
        Ok(nodes) => write_nodes(&mut out, &nodes)?,
        Err(TemplateFault::Refused { place, kind }) => write_refusal(&mut out, place, kind)?,
        Err(TemplateFault::OutOfMemory) => return Err("out of memory")?,
    }
    Ok(out)
}
