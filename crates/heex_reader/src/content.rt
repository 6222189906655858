//! How nodes are put together.
ghost use Rattle.std.specs.Prelude.{◌≡◌, ◌∷◌, [], ◌++◌, IfOk, map};
ghost use Rattle.ast_core.specs.Syntax.{text_node};
ghost use Rattle.ast_core.specs.NodeView.{node_view, entry_view};
ghost use Rattle.heex_reader.specs.Contents as contents;
ghost use Rattle.heex_reader.specs.Seen.{content_view};

use ast_core::{Entries, Entry, Node, Nodes};
use std::alloc::Global;
use text_core::{OutOfMemory, Seq, Text};

/// What stands in a template or a tag: the nodes, and in a call its slot entries.
#[derive(Drop)]
pub(crate) struct Content {
    pub nodes: Nodes,
    pub entries: Entries,
}

impl Content {
    /// Nothing yet.
    pub(crate) fn new(alloc: Global) -> Content
        ensures { content_view result ≡ contents.nothing_yet }
    {
        Content {
            nodes: Seq::new(alloc),
            entries: Seq::new(alloc),
        }
    }
}

/// The nodes alone.
pub(crate) fn nodes_in(content: Content) -> Nodes
    ensures { result ≡ content.nodes }
{
    let Content {
        nodes,
        entries: _entries,
    } = content;
    nodes
}

// One more node.
#[tactic(auto, using(crate::proofs::Nodes::nodes_more))]
fn pushed(nodes: Nodes, node: Node) -> Result<Nodes, OutOfMemory>
    ensures { IfOk result (λ ns. map node_view ns ≡ map node_view nodes ++ node_view node ∷ []) }
{
    let mut nodes = nodes;
    nodes.push(node)?;
    Ok(nodes)
}

// Two texts side by side are one.
#[tactic(auto, using(crate::proofs::Nodes::sees_text))]
fn joined(nodes: Nodes, before: Text, text: Text) -> Result<Nodes, OutOfMemory>
    ensures { IfOk result (λ ns. map node_view ns ≡ map node_view nodes ++ text_node (before ++ text) ∷ []) }
{
    let mut before = before;
    before.push_str(text.as_str())?;
    pushed(nodes, Node::Text(before))
}

#[tactic(auto, using(crate::proofs::Nodes::sees_text))]
fn both(nodes: Nodes, last: Node, text: Text) -> Result<Nodes, OutOfMemory>
    ensures { IfOk result (λ ns. map node_view ns ≡ map node_view nodes ++ node_view last ∷ text_node text ∷ []) }
{
    let nodes = pushed(nodes, last)?;
    pushed(nodes, Node::Text(text))
}

// A text behind the last of some nodes.
#[tactic(auto, using(crate::proofs::Nodes::sees_text))]
fn beside(nodes: Nodes, last: Node, text: Text) -> Result<Nodes, OutOfMemory>
    ensures { IfOk result (λ ns. map node_view ns ≡ map node_view nodes ++ contents.side_by_side (node_view last) (text_node text)) }
{
    match last {
        Node::Text(before) => joined(nodes, before, text),
        other => both(nodes, other, text),
    }
}

fn then_text(nodes: Nodes, text: Text) -> Result<Nodes, OutOfMemory>
    ensures { IfOk result (λ ns. map node_view ns ≡ contents.then_node (map node_view nodes) (text_node text)) }
{
    let mut nodes = nodes;
    match nodes.pop() {
        Some(last) => beside(nodes, last, text),
        None => pushed(nodes, Node::Text(text)),
    }
}

fn then_node(nodes: Nodes, node: Node) -> Result<Nodes, OutOfMemory>
    ensures { IfOk result (λ ns. map node_view ns ≡ contents.then_node (map node_view nodes) (node_view node)) }
{
    match node {
        Node::Text(text) => then_text(nodes, text),
        other => pushed(nodes, other),
    }
}

/// A node behind what stands there; two texts side by side are one.
pub(crate) fn with_node(content: Content, node: Node) -> Result<Content, OutOfMemory>
    ensures { IfOk result (λ c. content_view c ≡ contents.add_node (node_view node) (content_view content)) }
{
    let Content { nodes, entries } = content;
    let nodes = then_node(nodes, node)?;
    Ok(Content { nodes, entries })
}

/// A slot entry behind those that stand there.
#[tactic(auto, using(crate::proofs::Nodes::entries_more))]
pub(crate) fn with_entry(content: Content, entry: Entry) -> Result<Content, OutOfMemory>
    ensures { IfOk result (λ c. content_view c ≡ record (content_view content) { entries = map entry_view content.entries ++ entry_view entry ∷ [] }) }
{
    let Content { nodes, entries } = content;
    let mut entries = entries;
    entries.push(entry)?;
    Ok(Content { nodes, entries })
}
