//! The nodes of tags.
ghost use Rattle.std.specs.Prelude.{◌≡◌, ◌==◌, ◌∷◌, [], IfOk, drop, option_map, true};
ghost use Rattle.ast_core.specs.Syntax as model;
ghost use Rattle.ast_core.specs.ExprView.{expr_view};
ghost use Rattle.ast_core.specs.PatternView.{pattern_view};
ghost use Rattle.ast_core.specs.NodeView.{location_of, generator_view, nodes_view, node_view, entry_view, body_view};
ghost use Rattle.heex_token.specs.Tokens.{first_is};
ghost use Rattle.heex_reader.specs.Contents as contents;
ghost use Rattle.heex_reader.specs.Seen.{tag_view, content_view, kind_view, kind_of_call, has_mark, is_entry};

use crate::content::{Content, with_entry, with_node};
use crate::sign::Tag;
use ast_core::{Entry, Expr, Generator, Location, Node, Nodes, Pattern, Place, SlotBody};
use std::alloc::Global;
use text_core::{OutOfMemory, Seq, Text};

/// What a tag is.
#[derive(Clone, Copy)]
pub(crate) enum TagKind {
    Element,
    Call,
    LiveCall,
    Slot,
}

// What a tag is whose name begins with a dot.
fn kind_of_call(name: &str) -> TagKind
    ensures { kind_view result ≡ kind_of_call name.now }
{
    if name == ".live_component" {
        TagKind::LiveCall
    } else {
        TagKind::Call
    }
}

/// What a tag of this name is.
pub(crate) fn kind_of_tag(name: &str) -> TagKind
    ensures { kind_view result ≡ contents.kind_of_tag name.now }
{
    match name.as_bytes() {
        [b'.', ..] => kind_of_call(name),
        [b':', ..] => TagKind::Slot,
        _ => TagKind::Element,
    }
}

// Whether slot entries stand directly inside.
fn takes_entries(kind: TagKind) -> bool
    ensures { result ≡ contents.takes_entries (kind_view kind) }
{
    match kind {
        TagKind::Element => false,
        TagKind::Call => true,
        TagKind::LiveCall => true,
        TagKind::Slot => false,
    }
}

/// Whether what stands in a tag of this name stands directly in a call.
pub(crate) fn is_call(name: &str) -> bool
    ensures { result ≡ contents.takes_entries (contents.kind_of_tag name.now) }
{
    takes_entries(kind_of_tag(name))
}

// Whether a tag is a slot entry of the call in which it stands.
fn is_entry(kind: TagKind, in_call: bool) -> bool
    ensures { result ≡ is_entry (kind_view kind) in_call }
{
    match kind {
        TagKind::Slot => in_call,
        TagKind::Element => false,
        TagKind::Call => false,
        TagKind::LiveCall => false,
    }
}

// A name behind its colon.
fn behind_colon(name: &str) -> &str
    ensures { first_is (λ b. b == 58) name.entry.now ≡ true → result.now ≡ drop 1 name.entry.now }
{
    match name.strip_prefix(':') {
        Some(rest) => rest,
        None => name,
    }
}

// A name behind its dot or colon.
fn behind_mark(name: &str) -> &str
    ensures { has_mark (contents.kind_of_tag name.entry.now) ≡ true → result.now ≡ drop 1 name.entry.now }
{
    match name.strip_prefix('.') {
        Some(rest) => rest,
        None => behind_colon(name),
    }
}

// What stands in a call or a slot entry. Linking gives it its number.
#[tactic(auto, using(crate::proofs::Nodes::sees_body))]
fn slot_body(binds: Option<Pattern>, nodes: Nodes) -> SlotBody
    ensures { body_view result ≡ model.slot_body 0 (contents.or_any (option_map pattern_view binds)) (nodes_view nodes) }
{
    SlotBody {
        number: 0,
        pattern: binds,
        nodes,
    }
}

fn only(alloc: Global, node: Node) -> Result<Nodes, OutOfMemory>
    ensures { IfOk result (λ ns. ns ≡ node ∷ []) }
{
    let mut nodes = Seq::new(alloc);
    nodes.push(node)?;
    Ok(nodes)
}

// A node within its `:if`.
#[tactic(auto, using(crate::proofs::Nodes::sees_place, crate::proofs::Nodes::sees_if))]
fn tested(alloc: Global, at: Location, test: Option<Expr>, node: Node) -> Result<Node, OutOfMemory>
    ensures { IfOk result (λ n. node_view n ≡ contents.tested (location_of at) (option_map expr_view test) (node_view node)) }
{
    match test {
        Some(test) => {
            let yes = only(alloc, node)?;
            let no = Seq::new(alloc);
            Ok(Node::Place {
                at,
                place: Place::If { test, yes, no },
            })
        }
        None => Ok(node),
    }
}

// A node within its `:for`.
#[tactic(auto, using(crate::proofs::Nodes::sees_place, crate::proofs::Nodes::sees_for))]
fn repeated(
    alloc: Global,
    at: Location,
    generator: Option<Generator>,
    node: Node,
) -> Result<Node, OutOfMemory>
    ensures { IfOk result (λ n. node_view n ≡ contents.repeated (location_of at) (option_map generator_view generator) (node_view node)) }
{
    match generator {
        Some(generator) => {
            let Generator { pattern, list } = generator;
            let body = only(alloc, node)?;
            Ok(Node::Place {
                at,
                place: Place::For {
                    pattern,
                    list,
                    body,
                },
            })
        }
        None => Ok(node),
    }
}

// A call of a template.
#[tactic(auto, using(crate::proofs::Nodes::sees_place, crate::proofs::Nodes::sees_call))]
fn call_node(alloc: Global, at: Location, tag: Tag, inner: Content) -> Result<Node, OutOfMemory>
    ensures { has_mark (contents.kind_of_tag tag.name) ≡ true → IfOk result (λ n. node_view n ≡ contents.bare_node contents.of_call (location_of at) (tag_view tag) (content_view inner)) }
{
    let template = Text::copy_of(alloc, behind_mark(tag.name.as_str()))?;
    let content = slot_body(tag.binds, inner.nodes);
    Ok(Node::Place {
        at,
        place: Place::Call {
            template,
            attributes: tag.attributes,
            content,
            entries: inner.entries,
        },
    })
}

// A call of a LiveComponent.
#[tactic(auto, using(crate::proofs::Nodes::sees_place, crate::proofs::Nodes::sees_live_call))]
fn live_call_node(at: Location, tag: Tag, inner: Content) -> Node
    ensures { node_view result ≡ contents.bare_node contents.of_live_call (location_of at) (tag_view tag) (content_view inner) }
{
    let content = slot_body(tag.binds, inner.nodes);
    Node::Place {
        at,
        place: Place::LiveCall {
            attributes: tag.attributes,
            content,
            entries: inner.entries,
        },
    }
}

#[tactic(auto, using(crate::proofs::Nodes::sees_element))]
fn element_node(at: Location, tag: Tag, inner: Content) -> Node
    ensures { node_view result ≡ contents.bare_node contents.of_element (location_of at) (tag_view tag) (content_view inner) }
{
    Node::Element {
        at,
        name: tag.name,
        attributes: tag.attributes,
        children: inner.nodes,
    }
}

// The node of a tag without its `:if` and `:for`.
fn bare_node(alloc: Global, at: Location, tag: Tag, inner: Content) -> Result<Node, OutOfMemory>
    ensures { IfOk result (λ n. node_view n ≡ contents.bare_node (contents.kind_of_tag tag.name) (location_of at) (tag_view tag) (content_view inner)) }
{
    match kind_of_tag(tag.name.as_str()) {
        TagKind::Call => call_node(alloc, at, tag, inner),
        TagKind::LiveCall => Ok(live_call_node(at, tag, inner)),
        TagKind::Element => Ok(element_node(at, tag, inner)),
        TagKind::Slot => Ok(element_node(at, tag, inner)),
    }
}

// The node of a tag.
#[tactic(auto, using(crate::proofs::Tags::bare_alone))]
fn node_of(alloc: Global, at: Location, tag: Tag, inner: Content) -> Result<Node, OutOfMemory>
    ensures { IfOk result (λ n. node_view n ≡ contents.node_of (contents.kind_of_tag tag.name) (location_of at) (tag_view tag) (content_view inner)) }
{
    let Tag {
        name,
        attributes,
        generator,
        test,
        binds,
    } = tag;
    let alone = Tag {
        name,
        attributes,
        generator: None,
        test: None,
        binds,
    };
    let node = bare_node(alloc, at, alone, inner)?;
    let node = tested(alloc, at, test, node)?;
    repeated(alloc, at, generator, node)
}

// The entry of a slot's tag.
#[tactic(auto, using(crate::proofs::Nodes::sees_entry))]
fn entry_of(alloc: Global, at: Location, tag: Tag, inner: Content) -> Result<Entry, OutOfMemory>
    ensures { has_mark (contents.kind_of_tag tag.name) ≡ true → IfOk result (λ e. entry_view e ≡ contents.entry_of (location_of at) (tag_view tag) (content_view inner)) }
{
    let slot = Text::copy_of(alloc, behind_mark(tag.name.as_str()))?;
    let body = slot_body(tag.binds, inner.nodes);
    Ok(Entry {
        at,
        slot,
        generator: tag.generator,
        test: tag.test,
        attributes: tag.attributes,
        body,
    })
}

/// A tag with what stands in it, behind what stands before it; whether that stands directly in a call.
#[tactic(auto, using(crate::proofs::Tags::adds_entry, crate::proofs::Tags::adds_node, crate::proofs::Tags::entry_has_mark))]
pub(crate) fn add_tag(
    alloc: Global,
    in_call: bool,
    at: Location,
    tag: Tag,
    inner: Content,
    before: Content,
) -> Result<Content, OutOfMemory>
    ensures { IfOk result (λ c. content_view c ≡ contents.add_tag in_call (location_of at) (tag_view tag) (content_view inner) (content_view before)) }
{
    let kind = kind_of_tag(tag.name.as_str());
    if is_entry(kind, in_call) {
        let entry = entry_of(alloc, at, tag, inner)?;
        return with_entry(before, entry);
    }
    let node = node_of(alloc, at, tag, inner)?;
    with_node(before, node)
}
