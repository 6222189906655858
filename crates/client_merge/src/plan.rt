//! What a node that was sent changes in a held tree, found before anything is changed.
ghost use Rattle.std.specs.Prelude.{◌≡◌, ℕ, List, None, true, option_map, IfOk};
ghost use Rattle.std.specs.Option.{is_some};
ghost use Rattle.std.specs.Result.{IsErrOf};
ghost use Rattle.client_merge.specs.declared.fault.MergeFault.TheVariants as MergeFault;
ghost use Rattle.diff_tree.specs.Parts.{part_data, place_data, node_data, list_data};
ghost use Rattle.diff_tree.specs.Tree.{node, inner};
ghost use Rattle.client_merge.specs.Reading.{change_of, merge_data};
ghost use Rattle.client_merge.specs.Held.{held_tree, held_trees, sent_node};
ghost use Rattle.client_merge.specs.Planned.{planned, planned_all, merged, merged_all};

use crate::number::place_below;
use crate::take::{refuse_stream, take_node, take_rows};
use crate::{HeldNode, HeldRow, MergeFault};
use diff_tree::{Part, PartBody, PlaceValue, Row, StreamPart};
use std::alloc::Global;
use text_core::{ByKey, KeyValue, Seq};

/// A change of a held tree that is known to fit it.
#[cycle(change)]
#[derive(Debug, Drop)]
pub(crate) enum HeldChange {
    /// Another tree takes its place.
    Write(HeldNode),
    /// Some of its places change.
    Inner(Seq<PlaceChange>),
    /// Other rows stand under its statics.
    Rows(Seq<HeldRow>),
}

/// The change of one place.
#[cycle(change)]
#[derive(Debug, Drop)]
pub(crate) struct PlaceChange {
    pub(crate) place: usize,
    pub(crate) change: HeldChange,
}

/// What a node that was sent changes in a held tree.
#[cycle(plan)]
pub(crate) fn plan_node(
    alloc: Global,
    part: Part,
    held: &HeldNode,
) -> Result<HeldChange, MergeFault>
    ensures ok { IfOk result (λ c. (planned c ≡ change_of (part_data part)) × (is_some (merged (held_tree held.now) (planned c)) ≡ true)) }
    ensures bad { IsErrOf result MergeFault.BadFrame → merge_data (held_tree held.now) (part_data part) ≡ None }
{
    let (statics, body) = part.into_parts();
    match statics {
        Some(statics) => Ok(HeldChange::Write(take_node(alloc, statics, body)?)),
        None => plan_body(alloc, body, held),
    }
}

// What a node that was sent without statics changes.
#[cycle(plan)]
fn plan_body(alloc: Global, body: PartBody, held: &HeldNode) -> Result<HeldChange, MergeFault>
    ensures ok { IfOk result (λ c. (planned c ≡ change_of (sent_node None body)) × (is_some (merged (held_tree held.now) (planned c)) ≡ true)) }
    ensures bad { IsErrOf result MergeFault.BadFrame → merge_data (held_tree held.now) (sent_node None body) ≡ None }
{
    match body {
        PartBody::Places(places) => plan_inner(alloc, places, held),
        PartBody::List { rows, stream } => plan_rows(alloc, rows, stream, held),
    }
}

// Values of places change a node alone.
#[cycle(plan)]
fn plan_inner(
    alloc: Global,
    places: ByKey<PlaceValue>,
    held: &HeldNode,
) -> Result<HeldChange, MergeFault>
    ensures ok { IfOk result (λ c. (planned c ≡ change_of (node_data None places)) × (is_some (merged (held_tree held.now) (planned c)) ≡ true)) }
    ensures bad { IsErrOf result MergeFault.BadFrame → merge_data (held_tree held.now) (node_data None places) ≡ None }
{
    match held {
        HeldNode::Node {
            statics: _,
            places: held,
        } => Ok(HeldChange::Inner(plan_places(alloc, places, held)?)),
        HeldNode::Text(_) => Err(MergeFault::BadFrame),
        HeldNode::List { .. } => Err(MergeFault::BadFrame),
    }
}

// Rows change a list alone.
fn plan_rows(
    alloc: Global,
    rows: Seq<Row>,
    stream: Option<StreamPart>,
    held: &HeldNode,
) -> Result<HeldChange, MergeFault>
    ensures ok { IfOk result (λ c. (planned c ≡ change_of (list_data None rows stream)) × (is_some (merged (held_tree held.now) (planned c)) ≡ true)) }
    ensures bad { IsErrOf result MergeFault.BadFrame → merge_data (held_tree held.now) (list_data None rows stream) ≡ None }
{
    refuse_stream(stream)?;
    match held {
        HeldNode::List { statics, rows: _ } => {
            Ok(HeldChange::Rows(take_rows(alloc, rows, statics.len())?))
        }
        HeldNode::Text(_) => Err(MergeFault::BadFrame),
        HeldNode::Node { .. } => Err(MergeFault::BadFrame),
    }
}

#[cycle(plan)]
fn plan_value(alloc: Global, value: PlaceValue, held: &HeldNode) -> Result<HeldChange, MergeFault>
    ensures ok { IfOk result (λ c. (planned c ≡ change_of (place_data value)) × (is_some (merged (held_tree held.now) (planned c)) ≡ true)) }
    ensures bad { IsErrOf result MergeFault.BadFrame → merge_data (held_tree held.now) (place_data value) ≡ None }
{
    match value {
        PlaceValue::Text(text) => Ok(HeldChange::Write(HeldNode::Text(text))),
        // Components are not held.
        PlaceValue::Number(_) => Err(MergeFault::BadFrame),
        PlaceValue::Node(part) => plan_node(alloc, part, held),
    }
}

#[cycle(plan)]
fn plan_places(
    alloc: Global,
    places: ByKey<PlaceValue>,
    held: &Seq<HeldNode>,
) -> Result<Seq<PlaceChange>, MergeFault>
    ensures ok { IfOk result (λ ps. (option_map inner (planned_all ps) ≡ change_of (node_data None places)) × (is_some (merged_all (held_trees held.now) (planned_all ps)) ≡ true)) }
    ensures bad { IsErrOf result MergeFault.BadFrame → (st : List (List ℕ)) → merge_data (node st (held_trees held.now)) (node_data None places) ≡ None }
{
    let mut changes = Seq::new(alloc);
    'places: for KeyValue { key, value } in places.into_vec() {
        let place = place_below(key.as_str(), held.len())?;
        let change = plan_value(alloc, value, &held.as_slice()[place])?;
        changes.push(PlaceChange { place, change })?;
    }
    Ok(changes)
}
