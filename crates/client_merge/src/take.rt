//! Whole trees, taken from nodes as they are sent.
ghost use Rattle.std.specs.Prelude.{◌≡◌, Some, None, true, ◌==◌, suc, length, map, codes, IfOk, OnOk, OnErr};
ghost use Rattle.std.specs.Option.{is_some};
ghost use Rattle.std.specs.Result.{IsErrOf};
ghost use Rattle.client_merge.specs.declared.fault.MergeFault.TheVariants as MergeFault;
ghost use Rattle.serde_json.specs.View.{items_of};
ghost use Rattle.diff_tree.specs.Parts.{part_data, place_data, node_data, list_data};
ghost use Rattle.text_core.specs.Keyed.{without_key};
ghost use Rattle.client_merge.specs.Reading.{tree_of, listed_row};
ghost use Rattle.client_merge.specs.Held.{held_tree, held_trees, held_row, held_rows, trees_in, sent_node, row_sent, rows_sent, blank_trees};

use crate::number::place_below;
use crate::{HeldNode, HeldRow, MergeFault};
use diff_tree::{Part, PartBody, PlaceValue, Row, StreamPart};
use std::alloc::Global;
use text_core::{ByKey, KeyValue, Names, OutOfMemory, Seq, Text};

/// The tree that a node is, where it is sent whole; else BadFrame.
pub fn take_tree(alloc: Global, part: Part) -> Result<HeldNode, MergeFault>
    ensures ok { IfOk result (λ h. tree_of (part_data part) ≡ Some (held_tree h)) }
    ensures bad { IsErrOf result MergeFault.BadFrame → tree_of (part_data part) ≡ None }
{
    take_part(alloc, part)
}

#[cycle(take)]
fn take_part(alloc: Global, part: Part) -> Result<HeldNode, MergeFault>
    ensures ok { IfOk result (λ h. tree_of (part_data part) ≡ Some (held_tree h)) }
    ensures bad { IsErrOf result MergeFault.BadFrame → tree_of (part_data part) ≡ None }
{
    let (statics, body) = part.into_parts();
    match statics {
        Some(statics) => take_node(alloc, statics, body),
        None => Err(MergeFault::BadFrame),
    }
}

/// The tree of these statics, and of what is sent between them.
#[cycle(take)]
pub(crate) fn take_node(
    alloc: Global,
    statics: Names,
    body: PartBody,
) -> Result<HeldNode, MergeFault>
    ensures ok { IfOk result (λ h. tree_of (sent_node (Some statics) body) ≡ Some (held_tree h)) }
    ensures bad { IsErrOf result MergeFault.BadFrame → tree_of (sent_node (Some statics) body) ≡ None }
{
    match body {
        PartBody::Places(places) => take_place_node(alloc, statics, places),
        PartBody::List { rows, stream } => take_list(alloc, statics, rows, stream),
    }
}

// A node of places.
#[cycle(take)]
fn take_place_node(
    alloc: Global,
    statics: Names,
    places: ByKey<PlaceValue>,
) -> Result<HeldNode, MergeFault>
    ensures ok { IfOk result (λ h. tree_of (node_data (Some statics) places) ≡ Some (held_tree h)) }
    ensures bad { IsErrOf result MergeFault.BadFrame → tree_of (node_data (Some statics) places) ≡ None }
{
    let places = take_places(alloc, places)?;
    Ok(HeldNode::Node { statics, places })
}

#[cycle(take)]
fn take_list(
    alloc: Global,
    statics: Names,
    rows: Seq<Row>,
    stream: Option<StreamPart>,
) -> Result<HeldNode, MergeFault>
    ensures ok { IfOk result (λ h. tree_of (list_data (Some statics) rows stream) ≡ Some (held_tree h)) }
    ensures bad { IsErrOf result MergeFault.BadFrame → tree_of (list_data (Some statics) rows stream) ≡ None }
{
    refuse_stream(stream)?;
    let rows = take_rows(alloc, rows, statics.len())?;
    Ok(HeldNode::List { statics, rows })
}

/// Streams are not held.
pub(crate) fn refuse_stream(stream: Option<StreamPart>) -> Result<(), MergeFault>
    ensures ok { OnOk result (stream ≡ None) }
    ensures bad { OnErr result (is_some stream ≡ true) }
{
    match stream {
        Some(_stream) => Err(MergeFault::BadFrame),
        None => Ok(()),
    }
}

/// The rows that are sent under so many statics; a BadFrame where a row has not as many values as there are places.
#[cycle(take)]
pub(crate) fn take_rows(
    alloc: Global,
    rows: Seq<Row>,
    statics: usize,
) -> Result<Seq<HeldRow>, MergeFault>
    ensures ok { IfOk result (λ hs. rows_sent statics rows ≡ Some (held_rows hs)) }
    ensures bad { IsErrOf result MergeFault.BadFrame → rows_sent statics rows ≡ None }
{
    let mut taken = Seq::new(alloc);
    'rows: for row in rows.into_vec() {
        taken.push(take_row(alloc, row, statics)?)?;
    }
    Ok(taken)
}

#[cycle(take)]
fn take_row(alloc: Global, row: Row, statics: usize) -> Result<HeldRow, MergeFault>
    ensures ok { IfOk result (λ h. row_sent statics row ≡ Some (held_row h)) }
    ensures bad { IsErrOf result MergeFault.BadFrame → row_sent statics row ≡ None }
{
    let values = take_values(alloc, row.into_values())?;
    if !stand_between(&values, statics) {
        return Err(MergeFault::BadFrame);
    }
    Ok(HeldRow { values })
}

// Whether these are as many as there are places between so many statics.
fn stand_between(values: &Seq<HeldNode>, statics: usize) -> bool
    ensures { result ≡ (suc (length values.now) == statics) }
{
    match statics.checked_sub(1) {
        Some(places) => places == values.len(),
        None => false,
    }
}

// The values of a row.
#[cycle(take)]
fn take_values(alloc: Global, values: Seq<PlaceValue>) -> Result<Seq<HeldNode>, MergeFault>
    ensures ok { IfOk result (λ hs. listed_row (items_of (map place_data values)) ≡ Some (held_trees hs)) }
    ensures bad { IsErrOf result MergeFault.BadFrame → listed_row (items_of (map place_data values)) ≡ None }
{
    let mut nodes = Seq::new(alloc);
    'values: for value in values.into_vec() {
        nodes.push(take_value(alloc, value)?)?;
    }
    Ok(nodes)
}

#[cycle(take)]
fn take_value(alloc: Global, value: PlaceValue) -> Result<HeldNode, MergeFault>
    ensures ok { IfOk result (λ h. tree_of (place_data value) ≡ Some (held_tree h)) }
    ensures bad { IsErrOf result MergeFault.BadFrame → tree_of (place_data value) ≡ None }
{
    match value {
        PlaceValue::Text(text) => Ok(HeldNode::Text(text)),
        // Components are not held.
        PlaceValue::Number(_) => Err(MergeFault::BadFrame),
        PlaceValue::Node(part) => take_part(alloc, part),
    }
}

// What stands at the places of a node that has statics. These are sent as `s`, so no place is.
#[cycle(take)]
fn take_places(alloc: Global, places: ByKey<PlaceValue>) -> Result<Seq<HeldNode>, MergeFault>
    ensures ok { IfOk result (λ hs. trees_in places ≡ Some (held_trees hs)) }
    ensures bad { IsErrOf result MergeFault.BadFrame → trees_in places ≡ None }
{
    let count = count_places(&places);
    let mut nodes = blanks(alloc, count)?;
    'places: for KeyValue { key, value } in places.into_vec() {
        if key.as_str() == "s" {
            continue;
        }
        let place = place_below(key.as_str(), count)?;
        nodes.set(place, take_value(alloc, value)?);
    }
    Ok(nodes)
}

// How many places there are beside `s`.
fn count_places(places: &ByKey<PlaceValue>) -> usize
    ensures { result ≡ length (without_key (codes "s") places.now) }
{
    if places.contains("s") {
        places.len().saturating_sub(1)
    } else {
        places.len()
    }
}

// So many empty texts.
fn blanks(alloc: Global, count: usize) -> Result<Seq<HeldNode>, OutOfMemory>
    ensures { IfOk result (λ hs. held_trees hs ≡ blank_trees count) }
{
    let mut nodes = Seq::new(alloc);
    'nodes: for _ in 0..count {
        nodes.push(HeldNode::Text(Text::new(alloc)))?;
    }
    Ok(nodes)
}
