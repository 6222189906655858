//! A held tree, and what a node that was sent makes of it.
ghost use Rattle.std.specs.Prelude.{◌≡◌, Some, None, IfSome, OnOk, OnErr};
ghost use Rattle.std.specs.Result.{IsErrOf};
ghost use Rattle.client_merge.specs.declared.fault.MergeFault.TheVariants as MergeFault;
ghost use Rattle.diff_tree.specs.Parts.{part_data};
ghost use Rattle.client_merge.specs.Reading.{merge_data};
ghost use Rattle.diff_tree.specs.Tree.{merge_change, rows as rows_change};
ghost use Rattle.client_merge.specs.Held.{held_tree, held_trees, held_rows};
ghost use Rattle.client_merge.specs.Planned.{planned, planned_all, merged, merged_all};

use crate::plan::{HeldChange, PlaceChange, plan_node};
use crate::{HeldNode, HeldRow, MergeFault};
use diff_tree::Part;
use std::alloc::Global;
use std::mem;
use text_core::{Seq, Text};

/// Merges a node that was sent into a held tree. Places that the node does not name are neither read nor moved. A
/// node that does not fit the tree is a BadFrame, and after an error the tree is as before.
pub fn merge(alloc: Global, held: &mut HeldNode, part: Part) -> Result<(), MergeFault>
    ensures ok { OnOk result (merge_data (held_tree held.old) (part_data part) ≡ Some (held_tree held.new)) }
    ensures bad { IsErrOf result MergeFault.BadFrame → merge_data (held_tree held.old) (part_data part) ≡ None }
    ensures kept { OnErr result (held.new ≡ held.old) }
{
    let change = plan_node(alloc, part, held)?;
    let old = mem::replace(held, HeldNode::Text(Text::new(alloc)));
    *held = apply(alloc, change, old);
    Ok(())
}

// The tree after a change that fits it.
#[cycle(apply)]
fn apply(alloc: Global, change: HeldChange, held: HeldNode) -> HeldNode
    ensures { IfSome (merged (held_tree held) (planned change)) (λ t. t ≡ held_tree result) }
{
    match change {
        HeldChange::Write(node) => node,
        HeldChange::Inner(changes) => match held {
            HeldNode::Text(text) => HeldNode::Text(text),
            HeldNode::Node { statics, places } => HeldNode::Node {
                statics,
                places: apply_all(alloc, changes, places),
            },
            HeldNode::List { statics, rows } => HeldNode::List { statics, rows },
        },
        HeldChange::Rows(rows) => with_rows(held, rows),
    }
}

// A list with other rows.
fn with_rows(held: HeldNode, rows: Seq<HeldRow>) -> HeldNode
    ensures { IfSome (merge_change (held_tree held) (rows_change (held_rows rows))) (λ t. t ≡ held_tree result) }
{
    match held {
        HeldNode::Text(text) => HeldNode::Text(text),
        HeldNode::Node { statics, places } => HeldNode::Node { statics, places },
        HeldNode::List { statics, rows: old } => HeldNode::List { statics, rows },
    }
}

#[cycle(apply)]
fn apply_all(alloc: Global, changes: Seq<PlaceChange>, places: Seq<HeldNode>) -> Seq<HeldNode>
    ensures { IfSome (merged_all (held_trees places) (planned_all changes)) (λ ts. ts ≡ held_trees result) }
{
    let mut places = places.into_vec();
    'changes: for PlaceChange { place, change } in changes.into_vec() {
        if place < places.len() {
            let old = mem::replace(&mut places[place], HeldNode::Text(Text::new(alloc)));
            places[place] = apply(alloc, change, old);
        }
    }
    Seq::from_vec(places)
}
