//! What a held tree shows.
ghost use Rattle.std.specs.Prelude.{◌≡◌, ◌++◌, [], get_or, IfOk, OnOk};
ghost use Rattle.diff_tree.specs.Tree.{weave, flat};
ghost use Rattle.client_merge.specs.Held.{held_tree, held_trees, held_rows, page_of, pages_of, row_pages};

use crate::{HeldNode, HeldRow};
use std::alloc::Global;
use text_core::{Names, OutOfMemory, Seq, Text};

/// What a held tree shows: the statics of each node and of each row, and what stands between them, by turns.
pub fn show(alloc: Global, held: &HeldNode) -> Result<Text, OutOfMemory>
    ensures { IfOk result (λ t. t ≡ page_of (held_tree held.now)) }
{
    let mut page = Text::new(alloc);
    show_onto(held, &mut page)?;
    Ok(page)
}

#[cycle(show)]
fn show_onto(held: &HeldNode, page: &mut Text) -> Result<(), OutOfMemory>
    ensures { OnOk result (page.new ≡ page.old ++ page_of (held_tree held.now)) }
{
    match held {
        HeldNode::Text(text) => page.push_str(text.as_str()),
        HeldNode::Node { statics, places } => show_places(places, statics, page),
        HeldNode::List { statics, rows } => show_rows(rows, statics, page),
    }
}

#[cycle(show)]
fn show_rows(rows: &Seq<HeldRow>, statics: &Names, page: &mut Text) -> Result<(), OutOfMemory>
    ensures { OnOk result (page.new ≡ page.old ++ flat (row_pages statics.now (held_rows rows.now))) }
{
    'rows: for row in rows.as_slice() {
        show_places(&row.values, statics, page)?;
    }
    Ok(())
}

#[cycle(show)]
fn show_places(places: &Seq<HeldNode>, statics: &Names, page: &mut Text) -> Result<(), OutOfMemory>
    ensures { OnOk result (page.new ≡ page.old ++ weave statics.now (pages_of (held_trees places.now))) }
{
    let places = places.as_slice();
    'places: for place in 0..places.len() {
        show_static(statics, place, page)?;
        show_onto(&places[place], page)?;
    }
    show_static(statics, places.len(), page)
}

// Adds the static in front of a place, where there is one.
fn show_static(statics: &Names, place: usize, page: &mut Text) -> Result<(), OutOfMemory>
    ensures { OnOk result (page.new ≡ page.old ++ get_or statics.now place []) }
{
    let statics = statics.as_slice();
    if place < statics.len() {
        return page.push_str(statics[place].as_str());
    }
    Ok(())
}
