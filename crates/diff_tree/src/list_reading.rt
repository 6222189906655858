//! What stands beside the rows of a node, read from JSON.
ghost use Rattle.std.specs.Prelude.{◌≡◌, true, false, Some, None, IfOk, IsErrOf, option_map, codes};
ghost use Rattle.serde_json.specs.Data.{array, object, no_members, put};
ghost use Rattle.serde_json.specs.Find.{get};
ghost use Rattle.serde_json.specs.View.{view, items_view};
ghost use Rattle.diff_tree.specs.Spelling.{texts_json};
ghost use Rattle.diff_tree.specs.Parts.{part_data, rows_data, stream_data};
ghost use Rattle.diff_tree.specs.Grammar.{have_length, have_one_length, row_statics, stream_fits, fit_rows, with_member};

use crate::node_reading::read_texts;
use crate::stream_reading::read_stream;
use crate::{DiffFault, Part, Row, StreamPart};
use serde_json::Value;
use std::alloc::Global;
use text_core::{Names, Seq};

/// The node of an object that has these rows.
pub(crate) fn list_of(alloc: Global, value: &Value, rows: Seq<Row>) -> Result<Part, DiffFault>
    ensures ok { IfOk result (λ p. (fit_rows (view value.now) (rows_data rows) ≡ true)
        × (part_data p ≡ object (put (codes "d") (array (rows_data rows)) (with_member (codes "s") (get (codes "s") (view value.now)) (with_member (codes "stream") (get (codes "stream") (view value.now)) no_members))))) }
    ensures bad { IsErrOf result DiffFault.BadDiff → fit_rows (view value.now) (rows_data rows) ≡ false }
{
    let statics = read_statics(alloc, value, rows.as_slice())?;
    let stream = stream_of(alloc, value, rows.as_slice())?;
    Ok(Part::list(statics, rows, stream))
}

// The statics of an object with these rows, where it has any.
fn read_statics(alloc: Global, value: &Value, rows: &[Row]) -> Result<Option<Names>, DiffFault>
    ensures ok { IfOk result (λ st. (row_statics (get (codes "s") (view value.now)) (rows_data rows.now) ≡ true) × (option_map (λ ts. array (texts_json ts)) st ≡ get (codes "s") (view value.now))) }
    ensures bad { IsErrOf result DiffFault.BadDiff → row_statics (get (codes "s") (view value.now)) (rows_data rows.now) ≡ false }
{
    match value.get("s") {
        Some(statics) => Ok(Some(statics_around(alloc, statics, rows)?)),
        None => if have_one_length(rows) {
            Ok(None)
        } else {
            Err(DiffFault::BadDiff)
        },
    }
}

// The statics that stand around the places of each row.
fn statics_around(alloc: Global, statics: &Value, rows: &[Row]) -> Result<Names, DiffFault>
    ensures ok { IfOk result (λ ts. (row_statics (Some (view statics.now)) (rows_data rows.now) ≡ true) × (array (texts_json ts) ≡ view statics.now)) }
    ensures bad { IsErrOf result DiffFault.BadDiff → row_statics (Some (view statics.now)) (rows_data rows.now) ≡ false }
{
    let Some(items) = statics.as_array() else {
        return Err(DiffFault::BadDiff);
    };
    let items = items.as_slice();
    let Some(places) = items.len().checked_sub(1) else {
        return Err(DiffFault::BadDiff);
    };
    let texts = read_texts(alloc, items)?;
    if !have_length(rows, places) {
        return Err(DiffFault::BadDiff);
    }
    Ok(texts)
}

fn have_one_length(rows: &[Row]) -> bool
    ensures { result ≡ have_one_length (rows_data rows.now) }
{
    match rows {
        [] => true,
        [first, rest @ ..] => have_length(rest, first.values.len()),
    }
}

// Whether each row has so many values.
fn have_length(rows: &[Row], count: usize) -> bool
    ensures { result ≡ have_length count (rows_data rows.now) }
{
    'rows: for row in rows {
        if row.values.len() != count {
            return false;
        }
    }
    true
}

// The stream of an object with these rows, where they are those of one.
fn stream_of(alloc: Global, value: &Value, rows: &[Row]) -> Result<Option<StreamPart>, DiffFault>
    ensures ok { IfOk result (λ s. (stream_fits (get (codes "stream") (view value.now)) (rows_data rows.now) ≡ true) × (option_map stream_data s ≡ get (codes "stream") (view value.now))) }
    ensures bad { IsErrOf result DiffFault.BadDiff → stream_fits (get (codes "stream") (view value.now)) (rows_data rows.now) ≡ false }
{
    match value.get("stream") {
        Some(stream) => Ok(Some(read_stream(alloc, stream, rows.len())?)),
        None => if rows.is_empty() {
            Err(DiffFault::BadDiff)
        } else {
            Ok(None)
        },
    }
}
