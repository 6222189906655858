//! The operations on streams, read from JSON.
ghost use Rattle.std.specs.Prelude.{◌≡◌, true, false, Some, IfOk, IsErrOf, MatchOption, length};
ghost use Rattle.serde_json.specs.Data.{array, item, no_items, number as number_of};
ghost use Rattle.serde_json.specs.Find.{of_integer};
ghost use Rattle.serde_json.specs.View.{view, items_view, number_view};
ghost use Rattle.diff_tree.specs.Spelling.{texts_json, reset_json, whole_number_json};
ghost use Rattle.diff_tree.specs.Parts.{stream_data, insert_data, inserts_data, limit_data};
ghost use Rattle.diff_tree.specs.Grammar.{is_stream, inserts_fit, are_inserts, is_insert, is_position, is_limit, is_text_list, is_reset};

use crate::node_reading::read_texts;
use crate::{DiffFault, StreamInsert, StreamPart};
use serde_json::{Number, Value};
use std::alloc::Global;
use text_core::{Names, Seq, Text};

/// The operations on a stream that has so many rows.
pub(crate) fn read_stream(
    alloc: Global,
    value: &Value,
    rows: usize,
) -> Result<StreamPart, DiffFault>
    ensures ok { IfOk result (λ s. (is_stream rows (view value.now) ≡ true) × (stream_data s ≡ view value.now)) }
    ensures bad { IsErrOf result DiffFault.BadDiff → is_stream rows (view value.now) ≡ false }
{
    match value.as_array() {
        Some(items) => stream_of_items(alloc, items.as_slice(), rows),
        None => Err(DiffFault::BadDiff),
    }
}

fn stream_of_items(alloc: Global, items: &[Value], rows: usize) -> Result<StreamPart, DiffFault>
    ensures ok { IfOk result (λ s. (is_stream rows (array (items_view items.now)) ≡ true) × (stream_data s ≡ array (items_view items.now))) }
    ensures bad { IsErrOf result DiffFault.BadDiff → is_stream rows (array (items_view items.now)) ≡ false }
{
    match items {
        [name, inserts, deletes, reset @ ..] => {
            stream_from(alloc, name, inserts, deletes, reset, rows)
        }
        _ => Err(DiffFault::BadDiff),
    }
}

fn stream_from(
    alloc: Global,
    name: &Value,
    inserts: &Value,
    deletes: &Value,
    reset: &[Value],
    rows: usize,
) -> Result<StreamPart, DiffFault>
    ensures ok { IfOk result (λ s. (is_stream rows (array (item (view name.now) (item (view inserts.now) (item (view deletes.now) (items_view reset.now))))) ≡ true)
        × (stream_data s ≡ array (item (view name.now) (item (view inserts.now) (item (view deletes.now) (items_view reset.now)))))) }
    ensures bad { IsErrOf result DiffFault.BadDiff → is_stream rows (array (item (view name.now) (item (view inserts.now) (item (view deletes.now) (items_view reset.now))))) ≡ false }
{
    let Some(name) = name.as_str() else {
        return Err(DiffFault::BadDiff);
    };
    let name = Text::copy_of(alloc, name)?;
    let inserts = read_inserts(alloc, inserts, rows)?;
    let deletes = read_deletes(alloc, deletes)?;
    let reset = read_reset(reset)?;
    Ok(StreamPart {
        name,
        inserts,
        deletes,
        reset,
    })
}

// So many inserts.
fn read_inserts(alloc: Global, value: &Value, rows: usize) -> Result<Seq<StreamInsert>, DiffFault>
    ensures ok { IfOk result (λ is. (inserts_fit rows (view value.now) ≡ true) × (array (inserts_data is) ≡ view value.now)) }
    ensures bad { IsErrOf result DiffFault.BadDiff → inserts_fit rows (view value.now) ≡ false }
{
    let Some(items) = value.as_array() else {
        return Err(DiffFault::BadDiff);
    };
    let items = items.as_slice();
    if items.len() != rows {
        return Err(DiffFault::BadDiff);
    }
    let inserts = inserts_of_items(alloc, items)?;
    Ok(inserts)
}

fn inserts_of_items(alloc: Global, items: &[Value]) -> Result<Seq<StreamInsert>, DiffFault>
    ensures ok { IfOk result (λ is. (are_inserts (items_view items.now) ≡ true) × (inserts_data is ≡ items_view items.now)) }
    ensures bad { IsErrOf result DiffFault.BadDiff → are_inserts (items_view items.now) ≡ false }
{
    let mut inserts = Seq::new(alloc);
    'items: for item in items {
        inserts.push(read_insert(alloc, item)?)?;
    }
    Ok(inserts)
}

fn read_insert(alloc: Global, value: &Value) -> Result<StreamInsert, DiffFault>
    ensures ok { IfOk result (λ i. (is_insert (view value.now) ≡ true) × (insert_data i ≡ view value.now)) }
    ensures bad { IsErrOf result DiffFault.BadDiff → is_insert (view value.now) ≡ false }
{
    match value.as_array() {
        Some(items) => insert_of_items(alloc, items.as_slice()),
        None => Err(DiffFault::BadDiff),
    }
}

// An insert has three items.
fn insert_of_items(alloc: Global, items: &[Value]) -> Result<StreamInsert, DiffFault>
    ensures ok { IfOk result (λ i. (is_insert (array (items_view items.now)) ≡ true) × (insert_data i ≡ array (items_view items.now))) }
    ensures bad { IsErrOf result DiffFault.BadDiff → is_insert (array (items_view items.now)) ≡ false }
{
    match items {
        [id, at, limit] => insert_from(alloc, id, at, limit),
        _ => Err(DiffFault::BadDiff),
    }
}

fn insert_from(
    alloc: Global,
    id: &Value,
    at: &Value,
    limit: &Value,
) -> Result<StreamInsert, DiffFault>
    ensures ok { IfOk result (λ i. (is_insert (array (item (view id.now) (item (view at.now) (item (view limit.now) no_items)))) ≡ true)
        × (insert_data i ≡ array (item (view id.now) (item (view at.now) (item (view limit.now) no_items))))) }
    ensures bad { IsErrOf result DiffFault.BadDiff → is_insert (array (item (view id.now) (item (view at.now) (item (view limit.now) no_items)))) ≡ false }
{
    let Some(id) = id.as_str() else {
        return Err(DiffFault::BadDiff);
    };
    let id = Text::copy_of(alloc, id)?;
    let at = read_position(at)?;
    let limit = read_limit(limit)?;
    Ok(StreamInsert { id, at, limit })
}

fn read_position(value: &Value) -> Result<i64, DiffFault>
    ensures ok { IfOk result (λ z. (is_position (view value.now) ≡ true) × (whole_number_json z ≡ view value.now)) }
    ensures bad { IsErrOf result DiffFault.BadDiff → is_position (view value.now) ≡ false }
{
    match value {
        Value::Number(number) => position_from(number),
        Value::Null | Value::Bool(_) | Value::String(_) | Value::Array(_) | Value::Object(_) => {
            Err(DiffFault::BadDiff)
        }
    }
}

fn position_from(number: &Number) -> Result<i64, DiffFault>
    ensures ok { IfOk result (λ z. (is_position (number_of (number_view number.now)) ≡ true) × (of_integer z ≡ number_view number.now)) }
    ensures bad { IsErrOf result DiffFault.BadDiff → is_position (number_of (number_view number.now)) ≡ false }
{
    match number.as_i64() {
        Some(at) => if at < -1 {
            Err(DiffFault::BadDiff)
        } else {
            Ok(at)
        },
        None => Err(DiffFault::BadDiff),
    }
}

fn read_limit(value: &Value) -> Result<Option<i64>, DiffFault>
    ensures ok { IfOk result (λ l. (is_limit (view value.now) ≡ true) × (limit_data l ≡ view value.now)) }
    ensures bad { IsErrOf result DiffFault.BadDiff → is_limit (view value.now) ≡ false }
{
    match value {
        Value::Null => Ok(None),
        Value::Number(number) => Ok(Some(limit_from(number)?)),
        Value::Bool(_) | Value::String(_) | Value::Array(_) | Value::Object(_) => {
            Err(DiffFault::BadDiff)
        }
    }
}

fn limit_from(number: &Number) -> Result<i64, DiffFault>
    ensures ok { IfOk result (λ z. (is_limit (number_of (number_view number.now)) ≡ true) × (of_integer z ≡ number_view number.now)) }
    ensures bad { IsErrOf result DiffFault.BadDiff → is_limit (number_of (number_view number.now)) ≡ false }
{
    match number.as_i64() {
        Some(limit) => if limit == 0 {
            Err(DiffFault::BadDiff)
        } else {
            Ok(limit)
        },
        None => Err(DiffFault::BadDiff),
    }
}

fn read_deletes(alloc: Global, value: &Value) -> Result<Names, DiffFault>
    ensures ok { IfOk result (λ ks. (is_text_list (view value.now) ≡ true) × (array (texts_json ks) ≡ view value.now)) }
    ensures bad { IsErrOf result DiffFault.BadDiff → is_text_list (view value.now) ≡ false }
{
    let Some(items) = value.as_array() else {
        return Err(DiffFault::BadDiff);
    };
    let deletes = read_texts(alloc, items.as_slice())?;
    Ok(deletes)
}

// `true` stands after a reset.
fn read_reset(items: &[Value]) -> Result<bool, DiffFault>
    ensures ok { IfOk result (λ b. (is_reset (items_view items.now) ≡ true) × (reset_json b ≡ items_view items.now)) }
    ensures bad { IsErrOf result DiffFault.BadDiff → is_reset (items_view items.now) ≡ false }
{
    match items {
        [] => Ok(false),
        [Value::Bool(true)] => Ok(true),
        _ => Err(DiffFault::BadDiff),
    }
}
