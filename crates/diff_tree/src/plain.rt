//! Whether numbers are whole.
ghost use Rattle.std.specs.Prelude.{◌≡◌, not, true};
ghost use Rattle.serde_json.specs.View.{view, number_view, items_view, members_view};
ghost use Rattle.serde_json.specs.Find.{is_float};
ghost use Rattle.serde_json.specs.Written.{has_float, items_have_float, members_have_float};
ghost use Rattle.text_core.specs.Keyed.{ascend};
ghost use Rattle.diff_tree.specs.Plain.{is_whole_number, is_plain, items_are_plain, members_are_plain, names};

use serde_json::{Map, Number, Value};

// Whether it is a whole number of 64 bits.
fn is_whole(number: &Number) -> bool
    ensures plain { result ≡ is_whole_number (number_view number.now) }
    ensures whole { result ≡ not (is_float (number_view number.now)) }
{
    if let Some(_n) = number.as_u64() {
        return true;
    }
    match number.as_i64() {
        Some(_n) => true,
        None => false,
    }
}

/// Whether no number with a fraction or an exponent, and none of more than 64 bits, stands inside.
#[cycle(plain)]
pub(crate) fn is_plain(value: &Value) -> bool
    ensures plain { result ≡ is_plain (view value.now) }
    ensures whole { result ≡ not (has_float (view value.now)) }
{
    match value {
        Value::Number(number) => is_whole(number),
        Value::Array(items) => items_are_plain(items),
        Value::Object(members) => members_are_plain(members),
        Value::Null | Value::Bool(_) | Value::String(_) => true,
    }
}

#[cycle(plain)]
fn items_are_plain(items: &Vec<Value>) -> bool
    ensures plain { result ≡ items_are_plain (items_view items.now.items) }
    ensures whole { result ≡ not (items_have_float (items_view items.now.items)) }
{
    'items: for item in items {
        if !is_plain(item) {
            return false;
        }
    }
    true
}

#[cycle(plain)]
fn members_are_plain(members: &Map<String, Value>) -> bool
    ensures plain { result ≡ members_are_plain (members_view members.now.entries) }
    ensures whole { result ≡ not (members_have_float (members_view members.now.entries)) }
    ensures ordered { ascend (names (members_view members.now.entries)) ≡ true }
{
    'members: for (_key, member) in members.iter() {
        if !is_plain(member) {
            return false;
        }
    }
    true
}
