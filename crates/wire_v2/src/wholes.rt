//! Whether trees are whole.
ghost use Rattle.std.specs.Prelude.{◌≡◌};
ghost use Rattle.serde_json.specs.View.{view, items_view, members_view};
ghost use Rattle.wire_v2.specs.FrameGrammar.{is_whole, all_whole, is_whole_at, components_are_whole, is_whole_node, are_whole, items_are_whole};

use serde_json::{Map, Value as Json};

/// Whether each node of a page has its statics.
pub fn is_whole(value: &Json) -> bool
    ensures { result ≡ is_whole (view value.now) }
{
    match value {
        Json::Object(members) => {
            if value.get("s").is_none() {
                return false;
            }
            all_whole(members)
        }
        Json::Null | Json::Bool(_) | Json::Number(_) | Json::String(_) | Json::Array(_) => true,
    }
}

fn all_whole(members: &Map<String, Json>) -> bool
    ensures { result ≡ all_whole (members_view members.now.entries) }
{
    'members: for (key, member) in members.iter() {
        if !is_whole_at(key.as_str(), member) {
            return false;
        }
    }
    true
}

// Components stand under `c`, and pushed events, which have no nodes, under `e`.
fn is_whole_at(key: &str, value: &Json) -> bool
    ensures { result ≡ is_whole_at key.now (view value.now) }
{
    match key {
        "e" => true,
        "c" => components_are_whole(value),
        _ => is_whole_node(value),
    }
}

fn components_are_whole(value: &Json) -> bool
    ensures { result ≡ components_are_whole (view value.now) }
{
    match value {
        Json::Object(members) => are_whole(members),
        Json::Null | Json::Bool(_) | Json::Number(_) | Json::String(_) | Json::Array(_) => true,
    }
}

// Whether each node has its statics, also in rows.
#[cycle(whole)]
fn is_whole_node(value: &Json) -> bool
    ensures { result ≡ is_whole_node (view value.now) }
{
    match value {
        Json::Object(members) => {
            if value.get("s").is_none() {
                return false;
            }
            are_whole(members)
        }
        Json::Array(items) => items_are_whole(items),
        Json::Null | Json::Bool(_) | Json::Number(_) | Json::String(_) => true,
    }
}

#[cycle(whole)]
fn are_whole(members: &Map<String, Json>) -> bool
    ensures { result ≡ are_whole (members_view members.now.entries) }
{
    'members: for (_key, member) in members.iter() {
        if !is_whole_node(member) {
            return false;
        }
    }
    true
}

#[cycle(whole)]
fn items_are_whole(items: &Vec<Json>) -> bool
    ensures { result ≡ items_are_whole (items_view items.now.items) }
{
    'items: for item in items {
        if !is_whole_node(item) {
            return false;
        }
    }
    true
}
