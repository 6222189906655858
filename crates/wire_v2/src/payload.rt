//! What a payload holds.
ghost use Rattle.std.specs.Prelude.{◌≡◌, codes, option_map};
ghost use Rattle.std.specs.List.{list_all};
ghost use Rattle.serde_json.specs.Find.{get};
ghost use Rattle.serde_json.specs.View.{view};
ghost use Rattle.wire_v2.specs.Message.{has_numbers, is_whole, text_at, url_of};

use serde_json::Value as Json;

/// The text under a name of the payload.
pub fn text_at<'a>(payload: &'a Json, name: &str) -> Option<&'a str>
    ensures { option_map (λ x. x.now) result ≡ text_at name.now (view payload.entry.now) }
{
    payload.get(name).and_then(Json::as_str)
}

/// `url`, or else `redirect`.
pub fn url_of(payload: &Json) -> Option<&str>
    ensures { option_map (λ x. x.now) result ≡ url_of (view payload.entry.now) }
{
    match text_at(payload, "url") {
        Some(url) => Some(url),
        None => text_at(payload, "redirect"),
    }
}

fn is_whole(item: &Json) -> bool
    ensures { result ≡ is_whole (view item.now) }
{
    item.is_u64() || item.is_i64()
}

fn all_whole(items: &[Json]) -> bool
    ensures { result ≡ list_all (λ x. is_whole (view x)) items.now }
{
    items.iter().all(|item| is_whole(item))
}

/// Whether `cids` is a list of whole numbers.
#[tactic(auto, using(crate::proofs::Items::all_are_whole))]
pub fn has_numbers(payload: &Json) -> bool
    ensures { result ≡ has_numbers (get (codes "cids") (view payload.now)) }
{
    match payload.get("cids").and_then(Json::as_array) {
        Some(items) => all_whole(items.as_slice()),
        None => false,
    }
}
