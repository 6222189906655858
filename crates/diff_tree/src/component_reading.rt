//! Components read from JSON.
ghost use Rattle.std.specs.Prelude.{◌≡◌, ◌&&◌, true, false, Some, IfOk, IsErrOf, MatchOption, codes};
ghost use Rattle.std.specs.Fmt.{decimal};
ghost use Rattle.serde_json.specs.Data.{object, Members, put};
ghost use Rattle.serde_json.specs.View.{view, members_view};
ghost use Rattle.diff_tree.specs.Spelling.{with_components};
ghost use Rattle.diff_tree.specs.Parts.{part_data, components_data};
ghost use Rattle.diff_tree.specs.Grammar.{is_component, is_node, are_components, components_fit};

use crate::node_reading::{is_place, read_node};
use crate::{ComponentPart, DiffFault};
use serde_json::{Map, Value};
use std::alloc::Global;
use text_core::Seq;

/// The components that an object under `c` has, which is not empty.
pub(crate) fn listed_components(
    alloc: Global,
    value: &Value,
) -> Result<Seq<ComponentPart>, DiffFault>
    ensures ok { IfOk result (λ cs. (components_fit (Some (view value.now)) ≡ true) × ((ms : Members) → with_components (components_data cs) ms ≡ put (codes "c") (view value.now) ms)) }
    ensures bad { IsErrOf result DiffFault.BadDiff → components_fit (Some (view value.now)) ≡ false }
{
    let Some(members) = value.as_object() else {
        return Err(DiffFault::BadDiff);
    };
    if members.is_empty() {
        return Err(DiffFault::BadDiff);
    }
    let components = read_components(alloc, members)?;
    Ok(components)
}

fn read_components(
    alloc: Global,
    members: &Map<String, Value>,
) -> Result<Seq<ComponentPart>, DiffFault>
    ensures ok { IfOk result (λ cs. (are_components (members_view members.now.entries) ≡ true) × (components_data cs ≡ members_view members.now.entries)) }
    ensures bad { IsErrOf result DiffFault.BadDiff → are_components (members_view members.now.entries) ≡ false }
{
    let mut components = Seq::new(alloc);
    'members: for (key, member) in members.iter() {
        components.push(read_component(alloc, key.as_str(), member)?)?;
    }
    Ok(components)
}

fn read_component(alloc: Global, key: &str, value: &Value) -> Result<ComponentPart, DiffFault>
    ensures ok { IfOk result (λ c. ((is_component key.now && is_node (view value.now)) ≡ true) × (decimal c.number ≡ key.now) × (part_data c.part ≡ view value.now)) }
    ensures bad { IsErrOf result DiffFault.BadDiff → (is_component key.now && is_node (view value.now)) ≡ false }
{
    let Some(number) = component_number(key) else {
        return Err(DiffFault::BadDiff);
    };
    let part = read_node(alloc, value)?;
    Ok(ComponentPart { number, part })
}

// The number of which a key is the decimal.
fn component_number(key: &str) -> Option<u64>
    ensures { MatchOption result (is_component key.now ≡ false) (λ n. (is_component key.now ≡ true) × (decimal n ≡ key.now)) }
{
    if !is_place(key) {
        return None;
    }
    match key.parse::<u64>() {
        Ok(number) => if number == 0 { None } else { Some(number) },
        Err(_) => None,
    }
}
