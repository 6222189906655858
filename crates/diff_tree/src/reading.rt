//! Diffs read from their texts and from JSON values.
ghost use Rattle.std.specs.Prelude.{◌≡◌, ◌≤◌, ◌↔◌, IsTrue, true, false, Some, None, IfOk, OnOk, IsErrOf, option_map, codes, map};
ghost use Rattle.serde_json.specs.Data.{Data, object, Members, depth};
ghost use Rattle.serde_json.specs.Find.{get_member};
ghost use Rattle.serde_json.specs.Read.{read};
ghost use Rattle.serde_json.specs.Written.{compact_text};
ghost use Rattle.serde_json.specs.View.{view, members_view};
ghost use Rattle.text_core.specs.Keyed.{ascend};
ghost use Rattle.diff_tree.specs.declared.diff.Diff.{Diff};
ghost use Rattle.diff_tree.specs.Plain.{is_plain, names};
ghost use Rattle.diff_tree.specs.Spelling.{with_events, with_components};
ghost use Rattle.diff_tree.specs.Parts.{diff_data, components_data, pushed_of};
ghost use Rattle.diff_tree.specs.Grammar.{is_diff, events_fit, components_fit, without, with_member, SpellsDiff};

use crate::component_reading::listed_components;
use crate::event_reading::listed_events;
use crate::node_reading::read_node;
use crate::plain::is_plain;
use crate::{ComponentPart, Diff, DiffFault, Pushes, write_diff};
use serde_json::{Map, Value};
use std::alloc::Global;
use text_core::{OutOfMemory, Seq};

/// The diff that a text spells, where it nests at most 127 deep. A diff has one spelling: another text of the same
/// JSON value is a BadDiff.
pub fn read_diff(alloc: Global, text: &str) -> Result<Diff, DiffFault>
    ensures ok { IfOk result (λ d. SpellsDiff text.now d × (depth (diff_data d) ≤ 127)) }
    ensures bad { IsErrOf result DiffFault.BadDiff → (d : Diff) → depth (diff_data d) ≤ 127 → ¬ SpellsDiff text.now d }
{
    let diff = parse(alloc, text)?;
    if !is_text_of(alloc, text, &diff)? {
        return Err(DiffFault::BadDiff);
    }
    Ok(diff)
}

fn is_text_of(alloc: Global, text: &str, diff: &Diff) -> Result<bool, OutOfMemory>
    ensures { IfOk result (λ b. IsTrue b ↔ (text.now ≡ compact_text (diff_data diff.now))) }
{
    let spelled = write_diff(alloc, diff)?;
    Ok(text == spelled.as_str())
}

// The diff that the JSON value of a text is, however it is spelled.
fn parse(alloc: Global, text: &str) -> Result<Diff, DiffFault>
    ensures ok { IfOk result (λ d. (is_diff (diff_data d) ≡ true) × (read text.now ≡ Some (diff_data d)) × (depth (diff_data d) ≤ 127)) }
    ensures bad { IsErrOf result DiffFault.BadDiff → (d : Data) → read text.now ≡ Some d → is_diff d ≡ false }
{
    let value = value_of(alloc, text)?;
    take_diff(alloc, value)
}

fn value_of(alloc: Global, text: &str) -> Result<Value, DiffFault>
    ensures ok { IfOk result (λ v. (read text.now ≡ Some (view v)) × (depth (view v) ≤ 127)) }
    ensures bad { IsErrOf result DiffFault.BadDiff → read text.now ≡ None }
{
    match Value::from_str(alloc, text) {
        Ok(value) => Ok(value),
        Err(error) => if error.is_memory() {
            Err(DiffFault::OutOfMemory)
        } else {
            Err(DiffFault::BadDiff)
        },
    }
}

/// The diff that a JSON value is.
pub fn read_diff_value(alloc: Global, value: &Value) -> Result<Diff, DiffFault>
    ensures ok { IfOk result (λ d. (is_diff (view value.now) ≡ true) × (diff_data d ≡ view value.now)) }
    ensures bad { IsErrOf result DiffFault.BadDiff → is_diff (view value.now) ≡ false }
{
    take_diff(alloc, value.clone()?)
}

fn take_diff(alloc: Global, value: Value) -> Result<Diff, DiffFault>
    ensures ok { IfOk result (λ d. (is_diff (view value) ≡ true) × (diff_data d ≡ view value)) }
    ensures bad { IsErrOf result DiffFault.BadDiff → is_diff (view value) ≡ false }
{
    if !is_plain(&value) {
        return Err(DiffFault::BadDiff);
    }
    take_object(alloc, value)
}

fn take_object(alloc: Global, value: Value) -> Result<Diff, DiffFault>
    requires { is_plain (view value) ≡ true }
    ensures ok { IfOk result (λ d. (is_diff (view value) ≡ true) × (diff_data d ≡ view value)) }
    ensures bad { IsErrOf result DiffFault.BadDiff → is_diff (view value) ≡ false }
{
    match value {
        Value::Object(members) => take_members(alloc, members),
        _ => Err(DiffFault::BadDiff),
    }
}

// Events and components stand beside the members of the root.
fn take_members(alloc: Global, mut members: Map<String, Value>) -> Result<Diff, DiffFault>
    requires { is_plain (object (members_view members.entries)) ≡ true }
    ensures ok { IfOk result (λ d. (is_diff (object (members_view members.entries)) ≡ true) × (diff_data d ≡ object (members_view members.entries))) }
    ensures bad { IsErrOf result DiffFault.BadDiff → is_diff (object (members_view members.entries)) ≡ false }
{
    let events = take_events(alloc, &mut members)?;
    let components = take_components(alloc, &mut members)?;
    let root = read_node(alloc, &Value::Object(members))?;
    Ok(Diff::new(root, components, events))
}

// The events under `e`, which is taken out.
fn take_events(alloc: Global, members: &mut Map<String, Value>) -> Result<Pushes, DiffFault>
    requires { ascend (names (members_view members.old.entries)) ≡ true }
    ensures rest { OnOk result (members_view members.new.entries ≡ without (codes "e") (members_view members.old.entries)) }
    ensures ok { IfOk result (λ ps. (events_fit (get_member (codes "e") (members_view members.old.entries)) ≡ true) × ((ms : Members) → with_events (map pushed_of ps) ms ≡ with_member (codes "e") (get_member (codes "e") (members_view members.old.entries)) ms)) }
    ensures bad { IsErrOf result DiffFault.BadDiff → events_fit (get_member (codes "e") (members_view members.old.entries)) ≡ false }
{
    let found = members.remove("e");
    events_in(alloc, &found)
}

fn events_in(alloc: Global, found: &Option<Value>) -> Result<Pushes, DiffFault>
    ensures ok { IfOk result (λ ps. (events_fit (option_map view found.now) ≡ true) × ((ms : Members) → with_events (map pushed_of ps) ms ≡ with_member (codes "e") (option_map view found.now) ms)) }
    ensures bad { IsErrOf result DiffFault.BadDiff → events_fit (option_map view found.now) ≡ false }
{
    match found {
        Some(events) => listed_events(alloc, events),
        None => Ok(Seq::new(alloc)),
    }
}

// The components under `c`, which is taken out.
fn take_components(
    alloc: Global,
    members: &mut Map<String, Value>,
) -> Result<Seq<ComponentPart>, DiffFault>
    requires { ascend (names (members_view members.old.entries)) ≡ true }
    ensures rest { OnOk result (members_view members.new.entries ≡ without (codes "c") (members_view members.old.entries)) }
    ensures ok { IfOk result (λ cs. (components_fit (get_member (codes "c") (members_view members.old.entries)) ≡ true) × ((ms : Members) → with_components (components_data cs) ms ≡ with_member (codes "c") (get_member (codes "c") (members_view members.old.entries)) ms)) }
    ensures bad { IsErrOf result DiffFault.BadDiff → components_fit (get_member (codes "c") (members_view members.old.entries)) ≡ false }
{
    let found = members.remove("c");
    components_in(alloc, &found)
}

fn components_in(alloc: Global, found: &Option<Value>) -> Result<Seq<ComponentPart>, DiffFault>
    ensures ok { IfOk result (λ cs. (components_fit (option_map view found.now) ≡ true) × ((ms : Members) → with_components (components_data cs) ms ≡ with_member (codes "c") (option_map view found.now) ms)) }
    ensures bad { IsErrOf result DiffFault.BadDiff → components_fit (option_map view found.now) ≡ false }
{
    match found {
        Some(components) => listed_components(alloc, components),
        None => Ok(Seq::new(alloc)),
    }
}
