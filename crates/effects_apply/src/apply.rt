//! The effects of a handler, applied in order.
ghost use Rattle.std.specs.Prelude.{◌≡◌, ℕ, List, OnOk};
ghost use Rattle.value_core.specs.View.{view};
ghost use Rattle.view_api.specs.Effect as meant;
ghost use Rattle.view_api.specs.View.{effect_view, effects_view};
ghost use Rattle.assigns_track.specs.Track.{settled_of};
ghost use Rattle.doc_model.specs.Effects.{apply_effect, apply_effects};
ghost use Rattle.effects_apply.specs.declared.rest.Rest.{Rest as Beside};
ghost use Rattle.effects_apply.specs.Applied.{Does, DoesBeside};

use crate::fault::EffectFault;
use crate::judge::{
    compact, is_kept, is_limit, is_position, is_storable, sendable_json, sendable_push,
};
use crate::rest::Rest;
use assigns_track::Tracked;
use machine_api::Action;
use std::alloc::Global;
use text_core::{Bytes, OutOfMemory, Text};
use value_core::Value;
use view_api::{Effect, Effects};

/// Applies a handler's effects in order. An effect that may not be applied raises. After an error the assigns and the
/// rest are given up: nothing is promised of them.
pub fn apply_effects(
    alloc: Global,
    effects: Effects,
    assigns: &mut Tracked,
    rest: &mut Rest,
) -> Result<(), EffectFault>
    ensures does { Does result (apply_effects (effects_view effects)) assigns.old.present rest.old assigns.new.present rest.new }
    ensures settled { OnOk result ((name : List ℕ) → settled_of assigns.new name ≡ settled_of assigns.old name) }
    ensures generation { OnOk result (rest.new.generation ≡ rest.old.generation) }
{
    'effects: for effect in effects.into_vec() {
        apply_effect(alloc, effect, assigns, rest)?;
    }
    Ok(())
}

fn apply_effect(
    alloc: Global,
    effect: Effect,
    assigns: &mut Tracked,
    rest: &mut Rest,
) -> Result<(), EffectFault>
    ensures does { Does result (apply_effect (effect_view effect)) assigns.old.present rest.old assigns.new.present rest.new }
    ensures settled { OnOk result ((name : List ℕ) → settled_of assigns.new name ≡ settled_of assigns.old name) }
    ensures generation { OnOk result (rest.new.generation ≡ rest.old.generation) }
{
    match effect {
        Effect::Assign { name, value } => assign(&name, value, assigns),
        Effect::StreamInsert {
            name: _name,
            dom_id: _dom_id,
            item,
            at,
            limit,
        } => stream_insert(&item, at, limit),
        Effect::StreamDelete {
            name: _name,
            dom_id: _dom_id,
        } => Ok(()),
        Effect::StreamReset { name: _name } => Ok(()),
        Effect::Subscribe { topic } => subscribe(alloc, &topic, rest),
        Effect::Unsubscribe { topic } => unsubscribe(alloc, &topic, rest),
        Effect::Publish { topic, value } => publish(alloc, &topic, &value, rest),
        Effect::SendSelf { value } => send_self(alloc, value, rest),
        Effect::PushEvent { name, value } => push_event(alloc, name, &value, rest),
    }
}

fn assign(name: &Text, value: Value, assigns: &mut Tracked) -> Result<(), EffectFault>
    ensures does { (rest : Beside) → Does result (apply_effect (meant.assign_to name.now (view value))) assigns.old.present rest assigns.new.present rest }
    ensures settled { OnOk result ((n : List ℕ) → settled_of assigns.new n ≡ settled_of assigns.old n) }
{
    if is_kept(name.as_str()) {
        return Err(EffectFault::Raised);
    }
    if !is_storable(&value) {
        return Err(EffectFault::Raised);
    }
    assigns.assign(name.as_str(), value)?;
    Ok(())
}

// No template shows a stream yet, so that each is empty after every rendering: an insert is judged and not kept, and
// deletes and resets leave nothing.
fn stream_insert(item: &Value, at: i64, limit: Option<i64>) -> Result<(), EffectFault>
    ensures { (name dom_id : List ℕ) → (rest : Beside) → DoesBeside result (meant.stream_insert name dom_id (view item.now) at limit) rest rest }
{
    if !is_storable(item) {
        return Err(EffectFault::Raised);
    }
    if !is_position(at) {
        return Err(EffectFault::Raised);
    }
    if !is_limit(limit) {
        return Err(EffectFault::Raised);
    }
    Ok(())
}

fn subscribe(alloc: Global, topic: &Text, rest: &mut Rest) -> Result<(), EffectFault>
    ensures does { DoesBeside result (meant.subscribe topic.now) rest.old rest.new }
    ensures generation { OnOk result (rest.new.generation ≡ rest.old.generation) }
{
    let topic = Bytes::copy_of(alloc, topic.as_str().as_bytes())?;
    let generation = rest.generation;
    rest.actions.push(Action::Subscribe { topic, generation })?;
    Ok(())
}

fn unsubscribe(alloc: Global, topic: &Text, rest: &mut Rest) -> Result<(), EffectFault>
    ensures does { DoesBeside result (meant.unsubscribe topic.now) rest.old rest.new }
    ensures generation { OnOk result (rest.new.generation ≡ rest.old.generation) }
{
    let topic = Bytes::copy_of(alloc, topic.as_str().as_bytes())?;
    let generation = rest.generation;
    rest.actions
        .push(Action::Unsubscribe { topic, generation })?;
    Ok(())
}

fn publish(alloc: Global, topic: &Text, value: &Value, rest: &mut Rest) -> Result<(), EffectFault>
    ensures does { DoesBeside result (meant.publish topic.now (view value.now)) rest.old rest.new }
    ensures generation { OnOk result (rest.new.generation ≡ rest.old.generation) }
{
    let json = sendable_json(alloc, value)?;
    let value = compact(alloc, &json)?;
    let topic = Bytes::copy_of(alloc, topic.as_str().as_bytes())?;
    rest.actions.push(Action::Publish { topic, value })?;
    Ok(())
}

fn send_self(alloc: Global, value: Value, rest: &mut Rest) -> Result<(), EffectFault>
    ensures does { DoesBeside result (meant.send_self (view value)) rest.old rest.new }
    ensures generation { OnOk result (rest.new.generation ≡ rest.old.generation) }
{
    let _json = sendable_json(alloc, &value)?;
    if rest.free == 0 {
        return Err(EffectFault::Raised);
    }
    rest.sent.push(value)?;
    rest.free -= 1;
    Ok(())
}

fn push_event(alloc: Global, name: Text, value: &Value, rest: &mut Rest) -> Result<(), EffectFault>
    ensures does { DoesBeside result (meant.push_event name (view value.now)) rest.old rest.new }
    ensures generation { OnOk result (rest.new.generation ≡ rest.old.generation) }
{
    let push = sendable_push(alloc, name, value)?;
    rest.pushed.push(push)?;
    Ok(())
}
