//! Effects one by one, each raised or applied, and several in order.
use assigns_track::Tracked;
use effects_apply::{EffectFault, Rest, apply_effects};
use machine_api::Action;
use std::alloc::Global;
use std::test::Fail;
use text_core::{ByKey, OutOfMemory, Seq, Text};
use value_core::{SlotValue, Value};
use view_api::{Effect, Effects};

// The value that an effect carries.
#[derive(Clone, Copy, Debug)]
enum Carried {
    Number,
    Atom,
    Slot,
    Levels(u32),
}

// What an effect does with it.
#[derive(Clone, Copy, Debug)]
enum Asked {
    Assign(&'static str),
    Insert(i64, Option<i64>),
    Publish,
    SendSelf,
    PushEvent,
}

fn value_of(alloc: Global, carried: Carried) -> Result<Value, OutOfMemory> {
    match carried {
        Carried::Number => Ok(Value::Int(7)),
        Carried::Atom => Ok(Value::Atom(Text::copy_of(alloc, "ok")?)),
        Carried::Slot => Ok(Value::Slot(SlotValue {
            body: 1,
            names: ByKey::new(alloc),
            variables: ByKey::new(alloc),
        })),
        Carried::Levels(levels) => nested(alloc, levels),
    }
}

// Lists in lists.
fn nested(alloc: Global, levels: u32) -> Result<Value, OutOfMemory> {
    let mut value = Value::Nil;
    for _ in 0..levels {
        let mut items = Seq::new(alloc);
        items.push(value)?;
        value = Value::List(items);
    }
    Ok(value)
}

fn effect_of(alloc: Global, asked: Asked, value: Value) -> Result<Effect, OutOfMemory> {
    let name = Text::copy_of(alloc, "posts")?;
    match asked {
        Asked::Assign(name) => Ok(Effect::Assign {
            name: Text::copy_of(alloc, name)?,
            value,
        }),
        Asked::Insert(at, limit) => Ok(Effect::StreamInsert {
            name,
            dom_id: Text::copy_of(alloc, "posts-1")?,
            item: value,
            at,
            limit,
        }),
        Asked::Publish => Ok(Effect::Publish { topic: name, value }),
        Asked::SendSelf => Ok(Effect::SendSelf { value }),
        Asked::PushEvent => Ok(Effect::PushEvent { name, value }),
    }
}

#[test]
fn an_effect_is_applied_or_raises(rt: HostRuntime) -> Result<(), Fail> {
    let alloc = rt.alloc();
    for (asked, carried, free, raises) in [
        (Asked::Assign("count"), Carried::Number, 0, false),
        (Asked::Assign("count"), Carried::Atom, 0, false),
        (Asked::Assign("streams"), Carried::Number, 0, true),
        (Asked::Assign("myself"), Carried::Number, 0, true),
        (Asked::Assign("count"), Carried::Levels(100), 0, false),
        (Asked::Assign("count"), Carried::Levels(101), 0, true),
        (Asked::Assign("count"), Carried::Slot, 0, true),
        (Asked::Insert(-1, None), Carried::Number, 0, false),
        (Asked::Insert(-2, None), Carried::Number, 0, true),
        (Asked::Insert(0, Some(-5)), Carried::Number, 0, false),
        (Asked::Insert(0, Some(0)), Carried::Number, 0, true),
        (Asked::Insert(0, None), Carried::Slot, 0, true),
        (Asked::Publish, Carried::Number, 0, false),
        (Asked::Publish, Carried::Atom, 0, true),
        (Asked::PushEvent, Carried::Levels(101), 0, true),
        (Asked::SendSelf, Carried::Number, 1, false),
        (Asked::SendSelf, Carried::Number, 0, true),
    ] {
        let value = value_of(alloc, carried)?;
        let mut effects = Seq::new(alloc);
        effects.push(effect_of(alloc, asked, value)?)?;
        let mut assigns = Tracked::new(alloc);
        let mut rest = Rest::new(alloc, 3, free);
        let fault = apply_effects(alloc, effects, &mut assigns, &mut rest).err();
        let wanted = raises.then_some(EffectFault::Raised);
        assert_eq!(rt; fault, wanted, "at {asked:?} of {carried:?}");
    }
    Ok(())
}

// What is asked of the outside, in one text.
fn told(alloc: Global, rest: &Rest) -> Result<String, Fail> {
    let mut text = String::new(alloc);
    for action in rest.actions.as_slice() {
        match action {
            Action::Subscribe { topic, generation } => {
                write!(text, "+{}@{generation} ", topic.len())?;
            }
            Action::Unsubscribe { topic, generation } => {
                write!(text, "-{}@{generation} ", topic.len())?;
            }
            Action::Publish { topic, value } => {
                write!(text, "{}:{} ", topic.len(), value.len())?;
            }
        }
    }
    for push in rest.pushed.as_slice() {
        write!(text, "{} {}", push.name.as_str(), push.payload)?;
    }
    Ok(text)
}

#[test]
fn effects_are_listed_in_order(rt: HostRuntime) -> Result<(), Fail> {
    let alloc = rt.alloc();
    let mut effects = Seq::new(alloc);
    let topic = Text::copy_of(alloc, "room")?;
    effects.push(Effect::Subscribe { topic })?;
    let topic = Text::copy_of(alloc, "hall")?;
    effects.push(Effect::Unsubscribe { topic })?;
    for asked in [
        Asked::Publish,
        Asked::PushEvent,
        Asked::SendSelf,
        Asked::Assign("count"),
    ] {
        effects.push(effect_of(alloc, asked, Value::Int(7))?)?;
    }
    let mut assigns = Tracked::new(alloc);
    let mut rest = Rest::new(alloc, 3, 5);
    let fault = apply_effects(alloc, effects, &mut assigns, &mut rest).err();
    assert_eq!(rt; fault, None);
    assert_eq!(rt; told(alloc, &rest)?.as_str(), "+4@3 -4@3 5:1 posts 7");
    assert_eq!(rt; (rest.free, rest.sent.len()), (4, 1));
    assert!(rt; assigns.changed("count"));
    Ok(())
}
