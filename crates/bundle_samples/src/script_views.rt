//! Handlers against what their steps say.

use bundle_files::load;
use std::alloc::Global;
use std::test::Fail;
use text_core::{ByKey, Bytes, HeldFolder, OutOfMemory, Text};
use value_core::{Assigns, Value, to_text};
use view_api::{Effect, Effects, Owner, ViewFault, Views};
use view_script::ScriptViews;

const MANIFEST: &str =
    "{\"version\":1,\"views\":[{\"path\":\"/\",\"template\":\"t\",\"mount\":[[\"assign\",\"n\",\"params.n\"],[\"assign\",\"m\",\"@n + 1\"]],\"events\":{\"up\":[[\"assign\",\"n\",\"@n + 1\"]],\"swap\":[[\"assign\",\"m\",\"@n\"],[\"assign\",\"n\",\"@m - 2\"]],\"pick\":[[\"when\",\"@n > 4\",[[\"assign\",\"high\",\"@n\"]],[[\"assign\",\"low\",\"@n\"]]]],\"add\":[[\"assign\",\"n\",\"@n + value.by\"]],\"none\":[]}}]}";

fn views(alloc: Global) -> Result<ScriptViews, Fail> {
    let mut files = ByKey::new(alloc);
    for (name, content) in [
        ("bundle.json", MANIFEST),
        ("t.html.heex", "<p :if={@high}>{@n}</p>"),
    ] {
        let content = Bytes::copy_of(alloc, content.as_bytes())?;
        files.insert(Text::copy_of(alloc, name)?, content)?;
    }
    let bundle = load(alloc, &mut HeldFolder::new(files))?;
    Ok(ScriptViews::of(bundle.mount, bundle.events))
}

// What is assigned, or that the handler raised.
fn shown(alloc: Global, answer: Result<Effects, ViewFault>) -> Result<String, Fail> {
    let mut shown = String::new(alloc);
    let Ok(effects) = answer else {
        shown.push_str("raised")?;
        return Ok(shown);
    };
    for effect in effects.as_slice() {
        match effect {
            Effect::Assign { name, value } => {
                let name = name.as_str();
                let value = to_text(alloc, value).ok().ok_or("no text")?;
                let value = value.as_str();
                shown.push_str(format!(in alloc; "{name}={value};")?.as_str())?;
            }
            _ => shown.push_str("another effect")?,
        }
    }
    Ok(shown)
}

// An assign m of no number, and n where there is one.
fn assigns(alloc: Global, n: Option<i64>) -> Result<Assigns, OutOfMemory> {
    let mut assigns = ByKey::new(alloc);
    assigns.insert(Text::copy_of(alloc, "m")?, Value::Nil)?;
    if let Some(n) = n {
        assigns.insert(Text::copy_of(alloc, "n")?, Value::Int(n))?;
    }
    Ok(assigns)
}

// A map of one number.
fn map_of(alloc: Global, key: &str, number: i64) -> Result<Value, OutOfMemory> {
    let mut entries = ByKey::new(alloc);
    entries.insert(Text::copy_of(alloc, key)?, Value::Int(number))?;
    Ok(Value::Map(entries))
}

#[test]
fn events(rt: HostRuntime) -> Result<(), Fail> {
    let alloc = rt.alloc();
    let views = views(alloc)?;
    let value = map_of(alloc, "by", 3)?;
    for (event, n, effects) in [
        ("up", Some(7), "n=8;"),
        ("up", Some(9223372036854775807), "raised"),
        ("up", None, "raised"),
        ("swap", Some(4), "m=4;n=2;"),
        ("swap", Some(-9223372036854775807), "raised"),
        ("pick", Some(5), "high=5;"),
        ("pick", Some(4), "low=4;"),
        ("add", Some(7), "n=10;"),
        ("none", None, ""),
        ("other", Some(7), "raised"),
    ] {
        let event = Text::copy_of(alloc, event)?;
        let assigns = assigns(alloc, n)?;
        let answer = views.handle_event(alloc, Owner::View(0), &event, &value, &assigns);
        assert_eq!(rt; shown(alloc, answer)?.as_str(), effects);
    }
    Ok(())
}

#[test]
fn other_handlers(rt: HostRuntime) -> Result<(), Fail> {
    let alloc = rt.alloc();
    let views = views(alloc)?;
    let none = Text::copy_of(alloc, "none")?;
    let assigns = assigns(alloc, None)?;
    for (view, params, mounted, rest) in [
        (0, "n", "n=7;m=8;", ""),
        (0, "m", "raised", ""),
        (1, "n", "raised", "raised"),
    ] {
        let params = map_of(alloc, params, 7)?;
        let answer = views.mount(alloc, view, &params);
        assert_eq!(rt; shown(alloc, answer)?.as_str(), mounted);
        let answer = views.handle_params(alloc, view, &params, &assigns);
        assert_eq!(rt; shown(alloc, answer)?.as_str(), rest);
        let answer = views.handle_info(alloc, view, &params, &assigns);
        assert_eq!(rt; shown(alloc, answer)?.as_str(), rest);
    }
    for owner in [Owner::View(1), Owner::Component(0)] {
        let answer = views.handle_event(alloc, owner, &none, &Value::Nil, &assigns);
        assert_eq!(rt; shown(alloc, answer)?.as_str(), "raised");
    }
    let answer = views.mount_component(alloc, 0);
    assert_eq!(rt; shown(alloc, answer)?.as_str(), "raised");
    let answer = views.update_component(alloc, 0, &assigns, &assigns);
    assert_eq!(rt; shown(alloc, answer)?.as_str(), "raised");
    Ok(())
}
