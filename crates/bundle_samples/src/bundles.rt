use bundle_files::{Bundle, LoadFault, Step, Steps, load};
use std::alloc::Global;
use std::test::Fail;
use text_core::{ByKey, Bytes, Failing, HeldFolder, OutOfMemory, Seq, Text};

const MANIFEST: &str =
    "{\"version\":1,\"views\":[{\"path\":\"/\",\"template\":\"home\",\"mount\":[[\"assign\",\"n\",\"7\"]]}]}";

const TEMPLATE: &str = "<p>{@n}</p>";

fn folder(alloc: Global, files: &[(&str, &[u8])]) -> Result<HeldFolder, OutOfMemory> {
    let mut held = ByKey::new(alloc);
    for file in files {
        held.insert(
            Text::copy_of(alloc, file.0)?,
            Bytes::copy_of(alloc, file.1)?,
        )?;
    }
    Ok(HeldFolder::new(held))
}

fn fault(alloc: Global, files: &[(&str, &[u8])]) -> Result<Option<LoadFault>, OutOfMemory> {
    let mut folder = folder(alloc, files)?;
    Ok(load(alloc, &mut folder).err())
}

fn fault_of_manifest(alloc: Global, manifest: &str) -> Result<Option<LoadFault>, OutOfMemory> {
    fault(
        alloc,
        &[
            ("bundle.json", manifest.as_bytes()),
            ("home.html.heex", TEMPLATE.as_bytes()),
        ],
    )
}

fn fault_of_template(alloc: Global, template: &str) -> Result<Option<LoadFault>, OutOfMemory> {
    fault(
        alloc,
        &[
            ("bundle.json", MANIFEST.as_bytes()),
            ("home.html.heex", template.as_bytes()),
        ],
    )
}

// Writes the name of a step, or both lists of a choice.
#[cycle(shown)]
fn show_step(step: &Step, shown: &mut String) -> Result<(), OutOfMemory> {
    match step {
        Step::Assign {
            name,
            value: _value,
        } => shown.push_str(name.as_str())?,
        Step::When {
            test: _test,
            yes,
            no,
        } => {
            shown.push_str("(")?;
            show_steps(yes, shown)?;
            shown.push_str(" |")?;
            show_steps(no, shown)?;
            shown.push_str(")")?;
        }
    }
    Ok(())
}

#[cycle(shown)]
fn show_steps(steps: &Steps, shown: &mut String) -> Result<(), OutOfMemory> {
    for step in steps.as_slice() {
        shown.push_str(" ")?;
        show_step(step, shown)?;
    }
    Ok(())
}

#[test]
fn hello_is_loaded(rt: HostRuntime) -> Result<(), Fail> {
    let alloc = rt.alloc();
    let files = [
        ("bundle.json", MANIFEST.as_bytes()),
        ("home.html.heex", TEMPLATE.as_bytes()),
    ];
    let mut folder = folder(alloc, &files)?;
    let Bundle {
        compiled,
        mount,
        events,
    } = load(alloc, &mut folder)?;
    assert_eq!(rt; compiled.dynamics(0).len(), 1);
    assert_eq!(rt;
        compiled.statics(0).last().map(|text| text.as_str()),
        Some("</p>")
    );
    assert_eq!(rt; events.len(), 0);
    let mut shown = String::new(alloc);
    show_steps(&mount, &mut shown)?;
    assert_eq!(rt; shown.as_str(), " n");
    Ok(())
}

#[test]
fn manifests(rt: HostRuntime) -> Result<(), Fail> {
    let alloc = rt.alloc();
    for (manifest, fault) in [
        (
            " {\"views\" : [{\"mount\":[],\"template\":\"home\",\"path\":\"\\/\"}], \"version\":2, \"version\":1}",
            None,
        ),
        ("[]", Some(LoadFault::Refused)),
        (
            "{\"version\":1.0,\"views\":[{\"path\":\"/\",\"template\":\"home\",\"mount\":[]}]}",
            Some(LoadFault::Refused),
        ),
        (
            "{\"version\":1,\"views\":[{\"path\":\"/\",\"template\":\"home\",\"mount\":[]},{\"path\":\"/b\",\"template\":\"home\",\"mount\":[]}]}",
            Some(LoadFault::Refused),
        ),
        (
            "{\"version\":1,\"views\":[{\"path\":\"/\",\"template\":\"home\",\"mount\":[],\"params\":[]}]}",
            Some(LoadFault::Refused),
        ),
        (
            "{\"version\":1,\"views\":[{\"path\":\"/\",\"template\":\"home\",\"mount\":{}}]}",
            Some(LoadFault::Refused),
        ),
    ] {
        assert_eq!(rt; fault_of_manifest(alloc, manifest)?, fault);
    }
    Ok(())
}

#[test]
fn templates_of_elements(rt: HostRuntime) -> Result<(), Fail> {
    let alloc = rt.alloc();
    for (template, fault) in [
        ("<b>{@n}</b><br>", None),
        ("<b class={@n} title='x' {@m}>y</b>", None),
        ("<b class={@streams.m}>y</b>", Some(LoadFault::Refused)),
        ("<.card />", Some(LoadFault::Refused)),
    ] {
        assert_eq!(rt; fault_of_template(alloc, template)?, fault, "of {template}");
    }
    Ok(())
}

#[test]
fn templates_of_branches_and_loops(rt: HostRuntime) -> Result<(), Fail> {
    let alloc = rt.alloc();
    for (template, fault) in [
        ("<%= if @n do %>x<% end %>", None),
        ("<%= if @n do %>x<% else %>{@m}<% end %>", None),
        ("<%= case @n do %><% 1 -> %>x<% m -> %>{m}<% end %>", None),
        ("<%= for x <- @l do %><b :if={x}>{@n}</b><% end %>", None),
        ("<i :for={x <- @l}>{x}</i>", None),
        (
            "<%= if @n do %><.card /><% end %>",
            Some(LoadFault::Refused),
        ),
        (
            "<i :for={x <- @l}><.live_component module={Card} id={x} /></i>",
            Some(LoadFault::Refused),
        ),
        (
            "<b :if={@n}>{render_slot(@s)}</b>",
            Some(LoadFault::Refused),
        ),
        ("<i :for={x <- @l}>{@streams}</i>", Some(LoadFault::Refused)),
    ] {
        assert_eq!(rt; fault_of_template(alloc, template)?, fault, "of {template}");
    }
    Ok(())
}

// What a view with these events does at each of them, or that it is refused.
fn events_shown(alloc: Global, events: &str) -> Result<String, Fail> {
    let manifest = format!(in alloc;
        "{{\"version\":1,\"views\":[{{\"path\":\"/\",\"template\":\"home\",\"mount\":[],\"events\":{events}}}]}}"
    )?;
    let files = [
        ("bundle.json", manifest.as_str().as_bytes()),
        ("home.html.heex", TEMPLATE.as_bytes()),
    ];
    let mut shown = String::new(alloc);
    match load(alloc, &mut folder(alloc, &files)?) {
        Ok(bundle) => {
            for event in bundle.events.as_slice() {
                shown.push_str(event.key.as_str())?;
                shown.push_str(":")?;
                show_steps(&event.value, &mut shown)?;
                shown.push_str(";")?;
            }
        }
        Err(_) => shown.push_str("refused")?,
    }
    Ok(shown)
}

#[test]
fn events(rt: HostRuntime) -> Result<(), Fail> {
    let alloc = rt.alloc();
    for (events, shown) in [
        (
            "{\"up\":[[\"assign\",\"n\",\"@n + 1\"],[\"assign\",\"m\",\"value.by\"]],\"\":7,\"\":[]}",
            ":;up: n m;",
        ),
        (
            "{\"a\":[[\"when\",\"@n > 0\",[[\"when\",\"@m\",[],[[\"assign\",\"x\",\"1\"]]],[\"assign\",\"y\",\"2\"]],[[\"assign\",\"z\",\"3\"]]]]}",
            "a: ( ( | x) y | z);",
        ),
        ("{\"a\":[[\"send\",\"n\",\"1\"]]}", "refused"),
        ("{\"a\":[[\"when\",\"@n\",[]]]}", "refused"),
        ("{\"a\":[[\"assign\",\"@n\",[],[]]]}", "refused"),
        ("{\"a\":[\"assign\"]}", "refused"),
        (
            "{\"a\":[[\"when\",\"@n\",[[\"when\",\"@n\",[],[[\"assign\",\"n\"]]]],[]]]}",
            "refused",
        ),
        ("{\"a\":[[\"assign\",\"n\",\"@n +\"]]}", "refused"),
        ("{\"a\":[[\"assign\",\"n\",\"@streams\"]]}", "refused"),
        ("[]", "refused"),
    ] {
        assert_eq!(rt; events_shown(alloc, events)?.as_str(), shown, "at {events}");
    }
    Ok(())
}

#[test]
fn files(rt: HostRuntime) -> Result<(), Fail> {
    let alloc = rt.alloc();
    let manifest = ("bundle.json", MANIFEST.as_bytes());
    let template = ("home.html.heex", TEMPLATE.as_bytes());
    let refused = Some(LoadFault::Refused);
    assert_eq!(rt; fault(alloc, &[template])?, refused);
    assert_eq!(rt; fault(alloc, &[manifest, template, ("a", b"")])?, refused);
    assert_eq!(rt;
        fault(alloc, &[manifest, ("home.html.heex", b"<p>{@n}\xff</p>")])?,
        refused
    );
    assert_eq!(rt;
        fault(alloc, &[manifest, ("home.html.heex", b"<p>{@n</p>")])?,
        refused
    );
    Ok(())
}

fn letters(alloc: Global, count: usize) -> Result<Vec<u8>, OutOfMemory> {
    Ok(vec![in alloc; b'a'; count]?)
}

#[test]
fn sizes(rt: HostRuntime) -> Result<(), Fail> {
    let alloc = rt.alloc();
    let manifest = ("bundle.json", MANIFEST.as_bytes());
    let greatest = letters(alloc, 1_048_576)?;
    assert_eq!(rt;
        fault(alloc, &[manifest, ("home.html.heex", greatest.as_slice())])?,
        None
    );
    let large = letters(alloc, 1_048_577)?;
    assert_eq!(rt;
        fault(alloc, &[manifest, ("home.html.heex", large.as_slice())])?,
        Some(LoadFault::Refused)
    );
    Ok(())
}

#[test]
fn failing_calls(rt: HostRuntime) -> Result<(), Fail> {
    let alloc = rt.alloc();
    let files = [
        ("bundle.json", MANIFEST.as_bytes()),
        ("home.html.heex", TEMPLATE.as_bytes()),
    ];
    for call in 1..4u64 {
        let mut failing = Seq::new(alloc);
        failing.push(call)?;
        let mut folder = Failing::new(folder(alloc, &files)?, failing, 0);
        assert_eq!(rt; load(alloc, &mut folder).err(), Some(LoadFault::ReadFault));
    }
    Ok(())
}
