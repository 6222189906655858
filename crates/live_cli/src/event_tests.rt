//! Scripts with events, through the call that `main` makes.
use crate::command::offline;
use crate::status::Status;
use std::alloc::Global;
use std::test::Fail;
use text_core::{ByKey, Bytes, HeldFolder, HeldSink, HeldSource, OutOfMemory, Text};

const MANIFEST: &str =
    "{\"version\":1,\"views\":[{\"path\":\"/\",\"template\":\"home\",\"mount\":[[\"assign\",\"n\",\"0\"],[\"assign\",\"m\",\"7\"]],\"events\":{\"inc\":[[\"assign\",\"n\",\"@n + 1\"]],\"same\":[[\"assign\",\"n\",\"@n\"]],\"both\":[[\"assign\",\"n\",\"@m - 2\"],[\"assign\",\"m\",\"@n\"]],\"top\":[[\"assign\",\"n\",\"9223372036854775807\"]],\"add\":[[\"assign\",\"n\",\"@n + value.by\"],[\"when\",\"@n > 5\",[[\"assign\",\"m\",\"1\"]],[]]]}}]}";

const JOIN: &str = "browser A\njoin A /\nrun A\n";

fn folder(alloc: Global, template: &str) -> Result<HeldFolder, OutOfMemory> {
    let mut files = ByKey::new(alloc);
    files.insert(
        Text::copy_of(alloc, "home.html.heex")?,
        Bytes::copy_of(alloc, template.as_bytes())?,
    )?;
    files.insert(
        Text::copy_of(alloc, "bundle.json")?,
        Bytes::copy_of(alloc, MANIFEST.as_bytes())?,
    )?;
    Ok(HeldFolder::new(files))
}

// What a script writes over the template, behind a join, and the status.
fn played(alloc: Global, template: &str, script: &str) -> Result<(Status, HeldSink), OutOfMemory> {
    let mut text = Text::copy_of(alloc, JOIN)?;
    text.push_str(script)?;
    let mut files = folder(alloc, template)?;
    let mut source = HeldSource::new(text.as_str().as_bytes());
    let mut out = HeldSink::new(alloc);
    let status = offline(
        alloc,
        &["replay", "home"],
        &mut files,
        &mut source,
        &mut out,
    );
    Ok((status, out))
}

#[test]
fn events(rt: HostRuntime) -> Result<(), Fail> {
    let alloc = rt.alloc();
    for (template, script, text) in [
        // An event changes one place, and the reply holds that place alone.
        (
            "<p>{@n}</p>",
            "event A click inc {}\nrun A\nhtml A\nframes A\n",
            "== A html 8\n<p>1</p>\n== A frames 2\n[\"1\",\"1\",\"lv:A\",\"phx_reply\",{\"response\":{\"rendered\":{\"0\":\"0\",\"s\":[\"<p>\",\"</p>\"]}},\"status\":\"ok\"}]\n[\"1\",\"2\",\"lv:A\",\"phx_reply\",{\"response\":{\"diff\":{\"0\":\"1\"}},\"status\":\"ok\"}]\n",
        ),
        // An equal value sends nothing.
        (
            "<p>{@n}</p>",
            "frames A\nevent A click same {}\nstep A\nframes A\nhtml A\n",
            "== A frames 1\n[\"1\",\"1\",\"lv:A\",\"phx_reply\",{\"response\":{\"rendered\":{\"0\":\"0\",\"s\":[\"<p>\",\"</p>\"]}},\"status\":\"ok\"}]\n== A frames 1\n[\"1\",\"2\",\"lv:A\",\"phx_reply\",{\"response\":{},\"status\":\"ok\"}]\n== A html 8\n<p>0</p>\n",
        ),
        // Of three places the two that show one assign are sent; each step sees those before it.
        (
            "{@n} {@m} {@n}",
            "run A\nevent A click inc {}\nevent A click both [1]\nrun A\nhtml A\nrun A\nhtml A\n",
            "== A html 5\n1 7 1\n== A html 5\n5 5 5\n",
        ),
        (
            "{@n} {@m} {@n}",
            "frames A\nevent A click inc {}\nstep A\nframes A\n",
            "== A frames 1\n[\"1\",\"1\",\"lv:A\",\"phx_reply\",{\"response\":{\"rendered\":{\"0\":\"0\",\"1\":\"7\",\"2\":\"0\",\"s\":[\"\",\" \",\" \",\"\"]}},\"status\":\"ok\"}]\n== A frames 1\n[\"1\",\"2\",\"lv:A\",\"phx_reply\",{\"response\":{\"diff\":{\"0\":\"1\",\"2\":\"1\"}},\"status\":\"ok\"}]\n",
        ),
        // A place is sent where an assign that it reads changed, also where its text is the same; a step that is not
        // done gives nothing.
        (
            "{@n * 0}{@m + 1}{@n + @m}",
            "frames A\nevent A click add {\"by\":2}\nrun A\nframes A\nevent A click add {\"by\":4}\nrun A\nhtml A\nframes A\n",
            "== A frames 1\n[\"1\",\"1\",\"lv:A\",\"phx_reply\",{\"response\":{\"rendered\":{\"0\":\"0\",\"1\":\"8\",\"2\":\"7\",\"s\":[\"\",\"\",\"\",\"\"]}},\"status\":\"ok\"}]\n== A frames 1\n[\"1\",\"2\",\"lv:A\",\"phx_reply\",{\"response\":{\"diff\":{\"0\":\"0\",\"2\":\"9\"}},\"status\":\"ok\"}]\n== A html 3\n027\n== A frames 1\n[\"1\",\"3\",\"lv:A\",\"phx_reply\",{\"response\":{\"diff\":{\"0\":\"0\",\"1\":\"2\",\"2\":\"7\"}},\"status\":\"ok\"}]\n",
        ),
    ] {
        let (status, out) = played(alloc, template, script)?;
        assert_eq!(rt; status, Status::Done);
        assert_eq!(rt; out.as_slice(), text.as_bytes());
    }
    Ok(())
}

// Attributes and spreads: an attribute is sent as a whole, and where an assign that it reads changed.
#[test]
fn attributes(rt: HostRuntime) -> Result<(), Fail> {
    let alloc = rt.alloc();
    for (template, script, text) in [
        (
            "<a title={\"<&\\\"'>\"} id={nil} hidden={true} lang={false} class={[\"x\", nil, false, \"y\"]}>{\"<&\\\"'>\"}{nil}</a><i class={nil}></i>",
            "html A\n",
            "== A html 99\n<a title=\"&lt;&amp;&quot;&#39;&gt;\" hidden class=\"x y\">&lt;&amp;&quot;&#39;&gt;</a><i class=\"\"></i>\n",
        ),
        (
            "<b title={@n} {%{k: @m, n: nil}}>x</b>",
            "event A click inc {}\nrun A\nframes A\nhtml A\n",
            "== A frames 2\n[\"1\",\"1\",\"lv:A\",\"phx_reply\",{\"response\":{\"rendered\":{\"0\":\" title=\\\"0\\\"\",\"1\":\" k=\\\"7\\\"\",\"s\":[\"<b\",\"\",\">x</b>\"]}},\"status\":\"ok\"}]\n[\"1\",\"2\",\"lv:A\",\"phx_reply\",{\"response\":{\"diff\":{\"0\":\" title=\\\"1\\\"\"}},\"status\":\"ok\"}]\n== A html 24\n<b title=\"1\" k=\"7\">x</b>\n",
        ),
    ] {
        let (status, out) = played(alloc, template, script)?;
        assert_eq!(rt; status, Status::Done);
        assert_eq!(rt; out.as_slice(), text.as_bytes());
    }
    Ok(())
}

// A page that raises is gone, and a join brings the first page back.
#[test]
fn overflow(rt: HostRuntime) -> Result<(), Fail> {
    let alloc = rt.alloc();
    let (status, out) = played(
        alloc,
        "<p>{9223372036854775807 + @n}</p>",
        "html A\nframes A\nevent A click inc {}\nrun A\nhtml A\nevent A click inc {}\nrun A\nframes A\njoin A /\nrun A\nhtml A\nframes A\n",
    )?;
    assert_eq!(rt; status, Status::Done);
    let text =
        "== A html 26\n<p>9223372036854775807</p>\n== A frames 1\n[\"1\",\"1\",\"lv:A\",\"phx_reply\",{\"response\":{\"rendered\":{\"0\":\"9223372036854775807\",\"s\":[\"<p>\",\"</p>\"]}},\"status\":\"ok\"}]\n== A down\n== A frames 1\n[\"1\",\"1\",\"lv:A\",\"phx_error\",{}]\n== A html 26\n<p>9223372036854775807</p>\n== A frames 1\n[\"4\",\"4\",\"lv:A\",\"phx_reply\",{\"response\":{\"rendered\":{\"0\":\"9223372036854775807\",\"s\":[\"<p>\",\"</p>\"]}},\"status\":\"ok\"}]\n";
    assert_eq!(rt; out.as_slice(), text.as_bytes());
    Ok(())
}

#[test]
fn crashes(rt: HostRuntime) -> Result<(), Fail> {
    let alloc = rt.alloc();
    for (script, text) in [
        // A sum outside 64 bits puts the process down, and a join brings it back.
        (
            "frames A\nevent A click top {}\nrun A\nhtml A\nevent A click inc {}\nrun A\nhtml A\nframes A\njoin A /\nrun A\nhtml A\n",
            "== A frames 1\n[\"1\",\"1\",\"lv:A\",\"phx_reply\",{\"response\":{\"rendered\":{\"0\":\"0\",\"s\":[\"\",\"\"]}},\"status\":\"ok\"}]\n== A html 19\n9223372036854775807\n== A down\n== A frames 2\n[\"1\",\"2\",\"lv:A\",\"phx_reply\",{\"response\":{\"diff\":{\"0\":\"9223372036854775807\"}},\"status\":\"ok\"}]\n[\"1\",\"1\",\"lv:A\",\"phx_error\",{}]\n== A html 1\n0\n",
        ),
        // An event without an entry raises, and one for a page that is gone changes nothing.
        (
            "event A click jump {}\nrun A\nhtml A\nevent A click inc {}\nrun A\nhtml A\n",
            "== A down\n== A down\n",
        ),
        // An event of an earlier join is stale; one of no join too.
        (
            "event A click inc {}\njoin A /\nrun A\nrun A\nhtml A\nbrowser B\nevent B click inc {}\nrun B\nframes B\n",
            "== A html 1\n0\n== B frames 0\n",
        ),
    ] {
        let (status, out) = played(alloc, "{@n}", script)?;
        assert_eq!(rt; status, Status::Done);
        assert_eq!(rt; out.as_slice(), text.as_bytes());
    }
    Ok(())
}

// The script of so many events that wait, and of the page after one of them.
fn waiting_events(alloc: Global, count: usize) -> Result<Text, OutOfMemory> {
    let mut script = Text::new(alloc);
    for _ in 0..count {
        script.push_str("event A click inc {}\n")?;
    }
    script.push_str("run A\nhtml A\n")?;
    Ok(script)
}

#[test]
fn full_inbox(rt: HostRuntime) -> Result<(), Fail> {
    let alloc = rt.alloc();
    for (count, text) in [
        (1024, "== A html 1\n1\n"),
        (1025, "== A Full\n== A html 1\n1\n"),
    ] {
        let script = waiting_events(alloc, count)?;
        let (status, out) = played(alloc, "{@n}", script.as_str())?;
        assert_eq!(rt; status, Status::Done);
        assert_eq!(rt; out.as_slice(), text.as_bytes());
    }
    Ok(())
}
