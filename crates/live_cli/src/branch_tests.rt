//! Scripts over templates with branches and loops, through the call that `main` makes.
use crate::command::offline;
use crate::status::Status;
use std::alloc::Global;
use std::test::Fail;
use text_core::{ByKey, Bytes, HeldFolder, HeldSink, HeldSource, OutOfMemory, Text};

// A page: what its mount does, what its events do, and its template.
#[derive(Clone, Copy)]
struct Page<'a> {
    mount: &'a str,
    events: &'a str,
    template: &'a str,
}

fn manifest(alloc: Global, page: Page) -> Result<Text, OutOfMemory> {
    let mut text = Text::copy_of(
        alloc,
        "{\"version\":1,\"views\":[{\"path\":\"/\",\"template\":\"home\",\"mount\":",
    )?;
    text.push_str(page.mount)?;
    text.push_str(",\"events\":")?;
    text.push_str(page.events)?;
    text.push_str("}]}")?;
    Ok(text)
}

fn folder(alloc: Global, page: Page) -> Result<HeldFolder, OutOfMemory> {
    let manifest = manifest(alloc, page)?;
    let mut files = ByKey::new(alloc);
    files.insert(
        Text::copy_of(alloc, "home.html.heex")?,
        Bytes::copy_of(alloc, page.template.as_bytes())?,
    )?;
    files.insert(
        Text::copy_of(alloc, "bundle.json")?,
        Bytes::copy_of(alloc, manifest.as_str().as_bytes())?,
    )?;
    Ok(HeldFolder::new(files))
}

// What a script writes over a page, behind a join, and the status.
fn played(alloc: Global, page: Page, script: &str) -> Result<(Status, HeldSink), OutOfMemory> {
    let mut text = Text::copy_of(alloc, "browser A\njoin A /\nrun A\n")?;
    text.push_str(script)?;
    let mut files = folder(alloc, page)?;
    let mut source = HeldSource::new(text.as_str().as_bytes());
    let mut out = HeldSink::new(alloc);
    let status = offline(
        alloc,
        &["replay", "home"],
        &mut files,
        &mut source,
        &mut out,
    );
    Ok((status, out))
}

#[test]
fn branches_and_loops(rt: HostRuntime) -> Result<(), Fail> {
    let alloc = rt.alloc();
    for (mount, events, template, script, text) in [
        // Two branches with equal statics are two nodes: the other one is sent whole. A place of a branch that is not
        // shown sends nothing.
        (
            "[[\"assign\",\"a\",\"true\"],[\"assign\",\"x\",\"\\\"1\\\"\"],[\"assign\",\"y\",\"\\\"2\\\"\"]]",
            "{\"flip\":[[\"assign\",\"a\",\"!@a\"]],\"more\":[[\"assign\",\"x\",\"\\\"3\\\"\"]]}",
            "<%= if @a do %><b>{@x}</b><% else %><b>{@y}</b><% end %>",
            "frames A\nevent A click flip {}\nrun A\nhtml A\nevent A click more {}\nrun A\nevent A click flip {}\nrun A\nframes A\nhtml A\n",
            "== A frames 1\n[\"1\",\"1\",\"lv:A\",\"phx_reply\",{\"response\":{\"rendered\":{\"0\":{\"0\":\"1\",\"s\":[\"<b>\",\"</b>\"]},\"s\":[\"\",\"\"]}},\"status\":\"ok\"}]\n== A html 8\n<b>2</b>\n== A frames 3\n[\"1\",\"2\",\"lv:A\",\"phx_reply\",{\"response\":{\"diff\":{\"0\":{\"0\":\"2\",\"s\":[\"<b>\",\"</b>\"]}}},\"status\":\"ok\"}]\n[\"1\",\"3\",\"lv:A\",\"phx_reply\",{\"response\":{},\"status\":\"ok\"}]\n[\"1\",\"4\",\"lv:A\",\"phx_reply\",{\"response\":{\"diff\":{\"0\":{\"0\":\"3\",\"s\":[\"<b>\",\"</b>\"]}}},\"status\":\"ok\"}]\n== A html 8\n<b>3</b>\n",
        ),
        // A branch that stays is followed, none is the empty text.
        (
            "[[\"assign\",\"a\",\"1\"],[\"assign\",\"x\",\"\\\"1\\\"\"]]",
            "{\"both\":[[\"assign\",\"a\",\"3\"],[\"assign\",\"x\",\"\\\"2\\\"\"]],\"none\":[[\"assign\",\"a\",\"nil\"]],\"same\":[[\"assign\",\"a\",\"2\"]]}",
            "<%= if @a do %>{@x}!<% end %>",
            "event A click same {}\nrun A\nevent A click both {}\nrun A\nevent A click none {}\nrun A\nevent A click none {}\nrun A\nframes A\nhtml A\n",
            "== A frames 5\n[\"1\",\"1\",\"lv:A\",\"phx_reply\",{\"response\":{\"rendered\":{\"0\":{\"0\":\"1\",\"s\":[\"\",\"!\"]},\"s\":[\"\",\"\"]}},\"status\":\"ok\"}]\n[\"1\",\"2\",\"lv:A\",\"phx_reply\",{\"response\":{},\"status\":\"ok\"}]\n[\"1\",\"3\",\"lv:A\",\"phx_reply\",{\"response\":{\"diff\":{\"0\":{\"0\":\"2\"}}},\"status\":\"ok\"}]\n[\"1\",\"4\",\"lv:A\",\"phx_reply\",{\"response\":{\"diff\":{\"0\":\"\"}},\"status\":\"ok\"}]\n[\"1\",\"5\",\"lv:A\",\"phx_reply\",{\"response\":{},\"status\":\"ok\"}]\n== A html 0\n\n",
        ),
        // Rows: all of them where the list differs, with statics only where there were none.
        (
            "[[\"assign\",\"l\",\"[1, 2, 3]\"]]",
            "{\"none\":[[\"assign\",\"l\",\"[]\"]],\"one\":[[\"assign\",\"l\",\"[6]\"]],\"two\":[[\"assign\",\"l\",\"[4, 5]\"]]}",
            "<ul><%= for x <- @l do %><li>{x}</li><% end %></ul>",
            "event A click none {}\nrun A\nevent A click two {}\nrun A\nevent A click one {}\nrun A\nframes A\nhtml A\n",
            "== A frames 4\n[\"1\",\"1\",\"lv:A\",\"phx_reply\",{\"response\":{\"rendered\":{\"0\":{\"d\":[[\"1\"],[\"2\"],[\"3\"]],\"s\":[\"<li>\",\"</li>\"]},\"s\":[\"<ul>\",\"</ul>\"]}},\"status\":\"ok\"}]\n[\"1\",\"2\",\"lv:A\",\"phx_reply\",{\"response\":{\"diff\":{\"0\":\"\"}},\"status\":\"ok\"}]\n[\"1\",\"3\",\"lv:A\",\"phx_reply\",{\"response\":{\"diff\":{\"0\":{\"d\":[[\"4\"],[\"5\"]],\"s\":[\"<li>\",\"</li>\"]}}},\"status\":\"ok\"}]\n[\"1\",\"4\",\"lv:A\",\"phx_reply\",{\"response\":{\"diff\":{\"0\":{\"d\":[[\"6\"]]}}},\"status\":\"ok\"}]\n== A html 19\n<ul><li>6</li></ul>\n",
        ),
        // What a clause binds is compared with what it bound before.
        (
            "[[\"assign\",\"r\",\"{:ok, 1}\"],[\"assign\",\"n\",\"0\"]]",
            "{\"bad\":[[\"assign\",\"r\",\"nil\"]],\"inc\":[[\"assign\",\"n\",\"@n + 1\"]],\"next\":[[\"assign\",\"r\",\"{:ok, 2}\"]]}",
            "<%= case @r do %><% {:ok, v} -> %><i>{v}{@n}</i><% _ -> %>no<% end %>",
            "event A click inc {}\nrun A\nevent A click next {}\nrun A\nevent A click bad {}\nrun A\nevent A click inc {}\nrun A\nframes A\nhtml A\n",
            "== A frames 5\n[\"1\",\"1\",\"lv:A\",\"phx_reply\",{\"response\":{\"rendered\":{\"0\":{\"0\":\"1\",\"1\":\"0\",\"s\":[\"<i>\",\"\",\"</i>\"]},\"s\":[\"\",\"\"]}},\"status\":\"ok\"}]\n[\"1\",\"2\",\"lv:A\",\"phx_reply\",{\"response\":{\"diff\":{\"0\":{\"1\":\"1\"}}},\"status\":\"ok\"}]\n[\"1\",\"3\",\"lv:A\",\"phx_reply\",{\"response\":{\"diff\":{\"0\":{\"0\":\"2\"}}},\"status\":\"ok\"}]\n[\"1\",\"4\",\"lv:A\",\"phx_reply\",{\"response\":{\"diff\":{\"0\":{\"s\":[\"no\"]}}},\"status\":\"ok\"}]\n[\"1\",\"5\",\"lv:A\",\"phx_reply\",{\"response\":{},\"status\":\"ok\"}]\n== A html 2\nno\n",
        ),
        // Loops and conditions on elements; a name that rows read from outside shows all rows again.
        (
            "[[\"assign\",\"l\",\"[%{k: 1}, nil, %{k: 2}]\"],[\"assign\",\"c\",\"\\\"z\\\"\"],[\"assign\",\"n\",\"1\"]]",
            "{\"inc\":[[\"assign\",\"n\",\"@n + 1\"]],\"same\":[[\"assign\",\"n\",\"@n\"]]}",
            "<ul><li :for={%{k: x} <- @l} class={@c}><b :if={x > @n}>{x}</b></li></ul>",
            "event A click same {}\nrun A\nevent A click inc {}\nrun A\nframes A\nhtml A\n",
            "== A frames 3\n[\"1\",\"1\",\"lv:A\",\"phx_reply\",{\"response\":{\"rendered\":{\"0\":{\"d\":[[\" class=\\\"z\\\"\",\"\"],[\" class=\\\"z\\\"\",{\"0\":\"2\",\"s\":[\"<b>\",\"</b>\"]}]],\"s\":[\"<li\",\">\",\"</li>\"]},\"s\":[\"<ul>\",\"</ul>\"]}},\"status\":\"ok\"}]\n[\"1\",\"2\",\"lv:A\",\"phx_reply\",{\"response\":{},\"status\":\"ok\"}]\n[\"1\",\"3\",\"lv:A\",\"phx_reply\",{\"response\":{\"diff\":{\"0\":{\"d\":[[\" class=\\\"z\\\"\",\"\"],[\" class=\\\"z\\\"\",\"\"]]}}},\"status\":\"ok\"}]\n== A html 47\n<ul><li class=\"z\"></li><li class=\"z\"></li></ul>\n",
        ),
        // A case that no clause matches raises, and so does a loop over a number.
        (
            "[[\"assign\",\"r\",\"1\"],[\"assign\",\"l\",\"[]\"]]",
            "{\"five\":[[\"assign\",\"l\",\"5\"]],\"two\":[[\"assign\",\"r\",\"2\"]]}",
            "<%= case @r do %><% 1 -> %>one<% end %><%= for x <- @l do %>{x}<% end %>",
            "html A\nevent A click two {}\nrun A\nframes A\nhtml A\njoin A /\nrun A\nevent A click five {}\nrun A\nframes A\n",
            "== A html 3\none\n== A frames 2\n[\"1\",\"1\",\"lv:A\",\"phx_reply\",{\"response\":{\"rendered\":{\"0\":{\"s\":[\"one\"]},\"1\":\"\",\"s\":[\"\",\"\",\"\"]}},\"status\":\"ok\"}]\n[\"1\",\"1\",\"lv:A\",\"phx_error\",{}]\n== A down\n== A frames 2\n[\"3\",\"3\",\"lv:A\",\"phx_reply\",{\"response\":{\"rendered\":{\"0\":{\"s\":[\"one\"]},\"1\":\"\",\"s\":[\"\",\"\",\"\"]}},\"status\":\"ok\"}]\n[\"3\",\"3\",\"lv:A\",\"phx_error\",{}]\n",
        ),
        // A text in a frame has the escapes of JSON.
        (
            "[[\"assign\",\"t\",\"\\\"a\\\\nb\\\\\\\\\\\"\"]]",
            "{}",
            "<p>{@t}</p>",
            "frames A\nhtml A\n",
            "== A frames 1\n[\"1\",\"1\",\"lv:A\",\"phx_reply\",{\"response\":{\"rendered\":{\"0\":\"a\\nb\\\\\",\"s\":[\"<p>\",\"</p>\"]}},\"status\":\"ok\"}]\n== A html 11\n<p>a\nb\\</p>\n",
        ),
    ] {
        let page = Page {
            mount,
            events,
            template,
        };
        let (status, out) = played(alloc, page, script)?;
        assert_eq!(rt; status, Status::Done);
        assert_eq!(rt; out.as_slice(), text.as_bytes());
    }
    Ok(())
}

// So many branches in one another.
fn nested(alloc: Global, count: usize) -> Result<Text, OutOfMemory> {
    let mut text = Text::new(alloc);
    for _ in 0..count {
        text.push_str("<%= if true do %>")?;
    }
    text.push_str("x")?;
    for _ in 0..count {
        text.push_str("<% end %>")?;
    }
    Ok(text)
}

// Forty branches in one another are rendered, and one more raises.
#[test]
fn level_limit(rt: HostRuntime) -> Result<(), Fail> {
    let alloc = rt.alloc();
    for (count, text) in [(40, "== A html 1\nx\n"), (41, "== A down\n")] {
        let template = nested(alloc, count)?;
        let page = Page {
            mount: "[]",
            events: "{}",
            template: template.as_str(),
        };
        let (status, out) = played(alloc, page, "html A\n")?;
        assert_eq!(rt; status, Status::Done);
        assert_eq!(rt; out.as_slice(), text.as_bytes());
    }
    Ok(())
}

// What the program does not take yet is refused, wherever it stands.
#[test]
fn refused(rt: HostRuntime) -> Result<(), Fail> {
    let alloc = rt.alloc();
    for template in [
        "<%= if @a do %><.card /><% end %>",
        "<%= for x <- @streams.m do %>{x}<% end %>",
        "<%= case @r do %><% 1 -> %>{@streams}<% end %>",
        "<ul :for={x <- [1]}><li :if={x}><.live_component module={M} id=\"x\" /></li></ul>",
    ] {
        let page = Page {
            mount: "[]",
            events: "{}",
            template,
        };
        let (status, out) = played(alloc, page, "html A\n")?;
        assert_eq!(rt; status, Status::Refused);
        assert_eq!(rt; out.as_slice(), b"refused: NotYet\n".as_slice());
    }
    Ok(())
}
