//! Clients against whole trees and diffs.
use client_merge::{Client, MergeFault, take_tree};
use diff_tree::{Part, PlaceValue, Row, read_diff};
use std::alloc::Global;
use std::test::Fail;
use text_core::{Bytes, HeldSink, Names, OutOfMemory, Seq, Text, Wrote};

fn part(alloc: Global, text: &str) -> Result<Part, Fail> {
    let (root, components, events) = read_diff(alloc, text)?.into_parts();
    Ok(root)
}

fn shown(alloc: Global, client: &Client) -> Result<Text, OutOfMemory> {
    match client.html(alloc)? {
        Some(page) => Ok(page),
        None => Text::copy_of(alloc, "no page"),
    }
}

#[test]
fn a_client_takes_frames(rt: HostRuntime) -> Result<(), Fail> {
    let alloc = rt.alloc();
    let mut client = Client::empty();
    for (whole, text, fault, page) in [
        (false, "{}", Some(MergeFault::BadFrame), "no page"),
        (true, "{\"0\":\"a\"}", Some(MergeFault::BadFrame), "no page"),
        (
            true,
            "{\"0\":\"a\",\"1\":\"b\",\"s\":[\"<\",\"|\",\">\"]}",
            None,
            "<a|b>",
        ),
        (false, "{\"1\":\"c\"}", None, "<a|c>"),
        (false, "{\"7\":\"d\"}", Some(MergeFault::BadFrame), "<a|c>"),
        (
            false,
            "{\"99999999999999999999999\":\"\"}",
            Some(MergeFault::BadFrame),
            "<a|c>",
        ),
        (
            false,
            "{\"0\":\"x\",\"1\":{\"0\":\"d\"}}",
            Some(MergeFault::BadFrame),
            "<a|c>",
        ),
        (
            false,
            "{\"1\":{\"0\":\"d\",\"s\":[\"(\",\")\"]}}",
            None,
            "<a|(d)>",
        ),
        (false, "{\"1\":{\"0\":\"e\"}}", None, "<a|(e)>"),
        (false, "{\"0\":\"f\",\"1\":{}}", None, "<f|(e)>"),
        (false, "{\"1\":\"g\"}", None, "<f|g>"),
        (false, "{\"s\":[\"h\"]}", None, "h"),
        (
            true,
            "{\"0\":{},\"s\":[\"\",\"\"]}",
            Some(MergeFault::BadFrame),
            "h",
        ),
    ] {
        let part = part(alloc, text)?;
        let result = if whole {
            client.take_whole(alloc, part)
        } else {
            client.take_diff(alloc, part)
        };
        assert_eq!(rt; result.err(), fault, "at {text}");
        assert_eq!(rt; shown(alloc, &client)?.as_str(), page, "at {text}");
    }
    client.end();
    assert_eq!(rt; shown(alloc, &client)?.as_str(), "no page");
    Ok(())
}

// A tree of one list of rows of one value.
const LIST: &str = "{\"0\":{\"d\":[[\"a\"],[\"b\"]],\"s\":[\"<\",\">\"]},\"s\":[\"(\",\")\"]}";

#[test]
fn a_client_takes_lists(rt: HostRuntime) -> Result<(), Fail> {
    let alloc = rt.alloc();
    let mut client = Client::empty();
    client.take_whole(alloc, part(alloc, LIST)?)?;
    for (text, fault, page) in [
        ("{}", None, "(<a><b>)"),
        ("{\"0\":{\"d\":[[\"c\"]]}}", None, "(<c>)"),
        // Too long, too short, and of other lengths.
        (
            "{\"0\":{\"d\":[[\"x\",\"y\"]]}}",
            Some(MergeFault::BadFrame),
            "(<c>)",
        ),
        ("{\"0\":{\"d\":[[]]}}", Some(MergeFault::BadFrame), "(<c>)"),
        // Values of places, where a list is held.
        ("{\"0\":{\"0\":\"x\"}}", Some(MergeFault::BadFrame), "(<c>)"),
        ("{\"0\":{}}", Some(MergeFault::BadFrame), "(<c>)"),
        // The rows are gone, and come again with their statics.
        ("{\"0\":\"\"}", None, "()"),
        (
            "{\"0\":{\"d\":[[\"c\"]]}}",
            Some(MergeFault::BadFrame),
            "()",
        ),
        (
            "{\"0\":{\"d\":[[\"e\"]],\"s\":[\"<\",\">\"]}}",
            None,
            "(<e>)",
        ),
        // Other statics.
        (
            "{\"0\":{\"d\":[[\"f\",\"g\"],[\"h\",\"i\"]],\"s\":[\"[\",\"|\",\"]\"]}}",
            None,
            "([f|g][h|i])",
        ),
        ("{\"0\":{\"d\":[[\"j\",\"k\"]]}}", None, "([j|k])"),
        // Nodes and lists in rows are whole.
        (
            "{\"0\":{\"d\":[[{\"0\":\"l\",\"s\":[\"{\",\"}\"]},{\"d\":[[\"m\"]],\"s\":[\"<\",\">\"]}]]}}",
            None,
            "([{l}|<m>])",
        ),
        (
            "{\"0\":{\"d\":[[\"n\",{\"0\":\"l\"}]]}}",
            Some(MergeFault::BadFrame),
            "([{l}|<m>])",
        ),
        (
            "{\"0\":{\"d\":[[\"n\",{\"d\":[[\"m\"]]}]]}}",
            Some(MergeFault::BadFrame),
            "([{l}|<m>])",
        ),
        // Rows, where a node is held.
        ("{\"0\":{\"0\":\"o\",\"s\":[\"<\",\">\"]}}", None, "(<o>)"),
        (
            "{\"0\":{\"d\":[[\"p\"]]}}",
            Some(MergeFault::BadFrame),
            "(<o>)",
        ),
        ("{\"d\":[[\"p\"]]}", Some(MergeFault::BadFrame), "(<o>)"),
        ("{\"0\":{\"0\":\"q\"}}", None, "(<q>)"),
        // A list in the stead of a node, and of the root.
        (
            "{\"0\":{\"d\":[[\"r\"]],\"s\":[\"<\",\">\"]}}",
            None,
            "(<r>)",
        ),
        (
            "{\"d\":[[\"s\"],[\"t\"]],\"s\":[\"<\",\">\"]}",
            None,
            "<s><t>",
        ),
        ("{\"0\":\"u\"}", Some(MergeFault::BadFrame), "<s><t>"),
        ("{\"d\":[[\"v\"]]}", None, "<v>"),
    ] {
        let result = client.take_diff(alloc, part(alloc, text)?);
        assert_eq!(rt; result.err(), fault, "at {text}");
        assert_eq!(rt; shown(alloc, &client)?.as_str(), page, "at {text}");
    }
    Ok(())
}

#[test]
fn a_client_takes_no_components_and_no_streams(rt: HostRuntime) -> Result<(), Fail> {
    let alloc = rt.alloc();
    let mut client = Client::empty();
    client.take_whole(alloc, part(alloc, LIST)?)?;
    for text in [
        "{\"0\":1}",
        "{\"0\":{\"d\":[[1]]}}",
        "{\"0\":{\"d\":[[\"a\"]],\"stream\":[\"items\",[[\"items-1\",-1,null]],[]]}}",
        "{\"0\":{\"d\":[],\"stream\":[\"items\",[],[]]}}",
        "{\"0\":{\"d\":[],\"s\":[\"<\",\">\"],\"stream\":[\"items\",[],[]]}}",
    ] {
        let result = client.take_diff(alloc, part(alloc, text)?);
        assert_eq!(rt; result.err(), Some(MergeFault::BadFrame), "at {text}");
        assert_eq!(rt; shown(alloc, &client)?.as_str(), "(<a><b>)", "at {text}");
    }
    Ok(())
}

// Rows that a reader of diffs would not let through.
#[test]
fn rows_have_the_length_of_the_statics(rt: HostRuntime) -> Result<(), Fail> {
    let alloc = rt.alloc();
    for (statics, values, fault) in [
        (2, 1, None),
        (1, 0, None),
        (2, 0, Some(MergeFault::BadFrame)),
        (2, 2, Some(MergeFault::BadFrame)),
        (0, 0, Some(MergeFault::BadFrame)),
    ] {
        let mut rows = Seq::new(alloc);
        rows.push(row(alloc, values)?)?;
        let list = Part::list(Some(blanks(alloc, statics)?), rows, None);
        assert_eq!(rt;
            take_tree(alloc, list).err(),
            fault,
            "at {statics} and {values}"
        );
    }
    Ok(())
}

fn row(alloc: Global, values: usize) -> Result<Row, OutOfMemory> {
    let mut row = Seq::new(alloc);
    for _ in 0..values {
        row.push(PlaceValue::Text(Text::new(alloc)))?;
    }
    Ok(Row::new(row))
}

fn blanks(alloc: Global, count: usize) -> Result<Names, OutOfMemory> {
    let mut names = Seq::new(alloc);
    for _ in 0..count {
        names.push(Text::new(alloc))?;
    }
    Ok(names)
}

// What a client shows after the bytes of a frame, or why it did not take them.
fn after(alloc: Global, client: &mut Client, frame: &str) -> Result<Text, OutOfMemory> {
    match client.take(alloc, frame.as_bytes()) {
        Ok(()) => shown(alloc, client),
        Err(MergeFault::BadFrame) => Text::copy_of(alloc, "bad frame"),
        Err(MergeFault::OutOfMemory) => Text::copy_of(alloc, "out of memory"),
    }
}

#[test]
fn a_client_takes_bytes(rt: HostRuntime) -> Result<(), Fail> {
    let alloc = rt.alloc();
    let mut client = Client::empty();
    for (frame, page) in [
        (
            "[\"1\",\"2\",\"lv:a\",\"phx_reply\",{\"response\":{\"diff\":{\"0\":\"b\"}},\"status\":\"ok\"}]",
            "bad frame",
        ),
        (
            "[\"1\",\"1\",\"lv:a\",\"phx_reply\",{\"response\":{\"rendered\":{\"0\":\"a\",\"s\":[\"<\",\">\"]}},\"status\":\"ok\"}]",
            "<a>",
        ),
        (
            "[\"1\",\"2\",\"lv:a\",\"phx_reply\",{\"response\":{\"diff\":{\"0\":\"b\"}},\"status\":\"ok\"}]",
            "<b>",
        ),
        (
            "[\"1\",\"3\",\"lv:a\",\"phx_reply\",{\"response\":{\"diff\":{\"1\":\"c\"}},\"status\":\"ok\"}]",
            "bad frame",
        ),
        ("{", "bad frame"),
        ("[]", "bad frame"),
        (
            "[\"1\",null,\"lv:a\",\"diff\",{\"0\":{\"d\":[[\"e\"],[\"f\"]],\"s\":[\"\",\".\"]}}]",
            "<e.f.>",
        ),
        (
            "[\"1\",null,\"lv:a\",\"diff\",{\"0\":{\"d\":[[\"g\"]]},\"c\":{\"1\":{\"0\":\"h\"}}}]",
            "bad frame",
        ),
        (
            "[\"1\",null,\"lv:a\",\"diff\",{\"0\":{\"d\":[[\"g\"]]},\"e\":[[\"hi\",{}]]}]",
            "<g.>",
        ),
        ("[\"1\",null,\"lv:a\",\"diff\",{\"0\":\"b\"}]", "<b>"),
        (
            "[\"1\",\"4\",\"lv:a\",\"phx_reply\",{\"response\":{},\"status\":\"ok\"}]",
            "<b>",
        ),
        (
            "[\"1\",null,\"lv:a\",\"diff\",{\"0\":\"d\",\"e\":[[\"hi\",{}]]}]",
            "<d>",
        ),
        (
            "[\"1\",\"5\",\"lv:a\",\"phx_reply\",{\"response\":{\"reason\":\"no route\"},\"status\":\"error\"}]",
            "<d>",
        ),
        (
            "[\"1\",\"6\",\"lv:a\",\"phx_reply\",{\"response\":{\"reason\":\"join crashed\"},\"status\":\"error\"}]",
            "no page",
        ),
    ] {
        assert_eq!(rt;
            after(alloc, &mut client, frame)?.as_str(),
            page,
            "at {frame}"
        );
    }
    Ok(())
}

#[test]
fn bad_rows_leave_the_page(rt: HostRuntime) -> Result<(), Fail> {
    let alloc = rt.alloc();
    let mut client = Client::empty();
    client.take_whole(alloc, part(alloc, LIST)?)?;
    for diff in [
        // Statics alone, and around rows of another length.
        "{\"0\":{\"s\":[\"<\",\">\"]}}",
        "{\"0\":{\"d\":[[\"x\",\"y\"]],\"s\":[\"<\",\">\"]}}",
        "{\"0\":{\"d\":[[]],\"s\":[\"<\",\">\"]}}",
        "{\"0\":{\"d\":[[\"x\"]],\"s\":[]}}",
        // Rows of two lengths, and of another than that of the statics that are held.
        "{\"0\":{\"d\":[[\"x\"],[\"y\",\"z\"]]}}",
        "{\"0\":{\"d\":[[\"x\",\"y\"],[\"z\",\"w\"]]}}",
        // No rows.
        "{\"0\":{\"d\":[]}}",
        "{\"0\":{\"d\":[],\"s\":[\"<\",\">\"]}}",
        // Rows beside a place.
        "{\"0\":{\"0\":\"x\",\"d\":[[\"y\"]]}}",
        // What is no list of rows, and what is no row.
        "{\"0\":{\"d\":\"x\"}}",
        "{\"0\":{\"d\":[\"x\"]}}",
        "{\"0\":{\"d\":[{\"0\":\"x\"}]}}",
        "{\"0\":[[\"x\"]]}",
        // Rows where a node is held, and where there is no place.
        "{\"d\":[[\"x\"]]}",
        "{\"1\":{\"d\":[[\"x\"]]}}",
    ] {
        let frame = format!(in alloc; "[\"1\",null,\"lv:a\",\"diff\",{diff}]")?;
        assert_eq!(rt;
            after(alloc, &mut client, frame.as_str())?.as_str(),
            "bad frame",
            "at {diff}"
        );
        assert_eq!(rt; shown(alloc, &client)?.as_str(), "(<a><b>)", "at {diff}");
    }
    Ok(())
}

#[test]
fn a_page_ends(rt: HostRuntime) -> Result<(), Fail> {
    let alloc = rt.alloc();
    for end in [
        "[\"1\",\"1\",\"lv:a\",\"phx_close\",{}]",
        "[\"1\",\"1\",\"lv:a\",\"phx_error\",{\"reason\":\"overrun\"}]",
    ] {
        let mut client = Client::empty();
        client.take_whole(alloc, part(alloc, "{\"0\":\"a\",\"s\":[\"<\",\">\"]}")?)?;
        assert_eq!(rt;
            after(alloc, &mut client, end)?.as_str(),
            "no page",
            "at {end}"
        );
    }
    Ok(())
}

#[test]
fn a_client_writes_its_page(rt: HostRuntime) -> Result<(), Fail> {
    let alloc = rt.alloc();
    let mut client = Client::empty();
    client.take_whole(alloc, part(alloc, "{\"0\":\"a\",\"s\":[\"<\",\">\"]}")?)?;
    let mut out = HeldSink::new(alloc);
    assert_eq!(rt; client.show_into(alloc, &mut out)?, Wrote::Whole);
    assert_eq!(rt; out.as_slice(), b"<a>".as_slice());
    Ok(())
}

#[test]
fn a_client_takes_frames_up_to_a_bad_one(rt: HostRuntime) -> Result<(), Fail> {
    let alloc = rt.alloc();
    let mut client = Client::empty();
    let mut frames = Seq::new(alloc);
    for frame in [
        "[\"1\",\"1\",\"lv:a\",\"phx_reply\",{\"response\":{\"rendered\":{\"s\":[\"a\"]}},\"status\":\"ok\"}]",
        "[\"1\",null,\"lv:a\",\"diff\",{\"0\":\"d\"}]",
        "[\"1\",\"1\",\"lv:a\",\"phx_close\",{}]",
    ] {
        frames.push(Bytes::copy_of(alloc, frame.as_bytes())?)?;
    }
    let result = client.take_all(alloc, frames.as_slice());
    assert_eq!(rt; result.err(), Some(MergeFault::BadFrame));
    assert_eq!(rt; shown(alloc, &client)?.as_str(), "a");
    Ok(())
}
