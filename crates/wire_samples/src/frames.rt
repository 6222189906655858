//! Texts against the frames that they spell.

use diff_tree::{Diff, read_diff};
use std::alloc::Global;
use std::test::Fail;
use text_core::{Seq, Text};
use value_core::Value;
use wire_v2::{Frame, FrameBody, MessageFault, push_of_value, read_frame, write_frame};

fn line_of(alloc: Global, frame: &Frame) -> Result<String, Fail> {
    let written = write_frame(alloc, frame)?;
    let line = str::from_utf8(written.as_slice()).unwrap_or("?");
    Ok(String::from_str(alloc, line)?)
}

// The frame that a text spells, written again.
fn again(alloc: Global, text: &str) -> Result<String, Fail> {
    match read_frame(alloc, text.as_bytes()) {
        Ok(frame) => line_of(alloc, &frame),
        Err(MessageFault::Malformed) => Ok(String::from_str(alloc, "malformed")?),
        Err(MessageFault::OutOfMemory) => Ok(String::from_str(alloc, "out of memory")?),
    }
}

#[test]
fn frames_are_read_and_written(rt: HostRuntime) -> Result<(), Fail> {
    let alloc = rt.alloc();
    for (text, line) in [
        (
            "[null,\"4\",\"phoenix\",\"phx_reply\",{\"response\":{},\"status\":\"ok\"}]",
            "[null,\"4\",\"phoenix\",\"phx_reply\",{\"response\":{},\"status\":\"ok\"}]",
        ),
        (
            " [ \"1\" , \"1\" , \"lv:A\" , \"phx_reply\" , { \"status\" : \"ok\" , \"response\" : { \"rendered\" : { \"s\" : [ \"a\" , \"b\" ] , \"0\" : \"x\" } } } ] ",
            "[\"1\",\"1\",\"lv:A\",\"phx_reply\",{\"response\":{\"rendered\":{\"0\":\"x\",\"s\":[\"a\",\"b\"]}},\"status\":\"ok\"}]",
        ),
        (
            "[\"1\",\"2\",\"lv:A\",\"phx_reply\",{\"response\":{\"diff\":{\"e\":[[\"sum\",{\"n\":[-1,2]}]],\"0\":{\"1\":\"y\"}}},\"status\":\"ok\"}]",
            "[\"1\",\"2\",\"lv:A\",\"phx_reply\",{\"response\":{\"diff\":{\"0\":{\"1\":\"y\"},\"e\":[[\"sum\",{\"n\":[-1,2]}]]}},\"status\":\"ok\"}]",
        ),
        (
            "[\"1\",\"2\",\"lv:A\",\"phx_reply\",{\"response\":{\"diff\":{}},\"status\":\"ok\"}]",
            "[\"1\",\"2\",\"lv:A\",\"phx_reply\",{\"response\":{\"diff\":{}},\"status\":\"ok\"}]",
        ),
        (
            "[\"1\",\"2\",\"lv:A\",\"phx_reply\",{\"response\":{\"reason\":\"no route\"},\"status\":\"error\"}]",
            "[\"1\",\"2\",\"lv:A\",\"phx_reply\",{\"response\":{\"reason\":\"no route\"},\"status\":\"error\"}]",
        ),
        (
            "[\"1\",\"2\",\"lv:A\",\"phx_reply\",{\"response\":{\"cids\":[]},\"status\":\"ok\"}]",
            "[\"1\",\"2\",\"lv:A\",\"phx_reply\",{\"response\":{\"cids\":[]},\"status\":\"ok\"}]",
        ),
        (
            "[\"1\",null,\"lv:A\",\"diff\",{\"0\":\"z\"}]",
            "[\"1\",null,\"lv:A\",\"diff\",{\"0\":\"z\"}]",
        ),
        (
            "[\"1\",\"1\",\"lv:A\",\"phx_reply\",{\"response\":{\"rendered\":{\"0\":1,\"1\":{\"d\":[[\"a\"]],\"s\":[\"<p>\",\"</p>\"]},\"c\":{\"1\":{\"s\":[\"x\"]}},\"e\":[[\"sum\",{\"n\":2}]],\"s\":[\"\",\"\",\"\"]}},\"status\":\"ok\"}]",
            "[\"1\",\"1\",\"lv:A\",\"phx_reply\",{\"response\":{\"rendered\":{\"0\":1,\"1\":{\"d\":[[\"a\"]],\"s\":[\"<p>\",\"</p>\"]},\"c\":{\"1\":{\"s\":[\"x\"]}},\"e\":[[\"sum\",{\"n\":2}]],\"s\":[\"\",\"\",\"\"]}},\"status\":\"ok\"}]",
        ),
        (
            "[\"1\",null,\"lv:A\",\"diff\",{\"c\":{\"2\":{\"d\":[[\"a\"]]}},\"0\":{\"stream\":[\"rows\",[[\"r-1\",-1,null]],[]],\"d\":[[\"b\"]]}}]",
            "[\"1\",null,\"lv:A\",\"diff\",{\"0\":{\"d\":[[\"b\"]],\"stream\":[\"rows\",[[\"r-1\",-1,null]],[]]},\"c\":{\"2\":{\"d\":[[\"a\"]]}}}]",
        ),
        (
            "[\"1\",\"1\",\"lv:A\",\"phx_close\",{}]",
            "[\"1\",\"1\",\"lv:A\",\"phx_close\",{}]",
        ),
        (
            "[\"1\",\"1\",\"lv:A\",\"phx_error\",{}]",
            "[\"1\",\"1\",\"lv:A\",\"phx_error\",{}]",
        ),
        (
            "[\"1\",\"1\",\"lv:A\",\"phx_error\",{\"reason\":\"overrun\"}]",
            "[\"1\",\"1\",\"lv:A\",\"phx_error\",{\"reason\":\"overrun\"}]",
        ),
    ] {
        assert_eq!(rt; again(alloc, text)?.as_str(), line, "at {text}");
    }
    Ok(())
}

#[test]
fn other_texts_are_refused(rt: HostRuntime) -> Result<(), Fail> {
    let alloc = rt.alloc();
    for text in [
        "",
        "{}",
        "[\"1\",\"1\",\"lv:A\",\"phx_close\"]",
        "[\"1\",\"1\",\"lv:A\",\"phx_close\",{},{}]",
        "[\"1\",\"1\",\"lv:A\",\"phx_close\",{\"reason\":\"x\"}]",
        "[1,\"1\",\"lv:A\",\"phx_close\",{}]",
        "[\"1\",\"1\",null,\"phx_close\",{}]",
        "[\"1\",\"1\",\"lv:A\",\"other\",{}]",
        "[\"1\",\"1\",\"lv:A\",\"phx_error\",{\"reason\":null}]",
        "[\"1\",\"1\",\"lv:A\",\"phx_reply\",{\"response\":{}}]",
        "[\"1\",\"1\",\"lv:A\",\"phx_reply\",{\"response\":{},\"status\":\"error\"}]",
        "[\"1\",\"1\",\"lv:A\",\"phx_reply\",{\"response\":{},\"status\":\"ok\",\"x\":1}]",
        "[\"1\",\"1\",\"lv:A\",\"phx_reply\",{\"response\":{\"reason\":\"x\"},\"status\":\"ok\"}]",
        "[\"1\",\"1\",\"lv:A\",\"phx_reply\",{\"response\":{\"cids\":[1]},\"status\":\"ok\"}]",
        "[\"1\",\"1\",\"lv:A\",\"phx_reply\",{\"response\":{\"rendered\":{\"0\":\"x\"}},\"status\":\"ok\"}]",
        "[\"1\",\"1\",\"lv:A\",\"phx_reply\",{\"response\":{\"rendered\":{\"0\":{\"0\":\"x\"},\"s\":[\"\",\"\"]}},\"status\":\"ok\"}]",
        "[\"1\",\"1\",\"lv:A\",\"diff\",{\"0\":\"z\"}]",
        "[\"1\",null,\"lv:A\",\"diff\",{\"00\":\"z\"}]",
        "[\"1\",\"1\",\"lv:A\",\"phx_reply\",{\"response\":{\"rendered\":{\"0\":{\"d\":[[\"a\"]]},\"s\":[\"\",\"\"]}},\"status\":\"ok\"}]",
        "[\"1\",\"1\",\"lv:A\",\"phx_reply\",{\"response\":{\"rendered\":{\"0\":{\"d\":[[{\"0\":\"a\"}]],\"s\":[\"\",\"\"]},\"s\":[\"\",\"\"]}},\"status\":\"ok\"}]",
        "[\"1\",\"1\",\"lv:A\",\"phx_reply\",{\"response\":{\"rendered\":{\"c\":{\"1\":{\"0\":\"a\"}},\"s\":[\"\"]}},\"status\":\"ok\"}]",
        "[\"1\",\"1\",\"lv:A\",\"phx_reply\",{\"response\":{\"rendered\":{\"c\":{\"1\":{\"0\":{\"0\":\"a\"},\"s\":[\"\",\"\"]}},\"s\":[\"\"]}},\"status\":\"ok\"}]",
        "[\"1\",null,\"lv:A\",\"diff\",{\"0\":{\"d\":[]}}]",
        "[\"1\",null,\"lv:A\",\"diff\",{\"e\":[]}]",
        "[\"1\",null,\"lv:A\",\"diff\",{\"e\":[[\"sum\"]]}]",
        "[\"1\",null,\"lv:A\",\"diff\",{\"e\":[[\"sum\",1.5]]}]",
    ] {
        assert_eq!(rt; again(alloc, text)?.as_str(), "malformed", "at {text}");
    }
    Ok(())
}

#[test]
fn a_push_has_the_json_of_its_value(rt: HostRuntime) -> Result<(), Fail> {
    let alloc = rt.alloc();
    let mut events = Seq::new(alloc);
    events.push(push_of_value(alloc, Text::copy_of(alloc, "saved")?, &Value::Int(-3))?)?;
    let (root, components, _events) = read_diff(alloc, "{\"1\":\"x\"}")?.into_parts();
    let frame = Frame {
        join_ref: Some(Text::copy_of(alloc, "1")?),
        reference: None,
        topic: Text::copy_of(alloc, "lv:A")?,
        body: FrameBody::Pushed(Diff::new(root, components, events)),
    };
    assert_eq!(rt;
        line_of(alloc, &frame)?.as_str(),
        "[\"1\",null,\"lv:A\",\"diff\",{\"1\":\"x\",\"e\":[[\"saved\",-3]]}]"
    );
    let atom = push_of_value(
        alloc,
        Text::copy_of(alloc, "saved")?,
        &Value::Atom(Text::copy_of(alloc, "ok")?),
    );
    assert_eq!(rt; atom.err(), Some(value_core::ToJsonFault::NoJson));
    Ok(())
}
