//! Texts of a browser against the messages that they spell.

use std::alloc::Global;
use std::test::Fail;
use text_core::Text;
use value_core::to_json;
use wire_v2::{EventValue, Message, MessageFault, MessageHead, read_message};

fn reference(reference: &Option<Text>) -> &str {
    match reference {
        Some(text) => text.as_str(),
        None => "-",
    }
}

fn value_line(alloc: Global, value: &EventValue) -> Result<String, Fail> {
    match value {
        EventValue::Plain(value) => Ok(to_json(alloc, value)?.to_string(alloc)?),
        EventValue::Form(text) => Ok(format!(in alloc; "form {}", text.as_str())?),
    }
}

fn event_line(
    alloc: Global,
    event: &str,
    value: &EventValue,
    cid: Option<u64>,
) -> Result<String, Fail> {
    let value = value_line(alloc, value)?;
    match cid {
        Some(cid) => Ok(format!(in alloc; "{event}@{cid} {value}")?),
        None => Ok(format!(in alloc; "{event} {value}")?),
    }
}

fn head_line(alloc: Global, kind: &str, head: &MessageHead) -> Result<String, Fail> {
    let join_ref = reference(&head.join_ref);
    let own = reference(&head.reference);
    let topic = head.topic.as_str();
    Ok(format!(in alloc; "{kind} {join_ref} {own} {topic}")?)
}

fn long_line(alloc: Global, kind: &str, head: &MessageHead, more: &str) -> Result<String, Fail> {
    let head = head_line(alloc, kind, head)?;
    Ok(format!(in alloc; "{head} {more}")?)
}

fn message_line(alloc: Global, message: &Message) -> Result<String, Fail> {
    match message {
        Message::Beat(head) => head_line(alloc, "beat", head),
        Message::Join { head, url } => long_line(alloc, "join", head, url.as_str()),
        Message::Leave(head) => head_line(alloc, "leave", head),
        Message::Event {
            head,
            event,
            value,
            cid,
        } => {
            let more = event_line(alloc, event.as_str(), value, *cid)?;
            long_line(alloc, "event", head, more.as_str())
        }
        Message::Patch { head, url } => long_line(alloc, "patch", head, url.as_str()),
        Message::WillDestroy(head) => head_line(alloc, "will_destroy", head),
        Message::Destroyed(head) => head_line(alloc, "destroyed", head),
    }
}

fn line_of(alloc: Global, text: &[u8]) -> Result<String, Fail> {
    match read_message(alloc, text) {
        Ok(message) => message_line(alloc, &message),
        Err(MessageFault::Malformed) => Ok(String::from_str(alloc, "malformed")?),
        Err(MessageFault::OutOfMemory) => Ok(String::from_str(alloc, "out of memory")?),
    }
}

#[test]
fn texts_are_read(rt: HostRuntime) -> Result<(), Fail> {
    let alloc = rt.alloc();
    for (text, line) in [
        (
            "[null,\"2\",\"phoenix\",\"heartbeat\",{}]",
            "beat - 2 phoenix",
        ),
        (
            "[\"1\",\"1\",\"lv:A\",\"phx_join\",{\"url\":\"/a?b=1\"}]",
            "join 1 1 lv:A /a?b=1",
        ),
        (
            "[\"1\",\"1\",\"lv:A\",\"phx_join\",{\"redirect\":\"/r\"}]",
            "join 1 1 lv:A /r",
        ),
        (
            "[\"1\",\"1\",\"lv:A\",\"phx_join\",{\"redirect\":\"/r\",\"url\":\"/u\"}]",
            "join 1 1 lv:A /u",
        ),
        (
            "[\"1\",\"1\",\"lv:A\",\"phx_join\",{\"redirect\":\"/r\",\"url\":null}]",
            "join 1 1 lv:A /r",
        ),
        (
            "[\"1\",\"1\",\"lv:A\",\"phx_join\",{\"redirect\":5}]",
            "malformed",
        ),
        (
            "[\"1\",\"1\",\"phoenix\",\"phx_join\",{\"url\":\"/\"}]",
            "malformed",
        ),
        (
            "[\"1\",\"1\",\"lv:\",\"phx_join\",{\"url\":\"/\"}]",
            "malformed",
        ),
        (
            "[\"1\",\"1\",\"lw:A\",\"phx_join\",{\"url\":\"/\"}]",
            "malformed",
        ),
        ("[\"1\",\"3\",\"lv:A\",\"phx_leave\",{}]", "leave 1 3 lv:A"),
        ("[\"1\",\"2\",\"lv:A\",\"heartbeat\",{}]", "malformed"),
        (
            " [ \"1\" , null , \"lv:A\" , \"live_patch\" , { \"url\" : \"/b\" } ] ",
            "patch 1 - lv:A /b",
        ),
        (
            "[\"1\",\"2\",\"lv:A\",\"live_patch\",{\"redirect\":\"/b\"}]",
            "malformed",
        ),
        (
            "[\"1\",\"2\",\"lv:A\",\"cids_will_destroy\",{\"cids\":[1,-2,0]}]",
            "will_destroy 1 2 lv:A",
        ),
        (
            "[\"1\",\"2\",\"lv:A\",\"cids_destroyed\",{\"cids\":[]}]",
            "destroyed 1 2 lv:A",
        ),
        (
            "[\"1\",\"2\",\"lv:A\",\"cids_destroyed\",{\"cids\":[1.5]}]",
            "malformed",
        ),
        (
            "[\"1\",\"2\",\"lv:A\",\"cids_destroyed\",{\"cids\":1}]",
            "malformed",
        ),
        (
            "[\"1\",\"2\",\"lv:A\",\"cids_will_destroy\",{}]",
            "malformed",
        ),
        ("", "malformed"),
        ("x", "malformed"),
        ("[\"1\",\"2\",\"lv:A\",\"event\"]", "malformed"),
        ("[\"1\",\"2\",\"lv:A\",\"nope\",{}]", "malformed"),
        ("[\"1\",\"2\",\"lv:A\",\"phx_leave\",[]]", "malformed"),
        ("[\"1\",\"2\",\"lv:A\",\"phx_leave\",{},6]", "malformed"),
        ("[1,\"2\",\"lv:A\",\"phx_leave\",{}]", "malformed"),
        ("[\"1\",2,\"lv:A\",\"phx_leave\",{}]", "malformed"),
        ("[\"1\",\"2\",null,\"phx_leave\",{}]", "malformed"),
        ("[\"1\",\"2\",\"lv:A\",null,{}]", "malformed"),
        ("{\"0\":\"1\"}", "malformed"),
        (
            "[\"1\",\"2\",\"lv:A\",\"event\",{\"event\":\"inc\",\"type\":\"click\",\"value\":{\"k\":[1,\"x\"]}}]",
            "event 1 2 lv:A inc {\"k\":[1,\"x\"]}",
        ),
        (
            "[\"1\",\"2\",\"lv:A\",\"event\",{\"event\":\"inc\",\"more\":1.5,\"type\":\"click\"}]",
            "event 1 2 lv:A inc {}",
        ),
        (
            "[\"1\",\"2\",\"lv:A\",\"event\",{\"event\":\"inc\",\"event\":\"dec\",\"type\":\"click\"}]",
            "event 1 2 lv:A dec {}",
        ),
        (
            "[\"1\",\"2\",\"lv:A\",\"event\",{\"event\":\"inc\",\"type\":\"click\",\"value\":null}]",
            "event 1 2 lv:A inc null",
        ),
        (
            "[\"1\",\"2\",\"lv:A\",\"event\",{\"event\":5,\"type\":\"click\"}]",
            "malformed",
        ),
        (
            "[\"1\",\"2\",\"lv:A\",\"event\",{\"type\":\"click\"}]",
            "malformed",
        ),
        (
            "[\"1\",\"2\",\"lv:A\",\"event\",{\"event\":\"inc\"}]",
            "malformed",
        ),
        (
            "[\"1\",\"2\",\"lv:A\",\"event\",{\"event\":\"inc\",\"type\":\"click\",\"value\":1.5}]",
            "malformed",
        ),
        (
            "[\"1\",\"2\",\"lv:A\",\"event\",{\"event\":\"sent\",\"type\":\"form\",\"value\":\"a=1&b=+\"}]",
            "event 1 2 lv:A sent form a=1&b=+",
        ),
        (
            "[\"1\",\"2\",\"lv:A\",\"event\",{\"event\":\"sent\",\"type\":\"form\",\"value\":{}}]",
            "malformed",
        ),
        (
            "[\"1\",\"2\",\"lv:A\",\"event\",{\"event\":\"sent\",\"type\":\"form\"}]",
            "malformed",
        ),
        (
            "[\"1\",\"2\",\"lv:A\",\"event\",{\"cid\":99,\"event\":\"inc\",\"type\":\"click\"}]",
            "event 1 2 lv:A inc@99 {}",
        ),
        (
            "[\"1\",\"2\",\"lv:A\",\"event\",{\"cid\":9223372036854775807,\"event\":\"inc\",\"type\":\"click\"}]",
            "event 1 2 lv:A inc@9223372036854775807 {}",
        ),
        (
            "[\"1\",\"2\",\"lv:A\",\"event\",{\"cid\":9223372036854775808,\"event\":\"inc\",\"type\":\"click\"}]",
            "malformed",
        ),
        (
            "[\"1\",\"2\",\"lv:A\",\"event\",{\"cid\":null,\"event\":\"inc\",\"type\":\"click\"}]",
            "event 1 2 lv:A inc {}",
        ),
        (
            "[\"1\",\"2\",\"lv:A\",\"event\",{\"cid\":0,\"event\":\"inc\",\"type\":\"click\"}]",
            "event 1 2 lv:A inc@0 {}",
        ),
        (
            "[\"1\",\"2\",\"lv:A\",\"event\",{\"cid\":-1,\"event\":\"inc\",\"type\":\"click\"}]",
            "malformed",
        ),
        (
            "[\"1\",\"2\",\"lv:A\",\"event\",{\"cid\":\"1\",\"event\":\"inc\",\"type\":\"click\"}]",
            "malformed",
        ),
    ] {
        assert_eq!(rt;
            line_of(alloc, text.as_bytes())?.as_str(),
            line,
            "at {text}"
        );
    }
    Ok(())
}

// An event with a value of arrays in arrays.
fn nested(alloc: Global, levels: usize) -> Result<String, Fail> {
    let open = "[".repeat(alloc, levels)?;
    let close = "]".repeat(alloc, levels)?;
    Ok(format!(in alloc;
        "[\"1\",\"2\",\"lv:A\",\"event\",{{\"event\":\"inc\",\"type\":\"click\",\"value\":{open}{close}}}]"
    )?)
}

#[test]
fn values_nest_a_hundred_deep(rt: HostRuntime) -> Result<(), Fail> {
    let alloc = rt.alloc();
    for (levels, fault) in [(100, None), (101, Some(MessageFault::Malformed))] {
        let text = nested(alloc, levels)?;
        assert_eq!(rt;
            read_message(alloc, text.as_bytes()).err(),
            fault,
            "at {levels}"
        );
    }
    Ok(())
}

#[test]
fn a_message_is_utf8(rt: HostRuntime) {
    let alloc = rt.alloc();
    let text = b"[\"1\",\"2\",\"lv:\xff\",\"phx_leave\",{}]";
    assert_eq!(rt;
        read_message(alloc, text.as_slice()).err(),
        Some(MessageFault::Malformed)
    );
}
