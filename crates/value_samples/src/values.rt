//! Each call once with memory enough, against worked examples.
use serde_json::Value as Json;
use std::alloc::Global;
use std::test::Fail;
use text_core::{OutOfMemory, Seq, Text};
use value_core::{
    JsonFault, PrintFault, ToJsonFault, Value, copy, depth, from_json, same, to_html, to_json,
    to_text,
};

#[test]
fn json_comes_back(rt: HostRuntime) -> Result<(), Fail> {
    let alloc = rt.alloc();
    for (text, levels) in [
        ("null", 0),
        ("true", 0),
        ("-7", 0),
        ("9223372036854775807", 0),
        ("[]", 1),
        ("{\"a\":[1,-2],\"b\":\"x & y\"}", 2),
    ] {
        let json = Json::from_str(alloc, text)?;
        let value = from_json(alloc, &json)?;
        let copied = copy(alloc, &value)?;
        assert!(rt; same(&value, &copied), "at {text}");
        assert_eq!(rt; depth(&copied), levels, "at {text}");
        let written = to_json(alloc, &copied)?.to_string(alloc)?;
        assert_eq!(rt; written.as_str(), text);
    }
    Ok(())
}

#[test]
fn json_without_a_value(rt: HostRuntime) -> Result<(), Fail> {
    let alloc = rt.alloc();
    for text in ["1.5", "[1e2]", "{\"n\":9223372036854775808}"] {
        let json = Json::from_str(alloc, text)?;
        assert_eq!(rt;
            from_json(alloc, &json).err(),
            Some(JsonFault::NoValue),
            "at {text}"
        );
    }
    Ok(())
}

// Arrays in arrays.
fn nested(alloc: Global, levels: u32) -> Result<Text, OutOfMemory> {
    let mut text = Text::new(alloc);
    for _ in 0..levels {
        text.push_str("[")?;
    }
    for _ in 0..levels {
        text.push_str("]")?;
    }
    Ok(text)
}

#[test]
fn json_nests_a_hundred_deep(rt: HostRuntime) -> Result<(), Fail> {
    let alloc = rt.alloc();
    for (levels, fault) in [(100, None), (101, Some(JsonFault::NoValue))] {
        let json = Json::from_str(alloc, nested(alloc, levels)?.as_str())?;
        assert_eq!(rt; from_json(alloc, &json).err(), fault, "at {levels}");
    }
    Ok(())
}

#[test]
fn a_text_prints_escaped(rt: HostRuntime) -> Result<(), Fail> {
    let alloc = rt.alloc();
    let value = Value::Text(Text::copy_of(alloc, "a < b")?);
    assert_eq!(rt; to_text(alloc, &value)?.as_str(), "a < b");
    assert_eq!(rt; to_html(alloc, &value)?.as_str(), "a &lt; b");
    Ok(())
}

#[test]
fn tuples_have_no_text(rt: HostRuntime) {
    let alloc = rt.alloc();
    let tuple = Value::Tuple(Seq::new(alloc));
    assert_eq!(rt;
        to_text(alloc, &tuple).err(),
        Some(PrintFault::NotPrintable)
    );
    assert_eq!(rt;
        to_html(alloc, &tuple).err(),
        Some(PrintFault::NotPrintable)
    );
    assert_eq!(rt; to_json(alloc, &tuple).err(), Some(ToJsonFault::NoJson));
}
