//! Diffs against their texts.
use diff_tree::{
    ComponentPart, Diff, DiffFault, Part, PartBody, PlaceValue, Push, Row, StreamInsert,
    StreamPart, diff_value, read_diff, read_diff_value, write_diff,
};
use serde_json::Value;
use std::alloc::Global;
use std::test::Fail;
use text_core::{ByKey, OutOfMemory, Seq, Text};

#[test]
fn diffs_come_back(rt: HostRuntime) -> Result<(), Fail> {
    let alloc = rt.alloc();
    for text in [
        "{}",
        "{\"0\":\"1\"}",
        "{\"s\":[\"<p></p>\"]}",
        "{\"0\":\"0\",\"s\":[\"<p>\",\"</p>\"]}",
        "{\"0\":{\"1\":\"a\"},\"1\":{\"0\":\"b\",\"s\":[\"\",\"\"]},\"s\":[\"x\",\"y\",\"z\"]}",
        "{\"1\":{\"1\":{}}}",
        "{\"0\":\"a\",\"10\":\"b\",\"2\":\"c\"}",
        "{\"99999999999999999999999\":\"\"}",
        "{\"0\":\"\\\"\\\\\\n\\u0001/é\"}",
        "{\"0\":1,\"1\":18446744073709551615}",
        "{\"d\":[[\"a\"]],\"s\":[\"<p>\",\"</p>\"]}",
        "{\"0\":{\"d\":[[\"a\",1],[\"b\",2]],\"s\":[\"x\",\"y\",\"z\"]}}",
        "{\"0\":{\"d\":[[\"a\"],[\"b\"]]}}",
        "{\"0\":{\"d\":[[],[]],\"s\":[\"<hr>\"]}}",
        "{\"0\":{\"d\":[[{\"0\":\"a\",\"s\":[\"\",\"\"]}],[{\"d\":[[\"b\"]],\"s\":[\"\",\"\"]}]],\"s\":[\"<p>\",\"</p>\"]}}",
        "{\"0\":{\"d\":[],\"s\":[\"<p>\",\"</p>\"],\"stream\":[\"rows\",[],[]]}}",
        "{\"0\":{\"d\":[[\"a\"]],\"stream\":[\"rows\",[[\"rows-1\",-1,null]],[\"rows-0\"],true]}}",
        "{\"0\":{\"d\":[[\"a\"],[\"b\"]],\"stream\":[\"\",[[\"r1\",0,5],[\"r2\",9223372036854775807,-9223372036854775808]],[]]}}",
        "{\"d\":[],\"stream\":[\"rows\",[],[],true]}",
        "{\"c\":{\"1\":{\"0\":\"a\"},\"10\":{},\"2\":{\"s\":[\"b\"]}}}",
        "{\"c\":{\"18446744073709551615\":{\"d\":[[\"a\"]]}}}",
        "{\"e\":[[\"a\",-9223372036854775808]]}",
        "{\"0\":1,\"c\":{\"1\":{\"0\":\"x\",\"s\":[\"\",\"\"]}},\"e\":[[\"sum\",{\"n\":[-1,2,null,true]}],[\"\",\"x\"]],\"s\":[\"\",\"\"]}",
        "{\"c\":{\"1\":{}},\"d\":[[\"a\"]],\"e\":[[\"a\",1]],\"s\":[\"\",\"\"]}",
    ] {
        let diff = read_diff(alloc, text)?;
        assert_eq!(rt; write_diff(alloc, &diff)?.as_str(), text);
        let value = diff_value(alloc, &diff)?;
        assert_eq!(rt; value.to_string(alloc)?.as_str(), text);
    }
    Ok(())
}

#[test]
fn texts_that_spell_no_diff(rt: HostRuntime) {
    let alloc = rt.alloc();
    for text in [
        "",
        "{",
        "[]",
        "\"x\"",
        "{\"00\":\"a\"}",
        "{\"01\":\"a\"}",
        "{\"\":\"a\"}",
        "{\"a\":\"b\"}",
        "{\"0\":0}",
        "{\"0\":-1}",
        "{\"0\":1.5}",
        "{\"0\":18446744073709551616}",
        "{\"0\":null}",
        "{\"0\":true}",
        "{\"0\":[]}",
        "{\"0\":{\"a\":\"b\"}}",
        "{\"s\":[]}",
        "{\"s\":\"a\"}",
        "{\"s\":[1]}",
        "{\"s\":[\"a\",\"b\"]}",
        "{\"1\":\"x\",\"s\":[\"a\",\"b\"]}",
        "{\"0\":\"x\",\"1\":\"y\",\"s\":[\"a\",\"b\"]}",
        " {}",
        "{} ",
        "{\"1\":\"a\",\"0\":\"b\"}",
        "{\"s\":[\"a\",\"b\"],\"0\":\"x\"}",
        "{\"0\":\"a\",\"0\":\"b\"}",
        "{\"0\":\"\\u0041\"}",
        "{\"0\":\"\\/\"}",
    ] {
        assert_eq!(rt;
            read_diff(alloc, text).err(),
            Some(DiffFault::BadDiff),
            "at {text}"
        );
    }
}

#[test]
fn texts_that_spell_no_list(rt: HostRuntime) {
    let alloc = rt.alloc();
    for text in [
        "{\"d\":[]}",
        "{\"d\":\"a\"}",
        "{\"d\":[\"a\"]}",
        "{\"d\":[[null]]}",
        "{\"d\":[[0]]}",
        "{\"d\":[[\"a\"],[]]}",
        "{\"d\":[[\"a\"]],\"s\":[]}",
        "{\"d\":[[\"a\"]],\"s\":[\"x\"]}",
        "{\"d\":[[\"a\"],[]],\"s\":[\"x\",\"y\"]}",
        "{\"d\":[[\"a\"]],\"s\":[\"x\",1]}",
        "{\"0\":\"x\",\"d\":[[\"a\"]]}",
        "{\"d\":[[\"a\"]],\"x\":\"y\"}",
        "{\"s\":[\"x\",\"y\"],\"d\":[[\"a\"]]}",
        "{\"d\":[ [\"a\"]]}",
        "{\"stream\":[\"r\",[],[]]}",
        "{\"0\":\"a\",\"stream\":[\"r\",[],[]]}",
        "{\"d\":[],\"stream\":{}}",
        "{\"d\":[],\"stream\":[\"r\",[]]}",
        "{\"d\":[],\"stream\":[1,[],[]]}",
        "{\"d\":[],\"stream\":[\"r\",{},[]]}",
        "{\"d\":[],\"stream\":[\"r\",[],{}]}",
        "{\"d\":[],\"stream\":[\"r\",[],[1]]}",
        "{\"d\":[],\"stream\":[\"r\",[],[],false]}",
        "{\"d\":[],\"stream\":[\"r\",[],[],true,true]}",
        "{\"d\":[],\"stream\":[\"r\",[],[],true ]}",
        "{\"d\":[],\"stream\":[\"r\",[[\"a\",0,null]],[]]}",
        "{\"d\":[[\"a\"]],\"stream\":[\"r\",[],[]]}",
    ] {
        assert_eq!(rt;
            read_diff(alloc, text).err(),
            Some(DiffFault::BadDiff),
            "at {text}"
        );
    }
}

#[test]
fn texts_that_spell_no_insert(rt: HostRuntime) -> Result<(), Fail> {
    let alloc = rt.alloc();
    for insert in [
        "[1,0,null]",
        "[\"a\",0]",
        "[\"a\",0,null,1]",
        "[\"a\",-2,null]",
        "[\"a\",null,null]",
        "[\"a\",1.0,null]",
        "[\"a\",9223372036854775808,null]",
        "[\"a\",0,0]",
        "[\"a\",0,\"x\"]",
        "[\"a\",0,9223372036854775808]",
        "[\"a\",0,-9223372036854775809]",
        "\"a\"",
    ] {
        let text = format!(in alloc; "{{\"d\":[[]],\"stream\":[\"r\",[{insert}],[]]}}")?;
        assert_eq!(rt;
            read_diff(alloc, text.as_str()).err(),
            Some(DiffFault::BadDiff),
            "at {text}"
        );
    }
    Ok(())
}

#[test]
fn texts_that_spell_no_page(rt: HostRuntime) {
    let alloc = rt.alloc();
    for text in [
        "{\"c\":{}}",
        "{\"c\":[]}",
        "{\"c\":{\"0\":{}}}",
        "{\"c\":{\"01\":{}}}",
        "{\"c\":{\"+1\":{}}}",
        "{\"c\":{\"s\":[\"a\"]}}",
        "{\"c\":{\"18446744073709551616\":{}}}",
        "{\"c\":{\"1\":\"a\"}}",
        "{\"c\":{\"1\":2}}",
        "{\"c\":{\"1\":{\"e\":[[\"a\",1]]}}}",
        "{\"0\":{\"c\":{\"1\":{}}}}",
        "{\"c\":{\"2\":{},\"10\":{}}}",
        "{\"d\":[[\"a\"]],\"c\":{\"1\":{}}}",
        "{\"e\":[]}",
        "{\"e\":{}}",
        "{\"e\":[\"a\"]}",
        "{\"e\":[[\"a\"]]}",
        "{\"e\":[[1,2]]}",
        "{\"e\":[[\"a\",1,2]]}",
        "{\"e\":[[\"a\",1.5]]}",
        "{\"e\":[[\"a\",-0]]}",
        "{\"e\":[[\"a\",[{\"b\":18446744073709551616}]]]}",
        "{\"e\":[[\"a\",{\"y\":1,\"x\":2}]]}",
        "{\"0\":{\"e\":[[\"a\",1]]}}",
        "{\"s\":[\"a\"],\"e\":[[\"a\",1]]}",
    ] {
        assert_eq!(rt;
            read_diff(alloc, text).err(),
            Some(DiffFault::BadDiff),
            "at {text}"
        );
    }
}

// Nodes in nodes.
fn nested(alloc: Global, levels: u32) -> Result<Text, OutOfMemory> {
    let mut text = Text::new(alloc);
    for _ in 1..levels {
        text.push_str("{\"0\":")?;
    }
    text.push_str("{}")?;
    for _ in 1..levels {
        text.push_str("}")?;
    }
    Ok(text)
}

#[test]
fn diffs_nest_at_most_127_deep(rt: HostRuntime) -> Result<(), Fail> {
    let alloc = rt.alloc();
    for (levels, fault) in [(127, None), (128, Some(DiffFault::BadDiff))] {
        let text = nested(alloc, levels)?;
        assert_eq!(rt; read_diff(alloc, text.as_str()).err(), fault, "at {levels}");
    }
    Ok(())
}

#[test]
fn values_are_read_in_any_order(rt: HostRuntime) -> Result<(), Fail> {
    let alloc = rt.alloc();
    let value = Value::from_str(alloc, "{\"s\":[\"<\",\">\"], \"0\":\"\\u0041\"}")?;
    let diff = read_diff_value(alloc, &value)?;
    assert_eq!(rt;
        write_diff(alloc, &diff)?.as_str(),
        "{\"0\":\"A\",\"s\":[\"<\",\">\"]}"
    );
    Ok(())
}

#[test]
fn nodes_are_made_and_taken_apart(rt: HostRuntime) -> Result<(), Fail> {
    let alloc = rt.alloc();
    let mut statics = Seq::new(alloc);
    statics.push(Text::copy_of(alloc, "a")?)?;
    statics.push(Text::copy_of(alloc, "b")?)?;
    let mut places = ByKey::new(alloc);
    let inner = Part::new(None, ByKey::new(alloc));
    places.insert(Text::copy_of(alloc, "0")?, PlaceValue::Node(inner))?;
    let diff = Diff::new(
        Part::new(Some(statics), places),
        Seq::new(alloc),
        Seq::new(alloc),
    );
    assert_eq!(rt;
        write_diff(alloc, &diff)?.as_str(),
        "{\"0\":{},\"s\":[\"a\",\"b\"]}"
    );
    assert!(rt; diff.root().statics().is_some());
    assert!(rt; diff.root().places().is_some());
    assert!(rt; diff.components().is_empty());
    assert!(rt; diff.events().is_empty());
    let (root, _components, _events) = diff.into_parts();
    let (statics, body) = root.into_parts();
    assert!(rt; statics.is_some());
    assert!(rt; matches!(body, PartBody::Places(_)));
    Ok(())
}

// A stream of one row.
fn one_row(alloc: Global) -> Result<Part, OutOfMemory> {
    let mut values = Seq::new(alloc);
    values.push(PlaceValue::Number(7))?;
    let mut rows = Seq::new(alloc);
    rows.push(Row::new(values))?;
    let mut inserts = Seq::new(alloc);
    inserts.push(StreamInsert {
        id: Text::copy_of(alloc, "r-1")?,
        at: -1,
        limit: Some(-3),
    })?;
    let stream = StreamPart {
        name: Text::copy_of(alloc, "r")?,
        inserts,
        deletes: Seq::new(alloc),
        reset: true,
    };
    Ok(Part::list(None, rows, Some(stream)))
}

#[test]
fn pages_are_made(rt: HostRuntime) -> Result<(), Fail> {
    let alloc = rt.alloc();
    let mut components = Seq::new(alloc);
    for (number, key) in [(2, "0"), (10, "1"), (2, "2")] {
        let mut places = ByKey::new(alloc);
        places.insert(
            Text::copy_of(alloc, key)?,
            PlaceValue::Text(Text::new(alloc)),
        )?;
        components.push(ComponentPart {
            number,
            part: Part::new(None, places),
        })?;
    }
    let mut events = Seq::new(alloc);
    let payload = Value::from_str(alloc, "{\"x\":[1,-1]}")?;
    let Some(push) = Push::new(Text::copy_of(alloc, "moved")?, payload) else {
        return Err(Fail::from("no event"));
    };
    events.push(push)?;
    let diff = Diff::new(one_row(alloc)?, components, events);
    assert_eq!(rt;
        write_diff(alloc, &diff)?.as_str(),
        "{\"c\":{\"10\":{\"1\":\"\"},\"2\":{\"0\":\"\"}},\"d\":[[7]],\"e\":[[\"moved\",{\"x\":[1,-1]}]],\"stream\":[\"r\",[[\"r-1\",-1,-3]],[],true]}"
    );
    Ok(())
}

#[test]
fn events_have_whole_numbers(rt: HostRuntime) -> Result<(), Fail> {
    let alloc = rt.alloc();
    for (text, whole) in [
        ("[1,{\"a\":-2}]", true),
        ("[1,{\"a\":0.5}]", false),
        ("1e2", false),
    ] {
        let payload = Value::from_str(alloc, text)?;
        let push = Push::new(Text::new(alloc), payload);
        assert_eq!(rt; push.is_some(), whole, "at {text}");
    }
    Ok(())
}
