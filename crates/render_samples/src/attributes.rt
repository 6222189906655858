//! Attributes and spreads, against worked examples.
use attribute_text::{AttributeFault, attribute_text, spread_text};
use serde_json::Value as Json;
use std::alloc::Global;
use std::test::Fail;
use text_core::{Seq, Text};
use value_core::{Raise, Value, from_json};

// The value that a JSON text stands for.
fn value_of(alloc: Global, json: &str) -> Result<Value, Fail> {
    let json = Json::from_str(alloc, json)?;
    Ok(from_json(alloc, &json)?)
}

#[test]
fn what_attributes_show(rt: HostRuntime) -> Result<(), Fail> {
    let alloc = rt.alloc();
    for (name, json, shown) in [
        ("id", "null", ""),
        ("id", "false", ""),
        ("class", "null", " class=\"\""),
        ("class", "false", " class=\"\""),
        ("style", "null", " style=\"\""),
        ("style", "false", " style=\"\""),
        ("classes", "null", ""),
        ("hidden", "true", " hidden"),
        ("class", "true", " class"),
        ("value", "\"\"", " value=\"\""),
        (
            "title",
            "\"a&b <c> \\\"d\\\" 'e'\"",
            " title=\"a&amp;b &lt;c&gt; &quot;d&quot; &#39;e&#39;\"",
        ),
        ("min", "-7", " min=\"-7\""),
        ("class", "\"a b\"", " class=\"a b\""),
        ("class", "[]", " class=\"\""),
        ("class", "[[],[null,[false]]]", " class=\"\""),
        ("class", "[\"a\"]", " class=\"a\""),
        (
            "class",
            "[\"a\",[\"b\",null,[\"<c>\"]],false,true,3]",
            " class=\"a b &lt;c&gt; true 3\"",
        ),
        ("class", "[\"\",\"a\",\"\"]", " class=\" a \""),
    ] {
        let value = value_of(alloc, json)?;
        assert_eq!(rt;
            attribute_text(alloc, name, &value)?.as_str(),
            shown,
            "at {name} {json}"
        );
    }
    Ok(())
}

#[test]
fn attributes_that_raise(rt: HostRuntime) -> Result<(), Fail> {
    let alloc = rt.alloc();
    for (name, json) in [
        ("title", "[]"),
        ("style", "[\"a\"]"),
        ("id", "{}"),
        ("class", "{}"),
        ("class", "[\"a\",[{}],\"b\"]"),
    ] {
        let value = value_of(alloc, json)?;
        assert_eq!(rt;
            attribute_text(alloc, name, &value).err(),
            Some(AttributeFault::Raised(Raise::NotPrintable)),
            "at {name} {json}"
        );
    }
    Ok(())
}

#[test]
fn atoms_and_tuples(rt: HostRuntime) -> Result<(), Fail> {
    let alloc = rt.alloc();
    let atom = Value::Atom(Text::copy_of(alloc, "ok")?);
    assert_eq!(rt;
        attribute_text(alloc, "rel", &atom)?.as_str(),
        " rel=\"ok\""
    );
    let tuple = Value::Tuple(Seq::new(alloc));
    assert_eq!(rt;
        attribute_text(alloc, "rel", &tuple).err(),
        Some(AttributeFault::Raised(Raise::NotPrintable))
    );
    Ok(())
}

#[test]
fn what_spreads_show(rt: HostRuntime) -> Result<(), Fail> {
    let alloc = rt.alloc();
    for (json, shown) in [
        ("null", ""),
        ("{}", ""),
        (
            "{\"id\":\"<\",\"data-x\":5,\"class\":null,\"Z\":true,\"lang\":false}",
            " Z class=\"\" data-x=\"5\" id=\"&lt;\"",
        ),
    ] {
        let value = value_of(alloc, json)?;
        assert_eq!(rt; spread_text(alloc, &value)?.as_str(), shown, "at {json}");
    }
    Ok(())
}

#[test]
fn spreads_that_raise(rt: HostRuntime) -> Result<(), Fail> {
    let alloc = rt.alloc();
    for (json, raise) in [
        ("\"a\"", Raise::BadArgument),
        ("false", Raise::BadArgument),
        ("[]", Raise::BadArgument),
        ("{\"\":1}", Raise::BadArgument),
        ("{\"a b\":1}", Raise::BadArgument),
        ("{\"a\":1,\"b\\\"\":null}", Raise::BadArgument),
        ("{\"a\":[],\"b c\":1}", Raise::NotPrintable),
        ("{\"a b\":1,\"c\":[]}", Raise::BadArgument),
    ] {
        let value = value_of(alloc, json)?;
        assert_eq!(rt;
            spread_text(alloc, &value).err(),
            Some(AttributeFault::Raised(raise)),
            "at {json}"
        );
    }
    Ok(())
}
