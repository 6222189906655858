//! Interpolations, attributes and spreads.
use crate::sent::wrong;
use std::test::Fail;

#[test]
fn places_that_read_the_same_assign(rt: HostRuntime) -> Result<(), Fail> {
    let template = "{@b + 1} of {@b + @c}";
    let steps = [
        ("b", "1", "raised", "raised"),
        (
            "c",
            "2",
            "{\"0\":\"2\",\"1\":\"3\",\"s\":[\"\",\" of \",\"\"]}",
            "2 of 3",
        ),
        ("b", "2", "{\"0\":\"3\",\"1\":\"4\"}", "3 of 4"),
        ("c", "3", "{\"1\":\"5\"}", "3 of 5"),
        ("c", "\"\"", "raised", "raised"),
    ];
    assert_eq!(rt; wrong(rt.alloc(), template, &steps)?.as_str(), "");
    Ok(())
}

#[test]
fn attributes(rt: HostRuntime) -> Result<(), Fail> {
    let template =
        "<div class={@a} title=\"t\"><input type='text' {@b} required disabled={@c}></div>";
    let steps = [
        ("a", "\"x <y>\"", "raised", "raised"),
        ("b", "null", "raised", "raised"),
        (
            "c",
            "false",
            "{\"0\":\" class=\\\"x &lt;y&gt;\\\"\",\"1\":\"\",\"2\":\"\",\"s\":[\"<div\",\" title=\\\"t\\\"><input type='text'\",\" required\",\"></div>\"]}",
            "<div class=\"x &lt;y&gt;\" title=\"t\"><input type='text' required></div>",
        ),
        (
            "b",
            "{\"id\":7,\"checked\":true}",
            "{\"1\":\" checked id=\\\"7\\\"\"}",
            "<div class=\"x &lt;y&gt;\" title=\"t\"><input type='text' checked id=\"7\" required></div>",
        ),
        (
            "c",
            "true",
            "{\"2\":\" disabled\"}",
            "<div class=\"x &lt;y&gt;\" title=\"t\"><input type='text' checked id=\"7\" required disabled></div>",
        ),
        ("b", "1", "raised", "raised"),
    ];
    assert_eq!(rt; wrong(rt.alloc(), template, &steps)?.as_str(), "");
    Ok(())
}

// Places from the tenth on are in the order of their decimals' bytes.
#[test]
fn eleven_places(rt: HostRuntime) -> Result<(), Fail> {
    let template = "{@a}{@a}{@b}{@a}{@a}{@a}{@a}{@a}{@a}{@a}{@b}";
    let steps = [
        ("a", "0", "raised", "raised"),
        (
            "b",
            "1",
            "{\"0\":\"0\",\"1\":\"0\",\"10\":\"1\",\"2\":\"1\",\"3\":\"0\",\"4\":\"0\",\"5\":\"0\",\"6\":\"0\",\"7\":\"0\",\"8\":\"0\",\"9\":\"0\",\"s\":[\"\",\"\",\"\",\"\",\"\",\"\",\"\",\"\",\"\",\"\",\"\",\"\"]}",
            "00100000001",
        ),
        ("b", "2", "{\"10\":\"2\",\"2\":\"2\"}", "00200000002"),
    ];
    assert_eq!(rt; wrong(rt.alloc(), template, &steps)?.as_str(), "");
    Ok(())
}
