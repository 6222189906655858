//! Loops.
use crate::sent::wrong;
use std::test::Fail;

#[test]
fn rows(rt: HostRuntime) -> Result<(), Fail> {
    let template = "<ul><li :for={x <- @a}>{x}{@b}</li></ul>";
    let steps = [
        ("b", "\"!\"", "raised", "raised"),
        (
            "a",
            "[]",
            "{\"0\":\"\",\"s\":[\"<ul>\",\"</ul>\"]}",
            "<ul></ul>",
        ),
        ("b", "\"?\"", "{}", "<ul></ul>"),
        (
            "a",
            "[1,2]",
            "{\"0\":{\"d\":[[\"1\",\"?\"],[\"2\",\"?\"]],\"s\":[\"<li>\",\"\",\"</li>\"]}}",
            "<ul><li>1?</li><li>2?</li></ul>",
        ),
        ("c", "1", "{}", "<ul><li>1?</li><li>2?</li></ul>"),
        (
            "b",
            "\"\"",
            "{\"0\":{\"d\":[[\"1\",\"\"],[\"2\",\"\"]]}}",
            "<ul><li>1</li><li>2</li></ul>",
        ),
        (
            "a",
            "[3]",
            "{\"0\":{\"d\":[[\"3\",\"\"]]}}",
            "<ul><li>3</li></ul>",
        ),
        ("a", "[]", "{\"0\":\"\"}", "<ul></ul>"),
        (
            "a",
            "[4]",
            "{\"0\":{\"d\":[[\"4\",\"\"]],\"s\":[\"<li>\",\"\",\"</li>\"]}}",
            "<ul><li>4</li></ul>",
        ),
        ("a", "5", "raised", "raised"),
    ];
    assert_eq!(rt; wrong(rt.alloc(), template, &steps)?.as_str(), "");
    Ok(())
}

// An item that the pattern does not match gives no row; a map gives its entries in the order of their keys.
#[test]
fn items_that_match(rt: HostRuntime) -> Result<(), Fail> {
    let template = "<%= for {k, v} <- @a do %>{k}={v};<% end %>";
    let steps = [
        (
            "a",
            "{\"b\":2,\"a\":1}",
            "{\"0\":{\"d\":[[\"a\",\"1\"],[\"b\",\"2\"]],\"s\":[\"\",\"=\",\";\"]},\"s\":[\"\",\"\"]}",
            "a=1;b=2;",
        ),
        ("a", "[1,2]", "{\"0\":\"\"}", ""),
    ];
    assert_eq!(rt; wrong(rt.alloc(), template, &steps)?.as_str(), "");
    Ok(())
}

// Inside a row all is whole.
#[test]
fn branches_inside_rows(rt: HostRuntime) -> Result<(), Fail> {
    let template = "<%= for x <- @a do %><%= if x == @b do %>[{x}]<% else %>{x}<% end %><% end %>";
    let steps = [
        ("b", "1", "raised", "raised"),
        (
            "a",
            "[1,2]",
            "{\"0\":{\"d\":[[{\"0\":\"1\",\"s\":[\"[\",\"]\"]}],[{\"0\":\"2\",\"s\":[\"\",\"\"]}]],\"s\":[\"\",\"\"]},\"s\":[\"\",\"\"]}",
            "[1]2",
        ),
        (
            "b",
            "2",
            "{\"0\":{\"d\":[[{\"0\":\"1\",\"s\":[\"\",\"\"]}],[{\"0\":\"2\",\"s\":[\"[\",\"]\"]}]]}}",
            "1[2]",
        ),
        ("b", "2", "{}", "1[2]"),
    ];
    assert_eq!(rt; wrong(rt.alloc(), template, &steps)?.as_str(), "");
    Ok(())
}

// A loop in a branch that is kept reads what the branch's clause binds.
#[test]
fn rows_inside_a_clause(rt: HostRuntime) -> Result<(), Fail> {
    let template =
        "<%= case @a do %><% {:ok, xs} -> %><%= for x <- xs do %>{x}{@b}<% end %><% %{l: xs} -> %><i :for={x <- xs}>{x}</i>{@b}<% end %>";
    let steps = [
        ("b", "0", "raised", "raised"),
        (
            "a",
            "{\"l\":[1]}",
            "{\"0\":{\"0\":{\"d\":[[\"1\"]],\"s\":[\"<i>\",\"</i>\"]},\"1\":\"0\",\"s\":[\"\",\"\",\"\"]},\"s\":[\"\",\"\"]}",
            "<i>1</i>0",
        ),
        ("b", "2", "{\"0\":{\"1\":\"2\"}}", "<i>1</i>2"),
        (
            "a",
            "{\"l\":[1,3]}",
            "{\"0\":{\"0\":{\"d\":[[\"1\"],[\"3\"]]}}}",
            "<i>1</i><i>3</i>2",
        ),
        ("a", "{\"l\":[1,3],\"m\":0}", "{}", "<i>1</i><i>3</i>2"),
    ];
    assert_eq!(rt; wrong(rt.alloc(), template, &steps)?.as_str(), "");
    Ok(())
}
