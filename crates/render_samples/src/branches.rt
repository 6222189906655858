//! Conditions and cases.
use crate::sent::wrong;
use std::test::Fail;

#[test]
fn two_branches_of_equal_statics(rt: HostRuntime) -> Result<(), Fail> {
    let template = "<%= if @a do %>[{@b}]<% else %>[{@c}]<% end %>";
    let steps = [
        ("c", "3", "raised", "raised"),
        ("b", "2", "raised", "raised"),
        (
            "a",
            "true",
            "{\"0\":{\"0\":\"2\",\"s\":[\"[\",\"]\"]},\"s\":[\"\",\"\"]}",
            "[2]",
        ),
        ("b", "4", "{\"0\":{\"0\":\"4\"}}", "[4]"),
        ("c", "5", "{}", "[4]"),
        ("a", "1", "{}", "[4]"),
        (
            "a",
            "false",
            "{\"0\":{\"0\":\"5\",\"s\":[\"[\",\"]\"]}}",
            "[5]",
        ),
        ("b", "6", "{}", "[5]"),
        ("c", "7", "{\"0\":{\"0\":\"7\"}}", "[7]"),
        (
            "a",
            "true",
            "{\"0\":{\"0\":\"6\",\"s\":[\"[\",\"]\"]}}",
            "[6]",
        ),
    ];
    assert_eq!(rt; wrong(rt.alloc(), template, &steps)?.as_str(), "");
    Ok(())
}

#[test]
fn a_branch_without_else(rt: HostRuntime) -> Result<(), Fail> {
    let template = "<p :if={@a}>{@b}</p>.";
    let steps = [
        ("a", "null", "{\"0\":\"\",\"s\":[\"\",\".\"]}", "."),
        ("b", "1", "{}", "."),
        (
            "a",
            "2",
            "{\"0\":{\"0\":\"1\",\"s\":[\"<p>\",\"</p>\"]}}",
            "<p>1</p>.",
        ),
        ("a", "3", "{}", "<p>1</p>."),
        ("b", "\"<\"", "{\"0\":{\"0\":\"&lt;\"}}", "<p>&lt;</p>."),
        ("a", "false", "{\"0\":\"\"}", "."),
        ("a", "null", "{}", "."),
    ];
    assert_eq!(rt; wrong(rt.alloc(), template, &steps)?.as_str(), "");
    Ok(())
}

// What a clause binds is tracked: a place that reads it is sent where it differs.
#[test]
fn clauses(rt: HostRuntime) -> Result<(), Fail> {
    let template = "<%= case @a do %><% [x, y] -> %>{x}{y}{@b}<% n -> %>{n}<% end %>";
    let steps = [
        ("b", "0", "raised", "raised"),
        (
            "a",
            "[1,2]",
            "{\"0\":{\"0\":\"1\",\"1\":\"2\",\"2\":\"0\",\"s\":[\"\",\"\",\"\",\"\"]},\"s\":[\"\",\"\"]}",
            "120",
        ),
        ("a", "[1,3]", "{\"0\":{\"1\":\"3\"}}", "130"),
        ("b", "4", "{\"0\":{\"2\":\"4\"}}", "134"),
        ("a", "[5,3]", "{\"0\":{\"0\":\"5\"}}", "534"),
        ("a", "6", "{\"0\":{\"0\":\"6\",\"s\":[\"\",\"\"]}}", "6"),
        ("a", "7", "{\"0\":{\"0\":\"7\"}}", "7"),
        ("b", "8", "{}", "7"),
    ];
    assert_eq!(rt; wrong(rt.alloc(), template, &steps)?.as_str(), "");
    Ok(())
}

#[test]
fn no_clause(rt: HostRuntime) -> Result<(), Fail> {
    let template = "<%= case @a do %><% %{k: x} -> %>{x}<% end %>";
    let steps = [
        (
            "a",
            "{\"k\":1}",
            "{\"0\":{\"0\":\"1\",\"s\":[\"\",\"\"]},\"s\":[\"\",\"\"]}",
            "1",
        ),
        ("a", "{\"j\":1}", "raised", "raised"),
        (
            "a",
            "{\"j\":1,\"k\":2}",
            "{\"0\":{\"0\":\"2\",\"s\":[\"\",\"\"]},\"s\":[\"\",\"\"]}",
            "2",
        ),
    ];
    assert_eq!(rt; wrong(rt.alloc(), template, &steps)?.as_str(), "");
    Ok(())
}

#[test]
fn a_branch_inside_a_branch(rt: HostRuntime) -> Result<(), Fail> {
    let template = "<%= if @a do %><%= if @b do %>{@c}<% else %>no<% end %><% end %>";
    let steps = [
        ("c", "1", "raised", "raised"),
        ("b", "true", "raised", "raised"),
        (
            "a",
            "true",
            "{\"0\":{\"0\":{\"0\":\"1\",\"s\":[\"\",\"\"]},\"s\":[\"\",\"\"]},\"s\":[\"\",\"\"]}",
            "1",
        ),
        ("c", "2", "{\"0\":{\"0\":{\"0\":\"2\"}}}", "2"),
        ("b", "false", "{\"0\":{\"0\":{\"s\":[\"no\"]}}}", "no"),
        ("c", "3", "{}", "no"),
        ("a", "null", "{\"0\":\"\"}", ""),
    ];
    assert_eq!(rt; wrong(rt.alloc(), template, &steps)?.as_str(), "");
    Ok(())
}
