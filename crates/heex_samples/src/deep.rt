//! Tags and blocks inside one another.
use crate::printed::printed;
use std::alloc::Global;
use std::test::Fail;

// A text, repeated.
fn repeated(alloc: Global, text: &str, times: usize) -> Result<String, Fail> {
    let mut all = String::new(alloc);
    for _ in 0..times {
        all.push_str(text)?;
    }
    Ok(all)
}

// What is read of so many open tags, something in them, and so many end tags.
fn inside(alloc: Global, opened: usize, inner: &str, closed: usize) -> Result<String, Fail> {
    let mut text = repeated(alloc, "<b>", opened)?;
    text.push_str(inner)?;
    text.push_str(repeated(alloc, "</b>", closed)?.as_str())?;
    printed(alloc, text.as_str())
}

#[test]
fn a_hundred_and_twenty_eight_levels(rt: HostRuntime) -> Result<(), Fail> {
    let alloc = rt.alloc();
    for inner in ["", "x", "<br>", "<i/>", "{1}", "<br :if={@a}>"] {
        let got = inside(alloc, 128, inner, 128)?;
        assert!(rt;
            got.as_str().starts_with("b@1:1(b@1:4(b@1:7("),
            "at {inner}"
        );
    }
    for (opened, inner, closed, wanted) in [
        (129, "", 129, "1:385 TooDeep"),
        (129, "", 0, "1:385 TooDeep"),
        (130, "</i>", 0, "1:385 TooDeep"),
        (128, "<.card>", 0, "1:385 TooDeep"),
        (128, "<b :foo>", 0, "1:385 TooDeep"),
        (128, "<%= if 1 do %>", 0, "1:385 TooDeep"),
        (128, "<%= if 1 + do %>", 0, "1:385 TooDeep"),
        (128, "\n<%= case 1 do %>", 0, "2:1 TooDeep"),
        (127, "<%= if 1 do %><b>", 0, "1:396 TooDeep"),
        (127, "<%= case 1 do %><b>", 0, "1:398 BadBlock"),
        (127, "<%= case 1 do %><% 1 -> %><b>", 0, "1:408 TooDeep"),
        (128, "<br :foo={1}>", 0, "1:389 BadSpecial"),
        (128, "<% foo %>", 0, "1:385 BadBlock"),
        (128, "<%= cond do %>", 0, "1:385 BadBlock"),
        (128, "{1 +}", 0, "1:389 BadExpr Stray"),
        (128, "</i>", 0, "1:385 WrongClose"),
        (128, "", 0, "1:382 Unclosed"),
        (128, "", 127, "1:1 Unclosed"),
        (128, "", 129, "1:897 WrongClose"),
        (129, "<b", 0, "1:388 UnclosedTag"),
    ] {
        let got = inside(alloc, opened, inner, closed)?;
        assert_eq!(rt; got.as_str(), wanted, "at {opened}, {inner} and {closed}");
    }
    Ok(())
}
