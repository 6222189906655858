//! Texts and their tokens, with memory enough.
use heex_token::{RawAttribute, RawValue, TagEnd, Token, TokenFault, TokenForm, tokens};
use std::alloc::{AllocError, Global};
use std::test::Fail;

// What stands behind a `@` in the tables.
fn write_value(out: &mut String, value: &RawValue) -> Result<(), AllocError> {
    match value {
        RawValue::Double(text) => write!(out, "=\"{}\"", text.as_str()),
        RawValue::Single(text) => write!(out, "='{}'", text.as_str()),
        RawValue::Bare => Ok(()),
        RawValue::Braces(text) => write!(out, "={{{}}}", text.as_str()),
        RawValue::Spread(text) => write!(out, "{{{}}}", text.as_str()),
    }
}

// An attribute with its byte, and its value with that of the value.
fn write_attribute(out: &mut String, attribute: &RawAttribute) -> Result<(), AllocError> {
    write!(
        out,
        " {}:{}@{}",
        attribute.start,
        attribute.name.as_str(),
        attribute.value_start
    )?;
    write_value(out, &attribute.value)
}

// A start tag behind its bytes.
fn write_tag(
    out: &mut String,
    name: &str,
    attributes: &[RawAttribute],
    end: TagEnd,
) -> Result<(), AllocError> {
    write!(out, "<{name}")?;
    for attribute in attributes {
        write_attribute(out, attribute)?;
    }
    match end {
        TagEnd::Open => write!(out, ">"),
        TagEnd::SelfClosed => write!(out, "/>"),
    }
}

// The letter of a token.
fn letter(form: &TokenForm) -> &'static str {
    match form {
        TokenForm::Dropped => "D",
        TokenForm::Text => "T",
        TokenForm::Put => "P",
        TokenForm::Block => "B",
        TokenForm::Curly => "C",
        TokenForm::StartTag { .. } => "S",
        TokenForm::EndTag { .. } => "E",
    }
}

// A token as the tables write it: its letter, its bytes, and what stands in it.
fn write_token(out: &mut String, token: &Token) -> Result<(), AllocError> {
    write!(out, "{}{}-{}", letter(&token.form), token.start, token.end)?;
    match &token.form {
        TokenForm::StartTag {
            name,
            attributes,
            end,
        } => write_tag(out, name.as_str(), attributes.as_slice(), *end),
        TokenForm::EndTag { name } => write!(out, "</{}>", name.as_str()),
        _ => Ok(()),
    }
}

fn write_tokens(out: &mut String, tokens: &[Token]) -> Result<(), AllocError> {
    for token in tokens {
        if !out.is_empty() {
            write!(out, " ")?;
        }
        write_token(out, token)?;
    }
    Ok(())
}

// The tokens of a text, or why it has none.
fn listed(alloc: Global, text: &str) -> Result<String, Fail> {
    let mut out = String::new(alloc);
    match tokens(alloc, text) {
        Ok(tokens) => write_tokens(&mut out, tokens.as_slice())?,
        Err(TokenFault::Refused { at, kind }) => write!(out, "{kind:?} at {at}")?,
        Err(TokenFault::OutOfMemory) => write!(out, "out of memory")?,
    }
    Ok(out)
}

#[test]
fn interpolations_end_outside_of_their_texts(rt: HostRuntime) -> Result<(), Fail> {
    let alloc = rt.alloc();
    for (text, wanted) in [
        ("", ""),
        ("a", "T0-1"),
        ("a\nb é", "T0-6"),
        ("}", "T0-1"),
        ("a } b", "T0-5"),
        ("{1}", "C0-3"),
        ("{}", "C0-2"),
        ("a{1}b", "T0-1 C1-4 T4-5"),
        ("{1}{2}", "C0-3 C3-6"),
        ("{a\n}\n", "C0-4 T4-5"),
        ("{%{a: \"}\"}}", "C0-11"),
        ("{\"}\"}", "C0-5"),
        ("{\"#{\"}\"}\"}", "C0-10"),
        ("{\"\\\"\"}", "C0-6"),
        ("{\"\\\\\"}", "C0-6"),
        ("{\"#\"}", "C0-5"),
        ("{\"##{1}\"}", "C0-9"),
        ("{\"\\#{\"}", "C0-7"),
        ("{'}'}", "C0-3 T3-5"),
        ("{", "UnclosedExpr at 0"),
        ("{{}", "UnclosedExpr at 0"),
        ("é{1", "UnclosedExpr at 2"),
        ("{1}{", "UnclosedExpr at 3"),
        ("a\nb\n{\"}", "UnclosedExpr at 4"),
        ("{\"#{\"}", "UnclosedExpr at 0"),
    ] {
        let got = listed(alloc, text)?;
        assert_eq!(rt; got.as_str(), wanted, "at {text}");
    }
    Ok(())
}

#[test]
fn blocks_end_at_the_first_sign(rt: HostRuntime) -> Result<(), Fail> {
    let alloc = rt.alloc();
    for (text, wanted) in [
        ("<%= @a %>", "P0-9"),
        ("<% if @a do %>x<% end %>", "B0-14 T14-15 B15-24"),
        ("<%%>", "B0-4"),
        ("<%=%>", "P0-5"),
        ("<%!%>", "B0-5"),
        ("<%!----%>", "D0-9"),
        ("<%!-- x --%>", "D0-12"),
        ("<%!-- <p> { --%>a", "D0-16 T16-17"),
        ("a<%!-- b --%>c", "T0-1 D1-13 T13-14"),
        ("<%!-- %> --%>", "D0-13"),
        ("<%= \"%>\" %>", "P0-7 T7-11"),
        ("<%!-- --% >", "UnclosedComment at 0"),
        ("é\n<%!-- a -->", "UnclosedComment at 3"),
        ("<%= x", "UnclosedExpr at 0"),
        ("a\nb <% x %", "UnclosedExpr at 4"),
        ("<%", "UnclosedExpr at 0"),
        ("<%!-", "UnclosedExpr at 0"),
        ("<%=>", "UnclosedExpr at 0"),
        ("<%>", "UnclosedExpr at 0"),
    ] {
        let got = listed(alloc, text)?;
        assert_eq!(rt; got.as_str(), wanted, "at {text}");
    }
    Ok(())
}

#[test]
fn tags_begin_with_their_names(rt: HostRuntime) -> Result<(), Fail> {
    let alloc = rt.alloc();
    for (text, wanted) in [
        ("<p></p>", "S0-3<p> E3-7</p>"),
        ("<p>{@a}</p>", "S0-3<p> C3-7 E7-11</p>"),
        ("<br>", "S0-4<br>"),
        ("<br/>", "S0-5<br/>"),
        ("<br />", "S0-6<br/>"),
        ("<p\n\t>", "S0-5<p>"),
        ("<p/>x", "S0-4<p/> T4-5"),
        ("</p >", "E0-5</p>"),
        ("</p\r\n>", "E0-6</p>"),
        ("<.x>", "S0-4<.x>"),
        ("</.x>", "E0-5</.x>"),
        ("<:x>", "S0-4<:x>"),
        ("</:x>", "E0-5</:x>"),
        ("<.x.y/>", "S0-7<.x.y/>"),
        ("<my-el>", "S0-7<my-el>"),
        ("<h1>", "S0-4<h1>"),
        ("<aB>", "S0-4<aB>"),
        ("<aé>", "S0-5<aé>"),
        ("é<p>ü", "T0-2 S2-5<p> T5-7"),
        ("<A>", "BadTagName at 0"),
        ("<.X>", "BadTagName at 0"),
        ("<.>", "BadTagName at 0"),
        ("<:>", "BadTagName at 0"),
        ("<>", "BadTagName at 0"),
        ("<", "BadTagName at 0"),
        ("< a", "BadTagName at 0"),
        ("<é", "BadTagName at 0"),
        ("<1>", "BadTagName at 0"),
        ("a <", "BadTagName at 2"),
        ("<p>\n<é", "BadTagName at 4"),
        ("</", "BadTagName at 0"),
        ("</>", "BadTagName at 0"),
        ("</A>", "BadTagName at 0"),
        ("</.X>", "BadTagName at 0"),
        ("é\n\n</ a>", "BadTagName at 4"),
        ("<p", "UnclosedTag at 0"),
        ("é<p ", "UnclosedTag at 2"),
        ("a\nb\n<p", "UnclosedTag at 4"),
        ("</p", "UnclosedTag at 0"),
        ("x</p ", "UnclosedTag at 1"),
        ("<p\">", "BadAttribute at 2"),
        ("<a<b>", "BadAttribute at 2"),
        ("</p a>", "BadAttribute at 4"),
        ("</p/>", "BadAttribute at 3"),
        ("</p<", "BadAttribute at 3"),
    ] {
        let got = listed(alloc, text)?;
        assert_eq!(rt; got.as_str(), wanted, "at {text}");
    }
    Ok(())
}

#[test]
fn attributes_need_no_space_between_them(rt: HostRuntime) -> Result<(), Fail> {
    let alloc = rt.alloc();
    for (text, wanted) in [
        ("<a b>", "S0-5<a 3:b@4>"),
        ("<a b c>", "S0-7<a 3:b@4 5:c@6>"),
        ("<a b/>", "S0-6<a 3:b@4/>"),
        ("<a b=\"c\">", "S0-9<a 3:b@6=\"c\">"),
        ("<a b='c'>", "S0-9<a 3:b@6='c'>"),
        ("<a b={c}>", "S0-9<a 3:b@6={c}>"),
        ("<a b=\"\">", "S0-8<a 3:b@6=\"\">"),
        ("<a b={}>", "S0-8<a 3:b@6={}>"),
        ("<a {@b}>", "S0-8<a 3:@4{@b}>"),
        ("<a{@b}>", "S0-7<a 2:@3{@b}>"),
        ("<a b=\"c\"d='e'>", "S0-14<a 3:b@6=\"c\" 8:d@11='e'>"),
        ("<a b={c}{d}e/>", "S0-14<a 3:b@6={c} 8:@9{d} 11:e@12/>"),
        ("<a b=\"x>y<z\">", "S0-13<a 3:b@6=\"x>y<z\">"),
        ("<a b='\"'>", "S0-9<a 3:b@6='\"'>"),
        ("<a b=\"'\">", "S0-9<a 3:b@6=\"'\">"),
        ("<a b=\"{c}\">", "S0-11<a 3:b@6=\"{c}\">"),
        ("<a b=\"<%= c %>\">", "S0-16<a 3:b@6=\"<%= c %>\">"),
        ("<a b={\">\"}>", "S0-11<a 3:b@6={\">\"}>"),
        ("<a b={\"}>\"}>", "S0-12<a 3:b@6={\"}>\"}>"),
        ("<a b={%{c: 1}}>", "S0-15<a 3:b@6={%{c: 1}}>"),
        ("<a {%{b: \"}\"}}>", "S0-15<a 3:@4{%{b: \"}\"}}>"),
        (
            "<a :if={b} phx-click=\"c\">",
            "S0-25<a 3::if@8={b} 11:phx-click@22=\"c\">",
        ),
        ("<a é=\"ü\">", "S0-11<a 3:é@7=\"ü\">"),
        ("<a b=\"c\nd\">", "S0-11<a 3:b@6=\"c\nd\">"),
    ] {
        let got = listed(alloc, text)?;
        assert_eq!(rt; got.as_str(), wanted, "at {text}");
    }
    Ok(())
}

#[test]
fn what_is_no_attribute_is_refused(rt: HostRuntime) -> Result<(), Fail> {
    let alloc = rt.alloc();
    for (text, wanted) in [
        ("<a b\n=\"c\">", "BadAttribute at 5"),
        ("<a b= \"x\">", "BadAttribute at 4"),
        ("<a b=c>", "BadAttribute at 4"),
        ("<a b==\"c\">", "BadAttribute at 4"),
        ("<a =b>", "BadAttribute at 3"),
        ("<a \"b\">", "BadAttribute at 3"),
        ("<a }>", "BadAttribute at 3"),
        ("<a / b>", "BadAttribute at 3"),
        ("<a/b>", "BadAttribute at 2"),
        ("é<a <b>", "BadAttribute at 5"),
        ("a\nb\né<p ='x'>", "BadAttribute at 9"),
        ("<a b=", "UnclosedTag at 0"),
        ("<a b", "UnclosedTag at 0"),
        ("<a b=\"c", "UnclosedTag at 0"),
        ("<a b='c\"", "UnclosedTag at 0"),
        ("<a b=\"c\"", "UnclosedTag at 0"),
        ("<a b={c", "UnclosedTag at 0"),
        ("<a b={\"}", "UnclosedTag at 0"),
        ("<a {b", "UnclosedTag at 0"),
        ("<a /", "UnclosedTag at 0"),
        ("é\n<a b='>", "UnclosedTag at 3"),
    ] {
        let got = listed(alloc, text)?;
        assert_eq!(rt; got.as_str(), wanted, "at {text}");
    }
    Ok(())
}

#[test]
fn comments_are_text_but_for_blocks(rt: HostRuntime) -> Result<(), Fail> {
    let alloc = rt.alloc();
    for (text, wanted) in [
        ("<!-- a -->", "T0-10"),
        ("<!---->", "T0-7"),
        ("a<!-- { -->b", "T0-12"),
        ("<!-- <p> -->", "T0-12"),
        ("<!-- { --> {1}", "T0-11 C11-14"),
        ("<!-- <%= a %> -->", "T0-5 P5-13 T13-17"),
        ("<!-- <%!-- --> --%> -->{1}", "T0-5 D5-19 T19-23 C23-26"),
        ("<!-->-->", "T0-8"),
        ("<!doctype html>", "T0-15"),
        ("<!DOCTYPE {>{1}", "T0-12 C12-15"),
        ("<!doctype <% a %>>", "T0-10 B10-17 T17-18"),
        ("<!>", "T0-3"),
        ("<!x>a", "T0-5"),
        ("<!-->", "UnclosedComment at 0"),
        ("<!--->", "UnclosedComment at 0"),
        ("<!- a", "UnclosedComment at 0"),
        ("<!-- <%= x", "UnclosedComment at 0"),
        ("a<!-- <%!-- -->", "UnclosedComment at 1"),
        ("<!doctype <%", "UnclosedComment at 0"),
        ("é\n<!doctype", "UnclosedComment at 3"),
        ("<p><!", "UnclosedComment at 3"),
        ("{1}<!-- {", "UnclosedComment at 3"),
        ("<!-- --><!--", "UnclosedComment at 8"),
    ] {
        let got = listed(alloc, text)?;
        assert_eq!(rt; got.as_str(), wanted, "at {text}");
    }
    Ok(())
}

#[test]
fn scripts_end_at_their_end_tags(rt: HostRuntime) -> Result<(), Fail> {
    let alloc = rt.alloc();
    for (text, wanted) in [
        ("<script>{</script>", "S0-8<script> T8-9 E9-18</script>"),
        ("<style>a{b}</style>", "S0-7<style> T7-11 E11-19</style>"),
        ("<script></script>", "S0-8<script> E8-17</script>"),
        ("<script><p></script>", "S0-8<script> T8-11 E11-20</script>"),
        (
            "<script></scripty></script >",
            "S0-8<script> T8-18 E18-28</script>",
        ),
        (
            "<script></style></script>",
            "S0-8<script> T8-16 E16-25</script>",
        ),
        (
            "<style></STYLE></style>",
            "S0-7<style> T7-15 E15-23</style>",
        ),
        (
            "<script>a<%= b %>c</script>",
            "S0-8<script> T8-9 P9-17 T17-18 E18-27</script>",
        ),
        (
            "<script><%!-- </script> --%></script>",
            "S0-8<script> D8-28 E28-37</script>",
        ),
        (
            "<script><!-- </script>",
            "S0-8<script> T8-13 E13-22</script>",
        ),
        ("<script/>{1}", "S0-9<script/> C9-12"),
        (
            "<script a=\"b\">{</script>{1}",
            "S0-14<script 8:a@11=\"b\"> T14-15 E15-24</script> C24-27",
        ),
        (
            "<scripty>{1}</scripty>",
            "S0-9<scripty> C9-12 E12-22</scripty>",
        ),
        ("<script>", "S0-8<script>"),
        ("<script></script", "S0-8<script> T8-16"),
        ("<script", "UnclosedTag at 0"),
        ("<script></script ", "UnclosedTag at 8"),
        ("<script></script/>", "BadAttribute at 16"),
        ("<script></script a>", "BadAttribute at 17"),
        ("<script><%= a", "UnclosedExpr at 8"),
        ("é<style><%!-- a", "UnclosedComment at 9"),
    ] {
        let got = listed(alloc, text)?;
        assert_eq!(rt; got.as_str(), wanted, "at {text}");
    }
    Ok(())
}

#[test]
fn braces_are_text_inside_of_elements_that_say_so(rt: HostRuntime) -> Result<(), Fail> {
    let alloc = rt.alloc();
    for (text, wanted) in [
        (
            "<b phx-no-curly-interpolation>{</b>{1}",
            "S0-30<b 3:phx-no-curly-interpolation@29> T30-31 E31-35</b> C35-38",
        ),
        (
            "<b phx-no-curly-interpolation>{<i>{</i></b>{1}",
            "S0-30<b 3:phx-no-curly-interpolation@29> T30-31 S31-34<i> T34-35 E35-39</i> E39-43</b> C43-46",
        ),
        (
            "<b phx-no-curly-interpolation>{<b>{</b>{</b>{1}",
            "S0-30<b 3:phx-no-curly-interpolation@29> T30-31 S31-34<b> T34-35 E35-39</b> T39-40 E40-44</b> C44-47",
        ),
        (
            "<b phx-no-curly-interpolation><br>{</b>{1}",
            "S0-30<b 3:phx-no-curly-interpolation@29> S30-34<br> T34-35 E35-39</b> C39-42",
        ),
        (
            "<b phx-no-curly-interpolation><br/>{</br>{</b>{1}",
            "S0-30<b 3:phx-no-curly-interpolation@29> S30-35<br/> T35-36 E36-41</br> T41-42 E42-46</b> C46-49",
        ),
        (
            "<b phx-no-curly-interpolation><i/>{</b>{1}",
            "S0-30<b 3:phx-no-curly-interpolation@29> S30-34<i/> T34-35 E35-39</b> C39-42",
        ),
        (
            "<b phx-no-curly-interpolation/>{1}",
            "S0-31<b 3:phx-no-curly-interpolation@29/> C31-34",
        ),
        (
            "<br phx-no-curly-interpolation>{1}",
            "S0-31<br 4:phx-no-curly-interpolation@30> C31-34",
        ),
        (
            "<.b phx-no-curly-interpolation>{1}",
            "S0-31<.b 4:phx-no-curly-interpolation@30> C31-34",
        ),
        (
            "<:b phx-no-curly-interpolation>{1}",
            "S0-31<:b 4:phx-no-curly-interpolation@30> C31-34",
        ),
        (
            "<b phx-no-curly-interpolation=\"c\">{</b>{1}",
            "S0-34<b 3:phx-no-curly-interpolation@31=\"c\"> T34-35 E35-39</b> C39-42",
        ),
        (
            "<b phx-no-curly-interpolation>{<%= a %>}",
            "S0-30<b 3:phx-no-curly-interpolation@29> T30-31 P31-39 T39-40",
        ),
        (
            "<b phx-no-curly-interpolation>{<.c>{</.c>{</b>{1}",
            "S0-30<b 3:phx-no-curly-interpolation@29> T30-31 S31-35<.c> T35-36 E36-41</.c> T41-42 E42-46</b> C46-49",
        ),
        (
            "<b phx-no-curly-interpolation><script>{</script>{</b>{1}",
            "S0-30<b 3:phx-no-curly-interpolation@29> S30-38<script> T38-39 E39-48</script> T48-49 E49-53</b> C53-56",
        ),
        (
            "<b phx-no-curly-interpolation><p a={\"{\"}></p>{</b>",
            "S0-30<b 3:phx-no-curly-interpolation@29> S30-41<p 33:a@36={\"{\"}> E41-45</p> T45-46 E46-50</b>",
        ),
        (
            "<b phx-no-curly-interpolation><i phx-no-curly-interpolation>{</i>{</b>{1}",
            "S0-30<b 3:phx-no-curly-interpolation@29> S30-60<i 33:phx-no-curly-interpolation@59> T60-61 E61-65</i> T65-66 E66-70</b> C70-73",
        ),
        (
            "<b phx-no-curly-interpolation>{",
            "S0-30<b 3:phx-no-curly-interpolation@29> T30-31",
        ),
        ("</b>{1}", "E0-4</b> C4-7"),
        ("<p phx-no-curly>{1}", "S0-16<p 3:phx-no-curly@15> C16-19"),
    ] {
        let got = listed(alloc, text)?;
        assert_eq!(rt; got.as_str(), wanted, "at {text}");
    }
    Ok(())
}
