//! Tags and their attributes.
use crate::printed::printed;
use std::test::Fail;

#[test]
fn texts_and_tags(rt: HostRuntime) -> Result<(), Fail> {
    let alloc = rt.alloc();
    for (text, wanted) in [
        ("", ""),
        ("a\n b", "'a\n b'"),
        ("}", "'}'"),
        ("a<%!-- c --%>b", "'ab'"),
        ("<%!-- c --%>", ""),
        ("<%!-- { --%>a<%!----%><%!-- < --%>b", "'ab'"),
        ("{1}<%!-- --%>{2}", "put@1:1 put@1:14"),
        ("<!-- c -->", "'<!-- c -->'"),
        ("a<!-- <b> { -->b", "'a<!-- <b> { -->b'"),
        ("<!-- <%= @a %> -->", "'<!-- ' put@1:6 ' -->'"),
        ("<!doctype html>\n<b/>", "'<!doctype html>\n' b@2:1"),
        ("<b></b >", "b@1:1"),
        ("<b>x</b>", "b@1:1('x')"),
        ("<b/>x", "b@1:1 'x'"),
        ("<br>x<br/>", "br@1:1 'x' br@1:6"),
        ("<b><i>x</i>y</b>", "b@1:1(i@1:4('x') 'y')"),
        ("é<b>\n  <i/>\n</b>", "'é' b@1:2('\n  ' i@2:3 '\n')"),
        ("<my-el/>", "my-el@1:1"),
        ("<script>{a}<b></script>", "script@1:1('{a}<b>')"),
        ("<script>a<%= @a %></script>", "script@1:1('a' put@1:10)"),
        ("<style>b{c}</style>{1}", "style@1:1('b{c}') put@1:20"),
        (
            "<b phx-no-curly-interpolation>{<i>{</i></b>{1}",
            "b@1:1[phx-no-curly-interpolation@1:4]('{' i@1:32('{')) put@1:44",
        ),
        (
            "<b a=\"x\" c='y' d e={1} {@r}/>",
            "b@1:1[a=\"x\"@1:4 c='y'@1:10 d@1:16 e={}@1:18 {}@1:24]",
        ),
        ("<b a=\"é\"b='x'/>", "b@1:1[a=\"é\"@1:4 b='x'@1:9]"),
        (
            "<b\n  a=\"1\"\n  é b>x</b>",
            "b@1:1[a=\"1\"@2:3 é@3:3 b@3:5]('x')",
        ),
        ("<b a=\"1\" a=\"2\"/>", "b@1:1[a=\"1\"@1:4 a=\"2\"@1:10]"),
        ("<b a=\"{1 +}\"/>", "b@1:1[a=\"{1 +}\"@1:4]"),
        ("<b a={%{b: \"}\"}}/>", "b@1:1[a={}@1:4]"),
        ("<b a={if @c, do: 1}{@r}/>", "b@1:1[a={}@1:4 {}@1:20]"),
        ("<br a/>", "br@1:1[a@1:5]"),
    ] {
        let got = printed(alloc, text)?;
        assert_eq!(rt; got.as_str(), wanted, "at {text}");
    }
    Ok(())
}

#[test]
fn end_tags_close_the_innermost(rt: HostRuntime) -> Result<(), Fail> {
    let alloc = rt.alloc();
    for (text, wanted) in [
        ("<b>x</i>", "1:5 WrongClose"),
        ("</b>", "1:1 WrongClose"),
        ("x</b>", "1:2 WrongClose"),
        ("é\n</b>", "2:1 WrongClose"),
        ("<b></b></b>", "1:8 WrongClose"),
        ("<b><i></b></i>", "1:7 WrongClose"),
        ("<b/></b>", "1:5 WrongClose"),
        ("<.b></b>", "1:5 WrongClose"),
        ("<b></.b>", "1:4 WrongClose"),
        ("<:b></.b>", "1:5 WrongClose"),
        ("</.br>", "1:1 WrongClose"),
        ("</br>", "1:1 VoidClosed"),
        ("<br></br>", "1:5 VoidClosed"),
        ("<br/></br>", "1:6 VoidClosed"),
        ("<b></br></b>", "1:4 VoidClosed"),
        ("é\n\nü</input>", "3:2 VoidClosed"),
        ("<b>", "1:1 Unclosed"),
        ("<b></i>", "1:4 WrongClose"),
        ("<b><i>", "1:4 Unclosed"),
        ("<b><i></i>", "1:1 Unclosed"),
        ("é<b>", "1:2 Unclosed"),
        ("<div>\n</div>\n    <b>x", "3:5 Unclosed"),
        ("<script>", "1:1 Unclosed"),
        ("<script></script", "1:1 Unclosed"),
        ("<.card>", "1:1 Unclosed"),
        ("<.card><:item>", "1:8 Unclosed"),
        ("<b :if={@a}>", "1:1 Unclosed"),
        ("<b>{1 +}", "1:8 BadExpr Stray"),
        ("</i>{1 +}", "1:1 WrongClose"),
        ("{1 +}</i>", "1:5 BadExpr Stray"),
        ("<b><% foo %></i>", "1:4 BadBlock"),
        ("<b a={1 +}></i>", "1:10 BadExpr Stray"),
        ("<b>\n  {1 +}\n</i>", "2:7 BadExpr Stray"),
    ] {
        let got = printed(alloc, text)?;
        assert_eq!(rt; got.as_str(), wanted, "at {text}");
    }
    Ok(())
}

#[test]
fn faults_of_tokens_come_first(rt: HostRuntime) -> Result<(), Fail> {
    let alloc = rt.alloc();
    for (text, wanted) in [
        ("<p", "1:1 UnclosedTag"),
        ("é<p ", "1:2 UnclosedTag"),
        ("a\nb\n<p", "3:1 UnclosedTag"),
        ("</b>\n<p", "2:1 UnclosedTag"),
        ("{", "1:1 UnclosedExpr"),
        ("é\n ü{1", "2:3 UnclosedExpr"),
        ("{1 +}{", "1:6 UnclosedExpr"),
        ("<%= \"%>\" %>", "1:5 BadExpr Unclosed"),
        ("<!-- a", "1:1 UnclosedComment"),
        ("{1 +}<!-- <%= x", "1:6 UnclosedComment"),
        ("<p>\n<é", "2:1 BadTagName"),
        ("a <", "1:3 BadTagName"),
        ("<b></B>", "1:4 BadTagName"),
        ("<% foo %><", "1:10 BadTagName"),
        ("é<a <b>", "1:5 BadAttribute"),
        ("<a b\n=\"c\">", "2:1 BadAttribute"),
        ("<script></script/>", "1:17 BadAttribute"),
        ("<b></i></b c>", "1:12 BadAttribute"),
    ] {
        let got = printed(alloc, text)?;
        assert_eq!(rt; got.as_str(), wanted, "at {text}");
    }
    Ok(())
}

#[test]
fn attributes_that_begin_with_a_colon(rt: HostRuntime) -> Result<(), Fail> {
    let alloc = rt.alloc();
    for (text, wanted) in [
        ("<b :if={@a}>c</b>", "if@1:1(b@1:1('c'))()"),
        ("<b :for={x <- @l}>c</b>", "for@1:1(b@1:1('c'))"),
        (
            "<b :if={@a} :for={x <- @l}>c</b>",
            "for@1:1(if@1:1(b@1:1('c'))())",
        ),
        (
            "<b :for={x <- @l} a :if={x}/>",
            "for@1:1(if@1:1(b@1:1[a@1:19])())",
        ),
        ("\n <br :if={@a}>", "'\n ' if@2:2(br@2:2)()"),
        ("<br :for={{a, _} <- @l}>", "for@1:1(br@1:1)"),
        ("<b :for={\"<-\" <- @l}/>", "for@1:1(b@1:1)"),
        (
            "<.c :if={@a} :for={x <- @l} :let={y}/>",
            "for@1:1(if@1:1(call c@1:1+let)())",
        ),
        ("<.c :let={%{a: x, b: [y]}}/>", "call c@1:1+let"),
        (
            "<.live_component :let={x} id=\"a\"/>",
            "live@1:1[id=\"a\"@1:27]+let",
        ),
        ("<:item :let={x}></:item>", ":item@1:1"),
        ("<b :let={x}>", "1:4 BadSpecial"),
        ("<br :let={x}>", "1:5 BadSpecial"),
        ("<b :let={1 +}>", "1:4 BadSpecial"),
        ("<b :if=\"x\">", "1:4 BadSpecial"),
        ("<b :if>", "1:4 BadSpecial"),
        ("<b :for='x'>", "1:4 BadSpecial"),
        ("<.c :let/>", "1:5 BadSpecial"),
        ("<b :foo={1}>", "1:4 BadSpecial"),
        ("<b :iff={1}>", "1:4 BadSpecial"),
        ("<b :IF={1}>", "1:4 BadSpecial"),
        ("<b :={1}>", "1:4 BadSpecial"),
        ("<.c :slot={x}/>", "1:5 BadSpecial"),
        ("é\n<b\n  :foo={1}>", "3:3 BadSpecial"),
        ("<b :if={@a} :if={@b}>", "1:13 BadSpecial"),
        ("<b :for={x <- @l} :for={y <- @l}>", "1:19 BadSpecial"),
        ("<.c :let={x} :let={y}>", "1:14 BadSpecial"),
        ("<b :if={1 +}>", "1:12 BadExpr Stray"),
        ("<b :if={}>", "1:9 BadExpr Stray"),
        ("<b :if={1 +} :foo={1}>", "1:12 BadExpr Stray"),
        ("<b :foo={1 +} a={1 +}>", "1:4 BadSpecial"),
        ("<b a={1 +} :foo={1}>", "1:10 BadExpr Stray"),
        ("<.c :let={x + 1}/>", "1:13 BadExpr Stray"),
        ("<.c :let={{x, x}}/>", "1:15 BadExpr Stray"),
        ("<b :for={x}>", "1:11 BadExpr Stray"),
        ("<b :for={1 +}>", "1:12 BadExpr Stray"),
        ("<b :for={x <- }>", "1:15 BadExpr Stray"),
        ("<b :for={ <- @l}>", "1:11 BadExpr Stray"),
        ("<b :for={x\n <- 1 +}>", "2:8 BadExpr Stray"),
    ] {
        let got = printed(alloc, text)?;
        assert_eq!(rt; got.as_str(), wanted, "at {text}");
    }
    Ok(())
}

#[test]
fn calls_and_their_slots(rt: HostRuntime) -> Result<(), Fail> {
    let alloc = rt.alloc();
    for (text, wanted) in [
        ("<.card/>", "call card@1:1"),
        ("<.card a={1}>x</.card>", "call card@1:1[a={}@1:8]('x')"),
        ("<.br></.br>", "call br@1:1"),
        ("<.card :let={x}>{x}</.card>", "call card@1:1+let(put@1:17)"),
        (
            "<.card><:item>x</:item>y</.card>",
            "call card@1:1('y'){item@1:8('x')}",
        ),
        ("<.card>a<:item/>b</.card>", "call card@1:1('ab'){item@1:9}"),
        (
            "<.card>\n<:a/><:b/>\n</.card>",
            "call card@1:1('\n\n'){a@2:1 b@2:6}",
        ),
        (
            "<.card><:item :for={x <- @l} :if={x} :let={y} k=\"v\">{y}</:item></.card>",
            "call card@1:1{item@1:8[k=\"v\"@1:47]+for+if+let(put@1:53)}",
        ),
        (
            "<.card><b><:item>x</:item></b></.card>",
            "call card@1:1(b@1:8(:item@1:11('x')))",
        ),
        (
            "<.card><%= if @a do %><:item/><% end %></.card>",
            "call card@1:1(if@1:8(:item@1:23)())",
        ),
        (
            "<.card><:item><:inner/></:item></.card>",
            "call card@1:1{item@1:8(:inner@1:15)}",
        ),
        (
            "<.card><.box><:item/></.box></.card>",
            "call card@1:1(call box@1:8{item@1:14})",
        ),
        ("<:item :if={@a}/>", "if@1:1(:item@1:1)()"),
        (
            "<.live_component module={Counter} id=\"a\"/>",
            "live@1:1[module=Counter@1:18 id=\"a\"@1:35]",
        ),
        (
            "<.live_component module={ App.Counter\n}/>",
            "live@1:1[module=App.Counter@1:18]",
        ),
        ("<.live_component module={@m}/>", "live@1:1[module={}@1:18]"),
        (
            "<.live_component module={counter}/>",
            "live@1:1[module={}@1:18]",
        ),
        (
            "<.live_component module=\"Counter\"/>",
            "live@1:1[module=\"Counter\"@1:18]",
        ),
        (
            "<.live_component>x<:item/></.live_component>",
            "live@1:1('x'){item@1:19}",
        ),
        (
            "<.live_components module/>",
            "call live_components@1:1[module@1:19]",
        ),
        ("<.live_component other={Counter}/>", "1:25 BadExpr Stray"),
        ("<.card module={Counter}/>", "1:16 BadExpr Stray"),
        ("<b module={Counter}/>", "1:12 BadExpr Stray"),
        ("<.card><:item></.card>", "1:15 WrongClose"),
        ("<.card></:item></.card>", "1:8 WrongClose"),
    ] {
        let got = printed(alloc, text)?;
        assert_eq!(rt; got.as_str(), wanted, "at {text}");
    }
    Ok(())
}
