//! Blocks.
use crate::printed::printed;
use std::test::Fail;

#[test]
fn blocks_that_are_read(rt: HostRuntime) -> Result<(), Fail> {
    let alloc = rt.alloc();
    for (text, wanted) in [
        ("<%= if @a do %>x<% end %>", "if@1:1('x')()"),
        ("<%= if @a do %><% end %>", "if@1:1()()"),
        ("<%= if @a do%>x<%end%>", "if@1:1('x')()"),
        ("<%=\n if@a do\n%>x<%\tend\n%>", "if@1:1('x')()"),
        ("<%= if @a do %>x<% else %>y<% end %>", "if@1:1('x')('y')"),
        ("<%= if @a do %><% else %>y<% end %>", "if@1:1()('y')"),
        ("<%= if @a do %><% else %><% end %>", "if@1:1()()"),
        (
            "<%= if @a do %><%= if @b do %>x<% else %>y<% end %><% else %>z<% end %>",
            "if@1:1(if@1:16('x')('y'))('z')",
        ),
        (
            "é\n<%= if @a do %>\n{1}<% end %>",
            "'é\n' if@2:1('\n' put@3:1)()",
        ),
        ("<%= for x <- @l do %>{x}<% end %>", "for@1:1(put@1:22)"),
        ("<%= for {k, _} <- @l do %><b/><% end %>", "for@1:1(b@1:27)"),
        ("<%= for \"<-\" <- @l do %><% end %>", "for@1:1()"),
        ("<%= case @a do %><% 1 -> %>x<% end %>", "case@1:1('x')"),
        (
            "<%= case @a do %><% 1 -> %><% 2->%>b<% _ -> %>c<% end %>",
            "case@1:1()('b')('c')",
        ),
        (
            "<%= case @a do %>\n <%!-- { --%>\t<%!----%>\n<% %{a: x} -> %>{x}<% end %>",
            "case@1:1(put@3:17)",
        ),
        (
            "<%= case @a do %><% 1 -> %><%= case @b do %><% 2 -> %>x<% end %><% 3 -> %>y<% end %>",
            "case@1:1(case@1:28('x'))('y')",
        ),
        ("a<%= if @a do %>b<% end %>c", "'a' if@1:2('b')() 'c'"),
        (
            "<b><%= if @a do %><i>x</i><% end %></b>",
            "b@1:1(if@1:4(i@1:19('x'))())",
        ),
        ("<%= if @a, do: 1 %>", "put@1:1"),
        (
            "<%= undo %><%= @do_it %><%= @redo %>",
            "put@1:1 put@1:12 put@1:25",
        ),
    ] {
        let got = printed(alloc, text)?;
        assert_eq!(rt; got.as_str(), wanted, "at {text}");
    }
    Ok(())
}

#[test]
fn block_tags_that_are_none(rt: HostRuntime) -> Result<(), Fail> {
    let alloc = rt.alloc();
    for (text, wanted) in [
        ("<% foo %>", "1:1 BadBlock"),
        ("é<% foo %>", "1:2 BadBlock"),
        ("a\nb <% foo %>", "2:3 BadBlock"),
        ("<%%>", "1:1 BadBlock"),
        ("<% @a %>", "1:1 BadBlock"),
        ("<% if @a do %>x<% end %>", "1:1 BadBlock"),
        ("<% ends %>", "1:1 BadBlock"),
        ("<% end end %>", "1:1 BadBlock"),
        ("<% else if @a %>", "1:1 BadBlock"),
        ("<%= cond do %>x<% end %>", "1:1 BadBlock"),
        ("<%= iffy @a do %>", "1:1 BadBlock"),
        ("<%= do %>", "1:1 BadBlock"),
        ("<%=do%>", "1:1 BadBlock"),
        ("x<%= @a do %>", "1:2 BadBlock"),
        ("<%= end %>", "1:5 BadExpr Stray"),
        ("<%= else %>", "1:5 BadExpr Stray"),
        ("<%= 1 -> %>", "1:8 BadExpr Stray"),
        ("<%= if @a do: 1 %>", "1:11 BadExpr Stray"),
        ("<%= if do %>", "1:8 BadExpr Stray"),
        ("<%= if 1 + do %>", "1:12 BadExpr Stray"),
        ("<%= case do %>", "1:10 BadExpr Stray"),
        ("<%= for x do %>", "1:11 BadExpr Stray"),
        ("<%= for x <- do %>", "1:14 BadExpr Stray"),
        ("<%= for 1 + 2 <- @l do %>", "1:11 BadExpr Stray"),
        ("<%= for x <- foo(@l) do %>", "1:14 BadExpr UnknownFunction"),
        ("<% -> %>", "1:4 BadExpr Stray"),
        ("<% x x -> %>", "1:6 BadExpr Stray"),
    ] {
        let got = printed(alloc, text)?;
        assert_eq!(rt; got.as_str(), wanted, "at {text}");
    }
    Ok(())
}

#[test]
fn block_tags_out_of_place(rt: HostRuntime) -> Result<(), Fail> {
    let alloc = rt.alloc();
    for (text, wanted) in [
        ("<% end %>", "1:1 BadBlock"),
        ("<% else %>", "1:1 BadBlock"),
        ("<% 1 -> %>", "1:1 BadBlock"),
        ("<b><% end %></b>", "1:4 BadBlock"),
        ("<%= if @a do %><b><% end %></b>", "1:19 BadBlock"),
        ("<%= if @a do %><b><% else %></b>", "1:19 BadBlock"),
        ("<%= if @a do %></b><% end %>", "1:16 WrongClose"),
        ("<b><%= if @a do %></b><% end %>", "1:19 WrongClose"),
        ("<%= if @a do %></br><% end %>", "1:16 VoidClosed"),
        (
            "<%= if @a do %><% else %><% else %><% end %>",
            "1:26 BadBlock",
        ),
        ("<%= if @a do %><% 1 -> %>", "1:16 BadBlock"),
        ("<%= if @a do %><% else %>\n<% 1 -> %>", "2:1 BadBlock"),
        ("<%= for x <- @l do %><% else %>", "1:22 BadBlock"),
        ("<%= for x <- @l do %><% 1 -> %>", "1:22 BadBlock"),
        ("<%= if @a do %><% end %><% end %>", "1:25 BadBlock"),
        ("<%= case @a do %><% end %>", "1:18 BadBlock"),
        ("<%= case @a do %><% else %>", "1:18 BadBlock"),
        ("<%= case @a do %>x<% 1 -> %><% end %>", "1:18 BadBlock"),
        ("<%= case @a do %>\n x<% 1 -> %><% end %>", "1:18 BadBlock"),
        (
            "<%= case @a do %><!-- c --><% 1 -> %><% end %>",
            "1:18 BadBlock",
        ),
        ("<%= case @a do %>\n{1}<% 1 -> %><% end %>", "2:1 BadBlock"),
        ("<%= case @a do %>{1 +}", "1:18 BadBlock"),
        ("<%= case @a do %><b>", "1:18 BadBlock"),
        ("<%= case @a do %><b/>", "1:18 BadBlock"),
        ("<%= case @a do %></br>", "1:18 BadBlock"),
        ("<%= case @a do %><%= if @a do %>", "1:18 BadBlock"),
        ("<%= case @a do %><% x x -> %>", "1:18 BadBlock"),
        (
            "<%= case @a do %><% 1 -> %>x<% x x -> %>",
            "1:34 BadExpr Stray",
        ),
        (
            "<%= case @a do %><% 1 -> %><% {x, x} -> %>",
            "1:35 BadExpr Stray",
        ),
        ("<%= case @a do %><% 1 -> %>x<% else %>", "1:29 BadBlock"),
        (
            "<%= case @a do %><% 1 -> %><b><% 2 -> %></b>",
            "1:31 BadBlock",
        ),
        ("<%= if @a do %>x", "1:1 Unclosed"),
        ("<%= if @a do %><% else %>x", "1:1 Unclosed"),
        ("a\n  <%= for x <- @l do %>", "2:3 Unclosed"),
        ("<%= case @a do %>", "1:1 Unclosed"),
        ("<%= case @a do %>\n<%!-- --%>", "1:1 Unclosed"),
        ("<%= case @a do %><% 1 -> %>x", "1:1 Unclosed"),
        ("<b><%= if @a do %>", "1:4 Unclosed"),
        ("<%= if @a do %><b>", "1:16 Unclosed"),
        ("<!-- <%= if @a do %> -->", "1:6 Unclosed"),
    ] {
        let got = printed(alloc, text)?;
        assert_eq!(rt; got.as_str(), wanted, "at {text}");
    }
    Ok(())
}
