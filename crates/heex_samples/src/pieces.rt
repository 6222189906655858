//! Expressions in templates.
use crate::printed::printed;
use std::test::Fail;

#[test]
fn values(rt: HostRuntime) -> Result<(), Fail> {
    let alloc = rt.alloc();
    for (text, wanted) in [
        ("{1}", "put@1:1"),
        ("é{1}", "'é' put@1:2"),
        ("a\n{1}", "'a\n' put@2:1"),
        ("{1}{2}", "put@1:1 put@1:4"),
        ("<%= 1 %><%=2%>", "put@1:1 put@1:9"),
        ("{9223372036854775807}", "put@1:1"),
        ("{9223372036854775808}", "1:2 BadExpr BadNumber"),
        ("{1 +}", "1:5 BadExpr Stray"),
        ("{1 + }", "1:6 BadExpr Stray"),
        ("<div>{1 +}", "1:10 BadExpr Stray"),
        ("{}", "1:2 BadExpr Stray"),
        ("<%=%>", "1:4 BadExpr Stray"),
        ("<%=\n%>", "2:1 BadExpr Stray"),
        ("é{1 +}", "1:6 BadExpr Stray"),
        ("\n{1 +}", "2:5 BadExpr Stray"),
        ("{\"é\" +}", "1:7 BadExpr Stray"),
        ("{\"é\n\" é}", "2:3 BadExpr Stray"),
        ("{1 2}", "1:4 BadExpr Stray"),
        ("{@}", "1:3 BadExpr Stray"),
        ("{(1}", "1:2 BadExpr Unclosed"),
        ("{1)}", "1:3 BadExpr Stray"),
        ("<%= \"a %>", "1:5 BadExpr Unclosed"),
        ("{\"a\\q\"}", "1:4 BadExpr Stray"),
        ("{foo(1)}", "1:2 BadExpr UnknownFunction"),
        ("{1 + foo()}\n{1 +}", "1:6 BadExpr UnknownFunction"),
        ("<b {1 +}/>", "1:8 BadExpr Stray"),
        ("<b a={1 +} b={2 +}/>", "1:10 BadExpr Stray"),
        ("<b\n a={1}\n b={foo()}/>", "3:5 BadExpr UnknownFunction"),
        ("<br a={(}>", "1:8 BadExpr Unclosed"),
    ] {
        let got = printed(alloc, text)?;
        assert_eq!(rt; got.as_str(), wanted, "at {text}");
    }
    Ok(())
}

#[test]
fn slots_that_are_rendered(rt: HostRuntime) -> Result<(), Fail> {
    let alloc = rt.alloc();
    for (text, wanted) in [
        ("{render_slot(@inner)}", "slot@1:1"),
        ("<%= render_slot(@inner) %>", "slot@1:1"),
        ("é\n{ render_slot( @inner ) }", "'é\n' slot@2:1"),
        ("{render_slot(@inner, 1)}", "slot+argument@1:1"),
        ("{render_slot(@inner,\n%{a: \")\"})\n}", "slot+argument@1:1"),
        ("{render_slot([1, 2])}", "slot@1:1"),
        ("{\"render_slot(@a)\"}", "put@1:1"),
        ("{render_slot}", "put@1:1"),
        ("{render_slot()}", "1:2 BadExpr UnknownFunction"),
        ("{render_slot(@inner, 1, 2)}", "1:2 BadExpr UnknownFunction"),
        ("{1 + render_slot(@a)}", "1:6 BadExpr UnknownFunction"),
        ("{render_slot(@a) + 1}", "1:2 BadExpr UnknownFunction"),
        ("{render_slot(@a) + (1)}", "1:2 BadExpr UnknownFunction"),
        ("{[render_slot(@a)]}", "1:3 BadExpr UnknownFunction"),
        (
            "{render_slot(render_slot(@a))}",
            "1:14 BadExpr UnknownFunction",
        ),
        ("{render_slot(foo(1))}", "1:14 BadExpr UnknownFunction"),
        ("{render_slot(@a, foo())}", "1:18 BadExpr UnknownFunction"),
        ("<b a={render_slot(@a)}/>", "1:7 BadExpr UnknownFunction"),
        ("{render_slot (@a)}", "1:14 BadExpr Stray"),
        ("{render_slot(@a,)}", "1:17 BadExpr Stray"),
        ("{render_slot(@a}", "1:13 BadExpr Unclosed"),
    ] {
        let got = printed(alloc, text)?;
        assert_eq!(rt; got.as_str(), wanted, "at {text}");
    }
    Ok(())
}
