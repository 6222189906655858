//! Texts of expressions, each with what it comes to: a JSON value or an atom, a raise, or a refusal and its byte.
use ast_core::Expr;
use expr_core::{ExprFault, ExprKind, read_expr};
use expr_eval::{EvalFault, Variables, eval};
use std::alloc::Global;
use std::test::Fail;
use text_core::Text;
use value_core::{Assigns, Value, from_json, to_json};

const LITERALS_AND_NAMES: &str =
    "1  =>  1\n007  =>  7\n1_000  =>  1000\n9223372036854775807  =>  9223372036854775807\n9223372036854775808  =>  bad number 0\n1 + 9223372036854775808  =>  bad number 4\n1 9223372036854775808  =>  bad number 2\n-9223372036854775808  =>  bad number 1\n1__0  =>  stray 1\n1_  =>  stray 1\n\"a\"  =>  \"a\"\n\"\"  =>  \"\"\n\"a\\\"b\\\\c\\n\\t\\#\"  =>  \"a\\\"b\\\\c\\n\\t#\"\n:a  =>  :a\n:ok?  =>  :ok?\n:ok!  =>  :ok!\n:A  =>  stray 0\nnil  =>  null\ntrue  =>  true\nfalse  =>  false\n@n  =>  7\n@ n  =>  7\nv  =>  3\n@none  =>  raises NoAssign\nw  =>  raises NoVariable\nlength  =>  raises NoVariable\n@l  =>  [1,2,3]";

const OPERATORS: &str =
    "1 + 2 * 3  =>  7\n2 * 3 + 1  =>  7\n1 + 2 * 3 - 4  =>  3\n10 - 3 - 2  =>  5\n1 - 2 + 3  =>  2\n2 * 3 * 4  =>  24\n(1 + 2) * 3  =>  9\n[1] ++ [2] ++ [3]  =>  [1,2,3]\n\"a\" <> \"b\" <> \"c\"  =>  \"abc\"\n\"a\" <> \"b\" == \"ab\"  =>  true\n[1] ++ [2] == [1, 2]  =>  true\n1 + 1 in [2]  =>  true\n1 in [1] ++ [2]  =>  true\n1 in [1] == true  =>  true\n1 in [1] in [true]  =>  stray 9\nnot 1 in [1]  =>  stray 6\n!1 in [1]  =>  stray 3\n-1 in [-1]  =>  true\n(not true) in [false]  =>  true\n1 in not [1]  =>  raises BadBoolean\n[1, 2] |> length()  =>  2\n1 in [1] |> is_nil()  =>  false\n[3] ++ [4] |> length()  =>  2\n[1] |> length() < 2  =>  true\n[1, 2] |> Enum.reverse() |> Enum.join(\"-\")  =>  \"2-1\"\n1 < 2 == true  =>  true\n1 == 1 == true  =>  true\n2 > 1 != false  =>  true\n1 < 2 && 2 < 3  =>  true\n1 == 1 && 2 == 3  =>  false\nfalse && true || true  =>  true\ntrue || false && false  =>  true\ntrue or false and false  =>  true\n-2 + 3  =>  1\n- 2  =>  -2\n--2  =>  2\n1 - -2  =>  3\n-@n  =>  -7\n!nil  =>  true\n!0  =>  false\nnot false  =>  true\nnot not true  =>  true\n!true == false  =>  true\nnil || 5  =>  5\nnil && 5  =>  null\n1 && 2  =>  2\nfalse || nil  =>  null\ntrue and 1  =>  1\nfalse and @none  =>  false\ntrue or @none  =>  true\n1 <= 1  =>  true\n2 >= 3  =>  false\n\"a\" < \"b\"  =>  true\n\"a\" > \"B\"  =>  true\n1 == \"1\"  =>  false\n:a == \"a\"  =>  false\n%{a: 1} == %{\"a\" => 1}  =>  true\n{1} == [1]  =>  false\n{1, \"a\"} == {1, \"a\"}  =>  true\n1in [1]  =>  true\nv!=3  =>  false";

const OPERANDS_FIELDS_TEXTS_AND_BRANCHES: &str =
    "1 < \"a\"  =>  raises BadArgument\n1 and true  =>  raises BadBoolean\nnot nil  =>  raises BadBoolean\nfalse or @none  =>  raises NoAssign\nnil + @none  =>  raises NoAssign\n@none + nil  =>  raises NoAssign\n1 + nil  =>  raises BadArgument\n-\"a\"  =>  raises BadArgument\n[1] ++ 2  =>  raises BadArgument\n\"a\" <> 1  =>  raises BadArgument\n1<>2  =>  raises BadArgument\n1 in 2  =>  raises BadArgument\n9223372036854775807 + 1  =>  raises Range\n-9223372036854775807 - 2  =>  raises Range\n4611686018427387904 * 2  =>  raises Range\n-(-9223372036854775807 - 1)  =>  raises Range\n@m.a  =>  1\n@m.b.c  =>  2\n@m[\"a\"]  =>  1\n@m[:a]  =>  1\n@m[\"b\"][\"c\"]  =>  2\n@m[\"b\"].c  =>  2\n(@m).a  =>  1\n@m. a  =>  1\n@m[\"x\"]  =>  null\n@m.x  =>  raises NoKey\n@n.a  =>  raises BadArgument\n@n[\"a\"]  =>  raises BadArgument\nnil[\"a\"]  =>  null\nnil[1]  =>  raises BadArgument\nnil.a  =>  raises BadArgument\n@m[1]  =>  raises BadArgument\n\"x\".a  =>  raises BadArgument\n%{a: 1}[\"b\"]  =>  null\n%{a: 1}.b  =>  raises NoKey\n@m .a  =>  stray 3\n@m [\"a\"]  =>  stray 3\n\"n=#{1 + 1}\"  =>  \"n=2\"\n\"#{@t}#{@n}\"  =>  \"x7\"\n\"a#{nil}b\"  =>  \"ab\"\n\"#{true}#{:a}\"  =>  \"truea\"\n\"#{\"b\"}\"  =>  \"b\"\n\"#{%{a: 1}.a}\"  =>  \"1\"\n\"#{[1]}\"  =>  raises NotPrintable\n\"#{[1]}#{@none}\"  =>  raises NotPrintable\n\"é\"  =>  \"é\"\nif true, do: 1  =>  1\nif nil, do: 1  =>  null\nif nil, do: 1, else: 2  =>  2\nif(true, do: 1)  =>  1\nif (true), do: 1  =>  1\n1 + if(true, do: 1, else: 2)  =>  2\n[if(true, do: 1), 2]  =>  [1,2]\n[]  =>  []\n[1, \"a\", nil]  =>  [1,\"a\",null]\n{} == {}  =>  true\n%{}  =>  {}\n%{b: 2, a: 1}  =>  {\"a\":1,\"b\":2}\n%{a: 1, a: 2}  =>  {\"a\":2}\n%{\"a b\" => 1}  =>  {\"a b\":1}\n%{a : 1}  =>  {\"a\":1}";

const FUNCTIONS: &str =
    "length([1, 2])  =>  2\nlength(1)  =>  raises BadArgument\nis_nil(nil)  =>  true\nis_nil(0)  =>  false\nto_string(12)  =>  \"12\"\nto_string([1])  =>  raises NotPrintable\ndiv(-7, 2)  =>  -3\ndiv(7, -2)  =>  -3\nrem(-7, 2)  =>  -1\nrem(7, -2)  =>  1\ndiv(1, 0)  =>  raises BadArgument\nrem(1, 0)  =>  raises BadArgument\ndiv(-9223372036854775807 - 1, -1)  =>  raises Range\nrem(-9223372036854775807 - 1, -1)  =>  raises Range\ndiv(\"a\", 1)  =>  raises BadArgument\nabs(-3)  =>  3\nabs(-9223372036854775807 - 1)  =>  raises Range\nabs(\"a\")  =>  raises BadArgument\nmax(1, 2)  =>  2\nmax(\"a\", \"b\")  =>  \"b\"\nmax(1, \"a\")  =>  raises BadArgument\nmin(1, 2)  =>  1\nmin(\"b\", \"a\")  =>  \"a\"\nmin(nil, 1)  =>  raises BadArgument\nEnum.count([1])  =>  1\nEnum.count(%{a: 1})  =>  1\nEnum.count(\"a\")  =>  raises BadArgument\nEnum.empty?([])  =>  true\nEnum.empty?(%{a: 1})  =>  false\nEnum.empty?(1)  =>  raises BadArgument\nEnum.join([1, \"a\", nil])  =>  \"1a\"\nEnum.join([1, 2], \", \")  =>  \"1, 2\"\nEnum.join([], \"x\")  =>  \"\"\nEnum.join(1)  =>  raises BadArgument\nEnum.join([1], 2)  =>  raises BadArgument\nEnum.join([[1]])  =>  raises NotPrintable\nEnum.reverse([1, 2])  =>  [2,1]\nEnum.reverse(1)  =>  raises BadArgument\nMap.get(@m, \"a\")  =>  1\nMap.get(@m, :x)  =>  null\nMap.get(@m, \"x\", 5)  =>  5\nMap.get(1, \"a\")  =>  raises BadArgument\nMap.get(@m, nil)  =>  raises BadArgument\nMap.has_key?(@m, \"a\")  =>  true\nMap.has_key?(@m, :x)  =>  false\nMap.has_key?(1, \"a\")  =>  raises BadArgument\nfoo(1)  =>  unknown function 0\n1 + foo(1)  =>  unknown function 4\nfoo(bar(1))  =>  unknown function 0\nlength(bar())  =>  unknown function 7\n1 |> foo()  =>  unknown function 5\nlength()  =>  unknown function 0\nlength([1], 2)  =>  unknown function 0\nEnum.map([1])  =>  unknown function 0\nrender_slot(@n)  =>  unknown function 0\nfoo?(1)  =>  unknown function 0\nfoo(1, $)  =>  stray 7";

const REFUSED_TEXTS: &str =
    "  =>  stray 0\n1 +  =>  stray 3\n1 + + 2  =>  stray 4\n* 2  =>  stray 0\n1 2  =>  stray 2\n1)  =>  stray 1\n()  =>  stray 1\n(1]  =>  stray 2\n[1 2]  =>  stray 3\n[1, ]  =>  stray 4\n@  =>  stray 1\n@1  =>  stray 1\n.a  =>  stray 0\nv.  =>  stray 2\n1.5  =>  stray 2\n1 = 1  =>  stray 2\n1 === 1  =>  stray 4\n1 & 2  =>  stray 2\n1 | 2  =>  stray 2\n1 % 2  =>  stray 2\n1 $  =>  stray 2\n'a'  =>  stray 0\né  =>  stray 0\n\"a\" é  =>  stray 4\n\"a\\q\"  =>  stray 2\n\"a#{}\"  =>  stray 4\n%{a:b}  =>  stray 3\n%{1 => 2}  =>  stray 2\n%{\"a#{1}\" => 2}  =>  stray 4\nfoo?  =>  stray 3\nlength (1)  =>  stray 7\n1 |> 2  =>  stray 5\n1 |> length  =>  stray 11\n1 |> length + 1  =>  stray 12\nCounter  =>  stray 0\nEnum.count  =>  stray 10\nEnum.count + 1  =>  stray 11\ndo  =>  stray 0\ndo: 1  =>  stray 0\nend  =>  stray 0\nelse  =>  stray 0\n1 + if true, do: 1  =>  stray 7\n[if true, do: 1]  =>  stray 4\nif true do: 1  =>  stray 8\nif true, 1  =>  stray 9\nif true, do: 1, else: 2, else: 3  =>  stray 23\n\"a  =>  unclosed 0\n\"a#{  =>  unclosed 2\n\"a#{1  =>  unclosed 2\n\"a#{1}  =>  unclosed 0\n[1  =>  unclosed 0\n(1  =>  unclosed 0\nlength(  =>  unclosed 6\n@m[\"a\"  =>  unclosed 2\n{1, (2  =>  unclosed 4\n[%{a: (1  =>  unclosed 6\nif(true, do: 1  =>  unclosed 2";

// What is in scope.
const ASSIGNS: &str = "{\"l\":[1,2,3],\"m\":{\"a\":1,\"b\":{\"c\":2}},\"n\":7,\"t\":\"x\"}";

fn scope(alloc: Global, json: &str) -> Result<Assigns, Fail> {
    let json = serde_json::Value::from_slice(alloc, json.as_bytes())
        .ok()
        .ok_or("no JSON")?;
    match from_json(alloc, &json).ok().ok_or("no value")? {
        Value::Map(entries) => Ok(entries),
        _ => Err("no map")?,
    }
}

fn refusal(alloc: Global, at: usize, kind: ExprKind) -> Result<String, Fail> {
    let kind = match kind {
        ExprKind::Stray => "stray",
        ExprKind::Unclosed => "unclosed",
        ExprKind::BadNumber => "bad number",
        ExprKind::UnknownFunction => "unknown function",
        ExprKind::TooDeep => "too deep",
    };
    Ok(format!(in alloc; "{kind} {at}")?)
}

fn evaluated(alloc: Global, expr: &Expr) -> Result<String, Fail> {
    let assigns = scope(alloc, ASSIGNS)?;
    let variables = Variables::of(alloc, Text::copy_of(alloc, "v")?, Value::Int(3))?;
    match eval(alloc, &assigns, &variables, expr) {
        Ok(Value::Atom(name)) => {
            let name = name.as_str();
            Ok(format!(in alloc; ":{name}")?)
        }
        Ok(value) => {
            let json = to_json(alloc, &value).ok().ok_or("no JSON of the value")?;
            Ok(json.to_string(alloc)?)
        }
        Err(EvalFault::Raised(raise)) => Ok(format!(in alloc; "raises {raise:?}")?),
        Err(EvalFault::OutOfMemory) => Err("out of memory")?,
    }
}

// What a text comes to.
fn outcome(alloc: Global, text: &str) -> Result<String, Fail> {
    match read_expr(alloc, text) {
        Ok(expr) => evaluated(alloc, &expr),
        Err(ExprFault::Refused { at, kind }) => refusal(alloc, at, kind),
        Err(ExprFault::OutOfMemory) => Err("out of memory")?,
    }
}

// The first row of a table that does not come to what it says, with what it comes to; or nothing.
fn first_wrong(alloc: Global, table: &str) -> Result<String, Fail> {
    for row in table.lines() {
        let Some((text, expected)) = row.split_once("  =>  ") else {
            return Err("no row")?;
        };
        let found = outcome(alloc, text)?;
        if found.as_str() != expected {
            let found = found.as_str();
            return Ok(format!(in alloc; "{row}, and not {found}")?);
        }
    }
    Ok(String::new(alloc))
}

#[test]
fn texts_and_what_they_come_to(rt: HostRuntime) -> Result<(), Fail> {
    let alloc = rt.alloc();
    for table in [
        LITERALS_AND_NAMES,
        OPERATORS,
        OPERANDS_FIELDS_TEXTS_AND_BRANCHES,
        FUNCTIONS,
        REFUSED_TEXTS,
    ] {
        let wrong = first_wrong(alloc, table)?;
        assert_eq!(rt; wrong.as_str(), "");
    }
    Ok(())
}

// A text, repeated.
fn repeated(alloc: Global, text: &str, times: usize) -> Result<String, Fail> {
    let mut all = String::new(alloc);
    for _ in 0..times {
        all.push_str(text)?;
    }
    Ok(all)
}

// What a text comes to between so many openings and closings.
fn nested(alloc: Global, opening: &str, closing: &str, times: usize) -> Result<String, Fail> {
    let mut text = repeated(alloc, opening, times)?;
    text.push('1')?;
    text.push_str(repeated(alloc, closing, times)?.as_str())?;
    outcome(alloc, text.as_str())
}

#[test]
fn sixty_four_levels(rt: HostRuntime) -> Result<(), Fail> {
    let alloc = rt.alloc();
    for (opening, closing, inside, too_deep) in [
        ("(", ")", "1", "too deep 64"),
        ("-", "", "1", "too deep 64"),
        ("!", "", "true", "too deep 64"),
        ("abs(", ")", "1", "too deep 259"),
        ("\"#{", "}\"", "\"1\"", "too deep 193"),
    ] {
        let most = nested(alloc, opening, closing, 64)?;
        assert_eq!(rt; most.as_str(), inside, "at {opening}");
        let more = nested(alloc, opening, closing, 65)?;
        assert_eq!(rt; more.as_str(), too_deep, "at {opening}");
    }
    assert_eq!(rt; nested(alloc, "if(1, do: ", ")", 32)?.as_str(), "1");
    assert_eq!(rt;
        nested(alloc, "if(1, do: ", ")", 33)?.as_str(),
        "too deep 320"
    );
    Ok(())
}

#[test]
fn a_chain_of_a_hundred_thousand_operators(rt: HostRuntime) -> Result<(), Fail> {
    let alloc = rt.alloc();
    let mut text = repeated(alloc, "1+1-", 50000)?;
    text.push('1')?;
    assert_eq!(rt; outcome(alloc, text.as_str())?.as_str(), "1");
    let mut lists = repeated(alloc, "[]++", 100000)?;
    lists.push_str("[1]")?;
    assert_eq!(rt; outcome(alloc, lists.as_str())?.as_str(), "[1]");
    Ok(())
}
