//! Patterns and the values that they meet, each with what the pattern binds; and what generators go over.
use ast_core::{Expr, Pattern};
use comprehension::{ItemsFault, binding, bindings, items, matches};
use expr_core::{read_expr, read_pattern};
use expr_eval::{Bindings, Variables, eval};
use std::alloc::Global;
use std::test::Fail;
use text_core::{ByKey, Seq};
use value_core::{Value, to_json};

const NAMES_AND_LITERALS: &str =
    "_ <- 1  =>  nothing\nx <- 1  =>  x = 1\nx <- [1, 2]  =>  x = [1,2]\nx <- nil  =>  x = null\n1 <- 1  =>  nothing\n1 <- 2  =>  no match\n1 <- \"1\"  =>  no match\n\"a\" <- \"a\"  =>  nothing\n\"a\" <- \"b\"  =>  no match\n\"a\" <- :a  =>  no match\n:a <- :a  =>  nothing\n:a <- :b  =>  no match\n:a <- \"a\"  =>  no match\nnil <- nil  =>  nothing\nnil <- false  =>  no match\ntrue <- true  =>  nothing\ntrue <- false  =>  no match\nfalse <- nil  =>  no match";

const LISTS_AND_TUPLES: &str =
    "[] <- []  =>  nothing\n[] <- [1]  =>  no match\n[] <- {}  =>  no match\n{} <- {}  =>  nothing\n{} <- []  =>  no match\n{} <- {1}  =>  no match\n[x] <- [1]  =>  x = 1\n[x] <- [1, 2]  =>  no match\n[x, y] <- [1]  =>  no match\n[x, y] <- [1, \"a\"]  =>  x = 1, y = \"a\"\n[x, 2] <- [1, 2]  =>  x = 1\n[x, 2] <- [1, 3]  =>  no match\n[x] <- {1}  =>  no match\n{x} <- [1]  =>  no match\n{:ok, x} <- {:ok, 7}  =>  x = 7\n{:ok, x} <- {:error, 7}  =>  no match\n{x, y} <- {1, 2, 3}  =>  no match\n[x, [y, {z, _}]] <- [1, [2, {3, 4}]]  =>  x = 1, y = 2, z = 3\n[x, [y, {z, 5}]] <- [1, [2, {3, 4}]]  =>  no match\n[x] <- 1  =>  no match";

const MAPS: &str =
    "%{} <- %{}  =>  nothing\n%{} <- %{a: 1}  =>  nothing\n%{} <- []  =>  no match\n%{a: x} <- %{a: 1, b: 2}  =>  x = 1\n%{a: x} <- %{b: 2}  =>  no match\n%{b: x, a: y} <- %{a: 1, b: 2}  =>  x = 2, y = 1\n%{a: x, a: y} <- %{a: 1}  =>  x = 1, y = 1\n%{a: 1, a: 2} <- %{a: 1}  =>  no match\n%{a: %{b: [x, _]}} <- %{a: %{b: [1, 2], c: 3}}  =>  x = 1\n%{a: nil} <- %{a: nil}  =>  nothing\n%{a: nil} <- %{b: 1}  =>  no match\n%{a: x} <- nil  =>  no match";

const GENERATORS: &str =
    "x <- []  =>  \nx <- [1, 2]  =>  x = 1; x = 2\n{:ok, x} <- [{:ok, 1}, {:error, 2}, 3, {:ok, 4}]  =>  x = 1; x = 4\n_ <- [1, 2]  =>  nothing; nothing\n[x, y] <- [[1, 2], [3]]  =>  x = 1, y = 2\n{k, v} <- %{b: 2, a: 1}  =>  k = \"a\", v = 1; k = \"b\", v = 2\n{\"b\", v} <- %{b: 2, a: 1}  =>  v = 2\nx <- %{}  =>  \nx <- 1  =>  raises\nx <- nil  =>  raises\nx <- \"ab\"  =>  raises\nx <- {1, 2}  =>  raises\nx <- :a  =>  raises\nx <- true  =>  raises";

fn pattern(alloc: Global, text: &str) -> Result<Pattern, Fail> {
    Ok(read_pattern(alloc, text).ok().ok_or("no pattern")?)
}

fn value(alloc: Global, text: &str) -> Result<Value, Fail> {
    let expr: Expr = read_expr(alloc, text).ok().ok_or("no expression")?;
    let assigns = ByKey::new(alloc);
    Ok(
        eval(alloc, &assigns, &Variables::new(alloc), &expr)
            .ok()
            .ok_or("no value")?,
    )
}

// What is bound: each name with its value, in order.
fn shown(alloc: Global, bindings: &Bindings) -> Result<String, Fail> {
    let mut shown = String::new(alloc);
    for binding in bindings.as_slice() {
        if !shown.is_empty() {
            shown.push_str(", ")?;
        }
        let name = binding.key.as_str();
        let json = to_json(alloc, &binding.value)
            .ok()
            .ok_or("no JSON of the value")?;
        shown.push_str(format!(in alloc; "{name} = {json}")?.as_str())?;
    }
    if shown.is_empty() {
        shown.push_str("nothing")?;
    }
    Ok(shown)
}

// What a pattern binds at a value.
fn matched(alloc: Global, pattern: &Pattern, value: Value) -> Result<String, Fail> {
    let matched = matches(pattern, &value);
    match binding(alloc, pattern, value)? {
        Some(bindings) if matched => shown(alloc, &bindings),
        None if !matched => Ok(String::from_str(alloc, "no match")?),
        _ => Err("matches and binding differ")?,
    }
}

// What a pattern binds at each item.
fn generated(alloc: Global, pattern: &Pattern, value: Value) -> Result<String, Fail> {
    let items = match items(alloc, value) {
        Ok(items) => items,
        Err(ItemsFault::Raised) => return Ok(String::from_str(alloc, "raises")?),
        Err(ItemsFault::OutOfMemory) => return Err("out of memory")?,
    };
    let rows: Seq<Bindings> = bindings(alloc, pattern, items)?;
    let mut all = String::new(alloc);
    for row in rows.as_slice() {
        if !all.is_empty() {
            all.push_str("; ")?;
        }
        all.push_str(shown(alloc, row)?.as_str())?;
    }
    Ok(all)
}

// What a row comes to, and what it says.
fn outcome(alloc: Global, text: &str, generates: bool) -> Result<String, Fail> {
    let Some((left, right)) = text.split_once(" <- ") else {
        return Err("no row")?;
    };
    let pattern = pattern(alloc, left)?;
    let value = value(alloc, right)?;
    if generates {
        generated(alloc, &pattern, value)
    } else {
        matched(alloc, &pattern, value)
    }
}

// The first row of a table that does not come to what it says, with what it comes to; or nothing.
fn first_wrong(alloc: Global, table: &str, generates: bool) -> Result<String, Fail> {
    for row in table.lines() {
        let Some((text, expected)) = row.split_once("  =>  ") else {
            return Err("no row")?;
        };
        let found = outcome(alloc, text, generates)?;
        if found.as_str() != expected {
            let found = found.as_str();
            return Ok(format!(in alloc; "{row}, and not {found}")?);
        }
    }
    Ok(String::new(alloc))
}

#[test]
fn patterns_and_what_they_bind(rt: HostRuntime) -> Result<(), Fail> {
    let alloc = rt.alloc();
    for table in [NAMES_AND_LITERALS, LISTS_AND_TUPLES, MAPS] {
        let wrong = first_wrong(alloc, table, false)?;
        assert_eq!(rt; wrong.as_str(), "");
    }
    Ok(())
}

#[test]
fn generators_and_their_rows(rt: HostRuntime) -> Result<(), Fail> {
    let alloc = rt.alloc();
    let wrong = first_wrong(alloc, GENERATORS, true)?;
    assert_eq!(rt; wrong.as_str(), "");
    Ok(())
}
