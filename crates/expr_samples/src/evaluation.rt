//! Small expressions, against worked examples.
use ast_core::{BinaryOp, Expr, Function, Operand, PathStep};
use expr_eval::{Bindings, EvalFault, Variables, eval, eval_over};
use std::alloc::Global;
use std::test::Fail;
use text_core::{ByKey, KeyValue, OutOfMemory, Seq, Text};
use value_core::{Assigns, Raise, Value};

// The value of an expression where nothing is in scope.
fn evaluated(alloc: Global, expr: &Expr) -> Result<Value, EvalFault> {
    let assigns = ByKey::new(alloc);
    let variables = Variables::new(alloc);
    eval(alloc, &assigns, &variables, expr)
}

// The first value, and an operator with the second behind it as often as `count` says.
fn chain(
    alloc: Global,
    first: Expr,
    op: BinaryOp,
    second: i64,
    count: usize,
) -> Result<Expr, OutOfMemory> {
    let mut rest = Seq::new(alloc);
    for _ in 0..count {
        let value = Expr::Number(second);
        rest.push(Operand { op, value })?;
    }
    let first = Box::new(alloc, first)?;
    Ok(Expr::LeftChain { first, rest })
}

// One entry.
fn entry(alloc: Global, key: &str, value: Value) -> Result<Assigns, OutOfMemory> {
    let mut entries = ByKey::new(alloc);
    entries.insert(Text::copy_of(alloc, key)?, value)?;
    Ok(entries)
}

fn assign(alloc: Global, name: &str) -> Result<Expr, OutOfMemory> {
    Ok(Expr::Assign(Text::copy_of(alloc, name)?))
}

// `rows` with the list of 5 and 3.
fn rows(alloc: Global) -> Result<Assigns, OutOfMemory> {
    let mut items = Seq::new(alloc);
    items.push(Value::Int(5))?;
    items.push(Value::Int(3))?;
    entry(alloc, "rows", Value::List(items))
}

// Two lists, one after the other.
fn joined(alloc: Global, first: Expr, value: Expr) -> Result<Expr, OutOfMemory> {
    let mut rest = Seq::new(alloc);
    let op = BinaryOp::Append;
    rest.push(Operand { op, value })?;
    let first = Box::new(alloc, first)?;
    Ok(Expr::RightChain { first, rest })
}

// The entry of a map at an atom.
fn entry_at(alloc: Global, map: Expr, key: &str) -> Result<Expr, OutOfMemory> {
    let key = Text::copy_of(alloc, key)?;
    call_two(alloc, Function::Get, map, Expr::Atom(key))
}

// An operator between two expressions.
fn between(alloc: Global, first: Expr, op: BinaryOp, value: Expr) -> Result<Expr, OutOfMemory> {
    let mut rest = Seq::new(alloc);
    rest.push(Operand { op, value })?;
    let first = Box::new(alloc, first)?;
    Ok(Expr::LeftChain { first, rest })
}

// A call with one argument.
fn call_one(alloc: Global, function: Function, one: Expr) -> Result<Expr, OutOfMemory> {
    let mut arguments = Seq::new(alloc);
    arguments.push(one)?;
    Ok(Expr::Call {
        function,
        arguments,
    })
}

// A call with two arguments.
fn call_two(alloc: Global, function: Function, one: Expr, two: Expr) -> Result<Expr, OutOfMemory> {
    let mut arguments = Seq::new(alloc);
    arguments.push(one)?;
    arguments.push(two)?;
    Ok(Expr::Call {
        function,
        arguments,
    })
}

// The value of an expression over some assigns.
fn over(alloc: Global, assigns: &Assigns, expr: &Expr) -> Result<Value, EvalFault> {
    let variables = Variables::new(alloc);
    eval(alloc, assigns, &variables, expr)
}

#[test]
fn a_long_sum(rt: HostRuntime) -> Result<(), Fail> {
    let alloc = rt.alloc();
    let expr = chain(alloc, Expr::Number(-3), BinaryOp::Plus, 2, 100000)?;
    let value = evaluated(alloc, &expr)?;
    assert!(rt; matches!(&value, Value::Int(199997)));
    Ok(())
}

#[test]
fn a_number_out_of_range(rt: HostRuntime) -> Result<(), Fail> {
    let alloc = rt.alloc();
    let expr = chain(alloc, Expr::Number(i64::MAX), BinaryOp::Plus, 1, 1)?;
    assert_eq!(rt;
        evaluated(alloc, &expr).err(),
        Some(EvalFault::Raised(Raise::Range))
    );
    Ok(())
}

#[test]
fn an_absent_assign(rt: HostRuntime) -> Result<(), Fail> {
    let alloc = rt.alloc();
    let expr = Expr::Assign(Text::copy_of(alloc, "title")?);
    assert_eq!(rt;
        evaluated(alloc, &expr).err(),
        Some(EvalFault::Raised(Raise::NoAssign))
    );
    Ok(())
}

#[test]
fn a_number_is_no_boolean(rt: HostRuntime) -> Result<(), Fail> {
    let alloc = rt.alloc();
    let expr = chain(alloc, Expr::Number(1), BinaryOp::And, 2, 1)?;
    assert_eq!(rt;
        evaluated(alloc, &expr).err(),
        Some(EvalFault::Raised(Raise::BadBoolean))
    );
    Ok(())
}

#[test]
fn what_decides_alone(rt: HostRuntime) -> Result<(), Fail> {
    let alloc = rt.alloc();
    let expr = chain(alloc, Expr::Bool(false), BinaryOp::And, 2, 3)?;
    let value = evaluated(alloc, &expr)?;
    assert!(rt; matches!(&value, Value::Bool(false)));
    Ok(())
}

#[test]
fn a_path_of_three_fields(rt: HostRuntime) -> Result<(), Fail> {
    let alloc = rt.alloc();
    let city = entry(alloc, "city", Value::Int(7))?;
    let home = entry(alloc, "home", Value::Map(city))?;
    let user = entry(alloc, "user", Value::Map(home))?;
    let assigns = entry(alloc, "page", Value::Map(user))?;
    let mut steps = Seq::new(alloc);
    steps.push(PathStep::Field(Text::copy_of(alloc, "user")?))?;
    steps.push(PathStep::Field(Text::copy_of(alloc, "home")?))?;
    steps.push(PathStep::Field(Text::copy_of(alloc, "city")?))?;
    let value = Box::new(alloc, assign(alloc, "page")?)?;
    let path = Expr::Path { value, steps };
    let variables = Variables::new(alloc);
    let value = eval(alloc, &assigns, &variables, &path)?;
    assert!(rt; matches!(&value, Value::Int(7)));
    Ok(())
}

#[test]
fn an_index_of_nil(rt: HostRuntime) -> Result<(), Fail> {
    let alloc = rt.alloc();
    let user = entry(alloc, "user", Value::Int(7))?;
    let assigns = entry(alloc, "page", Value::Map(user))?;
    let mut steps = Seq::new(alloc);
    steps.push(PathStep::Index(Expr::Atom(Text::copy_of(alloc, "home")?)))?;
    steps.push(PathStep::Index(Expr::Atom(Text::copy_of(alloc, "city")?)))?;
    let value = Box::new(alloc, assign(alloc, "page")?)?;
    let path = Expr::Path { value, steps };
    let variables = Variables::new(alloc);
    let value = eval(alloc, &assigns, &variables, &path)?;
    assert!(rt; matches!(&value, Value::Nil));
    Ok(())
}

#[test]
fn given_over_others(rt: HostRuntime) -> Result<(), Fail> {
    let alloc = rt.alloc();
    let given = entry(alloc, "title", Value::Int(1))?;
    let mut assigns = entry(alloc, "title", Value::Int(2))?;
    assigns.insert(Text::copy_of(alloc, "count")?, Value::Int(3))?;
    let variables = Variables::new(alloc);
    let title = assign(alloc, "title")?;
    let value = eval_over(alloc, &given, &assigns, &variables, &title)?;
    assert!(rt; matches!(&value, Value::Int(1)));
    let count = assign(alloc, "count")?;
    let value = eval_over(alloc, &given, &assigns, &variables, &count)?;
    assert!(rt; matches!(&value, Value::Int(3)));
    let value = eval(alloc, &assigns, &variables, &title)?;
    assert!(rt; matches!(&value, Value::Int(2)));
    Ok(())
}

#[test]
fn a_list_in_scope_joined_to_itself(rt: HostRuntime) -> Result<(), Fail> {
    let alloc = rt.alloc();
    let assigns = rows(alloc)?;
    let twice = joined(alloc, assign(alloc, "rows")?, assign(alloc, "rows")?)?;
    let expr = call_one(alloc, Function::Length, twice)?;
    let value = over(alloc, &assigns, &expr)?;
    assert!(rt; matches!(&value, Value::Int(4)));
    Ok(())
}

#[test]
fn operands_come_before_their_kinds(rt: HostRuntime) -> Result<(), Fail> {
    let alloc = rt.alloc();
    let assigns = rows(alloc)?;
    let absent = assign(alloc, "absent")?;
    let expr = between(alloc, assign(alloc, "rows")?, BinaryOp::Plus, absent)?;
    assert_eq!(rt;
        over(alloc, &assigns, &expr).err(),
        Some(EvalFault::Raised(Raise::NoAssign))
    );
    Ok(())
}

#[test]
fn a_list_in_scope_is_not_nil(rt: HostRuntime) -> Result<(), Fail> {
    let alloc = rt.alloc();
    let assigns = rows(alloc)?;
    let expr = between(alloc, assign(alloc, "rows")?, BinaryOp::Equal, Expr::Nil)?;
    let value = over(alloc, &assigns, &expr)?;
    assert!(rt; matches!(&value, Value::Bool(false)));
    Ok(())
}

#[test]
fn an_entry_of_a_map_in_scope(rt: HostRuntime) -> Result<(), Fail> {
    let alloc = rt.alloc();
    let map = rows(alloc)?;
    let assigns = entry(alloc, "page", Value::Map(map))?;
    let expr = entry_at(alloc, assign(alloc, "page")?, "rows")?;
    let value = over(alloc, &assigns, &expr)?;
    assert!(rt; matches!(&value, Value::List(_)));
    Ok(())
}

#[test]
fn an_index_of_what_is_no_place(rt: HostRuntime) -> Result<(), Fail> {
    let alloc = rt.alloc();
    let mut steps = Seq::new(alloc);
    steps.push(PathStep::Index(Expr::Atom(Text::copy_of(alloc, "home")?)))?;
    let value = Box::new(alloc, Expr::Nil)?;
    let value = evaluated(alloc, &Expr::Path { value, steps })?;
    assert!(rt; matches!(&value, Value::Nil));
    Ok(())
}

#[test]
fn the_greater_is_a_number(rt: HostRuntime) -> Result<(), Fail> {
    let alloc = rt.alloc();
    let assigns = entry(alloc, "count", Value::Int(7))?;
    let count = assign(alloc, "count")?;
    let expr = call_two(alloc, Function::Max, count, Expr::Number(8))?;
    let value = over(alloc, &assigns, &expr)?;
    assert!(rt; matches!(&value, Value::Int(8)));
    Ok(())
}

// A list of bindings with one name.
fn bound(alloc: Global, name: &str, value: i64) -> Result<Bindings, OutOfMemory> {
    let mut bindings = Seq::new(alloc);
    bindings.push(KeyValue {
        key: Text::copy_of(alloc, name)?,
        value: Value::Int(value),
    })?;
    Ok(bindings)
}

// The number of a variable.
fn number_of(variables: &Variables, name: &str) -> Option<i64> {
    match variables.get(name) {
        Some(Value::Int(n)) => Some(*n),
        _ => None,
    }
}

#[test]
fn scopes_inside_others(rt: HostRuntime) -> Result<(), Fail> {
    let alloc = rt.alloc();
    let mut variables = Variables::of(alloc, Text::copy_of(alloc, "x")?, Value::Int(1))?;
    variables.enter(bound(alloc, "y", 2)?)?;
    variables.enter(bound(alloc, "x", 3)?)?;
    assert_eq!(rt; variables.depth(), 3);
    assert_eq!(rt; number_of(&variables, "x"), Some(3));
    assert_eq!(rt; number_of(&variables, "y"), Some(2));
    assert_eq!(rt; number_of(&variables, "z"), None);
    let inner = variables.leave().ok_or("no scope")?;
    assert_eq!(rt; inner.len(), 1);
    assert_eq!(rt; number_of(&variables, "x"), Some(1));
    assert_eq!(rt; variables.depth(), 2);
    Ok(())
}

#[test]
fn the_first_of_a_name_holds(rt: HostRuntime) -> Result<(), Fail> {
    let alloc = rt.alloc();
    let mut bindings = bound(alloc, "x", 1)?;
    bindings.push(KeyValue {
        key: Text::copy_of(alloc, "x")?,
        value: Value::Int(2),
    })?;
    let mut variables = Variables::new(alloc);
    variables.enter(bindings)?;
    let assigns = ByKey::new(alloc);
    let value = eval(
        alloc,
        &assigns,
        &variables,
        &Expr::Name(Text::copy_of(alloc, "x")?),
    )?;
    assert!(rt; matches!(&value, Value::Int(1)));
    Ok(())
}
