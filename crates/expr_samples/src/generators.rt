//! Small patterns, against worked examples. `expr_samples` has a table of texts.
use ast_core::{Pattern, PatternPair};
use comprehension::{ItemsFault, binding, bindings, items, matches};
use expr_eval::Bindings;
use std::alloc::Global;
use std::test::Fail;
use text_core::{ByKey, OutOfMemory, Seq, Text};
use value_core::{Assigns, Value, Values};

fn name(alloc: Global, name: &str) -> Result<Pattern, OutOfMemory> {
    Ok(Pattern::Name(Text::copy_of(alloc, name)?))
}

// A list pattern of two.
fn both(alloc: Global, first: Pattern, second: Pattern) -> Result<Pattern, OutOfMemory> {
    let mut patterns = Seq::new(alloc);
    patterns.push(first)?;
    patterns.push(second)?;
    Ok(Pattern::List(patterns))
}

// A map pattern that has one key twice.
fn twice(
    alloc: Global,
    key: &str,
    first: Pattern,
    second: Pattern,
) -> Result<Pattern, OutOfMemory> {
    let mut pairs = Seq::new(alloc);
    pairs.push(PatternPair {
        key: Text::copy_of(alloc, key)?,
        pattern: first,
    })?;
    pairs.push(PatternPair {
        key: Text::copy_of(alloc, key)?,
        pattern: second,
    })?;
    Ok(Pattern::Map(pairs))
}

fn numbers(alloc: Global, numbers: &[i64]) -> Result<Values, OutOfMemory> {
    let mut values = Seq::new(alloc);
    for number in numbers {
        values.push(Value::Int(*number))?;
    }
    Ok(values)
}

// A map of two keys.
fn entries(alloc: Global) -> Result<Assigns, OutOfMemory> {
    let mut entries = ByKey::new(alloc);
    entries.insert(Text::copy_of(alloc, "b")?, Value::Int(2))?;
    entries.insert(Text::copy_of(alloc, "a")?, Value::Int(1))?;
    Ok(entries)
}

// The number of the binding at a place, where it has that name.
fn bound_at(bindings: &Bindings, place: usize, name: &str) -> Option<i64> {
    match bindings.as_slice().get(place) {
        Some(binding) if binding.key.as_str() == name => match &binding.value {
            Value::Int(n) => Some(*n),
            _ => None,
        },
        _ => None,
    }
}

#[test]
fn a_name_twice(rt: HostRuntime) -> Result<(), Fail> {
    let alloc = rt.alloc();
    let pattern = both(alloc, name(alloc, "x")?, name(alloc, "x")?)?;
    let value = Value::List(numbers(alloc, &[1, 2])?);
    assert!(rt; matches(&pattern, &value));
    let bound = binding(alloc, &pattern, value)?.ok_or("no match")?;
    assert_eq!(rt; bound.len(), 2);
    assert_eq!(rt; bound_at(&bound, 0, "x"), Some(1));
    assert_eq!(rt; bound_at(&bound, 1, "x"), Some(2));
    Ok(())
}

#[test]
fn a_key_twice(rt: HostRuntime) -> Result<(), Fail> {
    let alloc = rt.alloc();
    let pattern = twice(alloc, "a", name(alloc, "x")?, name(alloc, "y")?)?;
    let value = Value::Map(entries(alloc)?);
    assert!(rt; matches(&pattern, &value));
    let bound = binding(alloc, &pattern, value)?.ok_or("no match")?;
    assert_eq!(rt; bound_at(&bound, 0, "x"), Some(1));
    assert_eq!(rt; bound_at(&bound, 1, "y"), Some(1));
    Ok(())
}

#[test]
fn a_longer_list(rt: HostRuntime) -> Result<(), Fail> {
    let alloc = rt.alloc();
    let pattern = both(alloc, name(alloc, "x")?, Pattern::Any)?;
    let value = Value::List(numbers(alloc, &[1, 2, 3])?);
    assert!(rt; !matches(&pattern, &value));
    assert!(rt; binding(alloc, &pattern, value)?.is_none());
    Ok(())
}

#[test]
fn rows_of_the_items_that_match(rt: HostRuntime) -> Result<(), Fail> {
    let alloc = rt.alloc();
    let mut list = numbers(alloc, &[1])?;
    list.push(Value::List(numbers(alloc, &[2, 3])?))?;
    list.push(Value::List(numbers(alloc, &[4, 5])?))?;
    let pattern = both(alloc, Pattern::Any, name(alloc, "x")?)?;
    let rows = bindings(alloc, &pattern, items(alloc, Value::List(list))?)?;
    assert_eq!(rt; rows.len(), 2);
    assert_eq!(rt; bound_at(&rows.as_slice()[0], 0, "x"), Some(3));
    assert_eq!(rt; bound_at(&rows.as_slice()[1], 0, "x"), Some(5));
    Ok(())
}

#[test]
fn the_items_of_a_map(rt: HostRuntime) -> Result<(), Fail> {
    let alloc = rt.alloc();
    let pairs = items(alloc, Value::Map(entries(alloc)?))?;
    assert_eq!(rt; pairs.len(), 2);
    let mut patterns = Seq::new(alloc);
    patterns.push(Pattern::Text(Text::copy_of(alloc, "b")?))?;
    patterns.push(name(alloc, "x")?)?;
    let rows = bindings(alloc, &Pattern::Tuple(patterns), pairs)?;
    assert_eq!(rt; rows.len(), 1);
    assert_eq!(rt; bound_at(&rows.as_slice()[0], 0, "x"), Some(2));
    Ok(())
}

#[test]
fn a_number_has_no_items(rt: HostRuntime) -> Result<(), Fail> {
    let alloc = rt.alloc();
    assert_eq!(rt; items(alloc, Value::Int(1)).err(), Some(ItemsFault::Raised));
    Ok(())
}
