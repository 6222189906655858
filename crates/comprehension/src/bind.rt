//! What a pattern gives its names.
ghost use Rattle.std.specs.Prelude.{◌≡◌, IfOk, OnOk, map, option_map, if◌then◌else◌};
ghost use Rattle.value_core.specs.Value.{assign, no_assigns};
ghost use Rattle.value_core.specs.View.{view, values_view, assigns_view};
ghost use Rattle.ast_core.specs.PatternView.{pattern_view, patterns_of, keys_of};
ghost use Rattle.ast_core.specs.NamesIn.{pattern_pair_view};
ghost use Rattle.doc_model.specs.Environment.{lookup, over, binding, binding_all, binding_pairs, bindings};
ghost use Rattle.comprehension.specs.Bound.{behind, list_items, tuple_items, map_entries, has_key};

use crate::matching::matches;
use ast_core::{Pattern, PatternPair, PatternPairs, Patterns};
use expr_eval::Bindings;
use std::alloc::Global;
use text_core::{KeyValue, OutOfMemory, Seq, Text};
use value_core::{Assigns, Value, Values, copy};

/// What a pattern gives its names where it matches a value, and else nothing: of equal names the first holds. The names
/// take the value, or its parts.
pub fn binding(
    alloc: Global,
    pattern: &Pattern,
    value: Value,
) -> Result<Option<Bindings>, OutOfMemory>
    ensures { IfOk result (λ o. option_map assigns_view o ≡ binding (pattern_view pattern.now) (view value)) }
{
    bind(alloc, pattern, value, Seq::new(alloc))
}

/// What a pattern gives its names at each item that it matches, in order.
pub fn bindings(
    alloc: Global,
    pattern: &Pattern,
    items: Values,
) -> Result<Seq<Bindings>, OutOfMemory>
    ensures { IfOk result (λ rows. map assigns_view rows ≡ bindings (pattern_view pattern.now) (values_view items)) }
{
    let mut rows = Seq::new(alloc);
    'items: for item in items.into_vec() {
        if let Some(row) = binding(alloc, pattern, item)? {
            rows.push(row)?;
        }
    }
    Ok(rows)
}

// What a pattern binds, behind what is bound so far.
#[cycle(bind)]
fn bind(
    alloc: Global,
    pattern: &Pattern,
    value: Value,
    bound: Bindings,
) -> Result<Option<Bindings>, OutOfMemory>
    ensures { IfOk result (λ o. option_map assigns_view o ≡ behind bound (binding (pattern_view pattern.now) (view value))) }
{
    match pattern {
        Pattern::Any => Ok(Some(bound)),
        Pattern::Name(name) => Ok(Some(with_name(alloc, name, value, bound)?)),
        Pattern::Tuple(patterns) => match tuple_items(value) {
            Some(items) => bind_all(alloc, patterns, items, bound),
            None => Ok(None),
        },
        Pattern::List(patterns) => match list_items(value) {
            Some(items) => bind_all(alloc, patterns, items, bound),
            None => Ok(None),
        },
        Pattern::Map(pairs) => match map_entries(value) {
            Some(entries) => bind_pairs(alloc, pairs, entries, bound),
            None => Ok(None),
        },
        Pattern::Number(_)
        | Pattern::Text(_)
        | Pattern::Atom(_)
        | Pattern::Nil
        | Pattern::Bool(_) => Ok(kept(matches(pattern, &value), bound)),
    }
}

#[cycle(bind)]
fn bind_all(
    alloc: Global,
    patterns: &Patterns,
    items: Values,
    bound: Bindings,
) -> Result<Option<Bindings>, OutOfMemory>
    ensures { IfOk result (λ o. option_map assigns_view o ≡ behind bound (binding_all (patterns_of (map pattern_view patterns.now)) (values_view items))) }
{
    let mut items = items.into_vec().into_iter();
    let mut bound = bound;
    'patterns: for pattern in patterns.as_slice() {
        let Some(item) = items.next() else {
            return Ok(None);
        };
        let Some(more) = bind(alloc, pattern, item, bound)? else {
            return Ok(None);
        };
        bound = more;
    }
    Ok(kept(items.next().is_none(), bound))
}

#[cycle(bind)]
fn bind_pairs(
    alloc: Global,
    pairs: &PatternPairs,
    entries: Assigns,
    bound: Bindings,
) -> Result<Option<Bindings>, OutOfMemory>
    ensures { IfOk result (λ o. option_map assigns_view o ≡ behind bound (binding_pairs (keys_of (map pattern_pair_view pairs.now)) (assigns_view entries))) }
{
    let mut entries = entries;
    let mut bound = bound;
    let parts = pairs.as_slice();
    'parts: for i in 0..parts.len() {
        let pair = &parts[i];
        let (_, later) = parts.split_at(i + 1);
        let Some(value) = take(alloc, pair.key.as_str(), later, &mut entries)? else {
            return Ok(None);
        };
        let Some(more) = bind(alloc, &pair.pattern, value, bound)? else {
            return Ok(None);
        };
        bound = more;
    }
    Ok(Some(bound))
}

// The value of a key, taken out of a map. Where a later key of the pattern is the same, it is a copy.
fn take(
    alloc: Global,
    key: &str,
    later: &[PatternPair],
    entries: &mut Assigns,
) -> Result<Option<Value>, OutOfMemory>
    ensures value { IfOk result (λ o. option_map view o ≡ lookup key.now (assigns_view entries.old)) }
    ensures rest { OnOk result (binding_pairs (keys_of (map pattern_pair_view later.now)) (assigns_view entries.new)
        ≡ binding_pairs (keys_of (map pattern_pair_view later.now)) (assigns_view entries.old)) }
{
    if !has_key(key, later) {
        return Ok(entries.remove(key));
    }
    match entries.get(key) {
        Some(value) => Ok(Some(copy(alloc, value)?)),
        None => Ok(None),
    }
}

fn has_key(key: &str, pairs: &[PatternPair]) -> bool
    ensures { result ≡ has_key key.now (keys_of (map pattern_pair_view pairs.now)) }
{
    for pair in pairs {
        if pair.key.as_str() == key {
            return true;
        }
    }
    false
}

// A name with its value, behind the others.
fn with_name(
    alloc: Global,
    name: &Text,
    value: Value,
    bound: Bindings,
) -> Result<Bindings, OutOfMemory>
    ensures { IfOk result (λ more. assigns_view more ≡ over (assigns_view bound) (assign name.now (view value) no_assigns)) }
{
    let mut bound = bound;
    let key = name.copy(alloc)?;
    bound.push(KeyValue { key, value })?;
    Ok(bound)
}

// What is bound, where the rest of the pattern matches.
fn kept(matches: bool, bound: Bindings) -> Option<Bindings>
    ensures { result ≡ (if matches then Some bound else None) }
{
    if matches { Some(bound) } else { None }
}

fn list_items(value: Value) -> Option<Values>
    ensures { option_map values_view result ≡ list_items (view value) }
{
    match value {
        Value::List(items) => Some(items),
        _ => None,
    }
}

fn tuple_items(value: Value) -> Option<Values>
    ensures { option_map values_view result ≡ tuple_items (view value) }
{
    match value {
        Value::Tuple(items) => Some(items),
        _ => None,
    }
}

fn map_entries(value: Value) -> Option<Assigns>
    ensures { option_map assigns_view result ≡ map_entries (view value) }
{
    match value {
        Value::Map(entries) => Some(entries),
        _ => None,
    }
}
