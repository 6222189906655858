//! The entries of maps, and of the names in scope.
ghost use Rattle.std.specs.Prelude.{◌≡◌, ℕ, List, Ok, option_map};
ghost use Rattle.value_core.specs.Value.{nil};
ghost use Rattle.value_core.specs.View.{view, assigns_view};
ghost use Rattle.value_core.specs.declared.raise.Raise.TheVariants as raise;
ghost use Rattle.doc_model.specs.Environment.{lookup as lookup_in};
ghost use Rattle.doc_model.specs.Evaluation.{or_raise, on_res, or_value, key_of as key_in, field_of, index_of, entry_at, is_some as is_there};
ghost use Rattle.expr_eval.specs.Gives.{Gives, truth_as_is};
ghost use Rattle.expr_eval.specs.Held.{held_view};
ghost use Rattle.expr_eval.specs.Scope.{seen, place_view};

use crate::EvalFault;
use crate::held::Held;
use crate::judge::key_of;
use std::alloc::Global;
use value_core::{Assigns, Raise, Value, copy};

/// A value where it stands, if there is one.
pub(crate) fn found<'a>(value: Option<&'a Value>, absent: Raise) -> Result<Held<'a>, EvalFault>
    ensures { Gives held_view result (or_raise (seen value.entry) absent) }
{
    match value {
        Some(value) => Ok(Held::Borrowed(value)),
        None => Err(EvalFault::Raised(absent)),
    }
}

/// A copy of what a path has come to.
pub(crate) fn copied(alloc: Global, at: Option<&Value>) -> Result<Value, EvalFault>
    ensures { Gives view result (Ok (place_view at.entry)) }
{
    match at {
        Some(value) => Ok(copy(alloc, value)?),
        None => Ok(Value::Nil),
    }
}

/// `m.k`, where it stands.
pub(crate) fn field<'a>(at: Option<&'a Value>, key: &str) -> Result<Option<&'a Value>, EvalFault>
    ensures { Gives place_view result (field_of key.now (place_view at.entry)) }
{
    match at {
        Some(value) => field_in(value, key),
        None => Err(EvalFault::Raised(Raise::BadArgument)),
    }
}

fn field_in<'a>(value: &'a Value, key: &str) -> Result<Option<&'a Value>, EvalFault>
    ensures { Gives place_view result (field_of key.now (view value.now)) }
{
    match value {
        Value::Map(entries) => entry(entries, key),
        _ => Err(EvalFault::Raised(Raise::BadArgument)),
    }
}

fn entry<'a>(entries: &'a Assigns, key: &str) -> Result<Option<&'a Value>, EvalFault>
    ensures { Gives place_view result (or_raise (lookup_in key.now (assigns_view entries.now)) raise.NoKey) }
{
    match entries.get(key) {
        Some(value) => Ok(Some(value)),
        None => Err(EvalFault::Raised(Raise::NoKey)),
    }
}

/// `m[k]`, where it stands: nothing stands for nil.
pub(crate) fn index<'a>(
    at: Option<&'a Value>,
    key: Held<'_>,
) -> Result<Option<&'a Value>, EvalFault>
    ensures { Gives place_view result (index_of (place_view at.entry) (held_view key.entry)) }
{
    index_by(at, key.value())
}

fn index_by<'a>(at: Option<&'a Value>, key: &Value) -> Result<Option<&'a Value>, EvalFault>
    ensures { Gives place_view result (index_of (place_view at.entry) (view key.now)) }
{
    match at {
        Some(value) => index_in(value, key),
        None => nil_at(key),
    }
}

fn index_in<'a>(value: &'a Value, key: &Value) -> Result<Option<&'a Value>, EvalFault>
    ensures { Gives place_view result (index_of (view value.now) (view key.now)) }
{
    match value {
        Value::Map(entries) => entry_or_none(entries, key),
        Value::Nil => nil_at(key),
        _ => Err(EvalFault::Raised(Raise::BadArgument)),
    }
}

// Nil has nil at every key.
fn nil_at<'a>(key: &Value) -> Result<Option<&'a Value>, EvalFault>
    ensures { Gives place_view result (on_res (λ (k : List ℕ). nil) (key_in (view key.now))) }
{
    match key_of(key) {
        Some(_) => Ok(None),
        None => Err(EvalFault::Raised(Raise::BadArgument)),
    }
}

/// The value at a key of a map, or else the default.
pub(crate) fn get<'a>(
    alloc: Global,
    map: &Held<'a>,
    key: &Value,
    default: &Held<'a>,
) -> Result<Held<'a>, EvalFault>
    ensures { Gives held_view result (on_res (or_value (held_view default.now)) (entry_at (held_view map.now) (view key.now))) }
{
    match entry_held(alloc, map, key)? {
        Some(value) => Ok(value),
        None => Ok(default.again(alloc)?),
    }
}

/// The value at a key of a map, or else nil.
pub(crate) fn get_or_nil<'a>(
    alloc: Global,
    map: &Held<'a>,
    key: &Value,
) -> Result<Held<'a>, EvalFault>
    ensures { Gives held_view result (on_res (or_value nil) (entry_at (held_view map.now) (view key.now))) }
{
    match entry_held(alloc, map, key)? {
        Some(value) => Ok(value),
        None => Ok(Held::Owned(Value::Nil)),
    }
}

// The entry of a map: a part of what stands in scope stands there too.
fn entry_held<'a>(alloc: Global, map: &Held<'a>, key: &Value) -> Result<Option<Held<'a>>, EvalFault>
    ensures { Gives (option_map held_view) result (entry_at (held_view map.now) (view key.now)) }
{
    match map {
        Held::Borrowed(map) => Ok(standing(entry_of(*map, key)?)),
        Held::Owned(map) => copied_out(alloc, entry_of(map, key)?),
    }
}

fn standing<'a>(value: Option<&'a Value>) -> Option<Held<'a>>
    ensures { option_map held_view result ≡ seen value.entry }
{
    match value {
        Some(value) => Some(Held::Borrowed(value)),
        None => None,
    }
}

fn copied_out<'a>(alloc: Global, value: Option<&Value>) -> Result<Option<Held<'a>>, EvalFault>
    ensures { Gives (option_map held_view) result (Ok (seen value.entry)) }
{
    match value {
        Some(value) => Ok(Some(Held::Owned(copy(alloc, value)?))),
        None => Ok(None),
    }
}

// The entry of a map, where it stands.
fn entry_of<'a>(map: &'a Value, key: &Value) -> Result<Option<&'a Value>, EvalFault>
    ensures { Gives seen result (entry_at (view map.now) (view key.now)) }
{
    match map {
        Value::Map(entries) => entry_or_none(entries, key),
        _ => Err(EvalFault::Raised(Raise::BadArgument)),
    }
}

fn entry_or_none<'a>(entries: &'a Assigns, key: &Value) -> Result<Option<&'a Value>, EvalFault>
    ensures { Gives seen result (on_res (λ k. lookup_in k (assigns_view entries.now)) (key_in (view key.now))) }
{
    match key_of(key) {
        Some(key) => Ok(entries.get(key)),
        None => Err(EvalFault::Raised(Raise::BadArgument)),
    }
}

/// Whether a map has a key.
pub(crate) fn has_key(map: &Value, key: &Value) -> Result<bool, EvalFault>
    ensures { Gives truth_as_is result (on_res is_there (entry_at (view map.now) (view key.now))) }
{
    match map {
        Value::Map(entries) => has_entry(entries, key),
        _ => Err(EvalFault::Raised(Raise::BadArgument)),
    }
}

fn has_entry(entries: &Assigns, key: &Value) -> Result<bool, EvalFault>
    ensures { Gives truth_as_is result (on_res (λ k. is_there (lookup_in k (assigns_view entries.now))) (key_in (view key.now))) }
{
    match key_of(key) {
        Some(key) => Ok(entries.contains(key)),
        None => Err(EvalFault::Raised(Raise::BadArgument)),
    }
}
