//! Which values a pattern matches.
ghost use Rattle.std.specs.Prelude.{◌≡◌, map, is_some};
ghost use Rattle.value_core.specs.View.{view, values_view, assigns_view};
ghost use Rattle.ast_core.specs.PatternView.{pattern_view, patterns_of, keys_of};
ghost use Rattle.ast_core.specs.NamesIn.{pattern_pair_view};
ghost use Rattle.doc_model.specs.Environment.{binding, binding_all, binding_pairs};

use ast_core::{Pattern, PatternPairs, Patterns};
use value_core::{Assigns, Value, Values};

/// Whether a pattern matches a value: exactly where `binding` binds something, if only no name.
#[cycle(matching)]
pub fn matches(pattern: &Pattern, value: &Value) -> bool
    ensures { result ≡ is_some (binding (pattern_view pattern.now) (view value.now)) }
{
    match (pattern, value) {
        (Pattern::Any, _) => true,
        (Pattern::Name(_), _) => true,
        (Pattern::Number(n), Value::Int(m)) => *n == *m,
        (Pattern::Text(text), Value::Text(other)) => text.as_str() == other.as_str(),
        (Pattern::Atom(name), Value::Atom(other)) => name.as_str() == other.as_str(),
        (Pattern::Nil, Value::Nil) => true,
        (Pattern::Bool(b), Value::Bool(c)) => *b == *c,
        (Pattern::Tuple(patterns), Value::Tuple(items)) => all_match(patterns, items),
        (Pattern::List(patterns), Value::List(items)) => all_match(patterns, items),
        (Pattern::Map(pairs), Value::Map(entries)) => pairs_match(pairs, entries),
        _ => false,
    }
}

#[cycle(matching)]
fn all_match(patterns: &Patterns, items: &Values) -> bool
    ensures { result ≡ is_some (binding_all (patterns_of (map pattern_view patterns.now)) (values_view items.now)) }
{
    let parts = patterns.as_slice();
    let values = items.as_slice();
    if parts.len() != values.len() {
        return false;
    }
    'parts: for i in 0..parts.len() {
        if !matches(&parts[i], &values[i]) {
            return false;
        }
    }
    true
}

#[cycle(matching)]
fn pairs_match(pairs: &PatternPairs, entries: &Assigns) -> bool
    ensures { result ≡ is_some (binding_pairs (keys_of (map pattern_pair_view pairs.now)) (assigns_view entries.now)) }
{
    'pairs: for pair in pairs.as_slice() {
        let Some(value) = entries.get(pair.key.as_str()) else {
            return false;
        };
        if !matches(&pair.pattern, value) {
            return false;
        }
    }
    true
}
