//! When two values are the same.
ghost use Rattle.std.specs.Prelude.{◌≡◌, ◌&&◌};
ghost use Rattle.std.specs.Str.{bytes_eq};
ghost use Rattle.value_core.specs.Value.{same as same_value, same_values, same_assigns};
ghost use Rattle.value_core.specs.View.{view, values_view, assigns_view};

use crate::{Assigns, Value};
use text_core::Text;

/// Whether two values are the same: of one kind, with the same parts.
#[cycle(same)]
pub fn same(a: &Value, b: &Value) -> bool
    ensures { result ≡ same_value (view a.now) (view b.now) }
{
    match (a, b) {
        (Value::Nil, Value::Nil) => true,
        (Value::Bool(x), Value::Bool(y)) => *x == *y,
        (Value::Int(x), Value::Int(y)) => *x == *y,
        (Value::Text(x), Value::Text(y)) => x.as_str() == y.as_str(),
        (Value::Atom(x), Value::Atom(y)) => x.as_str() == y.as_str(),
        (Value::List(x), Value::List(y)) => same_items(x.as_slice(), y.as_slice()),
        (Value::Tuple(x), Value::Tuple(y)) => same_items(x.as_slice(), y.as_slice()),
        (Value::Map(x), Value::Map(y)) => same_entries(x, y),
        (Value::Slot(x), Value::Slot(y)) => {
            x.body == y.body
                && same_entries(&x.names, &y.names)
                && same_entries(&x.variables, &y.variables)
        }
        _ => false,
    }
}

#[cycle(same)]
fn same_items(a: &[Value], b: &[Value]) -> bool
    ensures { result ≡ same_values (values_view a.now) (values_view b.now) }
{
    if a.len() != b.len() {
        return false;
    }
    for i in 0..a.len() {
        if !same(&a[i], &b[i]) {
            return false;
        }
    }
    true
}

#[cycle(same)]
fn same_entries(a: &Assigns, b: &Assigns) -> bool
    ensures { result ≡ same_assigns (assigns_view a.now) (assigns_view b.now) }
{
    let a = a.as_slice();
    let b = b.as_slice();
    if a.len() != b.len() {
        return false;
    }
    for i in 0..a.len() {
        if !same_entry(&a[i].key, &a[i].value, &b[i].key, &b[i].value) {
            return false;
        }
    }
    true
}

#[cycle(same)]
fn same_entry(k: &Text, a: &Value, l: &Text, b: &Value) -> bool
    ensures { result ≡ (bytes_eq k.now l.now && same_value (view a.now) (view b.now)) }
{
    k.as_str() == l.as_str() && same(a, b)
}
