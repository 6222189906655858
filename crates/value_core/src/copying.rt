//! Copies.
ghost use Rattle.std.specs.Prelude.{◌≡◌, IfOk};
ghost use Rattle.value_core.specs.View.{view, values_view, assigns_view};

use crate::{Assigns, SlotValue, Value, Values};
use std::alloc::Global;
use text_core::{ByKey, OutOfMemory, Seq};

/// A value that is the same.
#[cycle(copy)]
pub fn copy(alloc: Global, value: &Value) -> Result<Value, OutOfMemory>
    ensures { IfOk result (λ v. view v ≡ view value.now) }
{
    match value {
        Value::Nil => Ok(Value::Nil),
        Value::Bool(b) => Ok(Value::Bool(*b)),
        Value::Int(n) => Ok(Value::Int(*n)),
        Value::Text(text) => Ok(Value::Text(text.copy(alloc)?)),
        Value::Atom(text) => Ok(Value::Atom(text.copy(alloc)?)),
        Value::List(items) => Ok(Value::List(copy_values(alloc, items)?)),
        Value::Tuple(items) => Ok(Value::Tuple(copy_values(alloc, items)?)),
        Value::Map(entries) => Ok(Value::Map(copy_assigns(alloc, entries)?)),
        Value::Slot(slot) => Ok(Value::Slot(SlotValue {
            body: slot.body,
            names: copy_assigns(alloc, &slot.names)?,
            variables: copy_assigns(alloc, &slot.variables)?,
        })),
    }
}

/// A list of values that are the same.
#[cycle(copy)]
pub fn copy_values(alloc: Global, items: &Values) -> Result<Values, OutOfMemory>
    ensures { IfOk result (λ v. values_view v ≡ values_view items.now) }
{
    let mut copies = Seq::new(alloc);
    for item in items.as_slice() {
        copies.push(copy(alloc, item)?)?;
    }
    Ok(copies)
}

/// The same names with values that are the same.
#[cycle(copy)]
pub fn copy_assigns(alloc: Global, entries: &Assigns) -> Result<Assigns, OutOfMemory>
    ensures { IfOk result (λ v. assigns_view v ≡ assigns_view entries.now) }
{
    let mut copies = ByKey::new(alloc);
    for entry in entries.as_slice() {
        copies.push_last(entry.key.copy(alloc)?, copy(alloc, &entry.value)?)?;
    }
    Ok(copies)
}
