//! What a generator goes over.
ghost use Rattle.std.specs.Prelude.{◌≡◌, IfOk};
ghost use Rattle.value_core.specs.Value.{tuple, text, value as before, no_values};
ghost use Rattle.value_core.specs.View.{view, values_view, assigns_view};
ghost use Rattle.doc_model.specs.Calls.{items_of, pair_values};
ghost use Rattle.comprehension.specs.Items.{GivesItems};

use std::alloc::Global;
use text_core::{KeyValue, OutOfMemory, Seq, Text};
use value_core::{Assigns, Value, Values};

/// Why a value has no items.
#[derive(Clone, Copy, Debug, PartialEq, Eq)]
pub enum ItemsFault {
    /// It is no list and no map: a bad argument.
    Raised,
    /// Memory was wanting.
    OutOfMemory,
}

impl From<OutOfMemory> for ItemsFault {
    ghost use Rattle.std.specs.Prelude.{◌≡◌};
    ghost use Rattle.comprehension.specs.declared.generator.ItemsFault.TheVariants as fault;

    ghost from_gives = { λ _ e. e ≡ fault.OutOfMemory };

    fn from(_: OutOfMemory) -> ItemsFault {
        ItemsFault::OutOfMemory
    }
}

/// The items of a list, or the entries of a map as pairs `{key, value}` in byte order of the keys. Any other value
/// raises. The items are moved.
pub fn items(alloc: Global, value: Value) -> Result<Values, ItemsFault>
    ensures { GivesItems result (items_of (view value)) }
{
    match value {
        Value::List(items) => Ok(items),
        Value::Map(entries) => Ok(pairs(alloc, entries)?),
        _ => Err(ItemsFault::Raised),
    }
}

// The entries of a map, as pairs.
fn pairs(alloc: Global, entries: Assigns) -> Result<Values, OutOfMemory>
    ensures { IfOk result (λ vs. values_view vs ≡ pair_values (assigns_view entries)) }
{
    let mut pairs = Seq::new(alloc);
    'entries: for KeyValue { key, value } in entries.into_vec() {
        pairs.push(pair(alloc, key, value)?)?;
    }
    Ok(pairs)
}

// A key and its value, as a tuple.
fn pair(alloc: Global, key: Text, value: Value) -> Result<Value, OutOfMemory>
    ensures { IfOk result (λ p. view p ≡ tuple (before (text key) (before (view value) no_values))) }
{
    let mut pair = Seq::new(alloc);
    pair.push(Value::Text(key))?;
    pair.push(value)?;
    Ok(Value::Tuple(pair))
}
