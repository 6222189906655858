//! Events whose payloads are values.
ghost use Rattle.std.specs.Prelude.{◌≡◌, Some, None, IfOk, IsErrOf};
ghost use Rattle.serde_json.specs.View.{view as json_view};
ghost use Rattle.value_core.specs.View.{view};
ghost use Rattle.value_core.specs.Json.{json_of_value};

use diff_tree::Push;
use std::alloc::Global;
use text_core::Text;
use value_core::{ToJsonFault, Value, to_json};

/// An event of this name whose payload is the JSON value that the value is written as. It answers
/// NoJson exactly where the value is not written as JSON.
pub fn push_of_value(alloc: Global, name: Text, value: &Value) -> Result<Push, ToJsonFault>
    ensures name { IfOk result (λ p. p.name ≡ name) }
    ensures payload { IfOk result (λ p. json_of_value (view value.now) ≡ Some (json_view p.payload)) }
    ensures refused { IsErrOf result ToJsonFault.NoJson → json_of_value (view value.now) ≡ None }
{
    match Push::new(name, to_json(alloc, value)?) {
        Some(push) => Ok(push),
        None => Err(ToJsonFault::NoJson),
    }
}
