//! The value of a form's text.
ghost use Rattle.std.specs.Prelude.{◌≡◌, ◌≤◌, IfOk};
ghost use Rattle.value_core.specs.Nesting.{depth_of};
ghost use Rattle.value_core.specs.View.{view};
ghost use Rattle.params_core.specs.Form.{form_value};

use crate::path::path_of;
use crate::putting::put_at;
use std::alloc::Global;
use text_core::{ByKey, OutOfMemory, Text};
use value_core::Value;

/// The value of a form's or a query's text: a map that nests at most 100 deep. Every text has one.
pub fn read_form(alloc: Global, text: &str) -> Result<Value, OutOfMemory>
    ensures value { IfOk result (λ v. view v ≡ form_value text.now) }
    ensures nests { IfOk result (λ v. depth_of (view v) ≤ 100) }
{
    let mut form = Value::Map(ByKey::new(alloc));
    for pair in form_urlencoded::parse(alloc, text.as_bytes()).into_owned() {
        let (key, value) = pair?;
        let path = path_of(alloc, key.as_str())?;
        form = put_at(alloc, path.as_slice(), Text::from_string(value), Some(form))?;
    }
    Ok(form)
}
