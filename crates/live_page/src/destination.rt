//! Where a URL leads.
ghost use Rattle.std.specs.Prelude.{◌≡◌, IfOk};
ghost use Rattle.value_core.specs.View.{view, assigns_view};
ghost use Rattle.route_table.specs.Found.{seen};
ghost use Rattle.live_page.specs.World.{put_over, over_query, route_of, destination_view};

use params_core::read_form;
use route_table::Found;
use std::alloc::Global;
use text_core::{KeyValue, OutOfMemory};
use value_core::{Assigns, Value};

/// The view that a URL leads to, and the params of its page.
#[derive(Debug, Drop)]
pub struct Destination {
    pub view: u32,
    pub params: Value,
}

/// The destination that a route leads to.
pub(crate) fn leads_to(alloc: Global, found: Found) -> Result<Destination, OutOfMemory>
    ensures { IfOk result (λ to. destination_view to ≡ route_of (seen found)) }
{
    let Found {
        view,
        parameters,
        query,
    } = found;
    let form = read_form(alloc, query.as_str())?;
    let params = over_query(parameters, form)?;
    Ok(Destination { view, params })
}

// Parameters over the value of a query.
fn over_query(parameters: Assigns, query: Value) -> Result<Value, OutOfMemory>
    ensures { IfOk result (λ v. view v ≡ over_query (assigns_view parameters) (view query)) }
{
    match query {
        Value::Map(entries) => Ok(Value::Map(put_over(parameters, entries)?)),
        other => Ok(other),
    }
}

fn put_over(parameters: Assigns, entries: Assigns) -> Result<Assigns, OutOfMemory>
    ensures { IfOk result (λ es. assigns_view es ≡ put_over (assigns_view parameters) (assigns_view entries)) }
{
    let mut entries = entries;
    'parameters: for parameter in parameters.into_vec() {
        let KeyValue { key, value } = parameter;
        entries.insert(key, value)?;
    }
    Ok(entries)
}
