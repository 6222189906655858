//! The trait can be met: views in memory, called through the trait alone.
ghost use Rattle.value_core.specs.View.{view as value_view, assigns_view};
ghost use Rattle.view_api.specs.View.{Means};

use std::alloc::Global;
use std::test::Fail;
use text_core::{ByKey, Text};
use value_core::{Assigns, Value};
use view_api::{Effects, Greeting, Owner, ViewFault, Views};

fn begin<V: Views>(
    alloc: Global,
    views: &V,
    view: u32,
    params: &Value,
) -> Result<Effects, ViewFault>
    ensures { Means result ((V.meaning views.now).mount view (value_view params.now)) }
{
    views.mount(alloc, view, params)
}

fn click<V: Views>(
    alloc: Global,
    views: &V,
    event: &Text,
    assigns: &Assigns,
) -> Result<Effects, ViewFault>
    ensures { Means result ((V.meaning views.now).handle_event (Owner.View 0) event.now (value_view Value.Nil) (assigns_view assigns.now)) }
{
    views.handle_event(alloc, Owner::View(0), event, &Value::Nil, assigns)
}

#[test]
fn a_greeting_and_a_raise(rt: HostRuntime) -> Result<(), Fail> {
    let alloc = rt.alloc();
    for (view, count) in [(0, Some(1)), (1, None)] {
        let answer = begin(alloc, &Greeting, view, &Value::Nil);
        assert_eq!(rt;
            answer.ok().map(|effects| effects.len()),
            count,
            "at {view}"
        );
    }
    let event = Text::copy_of(alloc, "click")?;
    let assigns = ByKey::new(alloc);
    assert_eq!(rt;
        click(alloc, &Greeting, &event, &assigns).err(),
        Some(ViewFault::Raised)
    );
    Ok(())
}
