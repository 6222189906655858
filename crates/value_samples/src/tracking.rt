//! What counts as changed, in one table.
use assigns_track::Tracked;
use std::alloc::Global;
use std::test::Fail;
use text_core::OutOfMemory;
use value_core::Value;

// Assigns each number to `n` in turn, and settles at each 0.
fn tracked_by(alloc: Global, steps: &[i64]) -> Result<Tracked, OutOfMemory> {
    let mut tracked = Tracked::new(alloc);
    for step in steps {
        if *step == 0 {
            tracked.settle();
        } else {
            tracked.assign("n", Value::Int(*step))?;
        }
    }
    Ok(tracked)
}

// The number that a value is, and 0 where there is none.
fn number(value: Option<&Value>) -> i64 {
    match value {
        Some(Value::Int(n)) => *n,
        _ => 0,
    }
}

#[test]
fn what_has_changed(rt: HostRuntime) -> Result<(), Fail> {
    for (steps, present, settled, changed) in [
        ([0, 0, 0], 0, 0, false),
        ([0, 0, 1], 1, 0, true),
        ([0, 1, 0], 1, 1, false),
        ([1, 0, 1], 1, 1, false),
        ([1, 0, 2], 2, 1, true),
        ([0, 1, 2], 2, 0, true),
        ([2, 1, 0], 1, 1, false),
    ] {
        let tracked = tracked_by(rt.alloc(), &steps)?;
        assert_eq!(rt; number(tracked.get("n")), present, "after {steps:?}");
        assert_eq!(rt; number(tracked.old("n")), settled, "after {steps:?}");
        assert_eq!(rt; tracked.changed("n"), changed, "after {steps:?}");
        assert!(rt; !tracked.changed("m"), "after {steps:?}");
    }
    Ok(())
}

#[test]
fn an_assign_taken_back(rt: HostRuntime) -> Result<(), Fail> {
    let mut tracked = tracked_by(rt.alloc(), &[1, 0, 2])?;
    tracked.assign("m", Value::Nil)?;
    tracked.assign("n", Value::Int(1))?;
    assert!(rt; !tracked.changed("n"));
    assert!(rt; tracked.changed("m"));
    Ok(())
}
