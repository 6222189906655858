//! Processes over a toy machine.
ghost use Rattle.std.specs.Prelude.{◌≡◌, ℕ, ◌++◌, List, Some, IfOk, slice_get};
ghost use Rattle.std.specs.Arc.{arc_value};
ghost use Rattle.turnstile.specs.Known.{IsPassOf};

mod mailbox;

use crate::{Desk, Proc, Stood, give_back, hold};
use machine_api::{Down, Handled, Logged, Machine, PostFault};
use mailbox::Mailbox;
use std::alloc::{AllocError, Global};
use std::sync::{Arc, Wait};
use std::test::Fail;
use std::thread::{Threads, join};
use text_core::{Frames, OutOfMemory};
use turnstile::{Pass, Turn, Turnstile};

// Posts a text. What the pass then finds has its entry.
fn post_and_look<M: Machine, R: Wait>(
    rt: &R,
    alloc: Global,
    cell: &Proc<M>,
    pass: Pass<M>,
    text: &[u8],
) -> (Pass<M>, Result<u64, PostFault>, Result<Frames, OutOfMemory>)
    requires { IsPassOf cell.now.turnstile pass }
    ensures pass { IsPassOf cell.now.turnstile result.0 }
    ensures own_post_seen { IfOk result.1 (λ place. slice_get result.0.seen place ≡ Some (pass.number, M.heard text.now)) }
{
    let (pass, posted) = cell.post(rt, pass, text);
    let (pass, frames) = cell.look(rt, alloc, pass, 0);
    (pass, posted, frames)
}

// Handles the next message at the desk.
fn handle_at<M: Machine, R: Wait>(rt: &R, mut desk: Desk<M>) -> (Desk<M>, Handled)
    ensures { result.0.stood.cell ≡ desk.stood.cell }
{
    let Stood { cell, pass } = desk.stood;
    let (pass, handled) = cell.handle_one(rt, pass);
    desk.stood = Stood { cell, pass };
    (desk, handled)
}

fn post_one<R: Wait>(rt: &R, cell: &Proc<Mailbox>, pass: Pass<Mailbox>) -> Pass<Mailbox>
    requires { IsPassOf cell.now.turnstile pass }
    ensures { IsPassOf cell.now.turnstile result }
{
    cell.post(rt, pass, b"text").0
}

// Three threads post a text each.
fn post_three<R: Threads + Wait + Sync>(
    rt: &R,
    cell: &Proc<Mailbox>,
    a: Pass<Mailbox>,
    b: Pass<Mailbox>,
    c: Pass<Mailbox>,
) -> (Pass<Mailbox>, (Pass<Mailbox>, Pass<Mailbox>))
    requires first { IsPassOf cell.now.turnstile a }
    requires second { IsPassOf cell.now.turnstile b }
    requires third { IsPassOf cell.now.turnstile c }
    ensures first { IsPassOf cell.now.turnstile result.0 }
    ensures second { IsPassOf cell.now.turnstile result.1.0 }
    ensures third { IsPassOf cell.now.turnstile result.1.1 }
{
    join(
        rt,
        || -> Pass<Mailbox>
            requires { IsPassOf cell.now.turnstile a }
            ensures { IsPassOf cell.entry.now.turnstile result }
        { post_one(rt, cell, a) },
        || -> (Pass<Mailbox>, Pass<Mailbox>)
            requires { IsPassOf cell.now.turnstile b × IsPassOf cell.now.turnstile c }
            ensures { IsPassOf cell.entry.now.turnstile result.0 × IsPassOf cell.entry.now.turnstile result.1 }
        { post_two(rt, cell, b, c) },
    )
}

fn post_two<R: Threads + Wait + Sync>(
    rt: &R,
    cell: &Proc<Mailbox>,
    b: Pass<Mailbox>,
    c: Pass<Mailbox>,
) -> (Pass<Mailbox>, Pass<Mailbox>)
    requires first { IsPassOf cell.now.turnstile b }
    requires second { IsPassOf cell.now.turnstile c }
    ensures first { IsPassOf cell.now.turnstile result.0 }
    ensures second { IsPassOf cell.now.turnstile result.1 }
{
    join(
        rt,
        || -> Pass<Mailbox>
            requires { IsPassOf cell.now.turnstile b }
            ensures { IsPassOf cell.entry.now.turnstile result }
        { post_one(rt, cell, b) },
        || -> Pass<Mailbox>
            requires { IsPassOf cell.now.turnstile c }
            ensures { IsPassOf cell.entry.now.turnstile result }
        { post_one(rt, cell, c) },
    )
}

fn new_cell(alloc: Global) -> Result<(Proc<Mailbox>, Pass<Mailbox>), AllocError>
    ensures { IfOk result (λ r. IsPassOf r.0.turnstile r.1) }
{
    let app = Arc::new(alloc, 7)?;
    let Ok(machine) = Mailbox::start(alloc, &app) else {
        return Err(AllocError);
    };
    match Proc::new(alloc, 5, machine) {
        Ok((cell, pass)) => Ok((cell, pass)),
        Err(_) => Err(AllocError),
    }
}

#[test]
fn a_turnstile_opens(rt: HostRuntime) -> Result<(), Fail> {
    let app = Arc::new(rt.alloc(), 7)?;
    let Ok(machine) = Mailbox::start(rt.alloc(), &app) else {
        return Err(Fail::from(AllocError));
    };
    let Ok((turnstile, pass)) = Turnstile::new(rt.alloc(), machine) else {
        return Err(Fail::from(AllocError));
    };
    assert_eq!(rt; pass.number(), 0);
    let turn = turnstile.enter(&rt, pass);
    turnstile.leave(turn);
    Ok(())
}

#[test]
fn three_threads_post(rt: HostRuntime) -> Result<(), Fail> {
    let (cell, pass) = new_cell(rt.alloc())?;
    let Ok((a, b)) = cell.turnstile().split(pass) else {
        return Err(Fail::from(AllocError));
    };
    let Ok((a, c)) = cell.turnstile().split(a) else {
        return Err(Fail::from(AllocError));
    };
    let (a, (b, c)) = post_three(&rt, &cell, a, b, c);
    let all = cell.turnstile().join(cell.turnstile().join(a, b), c);
    let Turn { machine, pass } = cell.turnstile().enter(&rt, all);
    let count = machine.length();
    cell.turnstile().leave(Turn { machine, pass });
    assert_eq!(rt; count, 3);
    Ok(())
}

#[test]
fn example_own_post_seen(rt: HostRuntime) -> Result<(), Fail> {
    let (cell, pass) = new_cell(rt.alloc())?;
    let (_, posted, frames) = post_and_look(&rt, rt.alloc(), &cell, pass, b"text");
    assert!(rt; matches!(posted, Ok(0)));
    assert!(rt; frames.is_ok());
    Ok(())
}

#[test]
fn a_worker_handles(rt: HostRuntime) -> Result<(), Fail> {
    let (cell, pass) = new_cell(rt.alloc())?;
    assert_eq!(rt; cell.number(), 5);
    let (pass, mailed) = cell.post_mail(&rt, pass, b"topic", 1, b"value");
    assert!(rt; matches!(mailed, Ok(0)));
    let pass = cell.put_down(&rt, pass, Down::Limit);
    let cell = Arc::new(rt.alloc(), cell)?;
    let (desk, first) = handle_at(&rt, hold(cell, &rt));
    let (desk, second) = handle_at(&rt, desk);
    let cell = give_back(desk);
    assert!(rt; matches!(first, Handled::Done(_)));
    assert!(rt; matches!(second, Handled::Idle));
    let (_, waiting) = cell.waiting(&rt, pass);
    assert_eq!(rt; waiting, 0);
    Ok(())
}
