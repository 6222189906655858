//! The rule of a desk's table, and what each step on it tells. The pass is moved out and in as plain memory between the two.
use atomic_table::{Play, TableRule};
use machine_api::Machine;
use std::marker::PhantomData;
use std::snapshot::Snapshot;
use turnstile::{Pass, Turnstile};

/// Which turnstile the desk's pass is of. A seat at the desk knows that, and no more.
pub type DeskKey<M> = Snapshot<Turnstile<M>>;

/// The rule of a desk's table.
pub struct DeskRule<M> {
    of: PhantomData<M>,
}

impl<M: Machine> TableRule<Option<Pass<M>>, DeskKey<M>, DeskKey<M>> for DeskRule<M> {
    ghost use Rattle.turnstile.specs.Known.{IsPassOf};
    ghost use Rattle.proc_cell.specs.Locks.{Guarded};

    ghost holds = { λ key. Guarded (IsPassOf key.value) };

    ghost first = { λ key. key };
}

/// The word becomes 1. Where it was 0, the pass goes out with the seat.
pub struct DeskTry;

impl<M: Machine> Play<Option<Pass<M>>, DeskKey<M>> for DeskTry {
    ghost use Rattle.std.specs.Prelude.{◌≡◌};
    ghost use Rattle.turnstile.specs.Known.{IsPassOf};
    ghost use Rattle.proc_cell.specs.Locks.{Seized};

    ghost then = { λ st m r n. r ≡ 0 → Seized (IsPassOf m.0.value) n };
}

/// The word becomes 0, and the pass is back.
pub struct DeskFree;

impl<M: Machine> Play<Option<Pass<M>>, DeskKey<M>> for DeskFree {
    ghost then = { λ st m r n. Unit {0} };
}
