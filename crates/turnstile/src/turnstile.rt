//! The turnstile.
ghost use Rattle.std.specs.Prelude.{◌≡◌, ℕ, ◌+◌, ◌<◌, ◌≤◌, max, List, [], ◌∷◌, ◌++◌, IfOk, IfErr};
ghost use Rattle.turnstile.specs.Histories.{StartsWith, Made, entries_by, most_passes, Follows, IsFirst, news, add_made, longer};
ghost use Rattle.turnstile.specs.Rules.{founder};
ghost use Rattle.turnstile.specs.Known.{IsPassOf, IsEntered, IsOf, IsFounder, SameButPasses};

use crate::pass::Pass;
use crate::steps::{
    BringFirst, CheckPassCount, DrawPassNumber, DrawTicket, JoinPass, LookServed, ServeNext,
    SplitPass,
};
use crate::view::{TicketOrder, View};
use atomic_table::{Refused, Seat, Table};
use machine_api::Logged;
use std::alloc::Global;
use std::marker::Model;
use std::snapshot::Snapshot;
use std::sync::Wait;
use std::thread;
use text_core::OutOfMemory;

/// How many passes are made at most.
const MOST_PASSES: u64 = 4_294_967_295;

// The words of the table.
const TICKET: usize = 0;

const SERVING: usize = 1;

const PASSES: usize = 2;

/// As many passes were made as there are numbers.
#[derive(Debug, Drop)]
pub struct Spent;

/// A ticket lock. Contracts see which lock it is, and what its value stands on.
#[derive(Drop)]
pub struct Turnstile<K: Logged> {
    table: Table<Option<K>, View<K::Entry, K::App>, Snapshot<K>, TicketOrder<K>, Global>,
}

impl<K: Logged> Model for Turnstile<K> {
    ghost use Rattle.std.specs.Prelude.{◌≡◌};
    ghost use Rattle.turnstile.specs.Known.{Gate};

    ghost Value = { Gate K.App };

    ghost view = { λ t. record { table = t.table.shared.table_id; basis = K.basis t.table.shared.key.value } };

    ghost invariant = { λ t. (t.table.shared.table_id.words ≡ 3) × (t.table.shared.table_id.slots ≡ 1) };
}

/// The value, and the pass that has it out. It has no `Drop`, so it ends in `leave`.
pub struct Turn<K: Logged> {
    pub machine: K,
    pub pass: Pass<K>,
}

impl<K: Logged> Turnstile<K> {
    /// A turnstile with this value, whose journal is empty, and its first pass.
    pub fn new(alloc: Global, value: K) -> Result<(Turnstile<K>, Pass<K>), (K, OutOfMemory)>
        requires { K.journal value ≡ [] }
        ensures basis { IfOk result (λ r. r.0.basis ≡ K.basis value) }
        ensures pass { IfOk result (λ r. IsPassOf r.0 r.1 × IsFounder r.1) }
        ensures err { IfErr result (λ e. e.0 ≡ value) }
    {
        let Ok((turnstile, pass)) = Turnstile::reserve(alloc, &value) else {
            return Err((value, OutOfMemory));
        };
        let pass = turnstile.leave(Turn {
            machine: value,
            pass,
        });
        Ok((turnstile, pass))
    }

    /// The memory for a turnstile, whose first pass is to bring this value by `leave`.
    pub fn reserve(alloc: Global, value: &K) -> Result<(Turnstile<K>, Pass<K>), OutOfMemory>
        requires { K.journal value.now ≡ [] }
        ensures basis { IfOk result (λ r. r.0.basis ≡ K.basis value.now) }
        ensures pass { IfOk result (λ r. IsEntered r.0 r.1 × IsFounder r.1) }
    {
        let about = Snapshot::of(value);
        let _ = value.length();
        let mut slots = Vec::with_capacity(alloc, 1)?;
        slots.push_reserved(None);
        match Table::new(alloc, &[1, 0, 1], slots, &about) {
            Ok((table, seat)) => {
                let turnstile = Turnstile { table };
                let pass = turnstile.fill(seat);
                Ok((turnstile, pass))
            }
            Err(Refused { mut slots }) => {
                let Some(slot) = slots.pop() else {
                    unreachable!()
                };
                let None = slot else { unreachable!() };
                slots.destroy_empty();
                Err(OutOfMemory)
            }
        }
    }

    // The first seat takes the empty slot.
    fn fill(&self, mut seat: Seat<Option<K>, View<K::Entry, K::App>>) -> Pass<K>
        requires seat { (seat.table_id ≡ self.now.table) × (seat.me ≡ (founder self.now.basis, [])) }
        requires lawful { K.lawful self.now.basis [] }
        ensures pass { IsEntered self.now result }
        ensures first { IsFounder result }
    {
        self.table.shared.load::<BringFirst>(&mut seat, SERVING);
        Pass { number: 0, seat }
    }

    /// Waits for the value. Its journal begins with what the pass has seen, and has under the pass's numbers exactly
    /// the entries that it made.
    pub fn enter<R: Wait>(&self, rt: &R, pass: Pass<K>) -> Turn<K>
        requires { IsPassOf self.now pass }
        ensures turn { IsEntered self.now result.pass }
        ensures journal { K.journal result.machine ≡ result.pass.seen }
        ensures basis { K.basis result.machine ≡ self.now.basis }
        ensures begins { StartsWith result.pass.seen pass.seen }
        ensures own { (n : ℕ) (es : List K.Entry) → Made pass.made n es
            → entries_by n (K.journal result.machine) ≡ es }
        ensures first { IsFirst result.pass.number result.pass.made }
        ensures lawful { K.lawful self.now.basis result.pass.seen }
        ensures same { (result.pass.number ≡ pass.number) × (result.pass.made ≡ pass.made)
            × (result.pass.passes ≡ pass.passes) }
    {
        let Pass { number, mut seat } = pass;
        let shared = &self.table.shared;
        let ticket = shared.fetch_add::<DrawTicket>(&mut seat, TICKET, 1);
        for _ in rt.forever() {
            if shared.load::<LookServed>(&mut seat, SERVING) == ticket {
                let machine = shared.exchange(&mut seat, 0, None).unwrap();
                return Turn {
                    machine,
                    pass: Pass { number, seat },
                };
            }
            thread::yield_now();
        }
        unreachable!()
    }

    /// Puts the value back: as it was found, or with one entry more under the pass's number.
    pub fn leave(&self, turn: Turn<K>) -> Pass<K>
        requires turn { IsEntered self.now turn.pass }
        requires basis { K.basis turn.machine ≡ self.now.basis }
        requires journal { Follows turn.pass.number turn.pass.seen (K.journal turn.machine) }
        ensures pass { IsPassOf self.now result }
        ensures seen { result.seen ≡ K.journal turn.machine }
        ensures made { result.made
            ≡ add_made (news turn.pass.seen (K.journal turn.machine)) turn.pass.made }
        ensures lawful { K.lawful self.now.basis result.seen }
        ensures same { (result.number ≡ turn.pass.number) × (result.passes ≡ turn.pass.passes) }
    {
        let Turn { machine, pass } = turn;
        let Pass { number, mut seat } = pass;
        let _ = machine.length();
        let before = self.table.shared.exchange(&mut seat, 0, Some(machine));
        let None = before else { unreachable!() };
        self.table
            .shared
            .fetch_add::<ServeNext>(&mut seat, SERVING, 1);
        Pass { number, seat }
    }

    /// A second pass, with a number of its own, that has seen as much. `Spent` comes exactly where all passes were made.
    pub fn split(&self, pass: Pass<K>) -> Result<(Pass<K>, Pass<K>), (Pass<K>, Spent)>
        requires { IsOf self.now pass }
        ensures kept { IfOk result (λ r. SameButPasses pass r.0) }
        ensures new { IfOk result (λ r. IsPassOf self.now r.1 × (r.1.seen ≡ pass.seen)
            × (r.1.made ≡ (r.1.number, []) ∷ []) × (entries_by r.1.number pass.seen ≡ [])) }
        ensures count { IfOk result (λ r. (pass.passes ≤ r.1.number) × (r.1.number < most_passes)
            × (r.0.passes ≡ r.1.number + 1) × (r.1.passes ≡ r.1.number + 1)) }
        ensures spent { IfErr result (λ e. SameButPasses pass e.0 × (e.0.passes ≡ most_passes)) }
    {
        let Pass { number, mut seat } = pass;
        let shared = &self.table.shared;
        if shared.load::<CheckPassCount>(&mut seat, PASSES) >= MOST_PASSES {
            return Err((Pass { number, seat }, Spent));
        }
        let drawn = shared.fetch_add::<DrawPassNumber>(&mut seat, PASSES, 1);
        if drawn >= MOST_PASSES {
            return Err((Pass { number, seat }, Spent));
        }
        let other = shared.split_seat::<SplitPass>(&mut seat);
        Ok((
            Pass { number, seat },
            Pass {
                number: drawn as u32,
                seat: other,
            },
        ))
    }

    /// One pass in place of two, under the first one's number. The second number makes no more entries.
    pub fn join(&self, a: Pass<K>, b: Pass<K>) -> Pass<K>
        requires first { IsPassOf self.now a }
        requires second { IsPassOf self.now b }
        ensures pass { IsPassOf self.now result }
        ensures both { (result.number ≡ a.number) × (result.seen ≡ longer a.seen b.seen)
            × (result.made ≡ a.made ++ b.made) }
        ensures count { result.passes ≡ max a.passes b.passes }
    {
        let Pass { number, mut seat } = a;
        let Pass {
            number: _,
            seat: other,
        } = b;
        self.table.shared.join_seat::<JoinPass>(&mut seat, other);
        Pass { number, seat }
    }
}
