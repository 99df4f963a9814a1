//! The lock: tickets are drawn in order and served in order, and the value lies in a slot while no pass has it.
ghost use Rattle.std.specs.Prelude.{◌≡◌, ℕ, ◌+◌, ◌-◌, ◌<◌, ◌≤◌, ◌^◌, Bool, true, List, [], ◌∷◌, ◌++◌, length, Some, None, IfOk, IfErr};
ghost use Rattle.std.specs.List.{range_with_len};
ghost use Rattle.front_lock.specs.Histories.{In, Distinct, Extends, Owners, GrownBy, places, AllEnded, AllPlaced};
ghost use Rattle.front_lock.specs.Keepings.{kept_under, kept_by, KeepsOthers};
ghost use Rattle.front_lock.specs.Passes.{at_stage, names, names_of, ended_of, longer, shown_by};
ghost use Rattle.front_lock.specs.declared.rule.Stage.TheVariants.{Idle, Waits, Holds};

use crate::bells::Bells;
use crate::grows::Grows;
use crate::lock_fault::LockFault;
use crate::pass::Pass;
use crate::rule::{
    CutOff, DrawTicket, FrontView, GiveBack, OneHistory, PutDown, TakeIn, TakeValue,
};
use crate::turn::{Inner, Place, Turn};
use atomic_table::{Refused, Table};
use prop_map::OutOfMemory;
use std::alloc::{AllocError, Global};
use std::hint::spin_loop;
use std::marker::Model;
use std::snapshot::Snapshot;
use std::sync::Wait;
use std::thread;

// The word with the next ticket.
const NEXT: usize = 0;

// The word with the ticket that is served.
const SERVING: usize = 1;

// The slot of the value.
const VALUE: usize = 0;

// How often a pass that waits looks again before it sleeps.
const LOOKS: u32 = 200;

/// A lock round a value. To a contract it is the name of its table. A lock that is dropped drops its value.
#[derive(Drop)]
pub struct FrontLock<T: Grows> {
    table: Table<Option<T>, FrontView<T::Entry>, Snapshot<T>, OneHistory<T>, Global>,
    bells: Bells,
}

impl<T: Grows> Model for FrontLock<T> {
    ghost use Rattle.std.specs.Prelude.{◌≡◌};
    ghost use Rattle.atomic_table.specs.Seated.{TableId};

    ghost Value = { TableId };

    ghost view = { λ l. l.table.shared.table_id };

    ghost invariant = { λ l. (l.table.shared.table_id.words ≡ 2) × (l.table.shared.table_id.slots ≡ 1) };
}

impl<T: Grows> FrontLock<T> {
    // Draws the next ticket.
    fn draw<R: Wait>(&self, rt: &R, seat: &mut Place<T>) -> u64
        requires { (seat.old.table_id ≡ self.now) × (seat.old.me.0.stage ≡ Idle) × (0 < seat.old.me.0.parts) }
        ensures same { (seat.new.table_id ≡ seat.old.table_id) × (seat.new.id ≡ seat.old.id) }
        ensures drawn { seat.new.me ≡ (at_stage seat.old.me.0 (Waits result), seat.old.me.1) }
        ensures small { result + 1 < 2 ^ 64 }
    {
        for _ in rt.forever() {
            let next = self.table.shared.peek(NEXT);
            if next < u64::MAX {
                let found = self
                    .table
                    .shared
                    .compare_exchange::<DrawTicket<T>>(seat, NEXT, next, next + 1);
                if found == next {
                    return next;
                }
            }
            thread::yield_now();
        }
        unreachable!()
    }

    // Waits until the ticket is served, and takes the value out.
    fn await_turn<R: Wait>(&self, rt: &R, seat: &mut Place<T>, ticket: u64) -> T
        requires { (seat.old.table_id ≡ self.now) × (seat.old.me.0.stage ≡ Waits ticket) × (0 < seat.old.me.0.parts) × (seat.old.me.1 ≡ []) }
        ensures same { (seat.new.table_id ≡ seat.old.table_id) × (seat.new.id ≡ seat.old.id) }
        ensures out { seat.new.me ≡ (at_stage seat.old.me.0 (Holds ticket true (shown_by T.entries T.kept result) [] []), (0, None) ∷ []) }
        ensures goes_on { Extends (names seat.old.me.0) seat.old.me.0.seen (T.entries result) }
        ensures unnamed { Owners (λ n. n < ticket) (T.entries result) }
        ensures later { (n : ℕ) → In n (names seat.old.me.0) → n < ticket }
        ensures tie { T.tie result ≡ seat.old.me.0.tie }
        ensures owned { seat.old.me.0.parts ≡ 64 → Owners (λ n. In n (names seat.old.me.0)) (T.entries result) }
        ensures kept { kept_by (names seat.old.me.0) (T.kept result) ≡ seat.old.me.0.kept }
        ensures keeps { (n : ℕ) → In n (names seat.old.me.0) → kept_under n (T.kept result) ≡ kept_under n seat.old.me.0.kept }
        ensures keepers { seat.old.me.0.parts ≡ 64 → Owners (λ n. In n (names seat.old.me.0)) (T.kept result) }
    {
        for _ in rt.forever() {
            let serving = self.table.shared.load::<TakeValue<T>>(seat, SERVING);
            if serving == ticket {
                return self.table.shared.exchange(seat, VALUE, None).unwrap();
            }
            self.rest(rt, ticket);
        }
        unreachable!()
    }

    // Waits for a moment, and then sleeps until the ticket's bell rings. It may return before the ticket is served.
    fn rest<R: Wait>(&self, rt: &R, ticket: u64) {
        for _ in 0..LOOKS {
            if self.table.shared.peek(SERVING) == ticket {
                return;
            }
            spin_loop();
        }
        self.bells.sleep(rt, ticket);
    }

    // Wakes the pass that has drawn this ticket, which is served now, if there is one.
    fn call_next(&self, ticket: u64) {
        if self.table.shared.peek(NEXT) > ticket {
            self.bells.ring(ticket);
        }
    }

    /// Waits for the value, and takes it out. Its entries go on from what the pass has seen, and no further one is of this
    /// pass or of one that was joined into it. Where all passes were joined into this one, its spare being 63, each entry is
    /// of one of these, and so is each thing that the value keeps. Under each name of the pass the value keeps just what it
    /// kept when the pass left. Passes are served in the order of their tickets, which they draw here: the numbers of all
    /// passes that have an entry or a thing there, and of this one, are below the ticket that it drew, so none that was
    /// split off under a later ticket has gone before. It takes no memory.
    pub fn enter<R: Wait>(&self, rt: &R, pass: Pass<T::Entry>) -> Inner<T>
        requires { pass.lock ≡ self.now }
        ensures turn { (result.turn.pass ≡ pass) × (result.turn.began ≡ T.entries result.value) × (result.turn.kept ≡ T.kept result.value) }
        ensures goes_on { Extends (names_of pass) pass.seen (T.entries result.value) }
        ensures mine { (n : ℕ) → In n (names_of pass) → places n (T.entries result.value) ≡ places n pass.seen }
        ensures tie { T.tie result.value ≡ pass.tie }
        ensures owned { pass.spare ≡ 63 → Owners (λ n. In n (names_of pass)) (T.entries result.value) }
        ensures kept { kept_by (names_of pass) (T.kept result.value) ≡ pass.kept }
        ensures keeps { (n : ℕ) → In n (names_of pass) → kept_under n (T.kept result.value) ≡ kept_under n pass.kept }
        ensures keepers { pass.spare ≡ 63 → Owners (λ n. In n (names_of pass)) (T.kept result.value) }
        ensures order { Owners (λ n. n < result.turn.ticket) (T.entries result.value) }
        ensures later { (n : ℕ) → In n (names_of pass) → n < result.turn.ticket }
    {
        let Pass {
            badge,
            number,
            spare,
            seen: _,
        } = pass;
        let mut seat = badge.into_seat();
        let ticket = self.draw(rt, &mut seat);
        let value = self.await_turn(rt, &mut seat, ticket);
        Inner {
            value,
            turn: Turn {
                seat,
                ticket,
                number,
                spare,
            },
        }
    }

    /// Gives the value back, with further entries of the pass alone, and the next ticket is served. What the value keeps
    /// under other numbers than the names of the pass is as it was. The pass has then seen all entries, knows what is kept
    /// under its names, and has entered once more. It waits for nobody, and takes no memory.
    pub fn leave(&self, inner: Inner<T>) -> Pass<T::Entry>
        requires lock { inner.turn.pass.lock ≡ self.now }
        requires grown { GrownBy inner.turn.pass.number inner.turn.began (T.entries inner.value) }
        requires tie { T.tie inner.value ≡ inner.turn.pass.tie }
        requires others { KeepsOthers (names_of inner.turn.pass) inner.turn.kept (T.kept inner.value) }
        ensures seen { result ≡ record inner.turn.pass { seen = T.entries inner.value; kept = kept_by (names_of inner.turn.pass) (T.kept inner.value); entered = inner.turn.pass.entered + 1 } }
        ensures mine { places result.number result.seen ≡ places result.number inner.turn.began ++ range_with_len (length inner.turn.began) (length result.seen - length inner.turn.began) }
    {
        let Inner { value, turn } = inner;
        let Turn {
            mut seat,
            ticket,
            number,
            spare,
        } = turn;
        let seen = value.length();
        match self.table.shared.exchange(&mut seat, VALUE, Some(value)) {
            None => {}
            Some(_) => unreachable!(),
        }
        self.table
            .shared
            .store::<GiveBack<T>>(&mut seat, SERVING, ticket + 1);
        self.call_next(ticket + 1);
        Pass {
            badge: seat.into_badge(),
            number,
            spare,
            seen,
        }
    }

    // Puts the value back as it was.
    fn put_down(&self, seat: &mut Place<T>, ticket: u64, value: T)
        requires lock { seat.old.table_id ≡ self.now }
        requires held { (seat.old.me.1 ≡ (0, None) ∷ []) × ((fresh : Bool) × (ns : List ℕ) × (also : List (ℕ × T.Entry)) × (seat.old.me.0.stage ≡ Holds ticket fresh (shown_by T.entries T.kept value) ns also)) }
        requires tie { T.tie value ≡ seat.old.me.0.tie }
        requires alive { (0 < seat.old.me.0.parts) × ((n : ℕ) × (seat.old.me.0.own ≡ Some n)) × (ticket + 1 < 2 ^ 64) }
        ensures same { (seat.new.table_id ≡ seat.old.table_id) × (seat.new.id ≡ seat.old.id) }
        ensures back { seat.new.me ≡ (at_stage seat.old.me.0 Idle, []) }
        ensures learned { (fresh : Bool) (ns : List ℕ) (also : List (ℕ × T.Entry)) → seat.old.me.0.stage ≡ Holds ticket fresh (shown_by T.entries T.kept value) ns also → Extends ns also (T.entries value) × Extends (names seat.old.me.0) seat.old.me.0.seen (T.entries value) × (kept_by (names seat.old.me.0) (T.kept value) ≡ seat.old.me.0.kept) }
        ensures few { seat.old.me.0.parts ≤ 64 }
        ensures distinct { Distinct (names seat.old.me.0) }
    {
        match self.table.shared.exchange(seat, VALUE, Some(value)) {
            None => {}
            Some(_) => unreachable!(),
        }
        self.table
            .shared
            .store::<PutDown<T>>(seat, SERVING, ticket + 1);
        self.call_next(ticket + 1);
    }

    /// A lock round a value without entries that keeps nothing, and the first pass, which has the number 0 and a spare of
    /// 63. Where memory is wanting it gives the value back.
    pub fn new(alloc: Global, value: T) -> Result<(FrontLock<T>, Pass<T::Entry>), (T, OutOfMemory)>
        requires { (T.entries value ≡ []) × (T.kept value ≡ []) }
        ensures ok { IfOk result (λ r. r.1 ≡ record { lock = r.0; number = 0; joined = []; seen = []; kept = []; spare = 63; entered = 0; tie = T.tie value }) }
        ensures err { IfErr result (λ e. e.0 ≡ value) }
    {
        match Bells::new(alloc) {
            Ok(bells) => FrontLock::with_bells(alloc, bells, value),
            Err(fault) => Err((value, fault)),
        }
    }

    fn with_bells(
        alloc: Global,
        bells: Bells,
        value: T,
    ) -> Result<(FrontLock<T>, Pass<T::Entry>), (T, OutOfMemory)>
        requires { (T.entries value ≡ []) × (T.kept value ≡ []) }
        ensures ok { IfOk result (λ r. r.1 ≡ record { lock = r.0; number = 0; joined = []; seen = []; kept = []; spare = 63; entered = 0; tie = T.tie value }) }
        ensures err { IfErr result (λ e. e.0 ≡ value) }
    {
        let mut slots = Vec::new(alloc);
        if slots.reserve(1).is_err() {
            slots.destroy_empty();
            return Err((value, AllocError));
        }
        let about = Snapshot::of(&value);
        slots.push_reserved(Some(value));
        match Table::new(alloc, &[1, 1], slots, &about) {
            Ok((table, seat)) => {
                let pass = Pass {
                    badge: seat.into_badge(),
                    number: 0,
                    spare: 63,
                    seen: 0,
                };
                Ok((FrontLock { table, bells }, pass))
            }
            Err(refused) => Err((only(refused), AllocError)),
        }
    }

    /// Splits a second pass off, with a spare of 0 and a number that no pass has or had: no entry is under it, nothing is
    /// kept under it, it is above each name of the first, and it has never entered. The first keeps its number and all that
    /// it knows, and its spare falls by one. A split counts as no entry.
    /// `SeatsFull` exactly where the spare is 0, and then nothing changes. Like `enter`, it waits for its turn.
    pub fn split<R: Wait>(
        &self,
        rt: &R,
        pass: Pass<T::Entry>,
    ) -> Result<(Pass<T::Entry>, Pass<T::Entry>), (Pass<T::Entry>, LockFault)>
        requires { pass.lock ≡ self.now }
        ensures first { IfOk result (λ r. (0 < pass.spare) × (r.0 ≡ record pass { spare = pass.spare - 1 })) }
        ensures second { IfOk result (λ r. r.1 ≡ record pass { number = r.1.number; joined = []; kept = []; spare = 0; entered = 0 }) }
        ensures new { IfOk result (λ r. Owners (λ n. n < r.1.number) pass.seen) }
        ensures later { IfOk result (λ r. (n : ℕ) → In n (names_of pass) → n < r.1.number) }
        ensures full { IfErr result (λ e. (e.0 ≡ pass) × (pass.spare ≡ 0) × (e.1 ≡ LockFault.SeatsFull)) }
    {
        if pass.spare == 0 {
            return Err((pass, LockFault::SeatsFull));
        }
        let Pass {
            badge,
            number,
            spare,
            seen,
        } = pass;
        let mut seat = badge.into_seat();
        let ticket = self.draw(rt, &mut seat);
        let value = self.await_turn(rt, &mut seat, ticket);
        let other = self.table.shared.split_seat::<CutOff>(&mut seat);
        self.put_down(&mut seat, ticket, value);
        let first = Pass {
            badge: seat.into_badge(),
            number,
            spare: spare - 1,
            seen,
        };
        let second = Pass {
            badge: other.into_badge(),
            number: ticket,
            spare: 0,
            seen,
        };
        Ok((first, second))
    }

    /// Joins a pass into another, which keeps its number and gets the other's spare and one more. It has then seen the
    /// longer beginning of the two, in which the entries of both are all that there are. The other's number and all that it
    /// had seen are kept in it; that number gets no further entry. What the value keeps for either is then kept for it, each
    /// thing under the number that it had. It has entered as often as both; the join counts as no entry. Like `enter`, it
    /// waits for its turn.
    pub fn join<R: Wait>(
        &self,
        rt: &R,
        pass: Pass<T::Entry>,
        other: Pass<T::Entry>,
    ) -> Pass<T::Entry>
        requires { (pass.lock ≡ self.now) × (other.lock ≡ self.now) }
        ensures joined { result ≡ record pass { joined = pass.joined ++ ended_of other; seen = longer pass.seen other.seen; kept = pass.kept ++ other.kept; spare = pass.spare + other.spare + 1; entered = pass.entered + other.entered } }
        ensures this { Extends (names_of pass) pass.seen result.seen }
        ensures that { Extends (names_of other) other.seen result.seen }
        ensures mine { (n : ℕ) → In n (names_of pass) → places n result.seen ≡ places n pass.seen }
        ensures theirs { (n : ℕ) → In n (names_of other) → places n result.seen ≡ places n other.seen }
        ensures keeps { (n : ℕ) → In n (names_of pass) → kept_under n result.kept ≡ kept_under n pass.kept }
        ensures keeps_theirs { (n : ℕ) → In n (names_of other) → kept_under n result.kept ≡ kept_under n other.kept }
        ensures distinct { Distinct (names_of result) }
    {
        let Pass {
            badge,
            number,
            spare,
            seen,
        } = pass;
        let Pass {
            badge: other_badge,
            number: _,
            spare: other_spare,
            seen: other_seen,
        } = other;
        let mut seat = badge.into_seat();
        let ticket = self.draw(rt, &mut seat);
        let value = self.await_turn(rt, &mut seat, ticket);
        self.table
            .shared
            .join_seat::<TakeIn>(&mut seat, other_badge.into_seat());
        self.put_down(&mut seat, ticket, value);
        Pass {
            badge: seat.into_badge(),
            number,
            spare: spare + other_spare + 1,
            seen: seen.max(other_seen),
        }
    }

    /// Gives the value to the pass into which all others were joined. Its history begins with all that this pass had seen,
    /// and with all that each pass had seen that was joined into it, directly or through others. Each has just those
    /// places in the history that it knew when it was joined, and each entry is of one of them. The value keeps what the
    /// pass knows, and nothing else. It waits for nobody.
    pub fn close(self, pass: Pass<T::Entry>) -> T
        requires lock { pass.lock ≡ self }
        requires all { pass.spare ≡ 63 }
        ensures goes_on { Extends (names_of pass) pass.seen (T.entries result) }
        ensures mine { (n : ℕ) → In n (names_of pass) → places n (T.entries result) ≡ places n pass.seen }
        ensures ended { AllEnded pass.joined (T.entries result) }
        ensures placed { AllPlaced pass.joined (T.entries result) }
        ensures distinct { Distinct (names_of pass) }
        ensures owned { Owners (λ n. In n (names_of pass)) (T.entries result) }
        ensures tie { T.tie result ≡ pass.tie }
        ensures kept { kept_by (names_of pass) (T.kept result) ≡ pass.kept }
        ensures keepers { Owners (λ n. In n (names_of pass)) (T.kept result) }
    {
        let FrontLock { table, bells } = self;
        drop(bells);
        let Pass { badge, .. } = pass;
        let mut closed = table.close_with(badge.into_seat());
        let value = closed.take(VALUE).unwrap();
        closed.free();
        value
    }
}

// The value in the one slot that came back.
fn only<T>(refused: Refused<Option<T>, Global>) -> T
    requires { (x : T) × (refused.slots.items ≡ Some x ∷ []) }
    ensures { refused.slots.items ≡ Some result ∷ [] }
{
    let Refused { mut slots } = refused;
    let value = slots.pop().unwrap().unwrap();
    slots.destroy_empty();
    value
}
