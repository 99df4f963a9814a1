//! The gates: one word for each slot, changed by single steps.
ghost use Rattle.std.specs.Prelude.{◌≡◌, ◌≢◌, ◌+◌, ◌-◌, ◌*◌, ◌/◌, ◌%◌, ◌^◌, ◌<◌, ◌≤◌, ◌↔◌, true, false, if◌then◌else◌, replicate, [], ◌∷◌, length, slice_index, slice_set, is_some, IsTrue, IfOk, IfErr, IfSome, IfNone, MatchOption, MatchResult};
ghost use Rattle.call_gate.specs.Gates.{SeatView, level_in, generation_in, stage_in, callers_in, with_inside, with_levels, with_look, with_shut, without, HasKey, IsAlone, LeavesLast};
ghost use Rattle.call_gate.specs.Starts.{first_view, seat_view, both_of};
ghost use Rattle.call_gate.specs.Calls.{slots_in, KnownOpen, KnownShut, KnownClosed, KnownClaimed, NoneClaimed, opened_in, shut_in, told, gone_in, told_in, LastIs, EntersAs, ClaimsAs, ShutIs};

use crate::rule::{
    Beginning, Claim, Deal, Enter, GateView, Gates, Hear, Leave, Look, Mark, Raise, Shut, StepBack,
    StepOut, Together, Witness,
};
use crate::seat::GateSeat;
use crate::tokens::{Drain, Entered, Inside, Last, Worn};
use atomic_table::{Seat, Table};
use journal_core::GateKey;
use prop_map::OutOfMemory;
use std::alloc::Global;
use std::marker::Model;

// The callers of a word are counted below this.
const CALLERS: u64 = 16_777_216;

// The greatest generation, 2^38 - 1.
const LAST_GENERATION: u64 = 274_877_906_943;

/// Gates in a row, at slots from 0 on. The word of a slot has the count of its callers in bits 0 to 23, whether it is
/// shut in bit 24, whether its drain is claimed in bit 25, and its generation above. No call waits for another, and all
/// but `new` and `split` do without memory. To a contract the gates are the name of their table, which has one word more
/// than there are slots.
#[derive(Drop)]
pub struct CallGate {
    table: Table<(), GateView, Beginning, Gates, Global>,
}

impl Model for CallGate {
    ghost use Rattle.std.specs.Prelude.{◌≡◌, ◌<◌};
    ghost use Rattle.atomic_table.specs.Seated.{TableId};

    ghost Value = { TableId };

    ghost view = { λ g. g.table.shared.table_id };

    ghost invariant = { λ g. (g.table.shared.key.count ≡ g.table.shared.table_id.words) × (0 < g.table.shared.table_id.words) };
}

impl CallGate {
    /// The word of a slot. The keeper thereby learns nothing new of the slot's generation and of whether it is open,
    /// shut or closed: it knew. None of the keys that it has callers inside of is known to it as claimed.
    pub fn look(&self, seat: &mut GateSeat, slot: u32) -> u64
        requires { (seat.old.gate ≡ self.now) × (slot < slots_in self.now) }
        ensures seat { seat.new ≡ record seat.old { knows = with_look seat.old.knows slot result } }
        ensures level { seat.old.knows.keeps ≡ true → level_in result ≡ slice_index seat.old.knows.levels slot }
        ensures unclaimed { seat.old.knows.keeps ≡ true → NoneClaimed seat.old.knows.inside seat.old.knows.levels }
    {
        self.table
            .shared
            .load::<Look>(&mut seat.seat, slot as usize)
    }

    /// Enters a gate by one step on its word, and is inside exactly where that word was open under the key's generation.
    /// Else the caller steps out again, and is told what the word was. That is no older than what the seat had heard of the
    /// slot: so a gate that it heard of as open under this key, and that is gone, was shut since. The seat needs a free
    /// place. It counts each answer that a gate is gone, and each key that it is told as last.
    pub fn enter(&self, seat: &mut GateSeat, key: GateKey) -> Entered
        requires own { (seat.old.gate ≡ self.now) × (key.slot < slots_in self.now) }
        requires room { length seat.old.knows.inside < seat.old.knows.places }
        ensures same { seat.new.gate ≡ seat.old.gate }
        ensures answer { EntersAs self.now key seat.old.knows seat.new.knows result }
        ensures since { slice_index seat.old.knows.heard key.slot ≤ level_in seat.new.knows.met }
        ensures gone { seat.new.knows.gone ≡ seat.old.knows.gone + gone_in result }
        ensures told { seat.new.knows.lasts ≡ seat.old.knows.lasts + told_in result }
    {
        let slot = key.slot as usize;
        let found = self
            .table
            .shared
            .fetch_add::<Enter>(&mut seat.seat, slot, 1);
        let level = found / CALLERS;
        if level % 4 != 0 {
            let left = self
                .table
                .shared
                .fetch_sub::<StepOut>(&mut seat.seat, slot, 1);
            return Entered::Gone {
                generation: level / 4,
                shut: true,
                last: last_of(self.witness(seat), key.slot, left),
            };
        }
        if level / 4 != key.generation {
            let left = self
                .table
                .shared
                .fetch_sub::<StepBack>(&mut seat.seat, slot, 1);
            return Entered::Gone {
                generation: level / 4,
                shut: false,
                last: last_of(self.witness(seat), key.slot, left),
            };
        }
        seat.free -= 1;
        Entered::Inside(Inside {
            key,
            of: self.witness(seat),
        })
    }

    /// Leaves, by one step on the word. Tells the key as last exactly where that step leaves the gate shut, unclaimed and
    /// empty. The caller entered from this seat, or from one that was joined into it.
    pub fn leave(&self, seat: &mut GateSeat, inside: Inside) -> Option<Last>
        requires own { (seat.old.gate ≡ self.now) × (inside.gate ≡ self.now) }
        requires inside { HasKey inside.key.slot inside.key.generation seat.old.knows.inside }
        ensures seat { seat.new ≡ record seat.old { knows = with_inside seat.old.knows inside.key.slot (without inside.key.slot seat.old.knows.inside) seat.new.knows.saw } }
        ensures last { LastIs self.now inside.key.slot seat.new.knows.saw result }
        ensures told { seat.new.knows.lasts ≡ seat.old.knows.lasts + told result }
    {
        let Inside { key, of } = inside;
        let left = self
            .table
            .shared
            .fetch_sub::<Leave>(&mut seat.seat, key.slot as usize, 1);
        seat.free += 1;
        last_of(of, key.slot, left)
    }

    /// Opens a closed slot under its next generation, from the keeper's seat. `Worn` exactly where its last generation
    /// was 2^38 - 1, and then the slot stays closed.
    pub fn reopen(&self, seat: &mut GateSeat, slot: u32) -> Result<GateKey, Worn>
        requires own { (seat.old.gate ≡ self.now) × (slot < slots_in self.now) }
        requires closed { (seat.old.knows.keeps ≡ true) × KnownClosed slot seat.old.knows.levels }
        ensures same { seat.new.gate ≡ seat.old.gate }
        ensures ok { IfOk result (λ key. (key.slot ≡ slot) × (key.generation ≡ slice_index seat.old.knows.levels slot / 4 + 1) × (seat.new.knows ≡ with_levels seat.old.knows slot (opened_in key seat.old.knows.levels) seat.new.knows.saw)) }
        ensures worn { IfErr result (λ _. (slice_index seat.old.knows.levels slot / 4 ≡ 2 ^ 38 - 1) × (seat.new.knows ≡ with_look seat.old.knows slot seat.new.knows.saw)) }
        ensures room { IfOk result (λ _. slice_index seat.old.knows.levels slot / 4 < 2 ^ 38 - 1) }
    {
        let generation = self.look(seat, slot) / CALLERS / 4;
        if generation >= LAST_GENERATION {
            return Err(Worn);
        }
        self.table
            .shared
            .fetch_add::<Raise>(&mut seat.seat, slot as usize, CALLERS);
        Ok(GateKey {
            slot,
            generation: generation + 1,
        })
    }

    /// Shuts a gate that is open under the key, by one step from the keeper's seat. Tells the key as last exactly where
    /// that step leaves the gate empty; so always where the keeper's seat has all of the places and nobody inside. Else the
    /// keeper's seat has the key among those that it found a caller of.
    pub fn shut(&self, seat: &mut GateSeat, key: GateKey) -> Option<Last>
        requires own { (seat.old.gate ≡ self.now) × (key.slot < slots_in self.now) }
        requires open { (seat.old.knows.keeps ≡ true) × KnownOpen key seat.old.knows.levels }
        ensures seat { seat.new ≡ record seat.old { knows = with_shut seat.old.knows key.slot (shut_in key seat.old.knows.levels) seat.new.knows.saw } }
        ensures last { ShutIs self.now key seat.new.knows.saw result }
        ensures found { level_in seat.new.knows.saw ≡ 4 * key.generation }
        ensures told { seat.new.knows.lasts ≡ seat.old.knows.lasts + told result }
        ensures alone { IsAlone seat.old.knows → is_some result ≡ true }
    {
        let found = self
            .table
            .shared
            .fetch_or::<Shut>(&mut seat.seat, key.slot as usize, CALLERS);
        if found % CALLERS == 0 {
            Some(Last {
                key,
                of: self.witness(seat),
            })
        } else {
            None
        }
    }

    /// Claims the drain of a key that was told as last, by one try from the keeper's seat, which then knows the slot as
    /// closed. None exactly where the word isn't shut, unclaimed, empty and of the key's generation: it was claimed
    /// before, or a caller is there, whose own step out tells the key again, and then the keeper's seat has the key among
    /// those that it found a caller of. So a key that is known as shut is always claimed where the keeper's seat has all of
    /// the places and nobody inside.
    pub fn claim(&self, seat: &mut GateSeat, last: Last) -> Option<Drain>
        requires own { (seat.old.gate ≡ self.now) × (last.gate ≡ self.now) }
        requires keeper { seat.old.knows.keeps ≡ true }
        ensures same { seat.new.gate ≡ seat.old.gate }
        ensures answer { ClaimsAs last seat.old.knows seat.new.knows result }
        ensures slot { last.key.slot < slots_in self.now }
        ensures found { level_in seat.new.knows.saw ≡ slice_index seat.old.knows.levels last.key.slot }
        ensures alone { IsAlone seat.old.knows → KnownShut last.key seat.old.knows.levels → is_some result ≡ true }
    {
        let Last { key, of } = last;
        let level = 4 * key.generation + 1;
        let shut = level * CALLERS;
        let found = self.table.shared.compare_exchange::<Claim>(
            &mut seat.seat,
            key.slot as usize,
            shut,
            (level + 2) * CALLERS,
        );
        if found == shut {
            Some(Drain { key, of })
        } else {
            None
        }
    }

    /// Gates that are all closed under a generation of 2^38 - 1 at most, and the keeper's seat, which has all of the
    /// 2^24 - 1 places. There may be 70,000 slots at most.
    pub fn new(
        alloc: Global,
        words: u32,
        generation: u64,
    ) -> Result<(CallGate, GateSeat), OutOfMemory>
        requires { (words ≤ 70000) × (generation < 2 ^ 38) }
        ensures { IfOk result (λ r. (slots_in r.0 ≡ words) × (r.1 ≡ record { gate = r.0; knows = first_view (replicate (words + 1) (4 * generation + 3)) })) }
    {
        let level = 4 * generation + 3;
        let count = words as usize + 1;
        let row = Vec::from_elem(alloc, level * CALLERS, count)?;
        let about = Beginning {
            count: u64::from(words) + 1,
            level,
        };
        let (table, seat) = Table::of_words(alloc, row.as_slice(), &about)?;
        let seat = GateSeat {
            seat,
            free: 16_777_215,
        };
        Ok((CallGate { table }, seat))
    }

    /// Gives some of a seat's free places, one at least but not all, to a second seat. Where the first is the keeper's,
    /// it stays so. It takes no memory today, so it has no refusal.
    pub fn split(
        &self,
        seat: GateSeat,
        places: u32,
    ) -> Result<(GateSeat, GateSeat), (GateSeat, OutOfMemory)>
        requires own { seat.gate ≡ self.now }
        requires room { (0 < places) × (places < seat.knows.places - length seat.knows.inside) }
        ensures first { IfOk result (λ r. r.0 ≡ record seat { knows = record seat.knows { places = seat.knows.places - places } }) }
        ensures second { IfOk result (λ r. r.1 ≡ record { gate = seat.gate; knows = seat_view places [] (if seat.knows.keeps then seat.knows.levels else seat.knows.heard) }) }
        ensures never { IfErr result (λ _. ⊥) }
    {
        let GateSeat { mut seat, free } = seat;
        let count = u64::from(places);
        self.table
            .shared
            .compare_exchange::<Mark>(&mut seat, 0, count, count);
        let other = self.table.shared.split_seat::<Deal>(&mut seat);
        Ok((
            GateSeat {
                seat,
                free: free - places,
            },
            GateSeat {
                seat: other,
                free: places,
            },
        ))
    }

    /// Joins two seats: the first has then the places and the callers inside of both, and is the keeper's where it was.
    /// The second isn't the keeper's.
    pub fn join(&self, seat: GateSeat, other: GateSeat) -> GateSeat
        requires { (seat.gate ≡ self.now) × (other.gate ≡ self.now) × (other.knows.keeps ≡ false) }
        ensures { result ≡ record seat { knows = record (both_of seat.knows other.knows) { saw = result.knows.saw; at = result.knows.at } } }
    {
        let GateSeat { mut seat, free } = seat;
        let GateSeat {
            seat: other,
            free: other_free,
        } = other;
        self.table.shared.join_seat::<Together>(&mut seat, other);
        self.table.shared.load::<Look>(&mut seat, 0);
        GateSeat {
            seat,
            free: free + other_free,
        }
    }

    /// Tells a seat what the keeper knows of each slot. It changes no gate, and shows that no key that the seat has a caller
    /// inside of is known to the keeper as claimed.
    pub fn hear(&self, keeper: &mut GateSeat, seat: &mut GateSeat)
        requires own { (keeper.old.gate ≡ self.now) × (seat.old.gate ≡ self.now) }
        requires keeper { keeper.old.knows.keeps ≡ true }
        ensures kept { keeper.new ≡ keeper.old }
        ensures heard { seat.new ≡ record seat.old { knows = record seat.old.knows { heard = keeper.old.knows.levels; saw = seat.new.knows.saw; at = seat.new.knows.at } } }
        ensures unclaimed { NoneClaimed seat.old.knows.inside keeper.old.knows.levels }
    {
        let note = self.table.shared.split_seat::<Deal>(&mut keeper.seat);
        self.table.shared.join_seat::<Hear>(&mut seat.seat, note);
        self.table.shared.load::<Look>(&mut seat.seat, 0);
    }

    /// Shows that a key with a caller inside is not known to the keeper as claimed, wherever the caller's seat is. It
    /// changes no gate: the caller's seat hears what the keeper knows.
    pub fn not_claimed(&self, keeper: &mut GateSeat, seat: &mut GateSeat, inside: &Inside)
        requires own { (keeper.old.gate ≡ self.now) × (seat.old.gate ≡ self.now) }
        requires keeper { keeper.old.knows.keeps ≡ true }
        requires inside { HasKey inside.now.key.slot inside.now.key.generation seat.old.knows.inside }
        ensures kept { keeper.new ≡ keeper.old }
        ensures heard { seat.new ≡ record seat.old { knows = record seat.old.knows { heard = keeper.old.knows.levels; saw = seat.new.knows.saw; at = seat.new.knows.at } } }
        ensures unclaimed { ¬ KnownClaimed inside.now.key keeper.old.knows.levels }
    {
        let _inside = inside;
        self.hear(keeper, seat);
    }

    // A seat of these gates that knows nothing else.
    fn witness(&self, seat: &mut GateSeat) -> Seat<(), GateView>
        requires { seat.old.gate ≡ self.now }
        ensures same { seat.new ≡ seat.old }
        ensures gate { result.table_id ≡ self.now }
    {
        self.table.shared.split_seat::<Witness>(&mut seat.seat)
    }
}

// The key of the word that a caller stepped out of, if that left it shut, unclaimed and empty.
fn last_of(of: Seat<(), GateView>, slot: u32, left: u64) -> Option<Last>
    requires { slot < slots_in of.table_id }
    ensures { LastIs of.table_id slot left result }
{
    let level = left / CALLERS;
    if level % 4 == 1 && left % CALLERS == 1 {
        Some(Last {
            key: GateKey {
                slot,
                generation: level / 4,
            },
            of,
        })
    } else {
        None
    }
}
