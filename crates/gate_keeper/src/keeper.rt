//! The keeper.
ghost use Rattle.call_gate.specs.Calls.{KnownShut, NoneClaimed, slots_in};
ghost use Rattle.call_gate.specs.Starts.{seat_view};
ghost use Rattle.gate_keeper.specs.Keepers.{CanComeBack, CanReopen, Claims, HasAll, IsKeeper, IsOpen, IsOrderly, ShutAreVisited, Shuts, TakesFirst, is_some_key, keeper_of, reopened, shelved, shut_and_shelved};
ghost use Rattle.std.specs.Prelude.{◌≡◌, ◌+◌, ◌-◌, ◌<◌, ◌≤◌, [], ◌∷◌, IfOk, replicate, vec_capacity};

use call_gate::{CallGate, Drain, GateSeat, Last};
use journal_core::GateKey;
use prop_map::OutOfMemory;
use std::alloc::Global;
use std::marker::Model;

/// The keeper of gates. Contracts see which gates, the level that it knows of each slot, the places of its seat, the
/// keys whose drains are on its shelf, in the order in which they came there, and the keys that were visited: those of
/// which it found a caller as it shut their gates or tried to claim their drains.
///
/// Nobody is inside a gate from its own seat. Each drain on the shelf is of a slot that it knows as closed under the
/// drain's key, and no two are of one slot. Each gate that it knows as shut was visited: whoever leaves it last is told so.
#[derive(Drop)]
pub struct Keeper {
    seat: GateSeat,
    shelf: Vec<Drain>,
}

impl Model for Keeper {
    ghost use Rattle.gate_keeper.specs.Keepers.{IsKeeper, KeeperView, ShutAreVisited, keeper_of};
    ghost use Rattle.std.specs.Prelude.{vec_capacity};

    ghost Value = { KeeperView };

    ghost view = { λ k. keeper_of k.seat k.shelf.items };

    ghost invariant = { λ k. IsKeeper k.seat k.shelf.items (vec_capacity k.shelf) × ShutAreVisited (keeper_of k.seat k.shelf.items) };
}

impl Keeper {
    /// Gates that are all closed under the generation 0, 70,000 slots at most, and their keeper, with an empty shelf, which
    /// has room for the drains of all slots, and all of the 2^24 - 1 places.
    ///
    /// # Errors
    /// Only want of memory.
    pub fn new(alloc: Global, slots: u32) -> Result<(CallGate, Keeper), OutOfMemory>
        requires { slots ≤ 70000 }
        ensures { IfOk result (λ r. (slots_in r.0 ≡ slots) × (r.1 ≡ record { gate = r.0; levels = replicate (slots + 1) 3; places = 16777215; shelf = []; visited = [] })) }
    {
        let (gate, seat) = CallGate::new(alloc, slots, 0)?;
        let shelf = Vec::with_capacity(alloc, slots as usize + 1)?;
        Ok((gate, Keeper { seat, shelf }))
    }

    /// Gives some of the keeper's places, one at least but not all, to a seat of their own, from which nobody entered. It
    /// takes no memory.
    pub fn hand_out(self, gate: &CallGate, places: u32) -> (Keeper, GateSeat)
        requires own { self.gate ≡ gate.now }
        requires room { (0 < places) × (places < self.places) }
        ensures keeper { result.0 ≡ record self { places = self.places - places } }
        ensures seat { result.1 ≡ record { gate = self.gate; knows = seat_view places [] self.levels } }
    {
        let Keeper { seat, shelf } = self;
        match gate.split(seat, places) {
            Ok((seat, other)) => (Keeper { seat, shelf }, other),
            Err(_) => unreachable!(),
        }
    }

    /// Opens a closed slot under the next generation, which is this key's, below 2^38. It takes no memory.
    pub fn reopen(&mut self, gate: &CallGate, key: GateKey)
        requires own { self.old.gate ≡ gate.now }
        requires can { CanReopen self.old key }
        ensures { self.new ≡ reopened key self.old }
    {
        match gate.reopen(&mut self.seat, key.slot) {
            Ok(_) => {}
            Err(_) => unreachable!(),
        }
    }

    /// Shuts a gate that is open under this key. Where nobody is inside then its drain is claimed at once, and is the last
    /// on the shelf; else the key was visited, and whoever leaves it last is told so. Where the keeper has all of the places
    /// nobody is. It takes no memory.
    pub fn shut(&mut self, gate: &CallGate, key: GateKey)
        requires own { self.old.gate ≡ gate.now }
        requires open { IsOpen self.old key }
        ensures shut { Shuts key self.old self.new }
        ensures alone { HasAll self.old → self.new ≡ shut_and_shelved key self.old }
    {
        match gate.shut(&mut self.seat, key) {
            Some(last) => claim_onto(gate, &mut self.seat, &mut self.shelf, last),
            None => {}
        }
    }

    /// Takes the key of a gate that was left last: its drain is claimed, and is the last on the shelf. Where it was claimed
    /// before, all stays as it was; where somebody came since, the key was visited, and they are told it again. Where the
    /// keeper has all of the places, a gate that it knows as shut is always claimed. It takes no memory.
    pub fn told(&mut self, gate: &CallGate, last: Last)
        requires own { (self.old.gate ≡ gate.now) × (last.gate ≡ gate.now) }
        ensures claims { Claims last.key self.old self.new }
        ensures alone { HasAll self.old → KnownShut last.key self.old.levels → self.new ≡ shelved last.key self.old }
    {
        claim_onto(gate, &mut self.seat, &mut self.shelf, last);
    }

    /// Tells a seat what the keeper knows of each slot. It changes no gate, and shows that no key that the seat has a caller
    /// inside of is known to the keeper as claimed.
    pub fn tell(&mut self, gate: &CallGate, seat: &mut GateSeat)
        requires own { (self.old.gate ≡ gate.now) × (seat.old.gate ≡ gate.now) }
        ensures kept { self.new ≡ self.old }
        ensures heard { seat.new ≡ record seat.old { knows = record seat.old.knows { heard = self.old.levels; saw = seat.new.knows.saw; at = seat.new.knows.at } } }
        ensures unclaimed { NoneClaimed seat.old.knows.inside self.old.levels }
    {
        gate.hear(&mut self.seat, seat);
    }

    /// For contracts alone: what every keeper knows.
    pub fn note_orderly(&self)
        ensures { IsOrderly self.now }
    {
        let _ = &self.seat;
    }

    /// For contracts alone: each gate that a keeper knows as shut was visited.
    pub fn note_met(&self)
        ensures { ShutAreVisited self.now }
    {
        let _ = &self.seat;
    }

    /// Whether a drain is on the shelf.
    pub fn owes(&self) -> bool
        ensures { result ≡ is_some_key self.now.shelf }
    {
        !self.shelf.is_empty()
    }

    /// Takes the drain that is first on the shelf: `None` exactly where the shelf is empty. Whoever takes it posts it, or
    /// puts it back.
    pub fn take_drain(&mut self) -> Option<Drain>
        ensures { TakesFirst result self.old self.new }
    {
        if self.shelf.is_empty() {
            None
        } else {
            Some(self.shelf.remove(0))
        }
    }

    /// Puts a drain back that was taken, as the first on the shelf. It takes no memory.
    pub fn put_back(&mut self, drain: Drain)
        requires drain { CanComeBack self.old drain }
        ensures { self.new ≡ record self.old { shelf = drain.key ∷ self.old.shelf } }
    {
        match self.shelf.insert(0, drain) {
            Ok(()) => {}
            Err(_) => unreachable!(),
        }
    }
}

// Claims the drain of a key that was left last, which is then the last on the shelf, if it can be claimed.
fn claim_onto(gate: &CallGate, seat: &mut GateSeat, shelf: &mut Vec<Drain>, last: Last)
    requires own { (seat.old.gate ≡ gate.now) × (last.gate ≡ gate.now) }
    requires keeper { IsKeeper seat.old shelf.old.items (vec_capacity shelf.old) }
    ensures keeper { IsKeeper seat.new shelf.new.items (vec_capacity shelf.new) }
    ensures claims { Claims last.key (keeper_of seat.old shelf.old.items) (keeper_of seat.new shelf.new.items) }
    ensures alone { HasAll (keeper_of seat.old shelf.old.items) → KnownShut last.key seat.old.knows.levels → keeper_of seat.new shelf.new.items ≡ shelved last.key (keeper_of seat.old shelf.old.items) }
{
    match gate.claim(seat, last) {
        Some(drain) => shelf.push_reserved(drain),
        None => {}
    }
}
