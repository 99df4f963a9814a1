//! The visitor.
ghost use Rattle.call_gate.specs.Calls.{NoneClaimed, slots_in};
ghost use Rattle.call_gate.specs.Gates.{HasKey, without};
ghost use Rattle.gate_visits.specs.Visits.{IsLastOf, Visits};
ghost use Rattle.std.specs.Prelude.{◌≡◌, ◌+◌, ◌-◌, ◌<◌, ◌++◌, [], false, length};

use call_gate::{CallGate, Entered, GateSeat, Inside, Last};
use gate_keeper::Keeper;
use journal_core::GateKey;
use std::marker::Model;

/// A seat from which calls enter gates, as many at once as it has places. Contracts see which gates, its places, the keys
/// that calls from it are inside of, the last first, and the level that it heard of each slot.
#[derive(Drop)]
pub struct Visitor {
    seat: GateSeat,
}

impl Model for Visitor {
    ghost use Rattle.gate_visits.specs.Visits.{VisitorView, visitor_of};
    ghost use Rattle.std.specs.Prelude.{◌≡◌, false};

    ghost Value = { VisitorView };

    ghost view = { λ v. visitor_of v.seat };

    ghost invariant = { λ v. v.seat.knows.keeps ≡ false };
}

impl Visitor {
    /// The visitor who has this seat, which isn't the keeper's.
    pub fn new(seat: GateSeat) -> Visitor
        requires { seat.knows.keeps ≡ false }
        ensures gate { result.gate ≡ seat.gate }
        ensures places { result.places ≡ seat.knows.places }
        ensures inside { result.inside ≡ seat.knows.inside }
        ensures heard { result.heard ≡ seat.knows.heard }
    {
        Visitor { seat }
    }

    /// Hears from the keeper how far each gate is. So none of the keys that calls are inside of is known to the keeper as
    /// claimed: the drain of none was told.
    pub fn hear(&mut self, gate: &CallGate, keeper: &mut Keeper)
        requires own { (self.old.gate ≡ gate.now) × (keeper.old.gate ≡ gate.now) }
        ensures kept { keeper.new ≡ keeper.old }
        ensures heard { self.new ≡ record self.old { heard = keeper.old.levels } }
        ensures unclaimed { NoneClaimed self.old.inside keeper.old.levels }
    {
        keeper.tell(gate, &mut self.seat);
    }

    /// Enters a gate under a key. The call is inside exactly where the gate is open under that key; else it has left
    /// again, and where it left a shut gate last it is told so. Where the visitor had heard that the gate is open under
    /// this key, a gate that is gone was shut since.
    pub fn enter(&mut self, gate: &CallGate, key: GateKey) -> Entered
        requires own { (self.old.gate ≡ gate.now) × (key.slot < slots_in gate.now) }
        requires room { length self.old.inside < self.old.places }
        ensures { Visits key self.old self.new result }
    {
        gate.enter(&mut self.seat, key)
    }

    /// Leaves the gate of a call, and is told its key where that leaves the gate shut, unclaimed and empty.
    pub fn leave(&mut self, gate: &CallGate, inside: Inside) -> Option<Last>
        requires own { (self.old.gate ≡ gate.now) × (inside.gate ≡ gate.now) }
        requires inside { HasKey inside.key.slot inside.key.generation self.old.inside }
        ensures left { self.new ≡ record self.old { inside = without inside.key.slot self.old.inside } }
        ensures last { IsLastOf self.old.gate inside.key.slot result }
    {
        gate.leave(&mut self.seat, inside)
    }

    /// Gives some of its free places, one at least but not all, to a second visitor, who has heard what it has.
    pub fn split(self, gate: &CallGate, places: u32) -> (Visitor, Visitor)
        requires own { self.gate ≡ gate.now }
        requires room { (0 < places) × (places < self.places - length self.inside) }
        ensures first { result.0 ≡ record self { places = self.places - places } }
        ensures second { result.1 ≡ record { gate = self.gate; places = places; inside = []; heard = self.heard } }
    {
        match gate.split(self.seat, places) {
            Ok((seat, other)) => (Visitor { seat }, Visitor { seat: other }),
            Err(_) => unreachable!(),
        }
    }

    /// Joins two visitors: the first has then the places and the calls of both.
    pub fn join(self, gate: &CallGate, other: Visitor) -> Visitor
        requires { (self.gate ≡ gate.now) × (other.gate ≡ gate.now) }
        ensures { result ≡ record self { places = self.places + other.places; inside = self.inside ++ other.inside } }
    {
        Visitor {
            seat: gate.join(self.seat, other.seat),
        }
    }
}
