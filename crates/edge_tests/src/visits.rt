//! A call that is inside while its gate is shut.
ghost use Rattle.call_gate.specs.Gates.{HasKey};
ghost use Rattle.gate_keeper.specs.Keepers.{IsOpen};
ghost use Rattle.std.specs.Prelude.{◌≡◌};

use call_gate::{Entered, Inside};
use gate_keeper::Keeper;
use gate_visits::{CallGate, Visitor};
use journal_core::GateKey;
use std::alloc::Global;

// Whether the drain of a gate that is shut while a call is inside comes on the shelf once the call has left, and not before.
fn is_drained_behind(
    gate: &CallGate,
    keeper: &mut Keeper,
    visitor: &mut Visitor,
    inside: Inside,
) -> bool
    requires own { (keeper.old.gate ≡ gate.now) × (visitor.old.gate ≡ gate.now) × (inside.gate ≡ gate.now) }
    requires inside { HasKey inside.key.slot inside.key.generation visitor.old.inside }
    requires open { IsOpen keeper.old inside.key }
{
    keeper.shut(gate, inside.key());
    let early = keeper.owes();
    match visitor.leave(gate, inside) {
        Some(last) => {
            keeper.told(gate, last);
            !early && keeper.owes()
        }
        None => false,
    }
}

// Whether a call is inside a gate that was heard of as open, and is waited for when that is shut.
fn is_waited_for(alloc: Global) -> bool {
    let (gate, keeper) = match Keeper::new(alloc, 1) {
        Ok(made) => made,
        Err(_) => return false,
    };
    let (mut keeper, seat) = keeper.hand_out(&gate, 1);
    let mut visitor = Visitor::new(seat);
    let key = GateKey {
        slot: 0,
        generation: 1,
    };
    keeper.reopen(&gate, key);
    visitor.hear(&gate, &mut keeper);
    match visitor.enter(&gate, key) {
        Entered::Inside(inside) => is_drained_behind(&gate, &mut keeper, &mut visitor, inside),
        Entered::Gone {
            generation: _,
            shut: _,
            last,
        } => {
            if let Some(last) = last {
                keeper.told(&gate, last);
            }
            false
        }
    }
}

#[test]
fn a_shut_gate_waits_for_the_call_that_is_inside(rt: HostRuntime) {
    assert!(rt; is_waited_for(rt.alloc()));
}
