ghost use Rattle.std.specs.Prelude.{◌≡◌, true, IfSome};

use call_gate::{CallGate, Entered, GateSeat, Last};
use std::alloc::Global;

// Claims the drain of a key that was told as last, and says whether one was told and claimed.
fn claim_told(gate: &CallGate, keeper: &mut GateSeat, last: Option<Last>) -> bool
    requires own { keeper.old.gate ≡ gate.now }
    requires keeper { keeper.old.knows.keeps ≡ true }
    requires told { IfSome last (λ key. key.gate ≡ gate.now) }
    ensures same { (keeper.new.gate ≡ keeper.old.gate) × (keeper.new.knows.keeps ≡ true) }
{
    let Some(last) = last else {
        return false;
    };
    match gate.claim(keeper, last) {
        Some(drain) => {
            drain.spend();
            true
        }
        None => false,
    }
}

// Whether a slot that is shut in its last generation can't be opened again.
fn wears_out(alloc: Global) -> bool {
    match CallGate::new(alloc, 1, 274_877_906_942) {
        Ok((gate, mut keeper)) => match gate.reopen(&mut keeper, 0) {
            Ok(key) => match gate.shut(&mut keeper, key) {
                Some(last) => match gate.claim(&mut keeper, last) {
                    Some(drain) => {
                        drain.spend() == key
                            && key.generation == 274_877_906_943
                            && gate.reopen(&mut keeper, 0).is_err()
                    }
                    None => false,
                },
                None => false,
            },
            Err(_) => false,
        },
        Err(_) => false,
    }
}

#[test]
fn a_slot_wears_out_behind_its_last_generation(rt: HostRuntime) {
    assert!(rt; wears_out(rt.alloc()));
}

// Whether the shut of a gate isn't told as the last step there while somebody is inside, and the leave is.
fn last_is_told(alloc: Global) -> bool {
    let (gate, keeper) = match CallGate::new(alloc, 1, 0) {
        Ok(made) => made,
        Err(_) => return false,
    };
    let (mut keeper, mut seat) = match gate.split(keeper, 1) {
        Ok(both) => both,
        Err(_) => return false,
    };
    let key = match gate.reopen(&mut keeper, 0) {
        Ok(key) => key,
        Err(_) => return false,
    };
    let inside = match gate.enter(&mut seat, key) {
        Entered::Inside(inside) => inside,
        Entered::Gone {
            generation: _,
            shut: _,
            last,
        } => {
            claim_told(&gate, &mut keeper, last);
            return false;
        }
    };
    gate.not_claimed(&mut keeper, &mut seat, &inside);
    let early = gate.shut(&mut keeper, key);
    let early = claim_told(&gate, &mut keeper, early);
    let last = gate.leave(&mut seat, inside);
    let mut keeper = gate.join(keeper, seat);
    let told = claim_told(&gate, &mut keeper, last);
    !early && told
}

#[test]
fn the_last_caller_of_a_shut_gate_is_told(rt: HostRuntime) {
    assert!(rt; last_is_told(rt.alloc()));
}
