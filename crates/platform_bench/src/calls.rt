//! Calls through one gate.
ghost use Rattle.std.specs.Prelude.{◌≡◌, ◌<◌, true, length, IfSome};
ghost use Rattle.call_gate.specs.Calls.{slots_in};

use call_gate::{CallGate, Entered, GateSeat, Last};
use journal_core::GateKey;
use prop_map::OutOfMemory;
use std::alloc::Global;

// Claims the drain of a key that was told as last. Nobody waits for it here.
fn settle(gate: &CallGate, keeper: &mut GateSeat, last: Option<Last>)
    requires own { keeper.old.gate ≡ gate.now }
    requires keeper { keeper.old.knows.keeps ≡ true }
    requires slot { IfSome last (λ key. key.gate ≡ gate.now) }
    ensures same { (keeper.new.gate ≡ keeper.old.gate) × (keeper.new.knows.keeps ≡ true) × (keeper.new.knows.inside ≡ keeper.old.knows.inside) × (keeper.new.knows.places ≡ keeper.old.knows.places) }
{
    let Some(last) = last else {
        return;
    };
    match gate.claim(keeper, last) {
        Some(drain) => {
            drain.spend();
        }
        None => {}
    }
}

// Enters and leaves once, from the keeper's seat. Says whether it was inside.
fn call_once(gate: &CallGate, keeper: &mut GateSeat, key: GateKey) -> bool
    requires own { (keeper.old.gate ≡ gate.now) × (key.slot < slots_in gate.now) }
    requires keeper { keeper.old.knows.keeps ≡ true }
    requires room { length keeper.old.knows.inside < keeper.old.knows.places }
    ensures same { (keeper.new.gate ≡ keeper.old.gate) × (keeper.new.knows.keeps ≡ true) × (keeper.new.knows.inside ≡ keeper.old.knows.inside) × (keeper.new.knows.places ≡ keeper.old.knows.places) }
{
    match gate.enter(keeper, key) {
        Entered::Inside(inside) => {
            let last = gate.leave(keeper, inside);
            settle(gate, keeper, last);
            true
        }
        Entered::Gone {
            generation: _,
            shut: _,
            last,
        } => {
            settle(gate, keeper, last);
            false
        }
    }
}

// How many of so many calls were inside.
fn count_calls(gate: &CallGate, keeper: &mut GateSeat, key: GateKey, count: u64) -> u64
    requires own { (keeper.old.gate ≡ gate.now) × (key.slot < slots_in gate.now) }
    requires keeper { keeper.old.knows.keeps ≡ true }
    requires room { length keeper.old.knows.inside < keeper.old.knows.places }
{
    let mut called = 0u64;
    for _ in 0..count {
        if call_once(gate, keeper, key) {
            called = called.saturating_add(1);
        }
    }
    called
}

/// How many of so many calls through one open gate were inside.
pub fn call_often(alloc: Global, count: u64) -> Result<u64, OutOfMemory> {
    let (gate, mut keeper) = CallGate::new(alloc, 1, 0)?;
    match gate.reopen(&mut keeper, 0) {
        Ok(key) => Ok(count_calls(&gate, &mut keeper, key, count)),
        Err(_) => Ok(0),
    }
}
