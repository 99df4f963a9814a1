//! Gates that move with the journal.
ghost use Rattle.gate_keeper.specs.Keepers.{AreOpen, CanReopen, HasAll, ShutsAll, all_shelved};
ghost use Rattle.hall_locked.specs.Moving.{reopened_if};
ghost use Rattle.std.specs.Prelude.{◌≡◌, IfSome};

use call_gate::CallGate;
use gate_keeper::Keeper;
use journal_core::GateKey;

// Opens the gate of this key again, if there is one.
pub(crate) fn reopen(keeper: &mut Keeper, gate: &CallGate, key: Option<GateKey>)
    requires own { keeper.old.gate ≡ gate.now }
    requires can { IfSome key (λ k. CanReopen keeper.old k) }
    ensures { keeper.new ≡ reopened_if key keeper.old }
{
    match key {
        Some(key) => keeper.reopen(gate, key),
        None => {}
    }
}

// What the end of a turn does to gates: this one is reopened, if there is one, and then these are shut.
pub(crate) fn move_gates(
    keeper: &mut Keeper,
    gate: &CallGate,
    reopened: Option<GateKey>,
    shut: &[GateKey],
)
    requires own { keeper.old.gate ≡ gate.now }
    requires can { IfSome reopened (λ k. CanReopen keeper.old k) }
    requires open { AreOpen (reopened_if reopened keeper.old) shut.now }
    ensures shut { ShutsAll shut.now (reopened_if reopened keeper.old) keeper.new }
    ensures alone { HasAll keeper.old → keeper.new ≡ all_shelved shut.now (reopened_if reopened keeper.old) }
{
    reopen(keeper, gate, reopened);
    keeper.shut_all(gate, shut);
}
