//! The keys of the gates that a journal opens.
ghost use Rattle.scr_laws.specs.GateKeys.{generations_of, keys_differ, keys_of};
ghost use Rattle.scr_laws.specs.Numbers.{AreNumbersOn};
ghost use Rattle.scr_world.specs.Steps.{History};
ghost use Rattle.std.specs.Prelude.{◌≡◌, ℕ, true};

/// For contracts alone: each slot is opened with the generations 1, 2 and so on, over a journal, whether it is legal
/// or not, so no key of a gate, which is a slot and a generation, is opened twice. Journals are read from the last
/// entry back.
pub fn note_gate_keys()
    ensures generations { (journal : History) → (slot : ℕ) → AreNumbersOn (generations_of slot (keys_of journal)) }
    ensures different { (journal : History) → keys_differ (keys_of journal) ≡ true }
{}
