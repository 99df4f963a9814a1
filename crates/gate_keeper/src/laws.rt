//! That the keeper's levels stay as they should be.
ghost use Rattle.atomic_table.specs.Seated.{TableId};
ghost use Rattle.call_gate.specs.Calls.{slots_in};
ghost use Rattle.call_gate.specs.Holders.{HeldKey};
ghost use Rattle.gate_keeper.specs.Keepers.{AreOpen, AreToShut, CanReopen, Claims, IsKept, IsOrderly, KeeperView, KnowsKey, NoneShut, ShutAreVisited, ShutsAll, Takes, all_shelved, is_shelved, is_visited, reopened, with_level, with_more, with_shut_all};
ghost use Rattle.journal_core.specs.declared.entry.GateKey.{GateKey};
ghost use Rattle.std.specs.Prelude.{◌≡◌, ◌+◌, ◌*◌, ◌/◌, ◌%◌, ◌<◌, ◌⊎◌, ℕ, List, [], replicate, true};

/// For contracts alone: the keeper of gates that are made knows each slot as it should be, where that is closed under the
/// generation 0.
#[tactic(auto, using(crate::proofs::Levels::first_kept))]
pub fn note_first()
    ensures { (gate : TableId) → (places : ℕ) → (level : ℕ → ℕ) → ((slot : ℕ) → slot < slots_in gate → level slot ≡ 3) → IsKept level (record { gate = gate; levels = replicate (slots_in gate + 1) 3; places = places; shelf = []; visited = [] }) }
{}

/// For contracts alone: where a keeper knows each slot as it should be, it does so once it has opened one that should be
/// open under this key now.
#[tactic(auto, using(crate::proofs::Levels::reopened_kept))]
pub fn note_reopened()
    ensures { (level : ℕ → ℕ) → (k : KeeperView) → (key : GateKey) → IsOrderly k → IsKept level k → CanReopen k key → IsKept (with_level level key.slot (4 * key.generation)) (reopened key k) }
{}

/// For contracts alone: the same once it has shut the gates that should be shut now, and were open.
#[tactic(auto, using(crate::proofs::Levels::all_shut_kept))]
pub fn note_shut()
    ensures { (level : ℕ → ℕ) → (keys : List GateKey) → (before after : KeeperView) → IsOrderly before → IsKept level before → AreOpen before keys → ShutsAll keys before after → IsKept (with_shut_all level keys) after }
{}

/// For contracts alone: the same once it was told a key as last, where each slot should be as before.
#[tactic(auto, using(crate::proofs::Levels::told_kept))]
pub fn note_told()
    ensures { (level : ℕ → ℕ) → (key : GateKey) → (before after : KeeperView) → IsOrderly before → IsKept level before → Claims key before after → IsKept level after }
{}

/// For contracts alone: the same once a drain was taken from its shelf, where the slot of it should be closed now.
#[tactic(auto, using(crate::proofs::Levels::taken_kept))]
pub fn note_taken()
    ensures { (level : ℕ → ℕ) → (drain : HeldKey) → (before after : KeeperView) → IsKept level before → Takes drain before after → IsKept (with_more level drain.key.slot 2) after }
{}

/// For contracts alone: a keeper that knows each slot as it should be can open one that should be closed under the
/// generation before this key's.
#[tactic(auto, using(crate::proofs::Known::can_reopen))]
pub fn note_can_reopen()
    ensures { (level : ℕ → ℕ) → (k : KeeperView) → (key : GateKey) → IsOrderly k → IsKept level k → key.slot < slots_in k.gate → level key.slot + 1 ≡ 4 * key.generation → key.generation < 274877906944 → CanReopen k key }
{}

/// For contracts alone: it can shut slots that should be open under these keys.
#[tactic(auto, using(crate::proofs::Known::can_shut))]
pub fn note_can_shut()
    ensures { (level : ℕ → ℕ) → (k : KeeperView) → (keys : List GateKey) → IsOrderly k → IsKept level k → AreToShut level (slots_in k.gate) keys → AreOpen k keys }
{}

/// For contracts alone: it knows each key of its gates by what the key's slot should be.
#[tactic(auto, using(crate::proofs::Known::knows_key))]
pub fn note_known()
    ensures { (level : ℕ → ℕ) → (k : KeeperView) → (key : GateKey) → IsOrderly k → IsKept level k → key.slot < slots_in k.gate → KnowsKey level k key }
{}

/// For contracts alone: a keeper for which no gate is shut has none once it has shut some, where the drain of each came on
/// the shelf at once.
#[tactic(auto, using(crate::proofs::Alone::all_none))]
pub fn note_none_shut()
    ensures { (keys : List GateKey) → (k : KeeperView) → NoneShut k → NoneShut (all_shelved keys k) }
{}

/// For contracts alone: where no gate is shut for a keeper that knows each slot as it should be, the drain of each slot
/// that should be shut is on the shelf.
#[tactic(auto, using(crate::proofs::Alone::shut_is_shelved))]
pub fn note_shelved()
    ensures { (level : ℕ → ℕ) → (k : KeeperView) → IsOrderly k → IsKept level k → NoneShut k → (slot : ℕ) → slot < slots_in k.gate → level slot % 4 ≡ 1 → is_shelved k.shelf slot ≡ true }
{}

/// For contracts alone: where each gate that a keeper knows as shut was visited, and it knows each slot as it should be,
/// each slot that should be shut was visited under its generation, or its drain is on the shelf.
#[tactic(auto, using(crate::proofs::Meetings::shut_is_met))]
pub fn note_shut_met()
    ensures { (level : ℕ → ℕ) → (k : KeeperView) → IsOrderly k → IsKept level k → ShutAreVisited k → (slot : ℕ) → slot < slots_in k.gate → level slot % 4 ≡ 1 → (is_shelved k.shelf slot ≡ true) ⊎ (is_visited k.visited slot (level slot / 4) ≡ true) }
{}

/// For contracts alone: for a keeper that nobody visited no gate is shut.
#[tactic(auto, using(crate::proofs::Meetings::none_met))]
pub fn note_nobody()
    ensures { (k : KeeperView) → ShutAreVisited k → k.visited ≡ [] → NoneShut k }
{}
