//! Entries of commands that no component tells apart.
ghost use Rattle.journal_core.specs.declared.entry.Entry.{Entry};
ghost use Rattle.prop_map.specs.Words.{has};
ghost use Rattle.scr_unseen.specs.Unseen.{HasNoLists, is_unseen};
ghost use Rattle.scr_world.specs.Legal.{IsLegal};
ghost use Rattle.scr_world.specs.Lists.{world_of};
ghost use Rattle.scr_world.specs.Steps.{History};
ghost use Rattle.scr_world.specs.Worlds.{satisfied_in};
ghost use Rattle.scr_world.specs.declared.step.Step.{Step};
ghost use Rattle.std.specs.Prelude.{◌≡◌, ◌∷◌, ℕ, true};

/// For contracts alone, of a command in a legal journal that is a get or its return, that adds or removes a listener, or
/// that registers, changes or unregisters a service that meets no need of a component, before it or after: nothing closes, opens or stops, what is open is the same, and the same
/// component configurations are satisfied.
pub fn note_unseen()
    ensures lists { (limit : ℕ) (entry : Entry Step) (past : History) → IsLegal limit (entry ∷ past)
        → is_unseen entry.step (world_of past) ≡ true → HasNoLists entry }
    ensures open { (limit : ℕ) (entry : Entry Step) (past : History) → IsLegal limit (entry ∷ past)
        → is_unseen entry.step (world_of past) ≡ true → (world_of (entry ∷ past)).open_periods ≡ (world_of past).open_periods }
    ensures satisfied { (limit : ℕ) (entry : Entry Step) (past : History) → IsLegal limit (entry ∷ past)
        → is_unseen entry.step (world_of past) ≡ true
        → (number : ℕ) → has (satisfied_in (world_of (entry ∷ past))) number ≡ has (satisfied_in (world_of past)) number }
{}
