//! What listeners are told.
ghost use Rattle.journal_core.specs.declared.entry.Entry.{Entry};
ghost use Rattle.ldap_filter.specs.Trees.{Tree};
ghost use Rattle.scr_promises.specs.Events.{IsToldAll, IsToldOf, IsToldTruth};
ghost use Rattle.scr_world.specs.Legal.{IsLegal};
ghost use Rattle.scr_world.specs.Lists.{world_of};
ghost use Rattle.scr_world.specs.Steps.{History};
ghost use Rattle.scr_world.specs.declared.command.Command.TheVariants.{Listen};
ghost use Rattle.scr_world.specs.declared.step.Step.{Step};
ghost use Rattle.scr_world.specs.declared.step.Step.TheVariants.{Command as Commanded};
ghost use Rattle.service_listeners.specs.declared.listener.Listener.{Listener};
ghost use Rattle.std.specs.List.{Contains};
ghost use Rattle.std.specs.Prelude.{ℕ, ◌≡◌, ◌+◌, [], ◌∷◌, ◌++◌};

/// For contracts alone: the events that a listener of a legal journal was told, one after the other, lead from the
/// services that matched its filter at an earlier time to those that match it now (`between`), and all its events from
/// those that matched when it was registered (`all`). It has its filter and no event where it comes (`first`), and then
/// each entry tells it just what happened, of each service once at most, and in order (`truth`): REGISTERED where a
/// service came and matches, MODIFIED where its properties were set and match afterwards, MODIFIED_ENDMATCH where they
/// were set and matched before alone, UNREGISTERING where it left and matched; services that commands registered first,
/// by number, then those of components in the order of the pass. Journals are read from the last entry back.
pub fn note_events()
    ensures between { (limit : ℕ) → (later past : History) → IsLegal limit (later ++ past) → (old new : Listener) → Contains (world_of past).listeners.rows old → Contains (world_of (later ++ past)).listeners.rows new → new.number ≡ old.number → IsToldOf (world_of past) (world_of (later ++ past)) old new }
    ensures all { (limit : ℕ) → (later past : History) → (entry : Entry Step) → IsLegal limit (later ++ entry ∷ past) → (bundle : ℕ) → (tree : Tree) → entry.step ≡ Commanded (Listen bundle tree) → (new : Listener) → Contains (world_of (later ++ entry ∷ past)).listeners.rows new → new.number ≡ (world_of past).listeners.numbered + 1 → IsToldAll (world_of (entry ∷ past)) (world_of (later ++ entry ∷ past)) tree new }
    ensures first { (limit : ℕ) → (entry : Entry Step) → (past : History) → IsLegal limit (entry ∷ past) → (bundle : ℕ) → (tree : Tree) → entry.step ≡ Commanded (Listen bundle tree) → (new : Listener) → Contains (world_of (entry ∷ past)).listeners.rows new → new.number ≡ (world_of past).listeners.numbered + 1 → (new.filter ≡ tree) × (new.events ≡ []) }
    ensures truth { (limit : ℕ) → (entry : Entry Step) → (past : History) → IsLegal limit (entry ∷ past) → (old new : Listener) → Contains (world_of past).listeners.rows old → Contains (world_of (entry ∷ past)).listeners.rows new → new.number ≡ old.number → IsToldTruth (world_of past) (world_of (entry ∷ past)) old new }
{}
