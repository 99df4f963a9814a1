//! What entries do to gates.
ghost use Rattle.journal_core.specs.declared.entry.Entry.{Entry};
ghost use Rattle.scr_laws.specs.Gates.{HaveLastGenerations, shuts_nothing};
ghost use Rattle.scr_world.specs.Consequences.{shut_between};
ghost use Rattle.scr_world.specs.Legal.{IsLegal};
ghost use Rattle.scr_world.specs.Lists.{world_of};
ghost use Rattle.scr_world.specs.Steps.{History};
ghost use Rattle.scr_world.specs.declared.step.Step.{Step};
ghost use Rattle.std.specs.Prelude.{ℕ, ◌≡◌, [], ◌∷◌, true};

/// For contracts alone: where a turn begins, a drain is posted, or a service is got by a token or released, no
/// instance of a legal journal begins to be drained. Journals are read from the last entry back.
pub fn note_nothing_shut()
    ensures { (limit : ℕ) → (entry : Entry Step) → (past : History) → IsLegal limit (entry ∷ past) → shuts_nothing entry.step ≡ true → shut_between (world_of past) (world_of (entry ∷ past)) ≡ [] }
{}

/// For contracts alone: each active instance of a legal journal has the last generation with which its slot was
/// opened.
pub fn note_generations()
    ensures { (limit : ℕ) → (journal : History) → IsLegal limit journal → HaveLastGenerations journal }
{}
