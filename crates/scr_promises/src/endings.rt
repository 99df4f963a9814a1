//! When instances end.
ghost use Rattle.journal_core.specs.declared.entry.Entry.{Entry};
ghost use Rattle.scr_promises.specs.Endings.{EndInTime, GoOnEnding};
ghost use Rattle.scr_world.specs.Legal.{IsLegal};
ghost use Rattle.scr_world.specs.Lists.{world_of};
ghost use Rattle.scr_world.specs.Steps.{History};
ghost use Rattle.scr_world.specs.declared.step.Step.{Step};
ghost use Rattle.std.specs.Prelude.{ℕ, ◌∷◌};

/// For contracts alone: an instance of a legal journal that was told of Deactivate, or has left its active life, is
/// ending, and where its activation failed its open period has ended.
pub fn note_endings()
    ensures { (limit : ℕ) → (past : History) → IsLegal limit past → EndInTime (world_of past) }
{}

/// For contracts alone: an instance of a legal journal that is ending goes on ending as long as it lives, and an open
/// period of it that has ended doesn't come back. Journals are read from the last entry back.
pub fn note_goes_on_ending()
    ensures { (limit : ℕ) → (entry : Entry Step) → (past : History) → IsLegal limit (entry ∷ past) → GoOnEnding (world_of past) (world_of (entry ∷ past)) }
{}
