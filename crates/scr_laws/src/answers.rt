//! Answers are true afterwards.
ghost use Rattle.journal_core.specs.declared.entry.Entry.{Entry};
ghost use Rattle.scr_laws.specs.Answers.{IsTrueOf};
ghost use Rattle.scr_world.specs.Legal.{IsLegal};
ghost use Rattle.scr_world.specs.Lists.{world_of};
ghost use Rattle.scr_world.specs.Replies.{answer};
ghost use Rattle.scr_world.specs.Steps.{History};
ghost use Rattle.scr_world.specs.declared.command.Command.{Command};
ghost use Rattle.scr_world.specs.declared.step.Step.{Step};
ghost use Rattle.scr_world.specs.declared.step.Step.TheVariants.{Command as Commanded};
ghost use Rattle.std.specs.Prelude.{ℕ, ◌≡◌, ◌∷◌};

/// For contracts alone: behind each command of a legal journal what it answered is so: an installed bundle, a
/// registered service and a new listener are there under the numbers that were told, as they were asked for, and a
/// bundle that got or released a service uses it as often as it was told. Journals are read from the last entry back.
pub fn note_answers()
    ensures { (limit : ℕ) → (entry : Entry Step) → (past : History) → IsLegal limit (entry ∷ past) → (command : Command) → entry.step ≡ Commanded command → IsTrueOf command (answer (world_of past) command) (world_of (entry ∷ past)) }
{}
