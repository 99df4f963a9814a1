//! Where direct causes stand in a legal journal.
ghost use Rattle.scr_causes.specs.CauseLaws.{TellWhy};
ghost use Rattle.scr_world.specs.Legal.{IsLegal};
ghost use Rattle.scr_world.specs.Lists.{world_of};
ghost use Rattle.scr_world.specs.Steps.{History};
ghost use Rattle.std.specs.Prelude.{ℕ};

/// For contracts alone: in every legal journal a component configuration that hasn't ceased has a direct cause exactly
/// where it isn't satisfied (OSGi Compendium 8, chapter 112, "Satisfied"). Journals are read from the last entry back.
pub fn note_causes()
    ensures { (limit : ℕ) → (past : History) → IsLegal limit past → TellWhy (world_of past) }
{}
