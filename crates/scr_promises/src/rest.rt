//! What waits for nothing any more is as it is to be. Our own; what is right is OSGi Compendium 8, chapter 112.
ghost use Rattle.scr_world.specs.Legal.{IsLegal};
ghost use Rattle.scr_world.specs.Lists.{world_of};
ghost use Rattle.scr_world.specs.Quiet.{IsQuiet, IsRight};
ghost use Rattle.scr_world.specs.Steps.{History};
ghost use Rattle.std.specs.Prelude.{ℕ};

/// For contracts alone: a quiet legal journal is right. Just the satisfied component configurations that haven't
/// failed are open, every instance is active and isn't ending, every wanted key has its instance, and every instance
/// holds for each reference what it desires, and for a greedy one what it would choose now. Journals are read from
/// the last entry back.
pub fn note_quiet_is_right()
    ensures { (limit : ℕ) → (past : History) → IsLegal limit past → IsQuiet (world_of past) → IsRight (world_of past) }
{}
