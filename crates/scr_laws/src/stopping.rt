//! When a bundle is stopping.
ghost use Rattle.scr_laws.specs.Stopping.{StopsForInstances};
ghost use Rattle.scr_world.specs.Legal.{IsLegal};
ghost use Rattle.scr_world.specs.Lists.{world_of};
ghost use Rattle.scr_world.specs.Steps.{History};
ghost use Rattle.std.specs.Prelude.{ℕ};

/// For contracts alone: an installed bundle of a legal journal is STOPPING exactly where it isn't ACTIVE and an
/// instance of one of its components, or one that was made for it, lives.
pub fn note_stopping()
    ensures { (limit : ℕ) → (past : History) → IsLegal limit past → StopsForInstances (world_of past) }
{}
