//! The limits of a platform.
ghost use Rattle.scr_laws.specs.Limits.{AreWithin};
ghost use Rattle.scr_world.specs.Legal.{IsLegal};
ghost use Rattle.scr_world.specs.Lists.{world_of};
ghost use Rattle.scr_world.specs.Steps.{History};
ghost use Rattle.std.specs.Prelude.{ℕ};

/// For contracts alone: in the world of every legal journal there are at most 128 bundles, 1,024 services that
/// commands registered, 1,024 configurations, 64 listeners, 512 component configurations and 66,048 living instances,
/// and each of these has a slot below 70,000.
pub fn note_limits()
    ensures { (limit : ℕ) → (past : History) → IsLegal limit past → AreWithin (world_of past) }
{}
