//! The events of bundles.
ghost use Rattle.scr_laws.specs.BundleEvents.{HasLived};
ghost use Rattle.scr_world.specs.Legal.{IsLegal};
ghost use Rattle.scr_world.specs.Lists.{world_of};
ghost use Rattle.scr_world.specs.Steps.{History};
ghost use Rattle.std.specs.Prelude.{ℕ};

/// For contracts alone: the events of each bundle of a legal journal come in the order of a bundle's life, and its
/// state is the one behind the last of them. Journals are read from the last entry back.
pub fn note_bundle_events()
    ensures { (limit : ℕ) → (past : History) → IsLegal limit past → (number : ℕ) → HasLived (world_of past).bundles number }
{}
