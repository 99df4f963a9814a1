//! The keys of living instances.
ghost use Rattle.scr_laws.specs.Keys.{HaveOwnKeys};
ghost use Rattle.scr_world.specs.Legal.{IsLegal};
ghost use Rattle.scr_world.specs.Lists.{world_of};
ghost use Rattle.scr_world.specs.Steps.{History};
ghost use Rattle.std.specs.Prelude.{ℕ};

/// For contracts alone: no two living instances of a legal journal have one key, which is a component configuration
/// and the bundle that the instance was made for.
pub fn note_keys()
    ensures { (limit : ℕ) → (past : History) → IsLegal limit past → HaveOwnKeys (world_of past) }
{}
