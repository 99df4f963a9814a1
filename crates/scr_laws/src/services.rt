//! The services of instances.
ghost use Rattle.scr_laws.specs.Services.{HaveOpenServices};
ghost use Rattle.scr_world.specs.Legal.{IsLegal};
ghost use Rattle.scr_world.specs.Lists.{world_of};
ghost use Rattle.scr_world.specs.Steps.{History};
ghost use Rattle.std.specs.Prelude.{ℕ};

/// For contracts alone: each living instance of an open period of a legal journal has the number of the service that is
/// registered for that period, 0 where the component has no interfaces.
pub fn note_services()
    ensures { (limit : ℕ) → (past : History) → IsLegal limit past → HaveOpenServices (world_of past) }
{}
