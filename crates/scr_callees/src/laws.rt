//! Laws of whom calls reach.
ghost use Rattle.scr_callees.specs.Callees.{ReachActive};
ghost use Rattle.scr_world.specs.Legal.{IsLegal};
ghost use Rattle.scr_world.specs.Lists.{world_of};
ghost use Rattle.scr_world.specs.Steps.{History};
ghost use Rattle.std.specs.Prelude.{ℕ};

/// For contracts alone: in a legal journal whoever is reached by a get, by a nested call, or as a servlet that the
/// whiteboard's instance holds, is active. So its Create is done.
pub fn note_callees()
    ensures { (limit : ℕ) → (past : History) → IsLegal limit past → ReachActive (world_of past) }
{}
