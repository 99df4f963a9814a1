//! Gets, and the instances that they are of.
ghost use Rattle.scr_promises.specs.Gets.{GotGoOn};
ghost use Rattle.scr_world.specs.Legal.{IsLegal};
ghost use Rattle.scr_world.specs.Lists.{world_of};
ghost use Rattle.scr_world.specs.Steps.{History};
ghost use Rattle.std.specs.Prelude.{ℕ};

/// For contracts alone: as long as a bundle's get of a service stands in a legal journal, the instance that serves it
/// isn't ending.
pub fn note_gets()
    ensures { (limit : ℕ) → (past : History) → IsLegal limit past → GotGoOn (world_of past) }
{}
