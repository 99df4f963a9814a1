//! What instances hold, and who provides it.
ghost use Rattle.scr_promises.specs.Holdings.{HoldKnown};
ghost use Rattle.scr_promises.specs.Providers.{HaveProviders};
ghost use Rattle.scr_world.specs.Legal.{IsLegal};
ghost use Rattle.scr_world.specs.Lists.{world_of};
ghost use Rattle.scr_world.specs.Steps.{History};
ghost use Rattle.std.specs.Prelude.{ℕ};

/// For contracts alone: each service that an instance of a legal journal holds, that of the whiteboard too, is known,
/// as it is or as it was when it was unregistered, and has the interface that its reference names.
pub fn note_held_services()
    ensures { (limit : ℕ) → (past : History) → IsLegal limit past → HoldKnown (world_of past) }
{}

/// For contracts alone: each service that an instance of a legal journal holds, that of the whiteboard too, has no
/// component behind it, or is served by an instance that is active and was not told of Deactivate.
pub fn note_providers()
    ensures { (limit : ℕ) → (past : History) → IsLegal limit past → HaveProviders (world_of past) }
{}
