//! What instances choose for their static references.
ghost use Rattle.scr_promises.specs.Choices.{ChoicesStand};
ghost use Rattle.scr_promises.specs.Statics.{KeepsStaticServices};
ghost use Rattle.scr_world.specs.Legal.{IsLegal};
ghost use Rattle.scr_world.specs.Lists.{world_of};
ghost use Rattle.scr_world.specs.Steps.{History};
ghost use Rattle.std.specs.Prelude.{ℕ};

/// For contracts alone: what an instance of a legal journal chose for a static reference are target services as long
/// as its open period goes on, and for a greedy one those that it would choose now.
pub fn note_choices_stand()
    ensures { (limit : ℕ) → (past : History) → IsLegal limit past → ChoicesStand (world_of past) }
{}

/// For contracts alone: from the end of an instance's Activate to its Deactivate, no service of a static reference is
/// bound or unbound in a legal journal.
pub fn note_static_services()
    ensures { (limit : ℕ) → (past : History) → IsLegal limit past → KeepsStaticServices (world_of past) }
{}
