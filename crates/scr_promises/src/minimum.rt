//! How many services active instances hold.
ghost use Rattle.scr_promises.specs.Minimums.{KeepMinimum};
ghost use Rattle.scr_world.specs.Legal.{IsLegal};
ghost use Rattle.scr_world.specs.Steps.{History};
ghost use Rattle.std.specs.Prelude.{ℕ};

/// For contracts alone: from the end of its Activate to the end of its Deactivate an instance of a legal journal holds
/// for each of its references at least as many different services as the least minimum that this has had since the
/// instance's Create, while its component configuration existed. That holds also while a callback is under way. The
/// references of the instance differ in name. Journals are read from the last entry back.
pub fn note_minimum()
    ensures { (limit : ℕ) → (past : History) → IsLegal limit past → KeepMinimum past }
{}
