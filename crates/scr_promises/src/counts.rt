//! For which component configurations a configuration counts.
ghost use Rattle.scr_promises.specs.Counts.{CountRightly};
ghost use Rattle.scr_world.specs.Legal.{IsLegal};
ghost use Rattle.scr_world.specs.Lists.{world_of};
ghost use Rattle.scr_world.specs.Steps.{History};
ghost use Rattle.std.specs.Prelude.{ℕ};

/// For contracts alone: the properties of each component configuration that exists in a legal journal are those of its
/// description and then those of the configurations that count for it, in the order of its PIDs, and of no others. So
/// the numbers that are told for a configuration are those of the component configurations of whose properties it is
/// part. Journals are read from the last entry back.
pub fn note_counts()
    ensures { (limit : ℕ) → (past : History) → IsLegal limit past → CountRightly (world_of past) }
{}
