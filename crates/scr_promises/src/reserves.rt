//! The entries that are reserved.
ghost use Rattle.scr_promises.specs.Reserves.{IsReservedBy};
ghost use Rattle.scr_world.specs.Legal.{IsLegal};
ghost use Rattle.scr_world.specs.Steps.{History};
ghost use Rattle.std.specs.Prelude.{ℕ};

/// For contracts alone: what is reserved in a legal journal is, by its entries, the end of each turn that has none,
/// the drain of each living instance whose Activate was begun and hasn't failed, until that stands there, and the
/// release of each get by token. Journals are read from the last entry back.
pub fn note_reserved()
    ensures { (limit : ℕ) → (journal : History) → IsLegal limit journal → IsReservedBy journal }
{}
