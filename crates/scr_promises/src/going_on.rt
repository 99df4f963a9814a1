//! That a legal journal can always go on, but for room.
ghost use Rattle.scr_promises.specs.GoingOn.{IsNotStuck};
ghost use Rattle.scr_world.specs.Legal.{IsLegal};
ghost use Rattle.scr_world.specs.Steps.{History};
ghost use Rattle.std.specs.Prelude.{ℕ};

/// For contracts alone: no legal journal is stuck. Each turn that is under way may end with each outcome, each drain
/// that is awaited may be posted, and each get by token that stands may be released, always, as their entries are
/// reserved. Where a turn is due it is there, and an entry of it follows exactly where the journal has room for it: two
/// entries, three at an Activate. So a legal journal is quiet, or an entry of the platform's own follows, or a callback or
/// a caller inside an ending instance is outstanding, or it is too full for the turn that is due. This rule is our own.
/// Journals are read from the last entry back.
pub fn note_no_legal_journal_is_stuck()
    ensures { (limit : ℕ) → (past : History) → IsLegal limit past → IsNotStuck limit past }
{}
