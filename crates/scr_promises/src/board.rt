//! When what the whiteboard's instance holds stays.
ghost use Rattle.journal_core.specs.declared.entry.Entry.{Entry};
ghost use Rattle.scr_promises.specs.Board.{HasSameRows};
ghost use Rattle.scr_readers.specs.Board.{board_changes, changes_board};
ghost use Rattle.scr_world.specs.Legal.{IsLegal};
ghost use Rattle.scr_world.specs.Lists.{world_of};
ghost use Rattle.scr_world.specs.Steps.{History};
ghost use Rattle.scr_world.specs.declared.step.Step.{Step};
ghost use Rattle.std.specs.Prelude.{◌≡◌, ℕ, ◌++◌, ◌∷◌, false};

/// For contracts alone: in an entry of a legal journal whose step is neither a command nor one of its own turns, the whiteboard's
/// instance holds the same rows. Journals are read from the last entry back.
pub fn note_board_stays()
    ensures { (limit : ℕ) → (entry : Entry Step) → (past : History) → IsLegal limit (entry ∷ past)
        → changes_board entry.step (world_of past) ≡ false → HasSameRows (world_of past) (world_of (entry ∷ past)) }
{}

/// For contracts alone: where as many entries of a legal journal as of one that it goes on from may have changed what the
/// whiteboard's instance holds, it holds the same rows.
pub fn note_board_rows()
    ensures { (limit : ℕ) → (more past : History) → IsLegal limit (more ++ past)
        → board_changes (more ++ past) ≡ board_changes past → HasSameRows (world_of past) (world_of (more ++ past)) }
{}
