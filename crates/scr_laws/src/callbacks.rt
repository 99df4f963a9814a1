//! The callbacks of instances.
ghost use Rattle.scr_laws.specs.Callbacks.{AreApart, HaveTheirTurns};
ghost use Rattle.scr_world.specs.Legal.{IsLegal};
ghost use Rattle.scr_world.specs.Lists.{world_of};
ghost use Rattle.scr_world.specs.Steps.{History};
ghost use Rattle.std.specs.Prelude.{ℕ};

/// For contracts alone: the callbacks of each living instance of a legal journal, that of the whiteboard too, are the
/// turns that told it, in order, each with its outcome.
pub fn note_callbacks()
    ensures { (limit : ℕ) → (journal : History) → IsLegal limit journal → HaveTheirTurns journal }
{}

/// For contracts alone: the living instances of a legal journal have numbers of their own, that of the whiteboard too,
/// and no two were told last by one turn.
pub fn note_living()
    ensures { (limit : ℕ) → (journal : History) → IsLegal limit journal → AreApart (world_of journal) }
{}
