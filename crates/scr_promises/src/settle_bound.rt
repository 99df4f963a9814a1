//! A calm platform that settles begins a bounded number of turns.
ghost use Rattle.scr_promises.specs.Bounds.{IsIdleAtBound, IsWithinBound};
ghost use Rattle.scr_promises.specs.Names.{HaveOwnNames};
ghost use Rattle.scr_promises.specs.Settlings.{OnlySettles};
ghost use Rattle.scr_world.specs.Bounds.{is_calm};
ghost use Rattle.scr_world.specs.Legal.{IsLegal};
ghost use Rattle.scr_world.specs.Lists.{world_of};
ghost use Rattle.scr_world.specs.Steps.{History};
ghost use Rattle.std.specs.Prelude.{◌≡◌, ◌++◌, ℕ, true};

/// For contracts alone: where a legal journal is calm, the references of each installed description differ in name, and
/// turns begin and end and gates are drained behind the journal, without any command and no creation or activation
/// ending other than Done, at most as many turns begin as the journal's settle bound says; and where just as many begin,
/// nothing is due behind them. Journals are read from the last entry back.
pub fn note_settles_within_bound()
    ensures within { (limit : ℕ) → (past entries : History) → IsLegal limit (entries ++ past) → is_calm (world_of past) ≡ true → HaveOwnNames (world_of past) → OnlySettles past entries → IsWithinBound past entries }
    ensures idle { (limit : ℕ) → (past entries : History) → IsLegal limit (entries ++ past) → is_calm (world_of past) ≡ true → HaveOwnNames (world_of past) → OnlySettles past entries → IsIdleAtBound past entries }
{}
