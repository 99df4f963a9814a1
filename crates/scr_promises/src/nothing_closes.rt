//! A calm platform that settles closes no component configuration.
ghost use Rattle.scr_promises.specs.Settlings.{NothingCloses, OnlySettles};
ghost use Rattle.scr_world.specs.Bounds.{is_calm};
ghost use Rattle.scr_world.specs.Legal.{IsLegal};
ghost use Rattle.scr_world.specs.Lists.{world_of};
ghost use Rattle.scr_world.specs.Steps.{History};
ghost use Rattle.std.specs.Prelude.{◌≡◌, ◌++◌, ℕ, true};

/// For contracts alone: where a legal journal is calm and turns begin and end and gates are drained behind it, without
/// any command, and no creation or activation ends other than Done, no component configuration closes. Journals are read
/// from the last entry back.
pub fn note_nothing_closes()
    ensures { (limit : ℕ) → (past entries : History) → IsLegal limit (entries ++ past) → is_calm (world_of past) ≡ true → OnlySettles past entries → NothingCloses entries }
{}
