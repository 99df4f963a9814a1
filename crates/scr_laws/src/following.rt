//! The entries that may follow a legal journal.
ghost use Rattle.component_state.specs.Passes.{HasPassed};
ghost use Rattle.component_state.specs.declared.pass.Passed.{Passed};
ghost use Rattle.journal_core.specs.declared.entry.Entry.{Entry};
ghost use Rattle.prop_map.specs.Words.{has};
ghost use Rattle.scr_laws.specs.Following.{entry_of};
ghost use Rattle.scr_world.specs.Consequences.{stage_of};
ghost use Rattle.scr_world.specs.Legal.{Follows, IsLegal, MayCome};
ghost use Rattle.scr_world.specs.Lists.{world_after_entry, world_of};
ghost use Rattle.scr_world.specs.Room.{has_room, needed_by};
ghost use Rattle.scr_world.specs.Steps.{History};
ghost use Rattle.scr_world.specs.Worlds.{satisfied_in};
ghost use Rattle.scr_world.specs.declared.step.Step.{Step};
ghost use Rattle.scr_world.specs.declared.world.World.{World};
ghost use Rattle.std.specs.Prelude.{ℕ, ◌≡◌, true};

/// For contracts alone: where a step may come after a legal journal and has room, and its pass was gone through, the
/// entry with what the pass closed and opened, and with the bundles that have stopped by the step, follows. Journals
/// are read from the last entry back.
pub fn note_follows()
    ensures { (limit : ℕ) → (past : History) → IsLegal limit past → (step : Step) → MayCome (world_of past) step → has_room limit (world_of past) (needed_by step) ≡ true → (p : Passed) → HasPassed (stage_of step (world_of past)) p → Follows limit (entry_of step p (world_of past)) past }
{}

/// For contracts alone: what the pass of an entry noted as satisfied is what is satisfied in the world after the entry.
pub fn note_satisfied()
    ensures list { (w : World) → (step : Step) → (p : Passed) → HasPassed (stage_of step w) p → p.satisfied ≡ satisfied_in (world_after_entry (entry_of step p w) w) }
    ensures each { (w : World) → (step : Step) → (p : Passed) → HasPassed (stage_of step w) p → (number : ℕ) → has p.satisfied number ≡ has (satisfied_in (world_after_entry (entry_of step p w) w)) number }
{}

/// For contracts alone: two entries that follow one legal journal by the same step are equal, whatever their limits.
pub fn note_one_entry()
    ensures { (limit more : ℕ) → (past : History) → IsLegal limit past → (x y : Entry Step) → Follows limit x past → Follows more y past → x.step ≡ y.step → x ≡ y }
{}

/// For contracts alone: where a step may come after a legal journal and has room, an entry of it follows.
pub fn note_some_entry()
    ensures { (limit : ℕ) → (past : History) → IsLegal limit past → (step : Step) → MayCome (world_of past) step → has_room limit (world_of past) (needed_by step) ≡ true → (entry : Entry Step) × (entry.step ≡ step) × Follows limit entry past }
{}
