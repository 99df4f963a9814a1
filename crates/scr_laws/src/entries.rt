//! Laws of still entries, for contracts alone.
ghost use Rattle.std.specs.Prelude.{◌≡◌, ℕ, [], ◌∷◌, true};
ghost use Rattle.component_state.specs.Passes.{HasPassed};
ghost use Rattle.journal_core.specs.declared.entry.Entry.{Entry};
ghost use Rattle.scr_laws.specs.Calms.{AreBehind, OpensFirst};
ghost use Rattle.scr_laws.specs.Entries.{IsCalm, is_still_step, passed_by};
ghost use Rattle.scr_world.specs.Consequences.{stage_of, stopped_by, stopped_in};
ghost use Rattle.scr_world.specs.Legal.{Follows, IsLegal};
ghost use Rattle.scr_world.specs.Lists.{world_after_entry, world_of};
ghost use Rattle.scr_world.specs.Steps.{History};
ghost use Rattle.scr_world.specs.declared.step.Step.{Step};
ghost use Rattle.scr_world.specs.declared.world.World.{World};

/// What an entry that follows closes and opens is a pass.
pub fn note_follows_passes()
    ensures { (limit : ℕ) (entry : Entry Step) (past : History) → Follows limit entry past → HasPassed (stage_of entry.step (world_of past)) (passed_by entry (world_of past)) }
{}

/// After an entry each stopping bundle waits for an instance.
pub fn note_waiting()
    ensures { (w : World) (entry : Entry Step) → entry.stopped ≡ stopped_by entry.step w → stopped_in (world_after_entry entry w) ≡ [] }
{}

/// The world of every legal journal is calm.
pub fn note_legal_is_calm()
    ensures { (limit : ℕ) (past : History) → IsLegal limit past → IsCalm (world_of past) }
{}

/// Still entries of a legal journal close, open and stop nothing.
pub fn note_legal_still()
    ensures { (limit : ℕ) (entry : Entry Step) (past : History) → IsLegal limit (entry ∷ past) → is_still_step entry.step (world_of past) ≡ true → (entry.closed ≡ []) × (entry.opened ≡ []) × (entry.stopped ≡ []) }
{}

/// In every world of a legal history each change of properties lies behind.
pub fn note_legal_is_behind()
    ensures { (limit : ℕ) (past : History) → IsLegal limit past → AreBehind (world_of past) }
{}

/// A Create is due for an open period alone.
pub fn note_opens_first()
    ensures { (w : World) → OpensFirst w }
{}
