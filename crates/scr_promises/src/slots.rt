//! The slots of gates.
ghost use Rattle.journal_core.specs.declared.entry.Entry.{Entry};
ghost use Rattle.scr_promises.specs.Levels.{MovesLevels};
ghost use Rattle.scr_world.specs.Instances.{is_active_instance};
ghost use Rattle.scr_world.specs.Legal.{IsLegal};
ghost use Rattle.scr_world.specs.Lists.{world_of};
ghost use Rattle.scr_world.specs.Steps.{History};
ghost use Rattle.scr_world.specs.Views.{ends};
ghost use Rattle.scr_world.specs.declared.instance.Instance.{Instance};
ghost use Rattle.scr_world.specs.declared.step.Step.{Step};
ghost use Rattle.std.specs.List.{Contains};
ghost use Rattle.std.specs.Prelude.{ℕ, ◌≡◌, ◌∷◌, slice_index, true};

/// For contracts alone: an entry of a legal journal moves the level of the slot whose gate it reopens, of the one whose
/// drain it posts, and of those whose gates are shut after it, and of no other. Journals are read from the last entry
/// back.
pub fn note_levels()
    ensures { (limit : ℕ) → (entry : Entry Step) → (past : History) → IsLegal limit (entry ∷ past) → MovesLevels entry.step (world_of past) (world_of (entry ∷ past)) }
{}

/// For contracts alone: an active instance of a legal journal has the last generation of its slot, and where its drain is
/// posted it is ending.
pub fn note_active()
    ensures last { (limit : ℕ) → (past : History) → IsLegal limit past → (i : Instance) → Contains (world_of past).instances i → is_active_instance i ≡ true → i.generation ≡ slice_index (world_of past).generations i.slot }
    ensures drained { (limit : ℕ) → (past : History) → IsLegal limit past → (i : Instance) → Contains (world_of past).instances i → is_active_instance i ≡ true → i.drained ≡ true → ends (world_of past) i ≡ true }
{}
