//! The slots of living instances, and when each was made.
ghost use Rattle.journal_core.specs.declared.entry.Entry.{Entry};
ghost use Rattle.scr_laws.specs.Slots.{HaveOwnSlots, IsLowestFree, WasThere};
ghost use Rattle.scr_world.specs.Lists.{world_of};
ghost use Rattle.scr_world.specs.Steps.{History};
ghost use Rattle.scr_world.specs.declared.instance.Instance.{Instance};
ghost use Rattle.scr_world.specs.declared.step.Step.{Step};
ghost use Rattle.std.specs.List.{Contains};
ghost use Rattle.std.specs.Prelude.{◌≡◌, ◌<◌, ◌⊎◌, ◌∷◌, length};

/// For contracts alone: the living instances of a journal have different slots, and one that an entry makes has the
/// lowest slot that no living instance had before it, whether the journal is legal or not. Journals are read from the
/// last entry back.
pub fn note_slots()
    ensures different { (journal : History) → HaveOwnSlots (world_of journal).instances }
    ensures lowest { (entry : Entry Step) → (past : History) → (i : Instance) → Contains (world_of (entry ∷ past)).instances i → WasThere (world_of past).instances i ⊎ IsLowestFree (world_of past).instances i.slot }
{}

/// For contracts alone: a world counts the entries of its journal, and the Create of each living instance began in
/// one of them.
pub fn note_created()
    ensures entries { (journal : History) → (world_of journal).entries ≡ length journal }
    ensures earlier { (journal : History) → (i : Instance) → Contains (world_of journal).instances i → i.origin.created < length journal }
{}
