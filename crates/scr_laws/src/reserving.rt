//! What entries reserve in the journal, and what they leave of gets.
ghost use Rattle.journal_core.specs.declared.entry.Entry.{Entry};
ghost use Rattle.scr_laws.specs.Reserving.{given_back_by, reserved_with, stands_for, tokens_dropped};
ghost use Rattle.scr_laws.specs.Entries.{is_still_step};
ghost use Rattle.scr_world.specs.Legal.{IsLegal, MayCome};
ghost use Rattle.scr_world.specs.Lists.{world_after_entry, world_of};
ghost use Rattle.scr_world.specs.Room.{reserved};
ghost use Rattle.scr_world.specs.Steps.{History};
ghost use Rattle.scr_world.specs.Tables.{tokens_by, uses_by};
ghost use Rattle.scr_world.specs.declared.marks.Token.{Token};
ghost use Rattle.scr_world.specs.declared.step.Step.{Step};
ghost use Rattle.std.specs.List.{Contains};
ghost use Rattle.std.specs.Prelude.{ℕ, ◌≡◌, ◌+◌, ◌≤◌, [], ◌∷◌, length, true};
ghost use Rattle.use_counts.specs.declared.uses.UseRow.{UseRow};

/// For contracts alone: what is reserved is counted by the entries. None is reserved at first; each entry whose step may
/// come adds what its step reserves, and takes away what it gives back and one for each get by token that ends with it.
/// With an entry without consequences none ends. In a legal journal there is room for the entries and for what is
/// reserved.
pub fn note_reserved_by_entries()
    ensures first { reserved (world_of []) ≡ 0 }
    ensures counted { (limit : ℕ) → (past : History) → IsLegal limit past → (entry : Entry Step) → MayCome (world_of past) entry.step → reserved (world_after_entry entry (world_of past)) + (given_back_by entry.step (world_of past) + length (tokens_dropped entry (world_of past))) ≡ reserved (world_of past) + reserved_with entry.step }
    ensures room { (limit : ℕ) → (past : History) → IsLegal limit past → length past + reserved (world_of past) ≤ limit }
    ensures still { (limit : ℕ) → (entry : Entry Step) → (past : History) → IsLegal limit (entry ∷ past) → is_still_step entry.step (world_of past) ≡ true → tokens_dropped entry (world_of past) ≡ [] }
{}

/// For contracts alone: each get of a legal journal is one of a registered service by an active bundle, and an entry
/// without consequences leaves the gets as its step makes them.
pub fn note_gets_stand()
    ensures uses { (past : History) → (u : UseRow) → Contains (world_of past).uses u → stands_for (world_of past) u.service u.bundle ≡ true }
    ensures tokens { (past : History) → (t : Token) → Contains (world_of past).tokens t → stands_for (world_of past) t.service t.bundle ≡ true }
    ensures uses_left { (limit : ℕ) → (entry : Entry Step) → (past : History) → IsLegal limit (entry ∷ past) → is_still_step entry.step (world_of past) ≡ true → (world_after_entry entry (world_of past)).uses ≡ uses_by entry.step (world_of past).tokens (world_of past).uses }
    ensures tokens_left { (limit : ℕ) → (entry : Entry Step) → (past : History) → IsLegal limit (entry ∷ past) → is_still_step entry.step (world_of past) ≡ true → (world_after_entry entry (world_of past)).tokens ≡ tokens_by entry.step (world_of past).entries (world_of past).tokens }
{}
