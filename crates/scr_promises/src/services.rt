//! The numbers of services.
ghost use Rattle.journal_core.specs.declared.entry.Entry.{Entry};
ghost use Rattle.scr_promises.specs.Services.{HaveOwnNumbers, StayServices};
ghost use Rattle.scr_world.specs.Legal.{IsLegal};
ghost use Rattle.scr_world.specs.Lists.{world_of};
ghost use Rattle.scr_world.specs.Steps.{History};
ghost use Rattle.scr_world.specs.declared.step.Step.{Step};
ghost use Rattle.std.specs.Prelude.{ℕ, ◌∷◌};

/// For contracts alone: no two services of a legal journal have one number, whether they are registered or were
/// unregistered while an instance holds them.
pub fn note_service_numbers()
    ensures { (limit : ℕ) → (past : History) → IsLegal limit past → HaveOwnNumbers (world_of past) }
{}

/// For contracts alone: over an entry of a legal journal a number stays that of one service, with its bundle and its
/// interfaces, and with its properties where its revision stays. Journals are read from the last entry back.
pub fn note_services_stay()
    ensures { (limit : ℕ) → (entry : Entry Step) → (past : History) → IsLegal limit (entry ∷ past) → StayServices (world_of past) (world_of (entry ∷ past)) }
{}
