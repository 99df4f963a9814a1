//! The numbers of bundles, services, listeners, turns and instances.
ghost use Rattle.journal_core.specs.declared.entry.Entry.{Entry};
ghost use Rattle.scr_laws.specs.Numbers.{AreNumbersOn, HasFewNumbers, bundles_in, given, listeners_in, made_by, services_in, turns_by};
ghost use Rattle.scr_world.specs.Legal.{IsLegal};
ghost use Rattle.scr_world.specs.Lists.{world_of};
ghost use Rattle.scr_world.specs.Steps.{History};
ghost use Rattle.scr_world.specs.declared.step.Step.{Step};
ghost use Rattle.scr_world.specs.declared.world.World.{World};
ghost use Rattle.std.specs.Prelude.{ℕ};

/// For contracts alone: the bundles that a legal journal installs are numbered 1, 2 and so on in its order, and so
/// are the services that it registers, the listeners that it adds, the turns that it begins and the instances that it
/// makes: each number is given once, and none is left out. Journals are read from the last entry back.
pub fn note_numbers()
    ensures bundles { (limit : ℕ) → (journal : History) → IsLegal limit journal → AreNumbersOn (given (λ (entry : Entry Step). bundles_in entry.step) journal) }
    ensures services { (limit : ℕ) → (journal : History) → IsLegal limit journal → AreNumbersOn (given services_in journal) }
    ensures listeners { (limit : ℕ) → (journal : History) → IsLegal limit journal → AreNumbersOn (given (λ (entry : Entry Step). listeners_in entry.step) journal) }
    ensures turns { (limit : ℕ) → (journal : History) → IsLegal limit journal → AreNumbersOn (given (λ (entry : Entry Step) (w : World). turns_by entry.step) journal) }
    ensures instances { (limit : ℕ) → (journal : History) → IsLegal limit journal → AreNumbersOn (given (λ (entry : Entry Step) (w : World). made_by entry.step) journal) }
{}

/// For contracts alone: a legal journal gives no more numbers to bundles, to listeners, to turns and to instances than it has
/// entries, to component configurations at most 512 times as many, to services 513 times, and it opens no gate more often than it
/// has entries behind the first one.
pub fn note_few_numbers()
    ensures { (limit : ℕ) → (journal : History) → IsLegal limit journal → HasFewNumbers (world_of journal) }
{}
