//! What bundles have, and what a stop leaves.
ghost use Rattle.scr_laws.specs.Owners.{HaveActiveOwners, IsStopped};
ghost use Rattle.journal_core.specs.declared.entry.Entry.{Entry};
ghost use Rattle.scr_world.specs.Legal.{IsLegal};
ghost use Rattle.scr_world.specs.Lists.{world_of};
ghost use Rattle.scr_world.specs.Steps.{History};
ghost use Rattle.scr_world.specs.declared.command.Command.TheVariants.{Stop};
ghost use Rattle.scr_world.specs.declared.step.Step.{Step};
ghost use Rattle.scr_world.specs.declared.step.Step.TheVariants.{Command as Commanded};
ghost use Rattle.std.specs.Prelude.{ℕ, ◌≡◌, ◌∷◌};

/// For contracts alone: in the world of every legal journal active bundles alone have services, listeners, gets and
/// component configurations, and gets are of registered services.
pub fn note_owners()
    ensures { (limit : ℕ) → (past : History) → IsLegal limit past → HaveActiveOwners (world_of past) }
{}

/// For contracts alone: behind the entry of a legal journal that stops a bundle, the bundle is STOPPING or RESOLVED
/// and has no service, no component configuration, no listener and no get. Journals are read from the last entry
/// back.
pub fn note_stop()
    ensures { (limit : ℕ) → (entry : Entry Step) → (past : History) → IsLegal limit (entry ∷ past) → (bundle : ℕ) → entry.step ≡ Commanded (Stop bundle) → IsStopped (world_of (entry ∷ past)) bundle }
{}
