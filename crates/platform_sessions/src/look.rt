//! What is asked of the core in one turn at the lock.
ghost use Rattle.journal_core.specs.declared.entry.Entry.{Entry};
ghost use Rattle.scr_world.specs.declared.command.Limits.{Limits};
ghost use Rattle.scr_world.specs.declared.step.Step.{Step};
ghost use Rattle.std.specs.Prelude.{List};

use hall_locked::Core;

/// A look at the core. It can't change the core, and keeps of it what it will.
pub trait Look {
    /// What it is before, the entries of the journal, the limits, and what it is afterwards.
    ghost looks: { Self → List (Entry Step) → Limits → Self → Type 0 };

    /// Looks at the core.
    fn look(&mut self, core: &Core)
        ensures { looks self.old core.now.journal core.now.limits self.new };
}
