//! That the table of bundles takes every step that may come after a legal journal: for contracts alone.
ghost use Rattle.scr_bundles.specs.Changes.{MayChange};
ghost use Rattle.scr_world.specs.Legal.{IsLegal, MayCome};
ghost use Rattle.scr_world.specs.Lists.{world_of};
ghost use Rattle.scr_world.specs.Steps.{History};
ghost use Rattle.scr_world.specs.declared.step.Step.{Step};
ghost use Rattle.std.specs.Prelude.{ℕ};

/// A step that may come after a legal journal may change the table of bundles.
pub fn note_step_may_change()
    ensures { (limit : ℕ) (past : History) → IsLegal limit past
        → (step : Step) → MayCome (world_of past) step → MayChange (world_of past).bundles step }
{}
