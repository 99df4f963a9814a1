//! Laws of legal journals, for contracts alone.
ghost use Rattle.std.specs.Prelude.{◌≡◌, ℕ, true};
ghost use Rattle.component_state.specs.Inside.Ready.{IsReady};
ghost use Rattle.prop_map.specs.Words.{has};
ghost use Rattle.scr_laws.specs.Journals.{FailedSince, steps_of};
ghost use Rattle.scr_laws.specs.Sound.{IsSound};
ghost use Rattle.scr_world.specs.Consequences.{stage_of};
ghost use Rattle.scr_world.specs.Legal.{IsLegal, MayCome};
ghost use Rattle.scr_world.specs.Lists.{world_of};
ghost use Rattle.scr_world.specs.Steps.{History};
ghost use Rattle.scr_world.specs.declared.step.Step.{Step};

/// The world of every legal journal is sound.
pub fn note_sound()
    ensures { (limit : ℕ) (past : History) → IsLegal limit past → IsSound (world_of past) }
{}

/// A pass may begin after every step that may come after a legal journal.
pub fn note_ready()
    ensures { (limit : ℕ) (past : History) → IsLegal limit past → (step : Step) → MayCome (world_of past) step → IsReady (stage_of step (world_of past)) }
{}

/// The failed component configurations of a legal journal are those whose last period was closed by a failure of a creation or activation, and that have
/// stayed satisfied with equal properties since then.
pub fn note_failed()
    ensures marked { (limit : ℕ) (past : History) → IsLegal limit past → (number : ℕ) → has (world_of past).failed number ≡ true → FailedSince past number }
    ensures since { (limit : ℕ) (past : History) → IsLegal limit past → (number : ℕ) → FailedSince past number → has (world_of past).failed number ≡ true }
{}

/// Two legal journals with the same steps are equal, whatever their limits.
pub fn note_same_steps()
    ensures { (limit more : ℕ) (these those : History) → IsLegal limit these → IsLegal more those → steps_of these ≡ steps_of those → these ≡ those }
{}
