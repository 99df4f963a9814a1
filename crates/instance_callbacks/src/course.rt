//! How an instance fares by its callbacks (OSGi Compendium 8, section 112.5 "Component Life Cycle").
ghost use Rattle.callback_orders.specs.Grammar.{is_activate};
ghost use Rattle.callback_orders.specs.Lives.{goes_on, phase_by};
ghost use Rattle.callback_orders.specs.Sequences.{is_failed};
ghost use Rattle.callback_orders.specs.declared.word.Called.{Called};
ghost use Rattle.instance_callbacks.specs.Courses.{IsCourseOf};
ghost use Rattle.std.specs.Prelude.{◌≡◌, ◌++◌, ◌∷◌, ◌&&◌, List, [], not};

use callback_orders::{Callback, Called, Outcome, Phase};

/// How an instance fares by its callbacks, whatever it holds.
#[derive(Clone, Copy)]
pub(crate) struct Course {
    /// An Activate ended other than Done.
    pub(crate) has_failed: bool,
    /// An Activate is outstanding or ended Done.
    pub(crate) is_activated: bool,
    /// No Destroy has ended, and no Create failed.
    pub(crate) is_living: bool,
    /// How far it is.
    pub(crate) phase: Phase,
}

impl Course {
    /// That of an instance without callbacks.
    pub(crate) fn new() -> Course
        ensures { IsCourseOf [] result }
    {
        Course {
            has_failed: false,
            is_activated: false,
            is_living: true,
            phase: Phase::Making,
        }
    }

    /// The course with one more callback.
    pub(crate) fn after(self, called: &Called) -> Course
        ensures { (calls : List Called) → IsCourseOf calls self → IsCourseOf (calls ++ called.now ∷ []) result }
    {
        Course {
            has_failed: self.has_failed || fails(called),
            is_activated: self.is_activated || activates(called),
            is_living: self.is_living && goes_on(called),
            phase: phase_by(called, self.phase),
        }
    }
}

fn phase_by(called: &Called, phase: Phase) -> Phase
    ensures { result ≡ phase_by called.now.callback called.now.outcome phase }
{
    match (&called.callback, called.outcome) {
        (Callback::Activate, Some(Outcome::Done)) => Phase::Active,
        (Callback::Activate | Callback::Deactivate, Some(_)) => Phase::Left,
        _ => phase,
    }
}

fn is_failed(outcome: Option<Outcome>) -> bool
    ensures { result ≡ is_failed outcome }
{
    matches!(outcome, Some(Outcome::Refused | Outcome::NoMemory))
}

fn fails(called: &Called) -> bool
    ensures { result ≡ (is_activate called.now.callback && is_failed called.now.outcome) }
{
    called.callback.is_activate() && is_failed(called.outcome)
}

fn activates(called: &Called) -> bool
    ensures { result ≡ (is_activate called.now.callback && not (is_failed called.now.outcome)) }
{
    called.callback.is_activate() && !is_failed(called.outcome)
}

fn goes_on(called: &Called) -> bool
    ensures { result ≡ goes_on called.now.callback called.now.outcome }
{
    match &called.callback {
        Callback::Create => !is_failed(called.outcome),
        Callback::Destroy => called.outcome.is_none(),
        _ => true,
    }
}
