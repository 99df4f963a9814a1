//! Where turns come from and go back to.
ghost use Rattle.callback_orders.specs.declared.callback.Outcome.{Outcome};
ghost use Rattle.std.specs.Arc.{arc_value};
ghost use Rattle.std.specs.Prelude.{◌≡◌, ◌⊎◌, ℕ, Bool, false, true, Option, Some, None, IfOk, IfErr, OnOk, OnErr, MatchOption, is_some};
ghost use Rattle.turn_runner.specs.declared.came.Came.{Came};
ghost use Rattle.turn_runner.specs.Outcomes.{IsMadeFor, has_object_after, is_destroy_of, makes_object, needs_object};
ghost use Rattle.turn_runner.specs.Turns.{IsTaken, KeptEnds};
ghost use Rattle.turn_work.specs.declared.work.TurnWork.{TurnWork};

use crate::{Came, DeskFault, Ran, TurnWork};
use callback_orders::Outcome;
use prop_map::OutOfMemory;
use std::alloc::Global;
use std::sync::Arc;

/// Where turns come from and go back to, and where the objects of the instances are kept.
///
/// Its meaning says at each moment whether a turn is due, whether the journal has room for it, whether a drain is due, which turn
/// of a number has begun and not ended, which instances have an object, which objects are an instance's own, and what is kept of
/// turns that were told and couldn't end. Five relations between the desk before and after say what it means that a turn begins,
/// that the object of its instance is handed out to be told of it, that it ends with an outcome, that what it came to is kept, and
/// that drains are posted.
pub trait Desk<O> {
    /// Whether a turn is due.
    ghost has_due: { Self → Bool };

    /// Whether the journal has room for the turn that is due.
    ghost has_room: { Self → Bool };

    /// Whether a drain is due that isn't posted yet.
    ghost has_drain: { Self → Bool };

    /// The turn of a number that has begun and not ended.
    ghost running: { Self → ℕ → Option TurnWork };

    /// Whether an object was put back for an instance.
    ghost has_object: { Self → ℕ → Bool };

    /// What it is that an object is an instance's own: only one that a turn of the instance made becomes so.
    ghost owns: { Self → ℕ → O → Type 0 };

    /// What is kept of the turn of a number: what it came to, where that couldn't be put back.
    ghost kept: { Self → ℕ → Option (Came O) };

    /// Whether there is room for what a turn comes to.
    ghost ready: { Self → Bool };

    /// The first due turn begins.
    ghost begins: { Self → TurnWork → Self → Type 0 };

    /// The object of the instance of a turn is handed out, to be told of the turn.
    ghost hands: { Self → ℕ → Self → Type 0 };

    /// The turn of a number ends with an outcome.
    ghost ends: { Self → ℕ → Outcome → Self → Type 0 };

    /// What a turn came to is kept, and the turn goes on.
    ghost keeps: { Self → Came O → Self → Type 0 };

    /// Drains that are due are posted.
    ghost posts: { Self → Self → Type 0 };

    /// Begins the first due turn: `None` exactly where nothing is due. The desk has an object for its instance exactly where the
    /// instance isn't 0 and the callback is no Create.
    ///
    /// # Errors
    /// JournalFull exactly where a turn is due and the journal has no room for it; OutOfMemory. Nothing has begun then.
    fn take(&mut self, alloc: Global) -> Result<Option<TurnWork>, DeskFault>
        ensures step { IsTaken has_due has_room begins self.old result self.new }
        ensures running { IfOk result (λ taken. MatchOption taken (Unit {0}) (λ work. running self.new work.number ≡ Some work)) }
        ensures fits { IfOk result (λ taken. MatchOption taken (Unit {0}) (λ work. has_object self.new work.instance ≡ needs_object work)) }
        ensures objects { (instance : ℕ) → has_object self.new instance ≡ has_object self.old instance }
        ensures own { (instance : ℕ) (object : O) → owns self.new instance object → owns self.old instance object };

    /// Whether a turn is due.
    ///
    /// # Errors
    /// Only want of memory.
    fn due(&self, alloc: Global) -> Result<bool, OutOfMemory>
        ensures { IfOk result (λ due. due ≡ has_due self.now) };

    /// Hands out the own object of a turn's instance, to be told of the turn, which must have begun and not ended: `None` exactly
    /// where none was put back for it. There is room then for what the turn comes to.
    ///
    /// # Errors
    /// Only want of memory. Nothing is handed out then.
    fn hand_out(&mut self, alloc: Global, work: &TurnWork) -> Result<Option<Arc<O>>, OutOfMemory>
        requires { running self.old work.now.number ≡ Some work.now }
        ensures step { OnOk result (hands self.old work.now.number self.new) }
        ensures running { OnOk result (running self.new work.now.number ≡ Some work.now) }
        ensures ready { OnOk result (ready self.new ≡ true) }
        ensures has { IfOk result (λ object. is_some object ≡ has_object self.old work.now.instance) }
        ensures own { IfOk result (λ object. MatchOption object (Unit {0}) (λ o. owns self.old work.now.instance (arc_value o))) }
        ensures objects { (instance : ℕ) (object : O) → owns self.new instance object → owns self.old instance object }
        ensures err { OnErr result (self.new ≡ self.old) };

    /// Ends a turn that has begun and not ended, with what it came to: an object must be there exactly where the turn made one.
    ///
    /// # Errors
    /// Only want of memory. What it came to is kept, and the turn goes on.
    fn put_back(&mut self, alloc: Global, work: TurnWork, ran: Ran<O>) -> Result<(), OutOfMemory>
        requires running { running self.old work.number ≡ Some work }
        requires made { is_some ran.made ≡ makes_object work ran.outcome }
        requires ready { ready self.old ≡ true }
        ensures ok { OnOk result (ends self.old work.number ran.outcome self.new) }
        ensures ended { OnOk result (running self.new work.number ≡ None) }
        ensures objects { OnOk result ((instance : ℕ) → is_destroy_of (Some work) instance ≡ false → has_object self.new instance ≡ has_object_after (Some work) (is_some ran.made) (has_object self.old) instance) }
        ensures own { OnOk result ((instance : ℕ) (object : O) → owns self.new instance object → owns self.old instance object ⊎ IsMadeFor arc_value (Some work) ran.made instance object) }
        ensures err { OnErr result (keeps self.old (record { work = work; ran = ran }) self.new) };

    /// Ends a turn that has begun and not ended with what is kept of it, and answers the outcome: `None` exactly where nothing is
    /// kept of it, and all is then as it was.
    ///
    /// # Errors
    /// Only want of memory. All is then as it was.
    fn put_back_kept(
        &mut self,
        alloc: Global,
        work: &TurnWork,
    ) -> Result<Option<Outcome>, OutOfMemory>
        requires { running self.old work.now.number ≡ Some work.now }
        ensures none { IfOk result (λ outcome. outcome ≡ None → (kept self.old work.now.number ≡ None) × (self.new ≡ self.old)) }
        ensures ok { IfOk result (λ outcome. MatchOption outcome (Unit {0}) (λ o. KeptEnds kept owns ends self.old work.now o self.new)) }
        ensures ended { IfOk result (λ outcome. MatchOption outcome (Unit {0}) (λ _. running self.new work.now.number ≡ None)) }
        ensures err { OnErr result (self.new ≡ self.old) };

    /// Posts the drains that are due.
    ///
    /// # Errors
    /// Only want of memory. Some of them may be posted then.
    fn post(&mut self, alloc: Global) -> Result<(), OutOfMemory>
        ensures step { posts self.old self.new }
        ensures ok { OnOk result (has_drain self.new ≡ false) }
        ensures objects { (instance : ℕ) → has_object self.new instance ≡ has_object self.old instance }
        ensures own { (instance : ℕ) (object : O) → owns self.new instance object → owns self.old instance object };
}
