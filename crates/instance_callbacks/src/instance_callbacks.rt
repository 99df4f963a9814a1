//! The callbacks of one instance so far, and beside them what they say of it (OSGi Compendium 8, section 112.5
//! "Component Life Cycle").
ghost use Rattle.callback_orders.specs.Grammar.{is_activate};
ghost use Rattle.callback_orders.specs.Lives.{held_for, is_living, phase_of};
ghost use Rattle.callback_orders.specs.Sequences.{begun, done_with, ended, is_failed, is_outstanding};
ghost use Rattle.callback_orders.specs.contracts.word.CalledPartialEq.TheImpl as called_same;
ghost use Rattle.callback_orders.specs.contracts.word.CalledPartialEq.TheImpl.Laws as called_per;
ghost use Rattle.callback_orders.specs.contracts.word.CalledEq.TheImpl.Laws as called_equiv;
ghost use Rattle.callback_orders.specs.declared.word.Called.{Called};
ghost use Rattle.instance_callbacks.specs.Bound.{was_bound};
ghost use Rattle.instance_callbacks.specs.Courses.{IsCourseOf};
ghost use Rattle.std.specs.Cmp.Lexicographic.{lists_equiv, lists_per, pointwise};
ghost use Rattle.std.specs.List.{list_any, slice_get};
ghost use Rattle.std.specs.Option.{option_copied, option_map, option_to_list};
ghost use Rattle.std.specs.Prelude.{◌≡◌, ◌++◌, ◌∷◌, ◌-◌, ◌&&◌, [], IsTrue, OnErr, OnOk, length, not};

use crate::bound;
use crate::course::Course;
use crate::holdings::Holdings;
use callback_orders::{Callback, Called, Outcome, Phase};
use prop_map::{Copies, OutOfMemory, Str};
use shared_log::SharedLog;
use std::alloc::Global;
use std::fmt;
use std::marker::Model;

/// The callbacks of one instance so far, each with its outcome once it has ended, in whatever order they came.
/// Contracts see the list of them. How the instance fares by them and what it holds are kept beside the list, so nobody
/// goes over the list to know it. A copy shares what is kept: it takes memory and time by the logarithm of how many
/// callbacks there are, and of how many references.
#[derive(Drop)]
pub struct InstanceCallbacks {
    // All but the last one.
    earlier: SharedLog<Called>,
    last: Option<Called>,
    // How the instance fares by those before the last one.
    course: Course,
    // What it holds by all of them.
    held: Holdings,
}

impl Model for InstanceCallbacks {
    ghost use Rattle.std.specs.Prelude.{List, ◌++◌};
    ghost use Rattle.std.specs.Option.{option_to_list};
    ghost use Rattle.callback_orders.specs.declared.word.Called.{Called};

    ghost Value = { List Called };

    ghost use Rattle.instance_callbacks.specs.Held.{AreKept};

    ghost view = { λ i. i.earlier ++ option_to_list i.last };

    ghost invariant = { λ i. AreKept i.earlier i.last i.course i.held };
}

impl PartialEq for InstanceCallbacks {
    ghost eq = { pointwise (called_same.ghosts).eq };

    ghost laws = { lists_per called_per.laws-law };

    fn eq(&self, other: &InstanceCallbacks) -> bool {
        self.earlier == other.earlier && self.last == other.last
    }
}

impl Eq for InstanceCallbacks {
    ghost laws = { lists_equiv called_equiv.laws-law };
}

impl fmt::Debug for InstanceCallbacks {
    fn fmt<W: fmt::Write>(&self, f: &mut fmt::Formatter<W>) -> fmt::Result {
        let earlier = self
            .earlier
            .parts()
            .iter()
            .flat_map(|part| part.get().as_slice());
        f.debug_list()
            .entries(earlier)
            .entries(self.last.iter())
            .finish()
    }
}

impl Copies for InstanceCallbacks {
    fn copy(&self, alloc: Global) -> Result<InstanceCallbacks, OutOfMemory> {
        Ok(InstanceCallbacks {
            earlier: self.earlier.copy(alloc)?,
            last: self.last.copy(alloc)?,
            course: self.course,
            held: self.held.copy(alloc)?,
        })
    }
}

impl InstanceCallbacks {
    /// The callbacks of an instance that has none yet. It takes no memory.
    pub fn new(alloc: Global) -> InstanceCallbacks
        ensures { result ≡ [] }
    {
        InstanceCallbacks {
            earlier: SharedLog::new(alloc),
            last: None,
            course: Course::new(),
            held: Holdings::new(alloc),
        }
    }

    /// The last callback, if there is one.
    pub fn last(&self) -> Option<&Called>
        ensures { option_copied result ≡ slice_get self.now (length self.now - 1) }
    {
        self.last.as_ref()
    }

    /// Whether the last callback has begun and not ended.
    pub fn is_outstanding(&self) -> bool
        ensures { result ≡ is_outstanding self.now }
    {
        self.last
            .as_ref()
            .is_some_and(|called| called.outcome.is_none())
    }

    // How the instance fares by all callbacks.
    fn course(&self) -> Course
        ensures { IsCourseOf self.now result }
    {
        match &self.last {
            Some(called) => self.course.after(called),
            None => self.course,
        }
    }

    /// How far the instance is: it is in the making until an Activate has ended. It is active from the end of one that
    /// was done to the end of Deactivate.
    pub fn phase(&self) -> Phase
        ensures { result ≡ phase_of self.now }
    {
        self.course().phase
    }

    /// Whether an Activate ended other than Done.
    pub fn has_failed(&self) -> bool
        ensures { result ≡ list_any (λ (c : Called). is_activate c.callback && is_failed c.outcome) self.now }
    {
        self.course().has_failed
    }

    /// Whether an Activate is outstanding or ended Done.
    pub fn is_activated(&self) -> bool
        ensures { result ≡ list_any (λ (c : Called). is_activate c.callback && not (is_failed c.outcome)) self.now }
    {
        self.course().is_activated
    }

    /// Whether the instance goes on: no Destroy of it has ended, and no Create of it failed.
    pub fn is_living(&self) -> bool
        ensures { result ≡ is_living self.now }
    {
        self.course().is_living
    }

    /// The services that are held for the reference of a name, in the order of their Binds, none where there was no
    /// Bind. A service is held from the beginning of its Bind to the end of its Unbind. Its reference is found by
    /// halving among those that were bound, and no callback is looked at.
    pub fn held(&self, name: &Str) -> &[u64]
        ensures { result.now ≡ held_for name.now self.now }
    {
        self.held.services(name)
    }

    /// Whether a service was bound, for whatever reference, and be it unbound by now. It goes over all callbacks.
    pub fn was_bound(&self, service: u64) -> bool
        ensures { result ≡ was_bound service self.now }
    {
        bound::was_bound(self.earlier.parts(), service)
            || self
                .last
                .as_ref()
                .is_some_and(|called| bound::binds(&called.callback, service))
    }

    /// A callback begins. It may be any, and stands behind all others.
    ///
    /// # Errors
    /// Only want of memory. The callbacks are then as they were.
    pub fn begin(&mut self, alloc: Global, callback: Callback) -> Result<(), OutOfMemory>
        ensures ok { OnOk result (self.new ≡ self.old ++ begun callback ∷ []) }
        ensures err { OnErr result (self.new ≡ self.old) }
    {
        let held = self.held.begun(alloc, &callback)?;
        let course = self.course();
        add_copy(alloc, &mut self.earlier, &self.last)?;
        self.held = held;
        self.course = course;
        self.last = Some(Called {
            callback,
            outcome: None,
        });
        Ok(())
    }

    /// Ends the last callback, which must not have ended yet. It takes no memory.
    pub fn end(&mut self, outcome: Outcome)
        requires { IsTrue (is_outstanding self.old) }
        ensures { self.new ≡ ended outcome self.old }
    {
        end_last(&mut self.last, outcome);
        self.held.end();
    }
}

fn add_copy(
    alloc: Global,
    calls: &mut SharedLog<Called>,
    last: &Option<Called>,
) -> Result<(), OutOfMemory>
    ensures ok { OnOk result (calls.new ≡ calls.old ++ option_to_list last.now) }
    ensures err { OnErr result (calls.new ≡ calls.old) }
{
    match last {
        Some(called) => calls.push(alloc, called.copy(alloc)?),
        None => Ok(()),
    }
}

fn end_last(last: &mut Option<Called>, outcome: Outcome)
    ensures { last.new ≡ option_map (λ (c : Called). done_with c.callback outcome) last.old }
{
    if let Some(called) = last {
        called.outcome = Some(outcome);
    }
}
