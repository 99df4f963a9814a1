//! What a session holds of a hall.
ghost use Rattle.front_lock.specs.Histories.{Distinct};
ghost use Rattle.front_lock.specs.Passes.{names_of};
ghost use Rattle.std.specs.Prelude.{◌≡◌, None, Some, length};

use front_lock::Pass;
use journal_core::Entry;
use scr_world::Step;
use std::marker::Model;
use std::mem;

/// A pass of a hall: the right to make calls of it. Contracts see what it knows of the one history: which entries it
/// has seen, and which of them are its own; and whether it knows that the hall was closed. A pass that is dropped is
/// never joined, so its hall never gives its journal.
#[derive(Drop)]
pub struct HallPass {
    // None while it is at the lock.
    pub(crate) pass: Option<Pass<Entry<Step>>>,
    pub(crate) closed: bool,
}

impl Model for HallPass {
    ghost use Rattle.front_lock.specs.Histories.{Distinct};
    ghost use Rattle.front_lock.specs.Passes.{names_of};
    ghost use Rattle.ldap_filter.specs.TreeCodes.{tree_code};
    ghost use Rattle.platform_sessions.specs.Halls.{HallPassView, front_in};
    ghost use Rattle.std.specs.Coded.{codes};
    ghost use Rattle.std.specs.Prelude.{◌≡◌, Some};

    ghost Value = { HallPassView };

    ghost coded = { Prim.hlevel (codes, tree_code) };

    ghost view = { λ h. record { front = front_in h.pass; closed = h.closed } };

    ghost invariant = { λ h. (h.pass ≡ Some (front_in h.pass)) × Distinct (names_of (front_in h.pass)) };
}

impl HallPass {
    // The pass of a hall that has this pass of its lock, and knows so much of its closing.
    pub(crate) fn of(pass: Pass<Entry<Step>>, closed: bool) -> HallPass
        requires { Distinct (names_of pass) }
        ensures front { result.front ≡ pass }
        ensures closed { result.closed ≡ closed }
    {
        HallPass {
            pass: Some(pass),
            closed,
        }
    }

    // Its pass of the lock.
    pub(crate) fn into_front(self) -> Pass<Entry<Step>>
        ensures front { result ≡ self.front }
        ensures distinct { Distinct (names_of result) }
    {
        let HallPass { pass, closed: _ } = self;
        pass.unwrap()
    }

    /// How many entries it has seen, from the first on.
    pub fn seen(&self) -> u64
        ensures { result ≡ length self.now.front.seen }
    {
        match &self.pass {
            Some(pass) => pass.seen(),
            None => unreachable!(),
        }
    }

    /// Its number, under which its entries stand, and which no other pass of its hall has or had: 0 for the first.
    pub fn number(&self) -> u64
        ensures { result ≡ self.now.front.number }
    {
        match &self.pass {
            Some(pass) => pass.number(),
            None => unreachable!(),
        }
    }

    /// How many passes can still be split from it, 63 at most.
    pub fn spare(&self) -> u64
        ensures { result ≡ self.now.front.spare }
    {
        match &self.pass {
            Some(pass) => pass.spare(),
            None => unreachable!(),
        }
    }
}

// Puts a pass of the lock back that was out.
pub(crate) fn put(pass: &mut Option<Pass<Entry<Step>>>, back: Pass<Entry<Step>>)
    requires { pass.old ≡ None }
    ensures { pass.new ≡ Some back }
{
    match mem::replace(pass, Some(back)) {
        None => {}
        Some(_) => unreachable!(),
    }
}
