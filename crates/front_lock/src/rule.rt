//! The rule that ties the lock's words and its value to what the passes know, and what each kind of step tells its pass.
//! No value of a type of this file is made.
use crate::grows::Grows;
use atomic_table::{Join, Play, Split, TableRule};
use std::collections::LinkedList;
use std::marker::PhantomData;
use std::snapshot::Snapshot;

/// What a value shows at one time.
pub struct Contents<E> {
    /// Its entries, each with its owner.
    pub entries: LinkedList<(u64, E)>,
    /// What it keeps for passes, each thing with its owner.
    pub kept: LinkedList<(u64, u64)>,
}

/// Where a pass is.
pub enum Stage<E> {
    /// Away from the lock.
    Idle,
    /// It has drawn this ticket.
    Waits(u64),
    /// It is served under this ticket. True until the turn has split a pass off. What the value showed then; the numbers
    /// of the pass that this turn joined into it, and what that one had seen.
    Holds(u64, bool, Contents<E>, LinkedList<u64>, LinkedList<(u64, E)>),
}

/// A pass that was joined into another.
pub struct Joined<E> {
    /// The number that it had.
    pub number: u64,
    /// The entries that it had seen then.
    pub seen: LinkedList<(u64, E)>,
}

/// What a pass knows.
pub struct FrontView<E> {
    /// What the lock's value is tied to.
    pub tie: LinkedList<u64>,
    /// Its parts of the 64: one more than its spare.
    pub parts: u64,
    /// How often it has entered and left.
    pub entered: u64,
    /// Its number; none once it was joined into another.
    pub own: Option<u64>,
    /// The passes that were joined into it.
    pub joined: LinkedList<Joined<E>>,
    /// The entries that it has seen.
    pub seen: LinkedList<(u64, E)>,
    /// What the value keeps under its names.
    pub kept: LinkedList<(u64, u64)>,
    /// Where it is.
    pub stage: Stage<E>,
}

/// The rule of the lock.
pub struct OneHistory<T> {
    value: PhantomData<T>,
}

impl<T: Grows> TableRule<Option<T>, FrontView<T::Entry>, Snapshot<T>> for OneHistory<T> {
    ghost use Rattle.std.specs.Prelude.{[], Some};
    ghost use Rattle.front_lock.specs.declared.rule.Stage.TheVariants.{Idle};
    ghost use Rattle.front_lock.specs.Passes.{known, shown_by};
    ghost use Rattle.front_lock.specs.Rule.{Kept};

    ghost holds = { λ _. Kept (shown_by T.entries T.kept) T.tie };

    ghost first = { λ k. known (T.tie k.value) 64 0 (Some 0) [] [] [] Idle };
}

/// A ticket is drawn.
pub(crate) struct DrawTicket<T> {
    value: PhantomData<T>,
}

impl<T: Grows> Play<Option<T>, FrontView<T::Entry>> for DrawTicket<T> {
    ghost use Rattle.front_lock.specs.Passes.{shown_by};
    ghost use Rattle.front_lock.specs.Steps.{Drew};

    ghost then = { Drew (shown_by T.entries T.kept) T.tie };
}

/// The ticket that is served is read, and the value taken where it is one's own.
pub(crate) struct TakeValue<T> {
    value: PhantomData<T>,
}

impl<T: Grows> Play<Option<T>, FrontView<T::Entry>> for TakeValue<T> {
    ghost use Rattle.front_lock.specs.Passes.{shown_by};
    ghost use Rattle.front_lock.specs.Steps.{Turned};

    ghost then = { Turned (shown_by T.entries T.kept) T.tie };
}

/// The value is back with further entries, and the next ticket is served.
pub(crate) struct GiveBack<T> {
    value: PhantomData<T>,
}

impl<T: Grows> Play<Option<T>, FrontView<T::Entry>> for GiveBack<T> {
    ghost use Rattle.front_lock.specs.Passes.{shown_by};
    ghost use Rattle.front_lock.specs.Steps.{GaveBack};

    ghost then = { GaveBack (shown_by T.entries T.kept) T.tie };
}

/// The value is back as it was, and the next ticket is served.
pub(crate) struct PutDown<T> {
    value: PhantomData<T>,
}

impl<T: Grows> Play<Option<T>, FrontView<T::Entry>> for PutDown<T> {
    ghost use Rattle.front_lock.specs.Passes.{shown_by};
    ghost use Rattle.front_lock.specs.Steps.{PutBack};

    ghost then = { PutBack (shown_by T.entries T.kept) T.tie };
}

/// A pass is split off from the one that has the turn.
pub(crate) struct CutOff;

impl<E> Split<FrontView<E>> for CutOff {
    ghost use Rattle.front_lock.specs.Steps.{left_at, right_at};

    ghost left = { λ v. left_at v v.stage };

    ghost right = { λ v. right_at v v.stage };
}

/// A pass is joined into the one that has the turn.
pub(crate) struct TakeIn;

impl<E> Join<FrontView<E>> for TakeIn {
    ghost use Rattle.front_lock.specs.Passes.{nobody};
    ghost use Rattle.front_lock.specs.Steps.{joined_at};

    ghost both = { λ v w. joined_at v w v.stage };

    ghost spent = { nobody };
}
