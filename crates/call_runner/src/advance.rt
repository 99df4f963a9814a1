//! One move of a call.
ghost use Rattle.call_runner.specs.Runs.{HasFewer, HasStepped, IsAt, IsOwnRunning, IsOwnStep, Outer, frame_of};
ghost use Rattle.std.specs.Prelude.{◌≤◌, IfOk};

use crate::asking::ask;
use crate::beginning::begin_call;
use crate::calls::{Calls, Paused, Running};
use crate::ending::end_call;
use crate::{Callees, End};
use kind_trait::{KindFault, Kinds, Next};
use prop_map::OutOfMemory;
use std::alloc::{AllocError, Global};

/// What a move comes to.
#[derive(Drop)]
pub(crate) enum Step<O, W> {
    /// This call runs then.
    Goes(Running<O, W>),
    /// The outer call is over.
    Ends(End),
}

// The call that runs makes its next move.
pub(crate) fn advance<K: Kinds, C: Callees<K::Object>>(
    alloc: Global,
    kinds: &K,
    callees: &C,
    calls: &mut Calls<K::Work>,
    running: Running<K::Object, K::Work>,
) -> Result<Step<K::Object, K::Work>, OutOfMemory>
    requires own { IsOwnRunning (C.owns callees.now) running }
    requires few { calls.old.waiting.nested ≤ 64 }
    ensures step { (outer : Outer)
        → IsAt (C.reaching callees.now) K.next (C.journal_length callees.now) K.stands_for outer calls.old
        (frame_of K.stands_for running)
        → IfOk result (HasStepped (C.reaching callees.now) K.next (C.journal_length callees.now) K.stands_for outer
        calls.new) }
    ensures own { IfOk result (IsOwnStep (C.owns callees.now)) }
    ensures fewer { IfOk result (HasFewer calls.old.waiting calls.new.waiting) }
{
    let service = running.service;
    let instance = running.instance;
    let place = running.place;
    match ask(alloc, kinds, callees, running) {
        Ok(Next::Answer { text }) => end_call(alloc, calls, place, End::Said(text)),
        Ok(
            Next::Call {
                reference,
                request,
                work,
            },
        ) => {
            let paused = Paused {
                service,
                instance,
                place,
                work,
            };
            begin_call::<K, C>(alloc, callees, calls, paused, &reference, request)
        }
        Err(KindFault::Refused) => end_call(alloc, calls, place, End::Declined),
        Err(KindFault::OutOfMemory) => Err(AllocError),
    }
}
