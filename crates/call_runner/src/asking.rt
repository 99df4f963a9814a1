//! What component code is asked.
ghost use Rattle.call_moves.specs.Progress.{next_move};
ghost use Rattle.call_runner.specs.Runs.{IsOwnRunning, frame_of};
ghost use Rattle.kind_trait.specs.Meanings.{Moves};

use crate::Callees;
use crate::calls::Running;
use kind_trait::{KindFault, Kinds, NestedReply, Next, Site};
use prop_map::Str;
use std::alloc::Global;
use std::sync::Arc;

/// What an instance is asked.
#[derive(Drop)]
pub(crate) enum Asked<O, W> {
    /// To take a request up.
    Start {
        /// What its component code is told of it.
        site: Site,
        /// Its object.
        object: Arc<O>,
        /// The request.
        request: Str,
    },
    /// To go on with a request, since its nested call has its reply.
    Resume {
        /// What is left to do.
        work: W,
        /// The reply.
        reply: NestedReply,
    },
}

// Asks component code, here alone. An object that is asked is its instance's own.
pub(crate) fn ask<K: Kinds, C: Callees<K::Object>>(
    alloc: Global,
    kinds: &K,
    callees: &C,
    running: Running<K::Object, K::Work>,
) -> Result<Next<K::Work>, KindFault>
    requires { IsOwnRunning (C.owns callees.now) running }
    ensures { Moves K.stands_for (frame_of K.stands_for running).asking
        (next_move K.next (frame_of K.stands_for running)) result }
{
    let _ = callees;
    match running.asked {
        Asked::Start {
            site,
            object,
            request,
        } => kinds.start(alloc, &object, &site, request.as_str()),
        Asked::Resume { work, reply } => kinds.resume(alloc, work, &reply),
    }
}
