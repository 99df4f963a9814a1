//! The calls under one outer call.
ghost use Rattle.call_runner.specs.Steps.{resumed_by};
ghost use Rattle.std.specs.Prelude.{◌≡◌};

use crate::asking::Asked;
use call_moves::NestedCall;
use kind_trait::{CallStack, NestedReply};

/// A call that waits for the reply of a nested one.
#[derive(Drop)]
pub(crate) struct Paused<W> {
    /// The service that was called.
    pub(crate) service: u64,
    /// The instance that took the call up.
    pub(crate) instance: u64,
    /// The place of the call among the nested ones, 0 for the outer one.
    pub(crate) place: usize,
    /// What is left to do.
    pub(crate) work: W,
}

/// The call that runs.
#[derive(Drop)]
pub(crate) struct Running<O, W> {
    /// The service that was called.
    pub(crate) service: u64,
    /// The instance that took the call up.
    pub(crate) instance: u64,
    /// The place of the call among the nested ones, 0 for the outer one.
    pub(crate) place: usize,
    /// What the instance is asked.
    pub(crate) asked: Asked<O, W>,
}

/// The calls under one outer call.
#[derive(Drop)]
pub(crate) struct Calls<W> {
    /// Those that wait for a nested one.
    pub(crate) waiting: CallStack<Paused<W>>,
    /// The nested ones, in the order in which they began.
    pub(crate) nested: Vec<NestedCall>,
}

// The call that waited goes on with a reply.
pub(crate) fn resumed<O, W>(paused: Paused<W>, reply: NestedReply) -> Running<O, W>
    ensures { result ≡ resumed_by paused reply }
{
    let Paused {
        service,
        instance,
        place,
        work,
    } = paused;
    Running {
        service,
        instance,
        place,
        asked: Asked::Resume { work, reply },
    }
}
