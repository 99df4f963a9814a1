//! A nested call that begins.
ghost use Rattle.call_moves.specs.Evaluations.{nested_call};
ghost use Rattle.call_moves.specs.Progress.{next_move};
ghost use Rattle.call_runner.specs.Runs.{HasFewer, HasStepped, IsAt, IsOwnStep, Outer, frame_of_paused};
ghost use Rattle.call_runner.specs.Steps.{HasResumed, HasWaited, taken_up_by};
ghost use Rattle.kind_trait.specs.Meanings.{Calls as CallsMove};
ghost use Rattle.std.specs.Prelude.{◌≡◌, ◌≤◌, ◌<◌, ◌++◌, ◌∷◌, [], None, Some, IfOk, OnOk, length};

use crate::advance::Step;
use crate::asking::Asked;
use crate::calls::{Calls, Paused, Running, resumed};
use crate::{Callee, Callees, End, Party};
use call_moves::NestedCall;
use kind_trait::{Kinds, NestedReply};
use prop_map::{Copies, OutOfMemory, Str};
use std::alloc::Global;

// A call waits for a nested one, and where that would be one too many it doesn't.
fn wait<W: Drop>(calls: &mut Calls<W>, paused: Paused<W>) -> Result<bool, OutOfMemory>
    ensures nested { calls.new.nested.items ≡ calls.old.nested.items }
    ensures waits { IfOk result (λ waits. HasWaited calls.old.waiting paused waits calls.new.waiting) }
{
    calls.waiting.make_room()?;
    match calls.waiting.push(paused.service, paused) {
        Ok(()) => Ok(true),
        Err(_) => Ok(false),
    }
}

// A nested call that reaches nobody has its reply at once, and the call that waits for it goes on.
fn reply_at_once<O: Drop, W: Drop>(
    alloc: Global,
    calls: &mut Calls<W>,
    front: u64,
    service: u64,
    request: Str,
    reply: NestedReply,
) -> Result<Running<O, W>, OutOfMemory>
    requires { 0 < length calls.old.waiting.calls }
    ensures nested { OnOk result (calls.new.nested.items
        ≡ calls.old.nested.items ++ nested_call front service request (Some reply) ∷ []) }
    ensures resumed { IfOk result (λ running. HasResumed calls.old.waiting reply running calls.new.waiting) }
{
    let noted = Some(reply.copy(alloc)?);
    calls.nested.push(NestedCall {
        front,
        service,
        request,
        reply: noted,
    })?;
    match calls.waiting.pop() {
        Some(paused) => Ok(resumed(paused, reply)),
        None => unreachable!(),
    }
}

// The instance that a nested call reaches takes it up.
fn take_up<O: Drop, W: Drop>(
    alloc: Global,
    calls: &mut Calls<W>,
    front: u64,
    service: u64,
    party: Party<O>,
    request: Str,
) -> Result<Running<O, W>, OutOfMemory>
    ensures nested { OnOk result (calls.new.nested.items
        ≡ calls.old.nested.items ++ nested_call front service request None ∷ []) }
    ensures waiting { calls.new.waiting ≡ calls.old.waiting }
    ensures taken { IfOk result (λ running.
        running ≡ taken_up_by service party request (length calls.old.nested.items)) }
{
    let place = calls.nested.len();
    let noted = request.copy(alloc)?;
    calls.nested.push(NestedCall {
        front,
        service,
        request: noted,
        reply: None,
    })?;
    let Party {
        instance,
        site,
        object,
    } = party;
    Ok(Running {
        service,
        instance,
        place,
        asked: Asked::Start {
            site,
            object,
            request,
        },
    })
}

// A call waits for a nested one, unless that would be one too many, and it is decided whom the nested one reaches.
pub(crate) fn begin_call<K: Kinds, C: Callees<K::Object>>(
    alloc: Global,
    callees: &C,
    calls: &mut Calls<K::Work>,
    paused: Paused<K::Work>,
    reference: &Str,
    request: Str,
) -> Result<Step<K::Object, K::Work>, OutOfMemory>
    requires few { calls.old.waiting.nested ≤ 64 }
    ensures step { (outer : Outer)
        → IsAt (C.reaching callees.now) K.next (C.journal_length callees.now) K.stands_for outer calls.old
        (frame_of_paused K.stands_for paused)
        → next_move K.next (frame_of_paused K.stands_for paused) ≡ CallsMove reference.now request
        → IfOk result (HasStepped (C.reaching callees.now) K.next (C.journal_length callees.now) K.stands_for outer
        calls.new) }
    ensures own { IfOk result (IsOwnStep (C.owns callees.now)) }
    ensures fewer { IfOk result (HasFewer calls.old.waiting calls.new.waiting) }
{
    let instance = paused.instance;
    if !wait(calls, paused)? {
        return Ok(Step::Ends(End::TooLong));
    }
    let front = callees.front();
    match callees.reach(alloc, instance, reference)? {
        Callee::Nobody { service, reply } => {
            let running = reply_at_once(alloc, calls, front, service, request, reply)?;
            Ok(Step::Goes(running))
        }
        Callee::Instance { service, party } => {
            let running = take_up(alloc, calls, front, service, party, request)?;
            Ok(Step::Goes(running))
        }
    }
}
