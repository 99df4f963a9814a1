//! A request to an instance, run to its end.
ghost use Rattle.call_runner.specs.Runs.{ComesToEnd, IsAt, IsOwnRunning, Outer, frame_of};
ghost use Rattle.std.specs.Arc.{arc_value};
ghost use Rattle.std.specs.Prelude.{◌≡◌, ◌≤◌, [], IfOk};

use crate::advance::{Step, advance};
use crate::asking::Asked;
use crate::calls::{Calls, Running};
use crate::{Callees, Party};
use call_moves::NestedCall;
use kind_trait::{CallStack, Kinds};
use prop_map::{List, OutOfMemory, Str};
use std::alloc::Global;

/// How a call ends.
#[derive(Drop)]
pub enum End {
    /// It is answered.
    Said(Str),
    /// The component code refuses it.
    Declined,
    /// A further nested call would be one too many.
    TooLong,
}

/// What a call came to.
#[derive(Drop)]
pub struct CallEnd {
    /// The nested calls, in the order in which they began.
    pub nested: List<NestedCall>,
    /// How it ended.
    pub end: End,
}

// Runs a call that is under way to its end.
fn run_on<K: Kinds, C: Callees<K::Object>>(
    alloc: Global,
    kinds: &K,
    callees: &C,
    calls: &mut Calls<K::Work>,
    first: Running<K::Object, K::Work>,
) -> Result<End, OutOfMemory>
    requires own { IsOwnRunning (C.owns callees.now) first }
    requires few { calls.old.waiting.nested ≤ 64 }
    ensures { (outer : Outer)
        → IsAt (C.reaching callees.now) K.next (C.journal_length callees.now) K.stands_for outer calls.old
        (frame_of K.stands_for first)
        → IfOk result (ComesToEnd (C.reaching callees.now) K.next (C.journal_length callees.now) outer
        calls.new.nested.items) }
{
    let mut running = first;
    loop {
        match advance(alloc, kinds, callees, calls, running)? {
            Step::Goes(next) => running = next,
            Step::Ends(end) => return Ok(end),
        }
    }
}

/// Runs a request to an instance, which was called by a service, to its end. Each nested call is decided at the
/// length of the journal as it is; at most 16 calls wait at a time, and at most 64 nested ones are made.
///
/// # Errors
/// Only want of memory.
pub fn run_call<K: Kinds, C: Callees<K::Object>>(
    alloc: Global,
    kinds: &K,
    callees: &C,
    service: u64,
    party: Party<K::Object>,
    request: Str,
) -> Result<CallEnd, OutOfMemory>
    requires own { C.owns callees.now party.instance (arc_value party.object) }
    ensures { IfOk result (λ r. ComesToEnd (C.reaching callees.now) K.next (C.journal_length callees.now)
        (record { instance = party.instance; site = party.site; request = request }) r.nested r.end) }
{
    let mut calls = Calls {
        waiting: CallStack::new(alloc)?,
        nested: Vec::new(alloc),
    };
    let Party {
        instance,
        site,
        object,
    } = party;
    let first = Running {
        service,
        instance,
        place: 0,
        asked: Asked::Start {
            site,
            object,
            request,
        },
    };
    let end = run_on(alloc, kinds, callees, &mut calls, first)?;
    let Calls { waiting: _, nested } = calls;
    Ok(CallEnd {
        nested: List::of(nested),
        end,
    })
}
