//! A call that ends.
ghost use Rattle.call_moves.specs.Evaluations.{reply_by, with_reply_at};
ghost use Rattle.call_runner.specs.Runs.{ended_of};
ghost use Rattle.call_runner.specs.Steps.{HasEnded};
ghost use Rattle.std.specs.Prelude.{◌≡◌, IfOk};

use crate::End;
use crate::advance::Step;
use crate::calls::{Calls, resumed};
use call_moves::NestedCall;
use kind_trait::NestedReply;
use prop_map::{Copies, OutOfMemory};
use std::alloc::Global;

// The reply that the end of a nested call gives.
fn reply_of(end: End) -> NestedReply
    ensures { result ≡ reply_by (ended_of end) }
{
    match end {
        End::Said(text) => NestedReply::Text(text),
        End::Declined | End::TooLong => NestedReply::Refused,
    }
}

// The nested call at a place has its reply.
fn note_reply(nested: &mut Vec<NestedCall>, place: usize, reply: NestedReply)
    ensures { nested.new.items ≡ with_reply_at place reply nested.old.items }
{
    if place < nested.len() {
        nested[place].reply = Some(reply);
    }
}

// The call that runs has ended: the one that waits for it goes on, or the outer call is over.
pub(crate) fn end_call<O: Drop, W: Drop>(
    alloc: Global,
    calls: &mut Calls<W>,
    place: usize,
    end: End,
) -> Result<Step<O, W>, OutOfMemory>
    ensures { IfOk result (HasEnded calls.old place end calls.new) }
{
    match calls.waiting.pop() {
        Some(paused) => {
            let reply = reply_of(end);
            let noted = reply.copy(alloc)?;
            note_reply(&mut calls.nested, place, noted);
            Ok(Step::Goes(resumed(paused, reply)))
        }
        None => Ok(Step::Ends(end)),
    }
}
