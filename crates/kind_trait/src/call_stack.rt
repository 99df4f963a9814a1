//! The calls of one outer call that wait for the reply of a nested one.
ghost use Rattle.kind_trait.specs.Stacks.{too_long, pushed, IsPopped};
ghost use Rattle.std.specs.Prelude.{◌≡◌, ◌++◌, ◌∷◌, [], IfOk, IsOk, OnOk, OnErr, IfErr, true, false};

use prop_map::OutOfMemory;
use std::alloc::Global;
use std::marker::Model;
use thiserror::Error;

const MOST_CALLS: usize = 16;

const MOST_NESTED: u64 = 64;

/// A further nested call would be one too many.
#[derive(Clone, Copy, Debug, PartialEq, Eq, Drop, Error)]
#[error("the call is too long")]
pub struct CallTooLong;

/// A call that waits for the reply of the nested call that it made.
#[derive(Debug, PartialEq, Eq, Drop)]
pub struct Waiting<W> {
    /// The service that was called.
    pub service: u64,
    /// What is left to do with the reply.
    pub work: W,
}

/// The calls under one outer call that wait for the reply of the nested call that each of them made: at most 16 at a time.
///
/// A stack serves one outer call. The count of nested calls begins with the stack, at 0, and nothing lowers it or begins it
/// again, not even that no call waits: the outer call itself may make one nested call after the other. For the next outer
/// call there is a new stack. The room for the calls is taken by `make_room`, before the first call waits, so an outer call
/// that makes no nested one takes no memory. A stack whose work can't be dropped is let go by `close`.
#[derive(Drop)]
pub struct CallStack<W> {
    calls: Vec<Waiting<W>>,
    nested: u64,
}

impl<W> Model for CallStack<W> {
    ghost use Rattle.kind_trait.specs.Stacks.{Stack};
    ghost use Rattle.std.specs.Prelude.{◌≤◌, nat_le, vec_len, vec_capacity};

    ghost Value = { Stack W };

    ghost view = { λ s. record { calls = s.calls.items; nested = s.nested; has_room = nat_le 16 (vec_capacity s.calls) } };

    ghost invariant = { λ s. (vec_len s.calls ≤ 16) × (s.nested ≤ 64) };
}

impl<W> CallStack<W> {
    /// The stack of an outer call that begins: no call waits, and none was made. It takes no memory.
    ///
    /// # Errors
    /// None.
    pub fn new(alloc: Global) -> Result<CallStack<W>, OutOfMemory>
        ensures made { IsOk result }
        ensures empty { IfOk result (λ stack. (stack.calls ≡ []) × (stack.nested ≡ 0)) }
    {
        Ok(CallStack {
            calls: Vec::new(alloc),
            nested: 0,
        })
    }

    /// Takes the room for all calls that may wait, so that `push` takes none. Where it is there already, nothing happens.
    ///
    /// # Errors
    /// Only want of memory. The stack is then as it was.
    pub fn make_room(&mut self) -> Result<(), OutOfMemory>
        ensures ok { OnOk result (self.new ≡ record self.old { has_room = true }) }
        ensures err { OnErr result (self.new ≡ self.old) }
    {
        if self.calls.capacity() < MOST_CALLS {
            self.calls.reserve(MOST_CALLS)?;
        }
        Ok(())
    }

    /// The calls that wait, the outer one first. It takes no memory.
    pub fn waiting(&self) -> &[Waiting<W>]
        ensures { result.now ≡ self.now.calls }
    {
        self.calls.as_slice()
    }

    /// Lets a call of a service wait for the nested call that it makes. There must be room. It takes no memory.
    ///
    /// # Errors
    /// CallTooLong exactly where 16 calls wait, or 64 nested calls were made since the outer call began. The work comes back,
    /// and the stack is as it was.
    pub fn push(&mut self, service: u64, work: W) -> Result<(), (W, CallTooLong)>
        requires { self.old.has_room ≡ true }
        ensures ok { OnOk result ((too_long self.old ≡ false) × (self.new ≡ pushed self.old service work)) }
        ensures err { OnErr result ((too_long self.old ≡ true) × (self.new ≡ self.old)) }
        ensures back { IfErr result (λ e. e.0 ≡ work) }
    {
        if self.calls.len() == MOST_CALLS || self.nested == MOST_NESTED {
            return Err((work, CallTooLong));
        }
        self.calls.push_reserved(Waiting { service, work });
        self.nested += 1;
        Ok(())
    }

    /// The work of the call that began to wait last, taken off, and `None` exactly where none waits. It takes no memory.
    pub fn pop(&mut self) -> Option<W>
        ensures { IsPopped self.old result self.new }
    {
        let Waiting { service: _, work } = self.calls.pop()?;
        Some(work)
    }

    /// Lets a stack go in which no call waits.
    pub fn close(self)
        requires { self.calls ≡ [] }
    {
        let CallStack { calls, nested: _ } = self;
        calls.destroy_empty();
    }
}
