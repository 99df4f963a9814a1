//! A sink in memory.
ghost use Rattle.std.specs.Prelude.{◌≡◌, ◌<◌, ◌≤◌, Some, take, length, []};
ghost use Rattle.fault_count.specs.Memory.{Answers, MemoryOutput, after_write};
ghost use Rattle.fault_count.specs.Steps.{Rose, TakesBytes, faults_after_write};

use crate::{Sink, WriteStep};
use std::marker::Model;

/// Takes bytes in pieces, and fails in the calls that are listed. Contracts see what was written and how more is taken.
#[derive(Drop)]
pub struct MemorySink {
    bytes: Vec<u8>,
    piece: usize,
    failing: Vec<u64>,
    calls: u64,
    faults: u64,
}

impl Model for MemorySink {
    ghost use Rattle.std.specs.Prelude.{vec_capacity};
    ghost use Rattle.fault_count.specs.Memory.{MemoryOutput};

    ghost Value = { MemoryOutput };

    ghost view = { λ s. record { written = s.bytes.items; piece = s.piece; failing = s.failing.items; calls = s.calls; fault_count = s.faults; capacity = vec_capacity s.bytes } };
}

impl MemorySink {
    /// An empty sink. Each call takes at most `piece` bytes, at least one, and a call fails where its number, from 0,
    /// is listed in `failing`. The bytes are kept in the memory that `failing` comes from; a call that finds none there
    /// fails too.
    pub fn new(piece: usize, failing: Vec<u64>) -> MemorySink
        ensures { result ≡ record { written = []; piece = piece; failing = failing.items; calls = 0; fault_count = 0; capacity = 0 } }
    {
        MemorySink {
            bytes: Vec::new(*failing.allocator()),
            piece,
            failing,
            calls: 0,
            faults: 0,
        }
    }

    /// All bytes that were taken.
    pub fn written(&self) -> &[u8]
        ensures { result.now ≡ self.now.written }
    {
        self.bytes.as_slice()
    }
}

impl Sink for MemorySink {
    ghost written = { λ s. Some s.written };

    ghost fault_count = { λ s. s.fault_count };

    fn write(&mut self, bytes: &[u8]) -> WriteStep
        requires { 0 < length bytes.now }
        ensures bytes { TakesBytes (Some self.old.written) (Some self.new.written) result bytes.now }
        ensures cause { result ≡ WriteStep.Failed → Rose self.old.fault_count self.new.fault_count }
        ensures later { self.old.fault_count ≤ self.new.fault_count }
        ensures faults { self.new.fault_count ≡ faults_after_write self.old.fault_count result }
        ensures step { Answers self.old bytes.now result }
        ensures after { self.new ≡ after_write self.old bytes.now result self.new.capacity }
    {
        let call = self.calls;
        self.calls = call.saturating_add(1);
        if self.failing.contains(&call) {
            self.faults = self.faults.saturating_add(1);
            return WriteStep::Failed;
        }
        let count = bytes.len().min(self.piece.max(1));
        let (front, _) = bytes.split_at(count);
        if self.bytes.extend_from_slice(front).is_err() {
            self.faults = self.faults.saturating_add(1);
            return WriteStep::Failed;
        }
        WriteStep::Took(count)
    }

    fn faults(&self) -> u64 {
        self.faults
    }
}
