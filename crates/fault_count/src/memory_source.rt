//! A source in memory.
ghost use Rattle.std.specs.Prelude.{◌≡◌, ◌<◌, ◌≤◌, Some, drop, take, length};
ghost use Rattle.fault_count.specs.Memory.{MemoryInput, after_read, read_step};
ghost use Rattle.fault_count.specs.Steps.{GivesBytes, LowersNumber, Rose, faults_after_read};

use crate::{ReadStep, Source};
use std::marker::Model;

/// Gives bytes in pieces, and fails in the calls that are listed. Contracts see what is left and how it is given.
#[derive(Drop)]
pub struct MemorySource {
    bytes: Vec<u8>,
    at: usize,
    piece: usize,
    failing: Vec<u64>,
    calls: u64,
    faults: u64,
}

impl Model for MemorySource {
    ghost use Rattle.std.specs.Prelude.{◌≤◌, drop, vec_len};
    ghost use Rattle.fault_count.specs.Memory.{MemoryInput};

    ghost Value = { MemoryInput };

    ghost view = { λ s. record { left = drop s.at s.bytes.items; piece = s.piece; failing = s.failing.items; calls = s.calls; fault_count = s.faults } };

    ghost invariant = { λ s. s.at ≤ vec_len s.bytes };
}

impl MemorySource {
    /// A source of these bytes. Each call gives at most `piece` of them, at least one, and a call fails where its
    /// number, from 0, is listed in `failing`.
    pub fn new(bytes: Vec<u8>, piece: usize, failing: Vec<u64>) -> MemorySource
        ensures { result ≡ record { left = bytes.items; piece = piece; failing = failing.items; calls = 0; fault_count = 0 } }
    {
        MemorySource {
            bytes,
            at: 0,
            piece,
            failing,
            calls: 0,
            faults: 0,
        }
    }
}

impl Source for MemorySource {
    ghost left = { λ s. Some s.left };

    ghost number = { λ s. length s.left };

    ghost fault_count = { λ s. s.fault_count };

    fn read(&mut self, room: &mut [u8]) -> ReadStep
        requires { 0 < length room.old }
        ensures bytes { GivesBytes (Some self.old.left) (Some self.new.left) result room.new }
        ensures number { LowersNumber (length self.old.left) (length self.new.left) result }
        ensures cause { result ≡ ReadStep.Failed → Rose self.old.fault_count self.new.fault_count }
        ensures later { self.old.fault_count ≤ self.new.fault_count }
        ensures faults { self.new.fault_count ≡ faults_after_read self.old.fault_count result }
        ensures step { result ≡ read_step self.old (length room.old) }
        ensures after { self.new ≡ after_read self.old result }
    {
        let call = self.calls;
        self.calls = call.saturating_add(1);
        if self.failing.contains(&call) {
            self.faults = self.faults.saturating_add(1);
            return ReadStep::Failed;
        }
        let (_, rest) = self.bytes.split_at(self.at);
        if rest.is_empty() {
            return ReadStep::End;
        }
        let count = rest.len().min(self.piece.max(1)).min(room.len());
        copy_front(room, rest, count);
        self.at += count;
        ReadStep::Got(count)
    }

    fn faults(&self) -> u64 {
        self.faults
    }
}

// Writes the first bytes of these over the front of the room.
fn copy_front(room: &mut [u8], bytes: &[u8], count: usize)
    requires have { count ≤ length bytes.now }
    requires fits { count ≤ length room.old }
    ensures front { take count room.new ≡ take count bytes.now }
    ensures len { length room.new ≡ length room.old }
{
    room[..count].copy_from_slice(&bytes[..count]);
}
