//! Any reader of the standard library as a source.
ghost use Rattle.std.specs.Prelude.{◌≡◌, ◌-◌, ◌<◌, ◌≤◌, ◌^◌, ℕ, length};
ghost use Rattle.std.specs.Io.{ReadsAtMost};
ghost use Rattle.std.specs.Io.KnownBytes.{ReadConsumes};
ghost use Rattle.fault_count.specs.Standard.{CountedReader};
ghost use Rattle.fault_count.specs.Steps.{GivesBytes, LowersNumber, Rose, faults_after_read};

use crate::interruptions::MOST_TRIES;
use crate::{ReadStep, Source};
use std::io::{ErrorKind, Read};
use std::marker::Model;

/// A reader as a source. It tells the bytes that are left where the reader does, and gives 2^64 - 1 bytes at most.
/// A read that a signal interrupts is tried again, a hundred times at most. A reader that has nothing yet and doesn't
/// wait fails.
#[derive(Drop)]
pub struct StdSource<R> {
    inner: R,
    number: u64,
    faults: u64,
}

impl<R> Model for StdSource<R> {
    ghost use Rattle.fault_count.specs.Standard.{CountedReader};

    ghost Value = { CountedReader R };

    ghost view = { λ s. record { inner = s.inner; number = s.number; fault_count = s.faults } };
}

impl<R> StdSource<R> {
    /// A source over this reader, which may give as many bytes as 64 bits count and has not failed yet.
    pub fn new(inner: R) -> StdSource<R>
        ensures { result ≡ record { inner = inner; number = 2 ^ 64 - 1; fault_count = 0 } }
    {
        StdSource {
            inner,
            number: u64::MAX,
            faults: 0,
        }
    }
}

impl<R: Read> Source for StdSource<R> {
    ghost left = { λ s. R.remaining s.inner };

    ghost number = { λ s. s.number };

    ghost fault_count = { λ s. s.fault_count };

    fn read(&mut self, room: &mut [u8]) -> ReadStep
        requires { 0 < length room.old }
        ensures bytes { GivesBytes (R.remaining self.old.inner) (R.remaining self.new.inner) result room.new }
        ensures number { LowersNumber self.old.number self.new.number result }
        ensures cause { result ≡ ReadStep.Failed → Rose self.old.fault_count self.new.fault_count }
        ensures later { self.old.fault_count ≤ self.new.fault_count }
        ensures used_up { self.old.number ≡ 0 → result ≡ ReadStep.Failed }
        ensures faults { self.new.fault_count ≡ faults_after_read self.old.fault_count result }
    {
        let step = read_at_most(&mut self.inner, room, self.number);
        match step {
            ReadStep::Got(count) => self.number -= count as u64,
            ReadStep::End => {}
            ReadStep::Failed => self.faults = self.faults.saturating_add(1),
        }
        step
    }

    fn faults(&self) -> u64 {
        self.faults
    }
}

// Reads into the front of the room at most so many bytes; none at all where the number is used up.
fn read_at_most<R: Read>(inner: &mut R, room: &mut [u8], number: u64) -> ReadStep
    requires { 0 < length room.old }
    ensures bytes { GivesBytes (R.remaining inner.old) (R.remaining inner.new) result room.new }
    ensures bound { (count : ℕ) → result ≡ ReadStep.Got count → count ≤ number }
    ensures used_up { number ≡ 0 → result ≡ ReadStep.Failed }
{
    if number == 0 {
        return ReadStep::Failed;
    }
    let most = usize::try_from(number)
        .unwrap_or(usize::MAX)
        .min(room.len());
    'tries: for _ in 0..MOST_TRIES {
        match inner.read(&mut room[..most]) {
            Ok(0) => return ReadStep::End,
            Ok(count) => return ReadStep::Got(count),
            Err(error) if error.kind() == ErrorKind::Interrupted => {}
            Err(_) => return ReadStep::Failed,
        }
    }
    ReadStep::Failed
}
