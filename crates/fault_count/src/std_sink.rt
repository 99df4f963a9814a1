//! Any writer of the standard library as a sink.
ghost use Rattle.std.specs.Prelude.{◌≡◌, ◌<◌, ◌≤◌, length};
ghost use Rattle.fault_count.specs.Standard.{CountedWriter};
ghost use Rattle.fault_count.specs.Steps.{Rose, TakesBytes, faults_after_write};

use crate::interruptions::MOST_TRIES;
use crate::{Sink, WriteStep};
use std::io::{ErrorKind, Write};
use std::marker::Model;

/// A writer as a sink. It tells the bytes written where the writer does. A write that a signal interrupts is tried
/// again, a hundred times at most. A writer that takes nothing yet and doesn't wait fails.
#[derive(Drop)]
pub struct StdSink<W> {
    inner: W,
    faults: u64,
}

impl<W> Model for StdSink<W> {
    ghost use Rattle.fault_count.specs.Standard.{CountedWriter};

    ghost Value = { CountedWriter W };

    ghost view = { λ s. record { inner = s.inner; fault_count = s.faults } };
}

impl<W> StdSink<W> {
    /// A sink over this writer, which has not failed yet.
    pub fn new(inner: W) -> StdSink<W>
        ensures { result ≡ record { inner = inner; fault_count = 0 } }
    {
        StdSink { inner, faults: 0 }
    }
}

impl<W: Write> Sink for StdSink<W> {
    ghost written = { λ s. W.contents s.inner };

    ghost fault_count = { λ s. s.fault_count };

    fn write(&mut self, bytes: &[u8]) -> WriteStep
        requires { 0 < length bytes.now }
        ensures bytes { TakesBytes (W.contents self.old.inner) (W.contents self.new.inner) result bytes.now }
        ensures cause { result ≡ WriteStep.Failed → Rose self.old.fault_count self.new.fault_count }
        ensures later { self.old.fault_count ≤ self.new.fault_count }
        ensures faults { self.new.fault_count ≡ faults_after_write self.old.fault_count result }
    {
        let step = write_some(&mut self.inner, bytes);
        if step == WriteStep::Failed {
            self.faults = self.faults.saturating_add(1);
        }
        step
    }

    fn faults(&self) -> u64 {
        self.faults
    }
}

// Writes some of these bytes, from the front.
fn write_some<W: Write>(inner: &mut W, bytes: &[u8]) -> WriteStep
    requires { 0 < length bytes.now }
    ensures { TakesBytes (W.contents inner.old) (W.contents inner.new) result bytes.now }
{
    'tries: for _ in 0..MOST_TRIES {
        match inner.write(bytes) {
            Ok(0) => return WriteStep::Failed,
            Ok(count) => return WriteStep::Took(count),
            Err(error) if error.kind() == ErrorKind::Interrupted => {}
            Err(_) => return WriteStep::Failed,
        }
    }
    WriteStep::Failed
}
