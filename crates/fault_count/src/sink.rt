//! Where bytes go.
ghost use Rattle.std.specs.Prelude.{◌≡◌, ◌<◌, ◌≤◌, List, ℕ, length};
ghost use Rattle.std.specs.declared.option.Option.{Option};
ghost use Rattle.fault_count.specs.Steps.{Rose, TakesBytes, faults_after_write};

/// What one write did.
#[derive(Clone, Copy, Debug, PartialEq, Eq)]
pub enum WriteStep {
    /// That many bytes were taken from the front, at least one.
    Took(usize),
    /// The sink failed, and its count of faults rose. Nothing was taken.
    Failed,
}

/// Where bytes go, with a count of its faults.
pub trait Sink {
    /// The bytes written so far, where the sink tells them.
    ghost written: { Self → Option (List ℕ) };

    /// How often it has failed.
    ghost fault_count: { Self → ℕ };

    /// Takes some of these bytes, from the front. The count rises by a failure alone: whatever else is answered leaves
    /// it as it was.
    fn write(&mut self, bytes: &[u8]) -> WriteStep
        requires { 0 < length bytes.now }
        ensures bytes { TakesBytes (written self.old) (written self.new) result bytes.now }
        ensures cause { result ≡ WriteStep.Failed → Rose (fault_count self.old) (fault_count self.new) }
        ensures later { fault_count self.old ≤ fault_count self.new }
        ensures faults { fault_count self.new ≡ faults_after_write (fault_count self.old) result };

    /// How often it has failed. The count stays at the greatest number of 64 bits.
    fn faults(&self) -> u64
        ensures { result ≡ fault_count self.now };
}
