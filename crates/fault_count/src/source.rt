//! Where bytes come from.
ghost use Rattle.std.specs.Prelude.{◌≡◌, ◌<◌, ◌≤◌, List, ℕ, length};
ghost use Rattle.std.specs.declared.option.Option.{Option};
ghost use Rattle.fault_count.specs.Steps.{GivesBytes, LowersNumber, Rose, faults_after_read};

/// What one read did.
#[derive(Clone, Copy, Debug, PartialEq, Eq)]
pub enum ReadStep {
    /// That many bytes stand at the front of the room, at least one.
    Got(usize),
    /// Nothing is left.
    End,
    /// The source failed, and its count of faults rose. Nothing was moved.
    Failed,
}

/// Where bytes come from, with a count of its faults.
pub trait Source {
    /// The bytes that are left, where the source tells them.
    ghost left: { Self → Option (List ℕ) };

    /// How many bytes it can still give at most.
    ghost number: { Self → ℕ };

    /// How often it has failed.
    ghost fault_count: { Self → ℕ };

    /// Moves some of the bytes that are left, in order, to the front of the room. The count rises by a failure alone:
    /// whatever else is answered leaves it as it was.
    fn read(&mut self, room: &mut [u8]) -> ReadStep
        requires { 0 < length room.old }
        ensures bytes { GivesBytes (left self.old) (left self.new) result room.new }
        ensures number { LowersNumber (number self.old) (number self.new) result }
        ensures cause { result ≡ ReadStep.Failed → Rose (fault_count self.old) (fault_count self.new) }
        ensures later { fault_count self.old ≤ fault_count self.new }
        ensures faults { fault_count self.new ≡ faults_after_read (fault_count self.old) result };

    /// How often it has failed. The count stays at the greatest number of 64 bits.
    fn faults(&self) -> u64
        ensures { result ≡ fault_count self.now };
}
