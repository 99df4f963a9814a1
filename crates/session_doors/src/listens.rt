//! Where doors come from.
ghost use Rattle.fault_count.specs.Steps.{Rose};
ghost use Rattle.session_doors.specs.Doors.{Stays, TakesAll};
ghost use Rattle.std.specs.Prelude.{◌≡◌, ◌∷◌, ◌≤◌, [], IfErr, IfOk, List, MatchResult, length, ℕ};
ghost use Rattle.std.specs.declared.option.Option.{Option};

use crate::Doors;

/// Why there are no doors at an address.
#[derive(Clone, Copy, Debug, PartialEq, Eq, Drop)]
pub enum ListenStop {
    /// Nothing listens there, and the count of faults rose.
    Failed,
    /// There was no memory.
    OutOfMemory,
}

/// Listens at addresses, and gives doors for the connections that come there. It has a count of its faults.
pub trait Listens {
    /// The doors of one thread.
    type Doors: Doors + Send + Drop;

    /// The doors that are to come, a list for each address, where they are told.
    ghost offers: { Self → Option (List (List Self.Doors)) };

    /// How often listening has failed.
    ghost fault_count: { Self → ℕ };

    /// Listens at an address for so many threads, and gives doors for each of them: the first list of those that are to
    /// come.
    ///
    /// # Errors
    /// Failed only where the count of faults rises by it, or stands at the greatest number of 64 bits; otherwise only want
    /// of memory.
    fn listen(&mut self, address: &str, threads: u32) -> Result<Vec<Self::Doors>, ListenStop>
        ensures many { IfOk result (λ doors. length doors.items ≡ threads) }
        ensures offers { MatchResult result (λ doors. TakesAll (offers self.old) (offers self.new) (doors.items ∷ [])) (λ _. Stays (offers self.old) (offers self.new)) }
        ensures cause { IfErr result (λ stop. stop ≡ ListenStop.Failed → Rose (fault_count self.old) (fault_count self.new)) }
        ensures later { fault_count self.old ≤ fault_count self.new };

    /// How often listening has failed. The count stays at the greatest number of 64 bits.
    fn faults(&self) -> u64
        ensures { result ≡ fault_count self.now };
}
