//! What keeps a world.
ghost use Rattle.fault_count.specs.Steps.{Rose};
ghost use Rattle.std.specs.Prelude.{◌≡◌, ◌≤◌, ℕ, IfOk, OnErr, OnOk};
ghost use Rattle.world_keeper.specs.KeptWorlds.{kept_after};
ghost use Rattle.world_keeper.specs.Orders.{IsOrdered};
ghost use Rattle.world_keeper.specs.declared.kept.Kept.{Kept};

use crate::{Change, KeepFault, Kept};

/// What keeps a world. For contracts a keeper is what it keeps, with a count of its faults.
pub trait Keeper {
    /// What it keeps.
    ghost kept: { Self → Kept };

    /// How often it has failed.
    ghost fault_count: { Self → ℕ };

    /// What it keeps, which stays.
    ///
    /// # Errors
    /// `Failed` comes only where the count of faults rose in this call or stands at its last value. `OutOfMemory` may
    /// come at any call.
    fn load(&mut self) -> Result<Kept, KeepFault>
        ensures same { kept self.new ≡ kept self.old }
        ensures all { IfOk result (λ found. found ≡ kept self.old) }
        ensures ordered { IfOk result IsOrdered }
        ensures cause { result ≡ Err KeepFault.Failed → Rose (fault_count self.old) (fault_count self.new) }
        ensures later { fault_count self.old ≤ fault_count self.new };

    /// Keeps one change more, or none where it is refused.
    ///
    /// # Errors
    /// As those of `load`.
    fn apply(&mut self, change: &Change) -> Result<(), KeepFault>
        ensures ok { OnOk result (kept self.new ≡ kept_after (kept self.old) change.now) }
        ensures err { OnErr result (kept self.new ≡ kept self.old) }
        ensures cause { result ≡ Err KeepFault.Failed → Rose (fault_count self.old) (fault_count self.new) }
        ensures later { fault_count self.old ≤ fault_count self.new };

    /// How often it has failed. The count stays at the greatest number of 64 bits.
    fn faults(&self) -> u64
        ensures { result ≡ fault_count self.now };
}
