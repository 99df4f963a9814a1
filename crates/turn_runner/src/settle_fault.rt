//! Why a settling stops before all is settled.
ghost use Rattle.std.specs.Prelude.{◌≡◌};
ghost use Rattle.turn_runner.specs.declared.settle_fault.SettleFault.TheVariants.{OutOfMemory};

use crate::DeskFault;
use std::alloc::AllocError;
use thiserror::Error;

/// Why a settling stops before all is settled.
#[derive(Clone, Copy, Debug, Drop, PartialEq, Eq, Error)]
pub enum SettleFault {
    /// As many turns ran as were allowed, and one is still due.
    #[error("a turn is still due")]
    Unsettled,
    /// The journal has no room for the next turn.
    #[error("the journal is full")]
    JournalFull,
    /// There was no memory, maybe for the component code.
    #[error("out of memory")]
    OutOfMemory,
}

impl From<AllocError> for SettleFault {
    ghost from_gives = { λ _ e. e ≡ OutOfMemory };

    fn from(_: AllocError) -> SettleFault {
        SettleFault::OutOfMemory
    }
}

impl From<DeskFault> for SettleFault {
    ghost use Rattle.std.specs.Prelude.{◌≡◌};
    ghost use Rattle.turn_runner.specs.Faults.{fault_of};

    ghost from_gives = { λ f e. e ≡ fault_of f };

    fn from(fault: DeskFault) -> SettleFault {
        match fault {
            DeskFault::JournalFull => SettleFault::JournalFull,
            DeskFault::OutOfMemory => SettleFault::OutOfMemory,
        }
    }
}
