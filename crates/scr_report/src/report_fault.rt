//! Why there is no report.
ghost use Rattle.std.specs.Prelude.{◌≡◌};
ghost use Rattle.scr_report.specs.declared.report_fault.ReportFault.TheVariants.{OutOfMemory};

use std::alloc::AllocError;
use thiserror::Error;

/// Why there is no report.
#[derive(Clone, Copy, Debug, Drop, PartialEq, Eq, Error)]
pub enum ReportFault {
    /// There is no component configuration of this number, or it has ceased.
    #[error("there is no component configuration {id}")]
    NoComponent {
        /// The number.
        id: u64,
    },
    /// There was no memory.
    #[error("out of memory")]
    OutOfMemory,
}

impl From<AllocError> for ReportFault {
    ghost from_gives = { λ _ e. e ≡ OutOfMemory };

    fn from(_: AllocError) -> ReportFault {
        ReportFault::OutOfMemory
    }
}
