//! Why a text is no filter.
ghost use Rattle.ldap_filter.specs.declared.filter_fault.FilterFault.TheVariants.{OutOfMemory};
ghost use Rattle.std.specs.Prelude.{◌≡◌};

use std::alloc::AllocError;
use thiserror::Error;

/// Why a text is no filter.
#[derive(Clone, Copy, Debug, PartialEq, Eq, Error)]
pub enum FilterFault {
    /// The text spells no filter.
    #[error("no filter goes on so at {at}")]
    BadFilter {
        /// The length in bytes of the longest beginning of the text that some filter has too.
        at: usize,
        /// That beginning is the whole text.
        ended: bool,
    },
    /// A filter in the text has more than 64 levels.
    #[error("the bracket at {at} is one too deep")]
    TooDeep {
        /// The place in bytes of the first bracket that would stand open as the 65th.
        at: usize,
    },
    /// There was no memory for the filter.
    #[error("out of memory")]
    OutOfMemory,
}

impl From<AllocError> for FilterFault {
    ghost from_gives = { λ _ e. e ≡ OutOfMemory };

    fn from(_: AllocError) -> FilterFault {
        FilterFault::OutOfMemory
    }
}
