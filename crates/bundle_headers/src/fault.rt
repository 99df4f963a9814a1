//! Why headers cannot be read.
ghost use Rattle.std.specs.Prelude.{◌≡◌};
ghost use Rattle.bundle_headers.specs.declared.fault.HeaderFault.TheVariants.{OutOfMemory};

use std::alloc::{AllocError, AllocFailed};
use thiserror::Error;

/// Why a manifest, a list of clauses, or the headers that every bundle needs cannot be read.
#[derive(Clone, Copy, Debug, PartialEq, Eq, Error)]
pub enum HeaderFault {
    /// A header begins wrongly on this line, or the line continues a line that isn't there.
    #[error("line {line} begins no header")]
    BadHeader {
        /// From 1.
        line: usize,
    },
    /// A header isn't UTF-8: the byte of the document at this place belongs to no character.
    #[error("byte {at} belongs to no character")]
    NotUtf8 {
        /// From 0.
        at: usize,
    },
    /// The header that begins on this line was there already.
    #[error("line {line} repeats a header")]
    DuplicateHeader {
        /// From 1.
        line: usize,
    },
    /// The text is no list of clauses. `at` is the length in bytes of its longest prefix that some list continues.
    #[error("no list of clauses, from byte {at}")]
    BadClause {
        /// From 0 to the length of the text.
        at: usize,
    },
    /// The bundle has no symbolic name.
    #[error("no symbolic name")]
    MissingName,
    /// The manifest isn't of version 2.
    #[error("no manifest of version 2")]
    BadManifestVersion,
    /// The bundle's version is none. `at` is the place in its text.
    #[error("no version, from byte {at}")]
    BadVersion {
        /// From 0 to the length of the text.
        at: usize,
    },
    /// There was no memory for the answer.
    #[error("out of memory")]
    OutOfMemory,
}

impl From<AllocError> for HeaderFault {
    ghost from_gives = { λ _ e. e ≡ OutOfMemory };

    fn from(_: AllocError) -> HeaderFault {
        HeaderFault::OutOfMemory
    }
}

impl<T: Drop> From<AllocFailed<T>> for HeaderFault {
    ghost from_gives = { λ _ e. e ≡ OutOfMemory };

    fn from(_: AllocFailed<T>) -> HeaderFault {
        HeaderFault::OutOfMemory
    }
}
