//! Why a document isn't read.
ghost use Rattle.std.specs.Prelude.{◌≡◌};
ghost use Rattle.bundle_doc.specs.declared.fault.DocFault.TheVariants.{OutOfMemory};

use bundle_headers::HeaderFault;
use component_dto::DescriptionFault;
use prop_map::Str;
use std::alloc::{AllocError, AllocFailed};
use thiserror::Error;

/// Why a document isn't read. Of several faults the first is told: those of the fields `location`, `manifest` and
/// `components`, then those of the manifest, then those of the entries, and at last that of their names.
#[derive(Debug, Drop, PartialEq, Eq, Error)]
pub enum DocFault {
    /// The bytes are no JSON text.
    #[error("the document is no JSON")]
    NotJson,
    /// A field that has to be there is missing, or an empty text.
    #[error("{field} is missing")]
    MissingField {
        /// The field's name.
        field: Str,
    },
    /// The value of a field has another type than the field; `document` where the document itself is no object.
    #[error("{field} is of a wrong type")]
    WrongType {
        /// The field's name.
        field: Str,
    },
    /// The manifest names an entry that isn't there.
    #[error("there is no entry {name}")]
    MissingEntry {
        /// The entry's name.
        name: Str,
    },
    /// Two components have one name.
    #[error("the component {name} is there twice")]
    SameComponent {
        /// The name of the first component that has the name of one before it.
        name: Str,
    },
    /// The manifest is at fault.
    #[error("{fault}")]
    Header {
        /// How, and where.
        fault: HeaderFault,
    },
    /// The description of an entry is at fault.
    #[error("in {name}: {fault}")]
    InEntry {
        /// The entry's name.
        name: Str,
        /// How it is at fault.
        fault: DescriptionFault,
    },
    /// There was no memory.
    #[error("out of memory")]
    OutOfMemory,
}

impl From<AllocError> for DocFault {
    ghost from_gives = { λ _ e. e ≡ OutOfMemory };

    fn from(_: AllocError) -> Self {
        DocFault::OutOfMemory
    }
}

impl<T: Drop> From<AllocFailed<T>> for DocFault {
    ghost from_gives = { λ _ e. e ≡ OutOfMemory };

    fn from(_: AllocFailed<T>) -> Self {
        DocFault::OutOfMemory
    }
}
