//! Why a description isn't read.
ghost use Rattle.std.specs.Prelude.{◌≡◌};
ghost use Rattle.component_dto.specs.declared.fault.DescriptionFault.TheVariants.{OutOfMemory};

use prop_map::{PropFault, Str};
use std::alloc::{AllocError, AllocFailed};
use thiserror::Error;

/// Why a description isn't read. Of several faults the first is told: those of the fields in the order of their table, those
/// of references in their place, and then the others in the order of these variants.
#[derive(Debug, Drop, PartialEq, Eq, Error)]
pub enum DescriptionFault {
    /// A field that has to be there is missing, or an empty text.
    #[error("{field} is missing")]
    MissingField {
        /// The field's name.
        field: Str,
    },
    /// The value of a field has another type than the field; `component` where the description itself is no object.
    #[error("{field} is of a wrong type")]
    WrongType {
        /// The field's name.
        field: Str,
    },
    /// The text of a field is none of the field's words.
    #[error("{field} is none of its words")]
    BadWord {
        /// The field's name.
        field: Str,
    },
    /// A property is at fault.
    #[error("{fault}")]
    BadProperty {
        /// How, and which one.
        fault: PropFault,
    },
    /// It is the description of a factory.
    #[error("factory components are not supported")]
    FactoryComponent,
    /// A reference takes an instance of its own for each use.
    #[error("the reference {name} takes an instance for each use")]
    PrototypeReference {
        /// The name of the first such reference.
        name: Str,
    },
    /// Two references have one name.
    #[error("the reference {name} is there twice")]
    SameReference {
        /// The name of the first reference that has the name of one before it.
        name: Str,
    },
    /// A component of another scope than `singleton` is immediate.
    #[error("an immediate component has one instance")]
    ImmediateScope,
    /// A component without a service is said not to be immediate.
    #[error("a component without a service is immediate")]
    DelayedWithoutService,
    /// The target of a reference is no filter, or one of more than 64 levels.
    #[error("the target of {name} is no filter, from byte {at}")]
    BadTarget {
        /// The name of the first such reference.
        name: Str,
        /// The place in the target in bytes, as `Filter::parse` tells it.
        at: usize,
    },
    /// There are more than four different configuration PIDs.
    #[error("more than four configuration PIDs")]
    TooManyPids,
    /// There was no memory.
    #[error("out of memory")]
    OutOfMemory,
}

impl From<AllocError> for DescriptionFault {
    ghost from_gives = { λ _ e. e ≡ OutOfMemory };

    fn from(_: AllocError) -> Self {
        DescriptionFault::OutOfMemory
    }
}

impl<T: Drop> From<AllocFailed<T>> for DescriptionFault {
    ghost from_gives = { λ _ e. e ≡ OutOfMemory };

    fn from(_: AllocFailed<T>) -> Self {
        DescriptionFault::OutOfMemory
    }
}
