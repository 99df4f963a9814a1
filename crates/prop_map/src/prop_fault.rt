//! Why a JSON value gives no properties.
ghost use Rattle.prop_map.specs.declared.prop_fault.PropFault.TheVariants.{OutOfMemory};
ghost use Rattle.std.specs.Prelude.{◌≡◌};

use crate::Str;
use std::alloc::{AllocError, AllocFailed};
use thiserror::Error;

/// Why a JSON value gives no properties. Of several faults, that of the first key in byte order is told.
#[derive(Debug, Drop, PartialEq, Eq, Error)]
pub enum PropFault {
    /// The value is no object.
    #[error("the properties are no object")]
    NotObject,
    /// A number, alone or in a list, that is no whole number in 64 bits with a sign.
    #[error("the number at {key} is no whole number in 64 bits")]
    FloatValue {
        /// The key of the value.
        key: Str,
    },
    /// An object, or a list with a list, an object or a null in it.
    #[error("the value at {key} is nested")]
    NestedValue {
        /// The key of the value.
        key: Str,
    },
    /// A list of two kinds of values.
    #[error("the list at {key} is of several kinds")]
    MixedList {
        /// The key of the list.
        key: Str,
    },
    /// Another key of the object differs in ASCII case alone.
    #[error("the key {key} is there in another case")]
    SameKey {
        /// The key.
        key: Str,
    },
    /// There was no memory for the properties.
    #[error("out of memory")]
    OutOfMemory,
}

impl From<AllocError> for PropFault {
    ghost from_gives = { λ _ e. e ≡ OutOfMemory };

    fn from(_: AllocError) -> PropFault {
        PropFault::OutOfMemory
    }
}

impl<T: Drop> From<AllocFailed<T>> for PropFault {
    ghost from_gives = { λ _ e. e ≡ OutOfMemory };

    fn from(_: AllocFailed<T>) -> PropFault {
        PropFault::OutOfMemory
    }
}
