//! Why a line is refused before it comes to the core.
ghost use Rattle.std.specs.Prelude.{◌≡◌};
ghost use Rattle.shell_lang.specs.declared.line_fault.LineFault.TheVariants.{BadWords, OutOfMemory};

use crate::words::Misfit;
use bundle_doc::DocFault;
use ldap_filter::FilterFault;
use prop_map::PropFault;
use std::alloc::{AllocError, AllocFailed};
use thiserror::Error;

/// Why a line is refused before it comes to the core.
#[derive(Debug, PartialEq, Eq, Drop, Error)]
pub enum LineFault {
    /// The first word is no command, or the line is no text in UTF-8.
    #[error("there is no such command")]
    UnknownCommand,
    /// A word doesn't fit, or is missing.
    #[error("the word {at} doesn't fit")]
    BadWords {
        /// The number of the first such word: that of the command is 0.
        at: usize,
    },
    /// The document isn't read.
    #[error("the document isn't read: {fault}")]
    Document {
        /// Why, and where.
        fault: DocFault,
    },
    /// The document is `@` and a path still: the file there wasn't put in its place.
    #[error("the file can't be read, or the line would have more than 1,048,576 bytes with it")]
    NoFile,
    /// The properties are no JSON text.
    #[error("the properties are no JSON text")]
    NotJson,
    /// The properties aren't read.
    #[error("the properties aren't read: {fault}")]
    Properties {
        /// Why, and where.
        fault: PropFault,
    },
    /// The filter isn't read.
    #[error("the filter isn't read: {fault}")]
    FilterText {
        /// Why, and where.
        fault: FilterFault,
    },
    /// There was no memory.
    #[error("out of memory")]
    OutOfMemory,
}

impl From<Misfit> for LineFault {
    ghost from_gives = { λ misfit e. e ≡ BadWords misfit.at };

    fn from(misfit: Misfit) -> Self {
        LineFault::BadWords { at: misfit.at }
    }
}

impl From<AllocError> for LineFault {
    ghost from_gives = { λ _ e. e ≡ OutOfMemory };

    fn from(_: AllocError) -> Self {
        LineFault::OutOfMemory
    }
}

impl<T: Drop> From<AllocFailed<T>> for LineFault {
    ghost from_gives = { λ _ e. e ≡ OutOfMemory };

    fn from(_: AllocFailed<T>) -> Self {
        LineFault::OutOfMemory
    }
}
