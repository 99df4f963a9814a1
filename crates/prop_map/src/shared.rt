//! A value that several owners share. Contracts see the value.
ghost use Rattle.std.specs.Arc.{arc_value};
ghost use Rattle.std.specs.Prelude.{◌≡◌, IfOk};

use crate::{Copies, OutOfMemory};
use std::alloc::{AllocError, Global};
use std::fmt;
use std::marker::Model;
use std::sync::Arc;

/// A value that several owners share. Contracts see the value.
#[derive(Drop)]
pub struct Shared<T> {
    arc: Arc<T>,
}

impl<T> Model for Shared<T> {
    ghost use Rattle.std.specs.Arc.{arc_value};

    ghost Value = { T };

    ghost view = { λ s. arc_value s.arc };
}

impl<T: Drop> Shared<T> {
    /// The value, to be shared.
    ///
    /// # Errors
    /// Only want of memory. The value is dropped then.
    pub fn of(alloc: Global, value: T) -> Result<Shared<T>, OutOfMemory>
        ensures { IfOk result (λ shared. shared ≡ value) }
    {
        match Arc::new(alloc, value) {
            Ok(arc) => Ok(Shared { arc }),
            Err(_) => Err(AllocError),
        }
    }

    /// One more owner of the value. It takes no memory.
    ///
    /// # Errors
    /// Only where the value has as many owners as can be counted.
    pub fn share(&self) -> Result<Shared<T>, OutOfMemory>
        ensures { IfOk result (λ shared. shared ≡ self.now) }
    {
        Ok(Shared {
            arc: Arc::try_clone(&self.arc)?,
        })
    }

    /// The value.
    pub fn get(&self) -> &T
        ensures { result.now ≡ self.now }
    {
        &*self.arc
    }
}

impl<T: Drop> Copies for Shared<T> {
    fn copy(&self, _: Global) -> Result<Shared<T>, OutOfMemory> {
        self.share()
    }
}

impl<T: Drop + PartialEq> PartialEq for Shared<T> {
    ghost eq = { T.eq };

    ghost laws = { T.laws };

    fn eq(&self, other: &Shared<T>) -> bool {
        self.get() == other.get()
    }
}

impl<T: Drop + Eq> Eq for Shared<T> {
    ghost laws = { T.Eq.laws };
}

impl<T: Drop + fmt::Debug> fmt::Debug for Shared<T> {
    fn fmt<W: fmt::Write>(&self, f: &mut fmt::Formatter<W>) -> fmt::Result {
        self.get().fmt(f)
    }
}
