//! What a turn has to do.
ghost use Rattle.std.specs.Prelude.{◌≡◌};
ghost use Rattle.turn_work.specs.Objects.{needs_object};

use crate::Site;
use callback_orders::Callback;
use prop_map::{Copies, OutOfMemory, Str};
use std::alloc::Global;

/// What a turn has to do: one callback of one instance.
#[derive(Debug, PartialEq, Eq, Drop)]
pub struct TurnWork {
    /// The number of the turn, from 1 on.
    pub number: u64,
    /// What the instance is told.
    pub callback: Callback,
    /// The number of the instance. Instance 0 is the platform's own, and no component code stands behind it.
    pub instance: u64,
    /// The name of the instance's component.
    pub name: Str,
    /// What the component code is told of the instance.
    pub site: Site,
}

impl Copies for TurnWork {
    fn copy(&self, alloc: Global) -> Result<TurnWork, OutOfMemory> {
        Ok(TurnWork {
            number: self.number,
            callback: self.callback.copy(alloc)?,
            instance: self.instance,
            name: self.name.copy(alloc)?,
            site: self.site.copy(alloc)?,
        })
    }
}

impl TurnWork {
    /// Whether an object is told of the callback: the instance isn't 0 and the callback is no Create. It takes no memory.
    pub fn needs_object(&self) -> bool
        ensures { result ≡ needs_object self.now }
    {
        self.instance != 0 && !self.callback.is_create()
    }
}
