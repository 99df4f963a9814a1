//! A registry as it was.
ghost use Rattle.std.specs.Prelude.{◌≡◌};

use crate::Registry;
use std::marker::Model;

/// A registry as it was when it was saved.
#[derive(Drop)]
pub struct Saved {
    table: Registry,
}

impl Model for Saved {
    ghost use Rattle.service_registry.specs.Registries.{Registered};

    ghost Value = { Registered };

    ghost view = { λ s. s.table };
}

impl Saved {
    pub(crate) fn of(table: Registry) -> Saved
        ensures { result ≡ table }
    {
        Saved { table }
    }

    pub(crate) fn table(self) -> Registry
        ensures { result ≡ self }
    {
        let Saved { table } = self;
        table
    }
}
