//! A table as it was.
ghost use Rattle.std.specs.Prelude.{◌≡◌};

use crate::Configurations;
use std::marker::Model;

/// The configurations as they were when they were saved.
#[derive(Drop)]
pub struct Saved {
    table: Configurations,
}

impl Model for Saved {
    ghost use Rattle.std.specs.Prelude.{List};
    ghost use Rattle.config_admin.specs.declared.configuration.Configuration.{Configuration};

    ghost Value = { List Configuration };

    ghost view = { λ s. s.table };
}

impl Saved {
    pub(crate) fn of(table: Configurations) -> Saved
        ensures { result ≡ table }
    {
        Saved { table }
    }

    pub(crate) fn table(self) -> Configurations
        ensures { result ≡ self }
    {
        let Saved { table } = self;
        table
    }
}
