//! A table as it was.
ghost use Rattle.std.specs.Prelude.{◌≡◌};

use crate::UseCounts;
use std::marker::Model;

/// The gets as they were when they were saved.
#[derive(Drop)]
pub struct Saved {
    table: UseCounts,
}

impl Model for Saved {
    ghost use Rattle.std.specs.Prelude.{List};
    ghost use Rattle.use_counts.specs.declared.uses.UseRow.{UseRow};

    ghost Value = { List UseRow };

    ghost view = { λ s. s.table };
}

impl Saved {
    pub(crate) fn of(table: UseCounts) -> Saved
        ensures { result ≡ table }
    {
        Saved { table }
    }

    pub(crate) fn table(self) -> UseCounts
        ensures { result ≡ self }
    {
        let Saved { table } = self;
        table
    }
}
