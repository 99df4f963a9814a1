//! The context in which a path is taken.
ghost use Rattle.std.specs.Option.{option_copied};
ghost use Rattle.std.specs.Prelude.{◌≡◌};
ghost use Rattle.wb_routes.specs.Choices.{home_in};
ghost use Rattle.wb_routes.specs.Tables.{AllAscend};

use crate::candidates::taker_in;
use crate::table::Table;
use wb_context::Context;

/// The context of the first table that has a servlet for the path, if one has. It takes no memory.
#[tactic(auto, using(crate::proofs::RouteLemmas::ascends_at, crate::proofs::HomeLemmas::home_here, crate::proofs::HomeLemmas::home_later))]
pub(crate) fn home_in<'t>(tables: &'t [Table], path: &[u8]) -> Option<&'t Context>
    requires { AllAscend tables.now }
    ensures { option_copied result ≡ home_in tables.now path.now }
{
    for table in tables {
        if taker_in(table, path).is_some() {
            return Some(&table.context);
        }
    }
    None
}
