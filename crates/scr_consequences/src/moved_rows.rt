//! Direct services that stand in a list before an entry and in the one behind it. Our own.
ghost use Rattle.scr_consequences.specs.Moves.{row_stays, rows_behind};
ghost use Rattle.std.specs.Prelude.{◌≡◌};

use service_registry::ServiceRow;

/// Whether a service stands first in a list, with the revision that it had.
pub(crate) fn row_stays(row: &ServiceRow, now: &[ServiceRow]) -> bool
    ensures { result ≡ row_stays row.now now.now }
{
    match now {
        [first, ..] => row.id == first.id && row.revision == first.revision,
        [] => false,
    }
}

/// A list without its first service, where that has this number.
pub(crate) fn rows_behind(service: u64, now: &[ServiceRow]) -> &[ServiceRow]
    ensures { result.now ≡ rows_behind service now.now }
{
    match now {
        [first, later @ ..] if first.id == service => later,
        _ => now,
    }
}
