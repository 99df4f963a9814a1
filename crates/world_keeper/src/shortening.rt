//! A list of changes that begins anew.
ghost use Rattle.sqlite.specs.Held.{state};
ghost use Rattle.sqlite.specs.Steps.{over_memory};
ghost use Rattle.std.specs.Prelude.{◌≡◌, [], length, map, IfOk, MatchBool, OnOk, OnErr};
ghost use Rattle.world_keeper.specs.Again.{changes_again, is_long};
ghost use Rattle.world_keeper.specs.Lines.{line_of};
ghost use Rattle.world_keeper.specs.Tables.{KeepsChanges, KeepsLines};

use crate::again::changes_again;
use crate::database::opened;
use crate::lines::put_change;
use crate::{Change, Kept};
use sqlite::{Connection, Error, MemStore};
use std::alloc::Global;

// How many rows a list has at least that begins anew.
const LEAST_ROWS: usize = 1000;

/// Begins the list of changes anew, where it has many rows and twice as many as what is kept needs. A new database
/// takes the place of the old one whole, which stays where that fails.
pub(crate) fn shorten(
    alloc: Global,
    place: &mut Option<Connection<MemStore>>,
    rows: usize,
    kept: &Kept,
) -> Result<(), Error>
    ensures ok { OnOk result (MatchBool (is_long rows (length (changes_again kept.now)))
        (KeepsChanges place.new (changes_again kept.now)) (place.new ≡ place.old)) }
    ensures err { OnErr result (place.new ≡ place.old) }
{
    let changes = changes_again(alloc, kept)?;
    begin_anew(
        alloc,
        place,
        changes.as_slice(),
        is_long(rows, changes.as_slice()),
    )
}

// Whether a list of so many rows is to begin anew, where these changes keep the same.
fn is_long(rows: usize, again: &[Change]) -> bool
    ensures { result ≡ is_long rows (length again.now) }
{
    rows >= LEAST_ROWS && again.len() <= rows / 2
}

// Puts a database of just these changes in place of the old one, where it is to.
fn begin_anew(
    alloc: Global,
    place: &mut Option<Connection<MemStore>>,
    changes: &[Change],
    long: bool,
) -> Result<(), Error>
    ensures ok { OnOk result (MatchBool long (KeepsChanges place.new changes.now) (place.new ≡ place.old)) }
    ensures err { OnErr result (place.new ≡ place.old) }
{
    if long {
        *place = Some(filled(alloc, changes)?);
    }
    Ok(())
}

// A database of just these changes.
fn filled(alloc: Global, changes: &[Change]) -> Result<Connection<MemStore>, Error>
    ensures { IfOk result (λ conn. KeepsLines (state over_memory conn) (map line_of changes.now)) }
{
    let mut conn = opened(alloc)?;
    put_all(&mut conn, changes)?;
    Ok(conn)
}

fn put_all(conn: &mut Connection<MemStore>, changes: &[Change]) -> Result<(), Error>
    requires { KeepsLines (state over_memory conn.old) [] }
    ensures { OnOk result (KeepsLines (state over_memory conn.new) (map line_of changes.now)) }
{
    for change in changes {
        put_change(conn, change)?;
    }
    Ok(())
}
