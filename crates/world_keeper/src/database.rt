//! A database of changes in memory, which is opened at its first use.
ghost use Rattle.sqlite.specs.Held.{state};
ghost use Rattle.sqlite.specs.Steps.{over_memory};
ghost use Rattle.std.specs.Prelude.{◌≡◌, [], ◌∷◌, ◌++◌, List, map, IfOk, OnOk, OnErr};
ghost use Rattle.world_keeper.specs.Lines.{Line, line_of};
ghost use Rattle.world_keeper.specs.Tables.{KeepsChanges, KeepsLines};
ghost use Rattle.world_keeper.specs.declared.change.Change.{Change};

use crate::Change;
use crate::lines::{changes_of, put_change};
use crate::statements::{create, read_all};
use sqlite::{Connection, Error, MemStore};
use std::alloc::Global;

/// A database of changes, which has none yet.
pub(crate) fn opened(alloc: Global) -> Result<Connection<MemStore>, Error>
    ensures { IfOk result (λ conn. KeepsLines (state over_memory conn) []) }
{
    let mut conn = Connection::open_in_memory(alloc)?;
    create(&mut conn)?;
    Ok(conn)
}

/// Keeps a change behind the others, or none where it is refused.
pub(crate) fn put_at(
    alloc: Global,
    place: &mut Option<Connection<MemStore>>,
    change: &Change,
) -> Result<(), Error>
    ensures refused { (changes : List Change) → KeepsChanges place.old changes →
        OnErr result (KeepsChanges place.new changes) }
    ensures kept { (changes : List Change) → KeepsChanges place.old changes →
        OnOk result (KeepsChanges place.new (changes ++ change.now ∷ [])) }
{
    match place {
        Some(conn) => {
            put_change(conn, change)?;
            Ok(())
        }
        None => {
            let mut conn = opened(alloc)?;
            put_change(&mut conn, change)?;
            *place = Some(conn);
            Ok(())
        }
    }
}

/// The changes in their order, which stay.
pub(crate) fn found_at(
    alloc: Global,
    place: &mut Option<Connection<MemStore>>,
) -> Result<Vec<Change>, Error>
    ensures kept { (changes : List Change) → KeepsChanges place.old changes → KeepsChanges place.new changes }
    ensures all { (changes : List Change) → KeepsChanges place.old changes →
        IfOk result (λ found. found.items ≡ changes) }
{
    match place {
        Some(conn) => changes_in(alloc, conn),
        None => {
            let mut conn = opened(alloc)?;
            let changes = changes_in(alloc, &mut conn)?;
            *place = Some(conn);
            Ok(changes)
        }
    }
}

fn changes_in(alloc: Global, conn: &mut Connection<MemStore>) -> Result<Vec<Change>, Error>
    ensures kept { (changes : List Change) → KeepsLines (state over_memory conn.old) (map line_of changes) →
        KeepsLines (state over_memory conn.new) (map line_of changes) }
    ensures all { (changes : List Change) → KeepsLines (state over_memory conn.old) (map line_of changes) →
        IfOk result (λ found. found.items ≡ changes) }
{
    let rows = read_all(conn)?;
    changes_of(alloc, &rows)
}
