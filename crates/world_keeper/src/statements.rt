//! The three statements over the table of changes.
ghost use Rattle.sqlite.specs.Held.{state};
ghost use Rattle.sqlite.specs.Steps.{over_memory, IsEmpty};
ghost use Rattle.std.specs.Prelude.{◌≡◌, [], ◌∷◌, ◌++◌, List, map, IfOk, OnOk, OnErr};
ghost use Rattle.world_keeper.specs.Lines.{Line};
ghost use Rattle.world_keeper.specs.Tables.{KeepsLines, shown};

use sqlite::{Connection, Error, MemStore, Row, params};

/// Makes the table, which has no row yet.
pub(crate) fn create(conn: &mut Connection<MemStore>) -> Result<usize, Error>
    requires { IsEmpty (state over_memory conn.old) }
    ensures { OnOk result (KeepsLines (state over_memory conn.new) []) }
{
    conn.execute(
        "CREATE TABLE change (id INTEGER PRIMARY KEY, kind TEXT NOT NULL, name TEXT NOT NULL, \
         factory TEXT NOT NULL, text TEXT NOT NULL) STRICT",
        &[],
    )
}

/// Puts a row behind the others, or none where it is refused.
pub(crate) fn put(
    conn: &mut Connection<MemStore>,
    kind: &str,
    name: &str,
    factory: &str,
    text: &str,
) -> Result<usize, Error>
    ensures refused { (lines : List Line) → KeepsLines (state over_memory conn.old) lines →
        OnErr result (KeepsLines (state over_memory conn.new) lines) }
    ensures kept { (lines : List Line) → KeepsLines (state over_memory conn.old) lines →
        OnOk result (KeepsLines (state over_memory conn.new)
        (lines ++ record { kind = kind.now; name = name.now; factory = factory.now; text = text.now } ∷ [])) }
{
    conn.execute(
        "INSERT INTO change (kind, name, factory, text) VALUES (?1, ?2, ?3, ?4)",
        params![kind, name, factory, text],
    )
}

/// The rows in their order, which stay.
pub(crate) fn read_all(conn: &mut Connection<MemStore>) -> Result<Vec<Row>, Error>
    ensures kept { (lines : List Line) → KeepsLines (state over_memory conn.old) lines →
        KeepsLines (state over_memory conn.new) lines }
    ensures rows { (lines : List Line) → KeepsLines (state over_memory conn.old) lines →
        IfOk result (λ rows. rows.items ≡ map shown lines) }
{
    conn.query_all(
        "SELECT kind, name, factory, text FROM change ORDER BY id",
        &[],
    )
}
