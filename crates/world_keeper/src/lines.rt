//! Changes as rows, and rows as changes.
ghost use Rattle.sqlite.specs.Held.{state};
ghost use Rattle.sqlite.specs.Steps.{over_memory};
ghost use Rattle.std.specs.Prelude.{◌≡◌, [], ◌∷◌, ◌++◌, List, map, IfOk, OnOk, OnErr, string_bytes};
ghost use Rattle.world_keeper.specs.Lines.{Line, change_in, line_of};
ghost use Rattle.world_keeper.specs.Tables.{KeepsLines, shown};
ghost use Rattle.world_keeper.specs.declared.change.Change.{Change};

use crate::Change;
use crate::statements::put;
use prop_map::Str;
use sqlite::{Connection, Error, MemStore, Row};
use std::alloc::Global;

/// Puts the row of a change behind the others, or none where it is refused.
pub(crate) fn put_change(conn: &mut Connection<MemStore>, change: &Change) -> Result<usize, Error>
    ensures refused { (lines : List Line) → KeepsLines (state over_memory conn.old) lines →
        OnErr result (KeepsLines (state over_memory conn.new) lines) }
    ensures kept { (lines : List Line) → KeepsLines (state over_memory conn.old) lines →
        OnOk result (KeepsLines (state over_memory conn.new) (lines ++ line_of change.now ∷ [])) }
{
    match change {
        Change::Install { location, document } => {
            put(conn, "install", location.as_str(), "", document.as_str())
        }
        Change::Update { location, document } => {
            put(conn, "update", location.as_str(), "", document.as_str())
        }
        Change::Remove { location } => put(conn, "remove", location.as_str(), "", ""),
        Change::Started { location, yes } => put_started(conn, location, *yes),
        Change::Configured {
            pid,
            factory,
            properties,
        } => put_configured(conn, pid, factory, properties),
        Change::Unconfigured { pid } => put(conn, "forget", pid.as_str(), "", ""),
    }
}

fn put_started(conn: &mut Connection<MemStore>, location: &Str, yes: bool) -> Result<usize, Error>
    ensures refused { (lines : List Line) → KeepsLines (state over_memory conn.old) lines →
        OnErr result (KeepsLines (state over_memory conn.new) lines) }
    ensures kept { (lines : List Line) → KeepsLines (state over_memory conn.old) lines →
        OnOk result (KeepsLines (state over_memory conn.new)
        (lines ++ line_of (Change.Started location.now yes) ∷ [])) }
{
    if yes {
        put(conn, "start", location.as_str(), "", "")
    } else {
        put(conn, "stop", location.as_str(), "", "")
    }
}

fn put_configured(
    conn: &mut Connection<MemStore>,
    pid: &Str,
    factory: &Option<Str>,
    properties: &Str,
) -> Result<usize, Error>
    ensures refused { (lines : List Line) → KeepsLines (state over_memory conn.old) lines →
        OnErr result (KeepsLines (state over_memory conn.new) lines) }
    ensures kept { (lines : List Line) → KeepsLines (state over_memory conn.old) lines →
        OnOk result (KeepsLines (state over_memory conn.new)
        (lines ++ line_of (Change.Configured pid.now factory.now properties.now) ∷ [])) }
{
    match factory {
        None => put(conn, "configure", pid.as_str(), "", properties.as_str()),
        Some(factory) => put(
            conn,
            "factory",
            pid.as_str(),
            factory.as_str(),
            properties.as_str(),
        ),
    }
}

// A row as its texts.
#[derive(Drop)]
struct Texts {
    kind: String,
    name: Str,
    factory: Str,
    text: Str,
}

fn texts_of(row: &Row) -> Result<Texts, Error>
    ensures { IfOk result (λ t. (l : Line) → row.now ≡ shown l →
        (string_bytes t.kind ≡ l.kind) × (t.name ≡ l.name) × (t.factory ≡ l.factory) × (t.text ≡ l.text)) }
{
    let kind: String = row.get(0)?;
    let name: String = row.get(1)?;
    let factory: String = row.get(2)?;
    let text: String = row.get(3)?;
    Ok(Texts {
        kind,
        name: Str::of(name),
        factory: Str::of(factory),
        text: Str::of(text),
    })
}

fn change_of(texts: Texts) -> Change
    ensures { result ≡ change_in (record {
      kind = string_bytes texts.kind;
      name = texts.name;
      factory = texts.factory;
      text = texts.text;
    }) }
{
    let Texts {
        kind,
        name,
        factory,
        text,
    } = texts;
    match kind.as_str() {
        "install" => Change::Install {
            location: name,
            document: text,
        },
        "update" => Change::Update {
            location: name,
            document: text,
        },
        "remove" => Change::Remove { location: name },
        "start" => Change::Started {
            location: name,
            yes: true,
        },
        "stop" => Change::Started {
            location: name,
            yes: false,
        },
        "configure" => Change::Configured {
            pid: name,
            factory: None,
            properties: text,
        },
        "factory" => Change::Configured {
            pid: name,
            factory: Some(factory),
            properties: text,
        },
        _ => Change::Unconfigured { pid: name },
    }
}

/// The changes that rows keep.
pub(crate) fn changes_of(alloc: Global, rows: &[Row]) -> Result<Vec<Change>, Error>
    ensures { IfOk result (λ cs. (lines : List Line) → rows.now ≡ map shown lines → cs.items ≡ map change_in lines) }
{
    let mut changes = Vec::new(alloc);
    for row in rows {
        changes.push(change_of(texts_of(row)?))?;
    }
    Ok(changes)
}
