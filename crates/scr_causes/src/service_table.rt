//! Services that are found by their interfaces (OSGi Core 8, section 5.2.2).
ghost use Rattle.prop_map.specs.Words.{one_if};
ghost use Rattle.reference_match.specs.Targets.{meets};
ghost use Rattle.scr_causes.specs.ServiceTables.{AreInOrder, AreOf, count_under, entry_cmp, is_before, is_under};
ghost use Rattle.scr_causes.specs.declared.service_table.Entry.{Entry};
ghost use Rattle.service_registry.specs.Services.{has_interface};
ghost use Rattle.service_registry.specs.declared.row.ServiceRow.{ServiceRow};
ghost use Rattle.std.specs.List.Sorted.{IsPermutation};
ghost use Rattle.std.specs.Prelude.{◌≡◌, ◌+◌, ◌&&◌, ◌||◌, ℕ, [], Bool, List, IfOk, OnOk, filter, length, map, not};
ghost use Rattle.std.specs.Str.{bytes_eq};
ghost use Rattle.text_index.specs.Texts.{has_text};

use prop_map::{OutOfMemory, Str};
use reference_match::{Need, meets};
use service_registry::ServiceRow;
use std::alloc::Global;
use std::cmp::Ordering;
use std::marker::Model;
use text_index::TextSet;

/// Services that are found by their interfaces by halving. Contracts see them in their order.
#[derive(Drop)]
pub struct ServiceTable<'r> {
    rows: Vec<&'r ServiceRow>,
    entries: Vec<Entry<'r>>,
}

// A service under one of its interfaces.
#[derive(Clone, Copy)]
struct Entry<'r> {
    interface: &'r str,
    row: &'r ServiceRow,
}

impl<'r> Model for ServiceTable<'r> {
    ghost use Rattle.scr_causes.specs.ServiceTables.{AreInOrder, AreOf};
    ghost use Rattle.service_registry.specs.declared.row.ServiceRow.{ServiceRow};
    ghost use Rattle.std.specs.Prelude.{List, map};

    ghost Value = { List ServiceRow };

    ghost view = { λ t. map (λ r. r.now) t.rows.items };

    ghost invariant = { λ t. AreInOrder t.entries.items × AreOf (map (λ r. r.now) t.rows.items) t.entries.items };
}

impl<'r> ServiceTable<'r> {
    /// These services.
    ///
    /// # Errors
    /// Only want of memory.
    pub fn of(alloc: Global, rows: Vec<&'r ServiceRow>) -> Result<ServiceTable<'r>, OutOfMemory>
        ensures { IfOk result (λ table. table ≡ map (λ r. r.now) rows.entry.items) }
    {
        let entries = entries_in_order(alloc, &rows)?;
        Ok(ServiceTable { rows, entries })
    }

    /// How many of them have an interface. It takes no memory.
    pub fn count_with(&self, interface: &str) -> u64
        ensures { result ≡ length (filter (has_interface interface.now) self.now) }
    {
        under(&self.entries, interface).len() as u64
    }

    /// How many of them meet a need. It looks at those of the need's interface alone, and takes no memory.
    pub fn count_meeting(&self, need: &Need) -> u64
        ensures { result ≡ length (filter (meets need.now) self.now) }
    {
        meeting_among(under(&self.entries, need.interface.as_str()), need)
    }
}

fn meeting_among(entries: &[Entry], need: &Need) -> u64
    ensures { result ≡ length (filter (λ (e : Entry). meets need.now e.row.now) entries.now) }
{
    entries
        .iter()
        .filter(|entry| meets(need, entry.row))
        .count() as u64
}

// Services under their interfaces, in byte order of these.
fn entries_in_order<'r>(
    alloc: Global,
    rows: &[&'r ServiceRow],
) -> Result<Vec<Entry<'r>>, OutOfMemory>
    ensures order { IfOk result (λ entries. AreInOrder entries.items) }
    ensures of { IfOk result (λ entries. AreOf (map (λ r. r.now) rows.now) entries.items) }
{
    let mut entries = entries_of(alloc, rows)?;
    sort(&mut entries);
    Ok(entries)
}

fn sort(entries: &mut Vec<Entry>)
    ensures order { AreInOrder entries.new.items }
    ensures same { IsPermutation entries.old.items entries.new.items }
{
    entries.sort_unstable_by(|a, b| entry_order(a, b));
}

fn entry_order(a: &Entry, b: &Entry) -> Ordering
    ensures { result ≡ entry_cmp a.now b.now }
{
    a.interface.cmp(b.interface)
}

fn entries_of<'r>(alloc: Global, rows: &[&'r ServiceRow]) -> Result<Vec<Entry<'r>>, OutOfMemory>
    ensures { IfOk result (λ entries. AreOf (map (λ r. r.now) rows.now) entries.items) }
{
    let mut entries = Vec::new(alloc);
    for row in rows {
        let row: &'r ServiceRow = row;
        push_under_each(alloc, &mut entries, row, row.interfaces.names())?;
    }
    Ok(entries)
}

// A service under each of its interfaces, under each once.
fn push_under_each<'r>(
    alloc: Global,
    entries: &mut Vec<Entry<'r>>,
    row: &'r ServiceRow,
    interfaces: &'r [Str],
) -> Result<(), OutOfMemory>
    ensures { OnOk result ((interface : List ℕ) (test : ServiceRow → Bool) → count_under interface test entries.new.items
        ≡ count_under interface test entries.old.items + one_if (has_text interfaces.entry.now interface && test row.entry.now)) }
{
    let mut found = TextSet::new(alloc);
    push_those(alloc, &mut found, entries, row, interfaces)
}

fn push_those<'r>(
    alloc: Global,
    found: &mut TextSet,
    entries: &mut Vec<Entry<'r>>,
    row: &'r ServiceRow,
    interfaces: &'r [Str],
) -> Result<(), OutOfMemory>
    requires { found.old ≡ [] }
    ensures { OnOk result ((interface : List ℕ) (test : ServiceRow → Bool) → count_under interface test entries.new.items
        ≡ count_under interface test entries.old.items + one_if (has_text interfaces.entry.now interface && test row.entry.now)) }
{
    for interface in interfaces {
        push_once(alloc, found, entries, row, interface.as_str())?;
    }
    Ok(())
}

// A service under an interface, where it doesn't stand under it yet.
fn push_once<'r>(
    alloc: Global,
    found: &mut TextSet,
    entries: &mut Vec<Entry<'r>>,
    row: &'r ServiceRow,
    name: &'r str,
) -> Result<(), OutOfMemory>
    ensures found { OnOk result ((other : List ℕ) → has_text found.new other ≡ (bytes_eq name.entry.now other || has_text found.old other)) }
    ensures counted { OnOk result ((interface : List ℕ) (test : ServiceRow → Bool) → count_under interface test entries.new.items
        ≡ count_under interface test entries.old.items + one_if (not (has_text found.old name.entry.now) && (bytes_eq name.entry.now interface && test row.entry.now))) }
{
    if found.insert(alloc, name.as_bytes())? {
        entries.push(Entry {
            interface: name,
            row,
        })?;
    }
    Ok(())
}

// Those under an interface, which stand together.
fn under<'t, 'r>(entries: &'t [Entry<'r>], interface: &str) -> &'t [Entry<'r>]
    requires { AreInOrder entries.now }
    ensures { result.now ≡ filter (is_under interface.now) entries.now }
{
    let start = entries.partition_point(|entry| stands_before(entry, interface));
    let (_, behind) = entries.split_at(start);
    let count = behind.partition_point(|entry| stands_under(entry, interface));
    let (these, _) = behind.split_at(count);
    these
}

fn stands_before(entry: &Entry, interface: &str) -> bool
    ensures { result ≡ is_before interface.now entry.now }
{
    entry.interface.cmp(interface).is_lt()
}

fn stands_under(entry: &Entry, interface: &str) -> bool
    ensures { result ≡ is_under interface.now entry.now }
{
    entry.interface == interface
}
