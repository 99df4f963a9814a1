//! Listeners without what they were told last.
ghost use Rattle.service_listeners.specs.Saves.{count_told, cut_to, with_first};
ghost use Rattle.std.specs.Prelude.{◌≡◌, ◌≤◌, ◌++◌, drop, length, map, take, IfOk};

use crate::Listener;
use prop_map::{List, OutOfMemory};
use std::alloc::Global;
use std::mem;

/// How many events each listener was told.
pub(crate) fn counts_told(alloc: Global, rows: &[Listener]) -> Result<Vec<usize>, OutOfMemory>
    ensures { IfOk result (λ counts. counts.items ≡ map count_told rows.now) }
{
    let mut counts = Vec::new(alloc);
    for row in rows {
        counts.push(row.events.as_slice().len())?;
    }
    Ok(counts)
}

/// Leaves as many listeners as there are counts, and each no more events than its count.
pub(crate) fn cut_rows(rows: &mut Vec<Listener>, counts: &[usize], alloc: Global)
    ensures { rows.new.items ≡ cut_to rows.old.items counts.now }
{
    rows.truncate(counts.len());
    cut_from(rows.as_mut_slice(), 0, counts, alloc);
}

// Leaves the listeners from a place on no more events than their counts.
fn cut_from(rows: &mut [Listener], at: usize, counts: &[usize], alloc: Global)
    requires within { at ≤ length rows.old }
    requires counted { length rows.old ≤ length counts.now }
    ensures { rows.new ≡ take at rows.old ++ cut_to (drop at rows.old) (drop at counts.now) }
{
    if at == rows.len() {
        return;
    }
    cut_one(&mut rows[at], counts[at], alloc);
    cut_from(rows, at + 1, counts, alloc);
}

fn cut_one(listener: &mut Listener, count: usize, alloc: Global)
    ensures { listener.new ≡ with_first count listener.old }
{
    let mut events = mem::replace(&mut listener.events, List::of(Vec::new(alloc))).items();
    events.truncate(count);
    listener.events = List::of(events);
}
