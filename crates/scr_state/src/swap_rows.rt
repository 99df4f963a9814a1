//! A change of the rows of a table put into it, and taken out of it again by the same call.
ghost use Rattle.scr_state.specs.Rows.{HasRoomAmong, Undoes, with_change};
ghost use Rattle.std.specs.Prelude.{◌≡◌, ◌<◌, ◌≤◌, ◌+◌, insert, length, remove, slice_index_or, slice_set};

use crate::{Room, RowChange};
use prop_map::List;
use std::alloc::Global;
use std::mem;

/// The rows are as the change says, and the change says what they were.
pub(crate) fn swap_rows<T: Drop>(alloc: Global, now: &mut List<T>, then: &mut RowChange<T>)
    requires room { HasRoomAmong then.old now.old }
    ensures now { now.new ≡ with_change then.old now.old }
    ensures then { Undoes then.old now.old then.new }
    ensures room { HasRoomAmong then.new now.new }
{
    let rows = mem::replace(now, List::of(Vec::new(alloc)));
    let change = mem::replace(then, RowChange::Same);
    let swapped = changed(rows, change);
    *now = swapped.rows;
    *then = swapped.undo;
}

// Rows, and the change that brings back what they were.
#[derive(Drop)]
struct Swapped<T> {
    rows: List<T>,
    undo: RowChange<T>,
}

fn changed<T: Drop>(rows: List<T>, change: RowChange<T>) -> Swapped<T>
    requires room { HasRoomAmong change rows }
    ensures rows { result.rows ≡ with_change change rows }
    ensures undo { Undoes change rows result.undo }
    ensures room { HasRoomAmong result.undo result.rows }
{
    match change {
        RowChange::Same => Swapped {
            rows,
            undo: RowChange::Same,
        },
        RowChange::One { place, row } => exchanged(rows, place, row),
        RowChange::Inserted { place, row, room } => inserted(rows, place, row, room),
        RowChange::Removed { place, room } => removed(rows, place, room),
    }
}

fn exchanged<T: Drop>(rows: List<T>, place: usize, row: T) -> Swapped<T>
    ensures rows { result.rows ≡ slice_set rows place row }
    ensures undo { result.undo ≡ RowChange.One place (slice_index_or rows place row) }
{
    let mut rows = rows.items();
    let mut row = row;
    swap_at(&mut rows, place, &mut row);
    Swapped {
        rows: List::of(rows),
        undo: RowChange::One { place, row },
    }
}

fn swap_at<T>(rows: &mut [T], place: usize, row: &mut T)
    ensures rows { rows.new ≡ slice_set rows.old place row.old }
    ensures was { row.new ≡ slice_index_or rows.old place row.old }
{
    if place < rows.len() {
        mem::swap(&mut rows[place], row);
    }
}

fn inserted<T: Drop>(rows: List<T>, place: usize, row: T, room: Room<T>) -> Swapped<T>
    requires place { place ≤ length rows }
    requires room { length rows + 1 ≤ room }
    ensures rows { result.rows ≡ insert rows place row }
    ensures undo { Undoes (RowChange.Inserted place row room) rows result.undo }
    ensures room { HasRoomAmong result.undo result.rows }
{
    let mut before = rows.items();
    let mut after = room.list();
    let _moved = after.append(&mut before);
    let _inserted = after.insert(place, row);
    Swapped {
        rows: List::of(after),
        undo: RowChange::Removed {
            place,
            room: Room::left(before),
        },
    }
}

fn removed<T: Drop>(rows: List<T>, place: usize, room: Room<T>) -> Swapped<T>
    requires place { place < length rows }
    requires room { length rows ≤ room + 1 }
    ensures rows { result.rows ≡ remove rows place }
    ensures undo { Undoes (RowChange.Removed place room) rows result.undo }
    ensures room { HasRoomAmong result.undo result.rows }
{
    let mut before = rows.items();
    let row = before.remove(place);
    let mut after = room.list();
    let _moved = after.append(&mut before);
    Swapped {
        rows: List::of(after),
        undo: RowChange::Inserted {
            place,
            row,
            room: Room::left(before),
        },
    }
}
