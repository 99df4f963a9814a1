//! What a step makes of the rows of a table.
ghost use Rattle.scr_state.specs.Rows.{HasRoomAmong, with_change};
ghost use Rattle.std.specs.Prelude.{◌≡◌, ◌+◌, ◌^◌, ◌<◌, ◌++◌, ◌∷◌, [], IfOk, length, remove};

use crate::Room;
use prop_map::OutOfMemory;
use std::alloc::Global;

/// What a step makes of the rows of a table, of which one at most changes.
#[derive(Drop)]
pub enum RowChange<T> {
    /// They stay as they are.
    Same,
    /// One is another.
    One {
        /// Its place among them, from 0 on. At a place behind them nothing changes.
        place: usize,
        /// What it is then.
        row: T,
    },
    /// One comes.
    Inserted {
        /// Its place among them then, from 0 on.
        place: usize,
        /// What it is.
        row: T,
        /// Room for all rows then.
        room: Room<T>,
    },
    /// One goes.
    Removed {
        /// Its place among them before, from 0 on.
        place: usize,
        /// Room for all rows then.
        room: Room<T>,
    },
}

impl<T: Drop> RowChange<T> {
    /// A row comes behind these rows.
    ///
    /// # Errors
    /// Only want of memory.
    #[tactic(auto, using(crate::proofs::Undoing::insert_end))]
    pub fn behind(alloc: Global, rows: &[T], row: T) -> Result<RowChange<T>, OutOfMemory>
        requires { length rows.now + 1 < 2 ^ 64 }
        ensures rows { IfOk result (λ change. with_change change rows.now ≡ rows.now ++ row ∷ []) }
        ensures room { IfOk result (λ change. HasRoomAmong change rows.now) }
    {
        let place = rows.len();
        let room = Room::of(alloc, place + 1)?;
        Ok(RowChange::Inserted { place, row, room })
    }

    /// The row at a place of these rows goes.
    ///
    /// # Errors
    /// Only want of memory.
    pub fn without(alloc: Global, rows: &[T], place: usize) -> Result<RowChange<T>, OutOfMemory>
        requires { place < length rows.now }
        ensures rows { IfOk result (λ change. with_change change rows.now ≡ remove rows.now place) }
        ensures room { IfOk result (λ change. HasRoomAmong change rows.now) }
    {
        let room = Room::of(alloc, rows.len() - 1)?;
        Ok(RowChange::Removed { place, room })
    }
}
