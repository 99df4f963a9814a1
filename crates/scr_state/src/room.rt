//! Room that is taken for the rows of a table as they are after a step.
ghost use Rattle.std.specs.Prelude.{◌≡◌, [], IfOk, vec_capacity, vec_len};

use prop_map::OutOfMemory;
use std::alloc::Global;
use std::marker::Model;

/// Room for rows. Contracts see for how many.
#[derive(Drop)]
pub struct Room<T> {
    rows: Vec<T>,
}

impl<T> Model for Room<T> {
    ghost use Rattle.std.specs.Prelude.{◌≡◌, ℕ, vec_capacity, vec_len};

    ghost Value = { ℕ };

    ghost view = { λ r. vec_capacity r.rows };

    ghost invariant = { λ r. vec_len r.rows ≡ 0 };
}

impl<T> Room<T> {
    /// Room for so many rows.
    ///
    /// # Errors
    /// Only want of memory.
    pub fn of(alloc: Global, count: usize) -> Result<Room<T>, OutOfMemory>
        ensures { IfOk result (λ room. room ≡ count) }
    {
        Ok(Room {
            rows: Vec::with_capacity(alloc, count)?,
        })
    }

    // The room that rows have left.
    pub(crate) fn left(rows: Vec<T>) -> Room<T>
        requires { vec_len rows ≡ 0 }
        ensures { result ≡ vec_capacity rows }
    {
        Room { rows }
    }

    // An empty list with this room.
    pub(crate) fn list(self) -> Vec<T>
        ensures empty { result.items ≡ [] }
        ensures room { vec_capacity result ≡ self }
    {
        let Room { rows } = self;
        rows
    }
}
