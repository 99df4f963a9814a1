//! Room for the rows of a table, taken before a row is taken out, so that it can be put back without memory.
ghost use Rattle.std.specs.Prelude.{◌≡◌, ◌≤◌, ◌<◌, [], IfOk, insert, vec_capacity, vec_len};

use prop_map::OutOfMemory;
use std::alloc::Global;
use std::marker::Model;

/// Room for rows. Contracts see for how many.
#[derive(Drop)]
pub struct RowRoom<T> {
    rows: Vec<T>,
}

impl<T> Model for RowRoom<T> {
    ghost use Rattle.std.specs.Prelude.{◌≡◌, ℕ, vec_capacity, vec_len};

    ghost Value = { ℕ };

    ghost view = { λ r. vec_capacity r.rows };

    ghost invariant = { λ r. vec_len r.rows ≡ 0 };
}

impl<T: Drop> RowRoom<T> {
    /// Room for so many rows.
    ///
    /// # Errors
    /// Only want of memory.
    pub fn of(alloc: Global, count: usize) -> Result<RowRoom<T>, OutOfMemory>
        ensures { IfOk result (λ room. room ≡ count) }
    {
        Ok(RowRoom {
            rows: Vec::with_capacity(alloc, count)?,
        })
    }

    /// An empty list with this room. It takes no memory.
    pub fn list(self) -> Vec<T>
        ensures empty { result.items ≡ [] }
        ensures room { vec_capacity result ≡ self }
    {
        let RowRoom { rows } = self;
        rows
    }

    /// Puts a row at a place among others, and never fails: rows without room beside them may grow where there is memory,
    /// and move into this room where there is none.
    pub fn insert(self, rows: &mut Vec<T>, place: usize, row: T)
        requires within { place ≤ vec_len rows.old }
        requires room { vec_len rows.old < self }
        ensures { rows.new.items ≡ insert rows.old.items place row }
    {
        if let Err(refused) = rows.insert(place, row) {
            let RowRoom { rows: mut others } = self;
            let _moved = others.append(rows);
            let _inserted = others.insert(place, refused.value);
            *rows = others;
        }
    }
}
