//! Gets that are about to end, kept so that they can be put back without memory.
ghost use Rattle.std.specs.List.{All};
ghost use Rattle.std.specs.Prelude.{◌≡◌, ◌≤◌, ◌+◌, length, IfOk};
ghost use Rattle.use_counts.specs.Refusals.{AreUses, IsCounted};
ghost use Rattle.use_counts.specs.Undoing.{with_rows};

use crate::UseRow;
use crate::changes::put_each;
use prop_map::OutOfMemory;
use std::alloc::{AllocError, Global};
use std::marker::Model;

/// Rows of gets, with room to put them back. Contracts see the rows, and for how many there is room.
#[derive(Drop)]
pub struct KeptUses {
    rows: Vec<UseRow>,
    room: Vec<UseRow>,
}

impl Model for KeptUses {
    ghost use Rattle.std.specs.List.{All};
    ghost use Rattle.std.specs.Prelude.{◌≡◌, vec_capacity, vec_len};
    ghost use Rattle.use_counts.specs.Refusals.{IsCounted};
    ghost use Rattle.use_counts.specs.Undoing.{Kept};

    ghost Value = { Kept };

    ghost view = { λ k. record { uses = k.rows.items; room = vec_capacity k.room } };

    ghost invariant = { λ k. record { room : vec_len k.room ≡ 0; counted : All IsCounted k.rows.items } };
}

impl KeptUses {
    /// Rows, with room for them and for so many others.
    pub(crate) fn of(
        alloc: Global,
        rows: Vec<UseRow>,
        others: usize,
    ) -> Result<KeptUses, OutOfMemory>
        requires { All IsCounted rows.items }
        ensures uses { IfOk result (λ kept. kept.uses ≡ rows.items) }
        ensures room { IfOk result (λ kept. kept.room ≡ others + length rows.items) }
    {
        let count = others.checked_add(rows.len()).ok_or(AllocError)?;
        let room = Vec::with_capacity(alloc, count)?;
        Ok(KeptUses { rows, room })
    }

    /// Puts the rows back among others, which move into the room.
    pub(crate) fn put_into(self, others: &mut Vec<UseRow>)
        requires uses { AreUses others.old.items }
        requires room { length others.old.items + length self.uses ≤ self.room }
        ensures now { others.new.items ≡ with_rows self.uses others.old.items }
        ensures uses { AreUses others.new.items }
    {
        let KeptUses { rows, room } = self;
        let mut all = room;
        let _moved = all.append(others);
        put_each(&mut all, rows.as_slice());
        *others = all;
    }
}
