//! Bytes that wait to be taken from their front.
ghost use Rattle.std.specs.Prelude.{◌≡◌, ◌≤◌, [], drop, length};
ghost use Rattle.file_lines.specs.Ahead.{Fills};

use fault_count::{ReadStep, Source};
use std::alloc::AllocError;
use std::marker::Model;

/// What reading a piece gave.
#[derive(Clone, Copy, Debug, PartialEq, Eq)]
pub(crate) enum FillStep {
    /// A piece stands behind what was pending.
    Filled,
    /// The source is at its end.
    AtEnd,
    /// The source failed, or there was no memory for a piece.
    Failed,
}

// How many bytes a piece has at most.
const PIECE: usize = 4096;

/// Bytes that wait to be taken from their front. Contracts see those that were not taken.
#[derive(Drop)]
pub(crate) struct Pending {
    bytes: Vec<u8>,
    taken: usize,
}

impl Model for Pending {
    ghost use Rattle.std.specs.Prelude.{◌≤◌, List, drop, vec_len, ℕ};

    ghost Value = { List ℕ };

    ghost view = { λ s. drop s.taken s.bytes.items };

    ghost invariant = { λ s. s.taken ≤ vec_len s.bytes };
}

impl Pending {
    /// All of these bytes.
    pub(crate) fn of(bytes: Vec<u8>) -> Pending
        ensures { result ≡ bytes.items }
    {
        Pending { bytes, taken: 0 }
    }

    /// Those that were not taken.
    pub(crate) fn as_slice(&self) -> &[u8]
        ensures { result.now ≡ self.now }
    {
        let (_, rest) = self.bytes.split_at(self.taken);
        rest
    }

    /// Takes so many from their front.
    pub(crate) fn take_front(&mut self, count: usize)
        requires { count ≤ length self.old }
        ensures { self.new ≡ drop count self.old }
    {
        self.taken += count;
    }

    /// Takes all of them.
    pub(crate) fn take_all(&mut self)
        ensures { self.new ≡ [] }
    {
        self.taken = self.bytes.len();
    }

    /// Reads a piece of a source behind them.
    pub(crate) fn fill<In: Source>(&mut self, input: &mut In) -> FillStep
        ensures { Fills (In.left input.old) (In.left input.new) (In.number input.old) (In.number input.new)
            self.old self.new result }
    {
        if self.forget_taken().is_err() {
            return FillStep::Failed;
        }
        read_behind(&mut self.bytes, input)
    }

    // Forgets the bytes that were taken.
    fn forget_taken(&mut self) -> Result<(), AllocError>
        ensures { self.new ≡ self.old }
    {
        if self.taken > 0 {
            self.bytes = self.bytes.split_off(self.taken)?;
            self.taken = 0;
        }
        Ok(())
    }
}

// Reads a piece of a source behind these bytes. The memory for it is taken first, so nothing that was read is lost.
fn read_behind<In: Source>(bytes: &mut Vec<u8>, input: &mut In) -> FillStep
    ensures { Fills (In.left input.old) (In.left input.new) (In.number input.old) (In.number input.new)
        bytes.old.items bytes.new.items result }
{
    if bytes.reserve(PIECE).is_err() {
        return FillStep::Failed;
    }
    let mut room = [0u8; PIECE];
    match input.read(&mut room) {
        ReadStep::Got(count) => {
            let (piece, _) = room.split_at(count);
            match bytes.extend_from_slice(piece) {
                Ok(()) => FillStep::Filled,
                Err(_) => FillStep::Failed,
            }
        }
        ReadStep::End => FillStep::AtEnd,
        ReadStep::Failed => FillStep::Failed,
    }
}
