//! How long a journal is with an entry more.
ghost use Rattle.std.specs.Prelude.{◌≡◌, ◌+◌, length};

use journal_core::Journal;
use scr_world::Step;

/// How many entries a journal has with the next one. It takes no memory.
pub fn next_length(journal: &Journal<Step>) -> u64
    ensures { result ≡ length journal.now.entries + 1 }
{
    journal.entries().len() as u64 + 1
}
