//! The number that the next bundle has (OSGi Core 8, chapter 4, "Bundle Identifiers").
ghost use Rattle.scr_state.specs.Keeps.{Keeps};
ghost use Rattle.std.specs.Prelude.{◌≡◌, ◌+◌};

use journal_core::Journal;
use scr_state::{State, next_length};
use scr_world::Step;

/// The number of the bundle that is installed next. There is one of 64 bits, since no more were given than there are entries. It
/// takes no memory.
pub fn next_bundle(journal: &Journal<Step>, state: &State) -> u64
    requires { Keeps journal.now state.now }
    ensures { result ≡ state.now.world.bundles.numbered + 1 }
{
    // This lets the proof know that one more than the entries is a number of 64 bits.
    let _length = next_length(journal);
    state.world.bundles.numbered() + 1
}
