//! Room in the journal for a command (our own).
ghost use Rattle.scr_state.specs.Keeps.{Keeps};
ghost use Rattle.scr_world.specs.Room.{has_room};
ghost use Rattle.std.specs.Prelude.{◌≡◌};

use journal_core::Journal;
use scr_state::State;
use scr_world::Step;

/// Whether the journal has room for the entry of a command, beside those that are reserved. It takes no memory, and the time of
/// no table.
pub fn has_room_for_command(journal: &Journal<Step>, state: &State) -> bool
    requires { Keeps journal.now state.now }
    ensures { result ≡ has_room journal.now.limit state.now.world 1 }
{
    journal.room() > 0
}
