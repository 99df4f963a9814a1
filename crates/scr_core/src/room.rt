//! Room in the journal (our own).
ghost use Rattle.scr_state.specs.Keeps.{Keeps};
ghost use Rattle.scr_state.specs.declared.state.State.{State};
ghost use Rattle.scr_world.specs.Room.{has_room};
ghost use Rattle.std.specs.Prelude.{◌≡◌};

use journal_core::Journal;
use scr_world::Step;

/// Whether the journal has room for so many entries beside those that are reserved. It takes no memory, and looks at no table.
#[tactic(auto, using(crate::proofs::Rooms::room_is))]
pub(crate) fn has_room(journal: &Journal<Step>, entries: u64) -> bool
    ensures { (s : State) → Keeps journal.now s → result ≡ has_room journal.now.limit s.world entries }
{
    entries <= journal.room()
}
