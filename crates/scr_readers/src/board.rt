//! When what the whiteboard's instance holds may change (our own).
ghost use Rattle.scr_readers.specs.Board.{changes_board};
ghost use Rattle.scr_world.specs.Instances.{has_turn};
ghost use Rattle.std.specs.Prelude.{◌≡◌};

use scr_world::{Step, World};

/// Whether a step may change what the whiteboard's instance holds, or a service that it holds. Whoever counts these steps has a
/// count that rises in each entry that changes the rows of [`held_rows`](crate::held_rows). It takes no memory.
pub fn changes_board(world: &World, step: &Step) -> bool
    ensures { result ≡ changes_board step.now world.now }
{
    match step {
        Step::Command(_) => true,
        Step::Begin { instance, .. } => world.whiteboard.number == *instance,
        Step::End { turn, .. } => world.whiteboard.has_turn(*turn),
        Step::Drained { .. } | Step::Got { .. } | Step::Released { .. } => false,
    }
}
