//! Drains that are still to be posted.
ghost use Rattle.gate_keeper.specs.Keepers.{is_some_key};
ghost use Rattle.std.specs.Prelude.{◌≡◌, ◌&&◌, is_some, length, nat_lt};

use gate_keeper::Keeper;
use scr_core::Core;

/// Stands for the drains that a change left to be posted. It isn't `Drop`, and [`crate::Locked::post`] alone takes
/// it: so whoever made the change can't forget them.
pub struct Owed {
    posts: (),
}

impl Owed {
    pub(crate) fn spend(self) {
        let Owed { posts } = self;
        posts
    }
}

// What is owed: something exactly where a drain is on the keeper's shelf.
pub(crate) fn owed_by(keeper: &Keeper) -> Option<Owed>
    ensures { is_some result ≡ is_some_key keeper.now.shelf }
{
    if keeper.owes() {
        Some(Owed { posts: () })
    } else {
        None
    }
}

// What is owed where the journal has more than so many entries; nothing otherwise.
pub(crate) fn owed_since(core: &Core, keeper: &Keeper, entries: u64) -> Option<Owed>
    ensures { is_some result ≡ (nat_lt entries (length core.now.journal) && is_some_key keeper.now.shelf) }
{
    if entries < core.journal().length() {
        owed_by(keeper)
    } else {
        None
    }
}
