//! The end of threads that run turns.
ghost use Rattle.platform_sessions.specs.Halls.{IsOf};
ghost use Rattle.std.specs.Prelude.{◌≡◌, true};

use crate::hall::Hall;
use crate::hall_pass::HallPass;
use kind_trait::Kinds;
use std::sync::atomic::Ordering;

impl<K: Kinds + Drop> Hall<K> {
    /// Tells whoever runs turns of this hall in a loop to end once nothing is due. The journal stays as it is, and so does
    /// what the pass knows of it; the pass knows from now on that the hall was closed.
    pub fn close(&self, pass: &mut HallPass)
        requires of { IsOf self.now pass.old }
        ensures of { IsOf self.now pass.new }
        ensures same { pass.new ≡ record pass.old { closed = true } }
    {
        self.closing.store(true, Ordering::SeqCst);
        pass.closed = true;
    }

    /// Whether the hall was told to close. A pass that closed it is told so, and one that was told so is told so ever
    /// after. Nothing is said of when other passes are told.
    pub fn closed(&self, pass: &mut HallPass) -> bool
        requires of { IsOf self.now pass.old }
        ensures of { IsOf self.now pass.new }
        ensures same { pass.new ≡ record pass.old { closed = result } }
        ensures ever { pass.old.closed ≡ true → result ≡ true }
    {
        let closed = pass.closed || self.closing.load(Ordering::SeqCst);
        pass.closed = closed;
        closed
    }
}
