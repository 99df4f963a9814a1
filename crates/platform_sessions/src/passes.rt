//! Passes that are split off and joined.
ghost use Rattle.front_lock.specs.Histories.{Distinct, Extends, In, Owners, places};
ghost use Rattle.front_lock.specs.Passes.{ended_of, longer, names_of};
ghost use Rattle.platform_sessions.specs.Halls.{IsOf};
ghost use Rattle.std.specs.Prelude.{◌≡◌, ◌+◌, ◌-◌, ◌<◌, ◌++◌, ◌||◌, ℕ, [], IfErr, IfOk};

use crate::hall::Hall;
use crate::hall_pass::HallPass;
use front_lock::LockFault;
use kind_trait::Kinds;
use std::sync::Wait;

impl<K: Kinds + Drop> Hall<K> {
    /// Splits a second pass off, with a spare of 0 and a number that no pass has or had, above each name of the first.
    /// The first keeps its number and all that it knows, and its spare falls by one. Both know of the hall's closing what it
    /// knew. It waits for its turn at the lock.
    ///
    /// # Errors
    /// SeatsFull exactly where the spare is 0. The pass comes back, and nothing changes.
    pub fn split<R: Wait>(
        &self,
        rt: &R,
        pass: HallPass,
    ) -> Result<(HallPass, HallPass), (HallPass, LockFault)>
        requires of { IsOf self.now pass }
        ensures first { IfOk result (λ r. (0 < pass.front.spare) × (r.0.front ≡ record pass.front { spare = pass.front.spare - 1 })) }
        ensures second { IfOk result (λ r. r.1.front ≡ record pass.front { number = r.1.front.number; joined = []; kept = []; spare = 0; entered = 0 }) }
        ensures closed { IfOk result (λ r. (r.0.closed ≡ pass.closed) × (r.1.closed ≡ pass.closed)) }
        ensures fresh { IfOk result (λ r. Owners (λ n. n < r.1.front.number) pass.front.seen) }
        ensures later { IfOk result (λ r. (n : ℕ) → In n (names_of pass.front) → n < r.1.front.number) }
        ensures of { IfOk result (λ r. IsOf self.now r.0 × IsOf self.now r.1) }
        ensures full { IfErr result (λ e. (e.0 ≡ pass) × (pass.front.spare ≡ 0) × (e.1 ≡ LockFault.SeatsFull)) }
    {
        let closed = pass.closed;
        match self.lock.split(rt, pass.into_front()) {
            Ok((first, second)) => Ok((HallPass::of(first, closed), HallPass::of(second, closed))),
            Err((pass, fault)) => Err((HallPass::of(pass, closed), fault)),
        }
    }

    /// Joins a pass into another, which keeps its number and gets the other's spare and one more. It has then seen the
    /// longer beginning of the two, in which the entries of both are all that there are. The other's number gets no
    /// further entry, and none of its names is one of the first's. It waits for its turn at the lock.
    pub fn join<R: Wait>(&self, rt: &R, pass: HallPass, other: HallPass) -> HallPass
        requires of { IsOf self.now pass × IsOf self.now other }
        ensures joined { result.front ≡ record pass.front { joined = pass.front.joined ++ ended_of other.front; seen = longer pass.front.seen other.front.seen; kept = pass.front.kept ++ other.front.kept; spare = pass.front.spare + other.front.spare + 1; entered = pass.front.entered + other.front.entered } }
        ensures closed { result.closed ≡ (pass.closed || other.closed) }
        ensures distinct { Distinct (names_of result.front) }
        ensures this { Extends (names_of pass.front) pass.front.seen result.front.seen }
        ensures that { Extends (names_of other.front) other.front.seen result.front.seen }
        ensures mine { (n : ℕ) → In n (names_of pass.front) → places n result.front.seen ≡ places n pass.front.seen }
        ensures theirs { (n : ℕ) → In n (names_of other.front) → places n result.front.seen ≡ places n other.front.seen }
        ensures of { IsOf self.now result }
    {
        let closed = pass.closed || other.closed;
        HallPass::of(
            self.lock.join(rt, pass.into_front(), other.into_front()),
            closed,
        )
    }
}
