//! The hall, its beginning and its end.
ghost use Rattle.front_lock.specs.Histories.{AllEnded, AllPlaced, Extends, In, Owners, places};
ghost use Rattle.front_lock.specs.Passes.{names_of};
ghost use Rattle.hall_locked.specs.Owned.{owned};
ghost use Rattle.platform_sessions.specs.Halls.{IsOf, first_pass};
ghost use Rattle.hall_locked.specs.Cores.{AreWithinGreatest};
ghost use Rattle.scr_world.specs.Legal.{IsLegal};
ghost use Rattle.scr_world.specs.Steps.{history_of};
ghost use Rattle.scr_world.specs.declared.reply.CoreFault.TheVariants.{OutOfMemory};
ghost use Rattle.std.specs.Prelude.{◌≡◌, ℕ, IfErr, IfOk, false, length};

use crate::hall_pass::HallPass;
use front_lock::FrontLock;
use hall_locked::Locked;
use journal_core::Journal;
use kind_trait::Kinds;
use scr_world::{CoreFault, Limits, Step};
use std::alloc::Global;
use std::marker::Model;
use std::sync::atomic::AtomicBool;

/// A platform that sessions share. To a contract it is the name of its lock, and its limits.
#[derive(Drop)]
pub struct Hall<K: Kinds> {
    pub(crate) lock: FrontLock<Locked<K::Object>>,
    pub(crate) kinds: K,
    pub(crate) limits: Limits,
    pub(crate) closing: AtomicBool,
}

impl<K: Kinds> Model for Hall<K> {
    ghost use Rattle.platform_sessions.specs.Halls.{HallView};

    ghost Value = { HallView };

    ghost view = { λ h. record { lock = h.lock; limits = h.limits } };
}

impl<K: Kinds + Drop> Hall<K> {
    /// A hall with an empty journal over this component code, and its first pass, which has the number 0 and a spare of
    /// 63. The limits have to be at most 4,194,304 entries and 1,000,000 turns.
    ///
    /// # Errors
    /// Only want of memory.
    pub fn new(alloc: Global, kinds: K, limits: Limits) -> Result<(Hall<K>, HallPass), CoreFault>
        requires within { AreWithinGreatest limits }
        ensures ok { IfOk result (λ r. (r.0.limits ≡ limits) × (r.1.front ≡ first_pass r.0)) }
        ensures open { IfOk result (λ r. r.1.closed ≡ false) }
        ensures of { IfOk result (λ r. IsOf r.0 r.1) }
        ensures err { IfErr result (λ fault. fault ≡ OutOfMemory) }
    {
        let locked = Locked::new(alloc, limits)?;
        match FrontLock::new(alloc, locked) {
            Ok((lock, pass)) => {
                let hall = Hall {
                    lock,
                    kinds,
                    limits,
                    closing: AtomicBool::new(false),
                };
                Ok((hall, HallPass::of(pass, false)))
            }
            Err(_) => Err(CoreFault::OutOfMemory),
        }
    }

    /// Its limits.
    pub fn limits(&self) -> Limits
        ensures { result ≡ self.now.limits }
    {
        self.limits
    }

    /// The journal, and the owner of each entry: the number of the pass under which it was appended. All other passes
    /// have to be joined into this one, so that its spare is 63. The journal is legal, begins with what each pass had
    /// seen, and has no entry of anybody else. It waits for nobody and takes no memory.
    pub fn into_journal(self, pass: HallPass) -> (Journal<Step>, Vec<u64>)
        requires of { IsOf self pass }
        requires all { pass.front.spare ≡ 63 }
        ensures many { length result.1.items ≡ length result.0.entries }
        ensures goes_on { Extends (names_of pass.front) pass.front.seen (owned result.1.items result.0.entries) }
        ensures mine { (n : ℕ) → In n (names_of pass.front) → places n (owned result.1.items result.0.entries) ≡ places n pass.front.seen }
        ensures ended { AllEnded pass.front.joined (owned result.1.items result.0.entries) }
        ensures placed { AllPlaced pass.front.joined (owned result.1.items result.0.entries) }
        ensures owned_by { Owners (λ n. In n (names_of pass.front)) (owned result.1.items result.0.entries) }
        ensures limit { result.0.limit ≡ self.limits.journal }
        ensures legal { IsLegal self.limits.journal (history_of result.0.entries) }
    {
        let Hall {
            lock,
            kinds,
            limits: _,
            closing: _,
        } = self;
        drop(kinds);
        lock.close(pass.into_front()).into_journal()
    }
}
