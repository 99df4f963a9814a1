//! The platform.
ghost use Rattle.std.specs.Prelude.{◌≡◌, [], IfOk, IfErr};
ghost use Rattle.scr_world.specs.declared.reply.CoreFault.TheVariants.{OutOfMemory};
ghost use Rattle.scr_requests.specs.Cores.{AreWithinGreatest};
ghost use Rattle.scr_world.specs.Legal.{IsLegal};
ghost use Rattle.scr_world.specs.Steps.{history_of};
ghost use Rattle.platform_hall.specs.Desks.{AreAnswered, DeskSettles, FinishesHeard, SettlesHeard};
ghost use Rattle.platform_hall.specs.Platforms.{BeginsTurn, FinishesTurn, SettlesAs, TakesCommand};
ghost use Rattle.platform_hall.specs.SettleBounds.{SettlesWithin};

use crate::FinishFault;
use crate::core_desk::CoreDesk;
use callback_orders::Outcome;
use kind_trait::Kinds;
use scr_requests::{Core, Servlets};
use scr_world::{Command, CoreFault, Limits, Reply};
use std::alloc::Global;
use std::marker::Model;
use turn_runner::{Desk, DeskFault, SettleFault, finish, settle};

/// A platform of one thread. Contracts see its limits and the entries of its journal, the oldest first.
///
/// Beside the core it keeps the component code and the objects that this made, one for each instance whose Create is done. The
/// servlets that a request needed are kept with the length of the journal at which they were made.
#[derive(Drop)]
pub struct Platform<K: Kinds> {
    pub(crate) kinds: K,
    pub(crate) desk: CoreDesk<K::Object>,
    pub(crate) servlets: Option<Servlets>,
}

impl<K: Kinds> Model for Platform<K> {
    ghost use Rattle.scr_requests.specs.Cores.{CoreView};
    ghost use Rattle.platform_hall.specs.Desks.{AreAnswered};
    ghost use Rattle.platform_hall.specs.Requests.{WereServletsOf};
    ghost use Rattle.std.specs.Prelude.{MatchOption};
    ghost use Rattle.std.specs.Coded.{codes};
    ghost use Rattle.ldap_filter.specs.TreeCodes.{tree_code};

    ghost Value = { CoreView };

    ghost coded = { Prim.hlevel (codes, tree_code) };

    ghost view = { λ p. p.desk.core };

    ghost invariant = { λ p. MatchOption p.servlets (Unit {0}) (WereServletsOf p.desk.core.journal) × AreAnswered K.made K.hears K.refuses p.desk.kept };
}

// Runs the turns that are due over the desk, and sees of it what contracts see of its core.
fn settle_desk<K: Kinds>(
    alloc: Global,
    desk: &mut CoreDesk<K::Object>,
    kinds: &K,
    turns: u64,
) -> Result<u64, SettleFault>
    ensures settles { SettlesAs K.refuses turns desk.old.core result desk.new.core }
    ensures heard { DeskSettles K.made K.hears K.refuses turns desk.old result desk.new }
    ensures answered { AreAnswered K.made K.hears K.refuses desk.old.kept → AreAnswered K.made K.hears K.refuses desk.new.kept }
{
    settle(alloc, desk, kinds, turns)
}

impl<K: Kinds + Drop> Platform<K> {
    /// A platform with an empty journal over this component code. The limits have to be at most 4,194,304 entries and 1,000,000
    /// turns.
    ///
    /// # Errors
    /// Only want of memory.
    pub fn new(alloc: Global, kinds: K, limits: Limits) -> Result<Platform<K>, CoreFault>
        requires within { AreWithinGreatest limits }
        ensures ok { IfOk result (λ platform. platform ≡ record { limits = limits; journal = [] }) }
        ensures err { IfErr result (λ fault. fault ≡ OutOfMemory) }
    {
        Ok(Platform {
            kinds,
            desk: CoreDesk::new(alloc, limits)?,
            servlets: None,
        })
    }

    /// Takes a command, answers as the core does, and posts the drains of the gates that are shut.
    ///
    /// # Errors
    /// Those of [`Core::command`]. A refused command leaves all as it was, but for want of memory, which may also leave the
    /// command's entry and some of the drains.
    pub fn command(&mut self, alloc: Global, command: Command) -> Result<Reply, CoreFault>
        ensures { TakesCommand self.old command result self.new }
    {
        self.servlets = None;
        let accepted = self.desk.command(alloc, command)?;
        self.desk.post(alloc)?;
        Ok(accepted.reply)
    }

    /// Runs the turns that are due, one after the other, until none is due, and answers how many ran. The drains that are due
    /// behind a turn are posted before the next one begins. Each turn but a Create and a Destroy is heard of once, by the object that
    /// is kept for its instance, and that object was made for the class and the properties of its Create. Where the platform is calm and no creation or activation ends other than
    /// Done, no component configuration closes, and at most as many turns run as the settle bound says.
    ///
    /// # Errors
    /// `Unsettled` exactly where as many turns ran as the limit says and one is still due. `JournalFull` exactly where fewer ran, one
    /// is due and the journal has no room for it. `OutOfMemory` comes also where a turn's outcome is NoMemory. The turns that ran
    /// stand.
    pub fn settle(&mut self, alloc: Global) -> Result<u64, SettleFault>
        ensures settles { SettlesWithin K.refuses self.old result self.new }
        ensures heard { SettlesHeard K.made K.hears K.refuses self.old.limits.turns self.old result self.new }
    {
        let turns = self.desk.core().limits().turns;
        settle_desk(alloc, &mut self.desk, &self.kinds, turns)
    }

    /// Begins the first due turn, and answers its number: `None` exactly where none is due.
    ///
    /// # Errors
    /// `JournalFull` exactly where a turn is due and the journal has no room for it; otherwise only want of memory. All is then as it
    /// was.
    pub fn begin(&mut self, alloc: Global) -> Result<Option<u64>, CoreFault>
        ensures { BeginsTurn self.old result self.new }
    {
        self.servlets = None;
        match self.desk.take(alloc) {
            Ok(Some(work)) => Ok(Some(work.number)),
            Ok(None) => Ok(None),
            Err(DeskFault::JournalFull) => Err(CoreFault::JournalFull),
            Err(DeskFault::OutOfMemory) => Err(CoreFault::OutOfMemory),
        }
    }

    /// Runs a turn that has begun, ends it, posts the drains that are due then, and answers the outcome. Unless it is a Create or a
    /// Destroy, the object that is kept for its instance hears of it once. A turn that was told before, by a settling or by this call,
    /// and couldn't be ended then for want of memory, ends with what it came to then, and nobody is told again.
    ///
    /// # Errors
    /// `NoTurn` exactly where no turn of this number is under way. Otherwise only want of memory, which may leave the turn under
    /// way, told or not, or ended and some of the drains posted.
    pub fn finish(&mut self, alloc: Global, turn: u64) -> Result<Outcome, FinishFault>
        ensures finishes { FinishesTurn K.refuses self.old turn result self.new }
        ensures heard { IfOk result (λ outcome. FinishesHeard K.made K.hears K.refuses self.old turn outcome self.new) }
    {
        self.servlets = None;
        let Some(work) = self.desk.work(alloc, turn)? else {
            return Err(FinishFault::NoTurn);
        };
        match finish(alloc, &mut self.desk, &self.kinds, work) {
            Ok(outcome) => Ok(outcome),
            Err(_) => Err(FinishFault::OutOfMemory),
        }
    }

    /// The core, whose journal is legal.
    pub fn core(&self) -> &Core
        ensures core { result.now ≡ self.now }
        ensures legal { IsLegal self.now.limits.journal (history_of self.now.journal) }
    {
        self.desk.core()
    }
}
