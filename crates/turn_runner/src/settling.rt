//! How a turn that has begun is finished, and how all turns that are due are run.
ghost use Rattle.std.specs.Prelude.{◌≡◌, Some};
ghost use Rattle.turn_runner.specs.Outcomes.{needs_object, is_refused};
ghost use Rattle.turn_runner.specs.Turns.{EndsOnce, EndsUntold, HeardEnds, IsDueRun, IsEndRun, IsFinished, IsSettled, Starts, Stays};

use crate::{Desk, DeskFault, SettleFault, TurnWork, run_shared};
use callback_orders::Outcome;
use kind_trait::Kinds;
use prop_map::OutOfMemory;
use std::alloc::{AllocError, Global};

// Runs a turn that has begun and that nobody was told of, and ends it with what it came to.
fn run_untold<K: Kinds, D: Desk<K::Object>>(
    alloc: Global,
    desk: &mut D,
    kinds: &K,
    work: TurnWork,
) -> Result<Outcome, OutOfMemory>
    requires running { D.running desk.old work.number ≡ Some work }
    requires fits { D.has_object desk.old work.instance ≡ needs_object work }
    ensures { IsFinished D.has_drain (Stays D.owns K.made K.hears K.refuses D.hands D.keeps) (EndsUntold (HeardEnds D.running D.owns K.made K.hears D.hands D.ends) K.refuses) D.posts work desk.old result desk.new }
{
    let object = desk.hand_out(alloc, &work)?;
    let ran = run_shared(alloc, kinds, object, &work);
    let outcome = ran.outcome;
    desk.put_back(alloc, work, ran)?;
    match desk.post(alloc) {
        Ok(()) => Ok(outcome),
        Err(fault) => Err(fault),
    }
}

/// Ends a turn that has begun, posts the drains that are due then, and answers the outcome. A turn of which nothing is kept is
/// run: the object of its instance is handed out once. Where it is told to an object, its outcome is what that object answered,
/// which is its instance's own on the desk; an object that a Create made was made for the class and the properties of the turn.
/// A turn of which it is kept what it came to ends with that, and nobody is told again.
///
/// # Errors
/// Only want of memory. The turn then goes on as it was, or it goes on and what it came to is kept, or it has ended and some of
/// the drains are posted.
pub fn finish<K: Kinds, D: Desk<K::Object>>(
    alloc: Global,
    desk: &mut D,
    kinds: &K,
    work: TurnWork,
) -> Result<Outcome, OutOfMemory>
    requires running { D.running desk.old work.number ≡ Some work }
    requires fits { D.has_object desk.old work.instance ≡ needs_object work }
    ensures { IsFinished D.has_drain (Stays D.owns K.made K.hears K.refuses D.hands D.keeps) (EndsOnce D.kept D.owns (HeardEnds D.running D.owns K.made K.hears D.hands D.ends) D.ends K.refuses) D.posts work desk.old result desk.new }
{
    match desk.put_back_kept(alloc, &work)? {
        Some(outcome) => match desk.post(alloc) {
            Ok(()) => Ok(outcome),
            Err(fault) => Err(fault),
        },
        None => run_untold(alloc, desk, kinds, work),
    }
}

// Runs a turn that a settling began, where want of memory that it came to is told as such.
fn run_begun<K: Kinds, D: Desk<K::Object>>(
    alloc: Global,
    desk: &mut D,
    kinds: &K,
    work: TurnWork,
) -> Result<(), OutOfMemory>
    requires running { D.running desk.old work.number ≡ Some work }
    requires fits { D.has_object desk.old work.instance ≡ needs_object work }
    ensures { IsEndRun D.has_drain (Stays D.owns K.made K.hears K.refuses D.hands D.keeps) (HeardEnds D.running D.owns K.made K.hears D.hands D.ends) D.posts (is_refused K.refuses work) work desk.old result desk.new }
{
    match run_untold(alloc, desk, kinds, work)? {
        Outcome::Done | Outcome::Refused => Ok(()),
        Outcome::NoMemory => Err(AllocError),
    }
}

// Runs the first due turn, if one is due. It answers whether one was.
fn run_due<K: Kinds, D: Desk<K::Object>>(
    alloc: Global,
    desk: &mut D,
    kinds: &K,
) -> Result<bool, DeskFault>
    ensures { IsDueRun D.has_due D.has_room D.has_drain D.begins (Starts D.begins (Stays D.owns K.made K.hears K.refuses D.hands D.keeps)) (HeardEnds D.running D.owns K.made K.hears D.hands D.ends) D.posts K.refuses desk.old result desk.new }
{
    let Some(work) = desk.take(alloc)? else {
        return Ok(false);
    };
    run_begun(alloc, desk, kinds, work)?;
    Ok(true)
}

/// Posts the drains that are due, and then runs the turns that are due, one after the other, until nothing is due. It answers
/// how many ran. Behind each turn the drains that are due then are posted before the next one begins. Each turn is run as
/// [`finish`] runs one that nobody was told of.
///
/// # Errors
/// Unsettled exactly where `budget` turns ran and one is still due. JournalFull exactly where fewer ran, one is due and the journal
/// has no room for it. OutOfMemory comes also where a turn's outcome is NoMemory. The turns that ran stand. A turn that was told
/// and couldn't be ended goes on, and what it came to is kept.
pub fn settle<K: Kinds, D: Desk<K::Object>>(
    alloc: Global,
    desk: &mut D,
    kinds: &K,
    budget: u64,
) -> Result<u64, SettleFault>
    ensures { IsSettled D.has_due D.has_room D.has_drain D.begins (Starts D.begins (Stays D.owns K.made K.hears K.refuses D.hands D.keeps)) (HeardEnds D.running D.owns K.made K.hears D.hands D.ends) D.posts K.refuses budget desk.old result desk.new }
{
    desk.post(alloc)?;
    for ran in 0..budget {
        if !run_due(alloc, desk, kinds)? {
            return Ok(ran);
        }
    }
    if desk.due(alloc)? {
        Err(SettleFault::Unsettled)
    } else {
        Ok(budget)
    }
}
