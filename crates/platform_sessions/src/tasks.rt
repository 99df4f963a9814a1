//! What a turn that has begun takes outside the lock, and how it runs there.
ghost use Rattle.hall_locked.specs.Platforms.{running};
ghost use Rattle.platform_sessions.specs.Works.{IsOwn, IsTask, object_kept};
ghost use Rattle.std.specs.Arc.{arc_value};
ghost use Rattle.std.specs.List.{find};
ghost use Rattle.std.specs.Prelude.{◌≡◌, ◌==◌, IfOk, MatchOption, Some, is_some};
ghost use Rattle.turn_runner.specs.Outcomes.{IsOutcome, is_refused, makes_object};
ghost use Rattle.turn_work.specs.declared.work.TurnWork.{TurnWork};

use callback_orders::Outcome;
use hall_locked::Locked;
use kind_trait::Kinds;
use prop_map::OutOfMemory;
use std::alloc::Global;
use std::sync::Arc;
use turn_runner::{Ran, run_shared};
use turn_work::TurnWork;

// What a turn takes outside the lock: its work, and the object that it is told to.
pub(crate) type Task<O> = (TurnWork, Option<Arc<O>>);

// The work of a turn that is under way, with the object that it is told to; None where memory is wanting.
pub(crate) fn task_of<O: Drop>(alloc: Global, value: &Locked<O>, turn: u64) -> Option<Task<O>>
    requires { (work : TurnWork) × (running value.now.core turn ≡ Some work) }
    ensures task { (work : TurnWork) → running value.now.core turn ≡ Some work → IsTask work result }
    ensures own { IsOwn arc_value value.now.parts result }
{
    value.note_kept();
    let work = match value.look().turn_work(alloc, turn) {
        Ok(Some(work)) => work,
        Ok(None) => unreachable!(),
        Err(_) => return None,
    };
    match object_of(value, work.instance) {
        Ok(object) => Some((work, object)),
        Err(_) => None,
    }
}

// A share of the object that is kept for an instance; None where none is.
fn object_of<O: Drop>(value: &Locked<O>, instance: u64) -> Result<Option<Arc<O>>, OutOfMemory>
    ensures has { IfOk result (λ object. is_some object ≡ is_some (find (λ part. part.instance == instance) value.now.parts)) }
    ensures own { IfOk result (λ object. MatchOption object (Unit {0}) (λ o. object_kept value.now.parts instance ≡ Some (arc_value o))) }
{
    match value.part(instance) {
        Some(part) => Ok(Some(Arc::try_clone(&part.object)?)),
        None => Ok(None),
    }
}

// Runs a turn outside the lock. Where memory was wanting for what it takes along, its outcome is NoMemory, and nobody
// is told.
#[tactic(auto, using(crate::proofs::Handing::fits_task))]
pub(crate) fn run_task<K: Kinds>(
    alloc: Global,
    kinds: &K,
    task: Option<Task<K::Object>>,
) -> Ran<K::Object>
    requires { (work : TurnWork) × IsTask work task }
    ensures told { (work : TurnWork) → IsTask work task → IsOutcome (is_refused K.refuses work) result.outcome }
    ensures made { (work : TurnWork) → IsTask work task → is_some result.made ≡ makes_object work result.outcome }
{
    match task {
        Some((work, object)) => run_shared(alloc, kinds, object, &work),
        None => Ran {
            outcome: Outcome::NoMemory,
            made: None,
        },
    }
}
