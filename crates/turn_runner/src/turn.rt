//! How one turn runs.
ghost use Rattle.callback_orders.specs.Grammar.{is_create, is_destroy};
ghost use Rattle.callback_orders.specs.declared.callback.Outcome.TheVariants.{Done};
ghost use Rattle.kind_trait.specs.Meanings.{RefusedWhere, Create};
ghost use Rattle.std.specs.Arc.{arc_value};
ghost use Rattle.std.specs.Prelude.{◌≡◌, IsTrue, is_some, IsOk, MatchOption, true, false};
ghost use Rattle.turn_runner.specs.Outcomes.{IsAnswerOf, IsMadeFrom, is_done, needs_object, asks_nobody, is_refused, told_by, IsOutcome, makes_object};

use crate::TurnWork;
use callback_orders::{Callback, Outcome};
use kind_trait::{KindFault, Kinds, Site};
use std::alloc::Global;
use std::sync::Arc;

/// What a turn came to.
#[derive(Drop)]
pub struct Ran<O> {
    /// How it ended.
    pub outcome: Outcome,
    /// The object that it made.
    pub made: Option<Arc<O>>,
}

// Tells an object of any callback but its Create. A Destroy asks nothing of it.
fn tell<K: Kinds>(
    alloc: Global,
    kinds: &K,
    object: &K::Object,
    callback: &Callback,
    site: &Site,
) -> Result<(), KindFault>
    requires { is_create callback.now ≡ false }
    ensures refused { RefusedWhere (K.refuses site.now.class site.now.properties (told_by callback.now)) result }
    ensures heard { is_destroy callback.now ≡ false → K.hears object.now site.now (told_by callback.now) result }
    ensures destroy { IsTrue (is_destroy callback.now) → IsOk result }
{
    match callback {
        Callback::Create => unreachable!(),
        Callback::Bind { reference, service } => {
            kinds.bind(alloc, object, site, reference.as_str(), *service)
        }
        Callback::Updated { reference, service } => {
            kinds.updated(alloc, object, site, reference.as_str(), *service)
        }
        Callback::Unbind { reference, service } => {
            kinds.unbind(alloc, object, site, reference.as_str(), *service)
        }
        Callback::Activate => kinds.activate(alloc, object, site),
        Callback::Modified => kinds.modified(alloc, object, site),
        Callback::Deactivate => kinds.deactivate(alloc, object, site),
        Callback::Destroy => Ok(()),
    }
}

fn outcome_told<K: Kinds>(alloc: Global, kinds: &K, object: &K::Object, work: &TurnWork) -> Outcome
    requires { is_create work.now.callback ≡ false }
    ensures refused { IsOutcome (K.refuses work.now.site.class work.now.site.properties (told_by work.now.callback)) result }
    ensures heard { IsAnswerOf K.hears object.now work.now result }
    ensures destroy { IsTrue (is_destroy work.now.callback) → result ≡ Done }
{
    match tell(alloc, kinds, object, &work.callback, &work.site) {
        Ok(()) => Outcome::Done,
        Err(KindFault::Refused) => Outcome::Refused,
        Err(KindFault::OutOfMemory) => Outcome::NoMemory,
    }
}

fn create<K: Kinds>(alloc: Global, kinds: &K, site: &Site) -> Ran<K::Object>
    ensures refused { IsOutcome (K.refuses site.now.class site.now.properties Create) result.outcome }
    ensures made { is_some result.made ≡ is_done result.outcome }
    ensures site { IsMadeFrom K.made arc_value site.now result.made }
{
    match kinds.create(alloc, site) {
        Ok(object) => match Arc::new(alloc, object) {
            Ok(object) => Ran {
                outcome: Outcome::Done,
                made: Some(object),
            },
            Err(_) => Ran {
                outcome: Outcome::NoMemory,
                made: None,
            },
        },
        Err(KindFault::Refused) => Ran {
            outcome: Outcome::Refused,
            made: None,
        },
        Err(KindFault::OutOfMemory) => Ran {
            outcome: Outcome::NoMemory,
            made: None,
        },
    }
}

// Runs a turn that an object is told of.
fn run_told<K: Kinds>(
    alloc: Global,
    kinds: &K,
    object: &K::Object,
    work: &TurnWork,
) -> Ran<K::Object>
    requires { needs_object work.now ≡ true }
    ensures refused { IsOutcome (is_refused K.refuses work.now) result.outcome }
    ensures heard { IsAnswerOf K.hears object.now work.now result.outcome }
    ensures nobody { IsTrue (asks_nobody work.now) → result.outcome ≡ Done }
    ensures made { is_some result.made ≡ makes_object work.now result.outcome }
    ensures site { IsMadeFrom K.made arc_value work.now.site result.made }
{
    let outcome = outcome_told(alloc, kinds, object, work);
    Ran {
        outcome,
        made: None,
    }
}

// Runs a turn of instance 0, or a Create.
fn run_alone<K: Kinds>(alloc: Global, kinds: &K, work: &TurnWork) -> Ran<K::Object>
    requires { needs_object work.now ≡ false }
    ensures refused { IsOutcome (is_refused K.refuses work.now) result.outcome }
    ensures nobody { IsTrue (asks_nobody work.now) → result.outcome ≡ Done }
    ensures made { is_some result.made ≡ makes_object work.now result.outcome }
    ensures site { IsMadeFrom K.made arc_value work.now.site result.made }
{
    if work.instance == 0 {
        return Ran {
            outcome: Outcome::Done,
            made: None,
        };
    }
    create(alloc, kinds, &work.site)
}

/// Runs one turn: the component code makes the object at a Create, and else the object is told of the callback. Instance 0 has
/// no component code, so each of its turns is Done. An object must be given exactly where the turn is of another instance and no
/// Create.
///
/// The outcome is Refused exactly where the component code's meaning refuses the callback, which is never at a Destroy, and
/// NoMemory only where the component code, or at a Create what shares its object, found no memory. An object is made exactly at
/// a Create that is Done, and it was made for the class and the properties of the turn. Where an object is given, the outcome is
/// what that object answered when it was told of the callback.
pub fn run_turn<K: Kinds>(
    alloc: Global,
    kinds: &K,
    object: Option<&K::Object>,
    work: &TurnWork,
) -> Ran<K::Object>
    requires { is_some object ≡ needs_object work.now }
    ensures refused { IsOutcome (is_refused K.refuses work.now) result.outcome }
    ensures heard { MatchOption object.entry (Unit {0}) (λ o. IsAnswerOf K.hears o.now work.now result.outcome) }
    ensures nobody { IsTrue (asks_nobody work.now) → result.outcome ≡ Done }
    ensures made { is_some result.made ≡ makes_object work.now result.outcome }
    ensures site { IsMadeFrom K.made arc_value work.now.site result.made }
{
    match object {
        Some(object) => run_told(alloc, kinds, object, work),
        None => run_alone(alloc, kinds, work),
    }
}

/// Runs one turn as [`run_turn`] does, with an object that is shared.
pub fn run_shared<K: Kinds>(
    alloc: Global,
    kinds: &K,
    object: Option<Arc<K::Object>>,
    work: &TurnWork,
) -> Ran<K::Object>
    requires { is_some object ≡ needs_object work.now }
    ensures refused { IsOutcome (is_refused K.refuses work.now) result.outcome }
    ensures heard { MatchOption object (Unit {0}) (λ o. IsAnswerOf K.hears (arc_value o) work.now result.outcome) }
    ensures nobody { IsTrue (asks_nobody work.now) → result.outcome ≡ Done }
    ensures made { is_some result.made ≡ makes_object work.now result.outcome }
    ensures site { IsMadeFrom K.made arc_value work.now.site result.made }
{
    match object {
        Some(object) => run_told(alloc, kinds, &object, work),
        None => run_alone(alloc, kinds, work),
    }
}
