//! A desk in memory, for tests.
ghost use Rattle.std.specs.Prelude.{◌≡◌, ◌⊎◌, ◌==◌, ◌<◌, ◌&&◌, ◌||◌, ℕ, [], Some, None, not, false, true, is_some, option_map, vec_len, vec_capacity, IfOk, MatchOption, OnOk, OnErr, IfErr};
ghost use Rattle.rule_tests.specs.Desktops.{Begins, EndsAs, Keeps, Posts, is_due, is_holder, fits, kept_of, object_of, with_number};
ghost use Rattle.std.specs.Arc.{arc_value};
ghost use Rattle.std.specs.List.{find};
ghost use Rattle.std.specs.Option.{option_copied};
ghost use Rattle.turn_runner.specs.Outcomes.{IsMadeFor, has_object_after, is_destroy_of, makes_object};

use callback_orders::Outcome;
use prop_map::{Copies, OutOfMemory};
use std::alloc::{AllocError, Global};
use std::collections::VecDeque;
use std::marker::Model;
use std::sync::Arc;
use turn_runner::{Desk, DeskFault, Ran, TurnWork};

/// How a turn of a desk in memory ended.
#[derive(Clone, Copy, Debug, PartialEq, Eq, Drop)]
pub struct Ended {
    /// The number of the turn.
    pub number: u64,
    /// How it ended.
    pub outcome: Outcome,
}

/// The object of an instance.
#[derive(Drop)]
pub struct Held<O> {
    /// The number of the instance.
    pub instance: u64,
    /// Its object.
    pub object: Arc<O>,
}

/// A desk in memory, for tests: it has turns to come, of which the first is due as long as no turn is under way and its instance
/// has an object exactly where it needs one. A given number of turns may begin.
#[derive(Drop)]
pub struct MemoryDesk<O> {
    turns_to_come: VecDeque<TurnWork>,
    room: u64,
    under_way: Option<TurnWork>,
    kept: Option<Ran<O>>,
    held: Vec<Held<O>>,
    ended: Vec<Ended>,
    drain: bool,
}

impl<O> Model for MemoryDesk<O> {
    ghost use Rattle.rule_tests.specs.Desktops.{Desktop};

    ghost Value = { Desktop O };

    ghost view = { λ d. record { turns_to_come = d.turns_to_come.items; room = d.room; under_way = d.under_way; kept = d.kept; held = d.held.items; ended = d.ended.items; drain = d.drain } };
}

fn is_holder<O>(held: &[Held<O>], instance: u64) -> bool
    ensures { result ≡ is_holder held.now instance }
{
    held.iter().any(|one| one.instance == instance)
}

fn first_held<O>(held: &[Held<O>], instance: u64) -> Option<&Held<O>>
    ensures { option_copied result ≡ find (λ one. one.instance == instance) held.now }
{
    held.iter().find(|one| one.instance == instance)
}

// What holds the object of an instance, the first one.
fn held_object<O>(held: &[Held<O>], instance: u64) -> Option<&Held<O>>
    ensures some { is_some result ≡ is_holder held.now instance }
    ensures first { option_copied result ≡ find (λ one. one.instance == instance) held.now }
{
    first_held(held, instance)
}

// The object of an instance, shared once more.
fn shared_object<O>(held: &[Held<O>], instance: u64) -> Result<Option<Arc<O>>, OutOfMemory>
    ensures has { IfOk result (λ object. is_some object ≡ is_holder held.now instance) }
    ensures own { IfOk result (λ object. MatchOption object (Unit {0}) (λ o. object_of held.now instance ≡ Some (arc_value o))) }
{
    match held_object(held, instance) {
        Some(one) => Ok(Some(Arc::try_clone(&one.object)?)),
        None => Ok(None),
    }
}

// Keeps the object that a turn of the instance made.
#[tactic(auto, using(crate::proofs::Holders::holder_more))]
fn keep<O: Drop>(held: &mut Vec<Held<O>>, instance: u64, made: Option<Arc<O>>)
    requires { vec_len held.old < vec_capacity held.old }
    ensures holders { (n : ℕ) → is_holder held.new.items n ≡ (is_holder held.old.items n || (is_some made && (instance == n))) }
    ensures own { (n : ℕ) (object : O) → object_of held.new.items n ≡ Some object → (object_of held.old.items n ≡ Some object) ⊎ ((instance ≡ n) × (option_map (λ m. arc_value m) made ≡ Some object)) }
{
    if let Some(object) = made {
        held.push_reserved(Held { instance, object });
    }
}

impl<O> MemoryDesk<O> {
    /// A desk with these turns to come, the first one first, of which so many may begin. It has no objects.
    pub fn new(alloc: Global, turns_to_come: VecDeque<TurnWork>, room: u64) -> MemoryDesk<O>
        ensures { result ≡ record { turns_to_come = turns_to_come.items; room = room; under_way = None; kept = None; held = []; ended = []; drain = true } }
    {
        MemoryDesk {
            turns_to_come,
            room,
            under_way: None,
            kept: None,
            held: Vec::new(alloc),
            ended: Vec::new(alloc),
            drain: true,
        }
    }

    /// The turns that ended, the first one first.
    pub fn ended(&self) -> &[Ended]
        ensures { result.now ≡ self.now.ended }
    {
        self.ended.as_slice()
    }

    fn fits(&self, work: &TurnWork) -> bool
        ensures { result ≡ fits self.now.held work.now }
    {
        is_holder(self.held.as_slice(), work.instance) == work.needs_object()
    }

    fn is_due(&self) -> bool
        ensures { result ≡ is_due self.now }
    {
        if self.under_way.is_some() {
            return false;
        }
        match self.turns_to_come.front() {
            Some(work) => self.fits(work),
            None => false,
        }
    }
}

impl<O: Drop> Desk<O> for MemoryDesk<O> {
    ghost has_due = { is_due };

    ghost has_room = { λ d. not (d.room == 0) };

    ghost has_drain = { λ d. d.drain };

    ghost running = { λ d number. with_number number d.under_way };

    ghost has_object = { λ d instance. is_holder d.held instance };

    ghost owns = { λ d instance object. object_of d.held instance ≡ Some object };

    ghost kept = { kept_of };

    ghost ready = { λ _. true };

    ghost begins = { Begins };

    ghost hands = { λ before _ after. after ≡ before };

    ghost ends = { EndsAs };

    ghost keeps = { Keeps };

    ghost posts = { Posts };

    fn take(&mut self, alloc: Global) -> Result<Option<TurnWork>, DeskFault> {
        if !self.is_due() {
            return Ok(None);
        }
        if self.room == 0 {
            return Err(DeskFault::JournalFull);
        }
        let kept = match self.turns_to_come.front() {
            Some(work) => work.copy(alloc)?,
            None => unreachable!(),
        };
        let taken = self.turns_to_come.pop_front();
        self.under_way = Some(kept);
        self.kept = None;
        self.room -= 1;
        Ok(taken)
    }

    fn due(&self, _alloc: Global) -> Result<bool, OutOfMemory> {
        Ok(self.is_due())
    }

    fn hand_out(&mut self, _alloc: Global, work: &TurnWork) -> Result<Option<Arc<O>>, OutOfMemory> {
        shared_object(self.held.as_slice(), work.instance)
    }

    fn put_back(&mut self, _alloc: Global, work: TurnWork, ran: Ran<O>) -> Result<(), OutOfMemory>
        requires running { with_number work.number self.old.under_way ≡ Some work }
        requires made { is_some ran.made ≡ makes_object work ran.outcome }
        requires ready { true ≡ true }
        ensures ok { OnOk result (EndsAs self.old work.number ran.outcome self.new) }
        ensures ended { OnOk result (with_number work.number self.new.under_way ≡ None) }
        ensures objects { OnOk result ((instance : ℕ) → is_destroy_of (Some work) instance ≡ false → is_holder self.new.held instance ≡ has_object_after (Some work) (is_some ran.made) (λ other. is_holder self.old.held other) instance) }
        ensures own { OnOk result ((instance : ℕ) (object : O) → object_of self.new.held instance ≡ Some object → (object_of self.old.held instance ≡ Some object) ⊎ IsMadeFor arc_value (Some work) ran.made instance object) }
        ensures err { OnErr result (Keeps self.old (record { work = work; ran = ran }) self.new) }
    {
        if self.held.reserve(1).is_err() || self.ended.reserve(1).is_err() {
            self.kept = Some(ran);
            return Err(AllocError);
        }
        let Ran { outcome, made } = ran;
        keep(&mut self.held, work.instance, made);
        self.ended.push_reserved(Ended {
            number: work.number,
            outcome,
        });
        self.under_way = None;
        self.kept = None;
        self.drain = true;
        Ok(())
    }

    fn put_back_kept(
        &mut self,
        _alloc: Global,
        work: &TurnWork,
    ) -> Result<Option<Outcome>, OutOfMemory> {
        if self.kept.is_none() {
            return Ok(None);
        }
        self.held.reserve(1)?;
        self.ended.reserve(1)?;
        let Some(Ran { outcome, made }) = self.kept.take() else {
            unreachable!();
        };
        keep(&mut self.held, work.instance, made);
        self.ended.push_reserved(Ended {
            number: work.number,
            outcome,
        });
        self.under_way = None;
        self.drain = true;
        Ok(Some(outcome))
    }

    fn post(&mut self, _alloc: Global) -> Result<(), OutOfMemory> {
        self.drain = false;
        Ok(())
    }
}
