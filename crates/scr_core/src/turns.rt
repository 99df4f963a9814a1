//! Turns: taken and ended (OSGi Compendium 8, chapter 112, "Component Life Cycle"; turns are our own).
ghost use Rattle.scr_core.specs.Beginnings.{IsLineOf, IsPrepared};
ghost use Rattle.scr_core.specs.Keeping.{KeepsAll};
ghost use Rattle.scr_core.specs.Steps.{is_beginning, turn_of};
ghost use Rattle.scr_core.specs.Drafting.{IsAlike};
ghost use Rattle.scr_core.specs.Turns.{TakesTurn};
ghost use Rattle.scr_dues.specs.Makings.{IsThatFar};
ghost use Rattle.scr_state.specs.Drafts.{HasRoom, with_draft};
ghost use Rattle.scr_state.specs.Keeps.{IsDraft, IsKept, Keeps};
ghost use Rattle.scr_world.specs.Calls.{EndsTurn, Grown, world_at};
ghost use Rattle.scr_world.specs.Consequences.{shut_between};
ghost use Rattle.scr_world.specs.Dues.{next_begin};
ghost use Rattle.scr_world.specs.Legal.{MayCome, is_under_way};
ghost use Rattle.scr_world.specs.Room.{has_room, needed_by};
ghost use Rattle.scr_world.specs.TurnSteps.{name_in, work_under_way};
ghost use Rattle.scr_world.specs.declared.step.Step.TheVariants.{End};
ghost use Rattle.std.specs.Prelude.{◌≡◌, ◌<◌, IfOk, OnErr, OnOk, Some, true, vec_capacity, vec_len};

use crate::generic::let_go;
use crate::room::has_room;
use crate::steps::boxed;
use crate::turn::{Taken, Turn};
use callback_orders::Outcome;
use journal_core::{GateKey, Journal};
use prop_map::{Copies, List, OutOfMemory, Str};
use scr_consequences::reopened_by;
use scr_dues::{Making, OwnRows, component_in, needed_by, next_begin_from, work_under_way};
use scr_growth::grow;
use scr_readers::end_turn;
use scr_state::{Draft, State, swap_in};
use scr_still::{grow_still, grow_still_end, is_still_end};
use scr_turns::turn_draft;
use scr_world::{CoreFault, Ended, Step, TurnLine, World};
use std::alloc::Global;
use turn_work::TurnWork;

// What is ready before a turn begins.
#[derive(Drop)]
pub(crate) struct Prepared {
    draft: Draft,
    work: TurnWork,
    line: TurnLine,
}

/// Takes the first due turn.
pub(crate) fn take(
    alloc: Global,
    limit: u64,
    own: &OwnRows,
    journal: &mut Journal<Step>,
    state: &mut State,
    lines: &mut Vec<TurnLine>,
    making: &mut Making,
) -> Result<Taken, CoreFault>
    requires keeps { KeepsAll limit journal.old state.old lines.old.items }
    requires far { IsThatFar state.old.world making.old }
    ensures keeps { KeepsAll limit journal.new state.new lines.new.items }
    ensures far { IsThatFar state.new.world making.new }
    ensures answer { TakesTurn limit journal.old.entries result journal.new.entries }
{
    match next_begin_from(alloc, own, &state.world, making)? {
        Some(step) => begin(alloc, limit, own, journal, state, lines, step),
        None => Ok(Taken::Idle),
    }
}

// Begins the turn that begins next.
fn begin(
    alloc: Global,
    limit: u64,
    own: &OwnRows,
    journal: &mut Journal<Step>,
    state: &mut State,
    lines: &mut Vec<TurnLine>,
    step: Box<Step>,
) -> Result<Taken, CoreFault>
    requires keeps { KeepsAll limit journal.old state.old lines.old.items }
    requires next { next_begin state.old.world ≡ Some step.value }
    ensures keeps { KeepsAll limit journal.new state.new lines.new.items }
    ensures answer { TakesTurn limit journal.old.entries result journal.new.entries }
{
    if !has_room(journal, needed_by(&step)) {
        let_go(step);
        return Err(CoreFault::JournalFull);
    }
    let prepared = match prepare(alloc, own, state, &step) {
        Ok(prepared) => prepared,
        Err(_) => {
            let_go(step);
            return Err(CoreFault::OutOfMemory);
        }
    };
    match lines.reserve(1) {
        Ok(()) => {}
        Err(_) => {
            let_go(step);
            let_go(prepared);
            return Err(CoreFault::OutOfMemory);
        }
    }
    begin_prepared(alloc, limit, journal, state, lines, step, prepared)
}

// Begins a turn for which all is ready. The lines have a place for one more.
fn begin_prepared(
    alloc: Global,
    limit: u64,
    journal: &mut Journal<Step>,
    state: &mut State,
    lines: &mut Vec<TurnLine>,
    step: Box<Step>,
    prepared: Prepared,
) -> Result<Taken, CoreFault>
    requires keeps { KeepsAll limit journal.old state.old lines.old.items }
    requires next { next_begin state.old.world ≡ Some step.value }
    requires room { has_room journal.old.limit state.old.world (needed_by step.value) ≡ true }
    requires prepared { IsPrepared state.old step.value prepared }
    requires place { vec_len lines.old < vec_capacity lines.old }
    ensures keeps { KeepsAll limit journal.new state.new lines.new.items }
    ensures answer { TakesTurn limit journal.old.entries result journal.new.entries }
{
    let Prepared { draft, work, line } = prepared;
    match grow_still(alloc, journal, state, step, draft) {
        Ok(()) => {
            lines.push_reserved(line);
            Ok(Taken::Turn(Turn::new(work.number), work))
        }
        Err(_) => {
            let_go(work);
            let_go(line);
            Err(CoreFault::OutOfMemory)
        }
    }
}

// What has to be ready before a turn begins.
fn prepare(
    alloc: Global,
    own: &OwnRows,
    state: &mut State,
    step: &Step,
) -> Result<Prepared, OutOfMemory>
    requires kept { IsKept state.old }
    requires next { next_begin state.old.world ≡ Some step.now }
    ensures state { state.new ≡ state.old }
    ensures prepared { IfOk result (λ p. IsPrepared state.old step.now p) }
{
    let line = line_of(alloc, own, &state.world, step)?;
    let mut draft = match turn_draft(alloc, state, step) {
        Ok(draft) => draft,
        Err(error) => {
            let_go(line);
            return Err(error);
        }
    };
    match work_after(alloc, own, &mut state.world, &mut draft, turn_of(step)) {
        Ok(Some(work)) => Ok(Prepared { draft, work, line }),
        Ok(None) => unreachable!(),
        Err(error) => {
            let_go(line);
            let_go(draft);
            Err(error)
        }
    }
}

// The work of a turn under way, in the world with a draft in it. The draft is swapped in and out again, and is the same then but
// for the room that it has.
fn work_after(
    alloc: Global,
    own: &OwnRows,
    world: &mut World,
    draft: &mut Draft,
    turn: u64,
) -> Result<Option<TurnWork>, OutOfMemory>
    requires room { HasRoom draft.old world.old }
    ensures world { world.new ≡ world.old }
    ensures draft { IsAlike draft.old world.old draft.new }
    ensures work { IfOk result (λ work. work ≡ work_under_way (with_draft draft.old world.old) turn) }
{
    swap_in(alloc, world, draft);
    let work = work_under_way(alloc, own, world, turn);
    swap_in(alloc, world, draft);
    work
}

// The number of the turn that a step begins or ends, 0 for any other step.
fn turn_of(step: &Step) -> u64
    ensures { result ≡ turn_of step.now }
{
    match step {
        Step::Begin { turn, .. } | Step::End { turn, .. } => *turn,
        _ => 0,
    }
}

// The line of a turn that begins.
fn line_of(
    alloc: Global,
    own: &OwnRows,
    world: &World,
    step: &Step,
) -> Result<TurnLine, OutOfMemory>
    requires { is_beginning step.now ≡ true }
    ensures { IfOk result (λ line. IsLineOf step.now world.now line) }
{
    let Step::Begin {
        turn,
        instance,
        configuration,
        callback,
        ..
    } = step
    else {
        unreachable!();
    };
    Ok(TurnLine {
        turn: *turn,
        callback: callback.copy(alloc)?,
        instance: *instance,
        name: name_in(alloc, own, world, *configuration)?,
        outcome: None,
    })
}

// The name of a component configuration, empty where it isn't known.
fn name_in(
    alloc: Global,
    own: &OwnRows,
    world: &World,
    configuration: u64,
) -> Result<Str, OutOfMemory>
    ensures { IfOk result (λ name. name ≡ name_in world.now configuration) }
{
    match component_in(own, world.components.as_slice(), configuration) {
        Some(component) => component.description.get().name.copy(alloc),
        None => Ok(Str::of(String::new(alloc))),
    }
}

/// Ends a turn that is under way.
pub(crate) fn end(
    alloc: Global,
    limit: u64,
    journal: &mut Journal<Step>,
    state: &mut State,
    lines: &mut [TurnLine],
    making: &mut Making,
    turn: u64,
    outcome: Outcome,
) -> Result<Ended, OutOfMemory>
    requires keeps { KeepsAll limit journal.old state.old lines.old }
    requires far { IsThatFar state.old.world making.old }
    requires turn { is_under_way (world_at journal.old.entries) turn ≡ true }
    ensures keeps { KeepsAll limit journal.new state.new lines.new }
    ensures far { IsThatFar state.new.world making.new }
    ensures ok { IfOk result (λ ended. EndsTurn limit journal.old.entries turn outcome ended journal.new.entries) }
    ensures err { OnErr result (journal.new ≡ journal.old) }
{
    let reopened = reopened_by(&state.world, turn, outcome);
    let known = making.after_end(&state.world, turn);
    // This lets the proof know that what is reserved has room.
    let _room = journal.room();
    let step = boxed(alloc, Step::End { turn, outcome })?;
    let draft = match turn_draft(alloc, state, &step) {
        Ok(draft) => draft,
        Err(error) => {
            let_go(step);
            return Err(error);
        }
    };
    let shut = grow_by_end(alloc, journal, state, step, turn, outcome, draft)?;
    end_turn(lines, turn, outcome);
    *making = known;
    Ok(Ended { shut, reopened })
}

// Appends the entry of the end of a turn, whose draft this is, and answers which gates are shut with it. An end without
// consequences needs no pass.
fn grow_by_end(
    alloc: Global,
    journal: &mut Journal<Step>,
    state: &mut State,
    step: Box<Step>,
    turn: u64,
    outcome: Outcome,
    draft: Draft,
) -> Result<List<GateKey>, OutOfMemory>
    requires step { step.value ≡ End turn outcome }
    requires keeps { Keeps journal.old state.old }
    requires may { MayCome state.old.world step.value }
    requires room { has_room journal.old.limit state.old.world (needed_by step.value) ≡ true }
    requires draft { IsDraft state.old step.value draft }
    ensures keeps { Keeps journal.new state.new }
    ensures limit { journal.new.limit ≡ journal.old.limit }
    ensures grown { OnOk result (Grown journal.old.limit journal.old.entries step.value journal.new.entries) }
    ensures shut { IfOk result (λ shut. shut ≡ shut_between (world_at journal.old.entries) (world_at journal.new.entries)) }
    ensures as_before { OnErr result (journal.new ≡ journal.old) }
{
    if is_still_end(state, turn, outcome) {
        let_go(step);
        return grow_still_end(alloc, journal, state, turn, outcome, draft);
    }
    grow(alloc, journal, state, step, draft)
}
