//! The steps of a pass, one component configuration after the other.
ghost use Rattle.component_state.specs.Components.{needs_of};
ghost use Rattle.component_state.specs.Inside.Runs.{closing_step, exists_satisfied, noted, nothing_passed, opening_step, passed_one, with_closed, with_opened};
ghost use Rattle.component_state.specs.Passes.{next_after, opened_one, services_in};
ghost use Rattle.component_state.specs.Periods.{opened_at};
ghost use Rattle.component_state.specs.declared.open_period.OpenPeriod.{OpenPeriod};
ghost use Rattle.std.specs.Prelude.{◌≡◌, ◌++◌, ◌∷◌, ◌==◌, [], IfOk, OnOk, filter, if◌then◌else◌, not};

use crate::components::{needs_of, provides_no_service};
use crate::periods::is_open;
use crate::reasons::{may_open, must_close};
use crate::satisfaction::exists_satisfied;
use crate::service_rows::row_in;
use crate::{Component, OpenPeriod, Passed, Stage};
use journal_core::Opened;
use prop_map::{Copies, List, OutOfMemory};
use reference_match::Need;
use std::alloc::{AllocError, Global};
use std::mem;

// A pass that has judged nothing yet.
pub(crate) fn nothing_passed(
    alloc: Global,
    next: u64,
    open_before: &[OpenPeriod],
) -> Result<Passed, OutOfMemory>
    ensures { IfOk result (λ p. p ≡ nothing_passed next open_before.now) }
{
    let open_now = copied(alloc, open_before)?;
    Ok(Passed {
        closed: List::of(Vec::new(alloc)),
        opened: List::of(Vec::new(alloc)),
        open_now,
        satisfied: List::of(Vec::new(alloc)),
        next_service: next,
    })
}

fn copied(alloc: Global, periods: &[OpenPeriod]) -> Result<List<OpenPeriod>, OutOfMemory>
    ensures { IfOk result (λ l. l ≡ periods.now) }
{
    let mut copies = Vec::new(alloc);
    for period in periods {
        copies.push(period.copy(alloc)?)?;
    }
    Ok(List::of(copies))
}

// One component configuration: it is noted where it is satisfied, and closes or opens where it has to.
pub(crate) fn pass_one(
    alloc: Global,
    stage: &Stage,
    component: &Component,
    progress: &mut Passed,
) -> Result<(), OutOfMemory>
    ensures { OnOk result (progress.new ≡ passed_one stage.now progress.old component.now) }
{
    let needs = needs_of(alloc, component)?;
    if is_open(stage.open_before, component.number) {
        closing_step(alloc, stage, component, needs.as_slice(), progress)
    } else {
        opening_step(alloc, stage, component, needs.as_slice(), progress)
    }
}

// What was open closes where it has to.
fn closing_step(
    alloc: Global,
    stage: &Stage,
    component: &Component,
    needs: &[Need],
    progress: &mut Passed,
) -> Result<(), OutOfMemory>
    requires { needs.now ≡ needs_of component.now }
    ensures { OnOk result (progress.new ≡ closing_step stage.now component.now progress.old) }
{
    let open_now = progress.open_now.as_slice();
    let satisfied = exists_satisfied(stage, open_now, component, needs);
    let closes = must_close(alloc, stage, open_now, component, needs, satisfied)?;
    note(component.number, satisfied, progress)?;
    if closes {
        close_one(alloc, component.number, progress)?;
    }
    Ok(())
}

// What wasn't open opens where it may.
fn opening_step(
    alloc: Global,
    stage: &Stage,
    component: &Component,
    needs: &[Need],
    progress: &mut Passed,
) -> Result<(), OutOfMemory>
    requires { needs.now ≡ needs_of component.now }
    ensures { OnOk result (progress.new ≡ opening_step stage.now component.now progress.old) }
{
    let open_now = progress.open_now.as_slice();
    let satisfied = exists_satisfied(stage, open_now, component, needs);
    let opens = may_open(stage, open_now, component, satisfied);
    note(component.number, satisfied, progress)?;
    if opens {
        open_one(alloc, stage, component, progress)?;
    }
    Ok(())
}

// It is noted where it is satisfied.
fn note(number: u64, satisfied: bool, progress: &mut Passed) -> Result<(), OutOfMemory>
    ensures { OnOk result (progress.new ≡ record progress.old { satisfied = if satisfied then progress.old.satisfied ++ number ∷ [] else progress.old.satisfied }) }
{
    if satisfied {
        add(&mut progress.satisfied, number)?;
    }
    Ok(())
}

fn close_one(alloc: Global, number: u64, progress: &mut Passed) -> Result<(), OutOfMemory>
    ensures { OnOk result (progress.new ≡ with_closed number progress.old) }
{
    add(&mut progress.closed, number)?;
    let open_now = mem::replace(&mut progress.open_now, List::of(Vec::new(alloc)));
    progress.open_now = without(open_now, number);
    Ok(())
}

fn without(periods: List<OpenPeriod>, number: u64) -> List<OpenPeriod>
    ensures { result ≡ filter (λ (o : OpenPeriod). not (o.configuration == number)) periods }
{
    let mut items = periods.items();
    items.retain(|period| period.configuration != number);
    List::of(items)
}

fn open_one(
    alloc: Global,
    stage: &Stage,
    component: &Component,
    progress: &mut Passed,
) -> Result<(), OutOfMemory>
    ensures { OnOk result (progress.new ≡ with_opened stage.now.place stage.now.components component.now progress.old) }
{
    let one = opened_one(component, progress.next_service);
    let period = opened_at(alloc, stage.place, stage.components, &one)?;
    progress.next_service = next_after(component, progress.next_service)?;
    add(&mut progress.opened, one)?;
    add(&mut progress.open_now, period)
}

// It opens with the next service number, or with 0 where it registers no service.
fn opened_one(component: &Component, next: u64) -> Opened
    ensures { result ≡ opened_one next component.now }
{
    let service = if provides_no_service(component) {
        0
    } else {
        next
    };
    Opened {
        configuration: component.number,
        service,
    }
}

// The period that an entry at a place opens.
fn opened_at(
    alloc: Global,
    place: u64,
    components: &[Component],
    opened: &Opened,
) -> Result<OpenPeriod, OutOfMemory>
    ensures { IfOk result (λ o. o ≡ opened_at place components.now opened.now) }
{
    let row = row_in(alloc, components, opened.configuration, opened.service, 0)?;
    Ok(OpenPeriod {
        configuration: opened.configuration,
        opened: place,
        row,
    })
}

// The number of the next service after it. Where no number is left, that counts as want of memory.
fn next_after(component: &Component, next: u64) -> Result<u64, OutOfMemory>
    ensures { IfOk result (λ after. after ≡ next_after next component.now) }
{
    if provides_no_service(component) {
        return Ok(next);
    }
    next.checked_add(1).ok_or(AllocError)
}

fn add<T: Drop>(list: &mut List<T>, item: T) -> Result<(), OutOfMemory>
    ensures { OnOk result (list.new ≡ list.old ++ item ∷ []) }
{
    match list.push(item) {
        Ok(()) => Ok(()),
        Err(_) => Err(AllocError),
    }
}
