//! Why an open component configuration closes, and when one may open (OSGi Compendium 8, chapter 112, "Satisfied",
//! "Modification", "Reference Policy", "Reference Policy Option").
ghost use Rattle.component_state.specs.Components.{needs_of};
ghost use Rattle.component_state.specs.Inside.Misled.{is_misled, is_outdated};
ghost use Rattle.component_state.specs.Inside.ByNeeds.{chose_outdated_by, is_wrong};
ghost use Rattle.component_state.specs.Inside.Runs.{exists_satisfied, has_life, may_open, must_close};
ghost use Rattle.component_state.specs.Passes.{services_in};
ghost use Rattle.component_state.specs.Reasons.{has_untold_change};
ghost use Rattle.reference_match.specs.Targets.{is_static, targets};
ghost use Rattle.std.specs.List.{list_any};
ghost use Rattle.std.specs.Prelude.{◌≡◌, ◌==◌, IfOk, map};

use crate::choices::choice_at;
use crate::components::is_changed_at;
use crate::number_lists::{has_all, same_set};
use crate::periods::is_current;
use crate::{Choice, Component, OpenPeriod, Origin, Stage};
use prop_map::{OutOfMemory, Policy, PolicyOption, has};
use reference_match::{Need, chosen, standing_targets};
use std::alloc::Global;

// Whether what was open before the entry has to close where these are open: it has ceased or isn't satisfied, its
// creation or activation ended without success, or a living instance of it is misled.
pub(crate) fn must_close(
    alloc: Global,
    stage: &Stage,
    open_now: &[OpenPeriod],
    component: &Component,
    needs: &[Need],
    satisfied: bool,
) -> Result<bool, OutOfMemory>
    requires needs { needs.now ≡ needs_of component.now }
    requires satisfied { satisfied ≡ exists_satisfied (services_in stage.now open_now.now) component.now }
    ensures { IfOk result (λ b. b ≡ must_close stage.now (services_in stage.now open_now.now) component.now) }
{
    if !satisfied || has(stage.failing, component.number) {
        return Ok(true);
    }
    some_misled(alloc, stage, stage.origins, open_now, component, needs)
}

// Whether what wasn't open may open: it is satisfied, isn't failed and has no living instance.
pub(crate) fn may_open(
    stage: &Stage,
    open_now: &[OpenPeriod],
    component: &Component,
    satisfied: bool,
) -> bool
    requires { satisfied ≡ exists_satisfied (services_in stage.now open_now.now) component.now }
    ensures { result ≡ may_open stage.now (services_in stage.now open_now.now) component.now }
{
    satisfied && !has(stage.failed, component.number) && !has_life(stage.origins, component.number)
}

fn has_life(origins: &[&Origin], number: u64) -> bool
    ensures { result ≡ has_life (map (λ o. o.now) origins.now) number }
{
    is_any_of(origins, number)
}

fn is_any_of(origins: &[&Origin], number: u64) -> bool
    ensures { result ≡ list_any (λ o. o.now.configuration == number) origins.now }
{
    origins.iter().any(|origin| origin.configuration == number)
}

fn some_misled(
    alloc: Global,
    stage: &Stage,
    origins: &[&Origin],
    open_now: &[OpenPeriod],
    component: &Component,
    needs: &[Need],
) -> Result<bool, OutOfMemory>
    requires { needs.now ≡ needs_of component.now }
    ensures { IfOk result (λ b. b ≡ list_any (is_misled stage.now.place stage.now.open_before (services_in stage.now open_now.now) component.now) (map (λ o. o.now) origins.now)) }
{
    for &origin in origins {
        if is_misled(alloc, stage, open_now, component, needs, origin)? {
            return Ok(true);
        }
    }
    Ok(false)
}

// Whether it is a living instance of the component configuration that was made with other properties and isn't told of
// it, or that is of its open period and chose what is outdated.
#[tactic(auto, using(crate::proofs::ByNeeds::by_needs))]
fn is_misled(
    alloc: Global,
    stage: &Stage,
    open_now: &[OpenPeriod],
    component: &Component,
    needs: &[Need],
    origin: &Origin,
) -> Result<bool, OutOfMemory>
    requires { needs.now ≡ needs_of component.now }
    ensures { IfOk result (λ b. b ≡ is_misled stage.now.place stage.now.open_before (services_in stage.now open_now.now) component.now origin.now) }
{
    if origin.configuration != component.number {
        return Ok(false);
    }
    if has_untold_change(stage.place, component) {
        return Ok(true);
    }
    if !is_current(stage.open_before, origin) {
        return Ok(false);
    }
    chose_outdated(alloc, stage, open_now, needs, origin.chosen.as_slice())
}

// Whether its properties changed in the entry at a place, and it names no callback that is told of it.
fn has_untold_change(place: u64, component: &Component) -> bool
    ensures { result ≡ has_untold_change place component.now }
{
    is_changed_at(place, component) && component.description.get().modified.is_none()
}

// Whether one of these choices is outdated.
fn chose_outdated(
    alloc: Global,
    stage: &Stage,
    open_now: &[OpenPeriod],
    needs: &[Need],
    choices: &[Choice],
) -> Result<bool, OutOfMemory>
    ensures { IfOk result (λ b. b ≡ chose_outdated_by (services_in stage.now open_now.now) needs.now choices.now) }
{
    for (place, need) in needs.iter().enumerate() {
        if is_wrong(alloc, stage, open_now, choices, place as u64, need)? {
            return Ok(true);
        }
    }
    Ok(false)
}

// Whether the choice for the reference at an index is outdated: only that for a static one can be.
fn is_wrong(
    alloc: Global,
    stage: &Stage,
    open_now: &[OpenPeriod],
    choices: &[Choice],
    index: u64,
    need: &Need,
) -> Result<bool, OutOfMemory>
    ensures { IfOk result (λ b. b ≡ is_wrong (services_in stage.now open_now.now) choices.now (index, need.now)) }
{
    if !is_static(need.policy) {
        return Ok(false);
    }
    let services = targets_in(alloc, stage, open_now, need)?;
    is_outdated(alloc, need, choice_at(choices, index), &services)
}

// The services that a need can take where these are open, the best first.
fn targets_in(
    alloc: Global,
    stage: &Stage,
    open_now: &[OpenPeriod],
    need: &Need,
) -> Result<Vec<u64>, OutOfMemory>
    ensures { IfOk result (λ v. v.items ≡ targets need.now (services_in stage.now open_now.now)) }
{
    standing_targets(alloc, need, stage.direct, open_now)
}

fn is_static(policy: Policy) -> bool
    ensures { result ≡ is_static policy }
{
    matches!(policy, Policy::Static)
}

// Whether a chosen service is no target, or the reference is greedy and would choose others now.
fn is_outdated(
    alloc: Global,
    need: &Need,
    choice: &[u64],
    services: &[u64],
) -> Result<bool, OutOfMemory>
    ensures { IfOk result (λ b. b ≡ is_outdated need.now choice.now services.now) }
{
    if !has_all(services, choice) {
        return Ok(true);
    }
    if !matches!(need.option, PolicyOption::Greedy) {
        return Ok(false);
    }
    let best = chosen(alloc, need, services)?;
    Ok(!same_set(choice, &best))
}
