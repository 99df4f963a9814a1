//! What is satisfied where services stand: direct ones, and those of open periods (OSGi Compendium 8, chapter 112,
//! "Satisfied").
ghost use Rattle.component_state.specs.Components.{needs_of};
ghost use Rattle.component_state.specs.Inside.Runs.{exists_satisfied};
ghost use Rattle.component_state.specs.Passes.{services_in};
ghost use Rattle.reference_match.specs.Targets.{is_met};
ghost use Rattle.std.specs.List.{list_all};
ghost use Rattle.std.specs.Prelude.{◌≡◌};

use crate::components::lacks_configuration;
use crate::{Component, OpenPeriod, Stage};
use reference_match::{Need, is_met_standing};

// Whether a component configuration hasn't ceased, has the configuration that its policy asks for, and each of its
// needs has its minimum of targets where these are open.
pub(crate) fn exists_satisfied(
    stage: &Stage,
    open_now: &[OpenPeriod],
    component: &Component,
    needs: &[Need],
) -> bool
    requires { needs.now ≡ needs_of component.now }
    ensures { result ≡ exists_satisfied (services_in stage.now open_now.now) component.now }
{
    component.exists && !lacks_configuration(component) && are_met(stage, open_now, needs)
}

fn are_met(stage: &Stage, open_now: &[OpenPeriod], needs: &[Need]) -> bool
    ensures { result ≡ list_all (is_met (services_in stage.now open_now.now)) needs.now }
{
    needs.iter().all(|need| is_met_in(stage, open_now, need))
}

fn is_met_in(stage: &Stage, open_now: &[OpenPeriod], need: &Need) -> bool
    ensures { result ≡ is_met (services_in stage.now open_now.now) need.now }
{
    is_met_standing(need, stage.direct, open_now)
}
