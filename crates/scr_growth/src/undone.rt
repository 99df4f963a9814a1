//! What is in a world with a draft in it. Where that is the one that brings back what there was, it is what was before.
ghost use Rattle.service_registry.specs.declared.row.ServiceRow.{ServiceRow};
ghost use Rattle.std.specs.List.{AllPairs};
ghost use Rattle.std.specs.Option.{unwrap_or};
ghost use Rattle.std.specs.Prelude.{◌≡◌, ◌<◌};

use component_dto::Description;
use component_state::OpenPeriod;
use prop_map::List;
use scr_state::{Draft, State};
use scr_world::World;
use service_registry::ServiceRow;

/// The direct services of a world with a draft in it.
pub(crate) fn rows_with<'a>(world: &'a World, draft: &'a Draft) -> &'a [ServiceRow]
    ensures rows { result.now ≡ (unwrap_or draft.entry.now.registry world.entry.now.registry).rows }
    ensures ascending { AllPairs (λ (a b : ServiceRow). a.id < b.id) result.now }
{
    match &draft.registry {
        Some(registry) => registry.rows(),
        None => world.registry.rows(),
    }
}

/// What was open before the step, where these are the open periods after it.
pub(crate) fn periods_before<'a>(periods: &'a List<OpenPeriod>, undo: &'a Draft) -> &'a [OpenPeriod]
    ensures { result.now ≡ unwrap_or undo.entry.now.open_periods periods.entry.now }
{
    match &undo.open_periods {
        Some(before) => before.as_slice(),
        None => periods.as_slice(),
    }
}

/// The descriptions after the step.
pub(crate) fn descriptions_after<'a>(state: &'a State, undo: &'a Draft) -> &'a [Description]
    ensures { result.now ≡ unwrap_or undo.entry.now.descriptions state.entry.now.descriptions }
{
    match &undo.descriptions {
        Some(descriptions) => descriptions.as_slice(),
        None => state.descriptions.as_slice(),
    }
}

/// Their levels.
pub(crate) fn levels_after<'a>(state: &'a State, undo: &'a Draft) -> &'a [u32]
    ensures { result.now ≡ unwrap_or undo.entry.now.levels state.entry.now.levels }
{
    match &undo.levels {
        Some(levels) => levels.as_slice(),
        None => state.levels.as_slice(),
    }
}
