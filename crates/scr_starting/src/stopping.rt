//! The stop of a bundle (OSGi Core 8, chapter 4, "Stopping Bundles").
ghost use Rattle.scr_judgements.specs.Judgements.{Judges, JudgesStep};
ghost use Rattle.scr_state.specs.Keeps.{Keeps};
ghost use Rattle.scr_world.specs.Refusals.{refusal};
ghost use Rattle.scr_world.specs.Replies.{has_effect};
ghost use Rattle.scr_world.specs.declared.command.Command.TheVariants.{Stop};
ghost use Rattle.scr_world.specs.declared.step.Step.TheVariants.{Command as Commanded};
ghost use Rattle.std.specs.Prelude.{◌≡◌, None, true};

use crate::known_components::is_active_state;
use crate::remaining_services::without_bundle;
use journal_core::Journal;
use scr_judgements::{Judgement, TablesAfter, change_freely, has_room_for_command};
use scr_state::State;
use scr_world::{CoreFault, Reply, Step};
use std::alloc::Global;

/// Judges the stop of a bundle. An ACTIVE one is STOPPING then, and its direct services are unregistered; any other stays as it
/// is.
///
/// # Errors
/// `NoBundle` where it isn't installed, last `JournalFull`; and want of memory.
pub fn judge_stop(
    alloc: Global,
    journal: &Journal<Step>,
    state: &State,
    step: &Step,
    bundle: u64,
) -> Result<Judgement, CoreFault>
    requires keeps { Keeps journal.now state.now }
    requires command { step.now ≡ Commanded (Stop bundle) }
    ensures judged { Judges journal.now.limit state.now (Stop bundle) result }
{
    match state.world.bundles.state_of(bundle) {
        None => Err(CoreFault::NoBundle { bundle }),
        Some(now) => {
            if !is_active_state(now) {
                return Ok(Judgement::Unchanged(Reply::Done));
            }
            stop_active(alloc, journal, state, step, bundle)
        }
    }
}

// Judges the stop of an ACTIVE bundle.
fn stop_active(
    alloc: Global,
    journal: &Journal<Step>,
    state: &State,
    step: &Step,
    bundle: u64,
) -> Result<Judgement, CoreFault>
    requires keeps { Keeps journal.now state.now }
    requires command { step.now ≡ Commanded (Stop bundle) }
    requires free { refusal state.now.world (Stop bundle) ≡ None }
    requires effect { has_effect state.now.world (Stop bundle) ≡ true }
    ensures { JudgesStep journal.now.limit state.now step.now result }
{
    if !has_room_for_command(journal, state) {
        return Err(CoreFault::JournalFull);
    }
    let registry = without_bundle(alloc, &state.world.registry, bundle)?;
    let mut tables = TablesAfter::none();
    tables.registry = Some(registry);
    change_freely(alloc, journal, state, step, Reply::Done, tables)
}
