//! The start of a bundle (OSGi Core 8, chapter 4, "Starting Bundles"; that it is refused while the bundle is stopping is our own).
ghost use Rattle.scr_judgements.specs.Judgements.{Judges, JudgesStep};
ghost use Rattle.scr_state.specs.Keeps.{Keeps};
ghost use Rattle.scr_world.specs.Refusals.{components_full, refusal};
ghost use Rattle.scr_world.specs.Replies.{has_effect};
ghost use Rattle.scr_world.specs.declared.command.Command.TheVariants.{Start};
ghost use Rattle.scr_world.specs.declared.step.Step.TheVariants.{Command as Commanded};
ghost use Rattle.std.specs.Prelude.{◌≡◌, true};

use crate::contents_after::set_back;
use crate::keeping_instances::lowest_keeping;
use bundle_life::BundleState;
use journal_core::Journal;
use scr_judgements::{Judgement, TablesAfter, change_asking};
use scr_state::State;
use scr_world::{CoreFault, Reply, Step};
use std::alloc::Global;

/// Judges the start of a bundle. An ACTIVE one stays as it is; any other is ACTIVE then, with each of its components enabled as
/// by default.
///
/// # Errors
/// `NoBundle` where it isn't installed, `Stopping` where it is STOPPING, with the lowest instance for which it waits,
/// `ComponentsFull` where its component configurations come and more than 512 would count then, last `JournalFull`; and want of
/// memory.
pub fn judge_start(
    alloc: Global,
    journal: &Journal<Step>,
    state: &State,
    step: &Step,
    bundle: u64,
) -> Result<Judgement, CoreFault>
    requires keeps { Keeps journal.now state.now }
    requires command { step.now ≡ Commanded (Start bundle) }
    ensures judged { Judges journal.now.limit state.now (Start bundle) result }
{
    match state.world.bundles.state_of(bundle) {
        None => Err(CoreFault::NoBundle { bundle }),
        Some(BundleState::Active) => Ok(Judgement::Unchanged(Reply::Done)),
        Some(BundleState::Stopping) => Err(CoreFault::Stopping {
            instance: lowest_keeping(&state.world, bundle),
        }),
        Some(BundleState::Installed | BundleState::Resolved) => {
            start_resting(alloc, journal, state, step, bundle)
        }
    }
}

// Judges the start of a bundle that is neither ACTIVE nor STOPPING.
fn start_resting(
    alloc: Global,
    journal: &Journal<Step>,
    state: &State,
    step: &Step,
    bundle: u64,
) -> Result<Judgement, CoreFault>
    requires keeps { Keeps journal.now state.now }
    requires command { step.now ≡ Commanded (Start bundle) }
    requires refused { refusal state.now.world (Start bundle) ≡ components_full state.now.world (Start bundle) }
    requires effect { has_effect state.now.world (Start bundle) ≡ true }
    ensures { JudgesStep journal.now.limit state.now step.now result }
{
    let documents = set_back(alloc, bundle, state.world.documents.as_slice())?;
    let mut tables = TablesAfter::none();
    tables.documents = Some(documents);
    change_asking(alloc, journal, state, step, Reply::Done, tables)
}
