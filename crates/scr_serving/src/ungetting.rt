//! A service is released that was got for a bundle (OSGi Core 8, chapter 5, "Releasing Services").
ghost use Rattle.bundle_life.specs.Lives.{bundle_of};
ghost use Rattle.scr_judgements.specs.Judgements.{Judges};
ghost use Rattle.scr_state.specs.Keeps.{Keeps};
ghost use Rattle.scr_world.specs.Refusals.{refusal, refuse_if};
ghost use Rattle.scr_world.specs.declared.command.Command.TheVariants.{Unget};
ghost use Rattle.scr_world.specs.declared.reply.CoreFault.TheVariants.{NoBundle, NotUsing};
ghost use Rattle.scr_world.specs.declared.step.Step.TheVariants.{Command as Commanded};
ghost use Rattle.std.specs.Prelude.{◌≡◌, ◌<◌, ◌+◌, ◌==◌, IfOk, is_none};
ghost use Rattle.use_counts.specs.Uses.{after_unget, holder_count, use_count};
ghost use Rattle.use_counts.specs.declared.uses.Holder.TheVariants.{Shell};

use crate::counted::Counted;
use crate::drafts::uses_after;
use crate::registered::refusal_of_unregistered;
use bundle_life::Bundles;
use journal_core::Journal;
use prop_map::{Copies, OutOfMemory};
use scr_judgements::{Judgement, draft_with, has_room_for_command};
use scr_state::State;
use scr_world::{CoreFault, Reply, Step, World};
use std::alloc::Global;
use use_counts::{Holder, UseCounts};

/// What is said of a command that releases a service: how often the bundle uses it then.
///
/// # Errors
/// `NoBundle`, then `NoService` where the service isn't registered or is the platform's own, `NotUsing` where no command got it for
/// the bundle, or it was released as often, `JournalFull`, and want of memory.
pub fn judge_unget(
    alloc: Global,
    journal: &Journal<Step>,
    state: &State,
    step: &Step,
    bundle: u64,
    service: u64,
) -> Result<Judgement, CoreFault>
    requires keeps { Keeps journal.now state.now }
    requires command { step.now ≡ Commanded (Unget bundle service) }
    ensures judged { Judges journal.now.limit state.now (Unget bundle service) result }
{
    if let Some(fault) = refusal_of_unget(&state.world, bundle, service) {
        return Err(fault);
    }
    if !has_room_for_command(journal, state) {
        return Err(CoreFault::JournalFull);
    }
    let after = without_get(alloc, &state.world.uses, bundle, service)?;
    let reply = Reply::Uses(after.count);
    let draft = draft_with(alloc, state, step, uses_after(after.uses))?;
    Ok(Judgement::Changes { reply, draft })
}

fn refusal_of_unget(world: &World, bundle: u64, service: u64) -> Option<CoreFault>
    ensures { result ≡ refusal world.now (Unget bundle service) }
{
    refusal_of_unknown(&world.bundles, bundle)
        .or(refusal_of_unregistered(world, service))
        .or(refusal_of_unused(&world.uses, bundle, service))
}

fn refusal_of_unknown(bundles: &Bundles, bundle: u64) -> Option<CoreFault>
    ensures { result ≡ refuse_if (is_none (bundle_of bundles.now.rows bundle)) (NoBundle bundle) }
{
    if bundles.bundle(bundle).is_some() {
        return None;
    }
    Some(CoreFault::NoBundle { bundle })
}

// No command got it for the bundle that didn't release it.
fn refusal_of_unused(uses: &UseCounts, bundle: u64, service: u64) -> Option<CoreFault>
    ensures { result ≡ refuse_if (holder_count Shell bundle service uses.now == 0) NotUsing }
{
    if uses.count_of(bundle, service, Holder::Shell) > 0 {
        return None;
    }
    Some(CoreFault::NotUsing)
}

// The gets with one less of the shell.
fn without_get(
    alloc: Global,
    uses: &UseCounts,
    bundle: u64,
    service: u64,
) -> Result<Counted, OutOfMemory>
    requires { 0 < holder_count Shell bundle service uses.now }
    ensures uses { IfOk result (λ after. after.uses ≡ after_unget bundle service Shell uses.now) }
    ensures count { IfOk result (λ after. after.count + 1 ≡ use_count bundle service uses.now) }
{
    let mut uses = uses.copy(alloc)?;
    match uses.unget(bundle, service, Holder::Shell) {
        Ok(count) => Ok(Counted { uses, count }),
        Err(_) => unreachable!(),
    }
}
