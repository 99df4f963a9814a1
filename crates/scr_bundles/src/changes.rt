//! What a step makes of the table of bundles (OSGi Core 8, chapter 4 "Life Cycle Layer"): the five commands that change it.
ghost use Rattle.bundle_life.specs.Lives.{BundleTable, after_install, after_start, after_uninstall, after_update, bundle_at, is_active, state_is, stop_begun};
ghost use Rattle.bundle_life.specs.Refusals.{install_refusal, start_refusal, stop_refusal, uninstall_refusal, update_refusal};
ghost use Rattle.bundle_life.specs.declared.life_fault.LifeFault.TheVariants.{OutOfMemory as WantOfMemory};
ghost use Rattle.scr_bundles.specs.Changes.{HasBefore, IsSavedOf, MayChange, TakesCommand, TakesStep};
ghost use Rattle.scr_world.specs.Tables.{bundles_by, bundles_by_command};
ghost use Rattle.std.specs.Prelude.{◌≡◌, None, IfOk, IsFalse, OnErr, OnOk, false, true};

use bundle_doc::BundleDoc;
use bundle_life::{Bundles, LifeFault, Saved};
use prop_map::OutOfMemory;
use scr_world::{Command, Step};
use std::alloc::{AllocError, Global};

/// Changes the table as a step does that may come, and hands out what `put_back` undoes it with: nothing where the step
/// leaves the table, as all do but install, update, start, stop and uninstall.
///
/// # Errors
/// Only want of memory. The table is as it was.
pub fn change_bundles(
    alloc: Global,
    bundles: &mut Bundles,
    step: &Step,
) -> Result<Option<Saved>, OutOfMemory>
    requires { MayChange bundles.old step.now }
    ensures ok { OnOk result (bundles.new ≡ bundles_by step.now bundles.old) }
    ensures saved { IfOk result (λ saved. IsSavedOf bundles.old bundles.new saved) }
    ensures err { OnErr result (bundles.new ≡ bundles.old) }
{
    if !is_of_bundles(step) {
        return Ok(None);
    }
    let saved = bundles.save(alloc)?;
    change(alloc, bundles, step)?;
    Ok(Some(saved))
}

/// Undoes a change of the table with what was handed out at it, where the table hasn't changed since. It takes no memory.
pub fn put_back(bundles: &mut Bundles, saved: Option<Saved>)
    requires { HasBefore bundles.old saved }
    ensures { (before : BundleTable) → IsSavedOf before bundles.old saved → bundles.new ≡ before }
{
    if let Some(saved) = saved {
        bundles.go_back(saved);
    }
}

// Whether a step is one of the five commands that change the table.
fn is_of_bundles(step: &Step) -> bool
    ensures { IsFalse result → (t : BundleTable) → bundles_by step.now t ≡ t }
{
    matches!(
        step,
        Step::Command(
            Command::Install { .. }
                | Command::Update { .. }
                | Command::Start { .. }
                | Command::Stop { .. }
                | Command::Uninstall { .. }
        )
    )
}

fn change(alloc: Global, bundles: &mut Bundles, step: &Step) -> Result<(), OutOfMemory>
    requires { TakesStep bundles.old step.now }
    ensures ok { OnOk result (bundles.new ≡ bundles_by step.now bundles.old) }
    ensures err { OnErr result (bundles.new ≡ bundles.old) }
{
    match step {
        Step::Command(command) => run(alloc, bundles, command),
        _ => Ok(()),
    }
}

fn run(alloc: Global, bundles: &mut Bundles, command: &Command) -> Result<(), OutOfMemory>
    requires { TakesCommand bundles.old command.now }
    ensures ok { OnOk result (bundles.new ≡ bundles_by_command command.now bundles.old) }
    ensures err { OnErr result (bundles.new ≡ bundles.old) }
{
    match command {
        Command::Install { doc } => install(alloc, bundles, doc),
        Command::Update { bundle, doc } => update(alloc, bundles, *bundle, doc),
        Command::Start { bundle } => start(bundles, *bundle),
        Command::Stop { bundle } => stop(bundles, *bundle),
        Command::Uninstall { bundle } => uninstall(bundles, *bundle),
        _ => Ok(()),
    }
}

#[tactic(auto, using(crate::proofs::Faults::memory_alone))]
fn install(alloc: Global, bundles: &mut Bundles, doc: &BundleDoc) -> Result<(), OutOfMemory>
    requires new { bundle_at bundles.old.rows doc.now.location ≡ None }
    requires free { install_refusal doc.now.location doc.now.name doc.now.version bundles.old ≡ None }
    ensures ok { OnOk result (bundles.new ≡ after_install doc.now.location doc.now.name doc.now.version bundles.old) }
    ensures err { OnErr result (bundles.new ≡ bundles.old) }
{
    match bundles.install(
        alloc,
        doc.location.as_str(),
        doc.name.as_str(),
        &doc.version,
    ) {
        Ok(_) => Ok(()),
        Err(fault) => Err(want_of_memory(fault)),
    }
}

#[tactic(auto, using(crate::proofs::Faults::memory_alone))]
fn update(
    alloc: Global,
    bundles: &mut Bundles,
    bundle: u64,
    doc: &BundleDoc,
) -> Result<(), OutOfMemory>
    requires { update_refusal bundle doc.now.name doc.now.version bundles.old ≡ None }
    ensures ok { OnOk result (bundles.new ≡ after_update bundle doc.now.name doc.now.version bundles.old) }
    ensures err { OnErr result (bundles.new ≡ bundles.old) }
{
    match bundles.update(alloc, bundle, doc.name.as_str(), &doc.version) {
        Ok(()) => Ok(()),
        Err(fault) => Err(want_of_memory(fault)),
    }
}

#[tactic(auto, using(crate::proofs::Faults::memory_alone))]
fn start(bundles: &mut Bundles, bundle: u64) -> Result<(), OutOfMemory>
    requires rests { state_is is_active bundles.old.rows bundle ≡ false }
    requires free { start_refusal bundle bundles.old ≡ None }
    ensures ok { OnOk result (bundles.new ≡ after_start bundle bundles.old) }
    ensures err { OnErr result (bundles.new ≡ bundles.old) }
{
    match bundles.start(bundle) {
        Ok(()) => Ok(()),
        Err(fault) => Err(want_of_memory(fault)),
    }
}

#[tactic(auto, using(crate::proofs::Faults::memory_alone))]
fn stop(bundles: &mut Bundles, bundle: u64) -> Result<(), OutOfMemory>
    requires active { state_is is_active bundles.old.rows bundle ≡ true }
    requires free { stop_refusal bundle bundles.old ≡ None }
    ensures ok { OnOk result (bundles.new ≡ stop_begun bundle bundles.old) }
    ensures err { OnErr result (bundles.new ≡ bundles.old) }
{
    match bundles.stop(bundle) {
        Ok(()) => Ok(()),
        Err(fault) => Err(want_of_memory(fault)),
    }
}

#[tactic(auto, using(crate::proofs::Faults::memory_alone))]
fn uninstall(bundles: &mut Bundles, bundle: u64) -> Result<(), OutOfMemory>
    requires { uninstall_refusal bundle bundles.old ≡ None }
    ensures ok { OnOk result (bundles.new ≡ after_uninstall bundle bundles.old) }
    ensures err { OnErr result (bundles.new ≡ bundles.old) }
{
    match bundles.uninstall(bundle) {
        Ok(()) => Ok(()),
        Err(fault) => Err(want_of_memory(fault)),
    }
}

// The fault of a call that nothing refuses: want of memory is the only one.
fn want_of_memory(fault: LifeFault) -> OutOfMemory
    requires { fault ≡ WantOfMemory }
{
    match fault {
        LifeFault::OutOfMemory => AllocError,
        LifeFault::NoBundle { .. }
        | LifeFault::WrongState { .. }
        | LifeFault::StillStopping
        | LifeFault::SameName { .. }
        | LifeFault::BundlesFull => unreachable!(),
    }
}
