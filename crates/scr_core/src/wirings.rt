//! Commands that change something, and what the manifests say of needs and offers with them (OSGi Core 8, chapter 3 "Module
//! Layer"; that it is read once is our own).
ghost use Rattle.kept_wirings.specs.KeptRows.{AreKept, HasRoom};
ghost use Rattle.kept_wirings.specs.WiringChanges.{IsChangeBy};
ghost use Rattle.scr_state.specs.Keeps.{IsDraft, Keeps};
ghost use Rattle.scr_world.specs.Calls.{Grown, world_at};
ghost use Rattle.scr_world.specs.Consequences.{shut_between};
ghost use Rattle.scr_world.specs.Legal.{MayCome};
ghost use Rattle.scr_world.specs.Room.{has_room, needed_by};
ghost use Rattle.std.specs.Prelude.{◌≡◌, IfOk, OnErr, OnOk, true};

use crate::generic::let_go;
use journal_core::{GateKey, Journal};
use kept_wirings::{KeptWirings, WiringChange, wiring_change};
use prop_map::{List, OutOfMemory};
use scr_growth::grow;
use scr_judgements::next_bundle;
use scr_state::{Draft, State};
use scr_world::Step;
use std::alloc::Global;

/// Appends the entry of a step whose draft this is, and answers which gates are shut with it. A manifest that comes with it is
/// read before, and kept with the entry.
///
/// # Errors
/// Only want of memory. All is then as it was.
pub(crate) fn grow_wired(
    alloc: Global,
    journal: &mut Journal<Step>,
    state: &mut State,
    wirings: &mut KeptWirings,
    step: Box<Step>,
    draft: Draft,
) -> Result<List<GateKey>, OutOfMemory>
    requires keeps { Keeps journal.old state.old }
    requires may { MayCome state.old.world step.value }
    requires room { has_room journal.old.limit state.old.world (needed_by step.value) ≡ true }
    requires draft { IsDraft state.old step.value draft }
    requires wirings { AreKept state.old.world.documents wirings.old }
    ensures keeps { Keeps journal.new state.new }
    ensures limit { journal.new.limit ≡ journal.old.limit }
    ensures grown { OnOk result (Grown journal.old.limit journal.old.entries step.value journal.new.entries) }
    ensures shut { IfOk result (λ shut. shut ≡ shut_between (world_at journal.old.entries) (world_at journal.new.entries)) }
    ensures as_before { OnErr result (journal.new ≡ journal.old) }
    ensures wirings { AreKept state.new.world.documents wirings.new }
{
    let next = next_bundle(journal, state);
    let change = match prepare(alloc, next, wirings, &step) {
        Ok(change) => change,
        Err(error) => {
            let_go(step);
            let_go(draft);
            return Err(error);
        }
    };
    match grow(alloc, journal, state, step, draft) {
        Ok(shut) => {
            wirings.make(alloc, change);
            Ok(shut)
        }
        Err(error) => {
            let_go(change);
            Err(error)
        }
    }
}

// What a step makes of the needs and offers that are kept, where the next bundle has this number. The memory for it is taken,
// and they are as they were.
fn prepare(
    alloc: Global,
    next: u64,
    wirings: &mut KeptWirings,
    step: &Step,
) -> Result<WiringChange, OutOfMemory>
    ensures bundles { wirings.new.bundles.items ≡ wirings.old.bundles.items }
    ensures faults { wirings.new.faults.items ≡ wirings.old.faults.items }
    ensures change { IfOk result (λ change. IsChangeBy step.now next change) }
    ensures room { IfOk result (λ change. HasRoom change wirings.new) }
{
    let change = wiring_change(alloc, step, next)?;
    wirings.prepare(&change)?;
    Ok(change)
}
