//! All that a command makes of the component configurations, where the documents and configurations after it are known: which
//! bundles are ACTIVE then follows from the command (OSGi Core 8, chapter 4, "Bundle State").
ghost use Rattle.bundle_life.specs.Lives.{in_state};
ghost use Rattle.component_state.specs.ComponentConfigurations.{component_configurations};
ghost use Rattle.config_admin.specs.declared.configuration.Configuration.{Configuration};
ghost use Rattle.prop_map.specs.Words.{has};
ghost use Rattle.scr_judgements.specs.Asked.{IsAskedAfter, IsOfLegal, is_command, state_given};
ghost use Rattle.scr_judgements.specs.Given.{rows_given};
ghost use Rattle.scr_world.specs.Stepping.{component_configurations_by};
ghost use Rattle.scr_world.specs.Tables.{bundle_rows, configurations_by, documents_by};
ghost use Rattle.scr_world.specs.Worlds.{satisfied_in};
ghost use Rattle.std.specs.Prelude.{◌≡◌, ◌+◌, ℕ, IfOk, true};

use crate::Asked;
use crate::asked::asked_for_bundles;
use crate::bundle_states::{bundle_views, bundle_views_with};
use bundle_life::{BundleState, Bundles};
use component_state::BundleView;
use config_admin::Configuration;
use prop_map::OutOfMemory;
use scr_world::{Command, Contents, Step, World};
use std::alloc::Global;

/// A state that a command gives a bundle.
#[derive(Clone, Copy, Drop)]
pub(crate) struct StateGiven {
    /// The number of the bundle.
    pub(crate) bundle: u64,
    /// How far it is then.
    pub(crate) state: BundleState,
}

/// What a command makes of the component configurations and of what hangs on them, where the documents and the configurations
/// are those after it, and `satisfied` has those that were satisfied before it, in any order.
///
/// # Errors
/// Only want of memory.
#[tactic(auto, using(crate::proofs::Given::given_asks))]
pub(crate) fn asked_after(
    alloc: Global,
    world: &World,
    satisfied: &[u64],
    step: &Step,
    documents: &[Contents],
    configurations: &[Configuration],
) -> Result<Asked, OutOfMemory>
    requires command { is_command step.now ≡ true }
    requires legal { IsOfLegal world.now }
    requires satisfied { (number : ℕ) → has satisfied.now number ≡ has (satisfied_in world.now) number }
    requires documents { documents.now ≡ documents_by step.now (world.now.bundles.numbered + 1) world.now.documents }
    requires configurations { configurations.now ≡ configurations_by step.now world.now.configurations }
    ensures { IfOk result (λ asked. IsAskedAfter step.now world.now asked) }
{
    let views = views_after(alloc, &world.bundles, step, documents)?;
    asked_for_bundles(
        alloc,
        world,
        satisfied,
        step,
        views.as_slice(),
        configurations,
    )
}

fn views_after<'w>(
    alloc: Global,
    bundles: &Bundles,
    step: &Step,
    documents: &'w [Contents],
) -> Result<Vec<BundleView<'w>>, OutOfMemory>
    ensures { IfOk result (λ views. views.items ≡ bundle_rows (rows_given (state_given step.now) bundles.now.rows) documents.entry.now) }
{
    match state_given(step) {
        Some(given) => bundle_views_with(alloc, bundles, given.bundle, given.state, documents),
        None => bundle_views(alloc, bundles, documents),
    }
}

fn state_given(step: &Step) -> Option<StateGiven>
    ensures { result ≡ state_given step.now }
{
    match step {
        Step::Command(command) => state_given_by(command),
        _ => None,
    }
}

fn state_given_by(command: &Command) -> Option<StateGiven>
    ensures { result ≡ state_given (Step.Command command.now) }
{
    let (bundle, state) = match command {
        Command::Update { bundle, .. } => (*bundle, BundleState::Installed),
        Command::Start { bundle } => (*bundle, BundleState::Active),
        Command::Stop { bundle } => (*bundle, BundleState::Stopping),
        _ => return None,
    };
    Some(StateGiven { bundle, state })
}
