//! The gets that stand (OSGi Core 8, chapter 5, "Unregistering Services"; chapter 4, "Stopping Bundles"): those of registered
//! services for ACTIVE bundles. They are asked only where one may have ended.
ghost use Rattle.component_state.specs.Rows.{rows_of};
ghost use Rattle.prop_map.specs.Words.{has, is_empty};
ghost use Rattle.scr_consequences.specs.Gets.{AreStanding, HaveStood, is_stop, stands, token_stands, use_stands};
ghost use Rattle.scr_consequences.specs.Lefts.{left_between};
ghost use Rattle.scr_world.specs.Lists.{is_active_bundle, tokens_in, uses_in};
ghost use Rattle.scr_world.specs.Worlds.{is_registered};
ghost use Rattle.scr_world.specs.declared.world.World.{World};
ghost use Rattle.service_registry.specs.Services.{ids};
ghost use Rattle.std.specs.List.{Contains};
ghost use Rattle.std.specs.Prelude.{◌≡◌, ◌<◌, ◌||◌, ℕ, IfNone, IfOk, IfSome, false, filter, is_some, length, not};
ghost use Rattle.use_counts.specs.declared.uses.UseRow.{UseRow};

use crate::registered::{is_registered_with, opened_numbers};
use crate::sorted_numbers::SortedNumbers;
use prop_map::{Copies, List, OutOfMemory};
use scr_world::{Command, Step, Token, World, is_active_bundle};
use service_registry::ServiceRow;
use std::alloc::Global;
use use_counts::{UseCounts, UseRow};

/// Gets that stand.
#[derive(Drop)]
pub struct StandingGets {
    /// By the shell and by token, counted for each service and bundle.
    pub uses: UseCounts,
    /// Those by token.
    pub tokens: List<Token>,
}

// Whether a get of a service for a bundle stands.
#[tactic(auto, unfolding(crate::specs::Gets::stands))]
fn stands(now: &World, opened: &SortedNumbers, service: u64, bundle: u64) -> bool
    requires { (number : ℕ) → has opened.now number ≡ has (ids (rows_of now.now.open_periods)) number }
    ensures { result ≡ stands now.now service bundle }
{
    is_registered_with(now, opened, service) && is_active_bundle(&now.bundles, bundle)
}

// A get that doesn't stand, if there is one.
#[tactic(auto, using(crate::proofs::FilterLemmas::there_at))]
fn first_ended(now: &World, opened: &SortedNumbers, uses: &[UseRow]) -> Option<UseRow>
    requires { (number : ℕ) → has opened.now number ≡ has (ids (rows_of now.now.open_periods)) number }
    ensures none { IfNone result (filter (use_stands now.now) uses.now ≡ uses.now) }
    ensures some { IfSome result (λ row. (use_stands now.now row ≡ false) × Contains uses.now row) }
{
    for row in uses {
        if !stands(now, opened, row.service, row.bundle) {
            return Some(*row);
        }
    }
    None
}

// Ends the gets of a bundle that isn't ACTIVE.
#[tactic(auto, using(crate::proofs::GetLemmas::without_bundle_stand, crate::proofs::GetLemmas::without_bundle_fewer))]
fn end_of_bundle(now: &World, row: &UseRow, uses: &mut UseCounts)
    requires { is_active_bundle now.now row.now.bundle ≡ false }
    ensures kept { filter (use_stands now.now) uses.new ≡ filter (use_stands now.now) uses.old }
    ensures less { Contains uses.old row.now → length uses.new < length uses.old }
{
    uses.release_bundle(row.bundle);
}

// Ends the gets of a service that isn't registered.
#[tactic(auto, using(crate::proofs::GetLemmas::without_service_stand, crate::proofs::GetLemmas::without_service_fewer))]
fn end_of_service(now: &World, row: &UseRow, uses: &mut UseCounts)
    requires { is_registered now.now row.now.service ≡ false }
    ensures kept { filter (use_stands now.now) uses.new ≡ filter (use_stands now.now) uses.old }
    ensures less { Contains uses.old row.now → length uses.new < length uses.old }
{
    uses.release_service(row.service);
}

// Ends the gets that end with one that doesn't stand.
#[tactic(auto, using(crate::proofs::GetLemmas::ends_for_bundle))]
fn end_like(now: &World, opened: &SortedNumbers, row: &UseRow, uses: &mut UseCounts)
    requires known { (number : ℕ) → has opened.now number ≡ has (ids (rows_of now.now.open_periods)) number }
    requires ended { use_stands now.now row.now ≡ false }
    ensures kept { filter (use_stands now.now) uses.new ≡ filter (use_stands now.now) uses.old }
    ensures less { Contains uses.old row.now → length uses.new < length uses.old }
{
    if is_registered_with(now, opened, row.service) {
        end_of_bundle(now, row, uses);
    } else {
        end_of_service(now, row, uses);
    }
}

// Ends the gets that don't stand. It takes no memory.
fn end_others(now: &World, opened: &SortedNumbers, uses: &mut UseCounts)
    requires { (number : ℕ) → has opened.now number ≡ has (ids (rows_of now.now.open_periods)) number }
    ensures { uses.new ≡ filter (use_stands now.now) uses.old }
{
    while let Some(row) = first_ended(now, opened, uses.rows()) {
        end_like(now, opened, &row, uses);
    }
}

// The gets that stand in a world: those of registered services for ACTIVE bundles, by service, then by bundle.
#[tactic(auto, unfolding(crate::specs::Gets::stands))]
fn uses_in(alloc: Global, now: &World) -> Result<UseCounts, OutOfMemory>
    ensures { IfOk result (λ uses. uses ≡ uses_in now.now) }
{
    let mut uses = now.uses.copy(alloc)?;
    if uses.rows().is_empty() {
        return Ok(uses);
    }
    let opened = opened_numbers(alloc, now)?;
    end_others(now, &opened, &mut uses);
    Ok(uses)
}

// Those of these gets by token that stand.
fn tokens_standing(
    alloc: Global,
    now: &World,
    opened: &SortedNumbers,
    tokens: &[Token],
) -> Result<List<Token>, OutOfMemory>
    requires { (number : ℕ) → has opened.now number ≡ has (ids (rows_of now.now.open_periods)) number }
    ensures { IfOk result (λ found. found ≡ filter (token_stands now.now) tokens.now) }
{
    let mut found = Vec::new(alloc);
    for token in tokens {
        if stands(now, opened, token.service, token.bundle) {
            found.push(*token)?;
        }
    }
    Ok(List::of(found))
}

// The gets by token that stand in a world, by place.
#[tactic(auto, unfolding(crate::specs::Gets::stands))]
fn tokens_in(alloc: Global, now: &World) -> Result<List<Token>, OutOfMemory>
    ensures { IfOk result (λ tokens. tokens ≡ tokens_in now.now) }
{
    let tokens = now.tokens.as_slice();
    if tokens.is_empty() {
        return Ok(List::of(Vec::new(alloc)));
    }
    let opened = opened_numbers(alloc, now)?;
    tokens_standing(alloc, now, &opened, tokens)
}

// Whether a get may end with a step, where these services left with it: a stop takes a bundle out of ACTIVE.
fn may_end(step: &Step, left: &[ServiceRow]) -> bool
    ensures { result ≡ (is_stop step.now || not (is_empty left.now)) }
{
    matches!(step, Step::Command(Command::Stop { .. })) || !left.is_empty()
}

/// The gets that a step leaves in the world that it led to, where these services left with it: none are answered where
/// all stand that there are. They are asked one by one only where a service left or a bundle is stopped.
///
/// # Errors
/// Only want of memory.
pub fn gets_left(
    alloc: Global,
    step: &Step,
    left: &[ServiceRow],
    now: &World,
) -> Result<Option<StandingGets>, OutOfMemory>
    ensures told { IfOk result (λ gets. is_some gets ≡ (is_stop step.now || not (is_empty left.now))) }
    ensures standing { IfOk result (λ gets. (was : World) → HaveStood step.now was now.now → left.now ≡ left_between was now.now
        → AreStanding now.now gets) }
{
    if may_end(step, left) {
        return Ok(Some(StandingGets {
            uses: uses_in(alloc, now)?,
            tokens: tokens_in(alloc, now)?,
        }));
    }
    Ok(None)
}
