//! Gets by token (our own; OSGi Core 8, chapter 5, "Getting Services", "Releasing Services").
ghost use Rattle.component_state.specs.Inside.Ready.{are_apart};
ghost use Rattle.scr_state.specs.Rows.{HasRoomAmong, with_change};
ghost use Rattle.scr_turns.specs.TurnDrafts.{AreGetChanges, AreKnown};
ghost use Rattle.scr_world.specs.Tables.{tokens_by, uses_by, without_token};
ghost use Rattle.scr_world.specs.TurnSteps.{is_turn_step};
ghost use Rattle.scr_world.specs.declared.marks.Token.{Token};
ghost use Rattle.scr_world.specs.declared.step.Step.TheVariants.{Released};
ghost use Rattle.std.specs.List.{position};
ghost use Rattle.std.specs.Option.{option_copied, unwrap_or};
ghost use Rattle.std.specs.Prelude.{◌≡◌, ◌<◌, ◌==◌, IfOk, filter, find, map, not, true};
ghost use Rattle.use_counts.specs.Uses.{after_get, after_unget, holder_count};
ghost use Rattle.use_counts.specs.declared.uses.Holder.TheVariants.{Token as ByToken};

use crate::both::both;
use prop_map::{Copies, OutOfMemory};
use scr_state::RowChange;
use scr_world::{Step, Token, World};
use std::alloc::{AllocError, Global};
use use_counts::{Holder, UseCounts};

/// What a step of a turn makes of the use counts, and of the gets by token.
#[derive(Drop)]
pub(crate) struct GetChanges {
    pub(crate) uses: Option<UseCounts>,
    pub(crate) tokens: RowChange<Token>,
}

/// What a step of a turn makes of the use counts, and of the gets by token.
///
/// # Errors
/// Only want of memory.
pub(crate) fn get_changes(
    alloc: Global,
    world: &World,
    step: &Step,
) -> Result<GetChanges, OutOfMemory>
    requires turn { is_turn_step step.now ≡ true }
    requires known { AreKnown world.now }
    ensures { IfOk result (λ changes. AreGetChanges step.now world.now changes) }
{
    let uses = uses_after(alloc, world, step);
    let tokens = tokens_after(alloc, world, step);
    let (uses, tokens) = both(uses, tokens)?;
    Ok(GetChanges { uses, tokens })
}

// The use counts after a step of a turn, none where it leaves them.
fn uses_after(alloc: Global, world: &World, step: &Step) -> Result<Option<UseCounts>, OutOfMemory>
    requires turn { is_turn_step step.now ≡ true }
    requires known { AreKnown world.now }
    ensures { IfOk result (λ r. unwrap_or r world.now.uses ≡ uses_by step.now world.now.tokens world.now.uses) }
{
    match step {
        Step::Got { bundle, service } => {
            let uses = with_get(alloc, &world.uses, *bundle, *service)?;
            Ok(Some(uses))
        }
        Step::Released { place } => released(alloc, world, *place),
        _ => Ok(None),
    }
}

fn with_get(
    alloc: Global,
    uses: &UseCounts,
    bundle: u64,
    service: u64,
) -> Result<UseCounts, OutOfMemory>
    ensures { IfOk result (λ after. after ≡ after_get bundle service ByToken uses.now) }
{
    if uses.count(bundle, service) == u32::MAX {
        return Err(AllocError);
    }
    let mut after = uses.copy(alloc)?;
    after.get(bundle, service, Holder::Token)?;
    Ok(after)
}

// The use counts once the get of an entry's place is released.
fn released(alloc: Global, world: &World, place: u64) -> Result<Option<UseCounts>, OutOfMemory>
    requires { AreKnown world.now }
    ensures { IfOk result (λ r. unwrap_or r world.now.uses ≡ uses_by (Released place) world.now.tokens world.now.uses) }
{
    match token_at(world.tokens.as_slice(), place) {
        Some(token) => Ok(Some(without_token(alloc, &world.uses, token)?)),
        None => Ok(None),
    }
}

fn token_at(tokens: &[Token], place: u64) -> Option<&Token>
    ensures { option_copied result ≡ find (λ (t : Token). t.place == place) tokens.now }
{
    tokens.iter().find(|token| token.place == place)
}

// The use counts without the get of a token, which is counted.
fn without_token(alloc: Global, uses: &UseCounts, token: &Token) -> Result<UseCounts, OutOfMemory>
    requires { 0 < holder_count ByToken token.now.bundle token.now.service uses.now }
    ensures { IfOk result (λ after. after ≡ without_token uses.now token.now) }
{
    let mut after = uses.copy(alloc)?;
    match after.unget(token.bundle, token.service, Holder::Token) {
        Ok(_) => Ok(after),
        Err(_) => unreachable!(),
    }
}

// What a step of a turn makes of the gets by token.
fn tokens_after(alloc: Global, world: &World, step: &Step) -> Result<RowChange<Token>, OutOfMemory>
    requires known { AreKnown world.now }
    ensures rows { IfOk result (λ r. with_change r world.now.tokens ≡ tokens_by step.now world.now.entries world.now.tokens) }
    ensures room { IfOk result (λ r. HasRoomAmong r world.now.tokens) }
{
    let tokens = world.tokens.as_slice();
    match step {
        Step::Got { bundle, service } => {
            let token = Token {
                place: world.entries,
                bundle: *bundle,
                service: *service,
            };
            let change = RowChange::behind(alloc, tokens, token)?;
            Ok(change)
        }
        Step::Released { place } => {
            let change = without_place(alloc, tokens, *place)?;
            Ok(change)
        }
        _ => Ok(RowChange::Same),
    }
}

// The get of an entry's place goes.
fn without_place(
    alloc: Global,
    tokens: &[Token],
    place: u64,
) -> Result<RowChange<Token>, OutOfMemory>
    requires { are_apart (map (λ (t : Token). t.place) tokens.now) ≡ true }
    ensures rows { IfOk result (λ r. with_change r tokens.now ≡ filter (λ (t : Token). not (t.place == place)) tokens.now) }
    ensures room { IfOk result (λ r. HasRoomAmong r tokens.now) }
{
    match place_among(tokens, place) {
        None => Ok(RowChange::Same),
        Some(row) => {
            let change = RowChange::without(alloc, tokens, row)?;
            Ok(change)
        }
    }
}

// Where the get of an entry's place stands.
fn place_among(tokens: &[Token], place: u64) -> Option<usize>
    ensures { result ≡ position (λ (t : Token). t.place == place) tokens.now }
{
    tokens.iter().position(|token| token.place == place)
}
