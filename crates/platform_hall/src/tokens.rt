//! What a desk keeps: the tokens of turns, and the objects of instances.
ghost use Rattle.platform_hall.specs.Desks.{holders_of, is_holder, object_of, tokens_of};
ghost use Rattle.std.specs.Arc.{arc_value};
ghost use Rattle.std.specs.List.{find};
ghost use Rattle.std.specs.Option.{option_copied};
ghost use Rattle.std.specs.Prelude.{◌≡◌, ◌⊎◌, ◌==◌, ◌<◌, ◌≤◌, ◌+◌, ◌&&◌, ◌||◌, ℕ, Some, IfOk, MatchOption, not, is_some, option_map, vec_len, vec_capacity, filter, length, slice_index};
ghost use Rattle.prop_map.specs.Words.{one_if};

use crate::held::Held;
use prop_map::OutOfMemory;
use scr_requests::Turn;
use std::sync::Arc;

// The place of a token of this turn, of which there is one.
fn place_of(turns: &[Turn], number: u64) -> usize
    requires { 0 < tokens_of turns.now number }
    ensures within { result < length turns.now }
    ensures place { slice_index turns.now result ≡ number }
{
    for (index, turn) in turns.iter().enumerate() {
        if turn.number() == number {
            return index;
        }
    }
    unreachable!()
}

// Takes a token of this turn out, of which there is one.
pub(crate) fn take_out(turns: &mut Vec<Turn>, number: u64) -> Turn
    requires { 0 < tokens_of turns.old.items number }
    ensures turn { result ≡ number }
    ensures others { (turn : ℕ) → tokens_of turns.old.items turn ≡ tokens_of turns.new.items turn + one_if (number == turn) }
    ensures room { vec_len turns.new < vec_capacity turns.new }
{
    let place = place_of(turns, number);
    turns.swap_remove(place)
}

fn first_held<O>(held: &[Held<O>], instance: u64) -> Option<&Held<O>>
    ensures { option_copied result ≡ find (λ one. one.instance == instance) held.now }
{
    held.iter().find(|one| one.instance == instance)
}

// What holds the object of an instance, the first one.
pub(crate) fn held_object<O>(held: &[Held<O>], instance: u64) -> Option<&Held<O>>
    ensures some { is_some result ≡ is_holder held.now instance }
    ensures first { option_copied result ≡ find (λ one. one.instance == instance) held.now }
{
    first_held(held, instance)
}

// The object of an instance, shared once more.
pub(crate) fn shared_object<O>(
    held: &[Held<O>],
    instance: u64,
) -> Result<Option<Arc<O>>, OutOfMemory>
    ensures has { IfOk result (λ object. is_some object ≡ is_holder held.now instance) }
    ensures own { IfOk result (λ object. MatchOption object (Unit {0}) (λ o. object_of held.now instance ≡ Some (arc_value o))) }
{
    match held_object(held, instance) {
        Some(one) => Ok(Some(Arc::try_clone(&one.object)?)),
        None => Ok(None),
    }
}

// Lets the object of an instance go.
pub(crate) fn let_go<O: Drop>(held: &mut Vec<Held<O>>, instance: u64)
    ensures { held.new.items ≡ filter (λ one. not (one.instance == instance)) held.old.items }
{
    held.retain(|one| one.instance != instance);
}

fn keep_made<O: Drop>(held: &mut Vec<Held<O>>, instance: u64, made: Option<Arc<O>>)
    requires { vec_len held.old < vec_capacity held.old }
    ensures holders { (n : ℕ) → is_holder held.new.items n ≡ (is_holder held.old.items n || (is_some made && (instance == n))) }
    ensures few { (n : ℕ) → holders_of held.new.items n ≤ holders_of held.old.items n + one_if (is_some made && (instance == n)) }
    ensures own { (n : ℕ) (object : O) → object_of held.new.items n ≡ Some object → (object_of held.old.items n ≡ Some object) ⊎ ((instance ≡ n) × (option_map (λ m. arc_value m) made ≡ Some object)) }
{
    if let Some(object) = made {
        held.push_reserved(Held { instance, object });
    }
}

// Keeps the object that was made, and lets that of an instance that was destroyed go.
pub(crate) fn keep<O: Drop>(
    held: &mut Vec<Held<O>>,
    instance: u64,
    made: Option<Arc<O>>,
    is_destroyed: bool,
)
    requires { vec_len held.old < vec_capacity held.old }
    ensures holders { (n : ℕ) → is_holder held.new.items n ≡ ((is_holder held.old.items n || (is_some made && (instance == n))) && not (is_destroyed && (instance == n))) }
    ensures few { (n : ℕ) → holders_of held.new.items n ≤ holders_of held.old.items n + one_if (is_some made && (instance == n)) }
    ensures own { (n : ℕ) (object : O) → object_of held.new.items n ≡ Some object → (object_of held.old.items n ≡ Some object) ⊎ ((instance ≡ n) × (option_map (λ m. arc_value m) made ≡ Some object)) }
{
    keep_made(held, instance, made);
    if is_destroyed {
        let_go(held, instance);
    }
}
