//! The tokens of turns under way, each with its owner.
ghost use Rattle.hall_locked.specs.Owned.{turn_numbers, without_turn};
ghost use Rattle.platform_hall.specs.Desks.{tokens_of};
ghost use Rattle.std.specs.List.{insert, position};
ghost use Rattle.std.specs.Prelude.{◌≡◌, ◌==◌, ◌<◌, ◌≤◌, ℕ, vec_capacity, vec_len};

use scr_core::Turn;

/// A token that was taken out of its place.
#[derive(Drop)]
pub(crate) struct TakenOut {
    /// The place.
    pub(crate) place: usize,
    /// Its owner.
    pub(crate) owner: u64,
    /// The token.
    pub(crate) turn: Turn,
}

// The place of the first token of this turn.
fn place_of(turns: &[(u64, Turn)], number: u64) -> Option<usize>
    ensures { result ≡ position (λ (t : ℕ × ℕ). t.1 == number) turns.now }
{
    turns.iter().position(|begun| begun.1.number() == number)
}

// Takes the token of this turn out, of which there is one.
pub(crate) fn take_out(turns: &mut Vec<(u64, Turn)>, number: u64) -> TakenOut
    requires { tokens_of (turn_numbers turns.old.items) number ≡ 1 }
    ensures turn { result.turn ≡ number }
    ensures left { turns.new.items ≡ without_turn number turns.old.items }
    ensures back { insert turns.new.items result.place (result.owner, result.turn) ≡ turns.old.items }
    ensures place { result.place ≤ vec_len turns.new }
    ensures room { vec_len turns.new < vec_capacity turns.new }
{
    match place_of(turns.as_slice(), number) {
        Some(place) => {
            let taken = turns.remove(place);
            TakenOut {
                place,
                owner: taken.0,
                turn: taken.1,
            }
        }
        None => unreachable!(),
    }
}

// Puts a token into its place again.
pub(crate) fn put_again(turns: &mut Vec<(u64, Turn)>, place: usize, owner: u64, turn: Turn)
    requires place { place ≤ vec_len turns.old }
    requires room { vec_len turns.old < vec_capacity turns.old }
    ensures { turns.new.items ≡ insert turns.old.items place (owner, turn) }
{
    match turns.insert(place, (owner, turn)) {
        Ok(()) => {}
        Err(_) => unreachable!(),
    }
}
