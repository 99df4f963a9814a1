//! The turns of a journal, kept beside it by number (our own).
ghost use Rattle.scr_readers.specs.Turns.{AreCounted};
ghost use Rattle.scr_world.specs.Legal.{IsLegal};
ghost use Rattle.scr_world.specs.Steps.{History};
ghost use Rattle.scr_world.specs.TurnLines.{ended_line, turn_lines};
ghost use Rattle.scr_world.specs.declared.lines.TurnLine.{TurnLine};
ghost use Rattle.std.specs.Prelude.{◌≡◌, ℕ, drop, filter, map, nat_lt};

use callback_orders::Outcome;
use scr_world::TurnLine;

/// The turns with a number above this one, of turns that are numbered from 1 on. They aren't copied.
pub fn turns_above(lines: &[TurnLine], number: u64) -> &[TurnLine]
    requires { AreCounted 1 lines.now }
    ensures { result.now ≡ filter (λ (line : TurnLine). nat_lt number line.turn) lines.now }
{
    lines_behind(lines, number)
}

/// The turn of this number has ended so, of turns that are numbered from 1 on. It takes no memory.
pub fn end_turn(lines: &mut [TurnLine], turn: u64, outcome: Outcome)
    requires { AreCounted 1 lines.old }
    ensures { lines.new ≡ map (ended_line turn outcome) lines.old }
{
    if turn != 0 && turn <= lines.len() as u64 {
        lines[(turn - 1) as usize].outcome = Some(outcome);
    }
}

/// For contracts alone: the turns of every legal journal are numbered from 1 on.
pub fn note_turn_lines()
    ensures { (limit : ℕ) → (past : History) → IsLegal limit past → AreCounted 1 (turn_lines past) }
{}

fn lines_behind(lines: &[TurnLine], position: u64) -> &[TurnLine]
    ensures { result.now ≡ drop position lines.now }
{
    if position < lines.len() as u64 {
        return &lines[position as usize..];
    }
    &lines[lines.len()..]
}
