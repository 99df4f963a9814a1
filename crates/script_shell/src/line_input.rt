//! The next line of an input that comes in pieces.
ghost use Rattle.std.specs.Prelude.{◌≡◌, ◌+◌, ◌<◌, ◌≤◌, [], ◌∷◌, ◌++◌, drop, false, length, List, ℕ, take, vec_len, MatchOption};
ghost use Rattle.std.specs.Str.Lines.{strip_carriage_return};
ghost use Rattle.script_shell.specs.Reading.{not_yet_read, faults_after_fill, faults_after_line, FirstLineFeed, Fills, LineRead, NextLine, IsShorter, NoLineFeed, IsLastLine, TakesLine};

use fault_count::{ReadStep, Source};
use memchr::memchr;
use prop_map::List;
use std::alloc::{AllocError, Global};
use std::mem;

/// What reading the next line gave.
#[derive(Drop)]
pub enum LineStep {
    /// A line, without its end.
    Line(List<u8>),
    /// The line has more bytes before its end than a line may have.
    TooLong,
    /// There is no further line.
    End,
    /// The source failed.
    Failed,
    /// There was no memory.
    NoMemory,
}

/// What was read ahead.
#[derive(Drop)]
pub struct ReadAhead {
    /// The bytes behind the last line that was taken.
    pub bytes: Vec<u8>,
    /// Whether the end of the input was seen.
    pub ended: bool,
}

impl ReadAhead {
    /// Nothing was read yet.
    pub fn new(alloc: Global) -> ReadAhead
        ensures { (result.bytes.items ≡ []) × (result.ended ≡ false) }
    {
        ReadAhead {
            bytes: Vec::new(alloc),
            ended: false,
        }
    }
}

/// What reading a piece behind the pending bytes gave.
#[derive(Clone, Copy, Debug, PartialEq, Eq)]
pub enum FillStep {
    /// A piece stands behind them.
    Filled,
    /// The source is at its end.
    AtEnd,
    /// The source failed.
    ReadFailed,
    /// There was no memory for the piece.
    FillNoMemory,
}

const LINE_FEED: u8 = b'\n';

const CARRIAGE_RETURN: u8 = b'\r';

// The most bytes that a line may have before its end.
const LONGEST_LINE: usize = 1_048_576;

/// The next line of the bytes that were read ahead and those that the input has left.
pub fn next_line<In: Source>(alloc: Global, ahead: &mut ReadAhead, input: &mut In) -> LineStep
    ensures step { NextLine (not_yet_read ahead.old.ended (In.left input.old)) (not_yet_read ahead.new.ended (In.left input.new)) ahead.old.bytes.items ahead.new.bytes.items result }
    ensures shorter { IsShorter result (In.number input.old + length ahead.old.bytes.items) (In.number input.new + length ahead.new.bytes.items) }
    ensures taken { ahead.new.ended ≡ false → (ahead.old.ended ≡ false) × LineRead (In.left input.old) (In.left input.new) ahead.old.bytes.items ahead.new.bytes.items result }
    ensures unended { result ≡ LineStep.Failed → ahead.new.ended ≡ false }
    ensures faults { In.fault_count input.new ≡ faults_after_line (In.fault_count input.old) result }
{
    let mut searched = 0usize;
    loop {
        if let Some(at) = line_feed_from(&ahead.bytes, searched) {
            return take_line(&mut ahead.bytes, at);
        }
        searched = ahead.bytes.len();
        if searched > LONGEST_LINE {
            return LineStep::TooLong;
        }
        if ahead.ended {
            return last_line(alloc, &mut ahead.bytes);
        }
        match fill(&mut ahead.bytes, input) {
            FillStep::Filled => {}
            FillStep::AtEnd => ahead.ended = true,
            FillStep::ReadFailed => return LineStep::Failed,
            FillStep::FillNoMemory => return LineStep::NoMemory,
        }
    }
}

// The place of the first line feed, where the first bytes were searched already.
fn line_feed_from(bytes: &[u8], searched: usize) -> Option<usize>
    requires within { searched ≤ length bytes.now }
    requires none { NoLineFeed (take searched bytes.now) }
    ensures { FirstLineFeed bytes.now result }
{
    let (_, rest) = bytes.split_at(searched);
    match first_line_feed(rest) {
        None => None,
        Some(at) => Some(searched + at),
    }
}

fn first_line_feed(bytes: &[u8]) -> Option<usize>
    ensures { FirstLineFeed bytes.now result }
{
    memchr(LINE_FEED, bytes)
}

// Takes the line that ends with the line feed at this place.
fn take_line(bytes: &mut Vec<u8>, at: usize) -> LineStep
    requires { at < length bytes.old.items }
    ensures { TakesLine (take at bytes.old.items) (drop (at + 1) bytes.old.items) bytes.new.items result }
{
    if at > LONGEST_LINE {
        return LineStep::TooLong;
    }
    match bytes.split_off(at + 1) {
        Ok(rest) => {
            let mut line = mem::replace(bytes, rest);
            line.pop();
            strip(&mut line);
            LineStep::Line(List::of(line))
        }
        Err(_) => LineStep::NoMemory,
    }
}

// Drops the one carriage return at the end.
fn strip(line: &mut Vec<u8>)
    ensures { line.new.items ≡ strip_carriage_return line.old.items }
{
    let count = line.len();
    if count == 0 {
        return;
    }
    let last = count - 1;
    if line[last] == CARRIAGE_RETURN {
        line.truncate(last);
        return;
    }
}

// What is pending at the end, as a line where it isn't empty.
fn last_line(alloc: Global, bytes: &mut Vec<u8>) -> LineStep
    ensures { IsLastLine bytes.old.items bytes.new.items result }
{
    if bytes.is_empty() {
        LineStep::End
    } else {
        LineStep::Line(List::of(mem::replace(bytes, Vec::new(alloc))))
    }
}

// Reads a piece behind the pending bytes.
fn fill<In: Source>(bytes: &mut Vec<u8>, input: &mut In) -> FillStep
    ensures step { Fills (In.left input.old) (In.left input.new) (In.number input.old) (In.number input.new) bytes.old.items bytes.new.items result }
    ensures faults { In.fault_count input.new ≡ faults_after_fill (In.fault_count input.old) result }
{
    let mut room = [0u8; 4096];
    match input.read(&mut room) {
        ReadStep::Got(count) => {
            let (piece, _) = room.split_at(count);
            match bytes.extend_from_slice(piece) {
                Ok(()) => FillStep::Filled,
                Err(_) => FillStep::FillNoMemory,
            }
        }
        ReadStep::End => FillStep::AtEnd,
        ReadStep::Failed => FillStep::ReadFailed,
    }
}
