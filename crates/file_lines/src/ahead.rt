//! What was read ahead, up to the end of a line.
ghost use Rattle.std.specs.Prelude.{◌≡◌, ◌≤◌, [], drop, false, length, take};
ghost use Rattle.std.specs.Io.KnownBytes.{Keeps};
ghost use Rattle.file_lines.specs.Ahead.{EndsLine, FirstLineFeed, NoLineFeed, coming, to_come};

use crate::pending::{FillStep, Pending};
use crate::prompt::Prompt;
use fault_count::Source;
use memchr::memchr;
use std::alloc::Global;
use std::marker::Model;

/// Where the line ends that the bytes read ahead begin, or that they go on with.
#[derive(Clone, Copy, Debug, PartialEq, Eq)]
pub(crate) enum LineEnd {
    /// At the line feed at this place, the first one.
    LineFeed(usize),
    /// Behind these bytes: there is no line feed among them, and they are too many to be held.
    Later,
    /// With these bytes: there is no line feed among them, and the input is at its end.
    Last,
    /// It isn't known: the source failed, or there was no memory.
    Failed,
}

pub(crate) const LINE_FEED: u8 = b'\n';

/// A source with what was read of it ahead.
#[derive(Drop)]
pub(crate) struct Ahead<In, P> {
    input: In,
    prompt: P,
    bytes: Pending,
    ended: bool,
}

impl<In, P> Model for Ahead<In, P> {
    ghost use Rattle.file_lines.specs.Ahead.{ReadAhead};

    ghost Value = { ReadAhead In };

    ghost view = { λ s. record { source = s.input; bytes = s.bytes; is_ended = s.ended } };
}

impl<In, P> Ahead<In, P> {
    /// Nothing was read yet.
    pub(crate) fn new(alloc: Global, input: In, prompt: P) -> Ahead<In, P>
        ensures { result ≡ record { source = input; bytes = []; is_ended = false } }
    {
        Ahead {
            input,
            prompt,
            bytes: Pending::of(Vec::new(alloc)),
            ended: false,
        }
    }

    /// The bytes that were read ahead.
    pub(crate) fn as_slice(&self) -> &[u8]
        ensures { result.now ≡ self.now.bytes }
    {
        self.bytes.as_slice()
    }

    /// Takes so many of them from their front.
    pub(crate) fn take_front(&mut self, count: usize)
        requires { count ≤ length self.old.bytes }
        ensures { self.new ≡ record self.old { bytes = drop count self.old.bytes } }
    {
        self.bytes.take_front(count);
    }

    /// Takes all of them.
    pub(crate) fn take_all(&mut self)
        ensures { self.new ≡ record self.old { bytes = [] } }
    {
        self.bytes.take_all();
    }
}

impl<In: Source, P: Prompt> Ahead<In, P> {
    /// Reads up to the end of the line that the bytes begin or go on with, or up to more bytes than these. What may
    /// still come stays the same.
    pub(crate) fn line_end(&mut self, most: usize) -> LineEnd
        ensures coming { Keeps (coming In.left self.old) (coming In.left self.new) }
        ensures end { EndsLine most self.new.bytes self.new.is_ended result }
    {
        if most > 0 && !self.ended && self.bytes.as_slice().is_empty() {
            self.prompt.show();
        }
        read_to_line_end(&mut self.input, &mut self.bytes, &mut self.ended, most)
    }
}

fn read_to_line_end<In: Source>(
    input: &mut In,
    bytes: &mut Pending,
    ended: &mut bool,
    most: usize,
) -> LineEnd
    ensures coming { Keeps (to_come ended.old bytes.old (In.left input.old))
        (to_come ended.new bytes.new (In.left input.new)) }
    ensures end { EndsLine most bytes.new ended.new result }
{
    let mut searched = 0usize;
    loop {
        if let Some(at) = line_feed_from(bytes.as_slice(), searched) {
            return LineEnd::LineFeed(at);
        }
        searched = bytes.as_slice().len();
        if searched > most {
            return LineEnd::Later;
        }
        if *ended {
            return LineEnd::Last;
        }
        match bytes.fill(input) {
            FillStep::Filled => {}
            FillStep::AtEnd => *ended = true,
            FillStep::Failed => return LineEnd::Failed,
        }
    }
}

// The place of the first line feed, where the first bytes were searched already.
fn line_feed_from(bytes: &[u8], searched: usize) -> Option<usize>
    requires within { searched ≤ length bytes.now }
    requires none { NoLineFeed (take searched bytes.now) }
    ensures { FirstLineFeed bytes.now result }
{
    let (_, rest) = bytes.split_at(searched);
    match first_line_feed(rest) {
        None => None,
        Some(at) => Some(searched + at),
    }
}

fn first_line_feed(bytes: &[u8]) -> Option<usize>
    ensures { FirstLineFeed bytes.now result }
{
    memchr(LINE_FEED, bytes)
}
