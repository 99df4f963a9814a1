//! The source of lines that may name files.
ghost use Rattle.std.specs.Prelude.{◌≡◌, ◌<◌, ◌≤◌, ◌++◌, ◌∷◌, [], IfOk, IfSome, IsNone, None, Some};
ghost use Rattle.std.specs.Prelude.{false, length, take, true};
ghost use Rattle.std.specs.Io.KnownBytes.{IsAtEnd, Keeps};
ghost use Rattle.fault_count.specs.Steps.{GivesBytes, LowersNumber, Rose, faults_after_read};
ghost use Rattle.file_lines.specs.Ahead.{coming, most_held, to_come};
ghost use Rattle.file_lines.specs.HandedLines.{next_handed, path_in};
ghost use Rattle.file_lines.specs.Sources.{NeedsNoFile, coming_in, left_in, left_to_hand, new_input, told_on};

use crate::ahead::{Ahead, LINE_FEED, LineEnd};
use crate::handed_line::handed_line;
use crate::named_path::LONGEST_LINE;
use crate::pending::Pending;
use crate::{LineFiles, Prompt};
use fault_count::{ReadStep, Source};
use std::alloc::{AllocError, Global};
use std::marker::Model;

/// A source over another one, whose lines may name files.
///
/// A line `install @FILE` or `update B @FILE`, where B is a number, is handed on with the file's bytes in place of
/// `@FILE`, each carriage return and each line feed of them as a blank, and without the carriage return that may stand
/// before its line feed. The path is the rest of the line, in UTF-8. Where the file can't be read, or the line would have
/// more than 1,048,576 bytes, the line is handed on as it is, and so is every other line. A file is read when its line is
/// handed on, and no file for another line.
///
/// What is held is a line at a time, of at most 1,048,576 bytes and a piece: a longer one is handed on in parts. The
/// prompt is shown before a line is read of which nothing was read ahead. It gives 2^64 - 1 bytes at most. A read fails
/// where one of the other source does, and for want of memory; nothing that was read is lost.
#[derive(Drop)]
pub struct FileLines<In, F, P> {
    alloc: Global,
    ahead: Ahead<In, P>,
    files: F,
    ready: Pending,
    is_within: bool,
    number: u64,
    faults: u64,
}

impl<In, F, P> Model for FileLines<In, F, P> {
    ghost use Rattle.file_lines.specs.Sources.{LineInput};

    ghost Value = { LineInput In F };

    ghost view = { λ s. record {
      source = s.ahead.source;
      files = s.files;
      ready = s.ready;
      ahead = s.ahead.bytes;
      is_within = s.is_within;
      is_ended = s.ahead.is_ended;
      number = s.number;
      fault_count = s.faults;
    } };
}

impl<In: Source, F: LineFiles, P: Prompt> FileLines<In, F, P> {
    /// A source over this one and these files. Nothing was read yet: what it hands on is made of all that the other one
    /// has left.
    pub fn new(alloc: Global, input: In, files: F, prompt: P) -> FileLines<In, F, P>
        ensures made { result ≡ new_input input files }
        ensures left { left_in In.left F.told result ≡ told_on (F.told files) (In.left input) }
    {
        FileLines {
            alloc,
            ahead: Ahead::new(alloc, input, prompt),
            files,
            ready: Pending::of(Vec::new(alloc)),
            is_within: false,
            number: u64::MAX,
            faults: 0,
        }
    }

    // Gives bytes that are ready, and has the next ones ready where none are.
    fn give(&mut self, room: &mut [u8]) -> ReadStep
        requires { 0 < length room.old }
        ensures bytes { GivesBytes (left_in In.left F.told self.old) (left_in In.left F.told self.new) result room.new }
        ensures unread { NeedsNoFile self.old.ready self.old.is_within (coming_in In.left self.old)
            → self.new.files ≡ self.old.files }
        ensures told { F.told self.new.files ≡ F.told self.old.files }
        ensures same { (self.new.number ≡ self.old.number) × (self.new.fault_count ≡ self.old.fault_count) }
    {
        if self.has_ready() {
            give_front(&mut self.ready, room)
        } else {
            ReadStep::Failed
        }
    }

    // Has the next bytes ready where none are. False where a read failed or there was no memory.
    fn has_ready(&mut self) -> bool
        ensures kept { Keeps (left_in In.left F.told self.old) (left_in In.left F.told self.new) }
        ensures end { result ≡ true → self.new.ready ≡ []
            → IsAtEnd (left_to_hand (F.told self.new.files) [] self.new.is_within (coming_in In.left self.new)) }
        ensures unread { NeedsNoFile self.old.ready self.old.is_within (coming_in In.left self.old)
            → self.new.files ≡ self.old.files }
        ensures told { F.told self.new.files ≡ F.told self.old.files }
        ensures same { (self.new.number ≡ self.old.number) × (self.new.fault_count ≡ self.old.fault_count) }
    {
        if !self.ready.as_slice().is_empty() {
            return true;
        }
        match next_text(
            self.alloc,
            &mut self.ahead,
            &mut self.files,
            &mut self.is_within,
        ) {
            Some(text) => {
                self.ready = Pending::of(text);
                true
            }
            None => false,
        }
    }
}

impl<In: Source, F: LineFiles, P: Prompt> Source for FileLines<In, F, P> {
    ghost left = { left_in In.left F.told };

    ghost number = { λ s. s.number };

    ghost fault_count = { λ s. s.fault_count };

    fn read(&mut self, room: &mut [u8]) -> ReadStep
        requires { 0 < length room.old }
        ensures bytes { GivesBytes (left_in In.left F.told self.old) (left_in In.left F.told self.new) result room.new }
        ensures number { LowersNumber self.old.number self.new.number result }
        ensures cause { result ≡ ReadStep.Failed → Rose self.old.fault_count self.new.fault_count }
        ensures later { self.old.fault_count ≤ self.new.fault_count }
        ensures faults { self.new.fault_count ≡ faults_after_read self.old.fault_count result }
        ensures unread { NeedsNoFile self.old.ready self.old.is_within (coming_in In.left self.old)
            → self.new.files ≡ self.old.files }
        ensures told { F.told self.new.files ≡ F.told self.old.files }
    {
        let most = usize::try_from(self.number)
            .unwrap_or(usize::MAX)
            .min(room.len());
        let step = if most == 0 {
            ReadStep::Failed
        } else {
            self.give(&mut room[..most])
        };
        match step {
            ReadStep::Got(count) => self.number -= count as u64,
            ReadStep::End => {}
            ReadStep::Failed => self.faults = self.faults.saturating_add(1),
        }
        step
    }

    fn faults(&self) -> u64 {
        self.faults
    }
}

// The bytes that are handed on next, none where all were; nothing where a read failed or there was no memory.
fn next_text<In: Source, F: LineFiles, P: Prompt>(
    alloc: Global,
    ahead: &mut Ahead<In, P>,
    files: &mut F,
    is_within: &mut bool,
) -> Option<Vec<u8>>
    ensures some { IfSome result (λ text. Keeps
        (left_to_hand (F.told files.old) [] is_within.old (coming In.left ahead.old))
        (left_to_hand (F.told files.new) text.items is_within.new (coming In.left ahead.new))) }
    ensures end { IfSome result (λ text. text.items ≡ []
        → IsAtEnd (left_to_hand (F.told files.new) [] is_within.new (coming In.left ahead.new))) }
    ensures none { IsNone result → Keeps (left_to_hand (F.told files.old) [] is_within.old (coming In.left ahead.old))
        (left_to_hand (F.told files.new) [] is_within.new (coming In.left ahead.new)) }
    ensures told { F.told files.new ≡ F.told files.old }
    ensures unread { NeedsNoFile [] is_within.old (coming In.left ahead.old) → files.new ≡ files.old }
{
    match ahead.line_end(most_held(*is_within)) {
        LineEnd::LineFeed(at) => {
            let (part, _) = ahead.as_slice().split_at(at);
            let text = whole_line(alloc, files, *is_within, part)?;
            ahead.take_front(at + 1);
            *is_within = false;
            Some(text)
        }
        LineEnd::Later => {
            let text = copied(alloc, ahead.as_slice())?;
            ahead.take_all();
            *is_within = true;
            Some(text)
        }
        LineEnd::Last => {
            let text = last_line(alloc, files, *is_within, ahead.as_slice())?;
            ahead.take_all();
            *is_within = true;
            Some(text)
        }
        LineEnd::Failed => None,
    }
}

// How many bytes without a line feed are held.
fn most_held(is_within: bool) -> usize
    ensures { result ≡ most_held is_within }
{
    if is_within { 0 } else { LONGEST_LINE }
}

// A whole line with its line feed, as it is handed on.
fn whole_line<F: LineFiles>(
    alloc: Global,
    files: &mut F,
    is_within: bool,
    part: &[u8],
) -> Option<Vec<u8>>
    ensures text { IfSome result (λ text. IfSome (F.told files.old)
        (λ shelf. text.items ≡ next_handed shelf is_within part.now ++ 10 ∷ [])) }
    ensures some { IfSome result (λ text. 0 < length text.items) }
    ensures told { F.told files.new ≡ F.told files.old }
    ensures unread { (is_within ≡ false → path_in part.now ≡ None) → files.new ≡ files.old }
{
    let mut text = last_line(alloc, files, is_within, part)?;
    match text.push(LINE_FEED) {
        Ok(()) => Some(text),
        Err(_) => None,
    }
}

// What stands before the next line feed, as it is handed on.
fn last_line<F: LineFiles>(
    alloc: Global,
    files: &mut F,
    is_within: bool,
    part: &[u8],
) -> Option<Vec<u8>>
    ensures text { IfSome result (λ text. IfSome (F.told files.old)
        (λ shelf. text.items ≡ next_handed shelf is_within part.now)) }
    ensures told { F.told files.new ≡ F.told files.old }
    ensures unread { (is_within ≡ false → path_in part.now ≡ None) → files.new ≡ files.old }
{
    match next_handed(alloc, files, is_within, part) {
        Ok(text) => Some(text),
        Err(_) => None,
    }
}

fn copied(alloc: Global, bytes: &[u8]) -> Option<Vec<u8>>
    ensures { IfSome result (λ text. text.items ≡ bytes.now) }
{
    match Vec::from_slice(alloc, bytes) {
        Ok(text) => Some(text),
        Err(_) => None,
    }
}

// What stands before the next line feed, as it is handed on: as it is, where a front of its line was handed on.
fn next_handed<F: LineFiles>(
    alloc: Global,
    files: &mut F,
    is_within: bool,
    part: &[u8],
) -> Result<Vec<u8>, AllocError>
    ensures text { IfSome (F.told files.old)
        (λ shelf. IfOk result (λ text. text.items ≡ next_handed shelf is_within part.now)) }
    ensures told { F.told files.new ≡ F.told files.old }
    ensures unread { (is_within ≡ false → path_in part.now ≡ None) → files.new ≡ files.old }
{
    if is_within {
        Vec::from_slice(alloc, part)
    } else {
        handed_line(alloc, files, part)
    }
}

// Gives the first of the bytes that are ready.
fn give_front(ready: &mut Pending, room: &mut [u8]) -> ReadStep
    requires { 0 < length room.old }
    ensures { GivesBytes (Some ready.old) (Some ready.new) result room.new }
{
    let rest = ready.as_slice();
    if rest.is_empty() {
        return ReadStep::End;
    }
    let count = rest.len().min(room.len());
    copy_front(room, rest, count);
    ready.take_front(count);
    ReadStep::Got(count)
}

// Writes the first bytes of these over the front of the room.
fn copy_front(room: &mut [u8], bytes: &[u8], count: usize)
    requires have { count ≤ length bytes.now }
    requires fits { count ≤ length room.old }
    ensures front { take count room.new ≡ take count bytes.now }
    ensures len { length room.new ≡ length room.old }
{
    room[..count].copy_from_slice(&bytes[..count]);
}
