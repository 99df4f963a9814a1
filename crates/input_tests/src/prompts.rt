//! What a person at a terminal is shown.

use fault_count::{MemorySource, ReadStep, Source};
use file_lines::{FileLines, MemoryFiles, Prompt};
use std::alloc::Global;
use std::cell::Cell;

// Counts how often it is shown.
#[derive(Drop)]
struct Counted<'c>(&'c Cell<u32>);

impl Prompt for Counted<'_> {
    fn show(&mut self) {
        self.0.set(self.0.get().saturating_add(1));
    }
}

// What each read comes to, and how often the prompt was shown behind it.
const READS: &[(ReadStep, u32)] = &[
    (ReadStep::Got(6), 1),
    (ReadStep::Got(6), 2),
    (ReadStep::Got(2), 3),
    (ReadStep::Got(3), 3),
    (ReadStep::End, 4),
];

fn reads<In: Source>(source: &mut In, shown: &Cell<u32>) -> bool {
    let mut room = [0u8; 64];
    for (step, times) in READS {
        if !(source.read(&mut room) == *step && shown.get() == *times) {
            return false;
        }
    }
    true
}

// Each read gives a line, as a terminal does, and the last one of two.
fn is_shown(alloc: Global, lines: Vec<u8>, shown: &Cell<u32>) -> bool {
    let input = MemorySource::new(lines, 6, Vec::new(alloc));
    let files = MemoryFiles::new(Vec::new(alloc));
    let mut source = FileLines::new(alloc, input, files, Counted(shown));
    reads(&mut source, shown)
}

fn is_shown_in_time(alloc: Global, shown: &Cell<u32>) -> bool {
    match Vec::from_slice(alloc, b"begin\nstart\na\nbb\n") {
        Ok(lines) => is_shown(alloc, lines, shown),
        Err(_) => false,
    }
}

#[test]
fn it_is_shown_before_a_line_of_which_nothing_was_read(rt: HostRuntime) {
    assert!(rt; is_shown_in_time(rt.alloc(), &Cell::new(0)));
}
