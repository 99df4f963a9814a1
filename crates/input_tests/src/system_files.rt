//! Files of the system, from the working folder.

use crate::readings::gives;
use fault_count::MemorySource;
use file_lines::{FileLines, NoPrompt, StandardPrompt, StdFiles};
use std::alloc::Global;
use std::fs;
use std::io::Eprint;
use std::rt::Files;
use std::test::Fail;

fn hands_on<R: Files + Eprint>(alloc: Global, rt: &R, lines: Vec<u8>, handed: &[u8]) -> bool {
    let input = MemorySource::new(lines, 4096, Vec::new(alloc));
    let prompt = StandardPrompt::new(rt, false);
    let mut source = FileLines::new(alloc, input, StdFiles::new(rt), prompt);
    gives(alloc, &mut source, 1000, handed, 0)
}

// Whether lines are handed on so, over the files that a runtime reaches, with a prompt that isn't wanted.
fn hands<R: Files + Eprint>(alloc: Global, rt: &R, lines: &[u8], handed: &[u8]) -> bool {
    match Vec::from_slice(alloc, lines) {
        Ok(lines) => hands_on(alloc, rt, lines, handed),
        Err(_) => false,
    }
}

#[test]
fn a_path_begins_in_the_working_folder(rt: HostRuntime) -> Result<(), Fail> {
    fs::write(
        &rt,
        "greeter of input_tests.json",
        "{\"location\":\r\n\"g\"}\n",
    )?;
    let is_handed = hands(
        rt.alloc(),
        &rt,
        b"install @greeter of input_tests.json\n",
        b"install {\"location\":  \"g\"} \n",
    );
    fs::remove_file(&rt, "greeter of input_tests.json")?;
    assert!(rt; is_handed);
    Ok(())
}

const NOT_READ: &[u8] = b"install @not-there.json\nupdate 1 @.\ninstall @\n";

#[test]
fn what_cannot_be_read_is_handed_on_as_it_is(rt: HostRuntime) {
    assert!(rt; hands(rt.alloc(), &rt, NOT_READ, NOT_READ));
}
