//! Two sessions on one platform, each in a thread of its own.
ghost use Rattle.session_shell.specs.Halls.{IsOf};
ghost use Rattle.std.specs.Prelude.{◌≡◌, ◌+◌};

use crate::samples::{DemoHall, EMPTY, LIMITS, PROVIDER, new_hall, sink, source};
use crate::sessions::serve;
use fault_count::{MemorySink, MemorySource};
use journal_core::Journal;
use scr_world::{Command, Step};
use session_shell::{HallPass, SessionEnd};
use std::alloc::{AllocError, Global};
use std::sync::Wait;
use std::thread::{Threads, join};

const FIRST: &[&str] = &[PROVIDER, "start 1", "settle", "components"];

const SECOND: &[&str] = &[EMPTY, "settle", "bundles"];

// A source of these lines, and a sink.
fn ends_of(alloc: Global, lines: &[&str]) -> Option<(MemorySource, MemorySink)> {
    let input = source(alloc, lines, &[])?;
    let output = sink(alloc, &[])?;
    Some((input, output))
}

// Serves a session of these lines, gives its pass back, and answers whether each line was answered.
fn serve_whole<R: Wait>(
    rt: &R,
    alloc: Global,
    hall: &DemoHall,
    pass: HallPass,
    lines: &[&str],
) -> (HallPass, bool)
    requires { IsOf hall.now pass }
    ensures of { IsOf hall.now result.0 }
    ensures spare { result.0.front.spare ≡ pass.front.spare }
{
    let mut pass = pass;
    match ends_of(alloc, lines) {
        Some((input, output)) => {
            let ended = serve(rt, alloc, hall, &mut pass, input, output);
            (pass, ended.is_at(SessionEnd::EndOfInput, lines.len()))
        }
        None => (pass, false),
    }
}

// Both sessions, each in a thread of its own.
fn serve_both<R: Threads + Wait + Sync>(
    rt: &R,
    alloc: Global,
    hall: &DemoHall,
    first: HallPass,
    second: HallPass,
) -> ((HallPass, bool), (HallPass, bool))
    requires { IsOf hall.now first × IsOf hall.now second }
    ensures of { IsOf hall.now result.0.0 × IsOf hall.now result.1.0 }
    ensures first { result.0.0.front.spare ≡ first.front.spare }
    ensures second { result.1.0.front.spare ≡ second.front.spare }
{
    join(
        rt,
        move || -> (HallPass, bool)
            requires { IsOf hall.now first }
            ensures { IsOf hall.entry.now result.0 × (result.0.front.spare ≡ first.front.spare) }
        { serve_whole(rt, alloc, hall, first, FIRST) },
        move || -> (HallPass, bool)
            requires { IsOf hall.now second }
            ensures { IsOf hall.entry.now result.0 × (result.0.front.spare ≡ second.front.spare) }
        { serve_whole(rt, alloc, hall, second, SECOND) },
    )
}

// What an entry is, without numbers.
fn push_entry(text: &mut String, step: &Step) -> Result<(), AllocError> {
    match step {
        Step::Command(Command::Install { doc }) => {
            text.push_str(" install ")?;
            text.push_str(doc.location.as_str())
        }
        Step::Command(Command::Start { .. }) => text.push_str(" start"),
        _ => text.push_str(" other"),
    }
}

// The entries of one owner.
fn push_entries(
    text: &mut String,
    journal: &Journal<Step>,
    owners: &[u64],
    owner: u64,
) -> Result<(), AllocError> {
    for (entry, of) in journal.entries().iter().zip(owners.iter()) {
        if *of == owner {
            push_entry(text, &entry.step)?;
        }
    }
    Ok(())
}

// All entries, sorted by owner.
fn entries_text(
    alloc: Global,
    journal: &Journal<Step>,
    owners: &[u64],
    second: u64,
) -> Result<String, AllocError> {
    let mut text = String::new(alloc);
    text.push_str("first:")?;
    push_entries(&mut text, journal, owners, 0)?;
    text.push_str(" second:")?;
    push_entries(&mut text, journal, owners, second)?;
    Ok(text)
}

// Whether the entries are those of the commands of both sessions, each under its session's number.
fn are_theirs(alloc: Global, journal: &Journal<Step>, owners: &[u64], second: u64) -> bool {
    match entries_text(alloc, journal, owners, second) {
        Ok(text) => {
            owners.len() == 3 && text.as_str() == "first: install p start second: install d"
        }
        Err(_) => false,
    }
}

// Whether both sessions are served whole, and the journal has their commands.
fn share<R: Threads + Wait + Sync>(
    rt: &R,
    alloc: Global,
    hall: DemoHall,
    first: HallPass,
    second: HallPass,
) -> bool
    requires of { IsOf hall first × IsOf hall second }
    requires all { first.front.spare + second.front.spare + 1 ≡ 63 }
{
    let number = second.number();
    let ((first, first_is_whole), (second, second_is_whole)) = serve_both(
        rt, alloc, &hall, first, second,
    );
    let pass = hall.join(rt, first, second);
    let (journal, owners) = hall.into_journal(pass);
    first_is_whole && second_is_whole && are_theirs(alloc, &journal, owners.as_slice(), number)
}

fn shared<R: Threads + Wait + Sync>(rt: &R, alloc: Global) -> bool {
    match new_hall(alloc, LIMITS) {
        Some((hall, pass)) => match hall.split(rt, pass) {
            Ok((first, second)) => share(rt, alloc, hall, first, second),
            Err(_) => false,
        },
        None => false,
    }
}

#[test]
fn two_sessions_in_threads_share_one_journal(rt: HostRuntime) {
    assert!(rt; shared(&rt, rt.alloc()));
}
