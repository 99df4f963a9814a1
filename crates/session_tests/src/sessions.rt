//! One session on a platform.
ghost use Rattle.session_shell.specs.Halls.{AreWithinGreatest, IsOf, KeepsPass};

use crate::samples::{DemoHall, IMMEDIATE, LIMITS, PROVIDER, new_hall, sink, source};
use fault_count::{MemorySink, MemorySource};
use scr_world::Limits;
use session_shell::{HallPass, SessionEnd, SessionKind, SessionNotes, serve_session};
use std::alloc::Global;
use std::sync::Wait;

// How a session ends, how many items it notes, and what it writes.
#[derive(Drop)]
pub(crate) struct Ended {
    end: SessionEnd,
    items: usize,
    output: MemorySink,
}

impl Ended {
    // Whether it ended so, with so many items.
    pub(crate) fn is_at(&self, end: SessionEnd, items: usize) -> bool {
        self.end == end && self.items == items
    }

    // Whether it ended so, with so many items, and wrote this.
    fn is(&self, end: SessionEnd, items: usize, text: &[u8]) -> bool {
        self.is_at(end, items) && self.output.written() == text
    }
}

// Serves a session.
pub(crate) fn serve<R: Wait>(
    rt: &R,
    alloc: Global,
    hall: &DemoHall,
    pass: &mut HallPass,
    input: MemorySource,
    output: MemorySink,
) -> Ended
    requires { IsOf hall.now pass.old }
    ensures of { IsOf hall.now pass.new }
    ensures keeps { KeepsPass pass.old.front pass.new.front }
{
    let mut notes = SessionNotes::new(alloc);
    let mut input = input;
    let mut output = output;
    let end = serve_session(
        rt,
        alloc,
        hall,
        pass,
        SessionKind::Shell,
        &mut notes,
        &mut input,
        &mut output,
    );
    Ended {
        end,
        items: notes.items.as_slice().len(),
        output,
    }
}

// A session on a new hall.
fn served<R: Wait>(
    rt: &R,
    alloc: Global,
    limits: Limits,
    input: Option<MemorySource>,
    output: Option<MemorySink>,
) -> Option<Ended>
    requires { AreWithinGreatest limits }
{
    let input = input?;
    let output = output?;
    let (hall, mut pass) = new_hall(alloc, limits)?;
    Some(serve(rt, alloc, &hall, &mut pass, input, output))
}

// Whether a session of these lines ends so, notes so many items, and writes this.
fn is_served<R: Wait>(
    rt: &R,
    alloc: Global,
    limits: Limits,
    lines: &[&str],
    ended: (SessionEnd, usize, &[u8]),
) -> bool
    requires { AreWithinGreatest limits }
{
    let input = source(alloc, lines, &[]);
    let output = sink(alloc, &[]);
    match served(rt, alloc, limits, input, output) {
        Some(session) => session.is(ended.0, ended.1, ended.2),
        None => false,
    }
}

#[test]
fn nothing_is_settled_for_a_line(rt: HostRuntime) {
    let lines = [
        IMMEDIATE,
        "start 1",
        "components",
        "# nothing",
        "settle",
        "components",
        "quit",
        "bundles",
    ];
    let replies = b"ok bundle 1\nok\nok 1\n1 m 4\nok turns 2\nok 1\n1 m 8\n";
    assert!(rt;
        is_served(
            &rt,
            rt.alloc(),
            LIMITS,
            &lines,
            (SessionEnd::Quit, 5, replies)
        )
    );
}

#[test]
fn lines_that_no_session_carries_out_are_refused(rt: HostRuntime) {
    let lines = [
        "begin",
        "finish 1",
        "call 1 1 x",
        "http GET / x",
        "install @file",
        "start 1",
        "none",
    ];
    let replies =
        b"refused NotManual\nrefused NotManual\nrefused NotBuilt\nrefused NotBuilt\nrefused NoFile\nrefused NoBundle 1\nrefused UnknownCommand\n";
    assert!(rt;
        is_served(
            &rt,
            rt.alloc(),
            LIMITS,
            &lines,
            (SessionEnd::EndOfInput, 7, replies)
        )
    );
}

#[test]
fn what_is_there_is_told_to_a_session(rt: HostRuntime) {
    let lines = [
        "config A {}",
        "configs",
        "configuration A",
        "listeners",
        "journal",
        "list",
        "service 1",
        "descriptions 1",
        "details 1",
        "graph",
    ];
    let replies =
        b"ok\nok 1\nA - -\nok {\"service.pid\":\"A\"}\nok 0\nok 1 0 100\nok 0\nrefused NoService 1\nrefused NoBundle 1\nrefused NoComponent 1\nok 2\ndigraph osgi {\n}\n";
    assert!(rt;
        is_served(
            &rt,
            rt.alloc(),
            LIMITS,
            &lines,
            (SessionEnd::EndOfInput, 10, replies)
        )
    );
}

#[test]
fn a_settle_runs_as_many_turns_as_the_limit_says(rt: HostRuntime) {
    let limits = Limits {
        journal: 100,
        turns: 1,
    };
    let lines = [IMMEDIATE, "start 1", "settle", "settle", "settle"];
    let replies = b"ok bundle 1\nok\nok turns 1\nok turns 1\nok turns 0\n";
    assert!(rt;
        is_served(
            &rt,
            rt.alloc(),
            limits,
            &lines,
            (SessionEnd::EndOfInput, 5, replies)
        )
    );
}

#[test]
fn a_full_journal_ends_a_session(rt: HostRuntime) {
    let limits = Limits {
        journal: 1,
        turns: 100,
    };
    let lines = [PROVIDER, "bundles", "start 1", "bundles"];
    let replies = b"ok bundle 1\nok 1\n1 2 p 0.0.0\n";
    assert!(rt;
        is_served(
            &rt,
            rt.alloc(),
            limits,
            &lines,
            (SessionEnd::JournalFull, 2, replies)
        )
    );
}

// Whether a session in which these reads and writes fail ends so, notes so many items, and writes this.
fn is_failed<R: Wait>(
    rt: &R,
    alloc: Global,
    failing: (&[u64], &[u64]),
    ended: (SessionEnd, usize, &[u8]),
) -> bool {
    let lines = [IMMEDIATE, "start 1", "components", "bundles"];
    let input = source(alloc, &lines, failing.0);
    let output = sink(alloc, failing.1);
    match served(rt, alloc, LIMITS, input, output) {
        Some(session) => session.is(ended.0, ended.1, ended.2),
        None => false,
    }
}

#[test]
fn a_sink_that_fails_in_the_third_reply_ends_a_session(rt: HostRuntime) {
    let ended: (SessionEnd, usize, &[u8]) = (SessionEnd::WriteFault, 3, b"ok bundle 1\nok\nok 1\n");
    assert!(rt; is_failed(&rt, rt.alloc(), (&[], &[5]), ended));
}

#[test]
fn a_source_that_fails_ends_a_session(rt: HostRuntime) {
    let ended: (SessionEnd, usize, &[u8]) = (SessionEnd::ReadFault, 0, b"");
    assert!(rt; is_failed(&rt, rt.alloc(), (&[1], &[]), ended));
}

// How a session of these bytes ends.
fn served_bytes<R: Wait>(rt: &R, alloc: Global, bytes: Vec<u8>) -> Option<Ended> {
    let input = MemorySource::new(bytes, 4096, Vec::new(alloc));
    served(rt, alloc, LIMITS, Some(input), sink(alloc, &[]))
}

#[test]
fn a_last_line_counts_without_its_end(rt: HostRuntime) {
    let ended = match b"bundles".to_vec(rt.alloc()) {
        Ok(bytes) => served_bytes(&rt, rt.alloc(), bytes),
        Err(_) => None,
    };
    assert!(rt; ended.is_some_and(|session| session.is(SessionEnd::EndOfInput, 1, b"ok 0\n")));
}

// A line of seven bytes with its end, and behind it another one, of so many bytes together.
fn long_line(alloc: Global, together: usize) -> Option<Vec<u8>> {
    let mut bytes = b"bundles\n".to_vec(alloc).ok()?;
    bytes.resize(together, b'x').ok()?;
    Some(bytes)
}

#[test]
fn a_line_that_is_too_long_ends_a_session(rt: HostRuntime) {
    let ended = match long_line(rt.alloc(), 8 + 1_048_577) {
        Some(bytes) => served_bytes(&rt, rt.alloc(), bytes),
        None => None,
    };
    let end = SessionEnd::LineTooLong { line: 2 };
    assert!(rt; ended.is_some_and(|session| session.is(end, 1, b"ok 0\n")));
}
