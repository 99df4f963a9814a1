//! Connections over memory.

use fault_count::{MemorySink, MemorySource};
use http_front::{AnswerStop, Answered, Answerer, ConnectionEnd, Request, serve_connection};
use prop_map::List;
use std::alloc::Global;
use std::sync::Wait;

// Answers each request with its body, and counts them.
#[derive(Drop)]
struct Echo {
    asked: u64,
}

impl Answerer for Echo {
    ghost use Rattle.std.specs.Prelude.{⊤};

    ghost answers = { λ _ _ _ _. ⊤ };

    fn answer<R: Wait>(
        &mut self,
        _rt: &R,
        alloc: Global,
        request: &Request,
    ) -> Result<Answered, AnswerStop> {
        self.asked = self.asked.saturating_add(1);
        match request.body.as_slice().to_vec(alloc) {
            Ok(body) => Ok(Answered {
                status: 200,
                service: 7,
                body: List::of(body),
                last: request.last,
                head_only: request.head_only,
            }),
            Err(_) => Err(AnswerStop::OutOfMemory),
        }
    }
}

// The items, or nothing where there is no memory.
fn given<T: Copy + Drop>(alloc: Global, items: &[T]) -> Vec<T> {
    match items.to_vec(alloc) {
        Ok(items) => items,
        Err(_) => Vec::new(alloc),
    }
}

/// What a connection is over: its bytes, in such pieces, and which reads and writes fail.
#[derive(Clone, Copy)]
struct Line<'l> {
    bytes: &'l [u8],
    piece: usize,
    reads: &'l [u64],
    writes: &'l [u64],
}

/// What is to be written.
#[derive(Clone, Copy)]
enum Written<'w> {
    /// Whatever it is.
    Any,
    /// This.
    All(&'w [u8]),
    /// So many bytes.
    Count(usize),
    /// Something with this end.
    End(&'w [u8]),
    /// An answer of this status first.
    Status(&'w str),
}

impl Written<'_> {
    fn is(&self, written: &[u8]) -> bool {
        match self {
            Written::Any => true,
            Written::All(wanted) => written == *wanted,
            Written::Count(count) => written.len() == *count,
            Written::End(end) => written.ends_with(end),
            Written::Status(status) => begins_with_status(written, status),
        }
    }
}

fn begins_with_status(written: &[u8], status: &str) -> bool {
    match written.strip_prefix(b"HTTP/1.1 ") {
        Some(line) => line.starts_with(status.as_bytes()),
        None => false,
    }
}

/// What a connection is to come to: its end, how many requests were asked where that is told, and what is written.
#[derive(Clone, Copy)]
struct Wanted<'w> {
    end: ConnectionEnd,
    asked: Option<u64>,
    written: Written<'w>,
}

// Whether a connection comes to this.
fn comes_to<R: Wait>(rt: &R, alloc: Global, line: &Line<'_>, wanted: &Wanted<'_>) -> bool {
    let mut answerer = Echo { asked: 0 };
    let mut input = MemorySource::new(
        given(alloc, line.bytes),
        line.piece,
        given(alloc, line.reads),
    );
    let mut output = MemorySink::new(65_536, given(alloc, line.writes));
    let end = serve_connection(rt, alloc, &mut answerer, &mut input, &mut output);
    end == wanted.end
        && wanted.asked.unwrap_or(answerer.asked) == answerer.asked
        && wanted.written.is(output.written())
}

const REQUESTS: &[u8] =
    b"GET /s HTTP/1.1\r\nHost: h\r\n\r\nPOST /s HTTP/1.1\r\nHost: h\r\nTransfer-Encoding: chunked\r\n\r\n3\r\nabc\r\n0\r\n\r\nGET /s HTTP/1.1\r\n\r\n";

const ANSWERS: &[u8] =
    b"HTTP/1.1 200 OK\r\nservice-id: 7\r\ncontent-type: text/plain; charset=utf-8\r\ncontent-length: 0\r\n\r\nHTTP/1.1 200 OK\r\nservice-id: 7\r\ncontent-type: text/plain; charset=utf-8\r\ncontent-length: 3\r\n\r\nabcHTTP/1.1 400 Bad Request\r\nservice-id: 0\r\ncontent-length: 0\r\nconnection: close\r\n\r\n";

const ANSWERED: Wanted<'_> = Wanted {
    end: ConnectionEnd::Closed,
    asked: Some(2),
    written: Written::All(ANSWERS),
};

// Whether each size of the pieces gives the same answers.
fn pieces_give_the_same<R: Wait>(rt: &R, alloc: Global) -> bool {
    for piece in 1..=REQUESTS.len() {
        let line = Line {
            bytes: REQUESTS,
            piece,
            reads: &[],
            writes: &[],
        };
        if !comes_to(rt, alloc, &line, &ANSWERED) {
            return false;
        }
    }
    true
}

#[test]
fn pieces_change_nothing(rt: HostRuntime) {
    assert!(rt; pieces_give_the_same(&rt, rt.alloc()));
}

const TOGETHER: Line<'_> = Line {
    bytes: REQUESTS,
    piece: 4096,
    reads: &[1],
    writes: &[1],
};

#[test]
fn answers_are_written_together(rt: HostRuntime) {
    assert!(rt; comes_to(&rt, rt.alloc(), &TOGETHER, &ANSWERED));
}

const CUT: Line<'_> = Line {
    bytes: b"GET /s HTTP/1.1\r\nHo",
    piece: 7,
    reads: &[],
    writes: &[],
};

const TRUNCATED: Wanted<'_> = Wanted {
    end: ConnectionEnd::Truncated,
    asked: None,
    written: Written::Count(0),
};

#[test]
fn a_request_that_is_cut_is_not_answered(rt: HostRuntime) {
    assert!(rt; comes_to(&rt, rt.alloc(), &CUT, &TRUNCATED));
}

const FAILING_READ: Line<'_> = Line {
    bytes: REQUESTS,
    piece: 28,
    reads: &[1],
    writes: &[],
};

const READ_FAULT: Wanted<'_> = Wanted {
    end: ConnectionEnd::ReadFault,
    asked: Some(1),
    written: Written::Count(94),
};

#[test]
fn a_read_that_fails_ends_the_connection(rt: HostRuntime) {
    assert!(rt; comes_to(&rt, rt.alloc(), &FAILING_READ, &READ_FAULT));
}

const FAILING_WRITE: Line<'_> = Line {
    bytes: REQUESTS,
    piece: 28,
    reads: &[],
    writes: &[1],
};

const WRITE_FAULT: Wanted<'_> = Wanted {
    end: ConnectionEnd::WriteFault,
    asked: Some(2),
    written: Written::Any,
};

#[test]
fn a_write_that_fails_ends_the_connection(rt: HostRuntime) {
    assert!(rt; comes_to(&rt, rt.alloc(), &FAILING_WRITE, &WRITE_FAULT));
}

const NOTHING: Line<'_> = Line {
    bytes: b"",
    piece: 1,
    reads: &[],
    writes: &[],
};

const END_OF_INPUT: Wanted<'_> = Wanted {
    end: ConnectionEnd::EndOfInput,
    asked: None,
    written: Written::Any,
};

#[test]
fn nothing_is_answered_to_nothing(rt: HostRuntime) {
    assert!(rt; comes_to(&rt, rt.alloc(), &NOTHING, &END_OF_INPUT));
}

const REFUSED: &[(&str, &str)] = &[
    ("GET / HTTP/1.1\r\nHost: h\r\nHost: h\r\n\r\n", "400"),
    (
        "GET / HTTP/1.1\r\nHost: h\r\nContent-Length: x\r\n\r\n",
        "400",
    ),
    (
        "GET / HTTP/1.1\r\nHost: h\r\nContent-Length: 1\r\nTransfer-Encoding: chunked\r\n\r\n",
        "400",
    ),
    ("GET /a/../b HTTP/1.1\r\nHost: h\r\n\r\n", "400"),
    ("GET /%ff HTTP/1.1\r\nHost: h\r\n\r\n", "400"),
    ("GET https://h/ HTTP/1.1\r\nHost: h\r\n\r\n", "400"),
    (
        "GET / HTTP/1.1\r\nHost: h\r\nTransfer-Encoding: chunked\r\n\r\ng\r\n",
        "400",
    ),
    (
        "GET / HTTP/1.1\r\nHost: h\r\nTransfer-Encoding: gzip\r\n\r\n",
        "501",
    ),
    (
        "GET / HTTP/1.1\r\nHost: h\r\nTransfer-Encoding: chunked\r\nTransfer-Encoding: chunked\r\n\r\n",
        "501",
    ),
    (
        "GET / HTTP/1.1\r\nHost: h\r\nContent-Length: 65537\r\n\r\n",
        "413",
    ),
];

// Whether a connection over these bytes comes to this.
fn come_to<R: Wait>(rt: &R, alloc: Global, bytes: &[u8], wanted: &Wanted<'_>) -> bool {
    let line = Line {
        bytes,
        piece: 4096,
        reads: &[],
        writes: &[],
    };
    comes_to(rt, alloc, &line, wanted)
}

// Whether a connection over these bytes is closed behind one answer of this status.
fn is_refused<R: Wait>(rt: &R, alloc: Global, bytes: &[u8], status: &str) -> bool {
    let wanted = Wanted {
        end: ConnectionEnd::Closed,
        asked: Some(0),
        written: Written::Status(status),
    };
    come_to(rt, alloc, bytes, &wanted)
}

fn are_refused<R: Wait>(rt: &R, alloc: Global, rows: &[(&str, &str)]) -> bool {
    for (bytes, status) in rows {
        if !is_refused(rt, alloc, bytes.as_bytes(), status) {
            return false;
        }
    }
    true
}

#[test]
fn bytes_refuse_a_request(rt: HostRuntime) {
    assert!(rt; are_refused(&rt, rt.alloc(), REFUSED));
}

// The bytes of some texts, of which the second one is repeated.
fn repeated(alloc: Global, front: &[u8], part: &[u8], times: u64, end: &[u8]) -> Option<Vec<u8>> {
    let mut bytes = given(alloc, front);
    for _ in 0..times {
        bytes.extend_from_slice(part).ok()?;
    }
    bytes.extend_from_slice(end).ok()?;
    Some(bytes)
}

fn is_too_large<R: Wait>(rt: &R, alloc: Global, bytes: Option<Vec<u8>>) -> bool {
    match bytes {
        Some(bytes) => is_refused(rt, alloc, bytes.as_slice(), "431"),
        None => false,
    }
}

#[test]
fn a_head_with_65_fields_is_refused(rt: HostRuntime) {
    let front = b"GET / HTTP/1.1\r\nHost: h\r\n";
    let bytes = repeated(rt.alloc(), front, b"a: b\r\n", 64, b"\r\n");
    assert!(rt; is_too_large(&rt, rt.alloc(), bytes));
}

#[test]
fn a_head_above_its_limit_is_refused(rt: HostRuntime) {
    let bytes = repeated(rt.alloc(), b"GET /", b"aaaaaaaa", 2048, b"");
    assert!(rt; is_too_large(&rt, rt.alloc(), bytes));
}

const LAST: Wanted<'_> = Wanted {
    end: ConnectionEnd::Closed,
    asked: Some(100),
    written: Written::End(b"connection: close\r\n\r\n"),
};

fn hundredth_is_last<R: Wait>(rt: &R, alloc: Global) -> bool {
    match repeated(alloc, b"", b"GET / HTTP/1.1\r\nHost: h\r\n\r\n", 101, b"") {
        Some(bytes) => come_to(rt, alloc, bytes.as_slice(), &LAST),
        None => false,
    }
}

#[test]
fn the_hundredth_request_is_the_last(rt: HostRuntime) {
    assert!(rt; hundredth_is_last(&rt, rt.alloc()));
}
