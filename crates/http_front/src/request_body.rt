//! A request's body, behind its head.
ghost use Rattle.std.specs.Prelude.{◌≡◌, ◌<◌, ◌≤◌, IfOk, [], IfErr, drop, length, take};
ghost use Rattle.http_wire.specs.BodyReading.{ReadsBody};
ghost use Rattle.http_wire.specs.declared.messages.BodyRead.TheVariants.{More as LessBody};
ghost use Rattle.http_front.specs.Faults.{read_faults_with, write_faults_with};
ghost use Rattle.http_front.specs.Flows.{flow, HasCome, HasEnded, HasEnough, Stops, Waits};
ghost use Rattle.http_front.specs.Requests.{ComesBehind, ComesChunked, ComesSized, request_of};

use crate::connection::ConnectionEnd;
use crate::wire::{Wire, get_more};
use fault_count::{Sink, Source};
use http_wire::{BodyRead, ChunkReader, Framing, Head, Request};
use prop_map::{List, OutOfMemory};
use std::alloc::Global;

/// What a connection's bytes come to next.
#[derive(Drop)]
pub(crate) enum Coming {
    /// There is no further byte.
    NoMore,
    /// Less than a request, and nothing behind it.
    Cut,
    Asked(Request),
    /// A request that its bytes refuse, with the status of its answer.
    Refused(u16),
}

// The most bytes of a body.
const MOST_BODY: u64 = 65_536;

// The most requests of a connection.
const MOST_REQUESTS: u64 = 100;

// The request with this head and this body.
fn request_of(number: u64, head: Head, body: List<u8>) -> Request
    ensures { result ≡ request_of number head body }
{
    let Head {
        method,
        target,
        path,
        head_only,
        last,
        length: _,
        framing: _,
    } = head;
    Request {
        method,
        target,
        path,
        body,
        head_only,
        last: last || number == MOST_REQUESTS,
    }
}

// Takes the first bytes away.
fn drop_front(bytes: &mut Vec<u8>, count: usize)
    requires { count ≤ length bytes.old.items }
    ensures { bytes.new.items ≡ drop count bytes.old.items }
{
    let left = bytes.len() - count;
    bytes.copy_within(count.., 0);
    bytes.truncate(left);
}

// Whether so many bytes stand behind this place, once they were waited for.
fn await_behind<I: Source, O: Sink>(
    at: usize,
    size: usize,
    wire: &mut Wire,
    input: &mut I,
    output: &mut O,
) -> Result<bool, ConnectionEnd>
    requires { at ≤ length wire.old.pending.items }
    ensures ok { IfOk result (λ all. HasEnough all at size (flow (I.left input.old) (O.written output.old) wire.old) (flow (I.left input.new) (O.written output.new) wire.new)) }
    ensures err { IfErr result (λ end. Stops (λ bytes. length (drop at bytes) < size) end (flow (I.left input.old) (O.written output.old) wire.old) (flow (I.left input.new) (O.written output.new) wire.new)) }
    ensures reads { I.fault_count input.new ≡ read_faults_with (I.fault_count input.old) result }
    ensures writes { O.fault_count output.new ≡ write_faults_with (O.fault_count output.old) result }
{
    while wire.pending.len() - at < size {
        match get_more(wire, input, output) {
            Ok(true) => {}
            Ok(false) => return Ok(false),
            Err(end) => return Err(end),
        }
    }
    Ok(true)
}

// What the bytes behind this place begin with, read as a chunked body; less than one only at the end of the input.
fn await_chunks<I: Source, O: Sink>(
    alloc: Global,
    at: usize,
    wire: &mut Wire,
    input: &mut I,
    output: &mut O,
) -> Result<BodyRead, ConnectionEnd>
    requires { at ≤ length wire.old.pending.items }
    ensures ok { IfOk result (λ read. Waits (flow (I.left input.old) (O.written output.old) wire.old) (flow (I.left input.new) (O.written output.new) wire.new)
        × ReadsBody (drop at wire.new.pending.items) read × (read ≡ LessBody → HasEnded (flow (I.left input.old) (O.written output.old) wire.old) (flow (I.left input.new) (O.written output.new) wire.new))) }
    ensures err { IfErr result (λ end. Stops (λ bytes. ReadsBody (drop at bytes) LessBody) end (flow (I.left input.old) (O.written output.old) wire.old) (flow (I.left input.new) (O.written output.new) wire.new)) }
    ensures reads { I.fault_count input.new ≡ read_faults_with (I.fault_count input.old) result }
    ensures writes { O.fault_count output.new ≡ write_faults_with (O.fault_count output.old) result }
{
    let mut reader = ChunkReader::new(alloc);
    let mut seen = at;
    loop {
        let (_, piece) = wire.pending.split_at(seen);
        let read = match reader.read(piece) {
            Ok(read) => read,
            Err(_) => return Err(ConnectionEnd::NoMemory),
        };
        match read {
            BodyRead::More => {}
            _ => return Ok(read),
        }
        seen = wire.pending.len();
        match get_more(wire, input, output) {
            Ok(true) => {}
            Ok(false) => return Ok(BodyRead::More),
            Err(end) => return Err(end),
        }
    }
}

// Takes a request with a body of so many bytes behind its head.
fn take_sized(
    alloc: Global,
    number: u64,
    head: Head,
    size: usize,
    pending: &mut Vec<u8>,
) -> Result<Request, OutOfMemory>
    requires at { head.length ≤ length pending.old.items }
    requires size { size ≤ length (drop head.length pending.old.items) }
    ensures { IfOk result (λ r. (r ≡ request_of number head (take size (drop head.length pending.old.items))) × (pending.new.items ≡ drop size (drop head.length pending.old.items))) }
{
    let at = head.length;
    let (_, behind) = pending.split_at(at);
    let (body, _) = behind.split_at(size);
    let body = List::of(body.to_vec(alloc)?);
    drop_front(pending, at + size);
    Ok(request_of(number, head, body))
}

// The request whose body has so many bytes. Above the limit nothing of them is waited for.
fn sized_request<I: Source, O: Sink>(
    alloc: Global,
    number: u64,
    head: Head,
    size: u64,
    wire: &mut Wire,
    input: &mut I,
    output: &mut O,
) -> Result<Coming, ConnectionEnd>
    requires { head.length ≤ length wire.old.pending.items }
    ensures ok { IfOk result (λ coming. HasCome (λ bytes c rest. ComesSized number head size (drop head.length bytes) c rest) coming (flow (I.left input.old) (O.written output.old) wire.old) (flow (I.left input.new) (O.written output.new) wire.new)) }
    ensures err { IfErr result (λ end. Stops (λ bytes. ComesSized number head size (drop head.length bytes) Coming.Cut []) end (flow (I.left input.old) (O.written output.old) wire.old) (flow (I.left input.new) (O.written output.new) wire.new)) }
    ensures reads { I.fault_count input.new ≡ read_faults_with (I.fault_count input.old) result }
    ensures writes { O.fault_count output.new ≡ write_faults_with (O.fault_count output.old) result }
{
    if size > MOST_BODY {
        return Ok(Coming::Refused(413));
    }
    let size = size as usize;
    let all = await_behind(head.length, size, wire, input, output)?;
    if !all {
        return Ok(Coming::Cut);
    }
    match take_sized(alloc, number, head, size, &mut wire.pending) {
        Ok(request) => Ok(Coming::Asked(request)),
        Err(_) => Err(ConnectionEnd::NoMemory),
    }
}

// The request whose body comes in chunks.
fn chunked_request<I: Source, O: Sink>(
    alloc: Global,
    number: u64,
    head: Head,
    wire: &mut Wire,
    input: &mut I,
    output: &mut O,
) -> Result<Coming, ConnectionEnd>
    requires { head.length ≤ length wire.old.pending.items }
    ensures ok { IfOk result (λ coming. HasCome (λ bytes c rest. ComesChunked number head (drop head.length bytes) c rest) coming (flow (I.left input.old) (O.written output.old) wire.old) (flow (I.left input.new) (O.written output.new) wire.new)) }
    ensures err { IfErr result (λ end. Stops (λ bytes. ComesChunked number head (drop head.length bytes) Coming.Cut []) end (flow (I.left input.old) (O.written output.old) wire.old) (flow (I.left input.new) (O.written output.new) wire.new)) }
    ensures reads { I.fault_count input.new ≡ read_faults_with (I.fault_count input.old) result }
    ensures writes { O.fault_count output.new ≡ write_faults_with (O.fault_count output.old) result }
{
    match await_chunks(alloc, head.length, wire, input, output)? {
        BodyRead::More => Ok(Coming::Cut),
        BodyRead::Bad => Ok(Coming::Refused(400)),
        BodyRead::TooLarge => Ok(Coming::Refused(413)),
        BodyRead::Whole { body, length } => {
            drop_front(&mut wire.pending, head.length + length);
            Ok(Coming::Asked(request_of(number, head, body)))
        }
    }
}

/// What a head that is whole comes to, with the bytes behind it.
///
/// # Errors
/// The end of the connection, where the sink or the source failed or memory was wanting.
pub(crate) fn next_body<I: Source, O: Sink>(
    alloc: Global,
    number: u64,
    head: Head,
    wire: &mut Wire,
    input: &mut I,
    output: &mut O,
) -> Result<Coming, ConnectionEnd>
    requires { head.length ≤ length wire.old.pending.items }
    ensures ok { IfOk result (λ coming. HasCome (λ bytes c rest. ComesBehind number head head.framing (drop head.length bytes) c rest) coming (flow (I.left input.old) (O.written output.old) wire.old) (flow (I.left input.new) (O.written output.new) wire.new)) }
    ensures err { IfErr result (λ end. Stops (λ bytes. ComesBehind number head head.framing (drop head.length bytes) Coming.Cut []) end (flow (I.left input.old) (O.written output.old) wire.old) (flow (I.left input.new) (O.written output.new) wire.new)) }
    ensures reads { I.fault_count input.new ≡ read_faults_with (I.fault_count input.old) result }
    ensures writes { O.fault_count output.new ≡ write_faults_with (O.fault_count output.old) result }
{
    match head.framing {
        Framing::Sized(size) => sized_request(alloc, number, head, size, wire, input, output),
        Framing::Chunked => chunked_request(alloc, number, head, wire, input, output),
    }
}
