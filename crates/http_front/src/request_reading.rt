//! The next request of a connection.
ghost use Rattle.std.specs.Prelude.{◌≡◌, ◌<◌, [], IfOk, IfErr, length};
ghost use Rattle.http_wire.specs.HeadMeaning.{ReadsHead};
ghost use Rattle.http_wire.specs.declared.messages.HeadRead.TheVariants.{More as LessHead};
ghost use Rattle.http_front.specs.Connections.{IsUnfinished};
ghost use Rattle.http_front.specs.Faults.{read_faults_with, write_faults_with};
ghost use Rattle.http_front.specs.Flows.{flow, HasCome, HasEnded, HasSome, Stops, Waits};
ghost use Rattle.http_front.specs.Requests.{Comes, ComesByHead};

use crate::connection::ConnectionEnd;
use crate::request_body::{Coming, next_body};
use crate::wire::{Wire, get_more};
use fault_count::{Sink, Source};
use http_wire::{HeadRead, read_head};
use std::alloc::Global;

// Whether a byte is pending, once one was waited for.
fn await_some<I: Source, O: Sink>(
    wire: &mut Wire,
    input: &mut I,
    output: &mut O,
) -> Result<bool, ConnectionEnd>
    ensures ok { IfOk result (λ some. HasSome some (flow (I.left input.old) (O.written output.old) wire.old) (flow (I.left input.new) (O.written output.new) wire.new)) }
    ensures err { IfErr result (λ end. Stops (λ bytes. bytes ≡ []) end (flow (I.left input.old) (O.written output.old) wire.old) (flow (I.left input.new) (O.written output.new) wire.new)) }
    ensures reads { I.fault_count input.new ≡ read_faults_with (I.fault_count input.old) result }
    ensures writes { O.fault_count output.new ≡ write_faults_with (O.fault_count output.old) result }
{
    if wire.pending.is_empty() {
        get_more(wire, input, output)
    } else {
        Ok(true)
    }
}

// What the pending bytes begin with, read as a head; less than one only at the end of the input.
fn await_head<I: Source, O: Sink>(
    alloc: Global,
    wire: &mut Wire,
    input: &mut I,
    output: &mut O,
) -> Result<HeadRead, ConnectionEnd>
    ensures ok { IfOk result (λ read. Waits (flow (I.left input.old) (O.written output.old) wire.old) (flow (I.left input.new) (O.written output.new) wire.new)
        × ReadsHead wire.new.pending.items read × (read ≡ LessHead → HasEnded (flow (I.left input.old) (O.written output.old) wire.old) (flow (I.left input.new) (O.written output.new) wire.new))) }
    ensures err { IfErr result (λ end. Stops (λ bytes. ReadsHead bytes LessHead) end (flow (I.left input.old) (O.written output.old) wire.old) (flow (I.left input.new) (O.written output.new) wire.new)) }
    ensures reads { I.fault_count input.new ≡ read_faults_with (I.fault_count input.old) result }
    ensures writes { O.fault_count output.new ≡ write_faults_with (O.fault_count output.old) result }
{
    loop {
        let read = match read_head(alloc, &wire.pending) {
            Ok(read) => read,
            Err(_) => return Err(ConnectionEnd::NoMemory),
        };
        match read {
            HeadRead::More => {}
            _ => return Ok(read),
        }
        match get_more(wire, input, output) {
            Ok(true) => {}
            Ok(false) => return Ok(HeadRead::More),
            Err(end) => return Err(end),
        }
    }
}

// What some bytes come to, and those behind them.
fn read_request<I: Source, O: Sink>(
    alloc: Global,
    number: u64,
    wire: &mut Wire,
    input: &mut I,
    output: &mut O,
) -> Result<Coming, ConnectionEnd>
    requires { 0 < length wire.old.pending.items }
    ensures ok { IfOk result (λ coming. HasCome (ComesByHead number) coming (flow (I.left input.old) (O.written output.old) wire.old) (flow (I.left input.new) (O.written output.new) wire.new)) }
    ensures err { IfErr result (λ end. Stops (λ bytes. ComesByHead number bytes Coming.Cut []) end (flow (I.left input.old) (O.written output.old) wire.old) (flow (I.left input.new) (O.written output.new) wire.new)) }
    ensures reads { I.fault_count input.new ≡ read_faults_with (I.fault_count input.old) result }
    ensures writes { O.fault_count output.new ≡ write_faults_with (O.fault_count output.old) result }
{
    match await_head(alloc, wire, input, output)? {
        HeadRead::More => Ok(Coming::Cut),
        HeadRead::Bad => Ok(Coming::Refused(400)),
        HeadRead::TooLarge => Ok(Coming::Refused(431)),
        HeadRead::NotImplemented => Ok(Coming::Refused(501)),
        HeadRead::Whole(head) => next_body(alloc, number, head, wire, input, output),
    }
}

/// What the connection's bytes come to as the request of this number, from 1. A piece is read only where no whole
/// request is pending, and behind all texts of answers.
///
/// # Errors
/// The end of the connection, where the sink or the source failed or memory was wanting.
pub(crate) fn next_request<I: Source, O: Sink>(
    alloc: Global,
    number: u64,
    wire: &mut Wire,
    input: &mut I,
    output: &mut O,
) -> Result<Coming, ConnectionEnd>
    ensures ok { IfOk result (λ coming. HasCome (Comes number) coming (flow (I.left input.old) (O.written output.old) wire.old) (flow (I.left input.new) (O.written output.new) wire.new)) }
    ensures err { IfErr result (λ end. Stops (IsUnfinished number) end (flow (I.left input.old) (O.written output.old) wire.old) (flow (I.left input.new) (O.written output.new) wire.new)) }
    ensures reads { I.fault_count input.new ≡ read_faults_with (I.fault_count input.old) result }
    ensures writes { O.fault_count output.new ≡ write_faults_with (O.fault_count output.old) result }
{
    match await_some(wire, input, output) {
        Ok(true) => read_request(alloc, number, wire, input, output),
        Ok(false) => Ok(Coming::NoMore),
        Err(end) => Err(end),
    }
}
