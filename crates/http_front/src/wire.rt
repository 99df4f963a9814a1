//! The bytes of a connection between its reads and its writes.
ghost use Rattle.std.specs.Prelude.{◌≡◌, ◌<◌, ◌≤◌, [], ℕ, IfOk, IfErr, length, take, true, if◌then◌else◌};
ghost use Rattle.std.specs.Bool.{OnTrue, OnFalse};
ghost use Rattle.std.specs.Io.KnownBytes.{Appends};
ghost use Rattle.fault_count.specs.Steps.{next_count};
ghost use Rattle.http_front.specs.Faults.{read_faults_with, write_faults_with, faults_after_fill};
ghost use Rattle.http_front.specs.Flows.{flow, Fills, IsMore, Stops};

use crate::connection::ConnectionEnd;
use fault_count::{ReadStep, Sink, Source, WriteStep};
use std::alloc::Global;

/// What was read and not yet taken, and the texts of answers that are not yet written.
#[derive(Drop)]
pub(crate) struct Wire {
    pub(crate) pending: Vec<u8>,
    pub(crate) texts: Vec<u8>,
}

impl Wire {
    /// Before the first read. It takes no memory.
    pub(crate) fn new(alloc: Global) -> Wire
        ensures { (result.pending.items ≡ []) × (result.texts.items ≡ []) }
    {
        Wire {
            pending: Vec::new(alloc),
            texts: Vec::new(alloc),
        }
    }
}

/// What reading a piece behind the pending bytes gave.
#[derive(Clone, Copy, Debug, PartialEq, Eq)]
pub(crate) enum FillStep {
    /// A piece stands behind them.
    Filled,
    /// The source is at its end.
    AtEnd,
    /// The source failed.
    ReadFailed,
    /// There was no memory for the piece.
    FillNoMemory,
}

// Reads a piece behind the pending bytes.
fn fill<I: Source>(bytes: &mut Vec<u8>, input: &mut I) -> FillStep
    ensures step { Fills (I.left input.old) (I.left input.new) bytes.old.items bytes.new.items result }
    ensures fewer { result ≡ FillStep.Filled → I.number input.new < I.number input.old }
    ensures faults { I.fault_count input.new ≡ faults_after_fill (I.fault_count input.old) result }
{
    let mut room = [0u8; 4096];
    match input.read(&mut room) {
        ReadStep::Got(count) => {
            let (piece, _) = room.split_at(count);
            match bytes.extend_from_slice(piece) {
                Ok(()) => FillStep::Filled,
                Err(_) => FillStep::FillNoMemory,
            }
        }
        ReadStep::End => FillStep::AtEnd,
        ReadStep::Failed => FillStep::ReadFailed,
    }
}

// Writes these bytes. At false the sink has failed, and has taken the front of them.
fn write_all<O: Sink>(bytes: &[u8], output: &mut O) -> bool
    ensures whole { OnTrue result (Appends (O.written output.old) (O.written output.new) bytes.now) }
    ensures front { OnFalse result ((count : ℕ) × (count < length bytes.now) × Appends (O.written output.old) (O.written output.new) (take count bytes.now)) }
    ensures faults { O.fault_count output.new ≡ (if result then O.fault_count output.old else next_count (O.fault_count output.old)) }
{
    let mut at = 0usize;
    while at < bytes.len() {
        let (_, rest) = bytes.split_at(at);
        match output.write(rest) {
            WriteStep::Took(count) => at += count,
            WriteStep::Failed => return false,
        }
    }
    true
}

/// Writes the texts, in one piece where the sink takes it. At false the sink has failed, and has taken the front of them.
pub(crate) fn send<O: Sink>(texts: &mut Vec<u8>, output: &mut O) -> bool
    ensures whole { OnTrue result (Appends (O.written output.old) (O.written output.new) texts.old.items × (texts.new.items ≡ [])) }
    ensures front { OnFalse result ((count : ℕ) × (count < length texts.old.items) × Appends (O.written output.old) (O.written output.new) (take count texts.old.items)) }
    ensures faults { O.fault_count output.new ≡ (if result then O.fault_count output.old else next_count (O.fault_count output.old)) }
{
    if !write_all(texts.as_slice(), output) {
        return false;
    }
    texts.clear();
    true
}

/// Writes all texts, and then reads a piece behind the pending bytes: whether there was one, or the input is at its end.
///
/// # Errors
/// The end of the connection, where the sink or the source failed or memory was wanting.
pub(crate) fn get_more<I: Source, O: Sink>(
    wire: &mut Wire,
    input: &mut I,
    output: &mut O,
) -> Result<bool, ConnectionEnd>
    ensures ok { IfOk result (λ more. IsMore more (flow (I.left input.old) (O.written output.old) wire.old) (flow (I.left input.new) (O.written output.new) wire.new)) }
    ensures err { IfErr result (λ end. Stops (λ bytes. bytes ≡ wire.old.pending.items) end (flow (I.left input.old) (O.written output.old) wire.old) (flow (I.left input.new) (O.written output.new) wire.new)) }
    ensures fewer { result ≡ Ok true → I.number input.new < I.number input.old }
    ensures reads { I.fault_count input.new ≡ read_faults_with (I.fault_count input.old) result }
    ensures writes { O.fault_count output.new ≡ write_faults_with (O.fault_count output.old) result }
{
    if !send(&mut wire.texts, output) {
        return Err(ConnectionEnd::WriteFault);
    }
    match fill(&mut wire.pending, input) {
        FillStep::Filled => Ok(true),
        FillStep::AtEnd => Ok(false),
        FillStep::ReadFailed => Err(ConnectionEnd::ReadFault),
        FillStep::FillNoMemory => Err(ConnectionEnd::NoMemory),
    }
}
