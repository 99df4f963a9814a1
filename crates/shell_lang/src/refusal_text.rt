//! The texts of refusals.
ghost use Rattle.std.specs.Prelude.{◌≡◌, IfOk, string_bytes};
ghost use Rattle.shell_lang.specs.RefusalTexts.{call_refusal_text, ending_word, filter_fault_text, line_fault_text, refusal_text};

use crate::core_fault_text::core_fault_text;
use crate::fault_text::{document_fault_text, prop_fault_text};
use crate::{CallRefusal, LineFault, Refusal};
use ldap_filter::FilterFault;
use prop_map::OutOfMemory;
use std::alloc::Global;

// The text of a refusal: its name and its fields.
pub(crate) fn refusal_text(alloc: Global, refusal: &Refusal) -> Result<String, OutOfMemory>
    ensures { IfOk result (λ text. string_bytes text ≡ refusal_text refusal.now) }
{
    match refusal {
        Refusal::Line { fault } => line_fault_text(alloc, fault),
        Refusal::Core { fault } => core_fault_text(alloc, fault),
        Refusal::NotManual => String::from_str(alloc, "NotManual"),
        Refusal::NotBuilt => String::from_str(alloc, "NotBuilt"),
        Refusal::NoTurn { turn } => format!(in alloc; "NoTurn {turn}"),
        Refusal::Call { fault } => String::from_str(alloc, call_refusal_text(*fault)),
    }
}

fn line_fault_text(alloc: Global, fault: &LineFault) -> Result<String, OutOfMemory>
    ensures { IfOk result (λ text. string_bytes text ≡ line_fault_text fault.now) }
{
    match fault {
        LineFault::UnknownCommand => String::from_str(alloc, "UnknownCommand"),
        LineFault::BadWords { at } => format!(in alloc; "BadWords {at}"),
        LineFault::Document { fault } => document_fault_text(alloc, fault),
        LineFault::NoFile => String::from_str(alloc, "NoFile"),
        LineFault::NotJson => String::from_str(alloc, "NotJson"),
        LineFault::Properties { fault } => prop_fault_text(alloc, fault),
        LineFault::FilterText { fault } => filter_fault_text(alloc, *fault),
        LineFault::OutOfMemory => String::from_str(alloc, "OutOfMemory"),
    }
}

// Why a call that got its service isn't answered.
fn call_refusal_text(fault: CallRefusal) -> &'static str
    ensures { result.now ≡ call_refusal_text fault }
{
    match fault {
        CallRefusal::Gone => "Gone",
        CallRefusal::NoObject => "NoObject",
        CallRefusal::Pending => "Pending",
        CallRefusal::Refused => "Refused",
        CallRefusal::CallTooLong => "CallTooLong",
    }
}

fn filter_fault_text(alloc: Global, fault: FilterFault) -> Result<String, OutOfMemory>
    ensures { IfOk result (λ text. string_bytes text ≡ filter_fault_text fault) }
{
    match fault {
        FilterFault::BadFilter { at, ended } => {
            let word = ending_word(ended);
            format!(in alloc; "BadFilter {at} {word}")
        }
        FilterFault::TooDeep { at } => format!(in alloc; "TooDeep {at}"),
        FilterFault::OutOfMemory => String::from_str(alloc, "OutOfMemory"),
    }
}

// Whether a text that is no filter ends where it ceases to be the beginning of one.
fn ending_word(ended: bool) -> &'static str
    ensures { result.now ≡ ending_word ended }
{
    if ended { "ended" } else { "unexpected" }
}
