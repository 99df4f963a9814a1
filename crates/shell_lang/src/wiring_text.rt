//! The lines of wiring.
ghost use Rattle.std.specs.Prelude.{◌≡◌, IfOk, codes, string_bytes};
ghost use Rattle.shell_lang.specs.WiringTexts.{need_text, offered_text, wire_fault_text, wiring_text};

use crate::row_text::Row;
use bundle_wiring::WireFault;
use osgi_version::Version;
use prop_map::OutOfMemory;
use std::alloc::Global;
use wiring_reader::{NeedLine, WiringLine};

impl Row for WiringLine {
    ghost row_text = { wiring_text };

    fn text(&self, alloc: Global) -> Result<String, OutOfMemory> {
        match self {
            WiringLine::Resolved { bundle } => format!(in alloc; "{bundle} resolved\n"),
            WiringLine::Unresolved { bundle, need } => {
                unresolved_text(alloc, *bundle, need.as_str())
            }
            WiringLine::Faulty { bundle } => format!(in alloc; "{bundle} faulty\n"),
            WiringLine::Wire { bundle, need, to } => wire_text(alloc, *bundle, need.as_str(), *to),
        }
    }
}

impl Row for NeedLine {
    ghost row_text = { need_text };

    fn text(&self, alloc: Global) -> Result<String, OutOfMemory> {
        match self {
            NeedLine::Wire { need, to } => wired_text(alloc, need.as_str(), *to),
            NeedLine::Missing { need } => missing_text(alloc, need.as_str()),
            NeedLine::Optional { need } => optional_text(alloc, need.as_str()),
            NeedLine::Offers { name, version } => offer_text(alloc, name.as_str(), version),
            NeedLine::Fault { fault } => fault_text(alloc, fault),
        }
    }
}

fn unresolved_text(alloc: Global, bundle: u64, need: &str) -> Result<String, OutOfMemory>
    ensures { IfOk result (λ text. string_bytes text ≡ wiring_text (WiringLine.Unresolved bundle need.now)) }
{
    format!(in alloc; "{bundle} unresolved {need}\n")
}

fn wire_text(alloc: Global, bundle: u64, need: &str, to: u64) -> Result<String, OutOfMemory>
    ensures { IfOk result (λ text. string_bytes text ≡ wiring_text (WiringLine.Wire bundle need.now to)) }
{
    format!(in alloc; "wire {bundle} {need} {to}\n")
}

fn wired_text(alloc: Global, need: &str, to: u64) -> Result<String, OutOfMemory>
    ensures { IfOk result (λ text. string_bytes text ≡ need_text (NeedLine.Wire need.now to)) }
{
    format!(in alloc; "{need} wire {to}\n")
}

fn missing_text(alloc: Global, need: &str) -> Result<String, OutOfMemory>
    ensures { IfOk result (λ text. string_bytes text ≡ need_text (NeedLine.Missing need.now)) }
{
    format!(in alloc; "{need} missing\n")
}

fn optional_text(alloc: Global, need: &str) -> Result<String, OutOfMemory>
    ensures { IfOk result (λ text. string_bytes text ≡ need_text (NeedLine.Optional need.now)) }
{
    format!(in alloc; "{need} optional\n")
}

fn offer_text(alloc: Global, name: &str, version: &Version) -> Result<String, OutOfMemory>
    ensures { IfOk result (λ text. string_bytes text ≡ need_text (NeedLine.Offers name.now version.now)) }
{
    let version = version.text(alloc)?;
    offered_text(alloc, name, version.as_str())
}

// An offer with this text of its version.
fn offered_text(alloc: Global, name: &str, version: &str) -> Result<String, OutOfMemory>
    ensures { IfOk result (λ text. string_bytes text ≡ offered_text name.now version.now) }
{
    format!(in alloc; "offers {name} {version}\n")
}

// A line of a fault.
fn fault_text(alloc: Global, fault: &WireFault) -> Result<String, OutOfMemory>
    ensures { IfOk result (λ text. string_bytes text ≡ need_text (NeedLine.Fault fault.now)) }
{
    let text = wire_fault_text(alloc, fault)?;
    format!(in alloc; "{}\n", text.as_str())
}

fn wire_fault_text(alloc: Global, fault: &WireFault) -> Result<String, OutOfMemory>
    ensures { IfOk result (λ text. string_bytes text ≡ wire_fault_text fault.now) }
{
    match fault {
        WireFault::BadClause { at } => format!(in alloc; "BadClause {at}"),
        WireFault::BadVersion { at } => format!(in alloc; "BadVersion {at}"),
        WireFault::BadFilter { at } => format!(in alloc; "BadFilter {at}"),
        WireFault::DuplicateImport { package } => {
            format!(in alloc; "DuplicateImport {}", package.as_str())
        }
        WireFault::OutOfMemory => String::from_str(alloc, "OutOfMemory"),
    }
}
