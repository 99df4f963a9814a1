//! The texts of the core's refusals.
ghost use Rattle.std.specs.Prelude.{◌≡◌, IfOk, string_bytes};
ghost use Rattle.shell_lang.specs.CoreFaultTexts.{core_fault_fields, core_fault_name, core_fault_text};
ghost use Rattle.shell_lang.specs.FaultTexts.{spaced};
ghost use Rattle.std.specs.Fmt.{decimal};

use crate::fault_text::spaced;
use crate::joined_text::joined;
use prop_map::OutOfMemory;
use scr_world::CoreFault;
use std::alloc::Global;

// The text of a refusal of the core: its name and its fields.
pub(crate) fn core_fault_text(alloc: Global, fault: &CoreFault) -> Result<String, OutOfMemory>
    ensures { IfOk result (λ text. string_bytes text ≡ core_fault_text fault.now) }
{
    let mut text = String::from_str(alloc, core_fault_name(fault))?;
    text.push_str(core_fault_fields(alloc, fault)?.as_str())?;
    Ok(text)
}

fn core_fault_name(fault: &CoreFault) -> &'static str
    ensures { result.now ≡ core_fault_name fault.now }
{
    match fault {
        CoreFault::NoBundle { .. } => "NoBundle",
        CoreFault::NoComponent { .. } => "NoComponent",
        CoreFault::WrongState { .. } => "WrongState",
        CoreFault::Stopping { .. } => "Stopping",
        CoreFault::SameName { .. } => "SameName",
        CoreFault::Cycle { .. } => "Cycle",
        CoreFault::BundlesFull => "BundlesFull",
        CoreFault::ComponentsFull => "ComponentsFull",
        CoreFault::ServicesFull => "ServicesFull",
        CoreFault::ConfigurationsFull => "ConfigurationsFull",
        CoreFault::ListenersFull => "ListenersFull",
        CoreFault::NoService { .. } => "NoService",
        CoreFault::NotOwner { .. } => "NotOwner",
        CoreFault::NotUsing => "NotUsing",
        CoreFault::NoListener { .. } => "NoListener",
        CoreFault::NoConfiguration => "NoConfiguration",
        CoreFault::BadPid => "BadPid",
        CoreFault::FactoryClash => "FactoryClash",
        CoreFault::ActivationFailed { .. } => "ActivationFailed",
        CoreFault::ActivationNoMemory { .. } => "ActivationNoMemory",
        CoreFault::JournalFull => "JournalFull",
        CoreFault::OutOfMemory => "OutOfMemory",
    }
}

fn core_fault_fields(alloc: Global, fault: &CoreFault) -> Result<String, OutOfMemory>
    ensures { IfOk result (λ text. string_bytes text ≡ core_fault_fields fault.now) }
{
    match fault {
        CoreFault::NoBundle { bundle } | CoreFault::SameName { bundle } => spaced_number(
            alloc, *bundle,
        ),
        CoreFault::NoComponent { name } => spaced(alloc, name.as_str()),
        CoreFault::WrongState { state } => spaced_number(alloc, u64::from(*state)),
        CoreFault::Stopping { instance }
        | CoreFault::ActivationFailed { instance }
        | CoreFault::ActivationNoMemory { instance } => spaced_number(alloc, *instance),
        CoreFault::Cycle { path } => {
            spaced(alloc, joined(alloc, " > ", path.as_slice())?.as_str())
        }
        CoreFault::NoService { service } => spaced_number(alloc, *service),
        CoreFault::NotOwner { owner } => spaced_number(alloc, *owner),
        CoreFault::NoListener { listener } => spaced_number(alloc, *listener),
        _ => Ok(String::new(alloc)),
    }
}

fn spaced_number(alloc: Global, number: u64) -> Result<String, OutOfMemory>
    ensures { IfOk result (λ text. string_bytes text ≡ spaced (decimal number)) }
{
    format!(in alloc; " {number}")
}
