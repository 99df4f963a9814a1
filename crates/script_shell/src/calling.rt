//! The line that calls a service.
ghost use Rattle.script_shell.specs.Calling.{CarriesCall, TellsUnanswered};
ghost use Rattle.std.specs.Prelude.{◌≡◌};

use crate::asked::refused;
use kind_trait::Kinds;
use platform_hall::Platform;
use prop_map::Str;
use scr_calls::CallFault;
use shell_lang::{CallRefusal, Refusal, ShellReply};
use std::alloc::Global;
use turn_runner::SettleFault;

// Calls a service for a bundle, and tells the text that it is answered, or why it isn't.
pub(crate) fn call<K: Kinds + Drop>(
    alloc: Global,
    platform: &mut Platform<K>,
    bundle: u64,
    service: u64,
    request: &Str,
) -> Result<ShellReply, SettleFault>
    ensures { CarriesCall K.refuses K.next bundle service request.now platform.old result platform.new }
{
    match platform.call(alloc, bundle, service, request.as_str()) {
        Ok(text) => Ok(ShellReply::Text(text)),
        Err(fault) => unanswered(fault),
    }
}

// A full journal, a settling that is cut off and want of memory end the run; any other fault is told.
fn unanswered(fault: CallFault) -> Result<ShellReply, SettleFault>
    ensures { TellsUnanswered fault result }
{
    match fault {
        CallFault::Gone { .. } => Ok(refusal(CallRefusal::Gone)),
        CallFault::NoObject { .. } => Ok(refusal(CallRefusal::NoObject)),
        CallFault::Pending { .. } => Ok(refusal(CallRefusal::Pending)),
        CallFault::Refused { .. } => Ok(refusal(CallRefusal::Refused)),
        CallFault::CallTooLong { .. } => Ok(refusal(CallRefusal::CallTooLong)),
        CallFault::Core { fault } => refused(fault),
        CallFault::Settle { fault } => Err(fault),
        CallFault::OutOfMemory => Err(SettleFault::OutOfMemory),
    }
}

fn refusal(fault: CallRefusal) -> ShellReply
    ensures { result ≡ ShellReply.Refused (Refusal.Call fault) }
{
    ShellReply::Refused(Refusal::Call { fault })
}
