//! Why calls by gets aren't answered.
ghost use Rattle.platform_hall.specs.Calls.{get_fault, lacks_memory, settle_fault, text_of};
ghost use Rattle.std.specs.Prelude.{◌≡◌};

use prop_map::Str;
use scr_calls::{CallFault, Called};
use scr_world::CoreFault;
use turn_runner::SettleFault;

// Why a call isn't answered where its get is refused.
pub(crate) fn get_fault(fault: CoreFault) -> CallFault
    ensures { result ≡ get_fault fault }
{
    match fault {
        CoreFault::OutOfMemory => CallFault::OutOfMemory,
        fault => CallFault::Core { fault },
    }
}

// Why a call isn't answered where its settling is refused.
pub(crate) fn settle_fault(fault: SettleFault) -> CallFault
    ensures { result ≡ settle_fault fault }
{
    match fault {
        SettleFault::OutOfMemory => CallFault::OutOfMemory,
        fault => CallFault::Settle { fault },
    }
}

// Memory is wanting for an answer.
pub(crate) fn lacks_memory(answer: &Result<Called, CallFault>) -> bool
    ensures { result ≡ lacks_memory answer.now }
{
    match answer {
        Err(CallFault::OutOfMemory) => true,
        _ => false,
    }
}

// The text of what a call is answered.
pub(crate) fn text_of(answer: Result<Called, CallFault>) -> Result<Str, CallFault>
    ensures { result ≡ text_of answer }
{
    match answer {
        Ok(called) => Ok(called.text),
        Err(fault) => Err(fault),
    }
}
