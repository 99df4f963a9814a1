//! Why a call isn't answered.
use call_moves::NestedCall;
use prop_map::List;
use scr_world::CoreFault;
use turn_runner::SettleFault;

/// Why a call isn't answered. A front is the length of the journal at which it was decided whom the call reaches.
#[derive(Drop)]
pub enum CallFault {
    /// The get stands no more.
    Gone {
        /// The front.
        front: u64,
    },
    /// There is no object behind the service.
    NoObject {
        /// The front.
        front: u64,
    },
    /// The instance of the service isn't active.
    Pending {
        /// The front.
        front: u64,
    },
    /// The component code refuses the request.
    Refused {
        /// The front.
        front: u64,
        /// The nested calls, in the order in which they began.
        nested: List<NestedCall>,
    },
    /// A further nested call would be one too many.
    CallTooLong {
        /// The front.
        front: u64,
        /// The nested calls, in the order in which they began.
        nested: List<NestedCall>,
    },
    /// The get was refused.
    Core {
        /// Why.
        fault: CoreFault,
    },
    /// The settling before the call was refused.
    Settle {
        /// Why.
        fault: SettleFault,
    },
    /// There was no memory.
    OutOfMemory,
}
