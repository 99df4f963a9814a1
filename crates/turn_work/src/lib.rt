//! What a turn has to do, and what component code is told of an instance. The core and the runner of turns share it, so
//! that neither stands on the other.
#![tactic(auto)]

mod site;
mod work;

pub use site::Site;
pub use work::TurnWork;
