//! Turns: how a due callback is run, and how all that are due are run one after the other.
#![tactic(auto)]

mod came;
mod desk;
mod desk_fault;
mod settle_fault;
mod settling;
mod turn;

pub use came::Came;
pub use desk::Desk;
pub use desk_fault::DeskFault;
pub use settle_fault::SettleFault;
pub use settling::{finish, settle};
pub use turn::{Ran, run_shared, run_turn};
pub use turn_work::TurnWork;
