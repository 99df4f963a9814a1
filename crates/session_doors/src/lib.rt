//! Doors, through which connections come to a server, and where the sessions that it held of them go.
//!
//! Each thread of a server has doors of its own: it takes a connection, serves a session of it, and hands the session
//! back with the ends of its connection. [`MemoryDoors`] has its connections in memory and keeps its sessions, so
//! contracts see both lists. [`TcpDoors`] are the doors of a listener that several threads share.
#![tactic(auto)]

mod doors;
mod finished;
mod listens;
mod memory_doors;
mod memory_listens;
mod tcp_doors;
mod tcp_listens;

pub use doors::{Door, Doors};
pub use finished::Finished;
pub use listens::{ListenStop, Listens};
pub use memory_doors::MemoryDoors;
pub use memory_listens::MemoryListens;
pub use tcp_doors::TcpDoors;
pub use tcp_listens::TcpListens;
