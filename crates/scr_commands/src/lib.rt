//! What commands come to: each kind of command has its judge (OSGi Core 8, chapters 4 and 5; OSGi Compendium 8, chapters 104 and
//! 112).
#![tactic(auto)]

mod dispatch;

pub use dispatch::judge;
