//! Tests of the rules: the order of callbacks, component code, turns, and component configurations. A desk for tests stands
//! here too.
#![tactic(auto)]

#[cfg(test)]
mod callbacks;
#[cfg(test)]
mod demonstrations;
#[cfg(test)]
mod due_callbacks;
#[cfg(test)]
mod gateway_code;
mod memory_desk;
#[cfg(test)]
mod nested_calls;
#[cfg(test)]
mod passes;
#[cfg(test)]
mod samples;
#[cfg(test)]
mod turns;

pub use memory_desk::{Ended, Held, MemoryDesk};
