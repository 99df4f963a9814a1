//! Tests of the core: each of its calls once, and what a failed activation leaves behind.
//!
//! Each test owns a core in one small function, which hands it to the steps by reference: the steps never own it.
#![tactic(auto)]

#[cfg(test)]
mod calls;
#[cfg(test)]
mod commands;
#[cfg(test)]
mod failures;
#[cfg(test)]
mod journals;
#[cfg(test)]
mod readers;
#[cfg(test)]
mod refusals;
#[cfg(test)]
mod rooms;
#[cfg(test)]
mod samples;
#[cfg(test)]
mod turns;
#[cfg(test)]
mod uses;
#[cfg(test)]
mod wirings;
