//! A program for measuring. First the lock and the gates: so many passes append entries through one front lock, each in
//! a thread of its own, and then one caller goes through one gate so many times. Then the core by its own calls: so many
//! services are registered; one more comes and goes so many times; and a PID that nobody asks for gets a configuration
//! so many times, while so many component configurations stand. It prints what was done, which is the same whatever the
//! schedule; `bench/locks` and `bench/commands` take the time.
//!
//! usage: `platform_bench PASSES ENTRIES CALLS SERVICES STEPS COMPONENTS COMMANDS`, with 1 to 64 passes and so many
//! entries by each, at most 1,023 services and 512 components
#![tactic(auto)]

mod bundles;
mod calls;
mod commands;
mod configurations;
mod entries;
mod notes;
mod services;

use crate::calls::call_often;
use crate::commands::{CommandCounts, command_often};
use crate::entries::append_by;
use anyhow::{Result, bail};
use std::alloc::Global;
use std::env;

fn main(rt: HostRuntime) -> Result<()> {
    let alloc = rt.alloc();
    let numbers = numbers_of(&rt, alloc)?;
    let [
        passes,
        entries,
        calls,
        services,
        steps,
        components,
        commands,
    ] = numbers.as_slice()
    else {
        bail!("usage: platform_bench PASSES ENTRIES CALLS SERVICES STEPS COMPONENTS COMMANDS");
    };
    let appended = append_by(&rt, alloc, *passes, *entries)?;
    println!(rt; "{appended} entries by {passes} passes")?;
    let called = call_often(alloc, *calls)?;
    println!(rt; "{called} calls")?;
    let counts = CommandCounts {
        services: *services,
        steps: *steps,
        components: *components,
        commands: *commands,
    };
    let grown = command_often(alloc, counts)?;
    println!(rt; "{grown} entries")?;
    Ok(())
}

fn numbers_of(rt: &HostRuntime, alloc: Global) -> Result<Vec<u64>> {
    let mut numbers = Vec::new(alloc);
    for word in env::args(rt)?.skip(1) {
        numbers.push(word.parse::<u64>()?)?;
    }
    Ok(numbers)
}
