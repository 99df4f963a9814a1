//! Configurations that nobody asks for.
use anyhow::Result;
use prop_map::{Properties, Str};
use scr_core::{Command, Core};
use std::alloc::Global;

/// Sets the configuration of one PID so many times.
pub(crate) fn configure_often(alloc: Global, core: &mut Core, times: u64) -> Result<()> {
    for _ in 0..times {
        let command = Command::Configure {
            pid: Str::of(format!(in alloc; "nobody")?),
            properties: Properties::new(alloc),
        };
        core.command(alloc, command)?;
    }
    Ok(())
}
