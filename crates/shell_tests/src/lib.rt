//! Tests of the platform and of its shell.
#![tactic(auto)]

#[cfg(test)]
mod ends;
#[cfg(test)]
mod forms;
#[cfg(test)]
mod listings;
#[cfg(test)]
mod loads;
#[cfg(test)]
mod platforms;
#[cfg(test)]
mod programs;
#[cfg(test)]
mod runs;
#[cfg(test)]
mod samples;
#[cfg(test)]
mod script_runs;
#[cfg(test)]
mod shell_texts;
#[cfg(test)]
mod told_runs;
#[cfg(test)]
mod turns;
#[cfg(test)]
mod watched_turns;
mod watching;

pub use watching::{Watched, Watching};
