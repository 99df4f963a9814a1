//! Tests of sessions of the shell: over a source and a sink in memory, alone and two on one platform.
#![tactic(auto)]

#[cfg(test)]
mod samples;
#[cfg(test)]
mod sessions;
#[cfg(test)]
mod two_sessions;
