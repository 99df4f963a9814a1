//! Tests of the server: doors, and the sessions that are held of their connections.
#![tactic(auto)]

#[cfg(test)]
mod doors;
#[cfg(test)]
mod listeners;
#[cfg(test)]
mod samples;
