//! Tests of halls that sessions share.
#![tactic(auto)]

#[cfg(test)]
mod halls;
#[cfg(test)]
mod samples;
