//! Tests of calls by gets and of requests on a platform.
#![tactic(auto)]

#[cfg(test)]
mod came;
#[cfg(test)]
mod demonstration_calls;
mod insisting;
#[cfg(test)]
mod long_calls;
#[cfg(test)]
mod servlet_requests;
#[cfg(test)]
mod steps;
#[cfg(test)]
mod told;

pub use insisting::{Insisted, Insisting};
