//! Tests of events: topics and patterns, the handlers of an event, and the hub of posts under way, on one thread and on
//! several.
#![tactic(auto)]

#[cfg(test)]
mod handlers;
#[cfg(test)]
mod hubs;
#[cfg(test)]
mod limits;
#[cfg(test)]
mod publishers;
#[cfg(test)]
mod samples;
#[cfg(test)]
mod topics;
