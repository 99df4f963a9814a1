//! Tests of the web layer: patterns, contexts, routes, chains, and connections of HTTP/1.1.
#![tactic(auto)]

#[cfg(test)]
mod chains;
#[cfg(test)]
mod connections;
#[cfg(test)]
mod contexts;
#[cfg(test)]
mod patterns;
#[cfg(test)]
mod routes;
#[cfg(test)]
mod samples;
