//! Tests of the edges of the platform: the lock, the gates, messages, the ends of a program with their counts, and the
//! wiring of bundles: what manifests need and offer, filters over versions, and which bundles resolve together.
#![tactic(auto)]

#[cfg(test)]
mod fault_ends;
#[cfg(test)]
mod gates;
#[cfg(test)]
mod locks;
#[cfg(test)]
mod messages;
#[cfg(test)]
mod visits;
#[cfg(test)]
mod wiring_filters;
#[cfg(test)]
mod wiring_manifests;
#[cfg(test)]
mod wiring_resolution;
#[cfg(test)]
mod wiring_samples;
