//! Tests of the tables of the platform: each public call once, with memory enough.
#![tactic(auto)]

#[cfg(test)]
mod bundles;
#[cfg(test)]
mod component_configurations;
#[cfg(test)]
mod configurations;
#[cfg(test)]
mod gets;
#[cfg(test)]
mod instances;
#[cfg(test)]
mod journals;
#[cfg(test)]
mod listeners;
#[cfg(test)]
mod samples;
#[cfg(test)]
mod services;
#[cfg(test)]
mod shared_values;
#[cfg(test)]
mod told;
