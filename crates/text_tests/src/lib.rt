//! Tests of the crates that read texts and documents: what no clause says of them. Each file has one subject.
#![tactic(auto)]

#[cfg(test)]
mod bundle_documents;
#[cfg(test)]
mod descriptions;
#[cfg(test)]
mod filters;
#[cfg(test)]
mod levels;
#[cfg(test)]
mod manifests;
#[cfg(test)]
mod properties;
#[cfg(test)]
mod shown;
#[cfg(test)]
mod versions;
