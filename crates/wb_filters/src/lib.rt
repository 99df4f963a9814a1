//! The chains of the whiteboard for HTTP: which filters a request's path goes through, and which page tells of a status
//! (OSGi Compendium 8, chapter 140).
#![tactic(auto)]

mod board_service;
mod chains;
mod contexts;
mod filters;
mod fitting;
mod pages;

pub use chains::Chains;
