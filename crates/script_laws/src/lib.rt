//! A law of the runs of scripts and loads: what two of them leave that are alike. It is a clause of a function that does
//! nothing.
#![tactic(auto)]

mod same_runs;

pub use same_runs::note_script_journal;
