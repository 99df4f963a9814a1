//! What a program of shell lines tells people: the texts that its words ask for, and sentences on standard error.
//!
//! A [`Terminal`] is told of a run. No clause speaks of its texts, and a write to standard error that fails is passed
//! over. The run itself, [`run_program`], is passed on.
#![tactic(auto)]

mod argument;
mod command;
mod document_hints;
mod excerpt;
mod faulty_fields;
mod fields;
mod hints;
mod like_fields;
mod near_words;
mod places;
mod refusal_hints;
mod sentences;
mod terminal;

pub use script_shell::{Status, run_program};
pub use terminal::Terminal;
