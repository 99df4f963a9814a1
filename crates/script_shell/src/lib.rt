//! The shell of the platform: lines in, replies out.
//!
//! [`run_script`] runs what the words of a command line ask for: the lines of a source, each with its reply, or those of a
//! load. [`run_told`] is the same run, of which someone is told. [`run_program`] is the whole of the program over given words
//! and ends.
//!
//! What sessions share with scripts is public beside it: how lines are read, what lines are told that only look, and how a text
//! is written.
#![tactic(auto)]

mod asked;
mod asked_text;
mod calling;
mod component_listings;
mod form;
mod form_run;
mod form_words;
mod graph;
mod graph_components;
mod graph_holds;
mod journal_replay;
mod line_answer;
mod line_ask;
mod line_input;
mod line_run;
mod listings;
mod load_answers;
mod load_counts;
mod load_line;
mod load_run;
mod look;
mod notes;
mod program_run;
mod readings;
mod reply_output;
mod requests;
mod routes;
mod script_run;
mod service_facts;
mod status;
mod tells;
mod told_reply;
mod told_run;
mod wiring;

pub use asked_text::text_asked;
pub use form::{AskedText, Form, LoadNumbers, ScriptOptions};
pub use form_run::run_script;
pub use form_words::form_of;
pub use line_ask::{AskStep, read_ask};
pub use line_input::{LineStep, ReadAhead, next_line};
pub use load_run::run_load;
pub use look::{is_look, look_at};
pub use notes::{note_all_built, note_own_names};
pub use platform_hall::Platform;
pub use program_run::run_program;
pub use reply_output::write_all;
pub use status::Status;
pub use tells::{Tells, Texts};
pub use told_run::run_told;
