//! The shells of the platform, handed on from their crates: [`run_script`] runs the lines of one script or of a load
//! (`script_shell`), and [`serve_session`] serves the lines of one of many connections to a platform that all share
//! (`session_shell`).
#![tactic(auto)]

pub use script_shell::{
    AskedText, Form, LoadNumbers, Platform, ScriptOptions, Status, Tells, Texts, form_of, run_load,
    run_program, run_script, run_told, text_asked,
};
pub use session_shell::{
    Hall, HallPass, SessionEnd, SessionItem, SessionKind, SessionNotes, serve_session,
};
