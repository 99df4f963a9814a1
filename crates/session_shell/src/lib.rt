//! Sessions of the shell on a platform that others share: lines in, replies out.
//!
//! [`serve_session`] serves the lines of a source, each in its turn by the hall's calls, notes what each comes to, and
//! writes its reply before it reads on. Each reply is that of the line's own step: nothing is settled for it.
#![tactic(auto)]

mod item;
mod laws;
mod line_answer;
mod line_look;
mod line_serve;
mod line_stop;
mod session;
mod session_end;

pub use item::{SessionItem, SessionNotes};
pub use laws::note_served_lines;
pub use platform_sessions::{Hall, HallPass};
pub use session::{SessionKind, serve_session};
pub use session_end::SessionEnd;
