//! A source of lines that may name the file of their document: `install @FILE` and `update B @FILE`.
//!
//! [`FileLines`] stands over the program's input. It hands such a line on with the file's bytes in place of `@FILE`,
//! and every other line as it is.
#![tactic(auto)]

mod ahead;
mod handed_line;
mod line_files;
mod line_source;
mod memory_files;
mod named_path;
mod pending;
mod prompt;
mod std_files;

pub use line_files::LineFiles;
pub use line_source::FileLines;
pub use memory_files::{MemoryFile, MemoryFiles};
pub use prompt::{NoPrompt, Prompt, StandardPrompt};
pub use std_files::StdFiles;
