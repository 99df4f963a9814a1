//! Where a program's bytes come from and go to, with a count of faults at each end, and decimal numbers.
#![tactic(auto)]

mod decimal_text;
mod interruptions;
mod memory_sink;
mod memory_source;
mod sink;
mod source;
mod std_sink;
mod std_source;

pub use decimal_text::decimal;
pub use memory_sink::MemorySink;
pub use memory_source::MemorySource;
pub use sink::{Sink, WriteStep};
pub use source::{ReadStep, Source};
pub use std_sink::StdSink;
pub use std_source::StdSource;
