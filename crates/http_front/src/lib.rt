//! Connections of HTTP/1.1: their requests asked in order, and the answers written (RFC 9112, section 9).
#![tactic(auto)]

mod answerer;
mod connection;
mod request_body;
mod request_reading;
mod wire;

pub use answerer::Answerer;
pub use connection::{ConnectionEnd, serve_connection};
pub use http_wire::{AnswerStop, Answered, Request};
