//! Heads, chunked bodies and answers of HTTP/1.1 as bytes (RFC 9112).
#![tactic(auto)]

mod body_reading;
mod chunk_needs;
mod chunk_place;
mod chunk_reader;
mod chunk_scan;
mod continuation;
mod field_values;
mod head_meaning;
mod head_reading;
mod inside_target;
mod messages;
mod method_token;
mod pieces;
mod response_text;
mod target_path;

pub use body_reading::read_chunks;
pub use chunk_reader::ChunkReader;
pub use head_reading::read_head;
pub use messages::{AnswerStop, Answered, BodyRead, Framing, Head, HeadRead, Request};
pub use method_token::read_method;
pub use response_text::{push_response, write_response};
pub use target_path::read_path;
