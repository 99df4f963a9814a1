//! Requests and answers as values.
use http::Method;
use prop_map::{List, Str};

/// How the body of a request comes (RFC 9112, section 6).
#[derive(Clone, Copy, Debug, PartialEq, Eq)]
pub enum Framing {
    /// So many bytes: the value of Content-Length, or 0 where no field speaks of a body.
    Sized(u64),
    /// In chunks.
    Chunked,
}

/// The head of a request, whole and within the limits.
#[derive(Drop)]
pub struct Head {
    pub method: Method,
    /// The target as it was sent.
    pub target: Str,
    /// The target's path, decoded once.
    pub path: Str,
    /// Whether the method is HEAD, so that the answer has no body.
    pub head_only: bool,
    /// Whether the connection ends after this request.
    pub last: bool,
    /// The bytes of the head, its empty line included.
    pub length: usize,
    pub framing: Framing,
}

/// What bytes begin with, read as a request head.
#[derive(Drop)]
pub enum HeadRead {
    /// A proper prefix of a head within the limits.
    More,
    Whole(Head),
    /// No head, or one that no server may take: the answer is 400.
    Bad,
    /// A head above 16,384 bytes or 64 fields: the answer is 431.
    TooLarge,
    /// A transfer coding other than chunked, or more than one: the answer is 501.
    NotImplemented,
}

/// What bytes begin with, read as a chunked body.
#[derive(Drop)]
pub enum BodyRead {
    /// A proper prefix of a body within the limits.
    More,
    /// The content of the chunks, and the bytes of the body, its trailers included.
    Whole { body: List<u8>, length: usize },
    /// No chunks: the answer is 400.
    Bad,
    /// More than 65,536 bytes of content, or more than 1,048,576 bytes in all: the answer is 413.
    TooLarge,
}

/// A request with its body.
#[derive(Drop)]
pub struct Request {
    pub method: Method,
    /// The target as it was sent.
    pub target: Str,
    /// The target's path, decoded once.
    pub path: Str,
    pub body: List<u8>,
    /// Whether the method is HEAD.
    pub head_only: bool,
    /// Whether the connection ends after this request.
    pub last: bool,
}

/// What is answered to a request.
#[derive(Drop)]
pub struct Answered {
    /// The number of the status, as 200.
    pub status: u16,
    /// The number of the service whose text is the body, else 0.
    pub service: u64,
    pub body: List<u8>,
    /// Whether the connection ends after this answer.
    pub last: bool,
    /// Whether the body's bytes are left out, since the request was HEAD.
    pub head_only: bool,
}

/// Why a request got no answer.
#[derive(Clone, Copy, Debug, PartialEq, Eq)]
pub enum AnswerStop {
    /// There was no memory.
    OutOfMemory,
}
