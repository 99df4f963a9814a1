//! Requests and answers of HTTP/1.1.

use http_wire::{
    Answered, BodyRead, ChunkReader, HeadRead, push_response, read_chunks, read_head, read_method,
    read_path, write_response,
};
use prop_map::{List, OutOfMemory};
use std::alloc::Global;

fn reads_head(alloc: Global, bytes: &[u8], target: &str, path: &str) -> bool {
    match read_head(alloc, bytes) {
        Ok(HeadRead::Whole(head)) => head.target.as_str() == target && head.path.as_str() == path,
        _ => false,
    }
}

const HEAD: &[u8] = b"GET /a%20b?c HTTP/1.1\r\nHost: h\r\n\r\n";

#[test]
fn a_head_is_read(rt: HostRuntime) {
    assert!(rt; reads_head(rt.alloc(), HEAD, "/a%20b?c", "/a b"));
}

fn reads_method(alloc: Global, bytes: &[u8], text: &str) -> bool {
    match read_method(alloc, bytes) {
        Ok(Some(method)) => method.as_str() == text,
        _ => false,
    }
}

#[test]
fn a_method_is_read(rt: HostRuntime) {
    assert!(rt; reads_method(rt.alloc(), b"M-SEARCH", "M-SEARCH"));
}

fn reads_path(alloc: Global, target: &str, path: &str) -> bool {
    match read_path(alloc, target) {
        Ok(Some(found)) => found.as_str() == path,
        _ => false,
    }
}

#[test]
fn a_path_is_read(rt: HostRuntime) {
    assert!(rt; reads_path(rt.alloc(), "http://h/a%20b?c", "/a b"));
}

const CHUNKS: &[u8] = b"3\r\nabc\r\n0\r\n\r\n";

// Whether the body of those chunks was read to its end.
fn is_whole(read: &BodyRead) -> bool {
    match read {
        BodyRead::Whole { body, length } => body.as_slice() == b"abc".as_slice() && *length == 13,
        _ => false,
    }
}

fn reads_chunks(alloc: Global) -> bool {
    match read_chunks(alloc, CHUNKS) {
        Ok(read) => is_whole(&read),
        Err(_) => false,
    }
}

#[test]
fn chunks_are_read(rt: HostRuntime) {
    assert!(rt; reads_chunks(rt.alloc()));
}

fn wants_more(reader: &mut ChunkReader, front: &[u8]) -> bool {
    match reader.read(front) {
        Ok(read) => matches!(read, BodyRead::More),
        Err(_) => false,
    }
}

fn ends(reader: &mut ChunkReader, rest: &[u8]) -> bool {
    match reader.read(rest) {
        Ok(read) => is_whole(&read),
        Err(_) => false,
    }
}

fn reads_in_pieces(alloc: Global) -> bool {
    let mut reader = ChunkReader::new(alloc);
    let (front, rest) = CHUNKS.split_at(5);
    wants_more(&mut reader, front) && ends(&mut reader, rest)
}

#[test]
fn chunks_are_read_in_pieces(rt: HostRuntime) {
    assert!(rt; reads_in_pieces(rt.alloc()));
}

const TEXT: &[u8] =
    b"HTTP/1.1 200 OK\r\nservice-id: 7\r\ncontent-type: text/plain; charset=utf-8\r\ncontent-length: 2\r\nconnection: close\r\n\r\nab";

fn is_text(written: Result<Vec<u8>, OutOfMemory>) -> bool {
    match written {
        Ok(bytes) => bytes.as_slice() == TEXT,
        Err(_) => false,
    }
}

// Whether an answer is written so, and behind what was written before.
fn writes(alloc: Global, body: Vec<u8>) -> bool {
    let answer = Answered {
        status: 200,
        service: 7,
        body: List::of(body),
        last: true,
        head_only: false,
    };
    let mut bytes = Vec::new(alloc);
    is_text(write_response(alloc, &answer))
        && push_response(&mut bytes, &answer).is_ok()
        && bytes.as_slice() == TEXT
}

fn writes_answer(alloc: Global) -> bool {
    match b"ab".to_vec(alloc) {
        Ok(body) => writes(alloc, body),
        Err(_) => false,
    }
}

#[test]
fn an_answer_is_written(rt: HostRuntime) {
    assert!(rt; writes_answer(rt.alloc()));
}
