//! The bytes of an answer.

use crate::edge::spoken::Spoken;
use http_edge::{EdgeError, OnStream, Status, write_response};
use std::alloc::Global;

/// A status, the origin that is named, if one is, what stands before the last field, and the body.
type Row = (Status, &'static str, &'static str, &'static str);

static ANSWERS: [Row; 7] = [
    (
        Status::Success,
        "",
        "200 OK\r\nContent-Type: text/plain; charset=UTF-8\r\nContent-Length: 2",
        "ok",
    ),
    (
        Status::Success,
        "http://a:1",
        "200 OK\r\nContent-Type: text/plain; charset=UTF-8\r\nContent-Length: 2\r\nAccess-Control-Allow-Origin: http://a:1\r\nVary: Origin",
        "ok",
    ),
    (
        Status::NoContent,
        "null",
        "204 No Content\r\nAccess-Control-Allow-Methods: GET, POST\r\nAccess-Control-Allow-Headers: Content-Type\r\nAccess-Control-Max-Age: 7200\r\nAccess-Control-Allow-Origin: null\r\nVary: Origin",
        "",
    ),
    (
        Status::BadRequest,
        "",
        "400 Bad Request\r\nContent-Type: application/json\r\nContent-Length: 40",
        REFUSED,
    ),
    (
        Status::NotFound,
        "",
        "404 Not Found\r\nContent-Type: text/plain; charset=UTF-8\r\nContent-Length: 0",
        "",
    ),
    (
        Status::TooLarge,
        "",
        "413 Payload Too Large\r\nContent-Type: text/plain; charset=UTF-8\r\nContent-Length: 0",
        "",
    ),
    (
        Status::Unavailable,
        "",
        "503 Service Unavailable\r\nContent-Type: text/plain; charset=UTF-8\r\nContent-Length: 0",
        "",
    ),
];

const REFUSED: &str = "{\"code\":0,\"message\":\"Transport unknown\"}";

const OK: &[u8] =
    b"HTTP/1.1 200 OK\r\nContent-Type: text/plain; charset=UTF-8\r\nContent-Length: 2\r\nConnection: close\r\n\r\nok";

/// What is answered over a wire that takes `room` bytes, so many at a time, and whether what was
/// written is the beginning of `want`, all of it where the answer is Ok.
fn answered(
    alloc: Global,
    (step, room): (usize, usize),
    (status, body): (Status, &str),
    origin: &Option<String>,
    want: &[u8],
) -> (Result<(), EdgeError>, bool) {
    let mut wire = OnStream::new(Spoken::silent(alloc, step, room));
    let answer = write_response(alloc, &mut wire, status, origin, body);
    let written = wire.get_mut().written.as_slice();
    let is_right = match answer {
        Ok(()) => written == want,
        Err(_) => want.starts_with(written),
    };
    (answer, is_right)
}

/// Whether a row is written, so many bytes at a time.
fn is_answered(alloc: Global, step: usize, row: &Row) -> Option<bool> {
    let (status, origin, head, body) = *row;
    let origin = if origin.is_empty() {
        None
    } else {
        Some(String::from_str(alloc, origin).ok()?)
    };
    let want = format!(in alloc; "HTTP/1.1 {head}\r\nConnection: close\r\n\r\n{body}").ok()?;
    let got = answered(
        alloc,
        (step, 1_000),
        (status, body),
        &origin,
        want.as_bytes(),
    );
    Some(got == (Ok(()), true))
}

#[test]
fn whole_answers(rt: HostRuntime) {
    for row in ANSWERS.iter() {
        for step in [1_000, 1] {
            let is_right = is_answered(rt.alloc(), step, row) == Some(true);
            assert!(rt; is_right, "by {step}: {}", row.2);
        }
    }
}

#[test]
fn the_writer_fails_at_each_byte(rt: HostRuntime) {
    for room in 0..OK.len() {
        let got = answered(rt.alloc(), (10, room), (Status::Success, "ok"), &None, OK);
        assert!(rt; got == (Err(EdgeError::Device), true), "after {room}");
    }
}
