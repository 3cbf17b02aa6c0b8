//! What goes over a connection: requests and answers over HTTP, and the frames of a WebSocket.

use std::alloc::Global;
use std::io;
use std::io::{ErrorKind, Read, Write};
use std::net::TcpStream;

/// The body of an answer that comes over a connection until it ends.
pub fn body_over(alloc: Global, stream: TcpStream) -> Option<String> {
    let text = io::read_to_string(alloc, stream).ok()?;
    let (_, body) = text.as_str().split_once("\r\n\r\n")?;
    let length = body.len();
    let answer = format!(in alloc;
        "HTTP/1.1 200 OK\r\nContent-Type: text/plain; charset=UTF-8\r\nContent-Length: {length}\r\nConnection: close\r\n\r\n{body}"
    );
    if answer.ok()?.as_str() != text.as_str() {
        return None;
    }
    String::from_str(alloc, body).ok()
}

/// These bytes could be sent.
pub fn sends(stream: &TcpStream, bytes: &[u8]) -> bool {
    let mut writer = stream;
    writer.write_all(bytes).is_ok()
}

/// So many bytes that come over a connection.
fn bytes_from(alloc: Global, stream: &TcpStream, count: usize) -> Option<Vec<u8>> {
    let mut bytes = Vec::new(alloc);
    bytes.resize(count, 0).ok()?;
    let mut reader = stream;
    reader.read_exact(bytes.as_mut_slice()).ok()?;
    Some(bytes)
}

/// These bytes come next.
pub fn brings(alloc: Global, stream: &TcpStream, bytes: &[u8]) -> bool {
    match bytes_from(alloc, stream, bytes.len()) {
        Some(got) => got.as_slice() == bytes,
        None => false,
    }
}

/// A short text could be sent, in a frame that is masked by zeros.
pub fn says(alloc: Global, stream: &TcpStream, text: &str) -> bool {
    match frame_of(alloc, text) {
        Some(frame) => sends(stream, frame.as_slice()),
        None => false,
    }
}

fn frame_of(alloc: Global, text: &str) -> Option<Vec<u8>> {
    let length = u8::try_from(text.len()).ok()?;
    let mut frame = Vec::from_slice(alloc, &[0x81, 0x80 | length, 0, 0, 0, 0]).ok()?;
    frame.extend_from_slice(text.as_bytes()).ok()?;
    Some(frame)
}

/// The short text of the next frame.
fn text_of_frame(alloc: Global, stream: &TcpStream) -> Option<String> {
    let head = bytes_from(alloc, stream, 2)?;
    let length = match head.as_slice() {
        [0x81, length] if *length <= 125 => usize::from(*length),
        _ => return None,
    };
    String::from_utf8(bytes_from(alloc, stream, length)?).ok()
}

/// The next short text. On a slow machine a ping may come before it, which is answered.
pub fn next_text(alloc: Global, stream: &TcpStream) -> Option<String> {
    let text = text_of_frame(alloc, stream)?;
    if text.as_str() == "2" && says(alloc, stream, "3") {
        return text_of_frame(alloc, stream);
    }
    Some(text)
}

/// A close is answered by one, and then the connection ends.
pub fn closes(alloc: Global, stream: &TcpStream) -> bool {
    let is_closed = sends(stream, b"\x88\x80\0\0\0\0") && brings(alloc, stream, b"\x88\0");
    let mut byte = [0; 1];
    let mut reader = stream;
    let is_ended = match reader.read(&mut byte) {
        Ok(count) => count == 0,
        Err(error) => error.kind() == ErrorKind::ConnectionReset,
    };
    is_closed && is_ended
}
