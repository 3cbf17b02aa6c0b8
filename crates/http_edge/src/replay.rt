//! A stream whose first bytes were read before.

ghost use Rattle.std.specs.Prelude.{◌≡◌, ◌≤◌, drop, length};
ghost use Rattle.std.specs.Io.KnownBytes.{prepend_known};

use std::io;
use std::io::{Read, Write};

/// Reads these bytes first and then the stream; writes go to the stream. No read crosses from the
/// bytes to the stream.
#[derive(Drop)]
pub struct Replay<S> {
    bytes: Vec<u8>,
    start: usize,
    stream: S,
    ghost in_bytes: { start ≤ length bytes.items },
}

impl<S> Replay<S> {
    ghost use Rattle.std.specs.Borrow.{Lends, sem};
    ghost use Rattle.http_edge.specs.contracts.replay.Replay.{the_row};

    /// Nothing of the bytes was read yet.
    pub fn new(bytes: Vec<u8>, stream: S) -> Replay<S>
        ensures bytes { result.bytes ≡ bytes }
        ensures unread { result.start ≡ 0 }
        ensures stream { result.stream ≡ stream }
    {
        Replay {
            bytes,
            start: 0,
            stream,
        }
    }

    /// The stream behind the bytes, to look at.
    pub fn get_ref(&self) -> &S
        ensures { result.now ≡ self.now.stream }
    {
        &self.stream
    }

    /// The stream behind the bytes.
    pub fn get_mut(&mut self) -> &mut S
        ensures* writes_back { sem 𝓛 (Lends (the_row S.row) S.row self.entry result
            (λ stream. record self.old { stream = stream })) }
        ensures value { result.now ≡ self.old.stream }
    {
        &mut self.stream
    }
}

impl<S: Read> Read for Replay<S> {
    ghost remaining = { λ r. prepend_known (drop r.start r.bytes.items) (S.remaining r.stream) };

    fn read(&mut self, buf: &mut [u8]) -> io::Result<usize> {
        if self.start >= self.bytes.len() {
            return self.stream.read(buf);
        }
        let rest = &self.bytes[self.start..];
        let count = rest.len().min(buf.len());
        buf[..count].copy_from_slice(&rest[..count]);
        self.start += count;
        Ok(count)
    }
}

impl<S: Write> Write for Replay<S> {
    ghost contents = { λ r. S.contents r.stream };

    fn write(&mut self, buf: &[u8]) -> io::Result<usize> {
        self.stream.write(buf)
    }

    fn flush(&mut self) -> io::Result<()> {
        self.stream.flush()
    }
}
