//! A stream of bytes that remembers whether it has failed.

ghost use Rattle.std.specs.Prelude.{◌≡◌, ◌<◌, ◌+◌, ◌^◌, ◌-◌, ℕ, List, Option, Bool, true, false, min, is_err, IfOk, length};
ghost use Rattle.std.specs.Io.{ReadsAtMost, WritesAtMost};
ghost use Rattle.std.specs.Io.KnownBytes.{ReadConsumes, WriteAppends};

use std::io::{Read, Write};

/// The one fault of a wire.
#[derive(Clone, Copy, Debug, PartialEq, Eq)]
pub struct Broken;

/// A reader and a writer, called as std's. It is broken after a call just where that call failed,
/// and then stays so.
pub trait Wire {
    // The bytes that are left to read, where they are known.
    ghost left: { Self → Option (List ℕ) };
    // The bytes that were written, where they are known.
    ghost written: { Self → Option (List ℕ) };
    // How many reads were asked of it; the count stays at the greatest u64.
    ghost reads: { Self → ℕ };

    ghost is_broken: { Self → Bool };

    fn read(&mut self, buf: &mut [u8]) -> Result<usize, Broken>
        ensures bound { ReadsAtMost result buf.new }
        ensures bytes { ReadConsumes (left self.old) (left self.new) result buf.new }
        ensures counted { reads self.new ≡ min (reads self.old + 1) (2 ^ 64 - 1) }
        ensures broken { is_broken self.new ≡ is_err result }
        ensures stays { is_broken self.old ≡ true → is_broken self.new ≡ true };

    fn write(&mut self, buf: &[u8]) -> Result<usize, Broken>
        ensures bound { WritesAtMost result buf.now }
        ensures bytes { WriteAppends (written self.old) (written self.new) result buf.now }
        ensures takes { 0 < length buf.now → IfOk result (λ n. 0 < n) }
        ensures broken { is_broken self.new ≡ is_err result }
        ensures stays { is_broken self.old ≡ true → is_broken self.new ≡ true };
}

/// A wire over any stream. A write that takes no byte of a piece breaks it.
#[derive(Drop)]
pub struct OnStream<S> {
    stream: S,
    reads: u64,
    broken: bool,
}

impl<S> OnStream<S> {
    ghost use Rattle.std.specs.Borrow.{Lends, sem};
    ghost use Rattle.http_edge.specs.contracts.wire.OnStream.{the_row};

    /// A wire over this stream, which was not read and is whole.
    pub fn new(stream: S) -> OnStream<S>
        ensures stream { result.stream ≡ stream }
        ensures reads { result.reads ≡ 0 }
        ensures whole { result.broken ≡ false }
    {
        OnStream {
            stream,
            reads: 0,
            broken: false,
        }
    }

    /// The stream, to look at.
    pub fn get_ref(&self) -> &S
        ensures { result.now ≡ self.now.stream }
    {
        &self.stream
    }

    /// The stream. What is done with it counts as no read, and breaks nothing.
    pub fn get_mut(&mut self) -> &mut S
        ensures* writes_back { sem 𝓛 (Lends (the_row S.row) S.row self.entry result
            (λ stream. record self.old { stream = stream })) }
        ensures value { result.now ≡ self.old.stream }
    {
        &mut self.stream
    }

    /// The stream, as it is now.
    pub fn into_stream(self) -> S
        ensures { result ≡ self.stream }
    {
        let OnStream { stream, .. } = self;
        stream
    }
}

impl<S: Read + Write> Wire for OnStream<S> {
    ghost left = { λ w. S.remaining w.stream };

    ghost written = { λ w. S.contents w.stream };

    ghost reads = { λ w. w.reads };

    ghost is_broken = { λ w. w.broken };

    fn read(&mut self, buf: &mut [u8]) -> Result<usize, Broken> {
        self.reads = self.reads.saturating_add(1);
        if self.broken {
            return Err(Broken);
        }
        let read = self.stream.read(buf);
        self.broken = read.is_err();
        read.map_err(|_| Broken)
    }

    fn write(&mut self, buf: &[u8]) -> Result<usize, Broken> {
        if self.broken {
            return Err(Broken);
        }
        match self.stream.write(buf) {
            Ok(count) if count > 0 || buf.is_empty() => Ok(count),
            _ => {
                self.broken = true;
                Err(Broken)
            }
        }
    }
}
