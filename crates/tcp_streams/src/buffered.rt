//! A stream that never waits, and sends what was written at one call.

ghost use Rattle.std.specs.Prelude.{◌≡◌, ◌≤◌, [], true, length};

use mio::net::TcpStream;
use std::alloc::Global;
use std::io::{ErrorKind, Read, Write};
use std::{io, mem};

/// An output buffer that grew past this, in bytes, is given back as soon as it is empty: the next
/// connection that sends much takes the same memory.
const KEPT: usize = 32_768;

/// A write of so many bytes is one of many, as broadcasts of that size are taken together.
const MUCH: usize = 4_096;

/// How many bytes the output has room for then, so that it doesn't grow by each: as many as one
/// take of a client hands out.
const AHEAD: usize = 262_144;

/// What a connection reads and writes.
pub type Stream = Box<Buffered<TcpStream>>;

/// Reads from a stream whose reads do not wait, and keeps what is written until `send`.
#[derive(Drop)]
pub struct Buffered<S> {
    pub inner: S,
    /// The stream has no byte until it is reported ready again.
    pub drained: bool,
    // The other side has sent its last byte, so that a short read is no sign of a drained stream.
    ended: bool,
    // Nothing more is read of it, or sent.
    cut: bool,
    /// How many bytes at the most were read of which its reader has brought no message yet.
    pub unbrought: usize,
    /// With so many of these nothing is read, as if none had come, until the other side has ended.
    pub most: usize,
    output: Vec<u8>,
    sent: usize,
    // Something was read or written since the last beat.
    used: bool,
    // So it was since buffers were given back.
    kept: bool,
    ghost in_output: { sent ≤ length output.items },
    ghost emptied: { cut ≡ true → length output.items ≡ 0 },
}

impl<S> Buffered<S> {
    ghost use Rattle.std.specs.Prelude.{false};
    ghost use Rattle.tcp_streams.specs.Outputs.{HasGone, is_cut, reads_by, waiting};

    /// Nothing was read or written yet.
    pub fn new(alloc: Global, inner: S) -> Buffered<S>
        ensures stream { result.inner ≡ inner }
        ensures whole { is_cut result ≡ false }
        ensures since { HasGone [] 0 (waiting result) }
    {
        Buffered {
            inner,
            drained: false,
            ended: false,
            cut: false,
            unbrought: 0,
            most: usize::MAX,
            output: Vec::new(alloc),
            sent: 0,
            used: false,
            kept: false,
        }
    }

    /// The stream was reported readable, and whether its other side has sent its last byte.
    pub fn note_readable(&mut self, ended: bool)
        ensures waits { waiting self.new ≡ waiting self.old }
        ensures stream { self.new.inner ≡ self.old.inner }
        ensures cut { is_cut self.new ≡ is_cut self.old }
        ensures readable { self.new.drained ≡ false }
    {
        self.drained = false;
        self.ended |= ended;
    }

    /// From now on each read tells the end of the stream, and nothing is sent.
    pub fn cut(&mut self)
        ensures cut { is_cut self.new ≡ true }
        ensures nothing { waiting self.new ≡ [] }
        ensures stream { self.new.inner ≡ self.old.inner }
    {
        self.forget();
        self.cut = true;
    }

    /// How many bytes wait to be sent.
    pub fn unsent(&self) -> usize
        ensures { result ≡ length (waiting self.now) }
    {
        self.output.len() - self.sent
    }

    fn forget(&mut self)
        ensures nothing { waiting self.new ≡ [] }
        ensures empty { length self.new.output.items ≡ 0 }
        ensures stream { self.new.inner ≡ self.old.inner }
        ensures reads { reads_by self.new ≡ reads_by self.old }
    {
        self.sent = 0;
        if self.output.capacity() > KEPT {
            self.output = Vec::new(*self.output.allocator());
        } else {
            self.output.clear();
        }
    }

    /// A beat has come: where nothing was read or written since the last one, and nothing waits,
    /// the output buffer is given back. Until then it stays, since who sends in one round sends in
    /// the next. Answers whether the buffers of who reads and writes are to be given back too.
    pub fn give_back(&mut self) -> bool
        ensures waits { waiting self.new ≡ waiting self.old }
        ensures stream { self.new.inner ≡ self.old.inner }
        ensures reads { reads_by self.new ≡ reads_by self.old }
    {
        let was_used = mem::replace(&mut self.used, false);
        if was_used || self.unsent() > 0 || self.unbrought > 0 {
            return false;
        }
        self.sent = 0;
        self.output = Vec::new(*self.output.allocator());
        mem::replace(&mut self.kept, false)
    }
}

impl<S: Write> Buffered<S> {
    ghost use Rattle.std.specs.Prelude.{ℕ, List, ◌+◌, ◌≢◌, IfOk, IfErr};
    ghost use Rattle.std.specs.IoError.{error_kind};
    ghost use Rattle.tcp_streams.specs.Outputs.{HandsFirst, HasGone, reads_by, waiting};

    /// Sends what waits, as far as the stream takes it, and tells how many bytes that were. Where
    /// it fails, some may have gone, and the others wait on.
    pub fn send(&mut self) -> io::Result<usize>
        ensures first { HandsFirst (S.contents self.old.inner) (S.contents self.new.inner)
            (waiting self.old) (waiting self.new) }
        ensures count { IfOk result (λ n.
            length (waiting self.old) ≡ n + length (waiting self.new)) }
        ensures since { IfOk result (λ n. (written : List ℕ) → (gone : ℕ)
            → HasGone written gone (waiting self.old)
            → HasGone written (gone + n) (waiting self.new)) }
        ensures reads { reads_by self.new ≡ reads_by self.old }

        // A stream that takes no more for now is no failure.
        ensures fault { IfErr result (λ e. error_kind e ≢ ErrorKind.WouldBlock) }
    {
        let before = self.unsent();
        while self.unsent() > 0 {
            match self.inner.write(&self.output[self.sent..]) {
                Ok(0) => return Err(io::Error::from(ErrorKind::WriteZero)),
                Ok(count) => self.sent += count,
                Err(error) if error.kind() == ErrorKind::WouldBlock => {
                    return Ok(before - self.unsent());
                }
                Err(error) => return Err(error),
            }
        }
        self.forget();
        Ok(before)
    }
}

impl<S: Read> Read for Buffered<S> {
    ghost use Rattle.std.specs.Prelude.{◌+◌, ◌-◌, ◌^◌, min, false, Ok, IfOk};
    ghost use Rattle.std.specs.Io.{ReadsAtMost};
    ghost use Rattle.std.specs.Io.KnownBytes.{ReadConsumes};
    ghost use Rattle.tcp_streams.specs.Outputs.{is_cut, left, rests, waiting};

    ghost remaining = { left S.remaining };

    fn read(&mut self, buf: &mut [u8]) -> io::Result<usize>
        ensures bound { ReadsAtMost result buf.new }
        ensures bytes { ReadConsumes (left S.remaining self.old) (left S.remaining self.new)
            result buf.new }
        ensures ended { is_cut self.old ≡ true → result ≡ Ok 0 }

        // Where it rests its stream isn't asked.
        ensures unasked { rests self.old ≡ true → self.new.inner ≡ self.old.inner }
        ensures unbrought { IfOk result (λ n. is_cut self.old ≡ false
            → self.new.unbrought ≡ min (self.old.unbrought + n) (2 ^ 64 - 1)) }
        ensures stays { (waiting self.new ≡ waiting self.old)
            × (is_cut self.new ≡ is_cut self.old) }
    {
        self.kept = true;
        if self.cut {
            return Ok(0);
        }
        // What came before the last byte is little, and its reader is done then.
        if self.drained || (self.unbrought >= self.most && !self.ended) {
            return Err(io::Error::from(ErrorKind::WouldBlock));
        }
        let read = self.inner.read(buf);
        match &read {
            Ok(count) => {
                self.drained = *count < buf.len() && !self.ended;
                self.unbrought = self.unbrought.saturating_add(*count);
                self.used = true;
            }
            Err(error) => self.drained = error.kind() == ErrorKind::WouldBlock,
        }
        read
    }
}

impl<S> Write for Buffered<S> {
    ghost use Rattle.std.specs.Prelude.{ℕ, List, ◌++◌, false, IfOk};
    ghost use Rattle.std.specs.Io.{WritesAtMost};
    ghost use Rattle.std.specs.Io.KnownBytes.{Keeps, WriteAppends};
    ghost use Rattle.tcp_streams.specs.Outputs.{HasGone, held, is_cut, reads_by, waiting};

    ghost contents = { held };

    fn write(&mut self, buf: &[u8]) -> io::Result<usize>
        ensures bound { WritesAtMost result buf.now }
        ensures bytes { WriteAppends (held self.old) (held self.new) result buf.now }
        ensures whole { IfOk result (λ n. n ≡ length buf.now) }
        ensures since { IfOk result (λ _. is_cut self.old ≡ false
            → (written : List ℕ) → (gone : ℕ) → HasGone written gone (waiting self.old)
            → HasGone (written ++ buf.now) gone (waiting self.new)) }
        ensures cut { is_cut self.old ≡ true → waiting self.new ≡ waiting self.old }
        ensures stays { (self.new.inner ≡ self.old.inner)
            × (reads_by self.new ≡ reads_by self.old) }
    {
        if !self.cut {
            self.used = true;
            self.kept = true;
            if buf.len() >= MUCH && self.output.capacity() < AHEAD {
                self.output.reserve(AHEAD)?;
            }
            self.output.extend_from_slice(buf)?;
        }
        Ok(buf.len())
    }

    fn flush(&mut self) -> io::Result<()>
        ensures bytes { Keeps (held self.old) (held self.new) }
        ensures same { self.new ≡ self.old }
    {
        Ok(())
    }
}
