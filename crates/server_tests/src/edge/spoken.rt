//! A stream in memory, of which a test says what each read gives and how many bytes it takes.

use std::alloc::Global;
use std::io;
use std::io::{ErrorKind, Read, Write};

/// What one read gives.
#[derive(Clone, Copy, Debug)]
pub enum Piece {
    Bytes(&'static [u8]),
    Wait,
    Fail,
}

/// Gives these pieces, each at one read, and then ends; takes `room` bytes, at most `step` at a
/// time, and then fails.
#[derive(Drop)]
pub struct Spoken {
    pieces: Vec<Piece>,
    at: usize,
    step: usize,
    room: usize,
    pub written: Vec<u8>,
}

impl Spoken {
    pub fn new(alloc: Global, pieces: Vec<Piece>, room: usize) -> Spoken {
        Spoken {
            pieces,
            at: 0,
            step: usize::MAX,
            room,
            written: Vec::new(alloc),
        }
    }

    /// One that gives nothing.
    pub fn silent(alloc: Global, step: usize, room: usize) -> Spoken {
        let mut stream = Spoken::new(alloc, Vec::new(alloc), room);
        stream.step = step;
        stream
    }
}

impl Read for Spoken {
    fn read(&mut self, buf: &mut [u8]) -> io::Result<usize> {
        let Some(piece) = self.pieces.get(self.at) else {
            return Ok(0);
        };
        self.at = self.at.saturating_add(1);
        match piece {
            Piece::Bytes(bytes) => {
                let count = bytes.len().min(buf.len());
                buf[..count].copy_from_slice(&bytes[..count]);
                Ok(count)
            }
            Piece::Wait => Err(io::Error::from(ErrorKind::WouldBlock)),
            Piece::Fail => Err(io::Error::from(ErrorKind::ConnectionReset)),
        }
    }
}

impl Write for Spoken {
    fn write(&mut self, buf: &[u8]) -> io::Result<usize> {
        let count = buf.len().min(self.step).min(self.room);
        if (count == 0 && !buf.is_empty())
            || self.written.extend_from_slice(&buf[..count]).is_err()
        {
            return Err(io::Error::from(ErrorKind::ConnectionReset));
        }
        self.room -= count;
        Ok(count)
    }

    fn flush(&mut self) -> io::Result<()> {
        Ok(())
    }
}
