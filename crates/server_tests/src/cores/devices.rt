//! A reader and writers over memory.

use std::io;
use std::io::{ErrorKind, Read, Write};

/// A position in a list of pieces.
#[derive(Clone, Copy)]
struct Position<'a> {
    pieces: &'a [&'a [u8]],
    index: usize,
    at: usize,
}

impl<'a> Position<'a> {
    fn first(pieces: &'a [&'a [u8]]) -> Position<'a> {
        Position {
            pieces,
            index: 0,
            at: 0,
        }
    }

    /// Goes past the pieces of which nothing is left.
    fn skip(&mut self) {
        for _ in 0..self.pieces.len() {
            match self.pieces.get(self.index) {
                Some(piece) if piece.len() <= self.at => {
                    self.index = self.index.saturating_add(1);
                    self.at = 0;
                }
                _ => return,
            }
        }
    }

    /// The next byte.
    fn next(&mut self) -> Option<u8> {
        self.skip();
        let piece = self.pieces.get(self.index)?;
        let byte = *piece.get(self.at)?;
        self.at = self.at.saturating_add(1);
        Some(byte)
    }
}

/// A reader that gives one piece a read, in more reads where it is longer than what is asked for.
/// It may fail once, after the first piece.
#[derive(Clone, Copy)]
pub struct Tape<'a> {
    position: Position<'a>,
    fails: Option<ErrorKind>,
}

impl<'a> Tape<'a> {
    /// A reader that doesn't fail.
    pub fn sound(pieces: &'a [&'a [u8]]) -> Tape<'a> {
        Tape {
            position: Position::first(pieces),
            fails: None,
        }
    }

    /// A reader that fails in this way after the first piece.
    pub fn failing(pieces: &'a [&'a [u8]], fails: ErrorKind) -> Tape<'a> {
        Tape {
            position: Position::first(pieces),
            fails: Some(fails),
        }
    }
}

impl Read for Tape<'_> {
    fn read(&mut self, buffer: &mut [u8]) -> io::Result<usize> {
        self.position.skip();
        if self.position.index == 1 {
            if let Some(kind) = self.fails.take() {
                return Err(io::Error::from(kind));
            }
        }
        let Some(piece) = self.position.pieces.get(self.position.index) else {
            return Ok(0);
        };
        let Some(mut rest) = piece.get(self.position.at..) else {
            return Ok(0);
        };
        let count = rest.read(buffer)?;
        self.position.at = self.position.at.saturating_add(count);
        Ok(count)
    }
}

/// A writer that compares what is written with what is wanted, and keeps nothing.
#[derive(Clone, Copy)]
pub struct Paper<'a> {
    position: Position<'a>,
    /// How many bytes were as wanted.
    right: u64,
    /// How many bytes were not.
    wrong: u64,
}

impl<'a> Paper<'a> {
    /// A writer on which these pieces are wanted, one after the other.
    pub fn wanting(pieces: &'a [&'a [u8]]) -> Paper<'a> {
        Paper {
            position: Position::first(pieces),
            right: 0,
            wrong: 0,
        }
    }

    /// Whether nothing was written but what is wanted.
    pub fn is_begun(&self) -> bool {
        self.wrong == 0
    }

    /// Whether just what is wanted was written.
    pub fn is_whole(&self) -> bool {
        let mut position = self.position;
        self.wrong == 0 && position.next().is_none()
    }

    /// How many bytes were as wanted.
    pub fn right(&self) -> u64 {
        self.right
    }
}

impl Write for Paper<'_> {
    fn write(&mut self, bytes: &[u8]) -> io::Result<usize> {
        for byte in bytes {
            if self.wrong == 0 && self.position.next() == Some(*byte) {
                self.right = self.right.saturating_add(1);
            } else {
                self.wrong = self.wrong.saturating_add(1);
            }
        }
        Ok(bytes.len())
    }

    fn flush(&mut self) -> io::Result<()> {
        Ok(())
    }
}

/// A writer that notes how much was written at each flush.
#[derive(Clone, Copy)]
pub struct Flushes {
    written: u64,
    noted: [u64; 8],
    count: usize,
}

impl Flushes {
    /// A writer on which nothing was written.
    pub fn none() -> Flushes {
        Flushes {
            written: 0,
            noted: [0; 8],
            count: 0,
        }
    }

    /// How much was written at each of the first eight flushes.
    pub fn noted(&self) -> &[u64] {
        let count = self.count.min(8);
        &self.noted[..count]
    }
}

impl Write for Flushes {
    fn write(&mut self, bytes: &[u8]) -> io::Result<usize> {
        self.written = self.written.saturating_add(bytes.len() as u64);
        Ok(bytes.len())
    }

    fn flush(&mut self) -> io::Result<()> {
        if let Some(position) = self.noted.get_mut(self.count) {
            *position = self.written;
        }
        self.count = self.count.saturating_add(1);
        Ok(())
    }
}
