//! The words of a line, and what they say. What is missing is empty, and no number is 0.

use journal::{Cast, Config, Form, HubError};
use recovery::Pid;
use std::alloc::{AllocError, Global};
use terms::{Attachments, Bytes, Entry, Room, Sid, Text};

/// A line's words. In lines that are repeated `*` is the number of times that they were played.
#[derive(Clone, Copy)]
pub struct Words<'a> {
    line: &'a str,
    star: u64,
}

/// The bytes that the log may have, where the word behind the namespaces is no number.
const LOG_BYTES: usize = 67_108_864;

fn number(word: &str) -> u64 {
    word.parse().unwrap_or(0)
}

/// The bytes of an attachment.
fn part(alloc: Global, numbers: &str) -> Result<Bytes, AllocError> {
    let mut bytes = Vec::new(alloc);
    for number in numbers.split('.') {
        bytes.push(number.parse().unwrap_or(0))?;
    }
    Ok(Bytes::from_vec(bytes))
}

/// Attachments by the numbers of their bytes, or none by an empty word.
fn parts(alloc: Global, list: &str) -> Result<Attachments, AllocError> {
    let mut parts = Attachments::new(alloc);
    if !list.is_empty() {
        for numbers in list.split(',') {
            parts.push(part(alloc, numbers)?)?;
        }
    }
    Ok(parts)
}

impl<'a> Words<'a> {
    pub fn of(line: &'a str, star: u64) -> Words<'a> {
        Words { line, star }
    }

    pub fn word(&self, index: usize) -> &'a str {
        self.line.split(' ').nth(index).unwrap_or("")
    }

    pub fn number(&self, index: usize) -> u64 {
        match self.word(index) {
            "*" => self.star,
            word => number(word),
        }
    }

    fn id_by(&self, word: &str) -> u128 {
        match word {
            "*" => u128::from(self.star),
            word => word.parse().unwrap_or(0),
        }
    }

    pub fn id(&self, index: usize) -> u128 {
        self.id_by(self.word(index))
    }

    pub fn sid(&self, index: usize) -> Sid {
        Sid::new(self.id(index))
    }

    pub fn pid(&self, index: usize) -> Pid {
        Pid::new(self.id(index))
    }

    /// A room by its name, or a socket's own by `@` and its id. For `*` it's the own room of a
    /// socket that there is none of.
    fn room_by(&self, name: &str) -> Room {
        if name == "*" {
            return Room::own(Sid::new(u128::from(self.star.saturating_add(1000))));
        }
        match name.strip_prefix('@') {
            Some(sid) => Room::own(Sid::new(self.id_by(sid))),
            None => Room::read(name).unwrap_or(Room::own(Sid::new(0))),
        }
    }

    pub fn room(&self, index: usize) -> Room {
        self.room_by(self.word(index))
    }

    /// Rooms with commas between them. One that is called `-` counts for nothing.
    pub fn rooms(&self, alloc: Global, index: usize) -> Result<Vec<Room>, AllocError> {
        let mut rooms = Vec::new(alloc);
        for name in self.word(index).split(',') {
            if name != "-" {
                rooms.push(self.room_by(name))?;
            }
        }
        Ok(rooms)
    }

    fn text(&self, alloc: Global, index: usize) -> Result<Text, AllocError> {
        Text::copy_of(alloc, self.word(index))
    }

    /// A text and its attachments.
    pub fn entry(&self, alloc: Global) -> Result<Entry, AllocError> {
        Ok(Entry {
            text: self.text(alloc, 2)?,
            attachments: parts(alloc, self.word(3))?,
        })
    }

    /// A broadcast, which is logged where it is called `cast`.
    pub fn cast(&self, alloc: Global) -> Result<Cast, AllocError> {
        Ok(Cast {
            space: self.text(alloc, 1)?,
            rooms: self.rooms(alloc, 2)?,
            excepted: self.rooms(alloc, 3)?,
            form: Form::Event {
                logged: self.word(0) == "cast",
            },
            payload: self.text(alloc, 4)?,
            attachments: parts(alloc, self.word(5))?,
        })
    }

    fn spaces(&self, alloc: Global) -> Result<Vec<Text>, AllocError> {
        let mut names = Vec::new(alloc);
        for name in self.word(8).split(',') {
            names.push(Text::copy_of(alloc, name)?)?;
        }
        Ok(names)
    }

    /// The limits of a hub.
    pub fn config(&self, alloc: Global) -> Result<Config, HubError> {
        Ok(Config {
            clients: self.number(1) as usize,
            capacity: self.number(2) as usize,
            bytes: self.number(3) as usize,
            log: self.number(4) as usize,
            log_bytes: self.word(9).parse().unwrap_or(LOG_BYTES),
            saved: self.number(5) as usize,
            keep: self.number(6),
            first_offset: self.number(7),
            spaces: self.spaces(alloc)?,
        })
    }
}
