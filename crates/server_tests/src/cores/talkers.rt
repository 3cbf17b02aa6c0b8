//! Peers that play clients, each from its first event to its end.

use events::{Answered, Event, Outcome, Peer, PeerFault};
use std::alloc::{AllocError, Global};
use std::sync::atomic::{AtomicU64, Ordering};
use terms::Text;

/// How many events a talker sends to all.
pub const SAYS: u8 = 25;

/// A client that connects and joins a room. A talker then says 25 things to all, and takes by 1,
/// 2, 3 .. until nothing waits. It fails where an offset that it took doesn't rise, and where it
/// didn't take as many as it said.
#[derive(Drop)]
pub struct Talker<'a> {
    alloc: Global,
    letter: u8,
    client: u128,
    /// How many of its events were answered.
    turn: u8,
    /// How many offsets it took, and the last one.
    offsets: u8,
    last_offset: u64,
    /// Where it notes that it has joined.
    joined: &'a AtomicU64,
    talks: bool,
    is_done: bool,
}

impl<'a> Talker<'a> {
    fn posts(&self, text: &str) -> Result<Event, AllocError> {
        let body = Text::copy_of(self.alloc, text)?;
        let client = self.client;
        Ok(Event::Post { client, body })
    }

    fn event(&self) -> Result<Event, AllocError> {
        let (client, letter) = (self.client, char::from(self.letter));
        match self.turn {
            0 => Ok(Event::Opened { socket: false }),
            1 => self.posts("40"),
            2 => self.posts("42[\"join\",\"r\"]"),
            turn => {
                let number = turn.wrapping_sub(3);
                if number < SAYS {
                    let text = format!(in self.alloc; "42[\"all\",\"{letter}{number:02}\"]")?;
                    return self.posts(text.as_str());
                }
                let most = usize::from(number.wrapping_sub(SAYS)).wrapping_add(1);
                Ok(Event::PollTake { client, most })
            }
        }
    }

    /// Whether the offsets in a payload rise, from the last one that came.
    fn offsets_rise(&mut self, payload: &str) -> bool {
        for word in payload.split('"').filter(|word| word.len() == 16) {
            if let Ok(offset) = u64::from_str_radix(word, 16) {
                if offset <= self.last_offset {
                    return false;
                }
                self.last_offset = offset;
                self.offsets = self.offsets.wrapping_add(1);
            }
        }
        true
    }

    /// Where its CONNECT, its join or what it said was worked on.
    fn note_done(&mut self) {
        if self.turn == 2 {
            self.joined.store(1, Ordering::SeqCst);
            self.is_done = !self.talks;
        }
    }
}

impl<'a> Peer for Talker<'a> {
    fn next(&mut self) -> Result<Option<(Event, u64)>, PeerFault> {
        if self.is_done {
            return Ok(None);
        }
        let event = self.event().map_err(|_| PeerFault::Memory)?;
        Ok(Some((event, 0)))
    }

    fn answer(&mut self, got: &Answered) -> Result<(), PeerFault> {
        match got {
            Ok(Outcome::Opened(opening)) => self.client = opening.client,
            Ok(Outcome::Done(done)) if done.closed.is_none() => self.note_done(),
            Ok(Outcome::Payload(text)) => {
                if !self.offsets_rise(text.as_str()) {
                    return Err(PeerFault::Ended);
                }
            }
            Ok(Outcome::Nothing) if self.offsets >= SAYS => self.is_done = true,
            _ => return Err(PeerFault::Ended),
        }
        self.turn = self.turn.wrapping_add(1);
        Ok(())
    }
}

/// So many talkers, with the letters from `a` on, or clients that are done once they have joined.
pub fn talkers<'a>(
    alloc: Global,
    count: u8,
    joined: &'a AtomicU64,
    talks: bool,
) -> Result<Vec<Talker<'a>>, AllocError> {
    let mut all = Vec::new(alloc);
    for number in 0..count {
        all.push(Talker {
            alloc,
            letter: b'a'.wrapping_add(number),
            client: 0,
            turn: 0,
            offsets: 0,
            last_offset: 0,
            joined,
            talks,
            is_done: false,
        })?;
    }
    Ok(all)
}

/// A peer that fails: at once, or where its `Opened` is answered.
#[derive(Drop)]
pub struct Failing {
    pub opens: bool,
}

impl Peer for Failing {
    fn next(&mut self) -> Result<Option<(Event, u64)>, PeerFault> {
        if self.opens {
            return Ok(Some((Event::Opened { socket: false }, 0)));
        }
        Err(PeerFault::Device)
    }

    fn answer(&mut self, _got: &Answered) -> Result<(), PeerFault> {
        Err(PeerFault::Device)
    }
}
