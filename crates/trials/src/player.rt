//! A hub that lines are played to, each of which is answered in text.

use crate::printing::{see, write_entries, write_sids, write_totals};
use crate::words::Words;
use hub_totals::{Hub, Pass};
use journal::{HubError, Totals};
use std::alloc::Global;
use std::mem::{replace, swap};
use std::sync::ledger::Ledger;
use terms::Sid;

#[derive(Drop)]
pub struct Player<C: Ledger, T: Ledger> {
    pub alloc: Global,
    pub hub: Hub<C, T>,
    pub pass: Pass<C, T>,
    /// A second pass.
    pub other: Option<Pass<C, T>>,
    pub now: u64,
}

/// What may be read of a hub and its pass with no allocation, which a refused command leaves as it
/// was: the counts, how many steps there are and how many rooms all sockets are in, and of each
/// client what waits, of each socket whether it is connected.
#[derive(PartialEq, Eq, Clone, Copy)]
pub struct Look {
    totals: Totals,
    steps: usize,
    passed: (u64, u64),
    inside: usize,
    clients: [(Option<usize>, Option<usize>, bool); 10],
}

impl<C: Ledger, T: Ledger> Player<C, T> {
    /// In how many rooms the sockets are together.
    fn count_rooms(&self) -> usize {
        let (inside, _) = self.hub.state().mirrors();
        let mut count: usize = 0;
        for (_, rooms) in inside {
            count = count.saturating_add(rooms.len());
        }
        count
    }

    fn look(&self) -> Look {
        let state = self.hub.state();
        let mut clients = [(None, None, false); 10];
        for id in 0..10usize {
            let number = id as u128;
            let waits = (state.waiting(number), state.waiting_bytes(number));
            clients[id] = (waits.0, waits.1, state.is_connected(Sid::new(number)));
        }
        Look {
            totals: state.totals(),
            steps: state.steps().len(),
            passed: (self.pass.commands(), self.pass.taken()),
            inside: self.count_rooms(),
            clients,
        }
    }

    /// What a line is answered.
    pub fn ask(&mut self, line: &str) -> Result<String, HubError> {
        let mut answer = String::new(self.alloc);
        self.play(&Words::of(line, 0), &mut answer)?;
        Ok(answer)
    }

    /// Plays a line and adds its answer. Where memory was refused it is played once more.
    pub fn play(&mut self, words: &Words<'_>, answer: &mut String) -> Result<(), HubError> {
        answer.reserve(16_384)?;
        match self.play_once(words, answer) {
            Err(HubError::Memory) => self.play_once(words, answer),
            played => played,
        }
    }

    /// A command that is refused changes nothing, and its refusal is its answer, unless it is that
    /// of memory.
    fn play_once(&mut self, words: &Words<'_>, answer: &mut String) -> Result<(), HubError> {
        let before = self.look();
        let refusal = match self.act(words, answer) {
            Ok(()) => return Ok(()),
            Err(refusal) => refusal,
        };
        if self.look() != before {
            answer.push_str("  ! changed")?;
        }
        match refusal {
            HubError::Memory => Err(HubError::Memory),
            refusal => Ok(write!(answer, "  ! {refusal:?}")?),
        }
    }

    /// Plays a command, most of which have no other answer than that they were done.
    fn act(&mut self, words: &Words<'_>, answer: &mut String) -> Result<(), HubError> {
        let (hub, pass, now) = (&mut self.hub, &mut self.pass, self.now);
        match words.word(0) {
            "open" => hub.open(pass, words.id(1), now),
            "park" => hub.park(pass, words.id(1), now),
            "close" => hub.close(pass, words.id(1), now),
            "end" => hub.end(pass, words.sid(1), now),
            "join" => hub.join(pass, words.sid(1), words.room(2), now),
            "leave" => hub.leave(pass, words.sid(1), words.room(2), now),
            "attach" => self.attach(words),
            "tell" => hub.tell(pass, words.id(1), words.entry(self.alloc)?, now),
            _ => self.act_and_tell(words, answer),
        }
    }

    fn attach(&mut self, words: &Words<'_>) -> Result<(), HubError> {
        let (hub, pass, now) = (&mut self.hub, &mut self.pass, self.now);
        let (client, space) = (words.id(1), words.word(2));
        hub.attach(pass, client, space, words.sid(3), words.pid(4), now)
    }

    /// Plays a command that is answered.
    fn act_and_tell(&mut self, words: &Words<'_>, answer: &mut String) -> Result<(), HubError> {
        match words.word(0) {
            "cast" | "quiet" => self.cast(words, answer),
            "take" => self.take(words, answer),
            "skip" => self.skip(words, answer),
            "recover" => self.recover(words, answer),
            "pull" | "push" => self.change(words, answer),
            "kick" => self.kick(words, answer),
            "sweep" => self.sweep(answer),
            "seal" => self.seal(answer),
            _ => self.pass_on(words, answer),
        }
    }

    /// Says something to rooms: its offset where it is logged, how many outboxes got it, how many
    /// sockets miss it, and the clients that got it.
    fn cast(&mut self, words: &Words<'_>, answer: &mut String) -> Result<(), HubError> {
        let cast = words.cast(self.alloc)?;
        let mut done = self.hub.cast(&mut self.pass, cast, self.now)?;
        done.clients.sort_unstable();
        let (placed, dropped) = (done.placed, done.dropped);
        Ok(write!(
            answer,
            "  {:?} {placed} {dropped} {:?}",
            done.offset, done.clients
        )?)
    }

    fn take(&mut self, words: &Words<'_>, answer: &mut String) -> Result<(), HubError> {
        let (hub, pass) = (&mut self.hub, &mut self.pass);
        let entries = hub.take(pass, words.id(1), words.number(2) as usize, self.now)?;
        Ok(write_entries(&entries, answer)?)
    }

    /// Takes entries away, and answers how many.
    fn skip(&mut self, words: &Words<'_>, answer: &mut String) -> Result<(), HubError> {
        let (hub, pass) = (&mut self.hub, &mut self.pass);
        let most = words.number(2) as usize;
        let count = hub.take_away(pass, words.id(1), most, self.now)?;
        Ok(write!(answer, "  {count}")?)
    }

    fn recover(&mut self, words: &Words<'_>, answer: &mut String) -> Result<(), HubError> {
        let (hub, pass, now) = (&mut self.hub, &mut self.pass, self.now);
        let (client, space, offset) = (words.id(1), words.word(2), words.number(4));
        let sid = hub.recover(pass, client, space, words.pid(3), offset, now)?;
        Ok(write!(answer, "  {}", sid.number())?)
    }

    /// The sockets of a namespace that are in one of the rooms and in no excepted one join a room,
    /// or leave it.
    fn change(&mut self, words: &Words<'_>, answer: &mut String) -> Result<(), HubError> {
        let (alloc, hub, pass, now) = (self.alloc, &mut self.hub, &mut self.pass, self.now);
        let (named, but) = (words.rooms(alloc, 2)?, words.rooms(alloc, 3)?);
        let (space, room) = (words.word(1), words.room(4));
        let sids = if words.word(0) == "pull" {
            hub.sockets_join(pass, space, named, but, room, now)?
        } else {
            hub.sockets_leave(pass, space, named, but, room, now)?
        };
        Ok(write_sids(&sids, answer)?)
    }

    /// They end: the sockets, and the clients that were told.
    fn kick(&mut self, words: &Words<'_>, answer: &mut String) -> Result<(), HubError> {
        let (alloc, hub, pass, now) = (self.alloc, &mut self.hub, &mut self.pass, self.now);
        let (named, but) = (words.rooms(alloc, 2)?, words.rooms(alloc, 3)?);
        let done = hub.disconnect_sockets(pass, words.word(1), named, but, now)?;
        write_sids(&done.ended, answer)?;
        Ok(write!(answer, " told {:?}", done.told)?)
    }

    /// How many of the log's entries and of the saved sessions were dropped.
    fn sweep(&mut self, answer: &mut String) -> Result<(), HubError> {
        let swept = self.hub.sweep(&mut self.pass, self.now)?;
        Ok(write!(answer, "  {} {}", swept.log, swept.saved)?)
    }

    /// How many steps were handed out.
    fn seal(&mut self, answer: &mut String) -> Result<(), HubError> {
        let epoch = self.hub.seal(self.alloc)?;
        Ok(write!(answer, "  {}", epoch.steps.len())?)
    }

    /// Plays what is done with passes.
    fn pass_on(&mut self, words: &Words<'_>, answer: &mut String) -> Result<(), HubError> {
        match words.word(0) {
            "at" => self.now = words.number(1),
            "pass" => {
                let new = self.hub.new_pass()?;
                self.other = Some(replace(&mut self.pass, new));
            }
            "swap" => {
                if let Some(other) = &mut self.other {
                    swap(other, &mut self.pass);
                }
            }
            "absorb" => {
                if let Some(other) = self.other.take() {
                    self.pass.absorb(other);
                }
            }
            "audit" => self.hub.audit(&mut self.pass),
            "settle" => self.settle(answer)?,
            "counted" => write!(answer, "  {} {}", self.pass.commands(), self.pass.taken())?,
            _ => see(self.alloc, self.hub.state(), words, answer)?,
        }
        Ok(())
    }

    fn settle(&mut self, answer: &mut String) -> Result<(), HubError> {
        match self.hub.settle(&mut self.pass) {
            Ok(totals) => write_totals(totals, answer)?,
            Err(lacks) => write!(answer, "  lacks {} {}", lacks.commands, lacks.taken)?,
        }
        Ok(())
    }
}
