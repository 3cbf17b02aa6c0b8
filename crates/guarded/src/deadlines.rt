//! The sockets that came with a token that expires.

ghost use Rattle.std.specs.Prelude.{◌≡◌, ℕ, List, [], true, None, Some, Any, filter, option_map, IfOk, OnOk, OnErr};
ghost use Rattle.guarded.specs.Deadlines as table;
ghost use Rattle.guarded.specs.Deadlines.{Changes, IsOf, due_at, is_due, known};
ghost use Rattle.guarded.specs.declared.deadlines.Watched.{Watched};

use std::alloc::{AllocError, Global};
use std::collections::BTreeMap;
use std::marker::Model;
use terms::{Room, Text};
use tokens::is_over;

/// A socket that came with a token that expires.
#[derive(Debug, Drop)]
pub struct Watched {
    /// The name of its namespace.
    pub space: Text,
    /// When its token expires, in seconds since 1970.
    pub expires: u64,
    /// Until when its session may come back, in milliseconds, where it has ended or is to end.
    pub until: Option<u64>,
}

/// A socket that is to be ended.
#[derive(Debug, Drop)]
pub struct Due {
    /// Its own room.
    pub room: Room,
    /// The name of its namespace.
    pub space: Text,
}

/// The sockets that came with a token that expires, by their own rooms. In a contract they are the
/// list of them, rising by these.
#[derive(Drop)]
pub struct Deadlines {
    sockets: BTreeMap<Room, Watched>,
}

impl Model for Deadlines {
    ghost use Rattle.std.specs.Prelude.{ℕ, List};
    ghost use Rattle.guarded.specs.declared.deadlines.Watched.{Watched};

    ghost Value = { List (List ℕ × Watched) };

    ghost view = { λ d. d.sockets.entries };
}

impl Deadlines {
    /// Nobody came yet.
    pub fn new(alloc: Global) -> Deadlines
        ensures { result ≡ [] }
    {
        Deadlines {
            sockets: BTreeMap::new(alloc),
        }
    }

    /// A socket has come with a token that expires then.
    pub fn note_came(&mut self, room: Room, space: Text, expires: u64) -> Result<(), AllocError>
        ensures ok { OnOk result
            (Changes room (λ _. Some (table.newcomer space expires)) self.old self.new) }
        ensures err { OnErr result (self.new ≡ self.old) }
    {
        let until = None;
        let watched = Watched {
            space,
            expires,
            until,
        };
        self.sockets.insert(room, watched)?;
        Ok(())
    }

    /// A socket has come back, or is still there.
    pub fn note_back(&mut self, room: Room)
        ensures { Changes room (option_map (table.until None)) self.old self.new }
    {
        self.set_until(room, None);
    }

    /// A socket has ended, or is to end, and its session may come back up to this moment.
    pub fn note_left(&mut self, room: Room, until: u64)
        ensures { Changes room (option_map (table.until (Some until))) self.old self.new }
    {
        self.set_until(room, Some(until));
    }

    fn set_until(&mut self, room: Room, until: Option<u64>)
        ensures { Changes room (option_map (table.until until)) self.old self.new }
    {
        let Some(watched) = self.sockets.get_mut(&room) else {
            return;
        };
        watched.until = until;
    }

    /// A socket has ended, and its session can't come back.
    pub fn note_gone(&mut self, room: Room)
        ensures { Changes room (λ _. None) self.old self.new }
    {
        let _ = self.sockets.remove(&room);
    }

    /// The sockets that are there and whose token is over at this time, in seconds since 1970.
    pub fn due(&self, alloc: Global, seconds: u64) -> Result<Vec<Due>, AllocError>
        ensures { IfOk result (λ due. due.items ≡ table.due_at seconds self.now) }
    {
        let mut due = Vec::new(alloc);
        for (room, watched) in &self.sockets {
            if watched.is_due(seconds) {
                let space = Text::copy_of(alloc, watched.space.as_str())?;
                due.push(Due { room: *room, space })?;
            }
        }
        Ok(due)
    }

    /// Forgets those whose session can't come back any more at this moment.
    pub fn forget(&mut self, moment: u64)
        ensures { self.new ≡ filter (λ e. table.stays moment e.1) self.old }
    {
        self.sockets.retain(|_, watched| watched.stays(moment));
    }
}

/// Whoever came, or came back, and has done nothing else since is among those that are to be ended
/// as soon as its token's time is over. It has no effect.
pub fn everybody_due_is_listed()
    ensures { (sockets : List (List ℕ × Watched)) (room : List ℕ) (watched : Watched) (seconds : ℕ)
        → known sockets room ≡ Some watched → is_due seconds watched ≡ true
        → Any (IsOf room watched) (due_at seconds sockets) }
{}

impl Watched {
    /// Whether it is there, and its token's time is over.
    fn is_due(&self, seconds: u64) -> bool
        ensures { result ≡ table.is_due seconds self.now }
    {
        self.until.is_none() && is_over(self.expires, seconds)
    }

    /// Whether it is there, or its session may come back.
    fn stays(&self, moment: u64) -> bool
        ensures { result ≡ table.stays moment self.now }
    {
        self.until.is_none_or(|until| moment <= until)
    }
}
