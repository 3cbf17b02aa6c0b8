//! The steps of a journal: the commands that were accepted.

ghost use Rattle.std.specs.Arc.{arc_value};
ghost use Rattle.journal.specs.Plain.{PlainBroadcast, PlainDismissal, PlainMessage, PlainRecovery, PlainRoomChange};

use crate::ending::Side;
use crate::socket::Socket;
use std::marker::Model;
use std::sync::Arc;
use terms::{Entry, Room, Sid};

/// A command that was accepted, and when.
#[derive(Drop)]
pub struct Step {
    /// The moment, in milliseconds. Moments never fall.
    pub at: u64,
    pub what: What,
}

/// What an accepted command did: to a client, a socket, or one and its room.
#[derive(Drop)]
pub enum What {
    Opened(u128),
    Attached(Socket),
    Recovered(Recovery),
    Joined(Sid, Room),
    Left(Sid, Room),
    /// Many sockets joined a room, or left it.
    AllJoined(RoomChange),
    AllLeft(RoomChange),
    /// A broadcast was put into the outboxes of those whom it is for.
    Cast(Broadcast),
    /// One client was told something.
    Told(Message),
    /// A client asked for so many entries at the most, and this number was handed out.
    Took(u128, usize, usize),
    /// A client was lost, and its sockets' sessions were saved.
    Parked(u128),
    /// A socket was ended alone, by its client or by the server.
    Ended(Sid, Side),
    /// Many sockets were told so and ended.
    AllEnded(Dismissal),
    /// A client was closed, and its sockets were ended.
    Closed(u128),
    /// Outdated broadcasts of the log and outdated sessions were dropped.
    Swept,
}

/// A broadcast that was accepted. In a contract it is plain data, and so are those below.
#[derive(Drop)]
pub struct Broadcast {
    /// The place of its namespace in the hub's list.
    pub space: u16,
    /// The rooms that it goes to. None means everybody in the namespace.
    pub rooms: Vec<Room>,
    /// The rooms whose sockets don't get it.
    pub excepted: Vec<Room>,
    /// Its offset, where it is logged.
    pub offset: Option<u64>,
    /// What is sent, shared with the outboxes.
    pub entry: Arc<Entry>,
    /// The sockets that miss it, each once, since their clients' outboxes have no space for it.
    pub dropped: Vec<Sid>,
}

impl Model for Broadcast {
    ghost Value = { PlainBroadcast };

    ghost view = { λ b. record {
      space = b.space;
      rooms = b.rooms.items;
      excepted = b.excepted.items;
      offset = b.offset;
      entry = arc_value b.entry;
      dropped = b.dropped.items;
    } };
}

/// All sockets of a namespace that match joined one room, or left it.
#[derive(Drop)]
pub struct RoomChange {
    pub space: u16,
    /// The rooms whose sockets match. None means everybody in the namespace.
    pub rooms: Vec<Room>,
    /// The rooms whose sockets don't match.
    pub excepted: Vec<Room>,
    pub room: Room,
    /// The sockets that joined or left it, rising.
    pub changed: Vec<Sid>,
}

impl Model for RoomChange {
    ghost Value = { PlainRoomChange };

    ghost view = { λ m. record {
      space = m.space;
      rooms = m.rooms.items;
      excepted = m.excepted.items;
      room = m.room;
      changed = m.changed.items;
    } };
}

/// Many sockets that were ended together: those that match, as in a `RoomChange`.
#[derive(Drop)]
pub struct Dismissal {
    pub space: u16,
    pub rooms: Vec<Room>,
    pub excepted: Vec<Room>,
    /// The sockets that were ended, rising.
    pub ended: Vec<Sid>,
    /// The clients that were told so, rising: those whose outboxes had space for it.
    pub told: Vec<u128>,
}

impl Model for Dismissal {
    ghost Value = { PlainDismissal };

    ghost view = { λ d. record {
      space = d.space;
      rooms = d.rooms.items;
      excepted = d.excepted.items;
      ended = d.ended.items;
      told = d.told.items;
    } };
}

/// An entry for one client.
#[derive(Drop)]
pub struct Message {
    pub client: u128,
    /// What is sent, shared with the outbox.
    pub entry: Arc<Entry>,
}

impl Model for Message {
    ghost Value = { PlainMessage };

    ghost view = { λ m. record { client = m.client; entry = arc_value m.entry } };
}

/// A session that came back.
#[derive(Drop)]
pub struct Recovery {
    /// Its socket, with the ids that it had, at the client that brought it back.
    pub socket: Socket,
    /// The offset that the client named as its last.
    pub offset: u64,
    /// The rooms that came back with it, rising.
    pub rooms: Vec<Room>,
    /// The offsets of the broadcasts that it missed, rising.
    pub missed: Vec<u64>,
}

impl Model for Recovery {
    ghost Value = { PlainRecovery };

    ghost view = { λ r. record
        { socket = r.socket; offset = r.offset; rooms = r.rooms.items; missed = r.missed.items } };
}
