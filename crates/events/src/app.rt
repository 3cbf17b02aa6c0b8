//! What the server asks of the app, and where the ids come from.

ghost use Rattle.std.specs.Prelude.{◌≡◌, ◌+◌, ℕ, IfOk};
ghost use Rattle.events.specs.App.{Policy, plain_verdict, IsCleanVerdict, IsCleanArrival, AllClean};

use journal::{Cast, Ending};
use sio_wire::Payload;
use std::alloc::{AllocError, Global};
use std::marker::Model;
use terms::{Attachments, Room, Sid, Text};

/// The socket that an event came from, or that has ended.
#[derive(Debug, Drop)]
pub struct Who {
    /// The session id of its Engine.IO connection.
    pub client: u128,
    /// The name of its namespace.
    pub space: Text,
    /// Its session id.
    pub sid: Sid,
}

/// What the app says of a CONNECT.
#[derive(Drop)]
pub enum Verdict {
    /// The socket is connected, and these effects follow.
    Accept(Vec<Effect>),
    /// It isn't, and the client is told so with this message.
    Refuse(Text),
}

/// What arrived from a socket, or became of it.
#[derive(Debug, Drop)]
pub enum Arrived {
    /// It has connected. This comes first.
    Connected(Newcomer),
    /// Its session has come back.
    Returned(Returned),
    /// An event.
    Event(Message),
    /// The answer to a question of this socket.
    Answer(Answer),
    /// An answer to no question of this socket: to one that was asked of a room, or that ran out.
    Stray(Stray),
}

/// What is known of a socket that has connected.
#[derive(Debug, Drop)]
pub struct Newcomer {
    /// The payload of its CONNECT, which the client says of itself. Empty where there is none.
    pub payload: Text,
    /// What was verified of it, as a JSON object, by an app that stands before this one. Empty where
    /// nothing was.
    pub claims: Text,
}

/// A session that came back. In a contract it is the rooms that it is in.
#[derive(Debug, Drop)]
pub struct Returned {
    /// The rooms that it is in, its own among them, rising by their bytes.
    pub rooms: Vec<Room>,
}

impl Model for Returned {
    ghost use Rattle.std.specs.Prelude.{ℕ, List};

    ghost Value = { List (List ℕ) };

    ghost view = { λ r. r.rooms.items };
}

/// An event that arrived.
#[derive(Debug, Drop)]
pub struct Message {
    /// The event's name and data as a JSON array.
    pub payload: Payload,
    /// What the placeholders of the payload stand for.
    pub attachments: Attachments,
    /// The id under which it asks to be acknowledged, if it does.
    pub id: Option<u64>,
}

/// An answer that arrived.
#[derive(Debug, Drop)]
pub struct Answer {
    /// The tag of the question.
    pub tag: u64,
    /// The answer's data as a JSON array.
    pub payload: Text,
    /// What the placeholders of the payload stand for.
    pub attachments: Attachments,
}

/// An answer that arrived and is to no question of its socket.
#[derive(Debug, Drop)]
pub struct Stray {
    /// The id of the question that it answers.
    pub id: u64,
    /// The answer's data as a JSON array.
    pub payload: Text,
    /// What the placeholders of the payload stand for.
    pub attachments: Attachments,
}

/// What the app wants done. Effects that speak of many sockets name their namespace. One that the
/// server doesn't have can't be spoken of.
#[derive(Drop)]
pub enum Effect {
    /// The socket joins a room.
    Join(Room),
    /// The socket leaves a room.
    Leave(Room),
    /// An event, a question or an answer is sent to the sockets of some rooms.
    Emit(Cast),
    /// The socket is asked a question, whose answer the app gets.
    EmitAsk(Inquiry),
    /// The event that arrived is acknowledged.
    Reply(Reply),
    /// It is acknowledged with `"ok"`, or, where an effect of it was skipped, with `"error"` and why
    /// the first one was.
    Report,
    /// It is acknowledged with `"ok"` and the session ids of all these sockets, rising.
    Fetch(Selection),
    /// The socket is told so and disconnected.
    Disconnect,
    /// All these sockets join a room, or none does.
    AllJoin(Selection, Room),
    /// All these sockets leave a room, or none does.
    AllLeave(Selection, Room),
    /// All these sockets are told so and disconnected. Where the acting socket is among them, no
    /// effect may follow.
    AllEnd(Selection),
}

/// What the app wants done, unless memory was refused.
pub type Wanted = Result<Vec<Effect>, AllocError>;

/// The sockets of a namespace that are in one of some rooms. In a contract it is plain data.
#[derive(Drop)]
pub struct Selection {
    /// The name of the namespace.
    pub space: Text,
    /// The rooms. None means everybody in the namespace.
    pub rooms: Vec<Room>,
    /// The rooms whose sockets aren't meant.
    pub excepted: Vec<Room>,
}

impl Model for Selection {
    ghost use Rattle.events.specs.Selection.{PlainSelection};

    ghost Value = { PlainSelection };

    ghost view = { λ m. record {
      space = m.space;
      rooms = m.rooms.items;
      excepted = m.excepted.items;
    } };
}

/// An event that asks for an acknowledgement.
#[derive(Drop)]
pub struct Inquiry {
    /// The event as a JSON array.
    pub payload: Text,
    /// What the placeholders of the payload stand for.
    pub attachments: Attachments,
    /// What the answer is handed to the app with.
    pub tag: u64,
    /// How long an answer is waited for, in milliseconds.
    pub wait: u64,
}

/// The acknowledgement of an event.
#[derive(Drop)]
pub struct Reply {
    /// The answer's data as a JSON array.
    pub payload: Text,
    /// What the placeholders of the payload stand for.
    pub attachments: Attachments,
}

/// The app. Which answers it may give is its own definition.
pub trait App {
    ghost policy: { Self → Policy };

    /// Whether a client may connect to a namespace at this moment, in milliseconds, with the payload
    /// that it sent.
    fn connects(
        &self,
        alloc: Global,
        moment: u64,
        space: &str,
        payload: &str,
    ) -> Result<Verdict, AllocError>
        ensures allowed { IfOk result (λ verdict.
            (policy self.now).allows moment space.now payload.now (plain_verdict verdict)) }
        ensures clean { IfOk result (λ v. IsCleanVerdict payload.now (plain_verdict v)) };

    /// What is done where something arrived from a socket, or where it has connected or come back.
    fn decides(&self, alloc: Global, who: &Who, arrived: &Arrived) -> Wanted
        ensures decided { IfOk result (λ e. (policy self.now).decides who.now arrived.now e.items) }
        ensures clean { IfOk result (λ e. IsCleanArrival arrived.now → AllClean e.items) };

    /// What is done where a socket has ended, which was in these rooms, its own among them. It can
    /// do nothing any more, so of all effects only `Emit` may follow.
    fn ended(&self, alloc: Global, who: &Who, rooms: &[Room], ending: Ending) -> Wanted
        ensures ended { IfOk result (λ effects.
            (policy self.now).ends who.now rooms.now ending effects.items) }
        ensures clean { IfOk result (λ effects. AllClean effects.items) };
}

/// Where the ids come from: the numbers that it will give are known to it.
pub trait IdSource {
    ghost stream: { Self → ℕ → ℕ };

    /// The next number.
    fn draw(&mut self) -> u128
        ensures first { result ≡ stream self.old 0 }
        ensures rest { stream self.new ≡ (λ k. stream self.old (k + 1)) };
}
