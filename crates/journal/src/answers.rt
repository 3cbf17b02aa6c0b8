//! A broadcast that is asked for, and what commands answer.

ghost use Rattle.journal.specs.Plain.{PlainCast, PlainCastDone};

use crate::form::Form;
use std::marker::Model;
use terms::{Attachments, Room, Sid, Text};

/// An event for sockets of a namespace, or an acknowledgement. In a contract it is plain data.
#[derive(Drop)]
pub struct Cast {
    pub space: Text,
    /// The rooms that it goes to. None means everybody in the namespace.
    pub rooms: Vec<Room>,
    /// The rooms whose sockets don't get it.
    pub excepted: Vec<Room>,
    /// What it is, and whether it is logged.
    pub form: Form,
    /// The event, or the answer, as a JSON array.
    pub payload: Text,
    /// What the placeholders of the payload stand for.
    pub attachments: Attachments,
}

impl Model for Cast {
    ghost Value = { PlainCast };

    ghost view = { λ c. record {
      space = c.space;
      rooms = c.rooms.items;
      excepted = c.excepted.items;
      form = c.form;
      payload = c.payload;
      attachments = c.attachments;
    } };
}

/// What came of a broadcast. In a contract it is plain data.
#[derive(Debug, Drop)]
pub struct CastDone {
    /// Its offset, where it was logged.
    pub offset: Option<u64>,
    /// How many outboxes it was put into.
    pub placed: u64,
    /// How many sockets miss it, since their clients' outboxes have no space.
    pub dropped: u64,
    /// The clients that got it, each once.
    pub clients: Vec<u128>,
}

impl Model for CastDone {
    ghost Value = { PlainCastDone };

    ghost view = { λ d. record
        { offset = d.offset; placed = d.placed; dropped = d.dropped; clients = d.clients.items } };
}

/// How many entries of the log and how many saved sessions a sweep dropped.
#[derive(Clone, Copy, Debug, PartialEq, Eq)]
pub struct Swept {
    pub log: usize,
    pub saved: usize,
}

/// What came of ending many sockets.
#[derive(Debug, Drop)]
pub struct Dismissed {
    /// The sockets that ended, rising.
    pub ended: Vec<Sid>,
    /// The clients that were told so, rising.
    pub told: Vec<u128>,
}
