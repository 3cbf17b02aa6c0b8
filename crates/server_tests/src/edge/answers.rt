//! What a request is answered with, for what its events were answered with. No core serves it.

use crate::edge::asker::{Asker, Still, asker};
use events::CoreFault::{
    self, BadEffect, IdTaken, Memory, NotProbing, Spent, TooManyClients, UnknownClient,
    WrongTransport,
};
use events::{Answered, Cause, Done, Opening, Outcome, Peer, PeerFault};
use peers::{Moments, PollRequest};
use std::alloc::{AllocError, Global};
use std::cell::Cell;
use std::mem;
use terms::Text;

/// What a request asks for.
#[derive(Clone, Copy)]
enum Asks {
    Open,
    Get,
    Post,
}

/// What an event is answered with.
#[derive(Clone, Copy)]
enum Given {
    Opened,
    Does(usize, Option<Cause>),
    Begun,
    Payload,
    Noop,
    Nothing,
    Refused(CoreFault),
}

use Asks::{Get, Open, Post};
use Given::{Begun, Does, Noop, Nothing, Opened, Payload, Refused};

/// A request, what its events are answered with, and the status line and the end of what it is
/// answered with, if anything.
type Row = (Asks, &'static [Given], Want);

type Want = Option<(&'static [u8], &'static [u8])>;

const SUCCESS: &[u8] = b"HTTP/1.1 200 OK\r\n";

const BAD: &[u8] = b"HTTP/1.1 400 Bad Request\r\n";

const UNAVAILABLE: &[u8] = b"HTTP/1.1 503 Service Unavailable\r\n";

const OPEN_PACKET: Want = Some((SUCCESS, b"\r\n\r\n0{}"));

const OK: Want = Some((SUCCESS, b"\r\n\r\nok"));

const BAD_REQUEST: Want = Some((BAD, b"\r\n\r\n{\"code\":3,\"message\":\"Bad request\"}"));

const UNKNOWN: Want = Some((
    BAD,
    b"\r\n\r\n{\"code\":1,\"message\":\"Session ID unknown\"}",
));

const BUSY: Want = Some((
    UNAVAILABLE,
    b"Content-Length: 0\r\nConnection: close\r\n\r\n",
));

const CLOSE: Want = Some((SUCCESS, b"\r\n\r\n1"));

const MESSAGE: Want = Some((SUCCESS, b"\r\n\r\n4hi"));

static ROWS: [Row; 26] = [
    (Open, &[Opened], OPEN_PACKET),
    (Open, &[Refused(TooManyClients)], BUSY),
    (Open, &[Refused(IdTaken)], BUSY),
    (Open, &[Refused(Memory)], BUSY),
    (Open, &[Refused(Spent)], BUSY),
    (Post, &[Does(1, None)], OK),
    (Post, &[Does(1, Some(Cause::BadKind))], OK),
    (Post, &[Does(1, Some(Cause::Empty))], OK),
    (Post, &[Does(0, Some(Cause::Empty))], BAD_REQUEST),
    (Post, &[Does(0, Some(Cause::BadType))], BAD_REQUEST),
    (Post, &[Does(0, Some(Cause::BadBase64))], BAD_REQUEST),
    (Post, &[Refused(UnknownClient)], UNKNOWN),
    (Post, &[Refused(WrongTransport)], BAD_REQUEST),
    (Post, &[Refused(BadEffect)], BUSY),
    (Post, &[Refused(NotProbing)], None),
    (Post, &[Begun], None),
    (Get, &[Does(0, Some(Cause::DoubleGet))], BAD_REQUEST),
    (Get, &[Refused(UnknownClient)], UNKNOWN),
    (Get, &[Refused(WrongTransport)], BAD_REQUEST),
    (Get, &[Refused(Memory)], BUSY),
    (Get, &[Begun, Payload], MESSAGE),
    (Get, &[Begun, Nothing, Payload], MESSAGE),
    (Get, &[Begun, Refused(UnknownClient)], CLOSE),
    (Get, &[Begun, Refused(WrongTransport)], BAD_REQUEST),
    (
        Get,
        &[Begun, Refused(Memory), Refused(Spent), Payload],
        MESSAGE,
    ),
    (Get, &[Begun, Refused(NotProbing)], None),
];

fn request(alloc: Global, asks: Asks) -> Result<PollRequest, AllocError> {
    Ok(match asks {
        Open => PollRequest::Open,
        Get => PollRequest::Get { client: 7 },
        Post => PollRequest::Post {
            client: 7,
            body: Text::copy_of(alloc, "40")?,
        },
    })
}

fn answer(alloc: Global, given: Given) -> Result<Answered, AllocError> {
    Ok(match given {
        Opened => Ok(Outcome::Opened(Opening {
            client: 7,
            text: Text::copy_of(alloc, "0{}")?,
        })),
        Does(packets, closed) => Ok(Outcome::Done(Done {
            packets,
            closed,
            ..Done::nothing(alloc)
        })),
        Begun => Ok(Outcome::Begun),
        Payload => Ok(Outcome::Payload(Text::copy_of(alloc, "4hi")?)),
        Noop => Ok(Outcome::Payload(Text::copy_of(alloc, "6")?)),
        Nothing => Ok(Outcome::Nothing),
        Refused(fault) => Err(fault.at_once()),
    })
}

/// Gives the peer these answers, for an event each.
fn hear(alloc: Global, peer: &mut Asker<Still>, given: &[Given]) -> Result<(), PeerFault> {
    for one in given {
        let Ok(got) = answer(alloc, *one) else {
            return Err(PeerFault::Memory);
        };
        if peer.next()?.is_none() {
            return Err(PeerFault::Ended);
        }
        peer.answer(&got)?;
    }
    Ok(())
}

/// What is written for a request, whose wire takes `room` bytes, and whether the writing failed.
/// Nothing where it has a further event.
fn written(alloc: Global, asks: Asks, given: &[Given], room: usize) -> Option<(Vec<u8>, bool)> {
    let mut peer = asker(alloc, Still, request(alloc, asks).ok()?, room);
    let heard = hear(alloc, &mut peer, given);
    match peer.next() {
        Ok(None) => {
            let written = &mut peer.wire_mut().get_mut().written;
            Some((mem::replace(written, Vec::new(alloc)), heard.is_err()))
        }
        _ => None,
    }
}

/// Whether a row is answered as it has to be.
fn is_answered(alloc: Global, (asks, given, want): Row) -> bool {
    match (written(alloc, asks, given, 1_000), want) {
        (Some((written, false)), Some((line, end))) => {
            written.starts_with(line) && written.ends_with(end)
        }
        (Some((written, false)), None) => written.is_empty(),
        _ => false,
    }
}

/// Of a run's allocations at most one is refused, so one of two runs has ample memory.
#[test]
fn to_opened_clients_posts_and_gets(rt: HostRuntime) {
    for (index, row) in ROWS.iter().enumerate() {
        let is_right = is_answered(rt.alloc(), *row) || is_answered(rt.alloc(), *row);
        assert!(rt; is_right, "row {index}");
    }
}

/// What a POST is answered with.
static WHOLE: &[u8] =
    b"HTTP/1.1 200 OK\r\nContent-Type: text/plain; charset=UTF-8\r\nContent-Length: 2\r\nConnection: close\r\n\r\nok";

/// Whether a POST, whose wire takes only `room` bytes, is answered with a beginning of the whole,
/// and fails where that isn't the whole.
fn is_beginning(alloc: Global, room: usize) -> bool {
    match written(alloc, Post, &[Does(1, None)], room) {
        Some((written, failed)) => {
            written.len() <= room
                && WHOLE.starts_with(written.as_slice())
                && failed == (room < WHOLE.len())
                && (failed || written.as_slice() == WHOLE)
        }
        None => false,
    }
}

#[test]
fn the_writer_fails_at_each_byte(rt: HostRuntime) {
    for room in 0..WHOLE.len() + 1 {
        let is_right = is_beginning(rt.alloc(), room) || is_beginning(rt.alloc(), room);
        assert!(rt; is_right, "after {room}");
    }
}

/// Each moment is one later than the one before, and pauses are counted.
#[derive(Clone, Copy, Debug)]
struct Counted<'c> {
    moments: &'c Cell<u64>,
    pauses: &'c Cell<u64>,
}

impl<'c> Moments for Counted<'c> {
    fn now(&mut self) -> u64 {
        let moment = self.moments.get();
        self.moments.set(moment.saturating_add(1));
        moment
    }

    fn pause(&mut self) {
        self.pauses.set(self.pauses.get().saturating_add(1));
    }
}

/// What the events of a GET are answered with that finds nothing twice: the moment of each event, and
/// how many pauses were made before it and by the time that it was answered.
static PACED: [(Given, u64, u64, u64); 4] = [
    (Begun, 10, 0, 0),
    (Nothing, 11, 0, 0),
    (Nothing, 12, 1, 1),
    (Noop, 13, 2, 3),
];

/// Whether a GET goes so.
fn is_paced(alloc: Global) -> Option<bool> {
    let (moments, pauses) = (Cell::new(10), Cell::new(0));
    let counted = Counted {
        moments: &moments,
        pauses: &pauses,
    };
    let mut peer = asker(alloc, counted, PollRequest::Get { client: 7 }, 1_000);
    let mut is_right = true;
    for (given, at, before, after) in PACED {
        let (_, now) = peer.next().ok()??;
        is_right = is_right && (now, pauses.get()) == (at, before);
        peer.answer(&answer(alloc, given).ok()?).ok()?;
        is_right = is_right && pauses.get() == after;
    }
    Some(is_right)
}

#[test]
fn moments_and_pauses(rt: HostRuntime) {
    assert!(rt; is_paced(rt.alloc()) == Some(true) || is_paced(rt.alloc()) == Some(true));
}
