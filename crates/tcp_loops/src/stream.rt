//! What a loop does with streams: it reads requests, and sends the rest of a file.

ghost use Rattle.std.specs.Prelude.{◌≡◌, ◌++◌};
ghost use Rattle.std.specs.Box.{box_value};
ghost use Rattle.tcp_streams.specs.Outputs.{waiting};
ghost use Rattle.tcp_loops.specs.Comes.{Reads};
ghost use Rattle.tcp_loops.specs.Sent.{LosesFront, TakesPiece, file_bytes};
ghost use Rattle.tcp_loops.specs.Services.{ChangedBy};

use events::Event;
use http_edge::{EdgeError, Gathered, Request};
use loop_rules::{Do, Pause, left_unbrought};
use mio::net::TcpStream;
use page::File;
use std::alloc::Global;
use std::io;
use std::io::{ErrorKind, Read, Write};
use tcp_streams::{Buffered, Stream};

/// How many bytes one read asks for at the most; one of a WebSocket asks for fewer.
const READ: usize = 8_192;

/// How many reads one stint makes.
const READS: usize = 16;

/// How many bytes of a file are put into a connection's buffer at a time.
const PIECE: usize = 65_536;

/// What came of what a connection did.
#[derive(Drop)]
pub(crate) enum Came {
    /// Its request.
    Request(Box<Request>),
    /// No request can be read.
    Refused(EdgeError),
    /// An event, at this moment.
    Event(Event, u64),
    /// Nothing that others are told of: this is to be done.
    Nothing(Do),
}

/// What befalls a stream beside what is read of it and sent.
#[derive(Clone, Copy)]
pub(crate) enum Change {
    /// From now on it is read until it has so many bytes that aren't whole.
    ReadUpTo(usize),
    /// An event was brought, by a message of so many bytes, or by a POST, or by neither.
    Brought {
        message: Option<usize>,
        is_post: bool,
    },
    /// It was reported readable, and maybe that its other side has sent its last byte.
    Readable {
        ended: bool,
    },
    /// Nothing more is read of it, or sent.
    Cut,
}

/// This befalls a stream.
pub(crate) fn apply(stream: &mut Stream, change: Change)
    ensures { ChangedBy change stream.old.value stream.new.value }
{
    match change {
        Change::ReadUpTo(most) => stream.most = most,
        Change::Brought { message, is_post } => {
            stream.unbrought = left_unbrought(stream.unbrought, message, is_post, READ);
        }
        Change::Readable { ended } => stream.note_readable(ended),
        Change::Cut => stream.cut(),
    }
}

/// Reads what has come of a request. Until that is whole, its connection rests.
pub(crate) fn read_request(
    alloc: Global,
    stream: &mut Buffered<TcpStream>,
    gathered: &mut Gathered,
) -> Result<Came, EdgeError>
    ensures come { Reads gathered.old result gathered.new }
    ensures stays { waiting stream.new ≡ waiting stream.old }
{
    let mut bytes = [0; READ];
    for _ in 0..READS {
        let count = match stream.read(&mut bytes) {
            Ok(0) => return Err(EdgeError::EarlyEnd),
            Ok(count) => count,
            Err(error) if error.kind() == ErrorKind::WouldBlock => {
                return Ok(Came::Nothing(Do::Rest(Pause::Done)));
            }
            Err(_) => return Err(EdgeError::Device),
        };
        match gathered.feed(alloc, &bytes[..count])? {
            Some(request) => return Ok(Came::Request(Box::new(alloc, request)?)),
            None => {}
        }
    }
    Ok(Came::Nothing(Do::Rest(Pause::More)))
}

/// Reads and forgets what comes. None where it has ended.
pub(crate) fn drain(stream: &mut Buffered<TcpStream>) -> Option<Pause>
    ensures { waiting stream.new ≡ waiting stream.old }
{
    let mut bytes = [0; READ];
    for _ in 0..READS {
        match stream.read(&mut bytes) {
            Ok(0) => return None,
            Ok(count) => stream.unbrought = stream.unbrought.saturating_sub(count),
            Err(error) if error.kind() == ErrorKind::WouldBlock => return Some(Pause::Done),
            Err(_) => return None,
        }
    }
    Some(Pause::More)
}

/// Writes the next piece of what is left of a file: a slow client has one in memory at most.
pub(crate) fn write_piece(stream: &mut Stream, rest: &mut &[u8]) -> io::Result<()>
    ensures { TakesPiece (box_value stream.old) (box_value stream.new) rest.old.now rest.new.now }
{
    let (piece, left) = rest.split_at(rest.len().min(PIECE));
    let _ = stream.as_mut().write(piece)?;
    *rest = left;
    Ok(())
}

/// Sends what is unsent of a file, or its next piece where nothing is. Answers how many bytes.
pub(crate) fn send_file_on(stream: &mut Stream, rest: &mut &[u8]) -> io::Result<usize>
    ensures { LosesFront (waiting (box_value stream.old) ++ rest.old.now)
        (waiting (box_value stream.new) ++ rest.new.now) }
{
    if stream.unsent() == 0 {
        write_piece(stream, rest)?;
    }
    stream.send()
}

/// What goes out of a file behind its head.
pub(crate) fn bytes_asked<'f>(file: &'f File, method: &str) -> &'f [u8]
    ensures { result.now ≡ file_bytes method.now file.now }
{
    if method == "HEAD" {
        &[]
    } else {
        file.bytes.as_slice()
    }
}
