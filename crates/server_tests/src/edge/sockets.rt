//! WebSockets, served by a core.

use crate::edge::asker::Still;
use crate::edge::served::serve;
use crate::edge::spoken::{Piece, Spoken};
use events::Event;
use http_edge::Replay;
use peers::{FrameSocket, SocketPeer, SocketRequest, accept_socket};
use relay::RelayApp;
use std::alloc::{AllocError, Global};
use std::sync::ledger::Ledger;
use usual_core::{OnCore, UsualCore, UsualSettings, on_new_core};

/// One whose head was read before.
type Accepted = SocketPeer<Replay<Spoken>, Still>;

/// What the reads of a WebSocket give: a client's frames, masked by zeros, one of them in two
/// pieces.
static PIECES: [(&str, Piece); 14] = [
    ("connect", Piece::Bytes(b"\x81\x82\0\0\0\x0040")),
    ("probes", Piece::Bytes(b"\x81\x86\0\0\0\x002probe")),
    ("upgrades", Piece::Bytes(b"\x81\x81\0\0\0\x005")),
    ("ping", Piece::Bytes(b"\x89\x80\0\0\0\0")),
    ("pong", Piece::Bytes(b"\x8a\x80\0\0\0\0")),
    ("close", Piece::Bytes(b"\x88\x80\0\0\0\0")),
    ("says", Piece::Bytes(b"\x81\x8e\x00\x00\x00\x0042[")),
    ("more", Piece::Bytes(b"\"all\",\"hi\"]")),
    ("begins", Piece::Bytes(b"\x01\x84\0\0\0\x0042[\"")),
    ("ends", Piece::Bytes(b"\x80\x8a\0\0\0\0all\",\"hi\"]")),
    (
        "header",
        Piece::Bytes(b"\x81\xa9\x00\x00\x00\x00451-[\"all\",{\"_placeholder\":true,\"num\":0}]"),
    ),
    (
        "attached",
        Piece::Bytes(b"\x82\x82\x00\x00\x00\x00\x01\x02"),
    ),
    ("wait", Piece::Wait),
    ("fail", Piece::Fail),
];

/// The server's frames. Where a client is opened it has the id 2, or 3 in the last rows.
static FRAMES: [(&str, &[u8]); 11] = [
    (
        "opened",
        b"\x81w0{\"sid\":\"00000000000000000000000000000002\",\"upgrades\":[],\"pingInterval\":25000,\"pingTimeout\":20000,\"maxPayload\":1000000}",
    ),
    (
        "opened-third",
        b"\x81w0{\"sid\":\"00000000000000000000000000000003\",\"upgrades\":[],\"pingInterval\":25000,\"pingTimeout\":20000,\"maxPayload\":1000000}",
    ),
    (
        "connected",
        b"\x81U40{\"sid\":\"00000000000000000000000000000003\",\"pid\":\"00000000000000000000000000000004\"}",
    ),
    (
        "came-over",
        b"\x81U40{\"sid\":\"00000000000000000000000000000002\",\"pid\":\"00000000000000000000000000000003\"}",
    ),
    ("said", b"\x81!42[\"all\",\"hi\",\"0000000000000001\"]"),
    (
        "said-first",
        b"\x81<451-[\"all\",{\"_placeholder\":true,\"num\":0},\"0000000000000001\"]",
    ),
    (
        "said-second",
        b"\x81<451-[\"all\",{\"_placeholder\":true,\"num\":0},\"0000000000000002\"]",
    ),
    ("binary", b"\x82\x02\x01\x02"),
    ("probed", b"\x81\x063probe"),
    ("ponged", b"\x8a\x00"),
    ("closed", b"\x88\x00"),
];

/// Cases, each below a line with `#` and with a server of its own, at which one client polls, whose
/// id is 1. A line is a WebSocket: that it opens a client, or the client that it probes for; how
/// many bytes it takes and how many events it has at the most; and what its reads give. The next
/// line is how it ends, how the client 1 speaks then, whether the peer is idle, and what was
/// written. The line `polls` opens one more client that polls.
static CASES: &str = "\
# Frames of two entries in their order, one that came in two pieces; a ping, a pong, a close.
open 1000 1000: connect says wait more ping pong header attached close
= Failed(Ended) Some(Polling) idle:false opened connected said ponged said-second binary closed
# A message in two frames, between which a ping comes.
open 1000 1000: connect begins ping ends close
= Failed(Ended) Some(Polling) idle:false opened connected ponged said closed
# The second frame of a message in two never comes.
open 1000 1000: connect begins begins
= Failed(Device) Some(Polling) idle:false opened connected
# A write that fails between two frames of one take.
open 270 1000: connect header attached connect
= Failed(Device) Some(Polling) idle:false opened connected said-first
# The open packet isn't taken.
open 2 1000:
= Failed(Device) Some(Polling) idle:false [129, 119]
# It closes, fails or ends at once.
open 1000 1000: close
= Failed(Ended) Some(Polling) idle:false opened closed
#
open 1000 1000: fail
= Failed(Device) Some(Polling) idle:false opened
#
open 1000 1000:
= Failed(Ended) Some(Polling) idle:false opened
# One turn that brings nothing, and one that brings a ping, which is answered at once.
open 1000 3: wait
= Spent Some(Polling) idle:true opened
#
open 1000 3: ping
= Spent Some(Polling) idle:false opened ponged
# A client comes over.
1 1000 1000: wait probes ping wait upgrades connect
= Failed(Ended) Some(Socket) idle:false probed ponged came-over
# It ends, fails or says something else before it probes.
1 1000 1000:
= Over Some(Polling) idle:false
#
1 1000 1000: close
= Over Some(Polling) idle:false closed
#
1 1000 1000: connect probes
= Over Some(Polling) idle:false
#
1 1000 1000: fail
= Over Some(Polling) idle:false
# The same once it probes: it polls on.
1 1000 1000: probes
= Over Some(Polling) idle:false probed
#
1 1000 1000: probes close
= Over Some(Polling) idle:false probed closed
#
1 1000 1000: probes connect upgrades
= Over Some(Polling) idle:false probed
#
1 1000 1000: probes fail
= Over Some(Polling) idle:false probed
# The answer to its probe isn't taken.
1 3 1000: probes upgrades
= Over Some(Polling) idle:false [129, 6, 51]
# There is no such client.
9 1000 1000: wait probes
= Over Some(Polling) idle:false
# Nothing was said yet, and nothing after the probe.
1 1000 1: wait
= Spent Some(Polling) idle:true
#
1 1000 2: probes wait
= Spent Some(Probing) idle:true probed
# The last place is taken. One more hears nothing, whatever it would say, and so does another one.
polls
open 1000 3: wait
= Spent Some(Polling) idle:true opened-third
open 1000 1000: connect
= Over Some(Polling) idle:false
open 1000 1000:
= Over Some(Polling) idle:false
";

fn piece_named(word: &str) -> Piece {
    match PIECES.iter().find(|piece| piece.0 == word) {
        Some(piece) => piece.1,
        None => Piece::Fail,
    }
}

/// What a WebSocket's reads give.
fn pieces_of(alloc: Global, words: &str) -> Result<Vec<Piece>, AllocError> {
    let mut pieces = Vec::new(alloc);
    for word in words.split_whitespace() {
        pieces.push(piece_named(word))?;
    }
    Ok(pieces)
}

/// The name of the frame with which the bytes begin, and the bytes behind it.
fn first_frame(bytes: &[u8]) -> Option<(&'static str, &[u8])> {
    for (name, frame) in FRAMES {
        if let Some(rest) = bytes.strip_prefix(frame) {
            return Some((name, rest));
        }
    }
    None
}

/// Writes the names of the frames, and the bytes that are none.
fn write_frames(text: &mut String, bytes: &[u8]) -> Result<(), AllocError> {
    let mut rest = bytes;
    for _ in 0..bytes.len() {
        let Some((name, left)) = first_frame(rest) else {
            break;
        };
        write!(text, " {name}")?;
        rest = left;
    }
    if !rest.is_empty() {
        write!(text, " {rest:?}")?;
    }
    Ok(())
}

/// Serves a WebSocket, and writes what is found.
fn write_served<C: Ledger, T: Ledger>(
    text: &mut String,
    alloc: Global,
    usual: &mut UsualCore<C, T>,
    line: &str,
) -> Result<(), AllocError> {
    let (numbers, words) = line.split_once(':').unwrap_or((line, ""));
    let mut numbers = numbers.split_whitespace();
    let request = match numbers.next().unwrap_or("").parse() {
        Ok(client) => SocketRequest::Probe { client },
        Err(_) => SocketRequest::Open,
    };
    let room = numbers.next().unwrap_or("").parse().unwrap_or(0);
    let events = numbers.next().unwrap_or("").parse().unwrap_or(0);
    let stream = Spoken::new(alloc, pieces_of(alloc, words)?, room);
    let socket = FrameSocket::new(alloc, stream, Vec::new(alloc));
    let mut peer = SocketPeer::new(socket, Still, request);
    let end = serve(alloc, usual, &mut peer, events);
    let (on, idle) = (usual.core.transport(1), peer.is_idle());
    write!(text, "= {end:?} {on:?} idle:{idle}")?;
    write_frames(text, peer.stream_mut().written.as_slice())?;
    text.push('\n')
}

/// Opens a client that polls.
fn polls<C: Ledger, T: Ledger>(
    alloc: Global,
    usual: &mut UsualCore<C, T>,
) -> Result<(), AllocError> {
    match usual.apply(alloc, &RelayApp, &Event::Opened { socket: false }, 0) {
        Ok(_) => Ok(()),
        Err(_) => Err(AllocError),
    }
}

/// Plays a case, and writes it anew with what is found.
#[derive(Clone, Copy)]
struct Case {
    case: &'static str,
}

impl OnCore for Case {
    type Found = Result<String, AllocError>;

    fn run<C: Ledger + Send + Sync, T: Ledger + Send + Sync>(
        self,
        alloc: Global,
        usual: &mut UsualCore<C, T>,
    ) -> Result<String, AllocError> {
        let mut text = String::new(alloc);
        polls(alloc, usual)?;
        for line in self.case.lines().filter(|line| !line.starts_with('=')) {
            writeln!(text, "{line}")?;
            if line == "polls" {
                polls(alloc, usual)?;
            } else if !line.is_empty() && !line.starts_with(' ') {
                write_served(&mut text, alloc, usual, line)?;
            }
        }
        Ok(text)
    }
}

/// What is written of a case.
fn played(alloc: Global, case: &'static str) -> Option<String> {
    match on_new_core(alloc, &UsualSettings::usual(3), Case { case }) {
        Ok(Ok(text)) => Some(text),
        _ => None,
    }
}

/// Whether a case goes as it stands, in one of two runs: of a run's allocations at most one is
/// refused.
fn goes(alloc: Global, case: &'static str) -> bool {
    for _ in 0..2 {
        if let Some(text) = played(alloc, case)
            && text.as_str() == case
        {
            return true;
        }
    }
    false
}

#[test]
fn clients_of_websockets(rt: HostRuntime) {
    assert!(rt; CASES.split('#').count() == 25);
    for case in CASES.split('#').filter(|case| !case.is_empty()) {
        assert!(rt;
            goes(rt.alloc(), case),
            "{case}{:?}",
            played(rt.alloc(), case)
        );
    }
}

static HEAD: &[u8] =
    b"GET /socket.io/?EIO=4&transport=websocket HTTP/1.1\r\nHost: a\r\nUpgrade: websocket\r\nConnection: Upgrade\r\nSec-WebSocket-Key: dGhlIHNhbXBsZSBub25jZQ==\r\nSec-WebSocket-Version: 13\r\n\r\n";

static NO_KEY: &[u8] =
    b"GET /socket.io/?EIO=4&transport=websocket HTTP/1.1\r\nHost: a\r\nUpgrade: websocket\r\nConnection: Upgrade\r\nSec-WebSocket-Version: 13\r\n\r\n";

/// What a client is told before its first frame.
static SWITCHES: &[u8] =
    b"HTTP/1.1 101 Switching Protocols\r\nconnection: Upgrade\r\nupgrade: websocket\r\nsec-websocket-accept: s3pPLMBiTxaQ9kYGzzhZRbK+xOo=\r\n\r\n";

/// A first frame.
static FRAME: &[u8] = b"\x81\x82\0\0\0\x0040";

/// A peer of a stream whose head and more were read before.
fn accepted(alloc: Global, head: &[u8], rest: Vec<u8>, words: &str) -> Option<Accepted> {
    let stream = Spoken::new(alloc, pieces_of(alloc, words).ok()?, 1_000);
    let head = Vec::from_slice(alloc, head).ok()?;
    let socket = accept_socket(alloc, stream, head, rest)?;
    Some(SocketPeer::new(socket, Still, SocketRequest::Open))
}

/// Serves a client whose first frame came with its head, beside one that polls.
#[derive(Clone, Copy)]
struct ComesEarly {
    head: &'static [u8],
}

impl OnCore for ComesEarly {
    type Found = Option<bool>;

    /// Whether it is told all; nothing where no peer is made.
    fn run<C: Ledger + Send + Sync, T: Ledger + Send + Sync>(
        self,
        alloc: Global,
        usual: &mut UsualCore<C, T>,
    ) -> Option<bool> {
        let is_open = polls(alloc, usual).is_ok();
        let rest = Vec::from_slice(alloc, FRAME).ok()?;
        let mut peer = accepted(alloc, self.head, rest, "close")?;
        let end = serve(alloc, usual, &mut peer, 1_000);
        let written = peer.stream_mut().get_mut().written.as_slice();
        let mut text = format!(in alloc; "{end:?}").ok()?;
        write_frames(&mut text, written.strip_prefix(SWITCHES).unwrap_or(&[])).ok()?;
        Some(is_open && text.as_str() == "Failed(Ended) opened connected closed")
    }
}

/// Whether this is found in one of two runs.
fn is_early(alloc: Global, head: &'static [u8], want: Option<bool>) -> bool {
    let once = || on_new_core(alloc, &UsualSettings::usual(3), ComesEarly { head });
    once() == Ok(want) || once() == Ok(want)
}

#[test]
fn a_frame_that_comes_with_the_head(rt: HostRuntime) {
    assert!(rt; is_early(rt.alloc(), HEAD, Some(true)));
    assert!(rt; is_early(rt.alloc(), NO_KEY, None));
}
