//! One WebSocket, as a peer: what comes over it, and what is sent.

ghost use Rattle.std.specs.Prelude.{◌≡◌};
ghost use Rattle.events.specs.Frames.{frames_of};
ghost use Rattle.peers.specs.FrameSocket.{Sends, SendsAll};
ghost use Rattle.peers.specs.Heard.{to_send};
ghost use Rattle.peers.specs.Rounds.{ahead, asks_due, first_stage, has_read_nothing};
ghost use Rattle.peers.specs.Rounds.{is_idle, without_read, without_rest};

use crate::frame_socket::{FrameSocket, Incoming};
use crate::moments::Moments;
use crate::socket_stage::{Phase, SocketRequest, SocketStage};
use events::{Answered, Event, Frames, Outcome, Peer, PeerFault};
use std::io::{Read, Write};
use std::marker::Model;
use terms::{Entry, let_go};

/// Serves one WebSocket by rounds: a read, a take of what waits, and a look at what is due. A client
/// that polls says first that it probes, and then that the probe succeeded; until then its round is a
/// read and a look at what is due. In a contract it is its stage, its socket and its moments.
pub struct SocketPeer<S, M> {
    socket: FrameSocket<S>,
    moments: M,
    stage: SocketStage,
}

/// Written out, so that a crate above takes the drop of all that lies in it by this one call.
impl<S: Drop, M: Drop> Drop for SocketPeer<S, M> {
    fn drop(self) {
        let_go!(self; socket, moments, stage);
    }
}

impl<S, M> Model for SocketPeer<S, M> {
    ghost use Rattle.peers.specs.Spoken.{Spoken};

    ghost Value = { Spoken S M };

    ghost view = { λ p. record { stage = p.stage; socket = p.socket; moments = p.moments } };
}

impl<S, M> SocketPeer<S, M> {
    ghost use Rattle.std.specs.Borrow.{Lends, sem};
    ghost use Rattle.peers.specs.contracts.socket_peer.SocketPeer.{the_row};

    /// Nothing was asked of the core yet, and nothing sent.
    pub fn new(socket: FrameSocket<S>, moments: M, request: SocketRequest) -> SocketPeer<S, M>
        ensures { result
            ≡ record { stage = first_stage request; socket = socket; moments = moments } }
    {
        let stage = match request {
            SocketRequest::Open => SocketStage::Opens,
            SocketRequest::Probe { client } => SocketStage::begin(client, Phase::Knocks),
        };
        SocketPeer {
            socket,
            moments,
            stage,
        }
    }

    /// Gives buffers back that hold nothing.
    pub fn give_back(&mut self)
        ensures { self.new ≡ self.old }
    {
        self.socket.give_back();
    }

    /// Whether the last round brought nothing: nothing was read, nothing waited, nothing was due. Then
    /// it need not be driven until its stream can be read or something was put for its client.
    pub fn is_idle(&self) -> bool
        ensures { result ≡ is_idle self.now.stage }
    {
        matches!(self.stage, SocketStage::Reads { idle: true, .. })
    }

    /// Whether what waits is being taken, after a read that brought nothing at all: where fewer entries
    /// are taken than one take may have, and nothing is due, the round need not be followed by another.
    pub fn has_read_nothing(&self) -> bool
        ensures { result ≡ has_read_nothing self.now.stage }
    {
        matches!(self.stage, SocketStage::Taking { idle: true, .. })
    }

    /// Whether its next event asks what is due, to a client that speaks over the WebSocket.
    pub fn asks_due(&self) -> bool
        ensures { result ≡ asks_due self.now.stage }
    {
        matches!(self.stage, SocketStage::Ticks { .. })
    }

    /// The round that is to begin is one without a read, where the client speaks over the WebSocket.
    pub fn skip_read(&mut self)
        ensures { self.new ≡ record self.old { stage = without_read self.old.stage } }
    {
        if let SocketStage::Reads { client, at, .. } = self.stage {
            if matches!(at, Phase::Speaks) {
                self.stage = SocketStage::Takes { client };
            }
        }
    }

    /// The rest of the round, a take or a look at what is due, is passed over, where the client speaks
    /// over the WebSocket: its driver knows that nothing waits, or that it need not ask what is due.
    pub fn skip_rest(&mut self)
        ensures { self.new ≡ record self.old { stage = without_rest self.old.stage } }
    {
        let (client, idle) = match self.stage {
            SocketStage::Takes { client } => (client, false),
            SocketStage::Ticks { client, idle } => (client, idle),
            _ => return,
        };
        self.stage = SocketStage::Reads {
            client,
            at: Phase::Speaks,
            idle,
        };
    }

    /// What came behind its message is brought before that is answered, of which it isn't told.
    pub fn read_ahead(&mut self)
        ensures { self.new ≡ record self.old { stage = ahead self.old.stage } }
    {
        if let SocketStage::Framed { client } = self.stage {
            self.stage = SocketStage::begin(client, Phase::Speaks);
        }
    }

    /// The stream, to look at.
    pub fn stream(&self) -> &S
        ensures { result.now ≡ self.now.socket.stream }
    {
        self.socket.stream()
    }

    /// The stream, which a driver may send or poll.
    pub fn stream_mut(&mut self) -> &mut S
        ensures* writes_back { sem 𝓛 (Lends (the_row S.row M.row) S.row self.entry result
            (λ stream. record self.old { socket = record self.old.socket { stream = stream } })) }
        ensures value { result.now ≡ self.old.socket.stream }
    {
        self.socket.stream_mut()
    }
}

/// Sends the frames of an entry: its text as a message, and then its attachments.
fn send_entry<S: Write>(socket: &mut FrameSocket<S>, entry: &Entry) -> Result<(), PeerFault>
    ensures { SendsAll S.contents (frames_of entry.now) socket.old result socket.new }
{
    socket.send_text("4", entry.text.as_str())?;
    for attachment in entry.attachments.as_slice() {
        socket.send_bytes(attachment.as_slice())?;
    }
    Ok(())
}

/// Sends the frames of a take.
fn send_taken<S: Write>(socket: &mut FrameSocket<S>, frames: &Frames) -> Result<(), PeerFault>
    ensures { Sends S.contents frames.now.list socket.old result socket.new }
{
    let (ping, entries) = frames.parts();
    if ping {
        socket.send_text("2", "")?;
    }
    for entry in entries {
        send_entry(socket, entry)?;
    }
    Ok(())
}

/// Sends what the answer to an event asks for.
fn send<S: Write>(
    socket: &mut FrameSocket<S>,
    stage: SocketStage,
    got: &Answered,
) -> Result<(), PeerFault>
    ensures { Sends S.contents (to_send stage got.now) socket.old result socket.new }
{
    let text = match (stage, got) {
        (SocketStage::Opening, Ok(Outcome::Opened(opened))) => opened.text.as_str(),
        (SocketStage::Probing { .. }, Ok(Outcome::Probed(text))) => text.as_str(),
        (SocketStage::Taking { .. }, Ok(Outcome::Frames(frames))) => {
            return send_taken(socket, frames);
        }
        _ => return Ok(()),
    };
    socket.send_text("", text)
}

impl<S: Read + Write, M: Moments> Peer for SocketPeer<S, M> {
    ghost use Rattle.peers.specs.Spoken.{Gives, Hears};

    ghost gives = { Gives S.remaining S.contents M.gives };

    ghost hears = { Hears S.contents };

    fn next(&mut self) -> Result<Option<(Event, u64)>, PeerFault> {
        let incoming = match self.stage {
            SocketStage::Reads { .. } => self.socket.read(),
            _ => Incoming::Nothing,
        };
        let (stage, event) = self.stage.next(incoming);
        self.stage = stage;
        match event? {
            Some(event) => Ok(Some((event, self.moments.now()))),
            None => Ok(None),
        }
    }

    fn answer(&mut self, got: &Answered) -> Result<(), PeerFault> {
        let sent = send(&mut self.socket, self.stage, got);
        self.stage = self.stage.after(got);
        match (sent, self.stage) {
            (Ok(()), _) => Ok(()),
            // A probe is lost, and else the peer has failed.
            (Err(_), SocketStage::Reads { client, at, .. }) if matches!(at, Phase::Probes) => {
                self.stage = SocketStage::Loses { client };
                Ok(())
            }
            (Err(fault), _) => {
                self.stage = SocketStage::Over;
                Err(fault)
            }
        }
    }
}
