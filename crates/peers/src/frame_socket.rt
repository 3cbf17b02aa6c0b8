//! One WebSocket of the server's side: its frames as they come, each read where it lies, and as they
//! are sent, each written right into the stream (RFC 6455, sections 5 and 7).

ghost use Rattle.std.specs.Prelude.{None, ◌+◌, ◌≡◌, ◌≤◌, ◌↔◌, ◌++◌, [], IsTrue, OnOk, IfErr, drop, length, take, vec_len};
ghost use Rattle.std.specs.Io.KnownBytes.{Appends};
ghost use Rattle.websocket.specs.Connection.{whole_header};
ghost use Rattle.websocket.specs.Content.{message_content};
ghost use Rattle.websocket.specs.Frame.{encode_frame};
ghost use Rattle.websocket.specs.declared.protocol.frame.coding.Data.TheVariants as kind;
ghost use Rattle.websocket.specs.declared.protocol.frame.coding.OpCode.TheVariants as opcode;
ghost use Rattle.events.specs.declared.peer.PeerFault.TheVariants.{Device};
ghost use Rattle.peers.specs.FrameSocket.{SendsFrame, limits_of, new_socket};
ghost use Rattle.peers.specs.Incoming.{Brings, ClosesAsTooBig, GivesNoMore, HasRead, IsReadAs, IsRefused, IsTooLong, Steps};

use events::{PeerFault, WsFrame};
use std::alloc::Global;
use std::io::{ErrorKind, Read, Write};
use std::marker::Model;
use terms::{Bytes, Text, let_go};
use websocket::error::Error;
use websocket::protocol::frame::FrameHeader;
use websocket::protocol::frame::coding::{Data, OpCode};
use websocket::protocol::{
    CloseCode, CloseFrame, FrameStatus, Message, NoMask, Role, Step, WebSocketConfig,
    WebSocketContext,
};

/// The longest message and the longest frame that are read, in bytes: longer than what the core
/// refuses by itself.
pub(crate) const LONGEST: usize = 1_048_576;

/// How many bytes one read asks for at the most.
const READ: usize = 2_048;

/// The longest message whose length stands in the second byte of its frame (section 5.2).
const SHORT: usize = 125;

/// A WebSocket of the server's side. In a contract it is its stream, how far the protocol has come,
/// and what was read of frames that are still to be brought.
pub struct FrameSocket<S> {
    alloc: Global,
    stream: S,
    context: WebSocketContext,
    input: Vec<u8>,
    // What the protocol replies, and heads of long frames, until they are written.
    output: Vec<u8>,
}

/// Written out, so that a crate above takes the drop of all that lies in it by this one call.
impl<S: Drop> Drop for FrameSocket<S> {
    fn drop(self) {
        let_go!(self; alloc, stream, context, input, output);
    }
}

impl<S> Model for FrameSocket<S> {
    ghost use Rattle.peers.specs.FrameSocket.{Socket};

    ghost Value = { Socket S };

    ghost view = { λ s. record { stream = s.stream; conn = s.context; input = s.input.items } };
}

/// What a read of a WebSocket brought.
#[derive(Drop)]
pub(crate) enum Incoming {
    /// Nothing yet.
    Nothing,
    /// A ping or a pong, or a part of a message.
    Control,
    /// A message.
    Frame(WsFrame),
    /// The end of the stream, or why nothing more can be read.
    Gone(PeerFault),
}

/// How many bytes a message and a frame may have.
fn limits() -> WebSocketConfig
    ensures { result ≡ limits_of 1048576 }
{
    WebSocketConfig {
        max_message_size: Some(LONGEST),
        max_frame_size: Some(LONGEST),
        accept_unmasked_frames: false,
    }
}

/// A message of as many bytes as are read, in place of one that has more: the core refuses it, too.
fn too_long(alloc: Global) -> Incoming
    ensures { IsTooLong result }
{
    match vec![in alloc; 0u8; LONGEST] {
        Ok(zeros) => Incoming::Frame(WsFrame::Bytes(Bytes::from_vec(zeros))),
        Err(_) => Incoming::Gone(PeerFault::Memory),
    }
}

/// What a message is worked on as.
fn heard(alloc: Global, message: Message<'_>) -> Incoming
    ensures { IsReadAs (message_content message.entry) result }
{
    let frame = match message {
        Message::Text(text) => Text::copy_of(alloc, text).map(WsFrame::Text),
        Message::Binary(bytes) => Bytes::copy_of(alloc, bytes).map(WsFrame::Bytes),
        Message::Ping(_) | Message::Pong(_) => return Incoming::Control,
        Message::Close(_) => return Incoming::Gone(PeerFault::Ended),
    };
    frame.map_or(Incoming::Gone(PeerFault::Memory), Incoming::Frame)
}

/// Forgets the first bytes. Mostly these are all, and then none has to move. Else the others are the
/// end of what one read brought: they are copied, since to move them takes longer, where memory allows.
fn forget_first(alloc: Global, input: &mut Vec<u8>, count: usize)
    requires { count ≤ vec_len input.old }
    ensures { input.new.items ≡ drop count input.old.items }
{
    if count == input.len() {
        input.clear();
    } else if let Ok(others) = Vec::from_slice(alloc, &input[count..]) {
        *input = others;
    } else {
        input.drain(..count);
    }
}

/// Puts a short message of two parts together as one frame, and tells how many bytes that has: so
/// most messages are one write, and no memory is asked for.
fn put_short(frame: &mut [u8; 2 + SHORT], kind: OpCode, start: &[u8], rest: &[u8]) -> usize
    requires { length start.now + length rest.now ≤ 125 }
    ensures inside { result ≤ 127 }
    ensures put { take result frame.new
        ≡ encode_frame (whole_header kind None) (start.now ++ rest.now) }
{
    let middle = 2 + start.len();
    let end = middle + rest.len();
    frame[0] = 0x80 + u8::from(kind);
    frame[1] = (end - 2) as u8;
    frame[2..middle].copy_from_slice(start);
    frame[middle..end].copy_from_slice(rest);
    end
}

/// Writes all of these bytes to a stream. One that takes fewer than it is given has failed.
fn write_whole<S: Write>(stream: &mut S, bytes: &[u8]) -> Result<(), PeerFault>
    ensures wrote { OnOk result (Appends (S.contents stream.old) (S.contents stream.new) bytes.now) }
    ensures fault { IfErr result (λ e. e ≡ Device) }
{
    match stream.write(bytes) {
        Ok(count) if count == bytes.len() => Ok(()),
        _ => Err(PeerFault::Device),
    }
}

impl<S> FrameSocket<S> {
    ghost use Rattle.std.specs.Borrow.{Lends, sem};
    ghost use Rattle.peers.specs.contracts.frame_socket.FrameSocket.{the_row};

    /// Nothing was sent yet, and of the stream just these bytes were read.
    pub fn new(alloc: Global, stream: S, rest: Vec<u8>) -> FrameSocket<S>
        ensures { result ≡ new_socket stream rest.items }
    {
        FrameSocket {
            alloc,
            stream,
            context: WebSocketContext::new(alloc, Role::Server, limits()),
            input: rest,
            output: Vec::new(alloc),
        }
    }

    /// The stream, to look at.
    pub fn stream(&self) -> &S
        ensures { result.now ≡ self.now.stream }
    {
        &self.stream
    }

    /// The stream, which a driver may send or poll.
    pub fn stream_mut(&mut self) -> &mut S
        ensures* writes_back { sem 𝓛 (Lends (the_row S.row) S.row self.entry result
            (λ stream. record self.old { stream = stream })) }
        ensures value { result.now ≡ self.old.stream }
    {
        &mut self.stream
    }

    /// Whether all that was read was brought.
    fn has_no_input(&self) -> bool
        ensures { IsTrue result ↔ (self.now.input ≡ []) }
    {
        self.input.is_empty()
    }

    /// Gives buffers back that hold nothing.
    pub(crate) fn give_back(&mut self)
        ensures { self.new ≡ self.old }
    {
        self.output = Vec::new(self.alloc);
        if self.input.is_empty() {
            self.input = Vec::new(self.alloc);
        }
    }
}

impl<S: Read> FrameSocket<S> {
    /// Reads more of the stream, or tells why no more comes.
    fn fill(&mut self) -> Result<(), Incoming>
        ensures filled { OnOk result ((got : _) × HasRead S.remaining got self.old self.new) }
        ensures no_more { IfErr result (λ came. GivesNoMore S.remaining self.old came self.new) }
    {
        let mut bytes = [0; READ];
        match self.stream.read(&mut bytes) {
            Ok(0) => Err(Incoming::Gone(PeerFault::Ended)),
            Ok(count) => {
                if self.input.extend_from_slice(&bytes[..count]).is_err() {
                    return Err(Incoming::Gone(PeerFault::Memory));
                }
                Ok(())
            }
            Err(error) if error.kind() == ErrorKind::WouldBlock => Err(Incoming::Nothing),
            Err(_) => Err(Incoming::Gone(PeerFault::Device)),
        }
    }
}

impl<S: Write> FrameSocket<S> {
    /// Closes it, since a message is too long (section 7.4.1: 1009).
    fn close_as_too_long(&mut self) -> Incoming
        ensures { ClosesAsTooBig S.contents self.old result self.new }
    {
        let reason = CloseFrame {
            code: CloseCode::Size,
            reason: "",
        };
        self.output.clear();
        if self
            .context
            .close(Some(reason), &mut self.output, &mut NoMask)
            .is_err()
        {
            return Incoming::Gone(PeerFault::Memory);
        }
        match write_whole(&mut self.stream, &self.output) {
            Ok(()) => too_long(self.alloc),
            Err(fault) => Incoming::Gone(fault),
        }
    }

    /// What was read is no frame, or is refused.
    fn refuse(&mut self, error: Error) -> Incoming
        ensures { IsRefused S.contents error self.old result self.new }
    {
        match error {
            Error::Capacity(_) => self.close_as_too_long(),
            Error::OutOfMemory => Incoming::Gone(PeerFault::Memory),
            Error::ConnectionClosed | Error::AlreadyClosed => Incoming::Gone(PeerFault::Ended),
            _ => Incoming::Gone(PeerFault::Device),
        }
    }

    /// Takes the first frame out of what was read, where it is whole, and replies to it.
    fn take_frame(&mut self) -> Option<Incoming>
        ensures { Steps S.contents self.old result self.new }
    {
        if self.has_no_input() && self.context.can_read() {
            return None;
        }
        self.output.clear();
        let read = self
            .context
            .read(&mut self.input, &mut self.output, &mut NoMask);
        let step = match read {
            Ok(FrameStatus::Partial(_)) => return None,
            Ok(FrameStatus::Complete(step)) => step,
            Err(error) => return Some(self.refuse(error)),
        };
        let came = match &step.message {
            Some(received) => heard(self.alloc, received.message(&self.input)),
            None => Incoming::Control,
        };
        forget_first(self.alloc, &mut self.input, step.consumed);
        match write_whole(&mut self.stream, &self.output) {
            Ok(()) => Some(came),
            Err(fault) => Some(Incoming::Gone(fault)),
        }
    }

    /// Sends a message of two parts as one frame.
    fn send(&mut self, kind: OpCode, start: &[u8], rest: &[u8]) -> Result<(), PeerFault>
        ensures { SendsFrame S.contents kind (start.now ++ rest.now) self.old result self.new }
    {
        if !self.context.can_write() {
            return Err(PeerFault::Device);
        }
        let length = start.len() + rest.len();
        if length <= SHORT {
            let mut frame = [0; 2 + SHORT];
            let end = put_short(&mut frame, kind, start, rest);
            return write_whole(&mut self.stream, &frame[..end]);
        }
        self.output.clear();
        let head = FrameHeader::new(kind, None);
        if head.format(length as u64, &mut self.output).is_err()
            || self.output.extend_from_slice(start).is_err()
        {
            return Err(PeerFault::Memory);
        }
        write_whole(&mut self.stream, &self.output)?;
        write_whole(&mut self.stream, rest)
    }

    /// Sends a text, which is given in two parts.
    pub fn send_text(&mut self, start: &str, rest: &str) -> Result<(), PeerFault>
        ensures { SendsFrame S.contents (opcode.Data kind.Text) (start.now ++ rest.now)
            self.old result self.new }
    {
        self.send(OpCode::Data(Data::Text), start.as_bytes(), rest.as_bytes())
    }

    /// Sends some bytes.
    pub fn send_bytes(&mut self, bytes: &[u8]) -> Result<(), PeerFault>
        ensures { SendsFrame S.contents (opcode.Data kind.Binary) bytes.now self.old result self.new }
    {
        self.send(OpCode::Data(Data::Binary), &[], bytes)
    }
}

impl<S: Read + Write> FrameSocket<S> {
    /// Reads the next message, or finds that there is none yet.
    pub(crate) fn read(&mut self) -> Incoming
        ensures { Brings S.remaining S.contents self.old result self.new }
    {
        for _ in 0..u64::MAX {
            if let Some(came) = self.take_frame() {
                return came;
            }
            if let Err(came) = self.fill() {
                return came;
            }
        }
        match self.take_frame() {
            Some(came) => came,
            None => Incoming::Nothing,
        }
    }
}
