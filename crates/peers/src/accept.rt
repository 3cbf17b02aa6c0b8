//! The opening handshake (RFC 6455, section 4.2).

ghost use Rattle.std.specs.Prelude.{IfSome};
ghost use Rattle.peers.specs.Accepted.{Accepts, BeginsWith};
ghost use Rattle.tungstenite.specs.Heads.{Serves};

use crate::frame_socket::FrameSocket;
use http_edge::Replay;
use std::alloc::Global;
use std::io::{Read, Write};
use tungstenite::handshake::server;
use tungstenite::{NoCallback, NoMask, WebSocket};

/// Who answers the request whose head a stream has first.
trait Greeter<S> {
    ghost use Rattle.http_edge.specs.declared.replay.Replay.{Replay};
    ghost use Rattle.std.specs.Prelude.{Option};
    ghost use Rattle.tungstenite.specs.Socket.{Socket};

    /// Of the stream the WebSocket, if there is one.
    ghost gives: { Self → Replay S → Option (Socket (Replay S)) → Type 0 } = { λ _ _ _. Unit {0} };

    fn greet(self, alloc: Global, stream: Replay<S>) -> Option<WebSocket<Replay<S>, NoMask>>
        ensures { gives self stream result };
}

/// Answers it by the opening handshake.
#[derive(Clone, Copy)]
struct Handshake;

impl<S: Read + Write + Drop> Greeter<S> for Handshake {
    ghost use Rattle.std.specs.Prelude.{IfSome};
    ghost use Rattle.tungstenite.specs.Heads.{Serves};

    ghost gives = { λ _ _ gave. IfSome gave Serves };

    fn greet(self, alloc: Global, stream: Replay<S>) -> Option<WebSocket<Replay<S>, NoMask>>
        ensures { IfSome result Serves }
    {
        server::start(alloc, stream, NoCallback, None)
            .handshake()
            .ok()
    }
}

/// Has the request answered, over the stream with its head before it. Of what that gives comes the
/// WebSocket.
fn accept_by<S: Drop, G: Greeter<S>>(
    alloc: Global,
    greeter: G,
    stream: S,
    head: Vec<u8>,
    rest: Vec<u8>,
) -> Option<FrameSocket<Replay<S>>>
    ensures { Accepts (G.gives greeter) head.items stream rest.items result }
{
    let replay = Replay::new(head, stream);
    let accepted = greeter.greet(alloc, replay)?;
    Some(FrameSocket::new(alloc, accepted.into_inner(), rest))
}

/// Answers the request whose head was read, and gives its WebSocket; else the stream is dropped. The
/// bytes that were read past the head are the first that the WebSocket has.
pub fn accept_socket<S: Read + Write + Drop>(
    alloc: Global,
    stream: S,
    head: Vec<u8>,
    rest: Vec<u8>,
) -> Option<FrameSocket<Replay<S>>>
    ensures { IfSome result (BeginsWith rest.items) }
{
    accept_by(alloc, Handshake, stream, head, rest)
}
