//! What happens to the server.

ghost use Rattle.std.specs.Prelude.{◌≡◌};
ghost use Rattle.events.specs.Event.{client_of};

use terms::{Bytes, Text};

/// Something that happens to the server: a request of a client, or the loss of it; and what the
/// passing of time brings, for one client or for the hub.
#[derive(Debug, Drop)]
pub enum Event {
    /// A client opens a connection, over a WebSocket or by polling.
    Opened { socket: bool },
    /// The client posts a payload.
    Post { client: u128, body: Text },
    /// A frame comes over the client's WebSocket.
    Frame { client: u128, frame: WsFrame },
    /// A GET of the client begins to wait for a payload.
    PollBegin { client: u128 },
    /// The client's GET waits no more.
    PollEnd { client: u128 },
    /// The payload for the client's GET is taken, of at most so many entries.
    PollTake { client: u128, most: usize },
    /// The frames for the client's WebSocket are taken, of at most so many entries.
    FrameTake { client: u128, most: usize },
    /// The client, which polls, probes a WebSocket.
    Probe { client: u128 },
    /// The probe succeeded, and the client speaks over the WebSocket from now on.
    Upgraded { client: u128 },
    /// The probe failed, and the client polls on.
    ProbeLost { client: u128 },
    /// The client's connection was lost.
    TransportLost { client: u128 },
    /// It is asked what is due to the client.
    Tick { client: u128 },
    /// What the hub keeps no longer is dropped.
    Sweep,
}

impl Event {
    /// The client that the event is of, or `None` where it opens one, or is of no client.
    pub fn client(&self) -> Option<u128>
        ensures { result ≡ client_of self.now }
    {
        match self {
            Event::Opened { .. } | Event::Sweep => None,
            Event::Post { client, .. }
            | Event::Frame { client, .. }
            | Event::PollBegin { client }
            | Event::PollEnd { client }
            | Event::PollTake { client, .. }
            | Event::FrameTake { client, .. }
            | Event::Probe { client }
            | Event::Upgraded { client }
            | Event::ProbeLost { client }
            | Event::TransportLost { client }
            | Event::Tick { client } => Some(*client),
        }
    }
}

/// A message of a WebSocket.
#[derive(Debug, Drop)]
pub enum WsFrame {
    Text(Text),
    Bytes(Bytes),
}
