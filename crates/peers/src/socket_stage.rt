//! How far a WebSocket has come: what comes next, and what the answer to an event leads to.

ghost use Rattle.std.specs.Prelude.{◌≡◌, false};
ghost use Rattle.peers.specs.declared.socket_stage.SocketStage.TheVariants as stages;
ghost use Rattle.peers.specs.Heard as heard;
ghost use Rattle.peers.specs.Responses.{socket_request};
ghost use Rattle.peers.specs.Rounds as rounds;
ghost use Rattle.peers.specs.Rounds.{with_event, without_fault};

use crate::frame_socket::Incoming;
use events::{Answered, CoreFault, Event, Outcome, PeerFault, WsFrame};
use http_edge::Target;

/// The most entries of one take of a WebSocket.
pub(crate) const FRAMES_PER_TAKE: usize = 64;

/// The message by which a client probes its WebSocket.
pub(crate) const PROBE: &str = "2probe";

/// The message by which a client that has probed it comes over to it.
pub(crate) const UPGRADE: &str = "5";

/// What a request asks for that is to become a WebSocket.
#[derive(Clone, Copy, PartialEq, Eq)]
pub enum SocketRequest {
    /// A new client.
    Open,
    /// A client that polls is to come over.
    Probe { client: u128 },
}

impl SocketRequest {
    /// What a target asks for.
    pub fn of(target: Target) -> Option<SocketRequest>
        ensures { result ≡ socket_request target }
    {
        match target {
            Target::OpenSocket => Some(SocketRequest::Open),
            Target::ProbeSocket(client) => Some(SocketRequest::Probe { client }),
            _ => None,
        }
    }
}

/// How far a client has come over to its WebSocket.
#[derive(Clone, Copy)]
pub(crate) enum Phase {
    /// It is to say that it probes.
    Knocks,
    /// It is to say that the probe succeeded.
    Probes,
    /// It speaks over the WebSocket.
    Speaks,
}

/// How far a WebSocket has come. A round that is idle has brought nothing so far.
#[derive(Clone, Copy)]
pub(crate) enum SocketStage {
    /// The client is to be opened.
    Opens,
    /// It is being opened.
    Opening,
    /// A round begins by a read; it says whether the round before was idle.
    Reads { client: u128, at: Phase, idle: bool },
    /// The client is said to probe.
    Probing { client: u128 },
    /// The client is said to come over.
    Upgrading { client: u128 },
    /// A frame was handed in.
    Framed { client: u128 },
    /// What waits is to be taken, after a frame.
    Takes { client: u128 },
    /// What waits is being taken.
    Taking { client: u128, idle: bool },
    /// It is to be asked what is due.
    Ticks { client: u128, idle: bool },
    /// It is being asked what is due.
    Ticking { client: u128, at: Phase, idle: bool },
    /// The probe failed, which is to be said.
    Loses { client: u128 },
    /// The probe is said to have failed.
    Losing { client: u128 },
    /// It is served no more.
    Over,
}

/// How many bytes the message had by which an event was brought, if it was brought by one.
pub fn message_length(event: &Event) -> Option<usize>
    ensures { result ≡ rounds.message_length event.now }
{
    match event {
        Event::Frame { frame, .. } => Some(match frame {
            WsFrame::Text(text) => text.as_str().len(),
            WsFrame::Bytes(bytes) => bytes.as_slice().len(),
        }),
        Event::Probe { .. } => Some(PROBE.len()),
        Event::Upgraded { .. } => Some(UPGRADE.len()),
        _ => None,
    }
}

/// Whether it is just this text.
fn says(incoming: &Incoming, word: &str) -> bool
    ensures { result ≡ rounds.says word.now incoming.now }
{
    matches!(incoming, Incoming::Frame(WsFrame::Text(text)) if text.as_str() == word)
}

/// Whether there is no such client.
fn is_gone(got: &Answered) -> bool
    ensures { result ≡ heard.is_gone got.now }
{
    matches!(got, Err(error) if matches!(error.fault, CoreFault::UnknownClient))
}

/// The stage from then on, and the next event, if there is one.
type Step = (SocketStage, Result<Option<Event>, PeerFault>);

impl SocketStage {
    /// The first round of a client that has come so far.
    pub(crate) fn begin(client: u128, at: Phase) -> Self
        ensures { result ≡ stages.Reads client at false }
    {
        let idle = false;
        Self::Reads { client, at, idle }
    }

    /// This event, and this stage from then on.
    fn with(self, event: Event) -> Step
        ensures { result ≡ without_fault (with_event (self, event)) }
    {
        (self, Ok(Some(event)))
    }

    fn take(client: u128, idle: bool) -> Step
        ensures { result ≡ without_fault (with_event (rounds.takes client idle)) }
    {
        let most = FRAMES_PER_TAKE;
        Self::Taking { client, idle }.with(Event::FrameTake { client, most })
    }

    /// What follows a read.
    fn after_read(client: u128, at: Phase, incoming: Incoming) -> Step
        ensures { result ≡ rounds.after_read client at incoming }
    {
        let idle = matches!(incoming, Incoming::Nothing);
        match (at, incoming) {
            (Phase::Speaks, Incoming::Nothing | Incoming::Control) => Self::take(client, idle),
            (Phase::Speaks, Incoming::Frame(frame)) => {
                Self::Framed { client }.with(Event::Frame { client, frame })
            }
            (Phase::Speaks, Incoming::Gone(fault)) => (Self::Over, Err(fault)),
            (_, Incoming::Nothing | Incoming::Control) => {
                Self::Ticking { client, at, idle }.with(Event::Tick { client })
            }
            (Phase::Knocks, said) if says(&said, PROBE) => {
                Self::Probing { client }.with(Event::Probe { client })
            }
            (Phase::Knocks, _) => (Self::Over, Ok(None)),
            (Phase::Probes, said) if says(&said, UPGRADE) => {
                Self::Upgrading { client }.with(Event::Upgraded { client })
            }
            (Phase::Probes, _) => Self::Losing { client }.with(Event::ProbeLost { client }),
        }
    }

    /// What comes next. What was read counts where the stage reads.
    pub(crate) fn next(self, incoming: Incoming) -> Step
        ensures { result ≡ rounds.next_of self incoming }
    {
        match self {
            Self::Opens => Self::Opening.with(Event::Opened { socket: true }),
            Self::Reads { client, at, .. } => Self::after_read(client, at, incoming),
            Self::Takes { client } => Self::take(client, false),
            Self::Ticks { client, idle } => {
                let at = Phase::Speaks;
                Self::Ticking { client, at, idle }.with(Event::Tick { client })
            }
            Self::Loses { client } => Self::Losing { client }.with(Event::ProbeLost { client }),
            other => (other, Ok(None)),
        }
    }

    fn after_tick(client: u128, at: Phase, idle: bool, got: &Answered) -> Self
        ensures { result ≡ heard.after_tick client at idle got.now }
    {
        let due =
            matches!(got, Ok(Outcome::Ticked { ping, done }) if *ping || done.closed.is_some());
        let idle = idle && !due;
        match at {
            _ if is_gone(got) => Self::Over,
            Phase::Knocks if got.is_err() => Self::Over,
            Phase::Probes if got.is_err() => Self::Loses { client },
            _ => Self::Reads { client, at, idle },
        }
    }

    /// The stage once the event got this answer.
    pub(crate) fn after(self, got: &Answered) -> Self
        ensures { result ≡ heard.after self got.now }
    {
        match (self, got) {
            (Self::Opening, Ok(Outcome::Opened(open))) => Self::begin(open.client, Phase::Speaks),
            (Self::Probing { client }, Ok(Outcome::Probed(_))) => {
                Self::begin(client, Phase::Probes)
            }
            (Self::Upgrading { client }, Ok(Outcome::Done(_))) => {
                Self::begin(client, Phase::Speaks)
            }
            (Self::Framed { client }, _) if !is_gone(got) => Self::Takes { client },
            (Self::Taking { client, idle }, _) if !is_gone(got) => {
                let idle = idle && !matches!(got, Ok(Outcome::Frames(_)));
                Self::Ticks { client, idle }
            }
            (Self::Ticking { client, at, idle }, _) => Self::after_tick(client, at, idle, got),
            (Self::Opens | Self::Reads { .. } | Self::Takes { .. } | Self::Ticks { .. }, _) => self,
            (Self::Loses { .. } | Self::Over, _) => self,
            _ => Self::Over,
        }
    }
}
