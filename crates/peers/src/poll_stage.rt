//! How far a request over HTTP has come.

ghost use Rattle.std.specs.Prelude.{◌≡◌, string_bytes};
ghost use Rattle.peers.specs.Polling as polling;
ghost use Rattle.peers.specs.Responses.{poll_request};

use events::{Answered, CoreFault, Event, Outcome};
use http_edge::Target;
use terms::Text;

/// How often a GET that waits asks, at the most.
const TAKES: u32 = 1_200;

/// What a request asks for that isn't to become a WebSocket.
#[derive(Drop)]
pub enum PollRequest {
    /// A new client, which polls.
    Open,
    /// What waits for a client.
    Get { client: u128 },
    /// A client's payload is brought.
    Post { client: u128, body: Text },
}

impl PollRequest {
    /// What a target asks for, with the body of its request.
    pub fn of(target: Target, body: String) -> Option<PollRequest>
        ensures { result ≡ poll_request target (string_bytes body) }
    {
        match target {
            Target::OpenPoll => Some(PollRequest::Open),
            Target::Poll(client) => Some(PollRequest::Get { client }),
            Target::Post(client) => Some(PollRequest::Post {
                client,
                body: Text::from_string(body),
            }),
            _ => None,
        }
    }
}

/// How far a request over HTTP has come.
#[derive(Drop)]
pub(crate) enum PollStage {
    /// Its first event is to come.
    First(PollRequest),
    /// The client is being opened.
    Opening,
    /// The payload was handed in.
    Posting { client: u128 },
    /// The GET is being begun.
    Beginning { client: u128 },
    /// The GET was begun, and is to ask for the first time.
    Begun { client: u128 },
    /// The GET found nothing, and may ask so often yet.
    Waits { client: u128, left: u32 },
    /// The GET asks, and may ask so often again.
    Taking { client: u128, left: u32 },
    /// The GET asks no more, which is to be said.
    Ends { client: u128 },
    /// The GET is being ended.
    Ending { client: u128 },
    /// It was answered, or has nobody to answer.
    Over,
}

/// The next event, if there is one, and the stage from then on.
type Step = (PollStage, Option<Event>);

/// Whether a GET that was begun waits on, although its event was refused.
pub(crate) fn waits_on(fault: CoreFault) -> bool
    ensures { result ≡ polling.waits_on fault }
{
    matches!(
        fault,
        CoreFault::Memory
            | CoreFault::TooManyClients
            | CoreFault::IdTaken
            | CoreFault::Spent
            | CoreFault::BadEffect
    )
}

impl PollStage {
    /// This event, and this stage from then on.
    fn with(self, event: Event) -> Step
        ensures { result ≡ polling.with_event (self, event) }
    {
        (self, Some(event))
    }

    /// A GET asks, and may ask so often again.
    fn take(client: u128, left: u32, most: usize) -> Step
        ensures { result ≡ polling.with_event (polling.asks most client left) }
    {
        Self::Taking { client, left }.with(Event::PollTake { client, most })
    }

    /// What comes next, where a take has at most so many entries.
    pub(crate) fn next(self, most: usize) -> Step
        ensures { result ≡ polling.next_of most self }
    {
        match self {
            Self::First(PollRequest::Open) => Self::Opening.with(Event::Opened { socket: false }),
            Self::First(PollRequest::Get { client }) => {
                Self::Beginning { client }.with(Event::PollBegin { client })
            }
            Self::First(PollRequest::Post { client, body }) => {
                Self::Posting { client }.with(Event::Post { client, body })
            }
            Self::Begun { client } => Self::take(client, TAKES - 1, most),
            Self::Waits { client, left } => Self::take(client, left.saturating_sub(1), most),
            Self::Ends { client } => Self::Ending { client }.with(Event::PollEnd { client }),
            other => (other, None),
        }
    }

    /// The stage once the event got this answer.
    pub(crate) fn after(self, got: &Answered) -> Self
        ensures { result ≡ polling.after self got.now }
    {
        let waits = matches!(got, Err(error) if waits_on(error.fault));
        let finds_nothing = waits || matches!(got, Ok(Outcome::Nothing));
        match (self, got) {
            (Self::Beginning { client }, Ok(Outcome::Begun)) => Self::Begun { client },
            (Self::Taking { client, left: 0 }, _) if finds_nothing => Self::Ends { client },
            (Self::Taking { client, left }, _) if finds_nothing => Self::Waits { client, left },
            (Self::Ending { client }, _) if waits => Self::Ends { client },
            (Self::Opening | Self::Posting { .. } | Self::Beginning { .. }, _) => Self::Over,
            (Self::Taking { .. } | Self::Ending { .. }, _) => Self::Over,
            (other, _) => other,
        }
    }
}
