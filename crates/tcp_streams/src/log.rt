//! What a server tells of itself while it runs.

ghost use Rattle.std.specs.Prelude.{◌≡◌};
ghost use Rattle.tcp_streams.specs.Ending.{ending_of};

use events::{Answered, Cause, CoreFault, Outcome};
use journal::Totals;

/// Who hears what a server tells of itself. Its calls may wait.
pub trait Log {
    /// Whether it hears of clients.
    fn hears_clients(&self) -> bool;

    /// It is told this.
    fn tell(&self, news: News);
}

/// What a server tells of itself.
#[derive(Clone, Copy)]
pub enum News {
    /// A client has ended, which lived so many milliseconds, and spoke over a WebSocket or not.
    Ended {
        client: u128,
        socket: bool,
        ending: Ending,
        lived: u64,
    },
    /// So many more events of clients went to no backend.
    Unheard(u64),
    /// So many more connections were refused, since their addresses had as many as one may have.
    Crowded(u64),
    /// The warden has lost its client, and what it would have been told meanwhile.
    WardenLost,
    /// What the server has counted so far.
    Totals(Totals),
}

/// How a client ended.
#[derive(Clone, Copy, Debug, PartialEq, Eq)]
pub enum Ending {
    /// It was closed for this cause.
    Closed(Cause),
    /// Its connection was lost, and the sessions that it had are saved.
    Saved,
    /// Its connection was lost, and its sessions are gone, since they had no space.
    Unsaved,
    /// It was gone before its event came.
    Gone,
}

impl Ending {
    /// How its client ended, as the answer to an event says, if it did.
    pub fn of(got: &Answered) -> Option<Ending>
        ensures { result ≡ ending_of got.now }
    {
        match got {
            Ok(Outcome::Lost { saved: true, .. }) => Some(Ending::Saved),
            Ok(Outcome::Lost { saved: false, .. }) => Some(Ending::Unsaved),
            Ok(Outcome::Done(done) | Outcome::Ticked { done, .. }) => {
                done.closed.map(Ending::Closed)
            }
            Err(error) if matches!(error.fault, CoreFault::UnknownClient) => Some(Ending::Gone),
            _ => None,
        }
    }
}
