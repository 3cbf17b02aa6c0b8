//! How often the core is told of a lost client.

ghost use Rattle.std.specs.Prelude.{◌≡◌, ◌-◌};
ghost use Rattle.events.specs.Loss.{follows, most_tries};

use crate::event::Event;
use crate::outcome::Answered;

/// How often the core is told of a loss, at the most.
const TRIES: u32 = 3;

/// Whether the core is told of a loss once more.
#[derive(Clone, Copy, Debug, PartialEq, Eq)]
pub enum Retry {
    /// It refused that, and is told again.
    Again,
    /// It accepted that, or was told as often as it may be.
    Over,
}

/// The loss of a client, of which the core is told until it accepts that, up to three times.
#[derive(Clone, Copy, Debug, PartialEq, Eq)]
pub struct Loss {
    client: u128,
    /// How often the core may be told yet.
    left: u32,
}

impl Loss {
    /// The core wasn't told of it yet.
    pub fn new(client: u128) -> Loss
        ensures { result ≡ record { client = client; left = most_tries } }
    {
        let left = TRIES;
        Loss { client, left }
    }

    /// What the core is told.
    pub fn event(&self) -> Event
        ensures { result ≡ Event.TransportLost self.now.client }
    {
        let client = self.client;
        Event::TransportLost { client }
    }

    /// The core was told, and answered this.
    pub fn hears(&mut self, got: &Answered) -> Retry
        ensures told { self.new ≡ record self.old { left = self.old.left - 1 } }
        ensures retry { result ≡ follows self.old.left got.now }
    {
        let is_last = self.left <= 1;
        self.left = self.left.saturating_sub(1);
        if got.is_ok() || is_last {
            Retry::Over
        } else {
            Retry::Again
        }
    }
}
