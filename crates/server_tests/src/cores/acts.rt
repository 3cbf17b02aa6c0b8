//! What clients do, as events.

use events::Event;
use std::alloc::{AllocError, Global};
use terms::Text;

/// What happens, and to which client.
#[derive(Clone, Copy)]
pub enum Act {
    Opens,
    Posts(u128, &'static str),
    Takes(u128),
    IsLost(u128),
}

impl Act {
    pub fn event(self, alloc: Global) -> Result<Event, AllocError> {
        Ok(match self {
            Act::Opens => Event::Opened { socket: false },
            Act::Posts(client, text) => Event::Post {
                client,
                body: Text::copy_of(alloc, text)?,
            },
            Act::Takes(client) => Event::PollTake { client, most: 64 },
            Act::IsLost(client) => Event::TransportLost { client },
        })
    }
}
