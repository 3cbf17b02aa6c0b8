//! Why an event was not done to its end.

ghost use Rattle.std.specs.Prelude.{◌≡◌};
ghost use Rattle.events.specs.declared.fault.CoreFault.TheVariants.{Memory};
ghost use Rattle.events.specs.Fault.{fault_of};

use journal::HubError;
use std::alloc::{AllocError, AllocFailed};

/// Why an event was not done to its end.
#[derive(Clone, Copy, Debug, PartialEq, Eq)]
pub enum CoreFault {
    /// An allocation was refused.
    Memory,
    /// There is no client with this id.
    UnknownClient,
    /// The client speaks over another transport.
    WrongTransport,
    /// A probe runs already.
    AlreadyProbing,
    /// The client speaks over a WebSocket already.
    AlreadyUpgraded,
    /// No probe runs.
    NotProbing,
    /// There are as many clients as there may be.
    TooManyClients,
    /// The id that was drawn is in use.
    IdTaken,
    /// A count or an offset would pass the greatest u64, or no acknowledgement id is left.
    Spent,
    /// The app asked for what can't be done.
    BadEffect,
    /// The hub's limits allow no hub.
    BadConfig,
}

/// Why a packet was not done to its end, and how many of its effects were done.
#[derive(Clone, Copy, Debug, PartialEq, Eq)]
pub struct Stopped {
    pub fault: CoreFault,
    pub effects: usize,
}

/// Why an event was not done to its end, and how far it came: so many of its packets are done, and
/// of the next one so many effects.
#[derive(Clone, Copy, Debug, PartialEq, Eq)]
pub struct CoreError {
    pub fault: CoreFault,
    pub packets: usize,
    pub effects: usize,
}

impl CoreFault {
    /// The fault where nothing of the event was done.
    pub fn at_once(self) -> CoreError
        ensures { result ≡ record { fault = self; packets = 0; effects = 0 } }
    {
        CoreError {
            fault: self,
            packets: 0,
            effects: 0,
        }
    }
}

/// What comes of a packet: it was done to its end, or why it wasn't.
pub type Worked = Result<(), Stopped>;

impl From<CoreFault> for CoreError {
    ghost from_gives = { λ fault e. e ≡ record { fault = fault; packets = 0; effects = 0 } };

    fn from(fault: CoreFault) -> CoreError {
        fault.at_once()
    }
}

impl From<CoreFault> for Stopped {
    ghost from_gives = { λ fault stopped. stopped ≡ record { fault = fault; effects = 0 } };

    fn from(fault: CoreFault) -> Stopped {
        Stopped { fault, effects: 0 }
    }
}

/// The fault where a command of the hub is refused. No other refusal ends an event.
impl From<HubError> for CoreFault {
    ghost from_gives = { λ error fault. fault ≡ fault_of error };

    fn from(error: HubError) -> CoreFault {
        match error {
            HubError::Memory => CoreFault::Memory,
            HubError::IdTaken => CoreFault::IdTaken,
            HubError::TooManyClients => CoreFault::TooManyClients,
            HubError::Spent => CoreFault::Spent,
            _ => CoreFault::UnknownClient,
        }
    }
}

impl From<AllocError> for CoreFault {
    ghost from_gives = { λ _ e. e ≡ Memory };

    fn from(_refused: AllocError) -> CoreFault {
        CoreFault::Memory
    }
}

impl<T: Drop> From<AllocFailed<T>> for CoreFault {
    ghost from_gives = { λ _ e. e ≡ Memory };

    fn from(_refused: AllocFailed<T>) -> CoreFault {
        CoreFault::Memory
    }
}
