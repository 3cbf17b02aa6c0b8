//! Why a command was refused.

ghost use Rattle.std.specs.Prelude.{◌≡◌};
ghost use Rattle.journal.specs.declared.error.HubError.TheVariants.{Memory};

use room_maps::RoomError;
use std::alloc::{AllocError, AllocFailed};

/// Why a session can't come back.
#[derive(Clone, Copy, Debug, PartialEq, Eq)]
pub enum RecoveryRefusal {
    /// No session with this private id is saved in this namespace.
    UnknownPid,
    /// The session was lost too long ago.
    Expired,
    /// The log doesn't reach back to the offset that was named.
    OffsetGone,
}

/// Why a command was refused. Each command names the order in which it asks.
#[derive(Clone, Copy, Debug, PartialEq, Eq)]
pub enum HubError {
    /// An allocation was refused.
    Memory,
    /// The client is open, or a connected socket or a saved session has one of the ids.
    IdTaken,
    UnknownClient,
    UnknownSocket,
    UnknownNamespace,
    /// The client has a socket in the namespace already.
    AlreadyConnected,
    /// There are as many clients as there may be.
    TooManyClients,
    /// The client's outbox has no space for what would be put.
    OutboxFull,
    /// The rooms don't allow it.
    RoomRefused(RoomError),
    /// The session can't come back.
    NotRecoverable(RecoveryRefusal),
    /// A count or the offset would pass the greatest u64.
    Spent,
    /// The table of saved sessions has less space than the client has sockets.
    SavedFull,
    /// The payload has no `]`, or there are more than 32 attachments.
    BadPayload,
    /// A limit or the list of namespaces isn't as `Config` says.
    BadConfig,
}

impl From<AllocError> for HubError {
    ghost from_gives = { λ _ e. e ≡ Memory };

    fn from(_refused: AllocError) -> HubError {
        HubError::Memory
    }
}

impl<T: Drop> From<AllocFailed<T>> for HubError {
    ghost from_gives = { λ _ e. e ≡ Memory };

    fn from(_refused: AllocFailed<T>) -> HubError {
        HubError::Memory
    }
}
