ghost use Rattle.std.specs.Prelude.{◌≡◌};
ghost use Rattle.recovery.specs.declared.error.RecoveryError.TheVariants.{Memory};

use std::alloc::{AllocError, AllocFailed};

/// What a call answers, or why it is refused.
pub(crate) type Result<X = (), E = RecoveryError> = std::result::Result<X, E>;

/// Why a call was refused.
#[derive(Clone, Copy, Debug, PartialEq, Eq)]
pub enum RecoveryError {
    /// An allocation was refused.
    Memory,
    /// The table has a session with this private session id already.
    PidTaken,
    /// The table has no session with this private session id.
    UnknownPid,
    /// The session was lost too long ago.
    Expired,
    /// No entry of the log has this offset: it is too old, or was never given.
    OffsetGone,
    /// The table has as many sessions as it may hold.
    TableFull,
    /// The greatest offset has been used.
    Spent,
}

impl From<AllocError> for RecoveryError {
    ghost from_gives = { λ _ e. e ≡ Memory };

    fn from(_refused: AllocError) -> RecoveryError {
        RecoveryError::Memory
    }
}

impl<T: Drop> From<AllocFailed<T>> for RecoveryError {
    ghost from_gives = { λ _ e. e ≡ Memory };

    fn from(_refused: AllocFailed<T>) -> RecoveryError {
        RecoveryError::Memory
    }
}
