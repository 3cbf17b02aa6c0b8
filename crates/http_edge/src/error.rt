//! Why a request was not read, or an answer not written.

ghost use Rattle.std.specs.Prelude.{◌≡◌};
ghost use Rattle.http_edge.specs.declared.error.EdgeError.TheVariants.{Memory};

use std::alloc::{AllocError, AllocFailed};

/// Why a request was not read, or an answer not written.
#[derive(Clone, Copy, Debug, PartialEq, Eq)]
pub enum EdgeError {
    /// An allocation was refused. Nothing is said of the request.
    Memory,
    /// The wire is broken.
    Device,
    /// The bytes ended before the request did.
    EarlyEnd,
    /// A head that is none, or that has more than 100 fields.
    BadHead,
    /// More than 16,384 bytes that are no whole head.
    HeadTooLong,
    /// A body of more than 1,000,000 bytes was named.
    BodyTooLong,
    /// A POST that names no length of its body in the one way that is taken.
    NoLength,
    /// A body that is no UTF-8.
    NotUtf8,
    /// As many reads as were allowed were made, and the request is not whole.
    TurnsSpent,
}

impl From<AllocError> for EdgeError {
    ghost from_gives = { λ _ e. e ≡ Memory };

    fn from(_refused: AllocError) -> EdgeError {
        EdgeError::Memory
    }
}

impl<T: Drop> From<AllocFailed<T>> for EdgeError {
    ghost from_gives = { λ _ e. e ≡ Memory };

    fn from(_refused: AllocFailed<T>) -> EdgeError {
        EdgeError::Memory
    }
}
