ghost use Rattle.std.specs.Prelude.{◌≡◌};
ghost use Rattle.eio_wire.specs.declared.error.WireError.TheVariants.{Memory};

use std::alloc::{AllocError, AllocFailed};

/// Why a text was not read or written.
#[derive(Clone, Copy, Debug, PartialEq, Eq)]
pub enum WireError {
    /// An allocation was refused. Nothing is said of the text.
    Memory,
    /// The empty text where a packet is read; no packet where a payload is written.
    Empty,
    /// A text that begins with the type of no packet.
    BadType,
    /// A `b` before what is no standard base64 with padding.
    BadBase64,
    /// The separator U+001E in the text of a packet that is written into a payload.
    Separator,
}

impl From<AllocError> for WireError {
    ghost from_gives = { λ _ e. e ≡ Memory };

    fn from(_refused: AllocError) -> WireError {
        WireError::Memory
    }
}

impl<T: Drop> From<AllocFailed<T>> for WireError {
    ghost from_gives = { λ _ e. e ≡ Memory };

    fn from(_refused: AllocFailed<T>) -> WireError {
        WireError::Memory
    }
}
