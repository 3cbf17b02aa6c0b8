ghost use Rattle.std.specs.Prelude.{◌≡◌};
ghost use Rattle.sio_wire.specs.declared.error.SioError.TheVariants.{Memory};

use std::alloc::AllocError;

/// Why a packet was not read or written.
#[derive(Clone, Copy, Debug, PartialEq, Eq)]
pub enum SioError {
    /// An allocation was refused. The text was not judged.
    Memory,
    /// The text is empty, or its first character is none of `0` to `6`.
    BadKind,
    /// A binary packet's count of attachments has no digit, over fifteen, or no `-` after it.
    BadCount,
    /// The acknowledgement id has over fifteen digits.
    BadId,
    /// The payload is no JSON text that `serde_json` reads, or holds U+001E.
    BadJson,
    /// The namespace has a character under U+0020, or the packet's type does not allow this
    /// payload with this id.
    BadShape,
    /// The event has a name that the protocol keeps for itself.
    Reserved,
    /// A placeholder's number is missing, no whole number, or not below the count.
    BadPlaceholder,
    /// The count of attachments is over 32.
    TooMany,
    /// A text came where attachments were still awaited.
    TextAwaitingBinary,
    /// An attachment came where none was awaited.
    BinaryUnawaited,
}

impl From<AllocError> for SioError {
    ghost from_gives = { λ _ e. e ≡ Memory };

    fn from(_refused: AllocError) -> SioError {
        SioError::Memory
    }
}
