//! The faults that end the program.
ghost use Rattle.std.specs.Prelude.{◌≡◌};
ghost use Rattle.script.specs.declared.faults.RunError.TheVariants.{Memory};

use std::alloc::{AllocError, AllocFailed};
use thiserror::Error;

/// Why a run ended before its input did.
#[derive(Clone, Copy, Debug, PartialEq, Eq, Error)]
pub enum RunError {
    /// An allocation was refused.
    #[error("out of memory")]
    Memory,
    /// A read failed, or as many reads as a `u64` counts did not come to the end of the input.
    #[error("device fault while reading")]
    Reading,
    /// A write failed.
    #[error("device fault while writing")]
    Writing,
}

impl From<AllocError> for RunError {
    ghost from_gives = { λ _ fault. fault ≡ Memory };

    fn from(_refused: AllocError) -> RunError {
        RunError::Memory
    }
}

impl<T: Drop> From<AllocFailed<T>> for RunError {
    ghost from_gives = { λ _ fault. fault ≡ Memory };

    fn from(_refused: AllocFailed<T>) -> RunError {
        RunError::Memory
    }
}
