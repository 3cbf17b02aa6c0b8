//! Why a server ended.

use settings::Setting;
use std::alloc::AllocError;
use std::io;
use thiserror::Error;

/// Why a server ended, or doesn't begin.
#[derive(Debug, Drop, Error)]
pub enum ServerFault {
    /// An allocation was refused.
    #[error("out of memory")]
    Memory(#[from(alloc)] AllocError),
    /// A device failed as the server began to listen.
    #[error("device fault while listening")]
    Listening,
    /// A device failed as the server made its threads, or what they need.
    #[error("device fault while starting")]
    Starting,
    /// A device failed as its program told where it listens, or what it did.
    #[error("device fault while writing")]
    Writing,
    /// No server is made with this setting.
    #[error("bad {0}")]
    BadSetting(Setting),
    /// The threads' counts don't add up to the hub's totals.
    #[error("books differ")]
    Books,
}

impl From<io::Error> for ServerFault {
    fn from(error: io::Error) -> ServerFault {
        match error.kind() {
            io::ErrorKind::OutOfMemory => ServerFault::Memory(AllocError),
            _ => ServerFault::Starting,
        }
    }
}
