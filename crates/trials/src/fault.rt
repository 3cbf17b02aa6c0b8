//! Why a run ended before all its lines were printed.

use events::{CoreError, PeerFault};
use hub_gate::ServeError;
use journal::HubError;
use script::RunError;
use std::alloc::AllocError;
use std::{fmt, io};
use thiserror::Error;

#[derive(Clone, Copy, Error)]
pub enum Fault {
    #[error("usage: trials [SOCKETS CASTS], 256 sockets at least, and one cast")]
    Arguments,
    #[error("out of memory")]
    Memory(#[from(alloc)] AllocError),
    #[error("{0}")]
    Case(#[from] RunError),
    #[error("the hub refused a command: {0:?}")]
    Refused(#[from] HubError),
    #[error("the core refused an event: {0:?}")]
    RefusedEvent(#[from] CoreError),
    #[error("a pool of workers failed: {0}")]
    Pool(#[from] ServeError),
    #[error("the clock was not read, or a line not written: {0:?}")]
    Device(#[from] io::Error),
    #[error("a band was not played")]
    Band(#[from] PeerFault),
    /// What was done didn't come to what it has to.
    #[error("{0}")]
    Wrong(&'static str),
}

impl fmt::Debug for Fault {
    fn fmt<W: fmt::Write>(&self, f: &mut fmt::Formatter<W>) -> fmt::Result {
        write!(f, "{self}")
    }
}
