//! One client's line: what the server keeps of a client beside the hub. It has the client's clock,
//! which says when it is pinged, when it is given up and over which transport it speaks (Engine.IO
//! protocol 4, "Heartbeat" and "Upgrade"), and its questions that wait for an acknowledgement
//! (Socket.IO protocol 5, "Acknowledgement").
#![tactic(auto)]

mod ack_book;
mod clock;
mod line;

pub use ack_book::{AckBook, AckError};
pub use clock::{Clock, ClockError, ClockState, Due, Timing, Transport};
pub use line::{Line, frames_tell};
