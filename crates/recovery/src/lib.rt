//! What lets a client come back after a break: the latest broadcasts, and the sessions that were
//! lost (Socket.IO server documentation, "Connection state recovery").
#![tactic(auto)]

mod error;
mod packet_log;
mod saved_table;

pub use error::RecoveryError;
pub use packet_log::{Logged, PacketLog};
pub use saved_table::{Pid, Saved, SavedTable};
