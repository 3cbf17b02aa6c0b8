//! A socket: one client's connection to one namespace (Socket.IO protocol 5, "Connection to a
//! namespace").

use recovery::Pid;
use terms::Sid;

/// A socket of a client. A client has at most one in each namespace.
#[derive(Clone, Copy, Debug, PartialEq, Eq)]
pub struct Socket {
    /// The session id of the Engine.IO connection that it runs over.
    pub client: u128,
    /// The place of its namespace in the hub's list.
    pub space: u16,
    pub sid: Sid,
    /// Its private session id, by which the session may be recovered.
    pub pid: Pid,
}
