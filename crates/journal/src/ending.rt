//! How a socket ended.

/// Who ended a socket alone, not with others.
#[derive(Clone, Copy, Debug, PartialEq, Eq)]
pub enum Side {
    /// Its client did: it left its namespace.
    Client,
    /// The server did.
    Server,
}

/// How a socket ended (Socket.IO server documentation, "Server API": the event `disconnect`).
#[derive(Clone, Copy, Debug, PartialEq, Eq)]
pub enum Ending {
    /// Its client was lost, and its session is saved.
    Saved,
    /// Its client was closed.
    Closed,
    /// It was ended alone, by its client or by the server.
    Alone(Side),
    /// It was ended with others of its namespace.
    Together,
}
