//! Which sockets are in which rooms, kept both ways (Socket.IO server documentation, "Rooms" and
//! "Adapter").
#![tactic(auto)]

mod asked;
mod error;
mod links;
mod remembered;
mod rooms;

pub use error::RoomError;
pub use remembered::Remembered;
pub use rooms::{RoomMap, Rooms, SocketMap};
