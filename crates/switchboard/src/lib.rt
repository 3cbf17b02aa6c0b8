//! The app that lets backends drive the server: they are told what clients do, and command what is
//! done.
#![tactic(auto)]

mod command;
mod emission;
mod sockets;
mod switchboard;
mod telling;

pub use emission::arguments_read_back;
pub use switchboard::Switchboard;
