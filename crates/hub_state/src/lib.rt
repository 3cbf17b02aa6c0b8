//! Clients, their sockets, rooms and outboxes, kept as the journal of all accepted commands says.
#![tactic(auto)]

mod client;
mod limits;
mod seats;
mod state;
mod steps;

pub use client::{Outbox, free_after};
pub use state::{EndedSocket, State};
