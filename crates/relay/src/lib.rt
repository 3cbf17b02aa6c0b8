//! The demonstration app, one that tells the rooms of a socket that it has ended, and the ids of a
//! server that counts them.
#![tactic(auto)]

mod counter;
mod relay_app;

pub use counter::Counter;
pub use relay_app::{Presence, RelayApp};
