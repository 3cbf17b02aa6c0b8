//! What each event does to the server: the core, one value that holds the hub and a line for each
//! of its clients; and what the app's effects do to them.
#![tactic(auto)]

mod clients;
mod commands;
mod effects;
mod event_core;
mod hearing;
mod laws;
mod packets;
mod polling;
mod scene;

pub use event_core::Core;
pub use laws::{effects_are_work, others_are_spared};
pub use packets::named_once;
