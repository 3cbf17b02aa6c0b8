//! With what a server is started: its settings, which of them are usual, and which allow no server.
#![tactic(auto)]

mod settings;
pub mod usual;

pub use settings::{LEAST_RECEIVING, MOST_BYTES, MOST_RATE, Pace, Setting, Settings, Warding};
