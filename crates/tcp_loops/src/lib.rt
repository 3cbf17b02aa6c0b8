//! The loops of a server over TCP, each one peer that waits for all of its connections at once and
//! brings the events of all of their clients. What connections do is decided by `links`.
#![tactic(auto)]

mod answers;
mod base;
mod connections;
mod crew;
mod driver;
mod event_loop;
mod service;
mod stream;

pub use base::{Base, Fate, Watch};
pub use crew::{Worker, sources, start_accepting, workers_for};
