//! The history of a hub: the state from which it began and the commands that it accepted since, and
//! what these say of clients, sockets, rooms, outboxes, saved sessions, the log and the counts.
#![tactic(auto)]

mod answers;
mod base;
mod config;
mod ending;
mod error;
mod form;
mod laws;
mod socket;
mod step;
mod totals;

pub use answers::{Cast, CastDone, Dismissed, Swept};
pub use base::{Base, BaseClient, Epoch};
pub use config::Config;
pub use ending::{Ending, Side};
pub use error::{HubError, RecoveryRefusal};
pub use form::Form;
pub use laws::{epochs_compose, last_words, what_waits};
pub use socket::Socket;
pub use step::{Broadcast, Dismissal, Message, Recovery, RoomChange, Step, What};
pub use totals::{Counts, Totals};
