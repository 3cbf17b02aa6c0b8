//! A hub that many threads use: its commands are counted in passes, one a thread, whose shares add
//! up to the hub's totals.
#![tactic(auto)]

mod books;
mod hub;

pub use books::{Books, NotAll, Pass};
pub use hub::{Hub, counted_commands_rise};
