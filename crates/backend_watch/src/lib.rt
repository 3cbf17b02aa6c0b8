//! What the state of a hub says of its backends once an event was done: which are pressed, of which
//! clients they are told, and how much went to none.
#![tactic(auto)]

mod sight;

pub use sight::{Pressed, Sight, digits_together};
