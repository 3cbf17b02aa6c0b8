//! The arguments of `event_server` and of other programs that serve: what they ask for, the tokens and
//! keys in the files that they name, and what is told where they are refused.
#![tactic(auto)]

mod asked;
mod files;
pub mod options;
pub mod refused;
pub mod task;
mod wrong;

pub use asked::BACKENDS;
