//! All epochs of a core together: what a seal parts is one account, of what an event does, of what
//! clients were handed, of whom an event spares, and of who was let in.
#![tactic(auto)]

mod backends;
mod entrances;
mod laws;

pub use backends::backends_came_by_token;
pub use entrances::everyone_came_in;
pub use laws::{
    does_in_all_epochs, everyone_was_let_in, handed_in_all_epochs, others_are_spared_in_all_epochs,
};
