//! What the loops of a server decide, as functions of plain values: whose loop a request goes to,
//! what each connection is about, what it does next, and what the answer to its event leads to.
#![tactic(auto)]

mod deadlines;
mod dealing;
mod delays;
mod heard;
mod hold;
mod link;
mod links;
mod looks;
mod mailbox;
mod paces;
mod pressure;
mod receiving;
mod roster;
mod rounds;
mod stints;

pub use deadlines::Period;
pub use dealing::{Addresses, Dealing, Refused, time_to_wait};
pub use delays::Delays;
pub use heard::{
    Concern, concern_of, done_of, found_by, found_passed, has_taken_all, left_unbrought,
    reads_ahead,
};
pub use hold::Hold;
pub use link::{Course, Do, Link, Seen, Serving, client_of, events_in};
pub use links::Links;
pub use looks::{Decision, Found, LookState, Pause};
pub use mailbox::{Mail, Mailbox};
pub use paces::{Pace, Paces};
pub use pressure::{Backlog, Pressure};
pub use receiving::{Receiving, Sender, Unfinished};
pub use roster::{LOOPS, Notes, Roster, Rota, Takers, loop_of, marked, owner_of};
pub use rounds::{Round, is_much_unsent};
