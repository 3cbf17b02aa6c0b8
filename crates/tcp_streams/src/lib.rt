//! The streams of a server over TCP: who accepts them, what is handed from one loop to another, and
//! what all of its threads share beside the core.
#![tactic(auto)]

mod acceptor;
mod buffered;
mod fault;
mod inbox;
mod log;
mod rules;
mod shared;

pub use acceptor::{Acceptor, acceptor_for};
pub use buffered::{Buffered, Stream};
pub use fault::ServerFault;
pub use inbox::{Accepted, Ears, Handed, Inbox, ears_for};
pub use log::{Ending, Log, News};
pub use rules::Rules;
pub use shared::{Backends, Shared, Shown, Sign, Standing, backends_for};
