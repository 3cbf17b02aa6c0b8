//! What happens to the server and what comes of it, as values: the events, who brings them, and how
//! they are answered; what the app is asked, and what it wants done.
#![tactic(auto)]

mod app;
mod cause;
mod event;
mod fault;
mod loss;
mod outcome;
mod peer;

pub use app::{
    Answer, App, Arrived, Effect, IdSource, Inquiry, Message, Newcomer, Reply, Returned, Selection,
    Stray, Verdict, Wanted, Who,
};
pub use cause::{Cause, ending_word};
pub use event::{Event, WsFrame};
pub use fault::{CoreError, CoreFault, Stopped, Worked};
pub use loss::{Loss, Retry};
pub use outcome::{Answered, Done, Frames, Opening, Outcome, Receivers};
pub use peer::{Peer, PeerFault};
