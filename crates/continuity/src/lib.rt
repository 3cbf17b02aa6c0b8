//! What a session has heard of the broadcasts of a journal, and what it should have: a client that
//! names the last offset that it got can trust its history, over any number of breaks.
#![tactic(auto)]

mod laws;

pub use laws::{
    heard_is_due, last_words_of_sessions, limits_are_kept, log_has_all_after, seals_keep_limits,
    worked_history,
};
