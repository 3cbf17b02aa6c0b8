//! An app of one's own, as an example: a quiz. Who plays is asked a question, and once somebody
//! knows the answer all players hear of it.
#![tactic(auto)]

mod quiz;

pub use quiz::Quiz;
