//! An app behind an entrance: who comes without a token that is taken is let into no namespace. And
//! an app that tells a warden who came with a token that expires, and ends whom the warden says.
#![tactic(auto)]

mod deadlines;
mod guarded;
mod warden;

pub use deadlines::{Deadlines, Due, Watched, everybody_due_is_listed};
pub use guarded::{Entrance, Expiring, Guarded, NOT_ALLOWED, Pass, has_token};
pub use warden::{EXPIRY, Told, begin_of, connect_text, end_text, read_told, room_name};
