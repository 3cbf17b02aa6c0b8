//! The usual settings of a server, and a new core with its pass and its ids.
#![tactic(auto)]

mod made_with;
mod run;

pub use made_with::{PARTS, UsualSettings, limits_for};
pub use run::{OnCore, OnLocked, UsualCore, on_new_core, on_new_locked};
pub use settings::usual::{NUMBERS, TIMING, UsualLimits};
