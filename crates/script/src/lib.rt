//! Scripts: their lines are read from a reader, played to a server of any app, and answered to a
//! writer.
#![tactic(auto)]

mod faults;
mod notices;
mod play;
mod printing;
mod run;
mod script_line;
mod setup;

pub use faults::RunError;
pub use printing::Answer;
pub use run::{play_script, run_script, run_script_within, usual_limits};
pub use script_line::{Key, Notice, ScriptLine, read_line};
