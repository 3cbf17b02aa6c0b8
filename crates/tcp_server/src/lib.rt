//! A server over TCP: a pool of threads serves its loops and who keeps time, over one locked core.
//! And any app as a program: a `main` reads the arguments, and starts who waits for standard input.
#![tactic(auto)]

mod gate;
mod keeper;
mod program;
mod server;
mod warden;
mod wards;

pub use program::{
    ErrorLog, draw_secret, end_with, listen, processors, seconds_now, serve, wait_for_end,
};
pub use server::Server;
pub use tcp_streams::{Ending, Log, News, ServerFault, Shared};
