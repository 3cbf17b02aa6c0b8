//! The one lock around a core, and the workers that serve peers over it.
#![tactic(auto)]

mod serve;
mod worker;

pub use serve::{Report, ServeError, Settled, serve_peers};
pub use worker::{
    Locked, Open, PeerSource, Pool, Queue, Sealing, Turn, Turnstile, WorkerCounts, mirrors_of,
    run_worker,
};
