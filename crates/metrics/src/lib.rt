//! What a server tells to who watches it: its counts, in the text format of Prometheus.
#![tactic(auto)]

mod metrics;
mod reason;

pub use metrics::{CoreCounts, LoopCounts, Metrics, Refusals, Sizes};
pub use reason::Reason;
