//! What a server goes by where nothing else is said: one table, from which options, scripts and
//! tests have it.

ghost use Rattle.std.specs.Prelude.{◌≡◌, IfOk, map};
ghost use Rattle.settings.specs.Usual as rules;

use crate::settings::MOST_BYTES;
use connection::Timing;
use eio_wire::Numbers;
use journal::Config;
use std::alloc::{AllocError, Global};
use terms::Text;

/// The limits of a hub: those of its `Config`, but for the namespaces.
#[derive(Clone, Copy)]
pub struct UsualLimits {
    pub clients: usize,
    pub capacity: usize,
    pub bytes: usize,
    pub log: usize,
    pub log_bytes: usize,
    pub saved: usize,
    pub keep: u64,
    pub first_offset: u64,
}

impl UsualLimits {
    /// These limits with the names of the namespaces.
    pub fn config(&self, alloc: Global, names: &[&str]) -> Result<Config, AllocError>
        ensures { IfOk result (λ hub. hub
            ≡ rules.with_spaces self.now (map (λ name. name.now) names.now)) }
    {
        let mut spaces = Vec::new(alloc);
        for name in names {
            spaces.push(Text::copy_of(alloc, name)?)?;
        }
        Ok(Config {
            clients: self.clients,
            capacity: self.capacity,
            bytes: self.bytes,
            log: self.log,
            log_bytes: self.log_bytes,
            saved: self.saved,
            keep: self.keep,
            first_offset: self.first_offset,
            spaces,
        })
    }
}

/// The address to listen at: the machine itself.
pub const HOST: &str = "127.0.0.1";

/// The limits of the hub, but for the namespaces.
pub const LIMITS: UsualLimits = UsualLimits {
    clients: 10_000,
    capacity: 4_096,
    bytes: 8_388_608,
    log: 1_024,
    log_bytes: 67_108_864,
    saved: 4_096,
    keep: 120_000,
    first_offset: 1,
};

/// The namespace beside `/`.
pub const SPACE: &str = "/admin";

/// When a client is pinged and given up: pings each 25 s, 20 s for the answer, 45 s to join a
/// namespace.
pub const TIMING: Timing = Timing {
    ping_interval: 25_000,
    ping_timeout: 20_000,
    connect_timeout: 45_000,
};

/// How many bytes a payload may have, as clients are told.
pub const MAX_PAYLOAD: u64 = MOST_BYTES;

/// How many bytes all that is being received may have together.
pub const RECEIVING: usize = 268_435_456;

/// How many connections, one after another, one loop is given.
pub const TOGETHER: u64 = 8;

/// How many entries one payload over HTTP may have.
pub const POLL_ENTRIES: usize = 15;

/// What clients are told of the timing, and of their payloads.
pub const NUMBERS: Numbers = Numbers {
    ping_interval: TIMING.ping_interval,
    ping_timeout: TIMING.ping_timeout,
    max_payload: MAX_PAYLOAD,
};

/// The limits of the hub, with its namespaces.
pub fn hub(alloc: Global) -> Result<Config, AllocError>
    ensures { IfOk result (λ hub. hub ≡ rules.hub) }
{
    LIMITS.config(alloc, &["/", SPACE])
}
