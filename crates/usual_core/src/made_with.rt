//! What a core is made with.

use connection::Timing;
use eio_wire::Numbers;
use settings::usual::{LIMITS, NUMBERS, SPACE, TIMING, UsualLimits};

/// How many threads may count what they do.
pub const PARTS: u64 = 65_536;

/// How many entries may wait for a client.
const CAPACITY: usize = 64;

/// The usual limits of a hub for so many clients, with fewer entries for each.
pub const fn limits_for(clients: usize) -> UsualLimits {
    UsualLimits {
        clients,
        capacity: CAPACITY,
        ..LIMITS
    }
}

/// What a core is made with.
#[derive(Clone, Copy)]
pub struct UsualSettings {
    pub limits: UsualLimits,
    pub spaces: &'static [&'static str],
    pub timing: Timing,
    pub numbers: Numbers,
}

impl UsualSettings {
    /// The usual settings for so many clients, with the usual namespaces.
    pub const fn usual(clients: usize) -> UsualSettings {
        UsualSettings {
            limits: limits_for(clients),
            spaces: &["/", SPACE],
            timing: TIMING,
            numbers: NUMBERS,
        }
    }
}
