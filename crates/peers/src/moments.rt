//! The passing of time, as a peer is told of it, and the pace of lone noop packets, by which a client
//! that polls is told that nothing waits. One that probes a WebSocket is told so at once, and asks at
//! once again.

ghost use Rattle.std.specs.Prelude.{◌≡◌};
ghost use Rattle.peers.specs.Noops as noops;

use events::{Answered, Outcome};

/// How long a client that was told so isn't told so anew, in milliseconds.
const PACE: u64 = 100;

/// A lone noop packet.
pub(crate) const NOOP: &str = "6";

/// Where a peer has its moments from, and how it waits. One says in `gives` and `pauses` what its
/// calls do.
pub trait Moments {
    ghost use Rattle.std.specs.Prelude.{ℕ};

    ghost gives: { Self → ℕ → Self → Type 0 } = { λ _ _ _. Unit {0} };

    ghost pauses: { Self → Self → Type 0 } = { λ _ _. Unit {0} };

    /// The moment now, in milliseconds.
    fn now(&mut self) -> u64
        ensures { gives self.old result self.new };

    /// Waits a short while, or until something may have come for the peer's client. One that returns
    /// at once leaves the pace to who drives the peer (`served_from`).
    fn pause(&mut self)
        ensures { pauses self.old self.new };
}

/// Whether an answer tells its client so, by a lone noop packet that was taken.
pub fn is_noop(got: &Answered) -> bool
    ensures { result ≡ noops.is_noop got.now }
{
    matches!(got, Ok(Outcome::Payload(text)) if text.as_str() == NOOP)
}

/// Whether a client that was told so at a moment was told so just now.
pub fn is_recent(told: u64, now: u64) -> bool
    ensures { result ≡ noops.is_recent told now }
{
    now < told.saturating_add(PACE)
}

/// From when on a GET is served that comes now: a pace later where its client was told so just now.
pub fn served_from(told: Option<u64>, now: u64) -> u64
    ensures { result ≡ noops.served_from told now }
{
    match told {
        Some(told) if is_recent(told, now) => now.saturating_add(PACE),
        _ => now,
    }
}
