//! The pace of lone noop packets.

use events::{CoreFault, Outcome};
use peers::{is_noop, is_recent, served_from};
use std::alloc::{AllocError, Global};
use terms::Text;

/// When a client was told that nothing waits, when its GET comes, and from when on that is served.
static GETS: [(Option<u64>, u64, u64); 7] = [
    (None, 7, 7),
    (Some(1_000), 1_000, 1_100),
    (Some(1_000), 1_099, 1_199),
    (Some(1_000), 1_100, 1_100),
    (Some(1_000), 5_000, 5_000),
    (Some(u64::MAX - 50), u64::MAX - 20, u64::MAX),
    (Some(u64::MAX), u64::MAX, u64::MAX),
];

#[test]
fn gets_after_a_noop(rt: HostRuntime) {
    for (told, now, want) in GETS.iter() {
        let from = served_from(*told, *now);
        assert!(rt; from == *want, "told {told:?}, now {now}: {from}");
        let recent = match told {
            Some(moment) => is_recent(*moment, *now),
            None => false,
        };
        assert!(rt; recent == (want > now), "told {told:?}, now {now}");
    }
}

/// Payloads, and whether each is a lone noop packet.
static PAYLOADS: [(&'static str, bool); 4] = [
    ("6", true),
    ("2", false),
    ("6\u{1e}2", false),
    ("", false),
];

fn is_taken_as_noop(alloc: Global, payload: &str) -> Result<bool, AllocError> {
    Ok(is_noop(&Ok(Outcome::Payload(Text::copy_of(alloc, payload)?))))
}

#[test]
fn lone_noops(rt: HostRuntime) {
    for (payload, want) in PAYLOADS.iter() {
        let got = match is_taken_as_noop(rt.alloc(), payload) {
            Err(_) => is_taken_as_noop(rt.alloc(), payload),
            got => got,
        };
        assert!(rt; got == Ok(*want), "payload {payload}");
    }
    assert!(rt; !is_noop(&Ok(Outcome::Nothing)));
    assert!(rt; !is_noop(&Err(CoreFault::Memory.at_once())));
}
