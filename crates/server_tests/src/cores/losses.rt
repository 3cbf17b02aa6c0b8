//! How often the core is told of a lost client.

use events::{Answered, CoreFault, Event, Loss, Outcome, Retry};

/// The answers of a core that refuses so many times, and then accepts.
fn answer(refusals: u64, tries: u64) -> Answered {
    if tries < refusals {
        Err(CoreFault::Memory.at_once())
    } else {
        Ok(Outcome::Nothing)
    }
}

/// How often such a core is told.
fn times_told(refusals: u64) -> u64 {
    let mut loss = Loss::new(7);
    for tries in 0..10 {
        let got = answer(refusals, tries);
        if loss.hears(&got) == Retry::Over {
            return tries + 1;
        }
    }
    10
}

#[test]
fn until_it_accepts_and_three_times_at_most(rt: HostRuntime) {
    static ROWS: [(u64, u64); 5] = [(0, 1), (1, 2), (2, 3), (3, 3), (9, 3)];
    for (refusals, want) in ROWS.iter() {
        let told = times_told(*refusals);
        assert!(rt; told == *want, "{refusals} refusals: told {told} times");
    }
}

#[test]
fn it_is_told_of_the_client(rt: HostRuntime) {
    let event = Loss::new(7).event();
    assert!(rt; matches!(&event, Event::TransportLost { client: 7 }));
}
