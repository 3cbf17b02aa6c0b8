//! Two workers that meet at the gate: neither one thread nor a worker that keeps the lock can pass.

use crate::cores::hall::{Hall, is_set};
use crate::cores::talkers::talkers;
use dispatch::Core;
use events::{Answered, Event};
use hub_gate::Turnstile;
use std::sync::Wait;
use std::sync::atomic::{AtomicU64, Ordering};
use std::sync::ledger::Ledger;
use std::thread::Threads;
use std::time::Clock;

/// A gate at which the first two workers meet, before and after their first event, and which
/// records that each came.
#[derive(Drop)]
struct Meeting<'a, R: Clock> {
    rt: &'a R,
    before: [AtomicU64; 2],
    after: [AtomicU64; 2],
    missed: AtomicU64,
}

impl<'a, R: Clock> Meeting<'a, R> {
    fn meet(&self, seats: &[AtomicU64; 2], worker: usize, turn: u64) {
        if worker > 1 || turn > 0 {
            return;
        }
        seats[worker].store(1, Ordering::SeqCst);
        if !is_set(self.rt, &seats[1 - worker]) {
            self.missed.store(1, Ordering::SeqCst);
        }
    }

    /// Whether both came, before and after, and neither missed the other.
    fn is_passed(&self) -> bool {
        both_came(&self.before) && both_came(&self.after) && self.missed.load(Ordering::SeqCst) == 0
    }
}

/// Whether both workers came here.
fn both_came(seats: &[AtomicU64; 2]) -> bool {
    seats[0].load(Ordering::SeqCst) == 1 && seats[1].load(Ordering::SeqCst) == 1
}

impl<'a, R: Clock> Turnstile for Meeting<'a, R> {
    fn before(&self, worker: usize, turn: u64) {
        self.meet(&self.before, worker, turn)
    }

    fn applied<C: Ledger, T: Ledger>(
        &self,
        _worker: usize,
        _core: &Core<C, T>,
        _event: &Event,
        _got: &Answered,
    ) {}

    fn after(&self, worker: usize, turn: u64) {
        self.meet(&self.after, worker, turn)
    }
}

impl<'a, C: Ledger + Send + Sync, T: Ledger + Send + Sync, R: Threads + Wait + Clock + Sync> Hall<
    'a,
    C,
    T,
    R,
> {
    /// Whether two workers meet, before and after their first event.
    pub fn meet(&mut self) -> bool {
        let joined = AtomicU64::new(0);
        let Ok(peers) = talkers(self.alloc, 2, &joined, true) else {
            return false;
        };
        let gate = Meeting {
            rt: self.rt,
            before: [AtomicU64::new(0), AtomicU64::new(0)],
            after: [AtomicU64::new(0), AtomicU64::new(0)],
            missed: AtomicU64::new(0),
        };
        let served = self.serve(peers, 2, &gate, 1_000);
        served.is_ok_and(|report| report.workers.len() == 2) && gate.is_passed()
    }
}
