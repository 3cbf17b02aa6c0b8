//! Seals between the workers' events.

use crate::cores::hall::Hall;
use crate::cores::talkers::talkers;
use hub_gate::{Locked, Open};
use std::alloc::Global;
use std::sync::Wait;
use std::sync::atomic::{AtomicU64, Ordering};
use std::sync::ledger::Ledger;
use std::thread;
use std::thread::Threads;
use std::time::{Clock, Duration};

/// How many steps a seal hands out that wants so many, or so many bytes. None where it fails.
fn steps_sealed<C: Ledger, T: Ledger, R: Wait>(
    rt: &R,
    alloc: Global,
    locked: &Locked<C, T>,
    least: usize,
    bytes: u64,
) -> Option<u64> {
    match &locked.seal(rt, alloc, least, bytes).got {
        Ok(Some(epoch)) => Some(epoch.steps.len() as u64),
        Ok(None) => Some(0),
        Err(_) => None,
    }
}

/// Seals whenever there are ten steps, until the workers have ended, and then once more. Answers
/// how many steps were sealed.
fn seal_on<C: Ledger, T: Ledger, R: Wait + Clock>(
    rt: &R,
    alloc: Global,
    locked: &Locked<C, T>,
    ended: &AtomicU64,
) -> u64 {
    let mut sealed = 0u64;
    for _look in 0..100_000u32 {
        let last = ended.load(Ordering::SeqCst) == 1;
        let steps = steps_sealed(rt, alloc, locked, 10, u64::MAX);
        sealed = sealed.wrapping_add(steps.unwrap_or(0));
        if last {
            return sealed;
        }
        thread::sleep(rt, Duration::from_micros(200));
    }
    sealed
}

impl<'a, C: Ledger + Send + Sync, T: Ledger + Send + Sync, R: Threads + Wait + Clock + Sync> Hall<
    'a,
    C,
    T,
    R,
> {
    /// Seals between the events of four workers, and then the rest of what was said, of which one
    /// byte is enough. Whether each seal came when it had to, and the steps that were sealed and
    /// those that are left are as many as there were commands.
    pub fn seal_between(&mut self) -> Option<bool> {
        let (joined, ended) = (AtomicU64::new(0), AtomicU64::new(0));
        let peers = talkers(self.alloc, 4, &joined, true).ok()?;
        let (rt, alloc, locked) = (self.rt, self.alloc, self.locked);
        let (served, sealed) = thread::join(
            rt,
            || {
                let served = self.serve(peers, 4, &Open, 1_000);
                ended.store(1, Ordering::SeqCst);
                served.is_ok()
            },
            || seal_on(rt, alloc, locked, &ended),
        );
        let more = steps_sealed(rt, alloc, locked, usize::MAX, 1)?;
        let nothing = steps_sealed(rt, alloc, locked, usize::MAX, u64::MAX)?;
        let core = self.core();
        let (left, all) = (
            core.hub().state().steps().len(),
            core.hub().state().totals(),
        );
        let steps = sealed.wrapping_add(more).wrapping_add(left as u64);
        Some(served && sealed > 0 && nothing == 0 && steps == all.commands)
    }
}
