//! A locked core at work.

ghost use Rattle.std.specs.Prelude.{IfOk, vec_len, ◌≡◌};

use dispatch::Core;
use events::Peer;
use hub_gate::{Locked, Pool, Report, ServeError, Turnstile, serve_peers};
use hub_totals::Pass;
use relay::{Counter, RelayApp};
use std::alloc::{AllocError, Global};
use std::sync::atomic::{AtomicU64, Ordering};
use std::sync::ledger::Ledger;
use std::sync::{MutexGuard, Wait};
use std::thread;
use std::thread::Threads;
use std::time::{Clock, Duration};

/// A locked core at work, and the first pass.
#[derive(Drop)]
pub struct Hall<'a, C: Ledger, T: Ledger, R> {
    pub rt: &'a R,
    pub alloc: Global,
    pub locked: &'a Locked<C, T>,
    pub pass: Pass<C, T>,
}

/// The ids of a worker, which are apart from those of others.
pub fn ids_of(worker: u64) -> Counter {
    Counter::starting_at(u128::from(worker).saturating_mul(20).saturating_add(1))
}

/// The ids of so many workers.
fn sources(alloc: Global, workers: u64) -> Result<Vec<Counter>, AllocError>
    ensures { IfOk result (λ v. vec_len v ≡ workers) }
{
    let mut all = Vec::new(alloc);
    for worker in 0..workers {
        all.push(ids_of(worker))?;
    }
    Ok(all)
}

/// Waits until another thread has set this, with pauses between looks, and says whether it did.
pub fn is_set<R: Clock>(rt: &R, flag: &AtomicU64) -> bool {
    for _look in 0..10_000u32 {
        if flag.load(Ordering::SeqCst) == 1 {
            return true;
        }
        thread::sleep(rt, Duration::from_micros(200));
    }
    false
}

impl<'a, C: Ledger + Send + Sync, T: Ledger + Send + Sync, R: Threads + Wait + Clock + Sync> Hall<
    'a,
    C,
    T,
    R,
> {
    /// Serves these peers by so many workers.
    pub fn serve<P: Peer + Send + Drop, G: Turnstile + Sync>(
        &mut self,
        peers: Vec<P>,
        workers: usize,
        gate: &G,
        turns: u64,
    ) -> Result<Report, ServeError> {
        let (rt, alloc, locked, app) = (self.rt, self.alloc, self.locked, &RelayApp);
        let ids = sources(alloc, workers as u64).map_err(|_| ServeError::Memory)?;
        let pool = Pool {
            rt,
            alloc,
            locked,
            app,
            gate,
            turns,
        };
        Ok(serve_peers(&pool, &mut self.pass, peers, workers, ids)?.report)
    }

    /// The core, under its lock.
    pub fn core(&mut self) -> MutexGuard<'a, Core<C, T>> {
        self.locked.look(self.rt, &mut self.pass)
    }
}
