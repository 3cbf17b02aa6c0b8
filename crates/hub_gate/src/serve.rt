//! A pool of workers, each in a thread of its own.

ghost use Rattle.std.specs.Prelude.{◌≡◌, ◌+◌, ◌<◌, ◌≤◌, [], IfOk, IfErr, MatchResult, vec_len, vec_capacity, map, sum_by};
ghost use Rattle.std.specs.List.{AllZip};
ghost use Rattle.std.specs.Vec.Iter.{into_iter_items};
ghost use Rattle.hub_gate.specs.Serving.{AreCounted, AreDealt, AreServed, IsFromMaking, IsFromStarting, IsLackingFor, IsRefused, WorksAs};

use crate::worker::{Locked, Pool, Queue, Turnstile, WorkerCounts, run_worker};
use dispatch::Core;
use events::{App, IdSource, Peer};
use hub_totals::{NotAll, Pass};
use journal::Totals;
use std::alloc::{AllocError, Global};
use std::snapshot::Snapshot;
use std::sync::Wait;
use std::sync::ledger::Ledger;
use std::thread::{self, Promise, PromisedHandle, Threads};
use thiserror::Error;

/// The most workers of a pool.
const MOST: usize = 1_024;

/// What a pool of workers did.
#[derive(Drop)]
pub struct Report {
    /// The totals of the core, once all workers had ended.
    pub totals: Totals,
    /// What each worker did, in their order.
    pub workers: Vec<WorkerCounts>,
}

/// A pool's report, and the core of which its totals are: as it was lent once all workers had
/// ended. It is known to contracts alone, and takes no bytes.
#[derive(Drop)]
pub struct Settled<C: Ledger, T: Ledger> {
    pub report: Report,
    pub core: Snapshot<Core<C, T>>,
}

/// Why a pool of workers has no report.
#[derive(Clone, Copy, Debug, PartialEq, Eq, Error)]
pub enum ServeError {
    /// An allocation was refused. No worker was started.
    #[error("out of memory")]
    Memory,
    /// A pool needs a worker.
    #[error("no workers")]
    NoWorkers,
    /// It may have 1,024 at the most.
    #[error("too many workers")]
    TooManyWorkers,
    /// A thread could not be made. The workers that were started served their peers.
    #[error("a thread could not be started")]
    Spawn,
    /// Others raised the core's counts too, by as much as this.
    #[error("books differ")]
    NotAll(NotAll),
    /// The core has no pass left.
    #[error("no pass is left")]
    Spent,
}

/// What one worker takes into its thread.
#[derive(Drop)]
struct Job<C: Ledger, T: Ledger, P, I> {
    pass: Pass<C, T>,
    queue: Queue<P>,
    ids: I,
    ghost nothing: { (pass.commands ≡ 0) × (pass.taken ≡ 0) × (pass.parts ≡ 1) },
}

/// What a worker began with, as whoever waits for its end knows it.
#[derive(Drop)]
struct Started<C: Ledger, T: Ledger, A, P, I> {
    job: Snapshot<Job<C, T, P, I>>,
    app: Snapshot<A>,
    turns: u64,
}

impl<C: Ledger, T: Ledger, A: App, P: Peer, I: IdSource> Promise<Finished<C, T>>
    for Started<C, T, A, P, I> {
    ghost kept_by = { λ s finished. WorksAs P.gives P.hears (A.policy s.app.value)
        s.turns (into_iter_items s.job.value.queue.peers)
        (I.stream s.job.value.ids) finished.counts };
}

/// What one worker hands back.
#[derive(Drop)]
struct Finished<C: Ledger, T: Ledger> {
    pass: Pass<C, T>,
    counts: WorkerCounts,
    ghost counted: { (pass.commands ≡ counts.commands) × (pass.taken ≡ counts.taken) },
}

/// Serves all peers by so many workers of a pool, each in a thread of its own, and compares what
/// they did with the totals. Peer i is dealt to worker i modulo their number, and `ids` holds a
/// source for each of them. Each worker has a pass of its own, which the caller's absorbs at the
/// end. Refused as `NoWorkers`, then as `TooManyWorkers`. Nothing is allocated once the first
/// thread has started, but for the threads. It may wait.
pub fn serve_peers<
    R: Threads + Wait + Sync,
    C: Ledger + Send,
    T: Ledger + Send,
    A: App + Sync,
    P: Peer + Send + Drop,
    G: Turnstile + Sync,
    I: IdSource + Send + Drop,
>(
    pool: &Pool<R, C, T, A, G>,
    pass: &mut Pass<C, T>,
    peers: Vec<P>,
    workers: usize,
    ids: Vec<I>,
) -> Result<Settled<C, T>, ServeError>
    requires { vec_len ids ≡ workers }
    ensures commands { IfOk result (λ s. s.report.totals.commands
        ≡ pass.old.commands + sum_by (λ w. w.commands) s.report.workers.items) }
    ensures taken { IfOk result (λ s. s.report.totals.taken
        ≡ pass.old.taken + sum_by (λ w. w.taken) s.report.workers.items) }
    ensures counted { IfOk result (λ s. AreCounted pass.new s.core.value s.report.totals) }
    ensures works { IfOk result (λ s. (vec_len s.report.workers ≡ workers)
        × AreServed P.gives P.hears (A.policy pool.now.app.now)
        I.stream pool.now.turns workers peers.items ids.items s.report.workers.items) }
    ensures refused { MatchResult result (λ r. (0 < workers) × (workers ≤ 1024))
        (λ e. IsRefused workers pass.old pass.new e) }
{
    if workers == 0 {
        return Err(ServeError::NoWorkers);
    }
    if workers > MOST {
        return Err(ServeError::TooManyWorkers);
    }
    let Ok(queues) = deal(pool.alloc, peers, workers) else {
        return Err(ServeError::Memory);
    };
    let counts = Vec::with_capacity(pool.alloc, workers).or(Err(ServeError::Memory))?;
    let jobs = make_jobs(pool.rt, pool.alloc, pool.locked, queues, ids)?;
    let handles = run_all(pool, jobs)?;
    let workers = gather(pool.rt, pass, handles, counts);
    settle(pool, pass, workers)
}

/// Deals peer i to queue i modulo their number.
fn deal<P: Drop>(alloc: Global, peers: Vec<P>, workers: usize) -> Result<Vec<Vec<P>>, AllocError>
    requires { 0 < workers }
    ensures len { IfOk result (λ v. vec_len v ≡ workers) }
    ensures dealt { IfOk result (λ v. AreDealt workers peers.items (map (λ q. q.items) v.items)) }
{
    let mut queues = Vec::new(alloc);
    for _worker in 0..workers {
        queues.push(Vec::new(alloc))?;
    }
    let mut number = 0;
    for peer in peers {
        let worker = number % workers;
        queues[worker].push(peer)?;
        number += 1;
    }
    Ok(queues)
}

/// A pass, a queue and a source of ids for each worker.
fn make_jobs<R: Wait, C: Ledger, T: Ledger, P: Drop, I: Drop>(
    rt: &R,
    alloc: Global,
    locked: &Locked<C, T>,
    queues: Vec<Vec<P>>,
    ids: Vec<I>,
) -> Result<Vec<Job<C, T, P, I>>, ServeError>
    requires { vec_len queues ≡ vec_len ids }
    ensures len { IfOk result (λ v. vec_len v ≡ vec_len queues) }
    ensures queues { IfOk result (λ v. map (λ j. into_iter_items j.queue.peers) v.items
        ≡ map (λ q. q.items) queues.items) }
    ensures ids { IfOk result (λ v. map (λ j. j.ids) v.items ≡ ids.items) }
    ensures error { IfErr result IsFromMaking }
{
    let Ok(mut jobs) = Vec::with_capacity(alloc, queues.len()) else {
        return Err(ServeError::Memory);
    };
    let mut ids = ids.into_iter();
    for queue in queues {
        let Some(source) = ids.next() else {
            unreachable!()
        };
        let Ok(pass) = locked.new_pass(rt) else {
            return Err(ServeError::Spent);
        };
        jobs.push_reserved(Job {
            pass,
            queue: Queue::new(queue),
            ids: source,
        });
    }
    Ok(jobs)
}

/// Runs each job in a thread of its own. All of these have ended when it returns.
fn run_all<
    R: Threads + Wait + Sync,
    C: Ledger + Send,
    T: Ledger + Send,
    A: App + Sync,
    P: Peer + Send + Drop,
    G: Turnstile + Sync,
    I: IdSource + Send + Drop,
>(
    pool: &Pool<R, C, T, A, G>,
    jobs: Vec<Job<C, T, P, I>>,
) -> Result<Vec<PromisedHandle<Finished<C, T>, Started<C, T, A, P, I>>>, ServeError>
    ensures begun { IfOk result (λ v. AllZip (λ job h. (h.promise.job.value ≡ job)
        × (h.promise.app.value ≡ pool.now.app.now) × (h.promise.turns ≡ pool.now.turns))
        jobs.items v.items) }
    ensures len { IfOk result (λ v. vec_len v ≡ vec_len jobs) }
    ensures error { IfErr result IsFromStarting }
{
    thread::scope(
        thread::scope_env(),
        pool.rt,
        |scope| -> Result<Vec<PromisedHandle<Finished<C, T>, Started<C, T, A, P, I>>>, ServeError>
            ensures begun { IfOk result (λ v. AllZip (λ job h. (h.promise.job.value ≡ job)
                × (h.promise.app.value ≡ pool.entry.now.app.now)
                × (h.promise.turns ≡ pool.entry.now.turns)) jobs.items v.items) }
            ensures len { IfOk result (λ v. vec_len v ≡ vec_len jobs) }
            ensures error { IfErr result IsFromStarting }
        {
            let most = jobs.len();
            let mut handles = Vec::with_capacity(pool.alloc, most).or(Err(ServeError::Memory))?;
            let mut worker = 0usize;
            for job in jobs {
                let begun = Started {
                    job: Snapshot::of(&job),
                    app: Snapshot::of(pool.app),
                    turns: pool.turns,
                };
                let Ok(handle) = scope.spawn_with(begun, move || work(pool, worker, job)) else {
                    return Err(ServeError::Spawn);
                };
                handles.push_reserved(handle);
                worker = worker.saturating_add(1);
            }
            Ok(handles)
        },
    )
}

/// One job, to its end.
fn work<R: Wait, C: Ledger, T: Ledger, A: App, P: Peer + Drop, G: Turnstile, I: IdSource + Drop>(
    pool: &Pool<R, C, T, A, G>,
    worker: usize,
    job: Job<C, T, P, I>,
) -> Finished<C, T>
    ensures { WorksAs P.gives P.hears (A.policy pool.now.app.now)
        pool.now.turns (into_iter_items job.queue.peers) (I.stream job.ids) result.counts }
{
    let Job {
        pass,
        mut queue,
        mut ids,
    } = job;
    let (pass, counts) = run_worker(pool, pass, &mut queue, worker, &mut ids);
    Finished { pass, counts }
}

/// Joins these threads in turn, absorbs the passes of their workers, and lists their counts in the list
/// that is reserved for that.
fn gather<R: Threads, C: Ledger, T: Ledger, B: Promise<Finished<C, T>>>(
    rt: &R,
    pass: &mut Pass<C, T>,
    handles: Vec<PromisedHandle<Finished<C, T>, B>>,
    mut all: Vec<WorkerCounts>,
) -> Vec<WorkerCounts>
    requires none { (vec_len all ≡ 0) × (all.items ≡ []) }
    requires fits { vec_len handles ≤ vec_capacity all }
    ensures len { vec_len result ≡ vec_len handles }
    ensures kept { AllZip (λ h counts. (f : _) × B.kept_by h.promise f × (f.counts ≡ counts))
        handles.items result.items }
    ensures commands { pass.new.commands ≡ pass.old.commands + sum_by (λ w. w.commands) result.items }
    ensures taken { pass.new.taken ≡ pass.old.taken + sum_by (λ w. w.taken) result.items }
{
    for handle in handles {
        let finished = handle.join(rt);
        let Finished { pass: own, counts } = finished;
        pass.absorb(own);
        all.push_reserved(counts);
    }
    all
}

/// The report of these workers, where the pass has counted all of the core's totals.
fn settle<R: Wait, C: Ledger, T: Ledger, A, G>(
    pool: &Pool<R, C, T, A, G>,
    pass: &mut Pass<C, T>,
    workers: Vec<WorkerCounts>,
) -> Result<Settled<C, T>, ServeError>
    ensures same { pass.new ≡ pass.old }
    ensures counted { IfOk result (λ s. AreCounted pass.old s.core.value s.report.totals) }
    ensures workers { IfOk result (λ s. s.report.workers ≡ workers) }
    ensures lacks { IfErr result (IsLackingFor pass.old) }
{
    let mut guard = pool.locked.look(pool.rt, pass);
    let core = Snapshot::of(&*guard);
    let totals = guard.settle(pass).map_err(ServeError::NotAll)?;
    let report = Report { totals, workers };
    Ok(Settled { report, core })
}
