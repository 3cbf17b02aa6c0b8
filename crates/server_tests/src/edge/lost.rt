//! Requests that a worker serves, of which one can't be answered.

use crate::edge::asker::{Asker, Still, asker};
use hub_gate::{Locked, Open, Pool, Queue, WorkerCounts, run_worker};
use hub_totals::Pass;
use journal::Totals;
use peers::PollRequest;
use relay::{Counter, RelayApp};
use std::alloc::{AllocError, Global};
use std::sync::Wait;
use std::sync::ledger::Ledger;
use terms::Text;
use usual_core::{OnLocked, UsualSettings, on_new_locked};

/// What a request asks for.
#[derive(Clone, Copy, Debug)]
enum Line {
    Open,
    Get(u128),
    Post(u128, &'static str),
}

/// Two clients join a room, and take what they were told; the first one speaks, and the second
/// one's GET takes it but can't be answered. Each with how many bytes its wire takes.
static LINES: [(Line, usize); 10] = [
    (Line::Open, 1_000),
    (Line::Open, 1_000),
    (Line::Post(1, "40"), 1_000),
    (Line::Post(2, "40"), 1_000),
    (Line::Post(1, "42[\"join\",\"r\"]"), 1_000),
    (Line::Post(2, "42[\"join\",\"r\"]"), 1_000),
    (Line::Get(1), 1_000),
    (Line::Get(2), 1_000),
    (Line::Post(1, "42[\"say\",\"r\",\"1\"]"), 1_000),
    (Line::Get(2), 20),
];

fn request(alloc: Global, line: Line) -> Result<PollRequest, AllocError> {
    Ok(match line {
        Line::Open => PollRequest::Open,
        Line::Get(client) => PollRequest::Get { client },
        Line::Post(client, body) => PollRequest::Post {
            client,
            body: Text::copy_of(alloc, body)?,
        },
    })
}

fn askers(alloc: Global) -> Result<Vec<Asker<Still>>, AllocError> {
    let mut peers = Vec::new(alloc);
    for (line, room) in LINES {
        peers.push(asker(alloc, Still, request(alloc, line)?, room))?;
    }
    Ok(peers)
}

/// One worker serves these requests. Answers what it counts, and how many sessions are saved.
#[derive(Drop)]
struct Serves<'a, R: Wait> {
    rt: &'a R,
    peers: Vec<Asker<Still>>,
}

impl<'a, R: Wait> OnLocked for Serves<'a, R> {
    type Found = Option<(WorkerCounts, usize)>;

    fn run<C: Ledger + Send + Sync, T: Ledger + Send + Sync>(
        self,
        alloc: Global,
        locked: &Locked<C, T>,
        pass: Pass<C, T>,
    ) -> Option<(WorkerCounts, usize)> {
        let Serves { rt, peers } = self;
        let mut queue = Queue::new(peers);
        let mut ids = Counter::new();
        let pool = Pool {
            rt,
            alloc,
            locked,
            app: &RelayApp,
            gate: &Open,
            turns: 10_000,
        };
        let (mut pass, counts) = run_worker(&pool, pass, &mut queue, 0, &mut ids);
        let mut guard = locked.look(rt, &mut pass);
        guard.seal(alloc).ok()?;
        Some((counts, guard.hub().state().base().saved.len()))
    }
}

/// What a worker counts that serves them, with one session that is saved, and the core's totals.
static LOST: (WorkerCounts, usize, Totals) = (
    WorkerCounts {
        commands: 11,
        taken: 3,
        peers: 10,
        faults: 1,
    },
    1,
    Totals {
        commands: 11,
        placed: 3,
        dropped: 0,
        taken: 3,
        discarded: 0,
        waiting: 0,
    },
);

fn is_lost(rt: &impl Wait, alloc: Global) -> bool {
    let Ok(peers) = askers(alloc) else {
        return false;
    };
    match on_new_locked(alloc, &UsualSettings::usual(3), Serves { rt, peers }) {
        Ok((Some((counts, saved)), totals)) => (counts, saved, totals) == LOST,
        _ => false,
    }
}

/// Of a run's allocations at most one is refused, so one of two runs has ample memory.
#[test]
fn lost_after_take(rt: HostRuntime) {
    assert!(rt; is_lost(&rt, rt.alloc()) || is_lost(&rt, rt.alloc()));
}
