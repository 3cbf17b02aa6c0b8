//! Pools that are refused, peers that fail, and turns that are spent.

use crate::cores::hall::{Hall, ids_of};
use crate::cores::talkers::{Failing, talkers};
use events::{Event, Peer};
use hub_gate::{Open, Report, ServeError};
use hub_totals::{NotAll, Pass};
use relay::RelayApp;
use std::alloc::{AllocError, Global};
use std::sync::Wait;
use std::sync::atomic::AtomicU64;
use std::sync::ledger::Ledger;
use std::thread::Threads;
use std::time::Clock;

/// What a pass lacks of one command.
const ONE_COMMAND: NotAll = NotAll {
    commands: 1,
    taken: 0,
};

/// Two peers that fail at once, or once they were opened.
fn two_that_fail(alloc: Global, opens: bool) -> Result<Vec<Failing>, AllocError> {
    Ok(vec![in alloc; Failing { opens }, Failing { opens }]?)
}

/// Whether one worker served peers with so many commands, so many of them, all of which failed.
fn is_failure(report: &Report, commands: u64, peers: usize) -> bool {
    match report.workers.as_slice() {
        [worker] => {
            report.totals.commands == commands && (worker.peers, worker.faults) == (peers, peers)
        }
        _ => false,
    }
}

impl<'a, C: Ledger + Send + Sync, T: Ledger + Send + Sync, R: Threads + Wait + Clock + Sync> Hall<
    'a,
    C,
    T,
    R,
> {
    /// Why a pool of so many workers that have no peers is refused.
    fn refusal(&mut self, workers: usize) -> Option<ServeError> {
        let none: Vec<Failing> = Vec::new(self.alloc);
        self.serve(none, workers, &Open, 9).err()
    }

    /// Whether one event is done that is counted in this pass, which the first one then lacks.
    fn does_one(&mut self, other: &mut Pass<C, T>) -> bool {
        let mut ids = ids_of(0);
        let event = Event::Opened { socket: false };
        let mut core = self.locked.look(self.rt, &mut self.pass);
        let done = core.apply(self.alloc, other, &RelayApp, &event, 0, &mut ids);
        done.is_ok() && core.settle(&mut self.pass) == Err(ONE_COMMAND)
    }

    /// Whether pools are refused as they must be: without workers, with too many, and beside a pass
    /// that wasn't absorbed, but not after it.
    pub fn are_refused(&mut self) -> bool {
        let Ok(mut other) = self.core().new_pass() else {
            return false;
        };
        let is_missed = self.refusal(0) == Some(ServeError::NoWorkers)
            && self.refusal(1_025) == Some(ServeError::TooManyWorkers)
            && self.does_one(&mut other)
            && self.refusal(2) == Some(ServeError::NotAll(ONE_COMMAND));
        self.pass.absorb(other);
        is_missed && self.refusal(2).is_none()
    }

    /// Whether one worker of these peers counts all as faults, with so many commands, and no client
    /// is left.
    fn fail_all<P: Peer + Send + Drop>(
        &mut self,
        peers: Result<Vec<P>, AllocError>,
        count: usize,
        turns: u64,
        commands: u64,
    ) -> bool {
        let Ok(peers) = peers else {
            return false;
        };
        let served = self.serve(peers, 1, &Open, turns);
        served.is_ok_and(|report| is_failure(&report, commands, count)) && self.is_empty()
    }

    /// Whether peers that fail are counted, and each that was opened is lost, as its opening
    /// couldn't be told.
    pub fn are_lost(&mut self) -> bool {
        let (closed, open) = (
            two_that_fail(self.alloc, false),
            two_that_fail(self.alloc, true),
        );
        self.fail_all(closed, 2, 9, 0) && self.fail_all(open, 2, 9, 4)
    }

    /// Whether a peer whose turns are spent is a fault: it was opened and connected, and then lost.
    pub fn is_cut_off(&mut self) -> bool {
        let joined = AtomicU64::new(0);
        let peers = talkers(self.alloc, 1, &joined, true);
        self.fail_all(peers, 1, 2, 3)
    }

    fn is_empty(&mut self) -> bool {
        let alloc = self.alloc;
        let clients = self.core().clients(alloc);
        clients.is_ok_and(|clients| clients.is_empty())
    }
}
