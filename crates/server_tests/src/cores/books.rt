//! Four workers and one book, and what one worker sees of another.

use crate::cores::hall::{Hall, is_set};
use crate::cores::talkers::{SAYS, talkers};
use dispatch::Core;
use events::{Answered, Event};
use hub_gate::{Locked, Open, Report, Turnstile};
use hub_totals::Pass;
use journal::{Step, What};
use std::alloc::Global;
use std::sync::atomic::{AtomicU64, Ordering};
use std::sync::ledger::Ledger;
use std::sync::{Mutex, Wait};
use std::thread::Threads;
use std::time::Clock;
use terms::Room;

/// The talker, by its number, that said a thing to all, and the number of the thing.
fn said(step: &Step) -> Option<(usize, u8)> {
    let What::Cast(cast) = &step.what else {
        return None;
    };
    let text = cast.entry.text.as_str().as_bytes();
    let talker = text.get(9)?.wrapping_sub(b'a');
    let tens = text.get(10)?.wrapping_sub(b'0');
    let ones = text.get(11)?.wrapping_sub(b'0');
    Some((
        usize::from(talker),
        tens.wrapping_mul(10).wrapping_add(ones),
    ))
}

/// Whether each talker said its things, once each and in order.
fn said_in_order(steps: &[Step]) -> bool {
    let mut next = [0u8; 4];
    for step in steps {
        if let Some((talker, number)) = said(step) {
            match next.get_mut(talker) {
                Some(wanted) if *wanted == number => *wanted = number.wrapping_add(1),
                _ => return false,
            }
        }
    }
    next == [SAYS; 4]
}

/// The offset of the last broadcast.
fn last_offset(steps: &[Step]) -> Option<u64> {
    let mut last = None;
    for step in steps {
        if let What::Cast(cast) = &step.what {
            last = cast.offset;
        }
    }
    last
}

/// Whether four workers served a peer each, and their counts are the totals.
fn is_right(report: &Report) -> bool {
    let totals = report.totals;
    let (mut commands, mut taken) = (0u64, 0u64);
    for worker in report.workers.as_slice() {
        if (worker.peers, worker.faults) != (1, 0) || worker.taken == 0 {
            return false;
        }
        commands = commands.wrapping_add(worker.commands);
        taken = taken.wrapping_add(worker.taken);
    }
    let gone = taken.wrapping_add(totals.discarded);
    report.workers.len() == 4
        && (totals.commands, totals.taken) == (commands, taken)
        && totals.placed == gone.wrapping_add(totals.waiting)
}

impl<'a, C: Ledger + Send + Sync, T: Ledger + Send + Sync, R: Threads + Wait + Clock + Sync> Hall<
    'a,
    C,
    T,
    R,
> {
    /// Whether four workers that serve a talker each report what they did, and then there are the
    /// four clients, and each talker's things stand in the journal, in order.
    pub fn fill_one_book(&mut self) -> bool {
        let joined = AtomicU64::new(0);
        let Ok(peers) = talkers(self.alloc, 4, &joined, true) else {
            return false;
        };
        let served = self.serve(peers, 4, &Open, 1_000);
        served.is_ok_and(|report| is_right(&report)) && self.is_filled()
    }

    fn is_filled(&mut self) -> bool {
        let alloc = self.alloc;
        let core = self.core();
        let steps = core.hub().state().steps();
        let clients = core.clients(alloc);
        clients.is_ok_and(|clients| clients.len() == 4)
            && last_offset(steps) == Some(100)
            && said_in_order(steps)
    }

    /// Whether one worker sees another's join, which is noted, and the first pass has all counts
    /// beside one that holds nothing.
    pub fn see_another(&mut self) -> bool {
        let joined = AtomicU64::new(0);
        let Ok(own) = self.core().new_pass() else {
            return false;
        };
        let Ok(peers) = talkers(self.alloc, 2, &joined, false) else {
            return false;
        };
        let gate = Looking {
            rt: self.rt,
            alloc: self.alloc,
            locked: self.locked,
            pass: Mutex::new(own),
            joined: &joined,
            saw: AtomicU64::new(0),
        };
        let served = self.serve(peers, 2, &gate, 10);
        served.is_ok_and(|report| report.workers.iter().all(|worker| worker.commands == 3))
            && gate.saw.load(Ordering::SeqCst) == 1
    }
}

/// A gate at which the second worker waits until the first one's join was answered, and then looks
/// at the room, with a pass that holds nothing.
#[derive(Drop)]
struct Looking<'a, C: Ledger, T: Ledger, R> {
    rt: &'a R,
    alloc: Global,
    locked: &'a Locked<C, T>,
    pass: Mutex<Pass<C, T>>,
    joined: &'a AtomicU64,
    saw: AtomicU64,
}

impl<'a, C: Ledger, T: Ledger, R: Wait + Clock> Looking<'a, C, T, R> {
    fn look_at_room(&self) {
        let Some(room) = Room::read("r") else {
            return;
        };
        let mut pass = self.pass.lock(self.rt);
        let core = self.locked.look(self.rt, &mut *pass);
        let members = core.hub().state().members(self.alloc, "/", room);
        if members.is_ok_and(|members| members.len() == 1) {
            self.saw.store(1, Ordering::SeqCst);
        }
    }
}

impl<'a, C: Ledger, T: Ledger, R: Wait + Clock> Turnstile for Looking<'a, C, T, R> {
    fn before(&self, worker: usize, turn: u64) {
        if worker == 1 && turn == 0 && is_set(self.rt, self.joined) {
            self.look_at_room();
        }
    }

    fn applied<A: Ledger, B: Ledger>(
        &self,
        _worker: usize,
        _core: &Core<A, B>,
        _event: &Event,
        _got: &Answered,
    ) {}

    fn after(&self, _worker: usize, _turn: u64) {}
}
