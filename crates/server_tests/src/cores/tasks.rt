//! What is done with a locked core of its own.

ghost use Rattle.std.specs.Prelude.{◌≡◌};

use crate::cores::hall::Hall;
use dispatch::Core;
use events::{CoreError, CoreFault};
use hub_gate::Locked;
use hub_totals::Pass;
use std::alloc::Global;
use std::marker::Brand;
use std::process::Abort;
use std::sync::Wait;
use std::sync::ledger::{Blank, Ledger};
use std::thread::Threads;
use std::time::Clock;
use usual_core::{NUMBERS, PARTS, TIMING, UsualLimits, limits_for};

#[derive(Clone, Copy)]
pub enum Task {
    /// Four workers serve a talker each.
    OneBook,
    /// At one worker's gate another one's join is seen.
    OneSeesAnother,
    /// Two workers meet at the gate.
    TwoAtOnce,
    /// The core is sealed between the events of four workers.
    SealedBetween,
    /// Pools without workers, with too many, and beside a pass that wasn't absorbed.
    RefusedPools,
    /// Peers that fail.
    PeersThatFail,
    /// A peer whose turns are spent.
    SpentTurns,
}

impl<'a, C: Ledger + Send + Sync, T: Ledger + Send + Sync, R: Threads + Wait + Clock + Sync> Hall<
    'a,
    C,
    T,
    R,
> {
    /// Whether a task is done as it should be.
    fn does(&mut self, task: Task) -> bool {
        match task {
            Task::OneBook => self.fill_one_book(),
            Task::OneSeesAnother => self.see_another(),
            Task::TwoAtOnce => self.meet(),
            Task::SealedBetween => self.seal_between().unwrap_or(false),
            Task::RefusedPools => self.are_refused(),
            Task::PeersThatFail => self.are_lost(),
            Task::SpentTurns => self.is_cut_off(),
        }
    }
}

/// A core with no clients, under its lock, and its first pass.
fn new_locked<C: Ledger, T: Ledger>(
    alloc: Global,
    commands: Blank,
    taken: Blank,
) -> Result<(Box<Locked<C, T>>, Pass<C, T>), CoreError>
    requires commands { (commands.name ≡ C.name)
        × (commands.parts ≡ C.parts) × (commands.parts ≡ 65536) }
    requires taken { (taken.name ≡ T.name)
        × (taken.parts ≡ T.parts) × (taken.parts ≡ 65536) }
{
    let limits = UsualLimits {
        capacity: 256,
        ..limits_for(8)
    };
    let Ok(config) = limits.config(alloc, &["/"]) else {
        return Err(CoreFault::Memory.at_once());
    };
    let (core, pass) = Core::new(alloc, config, TIMING, NUMBERS, commands, taken)?;
    match Box::new(alloc, Locked::new(core)) {
        Ok(locked) => Ok((locked, pass)),
        Err(_) => Err(CoreFault::Memory.at_once()),
    }
}

fn run<C: Ledger + Send + Sync, T: Ledger + Send + Sync, R: Threads + Wait + Clock + Sync>(
    rt: &R,
    alloc: Global,
    task: Task,
    commands: Blank,
    taken: Blank,
) -> Result<bool, CoreError>
    requires commands { (commands.name ≡ C.name)
        × (commands.parts ≡ C.parts) × (commands.parts ≡ 65536) }
    requires taken { (taken.name ≡ T.name)
        × (taken.parts ≡ T.parts) × (taken.parts ≡ 65536) }
{
    let (locked, pass) = new_locked::<C, T>(alloc, commands, taken)?;
    let locked = &*locked;
    let mut hall = Hall {
        rt,
        alloc,
        locked,
        pass,
    };
    Ok(hall.does(task))
}

fn run_once<R: Threads + Wait + Clock + Sync>(
    rt: &R,
    alloc: Global,
    task: Task,
) -> Result<bool, CoreError> {
    let (commands, taken) = (Blank::new(PARTS), Blank::new(PARTS));
    run::<Brand, Brand, _>(rt, alloc, task, commands, taken)
}

/// Does a task, once more where it failed, since memory may have been refused in the first run.
fn expect<R: Threads + Wait + Clock + Sync + Abort + AllocGlobal>(rt: &R, task: Task) {
    if run_once(rt, rt.alloc(), task) == Ok(true) {
        return;
    }
    let again = run_once(rt, rt.alloc(), task);
    assert!(rt;
        again != Err(CoreFault::Memory.at_once()),
        "no memory in two runs"
    );
    assert!(rt; again == Ok(true), "it isn't done as it should be");
}

#[test]
fn four_workers_one_book(rt: HostRuntime) {
    expect(&rt, Task::OneBook);
}

#[test]
fn one_sees_another(rt: HostRuntime) {
    expect(&rt, Task::OneSeesAnother);
}

#[test]
fn turnstile_two_at_once(rt: HostRuntime) {
    expect(&rt, Task::TwoAtOnce);
}

#[test]
fn sealed_between(rt: HostRuntime) {
    expect(&rt, Task::SealedBetween);
}

#[test]
fn refused_pools(rt: HostRuntime) {
    expect(&rt, Task::RefusedPools);
}

#[test]
fn peers_that_fail(rt: HostRuntime) {
    expect(&rt, Task::PeersThatFail);
}

#[test]
fn turns_that_are_spent(rt: HostRuntime) {
    expect(&rt, Task::SpentTurns);
}
