//! What rows count, and what they cost.

ghost use Rattle.std.specs.Prelude.{◌≡◌};

use crate::bands::play_core;
use crate::fault::Fault;
use crate::hall::{CAPACITY, FEW, play_hub};
use crate::rows::{Counted, MISSPELLED, Measured, Row, Sizes};
use dispatch::Core;
use hub_totals::Hub;
use journal::Totals;
use std::io;
use std::marker::Brand;
use std::rt::Clock;
use std::sync::Wait;
use std::sync::ledger::{Blank, Ledger};
use std::thread::Threads;
use std::time::{Duration, Instant};
use usual_core::{NUMBERS, PARTS, TIMING, limits_for};

/// What a row is played with where its counts are printed. The greatest room has 256 members.
const SMALL: Sizes = Sizes {
    sockets: 300,
    casts: 10,
};

/// Prints what the rows cost with these sizes, or without any the counts of all but those of
/// requests. 300 clients with a socket are 600 commands, and 300 wait. Elsewhere they are taken of
/// the answer to CONNECT too, which makes 900; the rest follows from the deeds:
/// - a room of M: M joins, 10 casts and M takes; 10 M are placed and taken;
/// - all 16 of a namespace: 16 attaches and takes, 10 casts and 16 takes; 16 and 160;
/// - joins and leaves: 600; of a room: 256 joins, and 20 commands; a seal: 64 casts, which wait;
/// - a room that ends: ten times 256 joins, attaches and takes, and one command; 512 are placed;
/// - attaches beside saved sessions: nothing is taken, but 300 join, are parked, opened and
///   attached; of 600 that are placed 300 are discarded, and the others wait;
/// - parks: nothing is taken, but 300 join and are parked, and a sweep; 300 are discarded;
/// - recoveries: nothing is taken before 300 join and are parked, 1,024 casts find nobody, and 300
///   are opened, recovered and taken of 65 each; the first 300 are discarded;
/// - posts: 16 joins, 10 casts and 15 takes; 150. Takes: 16 joins, 64 casts and 15 takes; 960;
/// - bands: 64 clients open, connect, take and join; 40 casts and 60 takes; 64 and 600.
pub fn play_all<R: Clock + Threads + Wait + Sync + Print + AllocGlobal>(
    rt: &R,
    rows: &[u8],
    sizes: Option<Sizes>,
) -> Result<(), Fault> {
    let rows = str::from_utf8(rows).map_err(|_| MISSPELLED)?;
    for line in rows.lines() {
        let row = Row::read(sizes.unwrap_or(SMALL), line).ok_or(MISSPELLED)?;
        if sizes.is_some() || row.counted != "requests" {
            measure(rt, &row, sizes.is_none())?;
        }
    }
    Ok(())
}

/// Plays the row over a new hub or a new core, and prints its counts or its figure.
fn measure<R: Clock + Threads + Wait + Sync + Print + AllocGlobal>(
    rt: &R,
    row: &Row<'_>,
    counts: bool,
) -> Result<(), Fault> {
    let start = Instant::now(rt)?;
    let (commands, taken) = (Blank::new(PARTS), Blank::new(PARTS));
    let (counted, totals) = measure_in::<Brand, Brand, R>(rt, row, commands, taken)?;
    if totals.dropped > 0 {
        return Err(Fault::Wrong("a broadcast was dropped"));
    }
    if counts {
        print_counts(rt, row, counted.number, &totals)?;
    } else {
        print_figure(rt, row, &counted, start.elapsed(rt)?)?;
    }
    Ok(())
}

/// Plays the row over a new hub or a new core, with these ledgers.
fn measure_in<
    C: Ledger + Send + Sync,
    T: Ledger + Send + Sync,
    R: Clock + Threads + Wait + Sync + AllocGlobal,
>(rt: &R, row: &Row<'_>, commands: Blank, taken: Blank) -> Measured
    requires commands { (commands.name ≡ C.name)
        × (commands.parts ≡ C.parts) × (commands.parts ≡ 65536) }
    requires taken { (taken.name ≡ T.name) × (taken.parts ≡ T.parts) × (taken.parts ≡ 65536) }
{
    let (alloc, mut limits) = (rt.alloc(), limits_for(row.sizes.sockets as usize));
    limits.capacity = CAPACITY;
    limits.saved = limits.clients;
    let config = limits.config(alloc, &["/", FEW])?;
    if row.player == "hub" {
        let (hub, pass) = Hub::<C, T>::new(alloc, config, commands, taken)?;
        return play_hub(rt, row, hub, pass);
    }
    let (core, pass) = Core::<C, T>::new(alloc, config, TIMING, NUMBERS, commands, taken)?;
    play_core(rt, row, core, pass)
}

fn print_counts(rt: &impl Print, row: &Row<'_>, number: u64, totals: &Totals) -> io::Result<()> {
    let (name, counted, commands, placed) = (row.name, row.counted, totals.commands, totals.placed);
    print!(rt; "{name}: {counted} {number}, commands {commands}, placed {placed}")?;
    let (taken, discarded, waiting) = (totals.taken, totals.discarded, totals.waiting);
    println!(rt; ", taken {taken}, discarded {discarded}, waiting {waiting}")
}

/// Prints how many there were in a second while the clock ran, or for turns all the while.
fn print_figure(rt: &impl Print, row: &Row<'_>, all: &Counted, whole: Duration) -> io::Result<()> {
    let (name, what, number) = (row.name, row.counted, u128::from(all.number));
    let took = if what == "turns" { whole } else { all.time };
    let rate = number * 1_000_000_000 / took.as_nanos().max(1);
    let mean = all.time.as_nanos() / number.max(1);
    let most = all.longest.as_micros();
    println!(rt; "{name}: {rate} {what} a second, each {mean} ns, at most {most} us")
}
