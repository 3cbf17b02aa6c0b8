//! Bands of clients that play the deeds of a row over a core with the demonstration app. The first
//! client of a band speaks, and the others listen.

use crate::fault::Fault;
use crate::rows::{BATCH, Counted, Deed, Measured, NOW, Row};
use dispatch::Core;
use events::{Answered, Event, Outcome, Peer, PeerFault};
use hub_gate::{Locked, Open, Pool, serve_peers};
use hub_totals::Pass;
use journal::Totals;
use relay::{Counter, RelayApp};
use std::alloc::Global;
use std::rt::Clock;
use std::sync::ledger::Ledger;
use std::sync::{Mutex, Wait};
use std::thread::Threads;
use std::time::Instant;
use terms::Text;

/// What the clients of each band say: they join its room, and speak to it.
static BANDS: [[&str; 2]; 4] = [
    ["42[\"join\",\"a\"]", "42[\"say\",\"a\",\"0123456789\"]"],
    ["42[\"join\",\"b\"]", "42[\"say\",\"b\",\"0123456789\"]"],
    ["42[\"join\",\"c\"]", "42[\"say\",\"c\",\"0123456789\"]"],
    ["42[\"join\",\"d\"]", "42[\"say\",\"d\",\"0123456789\"]"],
];

/// A band, which does the deeds of a row.
#[derive(Drop)]
struct Band<'a, R> {
    rt: &'a R,
    /// Where the turns of all bands are counted.
    tally: &'a Mutex<Counted>,
    says: &'static [&'static str; 2],
    deeds: &'a [Deed<'a>],
    /// Which of them is at hand, and how often it was done.
    index: usize,
    done: u64,
    /// The id of its first client, or 0 before it came.
    first: u128,
    /// When its event was given.
    started: Instant,
}

impl<'a, R: AllocGlobal> Band<'a, R> {
    /// The event of a deed of the client with this number. What is no other deed is a cast.
    fn event(&self, deed: &str, number: u64) -> Result<Event, PeerFault> {
        let number = number.saturating_add(u64::from(deed == "hear"));
        let client = self.first.saturating_add(u128::from(number));
        let most = BATCH as usize;
        let (client, text) = match deed {
            "open" => return Ok(Event::Opened { socket: false }),
            "take" | "hear" => return Ok(Event::PollTake { client, most }),
            "attach" => (client, "40"),
            "join" => (client, self.says[0]),
            _ => (self.first, self.says[1]),
        };
        match Text::copy_of(self.rt.alloc(), text) {
            Ok(body) => Ok(Event::Post { client, body }),
            Err(_) => Err(PeerFault::Memory),
        }
    }
}

impl<'a, R: Clock + Wait + AllocGlobal> Peer for Band<'a, R> {
    fn next(&mut self) -> Result<Option<(Event, u64)>, PeerFault> {
        let Some(deed) = self.deeds.get(self.index) else {
            return Ok(None);
        };
        let event = self.event(deed.name, self.done)?;
        let Ok(started) = Instant::now(self.rt) else {
            return Err(PeerFault::Device);
        };
        self.started = started;
        Ok(Some((event, NOW)))
    }

    fn answer(&mut self, got: &Answered) -> Result<(), PeerFault> {
        match got {
            Ok(Outcome::Opened(opening)) if self.first == 0 => self.first = opening.client,
            Ok(Outcome::Nothing) | Err(_) => return Err(PeerFault::Ended),
            Ok(_) => {}
        }
        let (Some(deed), Ok(time)) = (self.deeds.get(self.index), self.started.elapsed(self.rt))
        else {
            return Err(PeerFault::Device);
        };
        if deed.timed {
            self.tally.lock(self.rt).add(1, time);
        }
        self.done = self.done.saturating_add(1);
        if self.done >= deed.times {
            self.index = self.index.saturating_add(1);
            self.done = 0;
        }
        Ok(())
    }
}

/// Plays the row over this core.
pub fn play_core<
    R: Clock + Threads + Wait + Sync + AllocGlobal,
    C: Ledger + Send + Sync,
    T: Ledger + Send + Sync,
>(rt: &R, row: &Row<'_>, core: Core<C, T>, pass: Pass<C, T>) -> Measured {
    let (deeds, tally) = (row.deeds(rt.alloc())?, Mutex::new(Counted::default()));
    let bands = bands(rt, row.player == "band", &deeds, &tally)?;
    let totals = match row.player.parse::<u8>().unwrap_or(0) {
        0 => play_alone(rt.alloc(), core, pass, bands)?,
        workers => play_pool(rt, core, pass, bands, workers)?,
    };
    let counted = *tally.lock(rt);
    Ok((counted, totals))
}

/// One band, or all.
fn bands<'a, R: Clock + AllocGlobal>(
    rt: &'a R,
    is_lone: bool,
    deeds: &'a [Deed<'a>],
    tally: &'a Mutex<Counted>,
) -> Result<Vec<Band<'a, R>>, Fault> {
    let (started, mut bands) = (Instant::now(rt)?, Vec::new(rt.alloc()));
    for says in &BANDS {
        bands.push(Band {
            rt,
            tally,
            says,
            deeds,
            index: 0,
            done: 0,
            first: 0,
            started,
        })?;
        if is_lone {
            break;
        }
    }
    Ok(bands)
}

/// Plays one band after another, without a lock.
fn play_alone<C: Ledger, T: Ledger, P: Peer + Drop>(
    alloc: Global,
    core: Core<C, T>,
    pass: Pass<C, T>,
    bands: Vec<P>,
) -> Result<Totals, Fault> {
    let (mut core, mut pass, mut ids) = (core, pass, Counter::new());
    let mut bands = bands.into_iter();
    let mut band = bands.next();
    for _turn in 0..u64::MAX {
        let Some(player) = &mut band else {
            break;
        };
        let Some((event, now)) = player.next()? else {
            band = bands.next();
            continue;
        };
        player.answer(&core.apply(alloc, &mut pass, &RelayApp, &event, now, &mut ids))?;
    }
    Ok(core.hub().state().totals())
}

/// Has the bands played by so many workers, of which each has a thread.
fn play_pool<C: Ledger + Send + Sync, T: Ledger + Send + Sync>(
    rt: &(impl Threads + Wait + Sync + AllocGlobal),
    core: Core<C, T>,
    pass: Pass<C, T>,
    bands: Vec<impl Peer + Send + Drop>,
    workers: u8,
) -> Result<Totals, Fault> {
    let (alloc, mut pass) = (rt.alloc(), pass);
    let (locked, mut ids) = (Box::new(alloc, Locked::new(core))?, Vec::new(alloc));
    // Their sources lie further apart than all clients draw.
    for worker in 0..workers {
        ids.push(Counter::starting_at(u128::from(worker) * 1_000 + 1))?;
    }
    let pool = Pool {
        rt,
        alloc,
        locked: &*locked,
        app: &RelayApp,
        gate: &Open,
        turns: u64::MAX,
    };
    let settled = serve_peers(&pool, &mut pass, bands, ids.len(), ids)?;
    Ok(settled.report.totals)
}
