//! What is measured: a row a figure, whose deeds are done in turn, some of them by the clock.
//!
//! A row's line has its name, what is counted, how many rounds are played, what is there first, a
//! round, and who plays it: nobody named is a hub, `band` the first band alone, and a number all
//! bands, by so many workers, or without a lock where it is 0. Each deed is done for all sockets,
//! or as often as stands behind it, and by the clock where it is marked so.

use crate::fault::Fault;
use journal::Totals;
use std::alloc::Global;
use std::time::Duration;

/// How many casts are made before the members take what waits for them.
pub const BATCH: u64 = 64;

/// The moment of each command and event but the sweep. No clock is due at it.
pub const NOW: u64 = 0;

/// What is told of a row that isn't one.
pub const MISSPELLED: Fault = Fault::Wrong("a row is misspelled");

/// How many sockets a row has, each of a client of its own, and how many casts.
#[derive(Clone, Copy)]
pub struct Sizes {
    pub sockets: u64,
    pub casts: u64,
}

/// A row, as its line has it.
#[derive(Clone, Copy)]
pub struct Row<'a> {
    pub sizes: Sizes,
    pub name: &'a str,
    pub counted: &'a str,
    rounds: &'a str,
    first: &'a str,
    round: &'a str,
    pub player: &'a str,
}

/// A deed that is done so often.
#[derive(Clone, Copy)]
pub struct Deed<'a> {
    pub name: &'a str,
    pub times: u64,
    pub timed: bool,
}

impl<'a> Row<'a> {
    pub fn read(sizes: Sizes, line: &'a str) -> Option<Row<'a>> {
        let mut fields = line.split('|');
        Some(Row {
            sizes,
            name: fields.next()?,
            counted: fields.next()?,
            rounds: fields.next()?,
            first: fields.next()?,
            round: fields.next()?,
            player: fields.next().unwrap_or("hub"),
        })
    }

    /// What is done in turn: what is there first, and each round.
    pub fn deeds(&self, alloc: Global) -> Result<Vec<Deed<'a>>, Fault> {
        let mut deeds = Vec::new(alloc);
        self.add_deeds(&mut deeds, self.first, 0)?;
        for round in 0..self.times(self.rounds, 0)? {
            self.add_deeds(&mut deeds, self.round, round)?;
        }
        Ok(deeds)
    }

    fn add_deeds(&self, deeds: &mut Vec<Deed<'a>>, text: &'a str, round: u64) -> Result<(), Fault> {
        for word in text.split_whitespace() {
            let bare = word.strip_prefix('!');
            let (word, timed) = (bare.unwrap_or(word), bare.is_some());
            let (name, times) = word.split_once(':').unwrap_or((word, "all"));
            let times = self.times(times, round)?;
            deeds.push(Deed { name, times, timed })?;
        }
        Ok(())
    }

    /// How often a deed is done in this round, or how many rounds are played.
    fn times(&self, word: &str, round: u64) -> Result<u64, Fault> {
        Ok(match word {
            "all" => self.sizes.sockets,
            "most" => self.sizes.sockets.min(1_000),
            "batches" => self.sizes.casts.div_ceil(BATCH),
            "batch" => (self.sizes.casts.saturating_sub(round.saturating_mul(BATCH))).min(BATCH),
            // Each is a long step of the journal.
            "few" => self.sizes.casts.min(1_000),
            number => number.parse::<u64>().ok().ok_or(MISSPELLED)?,
        })
    }
}

/// How many the clock counted, how long they took, and the longest time that it ran for.
#[derive(Clone, Copy, Default)]
pub struct Counted {
    pub number: u64,
    pub time: Duration,
    pub longest: Duration,
}

impl Counted {
    /// So many more, which took so long together.
    pub fn add(&mut self, number: u64, time: Duration) {
        self.number = self.number.saturating_add(number);
        self.time = self.time.saturating_add(time);
        self.longest = self.longest.max(time);
    }
}

/// What was counted of a row, and what the hub counted.
pub type Measured = Result<(Counted, Totals), Fault>;
