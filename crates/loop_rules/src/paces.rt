//! How fast each client may send: an allowance that fills with time (a token bucket).

ghost use Rattle.std.specs.Prelude.{◌≡◌, ◌≤◌, ◌<◌, ◌≢◌, ◌+◌, ◌^◌, ◌-◌, ℕ, None, true, false, max};
ghost use Rattle.std.specs.Prelude.{Some, IfSome, OnSome};
ghost use Rattle.loop_rules.specs.Packets.{carries, carried};
ghost use Rattle.std.specs.Bool.{OnTrue, OnFalse};

use std::alloc::Global;
use std::collections::{BTreeSet, HashMap};
use std::mem;

/// What stands between two packets of a payload: U+001E, the record separator.
const SEPARATOR: char = '\u{1e}';

/// Whether a packet of Engine.IO carries one of Socket.IO, or a part: a message, or data as text.
pub fn carries(packet: &str) -> bool
    ensures { result ≡ carries packet.now }
{
    matches!(packet.as_bytes().first(), Some(b'4' | b'b'))
}

/// How many packets of a payload do.
pub fn carried(payload: &str) -> u64
    ensures { result ≡ carried payload.now }
{
    let mut count = 0u64;
    for packet in payload.split(SEPARATOR) {
        if carries(packet) {
            count = count.saturating_add(1);
        }
    }
    count
}

/// How fast one client may send.
#[derive(Clone, Copy, Debug, PartialEq, Eq)]
pub struct Pace {
    /// How many events a second, at least 1.
    pub rate: u64,
    /// How many come at once.
    pub burst: u64,
    /// How long nothing of a client comes at the most, in milliseconds.
    pub stretch: u64,
}

impl Pace {
    ghost use Rattle.loop_rules.specs.Paces as paces;

    /// How much an allowance may lack where so many come, in thousandths of an event: nothing,
    /// where they are more than the burst.
    fn spare(self, count: u64) -> u128
        ensures { result ≡ paces.spare self count }
    {
        1_000 * u128::from(self.burst.saturating_sub(count))
    }
}

/// What an allowance lacked of being full when something last came, in thousandths of an event.
#[derive(Clone, Copy)]
struct Lack {
    lacks: u128,
    since: u64,
}

impl Lack {
    ghost use Rattle.loop_rules.specs.Paces as paces;

    /// What it lacks still.
    fn left(self, rate: u64, now: u64) -> u128
        ensures { result ≡ paces.left rate now (Some self) }
    {
        let passed = now.saturating_sub(self.since);
        self.lacks
            .saturating_sub(u128::from(rate) * u128::from(passed))
    }
}

/// How fast each client of a loop sends, and the connections that wait since theirs sent too fast.
/// Who sent nothing lately isn't listed, and may send.
#[derive(Drop)]
pub struct Paces {
    pace: Pace,
    lacks: HashMap<u128, Lack>,
    /// Those that wait, each after its moment. One may stand here that waits no more.
    waiting: BTreeSet<(u64, usize)>,
    /// How often one has begun to wait since that was told. It stays at the greatest u64.
    times: u64,
    ghost some: { 0 < pace.rate },
}

impl Paces {
    ghost use Rattle.loop_rules.specs.Paces as paces;
    ghost use Rattle.loop_rules.specs.Paces.{allowance, may_bring, IsBrought, Known, SamePace};

    /// All allowances are full, and nobody waits. At least one event a second may come.
    pub fn new(alloc: Global, pace: Pace) -> Paces
        ensures pace { result.pace ≡ record pace { rate = max 1 pace.rate } }
        ensures full { (c : ℕ) → allowance result c ≡ None }
        ensures times { result.times ≡ 0 }
    {
        let rate = pace.rate.max(1);
        Paces {
            pace: Pace { rate, ..pace },
            lacks: HashMap::new(alloc),
            waiting: BTreeSet::new(alloc),
            times: 0,
        }
    }

    fn allowance(&self, client: u128) -> Option<Lack>
        ensures { result ≡ allowance self.now client }
    {
        self.lacks.get(&client).copied()
    }

    /// The first moment from which on a client may bring so many events, if it brings none before.
    pub fn moment_for(&self, client: u128, count: u64, now: u64) -> u64
        ensures later { now ≤ result }
        ensures held { (t : ℕ) → now ≤ t → t < result
            → may_bring self.now.pace count t (allowance self.now client) ≡ false }
        ensures comes { result < 2 ^ 64 - 1
            → may_bring self.now.pace count result (allowance self.now client) ≡ true }
    {
        let Some(lack) = self.allowance(client) else {
            return now;
        };
        let (pace, rate) = (self.pace, self.pace.rate);
        let (left, spare) = (lack.left(rate, now), pace.spare(count));
        if left <= spare || now.saturating_sub(lack.since) >= pace.stretch {
            return now;
        }
        let wait = (left - spare).div_ceil(u128::from(rate));
        let full = u128::from(now.max(lack.since)).saturating_add(wait);
        let most = lack.since.saturating_add(pace.stretch);
        full.min(u128::from(most)) as u64
    }

    /// Until when a connection waits that is to bring so many events, and waited before; or 0.
    pub fn wait(&mut self, key: usize, client: u128, count: u64, before: u64, now: u64) -> u64
        ensures until { paces.WaitsUntil self.old.pace
            (allowance self.old client) count now result }
        ensures times { self.new.times ≡ paces.times_after before result self.old.times }
        ensures lacks { self.new.lacks ≡ self.old.lacks }
        ensures pace { self.new.pace ≡ self.old.pace }
    {
        let until = match count {
            0 => 0,
            _ => self.moment_for(client, count, now),
        };
        if until <= now {
            return 0;
        }
        if before == 0 {
            self.times = self.times.saturating_add(1);
        }
        if before != until {
            // Where there is no memory to list it, it is looked at in the next beat.
            let _ = self.waiting.insert((until, key));
        }
        until
    }

    /// A client is to bring so many events. Answers whether it may, and they are counted.
    pub fn bring(&mut self, client: u128, count: u64, now: u64) -> bool
        ensures brought { OnTrue result (IsBrought self.old.pace count now
            (allowance self.old client) (allowance self.new client)) }
        ensures kept { OnFalse result (allowance self.new client ≡ allowance self.old client) }
        ensures refused { OnFalse result (Known self.old client
            → may_bring self.old.pace count now (allowance self.old client) ≡ false) }
        ensures others { (c : ℕ) → c ≢ client → allowance self.new c ≡ allowance self.old c }
        ensures same { SamePace self.old self.new }
    {
        let Some(lack) = self.pace.taken(self.allowance(client), count, now) else {
            return false;
        };
        self.lacks.insert(client, lack).is_ok()
    }

    /// Forgets the allowances that are full again at this moment.
    pub fn forget_full(&mut self, now: u64)
        ensures forgotten { (c : ℕ) → allowance self.new c
            ≡ paces.unless_full self.old.pace.rate now (allowance self.old c) }
        ensures same { SamePace self.old self.new }
    {
        let rate = self.pace.rate;
        self.lacks.retain(|_, lack| lack.left(rate, now) > 0);
    }

    /// The moment of the first one that waits.
    pub fn first(&self) -> Option<u64> {
        Some(self.waiting.first()?.0)
    }

    /// The first one, if its moment has come. It waits no more, and its key may be another's.
    pub fn pop_due(&mut self, now: u64) -> Option<usize>
        ensures lacks { self.new.lacks ≡ self.old.lacks }
        ensures same { SamePace self.old self.new }
    {
        if self.first()? > now {
            return None;
        }
        Some(self.waiting.pop_first()?.1)
    }

    /// How often one has begun to wait. It is told once.
    pub fn take_times(&mut self) -> u64
        ensures told { result ≡ self.old.times }
        ensures none { self.new.times ≡ 0 }
        ensures lacks { self.new.lacks ≡ self.old.lacks }
        ensures pace { self.new.pace ≡ self.old.pace }
    {
        mem::replace(&mut self.times, 0)
    }
}

impl Pace {
    ghost use Rattle.loop_rules.specs.Paces.{may_bring, taken};

    /// What an allowance lacks once so many events have come, if they may.
    fn taken(self, old: Option<Lack>, count: u64, now: u64) -> Option<Lack>
        ensures taken { IfSome result (λ lack. Some lack ≡ taken self count now old) }
        ensures may { OnSome result (may_bring self count now old ≡ true) }
        ensures refused { result ≡ None → may_bring self count now old ≡ false }
    {
        let (lacks, since) = (1_000 * u128::from(count), now);
        let Some(lack) = old else {
            return Some(Lack { lacks, since });
        };
        let left = lack.left(self.rate, now);
        if left <= self.spare(count) {
            let lacks = left + lacks;
            return Some(Lack { lacks, since });
        }
        if now.saturating_sub(lack.since) < self.stretch {
            return None;
        }
        Some(Lack { lacks, since })
    }
}
