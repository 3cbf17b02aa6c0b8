//! Which connections a server accepts, how it deals them to its loops, and those that it refused.

ghost use Rattle.std.specs.Prelude.{◌≡◌, ◌⊎◌, ◌≤◌, ◌==◌, ◌++◌, ◌∷◌, [], length, ◌≢◌, ◌+◌, ◌-◌, ◌<◌};
ghost use Rattle.std.specs.Prelude.{ℕ, List};
ghost use Rattle.loop_rules.specs.Dealings as dealings;
ghost use Rattle.loop_rules.specs.Dealings.{later_of};
ghost use Rattle.std.specs.Bool.{OnTrue, OnFalse};
ghost use Rattle.loop_rules.specs.Addresses.{count_from};
ghost use Rattle.std.specs.VecDeque.{deque_len};

use std::alloc::Global;
use std::collections::{HashMap, VecDeque};
use std::marker::Model;

/// How many connections are open from each address, by a number for each.
#[derive(Drop)]
pub struct Addresses {
    counts: HashMap<u128, u64>,
    /// How many may be at a time.
    most: u64,
}

impl Addresses {
    /// None is open.
    pub fn new(alloc: Global, most: u64) -> Addresses
        ensures most { result.most ≡ most }
        ensures none { (a : ℕ) → count_from result a ≡ 0 }
    {
        let counts = HashMap::new(alloc);
        Addresses { counts, most }
    }

    fn count(&self, address: u128) -> u64
        ensures { result ≡ count_from self.now address }
    {
        self.counts.get(&address).copied().unwrap_or(0)
    }

    /// A connection has come. Answers whether it has a place, and memory allows to count it.
    pub fn admit(&mut self, address: u128) -> bool
        ensures place { OnTrue result (count_from self.old address < self.old.most) }
        ensures counted { OnTrue result
            (count_from self.new address ≡ count_from self.old address + 1) }
        ensures kept { OnFalse result (count_from self.new address ≡ count_from self.old address) }
        ensures refused { OnFalse result (0 < count_from self.old address
            → ¬ (count_from self.old address < self.old.most)) }
        ensures most { self.new.most ≡ self.old.most }
        ensures others { (a : ℕ) → a ≢ address → count_from self.new a ≡ count_from self.old a }
    {
        let count = self.count(address);
        count < self.most && self.counts.insert(address, count + 1).is_ok()
    }

    /// A connection from an address has ended.
    pub fn release(&mut self, address: u128)
        ensures left { count_from self.new address ≡ count_from self.old address - 1 }
        ensures most { self.new.most ≡ self.old.most }
        ensures others { (a : ℕ) → a ≢ address → count_from self.new a ≡ count_from self.old a }
    {
        let count = self.count(address);
        if count <= 1 {
            let _ = self.counts.remove(&address);
        } else {
            // It has a place, so that no memory is needed.
            let _ = self.counts.insert(address, count - 1);
        }
    }
}

/// How many connections may be open at a time, whatever the number of clients.
const LEAST_CONNECTIONS: u64 = 16;

/// How long a connection that was refused is kept, in milliseconds.
const REFUSED: u64 = 2_000;

/// How long one waits, where a connection could not be accepted.
const PAUSE: u64 = 20;

/// How the connections of a server are dealt: so many to each loop in turn.
#[derive(Clone, Copy)]
pub struct Dealing {
    /// How many more connections are accepted, if there is an end of them.
    pub left: Option<u64>,
    /// How many may be open at a time.
    pub most: u64,
    /// How many one loop is given before the next one is.
    pub together: u64,
    /// How many were given so far. It stays at the greatest u64.
    pub given: u64,
}

impl Dealing {
    /// Nothing was dealt yet, and there may be so many clients.
    pub fn new(left: Option<u64>, clients: u64, together: u64) -> Dealing
        ensures { result ≡ dealings.undealt left clients together }
    {
        Dealing {
            left,
            // One that waits and one that brings for each client, and some for those that come.
            most: clients.saturating_mul(2).max(LEAST_CONNECTIONS),
            together,
            given: 0,
        }
    }

    /// Whether as many were accepted as were to be.
    pub fn is_over(&self) -> bool
        ensures { result ≡ dealings.is_over self.now.left }
    {
        self.left == Some(0)
    }

    /// One more was accepted.
    pub fn accept(&mut self)
        ensures { self.new ≡ dealings.accepted self.old }
    {
        self.left = self.left.map(|left| left.saturating_sub(1));
    }

    /// The loop, of so many, that is given the next one.
    pub fn deal(&mut self, loops: usize) -> usize
        ensures to { result ≡ dealings.dealt_to loops self.old.together self.old.given }
        ensures given { self.new ≡ dealings.dealt self.old }
    {
        let rounds = self.given / self.together.max(1);
        self.given = self.given.saturating_add(1);
        rounds.checked_rem(loops as u64).unwrap_or(0) as usize
    }
}

/// How long who accepts waits, in milliseconds, if not until a connection comes: where none came,
/// until those that were refused are closed; where one could not be accepted, a little.
pub fn time_to_wait(none_came: bool, has_refused: bool) -> Option<u64>
    ensures { result ≡ dealings.time_to_wait none_came has_refused }
{
    match (none_came, has_refused) {
        (true, false) => None,
        (true, true) => Some(REFUSED),
        (false, _) => Some(PAUSE),
    }
}

/// How many are kept.
const MOST: usize = 256;

/// The last ones that were refused. They are closed a little later, since a stream that is closed
/// with bytes unread takes back what was sent. In a contract they are a list.
#[derive(Drop)]
pub struct Refused<S> {
    streams: VecDeque<S>,
}

impl<S> Model for Refused<S> {
    ghost Value = { List S };

    ghost view = { λ r. r.streams.items };

    ghost invariant = { λ r. deque_len r.streams ≤ 256 };
}

impl<S: Drop> Refused<S> {
    /// There are none.
    pub fn new(alloc: Global) -> Refused<S>
        ensures { result ≡ [] }
    {
        let streams = VecDeque::new(alloc);
        Refused { streams }
    }

    /// Whether there are none.
    pub fn is_empty(&self) -> bool
        ensures { result ≡ (length self.now == 0) }
    {
        self.streams.is_empty()
    }

    /// Keeps one more, if there is memory for it. Where there are many, the first one is closed.
    pub fn keep(&mut self, stream: S)
        ensures kept { (self.new ≡ later_of self.old ++ stream ∷ [])
            ⊎ (self.new ≡ later_of self.old) }
        ensures few { length self.new ≤ MOST }
    {
        if self.streams.len() >= MOST {
            let _ = self.streams.pop_front();
        }
        let _ = self.streams.push_back(stream);
    }

    /// All are closed.
    pub fn clear(&mut self)
        ensures { self.new ≡ [] }
    {
        self.streams.clear();
    }
}
