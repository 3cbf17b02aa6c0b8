//! Which connections of a loop have something to do, and who is woken where something was put.

ghost use Rattle.std.specs.Prelude.{◌≡◌, ◌+◌, ◌≤◌, ◌<◌, ◌↔◌, true, false, ℕ, IsTrue, length, ◌≢◌};
ghost use Rattle.std.specs.Prelude.{◌⊎◌, None, Some, IfOk, [], map, slice_index_or, vec_len, ◌%◌};
ghost use Rattle.std.specs.VecDeque.{DequeUnchanged, deque_capacity};
ghost use Rattle.loop_rules.specs.Looks.{is_queued};
ghost use Rattle.loop_rules.specs.Rotas as rotas;
ghost use Rattle.loop_rules.specs.Rotas.{IsQuiet, has_stint, look_of, will_look, will_take, nobody};
ghost use Rattle.loop_rules.specs.Decisions.{left_after};
ghost use Rattle.loop_rules.specs.Notes.{is_noted};
ghost use Rattle.loop_rules.specs.Rosters.{AreTold, IsWoken, Keeps, Remembers, woken_at};
ghost use Rattle.loop_rules.specs.Takers.{taker_of, is_taker};
ghost use Rattle.loop_rules.specs.Ids.{loop_of, marked};
ghost use Rattle.loop_rules.specs.Owners.{owner_among};

use crate::looks::{Decision, Found, LookState, Pause};
use http_edge::Target;
use std::alloc::{AllocError, Global};
use std::collections::{HashMap, VecDeque};
use std::marker::Model;

/// Which connections of a loop have something to do, by their keys, and whose stint is next. A key
/// stands in the queue once where its connection is called or goes on with its look, and else not;
/// all fit into the queue, so that no wake needs memory.
#[derive(Drop)]
pub struct Rota {
    looks: Vec<LookState>,
    /// Those that have their stint in this round of the loop.
    ready: VecDeque<usize>,
    /// Those that have more to do in the loop's next round.
    again: VecDeque<usize>,
}

impl Model for Rota {
    ghost use Rattle.std.specs.Prelude.{◌+◌, ◌++◌};
    ghost use Rattle.std.specs.VecDeque.{deque_capacity, deque_len};
    ghost use Rattle.loop_rules.specs.Rotas.{Waiting, IsOrderly};

    ghost Value = { Waiting };

    ghost view = { λ r. record { looks = r.looks.items; ready = r.ready.items; again = r.again.items } };

    ghost invariant = { λ r. IsOrderly r.looks.items (r.ready.items ++ r.again.items)
        (deque_len r.ready + deque_len r.again) (deque_capacity r.ready) (deque_capacity r.again) };
}

/// Makes sure that so many keys fit into a queue. Answers whether there was memory for that.
fn reserve(queue: &mut VecDeque<usize>, most: usize) -> bool
    ensures same { DequeUnchanged queue.old queue.new }
    ensures kept { deque_capacity queue.old ≤ deque_capacity queue.new }
    ensures fits { IsTrue result → most ≤ deque_capacity queue.new }
{
    let more = most.saturating_sub(queue.len());
    queue.reserve(more).is_ok()
}

impl Rota {
    /// There is no connection yet.
    pub fn new(alloc: Global) -> Rota
        ensures { result ≡ rotas.nobody }
    {
        Rota {
            looks: Vec::new(alloc),
            ready: VecDeque::new(alloc),
            again: VecDeque::new(alloc),
        }
    }

    /// How the connection with this key stands.
    pub fn look(&self, key: usize) -> LookState
        ensures { result ≡ look_of self.now.looks key }
    {
        self.looks.get(key).copied().unwrap_or(LookState::Rests)
    }

    /// Adds a connection with this key, at most one above all others. Answers if memory allows.
    pub fn admit(&mut self, key: usize) -> bool
        ensures known { IsTrue result → key < length self.new.looks }
        ensures long { length self.new.looks ≤ length self.old.looks + 1 }
        ensures same { (k : ℕ) → look_of self.new.looks k ≡ look_of self.old.looks k }
        ensures queues { (self.new.ready ≡ self.old.ready) × (self.new.again ≡ self.old.again) }
        ensures still { key < length self.old.looks → (result ≡ true) × (self.new ≡ self.old) }
        ensures refused { result ≡ false → self.new ≡ self.old }
    {
        let count = self.looks.len();
        if key != count {
            return key < count;
        }
        let most = count.saturating_add(1);
        if !reserve(&mut self.ready, most) || !reserve(&mut self.again, most) {
            return false;
        }
        self.looks.push(LookState::Rests).is_ok()
    }

    /// The connection with this key is gone. If the key stands in the queue, it stays there.
    pub fn dismiss(&mut self, key: usize)
        ensures { self.new ≡ rotas.dismissed_at key self.old }
    {
        if key < self.looks.len() && !self.looks[key].is_queued() {
            self.looks[key] = LookState::Rests;
        }
    }

    /// Something came for this connection: it stands in the queue, or looks once more in its stint.
    pub fn call(&mut self, key: usize)
        ensures state { self.new ≡ rotas.called_at key self.old }
        ensures looks { key < length self.old.looks
            → will_look (look_of self.new.looks key) ≡ true }
    {
        if key < self.looks.len() && self.looks[key].call() {
            self.ready.push_back_reserved(key);
        }
    }

    /// Something was put for the client of this connection, which is called, unless its look takes it.
    pub fn wake(&mut self, key: usize)
        ensures state { self.new ≡ rotas.put_for_at key self.old }
        ensures takes { key < length self.old.looks
            → will_take (look_of self.new.looks key) ≡ true }
    {
        if !self.look(key).takes_yet() {
            self.call(key);
        }
    }

    /// Something may have come for each connection.
    pub fn call_all(&mut self)
        ensures looks { (k : ℕ) → k < length self.old.looks
            → will_look (look_of self.new.looks k) ≡ true }
        ensures long { length self.new.looks ≡ length self.old.looks }
        ensures state { self.new ≡ rotas.called_below (length self.old.looks) self.old }
    {
        for key in 0..self.looks.len() {
            self.call(key);
        }
    }

    /// The stint of the first one begins.
    pub fn pop(&mut self) -> Option<usize>
        ensures first { result ≡ rotas.next_of self.old.ready }
        ensures state { self.new ≡ rotas.begun_at self.old.ready self.old }
    {
        let key = self.ready.pop_front()?;
        self.looks[key].begin();
        Some(key)
    }

    /// How the connection stands whose stint it is, if this is its key.
    fn stint_of(&self, key: usize) -> Option<LookState>
        ensures { result ≡ rotas.stint_of (look_of self.now.looks key) }
    {
        let look = self.look(key);
        matches!(look, LookState::Looks { .. } | LookState::Stirred { .. }).then_some(look)
    }

    /// The connection whose stint it is stands so from now on.
    fn put_back(&mut self, key: usize, look: LookState)
        requires { has_stint (look_of self.old.looks key) ≡ true }
        ensures { self.new ≡ rotas.left_so key look self.old }
    {
        self.looks[key] = look;
        if look.is_queued() {
            self.again.push_back_reserved(key);
        }
    }

    /// An event was answered in the stint of this connection, of which so many are left. Answers
    /// what follows, where it has much unsent or not. Where it isn't its stint, it rests.
    pub fn follow(&mut self, key: usize, events: &mut u32, found: Found, full: bool) -> Decision
        ensures decision { result ≡ rotas.decision_at key events.old found full self.old }
        ensures state { self.new ≡ rotas.followed_at key found result self.old }
        ensures left { events.new ≡ left_after events.old result }
    {
        let Some(mut look) = self.stint_of(key) else {
            return Decision::Rests;
        };
        let decision = look.follow(events, found, full);
        self.put_back(key, look);
        decision
    }

    /// The stint of this connection is over, and no event was answered last.
    pub fn pause(&mut self, key: usize, pause: Pause)
        ensures { self.new ≡ rotas.paused_at key pause self.old }
    {
        if let Some(mut look) = self.stint_of(key) {
            look.pause(pause);
            self.put_back(key, look);
        }
    }

    /// The next round of the loop begins.
    pub fn begin_round(&mut self)
        ensures { self.new ≡ rotas.next_round self.old }
    {
        // All fit.
        let _ = self.ready.append(&mut self.again);
    }

    /// Whether nobody has anything to do. Then nobody is called, or has more to look at.
    pub fn is_quiet(&self) -> bool
        ensures quiet { IsTrue result ↔ IsQuiet self.now }
        ensures nobody { IsTrue result → (k : ℕ) → is_queued (look_of self.now.looks k) ≡ false }
    {
        self.ready.is_empty() && self.again.is_empty()
    }
}

/// Clients of other loops for which something was put, until these loops are told of them.
#[derive(Drop)]
pub struct Notes {
    /// The clients of each loop.
    pub lists: Vec<Vec<u128>>,
    /// There was no memory to note one: each loop is to look at all of its connections.
    pub everyone: bool,
}

impl Notes {
    /// Nobody is noted yet, for so many loops.
    pub fn new(alloc: Global, loops: usize) -> Result<Notes, AllocError>
        ensures loops { IfOk result (λ notes. vec_len notes.lists ≡ loops) }
        ensures nobody { IfOk result (λ notes. notes.everyone ≡ false) }
        ensures none { IfOk result (λ notes. (n c : ℕ) → is_noted n c notes ≡ false) }
    {
        let mut lists = Vec::new(alloc);
        for _loop in 0..loops {
            lists.push(Vec::new(alloc))?;
        }
        let everyone = false;
        Ok(Notes { lists, everyone })
    }

    /// Notes a client of this loop; everybody, without memory or where there is no such loop.
    pub fn note(&mut self, number: usize, client: u128)
        ensures noted { is_noted number client self.new ≡ true }
        ensures kept { (n c : ℕ) → is_noted n c self.old ≡ true → is_noted n c self.new ≡ true }
        ensures long { vec_len self.new.lists ≡ vec_len self.old.lists }
    {
        let noted = match self.lists.get_mut(number) {
            Some(list) => list.push(client).is_ok(),
            None => false,
        };
        self.everyone |= !noted;
    }
}

/// To which connection what is put for a client goes, by their keys.
#[derive(Drop)]
pub struct Takers {
    keys: HashMap<u128, usize>,
    /// There was no memory to list one: what comes for a client that isn't listed may be for any.
    unlisted: bool,
}

impl Takers {
    /// The connection to which what is put for this client goes.
    pub fn of(&self, client: u128) -> Option<usize>
        ensures { result ≡ taker_of self.now client }
    {
        self.keys.get(&client).copied()
    }

    /// Whether what is put for this client goes to this connection.
    pub fn is_taker(&self, client: u128, key: usize) -> bool
        ensures { result ≡ is_taker (taker_of self.now client) key }
    {
        matches!(self.of(client), Some(taker) if taker == key)
    }

    /// What is put for this client goes to this connection from now on.
    pub fn list(&mut self, client: u128, key: usize)
        ensures listed { (taker_of self.new client ≡ Some key)
            ⊎ ((taker_of self.new client ≡ None) × (self.new.unlisted ≡ true)) }
        ensures unlisted { self.old.unlisted ≡ true → self.new.unlisted ≡ true }
        ensures others { (c : ℕ) → c ≢ client → taker_of self.new c ≡ taker_of self.old c }
        ensures same { taker_of self.new client ≡ Some key
            → self.new.unlisted ≡ self.old.unlisted }
        ensures known { taker_of self.old client ≢ None → taker_of self.new client ≡ Some key }
    {
        self.unlisted |= self.keys.insert(client, key).is_err();
    }

    /// Nothing that is put for this client goes to this connection any more.
    pub fn release(&mut self, client: u128, key: usize)
        ensures released { is_taker (taker_of self.new client) key ≡ false }
        ensures others { (c : ℕ) → c ≢ client → taker_of self.new c ≡ taker_of self.old c }
        ensures same { self.new.unlisted ≡ self.old.unlisted }
        ensures kept { is_taker (taker_of self.old client) key ≡ false → self.new ≡ self.old }
    {
        if self.is_taker(client, key) {
            let _ = self.keys.remove(&client);
        }
    }
}

/// The connections of a loop that have something to do, and the clients listed with theirs.
#[derive(Drop)]
pub struct Roster {
    pub rota: Rota,
    pub takers: Takers,
}

impl Roster {
    /// There is no connection yet, and no client is listed.
    pub fn new(alloc: Global) -> Roster
        ensures none { (c : ℕ) → taker_of result.takers c ≡ None }
        ensures all { result.takers.unlisted ≡ false }
        ensures rota { result.rota ≡ nobody }
    {
        let (keys, unlisted) = (HashMap::new(alloc), false);
        let (rota, takers) = (Rota::new(alloc), Takers { keys, unlisted });
        Roster { rota, takers }
    }

    /// Something was put for a client of this loop: the connection to which that goes is called, or
    /// all, where there was no memory to list some.
    pub fn wake(&mut self, client: u128)
        ensures woken { IsWoken (taker_of self.new.takers client)
            self.new.takers.unlisted self.new.rota.looks }
        ensures kept { Keeps self.old.rota.looks self.new.rota.looks }
        ensures same { self.new.takers ≡ self.old.takers }
        ensures rota { self.new.rota
            ≡ woken_at (taker_of self.old.takers client) self.old.takers.unlisted self.old.rota }
    {
        match self.takers.of(client) {
            Some(key) => self.rota.wake(key),
            None if self.takers.unlisted => self.rota.call_all(),
            None => {}
        }
    }

    /// An event put something for these clients: those of this loop are woken, others noted.
    pub fn wake_lists(&mut self, own: usize, loops: usize, lists: &[Vec<u128>], notes: &mut Notes)
        requires { 0 < loops }
        ensures remembers { Remembers self.old self.new notes.old notes.new }
        ensures told { (k : ℕ) → k < length lists.now →
            AreTold own loops (slice_index_or (map (λ ids. ids.items) lists.now) k [])
            self.new notes.new }
    {
        for list in lists {
            for client in list.as_slice() {
                let owner = loop_of(*client, loops);
                if owner == own {
                    self.wake(*client);
                } else {
                    notes.note(owner, *client);
                }
            }
        }
    }
}

/// Whether these are the same clients, list by list.
pub(crate) fn are_same(lists: &[Vec<u128>], others: &[Vec<u128>]) -> bool
    ensures { IsTrue result ↔ (map (λ ids. ids.items) lists.now ≡ map (λ ids. ids.items) others.now) }
{
    lists == others
}

/// The most loops that a server may have.
pub const LOOPS: u128 = 1_024;

/// An id whose ten low bits are the number of a loop; the others are those of two words.
pub fn marked(high: u64, low: u64, number: u128) -> u128
    requires { number < LOOPS }
    ensures value { result ≡ marked number high low }
    ensures own { result % LOOPS ≡ number }
{
    let drawn = (high as u128) * 18_446_744_073_709_551_616 + (low as u128);
    drawn / LOOPS * LOOPS + number
}

/// Which of so many loops has the client with this id.
pub fn loop_of(id: u128, loops: usize) -> usize
    requires { 0 < loops }
    ensures of { result ≡ loop_of id loops }
    ensures among { result < loops }
{
    (id % LOOPS) as usize % loops
}

/// The loop that serves a request that came to this one: the one that has its client.
pub fn owner_of(target: Target, loops: usize, own: usize) -> usize
    requires { 0 < loops }
    ensures { result ≡ owner_among loops own target }
{
    match target {
        Target::Poll(id) | Target::Post(id) | Target::ProbeSocket(id) => loop_of(id, loops),
        _ => own,
    }
}
