//! Whose clients aren't read, since what waits for their backend is much.

ghost use Rattle.std.specs.Prelude.{◌≡◌, ◌||◌, ◌&&◌, ◌≢◌, ℕ, None, Some};
ghost use Rattle.loop_rules.specs.Pressures.{is_low, is_much, holds, known, pressed_at, IsCalm};
ghost use Rattle.loop_rules.specs.Pressures.{IsSame};
ghost use Rattle.std.specs.Bool.{OnTrue, OnFalse};

use std::alloc::Global;
use std::collections::HashMap;

/// What waits for a client, and how much may: entries, and bytes.
#[derive(Clone, Copy, Debug, PartialEq, Eq)]
pub struct Backlog {
    pub entries: usize,
    pub bytes: usize,
    pub most_entries: usize,
    pub most_bytes: usize,
}

impl Backlog {
    /// Whether three quarters are taken of the places or of the bytes.
    pub fn is_much(self) -> bool
        ensures { result ≡ is_much self }
    {
        3 * (self.most_entries as u128) <= 4 * (self.entries as u128)
            || 3 * (self.most_bytes as u128) <= 4 * (self.bytes as u128)
    }

    /// Whether less than half of both is taken.
    pub fn is_low(self) -> bool
        ensures { result ≡ is_low self }
    {
        2 * (self.entries as u128) < self.most_entries as u128
            && 2 * (self.bytes as u128) < self.most_bytes as u128
    }
}

/// The backends that are pressed, as far as a loop knows, and its clients, by digits, a bit each:
/// those that a backend is told of, and those with which the ids of a client's sockets begin.
#[derive(Drop)]
pub struct Pressure {
    digits: HashMap<u128, u16>,
    /// The digits of the backends that are pressed.
    pressed: u16,
    /// The moment from which on some were.
    since: u64,
    /// How long clients aren't read at a stretch, in milliseconds.
    stretch: u64,
}

impl Pressure {
    /// No backend is pressed, and no client is known. Clients aren't read for so long at a stretch.
    pub fn new(alloc: Global, stretch: u64) -> Pressure
        ensures none { (c : ℕ) → known result c ≡ None }
        ensures calm { IsCalm stretch result }
    {
        Pressure {
            digits: HashMap::new(alloc),
            pressed: 0,
            since: 0,
            stretch,
        }
    }

    /// The digits of a client's sockets are these, if memory allows. One that isn't known is read.
    pub fn note(&mut self, client: u128, digits: u16) -> bool
        ensures noted { OnTrue result (known self.new client ≡ Some digits) }
        ensures kept { OnFalse result (known self.new client ≡ known self.old client) }
        ensures new { OnFalse result (known self.old client ≡ None) }
        ensures others { (c : ℕ) → c ≢ client → known self.new c ≡ known self.old c }
        ensures same { IsSame self.old self.new }
    {
        self.digits.insert(client, digits).is_ok()
    }

    /// A client is gone.
    pub fn forget(&mut self, client: u128)
        ensures gone { known self.new client ≡ None }
        ensures others { (c : ℕ) → c ≢ client → known self.new c ≡ known self.old c }
        ensures same { IsSame self.old self.new }
    {
        let _ = self.digits.remove(&client);
    }

    /// The backends of these digits are pressed now.
    pub fn press(&mut self, pressed: u16, now: u64)
        ensures { self.new ≡ pressed_at now pressed self.old }
    {
        if self.pressed == 0 {
            self.since = now;
        }
        self.pressed = pressed;
    }

    /// Whether a client isn't read: a backend of its sockets is pressed, and not for too long.
    pub fn holds(&self, client: u128, now: u64) -> bool
        ensures { result ≡ holds self.now client now }
    {
        if self.pressed == 0 || now.saturating_sub(self.since) >= self.stretch {
            return false;
        }
        let digits = self.digits.get(&client).copied();
        digits.is_some_and(|digits| digits & self.pressed != 0)
    }
}
