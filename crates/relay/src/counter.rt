//! Ids that count.

ghost use Rattle.std.specs.Prelude.{◌≡◌, ℕ};
ghost use Rattle.relay.specs.Counter.{counted_from};

use events::IdSource;
use std::marker::Model;

/// Gives the numbers from its first one on, each once, but for the greatest u128, at which it
/// stays. In a contract it is the number that comes next.
#[derive(Debug, Drop)]
pub struct Counter {
    next: u128,
}

impl Model for Counter {
    ghost Value = { ℕ };

    ghost view = { λ c. c.next };
}

impl Counter {
    /// A counter that has given nothing, and begins at 1.
    pub fn new() -> Counter
        ensures { result ≡ 1 }
    {
        Counter::starting_at(1)
    }

    /// One that begins at this number.
    pub fn starting_at(first: u128) -> Counter
        ensures { result ≡ first }
    {
        Counter { next: first }
    }
}

impl IdSource for Counter {
    ghost stream = { λ next k. counted_from next k };

    fn draw(&mut self) -> u128 {
        let number = self.next;
        self.next = number.saturating_add(1);
        number
    }
}
