//! What was found for the newest few questions, which stays right while nothing changes.

ghost use Rattle.std.specs.Prelude.{◌≡◌, ◌⊎◌, ℕ, None, Some, IfSome, option_copied};
ghost use Rattle.room_maps.specs.Remembered.{remembered};

use std::alloc::Global;
use std::collections::HashMap;

/// How many answers are remembered.
const MOST: usize = 128;

/// How many numbers are kept that were missed: a prime, so that each of their digits counts.
const MISSED: usize = 127;

/// Answers by a number that is made of their questions. Questions may share one, so whoever asks
/// compares the question itself.
#[derive(Drop)]
pub struct Remembered<A> {
    answers: HashMap<u128, A>,
    /// The numbers that were missed last, each at its remainder.
    missed: [u128; MISSED],
}

impl<A: Drop> Remembered<A> {
    /// Nothing is remembered.
    pub fn new(alloc: Global) -> Remembered<A>
        ensures { (k : ℕ) → remembered result k ≡ None }
    {
        Remembered {
            answers: HashMap::new(alloc),
            missed: [0; MISSED],
        }
    }

    /// The answer with a number.
    pub fn get(&self, number: u128) -> Option<&A>
        ensures { option_copied result ≡ remembered self.now number }
    {
        self.answers.get(&number)
    }

    /// Notes that an answer is missed. Answers whether it was missed not long ago: so what is asked
    /// for once alone isn't remembered.
    pub fn miss(&mut self, number: u128) -> bool
        ensures { (k : ℕ) → remembered self.new k ≡ remembered self.old k }
    {
        let at = (number % MISSED as u128) as usize;
        let again = self.missed[at] == number;
        self.missed[at] = number;
        again
    }

    /// Remembers an answer, where there is memory for it. Where there are many, the others are
    /// forgotten.
    pub fn put(&mut self, number: u128, answer: A)
        ensures { (k : ℕ) → IfSome (remembered self.new k)
            (λ a. (a ≡ answer) ⊎ (remembered self.old k ≡ Some a)) }
    {
        if self.answers.len() >= MOST {
            self.answers.clear();
        }
        let _ = self.answers.insert(number, answer);
    }

    /// Forgets all.
    pub fn forget(&mut self)
        ensures { (k : ℕ) → remembered self.new k ≡ None }
    {
        self.answers.clear();
    }
}
