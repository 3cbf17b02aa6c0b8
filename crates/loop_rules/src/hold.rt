//! The events that the core gets under one hold of its lock, and their answers.

ghost use Rattle.std.specs.Prelude.{◌≡◌, ◌++◌, ◌∷◌, [], false, None, IfOk, ◌+◌, ◌≤◌, cond, is_some};
ghost use Rattle.loop_rules.specs.Holds as holds;
ghost use Rattle.std.specs.VecDeque.{deque_capacity, deque_len};
ghost use Rattle.loop_rules.specs.Holds.{PlainHold};

use std::alloc::{AllocError, Global};
use std::collections::VecDeque;
use std::marker::Model;

/// Events for one hold of a lock, each with what it is of, and their answers. Each is handed out
/// once, in the order in which they were added, and its answer is told of nothing else.
#[derive(Drop)]
pub struct Hold<O, E, A> {
    brought: VecDeque<(O, E)>,
    /// What the event is of that was handed out, and isn't answered.
    asked: Option<O>,
    heard: VecDeque<(O, A)>,
    /// How many events there may be.
    most: usize,
}

impl<O, E, A> Model for Hold<O, E, A> {
    ghost Value = { PlainHold O E A };

    ghost view = { λ h. record {
      brought = h.brought.items;
      asked = h.asked;
      heard = h.heard.items;
      most = h.most;
    } };

    ghost invariant = { λ h. (deque_len h.brought + cond (is_some h.asked) 1 0 + deque_len h.heard
        ≤ h.most)
        × (h.most ≤ deque_capacity h.brought) × (h.most ≤ deque_capacity h.heard) };
}

impl<O: Drop, E: Drop, A: Drop> Hold<O, E, A> {
    /// There are none, and may be so many.
    pub fn new(alloc: Global, most: usize) -> Result<Hold<O, E, A>, AllocError>
        ensures { IfOk result (λ hold. hold ≡ holds.nothing_held most) }
    {
        Ok(Hold {
            brought: VecDeque::with_capacity(alloc, most)?,
            asked: None,
            heard: VecDeque::with_capacity(alloc, most)?,
            most,
        })
    }

    /// Whether there are as many as there may be, those that are answered among them.
    pub fn is_full(&self) -> bool
        ensures { result ≡ holds.is_full self.now }
    {
        let asked = if self.asked.is_some() { 1 } else { 0 };
        self.brought.len() + asked + self.heard.len() >= self.most
    }

    /// An event is to be handed out after those that are there.
    pub fn add(&mut self, of: O, event: E)
        requires { holds.is_full self.old ≡ false }
        ensures { self.new
            ≡ record self.old { brought = self.old.brought ++ (of, event) ∷ [] } }
    {
        self.brought.push_back_reserved((of, event));
    }

    /// Whether an event wasn't handed out yet.
    pub fn has_next(&self) -> bool
        ensures { result ≡ holds.has_next self.now }
    {
        !self.brought.is_empty()
    }

    /// Hands the first event out, unless one isn't answered yet.
    pub fn next(&mut self) -> Option<E>
        ensures event { result ≡ holds.next_of self.old.asked self.old.brought }
        ensures state { self.new ≡ holds.after_next self.old.asked self.old.brought self.old }
    {
        if self.asked.is_some() {
            return None;
        }
        let (of, event) = self.brought.pop_front()?;
        self.asked = Some(of);
        Some(event)
    }

    /// The event that was handed out was answered by this.
    pub fn hear(&mut self, answer: A)
        ensures { self.new ≡ holds.after_answer self.old.asked answer self.old }
    {
        if let Some(of) = self.asked.take() {
            self.heard.push_back_reserved((of, answer));
        }
    }

    /// The event that was handed out is answered, which somebody else tells: what it was of.
    pub fn forget(&mut self) -> Option<O>
        ensures asked { result ≡ self.old.asked }
        ensures state { self.new ≡ record self.old { asked = None } }
    {
        self.asked.take()
    }

    /// The first answer that wasn't told yet, with what its event was of.
    pub fn pop(&mut self) -> Option<(O, A)>
        ensures first { result ≡ holds.first_heard self.old.heard }
        ensures state { self.new
            ≡ record self.old { heard = holds.later_heard self.old.heard } }
    {
        self.heard.pop_front()
    }
}
