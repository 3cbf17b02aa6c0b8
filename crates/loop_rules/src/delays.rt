//! What is due at moments: GETs that are served later, and whose clients sent too fast.

ghost use Rattle.std.specs.Prelude.{◌≡◌, ◌≢◌, ◌⊎◌, [], ℕ, None, ◌≤◌, IsTrue};
ghost use Rattle.peers.specs.Noops.{served_from};
ghost use Rattle.loop_rules.specs.Delays as delays;
ghost use Rattle.loop_rules.specs.Moments as moments;
ghost use Rattle.loop_rules.specs.Delays.{told_at};

use crate::links::Links;
use http_edge::Target;
use peers::{is_recent, served_from};
use std::alloc::Global;
use std::collections::{HashMap, VecDeque};

/// GETs that are served a little later: their clients were told just so that nothing waits.
#[derive(Drop)]
pub struct Delays {
    /// When a client was last told so, by a lone noop packet.
    pub noops: HashMap<u128, u64>,
    /// Those that wait, each after its moment, in the order of these.
    pub waiting: VecDeque<(u64, usize)>,
}

impl Delays {
    /// Nobody was told, and nobody waits.
    pub fn new(alloc: Global) -> Delays
        ensures told { (c : ℕ) → told_at result c ≡ None }
        ensures waiting { result.waiting.items ≡ [] }
    {
        let (noops, waiting) = (HashMap::new(alloc), VecDeque::new(alloc));
        Delays { noops, waiting }
    }

    /// A client is told by a lone noop packet that nothing waits: noted if memory allows.
    pub fn note_noop(&mut self, client: u128, now: u64)
        ensures told { delays.IsTold now (told_at self.old client) (told_at self.new client) }
        ensures others { (c : ℕ) → c ≢ client → told_at self.new c ≡ told_at self.old c }
        ensures waiting { self.new.waiting ≡ self.old.waiting }
    {
        let _ = self.noops.insert(client, now);
    }

    /// Forgets who wasn't told just so.
    pub fn forget_old(&mut self, now: u64)
        ensures told { (c : ℕ) → told_at self.new c ≡ delays.if_recent now (told_at self.old c) }
        ensures waiting { self.new.waiting ≡ self.old.waiting }
    {
        self.noops.retain(|_, told| is_recent(*told, now));
    }

    /// From when on a request is served that came now: later, if so and memory allows, it waits.
    pub fn delay(&mut self, target: Target, key: usize, now: u64) -> u64
        ensures from { (result ≡ now) ⊎ (result ≡ delays.from_of self.old target now) }
        ensures waiting { delays.Waits now result key
            self.old.waiting.items self.new.waiting.items }
        ensures noops { self.new.noops ≡ self.old.noops }
    {
        let from = match target {
            Target::Poll(client) => served_from(self.noops.get(&client).copied(), now),
            _ => now,
        };
        let waits = from > now && self.waiting.push_back((from, key)).is_ok();
        if waits { from } else { now }
    }

    /// The moment of the first one that waits.
    pub fn first(&self) -> Option<u64>
        ensures { result ≡ delays.first_of self.now.waiting.items }
    {
        Some(self.waiting.front()?.0)
    }

    /// The first one, if its moment has come. It waits no more, and its key may be another's.
    pub fn pop_due(&mut self, now: u64) -> Option<usize>
        ensures due { result ≡ delays.due_of now self.old.waiting.items }
        ensures left { self.new.waiting.items ≡ delays.without_due now self.old.waiting.items }
        ensures noops { self.new.noops ≡ self.old.noops }
    {
        if self.first()? > now {
            return None;
        }
        Some(self.waiting.pop_front()?.1)
    }
}

impl Links {
    /// Whether nobody has anything to do, nor may one that is held be read on.
    pub fn is_quiet(&self) -> bool
        ensures { IsTrue result → moments.HasNothingToDo self.now }
    {
        self.receiving.next().is_none() && self.roster.rota.is_quiet()
    }

    /// The first moment at which something is due, or this one where that is earlier.
    pub fn first_due(&self, most: u64) -> u64
        ensures most { result ≤ most }
        ensures delays { moments.IsNotAfter result self.now.delays }
    {
        let due = self.delays.first().unwrap_or(most).min(most);
        let paced = self.paces.as_ref().and_then(|paces| paces.first());
        paced.unwrap_or(due).min(due)
    }

    /// Calls those whose moment has come.
    pub fn call_due(&mut self, now: u64)
        ensures links { self.new.links ≡ self.old.links }
        ensures takers { self.new.roster.takers ≡ self.old.roster.takers }
        ensures receiving { self.new.receiving ≡ self.old.receiving }
    {
        for _ in 0..usize::MAX {
            let due = match (self.delays.pop_due(now), &mut self.paces) {
                (None, Some(paces)) => paces.pop_due(now),
                (due, _) => due,
            };
            let Some(key) = due else {
                break;
            };
            self.roster.rota.call(key);
        }
    }

    /// A beat has come: who sent nothing lately, or wasn't told so, is forgotten. Answers how often
    /// one began to wait.
    pub fn forget_old(&mut self, now: u64) -> u64
        ensures pressure { self.new.pressure ≡ self.old.pressure }
        ensures links { self.new.links ≡ self.old.links }
        ensures roster { self.new.roster ≡ self.old.roster }
        ensures receiving { self.new.receiving ≡ self.old.receiving }
    {
        self.delays.forget_old(now);
        match &mut self.paces {
            Some(paces) => {
                paces.forget_full(now);
                paces.take_times()
            }
            None => 0,
        }
    }
}
