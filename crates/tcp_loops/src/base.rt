//! What all workers go by, and how they tell the time.

ghost use Rattle.std.specs.Prelude.{◌≡◌, ◌≢◌, ℕ, IfNone, false, nat_eq, slice_get};
ghost use Rattle.std.specs.Arc.{arc_value};
ghost use Rattle.std.specs.HashMap.{get};
ghost use Rattle.tcp_loops.specs.Fates as fates;
ghost use Rattle.tcp_loops.specs.Watch.{told_last};
ghost use Rattle.tcp_streams.specs.Shown.{ShowsNothing};

use events::Answered;
use loop_rules::{Concern, Notes};
use peers::Moments;
use std::alloc::Global;
use std::collections::HashMap;
use std::mem;
use std::rt::Clock;
use std::sync::{Arc, Wait};
use std::time::Instant;
use tcp_streams::{Ending, Log, News, Rules, Shared, Shown};

/// Counts the milliseconds since the server began. Where the clock can't be read, the last moment
/// is told again.
#[derive(Clone, Copy, Drop)]
pub struct Watch<R> {
    rt: R,
    start: Instant,
    last: u64,
}

impl<R: Clock> Watch<R> {
    /// The moment 0 was this instant.
    pub fn new(rt: R, start: Instant) -> Watch<R>
        ensures { told_last result ≡ 0 }
    {
        Watch { rt, start, last: 0 }
    }
}

impl<R: Clock> Moments for Watch<R> {
    ghost use Rattle.std.specs.Prelude.{◌≡◌};

    ghost gives = { λ _ now watch. now ≡ watch.last };

    ghost pauses = { λ old new. new ≡ old };

    fn now(&mut self) -> u64 {
        if let Ok(passed) = self.start.elapsed(&self.rt) {
            self.last = u64::try_from(passed.as_millis()).unwrap_or(u64::MAX);
        }
        self.last
    }

    /// A loop waits for all of its connections at once, never here.
    fn pause(&mut self) {}
}

/// What became of a client.
#[derive(Clone, Copy, Debug)]
pub enum Fate {
    /// It was opened, over a WebSocket or not.
    Opened { socket: bool },
    /// It has come over to its WebSocket.
    ComesOver,
    Ended(Ending),
}

impl Fate {
    /// What the answer to an event that concerns a client so makes of it; over a WebSocket or not.
    pub fn of(got: &Answered, concern: Concern, socket: bool) -> Option<Fate>
        ensures { result ≡ fates.fate_of concern socket got.now }
    {
        match concern {
            Concern::Opens => Some(Fate::Opened { socket }),
            Concern::ComesOver => Some(Fate::ComesOver),
            Concern::Ends | Concern::Gone { .. } => Some(Fate::Ended(Ending::of(got)?)),
            _ => None,
        }
    }
}

/// This became of a client, of which is known since when it is there, and whether over a WebSocket.
/// Answers that of one that has ended. Of one that there is no memory for nothing is told.
fn note_life(
    lives: &mut HashMap<u128, (u64, bool)>,
    client: u128,
    fate: Fate,
    now: u64,
) -> Option<(u64, bool)>
    ensures life { fates.Becomes fate now (get nat_eq lives.old client)
        (get nat_eq lives.new client) }
    ensures ended { result ≡ fates.life_ended fate (get nat_eq lives.old client) }
    ensures others { (c : ℕ) → c ≢ client → get nat_eq lives.new c ≡ get nat_eq lives.old c }
{
    match fate {
        Fate::Opened { socket } => {
            let _ = lives.insert(client, (now, socket));
            None
        }
        Fate::ComesOver => {
            let (since, _) = lives.get(&client).copied()?;
            let _ = lives.insert(client, (since, true));
            None
        }
        Fate::Ended(_) => lives.remove(&client),
    }
}

/// What all workers go by: through it a loop, or the keeper, speaks to the others.
#[derive(Drop)]
pub struct Base<'a, R, L> {
    pub rt: &'a R,
    pub alloc: Global,
    pub log: &'a L,
    pub shared: &'a Arc<Shared>,
    pub rules: &'a Rules,
    /// Each worker has one as it is here.
    pub watch: Watch<R>,
}

impl<R: Wait, L: Log> Base<'_, R, L> {
    /// Tells each loop of its clients that were noted.
    pub fn send(&self, notes: &mut Notes)
        ensures { notes.new.everyone ≡ false }
    {
        if mem::replace(&mut notes.everyone, false) {
            self.shared.wake_everyone(self.rt);
        }
        let inboxes = self.shared.inboxes.iter();
        for (inbox, list) in inboxes.zip(notes.lists.iter_mut()) {
            if !list.is_empty() {
                inbox.put(self.rt, |mailbox| mailbox.wake(list.as_slice()));
                list.clear();
            }
        }
    }

    /// Takes what the last events of a worker showed, and leaves this in its place, of which all
    /// was heeded. To one that has no place nothing was shown. Where a backend is pressed no more,
    /// each loop looks at all of its connections.
    pub fn take_shown(&self, worker: usize, shown: &mut Shown)
        ensures { IfNone (slice_get (arc_value self.now.shared.now).showing.items worker)
            (ShowsNothing shown.new) }
    {
        shown.clear();
        if let Some(place) = self.shared.showing.get(worker) {
            mem::swap(&mut *place.lock(self.rt), shown);
        }
        if shown.relieved {
            self.shared.wake_everyone(self.rt);
        }
    }

    /// This became of a client. The log is told of its end.
    pub fn note(&self, client: u128, fate: Fate, now: u64) {
        let Some(lives) = &self.shared.lives else {
            return;
        };
        let life = note_life(&mut *lives.lock(self.rt), client, fate, now);
        if let (Some((since, socket)), Fate::Ended(ending)) = (life, fate) {
            let lived = now.saturating_sub(since);
            self.log.tell(News::Ended {
                client,
                socket,
                ending,
                lived,
            });
        }
    }
}
