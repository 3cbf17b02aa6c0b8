//! The warden: a peer with a client of its own, which is told who came with a token that expires,
//! and ends the sockets of tokens that have expired.

ghost use Rattle.std.specs.Prelude.{◌≡◌, [], IfOk};
ghost use Rattle.tcp_server.specs.Progress as progress;

use crate::keeper::note_lists;
use crate::wards::{Wards, event_of, told_in};
use events::{Answered, CoreFault, Event, Frames, Outcome, Peer, PeerFault};
use guarded::Deadlines;
use loop_rules::Notes;
use peers::Moments;
use settings::Warding;
use std::alloc::AllocError;
use std::mem;
use std::rt::Clock;
use std::sync::Wait;
use std::time::Duration;
use tcp_loops::{Base, Watch};
use tcp_streams::{Log, News};

/// How long it waits where nothing has come, in milliseconds.
const PAUSE: u64 = 100;

/// How often it looks who is to be ended, in milliseconds.
const ROUND: u64 = 1_000;

/// How many sockets it ends at a stretch.
const ENDS: usize = 256;

/// What it does next with its client.
#[derive(Clone, Copy)]
pub(crate) enum Stage {
    /// It opens one.
    Opens,
    /// It joins its namespace.
    Joins,
    /// It takes what it is told.
    Takes,
    /// It answers a ping.
    Answers,
    /// It ends the last socket of those that are due.
    Ends,
}

/// What the answer to an event says to it.
#[derive(Clone, Copy)]
pub(crate) enum Heard {
    /// This client was opened for it.
    Opened(u128),
    /// It took what there was, a ping among it or not. More waits behind that or not.
    Took { ping: bool, more: bool },
    /// Its packet was worked on.
    Worked,
    /// Its client is gone.
    Lost,
    /// Its event was refused.
    Refused,
    /// It was answered otherwise.
    Other,
}

/// What it does about an answer, before it goes on.
#[derive(Clone, Copy)]
pub(crate) enum Task {
    /// It looks who is to be ended.
    Looks,
    /// It strikes off the last one of those that are due.
    Strikes,
    /// It tells that it has begun, from which on connections are accepted.
    Begins,
    /// It tells the log that its client is lost.
    TellsLoss,
    /// It has each loop look at all of its connections.
    WakesAll,
}

impl Heard {
    /// What this answer says.
    #[tactic(auto, using(crate::proofs::ProgressLemmas::has_ping_of_taken))]
    pub(crate) fn of(got: &Answered) -> Heard
        ensures { result ≡ progress.heard got.now }
    {
        match got {
            Ok(Outcome::Opened(opening)) => Heard::Opened(opening.client),
            Ok(Outcome::Frames(frames)) => Heard::Took {
                ping: frames.parts().0,
                more: frames.has_more(),
            },
            Ok(Outcome::Nothing) => Heard::Took {
                ping: false,
                more: false,
            },
            Ok(Outcome::Done(done)) if done.closed.is_some() => Heard::Lost,
            Ok(Outcome::Done(_)) => Heard::Worked,
            Ok(_) => Heard::Other,
            Err(error) if matches!(error.fault, CoreFault::UnknownClient) => Heard::Lost,
            Err(_) => Heard::Refused,
        }
    }
}

/// How far it is.
#[derive(Clone, Copy)]
pub(crate) struct Progress {
    pub(crate) client: u128,
    pub(crate) stage: Stage,
    /// It waits before it goes on.
    pub(crate) rests: bool,
    /// It has joined its namespace once.
    pub(crate) begun: bool,
    /// The moment at which it looks next who is to be ended.
    pub(crate) look: u64,
}

/// Whether it ends no more at a stretch: what it is told of each mustn't fill its outbox.
pub(crate) fn ends_stretch(due: usize) -> bool
    ensures { result ≡ progress.ends_stretch due }
{
    due % ENDS == 0
}

impl Progress {
    /// What it does now about an answer, if anything.
    pub(crate) fn task(self, heard: Heard, now: u64) -> Option<Task>
        ensures { result ≡ progress.task heard now self }
    {
        match (heard, self.stage) {
            (Heard::Took { ping, more }, _) => {
                (!ping && !more && now >= self.look).then_some(Task::Looks)
            }
            (Heard::Worked, Stage::Ends) => Some(Task::Strikes),
            (Heard::Worked, Stage::Joins) => (!self.begun).then_some(Task::Begins),
            (Heard::Lost, _) => self.begun.then_some(Task::TellsLoss),
            (Heard::Refused, _) => Some(Task::WakesAll),
            _ => None,
        }
    }

    /// How far it is once it has done that, where so many are due then. Where it has looked, or
    /// needn't yet, it ends who is to be, and else waits for what it is told.
    pub(crate) fn after(self, heard: Heard, due: usize, now: u64) -> Progress
        ensures { result ≡ progress.after heard due now self }
    {
        let mut next = self;
        match (heard, self.stage) {
            (Heard::Opened(client), _) => {
                next.client = client;
                next.stage = Stage::Joins;
            }
            (Heard::Took { ping: true, .. }, _) => next.stage = Stage::Answers,
            (Heard::Took { more: true, .. }, _) => {}
            (Heard::Took { .. }, _) => {
                if now >= self.look {
                    next.look = now.saturating_add(ROUND);
                }
                next.stage = Stage::Ends;
                if due == 0 {
                    next.rests = true;
                    next.stage = Stage::Takes;
                }
            }
            (Heard::Worked, Stage::Ends) if !ends_stretch(due) => {}
            (Heard::Worked, Stage::Joins) => {
                next.begun = true;
                next.stage = Stage::Takes;
            }
            (Heard::Worked, _) => next.stage = Stage::Takes,
            (Heard::Lost, _) => {
                next.rests = true;
                next.stage = Stage::Opens;
            }
            (Heard::Refused | Heard::Other, _) => next.rests = true,
        }
        next
    }
}

/// Ends the sockets of tokens that have expired.
#[derive(Drop)]
pub(crate) struct Warden<'a, R, L> {
    base: &'a Base<'a, R, L>,
    watch: Watch<R>,
    warding: &'a Warding,
    progress: Progress,
    wards: Wards,
    /// The clients for which something was put.
    notes: Notes,
}

impl<'a, R: Wait + Clock + Copy, L: Log> Warden<'a, R, L> {
    /// It has no client yet, and nobody came.
    pub(crate) fn new(base: &'a Base<'a, R, L>, warding: &'a Warding) -> Result<Self, AllocError>
        ensures progress { IfOk result (λ warden. warden.progress ≡ progress.at_first) }
        ensures nobody { IfOk result (λ warden. warden.wards.deadlines ≡ []) }
        ensures due { IfOk result (λ warden. warden.wards.due.items ≡ []) }
    {
        Ok(Warden {
            base,
            watch: base.watch,
            warding,
            progress: Progress {
                client: 0,
                stage: Stage::Opens,
                rests: false,
                begun: false,
                look: 0,
            },
            wards: Wards {
                deadlines: Deadlines::new(base.alloc),
                due: Vec::new(base.alloc),
            },
            notes: Notes::new(base.alloc, base.rules.loops)?,
        })
    }

    /// Notes what it is told by frames. What there is no memory for isn't known. Where a session
    /// has come back, it looks as soon as it has taken all.
    fn read(&mut self, frames: &Frames, now: u64) {
        let (alloc, until) = (self.base.alloc, now.saturating_add(self.base.rules.keep));
        for entry in frames.parts().1 {
            if let Ok(Some(told)) = told_in(alloc, entry.text.as_str()) {
                if let Ok(true) = self.wards.note(told, until) {
                    self.progress.look = now;
                }
            }
        }
    }
}

impl<R: Wait + Clock + Copy, L: Log> Peer for Warden<'_, R, L> {
    /// Before it rests, the loops are told whom the last events concern. Where there is no memory
    /// for an event, it tries again a little later.
    fn next(&mut self) -> Result<Option<(Event, u64)>, PeerFault> {
        let (base, token) = (self.base, self.warding.token.as_str());
        let (loops, pause) = (base.rules.loops, Duration::from_millis(PAUSE));
        for _ in 0..u64::MAX {
            if mem::replace(&mut self.progress.rests, false) {
                base.send(&mut self.notes);
                if base.shared.ended.wait_for(base.rt, loops, pause) {
                    return Ok(None);
                }
            }
            let due = self.wards.due.as_slice();
            if let Ok(event) = event_of(base.alloc, self.progress, token, due) {
                return Ok(Some((event, self.watch.now())));
            }
            self.progress.rests = true;
        }
        Ok(None)
    }

    fn answer(&mut self, got: &Answered) -> Result<(), PeerFault> {
        let (base, heard, now) = (self.base, Heard::of(got), self.watch.now());
        match got {
            Ok(Outcome::Frames(frames)) => self.read(frames, now),
            Ok(Outcome::Done(done)) if matches!(heard, Heard::Worked) => {
                note_lists(&mut self.notes, done.clients.lists(), base.rules.loops);
            }
            _ => {}
        }
        match self.progress.task(heard, now) {
            Some(Task::Looks) => self.wards.look(base.alloc, self.warding.began, now),
            Some(Task::Strikes) => {
                if self.wards.strike(now.saturating_add(base.rules.keep)) {
                    base.send(&mut self.notes);
                }
            }
            Some(Task::Begins) => base.shared.begun.note(base.rt),
            Some(Task::TellsLoss) => base.log.tell(News::WardenLost),
            Some(Task::WakesAll) => self.notes.everyone = true,
            None => {}
        }
        let due = self.wards.due.len();
        self.progress = self.progress.after(heard, due, now);
        Ok(())
    }
}
