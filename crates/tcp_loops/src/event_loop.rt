//! A loop that serves many connections: one peer, which brings the events of all of their clients.

ghost use Rattle.std.specs.Prelude.{◌≡◌, ◌+◌, ◌<◌, ◌≤◌, ◌++◌, ◌∷◌, [], false, None, All, IfOk, IsSome, OnSome};
ghost use Rattle.loop_rules.specs.Concerns.{AreToldOf};
ghost use Rattle.loop_rules.specs.Holds as holds;
ghost use Rattle.loop_rules.specs.Rounds as rounds;
ghost use Rattle.tcp_loops.specs.Holding as holding;

use crate::base::Base;
use crate::driver::{Brought, Driver, Origin};
use events::{Answered, Event, Loss};
use loop_rules::Hold;
use peers::message_length;
use std::alloc::AllocError;
use std::rt::Clock;
use std::sync::Wait;
use tcp_streams::{Ears, Log};

/// How many events the core gets under one hold of its lock, at the most.
const EVENTS: usize = 32;

/// A message of more bytes is the last one of its hold, so that others get the lock, and no loop
/// has many of them at once.
const LARGE: usize = 16_384;

/// A loop over many connections. It gathers the events of all that have something to do, which the
/// core gets under one hold of its lock, and then hears the answers.
#[derive(Drop)]
pub struct EventLoop<'a, R, L> {
    hold: Hold<Origin, (Event, u64), Answered>,
    /// Answers to messages whose connections went on before that, until they are heard together.
    run: Vec<(usize, Answered)>,
    driver: Driver<'a, R, L>,
}

/// Whether an event brings packets.
fn says(event: &Event) -> bool
    ensures { result ≡ holding.says event.now }
{
    matches!(event, Event::Frame { .. } | Event::Post { .. })
}

/// Whether an event brings so many bytes of packets.
fn is_large(event: &Event) -> bool
    ensures { result ≡ holding.is_large event.now }
{
    match event {
        Event::Post { body, .. } => body.as_str().len() > LARGE,
        _ => matches!(message_length(event), Some(length) if length > LARGE),
    }
}

impl<'a, R: Wait + Clock + Copy + Drop, L: Log> EventLoop<'a, R, L> {
    /// A loop without connections.
    pub(crate) fn new(
        base: &'a Base<'a, R, L>,
        number: usize,
        ears: Ears,
    ) -> Result<Self, AllocError>
        ensures number { IfOk result (λ own. own.driver.number ≡ number) }
        ensures hold { IfOk result (λ own. own.hold ≡ holds.nothing_held 32) }
        ensures run { IfOk result (λ own. own.run.items ≡ []) }
    {
        Ok(EventLoop {
            hold: Hold::new(base.alloc, EVENTS)?,
            run: Vec::with_capacity(base.alloc, EVENTS)?,
            driver: Driver::new(base, number, ears, EVENTS)?,
        })
    }

    /// The next event, or none where the loop has ended.
    pub(crate) fn next(&mut self) -> Option<(Event, u64)>
        ensures { OnSome result (IsSome self.new.hold.asked) }
    {
        for _ in 0..u64::MAX {
            if let Some(brought) = self.hold.next() {
                return Some(brought);
            }
            self.hear_all();
            self.gather();
            if !self.hold.has_next() && !self.driver.turn() {
                break;
            }
        }
        self.driver.close_all();
        None
    }

    /// Whether another event was gathered.
    pub(crate) fn has_next(&self) -> bool
        ensures { result ≡ holds.has_next self.now.hold }
    {
        self.hold.has_next()
    }

    /// Its event was answered, which is heard once all were that were gathered with it.
    pub(crate) fn note(&mut self, got: Answered)
        ensures hold { self.new.hold ≡ holds.after_answer self.old.hold.asked got self.old.hold }
        ensures driver { self.new.driver ≡ self.old.driver }
    {
        self.hold.hear(got);
    }

    /// Its event was answered, which is heard at once.
    pub(crate) fn hear(&mut self, got: &Answered)
        ensures { self.new.hold ≡ record self.old.hold { asked = None } }
    {
        if let Some(of) = self.hold.forget() {
            self.driver.heed();
            self.driver.settle(of, got);
        }
    }

    /// Gathers what connections bring, in turn, for the next hold of the lock. Those whose stints go
    /// on come first, and while they bring packets others begin once a moment: so one take has what
    /// many messages put for a client.
    fn gather(&mut self)
        ensures few { holding.saying_count self.new.hold.brought
            ≤ holding.saying_count self.old.hold.brought
            + rounds.speaking_of 32 self.old.driver.round }
        ensures asked { self.new.hold.asked ≡ self.old.hold.asked }
        ensures heard { self.new.hold.heard ≡ self.old.hold.heard }
    {
        let round = self.driver.round;
        let room = (round.speaking(EVENTS), round.together(EVENTS));
        let left = self.collect(room, false);
        if self.driver.round.may_begin(left.0 < room.0) {
            let _left = self.collect(left, true);
        }
        if self.hold.is_full() {
            return;
        }
        if let Some(client) = self.driver.give_up() {
            let event = (Loss::new(client).event(), self.driver.round.now);
            self.hold.add(Origin::Loss { client }, event);
        }
    }

    /// Gathers events of connections whose stints go on, and then of others, if these may begin:
    /// so many that bring packets, and so many together. Answers how many there may be yet.
    fn collect(&mut self, room: (usize, usize), begins: bool) -> (usize, usize)
        ensures saying { holding.saying_count self.new.hold.brought + result.0
            ≤ holding.saying_count self.old.hold.brought + room.0 }
        ensures none { room.0 ≡ 0 → self.new ≡ self.old }
        ensures asked { self.new.hold.asked ≡ self.old.hold.asked }
        ensures heard { self.new.hold.heard ≡ self.old.hold.heard }
    {
        let (mut saying, mut left) = room;
        for _ in 0..u64::MAX {
            if left == 0 || saying == 0 || self.hold.is_full() {
                break;
            }
            let Some(key) = self.driver.next(begins) else {
                break;
            };
            if let Some(brought) = self.driver.drive(key) {
                saying = self.add(brought, saying);
                left -= 1;
            }
        }
        (saying, left)
    }

    /// Adds an event, where so many may be added that bring packets. Answers how many may be yet:
    /// after a large one none.
    fn add(&mut self, brought: Brought, saying: usize) -> usize
        requires room { holds.is_full self.old.hold ≡ false }
        requires some { 0 < saying }
        ensures added { self.new.hold ≡ record self.old.hold {
          brought = self.old.hold.brought ++ (brought.0, (brought.1, brought.2)) ∷ [];
        } }
        ensures left { result ≡ holding.left_after brought.1 saying }
    {
        let (of, event, moment) = brought;
        let left = match (says(&event), is_large(&event)) {
            (_, true) => 0,
            (true, _) => saying - 1,
            _ => saying,
        };
        self.hold.add(of, (event, moment));
        left
    }

    /// Hears the answers of the last hold.
    fn hear_all(&mut self)
        ensures asked { self.new.hold.asked ≡ self.old.hold.asked }
        ensures brought { self.new.hold.brought ≡ self.old.hold.brought }
        ensures run { self.old.run.items ≡ [] → self.new.run.items ≡ [] }
    {
        let Some((of, got)) = self.hold.pop() else {
            return;
        };
        self.driver.heed();
        self.hear_next(of, got);
        for _ in 0..EVENTS {
            let Some((of, got)) = self.hold.pop() else {
                break;
            };
            self.hear_next(of, got);
        }
        self.hear_run();
        self.driver.tell();
    }

    /// An event was answered that is of this. It is kept where it may be, else heard behind those
    /// that are kept.
    fn hear_next(&mut self, of: Origin, got: Answered)
        ensures run { holding.IsKeptOrNone of got self.old.run.items self.new.run.items }
        ensures hold { self.new.hold ≡ self.old.hold }
    {
        if let Some(got) = self.keep(of, got) {
            self.hear_run();
            self.settle(of, &got);
        }
    }

    /// An event was answered that is of this. No answer before it is kept: by this one a connection
    /// may come to rest, and those wake some.
    fn settle(&mut self, of: Origin, got: &Answered)
        requires { self.old.run.items ≡ [] }
        ensures run { self.new.run.items ≡ [] }
        ensures hold { self.new.hold ≡ self.old.hold }
    {
        self.driver.settle(of, got);
    }

    /// Keeps an answer to be heard with others, if its connection went on before that. Gives back
    /// what isn't kept: any other answer, and one for which there is no memory.
    fn keep(&mut self, of: Origin, got: Answered) -> Option<Answered>
        ensures kept { holding.IsKept of got result self.old.run.items self.new.run.items }
        ensures hold { self.new.hold ≡ self.old.hold }
        ensures driver { self.new.driver ≡ self.old.driver }
    {
        let Origin::Ahead { key } = of else {
            return Some(got);
        };
        let refused = self.run.push((key, got)).err()?;
        Some(refused.value.1)
    }

    /// Hears the answers that are kept.
    fn hear_run(&mut self)
        ensures told { All (λ of. AreToldOf self.old.driver.number
            self.old.driver.base.now.rules.now.loops of.1
            self.new.driver.connections.links.roster self.new.driver.notes) self.old.run.items }
        ensures run { self.new.run.items ≡ [] }
        ensures hold { self.new.hold ≡ self.old.hold }
    {
        self.driver.hear_run(self.run.as_slice());
        self.run.clear();
    }
}
