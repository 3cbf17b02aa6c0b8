//! What a loop does with its connections: whose stint it is, what they bring, and when it sleeps.

ghost use Rattle.std.specs.Prelude.{◌≡◌, ◌≤◌, ◌<◌, ◌/◌, false, true, [], IfOk, is_some};
ghost use Rattle.std.specs.Bool.{OnTrue};
ghost use Rattle.loop_rules.specs.Rotas as rotas;
ghost use Rattle.loop_rules.specs.Concerns.{AllWillLook};
ghost use Rattle.loop_rules.specs.Holding.{called_if};
ghost use Rattle.loop_rules.specs.Links as all;
ghost use Rattle.loop_rules.specs.Moments.{HasNothingToDo};
ghost use Rattle.loop_rules.specs.Rounds as rounds;
ghost use Rattle.loop_rules.specs.Sending.{others_of};
ghost use Rattle.tcp_loops.specs.Turns as turns;

use crate::base::{Base, Watch};
use crate::connections::Connections;
use crate::stream::Came;
use events::Event;
use loop_rules::{Do, Links, Mail, Notes, Pause, Pressure, Round, is_much_unsent};
use mio::Events;
use peers::Moments;
use std::alloc::{AllocError, Global};
use std::collections::VecDeque;
use std::mem;
use std::rt::Clock;
use std::sync::Wait;
use std::time::Duration;
use tcp_streams::{Accepted, Buffered, Ears, Handed, Inbox, Log, Shown, Stream};

/// How many reports of streams one wait takes.
const EVENTS: usize = 256;

/// The most new connections that one round of the loop adds. Where more wait, it doesn't sleep.
const STREAMS: usize = 256;

/// What an event is of that the loop brings.
#[derive(Clone, Copy)]
pub(crate) enum Origin {
    /// A connection in its stint. By the event its client may come over to it.
    Stint { key: usize, comes_over: bool },
    /// A connection that goes on before the answer to this message.
    Ahead { key: usize },
    /// A client that is given up, of which the core is told that it is lost.
    Loss { client: u128 },
}

/// An event at its moment, with what it is of.
pub(crate) type Brought = (Origin, Event, u64);

/// The connections of a loop, and all that it knows beside them.
#[derive(Drop)]
pub(crate) struct Driver<'a, R, L> {
    pub(crate) base: &'a Base<'a, R, L>,
    /// Which loop it is.
    pub(crate) number: usize,
    pub(crate) watch: Watch<R>,
    pub(crate) round: Round,
    pub(crate) ears: Ears,
    events: Events<Global>,
    pub(crate) connections: Connections<'a, R>,
    mail: Mail<Handed>,
    /// The clients of other loops, to be told once a round.
    pub(crate) notes: Notes,
    /// The connections whose stints go on, in order.
    active: VecDeque<usize>,
    /// What the last events showed.
    pub(crate) shown: Shown,
}

/// Streams are ready, as the last wait has told.
fn note_ready<R: Clock + Drop>(events: &Events<Global>, connections: &mut Connections<'_, R>) {
    for event in events.iter() {
        connections.note(event);
    }
}

impl<'a, R: Wait + Clock + Copy + Drop, L: Log> Driver<'a, R, L> {
    /// A loop without connections, of which so many may have their stint at once.
    pub(crate) fn new(
        base: &'a Base<'a, R, L>,
        number: usize,
        ears: Ears,
        most: usize,
    ) -> Result<Self, AllocError>
        ensures number { IfOk result (λ driver. driver.number ≡ number) }
        ensures round { IfOk result (λ driver. driver.round ≡ rounds.first) }
        ensures nobody { IfOk result (λ driver. driver.active.items ≡ []) }
        ensures share { IfOk result (λ driver. driver.connections.links.receiving.share
            ≡ base.now.rules.now.share) }
    {
        let (alloc, rules) = (base.alloc, base.rules);
        let links = Links::new(alloc, rules.share, rules.stretch, rules.pace);
        Ok(Driver {
            base,
            number,
            watch: base.watch,
            round: Round::first(),
            ears,
            events: Events::with_capacity(alloc, EVENTS)?,
            connections: Connections::new(alloc, links),
            mail: Mail::new(alloc),
            notes: Notes::new(alloc, rules.loops)?,
            active: VecDeque::with_capacity(alloc, most)?,
            shown: Shown::new(alloc),
        })
    }

    /// The next connection in its stint, for which the first one that is held is called, if it may
    /// be read on now; none where the round's stints are over, or none is to begin.
    pub(crate) fn next(&mut self, begins: bool) -> Option<usize>
        ensures key { result ≡ turns.key_next self.old.active.items begins self.old.round.stints
            (called_if (all.next_held self.old.connections.links.receiving)
            self.old.connections.links.roster.rota).ready }
        ensures active { self.new.active.items ≡ others_of self.old.active.items }
        ensures stints { self.new.round.stints
            ≡ turns.stints_after self.old.active.items result self.old.round.stints }
    {
        if let Some(key) = self.active.pop_front() {
            return Some(key);
        }
        if !begins {
            return None;
        }
        if self.connections.links.receiving.next().is_some() {
            self.round.now = self.watch.now();
            self.connections.links.call_held(self.round.now);
        }
        if self.round.stints == 0 {
            return None;
        }
        let key = self.connections.links.begin()?;
        self.round = self.round.begin();
        Some(key)
    }

    /// A client that is given up, if one is looked for.
    pub(crate) fn give_up(&mut self) -> Option<u128>
        ensures asked { self.old.round.gives_up ≡ false → result ≡ None }
        ensures again { self.new.round.gives_up ≡ is_some result }
        ensures links { self.new.connections.links.links ≡ self.old.connections.links.links }
        ensures roster { self.new.connections.links.roster ≡ self.old.connections.links.roster }
    {
        if !self.round.gives_up {
            return None;
        }
        let found = self.connections.links.find_given_up(self.round.now);
        self.round.gives_up = found.is_some();
        found
    }

    /// Nobody has anything to do in this round: it ends, and the next begins once the loop has
    /// waited for streams, for what others hand in, or for the next moment at which something is
    /// due. Answers whether the loop goes on.
    pub(crate) fn turn(&mut self) -> bool
        ensures stints { OnTrue result (self.new.round.stints ≡ 1024) }
    {
        if self.round.beat == 0 {
            self.base.shared.begun.note(self.base.rt);
        }
        self.connections.links.roster.rota.begin_round();
        self.send_all();
        let is_empty = self.connections.slots.is_empty();
        if is_empty && self.base.shared.standing.lock(self.base.rt).is_over() {
            return false;
        }
        self.round = self.round.next();
        let timeout = Duration::from_millis(self.time_to_sleep());
        let waited = self.ears.poll.poll(&mut self.events, Some(timeout));
        if waited.is_err() {
            return false;
        }
        self.round.now = self.watch.now();
        note_ready(&self.events, &mut self.connections);
        if let Some(inbox) = self.base.shared.inboxes.get(self.number) {
            inbox.mailbox.lock(self.base.rt).take(&mut self.mail);
        }
        self.add_streams();
        self.take_over();
        let everyone = self.wake();
        self.do_due(everyone);
        true
    }

    /// Tells the other loops whom something was put for, and sends what connections have to send.
    fn send_all(&mut self)
        ensures round { self.new.round ≡ self.old.round }
    {
        self.base.send(&mut self.notes);
        for _ in 0..u64::MAX {
            let Some(key) = self.connections.links.pop_unsent() else {
                break;
            };
            self.send(key);
        }
    }

    /// What is still open is closed. That is nothing, but where the system failed to wait.
    pub(crate) fn close_all(&mut self)
        ensures round { self.new.round ≡ self.old.round }
    {
        for key in 0..self.connections.keys_below() {
            self.close(key);
        }
        self.base.shared.ended.note(self.base.rt);
    }

    /// The time until something is due: none where something is to be done, or was handed in.
    fn time_to_sleep(&mut self) -> u64
        ensures beat { result ≤ 1000 }
        ensures quiet { 0 < result → HasNothingToDo self.old.connections.links }
        ensures stints { self.new.round.stints ≡ self.old.round.stints }
    {
        if !self.connections.links.is_quiet() {
            return 0;
        }
        let inbox = self.base.shared.inboxes.get(self.number);
        let sleeps = |inbox: &Inbox| {
            let mut mailbox = inbox.mailbox.lock(self.base.rt);
            mailbox.fall_asleep(inbox.streams.is_empty())
        };
        if !inbox.is_none_or(sleeps) {
            return 0;
        }
        self.round.now = self.watch.now();
        let due = self.connections.links.first_due(self.round.beat);
        self.round.sleep(due)
    }

    /// Has those look that others woke. Answers whether these are all. So it is where a backend is
    /// pressed no more: the next event shows which still are.
    fn wake(&mut self) -> bool
        ensures everyone { result ≡ self.old.mail.everyone }
        ensures look { OnTrue result (AllWillLook self.new.connections.links.roster.rota) }
        ensures stints { self.new.round.stints ≡ self.old.round.stints }
    {
        let everyone = mem::replace(&mut self.mail.everyone, false);
        let woken = self.mail.woken.as_slice();
        self.connections.links.wake_all(woken);
        self.mail.woken.clear();
        if everyone {
            self.press(Some(0));
            self.connections.links.roster.rota.call_all();
        }
        everyone
    }

    /// The backends of these digits are pressed now, if that was shown.
    pub(crate) fn press(&mut self, pressed: Option<u16>)
        ensures round { self.new.round ≡ rounds.pressed_by pressed self.old.round }
        ensures pressure { self.new.connections.links.pressure
            ≡ turns.pressed_to pressed self.old.round.now self.old.connections.links.pressure }
    {
        self.round = self.round.press(pressed);
        if let Some(digits) = pressed {
            let now = self.round.now;
            self.connections.links.pressure.press(digits, now);
        }
    }

    /// Does what is due. Each connection's deadline is once a beat, or where all are looked at.
    fn do_due(&mut self, everyone: bool)
        ensures round { self.new.round ≡ turns.after_due everyone self.old.round }
        ensures stints { self.new.round.stints ≡ self.old.round.stints }
    {
        self.connections.links.call_due(self.round.now);
        if self.round.is_beat(everyone) {
            self.forget();
            self.keep_deadlines();
        }
    }

    /// A beat has come: what is old is forgotten.
    fn forget(&mut self)
        ensures round { self.new.round ≡ rounds.after_beat self.old.round }
        ensures digits { turns.Forgets (rounds.forgets_digits self.old.round)
            self.old.connections.links.pressure self.new.connections.links.pressure }
    {
        let base = self.base;
        let times = self.connections.links.forget_old(self.round.now);
        if times > 0 {
            base.shared.counts.lock(base.rt).note_paced(times);
        }
        let forgets_digits = self.round.forgets_digits();
        self.round = self.round.after_beat();
        if forgets_digits {
            self.connections.links.pressure = Pressure::new(base.alloc, base.rules.stretch);
        }
    }

    /// Closes each connection that took too long.
    fn keep_deadlines(&mut self)
        ensures round { self.new.round ≡ self.old.round }
    {
        let cutting = self.base.shared.standing.lock(self.base.rt).cutting;
        for key in 0..self.connections.keys_below() {
            let now = self.round.now;
            if self.connections.keep_deadline(key, cutting, now) {
                self.close(key);
            }
        }
    }

    /// Adds the new connections.
    fn add_streams(&mut self)
        ensures round { self.new.round ≡ self.old.round }
    {
        for _ in 0..STREAMS {
            let base = self.base;
            let Ok(Accepted { stream, from }) = self.ears.streams.try_recv(base.rt) else {
                break;
            };
            let counts = &base.shared.counts;
            counts.lock(base.rt).note_connection(self.number);
            let stream = Buffered::new(base.alloc, stream);
            let _ = self.add(Box::new(base.alloc, stream).ok(), from);
        }
    }

    /// Takes over the requests that other loops handed on.
    fn take_over(&mut self)
        ensures round { self.new.round ≡ self.old.round }
    {
        for _ in 0..usize::MAX {
            let Some(handed) = self.mail.handed.pop() else {
                break;
            };
            if let Some(key) = self.add(Some(handed.stream), handed.from) {
                let (watch, rules, now) = (self.watch, self.base.rules, self.round.now);
                self.connections
                    .serve(key, handed.request, handed.target, watch, rules, now);
                self.connections.links.roster.rota.call(key);
            }
        }
    }

    /// Adds a stream, where there was memory for it. One that can't be added is closed.
    fn add(&mut self, stream: Option<Stream>, from: u128) -> Option<usize>
        ensures round { self.new.round ≡ self.old.round }
    {
        let now = self.round.now;
        let registry = self.ears.poll.registry();
        let key = stream.and_then(|stream| self.connections.add(registry, stream, from, now));
        if key.is_none() {
            self.base.shared.note_closed(self.base.rt, from);
        }
        key
    }

    /// A connection goes on with its stint until it brings an event; none where the stint is over.
    pub(crate) fn drive(&mut self, key: usize) -> Option<Brought>
        ensures round { self.new.round ≡ self.old.round }
    {
        for _ in 0..u64::MAX {
            match self.connections.go_on(key, self.round.now) {
                Came::Request(request) => {
                    if let Err(fault) = self.direct(key, request) {
                        self.refuse(key, fault);
                    }
                }
                Came::Refused(fault) => self.refuse(key, fault),
                Came::Event(event, moment) => {
                    if let Some(what) = self.connections.read_ahead(key, &event) {
                        self.obey(key, what);
                        return Some((Origin::Ahead { key }, event, moment));
                    }
                    let comes_over = matches!(event, Event::Upgraded { .. });
                    return Some((Origin::Stint { key, comes_over }, event, moment));
                }
                Came::Nothing(Do::GoOn) => {}
                Came::Nothing(what) => {
                    self.obey(key, what);
                    return None;
                }
            }
        }
        None
    }

    /// Does what is to be done with a connection whose event was answered, or which brought none.
    pub(crate) fn obey(&mut self, key: usize, what: Do)
        ensures round { self.new.round ≡ self.old.round }
    {
        match what {
            Do::GoOn => {
                if self.active.push_back(key).is_ok() {
                    return;
                }
                self.connections.links.rest(key, Pause::More);
            }
            Do::Rest(pause) => self.connections.links.rest(key, pause),
            Do::Send => {}
            Do::End => return self.close(key),
            _ => return,
        }
        // What it has to send goes out at the end of the round, or at once where it is much.
        if is_much_unsent(self.connections.unsent(key)) {
            self.send(key);
        } else {
            self.connections.links.note_unsent(key);
        }
    }

    /// Sends the bytes of a connection, which may be over then.
    fn send(&mut self, key: usize)
        ensures round { self.new.round ≡ self.old.round }
        ensures active { self.new.active ≡ self.old.active }
    {
        let now = self.round.now;
        if self.connections.send(key, now) {
            self.close(key);
        }
    }

    /// A connection is over.
    fn close(&mut self, key: usize)
        ensures round { self.new.round ≡ self.old.round }
        ensures active { self.new.active ≡ self.old.active }
    {
        if let Some(connection) = self.connections.take(key) {
            self.base.shared.note_closed(self.base.rt, connection.from);
        }
    }
}
