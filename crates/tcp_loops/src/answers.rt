//! What a loop does with the requests of its connections, and with the answers to their events.

ghost use Rattle.std.specs.Prelude.{◌≡◌, false, fold, All, IfSome};
ghost use Rattle.loop_rules.specs.Concerns.{AreAllTold, AreToldOf};
ghost use Rattle.loop_rules.specs.Heard as heard;
ghost use Rattle.loop_rules.specs.Pressures.{IsSame};
ghost use Rattle.loop_rules.specs.Rounds as rounds;

use crate::base::Fate;
use crate::driver::{Driver, Origin};
use events::{Answered, Outcome};
use http_edge::{EdgeError, Request, Status, Target, direct};
use loop_rules::{Do, Pressure, concern_of, owner_of};
use metrics::Reason;
use peers::{Moments, Response, response_to_fault};
use std::rt::Clock;
use std::sync::Wait;
use tcp_streams::{Handed, Log, Sign};

/// Notes the digits of clients, where they were shown, and there is memory for them.
fn note_signs(signs: &[Sign], pressure: &mut Pressure)
    ensures { IsSame pressure.old pressure.new }
{
    for sign in signs {
        if let Some(digits) = sign.digits {
            let _ = pressure.note(sign.client, digits);
        }
    }
}

impl<R: Wait + Clock + Copy + Drop, L: Log> Driver<'_, R, L> {
    /// Answers where no request was read.
    pub(crate) fn refuse(&mut self, key: usize, fault: EdgeError)
        ensures round { self.new.round ≡ self.old.round }
    {
        let (base, now) = (self.base, self.round.now);
        if let Some(reason) = Reason::of_edge(fault) {
            base.shared.counts.lock(base.rt).note_refused(reason);
        }
        self.connections
            .respond(key, &None, response_to_fault(fault), now);
    }

    /// Answers a request, by what was counted where it asks for that, or has it served. It is
    /// counted then, and why it isn't served where it isn't.
    pub(crate) fn direct(&mut self, key: usize, mut request: Box<Request>) -> Result<(), EdgeError>
        ensures round { self.new.round ≡ self.old.round }
    {
        let (base, now) = (self.base, self.round.now);
        let target = direct(base.alloc, &base.rules.origins, &mut request)?;
        base.shared.counts.lock(base.rt).note_request(self.number);
        if matches!(target, Target::NotFound) && base.rules.asks_for_counts(&request) {
            let text = base.shared.counts.lock(base.rt).text(base.alloc)?;
            let (status, body) = (Status::Success, text.as_str());
            let response = Some(Response { status, body });
            self.connections
                .respond(key, &request.origin, response, now);
            return Ok(());
        }
        let has_none = |_: &Reason| base.rules.file_for(&request).is_none();
        if let Some(reason) = Reason::of_target(target).filter(has_none) {
            base.shared.counts.lock(base.rt).note_refused(reason);
        }
        self.assign(key, request, target);
        Ok(())
    }

    /// Serves a request, or hands it with its stream to the loop that has its client.
    fn assign(&mut self, key: usize, request: Box<Request>, target: Target)
        ensures round { self.new.round ≡ self.old.round }
    {
        let (base, watch, now) = (self.base, self.watch, self.round.now);
        let owner = owner_of(target, base.rules.loops, self.number);
        if owner == self.number {
            return self
                .connections
                .serve(key, request, target, watch, base.rules, now);
        }
        let Some(mut taken) = self.connections.take(key) else {
            return;
        };
        let from = taken.from;
        if let Some(mut stream) = taken.service.take_stream() {
            // The loop hears no more of it.
            let _ = self.ears.poll.registry().deregister(&mut stream.inner);
            let handed = Handed {
                stream,
                from,
                request,
                target,
            };
            let inbox = base.shared.inboxes.get(owner);
            if inbox.is_some_and(|inbox| inbox.put(base.rt, |mailbox| mailbox.hand(handed))) {
                return;
            }
        }
        base.shared.note_closed(base.rt, from);
    }

    /// Heeds what the core's state showed after the last events.
    pub(crate) fn heed(&mut self) {
        self.round.now = self.watch.now();
        self.base.take_shown(self.number, &mut self.shown);
        self.press(self.shown.pressed);
        let pressure = &mut self.connections.links.pressure;
        note_signs(self.shown.signs.as_slice(), pressure);
    }

    /// An event was answered that is of this. By one of a connection its client may have come over
    /// to it.
    pub(crate) fn settle(&mut self, of: Origin, got: &Answered)
        ensures round { self.new.round ≡ record self.old.round {
          tells = self.new.round.tells;
          taken = self.new.round.taken;
          reached = self.new.round.reached;
          gives_up = self.new.round.gives_up;
        } }
    {
        let (key, comes_over) = match of {
            Origin::Loss { client } => return self.hear_loss(client, got),
            Origin::Ahead { key } => return self.hear_ahead(key, got),
            Origin::Stint { key, comes_over } => (key, comes_over),
        };
        let (base, now) = (self.base, self.round.now);
        if !self.connections.slots.contains(key) {
            return;
        }
        let client = self.connections.links.client(key);
        let rests = client.is_some_and(|client| self.shown.rests(client));
        let before = self.connections.unsent(key);
        let what = self.connections.hear(key, got, rests, now);
        let seen = self.connections.seen(key);
        self.round = self
            .round
            .note_answer(got, seen.unsent.saturating_sub(before));
        if let (Err(error), false) = (got, matches!(what, Do::Rest(_))) {
            let reason = Reason::of_core(error.fault);
            base.shared.counts.lock(base.rt).note_refused(reason);
        }
        self.note(key, comes_over, got);
        let is_done = matches!(got, Ok(Outcome::Done(_)));
        self.round.tells |= is_done && seen.has_brought_all();
        self.obey(key, what);
    }

    /// A message was answered whose connection went on before that.
    fn hear_ahead(&mut self, key: usize, got: &Answered)
        ensures round { self.new.round ≡ rounds.after_answer got.now 0 self.old.round }
        ensures told { IfSome (heard.done_of got.now) (λ done.
            AreAllTold self.old.number self.old.base.now.rules.now.loops done
            self.new.connections.links.roster self.new.notes) }
    {
        self.count_ahead(got);
        self.note(key, false, got);
    }

    /// Messages were answered, one after another, whose connections went on before that. Those for
    /// whom they put something are told at the end: mostly all have put it for the same ones.
    pub(crate) fn hear_run(&mut self, run: &[(usize, Answered)])
        ensures round { self.new.round
            ≡ fold (λ round of. rounds.after_answer of.1 0 round) self.old.round run.now }
        ensures told { All (λ of. AreToldOf self.old.number self.old.base.now.rules.now.loops of.1
            self.new.connections.links.roster self.new.notes) run.now }
    {
        let base = self.base;
        for (key, got) in run {
            self.count_ahead(got);
            self.note_client(*key, false, got);
        }
        let links = &mut self.connections.links;
        links.wake_for_run(self.number, base.rules.loops, run, &mut self.notes);
    }

    /// A message was answered whose connection went on before that: how many clients it reached
    /// counts, and an error.
    fn count_ahead(&mut self, got: &Answered)
        ensures round { self.new.round ≡ rounds.after_answer got.now 0 self.old.round }
        ensures number { self.new.number ≡ self.old.number }
        ensures base { self.new.base ≡ self.old.base }
    {
        let base = self.base;
        self.round = self.round.note_answer(got, 0);
        if let Err(error) = got {
            let reason = Reason::of_core(error.fault);
            base.shared.counts.lock(base.rt).note_refused(reason);
        }
    }

    /// The answers were heard. Others may begin with what was put for them, while a connection goes
    /// on that has no more to bring.
    pub(crate) fn tell(&mut self)
        ensures told { self.new.round.tells ≡ false }
    {
        if self.round.tells {
            self.round.tells = false;
            self.base.send(&mut self.notes);
        }
    }

    /// The core was told that a client is given up.
    fn hear_loss(&mut self, client: u128, got: &Answered)
        ensures round { self.new.round ≡ rounds.after_loss got.now self.old.round }
    {
        let (base, now) = (self.base, self.round.now);
        self.round = self.round.hear_loss(got);
        let links = &mut self.connections.links;
        links.wake_for(self.number, base.rules.loops, got, &mut self.notes);
        let concern = links.hear_given_up(client, got, now);
        if let Some(fate) = Fate::of(got, concern, false) {
            base.note(client, fate, now);
        }
    }

    /// Tells whom the answer to an event of a connection concerns: its client, and those for whom it
    /// put something, even where the connection is over by now.
    fn note(&mut self, key: usize, comes_over: bool, got: &Answered)
        ensures round { self.new.round ≡ self.old.round }
        ensures told { IfSome (heard.done_of got.now) (λ done.
            AreAllTold self.old.number self.old.base.now.rules.now.loops done
            self.new.connections.links.roster self.new.notes) }
    {
        let base = self.base;
        self.note_client(key, comes_over, got);
        let links = &mut self.connections.links;
        links.wake_for(self.number, base.rules.loops, got, &mut self.notes);
    }

    /// Tells whom it concerns beside those for whom it put something.
    fn note_client(&mut self, key: usize, comes_over: bool, got: &Answered)
        ensures round { self.new.round ≡ self.old.round }
        ensures number { self.new.number ≡ self.old.number }
        ensures base { self.new.base ≡ self.old.base }
    {
        let (base, now) = (self.base, self.round.now);
        let links = &mut self.connections.links;
        let Some(client) = links.client(key) else {
            return;
        };
        let is_socket = links.course(key).is_socket();
        links.note_answer(client, got, now);
        // Where it takes is asked only of what was worked on.
        let is_taker = matches!(got, Ok(Outcome::Done(_))) && links.is_taker(key);
        let concern = concern_of(got, comes_over, is_taker);
        links.heed(key, client, concern, now);
        self.notes.everyone |= concern.hides_whom();
        if let Some(fate) = Fate::of(got, concern, is_socket) {
            base.note(client, fate, now);
        }
    }
}
