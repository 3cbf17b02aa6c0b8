//! What a connection does in its stint, what the answer to its event leads to, and what it sends.

ghost use Rattle.std.specs.Prelude.{◌≡◌, ℕ, None, Some, true, false, length, ◌<◌, IfSome, All};
ghost use Rattle.std.specs.Prelude.{slice_index_or};
ghost use Rattle.loop_rules.specs.Course as courses;
ghost use Rattle.loop_rules.specs.Link as one;
ghost use Rattle.loop_rules.specs.Rotas as rotas;
ghost use Rattle.loop_rules.specs.Links as all;
ghost use Rattle.loop_rules.specs.Links.{link_at, KeepsAllBut, KeepsOthers};
ghost use Rattle.loop_rules.specs.Stints as stints;
ghost use Rattle.loop_rules.specs.Sending as sending;
ghost use Rattle.loop_rules.specs.Rosters.{Keeps};
ghost use Rattle.loop_rules.specs.Heard as heard;
ghost use Rattle.loop_rules.specs.Concerns as concerns;

use crate::heard::{Concern, done_of, is_message};
use crate::link::{Course, Do, Link, Seen, Serving};
use crate::links::Links;
use crate::looks::{Decision, EVENTS, Found, LookState, Pause};
use crate::receiving::Sender;
use crate::roster::{Notes, are_same};
use events::{Answered, CoreFault, Event, Outcome};
use peers::is_noop;

impl Links {
    /// The stint of the first connection that has something to do begins.
    pub fn begin(&mut self) -> Option<usize>
        ensures first { result ≡ rotas.next_of self.old.roster.rota.ready }
        ensures rota { self.new.roster.rota
            ≡ rotas.begun_at self.old.roster.rota.ready self.old.roster.rota }
        ensures takers { self.new.roster.takers ≡ self.old.roster.takers }
    {
        let key = self.roster.rota.pop()?;
        if key < self.links.len() {
            self.links[key].left = EVENTS;
        }
        Some(key)
    }

    /// A connection is served from now on, for a client where that is known: its request was whole.
    pub fn serve(&mut self, key: usize, serving: Serving, client: Option<u128>, now: u64)
        ensures links { self.new.links.items
            ≡ all.changed_at key (one.served serving client now) self.old }
        ensures roster { self.new.roster ≡ self.old.roster }
    {
        let mut link = self.link(key).turn_to(Course::Serves(serving), now);
        link.client = client;
        self.put(key, link);
        self.note_whole(key);
    }

    /// A connection closes: what is unsent goes out, and nobody serves it.
    pub fn close(&mut self, key: usize, now: u64)
        ensures links { self.new.links.items ≡ all.changed_at key (one.closed now) self.old }
        ensures rest { KeepsAllBut self.old self.new }
    {
        let link = self.link(key);
        self.put(key, link.turn_to(Course::Closes { told: false }, now));
    }

    /// A connection's peer brings no event: it has failed, or has no more. Answers what follows.
    pub fn finish(&mut self, key: usize, failed: bool, now: u64) -> Do
        ensures what { result ≡ stints.after_end failed }
        ensures links { self.new.links.items
            ≡ all.changed_at key (stints.ended failed now) self.old }
        ensures rest { KeepsAllBut self.old self.new }
    {
        if failed {
            let link = self.link(key);
            self.put(key, link.fail(now));
            return Do::GoOn;
        }
        self.close(key, now);
        Do::Rest(Pause::Done)
    }

    /// What a connection does next. A POST brings its packets where its client needn't wait, and
    /// there is room for what isn't whole, and memory to count them.
    pub fn next(&mut self, key: usize, seen: Seen, now: u64) -> Do
        ensures next { stints.DoesNext
            (all.is_pressed (all.sender_at key self.old.links.items) now self.old.pressure)
            self.old.paces key seen now self.old.receiving (link_at self.old.links.items key)
            result self.old.links.items self.new.links.items }
        ensures others { KeepsOthers key self.old self.new }
        ensures roster { self.new.roster ≡ self.old.roster }
        ensures receiving { self.new.receiving ≡ self.old.receiving }
    {
        let link = self.look_ahead(key, now);
        if link.course.is_post() {
            return self.post(key, seen, now);
        }
        link.next(seen, now)
    }

    /// Finds whether a connection waits: for its client's backend, or since that sent too fast.
    fn look_ahead(&mut self, key: usize, now: u64) -> Link
        ensures ahead { stints.LooksAhead
            (all.is_pressed (all.sender_at key self.old.links.items) now self.old.pressure)
            self.old.paces key now (link_at self.old.links.items key) result }
        ensures links { self.new.links.items ≡ all.put_at key result self.old.links.items }
        ensures roster { self.new.roster ≡ self.old.roster }
        ensures receiving { self.new.receiving ≡ self.old.receiving }
    {
        let mut link = self.link(key);
        let sender = link.sender(key);
        let pressed = self.is_pressed(sender, now);
        if !pressed {
            link.paced = match (&mut self.paces, sender) {
                (Some(paces), Sender::Client(client)) => {
                    paces.wait(key, client, link.course.events_next(), link.paced, now)
                }
                _ => 0,
            };
        }
        link.waits = pressed || link.paced > 0;
        if key < self.links.len() {
            let place = &mut self.links[key];
            place.waits = link.waits;
            place.paced = link.paced;
        }
        link
    }

    /// What a POST does next.
    fn post(&mut self, key: usize, seen: Seen, now: u64) -> Do
        ensures next { stints.Posts key seen now self.old.receiving
            (link_at self.old.links.items key) result self.old.links.items self.new.links.items }
        ensures roster { self.new.roster ≡ self.old.roster }
        ensures receiving { self.new.receiving ≡ self.old.receiving }
    {
        let link = self.link(key);
        if link.waits || seen.unbrought >= self.limit(link.sender(key)) {
            return Do::Rest(Pause::Done);
        }
        if self.counts(link, now) {
            return link.next(seen, now);
        }
        if key < self.links.len() {
            self.links[key].waits = true;
        }
        Do::Rest(Pause::Done)
    }

    /// Counts the events of a POST that are brought now. Answers whether there was memory for it.
    fn counts(&mut self, link: Link, now: u64) -> bool
        ensures unbounded { self.old.paces ≡ None → result ≡ true }
        ensures none { courses.events_next link.course ≡ 0 → result ≡ true }
        ensures links { self.new.links ≡ self.old.links }
        ensures roster { self.new.roster ≡ self.old.roster }
        ensures receiving { self.new.receiving ≡ self.old.receiving }
    {
        let count = link.course.events_next();
        match (&mut self.paces, link.client) {
            (Some(paces), Some(client)) if count > 0 => paces.bring(client, count, now),
            _ => true,
        }
    }

    /// A connection's peer has brought an event. A WebSocket's message counts, if memory allows.
    pub fn note_brought(&mut self, key: usize, event: &Event, at: u64)
        ensures links { self.new.links.items
            ≡ all.brought_at key event.now at self.old.links.items }
        ensures roster { self.new.roster ≡ self.old.roster }
        ensures receiving { self.new.receiving ≡ self.old.receiving }
    {
        let (counts, client) = (is_message(event), self.client(key));
        if let (true, Some(paces), Some(client)) = (counts, &mut self.paces, client) {
            let _ = paces.bring(client, 1, at);
        }
        let asks_due = matches!(event, Event::Tick { .. });
        if key < self.links.len() {
            let link = &mut self.links[key];
            link.course = link.course.brought(asks_due, at);
        }
    }

    /// The event of a connection was answered, which says this. Answers what follows.
    pub fn follow(&mut self, key: usize, found: Found, full: bool) -> Do
        ensures what { result ≡ all.after_answer key found full self.old }
        ensures links { self.new.links.items ≡ all.followed_links key found full self.old }
        ensures rota { self.new.roster.rota ≡ all.followed key found full self.old }
        ensures takers { self.new.roster.takers ≡ self.old.roster.takers }
        ensures receiving { self.new.receiving ≡ self.old.receiving }
    {
        let mut left = match self.links.get(key) {
            Some(link) => link.left,
            None => EVENTS,
        };
        let decision = self.roster.rota.follow(key, &mut left, found, full);
        if key < self.links.len() {
            self.links[key].left = left;
        }
        match decision {
            Decision::GoesOn => Do::GoOn,
            Decision::Again | Decision::Rests | Decision::Held => Do::Send,
        }
    }

    /// The core answered a connection's event: where that opened a client, it is known whose it is.
    pub fn know(&mut self, key: usize, got: &Answered)
        ensures links { self.new.links.items ≡ all.known_by key got.now self.old.links.items }
        ensures others { KeepsOthers key self.old self.new }
        ensures rest { KeepsAllBut self.old self.new }
    {
        if let Ok(Outcome::Opened(opening)) = got {
            let link = self.link(key);
            let client = Some(opening.client);
            self.put(key, Link { client, ..link });
        }
    }

    /// The core answered where a connection told it of its loss. Answers how its stint ends then.
    pub fn hear_loss(&mut self, key: usize, got: &Answered, now: u64) -> Option<Pause>
        ensures pause { result ≡ one.after_loss (link_at self.old.links.items key).course got.now }
        ensures links { self.new.links.items
            ≡ all.changed_at key (one.heard_loss got.now now) self.old }
        ensures rest { KeepsAllBut self.old self.new }
    {
        if key < self.links.len() {
            return self.links[key].hear_loss(got, now);
        }
        None
    }

    /// The stint of a connection is over, and no event was answered last.
    pub fn rest(&mut self, key: usize, pause: Pause)
        ensures rota { self.new.roster.rota ≡ rotas.paused_at key pause self.old.roster.rota }
        ensures links { self.new.links ≡ self.old.links }
        ensures takers { self.new.roster.takers ≡ self.old.roster.takers }
        ensures receiving { self.new.receiving ≡ self.old.receiving }
    {
        self.roster.rota.pause(key, pause);
    }

    /// It may have bytes to send. Without memory to note that, it gets a stint, and is noted then.
    pub fn note_unsent(&mut self, key: usize)
        ensures noted { sending.IsNoted key self.old self.new }
        ensures others { KeepsOthers key self.old self.new }
        ensures takers { self.new.roster.takers ≡ self.old.roster.takers }
        ensures receiving { self.new.receiving ≡ self.old.receiving }
    {
        if key >= self.links.len() || self.links[key].unsent {
            return;
        }
        let unsent = self.unsent.push_back(key).is_ok();
        self.links[key].unsent = unsent;
        if !unsent {
            self.roster.rota.call(key);
        }
    }

    /// One that may have bytes to send.
    pub fn pop_unsent(&mut self) -> Option<usize>
        ensures first { result ≡ sending.first_of self.old.unsent.items }
        ensures left { self.new.unsent.items ≡ sending.others_of self.old.unsent.items }
        ensures roster { self.new.roster ≡ self.old.roster }
        ensures receiving { self.new.receiving ≡ self.old.receiving }
    {
        let key = self.unsent.pop_front()?;
        if key < self.links.len() {
            self.links[key].unsent = false;
        }
        Some(key)
    }

    /// So many bytes of a connection were sent, which left it so. Answers what follows.
    pub fn note_sent(&mut self, key: usize, count: usize, seen: Seen, request: bool, now: u64) -> Do
        ensures what { result ≡ sending.after_sent seen request (link_at self.old.links.items key) }
        ensures links { self.new.links.items
            ≡ sending.sent_at key count seen request now self.old.links.items }
        ensures rota { self.new.roster.rota ≡ sending.called_after key seen request self.old }
        ensures takers { self.new.roster.takers ≡ self.old.roster.takers }
        ensures receiving { self.new.receiving ≡ self.old.receiving }
    {
        let mut link = self.link(key).moved(count, seen.unsent, now);
        let what = link.sent(seen, request);
        if matches!(what, Do::Shut) {
            link = link.turn_to(Course::Lingers, now);
        }
        self.put(key, link);
        let is_full = matches!(self.roster.rota.look(key), LookState::Full);
        match what {
            Do::Fit if is_full => self.roster.rota.call(key),
            Do::Queue | Do::Shut => self.roster.rota.call(key),
            _ => {}
        }
        match what {
            Do::Shut => Do::Shut,
            Do::End => Do::End,
            _ => Do::Nothing,
        }
    }

    /// Bytes of a connection can't be sent. Answers what follows.
    pub fn note_unsendable(&mut self, key: usize, request: bool, now: u64) -> Do
        ensures what { result ≡ sending.after_failure request (link_at self.old.links.items key) }
        ensures links { self.new.links.items
            ≡ sending.failed_at key request now self.old.links.items }
        ensures takers { self.new.roster.takers ≡ self.old.roster.takers }
        ensures receiving { self.new.receiving ≡ self.old.receiving }
    {
        let mut link = self.link(key);
        let what = link.unsendable(request);
        if matches!(what, Do::Queue) {
            link = link.fail(now);
        }
        self.put(key, link);
        if !matches!(what, Do::End) {
            self.roster.rota.call(key);
        }
        match what {
            Do::Queue => Do::Nothing,
            _ => what,
        }
    }

    /// What is put for a client goes over this connection now. The one before is called.
    pub fn assign(&mut self, client: u128, key: usize)
        ensures taker { concerns.IsListed client key self.new.roster.takers }
        ensures links { self.new.links.items ≡ all.assigned_at key self.old.links.items }
        ensures looks { Keeps self.old.roster.rota.looks self.new.roster.rota.looks }
    {
        self.roster.wake(client);
        self.roster.takers.list(client, key);
        let mut link = self.link(key);
        if let Course::Serves(Serving::Socket { asked, .. }) = link.course {
            let speaks = true;
            link.course = Course::Serves(Serving::Socket { speaks, asked });
        }
        self.put(key, link);
        self.note_whole(key);
    }

    /// The client of a connection has ended.
    pub fn note_end(&mut self, client: u128, now: u64)
        ensures links { self.new.links ≡ self.old.links }
        ensures woken { concerns.IsWokenFor client self.new.roster }
        ensures takers { self.new.roster.takers ≡ self.old.roster.takers }
    {
        self.note_attached(client, 0, now);
        self.pressure.forget(client);
        self.roster.wake(client);
    }

    /// A client's event failed, after it put something for others or not. It may have ended the
    /// client, which its other connection finds out when it takes.
    fn note_failure(&mut self, client: u128, key: usize, has_done: bool)
        ensures links { self.new.links ≡ self.old.links }
        ensures takers { self.new.roster.takers ≡ self.old.roster.takers }
    {
        let bytes = self.receiving.attachments.bytes(client);
        self.receiving.note_left(Sender::Client(client), bytes);
        if has_done || !self.roster.takers.is_taker(client, key) {
            self.roster.wake(client);
        }
    }

    /// An event put something for others: those of this loop are woken, and the others noted.
    pub fn wake_for(&mut self, own: usize, loops: usize, got: &Answered, notes: &mut Notes)
        requires { 0 < loops }
        ensures told { IfSome (heard.done_of got.now)
            (λ done. concerns.AreAllTold own loops done self.new.roster notes.new) }
        ensures links { self.new.links ≡ self.old.links }
        ensures takers { self.new.roster.takers ≡ self.old.roster.takers }
    {
        if let Some(done) = done_of(got) {
            let lists = done.clients.lists();
            self.roster.wake_lists(own, loops, lists, notes);
        }
    }

    /// Events were answered in this order, of connections with these keys: all for whom they put
    /// something are woken or noted, once where one event after the other had the same.
    pub fn wake_for_run(
        &mut self,
        own: usize,
        loops: usize,
        run: &[(usize, Answered)],
        notes: &mut Notes,
    )
        requires { 0 < loops }
        ensures told { All (λ of. concerns.AreToldOf own loops of.1 self.new.roster notes.new)
            run.now }
        ensures links { self.new.links ≡ self.old.links }
        ensures takers { self.new.roster.takers ≡ self.old.roster.takers }
    {
        let mut told: &[Vec<u128>] = &[];
        for (_, got) in run {
            if let Some(done) = done_of(got) {
                let clients = done.clients.lists();
                if !are_same(clients, told) {
                    self.roster.wake_lists(own, loops, clients, notes);
                    told = clients;
                }
            }
        }
    }

    /// Others put something for these clients.
    pub fn wake_all(&mut self, clients: &[u128])
        ensures woken { (k : ℕ) → k < length clients.now
            → concerns.IsWokenFor (slice_index_or clients.now k 0) self.new.roster }
        ensures links { self.new.links ≡ self.old.links }
        ensures takers { self.new.roster.takers ≡ self.old.roster.takers }
    {
        for client in clients {
            self.roster.wake(*client);
        }
    }

    /// The core was told that a client is given up, and answered this. Answers whom that concerns.
    pub fn hear_given_up(&mut self, client: u128, got: &Answered, now: u64) -> Concern
        ensures concern { result ≡ heard.loss_concern got.now }
        ensures links { self.new.links ≡ self.old.links }
        ensures takers { self.new.roster.takers ≡ self.old.roster.takers }
    {
        match got {
            Ok(Outcome::Lost { .. }) => {
                self.note_end(client, now);
                Concern::Ends
            }
            Err(error) if matches!(error.fault, CoreFault::UnknownClient) => {
                self.note_attached(client, 0, now);
                Concern::Nobody
            }
            _ => Concern::Nobody,
        }
    }

    /// The answer to an event is told to whom it concerns beside those for whom it put something.
    pub fn heed(&mut self, key: usize, client: u128, concern: Concern, now: u64)
        ensures links { self.new.links.items ≡ concerns.heeded key concern self.old.links.items }
    {
        match concern {
            Concern::Nobody => {}
            Concern::Opens if !self.course(key).is_socket() => {}
            Concern::Opens | Concern::Takes | Concern::ComesOver => self.assign(client, key),
            Concern::Wakes => self.roster.wake(client),
            Concern::Ends => self.note_end(client, now),
            Concern::Gone { has_done } => {
                self.note_attached(client, 0, now);
                self.note_failure(client, key, has_done);
            }
            Concern::Fails { has_done } => self.note_failure(client, key, has_done),
        }
    }

    /// What an answer says of its client: that nothing waits, or what of its packets isn't whole.
    pub fn note_answer(&mut self, client: u128, got: &Answered, now: u64)
        ensures links { self.new.links ≡ self.old.links }
        ensures roster { self.new.roster ≡ self.old.roster }
    {
        if is_noop(got) {
            self.delays.note_noop(client, now);
        }
        if let Ok(Outcome::Done(done)) = got {
            self.note_attached(client, done.unfinished, now);
        }
    }
}
