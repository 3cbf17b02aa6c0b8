//! The connections of a loop: their streams, and who serves them.

ghost use Rattle.std.specs.Prelude.{◌≡◌, ◌<◌, ℕ, None, true, false, length, IfSome, IfNone, cond, is_some};
ghost use Rattle.mio.specs.Event.{event_token, is_readable, is_writable};
ghost use Rattle.loop_rules.specs.Link as one;
ghost use Rattle.loop_rules.specs.Links.{IsReleased};
ghost use Rattle.loop_rules.specs.Rotas.{look_of, will_look};
ghost use Rattle.tcp_loops.specs.Comes.{ComesOf};
ghost use Rattle.tcp_loops.specs.Connections as all;
ghost use Rattle.tcp_loops.specs.Connections.{OnlyAt, connection_at, is_there, link_of, service_at};
ghost use Rattle.tcp_loops.specs.Services as services;

use crate::base::Watch;
use crate::service::Service;
use crate::stream::{Came, Change};
use events::{Answered, Event};
use http_edge::{Gathered, Request, Target};
use loop_rules::{
    Do, Found, Links, Pause, Seen, Serving, client_of, events_in, found_passed, reads_ahead,
};
use mio::{Interest, Registry, Token, event as readiness};
use peers::{Response, message_length};
use slab::Slab;
use std::alloc::Global;
use std::rt::Clock;
use tcp_streams::{Rules, Stream};
use terms::let_go;

/// A connection: who serves it, and from which address it comes.
pub struct Connection<'a, R> {
    pub service: Service<'a, R>,
    /// The number of the address.
    pub from: u128,
}

/// Written out, so that a crate above takes the drop of all that lies in it by this one call.
impl<R: Drop> Drop for Connection<'_, R> {
    fn drop(self) {
        let_go!(self; service, from);
    }
}

/// The connections of a loop, each at its key, where `links` has what it is about.
pub struct Connections<'a, R> {
    alloc: Global,
    pub slots: Slab<Box<Connection<'a, R>>>,
    pub links: Links,
}

/// Written out, so that a crate above takes the drop of all that lies in it by this one call.
impl<R: Drop> Drop for Connections<'_, R> {
    fn drop(self) {
        let_go!(self; alloc, slots, links);
    }
}

impl<'a, R: Clock + Drop> Connections<'a, R> {
    /// None yet.
    pub fn new(alloc: Global, links: Links) -> Connections<'a, R>
        ensures none { all.count_of result ≡ 0 }
        ensures links { result.links ≡ links }
    {
        let slots = Slab::new(alloc);
        Connections {
            alloc,
            slots,
            links,
        }
    }

    /// A bound of all keys.
    pub fn keys_below(&self) -> usize
        ensures { (k : ℕ) → is_there k self.now ≡ true → k < result }
    {
        self.slots.capacity()
    }

    /// Adds a connection, and has its stream's readiness told by its key. None where that fails.
    pub fn add(
        &mut self,
        registry: &Registry,
        mut stream: Stream,
        from: u128,
        now: u64,
    ) -> Option<usize>
        ensures added { IfSome result (λ key. all.Adds key now self.old self.new) }
        ensures refused { IfNone result (all.SameConnections self.old self.new) }
        ensures takers { self.new.links.roster.takers ≡ self.old.links.roster.takers }
    {
        let key = self.slots.vacant_key();
        let (token, interests) = (Token(key), Interest::READABLE | Interest::WRITABLE);
        registry.register(&mut stream.inner, token, interests).ok()?;
        let gathered = Gathered::new(self.alloc);
        let service = Service::Gathering { stream, gathered };
        let connection = Box::new(self.alloc, Connection { service, from }).ok()?;
        if !self.links.admit(key, now) {
            return None;
        }
        self.slots.insert(connection).ok()
    }

    /// What is seen of the connection with this key.
    pub fn seen(&self, key: usize) -> Seen
        ensures { result ≡ all.seen_at key self.now }
    {
        match self.slots.get(key) {
            Some(connection) => connection.service.seen(),
            None => Seen::gone(),
        }
    }

    /// How many bytes of the connection with this key are unsent.
    pub fn unsent(&self, key: usize) -> usize
        ensures { result ≡ (all.seen_at key self.now).unsent }
    {
        match self.slots.get(key) {
            Some(connection) => connection.service.unsent(),
            None => 0,
        }
    }

    /// Takes a connection out.
    pub fn take(&mut self, key: usize) -> Option<Box<Connection<'a, R>>>
        ensures taken { result ≡ connection_at key self.old }
        ensures none { connection_at key self.new ≡ None }
        ensures over { link_of key self.new ≡ one.over }
        ensures others { OnlyAt key self.old self.new }
        ensures released { IsReleased key (link_of key self.old).client
            self.new.links.roster.takers }
    {
        self.links.dismiss(key);
        self.slots.try_remove(key)
    }

    /// Answers by this, if by anything, which pages of this origin may read. It ends then.
    pub fn respond(
        &mut self,
        key: usize,
        origin: &Option<String>,
        response: Option<Response<'_>>,
        now: u64,
    )
        ensures closes { is_there key self.old ≡ true → all.Closes key now
            self.old.links.links.items self.new.links.links.items }
        ensures others { OnlyAt key self.old self.new }
        ensures roster { self.new.links.roster ≡ self.old.links.roster }
    {
        let alloc = self.alloc;
        if let Some(connection) = self.slots.get_mut(key) {
            connection.service.respond(alloc, origin, response);
            self.links.close(key, now);
        }
    }

    /// Has a request served, or answers it.
    pub fn serve(
        &mut self,
        key: usize,
        request: Box<Request>,
        target: Target,
        watch: Watch<R>,
        rules: &'a Rules,
        now: u64,
    )
        ensures served { is_there key self.old ≡ true → all.IsServedOrCloses key target now
            self.old.links.links.items self.new.links.links.items }
        ensures others { OnlyAt key self.old self.new }
        ensures roster { self.new.links.roster ≡ self.old.links.roster }
    {
        let events = events_in(target, request.body.as_str(), rules.pace.is_some());
        let alloc = self.alloc;
        let Some(connection) = self.slots.get_mut(key) else {
            return;
        };
        let service = &mut connection.service;
        if !service.serve(alloc, request, target, watch, rules) {
            self.links.close(key, now);
            return self.links.note_whole(key);
        }
        let from = self.links.delays.delay(target, key, now);
        let serving = Serving::of(target, events, from);
        self.links.serve(key, serving, client_of(target), now);
    }

    /// Does what a connection does next, for which it is read as far as there is room for what
    /// isn't whole, and counts what came.
    pub fn go_on(&mut self, key: usize, now: u64) -> Came
        ensures gone { is_there key self.old ≡ false
            → result ≡ Came.Nothing (Do.Rest Pause.Done) }
        ensures others { OnlyAt key self.old self.new }
        ensures takers { self.new.links.roster.takers ≡ self.old.links.roster.takers }
    {
        let most = self.links.most(key);
        let Some(connection) = self.slots.get_mut(key) else {
            return Came::Nothing(Do::Rest(Pause::Done));
        };
        connection.service.change(Change::ReadUpTo(most));
        let seen = connection.service.seen();
        let what = self.links.next(key, seen, now);
        let came = self.act(key, what, now);
        let seen = self.seen(key);
        self.links.settle(key, seen, now);
        came
    }

    /// Does what its link says. It closes where its peer has no event any more.
    fn act(&mut self, key: usize, what: Do, now: u64) -> Came
        ensures came { is_there key self.old ≡ true → ComesOf what now result }
        ensures others { OnlyAt key self.old self.new }
        ensures takers { self.new.links.roster.takers ≡ self.old.links.roster.takers }
    {
        let (alloc, is_post) = (self.alloc, self.links.course(key).is_post());
        let Some(connection) = self.slots.get_mut(key) else {
            return Came::Nothing(Do::Rest(Pause::Done));
        };
        match what {
            Do::Gather => connection.service.read(alloc),
            Do::Bring { drains, reads } => {
                if drains && connection.service.drain().is_none() {
                    return Came::Nothing(self.links.finish(key, true, now));
                }
                match connection.service.next(reads) {
                    Ok(Some((event, moment))) => {
                        let message = message_length(&event);
                        connection
                            .service
                            .change(Change::Brought { message, is_post });
                        self.links.note_brought(key, &event, moment);
                        Came::Event(event, moment)
                    }
                    Ok(None) => Came::Nothing(self.links.finish(key, false, now)),
                    Err(_) => Came::Nothing(self.links.finish(key, true, now)),
                }
            }
            Do::Pass => {
                connection.service.skip_rest();
                let seen = connection.service.seen();
                let found = found_passed(seen.idle);
                Came::Nothing(self.links.follow(key, found, seen.is_full()))
            }
            Do::Tell(loss) => Came::Event(loss.event(), now),
            Do::Drain => Came::Nothing(connection.service.drain().map_or(Do::End, Do::Rest)),
            other => Came::Nothing(other),
        }
    }

    /// A connection has brought an event. Where that is a message behind which more was read, it goes
    /// on before the answer, which it isn't told. Answers what follows then.
    pub fn read_ahead(&mut self, key: usize, event: &Event) -> Option<Do>
        ensures what { result ≡ all.what_ahead key event.now self.old }
        ensures same { result ≡ None → self.new ≡ self.old }
        ensures goes { service_at key self.new
            ≡ cond (is_some result) (services.ahead (service_at key self.old)) (service_at key self.old) }
        ensures others { OnlyAt key self.old self.new }
        ensures takers { self.new.links.roster.takers ≡ self.old.links.roster.takers }
    {
        let (seen, left) = (self.seen(key), self.links.link(key).left);
        if !reads_ahead(event, seen.unbrought, left) {
            return None;
        }
        self.slots.get_mut(key)?.service.read_ahead();
        Some(self.links.follow(key, Found::More, seen.is_full()))
    }

    /// Hears the answer to the event of a connection, after which nothing waits for its client, as
    /// far as is known, or something may. Answers what follows.
    pub fn hear(&mut self, key: usize, got: &Answered, rests: bool, now: u64) -> Do
        ensures loss { IfSome (one.after_loss (link_of key self.old).course got.now)
            (λ pause. result ≡ Do.Rest pause) }
        ensures others { OnlyAt key self.old self.new }
        ensures takers { self.new.links.roster.takers ≡ self.old.links.roster.takers }
    {
        if let Some(pause) = self.links.hear_loss(key, got, now) {
            return Do::Rest(pause);
        }
        self.links.know(key, got);
        let link = self.links.link(key);
        let Some(connection) = self.slots.get_mut(key) else {
            return Do::Nothing;
        };
        match connection.service.hear(got, rests, link) {
            Some((found, is_full)) => self.links.follow(key, found, is_full),
            None => self.links.finish(key, true, now),
        }
    }

    /// A stream is ready: its connection is queued, or its bytes are to be sent.
    pub fn note(&mut self, event: &readiness::Event)
        ensures others { OnlyAt (event_token event.now).0 self.old self.new }
        ensures takers { self.new.links.roster.takers ≡ self.old.links.roster.takers }
        ensures unready { is_readable event.now ≡ false → is_writable event.now ≡ false
            → self.new ≡ self.old }
        ensures looks { let looks = self.new.links.roster.rota.looks in
            is_readable event.now ≡ true → (event_token event.now).0 < length looks
            → will_look (look_of looks (event_token event.now).0) ≡ true }
    {
        let Token(key) = event.token();
        if event.is_writable() {
            self.links.note_unsent(key);
        }
        if event.is_readable() {
            if let Some(connection) = self.slots.get_mut(key) {
                let ended = event.is_read_closed();
                connection.service.change(Change::Readable { ended });
            }
            self.links.roster.rota.call(key);
        }
    }

    /// Sends what a connection has to send. Answers whether it is over then.
    pub fn send(&mut self, key: usize, now: u64) -> bool
        ensures sent { is_there key self.old ≡ true → all.IsSent key now
            self.old.links.links.items self.new.links.links.items result }
        ensures gone { is_there key self.old ≡ false → result ≡ false }
        ensures others { OnlyAt key self.old self.new }
        ensures takers { self.new.links.roster.takers ≡ self.old.links.roster.takers }
    {
        let Some(connection) = self.slots.get_mut(key) else {
            return false;
        };
        let service = &mut connection.service;
        let (sent, is_request) = (service.send(), service.is_request());
        let seen = service.seen();
        match sent {
            Ok(count) => {
                let what = self.links.note_sent(key, count, seen, is_request, now);
                self.obey(key, what)
            }
            Err(_) => {
                let what = self.links.note_unsendable(key, is_request, now);
                self.obey(key, what)
            }
        }
    }

    /// A beat has come: a connection gives back its buffers where nobody uses them, and what takes
    /// too long is ended. Answers whether it is over.
    pub fn keep_deadline(&mut self, key: usize, cutting: bool, now: u64) -> bool
        ensures kept { is_there key self.old ≡ true → all.KeepsDeadline key cutting now
            self.old.links self.new.links.links.items result }
        ensures gone { is_there key self.old ≡ false → result ≡ false }
        ensures others { OnlyAt key self.old self.new }
        ensures takers { self.new.links.roster.takers ≡ self.old.links.roster.takers }
    {
        let Some(connection) = self.slots.get_mut(key) else {
            return false;
        };
        connection.service.give_back();
        let seen = connection.service.seen();
        let what = self.links.keep_deadline(key, seen, cutting, now);
        self.obey(key, what)
    }

    /// Does what is to be done with a connection beside its stints. Answers whether it is over.
    fn obey(&mut self, key: usize, what: Do) -> bool
        ensures over { is_there key self.old ≡ true → all.IsOver what result }
        ensures gone { is_there key self.old ≡ false → result ≡ false }
        ensures others { OnlyAt key self.old self.new }
        ensures links { self.new.links ≡ self.old.links }
    {
        let Some(connection) = self.slots.get_mut(key) else {
            return false;
        };
        match what {
            Do::End => return true,
            Do::Shut => return !connection.service.shut(),
            Do::Cut => connection.service.change(Change::Cut),
            Do::GiveUp => connection.service.give_up(),
            _ => {}
        }
        false
    }
}
