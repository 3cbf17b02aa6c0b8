//! The connections of a loop, and which of them have something to do.

ghost use Rattle.std.specs.Prelude.{◌≡◌, ◌<◌, [], Some, false};
ghost use Rattle.std.specs.Bool.{OnTrue};
ghost use Rattle.loop_rules.specs.Link as one;
ghost use Rattle.loop_rules.specs.Rotas as rotas;
ghost use Rattle.loop_rules.specs.Unfinished.{bytes_of};
ghost use Rattle.loop_rules.specs.declared.receiving.Sender.TheVariants as sender;
ghost use Rattle.loop_rules.specs.Links as all;
ghost use Rattle.loop_rules.specs.Links.{link_at, KeepsAllBut, KeepsOthers};

use crate::delays::Delays;
use crate::link::{Course, Link};
use crate::paces::{Pace, Paces};
use crate::pressure::Pressure;
use crate::receiving::{Receiving, Sender};
use crate::roster::Roster;
use std::alloc::Global;
use std::collections::VecDeque;
use terms::let_go;

/// The connections of a loop, each with a key, and all that the loop knows of them together.
pub struct Links {
    /// Each connection at its key; one that is over where there is none.
    pub links: Vec<Link>,
    /// Those that have something to do, and the clients that are listed with theirs.
    pub roster: Roster,
    /// What of all that comes isn't whole, and who isn't read on.
    pub receiving: Receiving,
    /// Whose clients aren't read, since much waits for their backend.
    pub pressure: Pressure,
    /// Whose clients send too fast, where that is bounded.
    pub paces: Option<Paces>,
    /// GETs that are served a little later.
    pub delays: Delays,
    /// Those that may have bytes to send, in the order in which they were noted: so a client that
    /// upgrades hears of its probe before its GET ends, and sends no other one.
    pub unsent: VecDeque<usize>,
}

/// Written out, so that a crate above takes the drop of all that lies in it by this one call.
impl Drop for Links {
    fn drop(self) {
        let_go!(self; links, roster, receiving, pressure, paces, delays, unsent);
    }
}

impl Links {
    /// None yet. So many bytes that aren't whole are the loop's share; for so long at a stretch no
    /// clients are read of a slow backend; so fast one client may send, if that is bounded.
    pub fn new(alloc: Global, share: usize, stretch: u64, pace: Option<Pace>) -> Links
        ensures none { result.links.items ≡ [] }
        ensures unsent { result.unsent.items ≡ [] }
        ensures share { result.receiving.share ≡ share }
    {
        Links {
            links: Vec::new(alloc),
            roster: Roster::new(alloc),
            receiving: Receiving::new(alloc, share),
            pressure: Pressure::new(alloc, stretch),
            paces: pace.map(|pace| Paces::new(alloc, pace)),
            delays: Delays::new(alloc),
            unsent: VecDeque::new(alloc),
        }
    }

    /// The connection with this key.
    pub fn link(&self, key: usize) -> Link
        ensures { result ≡ link_at self.now.links.items key }
    {
        match self.links.get(key) {
            Some(link) => *link,
            None => Link::over(),
        }
    }

    /// What the connection with this key is about.
    pub fn course(&self, key: usize) -> Course
        ensures { result ≡ (link_at self.now.links.items key).course }
    {
        match self.links.get(key) {
            Some(link) => link.course,
            None => Course::Lingers,
        }
    }

    /// Whose the connection with this key is, once that is known.
    pub fn client(&self, key: usize) -> Option<u128>
        ensures { result ≡ (link_at self.now.links.items key).client }
    {
        match self.links.get(key) {
            Some(link) => link.client,
            None => None,
        }
    }

    /// The connection with this key is so now.
    pub(crate) fn put(&mut self, key: usize, link: Link)
        ensures links { self.new.links.items ≡ all.put_at key link self.old.links.items }
        ensures rest { KeepsAllBut self.old self.new }
    {
        if key < self.links.len() {
            self.links[key] = link;
        }
    }

    /// A connection has come, its key at most one above all others. Answers whether memory allows.
    pub fn admit(&mut self, key: usize, now: u64) -> bool
        ensures there { OnTrue result (link_at self.new.links.items key ≡ one.first now) }
        ensures others { KeepsOthers key self.old self.new }
        ensures takers { self.new.roster.takers ≡ self.old.roster.takers }
        ensures receiving { self.new.receiving ≡ self.old.receiving }
    {
        let link = Link::new(now);
        if !self.roster.rota.admit(key) {
            return false;
        }
        if key == self.links.len() {
            return self.links.push(link).is_ok();
        }
        self.put(key, link);
        key < self.links.len()
    }

    /// How many bytes of attachments a sender has begun to send.
    pub fn bytes_attached(&self, sender: Sender) -> usize
        ensures { result ≡ all.bytes_attached sender self.now.receiving }
    {
        match sender {
            Sender::Client(client) => self.receiving.attachments.bytes(client),
            Sender::Connection(_) => 0,
        }
    }

    /// Up to how many bytes that aren't whole a connection is read; to its end, if it gets no more.
    pub fn most(&self, key: usize) -> usize
        ensures { result ≡ all.most_at key self.now }
    {
        match self.links.get(key) {
            Some(link) if link.course.is_receiving() => self.limit(link.sender(key)),
            _ => usize::MAX,
        }
    }

    /// How many bytes of a sender may be unfinished, beside the attachments that it has begun.
    pub(crate) fn limit(&self, sender: Sender) -> usize
        ensures { result ≡ all.limit_for sender self.now.receiving }
    {
        let attached = self.bytes_attached(sender);
        self.receiving.limit(sender).saturating_sub(attached)
    }

    /// Whether much waits for a backend of a sender.
    pub(crate) fn is_pressed(&self, sender: Sender, now: u64) -> bool
        ensures { result ≡ all.is_pressed sender now self.now.pressure }
    {
        match sender {
            Sender::Client(client) => self.pressure.holds(client, now),
            Sender::Connection(_) => false,
        }
    }

    /// A connection is gone: nothing of it is unfinished or goes on, and nothing is put for it.
    pub fn dismiss(&mut self, key: usize)
        ensures over { link_at self.new.links.items key ≡ one.over }
        ensures others { KeepsOthers key self.old self.new }
        ensures released { all.IsReleased key (link_at self.old.links.items key).client
            self.new.roster.takers }
        ensures rota { self.new.roster.rota ≡ rotas.dismissed_at key self.old.roster.rota }
        ensures none { bytes_of self.new.receiving.messages key ≡ 0 }
    {
        let client = self.client(key);
        // Nothing takes no memory.
        let _ = self.receiving.messages.note(key as u128, 0, 0);
        self.note_whole(key);
        self.roster.rota.dismiss(key);
        if let Some(client) = client {
            self.roster.takers.release(client, key);
        }
        self.put(key, Link::over());
    }

    /// The request of a connection is whole.
    pub fn note_whole(&mut self, key: usize)
        ensures receiving { all.IsLeft (sender.Connection key) 0
            self.old.receiving self.new.receiving }
        ensures links { self.new.links ≡ self.old.links }
        ensures roster { self.new.roster ≡ self.old.roster }
    {
        self.receiving.note_left(Sender::Connection(key), 0);
    }
}
