//! What all threads of a server share, beside the core.

ghost use Rattle.std.specs.Prelude.{◌≡◌, ◌≤◌, ◌+◌, ◌-◌, ◌↔◌, ◌⊎◌, IsTrue, IsErrOf, IfOk, IfErr, OnOk, OnErr, None, false, option_map, vec_len};
ghost use Rattle.std.specs.Arc.{arc_value};
ghost use Rattle.tcp_streams.specs.Backends as backends;
ghost use Rattle.tcp_streams.specs.Sharing.{Begins};
ghost use Rattle.tcp_streams.specs.Shown as shown;
ghost use Rattle.tcp_streams.specs.Shown.{ShowsNothing};
ghost use Rattle.tcp_streams.specs.Standings as standings;
ghost use Rattle.tcp_streams.specs.Standings.{HasPlace, IsCrowded};

use crate::fault::ServerFault;
use crate::inbox::Inbox;
use loop_rules::Addresses;
use metrics::{Metrics, Reason};
use mio::Waker;
use settings::Settings;
use std::alloc::{AllocError, Global};
use std::collections::HashMap;
use std::rt::Clock;
use std::sync::{Arc, Condvar, CondvarTimeouts, Mutex, Wait};
use std::time::Duration;
use terms::{Text, let_go};

/// What all threads of a server share, beside the core.
pub struct Shared {
    /// What others hand to each loop.
    pub inboxes: Vec<Inbox>,
    acceptor: Waker,
    /// The clients that are there, if somebody hears of them: since when, and whether over a
    /// WebSocket.
    pub lives: Option<Mutex<HashMap<u128, (u64, bool)>>>,
    /// What the threads count, and what the keeper last told of the core.
    pub counts: Mutex<Metrics>,
    /// What is known of the backends, if there may be some.
    pub backends: Option<Backends>,
    /// What the core's state showed to each loop, and to the keeper.
    pub showing: Vec<Mutex<Shown>>,
    /// How far the server is.
    pub standing: Mutex<Standing>,
    /// The workers that have begun, the keeper among them, and the warden, if there is one.
    pub begun: Arrivals,
    /// The loops that have ended.
    pub ended: Arrivals,
}

/// Written out, so that a crate above takes the drop of all that lies in it by this one call.
impl Drop for Shared {
    fn drop(self) {
        let_go!(self; inboxes, acceptor, lives, counts, backends, showing, standing, begun, ended);
    }
}

/// How many have come to a point of their work.
#[derive(Default, Drop)]
pub struct Arrivals {
    count: Mutex<usize>,
    changed: Condvar,
}

impl Arrivals {
    /// One more has come to it.
    pub fn note(&self, rt: &impl Wait) {
        let mut count = self.count.lock(rt);
        *count = count.saturating_add(1);
        self.changed.notify_all();
    }

    /// Waits until so many have, but no longer than so, and tells whether they have.
    pub fn wait_for<R: Wait + Clock>(&self, rt: &R, number: usize, most: Duration) -> bool
        ensures { number ≡ 0 → IsTrue result }
    {
        let guard = self.count.lock(rt);
        let lacks = |count: &mut usize| *count < number;
        let (_, ended) = self.changed.wait_timeout_while(rt, guard, most, lacks);
        !ended.timed_out()
    }
}

impl Shared {
    /// Nothing is open yet, and each loop is at work. Somebody hears of clients, or not. From one
    /// address so many connections may be open, if that is bounded.
    pub fn new(
        alloc: Global,
        inboxes: Vec<Inbox>,
        acceptor: Waker,
        backends: Option<Backends>,
        hears_clients: bool,
        connections_from: Option<u64>,
    ) -> Result<Arc<Shared>, ServerFault>
        ensures { IfOk result (λ s. Begins inboxes backends hears_clients (arc_value s)) }
    {
        let shared = Shared {
            counts: Mutex::new(Metrics::new(alloc, inboxes.len())?),
            showing: showing_for(alloc, inboxes.len().saturating_add(1))?,
            inboxes,
            acceptor,
            backends,
            lives: hears_clients.then(|| Mutex::new(HashMap::new(alloc))),
            standing: Mutex::new(Standing::new(alloc, connections_from)),
            begun: Arrivals::default(),
            ended: Arrivals::default(),
        };
        Ok(Arc::new(alloc, shared)?)
    }

    /// A connection from an address was closed.
    pub fn note_closed(&self, rt: &impl Wait, from: u128) {
        let is_over = self.standing.lock(rt).leave(from);
        if is_over {
            self.wake_everyone(rt);
        }
    }

    /// No more connections are to be accepted.
    pub fn stop_accepting(&self, rt: &impl Wait) {
        self.standing.lock(rt).closing = true;
        self.wake_everyone(rt);
        // A bell that can't be rung leaves the acceptor waiting for one more connection.
        let _ = self.acceptor.wake();
    }

    /// The server is to end: it accepts no more, and what is open gets a while to end.
    pub fn stop<R: Wait + Clock>(&self, rt: &R, grace: Duration) {
        self.stop_accepting(rt);
        self.ended.wait_for(rt, self.inboxes.len(), grace);
        self.standing.lock(rt).cutting = true;
        self.wake_everyone(rt);
    }

    /// Has each loop look at all of its connections.
    pub fn wake_everyone(&self, rt: &impl Wait) {
        for inbox in self.inboxes.iter() {
            inbox.put(rt, |mailbox| mailbox.wake_everyone());
        }
    }
}

/// How far a server is.
#[derive(Drop)]
pub struct Standing {
    /// The connections that are open, those on their way to a loop among them.
    pub connections: u64,
    /// How many are open from each address, if that is bounded.
    pub addresses: Option<Addresses>,
    /// No more connections are accepted.
    pub closing: bool,
    /// What is still open is to end.
    pub cutting: bool,
}

impl Standing {
    /// Nothing is open yet. From one address so many connections may be, if that is bounded.
    pub fn new(alloc: Global, connections_from: Option<u64>) -> Standing
        ensures { standings.Begins connections_from result }
    {
        Standing {
            connections: 0,
            addresses: connections_from.map(|most| Addresses::new(alloc, most)),
            closing: false,
            cutting: false,
        }
    }

    /// Whether nothing is open, and nothing more will be.
    pub fn is_over(&self) -> bool
        ensures { result ≡ standings.is_over self.now }
    {
        self.closing && self.connections == 0
    }

    /// A connection from an address came, where so many may be open. Answers why it has no place.
    pub fn admit(&mut self, most: u64, from: u128) -> Result<(), Reason>
        ensures full { IsErrOf result Reason.NoPlace ↔ (most ≤ self.old.connections) }
        ensures crowded { IfErr result (λ reason. (reason ≡ Reason.NoPlace)
            ⊎ ((reason ≡ Reason.ManyFromAddress) × IsCrowded self.old.addresses from)) }
        ensures place { OnOk result (HasPlace self.old.addresses from) }
        ensures counted { OnOk result (standings.Admits from self.old self.new) }
        ensures kept { OnErr result (standings.Stays from self.old self.new) }
    {
        if self.connections >= most {
            return Err(Reason::NoPlace);
        }
        let has_place = match &mut self.addresses {
            Some(addresses) => addresses.admit(from),
            None => true,
        };
        if !has_place {
            return Err(Reason::ManyFromAddress);
        }
        self.connections = self.connections.saturating_add(1);
        Ok(())
    }

    /// A connection from an address was closed. Answers whether nothing is or will be open now.
    pub fn leave(&mut self, from: u128) -> bool
        ensures over { result ≡ standings.is_over self.new }
        ensures left { self.new.connections ≡ self.old.connections - 1 }
        ensures released { standings.Counts (λ n. n - 1) from
            self.old.addresses self.new.addresses }
        ensures stays { standings.IsAsFar self.old self.new }
    {
        if let Some(addresses) = &mut self.addresses {
            addresses.release(from);
        }
        self.connections = self.connections.saturating_sub(1);
        self.is_over()
    }
}

/// What the threads of a server know of its backends.
#[derive(Drop)]
pub struct Backends {
    /// The namespace that they join, and the names of the others.
    pub space: Text,
    pub others: Vec<Text>,
    /// How many entries and bytes an outbox may have.
    pub capacity: usize,
    pub bytes: usize,
    /// How many events of clients went to no backend.
    unheard: Mutex<u64>,
}

/// Copies of these names but for one.
fn others_than(alloc: Global, space: &str, names: &[Text]) -> Result<Vec<Text>, AllocError>
    ensures { IfOk result (λ others. others.items ≡ backends.others_than space.now names.now) }
{
    let mut others = Vec::new(alloc);
    for name in names {
        if name.as_str() != space {
            others.push(Text::copy_of(alloc, name.as_str())?)?;
        }
    }
    Ok(others)
}

/// What is known of the backends before one has come, if there may be some.
pub fn backends_for(alloc: Global, settings: &Settings) -> Result<Option<Backends>, AllocError>
    ensures { IfOk result (λ known. option_map backends.known_of known
        ≡ option_map (backends.known_by settings.now.hub) settings.now.backends) }
{
    let Some(space) = &settings.backends else {
        return Ok(None);
    };
    Ok(Some(Backends {
        space: Text::copy_of(alloc, space.as_str())?,
        others: others_than(alloc, space.as_str(), &settings.hub.spaces)?,
        capacity: settings.hub.capacity,
        bytes: settings.hub.bytes,
        unheard: Mutex::default(),
    }))
}

impl Backends {
    /// So many more events of clients went to no backend. Answers how many have, these among them.
    pub fn note_unheard(&self, rt: &impl Wait, more: u64) -> u64
        ensures { more ≤ result }
    {
        let mut unheard = self.unheard.lock(rt);
        *unheard = unheard.saturating_add(more);
        *unheard
    }
}

/// What an event of a client showed.
#[derive(Clone, Copy)]
pub struct Sign {
    pub client: u128,
    /// It was a message that was worked on, and then nothing waited for its client.
    pub rests: bool,
    /// The digits with which the ids of the client's sockets begin, a bit each, where it brought
    /// messages that backends hear of; none where it is a backend.
    pub digits: Option<u16>,
}

/// What the events of a worker showed since it looked last.
#[derive(Drop)]
pub struct Shown {
    pub signs: Vec<Sign>,
    /// The digits of the backends that are pressed, a bit each, if there may be backends.
    pub pressed: Option<u16>,
    /// One of them is pressed no more.
    pub relieved: bool,
}

impl Shown {
    /// Nothing was shown yet.
    pub fn new(alloc: Global) -> Shown
        ensures { ShowsNothing result }
    {
        Shown {
            signs: Vec::new(alloc),
            pressed: None,
            relieved: false,
        }
    }

    /// Whether a client brought messages, and nothing waited for it after any of them.
    pub fn rests(&self, client: u128) -> bool
        ensures { result ≡ shown.rests client self.now.signs.items }
    {
        self.has_rested(client) && !self.has_waited(client)
    }

    /// Whether nothing waited for a client after some message.
    fn has_rested(&self, client: u128) -> bool
        ensures { result ≡ shown.has_rested client self.now.signs.items }
    {
        self.signs
            .iter()
            .any(|sign| sign.client == client && sign.rests)
    }

    /// Whether something waited for a client after some message.
    fn has_waited(&self, client: u128) -> bool
        ensures { result ≡ shown.has_waited client self.now.signs.items }
    {
        self.signs
            .iter()
            .any(|sign| sign.client == client && !sign.rests)
    }

    /// All of it was heeded.
    pub fn clear(&mut self)
        ensures { ShowsNothing self.new }
    {
        self.signs.clear();
        self.pressed = None;
        self.relieved = false;
    }
}

/// What is shown to so many workers: nothing yet.
fn showing_for(alloc: Global, workers: usize) -> Result<Vec<Mutex<Shown>>, AllocError>
    ensures { IfOk result (λ showing. vec_len showing ≡ workers) }
{
    let mut showing = Vec::new(alloc);
    for _worker in 0..workers {
        showing.push(Mutex::new(Shown::new(alloc)))?;
    }
    Ok(showing)
}
