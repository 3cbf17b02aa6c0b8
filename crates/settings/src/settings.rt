//! The settings of a server: which are usual, and which allow no server.

ghost use Rattle.std.specs.Prelude.{◌≡◌, ◌<◌, ◌≤◌, None, Some, IfOk};
ghost use Rattle.settings.specs.Usual.{IsUsual};
ghost use Rattle.settings.specs.Wrong as rules;
ghost use Rattle.settings.specs.Wrong.{told, wrong_setting};

use crate::usual;
use connection::Timing;
use eio_wire::Numbers;
use journal::Config;
use page::Page;
use std::alloc::{AllocError, Global};
use std::fmt;
use terms::Text;

/// The most workers: as many as an id can tell.
const MOST_WORKERS: usize = 1_024;

/// The most bytes of a request's body, and of a frame.
pub const MOST_BYTES: u64 = 1_000_000;

/// The fewest bytes of which all that is received may be bounded: more than one request has.
pub const LEAST_RECEIVING: u64 = 1_048_576;

/// A setting that can be wrong.
#[derive(Clone, Copy, Debug, PartialEq, Eq)]
pub enum Setting {
    /// No loop, or more than 1,023, or 1,022 where there is a warden.
    Workers,
    /// No connection together.
    Together,
    /// No entry in a payload over HTTP.
    PollEntries,
    /// No time from ping to ping, for the answer, or for the joining of a namespace.
    Timing,
    /// No byte in a payload, or more than are taken.
    MaxPayload,
    /// Too few bytes for what is being received.
    Receiving,
    /// No event a second or more than 1,000,000, or none at once.
    Pace,
    /// No connection from an address.
    ConnectionsFrom,
    /// The hub allows no such limits or namespaces.
    Limits,
}

impl fmt::Display for Setting {
    ghost output = { λ setting. Some (told setting) };

    fn fmt<W: fmt::Write>(&self, f: &mut fmt::Formatter<W>) -> fmt::Result {
        f.write_str(match self {
            Setting::Workers => "number of workers",
            Setting::Together => "number of connections together",
            Setting::PollEntries => "number of entries in a payload",
            Setting::Timing => "timing",
            Setting::MaxPayload => "size of payloads",
            Setting::Receiving => "bound of what is received",
            Setting::Pace => "pace",
            Setting::ConnectionsFrom => "number of connections from an address",
            Setting::Limits => "limits",
        })
    }
}

/// The most events a second of one client that may be said.
pub const MOST_RATE: u64 = 1_000_000;

/// How fast one client may send.
#[derive(Clone, Copy, Debug, PartialEq, Eq)]
pub struct Pace {
    /// How many events a second, 1 to 1,000,000.
    pub rate: u64,
    /// How many at once, at least 1.
    pub burst: u64,
}

impl Pace {
    /// Whether it lets nothing through, or has more events than may be said.
    fn is_bad(self) -> bool
        ensures { result ≡ rules.is_bad_pace self }
    {
        self.rate == 0 || self.rate > MOST_RATE || self.burst == 0
    }
}

/// Whether some time of the heartbeat is 0.
fn has_no_time(timing: &Timing) -> bool
    ensures { result ≡ rules.has_no_time timing.now }
{
    timing.ping_interval == 0 || timing.ping_timeout == 0 || timing.connect_timeout == 0
}

/// By what the sockets of tokens that have expired are ended.
#[derive(Drop)]
pub struct Warding {
    /// The token by which the warden joins its namespace. It stands in no output.
    pub token: Text,
    /// The wall clock at moment 0, in seconds since 1970.
    pub began: u32,
}

/// What a server is started with.
#[derive(Drop)]
pub struct Settings {
    /// The host's name or address, and the port; where it is 0, the system chooses one.
    pub host: String,
    pub port: u16,
    /// How many loops serve, 1 to 1,023, since the keeper of time is a worker too, and so is the
    /// warden, if there is one.
    pub workers: usize,
    /// After how many connections the server ends, if it does.
    pub connections: Option<u64>,
    /// The limits of the hub, and its namespaces.
    pub hub: Config,
    /// When a client is pinged, and when it is given up. No time of these is 0.
    pub timing: Timing,
    /// How many bytes a payload may have, as clients are told: 1 to 1,000,000. The server takes so
    /// many of each, whatever it told.
    pub max_payload: u64,
    /// How many bytes all that is being received may have together, at least 1,048,576: requests
    /// and messages that aren't whole, and attachments of packets that aren't. Each loop has an equal
    /// share of it.
    pub receiving: usize,
    /// How many connections, one after another, one loop is given before the next one is, at least
    /// 1. Who comes at the same time is often in the same rooms, and one loop serves these without
    /// waking another.
    pub together: u64,
    /// How many entries one payload over HTTP may have, at least 1.
    pub poll_entries: usize,
    /// The origins of the pages that are served and may read answers, `*` for all. Where there are
    /// none, all are served, and answers say nothing of origins.
    pub origins: Vec<String>,
    /// The files that are served beside the socket's path.
    pub page: Page,
    /// The path at which a GET is answered by the counts, if one is.
    pub metrics: Option<String>,
    /// Every how many seconds the log is told the totals, if it is.
    pub report: Option<u64>,
    /// The namespace of the backends, if there may be some: while much waits for one, its clients
    /// aren't read.
    pub backends: Option<Text>,
    /// How fast one client may send, if that is bounded: beyond it its connection isn't read.
    pub pace: Option<Pace>,
    /// How many connections may be open from one address, at least 1, if that is bounded.
    pub connections_from: Option<u64>,
    /// By what the sockets of tokens that have expired are ended, if they are.
    pub warding: Option<Warding>,
}

impl Settings {
    /// The usual settings of a server with so many loops, at this port of the machine itself.
    pub fn usual(alloc: Global, port: u16, workers: usize) -> Result<Settings, AllocError>
        ensures { IfOk result (IsUsual port workers) }
    {
        Ok(Settings {
            host: String::from_str(alloc, usual::HOST)?,
            port,
            workers,
            connections: None,
            hub: usual::hub(alloc)?,
            timing: usual::TIMING,
            max_payload: usual::MAX_PAYLOAD,
            receiving: usual::RECEIVING,
            together: usual::TOGETHER,
            poll_entries: usual::POLL_ENTRIES,
            origins: Vec::new(alloc),
            page: Page::new(alloc),
            metrics: None,
            report: None,
            backends: None,
            pace: None,
            connections_from: None,
            warding: None,
        })
    }

    /// What clients are told of the timing, and of their payloads.
    pub fn numbers(&self) -> Numbers
        ensures { result ≡ record {
          ping_interval = self.now.timing.ping_interval;
          ping_timeout = self.now.timing.ping_timeout;
          max_payload = self.now.max_payload;
        } }
    {
        Numbers {
            ping_interval: self.timing.ping_interval,
            ping_timeout: self.timing.ping_timeout,
            max_payload: self.max_payload,
        }
    }

    /// How many workers there are beside the loops: the keeper of time, and the warden, if there is
    /// one.
    pub fn aides(&self) -> usize
        ensures number { result ≡ rules.aides self.now.warding }
        ensures few { result ≤ 2 }
    {
        match self.warding {
            Some(_) => 2,
            None => 1,
        }
    }

    /// The first setting that is wrong, if one is.
    pub fn wrong(&self) -> Option<Setting>
        ensures first { result ≡ wrong_setting self.now }
        ensures some { result ≡ None → 0 < self.now.workers }
    {
        if self.workers == 0 || self.workers > MOST_WORKERS - self.aides() {
            Some(Setting::Workers)
        } else if self.together == 0 {
            Some(Setting::Together)
        } else if self.poll_entries == 0 {
            Some(Setting::PollEntries)
        } else if has_no_time(&self.timing) {
            Some(Setting::Timing)
        } else if self.max_payload == 0 || self.max_payload > MOST_BYTES {
            Some(Setting::MaxPayload)
        } else if (self.receiving as u64) < LEAST_RECEIVING {
            Some(Setting::Receiving)
        } else if self.pace.is_some_and(Pace::is_bad) {
            Some(Setting::Pace)
        } else if self.connections_from == Some(0) {
            Some(Setting::ConnectionsFrom)
        } else if self.hub.is_bad() {
            Some(Setting::Limits)
        } else {
            None
        }
    }
}
