//! One connection as a value, and what it is about.

ghost use Rattle.std.specs.Prelude.{◌≡◌};
ghost use Rattle.loop_rules.specs.Course as courses;
ghost use Rattle.loop_rules.specs.Link as links;

use crate::deadlines::Period;
use crate::looks::{EVENTS, Pause};
use crate::paces::carried;
use crate::receiving::Sender;
use events::{Answered, Loss, Retry};
use http_edge::Target;

/// By what a connection is served.
#[derive(Clone, Copy, Debug)]
pub enum Serving {
    /// A request over HTTP, from a moment on.
    Request { from: u64 },
    /// A POST that hasn't brought its packets, of which so many count as events of its client.
    Post { events: u64 },
    /// A WebSocket: whether its client speaks over it, and when it was last asked what is due.
    Socket { speaks: bool, asked: u64 },
}

/// What a connection is about.
#[derive(Clone, Copy, Debug)]
pub enum Course {
    /// Its request is coming.
    Gathers,
    /// It is served.
    Serves(Serving),
    /// Its client is lost, of which the core is told.
    Loses(Loss),
    /// What is unsent goes out, and then it ends. Whether the core was told of its loss.
    Closes { told: bool },
    /// So it did, and what still comes is read and forgotten until the other side ends it.
    Lingers,
}

impl Serving {
    /// By what a request is served: a POST of so many events, a WebSocket, or another one later.
    pub fn of(target: Target, events: u64, from: u64) -> Serving
        ensures { result ≡ courses.serving_of target events from }
    {
        match target {
            Target::Post(_) => Serving::Post { events },
            Target::OpenSocket | Target::ProbeSocket(_) => {
                let (speaks, asked) = (false, 0);
                Serving::Socket { speaks, asked }
            }
            _ => Serving::Request { from },
        }
    }
}

/// How many events of its client a request brings: the packets of a POST, where they count.
pub fn events_in(target: Target, body: &str, count: bool) -> u64
    ensures { result ≡ courses.events_in target body.now count }
{
    match target {
        Target::Post(_) if count => carried(body),
        _ => 0,
    }
}

/// Whose request has this target, where it names a client.
pub fn client_of(target: Target) -> Option<u128>
    ensures { result ≡ courses.client_of target }
{
    match target {
        Target::Poll(client) | Target::Post(client) | Target::ProbeSocket(client) => Some(client),
        _ => None,
    }
}

impl Course {
    /// Whether a POST is to bring its packets.
    pub fn is_post(self) -> bool
        ensures { result ≡ courses.is_post self }
    {
        matches!(self, Course::Serves(Serving::Post { .. }))
    }

    /// Whether a WebSocket is served.
    pub fn is_socket(self) -> bool
        ensures { result ≡ courses.is_socket self }
    {
        matches!(self, Course::Serves(Serving::Socket { .. }))
    }

    /// Whether a client is known to send over it: by a POST, or over a WebSocket that is its own.
    pub fn speaks(self) -> bool
        ensures { result ≡ courses.speaks self }
    {
        match self {
            Course::Serves(Serving::Post { .. }) => true,
            Course::Serves(Serving::Socket { speaks, .. }) => speaks,
            _ => false,
        }
    }

    /// Whether it is read for a request or messages, or is to bring packets: then it may be held.
    pub fn is_receiving(self) -> bool
        ensures { result ≡ courses.is_receiving self }
    {
        match self {
            Course::Gathers => true,
            Course::Serves(Serving::Post { .. } | Serving::Socket { .. }) => true,
            _ => false,
        }
    }

    /// How many events it brings next.
    pub fn events_next(self) -> u64
        ensures { result ≡ courses.events_next self }
    {
        match self {
            Course::Serves(Serving::Post { events }) => events,
            Course::Serves(Serving::Socket { .. }) => 1,
            _ => 0,
        }
    }

    /// Its peer has brought an event, which asks what is due or doesn't, at this moment.
    pub fn brought(self, asks_due: bool, asked: u64) -> Course
        ensures { result ≡ courses.brought asks_due asked self }
    {
        match self {
            Course::Serves(Serving::Post { .. }) => Course::Serves(Serving::Request { from: 0 }),
            Course::Serves(Serving::Socket { speaks, .. }) if asks_due => Course::Serves(
                Serving::Socket { speaks, asked },
            ),
            other => other,
        }
    }
}

/// A connection with more bytes unsent than this is not served until they have gone.
const MOST_UNSENT: usize = 65_536;

/// For how long what is due to a client isn't asked again, in milliseconds.
const DUE: u64 = 10;

/// What is seen of a connection's stream, and of its peer.
#[derive(Clone, Copy, Debug)]
pub struct Seen {
    /// How many bytes wait to be sent.
    pub unsent: usize,
    /// How many bytes were read of which no event was brought.
    pub unbrought: usize,
    /// The stream has no more, as far as is known.
    pub drained: bool,
    /// The peer has nothing to bring until something comes.
    pub idle: bool,
    /// The peer's next event is to ask what is due to a client that speaks.
    pub asks_due: bool,
    /// The peer's last read brought nothing at all.
    pub has_read_nothing: bool,
    /// More of what is to be sent is to be put behind what is unsent.
    pub has_more: bool,
}

impl Seen {
    /// So is seen of one that is gone: it has no more, and nothing to bring.
    pub fn gone() -> Seen
        ensures { result ≡ links.seen_gone }
    {
        Seen {
            unsent: 0,
            unbrought: 0,
            drained: true,
            idle: true,
            asks_due: false,
            has_read_nothing: false,
            has_more: false,
        }
    }

    /// Whether so much is unsent that it is not to be served.
    pub fn is_full(self) -> bool
        ensures { result ≡ links.is_full self }
    {
        self.unsent > MOST_UNSENT
    }

    /// Whether all that was read was brought, and its stream has no more, as far as is known.
    pub fn has_brought_all(self) -> bool
        ensures { result ≡ links.has_brought_all self }
    {
        self.unbrought == 0 && self.drained
    }
}

/// What is to be done with a connection.
#[derive(Clone, Copy, Debug)]
pub enum Do {
    Nothing,
    /// It is read on for its request.
    Gather,
    /// Its peer brings its next event: without a read, where its client waits. A GET that waits is
    /// read first, of which what comes is forgotten.
    Bring { drains: bool, reads: bool },
    /// The rest of its peer's round is passed over: nothing can be due that wasn't.
    Pass,
    /// The core is told that its client is lost.
    Tell(Loss),
    /// What comes is read and forgotten, until the other side has ended it.
    Drain,
    /// Its stint goes on.
    GoOn,
    /// Its stint is over for this reason, and what it has to send goes out.
    Rest(Pause),
    /// Its stint is over, and what it has to send goes out.
    Send,
    /// It is looked at, once others had their stints.
    Queue,
    /// It may be served again, if it waits for that.
    Fit,
    /// It is told that nothing waits.
    GiveUp,
    /// Its client is lost, if it has one.
    Fail,
    /// The other side is told that nothing more comes, and what it still sends is read.
    Shut,
    /// Nothing more is read of it, or sent.
    Cut,
    /// It is over.
    End,
}

/// One connection.
#[derive(Clone, Copy, Debug)]
pub struct Link {
    pub course: Course,
    /// Whose it is, once that is known.
    pub client: Option<u128>,
    /// The moment at which its course began.
    pub since: u64,
    /// The moment at which its bytes last went on.
    pub moved: u64,
    /// How many events are left of its stint.
    pub left: u32,
    /// It stands in the list of those with bytes to send.
    pub unsent: bool,
    /// It stands in the list of those that aren't read on.
    pub held: bool,
    /// It brings nothing of its client, for which much waits at a backend, or which sent too fast.
    pub waits: bool,
    /// The moment until which it waits since its client sent too fast, 0 where it doesn't.
    pub paced: u64,
    /// How many bytes of its request or message count to the loop's share of what isn't whole.
    pub counted: usize,
}

impl Link {
    /// Its request is coming.
    pub fn new(now: u64) -> Link
        ensures { result ≡ links.first now }
    {
        Link {
            course: Course::Gathers,
            client: None,
            since: now,
            moved: now,
            left: EVENTS,
            unsent: false,
            held: false,
            waits: false,
            paced: 0,
            counted: 0,
        }
    }

    /// One that is over.
    pub fn over() -> Link
        ensures { result ≡ links.over }
    {
        Link::new(0).turn_to(Course::Lingers, 0)
    }

    /// It is about this from a moment on.
    pub fn turn_to(self, course: Course, since: u64) -> Link
        ensures { result ≡ links.turned_to course since self }
    {
        let link = Link { course, ..self };
        Link { since, ..link }
    }

    /// Its peer has failed: its client is lost, if it has one.
    pub fn fail(self, now: u64) -> Link
        ensures { result ≡ links.failed now self }
    {
        let course = match self.client {
            Some(client) => Course::Loses(Loss::new(client)),
            None => Course::Closes { told: false },
        };
        self.turn_to(course, now)
    }

    /// Who sends over it: its client, once it speaks over it. It has this key.
    pub fn sender(self, key: usize) -> Sender
        ensures { result ≡ links.sender_of key self }
    {
        match self.client {
            Some(client) if self.course.speaks() => Sender::Client(client),
            _ => Sender::Connection(key),
        }
    }

    /// How many bytes came of what isn't whole, or of packets that it hasn't brought.
    pub fn bytes_unfinished(self, seen: Seen) -> usize
        ensures { result ≡ links.bytes_unfinished seen self }
    {
        let receives = self.course.is_receiving();
        if receives { seen.unbrought } else { 0 }
    }

    /// What it does next.
    pub fn next(self, seen: Seen, now: u64) -> Do
        ensures { result ≡ links.next_of seen now self }
    {
        let serving = match self.course {
            Course::Gathers => return Do::Gather,
            Course::Serves(_) if seen.is_full() => return Do::Rest(Pause::Full),
            Course::Serves(serving) => serving,
            Course::Loses(loss) => return Do::Tell(loss),
            Course::Closes { .. } => return Do::Rest(Pause::Done),
            Course::Lingers => return Do::Drain,
        };
        let (drains, reads) = match serving {
            Serving::Request { from } if from > now => return Do::Rest(Pause::Early),
            Serving::Request { .. } => (seen.idle, true),
            Serving::Post { .. } => (false, true),
            Serving::Socket { asked, .. } if seen.asks_due && now < asked.saturating_add(DUE) =>
                return Do::Pass,
            Serving::Socket { .. } => (false, !self.waits),
        };
        Do::Bring { drains, reads }
    }

    /// Whether all that came for its WebSocket was brought, and no more is there, or is read.
    pub fn is_dry(self, seen: Seen) -> bool
        ensures { result ≡ links.is_dry seen self }
    {
        let has_brought_all = self.waits || seen.has_brought_all();
        self.course.is_socket() && (has_brought_all || seen.has_read_nothing)
    }

    /// Its client is lost, of which the core was told, and answered this. Where it refused, it is
    /// told again; else the connection ends once its bytes have gone.
    pub fn hear_loss(&mut self, got: &Answered, now: u64) -> Option<Pause>
        ensures pause { result ≡ links.after_loss self.old.course got.now }
        ensures link { self.new ≡ links.heard_loss got.now now self.old }
    {
        let Course::Loses(mut loss) = self.course else {
            return None;
        };
        if loss.hears(got) == Retry::Again {
            self.course = Course::Loses(loss);
            return Some(Pause::More);
        }
        *self = self.turn_to(Course::Closes { told: true }, now);
        Some(Pause::Done)
    }

    /// Some of its bytes were sent, of which so many are left.
    pub fn moved(self, count: usize, left: usize, now: u64) -> Link
        ensures { result ≡ links.moved_on count left now self }
    {
        let moves = count > 0 || left == 0;
        let moved = if moves { now } else { self.moved };
        Link { moved, ..self }
    }

    /// What follows once bytes were sent. A file's next piece comes after the stints of others. A
    /// request over HTTP was read whole, and its stream is closed at once; else it is read on,
    /// since a stream that is closed with bytes unread takes back what was sent.
    pub fn sent(self, seen: Seen, is_request: bool) -> Do
        ensures { result ≡ links.after_sending seen is_request self }
    {
        let closes = matches!(self.course, Course::Closes { .. });
        match seen.unsent {
            0 if seen.has_more => Do::Queue,
            0 if closes && is_request => Do::End,
            0 if closes => Do::Shut,
            0..=MOST_UNSENT if !seen.has_more => Do::Fit,
            _ => Do::Nothing,
        }
    }

    /// Its bytes can't be sent. A WebSocket is read no more, so its peer finds that it has ended.
    /// An answer over HTTP that can't be sent loses its client, unless the core was told of that.
    pub fn unsendable(self, is_request: bool) -> Do
        ensures { result ≡ links.after_failure is_request self }
    {
        match self.course {
            Course::Closes { told: true } => Do::End,
            _ if self.client.is_none() => Do::End,
            Course::Loses(_) => Do::Cut,
            _ if is_request => Do::Queue,
            Course::Serves(_) => Do::Cut,
            Course::Gathers | Course::Closes { .. } | Course::Lingers => Do::End,
        }
    }

    /// What it is at: whether its GET waits, it takes for its client, and all are to end.
    pub fn period(self, waits: bool, is_taker: bool, cutting: bool) -> Period
        ensures { result ≡ links.period_of waits is_taker cutting self }
    {
        match self.course {
            Course::Gathers | Course::Serves(Serving::Post { .. }) => Period::Request,
            Course::Loses(_) | Course::Closes { .. } if !cutting => Period::Sends,
            Course::Loses(_) | Course::Closes { .. } | Course::Lingers => Period::Ends,
            Course::Serves(Serving::Request { .. }) if waits => Period::Waits,
            Course::Serves(Serving::Socket { .. }) if self.client.is_some() && !is_taker =>
                Period::Knocks,
            Course::Serves(_) => Period::Served,
        }
    }
}
