//! When the server pings a client, and when it gives a silent one up (Engine.IO protocol 4,
//! "Heartbeat" and "Upgrade").
#![tactic(auto, unfolding(crate::specs::ClockHistory::moment, crate::specs::ClockHistory::was_joined, crate::specs::Heartbeat::awaited_ping, crate::specs::Heartbeat::interval_start, crate::specs::Heartbeat::due_at, crate::specs::Upgrade::transport, crate::specs::Clock::IsLegal))]

ghost use Rattle.std.specs.Prelude.{◌≡◌, ◌≤◌, []};
ghost use Rattle.connection.specs.ClockHistory.{Ticked, Ponged, Joined, Probed, Upgraded, ProbeLost};
ghost use Rattle.connection.specs.Heartbeat.{due, due_at};
ghost use Rattle.connection.specs.Upgrade.{probe_refusal, unprobed_refusal};
ghost use Rattle.connection.specs.Clock.{LeadsTo, ForEachHistory, Advances, HasHistory, StepsBy, state_after};

use std::marker::Model;

/// The intervals of a heartbeat, in milliseconds (Engine.IO protocol 4, "Heartbeat").
#[derive(Clone, Copy, PartialEq, Eq, Debug)]
pub struct Timing {
    /// From the opening, and from each pong that was awaited, to the next ping.
    pub ping_interval: u64,
    /// How long the pong to a ping may take. At the end of it the client is given up.
    pub ping_timeout: u64,
    /// How long a client may take to join its first namespace (Socket.IO server documentation,
    /// "connectTimeout").
    pub connect_timeout: u64,
}

/// What the server owes a client at a tick.
#[derive(Clone, Copy, PartialEq, Eq, Debug)]
pub enum Due {
    /// Nothing yet.
    Nothing,
    /// A ping is to be sent. Its pong is awaited from this moment on.
    SendPing,
    /// The awaited pong didn't come in time.
    PingTimeout,
    /// No namespace was joined in time.
    ConnectTimeout,
}

/// How a client speaks with the server (Engine.IO protocol 4, "Transports" and "Upgrade").
#[derive(Clone, Copy, PartialEq, Eq, Debug)]
pub enum Transport {
    /// Over HTTP long-polling.
    Polling,
    /// Over HTTP long-polling, while a probe tries a WebSocket.
    Probing,
    /// Over a WebSocket. A client never goes back from here.
    Socket,
}

/// What a clock shows of itself.
#[derive(Clone, Copy, PartialEq, Eq, Debug)]
pub struct ClockState {
    /// How the client speaks.
    pub transport: Transport,
    /// Whether the pong to a ping is awaited.
    pub awaiting: bool,
    /// Whether a namespace was joined.
    pub joined: bool,
    /// The greatest moment that was handed in so far, in milliseconds.
    pub last: u64,
}

/// Why a change of transport is refused.
#[derive(Clone, Copy, PartialEq, Eq, Debug)]
pub enum ClockError {
    /// The client polls and sent no probe, so there is nothing to upgrade and no probe to lose.
    NotProbing,
    /// A probe runs already.
    AlreadyProbing,
    /// The client speaks over a WebSocket, from the start or since its upgrade.
    AlreadyUpgraded,
}

/// One client's heartbeat, connection timeout and transport. All moments are milliseconds of one
/// clock; one that is earlier than the last that was handed in counts as that last one.
///
/// Contracts see the few fields of `Contents`, and speak of histories: the opening and the calls
/// that lead to these contents. Every clock has such a history.
#[derive(Drop)]
pub struct Clock {
    timing: Timing,
    opened: u64,
    /// The greatest moment that was handed in.
    last: u64,
    /// The opening or, after it, the last pong that was awaited.
    interval_start: u64,
    /// When the ping was sent whose pong is awaited.
    ping: Option<u64>,
    joined: bool,
    transport: Transport,
}

impl Model for Clock {
    ghost use Rattle.connection.specs.ClockContents.{Contents};

    ghost Value = { Contents };

    ghost use Rattle.connection.specs.Clock.{HasHistory};
    ghost use Rattle.connection.specs.ClockFields.{contents_of};

    ghost view = { contents_of };

    ghost invariant = { λ c. HasHistory (contents_of c) };
}

impl Clock {
    /// The clock of a client that opens now, over a WebSocket or by polling.
    pub fn open(now: u64, timing: Timing, socket: bool) -> Clock
        ensures { LeadsTo (record { now = now; timing = timing; socket = socket }) [] result }
    {
        Clock {
            timing,
            opened: now,
            last: now,
            interval_start: now,
            ping: None,
            joined: false,
            transport: if socket {
                Transport::Socket
            } else {
                Transport::Polling
            },
        }
    }

    /// What is due now. `SendPing` makes this moment that of the ping; a timeout changes only the
    /// last moment, so it is answered again at the next tick.
    pub fn tick(&mut self, now: u64) -> Due
        ensures due { ForEachHistory self.old (λ o h. result ≡ due o h now) }
        ensures leads { Advances self.old (Ticked now result) self.new }
    {
        let now = self.last.max(now);
        let due = self.due_at(now);
        self.last = now;
        if due == Due::SendPing {
            self.ping = Some(now);
        }
        due
    }

    /// What is due at a moment that is no earlier than the last.
    fn due_at(&self, now: u64) -> Due
        requires { self.now.last ≤ now }
        ensures { ForEachHistory self.now (λ o h. result ≡ due_at o h now) }
    {
        if let Some(ping) = self.ping
            && now - ping >= self.timing.ping_timeout
        {
            return Due::PingTimeout;
        }
        if !self.joined && now - self.opened >= self.timing.connect_timeout {
            return Due::ConnectTimeout;
        }
        if self.ping.is_none() && now - self.interval_start >= self.timing.ping_interval {
            return Due::SendPing;
        }
        Due::Nothing
    }

    /// The client sent a pong. One that isn't awaited changes only the last moment.
    pub fn pong(&mut self, now: u64)
        ensures { Advances self.old (Ponged now) self.new }
    {
        self.last = self.last.max(now);
        if self.ping.is_some() {
            self.ping = None;
            self.interval_start = self.last;
        }
    }

    /// The client joined a namespace, so the connection timeout is over.
    pub fn joined(&mut self)
        ensures { Advances self.old Joined self.new }
    {
        self.joined = true;
    }

    /// A probe over a WebSocket begins. Refused while one runs and after an upgrade.
    pub fn probe(&mut self) -> Result<(), ClockError>
        ensures { StepsBy Probed probe_refusal self.old result self.new }
    {
        self.transport = match self.transport {
            Transport::Polling => Transport::Probing,
            Transport::Probing => return Err(ClockError::AlreadyProbing),
            Transport::Socket => return Err(ClockError::AlreadyUpgraded),
        };
        Ok(())
    }

    /// The probe succeeded, and the client speaks over the WebSocket from now on. Refused unless a
    /// probe runs.
    pub fn upgrade(&mut self) -> Result<(), ClockError>
        ensures { StepsBy Upgraded unprobed_refusal self.old result self.new }
    {
        self.transport = match self.transport {
            Transport::Polling => return Err(ClockError::NotProbing),
            Transport::Probing => Transport::Socket,
            Transport::Socket => return Err(ClockError::AlreadyUpgraded),
        };
        Ok(())
    }

    /// The probe failed, and the client goes on polling. Refused unless a probe runs.
    pub fn probe_lost(&mut self) -> Result<(), ClockError>
        ensures { StepsBy ProbeLost unprobed_refusal self.old result self.new }
    {
        self.transport = match self.transport {
            Transport::Polling => return Err(ClockError::NotProbing),
            Transport::Probing => Transport::Polling,
            Transport::Socket => return Err(ClockError::AlreadyUpgraded),
        };
        Ok(())
    }

    /// The transport, whether a pong is awaited, whether a namespace was joined, the last moment.
    pub fn state(&self) -> ClockState
        ensures shown { ForEachHistory self.now (λ o h. result ≡ state_after o h) }
        ensures reached { HasHistory self.now }
    {
        ClockState {
            transport: self.transport,
            awaiting: self.ping.is_some(),
            joined: self.joined,
            last: self.last,
        }
    }
}
