//! The state of a hub: what its base and its journal say, kept in maps.

ghost use Rattle.std.specs.Prelude.{◌≡◌, ◌+◌, ◌<◌, ◌≤◌, ◌||◌, max, List, [], ◌∷◌, ◌++◌, length, IfOk, IfErr, None, unwrap_or, min, reverse, option_copied, slice_get, if◌then◌else◌};
ghost use Rattle.room_maps.specs.Mirror.{IsMirrored};
ghost use Rattle.journal.specs.Config.{config_refusal, empty_base};
ghost use Rattle.journal.specs.Totals as counted;
ghost use Rattle.journal.specs.Totals.{is_past};
ghost use Rattle.journal.specs.Legal.{IsLegal, IsSound};
ghost use Rattle.journal.specs.Fields.{CanCount};
ghost use Rattle.journal.specs.Plain.{PlainBroadcast};
ghost use Rattle.journal.specs.Broadcast.{RightCast};
ghost use Rattle.journal.specs.Membership.{place_of, is_space, is_connected, sid_of, rooms};
ghost use Rattle.journal.specs.Outboxes.{total_size};
ghost use Rattle.journal.specs.declared.step.Step.{Step};
ghost use Rattle.journal.specs.declared.step.What.{What};
ghost use Rattle.hub_state.specs.Changes.{OfEach, Reports};
ghost use Rattle.hub_state.specs.Counting.{counts_after};
ghost use Rattle.hub_state.specs.EndedSockets.{held};
ghost use Rattle.hub_state.specs.Words.{spent_by, AllHear, opened, when_open, waits, outbox_for, logs, saves};

mod cast;
mod clients;
mod connect;
mod deliver;
mod end;
mod recover;
mod rooms;
mod seal;

use crate::client::{Clients, Outbox};
use crate::limits::Limits;
use crate::seats::Seats;
use crate::steps::Steps;
use continuity::heard_is_due;
pub use end::EndedSocket;
use journal::{Base, Config, Counts, HubError, Step, Totals, What};
use recovery::{PacketLog, Pid, SavedTable};
use room_maps::{RoomMap, Rooms, SocketMap};
use std::alloc::Global;
use std::collections::{BTreeSet, HashMap};
use std::marker::Model;
use terms::{Entry, Sid, let_go};

/// What a command answers, or why it is refused.
pub(crate) type Result<X = (), E = HubError> = std::result::Result<X, E>;

/// What a hub holds. In a contract it is its base, its limits and its journal, the newest step
/// first: all else is what these say.
pub struct State {
    limits: Limits,
    base: Base,
    records: Records,
    clients: Clients,
    live: Live,
    /// The sessions that may come back.
    saved: SavedTable,
    /// The broadcasts that a session which comes back may have missed.
    log: PacketLog,
    /// The sockets that ended since the base.
    ended_sockets: Vec<EndedSocket>,
}

/// Written out, so that a crate above takes the drop of all that lies in it by this one call.
impl Drop for State {
    fn drop(self) {
        let_go!(self; limits, base, records, clients, live, saved, log, ended_sockets);
    }
}

impl Model for State {
    ghost use Rattle.journal.specs.Journal.{History};
    ghost use Rattle.hub_state.specs.Inside.{history_of, Describes};

    ghost Value = { History };

    ghost view = { history_of };

    ghost invariant = { Describes };
}

/// The connected sockets by both their ids, and the rooms that they are in.
#[derive(Drop)]
pub(crate) struct Live {
    seats: Seats,
    pids: BTreeSet<Pid>,
    rooms: Rooms,
}

/// What is written down of the commands.
#[derive(Drop)]
pub(crate) struct Records {
    /// Their steps since the base.
    steps: Steps,
    /// The moment of the newest step, in milliseconds.
    last: u64,
    counts: Counts,
}

/// No counts: a command that adds to none but that of the commands.
pub(crate) const NONE: Counts = Counts {
    commands: 0,
    placed: 0,
    dropped: 0,
    taken: 0,
    discarded: 0,
};

impl Records {
    /// Adds a step, and counts one more command with what it adds beside itself. A moment before
    /// the last counts as the last.
    fn add(&mut self, now: u64, what: What, added: Counts)
        requires free { 0 < self.old.steps.free }
        requires counted { CanCount self.old.counts
            added.placed added.dropped added.taken added.discarded }
        ensures last { self.new.last ≡ max now self.old.last }
        ensures steps { let step : Step = record { at = max now self.old.last; what = what }
            in self.new.steps.steps ≡ step ∷ self.old.steps.steps }
        ensures counts { self.new.counts ≡ counts_after self.old.counts added }
    {
        self.last = now.max(self.last);
        self.counts.commands += 1;
        self.counts.placed += added.placed;
        self.counts.dropped += added.dropped;
        self.counts.taken += added.taken;
        self.counts.discarded += added.discarded;
        let at = self.last;
        self.steps.push(Step { at, what });
    }

    /// Whether the count of commands, of placed or of dropped entries would pass the greatest u64.
    fn passes(&self, puts: u64, drops: u64) -> bool
        ensures passes { let counts = self.now.counts in result ≡ (is_past (counts.commands + 1)
            || is_past (counts.placed + puts) || is_past (counts.dropped + drops)) }
        ensures small { self.now.counts.placed ≤ 18446744073709551615 }
    {
        let commands = self.counts.commands;
        let placed = self.counts.placed;
        let dropped = self.counts.dropped;
        commands == u64::MAX || puts > u64::MAX - placed || drops > u64::MAX - dropped
    }
}

/// The state of a new hub.
fn empty_base(alloc: Global, config: &Config) -> Base
    ensures { result ≡ empty_base config.now.first_offset }
{
    Base {
        at: 0,
        next: Some(config.first_offset),
        clients: Vec::new(alloc),
        pairs: Vec::new(alloc),
        log: Vec::new(alloc),
        saved: Vec::new(alloc),
        totals: Totals::default(),
    }
}

impl State {
    /// A hub with no clients and an empty journal. Refused as `BadConfig`, then for `Memory`. It
    /// compares each two of the namespaces.
    pub fn new(alloc: Global, config: Config) -> Result<State>
        ensures ok { IfOk result (λ state. (config_refusal config ≡ None) × (state
            ≡ record { base = empty_base config.first_offset; limits = config; journal = [] })) }
        ensures err { IfErr result (λ e. e ≡ unwrap_or (config_refusal config) HubError.Memory) }
    {
        if config.is_bad() {
            return Err(HubError::BadConfig);
        }
        let log = PacketLog::new(alloc, config.log, config.log_bytes, config.first_offset).map_err(
            |_| HubError::Memory,
        )?;
        let limits = Limits::new(alloc, config)?;
        let config = limits.config();
        let base = empty_base(alloc, config);
        let saved = SavedTable::new(alloc, config.saved);
        let live = Live {
            seats: Seats::new(alloc),
            pids: BTreeSet::new(alloc),
            rooms: Rooms::new(alloc),
        };
        live.rooms.kept_facts();
        let records = Records {
            steps: Steps::new(alloc),
            last: 0,
            counts: NONE,
        };
        Ok(State {
            limits,
            base,
            records,
            clients: HashMap::new(alloc),
            live,
            saved,
            log,
            ended_sockets: Vec::new(alloc),
        })
    }

    /// What holds of every hub: its journal is legal, each of its broadcasts reached whom it was
    /// for, its state is sound, and each connected session has heard just the journal's logged
    /// broadcasts that are due to it, once and in order, where its client always named truly what
    /// it got last, its rooms stayed the same from that broadcast to the loss, and no full outbox
    /// dropped one for it. It has no effect.
    pub fn facts(&self)
        ensures legal { IsLegal self.now.base self.now.limits self.now.journal }
        ensures casts { (later before : List Step) (step : Step) (b : PlainBroadcast)
            → self.now.journal ≡ later ++ step ∷ before → step.what ≡ What.Cast b
            → RightCast self.now.base self.now.limits before step b }
        ensures sound { IsSound self.now.base self.now.limits self.now.journal }
        ensures continuity { AllHear self.now }
    {
        // The type's invariant is known once a field is read.
        let _fields = &self.base;
        heard_is_due();
    }

    /// Whether the count of commands, of placed or of dropped entries would pass the greatest u64.
    fn passes(&self, puts: u64, drops: u64) -> bool
        ensures passes { let h = self.now
            in result ≡ (is_past (counted.commands h.base h.journal + 1)
            || is_past (counted.placed h.base h.limits h.journal + puts)
            || is_past (counted.dropped h.base h.journal + drops)) }
        ensures small { let h = self.now
            in counted.placed h.base h.limits h.journal ≤ 18446744073709551615 }
    {
        self.records.passes(puts, drops)
    }

    /// Refused as `Spent`, where a step that puts and drops so many can't be counted.
    pub(crate) fn may_count(&self, puts: u64, drops: u64) -> Result
        ensures { OfEach self.now puts drops (λ what. Reports result (spent_by self.now what)) }
    {
        // The type's invariant is known once a field is read.
        let _fields = &self.base;
        if self.passes(puts, drops) {
            Err(HubError::Spent)
        } else {
            Ok(())
        }
    }

    /// The state from which the journal begins.
    pub fn base(&self) -> &Base
        ensures { result.now ≡ self.now.base }
    {
        &self.base
    }

    /// The steps since the base, the oldest first.
    pub fn steps(&self) -> &[Step]
        ensures { result.now ≡ reverse self.now.journal }
    {
        self.records.steps.as_slice()
    }

    /// How many bytes the journal's steps own, with the sockets that they ended, which it walks. It
    /// stays at the greatest u64.
    pub fn held(&self) -> u64
        ensures { result ≡ min (held self.now) u64.MAX }
    {
        let mut bytes = self.records.steps.held();
        for gone in self.ended_sockets.as_slice() {
            bytes = bytes.saturating_add(gone.size());
        }
        bytes
    }

    /// How many broadcasts the log has.
    pub fn log_len(&self) -> usize
        ensures { result ≡ length (logs self.now) }
    {
        self.log.len()
    }

    /// How many sessions are saved, outdated ones among them.
    pub fn saved_len(&self) -> usize
        ensures { result ≡ length (saves self.now) }
    {
        self.saved.len()
    }

    /// Whether the hub has a namespace with this name. It takes the logarithm of the namespaces.
    pub fn has_space(&self, space: &str) -> bool
        ensures { result ≡ is_space self.now.limits (place_of self.now.limits space.now) }
    {
        self.place_of(space).is_ok()
    }

    /// How many bytes may wait for each client.
    pub fn most_bytes(&self) -> usize
        ensures { result ≡ self.now.limits.bytes }
    {
        self.limits.config().bytes
    }

    /// The rooms of each connected socket, its own among them, and the sockets of each room: no
    /// room is empty (Socket.IO server documentation, "Rooms").
    pub fn mirrors(&self) -> (&SocketMap, &RoomMap)
        ensures { IsMirrored (rooms self.now.base self.now.journal) result.0.now result.1.now }
    {
        self.live.rooms.mirrors()
    }

    /// Whether the client is open.
    pub fn is_open(&self, client: u128) -> bool
        ensures { result ≡ opened self.now client }
    {
        self.clients.contains_key(&client)
    }

    /// Whether a socket with this session id is connected.
    pub fn is_connected(&self, sid: Sid) -> bool
        ensures { result ≡ is_connected sid_of self.now.base self.now.journal sid }
    {
        self.live.seats.get(sid).is_some()
    }

    /// How many entries wait for a client, or `None` where it isn't open.
    pub fn waiting(&self, client: u128) -> Option<usize>
        ensures { result ≡ when_open self.now client (length (waits self.now client)) }
    {
        Some(self.clients.get(&client)?.outbox.len())
    }

    /// How many bytes wait for a client, or `None` where it isn't open.
    pub fn waiting_bytes(&self, client: u128) -> Option<usize>
        ensures { result ≡ when_open self.now client (total_size (waits self.now client)) }
    {
        Some(self.clients.get(&client)?.outbox.used())
    }

    /// The outbox of a client, or `None` where it isn't open.
    pub fn outbox(&self, client: u128) -> Option<&Outbox>
        ensures { option_copied result ≡ when_open self.now client (outbox_for self.now client) }
    {
        Some(&self.clients.get(&client)?.outbox)
    }

    /// An entry that waits for a client, counted from the oldest, or `None` where there is none.
    pub fn front(&self, client: u128, index: usize) -> Option<&Entry>
        ensures { option_copied result ≡ (if opened self.now client
            then slice_get (waits self.now client) index else None) }
    {
        self.clients.get(&client)?.outbox.get(index)
    }

    /// The counts of the whole history.
    pub fn totals(&self) -> Totals
        ensures { result ≡ counted.totals self.now.base self.now.limits self.now.journal }
    {
        let counts = &self.records.counts;
        Totals {
            commands: counts.commands,
            placed: counts.placed,
            dropped: counts.dropped,
            taken: counts.taken,
            discarded: counts.discarded,
            waiting: counts.placed - counts.taken - counts.discarded,
        }
    }
}
