//! Clients are opened and closed, or lost, so that their sockets' sessions are saved; what is
//! outdated is dropped (Socket.IO server documentation, "Connection state recovery").

ghost use Rattle.std.specs.Prelude.{◌≡◌, ℕ, length, ◌==◌, IfOk, if◌then◌else◌, None, OnOk, OnErr, ◌+◌, nat_eq};
ghost use Rattle.std.specs.HashMap.{get};
ghost use Rattle.journal.specs.Command.{Does};
ghost use Rattle.journal.specs.Fields.{new_client, held_entries};
ghost use Rattle.journal.specs.declared.step.What.{What};
ghost use Rattle.recovery.specs.SavedTable as table;
ghost use Rattle.journal.specs.Parking.{lost_in, HasNoneOf, with_lost, without_lost};
ghost use Rattle.hub_state.specs.Words.{saves, logs};

use crate::client::{Client, Clients, Outbox};
use crate::state::end::{as_ended, rooms_in};
use crate::state::{NONE, Result, State};
use journal::{Config, Counts, Ending, HubError, Socket, Swept, What};
use recovery::{Saved, SavedTable};
use room_maps::Rooms;
use std::alloc::{AllocError, Global};

/// A client with no sockets, for which nothing waits.
fn new_client(alloc: Global, config: &Config) -> Result<Client, AllocError>
    ensures ok { IfOk result (λ client. client ≡ new_client config.now) }
{
    let outbox = Outbox::new(alloc, config.capacity, config.bytes)?;
    Ok(Client {
        sockets: Vec::new(alloc),
        outbox,
    })
}

/// Forgets a client, and says how many entries waited for it.
fn forget_client(clients: &mut Clients, client: u128) -> u64
    ensures discards { result ≡ length (held_entries (get nat_eq clients.old client)) }
    ensures clients { (q : ℕ) → get nat_eq clients.new q
        ≡ (if client == q then None else get nat_eq clients.old q) }
{
    match clients.remove(&client) {
        Some(known) => known.outbox.len() as u64,
        None => 0,
    }
}

/// Saves the session of a socket that is lost.
fn save_one(
    saved: &mut SavedTable,
    rooms: &Rooms,
    alloc: Global,
    socket: Socket,
    at: u64,
) -> Result<(), AllocError>
    ensures saved { OnOk result (saved.new ≡ table.saved saved.old (lost_in rooms.now at socket)) }
    ensures unchanged { OnErr result (saved.new ≡ saved.old) }
{
    let session = Saved {
        sid: socket.sid,
        pid: socket.pid,
        space: socket.space,
        rooms: rooms_in(rooms, alloc, socket.sid)?,
        lost_at: at,
    };
    saved.save(alloc, session).map_err(|_| AllocError)
}

/// Takes the sessions of sockets out of the table, as far as it has them.
fn take_back(saved: &mut SavedTable, sockets: &[Socket])
    ensures { saved.new ≡ without_lost sockets.now saved.old }
{
    for socket in sockets {
        let _session = saved.remove(socket.pid);
    }
}

/// Saves the sessions of sockets that are lost, or where memory is refused in the middle none.
fn save_all(
    saved: &mut SavedTable,
    rooms: &Rooms,
    alloc: Global,
    sockets: &[Socket],
    at: u64,
) -> Result<(), AllocError>
    requires { HasNoneOf sockets.now saved.old }
    ensures saved { OnOk result (saved.new ≡ with_lost rooms.now at sockets.now saved.old) }
    ensures unchanged { OnErr result (saved.new ≡ saved.old) }
{
    for socket in sockets {
        if let Err(refusal) = save_one(saved, rooms, alloc, *socket, at) {
            take_back(saved, sockets);
            return Err(refusal);
        }
    }
    Ok(())
}

impl State {
    /// Opens a client, with no sockets and an empty outbox, which takes its memory as entries come.
    /// Refused as `IdTaken`, `TooManyClients`, `Spent`, then for `Memory`. It takes one look-up,
    /// and where the map of clients grows their number.
    pub fn open(&mut self, alloc: Global, client: u128, now: u64) -> Result
        ensures { Does self.old self.new now (What.Opened client) result }
    {
        if self.is_open(client) {
            return Err(HubError::IdTaken);
        }
        if self.limits.config().clients <= self.clients.len() {
            return Err(HubError::TooManyClients);
        }
        self.may_count(0, 0)?;
        self.records.steps.reserve()?;
        let opened = new_client(alloc, self.limits.config())?;
        self.clients.insert(client, opened)?;
        self.records.add(now, What::Opened(client), NONE);
        Ok(())
    }

    /// Closes a client: its sockets end, nothing of them is saved, and what waits for it is
    /// discarded. Refused as `UnknownClient`, `Spent`, then for `Memory`. It takes for each
    /// room of its sockets the logarithm of the sockets and of the rooms.
    pub fn close(&mut self, alloc: Global, client: u128, now: u64) -> Result
        ensures { Does self.old self.new now (What.Closed client) result }
    {
        // The prover needs that no client is listed twice.
        self.facts();
        if !self.is_open(client) {
            return Err(HubError::UnknownClient);
        }
        self.may_count(0, 0)?;
        let sockets = self.its_sockets(alloc, client)?;
        let mut ended = as_ended(&self.live.rooms, alloc, Ending::Closed, &sockets)?;
        self.records.steps.reserve()?;
        self.ended_sockets.append(&mut ended)?;
        let discarded = forget_client(&mut self.clients, client);
        self.live.forget_all(&sockets);
        self.live.rooms.kept_facts();
        let added = Counts { discarded, ..NONE };
        self.records.add(now, What::Closed(client), added);
        Ok(())
    }

    /// Parks a client that was lost: the sessions of its sockets are saved with their rooms, its
    /// sockets end, and what waits for it is discarded. Refused as `UnknownClient`, `SavedFull`
    /// where the saved sessions leave fewer places than it has sockets, `Spent`, then for `Memory`.
    /// It takes as much as `close`, and the logarithm of the saved sessions for each of its sockets.
    pub fn park(&mut self, alloc: Global, client: u128, now: u64) -> Result
        ensures { Does self.old self.new now (What.Parked client) result }
    {
        // The prover needs that no client is listed twice.
        self.facts();
        let Some(known) = self.clients.get(&client) else {
            return Err(HubError::UnknownClient);
        };
        let free = self.limits.config().saved.saturating_sub(self.saved.len());
        if free < known.sockets.len() {
            return Err(HubError::SavedFull);
        }
        self.may_count(0, 0)?;
        let at = now.max(self.records.last);
        let sockets = self.its_sockets(alloc, client)?;
        let mut ended = as_ended(&self.live.rooms, alloc, Ending::Saved, &sockets)?;
        self.records.steps.reserve()?;
        let before = self.ended_sockets.len();
        self.ended_sockets.append(&mut ended)?;
        let rooms = &self.live.rooms;
        if let Err(AllocError) = save_all(&mut self.saved, rooms, alloc, &sockets, at) {
            self.ended_sockets.truncate(before);
            return Err(HubError::Memory);
        }
        let discarded = forget_client(&mut self.clients, client);
        self.live.forget_all(&sockets);
        self.live.rooms.kept_facts();
        let added = Counts { discarded, ..NONE };
        self.records.add(now, What::Parked(client), added);
        Ok(())
    }

    /// Drops the entries of the log and the saved sessions that are older than the hub keeps them,
    /// and says how many. Refused as `Spent`, then for `Memory`. Each that is dropped takes the
    /// logarithm of the saved sessions, and it looks at one more of both.
    pub fn sweep(&mut self, _alloc: Global, now: u64) -> Result<Swept>
        ensures does { Does self.old self.new now What.Swept result }
        ensures counts { IfOk result (λ dropped.
            (length (logs self.old) ≡ length (logs self.new) + dropped.log)
            × (length (saves self.old) ≡ length (saves self.new) + dropped.saved)) }
    {
        self.may_count(0, 0)?;
        let at = now.max(self.records.last);
        self.records.steps.reserve()?;
        let keep = self.limits.config().keep;
        let swept = Swept {
            log: self.log.sweep(at, keep),
            saved: self.saved.sweep(at, keep),
        };
        self.records.add(now, What::Swept, NONE);
        Ok(swept)
    }
}
