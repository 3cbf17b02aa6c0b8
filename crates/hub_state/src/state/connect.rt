//! Sockets are connected (Socket.IO protocol 5, "Connection to a namespace").

ghost use Rattle.std.specs.Prelude.{◌≡◌, ℕ, ◌≤◌, true, false, [], length, OnOk, OnErr, IfOk, IfErr, None, Some, get_or};
ghost use Rattle.std.specs.Option.{option_map};
ghost use Rattle.std.specs.HashMap.{get};
ghost use Rattle.std.specs.Arc.{arc_value};
ghost use Rattle.terms.specs.Entry.{entry_size};
ghost use Rattle.journal.specs.Membership.{place_of, is_space, is_connected, sid_of, socket_of};
ghost use Rattle.journal.specs.Outboxes.{is_full};
ghost use Rattle.journal.specs.Refusals.{is_taken};
ghost use Rattle.journal.specs.Command.{Does};
ghost use Rattle.journal.specs.Fields.{plus_socket, without_last};
ghost use Rattle.journal.specs.declared.socket.Socket.{Socket};
ghost use Rattle.journal.specs.declared.step.What.{What};
ghost use Rattle.hub_state.specs.Changes.{ChangesClient, SameClients, SameLive, WithSocket, IsNew, IsAlone, refusal_now};
ghost use Rattle.hub_state.specs.Words.{opened, socket_for, answer_at};

use crate::client::{Clients, find_at};
use crate::state::deliver::{put_entry, shared_text, take_back};
use crate::state::{Live, NONE, Result, State};
use journal::{Counts, HubError, Socket, What};
use recovery::Pid;
use sio_wire::connected_text;
use std::alloc::{AllocError, Global};
use std::sync::Arc;
use terms::{Entry, Room, Sid, Text};

impl Live {
    /// Makes a socket known by both its ids, which are free, in its own room and in these.
    fn enter(&mut self, alloc: Global, socket: &Socket, inside: &[Room]) -> Result<(), AllocError>
        requires { IsNew socket.now self.old }
        ensures ok { OnOk result (WithSocket socket.now inside.now self.old self.new) }
        ensures err { OnErr result (SameLive self.old self.new) }
    {
        let sid = socket.sid;
        self.seats.insert(*socket)?;
        if self.pids.insert(socket.pid).is_err() {
            self.seats.remove(sid);
            return Err(AllocError);
        }
        if self.rooms.enter_all(alloc, sid, inside).is_err() {
            self.seats.remove(sid);
            self.pids.remove(&socket.pid);
            return Err(AllocError);
        }
        self.rooms.kept_facts();
        Ok(())
    }
}

/// Gives a client a socket more, where it has none at the socket's place.
fn add_socket(clients: &mut Clients, socket: &Socket) -> Result<(), AllocError>
    requires { IsAlone socket.now clients.old }
    ensures ok { let k = socket.now
        in OnOk result (ChangesClient (plus_socket k) k.client clients.old clients.new) }
    ensures err { OnErr result (SameClients clients.old clients.new) }
{
    if let Some(known) = clients.get_mut(&socket.client) {
        known.sockets.push(*socket)?;
    }
    Ok(())
}

/// Takes the newest socket of a client away.
fn drop_socket(clients: &mut Clients, client: u128)
    ensures { ChangesClient without_last client clients.old clients.new }
{
    if let Some(known) = clients.get_mut(&client) {
        known.sockets.pop();
    }
}

/// Gives a socket whose ids are free to its client, as the newest, and makes it known by them, in
/// its own room and in these, or for want of memory does nothing.
pub(crate) fn seat(
    alloc: Global,
    clients: &mut Clients,
    live: &mut Live,
    socket: &Socket,
    inside: &[Room],
) -> Result<(), AllocError>
    requires alone { IsAlone socket.now clients.old }
    requires new { IsNew socket.now live.old }
    ensures client { let k = socket.now
        in OnOk result (ChangesClient (plus_socket k) k.client clients.old clients.new) }
    ensures ids { OnOk result (WithSocket socket.now inside.now live.old live.new) }
    ensures unchanged { OnErr result (SameClients clients.old clients.new
        × SameLive live.old live.new) }
{
    add_socket(clients, socket)?;
    if let Err(refusal) = live.enter(alloc, socket, inside) {
        drop_socket(clients, socket.client);
        return Err(refusal);
    }
    Ok(())
}

impl State {
    /// The place of a namespace in the hub's list. Refused as `UnknownNamespace`.
    #[tactic(auto, unfolding(journal::specs::Membership::place_of))]
    pub(crate) fn place_of(&self, space: &str) -> Result<u16>
        ensures place { IfOk result (λ place. place ≡ place_of self.now.limits space.now) }
        ensures known { IfOk result (λ place. is_space self.now.limits place ≡ true) }
        ensures unknown { IfErr result (λ _.
            is_space self.now.limits (place_of self.now.limits space.now) ≡ false) }
        ensures refused { IfErr result (λ e. e ≡ HubError.UnknownNamespace) }
    {
        let _few = self.spaces();
        let place = self.limits.place_of(space);
        Ok(place.ok_or(HubError::UnknownNamespace)? as u16)
    }

    /// The namespaces.
    pub(crate) fn spaces(&self) -> &[Text]
        ensures names { result.now ≡ self.now.limits.spaces }
        ensures few { length self.now.limits.spaces ≤ 65536 }
    {
        &self.limits.config().spaces
    }

    /// The socket of a client at a place.
    pub(crate) fn socket_at(&self, client: u128, place: usize) -> Option<Socket>
        ensures { result ≡ socket_of self.now.base self.now.journal client place }
    {
        find_at(&self.clients.get(&client)?.sockets, place).copied()
    }

    /// The session id of a client's socket in a namespace. It takes the logarithm of the namespaces,
    /// and looks at the client's sockets.
    pub fn socket_of(&self, client: u128, space: &str) -> Option<Sid>
        ensures { let place = place_of self.now.limits space.now
            in result ≡ option_map sid_of (socket_of self.now.base self.now.journal client place) }
    {
        // The prover needs that each socket is in a namespace.
        self.facts();
        match self.place_of(space) {
            Ok(place) => Some(self.socket_at(client, usize::from(place))?.sid),
            Err(_) => None,
        }
    }

    /// Whether a connected socket or a saved session has one of these ids.
    fn is_taken(&self, sid: Sid, pid: Pid) -> bool
        ensures { (c space : ℕ)
            → let socket : Socket = record { client = c; space = space; sid = sid; pid = pid }
            in result ≡ is_taken self.now.base self.now.limits self.now.journal socket }
    {
        (self.is_connected(sid) || self.saved.has_sid(sid))
            || (self.live.pids.contains(&pid) || self.saved.has_pid(pid))
    }

    /// The namespace at a place, or the empty text where there is none.
    pub fn name_at(&self, place: usize) -> &str
        ensures { result.now ≡ get_or self.now.limits.spaces place [] }
    {
        match self.spaces().get(place) {
            Some(name) => name.as_str(),
            None => "",
        }
    }

    /// How many bytes the answer to a CONNECT to the namespace at a place has.
    pub(crate) fn answer_size(&self, place: usize) -> usize
        ensures { (c sid pid : ℕ) → result ≡ entry_size (answer_at self.now c place sid pid) }
    {
        let name = self.name_at(place);
        if name == "/" { 84 } else { 85 + name.len() }
    }

    /// The answer to a CONNECT to the namespace at a place, which outboxes may share.
    pub(crate) fn answer(
        &self,
        alloc: Global,
        place: usize,
        sid: Sid,
        pid: Pid,
    ) -> Result<Arc<Entry>, AllocError>
        ensures ok { IfOk result (λ entry. (c : ℕ)
            → arc_value entry ≡ answer_at self.now c place sid pid) }
    {
        let (name, sid, pid) = (self.name_at(place), sid.number(), pid.number());
        let text = connected_text(alloc, name, sid, pid).map_err(|_| AllocError)?;
        shared_text(alloc, text)
    }

    /// Whether an open client's outbox has no space for the answer to a CONNECT.
    fn lacks_answer(&self, client: u128, place: usize) -> bool
        ensures { let h = self.now in opened h client ≡ true → (sid pid : ℕ) → result
            ≡ is_full h.base h.limits h.journal client (answer_at h client place sid pid) }
    {
        let size = self.answer_size(place);
        self.clients
            .get(&client)
            .is_some_and(|known| known.outbox.lacks(size))
    }

    /// The socket that is to be connected, or why it can't be.
    fn attaching(&self, client: u128, space: &str, sid: Sid, pid: Pid) -> Result<Socket>
        ensures socket { IfOk result (λ k. k ≡ socket_for self.now client space.now sid pid) }
        ensures accepted { IfOk result (λ k. refusal_now self.now (What.Attached k) ≡ None) }
        ensures refused { let k = socket_for self.now client space.now sid pid
            in IfErr result (λ e. Some e ≡ refusal_now self.now (What.Attached k)) }
    {
        if !self.is_open(client) {
            return Err(HubError::UnknownClient);
        }
        let space = self.place_of(space)?;
        let place = usize::from(space);
        if self.socket_at(client, place).is_some() {
            return Err(HubError::AlreadyConnected);
        }
        if self.is_taken(sid, pid) {
            return Err(HubError::IdTaken);
        }
        if self.lacks_answer(client, place) {
            return Err(HubError::OutboxFull);
        }
        self.may_count(1, 0)?;
        Ok(Socket {
            client,
            space,
            sid,
            pid,
        })
    }

    /// Connects a client's new socket to a namespace: it is in its own room, and the answer to the
    /// CONNECT is put. Refused as `UnknownClient`, `UnknownNamespace`, `AlreadyConnected`,
    /// `IdTaken`, `OutboxFull`, `Spent`, then for `Memory`. It takes the logarithm of the
    /// sockets, namespaces and saved sessions.
    pub fn attach(
        &mut self,
        alloc: Global,
        client: u128,
        space: &str,
        sid: Sid,
        pid: Pid,
        now: u64,
    ) -> Result
        ensures { let socket = socket_for self.old client space.now sid pid
            in Does self.old self.new now (What.Attached socket) result }
    {
        let socket = self.attaching(client, space, sid, pid)?;
        let answer = self.answer(alloc, usize::from(socket.space), sid, pid)?;
        self.records.steps.reserve()?;
        let (clients, live) = (&mut self.clients, &mut self.live);
        put_entry(clients, socket.client, answer)?;
        if let Err(AllocError) = seat(alloc, clients, live, &socket, &[]) {
            take_back(clients, socket.client, 1);
            return Err(HubError::Memory);
        }
        let added = Counts { placed: 1, ..NONE };
        self.records.add(now, What::Attached(socket), added);
        Ok(())
    }
}
