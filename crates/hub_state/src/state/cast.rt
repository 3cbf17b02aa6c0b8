//! Broadcasts are put into the outboxes of those whom they are for: the sockets of a namespace that
//! are in one of the rooms and in no excepted one, and their clients (Socket.IO server
//! documentation, "Rooms" and "Adapter"; Socket.IO protocol 5, "Sending and receiving data" and
//! "Acknowledgement").

ghost use Rattle.hub_state.specs.Seats.{seated_in};
ghost use Rattle.std.specs.Prelude.{◌≡◌, ◌≢◌, not, filter, IfOk, OnOk, ◌<◌, ◌≤◌, ◌^◌, ℕ, true, false, map, nat_eq, None, Some, Ok, IfSome, IfNone, IfErr, OnErr, [], length, get_or};
ghost use Rattle.std.specs.List.{list_any, IsDistinct, AllByRecursion};
ghost use Rattle.std.specs.HashMap.{get};
ghost use Rattle.std.specs.Arc.{arc_value};
ghost use Rattle.room_maps.specs.Membership.{is_in};
ghost use Rattle.room_maps.specs.Addressed.{is_addressed};
ghost use Rattle.journal.specs.Membership.{is_in_space, place_of};
ghost use Rattle.journal.specs.Casting.{ListsInside, is_full_in, client_of, receiver_of, pair_of, with_entries, with_logged, refusal_of, offset_of, has_no_offset, IsCastOf, IsCastError, CastDoes};
ghost use Rattle.journal.specs.Casting as casting;
ghost use Rattle.hub_state.specs.Words.{rooms_now, AllHear};
ghost use Rattle.std.specs.Option.{option_map};
ghost use Rattle.sio_wire.specs.Header.{Plain};
ghost use Rattle.journal.specs.Outboxes.{entries_for};
ghost use Rattle.terms.specs.Entry.{entry_size};
ghost use Rattle.journal.specs.Log.{logged, next};
ghost use Rattle.journal.specs.Fields.{with_entry};
ghost use Rattle.journal.specs.Broadcast.{IsOfAForm, broadcast_header, id_of};
ghost use Rattle.hub_state.specs.Changes.{ChangesClient, SameClients, WithoutNewest};
ghost use Rattle.hub_state.specs.Sending.{sent_to, messages_to, TellsTo, done_of, Sends};

use crate::client::Clients;
use crate::seats::Seats;
use crate::state::deliver::{put_entry, take_back};
use crate::state::{NONE, Result, State};
use journal::{Broadcast, Cast, CastDone, Counts, Form, HubError, Message, Socket, What};
use recovery::{Logged, PacketLog};
use room_maps::Rooms;
use sio_wire::{Front, write_packet};
use std::alloc::{AllocError, Global};
use std::sync::Arc;
use terms::{Attachments, Entry, Room, Sid, Text};

/// Those of the sockets with these ids that are in the namespace at a place, in the same order.
pub(crate) fn sockets_in(
    alloc: Global,
    seats: &Seats,
    sids: &[Sid],
    space: u16,
) -> Result<Vec<Socket>, AllocError>
    ensures ok { IfOk result (λ sockets. sockets.items ≡ seated_in space seats.now sids.now) }
{
    let mut sockets = Vec::with_capacity(alloc, sids.len())?;
    for sid in sids {
        if let Some(socket) = seats.get(*sid)
            && socket.space == space
        {
            sockets.push(*socket)?;
        }
    }
    Ok(sockets)
}

/// The same, which are remembered until a socket comes or goes.
fn recalled_in(
    alloc: Global,
    seats: &mut Seats,
    sids: &[Sid],
    space: u16,
) -> Result<Arc<Vec<Socket>>, AllocError>
    ensures ok { IfOk result (λ sockets. (arc_value sockets).items
        ≡ seated_in space seats.old sids.now) }
    ensures same { seats.new ≡ seats.old }
{
    if let Some(sockets) = seats.recall(sids, space) {
        return Arc::try_clone(sockets);
    }
    let sockets = Arc::new(alloc, sockets_in(alloc, seats, sids, space)?)?;
    seats.remember(alloc, sids, space, &sockets);
    Ok(sockets)
}

/// Whether the socket is in one of the rooms.
fn is_in_any(inside: &Rooms, sid: Sid, rooms: &[Room]) -> bool
    ensures { result ≡ list_any (is_in inside.now sid) rooms.now }
{
    rooms.iter().any(|room| inside.is_in(sid, *room))
}

/// Keeps the sockets that are in none of the rooms.
fn retain_outside(sids: &mut Vec<Sid>, inside: &Rooms, rooms: &[Room])
    ensures { sids.new.items
        ≡ filter (λ s. not (list_any (is_in inside.now s) rooms.now)) sids.old.items }
{
    sids.retain(|sid| !is_in_any(inside, *sid, rooms));
}

/// Whether the client's outbox has no space for the entry.
pub(crate) fn is_full(clients: &Clients, client: u128, entry: &Entry) -> bool
    ensures { result ≡ is_full_in (get nat_eq clients.now) entry.now client }
{
    clients
        .get(&client)
        .is_some_and(|known| known.outbox.has_no_space(entry))
}

/// A message for each of the sockets whose client's outbox has space, and the ids of the others.
pub(crate) fn messages_for(
    alloc: Global,
    clients: &Clients,
    sockets: &[Socket],
    entry: &Arc<Entry>,
) -> Result<(Vec<Message>, Vec<Sid>), AllocError>
    ensures told { IfOk result (λ both. both.0.items
        ≡ casting.messages_for (get nat_eq clients.now) (arc_value entry.now) sockets.now) }
    ensures missing { IfOk result (λ both. both.1.items
        ≡ casting.missing (get nat_eq clients.now) (arc_value entry.now) sockets.now) }
{
    let mut messages = Vec::with_capacity(alloc, sockets.len())?;
    let mut missing = Vec::new(alloc);
    for socket in sockets {
        let client = socket.client;
        if is_full(clients, client, entry) {
            missing.push(socket.sid)?;
        } else {
            let entry = Arc::try_clone(entry)?;
            messages.push(Message { client, entry })?;
        }
    }
    Ok((messages, missing))
}

/// Takes the newest entry of each of these clients' outboxes away again.
fn take_all_back(clients: &mut Clients, receivers: &[u128])
    ensures { WithoutNewest receivers.now clients.old clients.new }
{
    for client in receivers {
        take_back(clients, *client, 1);
    }
}

/// Puts each message into the outbox of its client, which is named at the same place of the list,
/// or where memory is refused in the middle none.
pub(crate) fn put_messages(
    clients: &mut Clients,
    messages: Vec<Message>,
    receivers: &[u128],
) -> Result<(), AllocError>
    requires apart { IsDistinct nat_eq (map receiver_of messages.items) }
    requires places { AllByRecursion (λ m.
        is_full_in (get nat_eq clients.old) m.entry m.client ≡ false) messages.items }
    requires receivers { receivers.now ≡ map receiver_of messages.items }
    ensures ok { OnOk result ((q : ℕ) → let puts = entries_for q (map pair_of messages.items)
        in get nat_eq clients.new q
        ≡ option_map (with_entries puts) (get nat_eq clients.old q)) }
    ensures err { OnErr result (SameClients clients.old clients.new) }
{
    let mut put = 0;
    for message in messages {
        if let Err(refusal) = put_entry(clients, message.client, message.entry) {
            take_all_back(clients, &receivers[..put]);
            return Err(refusal);
        }
        put += 1;
    }
    Ok(())
}

/// Puts an entry of this size into a client's outbox, if that has space for it. Answers whether it
/// has.
fn put_if_it_fits(
    clients: &mut Clients,
    client: u128,
    entry: &Arc<Entry>,
    size: Option<usize>,
) -> Result<bool, AllocError>
    requires some { IfSome size (λ s. s ≡ entry_size (arc_value entry.now)) }
    requires none { IfNone size (usize.MAX < entry_size (arc_value entry.now)) }
    ensures fits { IfOk result (λ put.
        put ≡ not (is_full_in (get nat_eq clients.old) (arc_value entry.now) client)) }
    ensures put { result ≡ Ok true
        → ChangesClient (with_entry (arc_value entry.now)) client clients.old clients.new }
    ensures same { result ≢ Ok true → SameClients clients.old clients.new }
{
    let Some(known) = clients.get_mut(&client) else {
        return Ok(true);
    };
    known.outbox.offer(entry, size)
}

/// Puts an entry into the outbox of each socket's client that has space for it, or where memory is
/// refused in the middle into none. Answers the clients that got it, and the sockets that miss it.
fn put_each(
    alloc: Global,
    clients: &mut Clients,
    sockets: &[Socket],
    entry: &Arc<Entry>,
) -> Result<(Vec<u128>, Vec<Sid>), AllocError>
    requires apart { IsDistinct nat_eq (map client_of sockets.now) }
    ensures told { IfOk result (λ both. both.0.items ≡ map receiver_of
        (casting.messages_for (get nat_eq clients.old) (arc_value entry.now) sockets.now)) }
    ensures missing { IfOk result (λ both. both.1.items
        ≡ casting.missing (get nat_eq clients.old) (arc_value entry.now) sockets.now) }
    ensures put { OnOk result ((q : ℕ) → get nat_eq clients.new q ≡ option_map (with_entries
        (entries_for q (map pair_of (casting.messages_for (get nat_eq clients.old)
        (arc_value entry.now) sockets.now)))) (get nat_eq clients.old q)) }
    ensures err { OnErr result (SameClients clients.old clients.new) }
{
    let mut reached = Vec::with_capacity(alloc, sockets.len())?;
    let mut missing = Vec::new(alloc);
    let size = entry.size();
    for socket in sockets {
        match put_if_it_fits(clients, socket.client, entry, size) {
            Ok(true) => reached.push_reserved(socket.client),
            Ok(false) if missing.push(socket.sid).is_ok() => {}
            _ => {
                take_all_back(clients, &reached);
                return Err(AllocError);
            }
        }
    }
    Ok((reached, missing))
}

/// The broadcast as the log has it, where it has an offset.
fn log_entry(alloc: Global, at: u64, broadcast: &Broadcast) -> Result<Option<Logged>, AllocError>
    ensures ok { let b = broadcast.now in IfOk result (λ e. e ≡ option_map (logged at b) b.offset) }
{
    let Some(offset) = broadcast.offset else {
        return Ok(None);
    };
    Ok(Some(Logged {
        offset,
        at,
        space: broadcast.space,
        rooms: Vec::from_slice(alloc, &broadcast.rooms)?,
        excepted: Vec::from_slice(alloc, &broadcast.excepted)?,
        entry: Arc::try_clone(&broadcast.entry)?,
    }))
}

/// Logs a broadcast, where there is one, which has the log's next offset.
fn push_logged(log: &mut PacketLog, entry: Option<Logged>)
    requires { IfSome entry (λ e. (log.old.next ≡ Some e.offset) × (log.old.last ≤ e.at)) }
    ensures { log.new ≡ with_logged log.old entry }
{
    if let Some(entry) = entry {
        let Logged {
            offset: _,
            at,
            space,
            rooms,
            excepted,
            entry,
        } = entry;
        let _offset = log.push(at, space, rooms, excepted, entry);
    }
}

/// The clients that the messages are for.
pub(crate) fn receivers(alloc: Global, messages: &[Message]) -> Result<Vec<u128>, AllocError>
    ensures ok { IfOk result (λ clients. clients.items ≡ map receiver_of messages.now) }
{
    messages.iter().map(|message| message.client).collect(alloc)
}

impl State {
    /// For whom a broadcast is, with sockets of other namespaces where rooms are named.
    pub(crate) fn listeners(
        &self,
        alloc: Global,
        space: u16,
        rooms: &[Room],
        excepted: &[Room],
    ) -> Result<Vec<Sid>, AllocError>
        ensures ok { let h = self.now in IfOk result (λ sids.
            ListsInside (is_in_space h.base h.journal space)
            (is_addressed (rooms_now h) rooms.now excepted.now) sids.items) }
    {
        if rooms.is_empty() {
            let mut sids = self.live.seats.sids_in(alloc, space)?;
            retain_outside(&mut sids, &self.live.rooms, excepted);
            return Ok(sids);
        }
        let sids = self.live.rooms.addressees(alloc, rooms, excepted);
        sids.map_err(|_| AllocError)
    }

    /// The same, which are remembered where rooms are named.
    fn recalled_listeners(
        &mut self,
        alloc: Global,
        space: u16,
        rooms: &[Room],
        excepted: &[Room],
    ) -> Result<Arc<Vec<Sid>>, AllocError>
        ensures ok { let h = self.old in IfOk result (λ sids.
            ListsInside (is_in_space h.base h.journal space)
            (is_addressed (rooms_now h) rooms.now excepted.now) (arc_value sids).items) }
        ensures same { self.new ≡ self.old }
    {
        if rooms.is_empty() {
            let sids = self.listeners(alloc, space, rooms, excepted)?;
            return Ok(Arc::new(alloc, sids)?);
        }
        let sids = self.live.rooms.recalled(alloc, rooms, excepted);
        sids.map_err(|_| AllocError)
    }

    /// The offset of the next broadcast that is logged, or `None` where the greatest was used.
    pub fn next_offset(&self) -> Option<u64>
        ensures { result ≡ next self.now.base self.now.journal }
    {
        self.log.next()
    }

    /// Puts a broadcast for these sockets, and logs it. It drops those whose clients have no space.
    /// Where memory or a count is refused nothing changes.
    fn send(
        &mut self,
        alloc: Global,
        mut broadcast: Broadcast,
        sockets: &[Socket],
        now: u64,
    ) -> Result<CastDone>
        requires formed { IsOfAForm self.old.limits broadcast }
        requires offset { let h = self.old
            in IfSome broadcast.offset (λ offset. next h.base h.journal ≡ Some offset) }
        requires once { IsDistinct nat_eq (map client_of sockets.now) }
        requires tells { TellsTo self.old sockets.now broadcast }
        ensures does { Sends self.old self.new now (sent_to self.old sockets.now broadcast) result }
        ensures done { let h = self.old in IfOk result (λ done. done ≡ done_of
            (sent_to h sockets.now broadcast) (messages_to h sockets.now broadcast)) }
    {
        let entry = log_entry(alloc, now.max(self.records.last), &broadcast)?;
        self.records.steps.reserve()?;
        let (reached, dropped) = put_each(alloc, &mut self.clients, sockets, &broadcast.entry)?;
        let added = Counts {
            placed: reached.len() as u64,
            dropped: dropped.len() as u64,
            ..NONE
        };
        if self.records.passes(added.placed, added.dropped) {
            take_all_back(&mut self.clients, &reached);
            return Err(HubError::Spent);
        }
        let done = CastDone {
            offset: broadcast.offset,
            placed: added.placed,
            dropped: added.dropped,
            clients: reached,
        };
        broadcast.dropped = dropped;
        self.records.add(now, What::Cast(broadcast), added);
        push_logged(&mut self.log, entry);
        Ok(done)
    }

    /// The place of the namespace that a cast is for, and its offset.
    fn judge(&self, cast: &Cast) -> Result<(u16, Option<u64>)>
        ensures place { IfOk result (λ both. both.0 ≡ place_of self.now.limits cast.now.space) }
        ensures offset { IfOk result (λ both. both.1 ≡ offset_of self.now cast.now.form) }
        ensures accepted { IfOk result (λ _. refusal_of self.now cast.now ≡ None) }
        ensures numbered { IfOk result (λ _. has_no_offset self.now cast.now.form ≡ false) }
        ensures refused { IfErr result (IsCastError self.now cast.now
            (refusal_of self.now cast.now)) }
    {
        let place = self.place_of(cast.space.as_str())?;
        let has_bracket = cast.payload.as_str().as_bytes().contains(&b']');
        if !has_bracket || cast.attachments.len() > 32 {
            return Err(HubError::BadPayload);
        }
        if !cast.form.is_logged() {
            return Ok((place, None));
        }
        let offset = self.next_offset().ok_or(HubError::Spent)?;
        Ok((place, Some(offset)))
    }

    /// The broadcast that a cast asks for, with no drops yet.
    fn build(
        &self,
        alloc: Global,
        place: u16,
        offset: Option<u64>,
        cast: Cast,
    ) -> Result<Broadcast, AllocError>
        requires place { place ≡ place_of self.now.limits cast.space }
        requires offset { offset ≡ offset_of self.now cast.form }
        requires accepted { refusal_of self.now cast ≡ None }
        ensures asked { IfOk result (λ broadcast. IsCastOf self.now cast broadcast) }
        ensures no_drops { IfOk result (λ broadcast. broadcast.dropped ≡ []) }
    {
        let Cast {
            space: _,
            rooms,
            excepted,
            form,
            payload,
            attachments,
        } = cast;
        let entry = self.entry(alloc, place, form, payload, attachments, offset)?;
        Ok(Broadcast {
            space: place,
            rooms,
            excepted,
            offset,
            entry,
            dropped: Vec::new(alloc),
        })
    }

    /// The sockets that a broadcast is for.
    fn seated(
        &mut self,
        alloc: Global,
        broadcast: &Broadcast,
    ) -> Result<Arc<Vec<Socket>>, AllocError>
        ensures same { self.new ≡ self.old }
        ensures once { IfOk result (λ sockets.
            IsDistinct nat_eq (map client_of (arc_value sockets).items)) }
        ensures tells { IfOk result (λ sockets.
            TellsTo self.old (arc_value sockets).items broadcast.now) }
    {
        let (place, rooms, excepted) = (broadcast.space, &broadcast.rooms, &broadcast.excepted);
        let sids = self.recalled_listeners(alloc, place, rooms, excepted)?;
        recalled_in(alloc, &mut self.live.seats, sids.as_slice(), place)
    }

    /// Puts an event, a question or an answer into the outboxes of the sockets of a namespace that
    /// are in one of the rooms, or where none is named of all, but for those in an excepted room. A
    /// socket whose client's outbox has no space for it is counted as dropped. A logged event gets
    /// the next offset as its payload's last element (Socket.IO server documentation, "Connection
    /// state recovery"). Refused as `UnknownNamespace`, `BadPayload`, `Spent`, then for `Memory`,
    /// which may come instead of `Spent`. It takes as much as `sockets_join`.
    ///
    /// After it, accepted or refused, each connected session has heard just the journal's logged
    /// broadcasts that are due to it, as `facts` says.
    pub fn cast(&mut self, alloc: Global, cast: Cast, now: u64) -> Result<CastDone>
        ensures does { CastDoes self.old self.new now cast result }
        ensures continuity { AllHear self.new }
    {
        // The prover needs what holds of every hub, before and after.
        self.facts();
        let (place, offset) = self.judge(&cast)?;
        let broadcast = self.build(alloc, place, offset, cast)?;
        let sockets = self.seated(alloc, &broadcast)?;
        let done = self.send(alloc, broadcast, sockets.as_slice(), now);
        self.facts();
        done
    }

    /// What is sent.
    pub(crate) fn entry(
        &self,
        alloc: Global,
        place: u16,
        form: Form,
        payload: Text,
        attachments: Attachments,
        offset: Option<u64>,
    ) -> Result<Arc<Entry>, AllocError>
        requires { length attachments ≤ 32 }
        ensures text { let name = get_or self.now.limits.spaces place []
            in IfOk result (λ entry. Plain
            (broadcast_header form name payload (length attachments) offset)
            (arc_value entry).text) }
        ensures fits { IfOk result (λ _. IfSome (id_of form) (λ id. id < 2 ^ 64)) }
        ensures attachments { IfOk result (λ entry. (arc_value entry).attachments ≡ attachments) }
    {
        let front = Front {
            kind: form.kind(attachments.len()),
            count: attachments.len() as u32,
            space: self.name_at(usize::from(place)),
            id: form.id(),
        };
        let text = write_packet(alloc, &front, payload.as_str(), offset).map_err(|_| AllocError)?;
        let text = Text::from_string(text);
        Ok(Arc::new(alloc, Entry { text, attachments })?)
    }
}
