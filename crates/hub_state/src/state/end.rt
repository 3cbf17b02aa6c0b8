//! Sockets are ended, alone or many of a namespace, and noted (Socket.IO server documentation,
//! "Server API": `disconnectSockets`, and the events `disconnecting` and `disconnect`).

ghost use Rattle.std.specs.Prelude.{◌≡◌, min, map, true, IfOk, Some, ℕ, ◌==◌, false, if◌then◌else◌, nat_eq};
ghost use Rattle.hub_state.specs.EndedSockets.{ended_size, PlainEnded, as_ended, ended_sockets};
ghost use Rattle.std.specs.List.{AllByRecursion, list_any};
ghost use Rattle.journal.specs.Membership.{is_space, sockets_of, place_of};
ghost use Rattle.journal.specs.Sessions.{rooms_rising};
ghost use Rattle.room_maps.specs.Membership as room_maps;
ghost use Rattle.journal.specs.Command.{Does};
ghost use Rattle.journal.specs.Fields.{without_place};
ghost use Rattle.journal.specs.declared.step.What.{What};
ghost use Rattle.hub_state.specs.Seats.{WithoutSeat};
ghost use Rattle.hub_state.specs.Changes.{ChangesClient, WithoutPid, WithoutSockets, CanForget, MakesStep};
ghost use Rattle.std.specs.Option.{option_map};
ghost use Rattle.std.specs.HashMap.{get};
ghost use Rattle.journal.specs.ManySockets.{dismissal};
ghost use Rattle.journal.specs.Totals.{is_spent};
ghost use Rattle.journal.specs.declared.socket.Socket.{Socket};
ghost use Rattle.hub_state.specs.Words.{DismissesNow};

use crate::client::{Clients, remove_at};
use crate::state::cast::{messages_for, put_messages, receivers, sockets_in};
use crate::state::deliver::shared_text;
use crate::state::{Live, NONE, Result, State};
use journal::{Counts, Dismissal, Dismissed, Ending, HubError, Message, Side, Socket, What};
use room_maps::Rooms;
use sio_wire::disconnect_text;
use std::alloc::{AllocError, Global};
use std::marker::Model;
use terms::{Room, Sid};

/// A socket that ended. In a contract it is plain data.
#[derive(Drop)]
pub struct EndedSocket {
    pub socket: Socket,
    /// The rooms that it was in, its own among them, rising by their bytes.
    pub rooms: Vec<Room>,
    pub ending: Ending,
}

impl Model for EndedSocket {
    ghost Value = { PlainEnded };

    ghost view = { λ d. record { socket = d.socket; rooms = d.rooms.items; ending = d.ending } };
}

/// How many bytes a socket that ended takes, beside its rooms.
const SOCKET: u64 = 96;

/// How many bytes the name of a room takes, however long it is.
const ROOM: u64 = 65;

impl EndedSocket {
    /// How many bytes it takes with its rooms, or the greatest u64.
    pub(crate) fn size(&self) -> u64
        ensures { result ≡ min (ended_size self.now) u64.MAX }
    {
        ROOM.saturating_mul(self.rooms.len() as u64)
            .saturating_add(SOCKET)
    }
}

/// The rooms that a socket is in, rising.
pub(crate) fn rooms_in(rooms: &Rooms, alloc: Global, sid: Sid) -> Result<Vec<Room>, AllocError>
    ensures rooms { IfOk result (λ inside. inside.items ≡ rooms_rising rooms.now sid) }
{
    match rooms.rooms_of(alloc, sid) {
        Ok(inside) => Ok(inside),
        Err(_) => Err(AllocError),
    }
}

/// Sockets as they end now.
pub(crate) fn as_ended(
    rooms: &Rooms,
    alloc: Global,
    ending: Ending,
    sockets: &[Socket],
) -> Result<Vec<EndedSocket>, AllocError>
    ensures ok { IfOk result (λ list. list.items ≡ map (as_ended ending rooms.now) sockets.now) }
{
    let mut list = Vec::new(alloc);
    for socket in sockets {
        list.push(EndedSocket {
            socket: *socket,
            rooms: rooms_in(rooms, alloc, socket.sid)?,
            ending,
        })?;
    }
    Ok(list)
}

/// Takes the socket at a place out of its client's list.
pub(crate) fn drop_from(clients: &mut Clients, client: u128, place: usize)
    ensures { ChangesClient (without_place place) client clients.old clients.new }
{
    if let Some(known) = clients.get_mut(&client) {
        remove_at(&mut known.sockets, place);
    }
}

impl Live {
    /// Forgets a socket's ids, and ends it in the rooms.
    pub(crate) fn forget(&mut self, socket: &Socket)
        requires { room_maps.is_socket self.old.rooms socket.now.sid ≡ true }
        ensures seats { WithoutSeat socket.now.sid self.old.seats self.new.seats }
        ensures pids { WithoutPid socket.now.pid self.old.pids self.new.pids }
        ensures rooms { self.new.rooms ≡ room_maps.without_socket self.old.rooms socket.now.sid }
    {
        self.seats.remove(socket.sid);
        self.pids.remove(&socket.pid);
        let _ended = self.rooms.end(socket.sid);
    }

    /// Forgets the ids of sockets that are apart, and ends these in the rooms.
    pub(crate) fn forget_all(&mut self, sockets: &[Socket])
        requires { CanForget sockets.now self.old.rooms }
        ensures { WithoutSockets sockets.now self.old self.new }
    {
        for socket in sockets {
            self.forget(socket);
        }
    }
}

/// Takes the sockets, which are all at this place, out of their clients' lists.
fn drop_all(clients: &mut Clients, sockets: &[Socket], place: usize)
    ensures { (q : ℕ) → get nat_eq clients.new q
        ≡ (if list_any (λ (k : Socket). k.client == q) sockets.now
        then option_map (without_place place) (get nat_eq clients.old q)
        else get nat_eq clients.old q) }
{
    for socket in sockets {
        drop_from(clients, socket.client, place);
    }
}

impl State {
    /// The sockets that ended since the base, in order. They grow until a seal.
    pub fn ended_sockets(&self) -> &[EndedSocket]
        ensures all { result.now ≡ ended_sockets self.now.base self.now.journal }
        ensures in_spaces { let h = self.now in AllByRecursion
            (λ (gone : PlainEnded). is_space h.limits gone.socket.space ≡ true) result.now }
    {
        self.ended_sockets.as_slice()
    }

    /// The sockets of a client.
    pub(crate) fn its_sockets(&self, alloc: Global, client: u128) -> Result<Vec<Socket>, AllocError>
        ensures ok { let h = self.now
            in IfOk result (λ all. all.items ≡ sockets_of h.base h.journal client) }
    {
        match self.clients.get(&client) {
            Some(known) => Vec::from_slice(alloc, &known.sockets),
            None => Ok(Vec::new(alloc)),
        }
    }

    /// Ends a socket alone, by this side: nothing is saved. Refused as `UnknownSocket`, `Spent`,
    /// then for `Memory`. It takes for each of the socket's rooms the logarithm of the sockets and
    /// rooms.
    pub fn end(&mut self, alloc: Global, sid: Sid, by: Side, now: u64) -> Result
        ensures { Does self.old self.new now (What.Ended sid by) result }
    {
        let known = self.live.seats.get(sid).copied();
        let socket = known.ok_or(HubError::UnknownSocket)?;
        self.may_count(0, 0)?;
        let mut ended = as_ended(&self.live.rooms, alloc, Ending::Alone(by), &[socket])?;
        self.records.steps.reserve()?;
        self.ended_sockets.append(&mut ended)?;
        drop_from(&mut self.clients, socket.client, usize::from(socket.space));
        self.live.forget(&socket);
        self.live.rooms.kept_facts();
        self.records.add(now, What::Ended(sid, by), NONE);
        Ok(())
    }

    /// The dismissal that is asked for, the sockets that it ends, and what it tells their clients.
    fn plan(
        &self,
        alloc: Global,
        space: u16,
        rooms: Vec<Room>,
        excepted: Vec<Room>,
    ) -> Result<(Dismissal, Vec<Socket>, Vec<Message>), AllocError>
        ensures asked { IfOk result (λ plan.
            plan.0 ≡ dismissal self.now space rooms.items excepted.items) }
        ensures makes { IfOk result (λ p. DismissesNow self.now p.0 p.1.items p.2.items) }
    {
        let sids = self.listeners(alloc, space, &rooms, &excepted)?;
        let sockets = sockets_in(alloc, &self.live.seats, &sids, space)?;
        let name = self.name_at(usize::from(space));
        let text = disconnect_text(alloc, name).map_err(|_| AllocError)?;
        let entry = shared_text(alloc, text)?;
        let (messages, _missing) = messages_for(alloc, &self.clients, &sockets, &entry)?;
        let ended = sockets.iter().map(|socket| socket.sid).collect(alloc)?;
        let mut told = receivers(alloc, &messages)?;
        told.sort_unstable();
        let dismissal = Dismissal {
            space,
            rooms,
            excepted,
            ended,
            told,
        };
        Ok((dismissal, sockets, messages))
    }

    /// Tells the clients and ends the sockets of a dismissal that may be made.
    fn dismiss(
        &mut self,
        alloc: Global,
        dismissal: Dismissal,
        sockets: Vec<Socket>,
        messages: Vec<Message>,
        now: u64,
    ) -> Result
        requires known { is_space self.old.limits dismissal.space ≡ true }
        requires makes { DismissesNow self.old dismissal sockets.items messages.items }
        requires unspent { let what = What.AllEnded dismissal
            in is_spent self.old.base self.old.limits self.old.journal what ≡ false }
        ensures { MakesStep self.old self.new now (What.AllEnded dismissal) result }
    {
        let place = usize::from(dismissal.space);
        let placed = dismissal.told.len() as u64;
        let added = Counts { placed, ..NONE };
        let gone = sockets_in(alloc, &self.live.seats, &dismissal.ended, dismissal.space)?;
        let mut ended = as_ended(&self.live.rooms, alloc, Ending::Together, &gone)?;
        let told = receivers(alloc, &messages)?;
        self.records.steps.reserve()?;
        let before = self.ended_sockets.len();
        self.ended_sockets.append(&mut ended)?;
        if let Err(AllocError) = put_messages(&mut self.clients, messages, &told) {
            self.ended_sockets.truncate(before);
            return Err(HubError::Memory);
        }
        drop_all(&mut self.clients, &sockets, place);
        self.live.forget_all(&sockets);
        self.live.rooms.kept_facts();
        self.records.add(now, What::AllEnded(dismissal), added);
        Ok(())
    }

    /// Ends all connected sockets of a namespace that are in one of the rooms, or where none is
    /// named all, but for those in an excepted room: each client is told so by a DISCONNECT packet
    /// where its outbox has space for it, nothing is saved, and no drop is counted. It gives the
    /// sockets that ended, rising, and the clients that were told, rising. Refused as
    /// `UnknownNamespace`, then as `Spent` and for `Memory` in either order. It takes as much as
    /// `sockets_join`, and for each room of a socket that ends the logarithm of sockets and rooms.
    pub fn disconnect_sockets(
        &mut self,
        alloc: Global,
        space: &str,
        rooms: Vec<Room>,
        excepted: Vec<Room>,
        now: u64,
    ) -> Result<Dismissed>
        ensures done { let place = place_of self.old.limits space.now
            in IfOk result (λ done. let d = dismissal self.old place rooms.items excepted.items
            in (done.ended.items ≡ d.ended) × (done.told.items ≡ d.told)) }
        ensures does { let place = place_of self.old.limits space.now
            in let d = dismissal self.old place rooms.items excepted.items
            in Does self.old self.new now (What.AllEnded d) result }
    {
        let place = self.place_of(space)?;
        let (dismissal, sockets, messages) = self.plan(alloc, place, rooms, excepted)?;
        let done = Dismissed {
            ended: Vec::from_slice(alloc, &dismissal.ended)?,
            told: Vec::from_slice(alloc, &dismissal.told)?,
        };
        self.may_count(dismissal.told.len() as u64, 0)?;
        self.dismiss(alloc, dismissal, sockets, messages, now)?;
        Ok(done)
    }
}
