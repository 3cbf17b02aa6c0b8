//! Sockets join and leave rooms, alone or all of a namespace that match, and who is in which
//! (Socket.IO server documentation, "Rooms", and "Server API", `socketsJoin`, `socketsLeave`,
//! `fetchSockets` and `socket.rooms`).

ghost use Rattle.hub_state.specs.Seats.{seat_at};
ghost use Rattle.std.specs.Prelude.{◌≡◌, not, filter, IfOk, true, false, IfErr, Err, MatchBool, if◌then◌else◌};
ghost use Rattle.room_maps.specs.Membership.{is_in};
ghost use Rattle.journal.specs.Membership.{place_of, is_space, sockets, matches};
ghost use Rattle.journal.specs.Command.{Does, refusal};
ghost use Rattle.journal.specs.ManySockets as many;
ghost use Rattle.journal.specs.ManySockets.{RightJoining, RightLeaving};
ghost use Rattle.journal.specs.Casting as casting;
ghost use Rattle.journal.specs.declared.step.What.{What};
ghost use Rattle.journal.specs.Sessions.{rooms_rising};
ghost use Rattle.hub_state.specs.Words.{ListsMembers, rooms_now, selected};

use crate::seats::Seats;
use crate::state::end::rooms_in;
use crate::state::{NONE, Result, State};
use journal::{HubError, RoomChange, What};
use room_maps::Rooms;
use std::alloc::{AllocError, Global};
use terms::{Room, Sid};

/// Keeps the sockets that are in the room, or those that aren't.
fn keep_members(sids: &mut Vec<Sid>, inside: &Rooms, room: Room, members: bool)
    ensures { sids.new.items ≡ filter (λ s. if members
        then is_in inside.now s room else not (is_in inside.now s room)) sids.old.items }
{
    sids.retain(|sid| inside.is_in(*sid, room) == members);
}

/// Whether the socket with an id is in the namespace at a place.
fn is_here(seats: &Seats, sid: Sid, space: u16) -> bool
    ensures { result ≡ casting.is_here space (seat_at seats.now sid) }
{
    matches!(seats.get(sid), Some(socket) if socket.space == space)
}

/// Keeps the sockets that are in the namespace at a place.
pub(crate) fn keep_here(sids: &mut Vec<Sid>, seats: &Seats, space: u16)
    ensures { sids.new.items
        ≡ filter (λ s. casting.is_here space (seat_at seats.now s)) sids.old.items }
{
    sids.retain(|sid| is_here(seats, *sid, space));
}

impl State {
    /// A socket joins a room. Refused as `UnknownSocket`, `RoomRefused`, `Spent`, then for
    /// `Memory`. It takes the logarithm of the sockets and of the rooms.
    pub fn join(&mut self, alloc: Global, sid: Sid, room: Room, now: u64) -> Result
        ensures { Does self.old self.new now (What.Joined sid room) result }
    {
        if !self.is_connected(sid) {
            return Err(HubError::UnknownSocket);
        }
        if let Some(refusal) = self.live.rooms.join_refusal(sid, room) {
            return Err(HubError::RoomRefused(refusal));
        }
        self.may_count(0, 0)?;
        self.records.steps.reserve()?;
        if self.live.rooms.join(alloc, sid, room).is_err() {
            return Err(HubError::Memory);
        }
        self.live.rooms.kept_facts();
        self.records.add(now, What::Joined(sid, room), NONE);
        Ok(())
    }

    /// A socket leaves a room. Refused as `UnknownSocket`, `RoomRefused`, `Spent`, then for
    /// `Memory`. It takes the logarithm of the sockets and of the rooms.
    pub fn leave(&mut self, _alloc: Global, sid: Sid, room: Room, now: u64) -> Result
        ensures { Does self.old self.new now (What.Left sid room) result }
    {
        if !self.is_connected(sid) {
            return Err(HubError::UnknownSocket);
        }
        if let Some(refusal) = self.live.rooms.leave_refusal(sid, room) {
            return Err(HubError::RoomRefused(refusal));
        }
        self.may_count(0, 0)?;
        self.records.steps.reserve()?;
        let _left = self.live.rooms.leave(sid, room);
        self.live.rooms.kept_facts();
        self.records.add(now, What::Left(sid, room), NONE);
        Ok(())
    }

    /// The change that is made where all that match leave a room, or join it.
    fn room_change(
        &self,
        alloc: Global,
        space: u16,
        rooms: Vec<Room>,
        excepted: Vec<Room>,
        room: Room,
        leaves: bool,
    ) -> Result<RoomChange, AllocError>
        ensures change { IfOk result (λ m. m ≡ (if leaves
            then many.leaving self.now space rooms.items excepted.items room
            else many.joining self.now space rooms.items excepted.items room)) }
        ensures right { let h = self.now in IfOk result (λ m. MatchBool leaves
            (RightLeaving h.base h.journal m) (RightJoining h.base h.journal m)) }
    {
        let mut changed = self.listeners(alloc, space, &rooms, &excepted)?;
        keep_here(&mut changed, &self.live.seats, space);
        keep_members(&mut changed, &self.live.rooms, room, leaves);
        Ok(RoomChange {
            space,
            rooms,
            excepted,
            room,
            changed,
        })
    }

    /// All sockets of a namespace that are in one of the rooms, or where none is named all, but for
    /// those in an excepted room, join a room, or none does. It gives those that weren't in it,
    /// rising. Refused as `UnknownNamespace`, then as `RoomRefused(TooManyRooms)` where one of them
    /// that isn't in the room is in as many as it may be, then `Spent`; want of memory may come in
    /// place of these two. It takes the logarithm of the namespaces, and walks the members of the
    /// rooms in all namespaces, or where no room is named the sockets of its namespace alone, each
    /// with the logarithm and the excepted rooms.
    pub fn sockets_join(
        &mut self,
        alloc: Global,
        space: &str,
        rooms: Vec<Room>,
        excepted: Vec<Room>,
        room: Room,
        now: u64,
    ) -> Result<Vec<Sid>>
        ensures changed { let place = place_of self.old.limits space.now
            in let change = many.joining self.old place rooms.items excepted.items room
            in IfOk result (λ sids. sids.items ≡ change.changed) }
        ensures does { let place = place_of self.old.limits space.now
            in let change = many.joining self.old place rooms.items excepted.items room
            in Does self.old self.new now (What.AllJoined change) result }
    {
        let place = self.place_of(space)?;
        let change = self.room_change(alloc, place, rooms, excepted, room, false)?;
        if let Some(refusal) = self.live.rooms.join_all_refusal(&change.changed, room) {
            return Err(HubError::RoomRefused(refusal));
        }
        self.may_count(0, 0)?;
        self.records.steps.reserve()?;
        let Ok(joined) = self.live.rooms.join_all(alloc, &change.changed, room) else {
            return Err(HubError::Memory);
        };
        self.live.rooms.kept_facts();
        self.records.add(now, What::AllJoined(change), NONE);
        Ok(joined)
    }

    /// All sockets of a namespace that are in one of the rooms, or where none is named all, but for
    /// those in an excepted room, leave a room, or none does. It gives those that were in it,
    /// rising. Refused as `UnknownNamespace`, then as `RoomRefused(OwnRoom)` where the room is the
    /// own one of one of them, then `Spent`; want of memory may come instead of these two. It
    /// takes as much as `sockets_join`.
    pub fn sockets_leave(
        &mut self,
        alloc: Global,
        space: &str,
        rooms: Vec<Room>,
        excepted: Vec<Room>,
        room: Room,
        now: u64,
    ) -> Result<Vec<Sid>>
        ensures changed { let place = place_of self.old.limits space.now
            in let change = many.leaving self.old place rooms.items excepted.items room
            in IfOk result (λ sids. sids.items ≡ change.changed) }
        ensures does { let place = place_of self.old.limits space.now
            in let change = many.leaving self.old place rooms.items excepted.items room
            in Does self.old self.new now (What.AllLeft change) result }
    {
        let place = self.place_of(space)?;
        let change = self.room_change(alloc, place, rooms, excepted, room, true)?;
        self.live.rooms.kept_facts();
        if let Some(refusal) = self.live.rooms.leave_all_refusal(&change.changed, room) {
            return Err(HubError::RoomRefused(refusal));
        }
        self.may_count(0, 0)?;
        self.records.steps.reserve()?;
        let Ok(left) = self.live.rooms.leave_all(alloc, &change.changed, room) else {
            return Err(HubError::Memory);
        };
        self.live.rooms.kept_facts();
        self.records.add(now, What::AllLeft(change), NONE);
        Ok(left)
    }

    /// The connected sockets of a namespace that are in a room, rising by their ids. Refused as
    /// `UnknownNamespace`, then for `Memory`. It takes the logarithm of the namespaces, and
    /// walks the room's members of all namespaces, each with the logarithm.
    pub fn members(&self, alloc: Global, space: &str, room: Room) -> Result<Vec<Sid>>
        ensures members { let place = place_of self.now.limits space.now
            in IfOk result (λ sids. ListsMembers self.now place room sids.items) }
        ensures refused { is_space self.now.limits (place_of self.now.limits space.now) ≡ false
            → result ≡ Err HubError.UnknownNamespace }
        ensures memory { is_space self.now.limits (place_of self.now.limits space.now) ≡ true
            → IfErr result (λ e. e ≡ HubError.Memory) }
    {
        let place = self.place_of(space)?;
        let Ok(mut sids) = self.live.rooms.members_of(alloc, room) else {
            return Err(HubError::Memory);
        };
        keep_here(&mut sids, &self.live.seats, place);
        Ok(sids)
    }

    /// The connected sockets of a namespace that are in one of the rooms, or where none is named
    /// all, but for those in an excepted room, rising by their ids. Refused as `UnknownNamespace`,
    /// then for `Memory`. It takes as much as `sockets_join`.
    pub fn selected(
        &self,
        alloc: Global,
        space: &str,
        rooms: &[Room],
        excepted: &[Room],
    ) -> Result<Vec<Sid>>
        ensures selected { let place = place_of self.now.limits space.now
            in IfOk result (λ sids. sids.items ≡ selected self.now place rooms.now excepted.now) }
        ensures refused { is_space self.now.limits (place_of self.now.limits space.now) ≡ false
            → result ≡ Err HubError.UnknownNamespace }
        ensures memory { is_space self.now.limits (place_of self.now.limits space.now) ≡ true
            → IfErr result (λ e. e ≡ HubError.Memory) }
    {
        let place = self.place_of(space)?;
        let mut sids = self.listeners(alloc, place, rooms, excepted)?;
        keep_here(&mut sids, &self.live.seats, place);
        Ok(sids)
    }

    /// The rooms that a socket is in, its own among them, rising by their bytes; none where it isn't
    /// connected. It takes as many steps as it has rooms.
    pub fn rooms_of(&self, alloc: Global, sid: Sid) -> Result<Vec<Room>, AllocError>
        ensures { IfOk result (λ rooms. rooms.items ≡ rooms_rising (rooms_now self.now) sid) }
    {
        rooms_in(&self.live.rooms, alloc, sid)
    }
}
