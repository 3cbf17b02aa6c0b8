//! The rooms of each socket and the sockets of each room, in two maps that mirror each other
//! (Socket.IO server documentation, "Rooms" and "Adapter").

ghost use Rattle.std.specs.Prelude.{◌≡◌, ◌≤◌, IfOk, IfErr, IfSome, OnOk, OnErr, true, false, length};
ghost use Rattle.std.specs.FinSet as set;
ghost use Rattle.std.specs.Arc.{arc_value};
ghost use Rattle.std.specs.Ordering.{nat_cmp};
ghost use Rattle.terms.specs.Refusal.{ok_unless};
ghost use Rattle.terms.specs.Listing.{ListsRising};
ghost use Rattle.terms.specs.Room.{room_cmp, same_room, own_room};
ghost use Rattle.room_maps.specs.Links.{is_linked, HasNoEmptySet, IsUnchanged, AddsLink};
ghost use Rattle.room_maps.specs.Membership.{RoomSets, room_sets_code, HasFewRooms, pair_cmp, no_sockets, is_socket, is_in, rooms_in, is_full, with_pair, without_pair, with_pairs, with_socket, with_socket_in, without_socket, enter_refusal, enter_all_refusal, join_refusal, leave_refusal, unknown_refusal, AreConsistent};
ghost use Rattle.room_maps.specs.Membership as membership;
ghost use Rattle.room_maps.specs.Addressed.{is_addressed};
ghost use Rattle.room_maps.specs.Asked.{AreRight};
ghost use Rattle.room_maps.specs.Mirror.{IsMirrored, Mirror, sets_of, pairs_of};

mod together;

use crate::asked::Asked;
use crate::error::RoomError;
use crate::remembered::Remembered;
use crate::{asked, links};
use std::alloc::{AllocError, Global};
use std::collections::{BTreeMap, BTreeSet};
use std::marker::Model;
use std::sync::Arc;
use terms::{Room, Sid};

/// What a call on rooms answers, or why it is refused.
type Result<X = (), E = RoomError> = std::result::Result<X, E>;

/// A socket is in at most so many rooms, its own among them.
const MOST_ROOMS: usize = 256;

/// The rooms of each socket.
pub type SocketMap = BTreeMap<Sid, BTreeSet<Room>>;

/// The sockets of each room.
pub type RoomMap = BTreeMap<Room, BTreeSet<Sid>>;

/// Which sockets there are, and which rooms each is in. Each socket is in its own room, and a room
/// lasts while a socket is in it.
///
/// A contract sees a set of sockets and a set of pairs of a socket and a room. In the costs below,
/// "the logarithm" is that of the number of sockets or of rooms.
#[derive(Drop)]
pub struct Rooms {
    by_socket: SocketMap,
    by_room: RoomMap,
    /// What was found since a socket last came into a room or went.
    asked: Remembered<Asked>,
}

impl Model for Rooms {
    ghost Value = { RoomSets };

    ghost coded = { room_sets_code };

    ghost view = { λ a. sets_of a.by_socket };

    ghost invariant = { λ a. Mirror a.by_socket a.by_room (pairs_of a.by_socket)
        × HasFewRooms (sets_of a.by_socket) × AreRight (sets_of a.by_socket) a.asked };
}

impl Rooms {
    /// No sockets and no rooms.
    pub fn new(alloc: Global) -> Rooms
        ensures { result ≡ no_sockets }
    {
        Rooms {
            by_socket: BTreeMap::new(alloc),
            by_room: BTreeMap::new(alloc),
            asked: Remembered::new(alloc),
        }
    }

    /// Whether the socket is in the room. It takes the logarithm.
    pub fn is_in(&self, sid: Sid, room: Room) -> bool
        ensures { result ≡ is_in self.now sid room }
    {
        self.by_socket
            .get(&sid)
            .is_some_and(|rooms| rooms.contains(&room))
    }

    fn is_socket(&self, sid: Sid) -> bool
        ensures { result ≡ is_socket self.now sid }
    {
        self.by_socket.contains_key(&sid)
    }

    /// Whether the socket is in as many rooms as it may be.
    fn is_full(&self, sid: Sid) -> bool
        ensures { result ≡ is_full self.now sid }
    {
        match self.by_socket.get(&sid) {
            Some(rooms) => rooms.len() >= MOST_ROOMS,
            None => false,
        }
    }

    /// Why a `join` of the socket would be refused, but for `Memory`. It takes the logarithm.
    pub fn join_refusal(&self, sid: Sid, room: Room) -> Option<RoomError>
        ensures { result ≡ join_refusal self.now sid room }
    {
        if !self.is_socket(sid) {
            Some(RoomError::UnknownSocket)
        } else if self.is_in(sid, room) {
            Some(RoomError::AlreadyIn)
        } else if self.is_full(sid) {
            Some(RoomError::TooManyRooms)
        } else {
            None
        }
    }

    /// Why a `leave` of the socket would be refused. It takes the logarithm.
    pub fn leave_refusal(&self, sid: Sid, room: Room) -> Option<RoomError>
        ensures { result ≡ leave_refusal self.now sid room }
    {
        if !self.is_socket(sid) {
            Some(RoomError::UnknownSocket)
        } else if Room::own(sid) == room {
            Some(RoomError::OwnRoom)
        } else if !self.is_in(sid, room) {
            Some(RoomError::NotIn)
        } else {
            None
        }
    }

    /// A new socket, which is in its own room. Refused as `SidTaken`, then for `Memory`. It takes
    /// the logarithm.
    pub fn enter(&mut self, alloc: Global, sid: Sid) -> Result
        ensures refused { IfSome (enter_refusal self.old sid) (λ e. result ≡ Err e) }
        ensures memory_alone { enter_refusal self.old sid ≡ None
            → IfErr result (λ e. e ≡ RoomError.Memory) }
        ensures entered { OnOk result (self.new ≡ with_socket self.old sid) }
        ensures unchanged { OnErr result (self.new ≡ self.old) }
    {
        self.enter_all(alloc, sid, &[])
    }

    /// A new socket, which is in its own room and in all of these, or nothing. A room that is named
    /// twice counts once, and so does the socket's own one. Refused as `SidTaken`, `TooManyRooms`,
    /// then for `Memory`. Each room takes the logarithm, and where 256 or more are named, a
    /// comparison with each that is named after it.
    pub fn enter_all(&mut self, alloc: Global, sid: Sid, rooms: &[Room]) -> Result
        ensures refused { IfSome (enter_all_refusal self.old sid rooms.now) (λ e. result ≡ Err e) }
        ensures memory_alone { enter_all_refusal self.old sid rooms.now ≡ None
            → IfErr result (λ e. e ≡ RoomError.Memory) }
        ensures entered { OnOk result (self.new ≡ with_socket_in self.old sid rooms.now) }
        ensures unchanged { OnErr result (self.new ≡ self.old) }
    {
        if self.is_socket(sid) {
            return Err(RoomError::SidTaken);
        }
        if are_too_many(sid, rooms) {
            return Err(RoomError::TooManyRooms);
        }
        self.kept_facts();
        self.add_socket(alloc, sid)?;
        // A socket that can't have all its rooms ends again, which takes no memory.
        if self.add_rooms(alloc, sid, rooms).is_err() {
            self.take_socket(sid);
            return Err(RoomError::Memory);
        }
        Ok(())
    }

    /// The socket is in one room more. Refused as `UnknownSocket`, `AlreadyIn`, `TooManyRooms`,
    /// then for `Memory`. It takes the logarithm.
    pub fn join(&mut self, alloc: Global, sid: Sid, room: Room) -> Result
        ensures refused { IfSome (join_refusal self.old sid room) (λ e. result ≡ Err e) }
        ensures memory_alone { join_refusal self.old sid room ≡ None
            → IfErr result (λ e. e ≡ RoomError.Memory) }
        ensures joined { OnOk result (self.new ≡ with_pair self.old sid room) }
        ensures unchanged { OnErr result (self.new ≡ self.old) }
    {
        if let Some(refusal) = self.join_refusal(sid, room) {
            return Err(refusal);
        }
        Ok(self.add(alloc, sid, room)?)
    }

    /// The socket is in one room less. Refused as `UnknownSocket`, `OwnRoom`, `NotIn`. It takes the
    /// logarithm and no memory.
    pub fn leave(&mut self, sid: Sid, room: Room) -> Result
        ensures answer { result ≡ ok_unless (leave_refusal self.old sid room) }
        ensures left { OnOk result (self.new ≡ without_pair self.old sid room) }
        ensures unchanged { OnErr result (self.new ≡ self.old) }
    {
        if let Some(refusal) = self.leave_refusal(sid, room) {
            return Err(refusal);
        }
        self.take(sid, room);
        Ok(())
    }

    /// Ends a socket, and with it all its pairs. Refused as `UnknownSocket`. Each of its rooms
    /// takes the logarithm. It takes no memory.
    pub fn end(&mut self, sid: Sid) -> Result
        ensures answer { result ≡ ok_unless (unknown_refusal self.old sid) }
        ensures ended { OnOk result (self.new ≡ without_socket self.old sid) }
        ensures unchanged { OnErr result (self.new ≡ self.old) }
    {
        if !self.is_socket(sid) {
            return Err(RoomError::UnknownSocket);
        }
        self.take_socket(sid);
        Ok(())
    }

    /// The rooms that a socket is in, rising by their bytes. Refused as `UnknownSocket`, then for
    /// `Memory`. It takes the logarithm, and walks the socket's rooms.
    pub fn rooms_of(&self, alloc: Global, sid: Sid) -> Result<Vec<Room>>
        ensures refused { IfSome (unknown_refusal self.now sid) (λ e. result ≡ Err e) }
        ensures memory_alone { unknown_refusal self.now sid ≡ None
            → IfErr result (λ e. e ≡ RoomError.Memory) }
        ensures rooms { IfOk result (λ r. ListsRising room_cmp (is_in self.now sid) r.items) }
        // So `enter_all` takes them all again.
        ensures few { IfOk result (λ rooms. membership.are_too_many sid rooms.items ≡ false) }
    {
        let Some(rooms) = self.by_socket.get(&sid) else {
            return Err(RoomError::UnknownSocket);
        };
        self.kept_facts();
        Ok(links::list(alloc, rooms)?)
    }

    /// The sockets in a room, rising by their ids. Refused for `Memory` alone. It takes the
    /// logarithm, and walks the room's members.
    pub fn members_of(&self, alloc: Global, room: Room) -> Result<Vec<Sid>>
        ensures members { IfOk result
            (λ sids. ListsRising nat_cmp (λ sid. is_in self.now sid room) sids.items) }
        ensures memory_alone { IfErr result (λ e. e ≡ RoomError.Memory) }
    {
        match self.by_room.get(&room) {
            Some(members) => Ok(links::list(alloc, members)?),
            None => Ok(Vec::new(alloc)),
        }
    }

    /// The sockets for whom a broadcast to these rooms is: those in one of them, or where none is
    /// named all, but for those in one of the excepted rooms. They rise by their ids, each once.
    /// Refused for `Memory` alone. With rooms named it walks their members, each with the logarithm
    /// and the excepted rooms. With none it walks all sockets once, each with the excepted rooms.
    pub fn addressees(&self, alloc: Global, rooms: &[Room], excepted: &[Room]) -> Result<Vec<Sid>>
        ensures addressed { IfOk result (λ sids. ListsRising nat_cmp
            (is_addressed self.now rooms.now excepted.now) sids.items) }
        ensures memory_alone { IfErr result (λ e. e ≡ RoomError.Memory) }
    {
        if rooms.is_empty() {
            Ok(links::sockets_but(alloc, &self.by_socket, excepted)?)
        } else {
            Ok(links::members_but(alloc, &self.by_room, rooms, excepted)?)
        }
    }

    /// The same. What is asked for twice is remembered, until a socket comes into a room or goes:
    /// then it compares the rooms.
    pub fn recalled(
        &mut self,
        alloc: Global,
        rooms: &[Room],
        excepted: &[Room],
    ) -> Result<Arc<Vec<Sid>>>
        ensures addressed { IfOk result (λ sids. ListsRising nat_cmp
            (is_addressed self.old rooms.now excepted.now) (arc_value sids).items) }
        ensures memory_alone { IfErr result (λ e. e ≡ RoomError.Memory) }
        ensures same { self.new ≡ self.old }
    {
        let number = asked::number_of(rooms, excepted);
        if let Some(sids) = asked::recall(&self.asked, number, rooms, excepted) {
            return Ok(Arc::try_clone(sids)?);
        }
        let found = self.addressees(alloc, rooms, excepted)?;
        let sids = Arc::new(alloc, found).map_err(|_| RoomError::Memory)?;
        asked::remember(alloc, &mut self.asked, number, rooms, excepted, &sids);
        Ok(sids)
    }

    /// Each socket with each room that it is in, rising by the sockets' ids and each socket's rooms
    /// by their bytes. Refused for `Memory` alone. It walks the pairs once.
    pub fn pairs(&self, alloc: Global) -> Result<Vec<(Sid, Room)>>
        ensures pairs { IfOk result
            (λ pairs. ListsRising pair_cmp (λ pair. is_in self.now pair.0 pair.1) pairs.items) }
        ensures memory_alone { IfErr result (λ e. e ≡ RoomError.Memory) }
    {
        Ok(links::all_pairs(alloc, &self.by_socket)?)
    }

    /// What every `Rooms` keeps. It has no effect.
    pub fn kept_facts(&self)
        ensures { AreConsistent self.now }
    {
        let _ = &self.by_socket;
    }

    /// The two maps themselves: the rooms of each socket, and the sockets of each room (Socket.IO
    /// server documentation, "Rooms", "Implementation details"). It has no effect.
    pub fn mirrors(&self) -> (&SocketMap, &RoomMap)
        ensures { IsMirrored self.now result.0.now result.1.now }
    {
        (&self.by_socket, &self.by_room)
    }

    fn add_socket(&mut self, alloc: Global, sid: Sid) -> Result<(), AllocError>
        requires { is_socket self.old sid ≡ false }
        ensures ok { OnOk result (self.new ≡ with_socket self.old sid) }
        ensures err { OnErr result (self.new ≡ self.old) }
    {
        self.asked.forget();
        let own = Room::own(sid);
        add_pair(alloc, &mut self.by_socket, &mut self.by_room, sid, own)?;
        Ok(())
    }

    fn add(&mut self, alloc: Global, sid: Sid, room: Room) -> Result<(), AllocError>
        requires known { is_socket self.old sid ≡ true }
        requires absent { is_in self.old sid room ≡ false }
        requires few { is_full self.old sid ≡ false }
        ensures ok { OnOk result (self.new ≡ with_pair self.old sid room) }
        ensures err { OnErr result (self.new ≡ self.old) }
    {
        self.asked.forget();
        add_pair(alloc, &mut self.by_socket, &mut self.by_room, sid, room)?;
        Ok(())
    }

    /// Takes the socket out of a room that isn't its own one.
    fn take(&mut self, sid: Sid, room: Room)
        requires { same_room (own_room sid) room ≡ false }
        ensures { self.new ≡ without_pair self.old sid room }
    {
        self.asked.forget();
        links::unlink(&mut self.by_socket, &sid, &room);
        links::unlink(&mut self.by_room, &room, &sid);
    }

    fn take_socket(&mut self, sid: Sid)
        ensures { self.new ≡ without_socket self.old sid }
    {
        self.asked.forget();
        if let Some(rooms) = self.by_socket.remove(&sid) {
            links::unlink_all(&mut self.by_room, rooms, &sid);
        }
    }

    /// Adds the room, unless the socket is in it already.
    fn add_missing(&mut self, alloc: Global, sid: Sid, room: Room) -> Result<(), AllocError>
        requires known { is_socket self.old sid ≡ true }
        requires few { is_in self.old sid room ≡ false → is_full self.old sid ≡ false }
        ensures ok { OnOk result (self.new ≡ with_pair self.old sid room) }
        ensures err { OnErr result (self.new ≡ self.old) }
    {
        if self.is_in(sid, room) {
            return Ok(());
        }
        self.add(alloc, sid, room)
    }

    /// Adds the rooms. Where a growth is refused, those before it stay.
    fn add_rooms(&mut self, alloc: Global, sid: Sid, rooms: &[Room]) -> Result<(), AllocError>
        requires known { is_socket self.old sid ≡ true }
        requires few { set.len (rooms_in (with_pairs self.old sid rooms.now) sid) ≤ 256 }
        ensures ok { OnOk result (self.new ≡ with_pairs self.old sid rooms.now) }
        ensures others { without_socket self.new sid ≡ without_socket self.old sid }
    {
        for room in rooms {
            self.add_missing(alloc, sid, *room)?;
        }
        Ok(())
    }
}

/// Adds the pair to both maps, or to none: where the second growth is refused, the first is taken
/// back.
fn add_pair(
    alloc: Global,
    by_socket: &mut SocketMap,
    by_room: &mut RoomMap,
    sid: Sid,
    room: Room,
) -> Result<(), AllocError>
    requires filled { HasNoEmptySet nat_cmp by_socket.old }
    requires absent { is_linked nat_cmp room_cmp by_socket.old sid room ≡ false }
    ensures added { OnOk result (AddsLink nat_cmp room_cmp by_socket.old by_socket.new sid room
        × AddsLink room_cmp nat_cmp by_room.old by_room.new room sid) }
    ensures filled { HasNoEmptySet room_cmp by_room.old → HasNoEmptySet room_cmp by_room.new }
    ensures sockets_kept { OnErr result (IsUnchanged nat_cmp room_cmp by_socket.old by_socket.new) }
    ensures rooms_kept { OnErr result (IsUnchanged room_cmp nat_cmp by_room.old by_room.new) }
{
    links::link(alloc, by_socket, sid, room)?;
    let second = links::link(alloc, by_room, room, sid);
    if second.is_err() {
        links::unlink(by_socket, &sid, &room);
    }
    second
}

/// Whether the socket's own room and these are more than a socket may be in.
fn are_too_many(sid: Sid, rooms: &[Room]) -> bool
    ensures { result ≡ membership.are_too_many sid rooms.now }
{
    if rooms.len() < MOST_ROOMS {
        return false;
    }
    let named = distinct(rooms);
    if rooms.contains(&Room::own(sid)) {
        named > MOST_ROOMS
    } else {
        named >= MOST_ROOMS
    }
}

/// How many rooms there are, each counted once.
fn distinct(rooms: &[Room]) -> usize
    ensures count { result ≡ set.len (set.from_list {R = room_cmp} rooms.now) }
    ensures bound { result ≤ length rooms.now }
{
    let mut count = 0;
    let mut rest = rooms;
    'rooms: while let Some((room, others)) = rest.split_first() {
        if !others.contains(room) {
            count += 1;
        }
        rest = others;
    }
    count
}
