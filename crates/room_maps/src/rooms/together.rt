//! Several sockets join a room, or leave it: all of them, or none (Socket.IO server documentation,
//! "Rooms").

ghost use Rattle.std.specs.Prelude.{◌≡◌, ◌&&◌, ℕ, IfOk, IfErr, IfSome, OnOk, OnErr, None, true, false, not, if◌then◌else◌};
ghost use Rattle.std.specs.Ordering.{nat_cmp};
ghost use Rattle.terms.specs.Listing.{ListsRising};
ghost use Rattle.terms.specs.Room.{same_room, own_room};
ghost use Rattle.room_maps.specs.Membership.{is_socket, is_in, is_full, is_named, with_members, without_members, join_all_refusal, leave_all_refusal};
ghost use Rattle.room_maps.specs.Membership as membership;

use crate::error::RoomError;
use crate::links;
use crate::rooms::{Result, Rooms};
use std::alloc::{AllocError, Global};
use terms::{Room, Sid};

impl Rooms {
    /// Whether one of these isn't a socket.
    fn has_unknown(&self, sids: &[Sid]) -> bool
        ensures { result ≡ membership.has_unknown self.now sids.now }
    {
        sids.iter().any(|sid| !self.is_socket(*sid))
    }

    /// Whether one of these isn't in the room, and has no space for it.
    fn has_full(&self, sids: &[Sid], room: Room) -> bool
        ensures { result ≡ membership.has_full self.now sids.now room }
    {
        sids.iter()
            .any(|sid| !self.is_in(*sid, room) && self.is_full(*sid))
    }

    /// Why a `join_all` of the sockets would be refused, but for `Memory`. Each socket takes the
    /// logarithm.
    pub fn join_all_refusal(&self, sids: &[Sid], room: Room) -> Option<RoomError>
        ensures { result ≡ join_all_refusal self.now sids.now room }
    {
        if self.has_unknown(sids) {
            Some(RoomError::UnknownSocket)
        } else if self.has_full(sids, room) {
            Some(RoomError::TooManyRooms)
        } else {
            None
        }
    }

    /// Why a `leave_all` of the sockets would be refused, but for `Memory`. Each socket takes the
    /// logarithm.
    pub fn leave_all_refusal(&self, sids: &[Sid], room: Room) -> Option<RoomError>
        ensures { result ≡ leave_all_refusal self.now sids.now room }
    {
        if self.has_unknown(sids) {
            Some(RoomError::UnknownSocket)
        } else if sids.iter().any(|sid| Room::own(*sid) == room) {
            Some(RoomError::OwnRoom)
        } else {
            None
        }
    }

    /// The sockets are in the room too, all of them or none. One that is in it already stays, and
    /// one that is named twice counts once. It answers those that weren't in it, rising by their
    /// ids. Refused where one of them is unknown, as `UnknownSocket`, where one that isn't in the
    /// room has no space for it, as `TooManyRooms`, then for `Memory`. Each socket takes the
    /// logarithm, and that of their number.
    pub fn join_all(&mut self, alloc: Global, sids: &[Sid], room: Room) -> Result<Vec<Sid>>
        ensures refused { IfSome (join_all_refusal self.old sids.now room) (λ e. result ≡ Err e) }
        ensures memory_alone { join_all_refusal self.old sids.now room ≡ None
            → IfErr result (λ e. e ≡ RoomError.Memory) }
        ensures joined { OnOk result (self.new ≡ with_members self.old sids.now room) }
        ensures changed { IfOk result (λ changed. ListsRising nat_cmp
            (λ sid. is_named sids.now sid && not (is_in self.old sid room)) changed.items) }
        ensures unchanged { OnErr result (self.new ≡ self.old) }
    {
        if let Some(refusal) = self.join_all_refusal(sids, room) {
            return Err(refusal);
        }
        let outside = self.those(alloc, sids, room, false)?;
        self.kept_facts();
        // Where a growth is refused, all are taken out again, which takes no memory.
        if self.add_each(alloc, &outside, room).is_err() {
            self.take_members(&outside, room);
            return Err(RoomError::Memory);
        }
        Ok(outside)
    }

    /// The sockets aren't in the room any more, all of them or none. One that isn't in it stays as
    /// it is, and one that is named twice counts once. It answers those that were in it, rising by
    /// their ids. Refused where one of them is unknown, as `UnknownSocket`, where the room is the
    /// own one of one of them, as `OwnRoom`, then for `Memory`, which only the answer takes. Each
    /// socket takes the logarithm, and that of their number.
    pub fn leave_all(&mut self, alloc: Global, sids: &[Sid], room: Room) -> Result<Vec<Sid>>
        ensures refused { IfSome (leave_all_refusal self.old sids.now room) (λ e. result ≡ Err e) }
        ensures memory_alone { leave_all_refusal self.old sids.now room ≡ None
            → IfErr result (λ e. e ≡ RoomError.Memory) }
        ensures left { OnOk result (self.new ≡ without_members self.old sids.now room) }
        ensures changed { IfOk result (λ changed. ListsRising nat_cmp
            (λ sid. is_named sids.now sid && is_in self.old sid room) changed.items) }
        ensures unchanged { OnErr result (self.new ≡ self.old) }
    {
        if let Some(refusal) = self.leave_all_refusal(sids, room) {
            return Err(refusal);
        }
        let inside = self.those(alloc, sids, room, true)?;
        self.take_members(&inside, room);
        Ok(inside)
    }

    /// Those of the sockets that are in the room, or those that aren't, rising.
    fn those(
        &self,
        alloc: Global,
        sids: &[Sid],
        room: Room,
        inside: bool,
    ) -> Result<Vec<Sid>, AllocError>
        ensures { IfOk result (λ those. ListsRising nat_cmp (λ sid. is_named sids.now sid
            && (if inside then is_in self.now sid room else not (is_in self.now sid room)))
            those.items) }
    {
        let those = sids
            .iter()
            .copied()
            .filter(|sid| self.is_in(*sid, room) == inside)
            .collect(alloc)?;
        Ok(links::rising(those))
    }

    /// Adds the sockets. Where a growth is refused, those before it stay.
    fn add_each(&mut self, alloc: Global, sids: &[Sid], room: Room) -> Result<(), AllocError>
        requires known { (sid : ℕ) → is_named sids.now sid ≡ true → is_socket self.old sid ≡ true }
        requires few { (sid : ℕ) → is_named sids.now sid ≡ true → is_full self.old sid ≡ false }
        ensures ok { OnOk result (self.new ≡ with_members self.old sids.now room) }
        ensures others { without_members self.new sids.now room
            ≡ without_members self.old sids.now room }
    {
        for sid in sids {
            self.add_missing(alloc, *sid, room)?;
        }
        Ok(())
    }

    /// Takes the sockets out of the room, which takes no memory.
    fn take_members(&mut self, sids: &[Sid], room: Room)
        requires { (s : ℕ) → is_named sids.now s ≡ true → same_room (own_room s) room ≡ false }
        ensures { self.new ≡ without_members self.old sids.now room }
    {
        for sid in sids {
            self.take(*sid, room);
        }
    }
}
