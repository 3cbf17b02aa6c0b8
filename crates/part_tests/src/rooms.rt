//! Which sockets are in which rooms.

use crate::play::{Part, play};
use room_maps::{RoomError, Rooms};
use std::alloc::{AllocError, Global};
use terms::{Room, Sid};

/// A room, by its name or as the own one of a socket.
#[derive(Clone, Copy)]
pub enum At {
    Named(&'static str),
    Own(u128),
}

const Q: At = At::Named("q");

pub const R: At = At::Named("r");

const YES: Result<bool, RoomError> = Ok(true);

type Rows = &'static [(Row, Result<bool, RoomError>)];

/// What is called, with what it answers last.
#[derive(Clone, Copy)]
pub enum Row {
    Enter(u128),
    EnterAll(u128, &'static [At]),
    Join(u128, At),
    Leave(u128, At),
    End(u128),
    JoinAll(&'static [u128], At, &'static [u128]),
    LeaveAll(&'static [u128], At, &'static [u128]),
    /// By the call and by both maps.
    IsIn(u128, At, bool),
    RoomsOf(u128, &'static [At]),
    MembersOf(At, &'static [u128]),
    /// Of those in one of these rooms, or all where none is named, those in none of the others.
    Addressees(&'static [At], &'static [At], &'static [u128]),
    /// How many sockets and how many rooms there are.
    Sizes(usize, usize),
}

/// A room whose name is short.
pub fn room(at: At) -> Room {
    match at {
        At::Named(name) => Room::read(name).unwrap_or(Room::own(Sid::new(0))),
        At::Own(sid) => Room::own(Sid::new(sid)),
    }
}

fn rooms(alloc: Global, places: &[At]) -> Result<Vec<Room>, AllocError> {
    let mut list = Vec::new(alloc);
    for at in places {
        list.push(room(*at))?;
    }
    Ok(list)
}

fn sids(alloc: Global, numbers: &[u128]) -> Result<Vec<Sid>, AllocError> {
    let mut list = Vec::new(alloc);
    for number in numbers {
        list.push(Sid::new(*number))?;
    }
    Ok(list)
}

impl Part for Rooms {
    type Row = Row;

    type Fault = RoomError;

    const MEMORY: RoomError = RoomError::Memory;

    /// The pairs of both maps.
    fn size(&self) -> usize {
        let (by_socket, by_room) = self.mirrors();
        let mut pairs = 0usize;
        for rooms in by_socket.values() {
            pairs = pairs.saturating_add(rooms.len());
        }
        for sids in by_room.values() {
            pairs = pairs.saturating_add(sids.len());
        }
        pairs
    }

    fn act(&mut self, alloc: Global, row: &Row) -> Result<bool, RoomError> {
        match row {
            Row::Enter(sid) => self.enter(alloc, Sid::new(*sid))?,
            Row::EnterAll(sid, all) => enter_all(self, alloc, Sid::new(*sid), all)?,
            Row::Join(sid, at) => self.join(alloc, Sid::new(*sid), room(*at))?,
            Row::Leave(sid, at) => self.leave(Sid::new(*sid), room(*at))?,
            Row::End(sid) => self.end(Sid::new(*sid))?,
            _ => return tells(self, alloc, row),
        }
        Ok(true)
    }
}

/// A socket comes into these rooms at once.
fn enter_all(maps: &mut Rooms, alloc: Global, sid: Sid, all: &[At]) -> Result<(), RoomError> {
    let all = rooms(alloc, all)?;
    maps.enter_all(alloc, sid, all.as_slice())
}

/// Whether the call gives what the row says.
fn tells(maps: &mut Rooms, alloc: Global, row: &Row) -> Result<bool, RoomError> {
    match row {
        Row::RoomsOf(sid, want) => are_rooms(maps, alloc, Sid::new(*sid), want),
        Row::IsIn(sid, at, want) => Ok(is_in(maps, Sid::new(*sid), room(*at), *want)),
        Row::Sizes(sockets, named) => {
            let (by_socket, by_room) = maps.mirrors();
            Ok(by_socket.len() == *sockets && by_room.len() == *named)
        }
        Row::JoinAll(_, _, want)
        | Row::LeaveAll(_, _, want)
        | Row::MembersOf(_, want)
        | Row::Addressees(_, _, want) => {
            let given = given(maps, alloc, row)?;
            Ok(are(given.as_slice(), want))
        }
        _ => Ok(false),
    }
}

/// The sockets that the call gives.
fn given(maps: &mut Rooms, alloc: Global, row: &Row) -> Result<Vec<Sid>, RoomError> {
    match row {
        Row::JoinAll(all, at, _) => {
            let all = sids(alloc, all)?;
            maps.join_all(alloc, all.as_slice(), room(*at))
        }
        Row::LeaveAll(all, at, _) => {
            let all = sids(alloc, all)?;
            maps.leave_all(alloc, all.as_slice(), room(*at))
        }
        Row::MembersOf(at, _) => maps.members_of(alloc, room(*at)),
        Row::Addressees(named, excepted, _) => addressees(maps, alloc, named, excepted),
        _ => Ok(Vec::new(alloc)),
    }
}

/// The sockets in one of the first rooms, or all where none is named, that are in none of the others.
fn addressees(
    maps: &Rooms,
    alloc: Global,
    named: &[At],
    excepted: &[At],
) -> Result<Vec<Sid>, RoomError> {
    let named = rooms(alloc, named)?;
    let excepted = rooms(alloc, excepted)?;
    maps.addressees(alloc, named.as_slice(), excepted.as_slice())
}

/// Whether these are the socket's rooms.
fn are_rooms(maps: &Rooms, alloc: Global, sid: Sid, want: &[At]) -> Result<bool, RoomError> {
    let given = maps.rooms_of(alloc, sid)?;
    let want = rooms(alloc, want)?;
    Ok(given.as_slice() == want.as_slice())
}

/// Whether these are the sockets.
fn are(given: &[Sid], want: &[u128]) -> bool {
    given.len() == want.len()
        && given
            .iter()
            .zip(want)
            .all(|(sid, number)| sid.number() == *number)
}

/// Whether the call and each map have the socket in the room, or none has.
fn is_in(maps: &Rooms, sid: Sid, room: Room, want: bool) -> bool {
    let (by_socket, by_room) = maps.mirrors();
    let inside = by_socket
        .get(&sid)
        .is_some_and(|rooms| rooms.contains(&room));
    let member = by_room.get(&room).is_some_and(|sids| sids.contains(&sid));
    [maps.is_in(sid, room), inside, member] == [want; 3]
}

const LONGEST: &str = "0123456789012345678901234567890123456789012345678901234567890123";

#[test]
fn names_of_rooms(rt: HostRuntime) {
    assert!(rt; Room::read("").is_some());
    assert!(rt; room(At::Named(LONGEST)).bytes() == LONGEST.as_bytes());
    assert!(rt;
        Room::read("01234567890123456789012345678901234567890123456789012345678901234").is_none()
    );
    assert!(rt; room(At::Own(0xab)).bytes() == "000000000000000000000000000000ab".as_bytes());
}

#[test]
fn calls_and_refusals(rt: HostRuntime) {
    static ROWS: Rows = &[
        (Row::Enter(1), YES),
        (Row::Join(1, R), YES),
        (Row::IsIn(1, R, true), YES),
        (Row::Join(1, R), Err(RoomError::AlreadyIn)),
        (Row::RoomsOf(1, &[At::Own(1), R]), YES),
        (Row::MembersOf(R, &[1]), YES),
        (Row::Addressees(&[R], &[R], &[]), YES),
        (Row::Leave(1, At::Own(1)), Err(RoomError::OwnRoom)),
        (Row::Leave(1, Q), Err(RoomError::NotIn)),
        (Row::Join(2, R), Err(RoomError::UnknownSocket)),
        (Row::Enter(1), Err(RoomError::SidTaken)),
        (Row::End(1), YES),
        (Row::MembersOf(R, &[]), YES),
        (Row::End(1), Err(RoomError::UnknownSocket)),
    ];
    play(&rt, &mut Rooms::new(rt.alloc()), ROWS);
}

#[test]
fn broadcasts(rt: HostRuntime) {
    static ROWS: Rows = &[
        (Row::Enter(1), YES),
        (
            Row::Addressees(&[R, At::Own(2), Q, At::Own(1), R], &[], &[1]),
            YES,
        ),
        (Row::End(2), Err(RoomError::UnknownSocket)),
        (Row::EnterAll(2, &[R, At::Own(2), Q, At::Own(1), R]), YES),
        (Row::RoomsOf(2, &[At::Own(1), At::Own(2), Q, R]), YES),
        // Where no room is named everybody is addressed, but for those in excepted rooms.
        (Row::Addressees(&[], &[], &[1, 2]), YES),
        (Row::Addressees(&[], &[Q], &[1]), YES),
        (Row::Addressees(&[R, At::Own(1), Q], &[], &[1, 2]), YES),
        (Row::Addressees(&[R, At::Own(1)], &[Q], &[1]), YES),
        (Row::Leave(2, R), YES),
        (Row::Addressees(&[R], &[], &[]), YES),
    ];
    play(&rt, &mut Rooms::new(rt.alloc()), ROWS);
}

static THREE: Rows = &[
    (Row::Enter(1), YES),
    (Row::Enter(2), YES),
    (Row::Enter(3), YES),
];

#[test]
fn many_sockets(rt: HostRuntime) {
    static JOINED: Rows = &[
        (Row::JoinAll(&[], R, &[]), YES),
        (Row::MembersOf(R, &[]), YES),
        (Row::JoinAll(&[3, 1, 3], R, &[1, 3]), YES),
        (Row::MembersOf(R, &[1, 3]), YES),
        (Row::JoinAll(&[1], R, &[]), YES),
        (Row::MembersOf(R, &[1, 3]), YES),
        (Row::JoinAll(&[3, 2, 1], R, &[2]), YES),
        (Row::JoinAll(&[], R, &[]), YES),
        (Row::MembersOf(R, &[1, 2, 3]), YES),
        (Row::RoomsOf(2, &[At::Own(2), R]), YES),
        (Row::Sizes(3, 4), YES),
        (Row::IsIn(1, R, true), YES),
        (Row::IsIn(2, R, true), YES),
        (Row::IsIn(3, R, true), YES),
        (Row::IsIn(1, Q, false), YES),
    ];
    static LEFT: Rows = &[
        (Row::LeaveAll(&[], R, &[]), YES),
        (Row::MembersOf(R, &[1, 2, 3]), YES),
        (Row::LeaveAll(&[2, 1, 2], R, &[1, 2]), YES),
        (Row::MembersOf(R, &[3]), YES),
        (Row::LeaveAll(&[1, 3], R, &[3]), YES),
        (Row::MembersOf(R, &[]), YES),
        (Row::LeaveAll(&[1, 2, 3], R, &[]), YES),
        (Row::MembersOf(R, &[]), YES),
        (Row::RoomsOf(2, &[At::Own(2)]), YES),
    ];
    // Nobody is in `r` now, and there is no socket 9.
    static REFUSED: Rows = &[
        (Row::JoinAll(&[1, 9], R, &[]), Err(RoomError::UnknownSocket)),
        (
            Row::LeaveAll(&[9, 1], R, &[]),
            Err(RoomError::UnknownSocket),
        ),
        (
            Row::LeaveAll(&[2, 1], At::Own(1), &[]),
            Err(RoomError::OwnRoom),
        ),
        (
            Row::LeaveAll(&[1, 9], At::Own(1), &[]),
            Err(RoomError::UnknownSocket),
        ),
        (Row::MembersOf(R, &[]), YES),
    ];
    // Socket 1's own room is one that others join and leave.
    static GUESTS: Rows = &[
        (Row::MembersOf(At::Own(1), &[1]), YES),
        (Row::JoinAll(&[2, 1], At::Own(1), &[2]), YES),
        (Row::MembersOf(At::Own(1), &[1, 2]), YES),
        (Row::LeaveAll(&[2], At::Own(1), &[2]), YES),
        (Row::MembersOf(At::Own(1), &[1]), YES),
    ];
    let mut maps = Rooms::new(rt.alloc());
    for rows in [THREE, JOINED, LEFT, REFUSED, GUESTS] {
        play(&rt, &mut maps, rows);
    }
}

// Its name puts it behind the other tests, since it allocates some hundred times.
#[test]
fn too_many_rooms(rt: HostRuntime) {
    // Socket 1 is full, and in the own room of 1000; socket 2 isn't, and there is no socket 9.
    static FULL: Rows = &[
        (Row::Join(1, R), Err(RoomError::TooManyRooms)),
        (Row::JoinAll(&[2, 1], R, &[]), Err(RoomError::TooManyRooms)),
        (Row::JoinAll(&[1, 9], R, &[]), Err(RoomError::UnknownSocket)),
        (Row::MembersOf(R, &[]), YES),
    ];
    // It leaves this room, which then has socket 2 alone, and has space for another.
    static PLACE_MADE: Rows = &[
        (Row::MembersOf(At::Own(1000), &[1]), YES),
        (Row::JoinAll(&[1, 2], At::Own(1000), &[2]), YES),
        (Row::Leave(1, At::Own(1000)), YES),
        (Row::IsIn(1, At::Own(1000), false), YES),
        (Row::MembersOf(At::Own(1000), &[2]), YES),
        (Row::MembersOf(R, &[]), YES),
        (Row::JoinAll(&[2, 1], R, &[1, 2]), YES),
    ];
    let mut maps = Rooms::new(rt.alloc());
    play(&rt, &mut maps, THREE);
    for number in 1000u64..1255 {
        let own = At::Own(u128::from(number));
        play(&rt, &mut maps, &[(Row::Join(1, own), YES)]);
    }
    play(&rt, &mut maps, FULL);
    play(&rt, &mut maps, PLACE_MADE);
}
