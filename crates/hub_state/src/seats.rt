//! The connected sockets by their session ids, and those of each namespace.

ghost use Rattle.std.specs.Prelude.{◌≡◌, [], map, IfOk, IfSome, IsTrue, OnOk, OnErr, None, option_copied};
ghost use Rattle.std.specs.Arc.{arc_value};
ghost use Rattle.std.specs.Ordering.{nat_cmp};
ghost use Rattle.terms.specs.Listing.{ListsRising};
ghost use Rattle.journal.specs.Casting.{is_here};
ghost use Rattle.hub_state.specs.Found.{AreFound};
ghost use Rattle.hub_state.specs.Seats.{IsIndex, SeatMap, SameSeats, WithSeat, WithoutSeat, seat_at, seated_in};

use journal::Socket;
use room_maps::Remembered;
use std::alloc::{AllocError, Global};
use std::collections::{BTreeSet, HashMap};
use std::marker::Model;
use std::sync::Arc;
use terms::Sid;

/// More ids aren't remembered, so that all that is remembered has less than 11 MB.
const LONGEST: usize = 1_024;

/// The sockets in the namespace at a place that were found for these session ids.
#[derive(Drop)]
pub struct Found {
    space: u16,
    sids: Vec<Sid>,
    sockets: Arc<Vec<Socket>>,
}

impl Found {
    /// Whether these were asked for.
    fn is_for(&self, sids: &[Sid], space: u16) -> bool
        ensures space { IsTrue result → self.now.space ≡ space }
        ensures sids { IsTrue result → self.now.sids.items ≡ sids.now }
    {
        self.space == space && self.sids.as_slice() == sids
    }
}

/// The number by which the sockets with these ids are remembered: their sum.
fn number_of(sids: &[Sid]) -> u128 {
    let mut sum: u128 = 0;
    for sid in sids {
        sum = sum.wrapping_add(sid.number());
    }
    sum
}

/// They as they are remembered.
fn copy(
    alloc: Global,
    sids: &[Sid],
    space: u16,
    sockets: &Arc<Vec<Socket>>,
) -> Result<Found, AllocError>
    ensures space { IfOk result (λ found. found.space ≡ space) }
    ensures sids { IfOk result (λ found. found.sids.items ≡ sids.now) }
    ensures sockets { IfOk result (λ found. arc_value found.sockets ≡ arc_value sockets.now) }
{
    Ok(Found {
        space,
        sids: Vec::from_slice(alloc, sids)?,
        sockets: Arc::try_clone(sockets)?,
    })
}

/// The connected sockets. In a contract they are the sockets by their session ids, which are looked
/// up by hash. In the costs below, "the logarithm" is that of the number of sockets of all namespaces.
#[derive(Drop)]
pub struct Seats {
    by_sid: HashMap<u128, Socket>,
    /// The place of each socket's namespace, and its session id. A place is a `u32` here, so that
    /// there is one after the greatest.
    by_space: BTreeSet<(u32, Sid)>,
    /// What was found since a socket last came or went.
    found: Remembered<Found>,
}

impl Model for Seats {
    ghost Value = { SeatMap };

    ghost view = { λ a. a.by_sid.entries };

    ghost invariant = { λ a. IsIndex a.by_sid.entries a.by_space
        × AreFound a.by_sid.entries a.found };
}

impl Seats {
    /// No sockets.
    pub fn new(alloc: Global) -> Seats
        ensures { result ≡ [] }
    {
        Seats {
            by_sid: HashMap::new(alloc),
            by_space: BTreeSet::new(alloc),
            found: Remembered::new(alloc),
        }
    }

    /// The socket with a session id. It takes one look-up.
    pub fn get(&self, sid: Sid) -> Option<&Socket>
        ensures { option_copied result ≡ seat_at self.now sid }
    {
        self.by_sid.get(&sid.number())
    }

    /// Adds a socket whose session id is free. It takes the logarithm.
    pub fn insert(&mut self, socket: Socket) -> Result<(), AllocError>
        requires free { seat_at self.old socket.sid ≡ None }
        ensures ok { OnOk result (WithSeat socket self.old self.new) }
        ensures err { OnErr result (SameSeats self.old self.new) }
    {
        self.found.forget();
        let (sid, key) = (socket.sid, socket.sid.number());
        let space = u32::from(socket.space);
        self.by_sid.insert(key, socket)?;
        let Ok(_) = self.by_space.insert((space, sid)) else {
            self.by_sid.remove(&key);
            return Err(AllocError);
        };
        Ok(())
    }

    /// Takes the socket with a session id out, if there is one. It takes the logarithm and no
    /// memory.
    pub fn remove(&mut self, sid: Sid)
        ensures { WithoutSeat sid self.old self.new }
    {
        self.found.forget();
        if let Some(socket) = self.by_sid.remove(&sid.number()) {
            self.by_space.remove(&(u32::from(socket.space), sid));
        }
    }

    /// The session ids of the sockets in the namespace at a place, rising. It takes the logarithm,
    /// and walks these sockets alone.
    pub fn sids_in(&self, alloc: Global, space: u16) -> Result<Vec<Sid>, AllocError>
        ensures { IfOk result (λ sids.
            ListsRising nat_cmp (λ s. is_here space (seat_at self.now s)) sids.items) }
    {
        let place = u32::from(space);
        let least = Sid::new(0);
        let here = self.by_space.range((place, least)..(place + 1, least));
        here.map(|(_, sid)| *sid).collect(alloc)
    }

    /// The sockets in the namespace at a place that have these session ids, in the same order, where
    /// that is remembered: it compares the ids.
    pub fn recall(&self, sids: &[Sid], space: u16) -> Option<&Arc<Vec<Socket>>>
        ensures { IfSome result (λ sockets. (arc_value sockets.now).items
            ≡ seated_in space self.now sids.now) }
    {
        let known = self.found.get(number_of(sids))?;
        known.is_for(sids, space).then_some(&known.sockets)
    }

    /// Remembers these sockets until one comes or goes, if they were missed not long ago. Many, or
    /// where memory is refused, it doesn't.
    pub fn remember(&mut self, alloc: Global, sids: &[Sid], space: u16, sockets: &Arc<Vec<Socket>>)
        requires { (arc_value sockets.now).items ≡ seated_in space self.old sids.now }
        ensures { self.new ≡ self.old }
    {
        let number = number_of(sids);
        if !self.found.miss(number) || sids.len() > LONGEST {
            return;
        }
        if let Ok(known) = copy(alloc, sids, space, sockets) {
            self.found.put(number, known);
        }
    }
}
