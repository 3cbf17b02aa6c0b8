//! The addressees that were found for rooms are remembered while no pair comes or goes.

ghost use Rattle.std.specs.Prelude.{◌≡◌, IfOk, IfSome, IsTrue};
ghost use Rattle.std.specs.Arc.{arc_value};
ghost use Rattle.room_maps.specs.Asked.{AreRight, Finds};
ghost use Rattle.room_maps.specs.Membership.{RoomSets};

use crate::remembered::Remembered;
use std::alloc::{AllocError, Global};
use std::sync::Arc;
use terms::{Room, Sid};

/// More sockets aren't remembered, so that all that is remembered has less than 3 MB.
const LONGEST: usize = 1_024;

/// More rooms aren't remembered.
const MOST_ROOMS: usize = 16;

/// Rooms, excepted rooms, and the sockets that a broadcast to them is for.
#[derive(Drop)]
pub struct Asked {
    rooms: Vec<Room>,
    excepted: Vec<Room>,
    sids: Arc<Vec<Sid>>,
}

impl Asked {
    /// Whether these rooms were asked for.
    fn is_for(&self, rooms: &[Room], excepted: &[Room]) -> bool
        ensures rooms { IsTrue result → self.now.rooms.items ≡ rooms.now }
        ensures excepted { IsTrue result → self.now.excepted.items ≡ excepted.now }
    {
        self.rooms.as_slice() == rooms && self.excepted.as_slice() == excepted
    }
}

/// Adds what rooms are to a number, by their last bytes.
fn add_rooms(number: u128, rooms: &[Room]) -> u128 {
    let mut number = number.wrapping_mul(31).wrapping_add(rooms.len() as u128);
    for room in rooms {
        number = add_name(number, room.bytes());
    }
    number
}

/// Adds the last bytes of a name to a number.
fn add_name(number: u128, name: &[u8]) -> u128 {
    let mut number = number;
    for byte in &name[name.len().saturating_sub(8)..] {
        number = number.wrapping_mul(256).wrapping_add(u128::from(*byte));
    }
    number
}

/// The number by which the addressees of these rooms are remembered.
pub(crate) fn number_of(rooms: &[Room], excepted: &[Room]) -> u128 {
    add_rooms(add_rooms(0, rooms), excepted)
}

/// What is remembered for these rooms, which have this number.
pub(crate) fn recall<'a>(
    asked: &'a Remembered<Asked>,
    number: u128,
    rooms: &[Room],
    excepted: &[Room],
) -> Option<&'a Arc<Vec<Sid>>>
    ensures { (sets : RoomSets) → AreRight sets asked.now → IfSome result (λ sids.
        Finds sets rooms.now excepted.now (arc_value sids.now).items) }
{
    let known = asked.get(number)?;
    known.is_for(rooms, excepted).then_some(&known.sids)
}

/// Remembers these addressees, if they were missed not long ago. Many, or where memory is refused,
/// it doesn't.
pub(crate) fn remember(
    alloc: Global,
    asked: &mut Remembered<Asked>,
    number: u128,
    rooms: &[Room],
    excepted: &[Room],
    sids: &Arc<Vec<Sid>>,
)
    ensures { (sets : RoomSets) → AreRight sets asked.old
        → Finds sets rooms.now excepted.now (arc_value sids.now).items
        → AreRight sets asked.new }
{
    let is_small = sids.len() <= LONGEST && rooms.len() + excepted.len() <= MOST_ROOMS;
    if !asked.miss(number) || !is_small {
        return;
    }
    if let Ok(known) = copy(alloc, rooms, excepted, sids) {
        asked.put(number, known);
    }
}

/// They as they are remembered.
fn copy(
    alloc: Global,
    rooms: &[Room],
    excepted: &[Room],
    sids: &Arc<Vec<Sid>>,
) -> Result<Asked, AllocError>
    ensures rooms { IfOk result (λ asked. asked.rooms.items ≡ rooms.now) }
    ensures excepted { IfOk result (λ asked. asked.excepted.items ≡ excepted.now) }
    ensures sids { IfOk result (λ asked. arc_value asked.sids ≡ arc_value sids.now) }
{
    Ok(Asked {
        rooms: Vec::from_slice(alloc, rooms)?,
        excepted: Vec::from_slice(alloc, excepted)?,
        sids: Arc::try_clone(sids)?,
    })
}
