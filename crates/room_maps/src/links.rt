//! Maps from keys to sets that are not empty, read as the set of their links, and rising lists of
//! what they hold (Socket.IO server documentation, "Adapter").

ghost use Rattle.std.specs.Prelude.{◌≡◌, ◌&&◌, ℕ, not, OnOk, OnErr, IfOk, map, filter};
ghost use Rattle.std.specs.Ordering.{eq_by_cmp, nat_cmp};
ghost use Rattle.std.specs.BTreeSet as sorted;
ghost use Rattle.std.specs.List.Sorted.{IsStrictlySortedBy};
ghost use Rattle.room_maps.specs.Links.{is_linked, HasNoEmptySet, IsUnchanged, AddsLink};
ghost use Rattle.std.specs.List.{list_any, flat_map, AllByRecursion};
ghost use Rattle.std.specs.BTreeMap as tree;
ghost use Rattle.room_maps.specs.Mirror.{entry_pairs, HasRisingRooms, is_member_of_one};
ghost use Rattle.terms.specs.Room.{room_cmp};
ghost use Rattle.terms.specs.Listing.{ListsRising};

use crate::rooms::{RoomMap, SocketMap};
use std::alloc::{AllocError, Global};
use std::collections::{BTreeMap, BTreeSet};
use terms::{Room, Sid};

/// Adds a link. A new set gets its value before the map gets the set, so that a refused growth
/// leaves no empty set.
pub(crate) fn link<K: Ord + Drop, V: Ord + Drop>(
    alloc: Global,
    map: &mut BTreeMap<K, BTreeSet<V>>,
    key: K,
    value: V,
) -> Result<(), AllocError>
    ensures ok { OnOk result (AddsLink K.cmp V.cmp map.old map.new key value) }
    ensures filled { HasNoEmptySet K.cmp map.old → HasNoEmptySet K.cmp map.new }
    ensures err { OnErr result (IsUnchanged K.cmp V.cmp map.old map.new) }
{
    match map.get_mut(&key) {
        Some(values) => {
            values.insert(value)?;
        }
        None => {
            let mut values = BTreeSet::new(alloc);
            values.insert(value)?;
            map.insert(key, values)?;
        }
    }
    Ok(())
}

/// Takes a link away, and with the last value of a key the key too.
pub(crate) fn unlink<K: Ord + Drop, V: Ord + Drop>(
    map: &mut BTreeMap<K, BTreeSet<V>>,
    key: &K,
    value: &V,
)
    ensures links { (k : K) (v : V) → is_linked K.cmp V.cmp map.new k v
        ≡ (not (eq_by_cmp K.cmp key.now k && eq_by_cmp V.cmp value.now v)
        && is_linked K.cmp V.cmp map.old k v) }
    ensures filled { HasNoEmptySet K.cmp map.old → HasNoEmptySet K.cmp map.new }
{
    let emptied = match map.get_mut(key) {
        Some(values) => {
            values.remove(value);
            values.is_empty()
        }
        None => false,
    };
    if emptied {
        map.remove(key);
    }
}

/// Takes the value away from the sets of all these keys.
pub(crate) fn unlink_all<K: Ord + Drop, V: Ord + Drop>(
    map: &mut BTreeMap<K, BTreeSet<V>>,
    keys: BTreeSet<K>,
    value: &V,
)
    ensures links { (k : K) (v : V) → is_linked K.cmp V.cmp map.new k v
        ≡ (not (sorted.contains K.cmp keys k && eq_by_cmp V.cmp value.now v)
        && is_linked K.cmp V.cmp map.old k v) }
    ensures filled { HasNoEmptySet K.cmp map.old → HasNoEmptySet K.cmp map.new }
{
    for key in keys {
        unlink(map, &key, value);
    }
}

/// The values of a set, rising.
pub(crate) fn list<V: Ord + Copy>(alloc: Global, values: &BTreeSet<V>) -> Result<Vec<V>, AllocError>
    ensures items { IfOk result (λ list. list.items ≡ values.now.keys) }
    ensures rises { IsStrictlySortedBy V.cmp values.now.keys }
{
    values.iter().copied().collect(alloc)
}

/// Whether one of the rooms is in the set.
fn meets(inside: &BTreeSet<Room>, rooms: &[Room]) -> bool
    ensures { result ≡ list_any (sorted.contains room_cmp inside.now) rooms.now }
{
    rooms.iter().any(|room| inside.contains(room))
}

/// All sockets but those in an excepted room. It walks the sockets once.
pub(crate) fn sockets_but(
    alloc: Global,
    by_socket: &SocketMap,
    excepted: &[Room],
) -> Result<Vec<Sid>, AllocError>
    ensures ordered { tree.IsOrdered nat_cmp by_socket.now }
    ensures items { IfOk result (λ sids. sids.items ≡ map (λ e. e.0)
        (filter (λ e. not (list_any (sorted.contains room_cmp e.1) excepted.now))
        by_socket.now.entries)) }
{
    by_socket
        .iter()
        .filter(|(_, inside)| !meets(inside, excepted))
        .map(|(sid, _)| *sid)
        .collect(alloc)
}

/// The sockets in one of the rooms but those in an excepted one, rising. It walks the members of
/// the rooms, and looks each excepted room up once.
pub(crate) fn members_but(
    alloc: Global,
    by_room: &RoomMap,
    rooms: &[Room],
    excepted: &[Room],
) -> Result<Vec<Sid>, AllocError>
    ensures { IfOk result (λ r. ListsRising nat_cmp (λ s. is_member_of_one by_room.now rooms.now s
        && not (is_member_of_one by_room.now excepted.now s)) r.items) }
{
    let mut sids = Vec::new(alloc);
    for room in rooms {
        let Some(members) = by_room.get(room) else {
            continue;
        };
        sids.extend(members.iter().copied())?;
    }
    retain_others(&mut sids, by_room, excepted);
    Ok(rising(sids))
}

/// Keeps the sockets that are none of these members.
fn retain_outside(sids: &mut Vec<Sid>, members: &BTreeSet<Sid>)
    ensures { sids.new.items
        ≡ filter (λ s. not (sorted.contains nat_cmp members.now s)) sids.old.items }
{
    sids.retain(|sid| !members.contains(sid));
}

/// Keeps the sockets that are in none of the rooms.
fn retain_others(sids: &mut Vec<Sid>, by_room: &RoomMap, rooms: &[Room])
    ensures { (s : ℕ) → list_any (eq_by_cmp nat_cmp s) sids.new.items
        ≡ (list_any (eq_by_cmp nat_cmp s) sids.old.items
        && not (is_member_of_one by_room.now rooms.now s)) }
{
    for room in rooms {
        let Some(members) = by_room.get(room) else {
            continue;
        };
        retain_outside(sids, members);
    }
}

/// The sockets, rising, each once.
pub(crate) fn rising(mut sids: Vec<Sid>) -> Vec<Sid>
    ensures { ListsRising nat_cmp (λ s. list_any (eq_by_cmp nat_cmp s) sids.items) result.items }
{
    sids.sort_unstable();
    sids.dedup();
    sids
}

/// The pairs of all sockets, which rise, each with its rooms, which rise too. It walks the pairs
/// once.
pub(crate) fn all_pairs(
    alloc: Global,
    by_socket: &SocketMap,
) -> Result<Vec<(Sid, Room)>, AllocError>
    ensures ordered { tree.IsOrdered nat_cmp by_socket.now }
    ensures items { IfOk result (λ p. p.items ≡ flat_map entry_pairs by_socket.now.entries) }
    ensures rises { IfOk result (λ pairs. AllByRecursion HasRisingRooms by_socket.now.entries) }
{
    let mut pairs = Vec::with_capacity(alloc, by_socket.len())?;
    for (sid, rooms) in by_socket {
        for room in rooms.iter() {
            pairs.push((*sid, *room))?;
        }
    }
    Ok(pairs)
}
