//! The ids of sockets, and the names of rooms (Socket.IO server documentation, "Rooms").

ghost use Rattle.std.specs.Prelude.{◌≡◌, ℕ, ◌≤◌, ◌↔◌, List, length, take, IfSome, IsSome};
ghost use Rattle.std.specs.Str.{IsUtf8};
ghost use Rattle.std.specs.Ordering.{as_partial_cmp};
ghost use Rattle.std.specs.Cmp.Rules.{comparing};
ghost use Rattle.std.proofs.Common.{rules};
ghost use Rattle.terms.specs.Room.{room_cmp, same_room, padded, own_room, HoldsName};

use crate::hexadecimal::id_text;
use std::cmp::Ordering;
use std::marker::Model;

/// The id of a socket of one namespace, which a contract sees as its number.
#[derive(Clone, Copy, Debug, PartialEq, Eq, PartialOrd, Ord)]
pub struct Sid(u128);

impl Model for Sid {
    ghost Value = { ℕ };

    ghost view = { λ s. s.0 };

    ghost inverse = { λ n. record { 0 = n } };
}

impl Sid {
    /// The id that has this number.
    pub fn new(number: u128) -> Sid
        ensures { result ≡ number }
    {
        Sid(number)
    }

    /// The number of the id.
    pub fn number(self) -> u128
        ensures { result ≡ self }
    {
        self.0
    }
}

const MOST_BYTES: usize = 64;

/// The name of a room: a text of at most 64 bytes, which may be empty. Rooms are ordered by their
/// bytes, and a contract sees a room as the list of them.
#[derive(Clone, Copy, Debug)]
pub struct Room {
    bytes: [u8; 64],
    len: u8,
}

impl Model for Room {
    ghost Value = { List ℕ };

    ghost view = { λ r. take r.len r.bytes };

    ghost invariant = { λ r. HoldsName r.bytes r.len };

    ghost inverse = { λ xs. record { bytes = padded xs; len = length xs } };

    ghost inverse_ok = { λ a h i. record { bytes = h.zeros i; len = h.whole i } };
}

/// The bytes, followed by zeros.
fn fill(source: &[u8]) -> [u8; 64]
    requires { length source.now ≤ 64 }
    ensures { result ≡ padded source.now }
{
    let mut bytes = [0u8; MOST_BYTES];
    bytes[..source.len()].copy_from_slice(source);
    bytes
}

impl Room {
    /// The room that has this name, or `None` where the name is longer than 64 bytes.
    pub fn read(name: &str) -> Option<Room>
        ensures short { IsSome result ↔ (length name.now ≤ 64) }
        ensures name { IfSome result (λ room. room ≡ name.now) }
    {
        let source = name.as_bytes();
        if source.len() > MOST_BYTES {
            return None;
        }
        let (bytes, len) = (fill(source), source.len() as u8);
        Some(Room { bytes, len })
    }

    /// The room that a socket is in by itself: its id as 32 lower-case hexadecimal digits.
    pub fn own(sid: Sid) -> Room
        ensures { result ≡ own_room sid }
    {
        let bytes = fill(&id_text(sid.number()));
        Room { bytes, len: 32 }
    }

    /// The bytes of the name, a text in UTF-8.
    pub fn bytes(&self) -> &[u8]
        ensures value { result.now ≡ self.now }
        ensures short { length self.now ≤ 64 }
        ensures text { IsUtf8 self.now }
    {
        &self.bytes[..self.len as usize]
    }
}

impl PartialEq for Room {
    ghost eq = { same_room };

    ghost laws = { Prim.search (comparing, rules) };

    fn eq(&self, other: &Room) -> bool {
        self.bytes() == other.bytes()
    }
}

impl Eq for Room {
    ghost laws = { Prim.search (comparing, rules) };
}

impl PartialOrd for Room {
    ghost partial_cmp = { as_partial_cmp room_cmp };

    ghost laws = { Prim.search (comparing, rules) };

    fn partial_cmp(&self, other: &Room) -> Option<Ordering> {
        Some(self.cmp(other))
    }
}

impl Ord for Room {
    ghost cmp = { room_cmp };

    ghost total = { Prim.search (comparing, rules) };

    ghost matches_partial_cmp = { Prim.search (comparing, rules) };

    ghost matches_eq = { Prim.search (comparing, rules) };

    fn cmp(&self, other: &Room) -> Ordering {
        self.bytes().cmp(other.bytes())
    }
}
