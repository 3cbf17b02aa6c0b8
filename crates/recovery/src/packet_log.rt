//! The latest broadcasts (Socket.IO server documentation, "Connection state recovery"). That the
//! log has an end is this server's own.

ghost use Rattle.std.specs.Prelude.{◌≡◌, ℕ, ◌+◌, ◌^◌, ◌<◌, ◌≤◌, ◌==◌, max, length, List, [], ◌∷◌, ◌++◌, filter, map, IfOk, IfErr, IfSome, OnErr, IfNone, Some, None, option_copied, is_some, ◌⊎◌, true, false, drop};
ghost use Rattle.std.specs.List.{find, list_any, take_while};
ghost use Rattle.std.specs.Arc.{arc_value};
ghost use Rattle.recovery.specs.Expiry as expiry;
ghost use Rattle.recovery.specs.PacketLog.{LogCall, LogContents, PlainLogged, Pushed, Swept, IsLog, IsLogOf, IsRun, IsIndex, HasNone, contents, offset_or_spent, pushed, stands, later_than, number_of, with_entry, swept, logged_as, logged_size, fits, newest, logged_bytes};
ghost use Rattle.recovery.specs.Missed.{missed, missed_refusal, is_for, is_one_of};
ghost use Rattle.recovery.specs.Latest.{Shelf, shelf};

use crate::error::{RecoveryError, Result};
use crate::saved_table::is_outdated;
use circular_buffer::HeapCircularBuffer;
use std::alloc::{AllocError, Global};
use std::marker::Model;
use std::sync::Arc;
use terms::{Entry, Room};

/// How many bytes the name of a room takes, however long it is.
const ROOM: usize = 65;

/// A broadcast that was given an offset, in a contract plain data.
#[derive(Drop)]
pub struct Logged {
    /// Its number: one more than that of the broadcast before it.
    pub offset: u64,
    /// When it was logged, in milliseconds.
    pub at: u64,
    /// The place of its namespace in the server's list.
    pub space: u16,
    /// The rooms that it goes to. None means everybody in the namespace.
    pub rooms: Vec<Room>,
    /// The rooms whose sockets don't get it.
    pub excepted: Vec<Room>,
    /// What is sent, shared with the clients' queues.
    pub entry: Arc<Entry>,
}

impl Model for Logged {
    ghost Value = { PlainLogged };

    ghost view = { λ l. record {
      offset = l.offset;
      at = l.at;
      space = l.space;
      rooms = l.rooms.items;
      excepted = l.excepted.items;
      entry = arc_value l.entry;
    } };
}

impl Logged {
    /// Whether a socket of this namespace, in these rooms, gets it.
    pub fn is_for(&self, space: u16, rooms: &[Room]) -> bool
        ensures { result ≡ is_for space rooms.now self.now }
    {
        self.space == space
            && (self.rooms.is_empty() || meets(&self.rooms, rooms))
            && !meets(&self.excepted, rooms)
    }

    /// How many bytes it holds: those of what is sent, and of the rooms that it names. `None` past
    /// the greatest usize.
    fn size(&self) -> Option<usize>
        ensures some { IfSome result (λ size. size ≡ logged_size self.now) }
        ensures none { IfNone result (usize.MAX < logged_size self.now) }
    {
        let rooms = ROOM.checked_mul(self.rooms.len())?;
        let excepted = ROOM.checked_mul(self.excepted.len())?;
        self.entry.size()?.checked_add(rooms)?.checked_add(excepted)
    }

    /// A copy, which shares what is sent.
    fn copy(&self, alloc: Global) -> Result<Logged, AllocError>
        ensures { IfOk result (λ copy. copy ≡ self.now) }
    {
        Ok(Logged {
            offset: self.offset,
            at: self.at,
            space: self.space,
            rooms: Vec::from_slice(alloc, &self.rooms)?,
            excepted: Vec::from_slice(alloc, &self.excepted)?,
            entry: Arc::try_clone(&self.entry)?,
        })
    }
}

/// Whether some room stands in both lists.
fn meets(some: &[Room], rooms: &[Room]) -> bool
    ensures { result ≡ list_any (is_one_of rooms.now) some.now }
{
    some.iter().any(|room| rooms.contains(room))
}

/// The latest broadcasts, each with its offset: at most so many, which have at most so many bytes
/// together. Their places are taken once, when it is made. A moment before the last that it saw
/// counts as that one.
#[derive(Drop)]
pub struct PacketLog {
    /// The next offset, or none where the greatest has been used.
    next: Option<u64>,
    /// The last moment that it saw, in milliseconds.
    last: u64,
    /// The entries, the oldest first. Their offsets rise by one.
    latest: Latest,
}

impl Model for PacketLog {
    ghost Value = { LogContents };

    ghost view = { λ l.
        contents l.latest.limit l.latest.bytes l.next l.last l.latest.entries };

    ghost invariant = { λ l.
        IsLog (contents l.latest.limit l.latest.bytes l.next l.last l.latest.entries) };
}

impl PacketLog {
    /// A log of at most `limit` broadcasts, which have at most `bytes` bytes together. It numbers
    /// them from `first` on.
    pub fn new(alloc: Global, limit: usize, bytes: usize, first: u64) -> Result<PacketLog>
        requires limit { 1 ≤ limit }
        requires first { 1 ≤ first }
        ensures empty { IfOk result (λ log. log ≡ contents limit bytes (Some first) 0 []) }
        ensures leads { IfOk result (λ log. IsLogOf first [] log) }
        ensures memory { IfErr result (λ error. error ≡ RecoveryError.Memory) }
    {
        let latest = Latest::new(alloc, limit, bytes)?;
        Ok(PacketLog {
            next: Some(first),
            last: 0,
            latest,
        })
    }

    /// The offset that the next broadcast gets, or `None` where the greatest has been used.
    pub fn next(&self) -> Option<u64>
        ensures { result ≡ self.now.next }
    {
        self.next
    }

    /// How many broadcasts stand in the log.
    pub fn len(&self) -> usize
        ensures len { result ≡ length self.now.entries }
        ensures within { result ≤ self.now.limit }
    {
        self.latest.ring().len()
    }

    /// Gives a broadcast the next offset and logs it. The oldest that have no space beside it go;
    /// one that has more bytes than the log may have leaves the log empty. Refused where the
    /// greatest offset has been used.
    pub fn push(
        &mut self,
        at: u64,
        space: u16,
        rooms: Vec<Room>,
        excepted: Vec<Room>,
        entry: Arc<Entry>,
    ) -> Result<u64>
        ensures offset { result ≡ offset_or_spent self.old.next }
        ensures entry { IfOk result (λ offset. self.new ≡ with_entry self.old
            (logged_as self.old offset at space rooms.items excepted.items (arc_value entry))) }
        ensures unchanged { OnErr result (self.new ≡ self.old) }

        // The history with this call leads to the new contents.
        ensures leads { IfOk result (λ offset. (first : ℕ) (history : List LogCall)
            → IsLogOf first history self.old → IsLogOf first (Pushed
            (logged_as self.old offset at space rooms.items excepted.items (arc_value entry))
            ∷ history) self.new) }
    {
        let offset = self.next.ok_or(RecoveryError::Spent)?;
        let at = self.last.max(at);
        self.next = offset.checked_add(1);
        self.last = at;
        self.latest.add(Logged {
            offset,
            at,
            space,
            rooms,
            excepted,
            entry,
        });
        Ok(offset)
    }

    /// Drops the entries logged more than `keep` milliseconds before `now`, and counts them.
    pub fn sweep(&mut self, now: u64, keep: u64) -> usize
        ensures count { length self.new.entries + result ≡ length self.old.entries }
        ensures swept { self.new ≡ swept self.old keep (max self.old.last now) }

        // The history with this call leads to the new contents.
        ensures leads { (first : ℕ) (history : List LogCall) → IsLogOf first history self.old
            → IsLogOf first (Swept keep (max self.old.last now) ∷ history) self.new }
    {
        let now = self.last.max(now);
        let outdated = count_outdated(self.latest.ring(), keep, now);
        self.latest.forget(outdated);
        self.last = now;
        outdated
    }

    /// The index of the entry with this offset, counted from the oldest: as many after the first
    /// as it is greater than the first one's.
    fn index_of(&self, offset: u64) -> Option<usize>
        ensures index { IfSome result (IsIndex offset self.now.entries) }
        ensures small { IfSome result (λ index. index + 1 < 2 ^ 64) }
        ensures none { IfNone result (HasNone offset self.now.entries) }
    {
        let Some(first) = self.latest.ring().front() else {
            return None;
        };
        if offset < first.offset {
            return None;
        }
        let index = (offset - first.offset) as usize;
        if index < self.latest.ring().len() {
            Some(index)
        } else {
            None
        }
    }

    /// The entry with this offset.
    pub fn find(&self, offset: u64) -> Option<&Logged>
        ensures { option_copied result ≡ find (λ entry. entry.offset == offset) self.now.entries }
    {
        self.latest.ring().get(self.index_of(offset)?)
    }

    /// The entries past this offset, in their order and in two pieces, or `None` where the log has
    /// no such offset. It looks at no entry but the first.
    pub fn later(&self, offset: u64) -> Option<(&[Logged], &[Logged])>
        ensures stands { is_some result ≡ stands offset self.now.entries }
        ensures later { IfSome result
            (λ pieces. pieces.0.now ++ pieces.1.now ≡ later_than offset self.now.entries) }
    {
        let past = self.index_of(offset)? + 1;
        let (front, back) = self.latest.ring().as_slices();
        let split = past.min(front.len());
        Some((&front[split..], &back[past - split..]))
    }

    /// The offsets of the broadcasts past this one that a socket of the namespace, in these
    /// rooms, should have got, in their order. Refused where the log has no such offset.
    pub fn missed(&self, alloc: Global, offset: u64, space: u16, rooms: &[Room]) -> Result<Vec<u64>>
        ensures refused { IfSome (missed_refusal self.now offset) (λ error. result ≡ Err error) }
        ensures memory { IfNone (missed_refusal self.now offset)
            (IfErr result (λ error. error ≡ RecoveryError.Memory)) }
        ensures missed { IfOk result
            (λ offsets. offsets.items ≡ missed offset space rooms.now self.now.entries) }

        // Nothing is left out: they are those of all broadcasts that were ever pushed.
        ensures whole { IfOk result (λ offsets. (first : ℕ) (history : List LogCall)
            → IsLogOf first history self.now
            → offsets.items ≡ missed offset space rooms.now (pushed history)) }
    {
        let (front, back) = self.later(offset).ok_or(RecoveryError::OffsetGone)?;
        Ok(offsets_for(alloc, front, back, space, rooms)?)
    }

    /// Copies of all entries, their offsets rising. The sent data is shared, not copied.
    pub fn list(&self, alloc: Global) -> Result<Vec<Logged>>
        ensures entries { IfOk result (λ list. list.items ≡ self.now.entries) }
        ensures rises { IsRun (number_of self.now.next) self.now.entries }
        ensures memory { IfErr result (λ error. error ≡ RecoveryError.Memory) }
    {
        let mut list = Vec::with_capacity(alloc, self.latest.ring().len())?;
        for entry in self.latest.ring().iter() {
            list.push(entry.copy(alloc)?)?;
        }
        Ok(list)
    }
}

/// How many entries from the oldest on are outdated.
fn count_outdated(ring: &HeapCircularBuffer<Logged>, keep: u64, now: u64) -> usize
    ensures { result ≡ length (take_while (λ e. expiry.is_outdated keep now e.at) ring.now.items) }
{
    ring.iter()
        .take_while(|entry| is_outdated(entry.at, keep, now))
        .count()
}

/// The offsets of the entries of both pieces that a socket gets.
fn offsets_for(
    alloc: Global,
    front: &[Logged],
    back: &[Logged],
    space: u16,
    rooms: &[Room],
) -> Result<Vec<u64>, AllocError>
    ensures { IfOk result (λ offsets. offsets.items ≡ map (λ entry. entry.offset)
        (filter (is_for space rooms.now) (front.now ++ back.now))) }
{
    front
        .iter()
        .chain(back.iter())
        .filter(|entry| entry.is_for(space, rooms))
        .map(|entry| entry.offset)
        .collect(alloc)
}

/// The newest broadcasts, the oldest first. It takes its memory once, when it is made.
#[derive(Drop)]
struct Latest {
    ring: HeapCircularBuffer<Logged>,
    /// How many bytes they may have together.
    bytes: usize,
    /// How many bytes more they may have.
    free: usize,
}

impl Model for Latest {
    ghost Value = { Shelf };

    ghost view = { λ l. shelf l.ring.capacity l.bytes l.ring.items };

    ghost invariant = { λ l. l.free + logged_bytes l.ring.items ≡ l.bytes };
}

impl Latest {
    /// None yet.
    #[tactic(auto, unfolding(crate::specs::PacketLog::logged_bytes))]
    fn new(alloc: Global, limit: usize, bytes: usize) -> Result<Latest, AllocError>
        ensures { IfOk result (λ latest. latest ≡ shelf limit bytes []) }
    {
        let ring = HeapCircularBuffer::with_capacity(alloc, limit)?;
        Ok(Latest {
            ring,
            bytes,
            free: bytes,
        })
    }

    /// The broadcasts themselves.
    fn ring(&self) -> &HeapCircularBuffer<Logged>
        ensures items { result.now.items ≡ self.now.entries }
        ensures capacity { result.now.capacity ≡ self.now.limit }
    {
        &self.ring
    }

    /// How many bytes are free beside one more, or `None` where it has no space.
    fn free_after(&self, logged: &Logged) -> Option<usize>
        ensures some { let all = self.now.entries ++ logged.now ∷ []
            in IfSome result (λ left. left + logged_bytes all ≡ self.now.bytes) }
        ensures space { let all = self.now.entries ++ logged.now ∷ []
            in IfSome result (λ _. fits self.now.limit self.now.bytes all ≡ true) }
        ensures none { let all = self.now.entries ++ logged.now ∷ []
            in IfNone result (fits self.now.limit self.now.bytes all ≡ false) }
    {
        let free = self.free;
        let size = logged.size()?;
        if self.ring.len() >= self.ring.capacity() || free < size {
            return None;
        }
        Some(free - size)
    }

    /// Forgets the oldest.
    fn forget_oldest(&mut self)
        ensures { self.new ≡ record self.old { entries = drop 1 self.old.entries } }
    {
        if let Some(logged) = self.ring.pop_front() {
            // All together have no more bytes than they may have.
            self.free += logged.size().unwrap_or(0);
        }
    }

    /// Forgets the oldest, as many as are named.
    fn forget(&mut self, count: usize)
        ensures { self.new ≡ record self.old { entries = drop count self.old.entries } }
    {
        for _entry in 0..count {
            self.forget_oldest();
        }
    }

    /// Forgets the oldest until one more has space, or none is left.
    fn make_space(&mut self, logged: &Logged)
        ensures limits { self.new ≡ record self.old { entries = self.new.entries } }
        ensures newest { newest self.old.limit self.old.bytes (self.old.entries ++ logged.now ∷ [])
            ≡ newest self.old.limit self.old.bytes (self.new.entries ++ logged.now ∷ []) }
        ensures enough { let all = self.new.entries ++ logged.now ∷ []
            in (fits self.old.limit self.old.bytes all ≡ true) ⊎ (self.new.entries ≡ []) }
    {
        for _entry in 0..self.ring.len() {
            if self.free_after(logged).is_some() {
                return;
            }
            self.forget_oldest();
        }
    }

    /// Adds one, and forgets the oldest that have no space beside it. One that has more bytes than
    /// all may have leaves none.
    fn add(&mut self, logged: Logged)
        ensures { let all = self.old.entries ++ logged ∷ [] in self.new
            ≡ record self.old { entries = newest self.old.limit self.old.bytes all } }
    {
        self.make_space(&logged);
        if let Some(left) = self.free_after(&logged) {
            self.free = left;
            let Ok(()) = self.ring.try_push_back(logged) else {
                unreachable!()
            };
        }
    }
}
