//! What a hub holds of a client: its sockets, and what waits for it, which is bounded by the number
//! of the entries and by their bytes.

ghost use Rattle.std.specs.Prelude.{◌≡◌, ◌≢◌, true, Ok, ◌-◌, ◌<◌, ◌==◌, not, List, [], ◌∷◌, ◌++◌, length, take, filter, OnOk, OnErr, IfSome, ◌+◌, ◌≤◌, drop, map, false, ◌||◌, nat_le, nat_lt, IfOk, IfNone, option_copied, slice_get, Some, vec_capacity, vec_len};
ghost use Rattle.std.specs.List.{find};
ghost use Rattle.std.specs.Option.{option_map};
ghost use Rattle.journal.specs.Plain.{PlainClient, PlainOutbox};
ghost use Rattle.journal.specs.declared.socket.Socket.{Socket};
ghost use Rattle.std.specs.Arc.{arc_value};
ghost use Rattle.terms.specs.Entry.{entry_size};
ghost use Rattle.journal.specs.Outboxes.{total_size, has_no_space};

use circular_buffer::HeapCircularBuffer;
use journal::Socket;
use std::alloc::{AllocError, Global};
use std::collections::HashMap;
use std::marker::Model;
use std::sync::Arc;
use terms::Entry;

/// A client: its sockets, in the order in which they were connected, at most one in each namespace,
/// and what waits for it.
#[derive(Drop)]
pub struct Client {
    pub sockets: Vec<Socket>,
    pub outbox: Outbox,
}

/// The open clients by their ids. A broadcast looks each of its receivers up, which by hash takes the
/// same however many there are.
pub type Clients = HashMap<u128, Client>;

impl Model for Client {
    ghost Value = { PlainClient };

    ghost view = { λ c. record { sockets = c.sockets.items; outbox = c.outbox } };
}

/// The socket at a place.
pub(crate) fn find_at(sockets: &[Socket], place: usize) -> Option<&Socket>
    ensures { option_copied result ≡ find (λ (k : Socket). k.space == place) sockets.now }
{
    sockets
        .iter()
        .find(|socket| usize::from(socket.space) == place)
}

/// Takes the socket at a place away.
pub(crate) fn remove_at(sockets: &mut Vec<Socket>, place: usize)
    ensures { sockets.new.items
        ≡ filter (λ (k : Socket). not (k.space == place)) sockets.old.items }
{
    sockets.retain(|socket| usize::from(socket.space) != place);
}

/// How many places a ring has at least, once it has any, where its outbox may have so many.
const FEWEST_PLACES: usize = 8;

/// How many places the ring of an outbox may keep that has emptied.
const KEPT_PLACES: usize = 64;

/// What waits for a client, the oldest first. Its ring takes memory as entries come, and gives it
/// back when none waits.
#[derive(Drop)]
pub struct Outbox {
    ring: HeapCircularBuffer<Arc<Entry>>,
    /// How many entries may wait. The ring has no more places.
    capacity: usize,
    /// How many bytes may wait.
    bytes: usize,
    /// How many more bytes it takes.
    free: usize,
}

impl Model for Outbox {
    ghost Value = { PlainOutbox };

    ghost view = { λ o. record {
      waiting = map arc_value o.ring.items;
      capacity = o.capacity;
      bytes = o.bytes;
    } };

    ghost invariant = { λ o. (o.free + total_size (map arc_value o.ring.items) ≡ o.bytes)
        × (o.ring.capacity ≤ o.capacity) };
}

/// How many bytes are free after an entry, or `None` where it has more than these.
pub fn free_after(free: usize, entry: &Entry) -> Option<usize>
    ensures some { IfSome result (λ left. left + entry_size entry.now ≡ free) }
    ensures none { IfNone result (free < entry_size entry.now) }
{
    free.checked_sub(entry.size()?)
}

/// Makes a place for one more entry in a ring, which may have this many.
fn make_place(ring: &mut HeapCircularBuffer<Arc<Entry>>, capacity: usize) -> Result<(), AllocError>
    requires few { length ring.old.items < capacity }
    requires within { ring.old.capacity ≤ capacity }
    ensures same { ring.new.items ≡ ring.old.items }
    ensures within { ring.new.capacity ≤ capacity }
    ensures place { OnOk result (length ring.new.items < ring.new.capacity) }
{
    let waits = ring.len();
    if waits < ring.capacity() {
        return Ok(());
    }
    ring.resize((2 * waits).max(FEWEST_PLACES).min(capacity))
}

/// Moves all entries of a ring to the end of a list that has room for them.
fn move_all(ring: &mut HeapCircularBuffer<Arc<Entry>>, taken: &mut Vec<Arc<Entry>>)
    requires { vec_len taken.old + length ring.old.items ≤ vec_capacity taken.old }
    ensures left { ring.new.items ≡ [] }
    ensures same { ring.new.capacity ≡ ring.old.capacity }
    ensures taken { taken.new.items ≡ taken.old.items ++ ring.old.items }
{
    while let Some(oldest) = ring.pop_front() {
        taken.push_reserved(oldest);
    }
}

impl Outbox {
    /// An empty outbox, which takes no memory yet.
    #[tactic(auto, unfolding(journal::specs::Outboxes::total_size))]
    pub fn new(alloc: Global, capacity: usize, bytes: usize) -> Result<Outbox, AllocError>
        ensures { IfOk result (λ outbox.
            outbox ≡ record { waiting = []; capacity = capacity; bytes = bytes }) }
    {
        let ring = HeapCircularBuffer::with_capacity(alloc, 0)?;
        Ok(Outbox {
            ring,
            capacity,
            bytes,
            free: bytes,
        })
    }

    /// How many entries wait.
    pub fn len(&self) -> usize
        ensures { result ≡ length self.now.waiting }
    {
        self.ring.len()
    }

    /// How many bytes the entries that wait have together.
    pub fn used(&self) -> usize
        ensures { result ≡ total_size self.now.waiting }
    {
        self.bytes - self.free
    }

    /// An entry that waits, counted from the oldest.
    pub fn get(&self, index: usize) -> Option<&Entry>
        ensures { option_copied result ≡ slice_get self.now.waiting index }
    {
        Some(&**self.ring.get(index)?)
    }

    /// Whether there is no space for an entry.
    pub fn has_no_space(&self, entry: &Entry) -> bool
        ensures { result
            ≡ has_no_space self.now.capacity self.now.bytes self.now.waiting entry.now }
    {
        self.ring.len() >= self.capacity || free_after(self.free, entry).is_none()
    }

    /// Whether there is no space for an entry of this many bytes.
    pub fn lacks(&self, size: usize) -> bool
        ensures { result ≡ (nat_le self.now.capacity (length self.now.waiting)
            || nat_lt self.now.bytes (total_size self.now.waiting + size)) }
    {
        self.ring.len() >= self.capacity || self.free < size
    }

    /// Puts an entry at the end, where there is space for it. A full ring takes memory for twice as
    /// many entries as wait.
    pub fn push(&mut self, entry: Arc<Entry>) -> Result<(), AllocError>
        requires { let o = self.old
            in has_no_space o.capacity o.bytes o.waiting (arc_value entry) ≡ false }
        ensures ok { OnOk result (self.new
            ≡ record self.old { waiting = self.old.waiting ++ arc_value entry ∷ [] }) }
        ensures err { OnErr result (self.new ≡ self.old) }
    {
        let Some(left) = free_after(self.free, &entry) else {
            unreachable!()
        };
        make_place(&mut self.ring, self.capacity)?;
        self.free = left;
        let Ok(()) = self.ring.try_push_back(entry) else {
            unreachable!()
        };
        Ok(())
    }

    /// Puts an entry at the end, if there is space for it, and tells whether there was. Its size is
    /// named, so that one who offers it to many outboxes adds it up once.
    pub(crate) fn offer(
        &mut self,
        entry: &Arc<Entry>,
        size: Option<usize>,
    ) -> Result<bool, AllocError>
        requires some { IfSome size (λ s. s ≡ entry_size (arc_value entry.now)) }
        requires none { IfNone size (usize.MAX < entry_size (arc_value entry.now)) }
        ensures space { let o = self.old in IfOk result (λ put. put
            ≡ not (has_no_space o.capacity o.bytes o.waiting (arc_value entry.now))) }
        ensures put { result ≡ Ok true → self.new
            ≡ record self.old { waiting = self.old.waiting ++ arc_value entry.now ∷ [] } }
        ensures same { result ≢ Ok true → self.new ≡ self.old }
    {
        let free = self.free;
        let Some(size) = size else {
            return Ok(false);
        };
        if self.lacks(size) {
            return Ok(false);
        }
        let ring = &mut self.ring;
        make_place(ring, self.capacity)?;
        let shared = Arc::try_clone(entry)?;
        let Ok(()) = ring.try_push_back(shared) else {
            unreachable!()
        };
        self.free = free - size;
        Ok(true)
    }

    /// Takes the newest entry away again.
    pub fn pop_newest(&mut self)
        ensures { self.new ≡ record self.old {
          waiting = take (length self.old.waiting - 1) self.old.waiting;
        } }
    {
        if let Some(newest) = self.ring.pop_back() {
            // What waits has no more bytes than the outbox may hold.
            self.free += newest.size().unwrap_or(0);
        }
    }

    /// Takes the newest entries away again, as many as are named.
    pub fn pop_last(&mut self, count: usize)
        ensures { self.new ≡ record self.old {
          waiting = take (length self.old.waiting - count) self.old.waiting;
        } }
    {
        for _turn in 0..count {
            self.pop_newest();
        }
        self.give_back();
    }

    /// Gives the ring's memory back, where no entry waits and it has more places than an empty
    /// outbox keeps.
    fn give_back(&mut self)
        ensures { self.new ≡ self.old }
    {
        if self.ring.is_empty() && self.ring.capacity() > KEPT_PLACES {
            let _given = self.ring.resize(0);
        }
    }

    /// Takes the oldest entry out, if there is one.
    fn pop(&mut self) -> Option<Arc<Entry>>
        ensures left { self.new ≡ record self.old { waiting = drop 1 self.old.waiting } }
        ensures oldest { option_map arc_value result ≡ slice_get self.old.waiting 0 }
    {
        let oldest = self.ring.pop_front()?;
        // What waits has no more bytes than the outbox may hold.
        self.free += oldest.size().unwrap_or(0);
        Some(oldest)
    }

    /// Takes the oldest entries out, as many as are named, to the end of a list that has room for
    /// them.
    pub fn take_first(&mut self, count: usize, taken: &mut Vec<Arc<Entry>>)
        requires { vec_len taken.old + count ≤ vec_capacity taken.old }
        ensures left { self.new ≡ record self.old { waiting = drop count self.old.waiting } }
        ensures taken { map arc_value taken.new.items
            ≡ map arc_value taken.old.items ++ take count self.old.waiting }
    {
        if count >= self.ring.len() {
            move_all(&mut self.ring, taken);
            // None waits, so all bytes are free: no entry is asked for its size.
            self.free = self.bytes;
            self.give_back();
            return;
        }
        for _index in 0..count {
            if let Some(oldest) = self.pop() {
                taken.push_reserved(oldest);
            }
        }
    }

    /// Copies of the oldest entries, as many as are named.
    #[tactic(auto, using(journal::proofs::OutboxesLemmas::take_next))]
    pub fn copies(&self, alloc: Global, count: usize) -> Result<Vec<Entry>, AllocError>
        requires { count ≤ length self.now.waiting }
        ensures { IfOk result (λ entries. entries.items ≡ take count self.now.waiting) }
    {
        let mut entries = Vec::with_capacity(alloc, count)?;
        for index in 0..count {
            let Some(entry) = self.get(index) else {
                unreachable!()
            };
            entries.push(entry.clone()?)?;
        }
        Ok(entries)
    }

    /// The oldest entries, as many as are named, each shared.
    pub fn share_first(&self, alloc: Global, count: usize) -> Result<Vec<Arc<Entry>>, AllocError>
        requires { count ≤ length self.now.waiting }
        ensures { IfOk result (λ entries.
            map arc_value entries.items ≡ take count self.now.waiting) }
    {
        let mut entries = Vec::with_capacity(alloc, count)?;
        for index in 0..count {
            let Some(entry) = self.ring.get(index) else {
                unreachable!()
            };
            entries.push(Arc::try_clone(entry)?)?;
        }
        Ok(entries)
    }
}
