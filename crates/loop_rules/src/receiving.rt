//! How much of what is received isn't whole, who is read on meanwhile, and who is given up.

ghost use Rattle.std.specs.Prelude.{◌≡◌, ◌<◌, ◌^◌, ◌≤◌, ℕ, ◌≢◌, None, Some, true, false, ◌+◌, ◌++◌};
ghost use Rattle.std.specs.Prelude.{[], Ok, IfOk, IsOk, OnErr, nat_eq, not, option_to_list};
ghost use Rattle.loop_rules.specs.Parts.{sum_of, first_stale, kept_until, noted};
ghost use Rattle.loop_rules.specs.Rotas.{times};
ghost use Rattle.std.specs.Bool.{OnTrue, OnFalse};
ghost use Rattle.std.specs.List.{list_any};

use crate::link::Seen;
use crate::links::Links;
use std::alloc::{AllocError, Global};
use std::collections::{HashMap, VecDeque};

/// What one has that isn't whole.
#[derive(Clone, Copy)]
struct Part {
    bytes: usize,
    /// The moment at which this last changed, or was to stay as it is.
    moved: u64,
}

/// How many bytes that aren't whole each one has, by its number, and all have together.
#[derive(Drop)]
pub struct Unfinished {
    parts: HashMap<u128, Part>,
    sum: usize,
    ghost all: { sum ≡ sum_of parts },
    ghost fits: { sum < 2 ^ 64 },
}

impl Unfinished {
    ghost use Rattle.loop_rules.specs.Unfinished.{part_of, bytes_of};

    /// All is whole.
    pub fn new(alloc: Global) -> Unfinished
        ensures none { (n : ℕ) → part_of result n ≡ None }
        ensures sum { result.sum ≡ 0 }
    {
        let (parts, sum) = (HashMap::new(alloc), 0);
        Unfinished { parts, sum }
    }

    fn part(&self, number: u128) -> Option<Part>
        ensures { result ≡ part_of self.now number }
    {
        self.parts.get(&number).copied()
    }

    /// How many bytes this one has.
    pub fn bytes(&self, number: u128) -> usize
        ensures { result ≡ bytes_of self.now number }
    {
        // Where nobody has any, nobody is looked up.
        if self.sum == 0 {
            return 0;
        }
        self.part(number).map_or(0, |part| part.bytes)
    }

    /// One that has some, which didn't change for so long that they are given up.
    pub fn find_stale(&self, now: u64) -> Option<u128>
        ensures { result ≡ first_stale now self.now.parts }
    {
        let mut parts = self.parts.iter();
        match parts.find(|entry| now.saturating_sub(entry.1.moved) >= STOP) {
            Some((number, _)) => Some(*number),
            None => None,
        }
    }

    /// How many bytes all others have.
    fn others(&self, number: u128) -> usize
        ensures { result + bytes_of self.now number ≡ self.now.sum }
    {
        self.sum - self.bytes(number)
    }

    /// It has this from now on. Where there was no memory for it, nothing changes.
    fn put(&mut self, number: u128, part: Part) -> bool
        requires fits { self.old.sum + part.bytes < 2 ^ 64 + bytes_of self.old number }
        ensures put { OnTrue result (part_of self.new number ≡ Some part) }
        ensures kept { OnFalse result (self.new.parts.entries ≡ self.old.parts.entries) }
        ensures new { OnFalse result (part_of self.old number ≡ None) }
        ensures sum { self.new.sum + bytes_of self.old number
            ≡ self.old.sum + bytes_of self.new number }
        ensures others { (n : ℕ) → n ≢ number → part_of self.new n ≡ part_of self.old n }
    {
        let sum = self.others(number) + part.bytes;
        let put = self.parts.insert(number, part).is_ok();
        if put {
            self.sum = sum;
        }
        put
    }

    /// It has so many bytes from now on. Answers whether that is counted: not where there is no
    /// memory for it, or too many bytes to be counted, and then nothing changes.
    pub fn note(&mut self, number: u128, bytes: usize, now: u64) -> bool
        ensures counted { OnTrue result
            (part_of self.new number ≡ noted bytes now (part_of self.old number)) }
        ensures kept { OnFalse result (part_of self.new number ≡ part_of self.old number) }
        ensures refused { OnFalse result (part_of self.old number ≢ None
            → ¬ (self.old.sum + bytes < 2 ^ 64 + bytes_of self.old number)) }
        ensures less { bytes ≤ bytes_of self.old number → result ≡ true }
        ensures sum { self.new.sum + bytes_of self.old number
            ≡ self.old.sum + bytes_of self.new number }
        ensures others { (n : ℕ) → n ≢ number → part_of self.new n ≡ part_of self.old n }
    {
        if bytes == self.bytes(number) {
            return true;
        }
        let others = self.others(number);
        if bytes == 0 {
            self.sum = others;
            let _ = self.parts.remove(&number);
            return true;
        }
        bytes <= usize::MAX - others && self.put(number, Part { bytes, moved: now })
    }

    /// What it has was to stay as it is until now.
    pub fn keep(&mut self, number: u128, now: u64)
        ensures kept { part_of self.new number ≡ kept_until now (part_of self.old number) }
        ensures sum { self.new.sum ≡ self.old.sum }
        ensures others { (n : ℕ) → n ≢ number → part_of self.new n ≡ part_of self.old n }
    {
        if let Some(part) = self.part(number) {
            let bytes = part.bytes;
            // It has a place, so that no memory is needed.
            let _ = self.put(number, Part { bytes, moved: now });
        }
    }
}

/// Who has fewer bytes than this that aren't whole is always read on.
const SMALL: usize = 16_384;

/// How long a message or attachments are waited for of which no byte comes, in milliseconds.
const STOP: u64 = 30_000;

/// For how long one goes on beyond its loop's share, in milliseconds.
const TURN: u64 = 30_000;

/// Who sends to a loop.
#[derive(Clone, Copy, Debug, PartialEq, Eq)]
pub enum Sender {
    /// The connection with this key, of which no client is known.
    Connection(usize),
    /// The client with this id, over whatever connection.
    Client(u128),
}

/// Whose turn it is to go on beyond the share.
#[derive(Clone, Copy, Debug, PartialEq, Eq)]
pub struct Turn {
    pub sender: Sender,
    /// The moment at which its turn began.
    pub since: u64,
}

/// What a loop receives and isn't whole, and who isn't read on meanwhile. Beyond the loop's share
/// who has much is held, and one at a time goes on nevertheless, so that all get on.
#[derive(Drop)]
pub struct Receiving {
    /// How many bytes may be unfinished.
    share: usize,
    /// The requests and messages that are coming over connections, by their keys.
    pub messages: Unfinished,
    /// The attachments that clients have begun to send, by their ids.
    pub attachments: Unfinished,
    /// The connections that aren't read, in the order in which they were held.
    held: VecDeque<usize>,
    /// Who goes on beyond the share.
    ahead: Option<Turn>,
    ghost once: { (key : ℕ) → times key held.items ≤ 1 },
}

impl Receiving {
    ghost use Rattle.loop_rules.specs.Receiving.{ahead_after, goes_on, has_room, is_ahead, IsDone};
    ghost use Rattle.loop_rules.specs.Receiving.{limit_of, listed, next_of, SameBytes};
    ghost use Rattle.loop_rules.specs.Holding.{SameTurns};

    /// Nothing is unfinished.
    pub fn new(alloc: Global, share: usize) -> Receiving
        ensures share { result.share ≡ share }
        ensures held { result.held.items ≡ [] }
        ensures ahead { result.ahead ≡ None }
        ensures messages { result.messages.sum ≡ 0 }
        ensures attachments { result.attachments.sum ≡ 0 }
    {
        Receiving {
            share,
            messages: Unfinished::new(alloc),
            attachments: Unfinished::new(alloc),
            held: VecDeque::new(alloc),
            ahead: None,
        }
    }

    /// Whether less is unfinished than the loop's share.
    fn has_room(&self) -> bool
        ensures { result ≡ has_room self.now }
    {
        let (messages, attachments) = (self.messages.sum, self.attachments.sum);
        messages as u128 + (attachments as u128) < self.share as u128
    }

    /// Whether this one goes on beyond the share.
    fn is_ahead(&self, sender: Sender) -> bool
        ensures { result ≡ is_ahead sender self.now.ahead }
    {
        match (self.ahead.map(|turn| turn.sender), sender) {
            (Some(Sender::Connection(key)), Sender::Connection(other)) => key == other,
            (Some(Sender::Client(client)), Sender::Client(other)) => client == other,
            _ => false,
        }
    }

    /// Up to how many unfinished bytes a sender is read.
    pub fn limit(&self, sender: Sender) -> usize
        ensures { result ≡ limit_of (has_room self.now) sender self.now.ahead }
    {
        if self.has_room() || self.is_ahead(sender) {
            usize::MAX
        } else {
            SMALL
        }
    }

    /// A sender has so many bytes unfinished. With few it goes on beyond the share no more.
    pub fn note_left(&mut self, sender: Sender, bytes: usize)
        ensures turn { IsDone sender bytes self.old self.new }
        ensures held { self.new.held ≡ self.old.held }
    {
        if bytes < SMALL && self.is_ahead(sender) {
            self.ahead = None;
        }
    }

    /// A sender has so many bytes unfinished. Answers whether its connection is held and listed.
    pub fn settle(&mut self, key: usize, sender: Sender, bytes: usize) -> Result<bool, AllocError>
        ensures held { IfOk result
            (λ held. held ≡ not (goes_on (has_room self.old) sender bytes self.old.ahead)) }
        ensures listed { IfOk result
            (λ held. self.new.held.items ≡ listed held key self.old.held.items) }
        ensures refused { OnErr result (self.new.held.items ≡ self.old.held.items) }
        ensures goes { goes_on (has_room self.old) sender bytes self.old.ahead ≡ true
            → result ≡ Ok false }
        ensures again { list_any (λ k. nat_eq k key) self.old.held.items ≡ true → IsOk result }
        ensures turn { IsDone sender bytes self.old self.new }
    {
        self.note_left(sender, bytes);
        let is_small = bytes < SMALL;
        if is_small || self.has_room() || self.is_ahead(sender) {
            return Ok(false);
        }
        if !self.held.contains(&key) {
            self.held.push_back(key)?;
        }
        Ok(true)
    }

    /// The first one that is held, if it may be read on: with room, or nobody beyond the share.
    pub fn next(&self) -> Option<usize>
        ensures { result ≡ next_of (has_room self.now) self.now.ahead self.now.held.items }
    {
        if self.ahead.is_some() && !self.has_room() {
            return None;
        }
        self.held.front().copied()
    }

    /// The first one held leaves, if it may be read on: without room it goes on beyond the share.
    pub fn pop(&mut self, sender: Sender, now: u64) -> Option<usize>
        ensures next { result ≡ next_of (has_room self.old) self.old.ahead self.old.held.items }
        ensures left { self.old.held.items ≡ option_to_list result ++ self.new.held.items }
        ensures ahead { self.new.ahead
            ≡ ahead_after (has_room self.old) result sender now self.old.ahead }
        ensures same { SameBytes self.old self.new }
    {
        let has_room = self.has_room();
        if self.ahead.is_some() && !has_room {
            return None;
        }
        let key = self.held.pop_front()?;
        if !has_room {
            self.ahead = Some(Turn { sender, since: now });
        }
        Some(key)
    }

    /// What a sender sends over a connection had to wait until now.
    pub(crate) fn keep(&mut self, key: usize, sender: Sender, now: u64)
        ensures turns { SameTurns self.old self.new }
    {
        self.messages.keep(key as u128, now);
        if let Sender::Client(client) = sender {
            self.attachments.keep(client, now);
        }
    }
}

impl Links {
    ghost use Rattle.loop_rules.specs.Links as all;
    ghost use Rattle.loop_rules.specs.Links.{KeepsOthers, link_at};
    ghost use Rattle.loop_rules.specs.Holding as holding;

    /// A connection has been read: what came of it is counted, and it is held where that is much.
    /// Without memory to list it, it is looked at again.
    pub fn settle(&mut self, key: usize, seen: Seen, now: u64)
        ensures held { holding.IsSettled seen
            (link_at self.old.links.items key) (link_at self.new.links.items key) }
        ensures others { KeepsOthers key self.old self.new }
        ensures takers { self.new.roster.takers ≡ self.old.roster.takers }
    {
        self.count(key, seen, now);
        let Some(link) = self.links.get(key) else {
            return;
        };
        if link.held || !link.course.is_receiving() {
            return;
        }
        let (sender, bytes) = (link.sender(key), link.bytes_unfinished(seen));
        let bytes = bytes.saturating_add(self.bytes_attached(sender));
        match self.receiving.settle(key, sender, bytes) {
            Ok(held) => self.links[key].held = held,
            Err(_) => self.roster.rota.call(key),
        }
    }

    /// What came of a connection and isn't whole is counted, if it is much and memory allows.
    fn count(&mut self, key: usize, seen: Seen, now: u64)
        ensures counted { holding.IsCounted seen
            (link_at self.old.links.items key) (link_at self.new.links.items key) }
        ensures others { KeepsOthers key self.old self.new }
        ensures roster { self.new.roster ≡ self.old.roster }
    {
        let Some(link) = self.links.get(key) else {
            return;
        };
        let bytes = link.bytes_unfinished(seen);
        let counted = if bytes < SMALL { 0 } else { bytes };
        if counted != link.counted && self.receiving.messages.note(key as u128, counted, now) {
            self.links[key].counted = counted;
        }
    }

    /// Calls the first connection that is held, if it may be read on now.
    pub fn call_held(&mut self, now: u64)
        ensures takers { self.new.roster.takers ≡ self.old.roster.takers }
        ensures links { holding.IsCalled (all.next_held self.old.receiving)
            self.old.links.items self.new.links.items }
        ensures rota { self.new.roster.rota
            ≡ holding.called_if (all.next_held self.old.receiving) self.old.roster.rota }
    {
        let Some(key) = self.receiving.next() else {
            return;
        };
        let mut link = self.link(key);
        let sender = link.sender(key);
        let _ = self.receiving.pop(sender, now);
        if !link.held {
            // It is gone, and another one may have its key.
            self.receiving.note_left(sender, 0);
        }
        link.held = false;
        self.put(key, link);
        self.receiving.keep(key, sender, now);
        self.roster.rota.call(key);
    }

    /// A client that is given up: its turn is over, or no more comes of what it began to send.
    pub fn find_given_up(&mut self, now: u64) -> Option<u128>
        ensures links { self.new.links ≡ self.old.links }
        ensures roster { self.new.roster ≡ self.old.roster }
    {
        if let Some(client) = self.find_overdue(now) {
            return Some(client);
        }
        if let Some(client) = self.find_stopped_message(now) {
            return Some(client);
        }
        self.find_stopped_attachments(now)
    }

    /// The client whose turn to go on beyond the share is over.
    fn find_overdue(&mut self, now: u64) -> Option<u128>
        ensures client { result ≡ holding.overdue_client now self.old }
        ensures links { self.new.links ≡ self.old.links }
        ensures roster { self.new.roster ≡ self.old.roster }
    {
        let turn = self.receiving.ahead?;
        if now.saturating_sub(turn.since) < TURN {
            return None;
        }
        self.receiving.note_left(turn.sender, 0);
        match turn.sender {
            Sender::Client(client) => Some(client),
            Sender::Connection(key) => self.client(key),
        }
    }

    /// The client of a connection over which no more of a message comes, unless it is held.
    fn find_stopped_message(&mut self, now: u64) -> Option<u128>
        ensures links { self.new.links ≡ self.old.links }
        ensures roster { self.new.roster ≡ self.old.roster }
    {
        for _ in 0..usize::MAX {
            let number = self.receiving.messages.find_stale(now)?;
            // It is told once in a while.
            self.receiving.messages.keep(number, now);
            let link = self.link(usize::try_from(number).ok()?);
            if !link.held && link.client.is_some() {
                return link.client;
            }
        }
        None
    }

    /// A client of whose attachments no more come, unless its connection is held.
    fn find_stopped_attachments(&mut self, now: u64) -> Option<u128>
        ensures links { self.new.links ≡ self.old.links }
        ensures roster { self.new.roster ≡ self.old.roster }
    {
        for _ in 0..usize::MAX {
            let client = self.receiving.attachments.find_stale(now)?;
            let taker = self.roster.takers.of(client);
            if !matches!(taker, Some(key) if self.link(key).held) {
                return Some(client);
            }
            self.receiving.attachments.keep(client, now);
        }
        None
    }

    /// A client has so many bytes of attachments that aren't whole, counted if memory allows.
    pub fn note_attached(&mut self, client: u128, bytes: usize, now: u64)
        ensures links { self.new.links ≡ self.old.links }
        ensures roster { self.new.roster ≡ self.old.roster }
    {
        let _ = self.receiving.attachments.note(client, bytes, now);
        self.receiving.note_left(Sender::Client(client), bytes);
    }
}
