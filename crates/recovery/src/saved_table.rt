//! The lost sessions that may come back (Socket.IO server documentation, "Connection state
//! recovery").

ghost use Rattle.std.specs.Prelude.{◌≡◌, ℕ, ◌+◌, ◌<◌, ◌==◌, if◌then◌else◌, length, [], map, filter, IfOk, IfErr, IfSome, IfNone, IsOkAnd, OnOk, OnErr, Some, None, option_copied, is_some};
ghost use Rattle.std.specs.Bool.{OnTrue, OnFalse};
ghost use Rattle.std.specs.Ordering.{nat_cmp};
ghost use Rattle.std.specs.List.Sorted.{IsStrictlySortedBy};
ghost use Rattle.std.specs.Map.{values_of};
ghost use Rattle.recovery.specs.Expiry as expiry;
ghost use Rattle.recovery.specs.SavedTable.{PlainSaved, TableContents, IsTable, session, save_refusal, find_refusal, or_unknown, table_swept, is_alive};
ghost use Rattle.recovery.specs.SavedTable as table;

use crate::error::{RecoveryError, Result};
use std::alloc::{AllocError, Global};
use std::collections::{BTreeMap, BTreeSet};
use std::marker::Model;
use terms::{Room, Sid};

/// A private session id, by which a client asks for its session back: in a contract its number.
#[derive(Clone, Copy, Debug, PartialEq, Eq, PartialOrd, Ord)]
pub struct Pid(u128);

impl Model for Pid {
    ghost use Rattle.std.specs.Prelude.{ℕ};

    ghost Value = { ℕ };

    ghost view = { λ p. p.0 };

    ghost inverse = { λ n. record { 0 = n } };
}

impl Pid {
    /// The private session id with this number.
    pub fn new(id: u128) -> Pid
        ensures { result ≡ id }
    {
        Pid(id)
    }

    /// Its number.
    pub fn number(self) -> u128
        ensures { result ≡ self }
    {
        self.0
    }
}

/// A socket that was lost, in a contract plain data.
#[derive(Drop)]
pub struct Saved {
    /// Its session id.
    pub sid: Sid,
    /// Its private session id.
    pub pid: Pid,
    /// The place of its namespace in the server's list.
    pub space: u16,
    /// The rooms that it was in, its own among them.
    pub rooms: Vec<Room>,
    /// When it was lost, in milliseconds.
    pub lost_at: u64,
}

impl Model for Saved {
    ghost use Rattle.recovery.specs.SavedTable.{PlainSaved};

    ghost Value = { PlainSaved };

    ghost view = { λ s. record {
      sid = s.sid;
      pid = s.pid;
      space = s.space;
      rooms = s.rooms.items;
      lost_at = s.lost_at;
    } };
}

/// Whether more than `keep` milliseconds lie between the two moments. Their sum never wraps.
pub(crate) fn is_outdated(at: u64, keep: u64, now: u64) -> bool
    ensures { result ≡ expiry.is_outdated keep now at }
{
    at.checked_add(keep).is_some_and(|end| end < now)
}

impl Saved {
    /// Whether it was lost more than `keep` milliseconds before `now`.
    pub fn is_outdated(&self, keep: u64, now: u64) -> bool
        ensures { result ≡ expiry.is_outdated keep now self.now.lost_at }
    {
        is_outdated(self.lost_at, keep, now)
    }

    /// A copy.
    pub(crate) fn copy(&self, alloc: Global) -> Result<Saved, AllocError>
        ensures { IfOk result (λ copy. copy ≡ self.now) }
    {
        Ok(Saved {
            sid: self.sid,
            pid: self.pid,
            space: self.space,
            rooms: Vec::from_slice(alloc, &self.rooms)?,
            lost_at: self.lost_at,
        })
    }
}

/// The lost sessions, at most as many as a limit. Each moment counts as it is handed in. A look-up
/// by private id or by session id takes the logarithm of the sessions.
#[derive(Drop)]
pub struct SavedTable {
    limit: usize,
    by_pid: BTreeMap<Pid, Saved>,
    /// The moment at which each was lost, and its private id.
    by_loss: BTreeSet<(u64, Pid)>,
    /// The session id of each, and its private id: two sessions may have one session id.
    by_sid: BTreeSet<(Sid, Pid)>,
}

impl Model for SavedTable {
    ghost Value = { TableContents };

    ghost view = { λ t. record { limit = t.limit; sessions = values_of t.by_pid.entries } };

    ghost invariant = { λ t. IsTable t.by_pid.entries t.by_loss.keys t.by_sid.keys };
}

impl SavedTable {
    /// An empty table for at most `limit` sessions.
    pub fn new(alloc: Global, limit: usize) -> SavedTable
        ensures { result ≡ record { limit = limit; sessions = [] } }
    {
        SavedTable {
            limit,
            by_pid: BTreeMap::new(alloc),
            by_loss: BTreeSet::new(alloc),
            by_sid: BTreeSet::new(alloc),
        }
    }

    /// How many sessions there are.
    pub fn len(&self) -> usize
        ensures { result ≡ length self.now.sessions }
    {
        self.by_pid.len()
    }

    /// Whether a session with this session id is in the table, outdated or not. It takes the
    /// logarithm of the sessions.
    pub fn has_sid(&self, sid: Sid) -> bool
        ensures { result ≡ table.has_sid self.now sid }
    {
        // No private id comes before 0, so the first pair from here on has the session id if any
        // has.
        match self.by_sid.range((sid, Pid::new(0))..).next() {
            Some((first, _)) => *first == sid,
            None => false,
        }
    }

    /// The session with this private id, outdated or not. It takes the logarithm of the sessions.
    pub fn look_up(&self, pid: Pid) -> Option<&Saved>
        ensures { option_copied result ≡ session self.now pid }
    {
        self.by_pid.get(&pid)
    }

    /// Whether a session with this private id is in the table, outdated or not. It takes the
    /// logarithm of the sessions.
    pub fn has_pid(&self, pid: Pid) -> bool
        ensures { result ≡ is_some (session self.now pid) }
    {
        self.look_up(pid).is_some()
    }

    /// Saves a session, or drops it. Refused in this order: its private id is taken; the table is
    /// full.
    pub fn save(&mut self, _alloc: Global, saved: Saved) -> Result
        ensures refused { IfSome (save_refusal self.old saved.pid) (λ error. result ≡ Err error) }
        ensures memory { IfNone (save_refusal self.old saved.pid)
            (IfErr result (λ error. error ≡ RecoveryError.Memory)) }
        ensures saved { OnOk result (self.new ≡ table.saved self.old saved) }
        ensures map { OnOk result ((pid : ℕ) → session self.new pid
            ≡ (if saved.pid == pid then Some saved else session self.old pid)) }
        ensures unchanged { OnErr result (self.new ≡ self.old) }
    {
        let (sid, pid, lost_at) = (saved.sid, saved.pid, saved.lost_at);
        if self.has_pid(pid) {
            return Err(RecoveryError::PidTaken);
        }
        if self.len() >= self.limit {
            return Err(RecoveryError::TableFull);
        }
        self.by_pid.insert(pid, saved)?;
        // Where a growth is refused, those before it are taken back.
        let Ok(_) = self.by_loss.insert((lost_at, pid)) else {
            self.by_pid.remove(&pid);
            return Err(RecoveryError::Memory);
        };
        let Ok(_) = self.by_sid.insert((sid, pid)) else {
            self.by_loss.remove(&(lost_at, pid));
            self.by_pid.remove(&pid);
            return Err(RecoveryError::Memory);
        };
        Ok(())
    }

    /// The session with this private id. Refused in this order: there is none; it is outdated.
    pub fn find(&self, pid: Pid, now: u64, keep: u64) -> Result<&Saved>
        ensures refused { IfSome (find_refusal self.now pid keep now) (λ e. result ≡ Err e) }
        ensures found { IfNone (find_refusal self.now pid keep now)
            (IsOkAnd result (λ saved. session self.now pid ≡ Some saved.now)) }
    {
        let saved = self.look_up(pid).ok_or(RecoveryError::UnknownPid)?;
        if saved.is_outdated(keep, now) {
            return Err(RecoveryError::Expired);
        }
        Ok(saved)
    }

    /// Takes a session out of the table. Refused where there is none with this private id.
    pub fn remove(&mut self, pid: Pid) -> Result<Saved>
        ensures answer { result ≡ or_unknown (session self.old pid) }
        ensures removed { self.new ≡ table.removed self.old pid }
        ensures unchanged { OnErr result (self.new ≡ self.old) }
    {
        let Some(saved) = self.by_pid.remove(&pid) else {
            return Err(RecoveryError::UnknownPid);
        };
        self.by_loss.remove(&(saved.lost_at, pid));
        self.by_sid.remove(&(saved.sid, pid));
        Ok(saved)
    }

    /// Drops the sessions that were lost more than `keep` milliseconds before `now`, and says how
    /// many. It looks at no other but one.
    pub fn sweep(&mut self, now: u64, keep: u64) -> usize
        ensures count { length self.new.sessions + result ≡ length self.old.sessions }
        ensures swept { self.new ≡ table_swept self.old keep now }
    {
        let before = self.len();
        'first: while self.take_first_outdated(keep, now) {}
        before - self.len()
    }

    /// Takes the session that was lost first, if it is outdated, and says whether it was.
    fn take_first_outdated(&mut self, keep: u64, now: u64) -> bool
        ensures alive { self.new.limit ≡ self.old.limit × (filter (is_alive keep now)
            self.new.sessions ≡ filter (is_alive keep now) self.old.sessions) }
        ensures fewer { OnTrue result (length self.new.sessions < length self.old.sessions) }
        ensures none_left { let left = self.new.sessions
            in OnFalse result (filter (is_alive keep now) left ≡ left) }
    {
        let Some(first) = self.by_loss.first() else {
            return false;
        };
        let (lost_at, pid) = *first;
        is_outdated(lost_at, keep, now) && self.remove(pid).is_ok()
    }

    /// Copies of all sessions, their private ids rising.
    pub fn list(&self, alloc: Global) -> Result<Vec<Saved>>
        ensures sessions { IfOk result (λ list. list.items ≡ self.now.sessions) }
        ensures rises { IsStrictlySortedBy nat_cmp
            (map (λ (saved : PlainSaved). saved.pid) self.now.sessions) }
        ensures memory { IfErr result (λ error. error ≡ RecoveryError.Memory) }
    {
        let mut list = Vec::with_capacity(alloc, self.by_pid.len())?;
        for saved in self.by_pid.values() {
            list.push(saved.copy(alloc)?)?;
        }
        Ok(list)
    }
}
