//! The log and the saved sessions: moments and offsets from outside.

ghost use Rattle.std.specs.Prelude.{◌≤◌};

use crate::play::{Part, play};
use recovery::{PacketLog, Pid, RecoveryError, Saved, SavedTable};
use std::alloc::Global;
use std::process::Abort;
use std::sync::Arc;
use terms::{Attachments, Entry, Sid, Text};

/// What is called, with what it answers last.
pub enum Row {
    /// What is pushed at a moment gets these offsets, from one to another.
    Push(u64, u64, u64),
    /// Of the offsets below the first number those from the second to the third stand in the log.
    Stand(u64, u64, u64),
    /// What a socket in no room misses after an offset.
    Missed(u64, &'static [u64]),
    Next(Option<u64>),
    /// The session of a socket that was lost at a moment; its private id is one more.
    Save(u64, u64),
    /// The session with this private id, at a moment, of those that are kept so long.
    Find(u64, u64, u64),
    Remove(u64),
    HasSid(u64, bool),
    HasPid(u64, bool),
    /// Of the log or the table: so many were older, and are dropped.
    Sweep(u64, u64, usize),
    Len(usize),
    List(&'static [u64]),
}

type Rows = &'static [(Row, Result<bool, RecoveryError>)];

const YES: Result<bool, RecoveryError> = Ok(true);

impl Part for PacketLog {
    type Row = Row;

    type Fault = RecoveryError;

    const MEMORY: RecoveryError = RecoveryError::Memory;

    fn size(&self) -> usize {
        self.len()
    }

    fn act(&mut self, alloc: Global, row: &Row) -> Result<bool, RecoveryError> {
        Ok(match row {
            Row::Push(at, first, last) => return push(self, alloc, *at, *first, *last),
            Row::Stand(below, first, last) => stand(self, *below, *first, *last),
            Row::Missed(after, want) => self.missed(alloc, *after, 0, &[])?.as_slice() == *want,
            Row::Next(want) => self.next() == *want,
            Row::Sweep(now, keep, many) => self.sweep(*now, *keep) == *many,
            Row::Len(want) => self.len() == *want,
            Row::List(want) => {
                let all = self.list(alloc)?;
                all.len() == want.len() && all.iter().zip(*want).all(|(one, n)| one.offset == *n)
            }
            _ => false,
        })
    }
}

/// A broadcast of six bytes.
fn entry(alloc: Global) -> Result<Arc<Entry>, RecoveryError> {
    let text = Text::copy_of(alloc, "2[\"x\"]")?;
    let attachments = Attachments::new(alloc);
    Ok(Arc::new(alloc, Entry { text, attachments })?)
}

/// The offset that one more gets, which is in no room.
fn push_one(
    log: &mut PacketLog,
    alloc: Global,
    at: u64,
    entry: &Arc<Entry>,
) -> Result<u64, RecoveryError> {
    match Arc::try_clone(entry) {
        Ok(shared) => log.push(at, 0, Vec::new(alloc), Vec::new(alloc), shared),
        Err(_) => Ok(0),
    }
}

fn push(
    log: &mut PacketLog,
    alloc: Global,
    at: u64,
    first: u64,
    last: u64,
) -> Result<bool, RecoveryError> {
    let entry = entry(alloc)?;
    for want in first..=last {
        if push_one(log, alloc, at, &entry)? != want {
            return Ok(false);
        }
    }
    Ok(true)
}

fn stand(log: &PacketLog, below: u64, first: u64, last: u64) -> bool {
    for offset in 0..below {
        if log.find(offset).is_some() != (first <= offset && offset <= last) {
            return false;
        }
    }
    true
}

impl Part for SavedTable {
    type Row = Row;

    type Fault = RecoveryError;

    const MEMORY: RecoveryError = RecoveryError::Memory;

    fn size(&self) -> usize {
        self.len()
    }

    fn act(&mut self, alloc: Global, row: &Row) -> Result<bool, RecoveryError> {
        Ok(match row {
            Row::Save(id, lost_at) => return save(self, alloc, *id, *lost_at),
            Row::Find(pid, now, keep) => {
                let pid = Pid::new(u128::from(*pid));
                self.find(pid, *now, *keep)?.pid == pid
            }
            Row::Remove(pid) => {
                let pid = Pid::new(u128::from(*pid));
                self.remove(pid)?.pid == pid
            }
            Row::HasSid(sid, want) => self.has_sid(Sid::new(u128::from(*sid))) == *want,
            Row::HasPid(pid, want) => self.has_pid(Pid::new(u128::from(*pid))) == *want,
            Row::Sweep(now, keep, many) => self.sweep(*now, *keep) == *many,
            Row::Len(want) => self.len() == *want,
            Row::List(want) => {
                let all = self.list(alloc)?;
                all.len() == want.len()
                    && all
                        .iter()
                        .zip(*want)
                        .all(|(one, n)| one.pid.number() == u128::from(*n))
            }
            _ => false,
        })
    }
}

/// A session in no room; its private id is one more than its socket's.
fn session(alloc: Global, id: u64, lost_at: u64) -> Saved {
    Saved {
        sid: Sid::new(u128::from(id)),
        pid: Pid::new(u128::from(id) + 1),
        space: 0,
        rooms: Vec::new(alloc),
        lost_at,
    }
}

/// Saves a session. A growth that is refused leaves nothing behind.
fn save(
    table: &mut SavedTable,
    alloc: Global,
    id: u64,
    lost_at: u64,
) -> Result<bool, RecoveryError> {
    let (before, sid) = (table.len(), Sid::new(u128::from(id)));
    let saved = table.save(alloc, session(alloc, id, lost_at));
    if saved == Err(RecoveryError::Memory) && (table.len() != before || table.has_sid(sid)) {
        return Ok(false);
    }
    saved?;
    Ok(true)
}

/// A log of at most so many broadcasts of so many bytes, the first with this offset.
fn log(alloc: Global, limit: usize, bytes: usize, first: u64) -> Result<PacketLog, RecoveryError>
    requires limit { 1 ≤ limit }
    requires first { 1 ≤ first }
{
    match PacketLog::new(alloc, limit, bytes, first) {
        Err(_) => PacketLog::new(alloc, limit, bytes, first),
        log => log,
    }
}

/// Plays rows to such a log.
fn play_log(
    rt: &(impl Abort + AllocGlobal),
    limit: usize,
    bytes: usize,
    first: u64,
    rows: Rows,
) -> Result<(), RecoveryError>
    requires limit { 1 ≤ limit }
    requires first { 1 ≤ first }
{
    play(rt, &mut log(rt.alloc(), limit, bytes, first)?, rows);
    Ok(())
}

#[test]
fn logs(rt: HostRuntime) -> Result<(), RecoveryError> {
    static LAST_THREE: Rows = &[
        (Row::Push(0, 1, 10_000), YES),
        (Row::Len(3), YES),
        (Row::Stand(10_010, 9_998, 10_000), YES),
    ];
    static MISSED: Rows = &[
        (Row::Push(0, 1, 2), YES),
        (Row::Push(1, 3, 3), YES),
        (Row::Push(2, 4, 4), YES),
        (Row::Missed(1, &[]), Err(RecoveryError::OffsetGone)),
        (Row::Missed(2, &[3, 4]), YES),
        (Row::List(&[2, 3, 4]), YES),
        (Row::Sweep(120_000, 120_000, 0), YES),
        (Row::Sweep(120_001, 120_000, 1), YES),
        (Row::Next(Some(5)), YES),
    ];
    static GREATEST_OFFSET: Rows = &[
        (Row::Next(Some(u64::MAX)), YES),
        (Row::Push(0, u64::MAX, u64::MAX), YES),
        (Row::Next(None), YES),
        (Row::Push(0, 0, 0), Err(RecoveryError::Spent)),
        (Row::Missed(u64::MAX, &[]), YES),
        (Row::List(&[u64::MAX]), YES),
    ];
    // Each entry has six bytes.
    static OF_TWENTY_BYTES: Rows = &[
        (Row::Push(0, 1, 3), YES),
        (Row::List(&[1, 2, 3]), YES),
        (Row::Push(0, 4, 5), YES),
        (Row::List(&[3, 4, 5]), YES),
        (Row::Missed(2, &[]), Err(RecoveryError::OffsetGone)),
        (Row::Sweep(9, 8, 3), YES),
        (Row::Push(9, 6, 8), YES),
        (Row::List(&[6, 7, 8]), YES),
    ];
    static OF_FIVE_BYTES: Rows = &[
        (Row::Push(0, 1, 2), YES),
        (Row::Len(0), YES),
        (Row::Missed(2, &[]), Err(RecoveryError::OffsetGone)),
        (Row::Next(Some(3)), YES),
    ];
    play_log(&rt, 3, usize::MAX, 1, LAST_THREE)?;
    play_log(&rt, 3, usize::MAX, 1, MISSED)?;
    play_log(&rt, 1, usize::MAX, u64::MAX, GREATEST_OFFSET)?;
    play_log(&rt, 9, 20, 1, OF_TWENTY_BYTES)?;
    play_log(&rt, 9, 5, 1, OF_FIVE_BYTES)?;
    assert!(rt; PacketLog::new(rt.alloc(), usize::MAX, 1, 1).is_err());
    Ok(())
}

#[test]
fn sessions(rt: HostRuntime) {
    static ROWS: Rows = &[
        (Row::Save(5, 1_000), YES),
        (Row::Save(3, 2_000), YES),
        (Row::Save(5, 0), Err(RecoveryError::PidTaken)),
        (Row::Save(7, 0), Err(RecoveryError::TableFull)),
        (Row::Find(6, 121_000, 120_000), YES),
        (Row::Find(6, 121_001, 120_000), Err(RecoveryError::Expired)),
        (Row::Find(6, u64::MAX, u64::MAX), YES),
        (Row::HasSid(3, true), YES),
        (Row::HasSid(4, false), YES),
        (Row::List(&[4, 6]), YES),
        (Row::Sweep(121_000, 120_000, 0), YES),
        (Row::Sweep(121_001, 120_000, 1), YES),
        (Row::HasSid(5, false), YES),
        (Row::HasPid(4, true), YES),
        (Row::HasPid(6, false), YES),
        (Row::Remove(4), YES),
        (Row::Remove(4), Err(RecoveryError::UnknownPid)),
        (Row::Len(0), YES),
    ];
    play(&rt, &mut SavedTable::new(rt.alloc(), 2), ROWS);
}
