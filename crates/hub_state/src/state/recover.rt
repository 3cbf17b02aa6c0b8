//! Saved sessions come back, with what they have missed (Socket.IO server documentation,
//! "Connection state recovery").

ghost use Rattle.std.specs.Prelude.{◌≡◌, ◌+◌, ◌≤◌, ◌||◌, true, ◌++◌, length, map, filter, nat_lt, OnOk, IfSome, IfNone, ℕ, ◌^◌, ◌<◌, false, IfOk, IfErr, OnErr, None, Some, is_some, nat_eq};
ghost use Rattle.std.specs.Arc.{arc_value};
ghost use Rattle.recovery.specs.Missed.{is_for};
ghost use Rattle.journal.specs.Outboxes.{total_size, waiting};
ghost use Rattle.journal.specs.Recovery.{gets, brought_back, with_entries};
ghost use Rattle.hub_state.specs.Recovering.{gets_back, recovery_asked, recover_refusal_of, puts_again};
ghost use Rattle.std.specs.HashMap.{get};
ghost use Rattle.recovery.specs.PacketLog.{later_than};
ghost use Rattle.terms.specs.Entry.{entry_size};
ghost use Rattle.journal.specs.Journal.{moment_at};
ghost use Rattle.journal.specs.Membership.{place_of};
ghost use Rattle.journal.specs.Sessions.{session_with};
ghost use Rattle.journal.specs.Refusals.{have_no_space, recovered_entries};
ghost use Rattle.journal.specs.Legal.{RightRecovery};
ghost use Rattle.journal.specs.Command.{refusal, Does};
ghost use Rattle.journal.specs.declared.step.What.{What};
ghost use Rattle.hub_state.specs.Changes.{ChangesClient, SameClients, MakesStep};
ghost use Rattle.hub_state.specs.Words.{opened, waits, logs, saves, answer_at, AllHear};

use crate::client::{Clients, Outbox, free_after};
use crate::state::connect::seat;
use crate::state::deliver::take_back;
use crate::state::{NONE, Result, State};
use journal::{Counts, HubError, Recovery, RecoveryRefusal, Socket, What};
use recovery::{Logged, Pid, Saved};
use std::alloc::{AllocError, Global};
use std::sync::Arc;
use terms::{Entry, Room, Sid};

/// A saved session that may come back, and what the log has past the offset that its client named,
/// in two pieces.
#[derive(Clone, Copy)]
pub(crate) struct FoundSession<'a> {
    pub(crate) session: &'a Saved,
    pub(crate) front: &'a [Logged],
    pub(crate) back: &'a [Logged],
}

impl FoundSession<'_> {
    /// How many of the broadcasts the session gets, where places and bytes are enough for them.
    pub(crate) fn count(self, places: usize, bytes: usize) -> Option<usize>
        ensures number { IfSome result (λ number. number ≡ length (gets_back self.entry)) }
        ensures places { IfSome result (λ number. number ≤ places) }
        ensures bytes { IfSome result (λ number. total_size (gets_back self.entry) ≤ bytes) }
        ensures none { let puts = gets_back self.entry in IfNone result
            ((nat_lt places (length puts) || nat_lt bytes (total_size puts)) ≡ true) }
    {
        let FoundSession {
            session,
            front,
            back,
        } = self;
        let first = left_after(front, session.space, &session.rooms, places, bytes)?;
        let last = left_after(back, session.space, &session.rooms, first.0, first.1)?;
        Some(places - last.0)
    }
}

/// What is left of the places and bytes once a socket has what it gets of the broadcasts.
fn left_after(
    broadcasts: &[Logged],
    space: u16,
    rooms: &[Room],
    places: usize,
    bytes: usize,
) -> Option<(usize, usize)>
    ensures places { let puts = gets space rooms.now broadcasts.now
        in IfSome result (λ left. left.0 + length puts ≡ places) }
    ensures bytes { let puts = gets space rooms.now broadcasts.now
        in IfSome result (λ left. left.1 + total_size puts ≡ bytes) }
    ensures none { let puts = gets space rooms.now broadcasts.now
        in IfNone result ((nat_lt places (length puts) || nat_lt bytes (total_size puts)) ≡ true) }
{
    let mut left = (places, bytes);
    for logged in broadcasts {
        if logged.is_for(space, rooms) {
            let free = free_after(left.1, &logged.entry)?;
            left = (left.0.checked_sub(1)?, free);
        }
    }
    Some(left)
}

/// Adds what a socket gets of the broadcasts, and their offsets, to two lists.
pub(crate) fn add_missed(
    broadcasts: &[Logged],
    space: u16,
    rooms: &[Room],
    entries: &mut Vec<Arc<Entry>>,
    offsets: &mut Vec<u64>,
) -> Result<(), AllocError>
    ensures entries { OnOk result (map arc_value entries.new.items
        ≡ map arc_value entries.old.items ++ gets space rooms.now broadcasts.now) }
    ensures offsets { OnOk result (offsets.new.items ≡ offsets.old.items
        ++ map (λ entry. entry.offset) (filter (is_for space rooms.now) broadcasts.now)) }
{
    for logged in broadcasts {
        if logged.is_for(space, rooms) {
            entries.push(Arc::try_clone(&logged.entry)?)?;
            offsets.push(logged.offset)?;
        }
    }
    Ok(())
}

/// Puts entries at the end of an outbox, or where memory is refused in the middle none.
fn push_all(outbox: &mut Outbox, entries: Vec<Arc<Entry>>) -> Result<(), AllocError>
    requires places { length outbox.old.waiting + length entries.items ≤ outbox.old.capacity }
    requires bytes { let puts = map arc_value entries.items
        in total_size outbox.old.waiting + total_size puts ≤ outbox.old.bytes }
    ensures ok { let puts = map arc_value entries.items
        in OnOk result (outbox.new ≡ record outbox.old { waiting = outbox.old.waiting ++ puts }) }
    ensures err { OnErr result (outbox.new ≡ outbox.old) }
{
    let waited = outbox.len();
    for entry in entries {
        if let Err(refusal) = outbox.push(entry) {
            outbox.pop_last(outbox.len() - waited);
            return Err(refusal);
        }
    }
    Ok(())
}

/// Puts entries at the end of a client's outbox, or where memory is refused none.
fn put_all(clients: &mut Clients, client: u128, entries: Vec<Arc<Entry>>) -> Result<(), AllocError>
    requires places { IfSome (get nat_eq clients.old client) (λ known.
        length known.outbox.waiting + length entries.items ≤ known.outbox.capacity) }
    requires bytes { let puts = map arc_value entries.items
        in IfSome (get nat_eq clients.old client) (λ known.
        total_size known.outbox.waiting + total_size puts ≤ known.outbox.bytes) }
    ensures ok { let puts = map arc_value entries.items
        in OnOk result (ChangesClient (with_entries puts) client clients.old clients.new) }
    ensures err { OnErr result (SameClients clients.old clients.new) }
{
    if let Some(known) = clients.get_mut(&client) {
        push_all(&mut known.outbox, entries)?;
    }
    Ok(())
}

impl State {
    /// How many entries and bytes are free in an open client's outbox beside a CONNECT's answer.
    fn free_beside_answer(&self, client: u128, place: usize) -> Option<(usize, usize)>
        requires { opened self.now client ≡ true }
        ensures places { let h = self.now in IfSome result (λ free.
            free.0 + 1 + length (waits h client) ≡ h.limits.capacity) }
        ensures small { IfSome result (λ free. free.0 + 1 < 2 ^ 64) }
        ensures bytes { let h = self.now in IfSome result (λ free. (c sid pid : ℕ)
            → free.1 + entry_size (answer_at h c place sid pid) + total_size (waits h client)
            ≡ h.limits.bytes) }
        ensures none { let h = self.now in IfNone result ((c sid pid : ℕ)
            → let size = entry_size (answer_at h c place sid pid)
            in (nat_lt h.limits.capacity (length (waits h client) + 1)
            || nat_lt h.limits.bytes (total_size (waits h client) + size)) ≡ true) }
    {
        let waits = self.waiting(client)?;
        let used = self.waiting_bytes(client)?;
        let size = self.answer_size(place);
        let config = self.limits.config();
        let places = config.capacity.checked_sub(waits)?.checked_sub(1)?;
        let bytes = config.bytes.checked_sub(used)?.checked_sub(size)?;
        Some((places, bytes))
    }

    /// How many entries the recovery of a session puts for an open client, if all have a place.
    fn put_count(&self, client: u128, found: FoundSession, offset: u64) -> Option<u64>
        requires open { opened self.now client ≡ true }
        requires later { found.front.now ++ found.back.now ≡ later_than offset (logs self.now) }
        ensures count { IfSome result (λ puts.
            length (puts_again self.now client found.entry.session.now offset) ≡ puts) }
        ensures place { let puts = puts_again self.now client found.entry.session.now offset
            in IfSome result (λ _.
            have_no_space self.now.limits (waits self.now client) puts ≡ false) }
        ensures none { let puts = puts_again self.now client found.entry.session.now offset
            in IfNone result (have_no_space self.now.limits (waits self.now client) puts ≡ true) }
    {
        // The prover needs that the log's offsets rise: so each names one of its entries.
        self.facts();
        let session = found.session;
        let free = self.free_beside_answer(client, usize::from(session.space))?;
        let missed = found.count(free.0, free.1)?;
        Some(missed as u64 + 1)
    }

    /// The session that is to come back, with what the log has past the offset, or why it can't
    /// come back.
    fn returning(
        &self,
        client: u128,
        space: &str,
        pid: Pid,
        offset: u64,
        at: u64,
    ) -> Result<FoundSession<'_>>
        ensures session { IfOk result (λ found.
            session_with pid (saves self.now) ≡ Some found.session.now) }
        ensures later { IfOk result (λ found.
            found.front.now ++ found.back.now ≡ later_than offset (logs self.now)) }
        ensures accepted { let place = place_of self.now.limits space.now in IfOk result (λ _.
            recover_refusal_of self.now client place pid offset at ≡ None) }
        ensures refused { let place = place_of self.now.limits space.now in IfErr result (λ e.
            recover_refusal_of self.now client place pid offset at ≡ Some e) }
    {
        if !self.is_open(client) {
            return Err(HubError::UnknownClient);
        }
        let space = self.place_of(space)?;
        let place = usize::from(space);
        if self.socket_at(client, place).is_some() {
            return Err(HubError::AlreadyConnected);
        }
        let Some(session) = self.saved.look_up(pid) else {
            return Err(HubError::NotRecoverable(RecoveryRefusal::UnknownPid));
        };
        if session.space != space {
            return Err(HubError::NotRecoverable(RecoveryRefusal::UnknownPid));
        }
        if session.is_outdated(self.limits.config().keep, at) {
            return Err(HubError::NotRecoverable(RecoveryRefusal::Expired));
        }
        let Some((front, back)) = self.log.later(offset) else {
            return Err(HubError::NotRecoverable(RecoveryRefusal::OffsetGone));
        };
        let found = FoundSession {
            session,
            front,
            back,
        };
        let Some(puts) = self.put_count(client, found, offset) else {
            return Err(HubError::OutboxFull);
        };
        self.may_count(puts, 0)?;
        Ok(found)
    }

    /// The recovery of a session at a client, and what it puts: the answer to the CONNECT, and then
    /// what the session has missed.
    fn what_returns(
        &self,
        alloc: Global,
        client: u128,
        found: FoundSession,
        offset: u64,
    ) -> Result<(Recovery, Vec<Arc<Entry>>), AllocError>
        requires { found.front.now ++ found.back.now ≡ later_than offset (logs self.now) }
        ensures recovery { let s = found.entry.session.now in IfOk result (λ both.
            both.0 ≡ brought_back client s.space s.pid offset (logs self.now) s) }
        ensures puts { IfOk result (λ both. map arc_value both.1.items
            ≡ puts_again self.now client found.entry.session.now offset) }
    {
        // The prover needs that the log's offsets rise: so each names one of its entries.
        self.facts();
        let session = found.session;
        let (space, sid, pid) = (session.space, session.sid, session.pid);
        let rooms = Vec::from_slice(alloc, &session.rooms)?;
        let answer = self.answer(alloc, usize::from(space), sid, pid)?;
        let mut puts = Vec::new(alloc);
        puts.push(answer)?;
        let mut missed = Vec::new(alloc);
        add_missed(found.front, space, &rooms, &mut puts, &mut missed)?;
        add_missed(found.back, space, &rooms, &mut puts, &mut missed)?;
        let socket = Socket {
            client,
            space,
            sid,
            pid,
        };
        let recovery = Recovery {
            socket,
            offset,
            rooms,
            missed,
        };
        Ok((recovery, puts))
    }

    /// Brings back a session that may come back, and gives its session id.
    fn bring_back(
        &mut self,
        alloc: Global,
        recovery: Recovery,
        puts: Vec<Arc<Entry>>,
        now: u64,
    ) -> Result<Sid>
        requires accepted { let at = moment_at self.old now
            in None ≡ refusal self.old at (What.Recovered recovery) }
        requires right { RightRecovery self.old.base self.old.limits self.old.journal recovery }
        requires puts { let h = self.old in map arc_value puts.items ≡ recovered_entries
            h.base h.limits h.journal recovery.socket recovery.offset recovery.rooms }
        ensures sid { IfOk result (λ sid. sid ≡ recovery.socket.sid) }
        ensures does { MakesStep self.old self.new now (What.Recovered recovery) result }
    {
        let count = puts.len();
        let socket = recovery.socket;
        let (client, sid, pid) = (socket.client, socket.sid, socket.pid);
        let (clients, live) = (&mut self.clients, &mut self.live);
        self.records.steps.reserve()?;
        put_all(clients, client, puts)?;
        if let Err(AllocError) = seat(alloc, clients, live, &socket, &recovery.rooms) {
            take_back(clients, client, count);
            return Err(HubError::Memory);
        }
        let placed = count as u64;
        let _session = self.saved.remove(pid);
        let added = Counts { placed, ..NONE };
        self.records.add(now, What::Recovered(recovery), added);
        Ok(sid)
    }

    /// Brings a saved session back at a client: its socket is connected with the ids and rooms that
    /// it had, and is saved no more. The answer to the CONNECT is put, and then the broadcasts that
    /// it has missed past this offset, whose data is shared with the log. It gives the session id.
    /// Refused as `UnknownClient`, `UnknownNamespace`, `AlreadyConnected`, `NotRecoverable` with
    /// `UnknownPid`, `Expired` or `OffsetGone`, `OutboxFull`, `Spent`, then for `Memory`. It takes
    /// the logarithm of the sockets, namespaces and saved sessions, walks what the log has
    /// past the offset twice, first to see whether there is space for all, then to share it, and
    /// each of the session's rooms takes the logarithm of the sockets and of the rooms.
    ///
    /// After it, accepted or refused, each connected session, so also the one that came back, has
    /// heard just the journal's logged broadcasts that are due to it, as `facts` says.
    pub fn recover(
        &mut self,
        alloc: Global,
        client: u128,
        space: &str,
        pid: Pid,
        offset: u64,
        now: u64,
    ) -> Result<Sid>
        ensures sid { let r = recovery_asked client space.now pid offset self.old
            in IfOk result (λ sid. sid ≡ r.socket.sid) }
        ensures does { let r = recovery_asked client space.now pid offset self.old
            in Does self.old self.new now (What.Recovered r) result }
        ensures continuity { AllHear self.new }
    {
        // The prover needs what holds of every hub, before and after.
        self.facts();
        let at = now.max(self.records.last);
        let found = self.returning(client, space, pid, offset, at)?;
        let (recovery, puts) = self.what_returns(alloc, client, found, offset)?;
        let back = self.bring_back(alloc, recovery, puts, now);
        self.facts();
        back
    }
}
