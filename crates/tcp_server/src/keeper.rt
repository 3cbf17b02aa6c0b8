//! The keeper: a peer that brings what the passing of time brings, for all clients.

ghost use Rattle.std.specs.Prelude.{◌≡◌, ◌<◌, ◌+◌, ◌-◌, ℕ, min, true, [], length, map, IfOk, slice_get, slice_index_or};
ghost use Rattle.loop_rules.specs.Notes.{is_noted};
ghost use Rattle.journal.specs.Totals.{totals};
ghost use Rattle.tcp_server.specs.Keeping as keeping;
ghost use Rattle.tcp_server.specs.Remarks as remarks;

use dispatch::Core;
use events::{Answered, CoreFault, Done, Event, Outcome, Peer, PeerFault};
use hub_gate::Locked;
use hub_totals::Pass;
use journal::Totals;
use loop_rules::{Notes, loop_of};
use metrics::{CoreCounts, Metrics, Reason, Sizes};
use peers::Moments;
use std::alloc::{AllocError, Global};
use std::mem;
use std::rt::Clock;
use std::sync::Wait;
use std::sync::ledger::Ledger;
use std::time::Duration;
use tcp_loops::{Base, Fate, Watch};
use tcp_streams::{Ending, Log, News, Shown};

/// How long a round is, in milliseconds: each client is asked once a round what is due to it.
const ROUND: u64 = 1_000;

/// How often in a round the journal is looked at.
const LOOKS: u64 = 10;

/// A journal with so many steps is sealed.
const STEPS: usize = 65_536;

/// And one whose entries hold so many bytes.
const BYTES: u64 = 67_108_864;

/// How often sums are told at the most, in milliseconds.
const MINUTE: u64 = 60_000;

/// A round of the keeper.
#[derive(Drop)]
struct Round {
    clients: Vec<u128>,
    /// How many were asked about; one more than there are once the hub was asked to sweep.
    asked: usize,
}

impl Round {
    /// A round of these clients that begins.
    fn of(clients: Vec<u128>) -> Round
        ensures { result ≡ record { clients = clients; asked = 0 } }
    {
        Round { clients, asked: 0 }
    }

    /// Whether all is asked.
    fn is_over(&self) -> bool
        ensures { result ≡ keeping.is_over self.now }
    {
        self.asked > self.clients.len()
    }

    /// What is asked of the next client; once all were asked about, the hub sweeps.
    fn ask(&mut self) -> Event
        ensures event { result
            ≡ keeping.event_of (slice_get self.old.clients.items self.old.asked) }
        ensures clients { self.new.clients ≡ self.old.clients }
        ensures asked { self.new.asked ≡ min (self.old.asked + 1) usize.MAX }
    {
        let client = self.clients.get(self.asked).copied();
        self.asked = self.asked.saturating_add(1);
        match client {
            Some(client) => Event::Tick { client },
            None => Event::Sweep,
        }
    }

    /// The client that was asked about last, if one was.
    fn client(&self) -> Option<u128>
        ensures { result ≡ slice_get self.now.clients.items (self.now.asked - 1) }
    {
        self.clients.get(self.asked.saturating_sub(1)).copied()
    }
}

/// Whether the client that was asked about has to be looked at.
fn has_news(ping: bool, done: &Done) -> bool
    ensures { result ≡ keeping.has_news ping done.now }
{
    ping || done.closed.is_some()
}

/// Whether nobody knows whom an event concerned: it failed, and not since its client was gone.
fn hides_whom(got: &Answered) -> bool
    ensures { result ≡ keeping.hides_whom got.now }
{
    matches!(got, Err(error) if !matches!(error.fault, CoreFault::UnknownClient))
}

/// Notes the clients of these lists, for which an event put something, each for its loop.
pub(crate) fn note_lists(notes: &mut Notes, lists: &[Vec<u128>], loops: usize)
    requires { 0 < loops }
    ensures kept { (n c : ℕ) → is_noted n c notes.old ≡ true → is_noted n c notes.new ≡ true }
    ensures noted { (k : ℕ) → k < length lists.now →
        keeping.AreNoted loops (slice_index_or (map (λ ids. ids.items) lists.now) k []) notes.new }
{
    for list in lists {
        note_all(notes, list.as_slice(), loops);
    }
}

/// Notes these clients, each for its loop.
fn note_all(notes: &mut Notes, clients: &[u128], loops: usize)
    requires { 0 < loops }
    ensures kept { (n c : ℕ) → is_noted n c notes.old ≡ true → is_noted n c notes.new ≡ true }
    ensures noted { keeping.AreNoted loops clients.now notes.new }
{
    for client in clients {
        notes.note(loop_of(*client, loops), *client);
    }
}

/// How much there is of what is told at most once a minute.
#[derive(Clone, Copy, Default)]
struct Sums {
    /// The events of clients that went to no backend.
    unheard: u64,
    /// The connections that were refused as those of addresses with many.
    crowded: u64,
}

/// What the log was told last, and when it is told more.
#[derive(Clone, Copy, Default)]
struct Remarks {
    /// The moment at which the totals are told next.
    report: u64,
    /// The moment from which on it may be told how much more there is.
    remark: u64,
    /// How much there was of each when that was told last.
    told: Sums,
}

/// How many more there are of what is counted than the log was told of, where it is to be told now.
fn more_to_tell(sum: u64, told: u64, now: u64, from: u64) -> Option<u64>
    ensures { result ≡ remarks.more_to_tell sum told now from }
{
    (sum > told && now >= from).then(|| sum - told)
}

impl Remarks {
    /// What the log is to be told now, and is taken for told from then on: how many more events of
    /// clients went to no backend, and how many more connections were refused.
    fn remark(&mut self, sums: Sums, now: u64) -> (Option<u64>, Option<u64>)
        ensures unheard { result.0 ≡ remarks.more_unheard sums now self.old }
        ensures crowded { result.1 ≡ remarks.more_crowded sums now self.old }
        ensures after { self.new ≡ remarks.after_remark sums now self.old }
    {
        let (told, from) = (self.told, self.remark);
        if now >= from && (sums.unheard > told.unheard || sums.crowded > told.crowded) {
            self.remark = now.saturating_add(MINUTE);
            self.told.unheard = sums.unheard.max(told.unheard);
            self.told.crowded = sums.crowded.max(told.crowded);
        }
        let unheard = more_to_tell(sums.unheard, told.unheard, now, from);
        (unheard, more_to_tell(sums.crowded, told.crowded, now, from))
    }

    /// Whether the log is to be told the totals now, where it is every so many seconds: they are
    /// taken for told then.
    fn report(&mut self, every: Option<u64>, now: u64) -> bool
        ensures reports { result ≡ remarks.reports every now self.old }
        ensures after { self.new ≡ remarks.after_report every now self.old }
    {
        match every {
            Some(pause) if now >= self.report => {
                self.report = now.saturating_add(pause.saturating_mul(1_000));
                true
            }
            _ => false,
        }
    }
}

/// What a core has counted so far, and what it holds, without what is the warden's, if there is
/// one.
fn counts_of<C: Ledger, T: Ledger>(core: &Core<C, T>, unheard: u64, has_warden: bool) -> CoreCounts
    ensures counted { let h = core.now.hub.history in
        result.totals ≡ totals h.base h.limits h.journal }
    ensures unheard { result.unheard ≡ unheard }
    ensures sizes { remarks.AreSizes core.now (remarks.own has_warden) result.sizes }
{
    let (state, own) = (core.hub().state(), u64::from(has_warden));
    let (sockets, rooms) = state.mirrors();
    CoreCounts {
        totals: state.totals(),
        unheard,
        sizes: Sizes {
            clients: (core.clients_len() as u64).saturating_sub(own),
            sockets: (sockets.len() as u64).saturating_sub(own),
            rooms: (rooms.len() as u64).saturating_sub(own),
            saved: state.saved_len() as u64,
            logged: state.log_len() as u64,
        },
    }
}

/// How often something was refused for a reason.
fn refused_for(reason: Reason, counts: &Metrics) -> u64
    ensures { result ≡ remarks.refused_for reason counts.now.refused.items }
{
    let refused = counts.refused.get(reason as usize);
    refused.map_or(0, |refused| refused.count)
}

/// Asks for each client what is due to it, has the hub sweep, and seals its journal.
#[derive(Drop)]
pub(crate) struct Keeper<'a, 'c, R, L, C: Ledger, T: Ledger> {
    base: &'a Base<'a, R, L>,
    watch: Watch<R>,
    locked: &'c Locked<C, T>,
    /// It counts nothing: with it the core is looked at.
    pass: Pass<C, T>,
    begun: bool,
    round: Round,
    /// The clients for which something was put, to be told once a round.
    notes: Notes,
    /// What the last event showed.
    shown: Shown,
    remarks: Remarks,
}

impl<'a, 'c, R: Wait + Clock + Copy, L: Log, C: Ledger, T: Ledger> Keeper<'a, 'c, R, L, C, T> {
    /// The first round is to come.
    pub(crate) fn new(
        base: &'a Base<'a, R, L>,
        locked: &'c Locked<C, T>,
        pass: Pass<C, T>,
    ) -> Result<Self, AllocError>
        ensures round { IfOk result (λ keeper. keeping.is_over keeper.round ≡ true) }
        ensures pass { IfOk result (λ keeper. keeper.pass ≡ pass) }
    {
        Ok(Keeper {
            base,
            watch: base.watch,
            locked,
            pass,
            begun: false,
            // One that is over, of nobody.
            round: Round {
                clients: Vec::new(base.alloc),
                asked: 1,
            },
            notes: Notes::new(base.alloc, base.rules.loops)?,
            shown: Shown::new(base.alloc),
            remarks: Remarks::default(),
        })
    }

    /// How much there is now of what is told at most once a minute.
    fn sums(&self) -> Sums {
        let (rt, shared) = (self.base.rt, self.base.shared);
        let backends = shared.backends.as_ref();
        let unheard = backends.map_or(0, |backends| backends.note_unheard(rt, 0));
        let counts = shared.counts.lock(rt);
        let crowded = refused_for(Reason::ManyFromAddress, &*counts);
        Sums { unheard, crowded }
    }

    /// Tells the core's counts to who may ask for them, and answers the totals.
    fn count(&mut self, unheard: u64) -> Totals {
        let base = self.base;
        let core = self.locked.look(base.rt, &mut self.pass);
        let counts = counts_of(&*core, unheard, base.rules.warding.is_some());
        drop(core);
        base.shared.counts.lock(base.rt).core = counts;
        counts.totals
    }

    /// Tells the core's counts where somebody may ask for them, and the log what it is to be told.
    fn tell(&mut self) {
        let (base, now, sums) = (self.base, self.watch.now(), self.sums());
        if self.remarks.report(base.rules.report, now) {
            base.log.tell(News::Totals(self.count(sums.unheard)));
        } else if base.rules.metrics.is_some() {
            let _ = self.count(sums.unheard);
        }
        let (unheard, crowded) = self.remarks.remark(sums, now);
        if let Some(count) = unheard {
            base.log.tell(News::Unheard(count));
        }
        if let Some(count) = crowded {
            base.log.tell(News::Crowded(count));
        }
    }

    /// Waits for the next round, and answers whether all loops have ended. Where the journal is
    /// long meanwhile, it is sealed.
    fn rest(&mut self) -> bool {
        let (base, part) = (self.base, Duration::from_millis(ROUND / LOOKS));
        base.send(&mut self.notes);
        for _ in 0..LOOKS {
            if base.shared.ended.wait_for(base.rt, base.rules.loops, part) {
                return true;
            }
            // A journal that can't be sealed for want of memory is sealed at the next look.
            let _ = self.locked.seal(base.rt, base.alloc, STEPS, BYTES);
        }
        false
    }
}

impl<R: Wait + Clock + Copy, L: Log, C: Ledger, T: Ledger> Peer for Keeper<'_, '_, R, L, C, T> {
    fn next(&mut self) -> Result<Option<(Event, u64)>, PeerFault> {
        if !mem::replace(&mut self.begun, true) {
            self.base.shared.begun.note(self.base.rt);
        }
        if self.round.is_over() {
            if self.rest() {
                return Ok(None);
            }
            self.tell();
            let alloc = self.base.alloc;
            let core = self.locked.look(self.base.rt, &mut self.pass);
            // Where there is no memory for the list, they are asked about in the next round.
            let clients = core.clients(alloc).unwrap_or(Vec::new(alloc));
            self.round = Round::of(clients);
        }
        Ok(Some((self.round.ask(), self.watch.now())))
    }

    fn answer(&mut self, got: &Answered) -> Result<(), PeerFault> {
        let (base, loops) = (self.base, self.base.rules.loops);
        base.take_shown(loops, &mut self.shown);
        // What was put before a fault isn't told, nor whether the client was given up.
        self.notes.everyone |= hides_whom(got);
        if let (Ok(Outcome::Ticked { ping, done }), Some(client)) = (got, self.round.client()) {
            if has_news(*ping, done) {
                self.notes.note(loop_of(client, loops), client);
            }
            if let Some(ending) = Ending::of(got) {
                base.note(client, Fate::Ended(ending), self.watch.now());
            }
            note_lists(&mut self.notes, done.clients.lists(), loops);
        }
        Ok(())
    }
}
