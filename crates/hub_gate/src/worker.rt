//! The one lock around a core, and the worker that serves its peers one after another: it holds the
//! lock for `Core::apply` alone, one event after another where a peer has them at hand.

ghost use Rattle.std.specs.Prelude.{◌≡◌, ◌+◌, ◌++◌, [], Option, IfOk, IfErr, IfNone, IfSome, option_map, option_to_list};
ghost use Rattle.std.specs.Sync.Mutex.{mutex_guard_value};
ghost use Rattle.std.specs.Vec.Iter.{into_iter_items};
ghost use Rattle.room_maps.specs.Mirror.{IsMirrored};
ghost use Rattle.journal.specs.Membership.{rooms};
ghost use Rattle.hub_totals.specs.Pass.{new_pass, AtLeast};
ghost use Rattle.events.specs.declared.fault.CoreFault.{CoreFault};
ghost use Rattle.events.specs.Answer.{at_once};
ghost use Rattle.hub_gate.specs.Facts.{IsOfCore, IsReady, IsSoundCore, Seals};
ghost use Rattle.hub_gate.specs.Turns.{Applied, ServesAll, Talks, TellsLost, WorksOff, desk, lost_by};

use dispatch::Core;
use events::{Answered, App, CoreError, CoreFault, Event, IdSource, Loss, Outcome, Peer, Retry};
use hub_totals::Pass;
use journal::{Epoch, HubError};
use room_maps::{RoomMap, SocketMap};
use std::alloc::Global;
use std::snapshot::Snapshot;
use std::sync::ledger::Ledger;
use std::sync::{Mutex, MutexGuard, Wait};
use std::vec::IntoIter;

/// A core under its lock. Each event is one `Core::apply` under it, and no other lock stands around
/// the state.
#[derive(Drop)]
pub struct Locked<C: Ledger, T: Ledger> {
    core: Mutex<Core<C, T>>,
}

/// What one turn at the core did: the core as it was lent, what was got of it, and the core as it
/// was given back. The cores are known to contracts alone, and take no bytes.
#[derive(Drop)]
pub struct Turn<C: Ledger, T: Ledger, X> {
    pub before: Snapshot<Core<C, T>>,
    pub got: X,
    pub after: Snapshot<Core<C, T>>,
}

/// What a seal did. It got the epoch, or `None` where the journal is short.
pub type Sealing<C, T> = Turn<C, T, Result<Option<Epoch>, CoreError>>;

impl<C: Ledger, T: Ledger> Locked<C, T> {
    /// Puts a core under its lock.
    pub fn new(core: Core<C, T>) -> Locked<C, T> {
        let core = Mutex::new(core);
        Locked { core }
    }

    /// The core without its lock.
    pub fn into_core(self) -> Core<C, T>
        ensures sound { IsSoundCore result }
    {
        let core = self.core.into_inner();
        note_facts(&core);
        core
    }

    /// Takes the lock and lends the core until the guard is dropped. It may wait.
    pub fn look<R: Wait>(&self, rt: &R, pass: &mut Pass<C, T>) -> MutexGuard<'_, Core<C, T>>
        ensures same { pass.new ≡ pass.old }
        ensures at_least { AtLeast (mutex_guard_value result).hub pass.old }
        ensures sound { IsSoundCore (mutex_guard_value result) }
    {
        let mut guard = self.core.lock(rt);
        guard.audit(pass);
        note_facts(&*guard);
        guard
    }

    /// Seals the core where its journal has at least so many steps, or these hold at least so many
    /// bytes. It may wait.
    pub fn seal<R: Wait>(&self, rt: &R, alloc: Global, least: usize, bytes: u64) -> Sealing<C, T>
        ensures seals { Seals least bytes result.before.value result.got result.after.value }
        ensures sound { IsSoundCore result.before.value }
        ensures epoch { IfOk result.got (λ got. IfSome got (λ epoch. IsOfCore least bytes epoch)) }
        ensures memory { IfErr result.got (λ e. e ≡ at_once CoreFault.Memory) }
    {
        let mut guard = self.core.lock(rt);
        note_facts(&*guard);
        let before = Snapshot::of(&*guard);
        let state = guard.hub().state();
        let got = if state.steps().len() < least && state.held() < bytes {
            Ok(None)
        } else {
            match guard.seal(alloc) {
                Ok(epoch) => Ok(Some(epoch)),
                Err(_) => Err(CoreFault::Memory.at_once()),
            }
        };
        let after = Snapshot::of(&*guard);
        Turn { before, got, after }
    }

    /// A pass that has counted nothing. Refused as `Spent` alone. It may wait.
    pub(crate) fn new_pass<R: Wait>(&self, rt: &R) -> Result<Pass<C, T>, HubError>
        ensures pass { IfOk result (λ pass. pass ≡ new_pass) }
        ensures spent { IfErr result (λ e. e ≡ HubError.Spent) }
    {
        let mut guard = self.core.lock(rt);
        guard.new_pass()
    }
}

/// The two maps of rooms that a core's hub keeps, and no others: the rooms of each connected
/// socket, and the sockets of each room. They mirror each other, and hold what the history says.
pub fn mirrors_of<C: Ledger, T: Ledger>(core: &Core<C, T>) -> (&SocketMap, &RoomMap)
    ensures { let h = core.now.hub.history in
        IsMirrored (rooms h.base h.journal) result.0.now result.1.now }
{
    core.hub().state().mirrors()
}

/// Changes nothing. It tells what every core keeps.
fn note_facts<C: Ledger, T: Ledger>(core: &Core<C, T>)
    ensures { IsSoundCore core.now }
{
    core.facts();
    core.hub().state().facts();
    let _maps = mirrors_of(core);
}

/// What waits at the gate of each event, with the number of the worker and of its turn. Before and
/// after it may wait, and the worker holds no lock then.
pub trait Turnstile {
    /// The worker has an event, and has not taken the lock yet.
    fn before(&self, _worker: usize, _turn: u64) {}

    /// The worker has applied the event, and still holds the lock.
    fn applied<C: Ledger, T: Ledger>(
        &self,
        worker: usize,
        core: &Core<C, T>,
        event: &Event,
        got: &Answered,
    );

    /// The worker has applied the event, and has given the lock back.
    fn after(&self, _worker: usize, _turn: u64) {}
}

/// A gate at which nobody waits.
#[derive(Drop)]
pub struct Open;

impl Turnstile for Open {
    fn applied<C: Ledger, T: Ledger>(
        &self,
        _worker: usize,
        _core: &Core<C, T>,
        _event: &Event,
        _got: &Answered,
    ) {}
}

/// Where a worker's peers come from.
pub trait PeerSource<P> {
    ghost next_gives: { Self → Option P → Self → Type 0 };

    /// The next peer, or `None` where no more come. It may wait.
    fn next_peer(&mut self) -> Option<P>
        ensures { next_gives self.old result self.new };
}

/// Peers that were dealt to one worker.
#[derive(Drop)]
pub struct Queue<P> {
    peers: IntoIter<P, Global>,
}

impl<P> Queue<P> {
    /// The peers come in this order.
    pub fn new(peers: Vec<P>) -> Queue<P>
        ensures { into_iter_items result.peers ≡ peers.items }
    {
        let peers = peers.into_iter();
        Queue { peers }
    }
}

impl<P> PeerSource<P> for Queue<P> {
    ghost next_gives = { λ s r t. (into_iter_items s.peers ≡ option_to_list r ++ into_iter_items t.peers)
        × IfNone r (into_iter_items s.peers ≡ []) };

    fn next_peer(&mut self) -> Option<P> {
        self.peers.next()
    }
}

/// What one worker did.
#[derive(Clone, Copy, Debug, PartialEq, Eq)]
pub struct WorkerCounts {
    /// The commands that its events had accepted.
    pub commands: u64,
    /// The entries that its events took.
    pub taken: u64,
    /// The peers that it was given. It stays at the greatest usize.
    pub peers: usize,
    /// The peers that failed, likewise.
    pub faults: usize,
}

/// Whom a fault that follows the event loses, with the event's moment: the client that the event is
/// of, or the one that was opened. A sweep is of none.
fn lost_after(event: &Event, got: &Answered, now: u64) -> Option<(u128, u64)>
    ensures { result ≡ option_map (λ c. (c, now)) (lost_by event.now got.now) }
{
    let opened = match got {
        Ok(Outcome::Opened(opening)) => Some(opening.client),
        _ => None,
    };
    Some((event.client().or(opened)?, now))
}

/// A core that is lent as long as its lock is held.
type Lent<'a, C, T> = MutexGuard<'a, Core<C, T>>;

/// What all workers of a pool share. It can be lent to any number of threads.
#[derive(Drop)]
pub struct Pool<'a, R, C: Ledger, T: Ledger, A, G> {
    pub rt: &'a R,
    pub alloc: Global,
    pub locked: &'a Locked<C, T>,
    pub app: &'a A,
    /// What waits at the gate of each event.
    pub gate: &'a G,
    /// How many events a peer may have.
    pub turns: u64,
}

impl<R: Wait, C: Ledger, T: Ledger, A: App, G: Turnstile> Pool<'_, R, C, T, A, G> {
    /// The core, by the lock that is held already, or else is taken now, before which the gate is told.
    /// It may wait.
    fn enter<'s>(
        &'s self,
        worker: usize,
        turn: u64,
        held: Option<Lent<'s, C, T>>,
        pass: &mut Pass<C, T>,
    ) -> Lent<'s, C, T>
        requires { IfSome held (λ lent. IsReady (mutex_guard_value lent) pass.old) }
        ensures same { pass.new ≡ pass.old }
        ensures ready { IsReady (mutex_guard_value result) pass.old }
    {
        if let Some(lent) = held {
            return lent;
        }
        self.gate.before(worker, turn);
        self.locked.look(self.rt, pass)
    }

    /// Keeps the lock for the next event, or gives it back, of which the gate is told.
    fn leave<'s>(
        &self,
        worker: usize,
        turn: u64,
        lent: Lent<'s, C, T>,
        keeps: bool,
    ) -> Option<Lent<'s, C, T>>
        ensures { IfSome result (λ kept. kept ≡ lent.entry) }
    {
        if keeps {
            return Some(lent);
        }
        drop(lent);
        self.gate.after(worker, turn);
        None
    }

    /// Applies one event to the core that is lent, and has the gate look at what it did.
    fn apply<I: IdSource>(
        &self,
        worker: usize,
        lent: &mut Lent<'_, C, T>,
        pass: &mut Pass<C, T>,
        event: &Event,
        now: u64,
        ids: &mut I,
    ) -> Turn<C, T, Answered>
        requires { IsReady (mutex_guard_value lent.old) pass.old }
        ensures applied { Applied (A.policy self.now.app.now) event.now now
            result.before.value (desk pass.old (I.stream ids.old)) result.got
            result.after.value (desk pass.new (I.stream ids.new)) }
        ensures before { result.before.value ≡ mutex_guard_value lent.old }
        ensures after { mutex_guard_value lent.new ≡ result.after.value }
    {
        let core = &mut **lent;
        let before = Snapshot::of(core);
        let got = core.apply(self.alloc, pass, self.app, event, now, ids);
        self.gate.applied(worker, core, event, &got);
        core.audit(pass);
        note_facts(core);
        let after = Snapshot::of(core);
        Turn { before, got, after }
    }

    /// Tells the core that a client is lost, up to three times until it accepts that.
    fn lose<I: IdSource>(
        &self,
        worker: usize,
        pass: &mut Pass<C, T>,
        client: u128,
        now: u64,
        ids: &mut I,
    )
        ensures { TellsLost (A.policy self.now.app.now) client now
            (desk pass.old (I.stream ids.old)) (desk pass.new (I.stream ids.new)) }
    {
        let mut loss = Loss::new(client);
        'tries: loop {
            let mut lent = self.locked.look(self.rt, pass);
            let told = self.apply(worker, &mut lent, pass, &loss.event(), now, ids);
            drop(lent);
            match loss.hears(&told.got) {
                Retry::Again => {}
                Retry::Over => return,
            }
        }
    }

    /// Serves a peer until it ends: whether it failed, and the client of its last event with its
    /// moment. The lock is kept for events that the peer has at hand. The gate is told before it is taken
    /// and after it is given back.
    fn talk<P: Peer, I: IdSource>(
        &self,
        pass: &mut Pass<C, T>,
        peer: &mut P,
        worker: usize,
        turn: &mut u64,
        ids: &mut I,
    ) -> (bool, Option<(u128, u64)>)
        ensures { Talks P.gives P.hears (A.policy self.now.app.now)
            self.now.turns (peer.old, desk pass.old (I.stream ids.old)) result.0 result.1
            (peer.new, desk pass.new (I.stream ids.new)) }
    {
        let (mut lost, mut held) = (None, None);
        'turns: for _ in 0..self.turns {
            let Ok(given) = peer.next() else {
                return (true, lost);
            };
            let Some((event, now)) = given else {
                return (false, lost);
            };
            let mut lent = self.enter(worker, *turn, held, pass);
            let done = self.apply(worker, &mut lent, pass, &event, now, ids);
            held = self.leave(worker, *turn, lent, peer.has_next());
            *turn = turn.saturating_add(1);
            lost = lost_after(&event, &done.got, now);
            if peer.hear(done.got).is_err() {
                return (true, lost);
            }
        }
        (true, lost)
    }

    /// Serves a peer to its end, and says whether it failed. Then the core is told that its client
    /// is lost, where there is one.
    fn serve_peer<P: Peer, I: IdSource>(
        &self,
        pass: &mut Pass<C, T>,
        peer: &mut P,
        worker: usize,
        turn: &mut u64,
        ids: &mut I,
    ) -> bool
        ensures { ServesAll P.gives P.hears (A.policy self.now.app.now)
            self.now.turns (peer.old, desk pass.old (I.stream ids.old)) result
            (peer.new, desk pass.new (I.stream ids.new)) }
    {
        let (failed, lost) = self.talk(pass, peer, worker, turn, ids);
        if failed && let Some((client, now)) = lost {
            self.lose(worker, pass, client, now, ids);
        }
        failed
    }
}

/// Serves peers until no more come, and gives the pass back with what it did. Each peer has at most
/// the pool's `turns` events; one that has more, or that fails, is a fault, after which the client
/// of its last event is lost. It may wait.
#[tactic(auto, using(crate::proofs::Growth::grows_trans, crate::proofs::Growth::grows_self))]
pub fn run_worker<
    R: Wait,
    C: Ledger,
    T: Ledger,
    A: App,
    P: Peer + Drop,
    S: PeerSource<P>,
    G: Turnstile,
    I: IdSource,
>(
    pool: &Pool<R, C, T, A, G>,
    mut pass: Pass<C, T>,
    peers: &mut S,
    worker: usize,
    ids: &mut I,
) -> (Pass<C, T>, WorkerCounts)
    ensures commands { result.1.commands + pass.commands ≡ result.0.commands }
    ensures taken { result.1.taken + pass.taken ≡ result.0.taken }
    ensures parts { result.0.parts ≡ pass.parts }
    ensures work { WorksOff S.next_gives P.gives P.hears (A.policy pool.now.app.now)
        pool.now.turns peers.old (desk pass (I.stream ids.old))
        result.1.peers result.1.faults (desk result.0 (I.stream ids.new)) }
{
    let (commands, taken) = (pass.commands(), pass.taken());
    let mut turn = 0;
    let (mut served, mut faults) = (0usize, 0usize);
    'peers: for _ in pool.rt.forever() {
        let Some(mut peer) = peers.next_peer() else {
            break;
        };
        served = served.saturating_add(1);
        if pool.serve_peer(&mut pass, &mut peer, worker, &mut turn, ids) {
            faults = faults.saturating_add(1);
        }
    }
    let counts = WorkerCounts {
        commands: pass.commands() - commands,
        taken: pass.taken() - taken,
        peers: served,
        faults,
    };
    (pass, counts)
}
