//! A server, from its listening to its totals.

ghost use Rattle.std.specs.Prelude.{◌≡◌, ◌+◌, None, Err, IfOk, IfSome, OnOk, sum_by};
ghost use Rattle.std.specs.Arc.{arc_value};
ghost use Rattle.hub_totals.specs.Pass.{IsBlankOf};
ghost use Rattle.settings.specs.Wrong.{wrong_setting};
ghost use Rattle.tcp_server.specs.Faults.{fault_of_core, fault_of_serving};
ghost use Rattle.tcp_streams.specs.declared.fault.ServerFault.TheVariants.{BadSetting};

use crate::gate::Gate;
use crate::keeper::Keeper;
use crate::warden::Warden;
use dispatch::Core;
use events::{App, CoreFault, Peer};
use hub_gate::{Locked, Pool, Report, ServeError, serve_peers};
use hub_totals::Pass;
use journal::Config;
use settings::{Setting, Settings};
use std::alloc::{AllocError, Global};
use std::marker::Brand;
use std::net::Net;
use std::random::RandomSource;
use std::rt::Clock;
use std::sync::ledger::{Blank, Ledger};
use std::sync::{Arc, Mutex, Wait};
use std::thread::Threads;
use std::time::Instant;
use tcp_loops::{Base, Watch, Worker, sources, start_accepting, workers_for};
use tcp_streams::{
    Acceptor, Ears, Log, Rules, ServerFault, Shared, acceptor_for, backends_for, ears_for,
};
use terms::let_go;

/// How many threads may count what they do.
const PARTS: u64 = 65_536;

/// A server that listens. Where it is dropped, it listens no more.
pub struct Server<L> {
    log: L,
    port: u16,
    acceptor: Box<Acceptor>,
    ears: Vec<Ears>,
    shared: Arc<Shared>,
    rules: Box<Rules>,
    hub: Box<Config>,
}

/// Written out, so that a crate above takes the drop of all that lies in it by this one call.
impl<L: Drop> Drop for Server<L> {
    fn drop(self) {
        let_go!(self; log, port, acceptor, ears, shared, rules, hub);
    }
}

impl<L: Log + Sync + Drop> Server<L> {
    ghost use Rattle.tcp_server.specs.Servers.{port, shared_by};

    /// Begins to listen. The log is told of what happens.
    pub fn listen<R: Net>(
        rt: &R,
        alloc: Global,
        settings: Settings,
        log: L,
    ) -> Result<Server<L>, ServerFault>
        ensures right { OnOk result (wrong_setting settings ≡ None) }
        ensures wrong { IfSome (wrong_setting settings)
            (λ setting. result ≡ Err (BadSetting setting)) }
    {
        if let Some(setting) = settings.wrong() {
            return Err(ServerFault::BadSetting(setting));
        }
        let (port, acceptor, bell) = acceptor_for(rt, alloc, &settings)?;
        let (ears, inboxes) = ears_for(rt, alloc, settings.workers)?;
        let backends = backends_for(alloc, &settings)?;
        let (hears, most) = (log.hears_clients(), settings.connections_from);
        let shared = Shared::new(alloc, inboxes, bell, backends, hears, most)?;
        let (rules, hub) = Rules::with_limits(alloc, settings)?;
        Ok(Server {
            log,
            port,
            acceptor,
            ears,
            shared,
            rules,
            hub,
        })
    }

    /// The port at which it listens: where the settings name port 0, one that the system chose.
    pub fn port(&self) -> u16
        ensures { result ≡ port self.now }
    {
        self.port
    }

    /// What all threads share, by which the server can be stopped.
    pub fn shared(&self) -> Result<Arc<Shared>, ServerFault>
        ensures { IfOk result (λ shared. arc_value shared ≡ shared_by self.now) }
    {
        Ok(Arc::try_clone(&self.shared)?)
    }

    /// Serves until it is stopped, or had as many connections as it was to have; then all threads
    /// have ended, and their counts add up to the hub's totals. The last workers are the keeper,
    /// and the warden, if there is one.
    pub fn run<
        R: Threads + Wait + Clock + RandomSource + Copy + Drop + Sync + Send + 'static,
        A: App + Sync,
    >(self, rt: &R, alloc: Global, app: &A) -> Result<Report, ServerFault>
        ensures commands { IfOk result (λ r.
            r.totals.commands ≡ sum_by (λ w. w.commands) r.workers.items) }
        ensures taken { IfOk result (λ r.
            r.totals.taken ≡ sum_by (λ w. w.taken) r.workers.items) }
    {
        let Server {
            log,
            port: _,
            acceptor,
            ears,
            shared,
            rules,
            hub,
        } = self;
        let base = Base {
            rt,
            alloc,
            log: &log,
            shared: &shared,
            rules: &*rules,
            watch: Watch::new(*rt, Instant::now(rt)?),
        };
        let (commands, taken) = (Blank::new(PARTS), Blank::new(PARTS));
        run_in::<Brand, Brand, R, L, A>(&base, app, acceptor, ears, hub, commands, taken)
    }
}

/// Serves over a new core, whose ledgers have no other: accepts, and serves by a loop with each of
/// these ears, by the keeper and by the warden, if there is one, until all have ended.
fn run_in<
    'a,
    C: Ledger + Send + Sync,
    T: Ledger + Send + Sync,
    R: Threads + Wait + Clock + RandomSource + Copy + Drop + Sync + Send + 'static,
    L: Log + Sync,
    A: App + Sync,
>(
    base: &'a Base<'a, R, L>,
    app: &'a A,
    acceptor: Box<Acceptor>,
    ears: Vec<Ears>,
    hub: Box<Config>,
    commands: Blank,
    taken: Blank,
) -> Result<Report, ServerFault>
    requires commands { IsBlankOf C.name C.parts commands }
    requires taken { IsBlankOf T.name T.parts taken }
    ensures commands { IfOk result (λ r.
        r.totals.commands ≡ sum_by (λ w. w.commands) r.workers.items) }
    ensures taken { IfOk result (λ r.
        r.totals.taken ≡ sum_by (λ w. w.taken) r.workers.items) }
{
    let (locked, pass, looks) = lock_core::<C, T>(base.alloc, hub, base.rules, commands, taken)?;
    let mut workers = workers_for(base, ears, Keeper::new(base, &*locked, looks)?)?;
    if let Some(warding) = &base.rules.warding {
        workers.push(Worker::Wards(Warden::new(base, warding)?))?;
    }
    serve_all(base, app, &*locked, pass, acceptor, workers)
}

/// Why a server fails whose workers couldn't be served.
fn fault_of_serving(error: &ServeError) -> ServerFault
    ensures { result ≡ fault_of_serving error.now }
{
    match error {
        ServeError::Memory => ServerFault::Memory(AllocError),
        ServeError::NotAll(_) => ServerFault::Books,
        _ => ServerFault::Starting,
    }
}

/// Why a server fails whose core couldn't be made.
fn fault_of_core(fault: CoreFault) -> ServerFault
    ensures { result ≡ fault_of_core fault }
{
    match fault {
        CoreFault::Memory => ServerFault::Memory(AllocError),
        _ => ServerFault::BadSetting(Setting::Limits),
    }
}

/// Accepts, and serves by these workers, until all have ended.
fn serve_all<
    'a,
    C: Ledger + Send + Sync,
    T: Ledger + Send + Sync,
    R: Threads + Wait + Clock + RandomSource + Copy + Drop + Sync + Send + 'static,
    L: Log + Sync,
    A: App + Sync,
    P: Peer + Send + Drop,
>(
    base: &'a Base<'a, R, L>,
    app: &A,
    locked: &Locked<C, T>,
    mut pass: Pass<C, T>,
    acceptor: Box<Acceptor>,
    workers: Vec<P>,
) -> Result<Report, ServerFault>
    ensures commands { IfOk result (λ r.
        r.totals.commands ≡ pass.commands + sum_by (λ w. w.commands) r.workers.items) }
    ensures taken { IfOk result (λ r.
        r.totals.taken ≡ pass.taken + sum_by (λ w. w.taken) r.workers.items) }
{
    let number = workers.len();
    let ids = sources(base.rt, base.alloc, number)?;
    let accepting = start_accepting(base, acceptor)?;
    let pressed = Mutex::new(Vec::new(base.alloc));
    let pool = Pool {
        rt: base.rt,
        alloc: base.alloc,
        locked,
        app,
        gate: &Gate { base, pressed },
        turns: u64::MAX,
    };
    let served = serve_peers(&pool, &mut pass, workers, number, ids);
    base.shared.stop_accepting(base.rt);
    accepting.join(base.rt);
    match served {
        Ok(settled) => Ok(settled.report),
        Err(error) => Err(fault_of_serving(&error)),
    }
}

/// A core without clients under its lock, its pass, and one more, with which it is looked at.
fn lock_core<C: Ledger, T: Ledger>(
    alloc: Global,
    hub: Box<Config>,
    rules: &Rules,
    commands: Blank,
    taken: Blank,
) -> Result<(Box<Locked<C, T>>, Pass<C, T>, Pass<C, T>), ServerFault>
    requires commands { IsBlankOf C.name C.parts commands }
    requires taken { IsBlankOf T.name T.parts taken }
    ensures pass { IfOk result (λ made. made.1 ≡ record { commands = 0; taken = 0; parts = 1 }) }
{
    let hub = Box::into_inner(hub);
    let made = Core::new(alloc, hub, rules.timing, rules.numbers, commands, taken);
    let (mut core, pass) = match made {
        Ok(made) => made,
        Err(error) => return Err(fault_of_core(error.fault)),
    };
    let looks = core.new_pass().map_err(|_| ServerFault::Starting)?;
    Ok((Box::new(alloc, Locked::new(core))?, pass, looks))
}
