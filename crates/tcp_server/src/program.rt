//! A server as a program: it tells where it listens, serves any app, and tells what it did and how
//! it ended; and what a program asks of the system it runs on.

ghost use Rattle.std.specs.Prelude.{◌≡◌, ℕ, ◌<◌, ◌≤◌, None, OnOk, IfOk};
ghost use Rattle.std.specs.Result.{result_unwrap_or};
ghost use Rattle.settings.specs.Wrong.{wrong_setting};
ghost use Rattle.tcp_server.specs.Telling as telling;
ghost use Rattle.terms.specs.Ids.{id_digits};

use crate::server::Server;
use events::App;
use rand::rngs::StdRng;
use rand::{Rng, make_rng};
use settings::Settings;
use std::alloc::Global;
use std::fmt::Display;
use std::net::Net;
use std::process::ExitCode;
use std::random::RandomSource;
use std::rt::Clock;
use std::sync::{Arc, Wait};
use std::thread::Threads;
use std::time::{Duration, SystemTime, UNIX_EPOCH};
use std::{io, thread};
use tcp_streams::{Ending, Log, News, ServerFault, Shared};
use terms::{Text, ascii_text, id_text};

/// How long what is open may take to end once standard input has ended, in milliseconds.
const GRACE: u64 = 5_000;

/// The most threads that serve where nobody says how many.
const MOST_WORKERS: usize = 8;

/// Tells standard error of a server. Where that fails, nothing is told.
#[derive(Drop)]
pub struct ErrorLog<R> {
    pub rt: R,
    /// Whether the end of each client is told, and what went to no backend.
    pub verbose: bool,
}

/// The transport over which a client spoke last.
fn transport_name(socket: bool) -> &'static str
    ensures { result.now ≡ telling.transport_name socket }
{
    if socket { "websocket" } else { "polling" }
}

/// How a client ended, in words, and its cause, if it was closed for one.
fn words_of(ending: Ending) -> (&'static str, &'static str)
    ensures words { result.0.now ≡ telling.ending_words ending }
    ensures cause { result.1.now ≡ telling.ending_cause ending }
{
    match ending {
        Ending::Closed(cause) => ("closed: ", cause.name()),
        Ending::Saved => ("lost", ""),
        Ending::Unsaved => ("lost, not saved", ""),
        Ending::Gone => ("gone", ""),
    }
}

/// Whether this is told: all, or just the totals, and that the warden lost its client.
fn is_told(verbose: bool, news: News) -> bool
    ensures { result ≡ telling.is_told verbose news }
{
    verbose || matches!(news, News::WardenLost | News::Totals(_))
}

impl<R: Eprint> Log for ErrorLog<R> {
    fn hears_clients(&self) -> bool {
        self.verbose
    }

    fn tell(&self, news: News) {
        if !is_told(self.verbose, news) {
            return;
        }
        let rt = &self.rt;
        let _ = match news {
            News::Ended {
                client,
                socket,
                ending,
                lived,
            } => {
                let (transport, (how, cause)) = (transport_name(socket), words_of(ending));
                eprintln!(rt; "client {client:032x}, {transport}, {how}{cause}, after {lived} ms")
            }
            News::Unheard(count) => eprintln!(rt; "went to no backend: {count}"),
            News::Crowded(count) => {
                eprintln!(rt; "connections from addresses with too many: {count}")
            }
            News::WardenLost => {
                eprintln!(rt; "the warden lost its client: who came meanwhile isn't ended")
            }
            News::Totals(totals) => eprintln!(rt; "{totals}"),
        };
    }
}

/// Begins to listen, and tells where. The server tells standard error of itself.
pub fn listen<R: Net + Print + Eprint + AllocGlobal + Copy + Drop + Sync>(
    rt: &R,
    settings: Settings,
    verbose: bool,
) -> Result<Server<ErrorLog<R>>, ServerFault>
    ensures { OnOk result (wrong_setting settings ≡ None) }
{
    let alloc = rt.alloc();
    let address = format!(in alloc; "{}:{}", settings.host, settings.port)?;
    let log = ErrorLog { rt: *rt, verbose };
    let server = Server::listen(rt, alloc, settings, log)?;
    println!(rt; "listening {address}").map_err(|_| ServerFault::Writing)?;
    Ok(server)
}

/// Serves an app until the server is to end, and tells what it did, and each worker of it.
pub fn serve<R, A: App + Sync>(
    rt: &R,
    server: Server<ErrorLog<R>>,
    app: &A,
) -> Result<ExitCode, ServerFault>
where
    R: Threads + Wait + Clock + RandomSource + Print + Eprint + AllocGlobal,
    R: Copy + Drop + Sync + Send + 'static,
    ensures { IfOk result (λ status. status ≡ ExitCode.SUCCESS) }
{
    let report = server.run(rt, rt.alloc(), app)?;
    println!(rt; "{}", report.totals).map_err(|_| ServerFault::Writing)?;
    for (number, worker) in report.workers.iter().enumerate() {
        let (commands, taken) = (worker.commands, worker.taken);
        println!(rt; "worker {number}: commands {commands}, taken {taken}").map_err(
            |_| ServerFault::Writing,
        )?;
    }
    Ok(ExitCode::SUCCESS)
}

/// The status of a program of this name. Why it failed is told on standard error.
pub fn end_with<R: Eprint, E: Display + Drop>(
    rt: &R,
    name: &str,
    done: Result<ExitCode, E>,
) -> ExitCode
    ensures { result ≡ result_unwrap_or done ExitCode.FAILURE }
{
    match done {
        Ok(status) => status,
        Err(fault) => {
            // Where standard error fails too, the status alone tells of the fault.
            let _ = eprintln!(rt; "{name}: {fault}");
            ExitCode::FAILURE
        }
    }
}

/// A text that nobody guesses: 32 hexadecimal digits from a generator that the system seeds.
pub fn draw_secret<R: RandomSource>(rt: &R, alloc: Global) -> Result<Text, ServerFault>
    ensures { IfOk result (λ text. (id : ℕ) × (text ≡ id_digits id)) }
{
    let mut random = make_rng::<StdRng, R>(rt)?;
    let (front, back) = (random.next_u64(), random.next_u64());
    let digits = id_text((front as u128) * 18_446_744_073_709_551_616 + (back as u128));
    Ok(Text::copy_of(alloc, ascii_text(&digits))?)
}

/// The wall clock in seconds since 1970. One before that tells 0.
pub fn seconds_now<R: Clock>(rt: &R) -> Result<u32, ServerFault> {
    match SystemTime::now(rt)?.duration_since(UNIX_EPOCH) {
        Ok(since) => Ok(u32::try_from(since.as_secs()).unwrap_or(u32::MAX)),
        Err(_) => Ok(0),
    }
}

/// How many threads serve where nobody says how many.
pub fn processors(rt: &impl Threads) -> usize
    ensures some { 0 < result }
    ensures few { result ≤ 8 }
{
    thread::available_parallelism(rt).map_or(1, |number| number.get().min(MOST_WORKERS))
}

/// Reads standard input to its end, and has the server end then.
pub fn wait_for_end<R: Wait + Clock + Input>(rt: &R, shared: &Arc<Shared>) {
    // An input that fails has ended too.
    let _ = io::copy(&mut rt.reader(), &mut io::sink());
    shared.stop(rt, Duration::from_millis(GRACE));
}
