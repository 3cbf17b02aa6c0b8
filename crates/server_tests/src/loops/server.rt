//! A server that runs while its clients play a scene.

use crate::loops::scenes::{closing, polling, speaking};
use crate::loops::site::Site;
use crate::vague::Vague;
use events::App;
use hub_gate::Report;
use relay::RelayApp;
use settings::Settings;
use std::alloc::Global;
use std::net::{Net, TcpStream};
use std::random::RandomSource;
use std::rt::Clock;
use std::sync::Wait;
use std::thread;
use std::thread::Threads;
use std::time::Duration;
use tcp_server::{Log, News, Server, Shared};

/// How many loops a server has.
const LOOPS: usize = 4;

/// What clients do.
#[derive(Clone, Copy)]
enum Scene {
    Polling,
    Speaking,
    Closing,
}

/// Hears nothing.
#[derive(Drop)]
struct Deaf;

impl Log for Deaf {
    fn hears_clients(&self) -> bool {
        false
    }

    fn tell(&self, _news: News) {}
}

/// A server of which each loop has every fourth connection, until so many have come.
fn listen<R: Net>(rt: &R, alloc: Global, connections: u64) -> Option<Server<Deaf>> {
    let mut settings = Settings::usual(alloc, 0, LOOPS).ok()?;
    settings.together = 1;
    settings.connections = Some(connections);
    Server::listen(rt, alloc, settings, Deaf).ok()
}

/// Plays a scene, and tells whether all was so; else the server is stopped.
fn is_so<R: Net<Stream = TcpStream> + Clock + Wait>(
    site: &Site<'_, R>,
    shared: &Shared,
    scene: Scene,
) -> bool {
    let is_so = match scene {
        Scene::Polling => polling(site),
        Scene::Speaking => speaking(site),
        Scene::Closing => closing(site),
    };
    if !is_so {
        shared.stop(site.rt, Duration::from_millis(0));
    }
    is_so
}

/// How many entries were placed, taken and dropped, where it adds up: all loops and the keeper
/// ended well, their counts are the totals, and each entry that was placed was taken, was discarded
/// or waits.
fn counts_of(report: &Report) -> Option<[u64; 3]> {
    let (mut commands, mut taken, mut faults) = (0u64, 0u64, 0usize);
    for worker in report.workers.as_slice() {
        commands = commands.wrapping_add(worker.commands);
        taken = taken.wrapping_add(worker.taken);
        faults = faults.wrapping_add(worker.faults);
    }
    let totals = report.totals;
    let gone = totals.taken.wrapping_add(totals.discarded);
    let adds_up = report.workers.len() == LOOPS + 1
        && faults == 0
        && (totals.commands, totals.taken) == (commands, taken)
        && totals.placed == gone.wrapping_add(totals.waiting);
    adds_up.then_some([totals.placed, totals.taken, totals.dropped])
}

/// What is counted of a scene beside a server of this app, where all was so.
fn play<
    R: Threads
        + Wait
        + Clock
        + RandomSource
        + Net<Stream = TcpStream>
        + AllocGlobal
        + Copy
        + Drop
        + Sync
        + Send
        + 'static,
    A: App + Sync,
>(rt: &R, app: &A, connections: u64, scene: Scene) -> Option<[u64; 3]> {
    let alloc = rt.alloc();
    let server = listen(rt, alloc, connections)?;
    let shared = server.shared().ok()?;
    let port = server.port();
    let site = Site { rt, alloc, port };
    let ends = thread::join(
        rt,
        || server.run(rt, alloc, app),
        || is_so(&site, &shared, scene),
    );
    match ends {
        (Ok(report), true) => counts_of(&report),
        _ => None,
    }
}

#[test]
fn polling_over_loopback(rt: HostRuntime) {
    assert_eq!(rt; play(&rt, &RelayApp, 10, Scene::Polling), Some([4, 4, 0]));
}

#[test]
fn socket_over_loopback(rt: HostRuntime) {
    assert_eq!(rt; play(&rt, &RelayApp, 6, Scene::Speaking), Some([6, 6, 0]));
}

#[test]
fn closing_over_loopback(rt: HostRuntime) {
    assert_eq!(rt; play(&rt, &Vague, 5, Scene::Closing), Some([1, 1, 0]));
}
