//! Who accepts connections.

ghost use Rattle.std.specs.Prelude.{◌≡◌, ◌⊎◌, ◌==◌, [], length, IfOk, IfErr, if◌then◌else◌};
ghost use Rattle.std.specs.Box.{box_value};
ghost use Rattle.mio.specs.Events.{items};
ghost use Rattle.tcp_streams.specs.Acceptors as acceptors;
ghost use Rattle.tcp_streams.specs.Acceptors.{Begins, Deals, IsOfListening, KeepsLater, dealing_of};

use crate::fault::ServerFault;
use crate::inbox::{Accepted, BELL};
use crate::shared::Shared;
use http_edge::{OnStream, Status, write_response};
use loop_rules::{Dealing, Refused, time_to_wait};
use metrics::Reason;
use mio::net::{TcpListener, TcpStream};
use mio::{Events, Interest, Poll, Token, Waker};
use settings::Settings;
use std::alloc::{AllocError, Global};
use std::io;
use std::io::ErrorKind;
use std::net::{IpAddr, Net, Shutdown, ToSocketAddrs};
use std::rt::Clock;
use std::sync::Wait;
use std::time::Duration;
use terms::let_go;

/// The token of the listener.
const LISTENER: Token = Token(0);

/// How long the threads that serve may take to begin, in milliseconds. Where one can't be started
/// the server ends.
const START: u64 = 10_000;

/// How many reports one wait takes.
const EVENTS: usize = 8;

/// Accepts connections, and gives so many to each loop in turn.
pub struct Acceptor {
    alloc: Global,
    poll: Poll,
    listener: TcpListener,
    events: Events<Global>,
    dealing: Dealing,
    /// Those that had no space and were told so.
    refused: Refused<TcpStream>,
    /// How many workers there are: it accepts once all have begun.
    workers: usize,
}

/// Written out, so that a crate above takes the drop of all that lies in it by this one call.
impl Drop for Acceptor {
    fn drop(self) {
        let_go!(self; alloc, poll, listener, events, dealing, refused, workers);
    }
}

/// Listens at the settings' port. Answers at which, who accepts there, and the bell that wakes it.
pub fn acceptor_for<R: Net>(
    rt: &R,
    alloc: Global,
    settings: &Settings,
) -> Result<(u16, Box<Acceptor>, Waker), ServerFault>
    ensures { IfOk result (λ made. Begins settings.now (box_value made.1)) }
{
    let (mut listener, port) = listen_at(rt, settings.host.as_str(), settings.port)?;
    let poll = Poll::new(rt)?;
    let registry = poll.registry();
    registry.register(&mut listener, LISTENER, Interest::READABLE)?;
    let bell = Waker::new(registry, BELL)?;
    let clients = settings.hub.clients as u64;
    let acceptor = Acceptor {
        alloc,
        poll,
        listener,
        events: Events::with_capacity(alloc, EVENTS)?,
        dealing: Dealing::new(settings.connections, clients, settings.together),
        refused: Refused::new(alloc),
        workers: settings.workers.saturating_add(settings.aides()),
    };
    Ok((port, Box::new(alloc, acceptor)?, bell))
}

/// Listens at the first address of the host that can be bound, and tells at which port.
fn listen_at<R: Net>(rt: &R, host: &str, port: u16) -> Result<(TcpListener, u16), ServerFault>
    ensures { IfErr result IsOfListening }
{
    let mut bound = Err(io::Error::from(ErrorKind::AddrNotAvailable));
    for address in (host, port).to_socket_addrs(rt).map_err(fault_of)? {
        bound = TcpListener::bind(rt, address);
        if bound.is_ok() {
            break;
        }
    }
    let listener = bound.map_err(fault_of)?;
    let port = listener.local_addr().map_err(fault_of)?.port();
    Ok((listener, port))
}

/// Why a server doesn't begin that can't listen.
fn fault_of(error: io::Error) -> ServerFault
    ensures { IsOfListening result }
{
    match error.kind() {
        ErrorKind::OutOfMemory => ServerFault::Memory(AllocError),
        _ => ServerFault::Listening,
    }
}

/// An address as a number, that of IPv4 as IPv6 has it (RFC 4291, section 2.5.5.2).
fn number_of(address: IpAddr) -> u128
    ensures { result ≡ acceptors.number_of address }
{
    match address {
        IpAddr::V4(address) => 0xffff_0000_0000 + u128::from(address.to_bits()),
        IpAddr::V6(address) => address.to_bits(),
    }
}

impl Acceptor {
    /// Accepts connections until the server is to end, or had as many as it was to have.
    pub fn accept_all<R: Wait + Clock>(&mut self, rt: &R, shared: &Shared)
        ensures { Deals (dealing_of self.old) (dealing_of self.new) }
    {
        let most = Duration::from_millis(START);
        if shared.begun.wait_for(rt, self.workers, most) {
            for _ in 0..u64::MAX {
                if self.dealing.is_over() || shared.standing.lock(rt).closing {
                    break;
                }
                match self.listener.accept() {
                    Ok((stream, address)) => {
                        let from = number_of(address.ip());
                        self.give(rt, shared, Accepted { stream, from });
                    }
                    Err(error) => self.wait(error.kind()),
                }
            }
        }
        shared.stop_accepting(rt);
    }

    /// Waits for a connection, or as long as it may. Those refused are closed if none was reported.
    fn wait(&mut self, why: ErrorKind)
        ensures dealing { self.new.dealing ≡ self.old.dealing }
        ensures refused { self.new.refused
            ≡ (if length (items self.new.events) == 0 then [] else self.old.refused) }
    {
        let most = time_to_wait(why == ErrorKind::WouldBlock, !self.refused.is_empty());
        let most = most.map(Duration::from_millis);
        // A wait that fails is as one that ended early.
        let _ = self.poll.poll(&mut self.events, most);
        if self.events.is_empty() {
            self.refused.clear();
        }
    }

    /// Answers a connection that has no space, and keeps it for a while.
    fn turn_away(&mut self, stream: TcpStream)
        ensures dealing { self.new.dealing ≡ self.old.dealing }
        ensures refused { KeepsLater self.old.refused self.new.refused }
    {
        let mut wire = OnStream::new(stream);
        // It is closed without an answer where none can be written.
        let _ = write_response(self.alloc, &mut wire, Status::Unavailable, &None, "");
        let stream = wire.into_stream();
        let _ = stream.shutdown(Shutdown::Write);
        self.refused.keep(stream);
    }

    /// Gives a connection to the loop whose turn it is.
    fn give<R: Wait + Clock>(&mut self, rt: &R, shared: &Shared, accepted: Accepted)
        ensures { acceptors.DealsOne self.old.dealing self.new.dealing }
    {
        self.dealing.accept();
        // Without it a small answer may wait for the acknowledgement of the one before.
        let _ = accepted.stream.set_nodelay(true);
        let from = accepted.from;
        let admitted = shared.standing.lock(rt).admit(self.dealing.most, from);
        if let Err(reason) = admitted {
            shared.counts.lock(rt).note_refused(reason);
            // Who has many isn't answered.
            if reason == Reason::NoPlace {
                self.turn_away(accepted.stream);
            }
            return;
        }
        let index = self.dealing.deal(shared.inboxes.len());
        let inbox = shared.inboxes.get(index);
        if !inbox.is_some_and(|inbox| inbox.give(rt, accepted)) {
            shared.note_closed(rt, from);
        }
    }
}
