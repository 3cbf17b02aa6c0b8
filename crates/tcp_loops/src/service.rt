//! Who serves a connection.

ghost use Rattle.std.specs.Prelude.{◌≡◌, IfSome, Some, cond, option_map, string_bytes};
ghost use Rattle.loop_rules.specs.Heard.{has_taken_all};
ghost use Rattle.loop_rules.specs.Link.{is_full};
ghost use Rattle.peers.specs.Responses.{plain_response};
ghost use Rattle.tcp_streams.specs.Outputs.{waiting};
ghost use Rattle.tcp_loops.specs.Comes as comes;
ghost use Rattle.tcp_loops.specs.Sent as sent;
ghost use Rattle.tcp_loops.specs.Services as services;

use crate::base::Watch;
use crate::stream::{
    Came, Change, apply, bytes_asked, drain, read_request, send_file_on, write_piece,
};
use events::{Answered, Event, Peer, PeerFault};
use http_edge::{Gathered, OnStream, Replay, Request, Target, write_response};
use loop_rules::{Do, Found, Link, Pause, Seen, found_by, has_taken_all};
use page::File;
use peers::{
    PollPeer, PollRequest, Response, SocketPeer, SocketRequest, accept_socket, response_to_target,
};
use std::alloc::Global;
use std::io::{ErrorKind, Write};
use std::net::Shutdown;
use std::rt::Clock;
use std::{io, mem};
use tcp_streams::{Rules, Stream};

/// Who serves a connection.
#[derive(Drop)]
pub enum Service<'a, R> {
    /// Nobody yet: its request is coming.
    Gathering { stream: Stream, gathered: Gathered },
    /// A request over HTTP.
    Polling(Box<PollPeer<OnStream<Stream>, Watch<R>>>),
    /// A WebSocket.
    Speaking(Box<SocketPeer<Replay<Stream>, Watch<R>>>),
    /// Nobody any more, while this rest of a file goes out, piece by piece.
    Answered { stream: Stream, rest: &'a [u8] },
    /// Its stream was handed on, or dropped.
    Gone,
}

/// What is seen of a stream over which no peer brings events.
fn seen_stream(stream: &Stream) -> Seen
    ensures { result ≡ services.seen_stream stream.now.value }
{
    Seen {
        unsent: stream.unsent(),
        unbrought: stream.unbrought,
        drained: stream.drained,
        ..Seen::gone()
    }
}

impl<'a, R: Clock + Drop> Service<'a, R> {
    /// Whether it is a request over HTTP.
    pub(crate) fn is_request(&self) -> bool
        ensures { result ≡ services.is_request self.now }
    {
        matches!(self, Service::Polling(_))
    }

    /// What is seen of its stream and of its peer.
    pub(crate) fn seen(&self) -> Seen
        ensures { result ≡ services.seen_of self.now }
    {
        match self {
            Service::Gathering { stream, .. } => seen_stream(stream),
            Service::Polling(peer) => Seen {
                idle: peer.is_idle(),
                ..seen_stream(peer.wire().get_ref())
            },
            Service::Speaking(peer) => Seen {
                idle: peer.is_idle(),
                asks_due: peer.asks_due(),
                has_read_nothing: peer.has_read_nothing(),
                ..seen_stream(peer.stream().get_ref())
            },
            Service::Answered { stream, rest } => Seen {
                has_more: !rest.is_empty(),
                ..seen_stream(stream)
            },
            Service::Gone => Seen::gone(),
        }
    }

    /// How many bytes of its stream are unsent.
    pub(crate) fn unsent(&self) -> usize
        ensures { result ≡ (services.seen_of self.now).unsent }
    {
        match self {
            Service::Gathering { stream, .. } | Service::Answered { stream, .. } => stream.unsent(),
            Service::Polling(peer) => peer.wire().get_ref().unsent(),
            Service::Speaking(peer) => peer.stream().get_ref().unsent(),
            Service::Gone => 0,
        }
    }

    /// This befalls its stream, if that is still here.
    pub(crate) fn change(&mut self, change: Change)
        ensures { services.Turns (services.ChangedBy change) self.old self.new }
    {
        match self {
            Service::Gathering { stream, .. } => apply(stream, change),
            Service::Polling(peer) => apply(peer.wire_mut().get_mut(), change),
            Service::Speaking(peer) => apply(peer.stream_mut().get_mut(), change),
            Service::Answered { stream, .. } => apply(stream, change),
            Service::Gone => {}
        }
    }

    /// The next event of the peer, which reads or doesn't; none where it has no more.
    pub(crate) fn next(&mut self, reads: bool) -> Result<Option<(Event, u64)>, PeerFault>
        ensures { comes.Gives reads self.old result self.new }
    {
        match self {
            Service::Polling(peer) => peer.next(),
            Service::Speaking(peer) if !reads => {
                peer.skip_read();
                peer.next()
            }
            Service::Speaking(peer) => peer.next(),
            _ => Ok(None),
        }
    }

    /// Tells the peer what became of its event.
    fn answer(&mut self, got: &Answered) -> Result<(), PeerFault>
        ensures { comes.Hears got.now self.old result self.new }
    {
        match self {
            Service::Polling(peer) => peer.answer(got),
            Service::Speaking(peer) => peer.answer(got),
            _ => Ok(()),
        }
    }

    /// The same, after which nothing waits for its client, as far as is known, or something may.
    /// What that says of the look of a connection that stands so, and whether much is unsent then;
    /// none where the peer has failed.
    pub(crate) fn hear(&mut self, got: &Answered, rests: bool, link: Link) -> Option<(Found, bool)>
        ensures found { IfSome result (λ r. r.0 ≡ comes.found_of rests link
            (services.seen_of self.old) (services.seen_of self.new) got.now) }
        ensures full { IfSome result (λ r. r.1 ≡ is_full (services.seen_of self.new)) }
        ensures rest { IfSome result (λ _. comes.HearsOn
            (has_taken_all rests got.now) got.now self.old self.new) }
    {
        let before = self.seen();
        self.answer(got).ok()?;
        let has_taken_all = has_taken_all(got, rests);
        self.skip_rest_if(has_taken_all);
        let (is_dry, seen) = (link.is_dry(before), self.seen());
        let found = found_by(got, seen.idle, has_taken_all, is_dry);
        Some((found, seen.is_full()))
    }

    /// The peer of a WebSocket goes on before its message is answered.
    pub(crate) fn read_ahead(&mut self)
        ensures { self.new ≡ services.ahead self.old }
    {
        if let Service::Speaking(peer) = self {
            peer.read_ahead();
        }
    }

    /// The rest of the round of a WebSocket is passed over.
    pub(crate) fn skip_rest(&mut self)
        ensures { self.new ≡ services.skipped self.old }
    {
        if let Service::Speaking(peer) = self {
            peer.skip_rest();
        }
    }

    /// The same, if it is to be.
    fn skip_rest_if(&mut self, skips: bool)
        ensures { self.new ≡ cond skips (services.skipped self.old) self.old }
    {
        if skips {
            self.skip_rest();
        }
    }

    /// A GET that waits is told that nothing waits.
    pub(crate) fn give_up(&mut self)
        ensures { self.new ≡ services.given_up self.old }
    {
        if let Service::Polling(peer) = self {
            peer.give_up();
        }
    }

    /// The other side is told that nothing more comes. Answers whether it was.
    pub(crate) fn shut(&self) -> bool {
        let stream = match self {
            Service::Gathering { stream, .. } | Service::Answered { stream, .. } => stream,
            Service::Polling(peer) => peer.wire().get_ref(),
            Service::Speaking(peer) => peer.stream().get_ref(),
            Service::Gone => return false,
        };
        stream.inner.shutdown(Shutdown::Write).is_ok()
    }

    /// A beat has come: buffers are given back that nobody uses.
    pub(crate) fn give_back(&mut self)
        ensures { services.Turns services.SameBytes self.old self.new }
    {
        match self {
            Service::Gathering { stream, .. } => {
                let _ = stream.give_back();
            }
            Service::Answered { stream, .. } => {
                let _ = stream.give_back();
            }
            Service::Polling(peer) => {
                let _ = peer.wire_mut().get_mut().give_back();
            }
            Service::Speaking(peer) => {
                if peer.stream_mut().get_mut().give_back() {
                    peer.give_back();
                }
            }
            Service::Gone => {}
        }
    }

    /// The stream, which nobody has any more then. None where somebody serves it.
    pub fn take_stream(&mut self) -> Option<Stream>
        ensures taken { result ≡ services.stream_to_take self.old }
        ensures gone { self.new ≡ Service.Gone }
    {
        match mem::replace(self, Service::Gone) {
            Service::Gathering { stream, .. } => Some(stream),
            _ => None,
        }
    }

    /// Sends what is unsent, or the next piece of a file where nothing is. Answers how many bytes.
    pub(crate) fn send(&mut self) -> io::Result<usize>
        ensures { sent.Sends self.old self.new }
    {
        match self {
            Service::Gathering { stream, .. } => stream.send(),
            Service::Polling(peer) => peer.wire_mut().get_mut().send(),
            Service::Speaking(peer) => peer.stream_mut().get_mut().send(),
            Service::Answered { stream, rest } => send_file_on(stream, rest),
            Service::Gone => Err(io::Error::from(ErrorKind::NotConnected)),
        }
    }

    /// Reads what has come of the request.
    pub(crate) fn read(&mut self, alloc: Global) -> Came
        ensures { comes.IsOfRequest result }
    {
        let Service::Gathering { stream, gathered } = self else {
            return Came::Nothing(Do::Rest(Pause::Done));
        };
        read_request(alloc, stream.as_mut(), gathered).unwrap_or_else(Came::Refused)
    }

    /// Reads and forgets what comes. None where it has ended.
    pub(crate) fn drain(&mut self) -> Option<Pause>
        ensures { services.Turns (λ before after. waiting after ≡ waiting before)
            self.old self.new }
    {
        match self {
            Service::Gathering { stream, .. } => drain(stream.as_mut()),
            Service::Polling(peer) => drain(peer.wire_mut().get_mut().as_mut()),
            Service::Speaking(peer) => drain(peer.stream_mut().get_mut().as_mut()),
            Service::Answered { stream, .. } => drain(stream.as_mut()),
            Service::Gone => None,
        }
    }

    /// Answers by this, if by anything, which pages of this origin may read. Nobody serves it then.
    pub(crate) fn respond(
        &mut self,
        alloc: Global,
        origin: &Option<String>,
        response: Option<Response<'_>>,
    )
        ensures { sent.Tells (sent.answer_of (option_map string_bytes origin.now)
            (option_map plain_response response.entry)) self.old self.new }
    {
        if let (Some(stream), Some(response)) = (self.take_stream(), response) {
            let mut wire = OnStream::new(stream);
            if write_response(alloc, &mut wire, response.status, origin, response.body).is_ok() {
                let stream = wire.into_stream();
                *self = Service::Answered { stream, rest: &[] };
            }
        }
    }

    /// Answers a request, or has a peer serve it. Answers whether one does.
    pub(crate) fn serve(
        &mut self,
        alloc: Global,
        request: Box<Request>,
        target: Target,
        watch: Watch<R>,
        rules: &'a Rules,
    ) -> bool
        ensures { services.IsServedIf result target self.new }
    {
        if let (Target::NotFound, Some(file)) = (target, rules.file_for(&request)) {
            let _ = self.send_file(alloc, &request, file);
            return false;
        }
        if let Some(response) = response_to_target(target) {
            self.respond(alloc, &request.origin, Some(response));
            return false;
        }
        let (Some(stream), request) = (self.take_stream(), Box::into_inner(request)) else {
            return false;
        };
        match Self::with_peer(alloc, stream, request, target, watch, rules.poll_entries) {
            Some(service) => {
                *self = service;
                true
            }
            None => false,
        }
    }

    /// Answers by a file. No peer serves it then.
    fn send_file(&mut self, alloc: Global, request: &Request, file: &'a File) -> Option<()>
        ensures { sent.Tells (Some (sent.file_answer (string_bytes request.now.method)
            (option_map string_bytes request.now.origin) file.now)) self.old self.new }
    {
        let mut stream = self.take_stream()?;
        let head = file.head(alloc, &request.origin).ok()?;
        let _ = stream.as_mut().write(head.as_str().as_bytes()).ok()?;
        let mut rest = bytes_asked(file, request.method.as_str());
        write_piece(&mut stream, &mut rest).ok()?;
        *self = Service::Answered { stream, rest };
        Some(())
    }

    /// The peer that serves a request, if one serves its target.
    fn with_peer(
        alloc: Global,
        mut stream: Stream,
        request: Request,
        target: Target,
        watch: Watch<R>,
        most: usize,
    ) -> Option<Self>
        ensures { IfSome result (services.IsServedBy target) }
    {
        // What stands after the head is not brought yet, nor is a body.
        stream.unbrought = request.rest.len();
        if let Some(wanted) = SocketRequest::of(target) {
            let socket = accept_socket(alloc, stream, request.head, request.rest)?;
            let peer = SocketPeer::new(socket, watch, wanted);
            return match Box::new(alloc, peer) {
                Ok(peer) => Some(Service::Speaking(peer)),
                Err(_) => None,
            };
        }
        stream.unbrought = request.body.len();
        let wanted = PollRequest::of(target, request.body)?;
        let wire = OnStream::new(stream);
        let peer = PollPeer::new(alloc, wire, watch, wanted, most, request.origin);
        Some(Service::Polling(Box::new(alloc, peer).ok()?))
    }
}
