//! What a loop waits with, and what others hand to it.

ghost use Rattle.std.specs.Prelude.{◌≡◌, IfOk, vec_len};
ghost use Rattle.std.specs.Fn.{FnOnceReturnsAtMut};
ghost use Rattle.tcp_streams.specs.Inboxes.{IsPutBy};

use crate::buffered::Stream;
use crate::fault::ServerFault;
use crossbeam_channel::{Receiver, Sender, bounded};
use http_edge::{Request, Target};
use loop_rules::Mailbox;
use mio::net::TcpStream;
use mio::{Poll, Token, Waker};
use std::alloc::Global;
use std::net::Net;
use std::rt::Clock;
use std::sync::{Mutex, Wait};
use std::time::Duration;

/// The token of the bell of who waits.
pub(crate) const BELL: Token = Token(usize::MAX);

/// How many new connections may wait for a loop.
const STREAMS: usize = 256;

/// How long a new connection waits for space among these, in milliseconds.
const PATIENCE: u64 = 1_000;

/// A connection that was accepted.
#[derive(Drop)]
pub struct Accepted {
    pub stream: TcpStream,
    /// The number of the address from which it comes.
    pub from: u128,
}

/// A connection whose request is of a client of another loop.
#[derive(Drop)]
pub struct Handed {
    pub stream: Stream,
    pub from: u128,
    pub request: Box<Request>,
    pub target: Target,
}

/// What others hand to a loop, with the bell that ends its sleep.
#[derive(Drop)]
pub struct Inbox {
    /// Where new connections are sent.
    pub streams: Sender<Accepted>,
    /// What was handed in beside these; its loop takes it here.
    pub mailbox: Mutex<Mailbox<Handed>>,
    waker: Waker,
}

/// What a loop waits with.
#[derive(Drop)]
pub struct Ears {
    pub poll: Poll,
    /// The new connections.
    pub streams: Receiver<Accepted>,
}

/// What each loop waits with, and its inbox, into which nothing was handed yet.
pub fn ears_for<R: Net>(
    rt: &R,
    alloc: Global,
    workers: usize,
) -> Result<(Vec<Ears>, Vec<Inbox>), ServerFault>
    ensures ears { IfOk result (λ made. vec_len made.0 ≡ workers) }
    ensures inboxes { IfOk result (λ made. vec_len made.1 ≡ workers) }
{
    let mut ears = Vec::new(alloc);
    let mut inboxes = Vec::new(alloc);
    for _worker in 0..workers {
        let poll = Poll::new(rt)?;
        let waker = Waker::new(poll.registry(), BELL)?;
        let (sender, streams) = bounded(alloc, STREAMS)?;
        inboxes.push(Inbox {
            streams: sender,
            mailbox: Mutex::new(Mailbox::new(alloc)),
            waker,
        })?;
        ears.push(Ears { poll, streams })?;
    }
    Ok((ears, inboxes))
}

impl Inbox {
    /// Puts something into the mailbox, and rings the bell of a loop that slept.
    pub fn put<T, F: FnOnce(&mut Mailbox<Handed>) -> T>(&self, rt: &impl Wait, put: F) -> T
        requires { F.IsAlwaysCallable put }
        ensures { IsPutBy (FnOnceReturnsAtMut F.FnOnce put) result }
    {
        let mut mailbox = self.mailbox.lock(rt);
        let slept = mailbox.rouse();
        let done = put(&mut *mailbox);
        drop(mailbox);
        if slept {
            // A bell that can't be rung is heard at the next beat.
            let _ = self.waker.wake();
        }
        done
    }

    /// Hands a new connection in, and tells whether there was space for it in time; else it is
    /// closed. It is sent before the bell is rung: a loop looks for it under the lock that the
    /// ringer takes.
    pub fn give<R: Wait + Clock>(&self, rt: &R, accepted: Accepted) -> bool {
        let most = Duration::from_millis(PATIENCE);
        let given = self.streams.send_timeout(rt, accepted, most).is_ok();
        self.put(rt, |_| {});
        given
    }
}
