//! Peers of requests over HTTP, whose streams are in memory.

use crate::edge::spoken::Spoken;
use http_edge::OnStream;
use peers::{Moments, PollPeer, PollRequest};
use std::alloc::Global;

/// It is always the moment 0, and nothing waits.
#[derive(Clone, Copy, Debug)]
pub struct Still;

impl Moments for Still {
    fn now(&mut self) -> u64 {
        0
    }

    fn pause(&mut self) {}
}

/// The peer of one request.
pub type Asker<M> = PollPeer<OnStream<Spoken>, M>;

/// The peer of a request whose stream takes `room` bytes, at most 7 at a time.
pub fn asker<M>(alloc: Global, moments: M, request: PollRequest, room: usize) -> Asker<M> {
    let wire = OnStream::new(Spoken::silent(alloc, 7, room));
    PollPeer::new(alloc, wire, moments, request, 64, None)
}
