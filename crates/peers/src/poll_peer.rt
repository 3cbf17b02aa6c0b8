//! One request over HTTP, as a peer.

ghost use Rattle.std.specs.Prelude.{◌≡◌, option_map, string_bytes};
ghost use Rattle.peers.specs.Polled.{TellsPaced};
ghost use Rattle.peers.specs.Polling.{given_up, is_idle};
ghost use Rattle.peers.specs.Responses.{plain_response};
ghost use Rattle.peers.specs.declared.poll_stage.PollStage.TheVariants as stage;

use crate::moments::{Moments, is_noop};
use crate::poll_stage::{PollRequest, PollStage};
use crate::responses::{Response, response_to};
use events::{Answered, Event, Peer, PeerFault};
use http_edge::{EdgeError, Wire, write_response};
use std::alloc::Global;
use std::marker::Model;
use std::mem;
use terms::let_go;

/// Serves one request over HTTP: its event, the takes of a GET that waits, and the answer. A GET that
/// waits pauses before it asks again, and before it is answered by a lone noop packet. In a contract
/// it is its stage, its wire, its moments, how many entries one payload may have, and the origin that
/// the answer names.
pub struct PollPeer<W, M> {
    alloc: Global,
    wire: W,
    moments: M,
    stage: PollStage,
    most: usize,
    origin: Option<String>,
}

/// Written out, so that a crate above takes the drop of all that lies in it by this one call.
impl<W: Drop, M: Drop> Drop for PollPeer<W, M> {
    fn drop(self) {
        let_go!(self; alloc, wire, moments, stage, most, origin);
    }
}

impl<W, M> Model for PollPeer<W, M> {
    ghost use Rattle.std.specs.Prelude.{option_map, string_bytes};
    ghost use Rattle.peers.specs.Polled.{Polled};

    ghost Value = { Polled W M };

    ghost view = { λ p. record {
      stage = p.stage;
      wire = p.wire;
      moments = p.moments;
      most = p.most;
      origin = option_map string_bytes p.origin;
    } };
}

impl<W, M> PollPeer<W, M> {
    ghost use Rattle.std.specs.Borrow.{Lends, sem};
    ghost use Rattle.peers.specs.contracts.poll_peer.PollPeer.{the_row};

    /// Nothing was asked of the core yet, and nothing written. A payload has at most so many entries.
    /// The answer names this origin, if there is one.
    pub fn new(
        alloc: Global,
        wire: W,
        moments: M,
        request: PollRequest,
        most: usize,
        origin: Option<String>,
    ) -> PollPeer<W, M>
        ensures { result ≡ record {
          stage = stage.First request;
          wire = wire;
          moments = moments;
          most = most;
          origin = option_map string_bytes origin;
        } }
    {
        PollPeer {
            alloc,
            wire,
            moments,
            stage: PollStage::First(request),
            most,
            origin,
        }
    }

    /// Whether a GET waits that found nothing: it need not be driven until something was put for its
    /// client.
    pub fn is_idle(&self) -> bool
        ensures { result ≡ is_idle self.now.stage }
    {
        matches!(self.stage, PollStage::Waits { .. })
    }

    /// A GET that waits asks no more: its next event is its last one. Else nothing changes.
    pub fn give_up(&mut self)
        ensures { self.new ≡ record self.old { stage = given_up self.old.stage } }
    {
        match self.stage {
            PollStage::Begun { client } | PollStage::Waits { client, .. } => {
                self.stage = PollStage::Ends { client };
            }
            PollStage::Taking { client, .. } => self.stage = PollStage::Taking { client, left: 0 },
            _ => {}
        }
    }

    /// The wire, to look at.
    pub fn wire(&self) -> &W
        ensures { result.now ≡ self.now.wire }
    {
        &self.wire
    }

    /// The wire, which a driver may send or poll.
    pub fn wire_mut(&mut self) -> &mut W
        ensures* writes_back { sem 𝓛 (Lends (the_row W.row M.row) W.row self.entry result (λ wire. record self.old { wire = wire })) }
        ensures value { result.now ≡ self.old.wire }
    {
        &mut self.wire
    }
}

impl<W: Wire, M: Moments> Peer for PollPeer<W, M> {
    ghost use Rattle.peers.specs.Polled.{Gives, Hears};

    ghost gives = { Gives M.gives M.pauses };

    ghost hears = { Hears W.written W.is_broken M.pauses };

    fn next(&mut self) -> Result<Option<(Event, u64)>, PeerFault> {
        if self.is_idle() {
            self.moments.pause();
        }
        let (stage, event) = mem::replace(&mut self.stage, PollStage::Opening).next(self.most);
        self.stage = stage;
        let Some(event) = event else {
            return Ok(None);
        };
        Ok(Some((event, self.moments.now())))
    }

    fn answer(&mut self, got: &Answered) -> Result<(), PeerFault> {
        let response = response_to(&self.stage, got);
        self.stage = mem::replace(&mut self.stage, PollStage::Opening).after(got);
        match response {
            Some(response) => tell_paced(self, response, is_noop(got)),
            None => Ok(()),
        }
    }
}

/// Who can pause, and can tell a response.
trait Teller {
    ghost use Rattle.std.specs.Prelude.{Result};
    ghost use Rattle.events.specs.declared.peer.PeerFault.{PeerFault};
    ghost use Rattle.peers.specs.Responses.{PlainResponse, plain_response};

    ghost pauses: { Self → Self → Type 0 } = { λ _ _. Unit {0} };

    ghost tells: { Self → PlainResponse → Result (Unit {0}) PeerFault
        → Self → Type 0 } = { λ _ _ _ _. Unit {0} };

    fn pause(&mut self)
        ensures { pauses self.old self.new };

    fn tell(&mut self, response: Response<'_>) -> Result<(), PeerFault>
        ensures { tells self.old (plain_response response.entry) result self.new };
}

impl<W: Wire, M: Moments> Teller for PollPeer<W, M> {
    ghost use Rattle.peers.specs.Polled.{Pauses, Tells};

    ghost pauses = { Pauses M.pauses };

    ghost tells = { Tells W.written W.is_broken };

    fn pause(&mut self) {
        self.moments.pause();
    }

    fn tell(&mut self, response: Response<'_>) -> Result<(), PeerFault> {
        let Response { status, body } = response;
        match write_response(self.alloc, &mut self.wire, status, &self.origin, body) {
            Ok(()) => Ok(()),
            Err(EdgeError::Memory) => Err(PeerFault::Memory),
            Err(_) => Err(PeerFault::Device),
        }
    }
}

/// Tells a response, after a pause where it is paced.
fn tell_paced<T: Teller>(
    teller: &mut T,
    response: Response<'_>,
    is_paced: bool,
) -> Result<(), PeerFault>
    ensures { TellsPaced T.pauses T.tells is_paced teller.old (plain_response response.entry)
        result teller.new }
{
    if is_paced {
        teller.pause();
    }
    teller.tell(response)
}
