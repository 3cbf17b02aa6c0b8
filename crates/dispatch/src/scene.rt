//! What an event of one client works on.

ghost use Rattle.std.specs.Prelude.{◌≡◌, None, Some, is_some, true, false};
ghost use Rattle.std.specs.Option.{option_or};
ghost use Rattle.events.specs.Plain.{nothing_done, one_packet_more, one_more, noted};

use connection::Line;
use events::{Cause, CoreFault, Done};
use hub_state::State;
use room_maps::RoomError;
use sio_wire::Scratch;
use std::alloc::Global;

/// What comes of a command or an effect: it was done, or why it wasn't.
pub(crate) type Acted = Result<(), CoreFault>;

/// What an event's memory is taken from, and its moment in milliseconds.
#[derive(Clone, Copy)]
pub(crate) struct Call {
    pub(crate) alloc: Global,
    pub(crate) moment: u64,
}

/// The same, and the memory in which the texts of an event are read.
#[derive(Drop)]
pub(crate) struct Means<'a> {
    pub(crate) call: Call,
    pub(crate) scratch: &'a mut Scratch,
}

/// The same of an event of this client.
#[derive(Clone, Copy)]
pub(crate) struct Visit {
    pub(crate) alloc: Global,
    pub(crate) client: u128,
    pub(crate) moment: u64,
}

impl Call {
    /// The call as one of this client's.
    pub(crate) fn of(self, client: u128) -> Visit
        ensures client { result.client ≡ client }
        ensures moment { result.moment ≡ self.moment }
    {
        Visit {
            alloc: self.alloc,
            client,
            moment: self.moment,
        }
    }
}

/// What was done of an event so far, and how the packet stands that is worked on.
#[derive(Drop)]
pub(crate) struct Tally {
    pub(crate) done: Done,
    /// The id under which the packet still asks to be acknowledged.
    pub(crate) asked: Option<u64>,
    /// Why the first of the packet's effects that was skipped was, if one was.
    pub(crate) refused: Option<RoomError>,
    /// Whether the packet's socket was disconnected.
    pub(crate) ended: bool,
}

impl Tally {
    /// Nothing was done yet.
    pub(crate) fn new(alloc: Global) -> Tally
        ensures { let done = nothing_done in
            result ≡ record { done = done; asked = None; refused = None; ended = false } }
    {
        Tally {
            done: Done::nothing(alloc),
            asked: None,
            refused: None,
            ended: false,
        }
    }

    /// A packet begins, of which nothing is known yet.
    pub(crate) fn begin(&mut self)
        ensures { let done = one_packet_more self.old.done in
            self.new ≡ record { done = done; asked = None; refused = None; ended = false } }
    {
        self.done.packets = self.done.packets.saturating_add(1);
        self.asked = None;
        self.refused = None;
        self.ended = false;
    }

    /// Whether the client was closed.
    pub(crate) fn is_closed(&self) -> bool
        ensures { result ≡ is_some self.now.done.closed }
    {
        self.done.closed.is_some()
    }

    /// The client was closed for a cause.
    pub(crate) fn close(&mut self, cause: Cause)
        ensures { let done = record self.old.done { closed = Some cause } in
            self.new ≡ record self.old { done = done } }
    {
        self.done.closed = Some(cause);
    }

    /// The packet was an answer to no question.
    pub(crate) fn ignore(&mut self)
        ensures { let done = record self.old.done { ignored = true } in
            self.new ≡ record self.old { done = done } }
    {
        self.done.ignored = true;
    }

    /// One effect more was done.
    pub(crate) fn count(&mut self)
        ensures { self.new ≡ record self.old { done = one_more self.old.done } }
    {
        self.done.effects = self.done.effects.saturating_add(1);
    }

    /// An effect was skipped for this reason, or not: the first reason of the event is kept, and
    /// the first one of the packet.
    pub(crate) fn note(&mut self, refused: Option<RoomError>)
        ensures { let old = self.old in
            self.new ≡ record old { done = noted refused old.done; refused = option_or old.refused refused } }
    {
        self.done.skipped = self.done.skipped.or(refused);
        self.refused = self.refused.or(refused);
    }
}

/// What an event of one client works on: the hub, the client's line, and what was done of the event
/// so far. Contracts see of it what `seen` says.
#[derive(Drop)]
pub(crate) struct Scene<'a> {
    pub(crate) visit: Visit,
    pub(crate) state: &'a mut State,
    pub(crate) line: &'a mut Line,
    pub(crate) tally: &'a mut Tally,
    /// The memory that its texts are read in.
    pub(crate) scratch: &'a mut Scratch,
}
