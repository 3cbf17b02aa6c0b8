//! Who brings events.

use crate::event::Event;
use crate::outcome::Answered;

/// Why a peer is served no more.
#[derive(Clone, Copy, Debug, PartialEq, Eq)]
pub enum PeerFault {
    /// An allocation was refused.
    Memory,
    /// Its device failed.
    Device,
    /// Its connection ended.
    Ended,
}

/// Who brings events, with their moments, and hears the answers: one connection, or a loop that
/// serves many. Both calls may wait. A peer says in `gives` and `hears` what its calls do.
pub trait Peer {
    ghost use Rattle.std.specs.Prelude.{ℕ, Result, Option};
    ghost use Rattle.events.specs.declared.event.Event.{Event};
    ghost use Rattle.events.specs.Answer.{Answer};
    ghost use Rattle.events.specs.declared.peer.PeerFault.{PeerFault};

    ghost gives: { Self → Result (Option (Event × ℕ)) PeerFault → Self → Type 0 } = { λ _ _ _. Unit {0} };

    ghost hears: { Self → Answer → Result (Unit {0}) PeerFault → Self → Type 0 } = { λ _ _ _ _. Unit {0} };

    /// The next event, or `None` where the peer is done.
    fn next(&mut self) -> Result<Option<(Event, u64)>, PeerFault>
        ensures { gives self.old result self.new };

    /// Tells the peer what became of its event.
    fn answer(&mut self, got: &Answered) -> Result<(), PeerFault>
        ensures { hears self.old got.now result self.new };

    /// The same, of an answer that is the peer's own from then on.
    fn hear(&mut self, got: Answered) -> Result<(), PeerFault>
        ensures { hears self.old got result self.new }
    {
        self.answer(&got)
    }

    /// Whether its next event is at hand, whatever this one is answered with. Then the core's lock is
    /// kept for that, so neither hearing the answer nor bringing the event may take long.
    fn has_next(&self) -> bool {
        false
    }
}
