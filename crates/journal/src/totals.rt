//! What a hub counts.

ghost use Rattle.std.specs.Prelude.{Some};

use std::fmt;

/// The counts of a hub, from its first step on.
#[derive(Clone, Copy, Debug, Default, PartialEq, Eq)]
pub struct Totals {
    /// The commands that were accepted.
    pub commands: u64,
    /// The entries that were put into clients' outboxes.
    pub placed: u64,
    /// The sockets that missed a broadcast, since their client's outbox had no space for it.
    pub dropped: u64,
    /// The entries that were handed out.
    pub taken: u64,
    /// The entries that still waited when their client ended.
    pub discarded: u64,
    /// The entries that wait.
    pub waiting: u64,
}

impl fmt::Display for Totals {
    ghost use Rattle.journal.specs.Totals.{totals_text};

    ghost output = { λ totals. Some (totals_text totals) };

    fn fmt<W: fmt::Write>(&self, f: &mut fmt::Formatter<W>) -> fmt::Result {
        write!(
            f,
            "commands {}, placed {}, dropped {}, taken {}, discarded {}, waiting {}",
            self.commands, self.placed, self.dropped, self.taken, self.discarded, self.waiting
        )
    }
}

/// The counts that a hub keeps. What waits is what was placed and neither taken nor discarded.
#[derive(Clone, Copy, Debug)]
pub struct Counts {
    pub commands: u64,
    pub placed: u64,
    pub dropped: u64,
    pub taken: u64,
    pub discarded: u64,
}
