//! What a connection does next, and when it may rest: it looks at all that came for it first.

ghost use Rattle.std.specs.Prelude.{◌≡◌};
ghost use Rattle.loop_rules.specs.Looks as looks;
ghost use Rattle.loop_rules.specs.Looks.{NeverRests};
ghost use Rattle.loop_rules.specs.Decisions.{left_after, decision_for};

/// How many events one stint of a connection brings before it goes to the end of the queue.
pub const EVENTS: u32 = 48;

/// How a connection stands to what comes for it. It never rests until it looked at what came.
#[derive(Clone, Copy, Debug, PartialEq, Eq)]
pub enum LookState {
    /// It has looked at all that came, and rests until something comes.
    Rests,
    /// Something came while it rested: it stands in the queue, and its look begins with its stint.
    Called,
    /// It stands in the queue while a look is under way: it goes on, and then looks once more.
    Again,
    /// It is not served until its bytes have gone.
    Full,
    /// It is not served until its moment has come.
    Early,
    /// It is its stint, and nothing came since it began to look. It is dry where its stream had no
    /// more while all that waited for its client was taken.
    Looks { dry: bool },
    /// It is its stint, and something came since it began to look: it looks once more.
    Stirred { dry: bool },
}

/// What the answer to an event says of a look.
#[derive(Clone, Copy, Debug, PartialEq, Eq)]
pub enum Found {
    /// There may be more.
    More,
    /// The stream had no more, and all that waited for the client was taken.
    Dry,
    /// Nothing was due.
    Quiet,
    /// It has nothing to do until something comes.
    Idle,
}

/// Why a stint is over in which no event was answered.
#[derive(Clone, Copy, Debug, PartialEq, Eq)]
pub enum Pause {
    /// It has looked at all that came.
    Done,
    /// It has more to do, once others had their stints.
    More,
    /// Its bytes are to go first.
    Full,
    /// Its moment is to come first.
    Early,
}

/// What follows an event of a connection.
#[derive(Clone, Copy, Debug, PartialEq, Eq)]
pub enum Decision {
    /// Its next event.
    GoesOn,
    /// Its next stint, once others had theirs.
    Again,
    /// Nothing, until something comes for it.
    Rests,
    /// Nothing, until its bytes have gone.
    Held,
}

#[tactic(auto, using(crate::proofs::LookLemmas::never_calm, crate::proofs::LookLemmas::never_rested))]
impl LookState {
    /// Whether it stands in the queue.
    pub fn is_queued(self) -> bool
        ensures { result ≡ looks.is_queued self }
    {
        matches!(self, LookState::Called | LookState::Again)
    }

    /// Whether it looks, and nothing came since it began.
    fn is_calm(self) -> bool
        ensures { result ≡ looks.is_calm self }
    {
        matches!(self, LookState::Looks { .. })
    }

    /// Whether its look has yet to find that all was taken: what is put for its client is taken by it.
    pub fn takes_yet(self) -> bool
        ensures { result ≡ looks.takes_yet self }
    {
        matches!(self, LookState::Looks { dry: false })
    }

    /// Whether its look is over.
    fn has_looked(self, found: Found) -> bool
        ensures { result ≡ looks.has_looked (looks.is_dry self) found }
    {
        match (found, self) {
            (Found::Idle, _) => true,
            (Found::Quiet, LookState::Looks { dry } | LookState::Stirred { dry }) => dry,
            _ => false,
        }
    }

    /// Something came for it. Answers whether it is to be put into the queue.
    pub fn call(&mut self) -> bool
        ensures queue { result ≡ looks.is_to_queue self.old }
        ensures state { self.new ≡ looks.called self.old }
        ensures law { NeverRests self.old self.new }
    {
        let old = *self;
        *self = match old {
            LookState::Rests | LookState::Called => LookState::Called,
            LookState::Looks { dry } | LookState::Stirred { dry } => LookState::Stirred { dry },
            LookState::Again | LookState::Full | LookState::Early => LookState::Again,
        };
        self.is_queued() && !old.is_queued()
    }

    /// Its stint begins, and with it a look, unless one is under way.
    pub fn begin(&mut self)
        ensures state { self.new ≡ looks.begun self.old }
        ensures law { NeverRests self.old self.new }
    {
        *self = match self {
            LookState::Rests | LookState::Called => LookState::Looks { dry: false },
            _ => LookState::Stirred { dry: false },
        };
    }

    /// An event was answered. Answers what follows, with so many left, and much unsent or not.
    pub fn follow(&mut self, events: &mut u32, found: Found, full: bool) -> Decision
        ensures decision { result ≡ decision_for events.old (looks.may_rest self.old found) full }
        ensures left { events.new ≡ left_after events.old result }
        ensures state { self.new ≡ looks.followed self.old found result }
        ensures law { NeverRests self.old self.new }
    {
        let (calm, over, dry) = (self.is_calm(), self.has_looked(found), found == Found::Dry);
        let (decision, state) = match *events {
            _ if full => (Decision::Held, LookState::Full),
            _ if calm && over => (Decision::Rests, LookState::Rests),
            0 => (Decision::Again, LookState::Again),
            // Where its look is over, another begins.
            _ if over => (Decision::GoesOn, LookState::Looks { dry: false }),
            _ if calm => (Decision::GoesOn, LookState::Looks { dry }),
            _ => (Decision::GoesOn, LookState::Stirred { dry }),
        };
        if decision == Decision::GoesOn {
            *events -= 1;
        }
        *self = state;
        decision
    }

    /// Its stint is over, and no event was answered.
    pub fn pause(&mut self, pause: Pause)
        ensures state { self.new ≡ looks.paused self.old pause }
        ensures law { NeverRests self.old self.new }
    {
        *self = match pause {
            Pause::Full => LookState::Full,
            Pause::Early => LookState::Early,
            Pause::Done if self.is_calm() => LookState::Rests,
            Pause::Done | Pause::More => LookState::Called,
        };
    }
}
