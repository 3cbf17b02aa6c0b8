//! What a loop decides by the round that it is in.

ghost use Rattle.std.specs.Prelude.{◌≡◌};
ghost use Rattle.loop_rules.specs.Rounds as rounds;

use events::{Answered, CoreFault, Outcome};

/// The most stints of connections in one round.
const STINTS: usize = 1_024;

/// So many bytes are sent when their connection's stint ends, while they are in the processor's
/// caches. Fewer wait for the end of the loop's round, so that more may go out with them.
const MUCH_UNSENT: usize = 32_768;

/// For how long the digits of clients are kept, in milliseconds: a loop isn't told of all that end.
const KEPT: u64 = 60_000;

/// How long a loop sleeps at the most, in milliseconds.
const BEAT: u64 = 1_000;

/// About so many bytes are taken for clients by one hold of the core's lock, so that others get it.
const TOGETHER: usize = 16_384;

/// For about so many clients one hold of the core's lock puts something.
const REACHED: usize = 256;

/// How far a loop is in its round. All moments are milliseconds of its watch.
#[derive(Clone, Copy, Debug)]
pub struct Round {
    /// When it looked at its watch, which holds until the next events are answered.
    pub now: u64,
    /// The moment of the next beat, 0 until the loop has begun.
    pub beat: u64,
    /// The moment from which on the digits of clients are forgotten, where no backend is pressed.
    pub forgets: u64,
    /// How many stints of connections are left.
    pub stints: usize,
    /// Some backend is pressed, as far as the loop knows.
    pub is_pressed: bool,
    /// Clients are to be looked for that are given up.
    pub gives_up: bool,
    /// The other loops are to be told at once for whom something was put.
    pub tells: bool,
    /// How many bytes the last take of a WebSocket had.
    pub taken: usize,
    /// For how many clients the last message put something, by its first broadcast.
    pub reached: usize,
    /// When a stint last began.
    pub began: u64,
}

impl Round {
    /// The loop hasn't begun.
    pub fn first() -> Round
        ensures { result ≡ rounds.first }
    {
        Round {
            now: 0,
            beat: 0,
            forgets: KEPT,
            stints: 0,
            is_pressed: false,
            gives_up: false,
            tells: false,
            taken: 0,
            reached: 0,
            began: 0,
        }
    }

    /// The next round begins.
    pub fn next(self) -> Round
        ensures { result ≡ rounds.next_of self }
    {
        let stints = STINTS;
        Round { stints, ..self }
    }

    /// How many of these events one hold of the core's lock has: one, or as takes leave room.
    pub fn together(self, most: usize) -> usize
        ensures { result ≡ rounds.together_of most self }
    {
        (TOGETHER / self.taken.max(1)).min(most).max(1)
    }

    /// How many of these events that bring packets one hold of the core's lock has: one, or as those
    /// for whom they put something leave room.
    pub fn speaking(self, most: usize) -> usize
        ensures { result ≡ rounds.speaking_of most self }
    {
        (REACHED / self.reached.max(1)).min(most).max(1)
    }

    /// Whether stints may begin, where those that go on brought packets or not: then they come
    /// first, but for once in a moment.
    pub fn may_begin(self, spoke: bool) -> bool
        ensures { result ≡ rounds.may_begin spoke self }
    {
        !spoke || self.began != self.now
    }

    /// A stint begins.
    pub fn begin(self) -> Round
        ensures { result ≡ rounds.begun self }
    {
        let stints = self.stints.saturating_sub(1);
        Round {
            stints,
            began: self.now,
            ..self
        }
    }

    /// An event of a connection was answered, by which so many bytes more are to be sent over it.
    pub fn note_answer(self, got: &Answered, taken: usize) -> Round
        ensures { result ≡ rounds.after_answer got.now taken self }
    {
        match got {
            Ok(Outcome::Frames(_)) => Round { taken, ..self },
            Ok(Outcome::Done(done)) => {
                let reached = done.clients.lists().first().map_or(0, |ids| ids.len());
                Round { reached, ..self }
            }
            _ => self,
        }
    }

    /// How long a loop sleeps that has nothing to do until a moment.
    pub fn sleep(self, due: u64) -> u64
        ensures { result ≡ rounds.sleep_of due self }
    {
        due.saturating_sub(self.now).min(BEAT)
    }

    /// Whether a beat has come, or all connections are to be looked at, and so their deadlines.
    pub fn is_beat(self, everyone: bool) -> bool
        ensures { result ≡ rounds.is_beat everyone self }
    {
        everyone || self.beat <= self.now
    }

    /// Whether this beat forgets the digits of clients, as one does once a minute. Those that are
    /// still there are known again by their next events.
    pub fn forgets_digits(self) -> bool
        ensures { result ≡ rounds.forgets_digits self }
    {
        !self.is_pressed && self.forgets <= self.now
    }

    /// A beat has come, and was heeded.
    pub fn after_beat(self) -> Round
        ensures { result ≡ rounds.after_beat self }
    {
        let mut round = self;
        if self.forgets_digits() {
            round.forgets = self.now.saturating_add(KEPT);
        }
        round.beat = self.now.saturating_add(BEAT);
        round.gives_up = true;
        round
    }

    /// The backends of these digits are pressed now, if that was shown.
    pub fn press(self, pressed: Option<u16>) -> Round
        ensures { result ≡ rounds.pressed_by pressed self }
    {
        let is_pressed = match pressed {
            Some(digits) => digits != 0,
            None => self.is_pressed,
        };
        Round { is_pressed, ..self }
    }

    /// The core was told that a client is given up. Where it refused, it is told at the next beat.
    pub fn hear_loss(self, got: &Answered) -> Round
        ensures { result ≡ rounds.after_loss got.now self }
    {
        let is_over = match got {
            Ok(Outcome::Lost { .. }) => true,
            Err(error) => matches!(error.fault, CoreFault::UnknownClient),
            _ => false,
        };
        let gives_up = self.gives_up && is_over;
        Round { gives_up, ..self }
    }
}

/// Whether so many bytes go out at once when their connection's stint ends.
pub fn is_much_unsent(unsent: usize) -> bool
    ensures { result ≡ rounds.is_much_unsent unsent }
{
    unsent >= MUCH_UNSENT
}
