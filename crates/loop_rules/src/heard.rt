//! What the answer to an event of a connection says: of its look, and of others.

ghost use Rattle.std.specs.Prelude.{◌≡◌};
ghost use Rattle.std.specs.Option.{option_copied};
ghost use Rattle.loop_rules.specs.Heard as heard;

use crate::looks::Found;
use crate::paces::carries;
use events::{Answered, CoreFault, Done, Event, Outcome, WsFrame};

/// Whether an event is a message of a WebSocket that counts as one of its client.
pub(crate) fn is_message(event: &Event) -> bool
    ensures { result ≡ heard.is_message event.now }
{
    let Event::Frame { frame, .. } = event else {
        return false;
    };
    match frame {
        WsFrame::Text(text) => carries(text.as_str()),
        WsFrame::Bytes(_) => true,
    }
}

/// Whether all that waited for a WebSocket's client was taken.
pub fn has_taken_all(got: &Answered, rests: bool) -> bool
    ensures { result ≡ heard.has_taken_all rests got.now }
{
    match got {
        Ok(Outcome::Done(done)) => rests && done.closed.is_none(),
        Ok(Outcome::Frames(frames)) => !frames.has_more(),
        _ => false,
    }
}

/// Whether a WebSocket brings what came behind an event before that is answered: it is a message,
/// more was read, and its stint has so many events left. After each sixteenth its client takes.
pub fn reads_ahead(event: &Event, unbrought: usize, left: u32) -> bool
    ensures { result ≡ heard.reads_ahead unbrought left event.now }
{
    matches!(event, Event::Frame { .. }) && unbrought > 0 && left > 0 && left % 16 != 1
}

/// What an answer says of a look: where its peer has nothing to bring until something comes, all
/// that waited was taken, and all that came was brought, or not.
pub fn found_by(got: &Answered, idle: bool, has_taken_all: bool, is_dry: bool) -> Found
    ensures { result ≡ heard.found_by idle has_taken_all is_dry got.now }
{
    match got {
        _ if idle || (has_taken_all && is_dry) => Found::Idle,
        Ok(Outcome::Ticked { ping, done }) if !*ping && done.closed.is_none() => Found::Quiet,
        Ok(Outcome::Nothing) if is_dry => Found::Dry,
        _ => Found::More,
    }
}

/// What is found by a look whose rest was passed over, where its peer is idle or not.
pub fn found_passed(idle: bool) -> Found
    ensures { result ≡ heard.found_passed idle }
{
    if idle { Found::Idle } else { Found::Quiet }
}

/// How many of the bytes that were read are left at the most once an event was brought: by a
/// message of so many bytes, behind which one read stands at most, or by a POST, read whole.
pub fn left_unbrought(unbrought: usize, message: Option<usize>, is_post: bool, read: usize) -> usize
    ensures { result ≡ heard.left_unbrought unbrought message is_post read }
{
    let Some(length) = message else {
        return if is_post { 0 } else { unbrought };
    };
    // The shortest head of a client's frame with such a payload (RFC 6455, section 5.2).
    let head = match length {
        ..126 => 6,
        ..65_536 => 8,
        _ => 14,
    };
    unbrought
        .saturating_sub(length)
        .saturating_sub(head)
        .min(read)
}

/// What was done of an event, which may have put something for others.
pub fn done_of(got: &Answered) -> Option<&Done>
    ensures { option_copied result ≡ heard.done_of got.now }
{
    match got {
        Ok(Outcome::Done(done)) => Some(done),
        Ok(Outcome::Lost { done, .. } | Outcome::Ticked { done, .. }) => Some(done),
        _ => None,
    }
}

/// Whom the answer to an event of a connection concerns, beside those for whom it put something.
#[derive(Clone, Copy, Debug, PartialEq, Eq)]
pub enum Concern {
    Nobody,
    /// Its client was opened: what is put for it goes to its WebSocket, if it has one.
    Opens,
    /// What is put for its client goes over this connection from now on.
    Takes,
    /// So it does, since its client has come over to this WebSocket.
    ComesOver,
    /// Its client's other connection is to look.
    Wakes,
    /// Its client has ended, which its other connection is to find out.
    Ends,
    /// There is no such client, after something was put for others or not.
    Gone { has_done: bool },
    /// It failed, after something was put for others or not.
    Fails { has_done: bool },
}

/// Whom an answer concerns, where its client comes over by it or not, and takes here or not.
pub fn concern_of(got: &Answered, comes_over: bool, is_taker: bool) -> Concern
    ensures { result ≡ heard.concern_of comes_over is_taker got.now }
{
    match got {
        Ok(Outcome::Opened(_)) => Concern::Opens,
        Ok(Outcome::Begun) => Concern::Takes,
        Ok(Outcome::Probed(_)) => Concern::Wakes,
        Ok(Outcome::Lost { .. }) => Concern::Ends,
        Ok(Outcome::Done(done) | Outcome::Ticked { done, .. }) if done.closed.is_some() =>
            Concern::Ends,
        Ok(Outcome::Done(_)) if comes_over => Concern::ComesOver,
        // What it brought over this connection may have put something for itself.
        Ok(Outcome::Done(_)) if !is_taker => Concern::Wakes,
        Ok(_) => Concern::Nobody,
        Err(error) => {
            let has_done = error.packets > 0 || error.effects > 0;
            match error.fault {
                CoreFault::UnknownClient => Concern::Gone { has_done },
                _ => Concern::Fails { has_done },
            }
        }
    }
}

impl Concern {
    /// Whether nobody knows for whom something was put: the event failed after it.
    pub fn hides_whom(self) -> bool
        ensures { result ≡ heard.hides_whom self }
    {
        matches!(
            self,
            Concern::Gone { has_done: true } | Concern::Fails { has_done: true }
        )
    }
}
