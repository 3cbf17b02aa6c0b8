//! The hub's commands, as an event of one client uses them: refusals that can't come are gone,
//! those that end the event are faults, and the rest are answers.

ghost use Rattle.std.specs.Prelude.{◌≡◌, true};
ghost use Rattle.journal.specs.declared.error.HubError.TheVariants as hub;
ghost use Rattle.journal.specs.declared.step.What.{What};
ghost use Rattle.journal.specs.Membership.{is_open, is_connected, sid_of};
ghost use Rattle.events.specs.declared.app.Who.{Who};
ghost use Rattle.events.specs.Fault.{IsFault, fault_of};
ghost use Rattle.hub_state.specs.Recovering.{recovery_asked};
ghost use Rattle.dispatch.specs.Commands.{DoesOrStops, DoesOr, IsSeated, MayJoin, seat, Recovers};
ghost use Rattle.dispatch.specs.Effects.{told_to};

use crate::scene::{Acted, Visit};
use events::{CoreFault, Who};
use hub_state::State;
use journal::{HubError, Side};
use recovery::Pid;
use terms::{Entry, Sid};

/// The fault where a command is refused so.
fn fault(error: HubError) -> CoreFault
    requires { IsFault error }
    ensures named { result ≡ fault_of error }
    ensures fault { IsFault error }
{
    error.into()
}

/// Connects an open client's socket to a namespace that it hasn't joined. Answers whether its
/// outbox had space for the answer.
pub(crate) fn attach(
    visit: Visit,
    state: &mut State,
    who: &Who,
    pid: Pid,
) -> Result<bool, CoreFault>
    requires { MayJoin who.now.client who.now.space state.old }
    ensures { let what = What.Attached (seat who.now pid state.old)
        in DoesOr hub.OutboxFull state.old visit.moment what result state.new }
{
    let space = who.space.as_str();
    match state.attach(visit.alloc, who.client, space, who.sid, pid, visit.moment) {
        Ok(()) => Ok(true),
        Err(HubError::OutboxFull) => Ok(false),
        Err(error) => Err(fault(error)),
    }
}

/// Brings a saved session back at an open client, in a namespace that it hasn't joined. Answers
/// `None` where the session can't come back.
pub(crate) fn recover(
    visit: Visit,
    state: &mut State,
    space: &str,
    pid: Pid,
    offset: u64,
) -> Result<Option<Sid>, CoreFault>
    requires { MayJoin visit.client space.now state.old }
    ensures { let back = recovery_asked visit.client space.now pid offset state.old
        in Recovers back state.old visit.moment result state.new }
{
    match state.recover(visit.alloc, visit.client, space, pid, offset, visit.moment) {
        Ok(sid) => Ok(Some(sid)),
        Err(HubError::NotRecoverable(_) | HubError::OutboxFull) => Ok(None),
        Err(error) => Err(fault(error)),
    }
}

/// Tells the client, which is open, something. Answers whether its outbox had space for it.
pub(crate) fn tell(visit: Visit, state: &mut State, entry: Entry) -> Result<bool, CoreFault>
    requires { is_open state.old.base state.old.journal visit.client ≡ true }
    ensures does { let what = told_to visit.client entry
        in DoesOr hub.OutboxFull state.old visit.moment what result state.new }
    ensures seated { (who : Who) → IsSeated who state.old → IsSeated who state.new }
{
    match state.tell(visit.alloc, visit.client, entry, visit.moment) {
        Ok(()) => Ok(true),
        Err(HubError::OutboxFull) => Ok(false),
        Err(error) => Err(fault(error)),
    }
}

/// Ends a connected socket, by the client's will or the server's.
pub(crate) fn end(visit: Visit, state: &mut State, sid: Sid, by: Side) -> Acted
    requires { is_connected sid_of state.old.base state.old.journal sid ≡ true }
    ensures { DoesOrStops state.old visit.moment (What.Ended sid by) result state.new }
{
    Ok(state.end(visit.alloc, sid, by, visit.moment)?)
}

/// Closes the client, which is open.
pub(crate) fn close(visit: Visit, state: &mut State) -> Acted
    requires { is_open state.old.base state.old.journal visit.client ≡ true }
    ensures { DoesOrStops state.old visit.moment (What.Closed visit.client) result state.new }
{
    Ok(state.close(visit.alloc, visit.client, visit.moment)?)
}
