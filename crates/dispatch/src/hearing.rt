//! What the app does where sockets have ended, and of those that an event ended (Socket.IO server
//! documentation, "Server API": the events `disconnecting` and `disconnect`).

ghost use Rattle.std.specs.Prelude.{◌≡◌, ◌<◌, Ok, Err, Some, drop, length, slice_get, IfOk, IfErr};
ghost use Rattle.hub_state.specs.EndedSockets.{PlainEnded, ended_sockets};
ghost use Rattle.events.specs.Plain.{PlainDone};
ghost use Rattle.dispatch.specs.Broadcasting.{work};
ghost use Rattle.dispatch.specs.Hearing.{HearsAfter, HearsOf, HearsOfAll, Sends, fault_after};
ghost use Rattle.dispatch.specs.Runs.{RunsOrFails};

use crate::effects::{broadcast, is_bad_emission};
use crate::scene::{Acted, Call, Visit};
use events::{Answered, App, CoreError, CoreFault, Done, Effect, Outcome, Who};
use hub_state::State;
use terms::Text;

/// Does an effect of a socket that has ended.
fn send(visit: Visit, state: &mut State, done: &mut Done, effect: Effect) -> Acted
    ensures { Sends visit.client visit.moment
        (work state.old done.old) effect result (work state.new done.new) }
{
    let Effect::Emit(cast) = effect else {
        return Err(CoreFault::BadEffect);
    };
    if is_bad_emission(state, &cast) {
        return Err(CoreFault::BadEffect);
    }
    broadcast(visit, state, done, cast)
}

/// Does the effects of a socket that has ended, until one of them is refused.
fn send_all(visit: Visit, state: &mut State, done: &mut Done, effects: Vec<Effect>) -> Acted
    ensures { RunsOrFails (Sends visit.client visit.moment) effects.items
        (work state.old done.old) result (work state.new done.new) }
{
    for effect in effects {
        send(visit, state, done, effect)?;
    }
    Ok(())
}

/// The app hears of a socket that has ended, the one at an index.
fn hear_of<A: App>(visit: Visit, state: &mut State, app: &A, done: &mut Done, index: usize) -> Acted
    requires { index < length (ended_sockets state.old.base state.old.journal) }
    ensures { (gone : PlainEnded)
        → slice_get (ended_sockets state.old.base state.old.journal) index ≡ Some gone
        → HearsOf (A.policy app.now) visit.client visit.moment
        (work state.old done.old) gone result (work state.new done.new) }
{
    let gone = &state.ended_sockets()[index];
    let name = state.name_at(usize::from(gone.socket.space));
    let who = Who {
        client: gone.socket.client,
        space: Text::copy_of(visit.alloc, name)?,
        sid: gone.socket.sid,
    };
    let effects = app.ended(visit.alloc, &who, &gone.rooms, gone.ending)?;
    send_all(visit, state, done, effects)
}

/// The app hears of the sockets that have ended, from the one at an index on, and what it wants
/// then is done, until something is refused.
fn hear_all<A: App>(visit: Visit, state: &mut State, app: &A, done: &mut Done, from: usize) -> Acted
    ensures { let ended = drop from (ended_sockets state.old.base state.old.journal) in
        HearsOfAll (A.policy app.now) visit.client visit.moment ended
        (work state.old done.old) result (work state.new done.new) }
{
    for index in from..state.ended_sockets().len() {
        hear_of(visit, state, app, done, index)?;
    }
    Ok(())
}

/// The app hears of the sockets that ended, and what it wants then is done, too.
fn hear<A: App>(
    visit: Visit,
    state: &mut State,
    app: &A,
    from: usize,
    done: Done,
) -> Result<Done, CoreError>
    ensures ok { let ended = drop from (ended_sockets state.old.base state.old.journal) in
        IfOk result (λ after. HearsOfAll (A.policy app.now) visit.client visit.moment ended
        (work state.old done) (Ok tt) (work state.new after)) }
    ensures err { let ended = drop from (ended_sockets state.old.base state.old.journal) in
        IfErr result (λ e. (after : PlainDone)
        × HearsOfAll (A.policy app.now) visit.client visit.moment ended
        (work state.old done) (Err e.fault) (work state.new after)
        × (e ≡ record { fault = e.fault; packets = after.packets; effects = after.effects })) }
{
    let mut done = done;
    match hear_all(visit, state, app, &mut done, from) {
        Ok(()) => Ok(done),
        Err(fault) => Err(CoreError {
            fault,
            packets: done.packets,
            effects: done.effects,
        }),
    }
}

/// The fault of an event that ended with one, once the app has heard. Want of memory is told even
/// then: the app may not have heard of a socket.
fn fault_after(fault: CoreFault, heard: Acted) -> CoreFault
    ensures { result ≡ fault_after fault heard }
{
    match heard {
        Err(CoreFault::Memory) => CoreFault::Memory,
        _ => fault,
    }
}

/// The app hears of the sockets that an event of a client ended, those from an index on. The event
/// was answered so; an error of it stays, but for want of memory to hear.
pub(crate) fn hear_after<A: App>(
    call: Call,
    state: &mut State,
    app: &A,
    client: Option<u128>,
    from: usize,
    said: Answered,
) -> Answered
    ensures { let ended = drop from (ended_sockets state.old.base state.old.journal) in
        HearsAfter (A.policy app.now) call.moment client ended state.old said result state.new }
{
    let Some(client) = client else {
        return said;
    };
    let visit = call.of(client);
    match said {
        Ok(Outcome::Done(done)) => Ok(Outcome::Done(hear(visit, state, app, from, done)?)),
        Ok(Outcome::Lost { saved, done }) => {
            let done = hear(visit, state, app, from, done)?;
            Ok(Outcome::Lost { saved, done })
        }
        Ok(Outcome::Ticked { ping, done }) => {
            let done = hear(visit, state, app, from, done)?;
            Ok(Outcome::Ticked { ping, done })
        }
        Ok(outcome) => Ok(outcome),
        Err(mut error) => {
            let mut done = Done::nothing(visit.alloc);
            done.packets = error.packets;
            done.effects = error.effects;
            let heard = hear_all(visit, state, app, &mut done, from);
            error.fault = fault_after(error.fault, heard);
            error.effects = done.effects;
            Err(error)
        }
    }
}
