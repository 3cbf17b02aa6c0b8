//! What the app's effects do, one by one and all of a packet (Socket.IO protocol 5, "Sending and
//! receiving data", "Acknowledgement" and "Disconnection from a namespace"; Socket.IO server
//! documentation, "Broadcasting events", "Rooms" and "Utility methods").

ghost use Rattle.std.specs.Prelude.{◌≡◌, ◌≤◌, ◌++◌, ◌==◌, [], true, false, not, filter, is_none, IfOk, IfErr, OnOk, string_bytes, ℕ};
ghost use Rattle.journal.specs.declared.step.What.{What};
ghost use Rattle.journal.specs.Membership.{is_open, is_space, place_of};
ghost use Rattle.connection.specs.Line.{PlainLine};
ghost use Rattle.journal.specs.Journal.{History};
ghost use Rattle.journal.specs.Command.{Does};
ghost use Rattle.dispatch.specs.Answering as answering;
ghost use Rattle.dispatch.specs.Broadcasting.{work, BroadcastsOrFails};
ghost use Rattle.dispatch.specs.Commands.{IsSeated, IsRoomChange};
ghost use Rattle.dispatch.specs.Effects.{has_long_id, is_bad_emission, is_unsendable, is_wrong, listed, Acts, ActsInTurn, Asks, Closes, Disconnects, Fails, FailsAt, FailsToAsk, FailsToDisconnect, FailsToReply, FailsToSay, IsOpenFor, IsPacket, Replies, Says, Stops, StopsAfter, TellsInquiry, scene, is_among, all_changed, ChangesRooms, EndsAll, FailsToEndAll};
ghost use Rattle.dispatch.specs.Runs.{Runs};
ghost use Rattle.dispatch.specs.Scene.{seen, DoesOrFails, IsActing, IsSameEvent};

use crate::commands;
use crate::scene::{Acted, Scene, Tally, Visit};
use connection::AckError;
use events::{Cause, CoreFault, Done, Effect, Inquiry, Reply, Selection, Stopped, Who, Worked};
use hub_state::State;
use journal::{Cast, Dismissed, Form, HubError, Side};
use room_maps::RoomError;
use sio_wire::{Front, Kind, disconnect_text, write_packet};
use std::alloc::{AllocError, Global};
use std::fmt::Write;
use terms::{Attachments, Entry, Room, Sid, Text, ascii_text, id_text};

const MOST_ATTACHMENTS: usize = 32;

/// The greatest id of a packet: one of fifteen digits.
const MOST_ID: u64 = 999_999_999_999_999;

/// Whether a payload with so many attachments can't be sent.
fn is_unsendable(payload: &str, attachments: &Attachments) -> bool
    ensures { result ≡ is_unsendable payload.now attachments.now }
{
    !payload.as_bytes().contains(&b']') || attachments.len() > MOST_ATTACHMENTS
}

/// Whether its id has more digits than a packet's may have, so that who answers would be closed.
fn has_long_id(form: Form) -> bool
    ensures { result ≡ has_long_id form }
{
    matches!(form.id(), Some(id) if id > MOST_ID)
}

/// Whether it can't be sent: the hub doesn't have its namespace, its payload can't be sent, or its id
/// is too long.
pub(crate) fn is_bad_emission(state: &State, cast: &Cast) -> bool
    ensures { result ≡ is_bad_emission state.now.limits cast.now }
{
    !state.has_space(cast.space.as_str())
        || is_unsendable(cast.payload.as_str(), &cast.attachments)
        || has_long_id(cast.form)
}

fn retain_others(ids: &mut Vec<u128>, client: u128)
    ensures { ids.new.items ≡ filter (λ d. not (d == client)) ids.old.items }
{
    ids.retain(|id| *id != client);
}

/// Sends an event to the sockets of some rooms of its namespace, and counts it.
pub(crate) fn broadcast(visit: Visit, state: &mut State, done: &mut Done, cast: Cast) -> Acted
    requires there { is_space state.old.limits (place_of state.old.limits cast.space) ≡ true }
    requires sendable { is_unsendable cast.payload cast.attachments ≡ false }
    ensures { BroadcastsOrFails visit.client cast visit.moment
        (work state.old done.old) result (work state.new done.new) }
{
    done.clients.reserve()?;
    let cast_done = state.cast(visit.alloc, cast, visit.moment)?;
    let mut ids = cast_done.clients;
    retain_others(&mut ids, visit.client);
    done.clients.push(ids);
    done.effects = done.effects.saturating_add(1);
    Ok(())
}

/// Whether the effect can't be done by itself.
fn is_wrong(state: &State, asked: Option<u64>, effect: &Effect) -> bool
    ensures { result ≡ is_wrong state.now.limits asked effect.now }
{
    match effect {
        Effect::Emit(cast) => is_bad_emission(state, cast),
        Effect::Reply(reply) => {
            asked.is_none() || is_unsendable(reply.payload.as_str(), &reply.attachments)
        }
        Effect::Report => asked.is_none(),
        Effect::Fetch(selection) => {
            asked.is_none() || !state.has_space(selection.space.as_str())
        }
        Effect::EmitAsk(inquiry) => is_unsendable(inquiry.payload.as_str(), &inquiry.attachments),
        Effect::Join(_) | Effect::Leave(_) | Effect::Disconnect => false,
        Effect::AllJoin(selection, _)
        | Effect::AllLeave(selection, _)
        | Effect::AllEnd(selection) => !state.has_space(selection.space.as_str()),
    }
}

/// Closes the client for a cause.
pub(crate) fn close_for(scene: &mut Scene, cause: Cause) -> Acted
    requires { IsOpenFor scene.old.visit.client (seen scene.old) }
    ensures { let client = scene.old.visit.client in DoesOrFails
        (λ now. Closes client now cause) (FailsAt (What.Closed client)) scene.old result scene.new }
{
    commands::close(scene.visit, scene.state)?;
    scene.tally.close(cause);
    Ok(())
}

/// A packet with an id as an entry: of the one kind, or of the other where it has attachments
/// (Socket.IO protocol 5, "Acknowledgement").
fn entry_of(
    alloc: Global,
    kinds: (Kind, Kind),
    who: &Who,
    id: u64,
    payload: Text,
    attachments: Attachments,
) -> Result<Entry, CoreFault>
    requires { is_unsendable payload attachments ≡ false }
    ensures ok { IfOk result (λ entry. IsPacket kinds who.now.space id payload attachments entry) }
    ensures memory { IfErr result (λ f. f ≡ CoreFault.Memory) }
{
    let kind = if attachments.is_empty() {
        kinds.0
    } else {
        kinds.1
    };
    let front = Front {
        kind,
        count: attachments.len() as u32,
        space: who.space.as_str(),
        id: Some(id),
    };
    let text = write_packet(alloc, &front, payload.as_str(), None).or(Err(CoreFault::Memory))?;
    Ok(Entry {
        text: Text::from_string(text),
        attachments,
    })
}

/// Disconnects the socket, and tells the client so where its outbox has space. Its questions go.
fn disconnect(scene: &mut Scene, who: &Who) -> Acted
    requires own { who.now.client ≡ scene.old.visit.client }
    requires seated { IsSeated who.now scene.old.state.now }
    ensures { DoesOrFails (Disconnects who.now) (FailsToDisconnect who.now)
        scene.old result scene.new }
{
    let alloc = scene.visit.alloc;
    let space = who.space.as_str();
    let text = disconnect_text(alloc, space).or(Err(CoreFault::Memory))?;
    let entry = Entry {
        text: Text::from_string(text),
        attachments: Attachments::new(alloc),
    };
    commands::tell(scene.visit, scene.state, entry)?;
    commands::end(scene.visit, scene.state, who.sid, Side::Server)?;
    scene.line.disconnect(who.sid);
    scene.tally.count();
    scene.tally.ended = true;
    Ok(())
}

/// Tells the client the question with this id. Answers whether its outbox had space for it.
fn tell(
    visit: Visit,
    state: &mut State,
    who: &Who,
    id: u64,
    inquiry: Inquiry,
) -> Result<bool, CoreFault>
    requires own { who.now.client ≡ visit.client }
    requires open_client { is_open state.old.base state.old.journal visit.client ≡ true }
    requires sendable { is_unsendable inquiry.payload inquiry.attachments ≡ false }
    ensures { TellsInquiry who.now id inquiry visit.moment state.old result state.new }
{
    let alloc = visit.alloc;
    let kinds = (Kind::Event, Kind::BinaryEvent);
    let entry = entry_of(alloc, kinds, who, id, inquiry.payload, inquiry.attachments)?;
    commands::tell(visit, state, entry)
}

/// Asks the socket a question, or closes its client where the outbox has no space for it. A
/// question that isn't told is forgotten again.
fn ask(scene: &mut Scene, who: &Who, inquiry: Inquiry) -> Acted
    requires own { who.now.client ≡ scene.old.visit.client }
    requires open_client { IsOpenFor who.now.client (seen scene.old) }
    requires sendable { is_unsendable inquiry.payload inquiry.attachments ≡ false }
    ensures { DoesOrFails (Asks who.now inquiry) (FailsToAsk who.now inquiry)
        scene.old result scene.new }
{
    let Visit { alloc, moment, .. } = scene.visit;
    let until = moment.saturating_add(inquiry.wait);
    let id = match scene.line.ask(alloc, who.sid, inquiry.tag, until) {
        Ok(id) => id,
        Err(AckError::Spent) => return Err(CoreFault::Spent),
        Err(_) => return Err(CoreFault::Memory),
    };
    let told = tell(scene.visit, scene.state, who, id, inquiry);
    if let Ok(true) = told {
        scene.tally.count();
        return Ok(());
    }
    let _tag = scene.line.answer(who.sid, id);
    told?;
    close_for(scene, Cause::OutboxFull)
}

/// Tells the client the acknowledgement of an event, or closes it where its outbox has no space.
fn reply(scene: &mut Scene, who: &Who, id: u64, reply: Reply) -> Acted
    requires own { who.now.client ≡ scene.old.visit.client }
    requires open_client { IsOpenFor who.now.client (seen scene.old) }
    requires sendable { is_unsendable reply.payload reply.attachments ≡ false }
    ensures { DoesOrFails (Replies who.now id reply) (FailsToReply who.now id reply)
        scene.old result scene.new }
{
    let alloc = scene.visit.alloc;
    let kinds = (Kind::Ack, Kind::BinaryAck);
    let entry = entry_of(alloc, kinds, who, id, reply.payload, reply.attachments)?;
    if commands::tell(scene.visit, scene.state, entry)? {
        scene.tally.count();
        scene.tally.asked = None;
        return Ok(());
    }
    close_for(scene, Cause::OutboxFull)
}

/// Why an effect was skipped, in words.
fn refusal_words(refused: RoomError) -> &'static str
    ensures { result.now ≡ answering.refusal_words refused }
{
    match refused {
        RoomError::Memory => "no memory",
        RoomError::UnknownSocket => "unknown socket",
        RoomError::AlreadyIn => "already in",
        RoomError::NotIn => "not in",
        RoomError::OwnRoom => "own room",
        RoomError::TooManyRooms => "too many rooms",
        RoomError::SidTaken => "sid taken",
    }
}

/// What a report says: that nothing was skipped, or why the first effect was.
fn report_text(alloc: Global, refused: Option<RoomError>) -> Result<Text, AllocError>
    ensures { IfOk result (λ text. text ≡ answering.report_text refused) }
{
    let Some(refused) = refused else {
        return Text::copy_of(alloc, "[\"ok\"]");
    };
    let words = refusal_words(refused);
    Ok(Text::from_string(format!(in alloc; "[\"error\",\"{words}\"]")?))
}

/// Adds an id in quotes, after this.
fn push_id(text: &mut String, before: &str, sid: Sid) -> Result<(), AllocError>
    ensures { OnOk result (string_bytes text.new
        ≡ string_bytes text.old ++ answering.quoted before.now sid) }
{
    let id = id_text(sid.number());
    let id = ascii_text(&id);
    write!(text, "{before}{id}\"")
}

fn push_more(text: &mut String, sids: &[Sid]) -> Result<(), AllocError>
    ensures { OnOk result (string_bytes text.new
        ≡ string_bytes text.old ++ answering.more_ids sids.now) }
{
    for sid in sids {
        push_id(text, ",\"", *sid)?;
    }
    Ok(())
}

/// The ids of sockets as a list.
fn list_text(alloc: Global, sids: &[Sid]) -> Result<Text, AllocError>
    ensures { IfOk result (λ text. text ≡ answering.list_text sids.now) }
{
    let mut text = String::from_str(alloc, "[\"ok\",[")?;
    if let Some((first, rest)) = sids.split_first() {
        push_id(&mut text, "\"", *first)?;
        push_more(&mut text, rest)?;
    }
    text.push_str("]]")?;
    Ok(Text::from_string(text))
}

/// Acknowledges the event with this text of the server's.
fn say(scene: &mut Scene, who: &Who, text: Text) -> Acted
    requires own { who.now.client ≡ scene.old.visit.client }
    requires open_client { IsOpenFor who.now.client (seen scene.old) }
    requires asked { is_none scene.old.tally.now.asked ≡ false }
    requires sendable { is_unsendable text [] ≡ false }
    ensures { DoesOrFails (Says who.now text) (FailsToSay who.now text)
        scene.old result scene.new }
{
    let attachments = Attachments::new(scene.visit.alloc);
    let answer = Reply {
        payload: text,
        attachments,
    };
    match scene.tally.asked {
        Some(id) => reply(scene, who, id, answer),
        None => unreachable!(),
    }
}

/// Acknowledges the event with what became of its effects.
fn report(scene: &mut Scene, who: &Who) -> Acted
    requires own { who.now.client ≡ scene.old.visit.client }
    requires open_client { IsOpenFor who.now.client (seen scene.old) }
    requires asked { is_none scene.old.tally.now.asked ≡ false }
    ensures { DoesOrFails
        (λ now s t. Says who.now (answering.report_text s.refused) now s t)
        (λ now s f t. FailsToSay who.now (answering.report_text s.refused) now s f t)
        scene.old result scene.new }
{
    let text = report_text(scene.visit.alloc, scene.tally.refused)?;
    say(scene, who, text)
}

/// Acknowledges the event with the ids of all these sockets.
fn fetch(scene: &mut Scene, who: &Who, selection: &Selection) -> Acted
    requires own { who.now.client ≡ scene.old.visit.client }
    requires open_client { IsOpenFor who.now.client (seen scene.old) }
    requires asked { is_none scene.old.tally.now.asked ≡ false }
    requires known { let limits = scene.old.state.now.limits in
        is_space limits (place_of limits selection.now.space) ≡ true }
    ensures { DoesOrFails
        (λ now s t. Says who.now (listed selection.now s.history) now s t)
        (λ now s f t. FailsToSay who.now (listed selection.now s.history) now s f t)
        scene.old result scene.new }
{
    let alloc = scene.visit.alloc;
    let space = selection.space.as_str();
    let sids = scene
        .state
        .selected(alloc, space, &selection.rooms, &selection.excepted)?;
    let text = list_text(alloc, sids.as_slice())?;
    say(scene, who, text)
}

/// Counts a change of rooms that the hub answered so, or skips it where the rooms don't allow it.
fn change<X: Drop>(answer: Result<X, HubError>, tally: &mut Tally) -> Acted
    requires { IfErr answer IsRoomChange }
    ensures ok { OnOk result ((g h : History) (l : PlainLine) (now : ℕ) (what : What)
        → Does g h now what answer
        → ChangesRooms what now (scene g l tally.old) (scene h l tally.new)) }
    ensures err { IfErr result (λ f. (g h : History) (l : PlainLine) (now : ℕ) (what : What)
        → Does g h now what answer
        → FailsAt what now (scene g l tally.old) f (scene h l tally.new)) }
{
    match answer {
        Ok(_changed) => tally.count(),
        Err(HubError::RoomRefused(refusal)) => {
            tally.count();
            tally.note(Some(refusal));
        }
        Err(error) => return Err(error.into()),
    }
    Ok(())
}

/// All these sockets join a room, or leave it, or none does.
fn change_all(scene: &mut Scene, selection: Selection, room: Room, enters: bool) -> Acted
    requires { let limits = scene.old.state.now.limits in
        is_space limits (place_of limits selection.space) ≡ true }
    ensures { DoesOrFails
        (λ now s t. ChangesRooms (all_changed enters selection room s.history) now s t)
        (λ now s f t. FailsAt (all_changed enters selection room s.history) now s f t)
        scene.old result scene.new }
{
    let Visit { alloc, moment, .. } = scene.visit;
    let Selection {
        space,
        rooms,
        excepted,
    } = selection;
    let space = space.as_str();
    let state = &mut *scene.state;
    if enters {
        let answer = state.sockets_join(alloc, space, rooms, excepted, room, moment);
        return change(answer, scene.tally);
    }
    let answer = state.sockets_leave(alloc, space, rooms, excepted, room, moment);
    change(answer, scene.tally)
}

fn is_among(sids: &[Sid], sid: Sid) -> bool
    ensures { result ≡ is_among sid sids.now }
{
    sids.iter().any(|other| sid == *other)
}

/// Disconnects all these sockets. Where the acting one is among them, its questions go.
fn end_all(scene: &mut Scene, who: &Who, selection: Selection) -> Acted
    requires { let limits = scene.old.state.now.limits in
        is_space limits (place_of limits selection.space) ≡ true }
    ensures { DoesOrFails (EndsAll who.now selection) (FailsToEndAll selection)
        scene.old result scene.new }
{
    let Visit { alloc, moment, .. } = scene.visit;
    let tally = &mut *scene.tally;
    tally.done.clients.reserve()?;
    let Selection {
        space,
        rooms,
        excepted,
    } = selection;
    let space = space.as_str();
    let Dismissed { ended, mut told } = scene
        .state
        .disconnect_sockets(alloc, space, rooms, excepted, moment)?;
    retain_others(&mut told, who.client);
    tally.done.clients.push(told);
    tally.count();
    tally.ended = is_among(ended.as_slice(), who.sid);
    if tally.ended {
        scene.line.disconnect(who.sid);
    }
    Ok(())
}

/// What an effect does that is allowed.
fn act_allowed(scene: &mut Scene, who: &Who, effect: Effect) -> Acted
    requires own { who.now.client ≡ scene.old.visit.client }
    requires seated { IsSeated who.now scene.old.state.now }
    requires allowed { let limits = scene.old.state.now.limits in
        is_wrong limits scene.old.tally.now.asked effect ≡ false }
    ensures { DoesOrFails (λ now s t. Acts who.now now s effect t)
        (λ now s f t. Fails who.now now s effect f t) scene.old result scene.new }
{
    let Visit { alloc, moment, .. } = scene.visit;
    match effect {
        Effect::Join(room) => {
            let answer = scene.state.join(alloc, who.sid, room, moment);
            change(answer, scene.tally)
        }
        Effect::Leave(room) => {
            let answer = scene.state.leave(alloc, who.sid, room, moment);
            change(answer, scene.tally)
        }
        Effect::Emit(cast) => {
            let done = &mut scene.tally.done;
            broadcast(scene.visit, scene.state, done, cast)
        }
        Effect::Reply(answer) => match scene.tally.asked {
            Some(id) => reply(scene, who, id, answer),
            None => unreachable!(),
        },
        Effect::Report => report(scene, who),
        Effect::Fetch(selection) => fetch(scene, who, &selection),
        Effect::EmitAsk(inquiry) => ask(scene, who, inquiry),
        Effect::Disconnect => disconnect(scene, who),
        Effect::AllJoin(selection, room) => change_all(scene, selection, room, true),
        Effect::AllLeave(selection, room) => change_all(scene, selection, room, false),
        Effect::AllEnd(selection) => end_all(scene, who, selection),
    }
}

/// What an effect does in its turn.
fn act(scene: &mut Scene, who: &Who, effect: Effect) -> Acted
    requires { IsActing who.now scene.old }
    ensures { DoesOrFails (λ now s t. ActsInTurn who.now now s effect t)
        (λ now s f t. Stops who.now now s effect f t) scene.old result scene.new }
{
    if scene.tally.is_closed() {
        return Ok(());
    }
    // An effect after the socket was disconnected can't be done either.
    if scene.tally.ended || is_wrong(scene.state, scene.tally.asked, &effect) {
        return Err(CoreFault::BadEffect);
    }
    act_allowed(scene, who, effect)
}

/// What the effects of one packet do, in order. So many of its effects were done before, and after
/// an error so many are done as it says.
pub(crate) fn act_all(scene: &mut Scene, who: &Who, wanted: Vec<Effect>, before: usize) -> Worked
    requires acting { IsActing who.now scene.old }
    requires few { before ≤ 1 }
    ensures same { IsSameEvent scene.old scene.new }
    ensures ok { OnOk result (Runs (ActsInTurn who.now scene.old.visit.moment) wanted.items
        (seen scene.old) (seen scene.new)) }
    ensures err { IfErr result (λ stopped. StopsAfter who.now scene.old.visit.moment
        before wanted.items (seen scene.old) stopped (seen scene.new)) }
{
    let mut effects = before;
    for effect in wanted {
        if let Err(fault) = act(scene, who, effect) {
            return Err(Stopped { fault, effects });
        }
        effects += 1;
    }
    Ok(())
}
