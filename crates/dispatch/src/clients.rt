//! The open clients: their lines, how one is opened, how what it sends is worked on, what comes and
//! goes over its WebSocket (Engine.IO protocol 4, "WebSocket"), its heartbeat ("Heartbeat"), and how it
//! is lost (Socket.IO server documentation, "Connection state recovery").

ghost use Rattle.std.specs.Prelude.{◌≡◌, ◌≢◌, ◌⊎◌, ℕ, ◌==◌, true, false, Some, None, is_some, IfSome, IfNone, IfOk, IfErr, List};
ghost use Rattle.journal.specs.Membership.{is_open};
ghost use Rattle.connection.specs.Line.{PlainLine};
ghost use Rattle.dispatch.specs.Answers.{ClosesUnread, ForVisit};
ghost use Rattle.dispatch.specs.Frames.{is_too_long, IsFrameOf, IsNoFrame, SendsFor, SendsWaiting};
ghost use Rattle.dispatch.specs.Holding.{line_of, holding, standing, Agree};
ghost use Rattle.dispatch.specs.Machine.{Opens, ReceivesFor, TakesFrames, WorksOn, Loses};
ghost use Rattle.dispatch.specs.Parking.{Parks};
ghost use Rattle.dispatch.specs.Scene.{visit_of};
ghost use Rattle.dispatch.specs.Takes.{IsOn};
ghost use Rattle.dispatch.specs.Upkeep.{Ticks, Sweeps};

use crate::commands;
use crate::packets::handle_each;
use crate::polling::{Taken, fitting, outbox_of, take_entries};
use crate::scene::{Call, Scene, Tally, Visit};
use connection::{Due, Line, Timing, Transport};
use eio_wire::{Numbers, Packet, WireError, open_text, read_packet};
use events::{Answered, App, Cause, CoreFault, Done, Frames, IdSource, Opening, Outcome, WsFrame};
use hub_state::State;
use journal::HubError;
use sio_wire::Scratch;
use std::alloc::Global;
use std::collections::HashMap;
use std::slice;
use terms::Text;

/// A frame of more bytes isn't read.
const LONGEST_FRAME: usize = 1_000_000;

/// The lines of the open clients, by their ids.
pub(crate) type Lines = HashMap<u128, Line>;

/// What each new client is told, and by which times it is closed.
#[derive(Drop)]
pub(crate) struct Handshake {
    pub(crate) timing: Timing,
    pub(crate) numbers: Numbers,
}

/// Forgets the client's line.
fn forget(lines: &mut Lines, client: u128)
    ensures gone { line_of lines.new.entries client ≡ None }
    ensures others { (d : ℕ) → client == d ≡ false
        → line_of lines.new.entries d ≡ line_of lines.old.entries d }
{
    lines.remove(&client);
}

/// How the client speaks.
pub(crate) fn transport_of(lines: &Lines, client: u128) -> Option<Transport>
    ensures none { IfNone result (line_of lines.now.entries client ≡ None) }
    ensures some { IfSome result (λ on. (line : PlainLine)
        × (line_of lines.now.entries client ≡ Some line) × IsOn on line) }
{
    Some(lines.get(&client)?.transport())
}

/// Opens the client. Its line stands before the hub is asked, so that no refused growth leaves a
/// client without one.
pub(crate) fn open(
    visit: Visit,
    state: &mut State,
    lines: &mut Lines,
    handshake: &Handshake,
    socket: bool,
) -> Answered
    requires { Agree state.old lines.old.entries }
    ensures { Opens handshake.now socket (visit_of visit)
        (holding state.old lines.old.entries) result (holding state.new lines.new.entries) }
{
    let (alloc, client) = (visit.alloc, visit.client);
    if let Some(_) = lines.get(&client) {
        return Err(CoreFault::IdTaken.at_once());
    }
    let Ok(text) = open_text(alloc, client, !socket, &handshake.numbers) else {
        return Err(CoreFault::Memory.at_once());
    };
    let line = Line::open(alloc, visit.moment, handshake.timing, socket);
    let Ok(_) = lines.insert(client, line) else {
        return Err(CoreFault::Memory.at_once());
    };
    let text = Text::from_string(text);
    match state.open(alloc, client, visit.moment) {
        Ok(()) => Ok(Outcome::Opened(Opening { client, text })),
        Err(error) => {
            forget(lines, client);
            Err(CoreFault::from(error).at_once())
        }
    }
}

/// Closes a client of whose event nothing was worked on.
pub(crate) fn close_unread(
    visit: Visit,
    state: &mut State,
    lines: &mut Lines,
    cause: Cause,
) -> Answered
    requires { is_open state.old.base state.old.journal visit.client ≡ true }
    ensures { ClosesUnread cause (visit_of visit)
        (holding state.old lines.old.entries) result (holding state.new lines.new.entries) }
{
    commands::close(visit, state)?;
    forget(lines, visit.client);
    Ok(Outcome::Done(Done::closed(visit.alloc, cause)))
}

/// Works on packets, tells what is held of one that isn't whole, and drops the line of a client that
/// one of them closes.
pub(crate) fn work_on<A: App, I: IdSource>(
    visit: Visit,
    state: &mut State,
    lines: &mut Lines,
    app: &A,
    ids: &mut I,
    scratch: &mut Scratch,
    packets: &[Packet],
) -> Answered
    requires agree { Agree state.old lines.old.entries }
    requires known { is_some (line_of lines.old.entries visit.client) ≡ true }
    ensures { (line : PlainLine) → line_of lines.old.entries visit.client ≡ Some line
        → WorksOn (A.policy app.now) (visit_of visit) packets.now line
        (standing state.old lines.old.entries (I.stream ids.old)) result
        (standing state.new lines.new.entries (I.stream ids.new)) }
{
    let Some(line) = lines.get_mut(&visit.client) else {
        unreachable!()
    };
    let mut tally = Tally::new(visit.alloc);
    let mut scene = Scene {
        visit,
        state,
        line,
        tally: &mut tally,
        scratch,
    };
    handle_each(&mut scene, app, ids, packets)?;
    tally.done.unfinished = scene.line.held();
    if tally.done.closed.is_some() {
        forget(lines, visit.client);
    }
    Ok(Outcome::Done(tally.done))
}

/// Whether the frame is too long to be read.
fn is_too_long(frame: &WsFrame) -> bool
    ensures { result ≡ is_too_long frame.now }
{
    let size = match frame {
        WsFrame::Text(text) => text.as_str().len(),
        WsFrame::Bytes(bytes) => bytes.as_slice().len(),
    };
    size > LONGEST_FRAME
}

/// The packet that a frame is.
fn read_frame(alloc: Global, frame: &WsFrame) -> Result<Packet, WireError>
    ensures ok { IfOk result (λ packet. IsFrameOf packet frame.now) }
    ensures err { IfErr result (λ e. (e ≡ WireError.Memory) ⊎ IsNoFrame frame.now e) }
    ensures never { IfErr result (λ e. e ≢ WireError.Separator) }
{
    match frame {
        WsFrame::Text(text) => read_packet(alloc, text.as_str()),
        WsFrame::Bytes(bytes) => Ok(Packet::Binary(bytes.clone()?)),
    }
}

/// Works on a frame that the client sends.
pub(crate) fn receive<A: App, I: IdSource>(
    visit: Visit,
    state: &mut State,
    lines: &mut Lines,
    app: &A,
    ids: &mut I,
    scratch: &mut Scratch,
    frame: &WsFrame,
) -> Answered
    requires { Agree state.old lines.old.entries }
    ensures { ReceivesFor (A.policy app.now) (visit_of visit) frame.now
        (standing state.old lines.old.entries (I.stream ids.old)) result
        (standing state.new lines.new.entries (I.stream ids.new)) }
{
    match transport_of(lines, visit.client) {
        None => return Err(CoreFault::UnknownClient.at_once()),
        Some(Transport::Socket) => {}
        Some(_) => return Err(CoreFault::WrongTransport.at_once()),
    }
    if is_too_long(frame) {
        return close_unread(visit, state, lines, Cause::TooLong);
    }
    match read_frame(visit.alloc, frame) {
        Ok(packet) => {
            let packets = slice::from_ref(&packet);
            work_on(visit, state, lines, app, ids, scratch, packets)
        }
        Err(WireError::Memory) => Err(CoreFault::Memory.at_once()),
        Err(fault) => close_unread(visit, state, lines, Cause::of_wire(fault)),
    }
}

/// Takes the frames of as many entries as a take hands out, or says that there is nothing.
fn take_waiting(visit: Visit, state: &mut State, line: &mut Line, most: usize, ping: bool) -> Taken
    requires { is_open state.old.base state.old.journal visit.client ≡ true }
    ensures { SendsWaiting ping visit.client most visit.moment result
        state.old state.new line.old line.new }
{
    let outbox = outbox_of(state, visit.client);
    let number = fitting(outbox, most);
    if number == 0 && !ping {
        return Ok(Outcome::Nothing);
    }
    let more = number < outbox.len();
    let entries = take_entries(visit, state, line, number, ping)?;
    Ok(Outcome::Frames(Frames::new(ping, entries, more)))
}

/// Takes the frames for a client's WebSocket, or says that there is nothing.
fn frame_take(visit: Visit, state: &mut State, line: &mut Line, most: usize) -> Taken
    requires { is_open state.old.base state.old.journal visit.client ≡ true }
    ensures { SendsFor visit.client most visit.moment result state.old state.new line.old line.new }
{
    let ping = line.is_ping_due();
    let Transport::Socket = line.transport() else {
        return Err(CoreFault::WrongTransport);
    };
    take_waiting(visit, state, line, most, ping)
}

/// Takes the frames for the client's WebSocket.
pub(crate) fn take(visit: Visit, state: &mut State, lines: &mut Lines, most: usize) -> Answered
    requires { Agree state.old lines.old.entries }
    ensures { ForVisit (visit_of visit) (TakesFrames most)
        (holding state.old lines.old.entries) result (holding state.new lines.new.entries) }
{
    let line = lines
        .get_mut(&visit.client)
        .ok_or(CoreFault::UnknownClient)?;
    Ok(frame_take(visit, state, line, most)?)
}

/// Does what is due to the client now. Questions of its sockets that ran out are forgotten first.
pub(crate) fn tick(visit: Visit, state: &mut State, lines: &mut Lines) -> Answered
    requires { Agree state.old lines.old.entries }
    ensures { ForVisit (visit_of visit) Ticks
        (holding state.old lines.old.entries) result (holding state.new lines.new.entries) }
{
    let Some(line) = lines.get_mut(&visit.client) else {
        return Err(CoreFault::UnknownClient.at_once());
    };
    let due = line.tick(visit.moment);
    let cause = match due {
        Due::Nothing | Due::SendPing => {
            let (ping, done) = (due == Due::SendPing, Done::nothing(visit.alloc));
            return Ok(Outcome::Ticked { ping, done });
        }
        Due::PingTimeout => {
            park_or_close(visit, state)?;
            Cause::PingTimeout
        }
        Due::ConnectTimeout => {
            commands::close(visit, state)?;
            Cause::ConnectTimeout
        }
    };
    forget(lines, visit.client);
    let done = Done::closed(visit.alloc, cause);
    Ok(Outcome::Ticked { ping: false, done })
}

/// Saves the sessions of a client, and says so, or closes it where they have no space.
pub(crate) fn park_or_close(visit: Visit, state: &mut State) -> Result<bool, CoreFault>
    requires { is_open state.old.base state.old.journal visit.client ≡ true }
    ensures { Parks state.old visit.moment visit.client result state.new }
{
    match state.park(visit.alloc, visit.client, visit.moment) {
        Ok(()) => return Ok(true),
        Err(HubError::SavedFull) => {}
        Err(error) => return Err(error.into()),
    }
    commands::close(visit, state)?;
    Ok(false)
}

/// The client's connection was lost: its sessions are saved, or where they have no space it is
/// closed.
pub(crate) fn lose(visit: Visit, state: &mut State, lines: &mut Lines) -> Answered
    requires { Agree state.old lines.old.entries }
    ensures { ForVisit (visit_of visit) (λ visit _. Loses visit)
        (holding state.old lines.old.entries) result (holding state.new lines.new.entries) }
{
    let Some(_) = lines.get(&visit.client) else {
        return Err(CoreFault::UnknownClient.at_once());
    };
    let saved = park_or_close(visit, state)?;
    forget(lines, visit.client);
    let done = Done::nothing(visit.alloc);
    Ok(Outcome::Lost { saved, done })
}

/// Drops what the hub keeps no longer: old entries of the log and old saved sessions. No client
/// opens or ends by it, so no line changes.
pub(crate) fn sweep(call: Call, state: &mut State) -> Answered
    ensures { (lines : List (ℕ × PlainLine)) → Sweeps call.moment
        (holding state.old lines) result (holding state.new lines) }
{
    match state.sweep(call.alloc, call.moment) {
        Ok(swept) => Ok(Outcome::Swept(swept)),
        Err(error) => Err(CoreFault::from(error).at_once()),
    }
}
