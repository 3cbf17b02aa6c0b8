//! What the requests of a client that polls do to the hub and to its line, what its GETs carry away,
//! and how it comes to speak over a WebSocket (Engine.IO protocol 4, "HTTP long-polling", "Heartbeat"
//! and "Upgrade").

ghost use Rattle.std.specs.Prelude.{◌≡◌, ◌<◌, ◌++◌, true, length, map, take, All, Ok, Err, IfOk, IfErr, OnOk};
ghost use Rattle.std.specs.Arc.{arc_value};
ghost use Rattle.eio_wire.specs.Payload.{Payload, HasWholeData};
ghost use Rattle.journal.specs.Journal.{History};
ghost use Rattle.journal.specs.Membership.{is_open};
ghost use Rattle.hub_state.specs.Words.{outbox_for, took};
ghost use Rattle.connection.specs.Line.{Advances};
ghost use Rattle.events.specs.Answer.{at_once};
ghost use Rattle.dispatch.specs.Answers.{ForVisit, OnLine};
ghost use Rattle.dispatch.specs.Commands.{Makes, StopsAt};
ghost use Rattle.dispatch.specs.Holding.{holding, standing, Agree, IsClean};
ghost use Rattle.dispatch.specs.Machine.{Begins, Ends, Takes, PostsFor};
ghost use Rattle.dispatch.specs.Scene.{visit_of};
ghost use Rattle.dispatch.specs.Takes.{IsFitting, packets_of, carried, handed, TellsNoop, ping_calls, TakesWaiting, TakesFor};
ghost use Rattle.dispatch.specs.Upgrade.{fault_of_clock, Probes, Upgrades, LosesProbe};

use crate::clients::{Lines, close_unread, transport_of, work_on};
use crate::scene::Visit;
use connection::{ClockError, Line, Transport};
use eio_wire::{Packet, WireError, read_payload, write_payload};
use events::{Answered, App, Cause, CoreFault, Done, IdSource, Outcome};
use hub_state::{Outbox, State, free_after};
use sio_wire::Scratch;
use std::alloc::{AllocError, Global};
use std::slice;
use std::sync::Arc;
use terms::{Entry, Text};

/// A take of some entries hands out no more bytes than these, but for a single entry that has more.
const MOST_TAKEN: usize = 262_144;

/// What a take of a client brings, or the fault that ends its event.
pub(crate) type Taken = Result<Outcome, CoreFault>;

/// Works on the packets of a payload that the client posts.
pub(crate) fn post<A: App, I: IdSource>(
    visit: Visit,
    state: &mut State,
    lines: &mut Lines,
    app: &A,
    ids: &mut I,
    scratch: &mut Scratch,
    body: &str,
) -> Answered
    requires { Agree state.old lines.old.entries }
    ensures { PostsFor (A.policy app.now) (visit_of visit) body.now
        (standing state.old lines.old.entries (I.stream ids.old)) result
        (standing state.new lines.new.entries (I.stream ids.new)) }
{
    match transport_of(lines, visit.client) {
        None => return Err(CoreFault::UnknownClient.at_once()),
        Some(Transport::Socket) => return Err(CoreFault::WrongTransport.at_once()),
        Some(_) => {}
    }
    match read_payload(visit.alloc, body) {
        Ok(packets) => {
            let packets = packets.as_slice();
            work_on(visit, state, lines, app, ids, scratch, packets)
        }
        Err(WireError::Memory) => Err(CoreFault::Memory.at_once()),
        Err(fault) => close_unread(visit, state, lines, Cause::of_wire(fault)),
    }
}

/// A GET of the client begins to wait. A second one closes it.
pub(crate) fn begin(visit: Visit, state: &mut State, lines: &mut Lines) -> Answered
    requires { Agree state.old lines.old.entries }
    ensures { ForVisit (visit_of visit) Begins
        (holding state.old lines.old.entries) result (holding state.new lines.new.entries) }
{
    let line = lines
        .get_mut(&visit.client)
        .ok_or(CoreFault::UnknownClient)?;
    if let Transport::Socket = line.transport() {
        return Err(CoreFault::WrongTransport.at_once());
    }
    if line.is_getting() {
        return close_unread(visit, state, lines, Cause::DoubleGet);
    }
    line.begin_get();
    Ok(Outcome::Begun)
}

/// The client's GET waits no more.
pub(crate) fn end(alloc: Global, lines: &mut Lines, client: u128) -> Answered
    ensures { OnLine client Ends lines.old.entries result lines.new.entries }
{
    let Some(line) = lines.get_mut(&client) else {
        return Err(CoreFault::UnknownClient.at_once());
    };
    line.end_get();
    Ok(Outcome::Done(Done::nothing(alloc)))
}

/// Takes the payload for the client's GET.
pub(crate) fn take(visit: Visit, state: &mut State, lines: &mut Lines, most: usize) -> Answered
    requires agree { Agree state.old lines.old.entries }
    requires clean { IsClean state.old }
    ensures { ForVisit (visit_of visit) (Takes most)
        (holding state.old lines.old.entries) result (holding state.new lines.new.entries) }
{
    let line = lines
        .get_mut(&visit.client)
        .ok_or(CoreFault::UnknownClient)?;
    Ok(poll_take(visit, state, line, most)?)
}

/// The outbox of an open client.
pub(crate) fn outbox_of(state: &State, client: u128) -> &Outbox
    requires { is_open state.now.base state.now.journal client ≡ true }
    ensures { result.now ≡ outbox_for state.now client }
{
    let Some(outbox) = state.outbox(client) else {
        unreachable!()
    };
    outbox
}

/// How many of the entries that wait a take of at most so many hands out: the longest front that
/// fits, and one at least where there is one. Where all of them fit, it looks at none.
pub(crate) fn fitting(outbox: &Outbox, most: usize) -> usize
    ensures { IsFitting most outbox.now.waiting result }
{
    if outbox.used() <= MOST_TAKEN {
        return most.min(outbox.len());
    }
    let mut room = MOST_TAKEN;
    for index in 0..most {
        let Some(entry) = outbox.get(index) else {
            return index;
        };
        let Some(left) = free_after(room, entry) else {
            return index.max(1);
        };
        room = left;
    }
    most
}

/// Adds the packets of an entry: its text, and then its attachments.
fn push_entry(packets: &mut Vec<Packet>, entry: &Entry) -> Result<(), AllocError>
    ensures { OnOk result (packets.new.items ≡ packets.old.items ++ packets_of entry.now) }
{
    packets.push(Packet::Message(entry.text.clone()?))?;
    for attachment in entry.attachments.as_slice() {
        packets.push(Packet::Binary(attachment.clone()?))?;
    }
    Ok(())
}

/// The packets that a take of at most so many entries carries.
fn packets_for(
    alloc: Global,
    outbox: &Outbox,
    ping: bool,
    most: usize,
) -> Result<Vec<Packet>, AllocError>
    ensures { IfOk result (λ packets.
        packets.items ≡ carried ping (take most outbox.now.waiting)) }
{
    let mut packets = Vec::new(alloc);
    if ping {
        packets.push(Packet::Ping(Text::copy_of(alloc, "")?))?;
    }
    for index in 0..most {
        let Some(entry) = outbox.get(index) else {
            return Ok(packets);
        };
        push_entry(&mut packets, entry)?;
    }
    Ok(packets)
}

/// The payload of these packets, of which there are some.
fn payload_of(alloc: Global, packets: &[Packet]) -> Result<Text, CoreFault>
    requires some { 0 < length packets.now }
    requires whole { All HasWholeData packets.now }
    ensures ok { IfOk result (λ text. Payload packets.now text) }
    ensures err { IfErr result (λ f. f ≡ CoreFault.Memory) }
{
    match write_payload(alloc, packets) {
        Ok(text) => Ok(Text::from_string(text)),
        Err(fault) if fault == WireError::Memory => Err(CoreFault::Memory),
        Err(_) => unreachable!(),
    }
}

/// Tells a GET that there is nothing to wait for.
fn noop(alloc: Global, line: &mut Line) -> Taken
    ensures { (h : History) → TellsNoop result h h line.old line.new }
{
    let packet = Packet::Noop(Text::copy_of(alloc, "")?);
    let text = payload_of(alloc, slice::from_ref(&packet))?;
    line.end_get();
    Ok(Outcome::Payload(text))
}

/// Takes so many entries, where there are some, and then a ping that was due.
pub(crate) fn take_entries(
    visit: Visit,
    state: &mut State,
    line: &mut Line,
    number: usize,
    ping: bool,
) -> Result<Vec<Arc<Entry>>, CoreFault>
    requires { is_open state.old.base state.old.journal visit.client ≡ true }
    ensures entries { IfOk result (λ entries.
        map arc_value entries.items ≡ handed state.old visit.client number) }
    ensures none { number ≡ 0 → OnOk result (state.new ≡ state.old) }
    ensures some { 0 < number → OnOk result
        (Makes state.old visit.moment (took state.old visit.client number) state.new) }
    ensures line { OnOk result (Advances line.old (ping_calls ping) line.new) }
    ensures err { IfErr result (λ f. (0 < number)
        × StopsAt state.old visit.moment (took state.old visit.client number) f
        × (state.new ≡ state.old) × (line.new ≡ line.old)) }
{
    let entries = match number {
        0 => Vec::new(visit.alloc),
        _ => state.take_shared(visit.alloc, visit.client, number, visit.moment)?,
    };
    if ping {
        line.carry_ping();
    }
    Ok(entries)
}

/// Takes the payload for a GET of a client that polls, or says that there is nothing to take. It is
/// written before the entries are taken.
fn take_waiting(
    visit: Visit,
    state: &mut State,
    line: &mut Line,
    transport: Transport,
    most: usize,
    ping: bool,
) -> Taken
    requires open_client { is_open state.old.base state.old.journal visit.client ≡ true }
    requires clean { IsClean state.old }
    ensures { TakesWaiting transport ping visit.client most visit.moment result
        state.old state.new line.old line.new }
{
    let outbox = outbox_of(state, visit.client);
    let number = fitting(outbox, most);
    let packets = packets_for(visit.alloc, outbox, ping, number)?;
    if packets.is_empty() {
        return match transport {
            Transport::Probing => noop(visit.alloc, line),
            _ => Ok(Outcome::Nothing),
        };
    }
    let text = payload_of(visit.alloc, packets.as_slice())?;
    let _taken = take_entries(visit, state, line, number, ping)?;
    line.end_get();
    Ok(Outcome::Payload(text))
}

/// Takes the payload for a client's GET.
pub(crate) fn poll_take(visit: Visit, state: &mut State, line: &mut Line, most: usize) -> Taken
    requires open_client { is_open state.old.base state.old.journal visit.client ≡ true }
    requires clean { IsClean state.old }
    ensures { TakesFor visit.client most visit.moment result state.old state.new line.old line.new }
{
    let transport = line.transport();
    let getting = line.is_getting();
    let ping = line.is_ping_due();
    match transport {
        Transport::Socket if getting => noop(visit.alloc, line),
        Transport::Socket => Err(CoreFault::WrongTransport),
        Transport::Polling | Transport::Probing => {
            take_waiting(visit, state, line, transport, most, ping)
        }
    }
}

/// The client, which polls, probes a WebSocket. The answer's text is made first, so that a probe
/// that is refused for memory has not begun.
pub(crate) fn probe(alloc: Global, lines: &mut Lines, client: u128) -> Answered
    ensures { OnLine client Probes lines.old.entries result lines.new.entries }
{
    let Some(line) = lines.get_mut(&client) else {
        return Err(CoreFault::UnknownClient.at_once());
    };
    let Ok(text) = Text::copy_of(alloc, "3probe") else {
        return Err(CoreFault::Memory.at_once());
    };
    answer(Outcome::Probed(text), line.probe())
}

/// What comes of what the clock said: this outcome, or the fault by its name.
fn answer(outcome: Outcome, said: Result<(), ClockError>) -> Answered
    ensures ok { OnOk said (result ≡ Ok outcome) }
    ensures err { IfErr said (λ e. result ≡ Err (at_once (fault_of_clock e))) }
{
    let fault = match said {
        Ok(()) => return Ok(outcome),
        Err(ClockError::NotProbing) => CoreFault::NotProbing,
        Err(ClockError::AlreadyProbing) => CoreFault::AlreadyProbing,
        Err(ClockError::AlreadyUpgraded) => CoreFault::AlreadyUpgraded,
    };
    Err(fault.at_once())
}

/// The probe succeeded, and the client speaks over the WebSocket from now on.
pub(crate) fn upgrade(alloc: Global, lines: &mut Lines, client: u128) -> Answered
    ensures { OnLine client Upgrades lines.old.entries result lines.new.entries }
{
    let Some(line) = lines.get_mut(&client) else {
        return Err(CoreFault::UnknownClient.at_once());
    };
    answer(Outcome::Done(Done::nothing(alloc)), line.upgrade())
}

/// The probe failed, and the client polls on.
pub(crate) fn probe_lost(alloc: Global, lines: &mut Lines, client: u128) -> Answered
    ensures { OnLine client LosesProbe lines.old.entries result lines.new.entries }
{
    let Some(line) = lines.get_mut(&client) else {
        return Err(CoreFault::UnknownClient.at_once());
    };
    answer(Outcome::Done(Done::nothing(alloc)), line.probe_lost())
}
