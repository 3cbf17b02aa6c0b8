//! What the packets of a client do (Engine.IO protocol 4, "Packet types"; Socket.IO protocol 5,
//! "Exchange protocol"): those of a connected socket ("Sending and receiving data", "Acknowledgement"
//! and "Disconnection from a namespace"), and a CONNECT ("Connection to a namespace"; Socket.IO server
//! documentation, "Connection state recovery").

ghost use Rattle.std.specs.Prelude.{◌≡◌, ◌≤◌, None, OnOk, IfOk, IfErr, ℕ, List, Option};
ghost use Rattle.connection.specs.Line.{IsWholeIfGiven};
ghost use Rattle.journal.specs.Sessions.{rooms_rising};
ghost use Rattle.events.specs.declared.app.Arrived.{Arrived};
ghost use Rattle.hub_state.specs.Words.{rooms_now};
ghost use Rattle.dispatch.specs.Commands.{IsSeated};
ghost use Rattle.dispatch.specs.Effects.{IsOpenFor};
ghost use Rattle.dispatch.specs.Packets.{course, Draws, IsReady, ClosesFor, GoesOn, Handles, HandlesInTurn, BreaksAfter, DecidesAfter, ClientDisconnects, TakesAck, ReceivesEvent, ReceivesStray, Serves, ServesJoined, IsFreeIn, Refuses, Greets, Connects, ConnectsAs, socket_in, AsksApp, Names, MayRecover, AsksToConnect};
ghost use Rattle.dispatch.specs.Runs.{Runs};
ghost use Rattle.dispatch.specs.Scene.{visit_of, seen, IsActing, IsSameEvent, Plays};

use crate::clients::park_or_close;
use crate::commands;
use crate::effects::{self, act_all};
use crate::scene::Scene;
use eio_wire::Packet;
use events::{
    Answer, App, Arrived, Cause, CoreError, CoreFault, Effect, IdSource, Message, Newcomer,
    Returned, Stopped, Stray, Verdict, Wanted, Who, Worked,
};
use journal::Side;
use recovery::Pid;
use sio_wire::{Header, Kind, Payload, SioError, SioPacket, read_offset, refused_text, resume_of};
use std::alloc::Global;
use terms::{Attachments, Entry, Sid, Text, read_id};

/// Closes the client for a cause.
fn close_for(scene: &mut Scene, cause: Cause) -> Worked
    requires { IsOpenFor scene.old.visit.client (seen scene.old) }
    ensures { Plays (ClosesFor cause) scene.old result scene.new }
{
    Ok(effects::close_for(scene, cause)?)
}

/// What came to a socket: a packet without its namespace.
#[derive(Drop)]
struct Said {
    kind: Kind,
    id: Option<u64>,
    payload: Payload,
    attachments: Attachments,
}

/// Asks the app about what arrived, and does what it wants, after so many effects of the packet.
fn decide<A: App>(scene: &mut Scene, app: &A, who: &Who, arrived: Arrived, before: usize) -> Worked
    requires acting { IsActing who.now scene.old }
    requires few { before ≤ 1 }
    ensures { Plays (DecidesAfter (A.policy app.now) before who.now arrived)
        scene.old result scene.new }
{
    match app.decides(scene.visit.alloc, who, &arrived) {
        Ok(wanted) => act_all(scene, who, wanted, before),
        Err(_) => Err(Stopped {
            fault: CoreFault::Memory,
            effects: before,
        }),
    }
}

/// Ends the socket that its client disconnects.
fn disconnect(scene: &mut Scene, who: &Who) -> Worked
    requires { IsSeated who.now scene.old.state.now }
    ensures { Plays (ClientDisconnects who.now) scene.old result scene.new }
{
    commands::end(scene.visit, scene.state, who.sid, Side::Client)?;
    scene.line.disconnect(who.sid);
    Ok(())
}

/// Receives an answer to no question of its socket. It is noted as ignored.
fn receive_stray<A: App>(scene: &mut Scene, app: &A, who: &Who, id: u64, said: Said) -> Worked
    requires { IsActing who.now scene.old }
    ensures { Plays (ReceivesStray (A.policy app.now) who.now said.payload said.attachments id)
        scene.old result scene.new }
{
    scene.tally.ignore();
    let arrived = Arrived::Stray(Stray {
        id,
        payload: said.payload.into_text(),
        attachments: said.attachments,
    });
    decide(scene, app, who, arrived, 0)
}

/// Takes the answer to a question. One to a question that isn't open is a stray one.
fn take_answer<A: App>(scene: &mut Scene, app: &A, who: &Who, said: Said) -> Worked
    requires { IsActing who.now scene.old }
    ensures { Plays (TakesAck (A.policy app.now) who.now said.payload said.attachments said.id)
        scene.old result scene.new }
{
    let Some(id) = said.id else {
        scene.tally.ignore();
        return Ok(());
    };
    let Ok(tag) = scene.line.answer(who.sid, id) else {
        return receive_stray(scene, app, who, id, said);
    };
    let arrived = Arrived::Answer(Answer {
        tag,
        payload: said.payload.into_text(),
        attachments: said.attachments,
    });
    decide(scene, app, who, arrived, 0)
}

/// Receives an event of a socket. One with an id asks to be acknowledged.
fn receive<A: App>(scene: &mut Scene, app: &A, who: &Who, said: Said) -> Worked
    requires { IsActing who.now scene.old }
    ensures { Plays (ReceivesEvent (A.policy app.now) who.now said.payload said.attachments said.id)
        scene.old result scene.new }
{
    scene.tally.asked = said.id;
    let arrived = Arrived::Event(Message {
        payload: said.payload,
        attachments: said.attachments,
        id: said.id,
    });
    decide(scene, app, who, arrived, 0)
}

/// What a packet of a connected socket does.
fn serve<A: App>(scene: &mut Scene, app: &A, who: &Who, said: Said) -> Worked
    requires acting { IsActing who.now scene.old }
    requires seated { IsSeated who.now scene.old.state.now }
    ensures { Plays
        (Serves (A.policy app.now) who.now said.payload said.attachments said.kind said.id)
        scene.old result scene.new }
{
    match said.kind {
        Kind::Disconnect => disconnect(scene, who),
        Kind::Event | Kind::BinaryEvent => receive(scene, app, who, said),
        Kind::Ack | Kind::BinaryAck => take_answer(scene, app, who, said),
        Kind::Connect | Kind::ConnectError => Ok(()),
    }
}

/// What a packet does that isn't a CONNECT. One for a namespace that the client hasn't joined
/// closes it.
fn serve_joined<A: App>(scene: &mut Scene, app: &A, packet: SioPacket) -> Worked
    requires { IsReady scene.old }
    ensures { Plays (ServesJoined (A.policy app.now) packet) scene.old result scene.new }
{
    let header = packet.header;
    // A hub's sockets are connected, each in one of its namespaces.
    scene.state.facts();
    let client = scene.visit.client;
    let Some(sid) = scene.state.socket_of(client, header.space.as_str()) else {
        return close_for(scene, Cause::NotJoined);
    };
    let space = header.space;
    let who = Who { client, space, sid };
    let said = Said {
        kind: header.kind,
        id: header.id,
        payload: header.payload,
        attachments: packet.attachments,
    };
    serve(scene, app, &who, said)
}

/// Tells the client that it isn't connected, or closes it where its outbox has no space for that.
fn refuse(scene: &mut Scene, space: &str, message: &str) -> Worked
    requires { IsOpenFor scene.old.visit.client (seen scene.old) }
    ensures { Plays (Refuses space.now message.now) scene.old result scene.new }
{
    let alloc = scene.visit.alloc;
    let Ok(text) = refused_text(alloc, space, message) else {
        return Err(CoreFault::Memory.into());
    };
    let entry = Entry {
        text: Text::from_string(text),
        attachments: Attachments::new(alloc),
    };
    if commands::tell(scene.visit, scene.state, entry)? {
        return Ok(());
    }
    close_for(scene, Cause::OutboxFull)
}

/// Asks the app whether the client may connect. Then it has a new socket, and what the app wants is
/// done, or it is refused.
fn ask_app<A: App, I: IdSource>(scene: &mut Scene, app: &A, ids: &mut I, header: Header) -> Worked
    requires ready { IsReady scene.old }
    requires free { IsFreeIn header.space scene.old.visit.client (seen scene.old) }
    ensures { Draws (AsksApp (A.policy app.now) header.space header.payload)
        (scene.old, I.stream ids.old) result (scene.new, I.stream ids.new) }
{
    let Header { space, payload, .. } = header;
    match app.connects(
        scene.visit.alloc,
        scene.visit.moment,
        space.as_str(),
        payload.as_str(),
    ) {
        Ok(Verdict::Accept(wanted)) => {
            accept(scene, app, ids, space, payload.into_text(), wanted)
        }
        Ok(Verdict::Refuse(message)) => { refuse(scene, space.as_str(), message.as_str()) }
        Err(_) => Err(CoreFault::Memory.into()),
    }
}

/// All that the app wants of a socket: what it wanted where it let it in, and what it decides now
/// that it has connected.
fn greet<A: App>(alloc: Global, app: &A, who: &Who, payload: Text, wanted: Vec<Effect>) -> Wanted
    ensures { IfOk result (λ all.
        Greets (A.policy app.now) who.now payload wanted.items all.items) }
{
    let mut all = wanted;
    let claims = Text::from_string(String::new(alloc));
    let newcomer = Newcomer { payload, claims };
    let mut more = app.decides(alloc, who, &Arrived::Connected(newcomer))?;
    all.append(&mut more)?;
    Ok(all)
}

/// The socket with this id.
fn socket_in(client: u128, space: Text, sid: Sid) -> Who
    ensures { result ≡ socket_in client space sid }
{
    Who { client, space, sid }
}

/// The client has a new socket, and what the app wants is done. Where its outbox has no space for
/// the answer, it is closed.
fn connect_as(scene: &mut Scene, who: &Who, pid: Pid, wanted: Vec<Effect>) -> Worked
    requires ready { IsReady scene.old }
    requires own { who.now.client ≡ scene.old.visit.client }
    requires free { IsFreeIn who.now.space who.now.client (seen scene.old) }
    ensures { Plays (ConnectsAs who.now pid wanted.items) scene.old result scene.new }
{
    if !commands::attach(scene.visit, scene.state, who, pid)? {
        return close_for(scene, Cause::OutboxFull);
    }
    scene.line.connect(who.sid);
    scene.tally.count();
    act_all(scene, who, wanted, 1)
}

/// The client has a new socket with the next two ids, of which the app hears.
fn accept<A: App, I: IdSource>(
    scene: &mut Scene,
    app: &A,
    ids: &mut I,
    space: Text,
    payload: Text,
    wanted: Vec<Effect>,
) -> Worked
    requires ready { IsReady scene.old }
    requires free { IsFreeIn space scene.old.visit.client (seen scene.old) }
    ensures { Draws (Connects (A.policy app.now) space payload wanted.items)
        (scene.old, I.stream ids.old) result (scene.new, I.stream ids.new) }
{
    let sid = Sid::new(ids.draw());
    let pid = Pid::new(ids.draw());
    let who = socket_in(scene.visit.client, space, sid);
    let Ok(wanted) = greet(scene.visit.alloc, app, &who, payload, wanted) else {
        return Err(CoreFault::Memory.into());
    };
    connect_as(scene, &who, pid, wanted)
}

/// The session and the offset that the payload of a CONNECT names.
fn named_in(alloc: Global, payload: &str) -> Result<Option<(Pid, u64)>, CoreFault>
    ensures ok { IfOk result (λ named. Names payload.now named) }
    ensures memory { IfErr result (λ f. f ≡ CoreFault.Memory) }
{
    let resume = match resume_of(alloc, payload) {
        Ok(Some(resume)) => resume,
        Err(SioError::Memory) => return Err(CoreFault::Memory),
        Ok(None) | Err(_) => return Ok(None),
    };
    let pid = read_id(resume.pid.as_str());
    let offset = read_offset(resume.offset.as_str());
    let (Some(pid), Some(offset)) = (pid, offset) else {
        return Ok(None);
    };
    Ok(Some((Pid::new(pid), offset)))
}

/// What a CONNECT does. A namespace that the client hasn't joined it joins with the session that it
/// names, or as the app says.
fn connect<A: App, I: IdSource>(scene: &mut Scene, app: &A, ids: &mut I, header: Header) -> Worked
    requires { IsReady scene.old }
    ensures { Draws (AsksToConnect (A.policy app.now) header.space header.payload)
        (scene.old, I.stream ids.old) result (scene.new, I.stream ids.new) }
{
    let space = header.space.as_str();
    if !scene.state.has_space(space) {
        return refuse(scene, space, "Invalid namespace");
    }
    if let Some(_) = scene.state.socket_of(scene.visit.client, space) {
        return close_for(scene, Cause::AlreadyConnected);
    }
    recover_or_ask(scene, app, ids, header)
}

/// The session that the payload names comes back, and the app hears of it. Where it names none, or
/// that one can't come back, the app is asked.
fn recover_or_ask<A: App, I: IdSource>(
    scene: &mut Scene,
    app: &A,
    ids: &mut I,
    header: Header,
) -> Worked
    requires ready { IsReady scene.old }
    requires free { IsFreeIn header.space scene.old.visit.client (seen scene.old) }
    ensures { Draws (MayRecover (A.policy app.now) header.space header.payload)
        (scene.old, I.stream ids.old) result (scene.new, I.stream ids.new) }
{
    let Some(named) = named_in(scene.visit.alloc, header.payload.as_str())? else {
        return ask_app(scene, app, ids, header);
    };
    let space = header.space.as_str();
    let Some(sid) = commands::recover(scene.visit, scene.state, space, named.0, named.1)? else {
        return ask_app(scene, app, ids, header);
    };
    scene.line.connect(sid);
    scene.tally.count();
    let client = scene.visit.client;
    welcome(scene, app, &socket_in(client, header.space, sid))
}

/// The app hears of a session that has come back, and what it wants is done.
fn welcome<A: App>(scene: &mut Scene, app: &A, who: &Who) -> Worked
    requires { IsActing who.now scene.old }
    ensures { let rooms = rooms_rising (rooms_now scene.old.state.now) who.now.sid in Plays
        (DecidesAfter (A.policy app.now) 1 who.now (Arrived.Returned rooms))
        scene.old result scene.new }
{
    let Ok(rooms) = scene.state.rooms_of(scene.visit.alloc, who.sid) else {
        return Err(Stopped {
            fault: CoreFault::Memory,
            effects: 1,
        });
    };
    decide(scene, app, who, Arrived::Returned(Returned { rooms }), 1)
}

/// Goes on with what the assembler gave for a frame.
fn go_on<A: App, I: IdSource>(
    scene: &mut Scene,
    app: &A,
    ids: &mut I,
    given: Result<Option<SioPacket>, SioError>,
) -> Worked
    requires ready { IsReady scene.old }
    requires whole { IfOk given IsWholeIfGiven }
    ensures { Draws (GoesOn (A.policy app.now) given)
        (scene.old, I.stream ids.old) result (scene.new, I.stream ids.new) }
{
    match given {
        Ok(Some(packet)) if packet.header.kind == Kind::Connect => {
            connect(scene, app, ids, packet.header)
        }
        Ok(Some(packet)) => serve_joined(scene, app, packet),
        Ok(None) => Ok(()),
        Err(SioError::Memory) => Err(CoreFault::Memory.into()),
        Err(fault) => close_for(scene, Cause::of_sio(fault)),
    }
}

/// What a packet does.
fn handle<A: App, I: IdSource>(scene: &mut Scene, app: &A, ids: &mut I, packet: &Packet) -> Worked
    requires { IsReady scene.old }
    ensures { Draws (Handles (A.policy app.now) packet.now)
        (scene.old, I.stream ids.old) result (scene.new, I.stream ids.new) }
{
    match packet {
        Packet::Close(_) => {
            park_or_close(scene.visit, scene.state)?;
            scene.tally.close(Cause::ClientClosed);
            Ok(())
        }
        Packet::Ping(_) => close_for(scene, Cause::PingFromClient),
        Packet::Pong(_) => {
            scene.line.pong(scene.visit.moment);
            Ok(())
        }
        Packet::Message(text) => {
            let given = scene
                .line
                .text(scene.visit.alloc, scene.scratch, text.as_str());
            go_on(scene, app, ids, given)
        }
        // Attachments of more bytes than may wait for the client aren't kept.
        Packet::Binary(bytes) => {
            let bytes = bytes.as_slice();
            if scene.line.exceeds(bytes, scene.state.most_bytes()) {
                return close_for(scene, Cause::TooLong);
            }
            let given = scene.line.binary(scene.visit.alloc, bytes);
            go_on(scene, app, ids, given)
        }
        Packet::Open(_) | Packet::Upgrade(_) | Packet::Noop(_) => Ok(()),
    }
}

/// What the packets of a payload do, in order: after the client was closed nothing more is done.
/// After an error so many packets are done, and of the next one so many effects, as the error says.
pub(crate) fn handle_each<A: App, I: IdSource>(
    scene: &mut Scene,
    app: &A,
    ids: &mut I,
    packets: &[Packet],
) -> Result<(), CoreError>
    requires open_client { IsOpenFor scene.old.visit.client (seen scene.old) }
    requires fresh { scene.old.tally.now.done.closed ≡ None }
    ensures same { IsSameEvent scene.old scene.new }
    ensures ok { OnOk result (Runs
        (HandlesInTurn (A.policy app.now) (visit_of scene.old.visit)) packets.now
        (course (seen scene.old) (I.stream ids.old)) (course (seen scene.new) (I.stream ids.new))) }
    ensures err { IfErr result (λ e. BreaksAfter
        (A.policy app.now) (visit_of scene.old.visit) packets.now
        (course (seen scene.old) (I.stream ids.old)) e
        (course (seen scene.new) (I.stream ids.new))) }
{
    let mut count = 0;
    for packet in packets {
        if !scene.tally.is_closed() {
            scene.tally.begin();
            if let Err(stopped) = handle(scene, app, ids, packet) {
                return Err(CoreError {
                    fault: stopped.fault,
                    packets: count,
                    effects: stopped.effects,
                });
            }
        }
        count += 1;
    }
    Ok(())
}

/// A payload names one session and one offset, or none. It has no effect.
pub fn named_once()
    ensures { (payload : List ℕ) (one other : Option (ℕ × ℕ))
        → Names payload one → Names payload other → one ≡ other }
{}
