//! The demonstration app, and any app that also tells the rooms of a socket that has ended.

ghost use Rattle.std.specs.Prelude.{◌≡◌, ◌++◌, [], IfOk, OnOk};
ghost use Rattle.relay.specs.Presence as presence;
ghost use Rattle.relay.specs.Presence.{Leaves, told};
ghost use Rattle.relay.specs.Relay as table;
ghost use Rattle.relay.specs.Relay.{Allows, decided};

use events::{
    App, Arrived, Effect, Inquiry, Message, Reply, Selection, Verdict, Wanted, Who, ending_word,
};
use journal::{Cast, Ending, Form};
use sio_wire::{SioError, names};
use std::alloc::{AllocError, Global};
use terms::{Attachments, Room, Sid, Text, ascii_text, id_text};

/// The payload of a CONNECT that isn't accepted.
const NO_TOKEN: &str = r#"{"token":"no"}"#;

/// What the client is told then.
const NOT_ALLOWED: &str = "Not allowed";

/// The demonstration app, by which sockets join rooms and speak to them.
#[derive(Clone, Copy, Debug)]
pub struct RelayApp;

impl App for RelayApp {
    ghost policy = { λ app. record {
      allows = λ moment space payload verdict. Allows payload verdict;
      decides = λ who arrived effects. effects ≡ decided who arrived;
      ends = λ who rooms ending effects. effects ≡ [];
    } };

    fn connects(
        &self,
        alloc: Global,
        _moment: u64,
        _space: &str,
        payload: &str,
    ) -> Result<Verdict, AllocError> {
        if payload == NO_TOKEN {
            return Ok(Verdict::Refuse(Text::copy_of(alloc, NOT_ALLOWED)?));
        }
        Ok(Verdict::Accept(Vec::new(alloc)))
    }

    fn decides(&self, alloc: Global, who: &Who, arrived: &Arrived) -> Wanted {
        match arrived {
            Arrived::Event(message) => decide(alloc, who, message),
            _ => Ok(Vec::new(alloc)),
        }
    }

    fn ended(&self, alloc: Global, _who: &Who, _rooms: &[Room], _ending: Ending) -> Wanted {
        Ok(Vec::new(alloc))
    }
}

/// The effects of an event.
fn decide(alloc: Global, who: &Who, message: &Message) -> Wanted
    ensures { IfOk result (λ effects. effects.items ≡ table.effects_of who.now message.now) }
{
    match message.payload.known_names() {
        Some(texts) => effects_by(alloc, who, texts, message),
        None => {
            let texts = texts_of(alloc, message.payload.as_str())?;
            effects_by(alloc, who, &texts, message)
        }
    }
}

/// The effects of an event with these texts among its elements.
fn effects_by(alloc: Global, who: &Who, texts: &[Option<Text>], message: &Message) -> Wanted
    ensures { IfOk result (λ effects.
        effects.items ≡ table.effects_by texts.now who.now message.now) }
{
    let mut effects = Vec::new(alloc);
    if let Some(effect) = first_effect(alloc, who, texts, message)? {
        effects.push(effect)?;
    }
    if message.id.is_some() {
        effects.push(reply(alloc)?)?;
    }
    if matches!(word_in(texts), Word::Bye) {
        effects.push(Effect::Disconnect)?;
    }
    Ok(effects)
}

/// The texts among an event's elements. A payload that is no array has none.
fn texts_of(alloc: Global, payload: &str) -> Result<Vec<Option<Text>>, AllocError>
    ensures { IfOk result (λ texts. texts.items ≡ table.texts_of payload.now) }
{
    match names(alloc, payload) {
        Ok(texts) => Ok(texts),
        Err(SioError::Memory) => Err(AllocError),
        Err(_) => Ok(Vec::new(alloc)),
    }
}

/// What an event does before it is acknowledged.
fn first_effect(
    alloc: Global,
    who: &Who,
    texts: &[Option<Text>],
    message: &Message,
) -> Result<Option<Effect>, AllocError>
    ensures { IfOk result (λ effect.
        effect ≡ table.first_effect who.now texts.now message.now) }
{
    let own = Room::own(who.sid);
    let effect = match (word_in(texts), room_in(texts, 1), room_in(texts, 2)) {
        (Word::Join, Some(room), _) => Effect::Join(room),
        (Word::Leave, Some(room), _) => Effect::Leave(room),
        (Word::Say, Some(room), _) => emit(alloc, who, &[room], &[own], true, message)?,
        (Word::Quiet, Some(room), _) => emit(alloc, who, &[room], &[own], false, message)?,
        (Word::Two, Some(room), Some(other)) => {
            emit(alloc, who, &[room, other], &[own], true, message)?
        }
        (Word::But, Some(room), Some(other)) => {
            emit(alloc, who, &[room], &[other, own], true, message)?
        }
        (Word::All, _, _) => emit(alloc, who, &[], &[], true, message)?,
        (Word::Ask, _, _) => Effect::EmitAsk(Inquiry {
            payload: Text::copy_of(alloc, message.payload.as_str())?,
            attachments: message.attachments.clone()?,
            tag: 0,
            wait: 10_000,
        }),
        (Word::Pull, Some(room), Some(other)) => {
            Effect::AllJoin(select(alloc, who, room, &[])?, other)
        }
        (Word::Push, Some(room), Some(other)) => {
            Effect::AllLeave(select(alloc, who, room, &[])?, other)
        }
        (Word::Kick, Some(room), _) => Effect::AllEnd(select(alloc, who, room, &[own])?),
        _ => return Ok(None),
    };
    Ok(Some(effect))
}

/// The sockets of a room of the socket's namespace, except those in some others.
fn select(alloc: Global, who: &Who, room: Room, excepted: &[Room]) -> Result<Selection, AllocError>
    ensures { IfOk result (λ s. s ≡ table.select who.now room excepted.now) }
{
    Ok(Selection {
        space: who.space.clone()?,
        rooms: Vec::from_slice(alloc, &[room])?,
        excepted: Vec::from_slice(alloc, excepted)?,
    })
}

/// The event as it came, for these rooms of the socket's namespace except those.
fn emit(
    alloc: Global,
    who: &Who,
    rooms: &[Room],
    excepted: &[Room],
    logged: bool,
    message: &Message,
) -> Result<Effect, AllocError>
    ensures { IfOk result (λ e.
        e ≡ table.emit who.now rooms.now excepted.now logged message.now) }
{
    Ok(Effect::Emit(Cast {
        space: who.space.clone()?,
        rooms: Vec::from_slice(alloc, rooms)?,
        excepted: Vec::from_slice(alloc, excepted)?,
        form: Form::Event { logged },
        payload: Text::copy_of(alloc, message.payload.as_str())?,
        attachments: message.attachments.clone()?,
    }))
}

/// The acknowledgement of an event.
fn reply(alloc: Global) -> Result<Effect, AllocError>
    ensures { IfOk result (λ effect. effect ≡ table.reply) }
{
    Ok(Effect::Reply(Reply {
        payload: Text::copy_of(alloc, "[]")?,
        attachments: Attachments::new(alloc),
    }))
}

/// What the name of an event asks for.
#[derive(Clone, Copy, Debug, PartialEq, Eq)]
pub enum Word {
    /// To join a room.
    Join,
    /// To leave a room.
    Leave,
    /// That a room gets the event.
    Say,
    /// That two rooms get it.
    Two,
    /// That a room but not another one gets it.
    But,
    /// That a room gets it, without an offset.
    Quiet,
    /// That everybody gets it.
    All,
    /// To be asked a question.
    Ask,
    /// To be disconnected.
    Bye,
    /// That the sockets of a room join another one.
    Pull,
    /// That the sockets of a room leave another one.
    Push,
    /// That the other sockets of a room are disconnected.
    Kick,
    /// Nothing that the app knows.
    Other,
}

/// What the first of an event's texts, its name, asks for.
fn word_in(texts: &[Option<Text>]) -> Word
    ensures { result ≡ table.word_in texts.now }
{
    let Some(Some(name)) = texts.first() else {
        return Word::Other;
    };
    match name.as_str() {
        "join" => Word::Join,
        "leave" => Word::Leave,
        "say" => Word::Say,
        "two" => Word::Two,
        "but" => Word::But,
        "quiet" => Word::Quiet,
        "all" => Word::All,
        "ask" => Word::Ask,
        "bye" => Word::Bye,
        "pull" => Word::Pull,
        "push" => Word::Push,
        "kick" => Word::Kick,
        _ => Word::Other,
    }
}

/// The room that the text at an index names, where there is one of at most 64 bytes.
fn room_in(texts: &[Option<Text>], index: usize) -> Option<Room>
    ensures { result ≡ table.room_in index texts.now }
{
    Room::read(texts.get(index)?.as_ref()?.as_str())
}

/// An app, and whether the rooms of a socket that has ended are told so.
#[derive(Debug, Drop)]
pub struct Presence<A> {
    pub app: A,
    /// Whether they are told: the rooms besides the socket's own, after all that the app wants.
    pub tells: bool,
}

impl<A: App> App for Presence<A> {
    ghost policy = { λ it. record (A.policy it.app) {
      ends = λ who rooms ending.
          Leaves ((A.policy it.app).ends who rooms ending)
          (told it.tells who rooms ending);
    } };

    fn connects(
        &self,
        alloc: Global,
        moment: u64,
        space: &str,
        payload: &str,
    ) -> Result<Verdict, AllocError> {
        self.app.connects(alloc, moment, space, payload)
    }

    fn decides(&self, alloc: Global, who: &Who, arrived: &Arrived) -> Wanted {
        self.app.decides(alloc, who, arrived)
    }

    fn ended(&self, alloc: Global, who: &Who, rooms: &[Room], ending: Ending) -> Wanted {
        let mut effects = self.app.ended(alloc, who, rooms, ending)?;
        if self.tells {
            announce(alloc, &mut effects, who, rooms, ending)?;
        }
        Ok(effects)
    }
}

/// Adds the event for the rooms besides the socket's own, where there are some.
fn announce(
    alloc: Global,
    effects: &mut Vec<Effect>,
    who: &Who,
    rooms: &[Room],
    ending: Ending,
) -> Result<(), AllocError>
    ensures { OnOk result
        (effects.new.items ≡ effects.old.items ++ presence.told_of who.now rooms.now ending) }
{
    let own = Room::own(who.sid);
    let rooms = others(alloc, rooms, own)?;
    if !rooms.is_empty() {
        effects.push(Effect::Emit(Cast {
            space: who.space.clone()?,
            rooms,
            // A session that comes back doesn't hear that it had left.
            excepted: Vec::from_slice(alloc, &[own])?,
            form: Form::Event { logged: true },
            payload: payload(alloc, who.sid, ending)?,
            attachments: Attachments::new(alloc),
        }))?;
    }
    Ok(())
}

/// The rooms but this one.
fn others(alloc: Global, rooms: &[Room], own: Room) -> Result<Vec<Room>, AllocError>
    ensures { IfOk result (λ others. others.items ≡ presence.others own rooms.now) }
{
    let mut others = Vec::from_slice(alloc, rooms)?;
    others.retain(|room| *room != own);
    Ok(others)
}

/// The event that the socket has left, and how it ended.
fn payload(alloc: Global, sid: Sid, ending: Ending) -> Result<Text, AllocError>
    ensures { IfOk result (λ text. text ≡ presence.payload sid ending) }
{
    let id = id_text(sid.number());
    let (id, name) = (ascii_text(&id), ending_word(ending));
    Ok(Text::from_string(format!(in alloc; "[\"left\",\"{id}\",\"{name}\"]")?))
}
