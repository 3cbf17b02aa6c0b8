//! What the warden is told, what it reads of that, and what it says itself.

ghost use Rattle.std.specs.Prelude.{◌≡◌, ◌++◌, [], ◌∷◌, IfOk, option_and_then, option_map, string_bytes};
ghost use Rattle.json.specs.Json.{document};
ghost use Rattle.json.specs.Print.{print};
ghost use Rattle.json.specs.Token.{end_array};
ghost use Rattle.json.specs.Value.{value_view};
ghost use Rattle.terms.specs.Ids.{id_digits};
ghost use Rattle.guarded.specs.Commands as commands;
ghost use Rattle.guarded.specs.Reading as reading;
ghost use Rattle.guarded.specs.Telling as table;

use events::{Arrived, Effect, Selection, Wanted, Who};
use journal::{Cast, Ending, Form};
use json::{Error, Scratch, Value, Writer};
use std::alloc::{AllocError, Global};
use terms::{Attachments, Room, Text, ascii_text, id_text};
use tokens::{expires_in, seconds_of, text_of};

/// The namespace of the warden.
pub const EXPIRY: &str = "/expiry";

/// What the warden is told of what arrived, if it is told anything: that a socket came whose token
/// expires, and when, or that a session came back.
pub(crate) fn told_of(
    alloc: Global,
    who: &Who,
    arrived: &Arrived,
) -> Result<Option<Text>, AllocError>
    ensures { IfOk result (λ text. text ≡ table.told who.now arrived.now) }
{
    match arrived {
        Arrived::Connected(newcomer) => {
            let Some(expires) = expires_in(alloc, newcomer.claims.as_str())? else {
                return Ok(None);
            };
            Ok(Some(came_text(alloc, who, expires)?))
        }
        Arrived::Returned(_) => Ok(Some(word_text(alloc, "back", who)?)),
        _ => Ok(None),
    }
}

/// What it is told of a socket that has ended: it is away where its session is saved, or gone.
pub(crate) fn told_of_end(alloc: Global, who: &Who, ending: Ending) -> Result<Text, AllocError>
    ensures { IfOk result (λ text. text ≡ table.told_of_end who.now ending) }
{
    match ending {
        Ending::Saved => word_text(alloc, "away", who),
        _ => word_text(alloc, "gone", who),
    }
}

/// What the warden is told, if it is, as an event for everybody in its namespace, before what the app
/// inside wants: where that ends the socket, nothing may follow.
pub(crate) fn with_told(alloc: Global, told: Option<Text>, mut inner: Vec<Effect>) -> Wanted
    ensures { IfOk result (λ effects. effects.items ≡ table.events_of told ++ inner.items) }
{
    let Some(payload) = told else {
        return Ok(inner);
    };
    let mut effects = Vec::new(alloc);
    effects.push(Effect::Emit(Cast {
        space: Text::copy_of(alloc, EXPIRY)?,
        rooms: Vec::new(alloc),
        excepted: Vec::new(alloc),
        form: Form::Event { logged: false },
        payload,
        attachments: Attachments::new(alloc),
    }))?;
    effects.append(&mut inner)?;
    Ok(effects)
}

/// That a socket has come whose token expires, and when, in seconds since 1970.
fn came_text(alloc: Global, who: &Who, expires: u64) -> Result<Text, AllocError>
    ensures { IfOk result (λ text. text ≡ table.came_text who.now expires) }
{
    let mut writer = begin_of(alloc, "came", who)?;
    writer.u64(expires)?;
    array_text(writer)
}

/// That a socket has done what this word says.
fn word_text(alloc: Global, word: &str, who: &Who) -> Result<Text, AllocError>
    ensures { IfOk result (λ text. text ≡ table.word_text word.now who.now) }
{
    array_text(begin_of(alloc, word, who)?)
}

/// What the warden says of a socket that is to be ended: its namespace, and its own room.
pub fn end_text(alloc: Global, space: &str, room: Room) -> Result<Text, AllocError>
    ensures { IfOk result (λ text. text ≡ table.end_text space.now room) }
{
    array_text(begin(alloc, "end", space, room_name(&room))?)
}

/// The payload of the warden's CONNECT.
pub fn connect_text(alloc: Global, token: &str) -> Result<Text, AllocError>
    ensures { IfOk result (λ text. text ≡ table.connect_text token.now) }
{
    let mut writer = Writer::new(Vec::with_capacity(alloc, 128)?);
    writer.begin_object()?;
    writer.key("token")?;
    writer.string(token)?;
    writer.end_object()?;
    Ok(Text::from_string(text_of(writer)))
}

/// The beginning of an event of this name about a socket: its namespace and its session id.
pub fn begin_of(alloc: Global, name: &str, who: &Who) -> Result<Writer, AllocError>
    ensures before { IfOk result (λ writer. writer.before ≡ []) }
    ensures tokens { IfOk result (λ writer. writer.tokens
        ≡ table.head name.now who.now.space (id_digits who.now.sid)) }
{
    let id = id_text(who.sid.number());
    begin(alloc, name, who.space.as_str(), ascii_text(&id))
}

/// The beginning of each of these events: its name, a namespace and a session id in it.
fn begin(alloc: Global, name: &str, space: &str, id: &str) -> Result<Writer, AllocError>
    ensures before { IfOk result (λ writer. writer.before ≡ []) }
    ensures tokens { IfOk result (λ writer. writer.tokens ≡ table.head name.now space.now id.now) }
{
    let mut writer = Writer::new(Vec::with_capacity(alloc, 128)?);
    writer.begin_array()?;
    writer.string(name)?;
    writer.string(space)?;
    writer.string(id)?;
    Ok(writer)
}

/// What was written, as an array that ends here.
fn array_text(mut writer: Writer) -> Result<Text, AllocError>
    requires { writer.before ≡ [] }
    ensures { IfOk result (λ text. text ≡ print (writer.tokens ++ end_array ∷ [])) }
{
    writer.end_array()?;
    Ok(Text::from_string(text_of(writer)))
}

/// The name of a room.
pub fn room_name(room: &Room) -> &str
    ensures { result.now ≡ room.now }
{
    match std::str::from_utf8(room.bytes()) {
        Ok(name) => name,
        Err(_) => unreachable!(),
    }
}

/// What the warden is told that a socket did. A socket is named by its own room.
#[derive(Debug, Drop)]
pub enum Told {
    /// It has come to a namespace with a token that expires then, in seconds since 1970.
    Came {
        room: Room,
        space: Text,
        expires: u64,
    },
    /// Its session has come back.
    Back(Room),
    /// It has ended, and its session is saved.
    Away(Room),
    /// It has ended, and its session isn't.
    Gone(Room),
}

/// What an event of the namespace of the warden tells, if it tells something: its name comes first,
/// then a namespace and a session id.
pub fn read_told(alloc: Global, payload: &str) -> Result<Option<Told>, AllocError>
    ensures { IfOk result (λ told. told ≡ option_and_then reading.told_by (document payload.now)) }
{
    let mut scratch = Scratch::new(alloc);
    match Value::parse(alloc, payload, &mut scratch) {
        Ok(event) => told_by(alloc, &event),
        Err(Error::Invalid) => Ok(None),
        Err(_) => Err(AllocError),
    }
}

/// What such an event tells.
fn told_by(alloc: Global, event: &Value) -> Result<Option<Told>, AllocError>
    ensures { IfOk result (λ told. told ≡ reading.told_by (value_view event.now)) }
{
    let (Some(name), Some(space)) = (text_at(event, 0), text_at(event, 1)) else {
        return Ok(None);
    };
    let Some(room) = room_at(event, 2) else {
        return Ok(None);
    };
    match (name, seconds_at(event, 3)) {
        ("came", Some(expires)) => Ok(Some(Told::Came {
            room,
            space: Text::copy_of(alloc, space)?,
            expires,
        })),
        ("back", _) => Ok(Some(Told::Back(room))),
        ("away", _) => Ok(Some(Told::Away(room))),
        ("gone", _) => Ok(Some(Told::Gone(room))),
        _ => Ok(None),
    }
}

/// The seconds that an element of an array says.
fn seconds_at(array: &Value, index: usize) -> Option<u64>
    ensures { result ≡ reading.seconds_at index (value_view array.now) }
{
    seconds_of(array.at(index)?)
}

/// The effects of what arrived from a warden: an event `end` ends sockets.
pub(crate) fn commanded(alloc: Global, arrived: &Arrived) -> Wanted
    ensures { IfOk result (λ effects. effects.items ≡ commands.commanded arrived.now) }
{
    let Arrived::Event(message) = arrived else {
        return Ok(Vec::new(alloc));
    };
    let mut effects = Vec::new(alloc);
    if let Some(selection) = read_command(alloc, message.payload.as_str())? {
        effects.push(Effect::AllEnd(selection))?;
    }
    Ok(effects)
}

/// The sockets that an event means: those of a namespace in a room.
fn read_command(alloc: Global, payload: &str) -> Result<Option<Selection>, AllocError>
    ensures { IfOk result (λ selection.
        selection ≡ option_and_then commands.meant (document payload.now)) }
{
    let mut scratch = Scratch::new(alloc);
    let command = match Value::parse(alloc, payload, &mut scratch) {
        Ok(command) => command,
        Err(Error::Invalid) => return Ok(None),
        Err(_) => return Err(AllocError),
    };
    let (Some(name), Some(space)) = (text_at(&command, 0), text_at(&command, 1)) else {
        return Ok(None);
    };
    let Some(room) = room_at(&command, 2) else {
        return Ok(None);
    };
    if name != "end" {
        return Ok(None);
    }
    Ok(Some(Selection {
        space: Text::copy_of(alloc, space)?,
        rooms: Vec::from_slice(alloc, &[room])?,
        excepted: Vec::new(alloc),
    }))
}

/// The text that is an element of an array.
fn text_at<'a>(array: &Value<'a>, index: usize) -> Option<&'a str>
    ensures { option_map (λ s. s.now) result ≡ commands.text_at index (value_view array.now) }
{
    array.at(index).and_then(Value::as_str)
}

/// The room that an element of an array names.
fn room_at(array: &Value, index: usize) -> Option<Room>
    ensures { result ≡ option_and_then commands.room_named (commands.text_at index (value_view array.now)) }
{
    Room::read(text_at(array, index)?)
}
