//! What backends are told: the event of each thing that a client did.

ghost use Rattle.std.specs.Prelude.{◌≡◌, ◌++◌, ◌∷◌, [], IfOk, OnOk, string_bytes};
ghost use Rattle.switchboard.specs.Telling as table;

use events::{Arrived, Effect, Wanted, Who, ending_word};
use guarded::{begin_of, room_name};
use journal::{Cast, Ending, Form};
use json::Writer;
use std::alloc::{AllocError, Global};
use terms::{Attachments, Room, Text, ascii_text, id_text};
use tokens::text_of;

/// The namespace of the backends.
pub(crate) const BACKENDS: &str = "/backend";

/// Tells those backends what arrived from a client that named the first digit of its session id.
pub(crate) fn tell(alloc: Global, who: &Who, arrived: &Arrived) -> Wanted
    ensures { IfOk result (λ effects. effects.items ≡ table.told who.now arrived.now) }
{
    match arrived {
        Arrived::Connected(newcomer) => {
            let (payload, claims) = (newcomer.payload.as_str(), newcomer.claims.as_str());
            let text = connection_text(alloc, who, payload, claims)?;
            emit(alloc, who, text, Attachments::new(alloc))
        }
        Arrived::Returned(returned) => {
            let text = return_text(alloc, who, returned.rooms.as_slice())?;
            emit(alloc, who, text, Attachments::new(alloc))
        }
        Arrived::Event(message) => {
            let text = packet_text(alloc, "event", who, message.id, message.payload.as_str())?;
            emit(alloc, who, text, message.attachments.clone()?)
        }
        Arrived::Stray(stray) => {
            let (id, payload) = (Some(stray.id), stray.payload.as_str());
            let text = packet_text(alloc, "answer", who, id, payload)?;
            emit(alloc, who, text, stray.attachments.clone()?)
        }
        Arrived::Answer(_) => Ok(Vec::new(alloc)),
    }
}

/// Tells them that a socket has ended, how, and in which rooms it was.
pub(crate) fn tell_end(alloc: Global, who: &Who, rooms: &[Room], ending: Ending) -> Wanted
    ensures { IfOk result (λ effects.
        effects.items ≡ table.told_of_end who.now rooms.now ending) }
{
    let text = end_text(alloc, who, rooms, ending)?;
    emit(alloc, who, text, Attachments::new(alloc))
}

/// One event for the backends that named the first digit of the socket's session id.
fn emit(alloc: Global, who: &Who, payload: Text, attachments: Attachments) -> Wanted
    ensures { IfOk result (λ effects.
        effects.items ≡ table.tell who.now payload attachments ∷ []) }
{
    let mut effects = Vec::new(alloc);
    effects.push(Effect::Emit(Cast {
        space: Text::copy_of(alloc, BACKENDS)?,
        rooms: Vec::from_slice(alloc, &[first_digit_room(who)])?,
        excepted: Vec::new(alloc),
        form: Form::Event { logged: false },
        payload,
        attachments,
    }))?;
    Ok(effects)
}

/// The room of the first digit of the socket's session id, which is drawn; the last ones name the
/// loop that it was opened at.
fn first_digit_room(who: &Who) -> Room
    ensures { result ≡ table.first_digit_room who.now }
{
    let id = id_text(who.sid.number());
    match Room::read(ascii_text(&id[..1])) {
        Some(room) => room,
        None => unreachable!(),
    }
}

/// That a socket has connected, with the payload of its CONNECT and what was verified of it.
fn connection_text(
    alloc: Global,
    who: &Who,
    payload: &str,
    claims: &str,
) -> Result<Text, AllocError>
    ensures { IfOk result (λ text.
        text ≡ table.connection_text who.now payload.now claims.now) }
{
    let mut writer = begin_of(alloc, "connection", who)?;
    writer.null()?;
    let mut text = text_of(writer);
    push_element(&mut text, payload)?;
    push_element(&mut text, claims)?;
    text.push_str("]")?;
    Ok(Text::from_string(text))
}

/// That a session has come back, with its rooms.
fn return_text(alloc: Global, who: &Who, rooms: &[Room]) -> Result<Text, AllocError>
    ensures { IfOk result (λ text. text ≡ table.return_text who.now rooms.now) }
{
    let mut writer = begin_of(alloc, "connection", who)?;
    write_rooms(&mut writer, rooms)?;
    writer.end_array()?;
    Ok(Text::from_string(text_of(writer)))
}

/// That a packet of this name came, with the id under which it asks for an acknowledgement or
/// answers, and its elements.
fn packet_text(
    alloc: Global,
    name: &str,
    who: &Who,
    id: Option<u64>,
    payload: &str,
) -> Result<Text, AllocError>
    ensures { IfOk result (λ text. text ≡ table.packet_text name.now who.now id payload.now) }
{
    let mut writer = begin_of(alloc, name, who)?;
    match id {
        Some(id) => writer.u64(id)?,
        None => writer.null()?,
    }
    let mut text = text_of(writer);
    push_elements(&mut text, payload)?;
    Ok(Text::from_string(text))
}

/// That a socket has ended, how, and in which rooms it was.
fn end_text(alloc: Global, who: &Who, rooms: &[Room], ending: Ending) -> Result<Text, AllocError>
    ensures { IfOk result (λ text. text ≡ table.end_text who.now rooms.now ending) }
{
    let mut writer = begin_of(alloc, "disconnection", who)?;
    writer.string(ending_word(ending))?;
    write_rooms(&mut writer, rooms)?;
    writer.end_array()?;
    Ok(Text::from_string(text_of(writer)))
}

/// Adds a list of rooms.
fn write_rooms(writer: &mut Writer, rooms: &[Room]) -> Result<(), AllocError>
    ensures before { writer.new.before ≡ writer.old.before }
    ensures tokens { OnOk result
        (writer.new.tokens ≡ writer.old.tokens ++ table.list_of rooms.now) }
{
    writer.begin_array()?;
    for room in rooms {
        writer.string(room_name(room))?;
    }
    writer.end_array()
}

/// Adds one more element to a text that ends with an element, where it isn't empty.
fn push_element(text: &mut String, element: &str) -> Result<(), AllocError>
    ensures { OnOk result
        (string_bytes text.new ≡ table.with_element (string_bytes text.old) element.now) }
{
    if element.is_empty() {
        return Ok(());
    }
    text.push_str(",")?;
    text.push_str(element)
}

/// Adds the elements of an array, and its end, to a text that ends with an element.
fn push_elements(text: &mut String, array: &str) -> Result<(), AllocError>
    ensures { OnOk result
        (string_bytes text.new ≡ table.with_elements (string_bytes text.old) array.now) }
{
    let rest = after_bracket(array);
    if !begins_with_end(rest) {
        text.push_str(",")?;
    }
    text.push_str(rest)
}

/// What follows the first `[` of an array.
fn after_bracket(array: &str) -> &str
    ensures { result.now ≡ table.after_bracket array.now }
{
    match array.split_once('[') {
        Some((_, rest)) => rest,
        None => "]",
    }
}

/// Whether an array ends here, after white space.
fn begins_with_end(rest: &str) -> bool
    ensures { result ≡ table.begins_with_end rest.now }
{
    for byte in rest.as_bytes() {
        match byte {
            b' ' | b'\t' | b'\n' | b'\r' => {}
            _ => return *byte == b']',
        }
    }
    false
}
