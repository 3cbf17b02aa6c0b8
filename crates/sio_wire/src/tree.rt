//! The JSON tree of a payload: what each packet type allows (Socket.IO protocol 5, "Packet types"),
//! the texts among an event's elements, and what a client's CONNECT says of the session that it had
//! (Socket.IO server documentation, "Connection state recovery").

ghost use Rattle.std.specs.Prelude.{◌≡◌, ◌≢◌, ◌⊎◌, ℕ, List, ◌∷◌, map, Some, None, Ok, Err, IfOk, IfErr, MatchOption, ◌↔◌, IsTrue, Contains, option_map};
ghost use Rattle.std.specs.Bool.{MatchBool};
ghost use Rattle.json.specs.Token.{Token as SpecToken, string};
ghost use Rattle.serde_json.specs.Read.{read};
ghost use Rattle.serde_json.specs.View.{view, items_view};
ghost use Rattle.sio_wire.specs.JsonFields.{texts_of, names_at, resume_at};
ghost use Rattle.sio_wire.specs.Faults.{Checks};
ghost use Rattle.sio_wire.specs.Placeholders.{IsPlaceholder, HasNumberBelow, Placed};
ghost use Rattle.sio_wire.specs.Shape.{IsTree, IsNoTree, has_shape, HasReservedName, IsPlaced, reserved_names};
ghost use Rattle.sio_wire.specs.Texts.{text_tokens, AreAlone, IsArrayOf, BeginsWithName, EndsInTexts, HasPlainNames, IsPlainEvent};

use crate::error::SioError;
use crate::header::{Header, Kind};
use crate::verbatim::verbatim_texts;
use json::{Reader, Scratch, Token};
use serde_json::{Category, Value};
use std::alloc::{AllocError, Global};
use terms::Text;

/// The tree, or `BadJson` where the text is no JSON text.
fn parse(alloc: Global, text: &str) -> Result<Value, SioError>
    ensures ok { IfOk result (λ value. read text.now ≡ Some (view value)) }
    ensures err { IfErr result
        (λ e. (e ≡ SioError.Memory) ⊎ ((e ≡ SioError.BadJson) × (read text.now ≡ None))) }
{
    match Value::from_str(alloc, text) {
        Ok(value) => Ok(value),
        Err(error) if error.classify() == Category::Memory => Err(SioError::Memory),
        Err(_) => Err(SioError::BadJson),
    }
}

/// For each element of the payload's array its text, or `None` where it is no text. `BadJson`
/// where the payload is no JSON text, then `BadShape` where it is no array.
pub fn names(alloc: Global, payload: &str) -> Result<Vec<Option<Text>>, SioError>
    ensures ok { IfOk result (λ found. names_at payload.now ≡ Ok found.items) }
    ensures err { IfErr result (λ e. (e ≡ SioError.Memory) ⊎ (names_at payload.now ≡ Err e)) }
{
    let mut scratch = Scratch::new(alloc);
    if let Some(found) = texts_alone(alloc, &mut scratch, payload)? {
        return Ok(found);
    }
    match &parse(alloc, payload)? {
        Value::Array(elements) => Ok(texts(alloc, elements)?),
        _ => Err(SioError::BadShape),
    }
}

/// The texts of an array that has nothing else in it, as most events have: no tree is needed.
fn texts_alone(
    alloc: Global,
    scratch: &mut Scratch,
    payload: &str,
) -> Result<Option<Vec<Option<Text>>>, AllocError>
    ensures { IfOk result (λ found. MatchOption found
        ((texts : List (List ℕ)) → ¬ IsArrayOf texts payload.now)
        (λ names. AreAlone names.items payload.now)) }
{
    if let Some(found) = verbatim_texts(alloc, payload)? {
        return Ok(Some(found));
    }
    let mut reader = Reader::new(payload, scratch)?;
    match reader.next() {
        Some(Token::BeginArray) => texts_left(alloc, &mut reader),
        _ => Ok(None),
    }
}

/// The texts that are left in the array, if only texts are, and nothing is behind it.
fn texts_left(
    alloc: Global,
    reader: &mut Reader<'_>,
) -> Result<Option<Vec<Option<Text>>>, AllocError>
    ensures { IfOk result (λ found. MatchOption found (¬ EndsInTexts reader.old)
        (λ names. (texts : List (List ℕ)) × (reader.old ≡ text_tokens texts)
        × (names.items ≡ map Some texts))) }
{
    let mut found = Vec::new(alloc);
    'texts: while !reader.take_end_array() {
        let Some(text) = next_text(reader) else {
            return Ok(None);
        };
        found.push(Some(Text::copy_of(alloc, text)?))?;
    }
    match reader.next() {
        None => Ok(Some(found)),
        Some(_) => Ok(None),
    }
}

/// The text that comes next, if one does.
fn next_text<'a>(reader: &mut Reader<'a>) -> Option<&'a str>
    ensures { MatchOption result
        ((text : List ℕ) (rest : List SpecToken) → reader.old ≢ string text ∷ rest)
        (λ text. reader.old ≡ string text.now ∷ reader.new) }
{
    match reader.next() {
        Some(Token::String(text)) => Some(text),
        _ => None,
    }
}

/// For each value its text, where it is one.
fn texts(alloc: Global, values: &Vec<Value>) -> Result<Vec<Option<Text>>, AllocError>
    ensures { IfOk result (λ found. found.items ≡ texts_of (items_view values.now.items)) }
{
    let mut found = Vec::new(alloc);
    for value in values {
        found.push(match value.as_str() {
            Some(text) => Some(Text::copy_of(alloc, text)?),
            None => None,
        })?;
    }
    Ok(found)
}

/// The private session id that a client names, and the last offset that it got in that session,
/// both as it wrote them.
#[derive(Debug, Drop)]
pub struct Resume {
    pub pid: Text,
    pub offset: Text,
}

/// What the payload of a CONNECT names. `None` where it is empty, and where `pid` or `offset` is
/// missing or no text; `BadJson` where it is no JSON text.
pub fn resume_of(alloc: Global, payload: &str) -> Result<Option<Resume>, SioError>
    ensures ok { IfOk result (λ named. resume_at payload.now ≡ Ok named) }
    ensures err { IfErr result (λ e. (e ≡ SioError.Memory) ⊎ (resume_at payload.now ≡ Err e)) }
{
    if payload.is_empty() {
        return Ok(None);
    }
    let value = parse(alloc, payload)?;
    let pid = value.get("pid").and_then(Value::as_str);
    let offset = value.get("offset").and_then(Value::as_str);
    match (pid, offset) {
        (Some(pid), Some(offset)) => Ok(Some(Resume {
            pid: Text::copy_of(alloc, pid)?,
            offset: Text::copy_of(alloc, offset)?,
        })),
        _ => Ok(None),
    }
}

/// Looks at the payload of a header whose parts were read. Where it is a plain event, as most are,
/// its texts are known then, and no tree is needed.
pub(crate) fn check_payload(
    alloc: Global,
    scratch: &mut Scratch,
    header: &mut Header,
) -> Result<(), SioError>
    ensures checked { Checks header.old result }
    ensures same { header.new ≡ header.old }
{
    if let Some(names) = plain_names(alloc, scratch, header)? {
        header.payload.know(names);
        return Ok(());
    }
    let tree = read_tree(alloc, header.payload.as_str())?;
    if !has_shape(header.kind, header.id, &tree) {
        return Err(SioError::BadShape);
    }
    if has_reserved_name(header.kind, &tree) {
        return Err(SioError::Reserved);
    }
    if !is_placed(header.kind, header.count, &tree) {
        return Err(SioError::BadPlaceholder);
    }
    Ok(())
}

/// The texts of a plain event: one that has nothing else in its payload, and a name that is free.
fn plain_names(
    alloc: Global,
    scratch: &mut Scratch,
    header: &Header,
) -> Result<Option<Vec<Option<Text>>>, AllocError>
    ensures { IfOk result (λ found. MatchOption found (¬ IsPlainEvent header.now)
        (λ names. HasPlainNames header.now names.items)) }
{
    let payload = header.payload.as_str();
    // U+001E separates packets in a polling payload.
    if header.kind != Kind::Event || payload.as_bytes().contains(&0x1e) {
        return Ok(None);
    }
    let Some(names) = texts_alone(alloc, scratch, payload)? else {
        return Ok(None);
    };
    if begins_with_name(&names) {
        Ok(Some(names))
    } else {
        Ok(None)
    }
}

/// Whether the first of these is a text, and a name that events may have.
fn begins_with_name(names: &[Option<Text>]) -> bool
    ensures { IsTrue result ↔ BeginsWithName names.now }
{
    match names.first() {
        Some(Some(name)) => !is_reserved_name(name.as_str()),
        _ => false,
    }
}

/// The JSON tree of a payload; none for the empty text.
fn read_tree(alloc: Global, text: &str) -> Result<Option<Value>, SioError>
    ensures ok { IfOk result (λ tree. IsTree text.now (option_map view tree)) }
    ensures err { IfErr result
        (λ e. (e ≡ SioError.Memory) ⊎ ((e ≡ SioError.BadJson) × IsNoTree text.now)) }
{
    if text.is_empty() {
        return Ok(None);
    }
    // U+001E separates packets in a polling payload.
    if text.as_bytes().contains(&0x1e) {
        return Err(SioError::BadJson);
    }
    Ok(Some(parse(alloc, text)?))
}

/// Whether the packet type allows this payload with this acknowledgement id.
fn has_shape(kind: Kind, id: Option<u64>, tree: &Option<Value>) -> bool
    ensures { result ≡ has_shape kind id (option_map view tree.now) }
{
    match (kind, tree) {
        (Kind::Connect | Kind::Disconnect, None) => id.is_none(),
        (Kind::Connect, Some(value)) => id.is_none() && value.is_object(),
        (Kind::Event | Kind::BinaryEvent, Some(value)) => value
            .get(0usize)
            .is_some_and(|first| first.is_string() || first.is_number()),
        (Kind::Ack | Kind::BinaryAck, Some(value)) => id.is_some() && value.is_array(),
        (Kind::ConnectError, Some(value)) => {
            id.is_none() && (value.is_string() || value.is_object())
        }
        _ => false,
    }
}

/// Whether the payload is an event with a name that the protocol keeps for itself.
fn has_reserved_name(kind: Kind, tree: &Option<Value>) -> bool
    ensures { IsTrue result ↔ HasReservedName kind (option_map view tree.now) }
{
    match (kind, tree) {
        (Kind::Event | Kind::BinaryEvent, Some(value)) => value
            .get(0usize)
            .and_then(Value::as_str)
            .is_some_and(|name| is_reserved_name(name)),
        _ => false,
    }
}

/// Whether no event may have this name (Socket.IO server documentation, "Emit cheatsheet").
fn is_reserved_name(name: &str) -> bool
    ensures { IsTrue result ↔ Contains reserved_names name.now }
{
    matches!(
        name,
        "connect"
            | "connect_error"
            | "disconnect"
            | "disconnecting"
            | "newListener"
            | "removeListener"
    )
}

/// Whether each placeholder of a binary packet has a number below the count.
fn is_placed(kind: Kind, count: u32, tree: &Option<Value>) -> bool
    ensures { IsTrue result ↔ IsPlaced kind count (option_map view tree.now) }
{
    match tree {
        Some(value) if kind.is_binary() => are_placed(value, count),
        _ => true,
    }
}

/// Whether each placeholder in the value, at any depth, has a number below `count`.
fn are_placed(value: &Value, count: u32) -> bool
    ensures { IsTrue result ↔ Placed (view value.now) count }
{
    match value {
        Value::Array(items) => {
            for item in items {
                if !are_placed(item, count) {
                    return false;
                }
            }
            true
        }
        Value::Object(_) if !is_numbered(value, count) => false,
        Value::Object(members) => {
            for (_name, member) in members.iter() {
                if !are_placed(member, count) {
                    return false;
                }
            }
            true
        }
        _ => true,
    }
}

/// Whether the value, if it is a placeholder, has a number below `count`.
fn is_numbered(value: &Value, count: u32) -> bool
    ensures { IsTrue result
        ↔ (IsPlaceholder (view value.now) → HasNumberBelow count (view value.now)) }
{
    if value.get("_placeholder").and_then(Value::as_bool) != Some(true) {
        return true;
    }
    match value.get("num").and_then(Value::as_u64) {
        Some(number) => number < u64::from(count),
        None => false,
    }
}
