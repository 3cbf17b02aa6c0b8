//! The token in the payload of a CONNECT, an object (Socket.IO protocol 5, "Connection to a
//! namespace"), and JSON objects in which no object names a member twice (RFC 7515, section 4;
//! RFC 7519, section 4).

ghost use Rattle.std.specs.Prelude.{◌≡◌, [], IfOk, option_map, string_bytes};
ghost use Rattle.json.specs.Print.{print};
ghost use Rattle.json.specs.Tree.{MembersHaveNumbers};
ghost use Rattle.json.specs.Value.{value_view, members_view};
ghost use Rattle.tokens.specs.Object as objects;
ghost use Rattle.tokens.specs.Payload as table;

use json::{Error, Scratch, Value, Writer};
use std::alloc::{AllocError, Global};
use terms::Text;

/// The member that a token stands in.
const TOKEN: &str = "token";

/// The text that stands as `token` in a payload, if it is an object that has one. Of several the
/// last one is meant.
pub fn token_in(alloc: Global, payload: &str) -> Result<Option<Text>, AllocError>
    ensures { IfOk result (λ token. token ≡ table.token_in payload.now) }
{
    let mut scratch = Scratch::new(alloc);
    match Value::parse(alloc, payload, &mut scratch) {
        Ok(value) => match value.get(TOKEN).and_then(Value::as_str) {
            Some(token) => Ok(Some(Text::copy_of(alloc, token)?)),
            None => Ok(None),
        },
        Err(Error::Invalid) => Ok(None),
        Err(_) => Err(AllocError),
    }
}

/// A payload without its members `token`, where it is an object: without white space, all other
/// members in their order, numbers as they stand. What is no object stays as it is.
pub fn without_token(alloc: Global, payload: &str) -> Result<Text, AllocError>
    ensures { IfOk result (λ text. text ≡ table.without_token payload.now) }
{
    let mut scratch = Scratch::new(alloc);
    match Value::parse(alloc, payload, &mut scratch) {
        Ok(value) => match &value {
            Value::Object(members) => others(alloc, members),
            _ => Text::copy_of(alloc, payload),
        },
        Err(Error::Invalid) => Text::copy_of(alloc, payload),
        Err(_) => Err(AllocError),
    }
}

/// The object of all members but those of this name.
fn others(alloc: Global, members: &Vec<(&str, Value)>) -> Result<Text, AllocError>
    requires { MembersHaveNumbers (members_view members.now.items) }
    ensures { IfOk result (λ text. text ≡ table.others (members_view members.now.items)) }
{
    let mut writer = Writer::new(Vec::new(alloc));
    writer.begin_object()?;
    for member in members {
        if member.0 != TOKEN {
            writer.key(member.0)?;
            writer.value(&member.1)?;
        }
    }
    writer.end_object()?;
    Ok(Text::from_string(text_of(writer)))
}

/// What was written to a writer that began with nothing.
pub fn text_of(writer: Writer) -> String
    requires { writer.before ≡ [] }
    ensures { string_bytes result ≡ print writer.tokens }
{
    match String::from_utf8(writer.into_inner()) {
        Ok(text) => text,
        Err(_) => unreachable!(),
    }
}

/// The object that a text is, where neither it nor an object in it names a member twice.
#[tactic(auto, using(crate::proofs::ObjectLemmas::object_read, crate::proofs::ObjectLemmas::no_document, crate::proofs::ObjectLemmas::doubled))]
pub(crate) fn object_of<'a>(
    alloc: Global,
    text: &'a str,
    scratch: &'a mut Scratch,
) -> Result<Option<Value<'a>>, AllocError>
    ensures { IfOk result (λ object. option_map value_view object ≡ objects.object_of text.now) }
{
    match Value::parse_strict(alloc, text, scratch) {
        Ok(value) => Ok(if_object(value)),
        Err(Error::OutOfMemory) => Err(AllocError),
        Err(_) => Ok(None),
    }
}

/// A value, where it is an object.
fn if_object(value: Value<'_>) -> Option<Value<'_>>
    ensures { option_map value_view result ≡ objects.if_object (value_view value.entry) }
{
    match value {
        Value::Object(_) => Some(value),
        _ => None,
    }
}
