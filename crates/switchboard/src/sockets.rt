//! Which sockets a command means.

ghost use Rattle.std.specs.Prelude.{◌≡◌, option_map};
ghost use Rattle.json.specs.Value.{value_view, items_view};
ghost use Rattle.switchboard.specs.Changes as changes;
ghost use Rattle.switchboard.specs.Replies.{Gives};
ghost use Rattle.switchboard.specs.Sockets as table;

use crate::command::CommandError;
use events::Selection;
use json::Value;
use std::alloc::Global;
use terms::{Room, Text};

/// The sockets that are meant. The namespace is looked at first, then the rooms.
pub(crate) fn selection_of(
    alloc: Global,
    spaces: &[Text],
    options: &Value,
) -> Result<Selection, CommandError>
    ensures { Gives result (λ s. s) (table.selection_of spaces.now (value_view options.now)) }
{
    let space = space_of(options);
    if !has_space(spaces, space) {
        return Err(CommandError::UnknownNamespace);
    }
    Ok(Selection {
        space: Text::copy_of(alloc, space)?,
        rooms: rooms_of(alloc, options.get("to"))?,
        excepted: rooms_of(alloc, options.get("except"))?,
    })
}

/// The sockets that are meant, and the room that they are to join or to leave. A third argument
/// that is no text is refused first, then the sockets.
pub(crate) fn move_of(
    alloc: Global,
    spaces: &[Text],
    command: &Value,
    options: &Value,
) -> Result<(Selection, Room), CommandError>
    ensures { Gives result (λ m. m)
        (changes.move_of spaces.now (value_view command.now) (value_view options.now)) }
{
    let name = command.at(2).ok_or(CommandError::Malformed)?;
    if name.as_str().is_none() {
        return Err(CommandError::Malformed);
    }
    let selection = selection_of(alloc, spaces, options)?;
    Ok((selection, room_of(name).ok_or(CommandError::BadRoom)?))
}

/// The namespace that is meant.
fn space_of<'a>(options: &Value<'a>) -> &'a str
    ensures { result.now ≡ table.space_of (value_view options.now) }
{
    options.get("in").and_then(Value::as_str).unwrap_or("/")
}

/// Whether the server has a namespace.
fn has_space(spaces: &[Text], name: &str) -> bool
    ensures { result ≡ table.has_space spaces.now name.now }
{
    spaces.iter().any(|space| space.as_str() == name)
}

/// The rooms that are listed. There are none where no list is.
fn rooms_of(alloc: Global, member: Option<&Value>) -> Result<Vec<Room>, CommandError>
    ensures { Gives result (λ rooms. rooms.items)
        (table.rooms_of (option_map (λ v. value_view v.now) member.entry)) }
{
    match member {
        Some(Value::Array(items)) => read_rooms(alloc, items),
        _ => Ok(Vec::new(alloc)),
    }
}

/// The rooms that texts of at most 64 bytes name.
fn read_rooms(alloc: Global, names: &Vec<Value>) -> Result<Vec<Room>, CommandError>
    ensures { Gives result (λ rooms. rooms.items) (table.rooms_named (items_view names.now.items)) }
{
    let mut rooms = Vec::new(alloc);
    for name in names {
        rooms.push(room_of(name).ok_or(CommandError::BadRoom)?)?;
    }
    Ok(rooms)
}

/// The room that a text names, where it is one of at most 64 bytes.
fn room_of(name: &Value) -> Option<Room>
    ensures { result ≡ table.room_of (value_view name.now) }
{
    Room::read(name.as_str()?)
}
