//! The commands of backends: what they want done, and how that is acknowledged.

ghost use Rattle.std.specs.Prelude.{◌≡◌, Ok, IfOk, option_map};
ghost use Rattle.json.specs.Value.{value_view, items_view};
ghost use Rattle.switchboard.specs.Changes as changes;
ghost use Rattle.switchboard.specs.Command as table;
ghost use Rattle.switchboard.specs.Options as members;
ghost use Rattle.switchboard.specs.Replies as replies;
ghost use Rattle.switchboard.specs.Replies.{Gives};
ghost use Rattle.switchboard.specs.declared.command.CommandError.TheVariants.{Memory};

use crate::emission::emit;
use crate::sockets::{move_of, selection_of};
use events::{Effect, Message, Reply, Selection, Wanted};
use json::{Error, Scratch, Value};
use std::alloc::{AllocError, AllocFailed, Global};
use terms::{Attachments, Text};

/// A command, by its name.
#[derive(Clone, Copy, Debug, PartialEq, Eq)]
pub enum Name {
    /// An event, a question or an answer is sent.
    Emit,
    /// Sockets join a room.
    SocketsJoin,
    /// Sockets leave a room.
    SocketsLeave,
    /// Sockets are disconnected.
    DisconnectSockets,
    /// Sockets are listed.
    FetchSockets,
}

/// Why a command isn't done.
#[derive(Clone, Copy, Debug, PartialEq, Eq)]
pub enum CommandError {
    /// An allocation was refused. The command was not judged. Nobody is told this.
    Memory,
    /// There is no such command.
    UnknownCommand,
    /// Its options or its arguments aren't what they have to be.
    Malformed,
    /// The server doesn't have the namespace.
    UnknownNamespace,
    /// The name of a room is too long.
    BadRoom,
    /// The id of a question or an answer is no integer below 10^15.
    BadId,
    /// No event may have this name.
    ReservedName,
}

impl From<AllocError> for CommandError {
    ghost from_gives = { λ _ e. e ≡ Memory };

    fn from(_refused: AllocError) -> CommandError {
        CommandError::Memory
    }
}

impl<T: Drop> From<AllocFailed<T>> for CommandError {
    ghost from_gives = { λ _ e. e ≡ Memory };

    fn from(_refused: AllocFailed<T>) -> CommandError {
        CommandError::Memory
    }
}

impl CommandError {
    /// What the backend is told.
    fn text(self) -> &'static str
        ensures { result.now ≡ replies.error_text self }
    {
        match self {
            CommandError::Memory => "no memory",
            CommandError::UnknownCommand => "unknown command",
            CommandError::Malformed => "malformed command",
            CommandError::UnknownNamespace => "unknown namespace",
            CommandError::BadRoom => "bad room",
            CommandError::BadId => "bad id",
            CommandError::ReservedName => "reserved name",
        }
    }
}

/// The effects of a command. What is refused is told to who asked for an acknowledgement.
pub(crate) fn commanded(alloc: Global, spaces: &[Text], message: &Message) -> Wanted
    ensures { IfOk result (λ effects.
        effects.items ≡ table.commanded spaces.now message.now) }
{
    match wanted(alloc, spaces, message) {
        Ok(effects) => Ok(effects),
        Err(CommandError::Memory) => Err(AllocError),
        Err(why) => {
            let mut effects = Vec::new(alloc);
            if message.id.is_some() {
                effects.push(error_reply(alloc, why)?)?;
            }
            Ok(effects)
        }
    }
}

/// The effects of a command that isn't refused.
fn wanted(alloc: Global, spaces: &[Text], message: &Message) -> Result<Vec<Effect>, CommandError>
    ensures { Gives result (λ e. e.items) (table.wanted spaces.now message.now) }
{
    let mut scratch = Scratch::new(alloc);
    let command = match Value::parse(alloc, message.payload.as_str(), &mut scratch) {
        Ok(command) => command,
        Err(Error::Invalid) => return Err(CommandError::Malformed),
        Err(_) => return Err(CommandError::Memory),
    };
    let name = name_in(&command)?;
    let options = options_of(&command).ok_or(CommandError::Malformed)?;
    match name {
        Name::Emit => emit(alloc, spaces, &command, options, message),
        Name::SocketsJoin => {
            let (selection, room) = move_of(alloc, spaces, &command, options)?;
            Ok(reported(alloc, Effect::AllJoin(selection, room), message)?)
        }
        Name::SocketsLeave => {
            let (selection, room) = move_of(alloc, spaces, &command, options)?;
            Ok(reported(alloc, Effect::AllLeave(selection, room), message)?)
        }
        Name::DisconnectSockets => {
            let selection = selection_of(alloc, spaces, options)?;
            Ok(disconnected(alloc, selection, message)?)
        }
        Name::FetchSockets => {
            let selection = selection_of(alloc, spaces, options)?;
            Ok(fetched(alloc, selection, message)?)
        }
    }
}

/// What a command is: its first element names it.
fn name_in(command: &Value) -> Result<Name, CommandError>
    ensures { result ≡ table.name_in (value_view command.now) }
{
    let first = command.at(0).ok_or(CommandError::Malformed)?;
    match first.as_str().ok_or(CommandError::UnknownCommand)? {
        "emit" => Ok(Name::Emit),
        "socketsJoin" => Ok(Name::SocketsJoin),
        "socketsLeave" => Ok(Name::SocketsLeave),
        "disconnectSockets" => Ok(Name::DisconnectSockets),
        "fetchSockets" => Ok(Name::FetchSockets),
        _ => Err(CommandError::UnknownCommand),
    }
}

/// A change, and the word of what it did.
fn reported(alloc: Global, change: Effect, message: &Message) -> Wanted
    ensures { IfOk result (λ effects. effects.items ≡ changes.reported change message.now) }
{
    let mut effects = Vec::new(alloc);
    effects.push(change)?;
    if message.id.is_some() {
        effects.push(Effect::Report)?;
    }
    Ok(effects)
}

/// The effects of `disconnectSockets`. The acknowledgement is first, since the socket that acts may
/// be among them.
fn disconnected(alloc: Global, selection: Selection, message: &Message) -> Wanted
    ensures { IfOk result (λ e. changes.then_end message.now (Ok selection) ≡ Ok e.items) }
{
    let mut effects = Vec::new(alloc);
    if message.id.is_some() {
        effects.push(ok_reply(alloc)?)?;
    }
    effects.push(Effect::AllEnd(selection))?;
    Ok(effects)
}

/// The effects of `fetchSockets`.
fn fetched(alloc: Global, selection: Selection, message: &Message) -> Wanted
    ensures { IfOk result (λ e. changes.then_fetch message.now (Ok selection) ≡ Ok e.items) }
{
    let mut effects = Vec::new(alloc);
    if message.id.is_some() {
        effects.push(Effect::Fetch(selection))?;
    }
    Ok(effects)
}

/// That a command was done.
pub(crate) fn ok_reply(alloc: Global) -> Result<Effect, AllocError>
    ensures { IfOk result (λ effect. effect ≡ replies.ok_reply) }
{
    let (payload, attachments) = (Text::copy_of(alloc, r#"["ok"]"#)?, Attachments::new(alloc));
    Ok(Effect::Reply(Reply {
        payload,
        attachments,
    }))
}

/// That it wasn't, and why.
fn error_reply(alloc: Global, why: CommandError) -> Result<Effect, AllocError>
    ensures { IfOk result (λ effect. effect ≡ replies.error_reply why) }
{
    let why = why.text();
    Ok(Effect::Reply(Reply {
        payload: Text::from_string(format!(in alloc; "[\"error\",\"{why}\"]")?),
        attachments: Attachments::new(alloc),
    }))
}

/// The options of a command, where they are an object whose members are of their types.
fn options_of<'v, 'a>(command: &'v Value<'a>) -> Option<&'v Value<'a>>
    ensures { option_map (λ v. value_view v.now) result
        ≡ members.options_of (value_view command.now) }
{
    command.at(1).filter(|options| are_options(options))
}

/// Whether a value is an object, and each of its members that is known is of its type.
fn are_options(options: &Value) -> bool
    ensures { result ≡ members.are_options (value_view options.now) }
{
    matches!(options, Value::Object(_)) && name_sockets(options) && name_form(options)
}

/// Whether the members that say which sockets are meant are of their types.
fn name_sockets(options: &Value) -> bool
    ensures { result ≡ members.name_sockets (value_view options.now) }
{
    is_text(options.get("in")) && are_texts(options.get("to")) && are_texts(options.get("except"))
}

/// Whether the members that say what is sent are of their types, and name one id at most.
fn name_form(options: &Value) -> bool
    ensures { result ≡ members.name_form (value_view options.now) }
{
    is_flag(options.get("volatile"))
        && is_number(options.get("ask"))
        && is_number(options.get("answer"))
        && (options.get("ask").is_none() || options.get("answer").is_none())
}

/// Whether it is a text, or isn't there.
fn is_text(member: Option<&Value>) -> bool
    ensures { result ≡ members.is_text (option_map (λ v. value_view v.now) member.entry) }
{
    member.is_none_or(|value| value.as_str().is_some())
}

/// Whether it is a number, or isn't there.
fn is_number(member: Option<&Value>) -> bool
    ensures { result ≡ members.is_number (option_map (λ v. value_view v.now) member.entry) }
{
    member.is_none_or(|value| value.as_number().is_some())
}

/// Whether it is a truth value, or isn't there.
fn is_flag(member: Option<&Value>) -> bool
    ensures { result ≡ members.is_flag (option_map (λ v. value_view v.now) member.entry) }
{
    member.is_none_or(|value| value.as_bool().is_some())
}

/// Whether it is a list of texts, or isn't there.
fn are_texts(member: Option<&Value>) -> bool
    ensures { result ≡ members.are_texts (option_map (λ v. value_view v.now) member.entry) }
{
    match member {
        Some(Value::Array(items)) => are_all_texts(items),
        Some(_) => false,
        None => true,
    }
}

/// Whether each of the values is a text.
fn are_all_texts(values: &Vec<Value>) -> bool
    ensures { result ≡ members.are_all_texts (items_view values.now.items) }
{
    for value in values {
        if value.as_str().is_none() {
            return false;
        }
    }
    true
}
