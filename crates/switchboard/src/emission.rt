//! The command `emit`: an event, a question or an answer for the sockets that are meant.

ghost use Rattle.std.specs.Prelude.{◌≡◌, ◌++◌, ℕ, List, Some, IfOk, OnOk, option_map};
ghost use Rattle.json.specs.Json.{Json, document};
ghost use Rattle.json.specs.Tree.{HasNumbers, ItemsHaveNumbers, items_tokens};
ghost use Rattle.json.specs.Value.{value_view, items_view};
ghost use Rattle.switchboard.specs.Arguments as written;
ghost use Rattle.switchboard.specs.Emission as table;
ghost use Rattle.switchboard.specs.Form as forms;
ghost use Rattle.switchboard.specs.Replies.{Gives};

use crate::command::{CommandError, ok_reply};
use crate::sockets::selection_of;
use events::{Effect, Message, Selection};
use journal::{Cast, Form};
use json::{Value, Writer};
use std::alloc::{AllocError, Global};
use terms::Text;
use tokens::{read_whole, text_of};

/// The effects of `emit`.
pub(crate) fn emit(
    alloc: Global,
    spaces: &[Text],
    command: &Value,
    options: &Value,
    message: &Message,
) -> Result<Vec<Effect>, CommandError>
    requires { HasNumbers (value_view command.now) }
    ensures { Gives result (λ e. e.items)
        (table.emitted spaces.now (value_view command.now) (value_view options.now) message.now) }
{
    if !has_event(command, options) {
        return Err(CommandError::Malformed);
    }
    let selection = selection_of(alloc, spaces, options)?;
    let form = form_of(options)?;
    if is_reserved(form, command.at(2)) {
        return Err(CommandError::ReservedName);
    }
    Ok(send(alloc, selection, form, command, message)?)
}

/// The emission, and that it is done.
fn send(
    alloc: Global,
    selection: Selection,
    form: Form,
    command: &Value,
    message: &Message,
) -> Result<Vec<Effect>, AllocError>
    requires { HasNumbers (value_view command.now) }
    ensures { IfOk result (λ effects.
        effects.items ≡ table.sent selection form (value_view command.now) message.now) }
{
    let Selection {
        space,
        rooms,
        excepted,
    } = selection;
    let mut effects = Vec::new(alloc);
    effects.push(Effect::Emit(Cast {
        space,
        rooms,
        excepted,
        form,
        payload: arguments(alloc, command)?,
        attachments: message.attachments.clone()?,
    }))?;
    if message.id.is_some() {
        effects.push(ok_reply(alloc)?)?;
    }
    Ok(effects)
}

/// Whether the arguments are an event, which begins with its name, or are to be an answer.
fn has_event(command: &Value, options: &Value) -> bool
    ensures { result ≡ table.has_event (value_view command.now) (value_view options.now) }
{
    options.get("answer").is_some() || is_name(command.at(2))
}

/// Whether an event's name is there: a text or a number.
fn is_name(first: Option<&Value>) -> bool
    ensures { result ≡ table.is_name (option_map (λ v. value_view v.now) first.entry) }
{
    first.is_some_and(|name| name.as_str().is_some() || name.as_number().is_some())
}

/// Whether it is an event, or a question, with a name that no event may have.
fn is_reserved(form: Form, first: Option<&Value>) -> bool
    ensures { result ≡ table.is_reserved form (option_map (λ v. value_view v.now) first.entry) }
{
    match (form, first.and_then(Value::as_str)) {
        (Form::Event { .. } | Form::Question(_), Some(name)) => is_reserved_name(name),
        _ => false,
    }
}

/// Whether no event may have this name (Socket.IO server documentation, "Emit cheatsheet").
fn is_reserved_name(name: &str) -> bool
    ensures { result ≡ table.is_reserved_name name.now }
{
    matches!(
        name,
        "connect"
            | "connect_error"
            | "disconnect"
            | "disconnecting"
            | "newListener"
            | "removeListener"
    )
}

/// What is sent: an event, a question or an answer.
fn form_of(options: &Value) -> Result<Form, CommandError>
    ensures { result ≡ forms.form_of (value_view options.now) }
{
    match (options.get("ask"), options.get("answer")) {
        (Some(id), _) => Ok(Form::Question(id_of(id).ok_or(CommandError::BadId)?)),
        (None, Some(id)) => Ok(Form::Answer(id_of(id).ok_or(CommandError::BadId)?)),
        (None, None) => Ok(Form::Event {
            logged: !is_volatile(options),
        }),
    }
}

/// Whether it is to be sent, but not logged.
fn is_volatile(options: &Value) -> bool
    ensures { result ≡ forms.is_volatile (value_view options.now) }
{
    options.get("volatile").and_then(Value::as_bool) == Some(true)
}

/// The integer that a number is, where it is one of at most fifteen digits.
fn id_of(number: &Value) -> Option<u64>
    ensures { result ≡ forms.id_of (value_view number.now) }
{
    read_whole(number.as_number()?)
}

/// The elements of a command from the third on, as an array. Members keep their order, and numbers
/// their texts.
fn arguments(alloc: Global, command: &Value) -> Result<Text, AllocError>
    requires { HasNumbers (value_view command.now) }
    ensures { IfOk result (λ text. text ≡ written.arguments (value_view command.now)) }
{
    let mut writer = Writer::new(Vec::new(alloc));
    writer.begin_array()?;
    write_items(&mut writer, after_two(command))?;
    Ok(Text::from_string(text_of(writer)))
}

/// The text of the arguments of a command that was read reads back as the array of these arguments.
/// It has no effect.
pub fn arguments_read_back()
    ensures { (payload : List ℕ) (command : Json) → document payload ≡ Some command
        → document (written.arguments command) ≡ Some (written.arguments_array command) }
{}

/// The elements of a command from the third on.
fn after_two<'v, 'a>(command: &'v Value<'a>) -> &'v [Value<'a>]
    ensures { items_view result.now ≡ written.after_two (written.elements (value_view command.now)) }
{
    match command {
        Value::Array(elements) => third_on(elements),
        _ => &[],
    }
}

/// All values but the first two.
fn third_on<'v, 'a>(values: &'v Vec<Value<'a>>) -> &'v [Value<'a>]
    ensures { items_view result.now ≡ written.after_two (items_view values.now.items) }
{
    if values.len() > 2 { &values[2..] } else { &[] }
}

/// Adds values, and the end of their array.
fn write_items(writer: &mut Writer, items: &[Value]) -> Result<(), AllocError>
    requires { ItemsHaveNumbers (items_view items.now) }
    ensures before { writer.new.before ≡ writer.old.before }
    ensures tokens { OnOk result
        (writer.new.tokens ≡ writer.old.tokens ++ items_tokens (items_view items.now)) }
{
    for item in items {
        writer.value(item)?;
    }
    writer.end_array()
}
