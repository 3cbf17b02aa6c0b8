//! The app that lets backends drive the server. A backend is a client in the namespace `/backend`.

ghost use Rattle.std.specs.Prelude.{◌≡◌, IfOk, option_map};
ghost use Rattle.events.specs.App.{plain_verdict};
ghost use Rattle.switchboard.specs.Digits as table;
ghost use Rattle.switchboard.specs.Switchboard.{verdict_of, decided};
ghost use Rattle.switchboard.specs.Telling.{told_of_end};

use crate::command::commanded;
use crate::telling::{BACKENDS, tell, tell_end};
use events::{App, Arrived, Effect, Verdict, Wanted, Who};
use guarded::has_token;
use journal::Ending;
use serde_json::{Category, Value};
use std::alloc::{AllocError, Global};
use terms::{Room, Text, ascii_text};

/// What a client is told that would be a backend and hasn't the token.
const NOT_ALLOWED: &str = "Not allowed";

/// What a backend has that names no digits.
const ALL_DIGITS: &str = "0123456789abcdef";

/// What a backend is told that names something else.
const BAD_DIGITS: &str = "Bad digits";

/// The app by which backends are told what clients do, and command the server. `Debug` doesn't
/// show it, since the token is a secret.
#[derive(Drop)]
pub struct Switchboard {
    /// What stands as `token` in the payload of a backend's CONNECT.
    pub token: Text,
    /// The namespaces that the server has, that of the backends among them.
    pub spaces: Vec<Text>,
}

impl App for Switchboard {
    ghost policy = { λ app. record {
      allows = λ moment space payload verdict. verdict ≡ verdict_of app.token space payload;
      decides = λ who arrived effects. effects ≡ decided app.spaces.items who arrived;
      ends = λ who rooms ending effects. effects ≡ told_of_end who rooms ending;
    } };

    fn connects(
        &self,
        alloc: Global,
        _moment: u64,
        space: &str,
        payload: &str,
    ) -> Result<Verdict, AllocError> {
        if space != BACKENDS {
            return Ok(Verdict::Accept(Vec::new(alloc)));
        }
        if !has_token(alloc, self.token.as_str(), payload)? {
            return Ok(Verdict::Refuse(Text::copy_of(alloc, NOT_ALLOWED)?));
        }
        admit(alloc, payload)
    }

    fn decides(&self, alloc: Global, who: &Who, arrived: &Arrived) -> Wanted {
        if who.space.as_str() != BACKENDS {
            return tell(alloc, who, arrived);
        }
        match arrived {
            Arrived::Event(message) => commanded(alloc, self.spaces.as_slice(), message),
            _ => Ok(Vec::new(alloc)),
        }
    }

    fn ended(&self, alloc: Global, who: &Who, rooms: &[Room], ending: Ending) -> Wanted {
        tell_end(alloc, who, rooms, ending)
    }
}

/// The answer to a backend that has the token: it joins the rooms of its digits.
fn admit(alloc: Global, payload: &str) -> Result<Verdict, AllocError>
    ensures { IfOk result (λ verdict. plain_verdict verdict ≡ table.digits_verdict payload.now) }
{
    if let Some(digits) = digits_in(alloc, payload)? {
        if let Some(joins) = joins(alloc, digits.as_str())? {
            if !joins.is_empty() {
                return Ok(Verdict::Accept(joins));
            }
        }
    }
    Ok(Verdict::Refuse(Text::copy_of(alloc, BAD_DIGITS)?))
}

/// What a payload says of digits: all of them where it says nothing, and `None` where it says
/// something that is no text.
fn digits_in(alloc: Global, payload: &str) -> Result<Option<Text>, AllocError>
    ensures { IfOk result (λ digits. digits ≡ table.digits_in payload.now) }
{
    let value = match Value::from_str(alloc, payload) {
        Ok(value) => value,
        Err(error) if error.classify() == Category::Memory => return Err(AllocError),
        Err(_) => return Ok(Some(Text::copy_of(alloc, ALL_DIGITS)?)),
    };
    match value.get("digits") {
        Some(digits) => match digits.as_str() {
            Some(text) => Ok(Some(Text::copy_of(alloc, text)?)),
            None => Ok(None),
        },
        None => Ok(Some(Text::copy_of(alloc, ALL_DIGITS)?)),
    }
}

/// That the socket joins the room of each digit, or `None` where something else is among them.
fn joins(alloc: Global, digits: &str) -> Result<Option<Vec<Effect>>, AllocError>
    ensures { IfOk result (λ joins. option_map (λ v. v.items) joins ≡ table.joins digits.now) }
{
    let mut joins = Vec::new(alloc);
    for digit in digits.as_bytes() {
        match digit_room(*digit) {
            Some(room) => joins.push(Effect::Join(room))?,
            None => return Ok(None),
        }
    }
    Ok(Some(joins))
}

/// The room of a digit, where the character is one.
fn digit_room(digit: u8) -> Option<Room>
    ensures { result ≡ table.digit_room digit }
{
    match digit {
        b'0'..=b'9' | b'a'..=b'f' => Room::read(ascii_text(&[digit])),
        _ => None,
    }
}
