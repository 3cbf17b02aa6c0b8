//! What a token says: its claims (RFC 7519, section 4.1).

ghost use Rattle.std.specs.Prelude.{◌≡◌, IfOk, option_map, Some};
ghost use Rattle.std.specs.List.{list_all, list_any};
ghost use Rattle.std.specs.Char.{is_ascii_digit};
ghost use Rattle.json.specs.Value.{value_view, items_view};
ghost use Rattle.tokens.specs.Claims as table;
ghost use Rattle.tokens.specs.Dates as dates;
ghost use Rattle.tokens.specs.Expires.{expires_in};

use crate::payload::object_of;
use crate::verifier::Flaw;
use json::{Scratch, Value};
use std::alloc::{AllocError, Global};
use terms::Text;

/// How many seconds clocks may differ by.
const LEEWAY: u64 = 30;

/// What separates packets in a payload of Engine.IO. JSON has no place for it.
const SEPARATOR: u8 = 0x1e;

/// What a valid token says.
#[derive(Debug, Drop)]
pub struct Claims {
    /// The JSON object that was signed, as it stands in the token.
    pub text: Text,
    /// When it ends, in whole seconds since 1970, if it does.
    pub expires: Option<u64>,
}

/// When claims end, where they are for this audience, if there is one, and it is their time now.
#[tactic(auto, unfolding(crate::specs::Claims::check_claims))]
pub(crate) fn check_claims(
    alloc: Global,
    audience: &Option<Text>,
    seconds: u64,
    text: &str,
) -> Result<Result<Option<u64>, Flaw>, AllocError>
    ensures { IfOk result (λ checked. checked
        ≡ table.check_claims audience.now seconds text.now) }
{
    if has_separator(text.as_bytes()) {
        return Ok(Err(Flaw::Claims));
    }
    let mut scratch = Scratch::new(alloc);
    match object_of(alloc, text, &mut scratch)? {
        Some(claims) => Ok(check_members(&claims, audience, seconds)),
        None => Ok(Err(Flaw::Claims)),
    }
}

/// Whether a byte separates packets.
pub(crate) fn has_separator(bytes: &[u8]) -> bool
    ensures { result ≡ list_any table.is_separator bytes.now }
{
    bytes.iter().any(|byte| *byte == SEPARATOR)
}

/// The same of the object that claims are.
#[tactic(auto, unfolding(crate::specs::Claims::check_members))]
fn check_members(claims: &Value, audience: &Option<Text>, seconds: u64) -> Result<Option<u64>, Flaw>
    ensures { result ≡ table.check_members (value_view claims.now) audience.now seconds }
{
    let expires = date_in(claims.get("exp"))?;
    let begins = date_in(claims.get("nbf"))?;
    check_audience(claims.get("aud"), audience)?;
    if is_early(begins, seconds) {
        return Err(Flaw::Early);
    }
    if expires.is_some_and(|expires| is_over(expires, seconds)) {
        return Err(Flaw::Expired);
    }
    Ok(expires)
}

/// Whether it isn't yet time (RFC 7519, section 4.1.5).
fn is_early(begins: Option<u64>, seconds: u64) -> bool
    ensures { result ≡ table.is_early begins seconds }
{
    begins.is_some_and(|begins| begins > LEEWAY && begins - LEEWAY > seconds)
}

/// Whether what `aud` says is this audience, or a list that has it (RFC 7519, section 4.1.3).
#[tactic(auto, unfolding(crate::specs::Claims::check_audience))]
fn check_audience(aud: Option<&Value>, audience: &Option<Text>) -> Result<(), Flaw>
    ensures { result ≡ table.check_audience (option_map (λ v. value_view v.now) aud.entry)
        audience.now }
{
    let Some(audience) = audience else {
        return Ok(());
    };
    let is_for = match aud {
        Some(Value::String(name)) => *name == audience.as_str(),
        Some(Value::Array(names)) => has_name(names, audience.as_str()),
        Some(_) => return Err(Flaw::Claims),
        None => false,
    };
    if is_for { Ok(()) } else { Err(Flaw::Audience) }
}

/// Whether one of the values is this text.
fn has_name(values: &Vec<Value>, name: &str) -> bool
    ensures { result ≡ table.has_name (items_view values.now.items) name.now }
{
    for value in values {
        if value.as_str() == Some(name) {
            return true;
        }
    }
    false
}

/// When claims say that their token expires, in whole seconds since 1970. `None` where they don't
/// say so, or are no object.
pub fn expires_in(alloc: Global, claims: &str) -> Result<Option<u64>, AllocError>
    ensures { IfOk result (λ expires. expires ≡ expires_in claims.now) }
{
    let mut scratch = Scratch::new(alloc);
    match object_of(alloc, claims, &mut scratch)? {
        Some(claims) => Ok(date_in(claims.get("exp")).unwrap_or(None)),
        None => Ok(None),
    }
}

/// The seconds that a member says, if it is there.
fn date_in(member: Option<&Value>) -> Result<Option<u64>, Flaw>
    ensures { result ≡ dates.date_in (option_map (λ v. value_view v.now) member.entry) }
{
    match member {
        Some(value) => Ok(Some(seconds_of(value).ok_or(Flaw::Claims)?)),
        None => Ok(None),
    }
}

/// The seconds since 1970 that a value says, where it is a number that `exp` may be (RFC 7519,
/// section 2, "NumericDate").
pub fn seconds_of(value: &Value) -> Option<u64>
    ensures { result ≡ dates.date_of (value_view value.now) }
{
    read_seconds(value.as_number()?)
}

/// The whole seconds that a number's digits write, where there is no sign and no exponent.
#[tactic(auto, unfolding(crate::specs::Dates::read_seconds))]
fn read_seconds(text: &str) -> Option<u64>
    ensures { result ≡ dates.read_seconds text.now }
{
    let (whole, fraction) = text.split_once('.').unwrap_or((text, ""));
    if are_digits(fraction.as_bytes()) {
        read_whole(whole)
    } else {
        None
    }
}

/// Whether all of the bytes are digits.
fn are_digits(bytes: &[u8]) -> bool
    ensures { result ≡ list_all is_ascii_digit bytes.now }
{
    bytes.iter().all(|byte| byte.is_ascii_digit())
}

/// The integer that at most fifteen digits write.
pub fn read_whole(text: &str) -> Option<u64>
    ensures { result ≡ dates.read_whole text.now }
{
    if text.len() > 15 {
        return None;
    }
    let mut seconds: u64 = 0;
    for digit in text.as_bytes() {
        if !digit.is_ascii_digit() {
            return None;
        }
        seconds = seconds * 10 + u64::from(*digit - b'0');
    }
    Some(seconds)
}

/// Whether the time of a token that expires so is over (RFC 7519, section 4.1.4): from thirty
/// seconds after that on it isn't valid. Both are in seconds since 1970.
pub fn is_over(expires: u64, seconds: u64) -> bool
    ensures { result ≡ table.is_late (Some expires) seconds }
{
    seconds >= LEEWAY && seconds - LEEWAY >= expires
}
