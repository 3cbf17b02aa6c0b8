//! The compact form of a token, three texts of base64url between dots (RFC 7515, section 7.1), and
//! its header: how it is signed, and by which key (RFC 7515, section 4.1).

ghost use Rattle.std.specs.Prelude.{◌≡◌, ◌∷◌, ◌++◌, IfOk, option_map};
ghost use Rattle.json.specs.Value.{value_view};
ghost use Rattle.tokens.specs.Form as table;
ghost use Rattle.tokens.specs.Form.{opened_view};
ghost use Rattle.tokens.specs.Header as headers;
ghost use Rattle.tokens.specs.Steps.{seen_by};

use crate::keys::{Key, check_signature};
use crate::payload::object_of;
use crate::verifier::Flaw;
use base64::DecodeAllocError;
use base64::engine::general_purpose::URL_SAFE_NO_PAD;
use json::{Scratch, Value};
use std::alloc::{AllocError, Global};
use std::str;
use terms::Text;

/// The one algorithm (RFC 7518, section 3.2).
const ALGORITHM: &str = "HS256";

/// What the three parts of a token say.
#[derive(Drop)]
pub(crate) struct Opened<'t> {
    pub header: Text,
    pub claims: Text,
    pub signature: Vec<u8>,
    /// What is signed, as it stands in the token: all before the second dot.
    pub signed: &'t [u8],
}

/// What the parts of a token say, or `Form`.
#[tactic(auto, unfolding(crate::specs::Form::opened, crate::specs::Form::parts_of))]
pub(crate) fn read_parts<'t>(
    alloc: Global,
    token: &'t str,
) -> Result<Result<Opened<'t>, Flaw>, AllocError>
    ensures { IfOk result (λ opened. seen_by table.opened_view opened
        ≡ table.opened token.now) }
{
    let (header, rest) = unless_flawed!(cut(token));
    let (claims, signature) = unless_flawed!(cut(rest));
    let signed = &token.as_bytes()[..header.len() + 1 + claims.len()];
    Ok(Ok(Opened {
        header: unless_flawed!(text_in(alloc, header)?),
        claims: unless_flawed!(text_in(alloc, claims)?),
        signature: unless_flawed!(bytes_in(alloc, signature)?),
        signed,
    }))
}

/// What stands before the first dot, and behind it.
#[tactic(auto, using(crate::proofs::FormLemmas::not_cut, crate::proofs::FormLemmas::cut_in_two, crate::proofs::FormLemmas::round_dot))]
fn cut(text: &str) -> Result<(&str, &str), Flaw>
    ensures value { seen_by (λ x. (x.0.now, x.1.now)) result ≡ table.cut text.now }
    ensures whole { IfOk result (λ x. text.now ≡ x.0.now ++ 46 ∷ x.1.now) }
{
    match text.split_once('.') {
        Some((front, back)) => Ok((front, back)),
        None => Err(Flaw::Form),
    }
}

/// The text that a part says, where it is base64url of one.
#[tactic(auto, unfolding(crate::specs::Form::text_in))]
fn text_in(alloc: Global, part: &str) -> Result<Result<Text, Flaw>, AllocError>
    ensures { IfOk result (λ text. text ≡ table.text_in part.now) }
{
    match String::from_utf8(unless_flawed!(bytes_in(alloc, part)?)) {
        Ok(text) => Ok(Ok(Text::from_string(text))),
        Err(_) => Ok(Err(Flaw::Form)),
    }
}

/// The bytes that a part says, where it is base64url without padding (RFC 7515, section 2), with
/// no bit to spare.
#[tactic(auto, unfolding(crate::specs::Form::bytes_in))]
fn bytes_in(alloc: Global, part: &str) -> Result<Result<Vec<u8>, Flaw>, AllocError>
    ensures { IfOk result (λ bytes. seen_by (λ v. v.items) bytes ≡ table.bytes_in part.now) }
{
    match URL_SAFE_NO_PAD.decode(alloc, part.as_bytes()) {
        Ok(bytes) => Ok(Ok(bytes)),
        Err(DecodeAllocError::OutOfMemory) => Err(AllocError),
        Err(DecodeAllocError::DecodeError(_)) => Ok(Err(Flaw::Form)),
    }
}

/// Whether one of the keys, that which the header names, signed the token.
#[tactic(auto, unfolding(crate::specs::Header::check_header))]
pub(crate) fn check_header(
    alloc: Global,
    keys: &[Key],
    token: &Opened,
) -> Result<Result<(), Flaw>, AllocError>
    ensures { IfOk result (λ checked. checked
        ≡ headers.check_header keys.now (opened_view token.now)) }
{
    let mut scratch = Scratch::new(alloc);
    let Some(header) = object_of(alloc, token.header.as_str(), &mut scratch)? else {
        return Ok(Err(Flaw::Header));
    };
    let name = unless_flawed!(key_name(&header));
    Ok(check_signature(keys, name, token.signed, &token.signature))
}

/// The key that a header names, if it names one. The algorithm that it names is compared, and
/// never followed; what it says is critical isn't known here.
#[tactic(auto, unfolding(crate::specs::Header::key_name))]
fn key_name<'v>(header: &'v Value) -> Result<Option<&'v str>, Flaw>
    ensures { seen_by (option_map (λ name. name.now)) result
        ≡ headers.key_name (value_view header.now) }
{
    let algorithm = header
        .get("alg")
        .and_then(Value::as_str)
        .ok_or(Flaw::Header)?;
    if header.get("crit").is_some() {
        return Err(Flaw::Header);
    }
    let name = named_in(header.get("kid"))?;
    if algorithm != ALGORITHM {
        return Err(Flaw::Algorithm);
    }
    Ok(name)
}

/// The name that a member says, if it is there. It has to be a text.
fn named_in<'v>(member: Option<&Value<'v>>) -> Result<Option<&'v str>, Flaw>
    ensures { seen_by (option_map (λ name. name.now)) result
        ≡ headers.named_in (option_map (λ v. value_view v.now) member.entry) }
{
    match member {
        Some(value) => Ok(Some(value.as_str().ok_or(Flaw::Header)?)),
        None => Ok(None),
    }
}
