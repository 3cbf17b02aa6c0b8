//! Whether a token is valid (RFC 7519, section 7.2), and the claims of one that a key signed.

ghost use Rattle.std.specs.Prelude.{◌≡◌, false, IfOk, IfSome};
ghost use Rattle.std.specs.List.{list_any};
ghost use Rattle.tokens.specs.Claims.{is_separator};
ghost use Rattle.tokens.specs.Signed as signed;
ghost use Rattle.tokens.specs.Verified as table;

use crate::claims::{Claims, check_claims, has_separator};
use crate::form::{check_header, read_parts};
use crate::keys::Key;
use crate::payload::object_of;
use json::Scratch;
use std::alloc::{AllocError, Global};
use terms::Text;

/// How many bytes a token may have.
const MAX_TOKEN: usize = 8192;

/// What tokens are verified by. `Debug` doesn't show it, since keys are secrets.
#[derive(Drop)]
pub struct Verifier {
    pub keys: Vec<Key>,
    /// Whom tokens have to be for, if that is asked.
    pub audience: Option<Text>,
}

/// Why a token isn't valid. Of several flaws the first one is said.
#[derive(Clone, Copy, Debug, PartialEq, Eq)]
pub enum Flaw {
    /// It has more than 8,192 bytes.
    TooLong,
    /// It isn't three parts of base64url between dots, the first two of UTF-8.
    Form,
    /// The header is no JSON object whose members are what they have to be, names a member twice,
    /// has no `alg`, or has a `crit`.
    Header,
    /// The header's `alg` isn't `HS256`.
    Algorithm,
    /// The header's `kid` names no key.
    Key,
    /// It wasn't signed by the key that is named, or, where none is named, by any.
    Signature,
    /// The claims are no JSON object whose members are what they must be, or name one twice.
    Claims,
    /// It is for another audience, or for none.
    Audience,
    /// Its time hasn't come (`nbf`).
    Early,
    /// Its time is over (`exp`).
    Expired,
}

impl Verifier {
    /// What a token says, where it is valid at this time, in seconds since 1970. Clocks may differ
    /// by 30 seconds.
    #[tactic(auto, unfolding(crate::specs::Verified::verified_by))]
    pub fn verify(
        &self,
        alloc: Global,
        seconds: u64,
        token: &str,
    ) -> Result<Result<Claims, Flaw>, AllocError>
        ensures { IfOk result (λ verified. verified
            ≡ table.verified self.now seconds token.now) }
    {
        if token.len() > MAX_TOKEN {
            return Ok(Err(Flaw::TooLong));
        }
        let opened = unless_flawed!(read_parts(alloc, token)?);
        unless_flawed!(check_header(alloc, &self.keys, &opened)?);
        let text = opened.claims;
        let expires = unless_flawed!(check_claims(alloc, &self.audience, seconds, text.as_str())?);
        Ok(Ok(Claims { text, expires }))
    }

    /// The claims of a token that one of the keys signed, whatever they say of times and audiences,
    /// or none. They hold no U+001E.
    #[tactic(auto, unfolding(crate::specs::Signed::signed_by))]
    pub fn signed_claims(&self, alloc: Global, token: &str) -> Result<Option<Text>, AllocError>
        ensures signed { IfOk result (λ claims.
            claims ≡ signed.signed_claims self.now token.now) }
        ensures whole { IfOk result (λ claims. IfSome claims (λ text.
            list_any is_separator text ≡ false)) }
    {
        if token.len() > MAX_TOKEN {
            return Ok(None);
        }
        let Ok(opened) = read_parts(alloc, token)? else {
            return Ok(None);
        };
        if let Err(_) = check_header(alloc, &self.keys, &opened)? {
            return Ok(None);
        }
        let text = opened.claims;
        if has_separator(text.as_str().as_bytes()) || !is_object(alloc, text.as_str())? {
            return Ok(None);
        }
        Ok(Some(text))
    }
}

/// Whether a text is a JSON object that names no member twice.
fn is_object(alloc: Global, text: &str) -> Result<bool, AllocError>
    ensures { IfOk result (λ is. is ≡ signed.is_object text.now) }
{
    let mut scratch = Scratch::new(alloc);
    Ok(object_of(alloc, text, &mut scratch)?.is_some())
}
