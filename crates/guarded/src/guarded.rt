//! Apps behind which clients need a token: one behind an entrance (Socket.IO protocol 5, "Connection
//! to a namespace"), and one behind which a warden ends the sockets of expired tokens.

ghost use Rattle.std.specs.Prelude.{◌≡◌, ℕ, List, IfOk};
ghost use Rattle.eio_wire.specs.Payload.{IsWhole};
ghost use Rattle.tokens.specs.Payload.{without_token};
ghost use Rattle.guarded.specs.Entrance as table;
ghost use Rattle.guarded.specs.Expiring.{Allows, Decides, Ends};
ghost use Rattle.guarded.specs.Guarded.{Admits, is_apart, pass_into, told_as};
ghost use Rattle.guarded.specs.declared.guarded.Pass.TheVariants.{Granted};

use crate::warden::{EXPIRY, commanded, told_of, told_of_end, with_told};
use events::{App, Arrived, Newcomer, Verdict, Wanted, Who};
use journal::Ending;
use std::alloc::{AllocError, Global};
use terms::{Room, Text};
use tokens::{Flaw, Verifier, is_same, token_in, without_token};

/// What a client is told that has no token, or one that isn't taken.
pub const NOT_ALLOWED: &str = "Not allowed";

/// What a client is told whose token has expired.
const EXPIRED: &str = "Token expired";

/// What clients must have to come in. Where neither a token nor signed ones are named, all may.
/// `Debug` doesn't show it, since it holds secrets.
#[derive(Drop)]
pub struct Entrance {
    /// The text that may stand as `token` in the payload of a CONNECT, an object.
    pub token: Option<Text>,
    /// What the signed tokens that may stand there are verified by.
    pub signed: Option<Verifier>,
    /// The wall clock at moment 0, in seconds since 1970.
    pub began: u32,
}

/// Whether a client comes in.
#[derive(Clone, Copy, Debug)]
pub enum Pass {
    /// It does.
    Granted,
    /// It has no token, or one that isn't taken.
    NotAllowed,
    /// Its token was a good one until it expired.
    Expired,
}

impl Entrance {
    /// One by which everybody comes in.
    pub fn open() -> Entrance
        ensures { (moment : ℕ) (payload : List ℕ) → table.pass_of result moment payload ≡ Granted }
    {
        let (token, signed, began) = (None, None, 0);
        Entrance {
            token,
            signed,
            began,
        }
    }

    /// Whether a client comes in at this moment, in milliseconds, with this payload of its CONNECT.
    pub fn pass(&self, alloc: Global, moment: u64, payload: &str) -> Result<Pass, AllocError>
        ensures { IfOk result (λ pass. pass ≡ table.pass_of self.now moment payload.now) }
    {
        if self.token.is_none() && self.signed.is_none() {
            return Ok(Pass::Granted);
        }
        let Some(text) = token_in(alloc, payload)? else {
            return Ok(Pass::NotAllowed);
        };
        if let Some(token) = &self.token {
            if is_same(text.as_str().as_bytes(), token.as_str().as_bytes()) {
                return Ok(Pass::Granted);
            }
        }
        let Some(verifier) = &self.signed else {
            return Ok(Pass::NotAllowed);
        };
        let seconds = u64::from(self.began) + moment / 1000;
        match verifier.verify(alloc, seconds, text.as_str())? {
            Ok(_) => Ok(Pass::Granted),
            Err(Flaw::Expired) => Ok(Pass::Expired),
            Err(_) => Ok(Pass::NotAllowed),
        }
    }

    /// What is told of a client that came in: where signed tokens are taken, its payload without
    /// the token, and the claims of that.
    pub fn introduce(&self, alloc: Global, newcomer: &Newcomer) -> Result<Newcomer, AllocError>
        ensures told { IfOk result (λ told. told ≡ table.introduced self.now.signed newcomer.now) }
        ensures whole { IfOk result (λ told.
            IsWhole newcomer.now.payload → IsWhole newcomer.now.claims
            → IsWhole told.payload × IsWhole told.claims) }
    {
        let payload = newcomer.payload.as_str();
        let Some(verifier) = &self.signed else {
            return Ok(Newcomer {
                payload: Text::copy_of(alloc, payload)?,
                claims: newcomer.claims.clone()?,
            });
        };
        Ok(Newcomer {
            payload: whole_without_token(alloc, payload)?,
            claims: claims_in(alloc, verifier, payload)?,
        })
    }
}

/// A payload without its token. It holds no U+001E where the payload holds none.
fn whole_without_token(alloc: Global, payload: &str) -> Result<Text, AllocError>
    ensures without { IfOk result (λ text. text ≡ without_token payload.now) }
    ensures whole { IfOk result (λ text. IsWhole payload.now → IsWhole text) }
{
    without_token(alloc, payload)
}

/// The claims of the token in a payload, which are empty where no key signed it.
fn claims_in(alloc: Global, verifier: &Verifier, payload: &str) -> Result<Text, AllocError>
    ensures claims { IfOk result (λ claims. claims ≡ table.claims_in verifier.now payload.now) }
    ensures whole { IfOk result (λ claims. IsWhole claims) }
{
    if let Some(token) = token_in(alloc, payload)? {
        if let Some(claims) = verifier.signed_claims(alloc, token.as_str())? {
            return Ok(claims);
        }
    }
    Ok(Text::from_string(String::new(alloc)))
}

/// Whether a payload is an object whose `token` is this text.
pub fn has_token(alloc: Global, token: &str, payload: &str) -> Result<bool, AllocError>
    ensures { IfOk result (λ has. has ≡ table.has_token token.now payload.now) }
{
    match token_in(alloc, payload)? {
        Some(text) => Ok(is_same(text.as_str().as_bytes(), token.as_bytes())),
        None => Ok(false),
    }
}

/// An app, and what clients must have before it is asked about them.
#[derive(Drop)]
pub struct Guarded<A> {
    pub app: A,
    pub entrance: Entrance,
    /// The names of the namespaces that the app guards itself.
    pub apart: Vec<Text>,
}

impl<A: App> App for Guarded<A> {
    ghost policy = { λ guarded. record (A.policy guarded.app) {
      allows = λ moment space payload. Admits
          (pass_into guarded.entrance guarded.apart.items moment space payload)
          ((A.policy guarded.app).allows moment space payload);
      decides = λ who arrived. (A.policy guarded.app).decides who
          (told_as guarded.entrance guarded.apart.items who.space arrived);
    } };

    fn connects(
        &self,
        alloc: Global,
        moment: u64,
        space: &str,
        payload: &str,
    ) -> Result<Verdict, AllocError> {
        let pass = if is_apart(self.apart.as_slice(), space) {
            Pass::Granted
        } else {
            self.entrance.pass(alloc, moment, payload)?
        };
        match pass {
            Pass::Granted => self.app.connects(alloc, moment, space, payload),
            Pass::NotAllowed => Ok(Verdict::Refuse(Text::copy_of(alloc, NOT_ALLOWED)?)),
            Pass::Expired => Ok(Verdict::Refuse(Text::copy_of(alloc, EXPIRED)?)),
        }
    }

    fn decides(&self, alloc: Global, who: &Who, arrived: &Arrived) -> Wanted {
        match arrived {
            Arrived::Connected(newcomer) if !is_apart(self.apart.as_slice(), who.space.as_str()) =>
                {
                    let told = self.entrance.introduce(alloc, newcomer)?;
                    self.app.decides(alloc, who, &Arrived::Connected(told))
                }
            _ => self.app.decides(alloc, who, arrived),
        }
    }

    fn ended(&self, alloc: Global, who: &Who, rooms: &[Room], ending: Ending) -> Wanted {
        self.app.ended(alloc, who, rooms, ending)
    }
}

/// Whether this is one of the namespaces that the app guards itself.
fn is_apart(apart: &[Text], space: &str) -> bool
    ensures { result ≡ is_apart apart.now space.now }
{
    apart.iter().any(|name| name.as_str() == space)
}

/// An app, and the token by which a warden joins the namespace `/expiry`. It is told there who came
/// with a token that expires, who came back and who ended, and ends sockets. Where there is no
/// token, all is as the app says. `Debug` doesn't show it, since the token is a secret.
#[derive(Drop)]
pub struct Expiring<A> {
    pub app: A,
    /// What stands as `token` in the payload of the warden's CONNECT.
    pub token: Option<Text>,
}

impl<A: App> App for Expiring<A> {
    ghost policy = { λ expiring. record {
      allows = λ moment space payload. Allows expiring.token space payload
          ((A.policy expiring.app).allows moment space payload);
      decides = λ who arrived. Decides expiring.token who arrived
          ((A.policy expiring.app).decides who arrived);
      ends = λ who rooms ending. Ends expiring.token who ending
          ((A.policy expiring.app).ends who rooms ending);
    } };

    fn connects(
        &self,
        alloc: Global,
        moment: u64,
        space: &str,
        payload: &str,
    ) -> Result<Verdict, AllocError> {
        match &self.token {
            Some(token) if space == EXPIRY => {
                if has_token(alloc, token.as_str(), payload)? {
                    Ok(Verdict::Accept(Vec::new(alloc)))
                } else {
                    Ok(Verdict::Refuse(Text::copy_of(alloc, NOT_ALLOWED)?))
                }
            }
            _ => self.app.connects(alloc, moment, space, payload),
        }
    }

    fn decides(&self, alloc: Global, who: &Who, arrived: &Arrived) -> Wanted {
        if self.token.is_none() {
            return self.app.decides(alloc, who, arrived);
        }
        if who.space.as_str() == EXPIRY {
            return commanded(alloc, arrived);
        }
        let told = told_of(alloc, who, arrived)?;
        with_told(alloc, told, self.app.decides(alloc, who, arrived)?)
    }

    fn ended(&self, alloc: Global, who: &Who, rooms: &[Room], ending: Ending) -> Wanted {
        if self.token.is_none() {
            return self.app.ended(alloc, who, rooms, ending);
        }
        if who.space.as_str() == EXPIRY {
            return Ok(Vec::new(alloc));
        }
        let told = told_of_end(alloc, who, ending)?;
        let inner = self.app.ended(alloc, who, rooms, ending)?;
        with_told(alloc, Some(told), inner)
    }
}
