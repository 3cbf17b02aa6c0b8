//! The keys of tokens, and what they signed (RFC 7518, section 3.2): keyed hashing (RFC 2104) with
//! SHA-256, and comparing secrets.

ghost use Rattle.std.specs.Prelude.{◌≡◌, ◌≤◌, ◌++◌, bytes_eq, length, option_map};
ghost use Rattle.sha2.specs.Sha256.{sha256};
ghost use Rattle.tokens.specs.Hmac as hmac;
ghost use Rattle.tokens.specs.Keys as table;

use crate::verifier::Flaw;
use sha2::{Digest, Sha256};
use terms::Text;

/// A key that tokens are signed with. `Debug` doesn't show it, since it is a secret.
#[derive(Drop)]
pub struct Key {
    /// What a token's `kid` names it by.
    pub name: Text,
    /// By a key of no bytes nothing is signed.
    pub secret: Vec<u8>,
}

/// Whether one of the keys signed a text: that of this name, or any where none is named.
#[tactic(auto, unfolding(crate::specs::Keys::check_signature))]
pub(crate) fn check_signature(
    keys: &[Key],
    name: Option<&str>,
    signed: &[u8],
    signature: &[u8],
) -> Result<(), Flaw>
    ensures { result ≡ table.check_signature keys.now (option_map (λ n. n.now) name.entry)
        signed.now signature.now }
{
    let has_signed = match name {
        Some(name) => {
            let key = key_named(keys, name).ok_or(Flaw::Key)?;
            key.has_signed(signed, signature)
        }
        None => any_signed(keys, signed, signature),
    };
    if has_signed {
        Ok(())
    } else {
        Err(Flaw::Signature)
    }
}

/// The first key of this name.
fn key_named<'k>(keys: &'k [Key], name: &str) -> Option<&'k Key>
    ensures { option_map (λ key. key.now) result ≡ table.key_named keys.now name.now }
{
    keys.iter().find(|key| key.name.as_str() == name)
}

/// Whether any of the keys signed a text.
fn any_signed(keys: &[Key], signed: &[u8], signature: &[u8]) -> bool
    ensures { result ≡ table.any_signed keys.now signed.now signature.now }
{
    keys.iter().any(|key| key.has_signed(signed, signature))
}

impl Key {
    /// Whether it signed a text. How long it takes doesn't tell where signatures differ.
    fn has_signed(&self, signed: &[u8], signature: &[u8]) -> bool
        ensures { result ≡ table.has_signed self.now signed.now signature.now }
    {
        !self.secret.is_empty() && is_same(signature, &hmac_sha256(&self.secret, signed))
    }
}

/// The HMAC of a text under a key of any length, by SHA-256 (RFC 2104, section 2).
#[tactic(auto, unfolding(crate::specs::Hmac::hmac_sha256))]
pub fn hmac_sha256(key: &[u8], text: &[u8]) -> [u8; 32]
    ensures { result ≡ hmac.hmac_sha256 key.now text.now }
{
    if key.len() > 64 {
        hmac_by(&Sha256::digest(key), text)
    } else {
        hmac_by(key, text)
    }
}

/// The HMAC under a key of at most 64 bytes, as many as SHA-256 takes at a time.
fn hmac_by(key: &[u8], text: &[u8]) -> [u8; 32]
    requires { length key.now ≤ 64 }
    ensures { result ≡ hmac.hmac_by (hmac.filled key.now) text.now }
{
    let inner = digest_of_both(&padded(key, 0x36), text);
    digest_of_both(&padded(key, 0x5c), &inner)
}

/// The key as a block, with zeros behind it, each byte of which is changed by the pad.
fn padded(key: &[u8], pad: u8) -> [u8; 64]
    requires { length key.now ≤ 64 }
    ensures { result ≡ hmac.padded (hmac.filled key.now) pad }
{
    let mut block = [pad; 64];
    for index in 0..key.len() {
        block[index] = key[index] ^ pad;
    }
    block
}

/// The digest of two texts, one behind the other.
fn digest_of_both(first: &[u8], second: &[u8]) -> [u8; 32]
    ensures { result ≡ sha256 (first.now ++ second.now) }
{
    let mut hasher = Sha256::new();
    hasher.update(first);
    hasher.update(second);
    hasher.finalize()
}

/// Whether two texts are the same. How long it takes tells whether they are of one length, and not
/// where they differ.
pub fn is_same(text: &[u8], secret: &[u8]) -> bool
    ensures { result ≡ bytes_eq text.now secret.now }
{
    if text.len() != secret.len() {
        return false;
    }
    let mut differing = 0u8;
    for index in 0..text.len() {
        differing |= text[index] ^ secret[index];
    }
    differing == 0
}
