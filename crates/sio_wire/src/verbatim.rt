//! Arrays of texts that are written as they are, with nothing escaped and no blank between the
//! tokens. Most events are such arrays, and one pass over their bytes reads them.

ghost use Rattle.std.specs.Prelude.{◌≡◌, ◌∷◌, IfOk, IfSome, length, map};
ghost use Rattle.std.specs.List.{prefix_len, take_while};
ghost use Rattle.std.specs.Simd.Lanes.{mask_l};
ghost use Rattle.sio_wire.specs.Texts.{AreAlone, BeginsVerbatim, is_special, is_verbatim};

use std::alloc::{AllocError, Global};
use std::simd::prelude::*;
use terms::Text;

/// The texts of an array that has nothing else in it, where each is written as it is. `None` for
/// any other payload, also for an array of texts in which a blank or an escape stands.
pub(crate) fn verbatim_texts(
    alloc: Global,
    payload: &str,
) -> Result<Option<Vec<Option<Text>>>, AllocError>
    ensures { IfOk result
        (λ found. IfSome found (λ names. AreAlone names.items payload.now)) }
{
    // Where the last element is no text, no copy is worth making.
    if !payload.ends_with("\"]") {
        return Ok(None);
    }
    let Some(mut rest) = payload.strip_prefix('[') else {
        return Ok(None);
    };
    let mut found = Vec::new(alloc);
    'texts: while let Some((text, behind)) = verbatim_text(rest) {
        found.push(Some(Text::copy_of(alloc, text)?))?;
        if behind == "]" {
            return Ok(Some(found));
        }
        let Some(next) = behind.strip_prefix(',') else {
            return Ok(None);
        };
        rest = next;
    }
    Ok(None)
}

/// The text in front, written as it is, and what is behind its closing quote.
fn verbatim_text(rest: &str) -> Option<(&str, &str)>
    ensures { IfSome result (λ parts. BeginsVerbatim rest.now parts.0.now parts.1.now) }
{
    let inner = rest.strip_prefix('"')?;
    let (text, closing) = inner.split_at(leading_verbatim(inner.as_bytes()));
    let behind = closing.strip_prefix('"')?;
    Some((text, behind))
}

/// How many bytes are looked at together: few, since most texts are short.
const TOGETHER: usize = 8;

/// How many bytes in front stand for themselves in a JSON string.
fn leading_verbatim(bytes: &[u8]) -> usize
    ensures { result ≡ prefix_len is_verbatim bytes.now }
{
    let mut count = 0;
    while bytes.len() - count >= TOGETHER {
        let special = special_among(u8x8::from_slice(&bytes[count..]));
        if special != 0 {
            return count + special.trailing_zeros() as usize;
        }
        count += TOGETHER;
    }
    count + leading_verbatim_singly(&bytes[count..])
}

/// The same, a byte at a time, for the last few.
fn leading_verbatim_singly(bytes: &[u8]) -> usize
    ensures { result ≡ length (take_while is_verbatim bytes.now) }
{
    bytes
        .iter()
        .take_while(|byte| **byte != b'"' && **byte != b'\\' && **byte >= b' ')
        .count()
}

/// A bit for each of these bytes, set where it does not stand for itself.
fn special_among(bytes: u8x8) -> u64
    ensures { result ≡ mask_l (map is_special bytes) }
{
    let quotes = bytes.simd_eq(u8x8::splat(b'"'));
    let backslashes = bytes.simd_eq(u8x8::splat(b'\\'));
    let controls = bytes.simd_lt(u8x8::splat(b' '));
    (quotes | backslashes | controls).to_bitmask()
}
