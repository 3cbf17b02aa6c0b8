//! A head, read by `httparse` (RFC 9112, sections 2, 3, 5 and 6): its end, its fields, and what is
//! kept of it.

ghost use Rattle.std.specs.Prelude.{◌≡◌, ◌≢◌, ◌⊎◌, ◌<◌, ◌≤◌, ◌++◌, ◌∷◌, [], ℕ, List, Option, None, true, false, length, map, codes, All, IfOk, IfErr, IfSome, OnOk, option_map, IsUtf8, string_bytes};
ghost use Rattle.std.specs.List.{list_any};
ghost use Rattle.std.specs.Str.Parse.{digits_value};
ghost use Rattle.httparse.specs.Grammar.{RequestHead, MayBecomeRequest};
ghost use Rattle.httparse.specs.Spans.{IsHeaderWithin, IsRequestWithin, IsRequestOf, IsRequestAt, RequestOverflows, header_bytes};
ghost use Rattle.http_edge.specs.Request.{IsTargetOf, values, NamesLength, IsLength, IsOnlyText, is_upgrade};
ghost use Rattle.http_edge.specs.Reading.{EndsNoLine, HasEmptyLine, HasNoHead, LacksLength, NamesTooMuch, IsFault};
ghost use Rattle.http_edge.specs.Head.{IsHeadOf, HasParsed};
ghost use Rattle.http_edge.specs.LineState.{walk};
ghost use Rattle.http_edge.specs.Values.{TellsValues};
ghost use Rattle.http_edge.specs.declared.head.LineState.TheVariants.{Blank};
ghost use Rattle.http_edge.specs.declared.error.EdgeError.TheVariants.{Memory, BadHead, HeadTooLong, NoLength, BodyTooLong};

use crate::error::EdgeError;
use httparse::Status;
use httparse::spans::{EMPTY_HEADER_SPAN, HeaderSpan, RequestSpans, parse_request};
use std::alloc::{AllocError, Global};

/// How many fields a head may have.
const FIELDS: usize = 100;

/// The longest body, in bytes.
const BODY_LIMIT: usize = 1_000_000;

/// What is kept of a head.
#[derive(Debug, Drop)]
pub(crate) struct Head {
    pub(crate) method: String,
    pub(crate) path: String,
    pub(crate) query: String,
    pub(crate) upgrade: bool,
    pub(crate) origin: Option<String>,
    /// How many bytes the head has, and then its body.
    pub(crate) len: usize,
    pub(crate) body_len: usize,
}

// The bytes as a text, which they are.
fn text_from(alloc: Global, bytes: &[u8]) -> Result<String, AllocError>
    requires { IsUtf8 bytes.now }
    ensures { IfOk result (λ text. string_bytes text ≡ bytes.now) }
{
    String::from_str(alloc, std::str::from_utf8(bytes).unwrap())
}

// A target's path and query.
fn split_target(target: &str) -> (&str, &str)
    ensures { IsTargetOf target.now result.0.now result.1.now }
{
    target.split_once('?').unwrap_or((target, ""))
}

// What is kept of the head that the spans show.
fn head_of(
    alloc: Global,
    bytes: &[u8],
    found: &RequestSpans,
    spans: &[HeaderSpan],
) -> Result<Head, EdgeError>
    requires within { IsRequestWithin bytes.now spans.now found.now }
    requires shown { IsRequestOf bytes.now spans.now found.now }
    ensures head { (h : RequestHead)
        → IsRequestAt bytes.now spans.now found.now h → IfOk result (λ head. IsHeadOf head h) }
    ensures unnamed { (h : RequestHead) → IsRequestAt bytes.now spans.now found.now h
        → IfErr result (λ e. e ≡ NoLength → LacksLength h) }
    ensures too_long { (h : RequestHead) → IsRequestAt bytes.now spans.now found.now h
        → IfErr result (λ e. e ≡ BodyTooLong → NamesTooMuch h) }
    ensures kinds { IfErr result (λ e. (e ≡ Memory) ⊎ (e ≡ NoLength) ⊎ (e ≡ BodyTooLong)) }
{
    let fields = &spans[..found.headers];
    let method = text_from(alloc, found.method.of(bytes))?;
    let body_len = match method.as_str() {
        "POST" => body_length(bytes, fields)?,
        _ => 0,
    };
    let target = text_from(alloc, found.path.of(bytes))?;
    let (path, query) = split_target(target.as_str());
    Ok(Head {
        method,
        path: String::from_str(alloc, path)?,
        query: String::from_str(alloc, query)?,
        upgrade: asks_upgrade(bytes, fields),
        origin: origin_of(alloc, bytes, fields)?,
        len: found.len,
        body_len,
    })
}

/// Whether these bytes, in which no head has ended, may become one.
pub(crate) fn judge(bytes: &[u8]) -> Result<(), EdgeError>
    requires short { length bytes.now < 16384 }
    requires unended { ¬ HasEmptyLine bytes.now }
    ensures may { OnOk result (MayBecomeRequest bytes.now) }
    ensures fault { IfErr result (λ e. IsFault e bytes.now) }
{
    let mut spans = [EMPTY_HEADER_SPAN; FIELDS];
    match parse_request(bytes, &mut spans) {
        Ok(_) => Ok(()),
        Err(_) => Err(EdgeError::BadHead),
    }
}

/// The head at the front of the bytes. Where it has ended, none that is found is a bad one.
pub(crate) fn find_head(alloc: Global, bytes: &[u8], ended: bool) -> Result<Head, EdgeError>
    ensures head { IfOk result (λ head. HasParsed bytes.now (λ h. IsHeadOf head h)) }
    ensures bad { IfErr result (λ e. e ≡ BadHead
        → HasNoHead bytes.now × (ended ≡ false → RequestOverflows 100 bytes.now)) }
    ensures long { IfErr result
        (λ e. e ≡ HeadTooLong → (ended ≡ false) × MayBecomeRequest bytes.now) }
    ensures unnamed { IfErr result (λ e. e ≡ NoLength → HasParsed bytes.now LacksLength) }
    ensures too_long { IfErr result (λ e. e ≡ BodyTooLong → HasParsed bytes.now NamesTooMuch) }
    ensures kinds { IfErr result (λ e. (e ≡ Memory)
        ⊎ (e ≡ BadHead) ⊎ (e ≡ HeadTooLong) ⊎ (e ≡ NoLength) ⊎ (e ≡ BodyTooLong)) }
{
    let mut spans = [EMPTY_HEADER_SPAN; FIELDS];
    match parse_request(bytes, &mut spans) {
        Ok(Status::Complete(found)) => head_of(alloc, bytes, &found, &spans),
        Ok(Status::Partial) if !ended => Err(EdgeError::HeadTooLong),
        _ => Err(EdgeError::BadHead),
    }
}

/// The values that fields have under one name.
#[derive(Clone, Copy, Debug)]
pub(crate) enum Values<'b> {
    Nothing,
    One(&'b [u8]),
    Many,
}

// The values so far, and that of one more field.
fn one_more<'b>(found: Values<'b>, bytes: &'b [u8], field: &HeaderSpan, name: &[u8]) -> Values<'b>
    requires { IsHeaderWithin (length bytes.now) field.now }
    ensures { (known : List (List ℕ × List ℕ)) → TellsValues found.entry (values name.now known)
        → TellsValues result (values name.now (known ++ header_bytes bytes.now field.now ∷ [])) }
{
    if !field.name.of(bytes).eq_ignore_ascii_case(name) {
        return found;
    }
    match found {
        Values::Nothing => Values::One(field.value.of(bytes)),
        Values::One(_) => Values::Many,
        Values::Many => Values::Many,
    }
}

// The values under this name.
fn values_under<'b>(bytes: &'b [u8], fields: &[HeaderSpan], name: &[u8]) -> Values<'b>
    requires { All (IsHeaderWithin (length bytes.now)) fields.now }
    ensures { TellsValues result (values name.now (map (header_bytes bytes.now) fields.now)) }
{
    let mut found = Values::Nothing;
    for field in fields {
        found = one_more(found, bytes, field, name);
    }
    found
}

// The number of one to nine digits.
fn read_length(text: &[u8]) -> Option<usize>
    ensures some { IfSome result (λ n. IsLength text.now × (n ≡ digits_value 10 text.now)) }
    ensures none { result ≡ None → ¬ IsLength text.now }
{
    if text.is_empty() || text.len() > 9 || !text.iter().all(|byte| byte.is_ascii_digit()) {
        return None;
    }
    let Ok(digits) = std::str::from_utf8(text) else {
        return None;
    };
    digits.parse().ok()
}

// The length of a body that the fields name.
pub(crate) fn body_length(bytes: &[u8], fields: &[HeaderSpan]) -> Result<usize, EdgeError>
    requires { All (IsHeaderWithin (length bytes.now)) fields.now }
    ensures named { IfOk result
        (λ n. NamesLength (map (header_bytes bytes.now) fields.now) n × (n ≤ 1000000)) }
    ensures unnamed { IfErr result
        (λ e. e ≡ NoLength → (n : ℕ) → ¬ NamesLength (map (header_bytes bytes.now) fields.now) n) }
    ensures too_long { IfErr result (λ e. e ≡ BodyTooLong
        → (n : ℕ) × NamesLength (map (header_bytes bytes.now) fields.now) n × (1000000 < n)) }
    ensures kinds { IfErr result (λ e. (e ≡ NoLength) ⊎ (e ≡ BodyTooLong)) }
{
    let Values::Nothing = values_under(bytes, fields, b"transfer-encoding") else {
        return Err(EdgeError::NoLength);
    };
    let Values::One(text) = values_under(bytes, fields, b"content-length") else {
        return Err(EdgeError::NoLength);
    };
    match read_length(text) {
        None => Err(EdgeError::NoLength),
        Some(length) if length > BODY_LIMIT => Err(EdgeError::BodyTooLong),
        Some(length) => Ok(length),
    }
}

// The text of the one `Origin` field.
pub(crate) fn origin_of(
    alloc: Global,
    bytes: &[u8],
    fields: &[HeaderSpan],
) -> Result<Option<String>, AllocError>
    requires { All (IsHeaderWithin (length bytes.now)) fields.now }
    ensures { IfOk result (λ origin. IsOnlyText
        (values (codes "origin") (map (header_bytes bytes.now) fields.now))
        (option_map string_bytes origin)) }
{
    let Values::One(value) = values_under(bytes, fields, b"origin") else {
        return Ok(None);
    };
    match std::str::from_utf8(value) {
        Ok(text) => Ok(Some(String::from_str(alloc, text)?)),
        Err(_) => Ok(None),
    }
}

// Is this field an `Upgrade` that is `websocket`?
fn upgrades(bytes: &[u8], field: &HeaderSpan) -> bool
    requires { IsHeaderWithin (length bytes.now) field.now }
    ensures { result ≡ is_upgrade (header_bytes bytes.now field.now) }
{
    field.name.of(bytes).eq_ignore_ascii_case(b"upgrade")
        && field.value.of(bytes).eq_ignore_ascii_case(b"websocket")
}

// Is there such a field?
pub(crate) fn asks_upgrade(bytes: &[u8], fields: &[HeaderSpan]) -> bool
    requires { All (IsHeaderWithin (length bytes.now)) fields.now }
    ensures { result ≡ list_any is_upgrade (map (header_bytes bytes.now) fields.now) }
{
    for field in fields {
        if upgrades(bytes, field) {
            return true;
        }
    }
    false
}

/// What the last bytes were.
#[derive(Clone, Copy, Debug, PartialEq, Eq)]
pub(crate) enum LineState {
    /// Nothing but line ends came.
    Blank,
    /// The last byte ends no line.
    Text,
    /// A line that isn't empty has ended.
    Ended,
    /// So it has, and a carriage return came.
    Return,
    /// The empty line has come.
    Empty,
}

impl LineState {
    /// What the last bytes are, once these have come.
    pub(crate) fn after_all(self, bytes: &[u8]) -> LineState
        ensures { result ≡ walk self bytes.now }
    {
        let mut line = self;
        for byte in bytes {
            line = match (line, *byte) {
                (LineState::Blank, b'\r' | b'\n') => LineState::Blank,
                (LineState::Text, b'\n') => LineState::Ended,
                (LineState::Ended, b'\r') => LineState::Return,
                (LineState::Ended | LineState::Return, b'\n') => LineState::Empty,
                (LineState::Empty, _) => LineState::Empty,
                _ => LineState::Text,
            };
        }
        line
    }

    /// Has the start line begun in this piece, or has a line ended in it since?
    pub(crate) fn is_due(self, before: LineState, piece: &[u8]) -> bool
        ensures due { result ≡ true → self ≢ Blank }
        ensures rests { result ≡ false
            → (self ≡ Blank) ⊎ ((before ≢ Blank) × EndsNoLine piece.now) }
    {
        self != LineState::Blank && (before == LineState::Blank || piece.contains(&b'\n'))
    }
}
