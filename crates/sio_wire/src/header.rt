//! A packet's header, read and written: its type, namespace, acknowledgement id and JSON payload,
//! and how many attachments follow (Socket.IO protocol 5, "Packet encoding").

ghost use Rattle.std.specs.Prelude.{◌≡◌, [], ◌∷◌, All, ◌≢◌, List, ℕ, ◌<◌, ◌≤◌, ◌⊎◌, ◌++◌, IfOk, IfErr, OnOk, take, drop, length, slice_index, string_bytes, OnErr, IsErrOf, ◌^◌, ◌↔◌, Some, IfSome, IsSome, IsNone, false};
ghost use Rattle.sio_wire.specs.Kinds.{digit_of, is_binary};
ghost use Rattle.std.specs.Char.{is_ascii_digit};
ghost use Rattle.std.specs.List.{before_last, take_while, list_any};
ghost use Rattle.std.specs.Str.Parse.{AllDigits, digits_value};
ghost use Rattle.sio_wire.specs.Header.{Sio, Plain, SpellsNothing, front_text, space_text, is_control};
ghost use Rattle.sio_wire.specs.Faults.{HasFault};
ghost use Rattle.sio_wire.specs.Scan.{Gives, header_at, kind_at, count_at, space_at, id_at, digit_count};
ghost use Rattle.sio_wire.specs.ConnectAnswer as answer;
ghost use Rattle.sio_wire.specs.Disconnect as disconnect;
ghost use Rattle.sio_wire.specs.Offset.{is_bracket, offset_digits, offset_text, packet_header, payload_with_offset};

use crate::error::SioError;
use crate::payload::Payload;
use crate::tree::check_payload;
use json::Scratch;
use serde_json::Value;
use std::alloc::{AllocError, Global};
use terms::{Text, ascii_text, id_text, read_digits, write_digits};

/// A packet's type.
#[derive(Clone, Copy, Debug, PartialEq, Eq)]
pub enum Kind {
    /// Joins a namespace, or accepts that.
    Connect,
    /// Leaves a namespace.
    Disconnect,
    /// Names an event and its data.
    Event,
    /// Answers an event that has an acknowledgement id.
    Ack,
    /// Refuses to let a client join a namespace.
    ConnectError,
    /// An event with attachments.
    BinaryEvent,
    /// An answer with attachments.
    BinaryAck,
}

impl Kind {
    /// The digit that begins a packet of this type.
    fn digit(self) -> &'static str
        ensures { result.now ≡ digit_of self ∷ [] }
    {
        match self {
            Kind::Connect => "0",
            Kind::Disconnect => "1",
            Kind::Event => "2",
            Kind::Ack => "3",
            Kind::ConnectError => "4",
            Kind::BinaryEvent => "5",
            Kind::BinaryAck => "6",
        }
    }

    /// Whether attachments may follow, so that the text counts them.
    pub(crate) fn is_binary(self) -> bool
        ensures { result ≡ is_binary self }
    {
        matches!(self, Kind::BinaryEvent | Kind::BinaryAck)
    }
}

/// What a packet's text says. The attachments follow as messages of their own.
#[derive(Debug, Drop)]
pub struct Header {
    pub kind: Kind,
    /// The namespace, which begins with `/`.
    pub space: Text,
    /// The acknowledgement id, where the sender asks for an answer or gives one.
    pub id: Option<u64>,
    /// The JSON text as it came, empty where there is none.
    pub payload: Payload,
    /// How many attachments follow, 0 where the type has none.
    pub count: u32,
}

/// Reads the header that a text spells. Of several faults the first one is answered: those of the
/// parts from left to right, then those of the payload in the order `BadJson`, `BadShape`,
/// `Reserved`, `BadPlaceholder`. `Memory` may come instead of any answer.
pub fn read_header(alloc: Global, scratch: &mut Scratch, text: &str) -> Result<Header, SioError>
    ensures ok { IfOk result (λ h. Sio h text.now) }
    ensures fault { IfErr result (λ e. (e ≡ SioError.Memory) ⊎ HasFault text.now e) }
    ensures refused { IfErr result (λ e. (e ≡ SioError.Memory) ⊎ SpellsNothing text.now) }
{
    let mut header = scan(alloc, text)?;
    check_payload(alloc, scratch, &mut header)?;
    Ok(header)
}

/// The parts of a text, with its payload not yet looked at.
#[tactic(auto, unfolding(crate::specs::Scan::header_at))]
fn scan(alloc: Global, text: &str) -> Result<Header, SioError>
    ensures ok { IfOk result (λ h. header_at text.now ≡ Ok h) }
    ensures err { IfErr result (λ e. (e ≡ SioError.Memory) ⊎ (header_at text.now ≡ Err e)) }
{
    let (kind, rest) = kind_of(text)?;
    let (count, rest) = count_of(kind, rest)?;
    let (space, rest) = space_of(rest)?;
    let (id, payload) = id_of(rest)?;
    Ok(Header {
        kind,
        space: Text::copy_of(alloc, space)?,
        id,
        payload: Payload::of(Text::copy_of(alloc, payload)?),
        count,
    })
}

/// The packet's type, and what follows its digit.
#[tactic(auto, unfolding(crate::specs::Scan::kind_at))]
fn kind_of(text: &str) -> Result<(Kind, &str), SioError>
    ensures { Gives (λ x. (x.0, x.1.now)) result (kind_at text.now) }
{
    if text.is_empty() {
        return Err(SioError::BadKind);
    }
    let kind = match text.as_bytes()[0] {
        b'0' => Kind::Connect,
        b'1' => Kind::Disconnect,
        b'2' => Kind::Event,
        b'3' => Kind::Ack,
        b'4' => Kind::ConnectError,
        b'5' => Kind::BinaryEvent,
        b'6' => Kind::BinaryAck,
        _ => return Err(SioError::BadKind),
    };
    Ok((kind, after_first(text)))
}

/// The count of attachments, and what follows its `-`.
#[tactic(auto, unfolding(crate::specs::Scan::count_at))]
fn count_of(kind: Kind, text: &str) -> Result<(u32, &str), SioError>
    ensures { Gives (λ x. (x.0, x.1.now)) result (count_at kind text.now) }
{
    if !kind.is_binary() {
        return Ok((0, text));
    }
    let (digits, rest) = split_digits(text);
    if digits.is_empty() || digits.len() > 15 || rest.is_empty() || rest.as_bytes()[0] != b'-' {
        return Err(SioError::BadCount);
    }
    let count = number_of(digits);
    if count > 32 {
        return Err(SioError::TooMany);
    }
    Ok((count as u32, after_first(rest)))
}

/// The namespace, and what follows its comma.
#[tactic(auto, unfolding(crate::specs::Scan::space_at))]
fn space_of(text: &str) -> Result<(&str, &str), SioError>
    ensures { Gives (λ x. (x.0.now, x.1.now)) result (space_at text.now) }
{
    if text.is_empty() || text.as_bytes()[0] != b'/' {
        return Ok(("/", text));
    }
    let (space, rest) = text.split_once(',').unwrap_or((text, ""));
    if has_control(space.as_bytes()) {
        return Err(SioError::BadShape);
    }
    Ok((space, rest))
}

/// The acknowledgement id, and the payload that follows it.
#[tactic(auto, unfolding(crate::specs::Scan::id_at))]
fn id_of(text: &str) -> Result<(Option<u64>, &str), SioError>
    ensures { Gives (λ x. (x.0, x.1.now)) result (id_at text.now) }
{
    let (digits, rest) = split_digits(text);
    if digits.is_empty() {
        return Ok((None, text));
    }
    if digits.len() > 15 {
        return Err(SioError::BadId);
    }
    Ok((Some(number_of(digits)), rest))
}

/// The digits in front, and the text after them.
fn split_digits(text: &str) -> (&str, &str)
    ensures front { result.0.now ≡ take (digit_count text.now) text.now }
    ensures rest { result.1.now ≡ drop (digit_count text.now) text.now }
    ensures length { length result.0.now ≡ digit_count text.now }
    ensures digits { AllDigits 10 result.0.now }
{
    text.split_at(leading_digits(text.as_bytes()))
}

/// The number that a few digits write.
fn number_of(digits: &str) -> u64
    requires digits { AllDigits 10 digits.now }
    requires some { 0 < length digits.now }
    requires few { length digits.now ≤ 15 }
    ensures { result ≡ digits_value 10 digits.now }
{
    digits.parse().unwrap()
}

/// How many digits stand in front.
fn leading_digits(bytes: &[u8]) -> usize
    ensures { result ≡ length (take_while is_ascii_digit bytes.now) }
{
    bytes.iter().take_while(|b| b.is_ascii_digit()).count()
}

/// Whether a character under U+0020 is among the text's bytes.
fn has_control(bytes: &[u8]) -> bool
    ensures { result ≡ list_any is_control bytes.now }
{
    bytes.iter().any(|b| *b < 32)
}

/// The text after its first character, which is ASCII.
fn after_first(text: &str) -> &str
    requires some { 0 < length text.now }
    requires ascii { slice_index text.now 0 < 128 }
    ensures { result.now ≡ drop 1 text.now }
{
    &text[1..]
}

/// What stands in front of a packet's payload.
#[derive(Clone, Copy, Debug)]
pub struct Front<'a> {
    pub kind: Kind,
    /// How many attachments follow, 0 where the type has none.
    pub count: u32,
    /// The namespace, which begins with `/`.
    pub space: &'a str,
    /// The acknowledgement id, where the sender asks for an answer or gives one.
    pub id: Option<u64>,
}

/// For how many bytes besides a namespace and a payload there is room at once: enough for the type,
/// the count, a comma, the id and the offset.
const ROOM: usize = 64;

/// The plain text of a header, its fields as they are: no leading zeros, no namespace `/`.
pub fn write_header(alloc: Global, header: &Header) -> Result<String, SioError>
    ensures ok { IfOk result (λ t. Plain header.now (string_bytes t)) }
    ensures err { IfErr result (λ e. e ≡ SioError.Memory) }
{
    let front = Front {
        kind: header.kind,
        count: header.count,
        space: header.space.as_str(),
        id: header.id,
    };
    write_packet(alloc, &front, header.payload.as_str(), None)
}

/// The plain text of the header that has this front and this payload, with the offset as the
/// payload's last element where there is one: before its last `]` come `,"`, the offset's digits
/// and `"`, and nothing follows the `]`. `BadShape` where there is an offset and the payload has no
/// `]`.
pub fn write_packet(
    alloc: Global,
    front: &Front<'_>,
    payload: &str,
    offset: Option<u64>,
) -> Result<String, SioError>
    ensures ok { IfOk result (λ text.
        Plain (packet_header front.now payload.now offset) (string_bytes text)) }
    ensures bad_shape { IsErrOf result SioError.BadShape
        ↔ (IsSome offset × (list_any is_bracket payload.now ≡ false)) }
    ensures err { IfErr result (λ e. (e ≡ SioError.Memory) ⊎ (e ≡ SioError.BadShape)) }
{
    let kept = match offset {
        Some(_) => before_bracket(payload).ok_or(SioError::BadShape)?,
        None => payload,
    };
    let room = payload.len().saturating_add(front.space.len());
    let mut text = String::with_capacity(alloc, room.saturating_add(ROOM))?;
    push_front(&mut text, front)?;
    text.push_str(kept)?;
    if let Some(offset) = offset {
        push_offset(&mut text, offset)?;
    }
    Ok(text)
}

/// Appends what stands in front of a payload.
fn push_front(text: &mut String, front: &Front<'_>) -> Result<(), AllocError>
    ensures { OnOk result (string_bytes text.new ≡ string_bytes text.old ++ front_text front.now) }
{
    text.push_str(front.kind.digit())?;
    if front.kind.is_binary() {
        let count = front.count;
        write!(text, "{count}-")?;
    }
    push_space(text, front.space)?;
    if let Some(id) = front.id {
        write!(text, "{id}")?;
    }
    Ok(())
}

/// Appends the namespace and a comma, where it is not `/`.
fn push_space(text: &mut String, space: &str) -> Result<(), AllocError>
    ensures { OnOk result (string_bytes text.new ≡ string_bytes text.old ++ space_text space.now) }
{
    if space != "/" {
        text.push_str(space)?;
        text.push_str(",")?;
    }
    Ok(())
}

/// A text spells at most one header, a header has one plain text, and where some text spells the
/// header the plain one does too. It has no effect.
pub fn header_texts()
    ensures one_plain { (h : Header) (t u : List ℕ) → Plain h t → Plain h u → t ≡ u }
    ensures once { (g h : Header) (t : List ℕ) → Sio g t → Sio h t → g ≡ h }
    ensures written { (h : Header) (t u : List ℕ) → Sio h t → Plain h u → Sio h u }
    ensures whole { (h : Header) (t : List ℕ) → Sio h t → All (λ byte. byte ≢ 30) h.payload }
{}

/// A text has at most one fault, and then it spells no header. It has no effect.
pub fn header_faults()
    ensures once { (e f : SioError) (t : List ℕ) → HasFault t e → HasFault t f → e ≡ f }
    ensures spells_nothing { (e : SioError) (t : List ℕ) → HasFault t e → SpellsNothing t }
{}

/// The answer that the socket is connected, by its session id and its private session id.
pub fn connected_text(alloc: Global, space: &str, sid: u128, pid: u128) -> Result<String, SioError>
    ensures ok { IfOk result (λ text. string_bytes text ≡ answer.connected_text space.now sid pid) }
    ensures err { OnErr result (IsErrOf result SioError.Memory) }
{
    let (sid, pid) = (id_text(sid), id_text(pid));
    let (sid, pid) = (ascii_text(&sid), ascii_text(&pid));
    let mut text = begin(alloc, "0", space)?;
    write!(text, "{{\"sid\":\"{sid}\",\"pid\":\"{pid}\"}}")?;
    Ok(text)
}

/// The answer that the connection is refused, with a message for the client.
pub fn refused_text(alloc: Global, space: &str, message: &str) -> Result<String, SioError>
    ensures ok { IfOk result (λ t. string_bytes t ≡ answer.refused_text space.now message.now) }
    ensures err { OnErr result (IsErrOf result SioError.Memory) }
{
    let mut text = begin(alloc, "4", space)?;
    let message = Value::try_from_str(alloc, message)?.to_string(alloc)?;
    write!(text, "{{\"message\":{message}}}")?;
    Ok(text)
}

/// The DISCONNECT packet for a namespace.
pub fn disconnect_text(alloc: Global, space: &str) -> Result<String, SioError>
    ensures ok { IfOk result (λ text. string_bytes text ≡ disconnect.disconnect_text space.now) }
    ensures err { OnErr result (IsErrOf result SioError.Memory) }
{
    Ok(begin(alloc, "1", space)?)
}

/// The digit of a packet's type, and the namespace.
fn begin(alloc: Global, kind: &str, space: &str) -> Result<String, AllocError>
    ensures { IfOk result (λ text. string_bytes text ≡ kind.now ++ space_text space.now) }
{
    let mut text = String::from_str(alloc, kind)?;
    push_space(&mut text, space)?;
    Ok(text)
}

/// The payload with the offset as its last element: before its last `]` come `,"`, the offset's
/// digits and `"`, and nothing follows the `]`. `BadShape` where the payload has no `]`.
pub fn with_offset(alloc: Global, payload: &str, offset: u64) -> Result<String, SioError>
    ensures ok { IfOk result (λ text. string_bytes text ≡ payload_with_offset payload.now offset) }
    ensures bad_shape { IsErrOf result SioError.BadShape
        ↔ (list_any is_bracket payload.now ≡ false) }
    ensures err { IfErr result (λ e. (e ≡ SioError.Memory) ⊎ (e ≡ SioError.BadShape)) }
{
    let kept = before_bracket(payload).ok_or(SioError::BadShape)?;
    let mut text = String::from_str(alloc, kept)?;
    push_offset(&mut text, offset)?;
    Ok(text)
}

/// The payload in front of its last `]`, or `None` where it has no `]`.
fn before_bracket(payload: &str) -> Option<&str>
    ensures front { IfSome result (λ front. front.now ≡ before_last is_bracket payload.now) }
    ensures none { IsNone result ↔ (list_any is_bracket payload.now ≡ false) }
{
    let last = payload.rfind(']')?;
    Some(&payload[..last])
}

/// Appends the offset as an array's last element, and the array's end.
fn push_offset(text: &mut String, offset: u64) -> Result<(), AllocError>
    ensures { OnOk result (string_bytes text.new ≡ string_bytes text.old ++ offset_text offset) }
{
    let mut digits = [0u8; 16];
    write_digits(u128::from(offset), &mut digits);
    text.push_str(",\"")?;
    text.push_str(ascii_text(&digits))?;
    text.push_str("\"]")
}

/// The offset that has these digits.
pub fn read_offset(text: &str) -> Option<u64>
    ensures digits { IfSome result (λ offset. text.now ≡ offset_digits offset) }
    ensures again { (n : ℕ) → n < 2 ^ 64 → text.now ≡ offset_digits n → result ≡ Some n }
{
    if text.len() != 16 {
        return None;
    }
    let number = read_digits(text.as_bytes())?;
    Some(number as u64)
}
