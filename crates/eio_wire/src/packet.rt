//! Packets and their texts, alone and several in one (Engine.IO protocol 4, "Packet encoding" and
//! "Payload encoding").

ghost use Rattle.std.specs.Prelude.{List, ℕ, ◌≡◌, ◌≢◌, ◌⊎◌, ◌∷◌, ◌++◌, ◌≤◌, ◌<◌, IfOk, IfErr, OnOk, length, slice_index, string_bytes, All, IsTrue, false};
ghost use Rattle.terms.specs.Bytes.{IsBytes};
ghost use Rattle.eio_wire.specs.declared.packet.Packet.{Packet};
ghost use Rattle.eio_wire.specs.Base64.{base64_text};
ghost use Rattle.eio_wire.specs.Packet.{Eio, IsNoPacket, fault_of, IsTextFault};
ghost use Rattle.eio_wire.specs.declared.error.WireError.{WireError};
ghost use Rattle.eio_wire.specs.Payload.{Payload, HasFault, HasSeparator, HasWholeData, IsRefused, IsWhole};

use crate::error::WireError;
use base64::DecodeAllocError;
use base64::engine::general_purpose::STANDARD;
use std::alloc::{AllocError, Global};
use terms::{Bytes, Text};

/// A packet. Each type but `Binary` holds the data that follows the type's digit; after 1, 5 and
/// 6, where the protocol gives data no meaning, it is kept too.
#[derive(Clone, Debug, Drop)]
pub enum Packet {
    /// 0: the server opens a session.
    Open(Text),
    /// 1: the session is to be closed.
    Close(Text),
    /// 2: the server asks whether the client is there.
    Ping(Text),
    /// 3: the answer to a ping.
    Pong(Text),
    /// 4: a message that is a text.
    Message(Text),
    /// `b`: a message of bytes.
    Binary(Bytes),
    /// 5: the client has upgraded its transport.
    Upgrade(Text),
    /// 6: nothing, to end a waiting request.
    Noop(Text),
}

/// Reads the packet that has this text. Beside Memory the error is Empty, BadType or BadBase64.
pub fn read_packet(alloc: Global, text: &str) -> Result<Packet, WireError>
    ensures ok { IfOk result (λ packet. Eio packet text.now) }
    ensures err { IfErr result (λ error. (error ≡ WireError.Memory)
        ⊎ (IsNoPacket text.now × (error ≡ fault_of text.now))) }
    ensures never { IfErr result (λ error. error ≢ WireError.Separator) }
{
    let (kind, rest) = split_type(text)?;
    match kind {
        b'0' => Ok(Packet::Open(Text::copy_of(alloc, rest)?)),
        b'1' => Ok(Packet::Close(Text::copy_of(alloc, rest)?)),
        b'2' => Ok(Packet::Ping(Text::copy_of(alloc, rest)?)),
        b'3' => Ok(Packet::Pong(Text::copy_of(alloc, rest)?)),
        b'4' => Ok(Packet::Message(Text::copy_of(alloc, rest)?)),
        b'5' => Ok(Packet::Upgrade(Text::copy_of(alloc, rest)?)),
        b'6' => Ok(Packet::Noop(Text::copy_of(alloc, rest)?)),
        b'b' => Ok(Packet::Binary(read_base64(alloc, rest)?)),
        _ => Err(WireError::BadType),
    }
}

/// The first byte and the text after it, where the text begins with an ASCII character; else what
/// is wrong with the text.
fn split_type(text: &str) -> Result<(u8, &str), WireError>
    ensures found { IfOk result (λ parts. text.now ≡ parts.0 ∷ parts.1.now) }
    ensures none { IfErr result (λ error. ((length text.now ≡ 0) ⊎ (128 ≤ slice_index text.now 0))
        × (error ≡ fault_of text.now)) }
{
    if text.is_empty() {
        return Err(WireError::Empty);
    }
    let kind = text.as_bytes()[0];
    if kind >= 128 {
        return Err(WireError::BadType);
    }
    Ok((kind, &text[1..]))
}

/// The bytes that have this base64 text.
fn read_base64(alloc: Global, text: &str) -> Result<Bytes, WireError>
    ensures ok { IfOk result (λ bytes. IsBytes bytes × (text.now ≡ base64_text bytes)) }
    ensures err { IfErr result (λ error. (error ≡ WireError.Memory)
        ⊎ ((error ≡ WireError.BadBase64)
        × ((bytes : List ℕ) → IsBytes bytes → ¬ (text.now ≡ base64_text bytes)))) }
{
    match STANDARD.decode(alloc, text.as_bytes()) {
        Ok(bytes) => Ok(Bytes::from_vec(bytes)),
        Err(DecodeAllocError::DecodeError(_)) => Err(WireError::BadBase64),
        Err(DecodeAllocError::OutOfMemory) => Err(WireError::Memory),
    }
}

/// The packet's text. The one error is Memory.
pub fn write_packet(alloc: Global, packet: &Packet) -> Result<String, WireError>
    ensures ok { IfOk result (λ text. Eio packet.now (string_bytes text)) }
    ensures err { IfErr result (λ error. error ≡ WireError.Memory) }
{
    let mut text = String::new(alloc);
    push_packet(&mut text, packet)?;
    Ok(text)
}

/// Adds the packet's text at the end.
fn push_packet(text: &mut String, packet: &Packet) -> Result<(), AllocError>
    ensures ok { OnOk result ((more : List ℕ) × Eio packet.now more
        × (string_bytes text.new ≡ string_bytes text.old ++ more)) }
{
    match packet {
        Packet::Open(rest) => push_typed(text, "0", rest),
        Packet::Close(rest) => push_typed(text, "1", rest),
        Packet::Ping(rest) => push_typed(text, "2", rest),
        Packet::Pong(rest) => push_typed(text, "3", rest),
        Packet::Message(rest) => push_typed(text, "4", rest),
        Packet::Upgrade(rest) => push_typed(text, "5", rest),
        Packet::Noop(rest) => push_typed(text, "6", rest),
        Packet::Binary(bytes) => push_binary(text, bytes),
    }
}

/// Adds a type and what follows it.
fn push_typed(text: &mut String, kind: &str, rest: &Text) -> Result<(), AllocError>
    ensures { OnOk result
        (string_bytes text.new ≡ string_bytes text.old ++ (kind.now ++ rest.now)) }
{
    text.push_str(kind)?;
    text.push_str(rest.as_str())
}

/// Adds a `b` and the base64 text of the bytes.
#[tactic(auto, unfolding(crate::specs::Base64::base64_text))]
fn push_binary(text: &mut String, bytes: &Bytes) -> Result<(), AllocError>
    ensures { OnOk result (IsBytes bytes.now
        × (string_bytes text.new ≡ string_bytes text.old ++ 98 ∷ base64_text bytes.now)) }
{
    text.push_str("b")?;
    STANDARD.encode_string(bytes.as_slice(), text)
}

/// A text is that of at most one packet. It has no effect.
pub fn one_packet()
    ensures { (p q : Packet) (text : List ℕ) → Eio p text → Eio q text → p ≡ q }
{}

/// A packet has at most one text. It has no effect.
pub fn one_text()
    ensures { (packet : Packet) (t u : List ℕ) → Eio packet t → Eio packet u → t ≡ u }
{}

/// What stands between two packets: U+001E, the record separator.
const SEPARATOR: char = '\u{1e}';

/// Reads the packets of a payload. Beside Memory the error is the fault of the first piece from
/// the left that is no packet: Empty, BadType or BadBase64.
pub fn read_payload(alloc: Global, text: &str) -> Result<Vec<Packet>, WireError>
    ensures ok { IfOk result (λ packets. Payload packets.items text.now) }
    ensures err { IfErr result (λ error. (error ≡ WireError.Memory) ⊎ HasFault text.now error) }
    ensures never { IfErr result (λ error. error ≢ WireError.Separator) }
{
    let mut packets = Vec::new(alloc);
    for piece in text.split(SEPARATOR) {
        packets.push(read_packet(alloc, piece)?)?;
    }
    Ok(packets)
}

/// The payload of the packets. Beside Memory the error is Empty for no packet, or Separator where
/// the text of a packet holds U+001E.
pub fn write_payload(alloc: Global, packets: &[Packet]) -> Result<String, WireError>
    ensures ok { IfOk result (λ text. Payload packets.now (string_bytes text)) }
    ensures err { IfErr result (λ error. (error ≡ WireError.Memory) ⊎ IsRefused packets.now error) }
{
    let Some((first, rest)) = packets.split_first() else {
        return Err(WireError::Empty);
    };
    let mut text = String::new(alloc);
    push_whole(&mut text, first)?;
    for packet in rest {
        text.push(SEPARATOR)?;
        push_whole(&mut text, packet)?;
    }
    Ok(text)
}

/// Adds the packet's text at the end, unless it holds a separator.
fn push_whole(text: &mut String, packet: &Packet) -> Result<(), WireError>
    ensures ok { OnOk result ((more : List ℕ) × Eio packet.now more × IsWhole more
        × (string_bytes text.new ≡ string_bytes text.old ++ more)) }
    ensures err { IfErr result (λ error. (error ≡ WireError.Memory)
        ⊎ (HasSeparator packet.now × (error ≡ WireError.Separator))) }
{
    if has_separator(packet) {
        return Err(WireError::Separator);
    }
    push_packet(text, packet)?;
    Ok(())
}

/// Whether the packet's text holds a separator.
fn has_separator(packet: &Packet) -> bool
    ensures holds { IsTrue result → HasSeparator packet.now }
    ensures whole { result ≡ false → (text : List ℕ) → Eio packet.now text → IsWhole text }
{
    match packet {
        Packet::Binary(_) => false,
        Packet::Open(rest)
        | Packet::Close(rest)
        | Packet::Ping(rest)
        | Packet::Pong(rest)
        | Packet::Message(rest)
        | Packet::Upgrade(rest)
        | Packet::Noop(rest) => rest.as_str().as_bytes().contains(&0x1e),
    }
}

/// Packets have at most one payload, and a text is the payload of at most one list of packets. It
/// has no effect.
pub fn one_payload()
    ensures packets { (ps qs : List Packet) (t : List ℕ) → Payload ps t → Payload qs t → ps ≡ qs }
    ensures text { (ps : List Packet) (t u : List ℕ) → Payload ps t → Payload ps u → t ≡ u }
{}

/// A text has at most one fault, and none where it is a payload. It has no effect.
pub fn one_fault()
    ensures fault { (text : List ℕ) (e f : WireError) → HasFault text e → HasFault text f → e ≡ f }
    ensures payload { (packets : List Packet) (text : List ℕ) (error : WireError)
        → Payload packets text → ¬ HasFault text error }
{}

/// A fault is one of Empty, BadType and BadBase64. It has no effect.
pub fn faults_of_texts()
    ensures packet { (text : List ℕ) → IsTextFault (fault_of text) }
    ensures payload { (text : List ℕ) (e : WireError) → HasFault text e → IsTextFault e }
{}

/// Packets without a separator in their data are not refused. It has no effect.
pub fn whole_data_is_written()
    ensures { (packets : List Packet) (error : WireError) → 0 < length packets
        → All HasWholeData packets → ¬ IsRefused packets error }
{}

/// Packets that are refused have no payload. It has no effect.
pub fn payloads_or_refusals()
    ensures { (packets : List Packet) (text : List ℕ) (error : WireError)
        → Payload packets text → ¬ IsRefused packets error }
{}
