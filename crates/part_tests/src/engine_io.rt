//! Packets of Engine.IO, ids, and the digits of numbers.

use crate::play::{Part, play};
use eio_wire::{
    Numbers, Packet, WireError, open_text, read_packet, read_payload, write_packet, write_payload,
};
use std::alloc::Global;
use terms::{Text, id_text, read_id, write_digits};

/// A packet's type and what it holds.
type Held = (char, &'static [u8]);

/// What is read, or written.
pub enum Row {
    /// A text is read as this packet, which is written as the same text.
    Packet(&'static str, Held),
    /// A payload of these packets, likewise.
    Payload(&'static str, &'static [Held]),
    /// Messages of these texts are written.
    Messages(&'static [&'static str]),
    /// The open packet of the client 1, which polls or not.
    Open(bool, &'static str),
}

type Rows = &'static [(Row, Result<bool, WireError>)];

const YES: Result<bool, WireError> = Ok(true);

/// The reader and the writer.
#[derive(Drop)]
struct Wire;

impl Part for Wire {
    type Row = Row;

    type Fault = WireError;

    const MEMORY: WireError = WireError::Memory;

    fn act(&mut self, alloc: Global, row: &Row) -> Result<bool, WireError> {
        match row {
            Row::Packet(text, want) => is_packet(alloc, text, *want),
            Row::Payload(text, want) => is_payload(alloc, text, want),
            Row::Messages(texts) => are_written(alloc, texts),
            Row::Open(polling, want) => {
                Ok(open_text(alloc, 1, *polling, &NUMBERS)?.as_str() == *want)
            }
        }
    }
}

/// Whether a text is read as this packet, which is written as the same text.
fn is_packet(alloc: Global, text: &str, want: Held) -> Result<bool, WireError> {
    let packet = read_packet(alloc, text)?;
    Ok(holds(&packet, want) && write_packet(alloc, &packet)?.as_str() == text)
}

/// Whether a payload is read as these packets, which are written as the same payload.
fn is_payload(alloc: Global, text: &str, want: &[Held]) -> Result<bool, WireError> {
    let packets = read_payload(alloc, text)?;
    let are_held = packets.len() == want.len()
        && packets
            .iter()
            .zip(want)
            .all(|(packet, held)| holds(packet, *held));
    Ok(are_held && write_payload(alloc, packets.as_slice())?.as_str() == text)
}

/// Whether messages of these texts are written as nothing.
fn are_written(alloc: Global, texts: &[&str]) -> Result<bool, WireError> {
    let messages = messages(alloc, texts)?;
    Ok(write_payload(alloc, messages.as_slice())?.is_empty())
}

const NUMBERS: Numbers = Numbers {
    ping_interval: 25_000,
    ping_timeout: 20_000,
    max_payload: 1_000_000,
};

/// Whether the packet is of this type and holds this.
fn holds(packet: &Packet, want: Held) -> bool {
    let (kind, text) = match packet {
        Packet::Open(text) => ('0', text),
        Packet::Close(text) => ('1', text),
        Packet::Ping(text) => ('2', text),
        Packet::Pong(text) => ('3', text),
        Packet::Message(text) => ('4', text),
        Packet::Upgrade(text) => ('5', text),
        Packet::Noop(text) => ('6', text),
        Packet::Binary(bytes) => return want == ('b', bytes.as_slice()),
    };
    want == (kind, text.as_str().as_bytes())
}

fn messages(alloc: Global, texts: &[&str]) -> Result<Vec<Packet>, WireError> {
    let mut packets = Vec::new(alloc);
    for text in texts {
        packets.push(Packet::Message(Text::copy_of(alloc, text)?))?;
    }
    Ok(packets)
}

#[test]
fn packets(rt: HostRuntime) {
    static PACKETS: Rows = &[
        (Row::Packet("0{}", ('0', b"{}")), YES),
        (Row::Packet("1", ('1', b"")), YES),
        (Row::Packet("2", ('2', b"")), YES),
        (Row::Packet("3probe", ('3', b"probe")), YES),
        (Row::Packet("4", ('4', b"")), YES),
        (Row::Packet("5", ('5', b"")), YES),
        (Row::Packet("6", ('6', b"")), YES),
        // RFC 4648's vectors, and the last two symbols of its alphabet.
        (Row::Packet("b", ('b', b"")), YES),
        (Row::Packet("bAQI=", ('b', b"\x01\x02")), YES),
        (Row::Packet("bZm9vYmFy", ('b', b"foobar")), YES),
        (Row::Packet("b+//+", ('b', b"\xfb\xff\xfe")), YES),
        (
            Row::Payload(
                "4hello\u{1e}2\u{1e}4world\u{1e}bAQIDBA==",
                &[
                    ('4', b"hello"),
                    ('2', b""),
                    ('4', b"world"),
                    ('b', b"\x01\x02\x03\x04"),
                ],
            ),
            YES,
        ),
        (Row::Payload("", &[]), Err(WireError::Empty)),
        (Row::Payload("4a\u{1e}", &[]), Err(WireError::Empty)),
        (Row::Payload("9x", &[]), Err(WireError::BadType)),
        (Row::Payload("\u{e9}", &[]), Err(WireError::BadType)),
        (
            Row::Payload("2\u{1e}B\u{1e}\u{1e}b-", &[]),
            Err(WireError::BadType),
        ),
        (Row::Payload("bAQI", &[]), Err(WireError::BadBase64)),
        (Row::Payload("bAQ", &[]), Err(WireError::BadBase64)),
        (Row::Messages(&[]), Err(WireError::Empty)),
        (Row::Messages(&["a\u{1e}"]), Err(WireError::Separator)),
        (
            Row::Open(
                true,
                "0{\"sid\":\"00000000000000000000000000000001\",\"upgrades\":[\"websocket\"],\"pingInterval\":25000,\"pingTimeout\":20000,\"maxPayload\":1000000}",
            ),
            YES,
        ),
        (
            Row::Open(
                false,
                "0{\"sid\":\"00000000000000000000000000000001\",\"upgrades\":[],\"pingInterval\":25000,\"pingTimeout\":20000,\"maxPayload\":1000000}",
            ),
            YES,
        ),
    ];
    play(&rt, &mut Wire, PACKETS);
}

#[test]
fn ids(rt: HostRuntime) {
    static IDS: [(&str, Option<u128>); 8] = [
        (
            "0123456789abcdef00000000000000ff",
            Some(0x0123_4567_89ab_cdef_0000_0000_0000_00ff),
        ),
        ("ffffffffffffffffffffffffffffffff", Some(u128::MAX)),
        ("0123456789abcdef0000000000000ff", None),
        ("0123456789abcdef000000000000000ff", None),
        ("0123456789ABCDEF00000000000000FF", None),
        ("0123456789abcdeg00000000000000ff", None),
        ("+123456789abcdef00000000000000ff", None),
        ("", None),
    ];
    for (text, want) in IDS.iter() {
        assert!(rt; read_id(text) == *want, "of {text}");
        if let Some(id) = want {
            assert!(rt; id_text(*id).as_slice() == text.as_bytes(), "of {text}");
        }
    }
}

// The last four digits of a number.
#[test]
fn digits_of_numbers(rt: HostRuntime) {
    static CASES: [(u128, &[u8]); 5] = [
        (0, b"0000"),
        (1, b"0001"),
        (10, b"000a"),
        (0xbeef, b"beef"),
        (0x1_2345, b"2345"),
    ];
    for (number, want) in CASES.iter() {
        let mut text = [0u8; 4];
        write_digits(*number, &mut text);
        assert!(rt; text.as_slice() == *want, "of {number}");
    }
}
