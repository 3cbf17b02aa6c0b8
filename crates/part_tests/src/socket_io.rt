//! Packets of Socket.IO, and the frames that make them.

use crate::play::{Part, play};
use sio_wire::{
    Assembler, Header, Kind, Scratch, SioError, SioPacket, connected_text, disconnect_text, names,
    read_header, read_offset, refused_text, resume_of, with_offset, write_header,
};
use std::alloc::Global;
use terms::{Bytes, Entry, Text};

/// What a text is read as: type, namespace, id, payload and number of attachments.
type Fields = (Kind, &'static str, Option<u64>, &'static str, u32);

/// What is read or written, or comes as a frame.
pub enum Row {
    /// A text is read as these fields, which are written as the plain text.
    Header(&'static str, Fields, &'static str),
    Read(&'static str),
    /// A text is written.
    Told(Told, &'static str),
    /// The texts among the elements of an event.
    Names(&'static str, &'static [Option<&'static str>]),
    /// The texts of an event that are known once it is read, or that none are.
    Known(&'static str, Option<&'static [Option<&'static str>]>),
    /// The private id and the offset that a CONNECT names.
    Resume(&'static str, Option<(&'static str, &'static str)>),
    /// No packet is whole with this text.
    Text(&'static str),
    /// With this attachment a packet of this payload is.
    Bytes(&'static [u8], &'static str),
    /// So many attachments are awaited.
    Waiting(u32),
}

/// What a client is told: a payload with its offset, that a socket is connected, or refused, or has
/// ended.
pub enum Told {
    WithOffset(&'static str, u64),
    Connected(&'static str, u128, u128),
    Refused(&'static str, &'static str),
    Ended(&'static str),
}

type Rows = &'static [(Row, Result<bool, SioError>)];

const YES: Result<bool, SioError> = Ok(true);

impl Part for Assembler {
    type Row = Row;

    type Fault = SioError;

    const MEMORY: SioError = SioError::Memory;

    fn act(&mut self, alloc: Global, row: &Row) -> Result<bool, SioError> {
        match row {
            Row::Text(text) => is_part(self, alloc, text),
            Row::Bytes(bytes, payload) => is_whole(self, alloc, bytes, payload),
            Row::Waiting(many) => Ok(self.waiting() == *many),
            Row::Header(text, ..) | Row::Read(text) | Row::Known(text, _) => {
                is_read(alloc, text, row)
            }
            Row::Names(payload, want) => are_names(alloc, payload, want),
            Row::Resume(payload, want) => resumes(alloc, payload, *want),
            Row::Told(told, want) => is_told(alloc, told, want),
        }
    }
}

/// Whether no packet is whole with this text.
fn is_part(assembler: &mut Assembler, alloc: Global, text: &str) -> Result<bool, SioError> {
    let packet = assembler.text(alloc, &mut Scratch::new(alloc), text)?;
    Ok(packet.is_none())
}

/// Whether a packet of this payload is whole with this attachment.
fn is_whole(
    assembler: &mut Assembler,
    alloc: Global,
    bytes: &[u8],
    payload: &str,
) -> Result<bool, SioError> {
    match assembler.binary(alloc, bytes)? {
        Some(packet) => is_packet(packet, bytes, payload),
        None => Ok(false),
    }
}

/// Whether a text is read as the row says.
fn is_read(alloc: Global, text: &str, row: &Row) -> Result<bool, SioError> {
    let header = read_header(alloc, &mut Scratch::new(alloc), text)?;
    is_so(alloc, &header, row)
}

/// Whether what was read is as the row says.
fn is_so(alloc: Global, header: &Header, row: &Row) -> Result<bool, SioError> {
    Ok(match row {
        Row::Header(_, want, plain) => {
            has_fields(header, want) && write_header(alloc, header)?.as_str() == *plain
        }
        Row::Known(_, want) => match (header.payload.known_names(), want) {
            (Some(found), Some(want)) => are_texts(found, want),
            (found, want) => found.is_none() && want.is_none(),
        },
        _ => true,
    })
}

/// Whether these are the texts among the elements of an event.
fn are_names(alloc: Global, payload: &str, want: &[Option<&str>]) -> Result<bool, SioError> {
    let found = names(alloc, payload)?;
    Ok(are_texts(&found, want))
}

/// Whether a CONNECT names this private id and this offset.
fn resumes(alloc: Global, payload: &str, want: Option<(&str, &str)>) -> Result<bool, SioError> {
    let resume = resume_of(alloc, payload)?;
    let named = resume
        .as_ref()
        .map(|resume| (resume.pid.as_str(), resume.offset.as_str()));
    Ok(named == want)
}

/// Whether this text is written.
fn is_told(alloc: Global, told: &Told, want: &str) -> Result<bool, SioError> {
    let text = match told {
        Told::WithOffset(payload, offset) => with_offset(alloc, payload, *offset)?,
        Told::Connected(space, sid, pid) => connected_text(alloc, space, *sid, *pid)?,
        Told::Refused(space, message) => refused_text(alloc, space, message)?,
        Told::Ended(space) => disconnect_text(alloc, space)?,
    };
    Ok(text.as_str() == want)
}

fn is_text(text: &Option<Text>, want: Option<&str>) -> bool {
    match (text, want) {
        (Some(text), Some(want)) => text.as_str() == want,
        (None, None) => true,
        _ => false,
    }
}

fn are_texts(found: &[Option<Text>], want: &[Option<&str>]) -> bool {
    found.len() == want.len()
        && found
            .iter()
            .zip(want)
            .all(|(text, name)| is_text(text, *name))
}

fn has_fields(header: &Header, want: &Fields) -> bool {
    let (kind, space, id, payload, count) = want;
    header.kind == *kind
        && header.space.as_str() == *space
        && header.id == *id
        && header.payload.as_str() == *payload
        && header.count == *count
}

/// Whether this is a binary event of this payload and one attachment, as is a copy of it.
fn is_packet(packet: SioPacket, bytes: &[u8], payload: &str) -> Result<bool, SioError> {
    let SioPacket {
        header,
        attachments,
    } = packet;
    let is_event = header.kind == Kind::BinaryEvent;
    let entry = Entry {
        text: header.payload.into_text(),
        attachments,
    };
    let copy = match entry.clone() {
        Err(_) => entry.clone()?,
        Ok(copy) => copy,
    };
    Ok(is_event && is_entry(&entry, bytes, payload) && is_entry(&copy, bytes, payload))
}

/// Whether the entry has this text and this one attachment.
fn is_entry(entry: &Entry, bytes: &[u8], text: &str) -> bool {
    let attachments = &entry.attachments;
    match attachments.as_slice() {
        [lent] => {
            attachments.len() == 1
                && !attachments.is_empty()
                && lent.as_slice() == bytes
                && entry.text.as_str() == text
        }
        _ => false,
    }
}

#[test]
fn texts_read(rt: HostRuntime) {
    static KINDS: Rows = &[
        (
            Row::Header(
                "0/admin,{}",
                (Kind::Connect, "/admin", None, "{}", 0),
                "0/admin,{}",
            ),
            YES,
        ),
        (
            Row::Header(
                "1/admin",
                (Kind::Disconnect, "/admin", None, "", 0),
                "1/admin,",
            ),
            YES,
        ),
        (
            Row::Header(
                "2/,012[1]",
                (Kind::Event, "/", Some(12), "[1]", 0),
                "212[1]",
            ),
            YES,
        ),
        (
            Row::Header(
                "3/admin,13[]",
                (Kind::Ack, "/admin", Some(13), "[]", 0),
                "3/admin,13[]",
            ),
            YES,
        ),
        (
            Row::Header(
                "4\"no\"",
                (Kind::ConnectError, "/", None, "\"no\"", 0),
                "4\"no\"",
            ),
            YES,
        ),
        (
            Row::Header(
                "532-[1]",
                (Kind::BinaryEvent, "/", None, "[1]", 32),
                "532-[1]",
            ),
            YES,
        ),
        (
            Row::Header(
                "600-0[]",
                (Kind::BinaryAck, "/", Some(0), "[]", 0),
                "60-0[]",
            ),
            YES,
        ),
    ];
    static FAULTS: Rows = &[
        (Row::Read(""), Err(SioError::BadKind)),
        (Row::Read("7[1]"), Err(SioError::BadKind)),
        (Row::Read("51[1]"), Err(SioError::BadCount)),
        (Row::Read("5-[1]"), Err(SioError::BadCount)),
        (Row::Read("51234567890123456-[1]"), Err(SioError::BadCount)),
        (Row::Read("533-[1]"), Err(SioError::TooMany)),
        (Row::Read("2/a\tb,[1]"), Err(SioError::BadShape)),
        (Row::Read("21234567890123456[1]"), Err(SioError::BadId)),
        (Row::Read("2[1]x"), Err(SioError::BadJson)),
        (Row::Read("2[\"\u{1e}\"]"), Err(SioError::BadJson)),
        (Row::Read("0[]"), Err(SioError::BadShape)),
        (Row::Read("1{}"), Err(SioError::BadShape)),
        (Row::Read("2"), Err(SioError::BadShape)),
        (Row::Read("3[]"), Err(SioError::BadShape)),
        (Row::Read("2[\"connect\"]"), Err(SioError::Reserved)),
        (
            Row::Read("51-[1,[{\"_placeholder\":true,\"num\":1}]]"),
            Err(SioError::BadPlaceholder),
        ),
        (
            Row::Read("51-[1,{\"_placeholder\":true,\"num\":0.5}]"),
            Err(SioError::BadPlaceholder),
        ),
        // Nested too deep.
        (
            Row::Read(
                "2[[[[[[[[[[[[[[[[[[[[[[[[[[[[[[[[[[[[[[[[[[[[[[[[[[[[[[[[[[[[[[[[[[[[[[[[[[[[[[[[[[[[[[[[[[[[[[[[[[[[[[[[[[[[[[[[[[[[[[[[[[[[[[[[]]]]]]]]]]]]]]]]]]]]]]]]]]]]]]]]]]]]]]]]]]]]]]]]]]]]]]]]]]]]]]]]]]]]]]]]]]]]]]]]]]]]]]]]]]]]]]]]]]]]]]]]]]]]]]]]]]]]]]]]]]]]]]]]",
            ),
            Err(SioError::BadJson),
        ),
    ];
    for rows in [KINDS, FAULTS] {
        play(&rt, &mut Assembler::new(), rows);
    }
}

#[test]
fn texts_told(rt: HostRuntime) {
    static ROWS: Rows = &[
        (
            Row::Told(
                Told::WithOffset("[\"say\",[1]]", u64::MAX),
                "[\"say\",[1],\"ffffffffffffffff\"]",
            ),
            YES,
        ),
        (
            Row::Told(Told::WithOffset("[", 1), ""),
            Err(SioError::BadShape),
        ),
        (
            Row::Told(
                Told::Connected("/admin", 2, 3),
                "0/admin,{\"sid\":\"00000000000000000000000000000002\",\"pid\":\"00000000000000000000000000000003\"}",
            ),
            YES,
        ),
        (
            Row::Told(
                Told::Refused("/", "\"no\""),
                "4{\"message\":\"\\\"no\\\"\"}",
            ),
            YES,
        ),
        (Row::Told(Told::Ended("/"), "1"), YES),
        (Row::Told(Told::Ended("/admin"), "1/admin,"), YES),
        (Row::Names("[\"say\",1]", &[Some("say"), None]), YES),
        (
            Row::Known("2[\"say\",\"r\"]", Some(&[Some("say"), Some("r")])),
            YES,
        ),
        (Row::Known("2[\"say\",1]", None), YES),
        (Row::Known("31[\"say\"]", None), YES),
        (Row::Names("{", &[]), Err(SioError::BadJson)),
        (Row::Names("{}", &[]), Err(SioError::BadShape)),
        (
            Row::Resume("{\"pid\":\"a\",\"offset\":\"b\"}", Some(("a", "b"))),
            YES,
        ),
        (Row::Resume("", None), YES),
        (Row::Resume("{\"pid\":\"a\"}", None), YES),
        (Row::Resume("{\"pid\":\"a\",\"offset\":1}", None), YES),
        (Row::Resume("{", None), Err(SioError::BadJson)),
    ];
    play(&rt, &mut Assembler::new(), ROWS);
}

#[test]
fn offsets_read(rt: HostRuntime) {
    static CASES: [(&str, Option<u64>); 6] = [
        ("0000000000000001", Some(1)),
        ("ffffffffffffffff", Some(u64::MAX)),
        ("1", None),
        ("", None),
        ("00000000000000001", None),
        ("000000000000000A", None),
    ];
    for (text, want) in CASES.iter() {
        assert!(rt; read_offset(text) == *want, "at {text}");
    }
}

#[test]
fn frames(rt: HostRuntime) {
    static WITH_ATTACHMENT: Rows = &[
        (
            Row::Text("51-[\"say\",\"r\",{\"_placeholder\":true,\"num\":0}]"),
            YES,
        ),
        (Row::Waiting(1), YES),
        (
            Row::Bytes(
                &[1, 2, 3, 4],
                "[\"say\",\"r\",{\"_placeholder\":true,\"num\":0}]",
            ),
            YES,
        ),
        (Row::Bytes(&[1], ""), Err(SioError::BinaryUnawaited)),
        (Row::Text("2[\"x\"]"), Err(SioError::BinaryUnawaited)),
        (Row::Waiting(0), YES),
    ];
    static TEXT_BEFORE_ITS_TIME: Rows = &[
        (Row::Text("51-[1]"), YES),
        (Row::Waiting(1), YES),
        (Row::Text("2[1]"), Err(SioError::TextAwaitingBinary)),
        (Row::Bytes(&[], ""), Err(SioError::TextAwaitingBinary)),
        (Row::Waiting(0), YES),
    ];
    for rows in [WITH_ATTACHMENT, TEXT_BEFORE_ITS_TIME] {
        play(&rt, &mut Assembler::new(), rows);
    }
}
