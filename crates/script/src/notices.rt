//! Which event a line of a script stands for.

ghost use Rattle.std.specs.Prelude.{◌≡◌, ◌≢◌, ◌↔◌, ℕ, List, IsTrue, IfOk, IfSome, IfNone};
ghost use Rattle.terms.specs.Bytes.{IsBytes};
ghost use Rattle.hex.specs.Hex.{encode_lower};
ghost use Rattle.hex.specs.declared.error.FromHexError.TheVariants.{OutOfMemory};
ghost use Rattle.script.specs.Events.{notice_of, take_of, IsEventOf};

use crate::script_line::{Notice, ScriptLine};
use connection::Transport;
use events::{Event, WsFrame};
use hex::FromHexError;
use std::alloc::{AllocError, Global};
use terms::{Bytes, Text};

/// What happens where a line speaks of this client, which speaks so. Nothing does where the line is
/// of no client, or its digits spell no bytes.
pub(crate) fn event_of(
    alloc: Global,
    line: ScriptLine<'_>,
    client: u128,
    transport: Option<Transport>,
) -> Result<Option<Event>, AllocError>
    ensures { IfOk result (λ event. IsEventOf line.entry client transport event) }
{
    match line {
        ScriptLine::Text(_, rest) => {
            let body = Text::copy_of(alloc, rest)?;
            Ok(Some(Event::Post { client, body }))
        }
        ScriptLine::Frame(_, rest) => {
            let frame = WsFrame::Text(Text::copy_of(alloc, rest)?);
            Ok(Some(Event::Frame { client, frame }))
        }
        ScriptLine::Bytes(_, hex) => {
            let frame = bytes_of(alloc, hex)?.map(WsFrame::Bytes);
            Ok(frame.map(|frame| Event::Frame { client, frame }))
        }
        ScriptLine::Notice(notice, _) => Ok(Some(notice_of(notice, client))),
        ScriptLine::Take(_, most) => Ok(Some(take_of(transport, client, most))),
        _ => Ok(None),
    }
}

/// What happens to the client where a line says this of it.
fn notice_of(notice: Notice, client: u128) -> Event
    ensures { result ≡ notice_of notice client }
{
    match notice {
        Notice::Get => Event::PollBegin { client },
        Notice::Unget => Event::PollEnd { client },
        Notice::Probe => Event::Probe { client },
        Notice::Upgrade => Event::Upgraded { client },
        Notice::Unprobe => Event::ProbeLost { client },
        Notice::Lost => Event::TransportLost { client },
        Notice::Tick => Event::Tick { client },
    }
}

/// How what waits for a client that speaks so is taken.
fn take_of(transport: Option<Transport>, client: u128, most: usize) -> Event
    ensures { result ≡ take_of transport client most }
{
    match transport {
        Some(Transport::Socket) => Event::FrameTake { client, most },
        _ => Event::PollTake { client, most },
    }
}

/// The bytes that the text has as pairs of lower-case hexadecimal digits.
fn bytes_of(alloc: Global, text: &str) -> Result<Option<Bytes>, AllocError>
    ensures some { IfOk result (λ read. IfSome read (λ bytes. text.now ≡ encode_lower bytes)) }
    ensures bytes { IfOk result (λ read. IfSome read (λ bytes. IsBytes bytes)) }
    ensures none { IfOk result (λ read. IfNone read ((bytes : List ℕ) → IsBytes bytes
        → text.now ≢ encode_lower bytes)) }
{
    let bytes = match hex::decode(alloc, text) {
        Ok(bytes) => bytes,
        Err(fault) if is_memory(fault) => return Err(AllocError),
        Err(_) => return Ok(None),
    };
    // Digits of either case were read.
    if hex::encode(alloc, bytes.as_slice())?.as_str() == text {
        Ok(Some(Bytes::from_vec(bytes)))
    } else {
        Ok(None)
    }
}

/// Whether there was no memory for the bytes.
fn is_memory(fault: FromHexError) -> bool
    ensures { IsTrue result ↔ (fault ≡ OutOfMemory) }
{
    matches!(fault, FromHexError::OutOfMemory)
}
