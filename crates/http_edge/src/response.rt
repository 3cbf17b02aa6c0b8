//! An answer, written to a wire (RFC 9112, sections 4 to 6).

ghost use Rattle.std.specs.Prelude.{◌≡◌, ◌⊎◌, ◌++◌, true, codes, OnOk, OnErr, IfErr, option_map};
ghost use Rattle.std.specs.Fmt.{decimal};
ghost use Rattle.std.specs.String.{string_bytes};
ghost use Rattle.std.specs.Io.KnownBytes.{Appends};
ghost use Rattle.http_edge.specs.Answer as http;
ghost use Rattle.http_edge.specs.Written.{AppendsFront};
ghost use Rattle.http_edge.specs.declared.error.EdgeError.TheVariants.{Memory, Device};

use crate::error::EdgeError;
use crate::wire::{Broken, Wire};
use std::alloc::{AllocError, Global};
use std::fmt::Write;

/// The status of an answer (RFC 9110, section 15).
#[derive(Clone, Copy, Debug, PartialEq, Eq)]
pub enum Status {
    /// 200.
    Success,
    /// 204, without a body: what a page of another origin may ask.
    NoContent,
    /// 400. Its body is JSON.
    BadRequest,
    /// 404.
    NotFound,
    /// 413.
    TooLarge,
    /// 503.
    Unavailable,
}

impl Status {
    /// The status as a number, and its reason phrase.
    pub fn line(self) -> (u16, &'static str)
        ensures code { result.0 ≡ http.code_of self }
        ensures reason { result.1.now ≡ http.reason self }
    {
        match self {
            Status::Success => (200, "OK"),
            Status::NoContent => (204, "No Content"),
            Status::BadRequest => (400, "Bad Request"),
            Status::NotFound => (404, "Not Found"),
            Status::TooLarge => (413, "Payload Too Large"),
            Status::Unavailable => (503, "Service Unavailable"),
        }
    }

    fn media_type(self) -> &'static str
        ensures { result.now ≡ http.media_type self }
    {
        match self {
            Status::BadRequest => "application/json",
            _ => "text/plain; charset=UTF-8",
        }
    }
}

/// Writes the whole answer, which pages of this origin may read, if one is named.
pub fn write_response<W: Wire>(
    alloc: Global,
    wire: &mut W,
    status: Status,
    origin: &Option<String>,
    body: &str,
) -> Result<(), EdgeError>
    ensures whole { OnOk result (Appends (W.written wire.old) (W.written wire.new)
        (http.answer status (option_map string_bytes origin.now) body.now)) }
    ensures kinds { IfErr result (λ e. (e ≡ Memory) ⊎ (e ≡ Device)) }

    // Where memory was refused, nothing was asked of the wire.
    ensures unwritten { IfErr result (λ e. e ≡ Memory → wire.new ≡ wire.old) }

    // Where the wire broke, a first part of the answer was written.
    ensures front { IfErr result (λ e. e ≡ Device
        → AppendsFront (W.written wire.old) (W.written wire.new)
        (http.answer status (option_map string_bytes origin.now) body.now)) }
    ensures broken { IfErr result (λ e. e ≡ Device → W.is_broken wire.new ≡ true) }
{
    let mut text = String::new(alloc);
    let (code, reason) = status.line();
    push_status_line(&mut text, code, reason)?;
    push_content(&mut text, status, body.len())?;
    push_origin(&mut text, origin)?;
    push_field(&mut text, "Connection", "close")?;
    text.push_str("\r\n")?;
    text.push_str(body)?;
    write_all(wire, text.as_str().as_bytes()).map_err(|_| EdgeError::Device)
}

fn push_status_line(text: &mut String, code: u16, reason: &str) -> Result<(), AllocError>
    ensures { OnOk result
        (string_bytes text.new ≡ string_bytes text.old ++ http.status_line code reason.now) }
{
    write!(text, "HTTP/1.1 {code} {reason}\r\n")
}

/// Adds what the body is, or to an answer without one what a page may ask.
fn push_content(text: &mut String, status: Status, length: usize) -> Result<(), AllocError>
    ensures { OnOk result
        (string_bytes text.new ≡ string_bytes text.old ++ http.content status length) }
{
    if status == Status::NoContent {
        push_field(text, "Access-Control-Allow-Methods", "GET, POST")?;
        push_field(text, "Access-Control-Allow-Headers", "Content-Type")?;
        push_field(text, "Access-Control-Max-Age", "7200")?;
    } else {
        push_field(text, "Content-Type", status.media_type())?;
        push_length(text, length)?;
    }
    Ok(())
}

/// Adds a field.
pub fn push_field(text: &mut String, name: &str, value: &str) -> Result<(), AllocError>
    ensures { OnOk result
        (string_bytes text.new ≡ string_bytes text.old ++ http.field name.now value.now) }
{
    text.push_str(name)?;
    text.push_str(": ")?;
    text.push_str(value)?;
    text.push_str("\r\n")
}

/// Adds how many bytes the body has.
pub fn push_length(text: &mut String, length: usize) -> Result<(), AllocError>
    ensures { OnOk result (string_bytes text.new
        ≡ string_bytes text.old ++ http.field (codes "Content-Length") (decimal length)) }
{
    write!(text, "Content-Length: {length}\r\n")
}

/// Adds whose pages may read the answer, if an origin is named.
pub fn push_origin(text: &mut String, origin: &Option<String>) -> Result<(), AllocError>
    ensures { OnOk result (string_bytes text.new
        ≡ string_bytes text.old ++ http.granted (option_map string_bytes origin.now)) }
{
    let Some(origin) = origin else {
        return Ok(());
    };
    push_field(text, "Access-Control-Allow-Origin", origin.as_str())?;
    push_field(text, "Vary", "Origin")?;
    Ok(())
}

// Writes all of the bytes, by as many writes as it takes.
fn write_all<W: Wire>(wire: &mut W, bytes: &[u8]) -> Result<(), Broken>
    ensures whole { OnOk result (Appends (W.written wire.old) (W.written wire.new) bytes.now) }
    ensures front { OnErr result
        (AppendsFront (W.written wire.old) (W.written wire.new) bytes.now) }
    ensures broken { OnErr result (W.is_broken wire.new ≡ true) }
{
    let mut start = 0;
    while start < bytes.len() {
        start += wire.write(&bytes[start..])?;
    }
    Ok(())
}
