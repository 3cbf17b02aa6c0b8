//! Requests over HTTP, a line each, and what is answered to them.
//!
//! Of a line `\r`, `\n`, `\t` and `\x` with two hexadecimal digits are bytes, `\|` stands between
//! two pieces, and `\*N.` repeats what stands behind the last `\[` N times more. What each piece is
//! answered is printed, of a request with what it asks for. A line `origins: NAME ..` names the
//! origins of the server from there on.
//!
//! A short line in one piece is cut at each byte up to the one at which it is judged, which is
//! printed: the first part is answered `more`, and the second one as the whole, or the first part
//! is refused as the whole is.

use http_edge::{EdgeError, Gathered, Request, Target, direct, refusal_body};
use script::RunError;
use std::alloc::{AllocError, Global};
use std::io::Write;

/// How long a line is at the most that is cut.
const SHORT: usize = 400;

/// The bytes of a line, where its pieces end, and where that begins which is repeated.
#[derive(Drop)]
struct Pieces {
    bytes: Vec<u8>,
    ends: Vec<usize>,
    mark: usize,
}

/// What is answered to some bytes.
type Got = Result<Option<Request>, EdgeError>;

/// Writes each line with what it is answered.
pub fn play_all<W: Write>(alloc: Global, lines: &[u8], writer: &mut W) -> Result<(), RunError> {
    let lines = str::from_utf8(lines).map_err(|_| RunError::Reading)?;
    let mut named = Vec::new(alloc);
    for line in lines.lines() {
        let mut text = String::from_str(alloc, line)?;
        match line.strip_prefix("origins:") {
            Some(names) => named = origins(alloc, names)?,
            None => write_answers(&mut text, alloc, &named, line)?,
        }
        writeln!(writer, "{text}").map_err(|_| RunError::Writing)?;
    }
    Ok(())
}

fn origins(alloc: Global, names: &str) -> Result<Vec<String>, AllocError> {
    let mut all = Vec::new(alloc);
    for name in names.split_whitespace() {
        all.push(String::from_str(alloc, name)?)?;
    }
    Ok(all)
}

impl Pieces {
    fn read(alloc: Global, line: &str) -> Result<Pieces, AllocError> {
        let (bytes, ends, mark) = (Vec::new(alloc), Vec::new(alloc), 0);
        let mut pieces = Pieces { bytes, ends, mark };
        let mut parts = line.split('\\');
        let plain = parts.next().unwrap_or("");
        pieces.bytes.extend_from_slice(plain.as_bytes())?;
        for part in parts {
            pieces.add(part)?;
        }
        pieces.ends.push(pieces.bytes.len())?;
        Ok(pieces)
    }

    /// Adds what stands behind a backslash.
    fn add(&mut self, part: &str) -> Result<(), AllocError> {
        let (byte, rest) = match part.as_bytes() {
            [b'r', rest @ ..] => (b'\r', rest),
            [b'n', rest @ ..] => (b'\n', rest),
            [b't', rest @ ..] => (b'\t', rest),
            [b'x', high, low, rest @ ..] => (digit(*high) << 4 | digit(*low), rest),
            _ => return self.divide(part),
        };
        self.bytes.push(byte)?;
        self.bytes.extend_from_slice(rest)
    }

    /// Ends a piece, notes where that begins which is repeated, or repeats it.
    fn divide(&mut self, part: &str) -> Result<(), AllocError> {
        let mut rest = part.get(1..).unwrap_or("");
        if part.starts_with('|') {
            self.ends.push(self.bytes.len())?;
        } else if part.starts_with('[') {
            self.mark = self.bytes.len();
        } else if let Some((times, behind)) = rest.split_once('.') {
            self.repeat(times.parse().unwrap_or(0))?;
            rest = behind;
        }
        self.bytes.extend_from_slice(rest.as_bytes())
    }

    fn repeat(&mut self, times: usize) -> Result<(), AllocError> {
        let marked = self.bytes.get(self.mark..).unwrap_or(b"");
        let again = Vec::from_slice(*self.bytes.allocator(), marked)?;
        for _ in 0..times {
            self.bytes.extend_from_slice(again.as_slice())?;
        }
        Ok(())
    }
}

/// A hexadecimal digit's number.
fn digit(byte: u8) -> u8 {
    match byte {
        b'0'..=b'9' => byte.wrapping_sub(b'0'),
        _ => byte.wrapping_sub(b'a').wrapping_add(10) & 15,
    }
}

/// Writes what is answered to the pieces of a line.
fn write_answers(
    text: &mut String,
    alloc: Global,
    named: &[String],
    line: &str,
) -> Result<(), AllocError> {
    let pieces = Pieces::read(alloc, line)?;
    let (mut gathered, mut start) = (Gathered::new(alloc), 0);
    for end in &pieces.ends {
        let piece = pieces.bytes.get(start..*end).unwrap_or(b"");
        write_answer(text, alloc, named, gathered.feed(alloc, piece))?;
        start = *end;
    }
    if pieces.ends.len() == 1 && pieces.bytes.len() <= SHORT {
        write_cuts(text, alloc, named, &pieces.bytes)?;
    }
    Ok(())
}

/// Writes what some bytes are answered.
fn write_answer(
    text: &mut String,
    alloc: Global,
    named: &[String],
    got: Got,
) -> Result<(), AllocError> {
    match got {
        Ok(None) => text.push_str(" = more"),
        Ok(Some(mut request)) => {
            write_request(text, &request)?;
            let target = direct(alloc, named, &mut request);
            write!(text, ", {:?}", request.origin)?;
            write_target(text, target)
        }
        Err(fault) => write!(text, " = {fault:?}"),
    }
}

/// Writes a request, with the beginning of its body and of what was read past it.
fn write_request(text: &mut String, request: &Request) -> Result<(), AllocError> {
    let (method, path, query) = (&request.method, &request.path, &request.query);
    write!(
        text,
        " = {method} {path} ?{query} head {}",
        request.head.len()
    )?;
    let body = request.body.as_str();
    write!(
        text,
        ", body {} {}",
        body.len(),
        body.get(..20).unwrap_or(body)
    )?;
    let rest = request.rest.as_slice();
    write!(
        text,
        ", rest {} {:?}",
        rest.len(),
        rest.get(..4).unwrap_or(rest)
    )?;
    write!(text, ", upgrade {}, {:?}", request.upgrade, request.origin)
}

fn write_target(text: &mut String, target: Result<Target, EdgeError>) -> Result<(), AllocError> {
    match target {
        Ok(Target::Refuse(refusal)) => write!(text, " {}", refusal_body(refusal)),
        Ok(target) => write!(text, " {target:?}"),
        Err(fault) => write!(text, " {fault:?}"),
    }
}

/// How many bytes are fed, one by one, until they are judged.
fn judged_after(alloc: Global, bytes: &[u8]) -> usize {
    let mut gathered = Gathered::new(alloc);
    for (index, byte) in bytes.iter().enumerate() {
        if !matches!(gathered.feed(alloc, &[*byte]), Ok(None)) {
            return index.saturating_add(1);
        }
    }
    bytes.len()
}

/// Writes after how many bytes they are judged, one by one and in one read, and where that isn't
/// as the whole is.
fn write_cuts(
    text: &mut String,
    alloc: Global,
    named: &[String],
    bytes: &[u8],
) -> Result<(), AllocError> {
    let (mut whole, count) = (String::new(alloc), judged_after(alloc, bytes));
    let got = Gathered::new(alloc).feed(alloc, bytes);
    write_answer(&mut whole, alloc, named, got)?;
    let mut first = count;
    for cut in 1..count {
        let (mut gathered, mut parted) = (Gathered::new(alloc), String::new(alloc));
        let mut got = gathered.feed(alloc, bytes.get(..cut).unwrap_or(b""));
        if matches!(got, Ok(None)) {
            got = gathered.feed(alloc, bytes.get(cut..).unwrap_or(b""));
        } else {
            first = first.min(cut);
        }
        write_answer(&mut parted, alloc, named, got)?;
        if parted.as_str() != whole.as_str() {
            write!(text, " ! cut at {cut}")?;
        }
    }
    write!(text, ", judged after {count}, in one read after {first}")
}
