//! One line of a script.

ghost use Rattle.std.specs.Prelude.{◌≡◌, ◌≢◌, ◌++◌, ◌∷◌, ◌↔◌, ℕ, List, IsTrue, IfSome, IfNone, option_map};
ghost use Rattle.script.specs.ScriptLine.{name_in, IsName, IsNumber, IsWord, IsSilent, IsReadAs, Spells, IsNoServerLine, IsNoClientLine, IsNoOpenLine, IsNoTakeLine, IsNoNoticeLine, IsNoSendingLine, SPACE, key_text, notice_text};

/// How many entries a `take` hands out at most that names no number.
const MOST_TAKEN: usize = 64;

/// A limit that a script may set.
#[derive(Clone, Copy, Debug, PartialEq, Eq)]
pub enum Key {
    Capacity,
    Clients,
    Bytes,
    Log,
    LogBytes,
    Saved,
    Keep,
    FirstOffset,
}

/// What a line says of a client by one word.
#[derive(Clone, Copy, Debug, PartialEq, Eq)]
pub enum Notice {
    /// `get`: a GET of the client waits.
    Get,
    /// `unget`: it waits no more.
    Unget,
    /// `probe`: the client probes a WebSocket.
    Probe,
    /// `upgrade`: the client speaks over the WebSocket from now on.
    Upgrade,
    /// `unprobe`: the probe failed.
    Unprobe,
    /// `lost`: the client's connection is lost.
    Lost,
    /// `tick`: it is asked what is due to the client.
    Tick,
}

/// What one line of a script asks for. A line is UTF-8; a carriage return belongs to it.
#[derive(Clone, Copy)]
pub enum ScriptLine<'a> {
    /// `config KEY N`: a limit of the server.
    Config(Key, u64),
    /// `at N`: the moment from now on.
    At(u64),
    /// `open NAME`: a client by this name, that polls.
    Open(&'a str),
    /// `open NAME socket`: a client by this name, over a WebSocket.
    OpenSocket(&'a str),
    /// `text NAME REST`: the payload REST, which may be empty, from the client.
    Text(&'a str, &'a str),
    /// `frame NAME REST`: the text frame REST over the client's WebSocket.
    Frame(&'a str, &'a str),
    /// `bytes NAME HEX`: a binary frame over it, as the hexadecimal digits that are the whole rest.
    Bytes(&'a str, &'a str),
    /// `get NAME`, or another word and a name.
    Notice(Notice, &'a str),
    /// `take NAME` or `take NAME N`: what waits for the client, at most so many entries.
    Take(&'a str, usize),
    /// `members SPACE ROOM`: the sockets of a namespace in a room, whose name is the whole rest.
    Members(&'a str, &'a str),
    /// `totals`: what the server has counted.
    Totals,
    /// `seal`: the end of an epoch.
    Seal,
    /// `sweep`: what the server keeps no longer is dropped.
    Sweep,
    /// A blank line or a comment, which begins with `#`.
    Nothing,
    /// Any other line.
    Bad,
}

/// The name of the client that the line is of, if it is of one that was opened.
pub(crate) fn name_in(line: ScriptLine<'_>) -> Option<&str>
    ensures { option_map (λ name. name.now) result ≡ name_in line.entry }
{
    match line {
        ScriptLine::Text(name, _) | ScriptLine::Frame(name, _) => Some(name),
        ScriptLine::Bytes(name, _) | ScriptLine::Take(name, _) => Some(name),
        ScriptLine::Notice(_, name) => Some(name),
        _ => None,
    }
}

/// Reads a line, which comes without its LF.
pub fn read_line(line: &[u8]) -> ScriptLine<'_>
    ensures { IsReadAs line.now result }
{
    let Ok(text) = str::from_utf8(line) else {
        return ScriptLine::Bad;
    };
    if is_silent(text) {
        return ScriptLine::Nothing;
    }
    if let Some(line) = read_server_line(text) {
        return line;
    }
    match read_client_line(text) {
        Some(line) => line,
        None => ScriptLine::Bad,
    }
}

/// A line about the server as a whole.
fn read_server_line(text: &str) -> Option<ScriptLine<'_>>
    ensures some { IfSome result (λ line. Spells text.now line) }
    ensures none { IfNone result (IsNoServerLine text.now) }
{
    match text {
        "totals" => return Some(ScriptLine::Totals),
        "seal" => return Some(ScriptLine::Seal),
        "sweep" => return Some(ScriptLine::Sweep),
        _ => {}
    }
    if let Some(moment) = number_after("at", text) {
        return Some(ScriptLine::At(moment));
    }
    if let Some((key, number)) = key_and_number_after("config", text) {
        return Some(ScriptLine::Config(key, number));
    }
    let (space, room) = word_and_rest_after("members", text)?;
    Some(ScriptLine::Members(space, room))
}

/// A line about one client.
fn read_client_line(text: &str) -> Option<ScriptLine<'_>>
    ensures some { IfSome result (λ line. Spells text.now line) }
    ensures none { IfNone result (IsNoClientLine text.now) }
{
    read_open(text)
        .or_else(|| read_take(text))
        .or_else(|| read_notice(text))
        .or_else(|| read_sending(text))
}

/// A line that opens a client.
fn read_open(text: &str) -> Option<ScriptLine<'_>>
    ensures some { IfSome result (λ line. Spells text.now line) }
    ensures none { IfNone result (IsNoOpenLine text.now) }
{
    if let Some(name) = name_after("open", text) {
        return Some(ScriptLine::Open(name));
    }
    match name_and_rest_after("open", text)? {
        (name, "socket") => Some(ScriptLine::OpenSocket(name)),
        _ => None,
    }
}

/// A line that takes what waits for a client.
fn read_take(text: &str) -> Option<ScriptLine<'_>>
    ensures some { IfSome result (λ line. Spells text.now line) }
    ensures none { IfNone result (IsNoTakeLine text.now) }
{
    if let Some(name) = name_after("take", text) {
        return Some(ScriptLine::Take(name, MOST_TAKEN));
    }
    let (name, digits) = name_and_rest_after("take", text)?;
    match read_number(digits)? {
        0 => None,
        most => Some(ScriptLine::Take(name, most as usize)),
    }
}

/// A line that says something of a client by one word.
fn read_notice(text: &str) -> Option<ScriptLine<'_>>
    ensures some { IfSome result (λ line. Spells text.now line) }
    ensures none { IfNone result (IsNoNoticeLine text.now) }
{
    let (word, name) = text.split_once(' ')?;
    let notice = notice_of(word)?;
    is_name(name).then_some(ScriptLine::Notice(notice, name))
}

/// A line by which a client sends something.
fn read_sending(text: &str) -> Option<ScriptLine<'_>>
    ensures some { IfSome result (λ line. Spells text.now line) }
    ensures none { IfNone result (IsNoSendingLine text.now) }
{
    if let Some((name, rest)) = name_and_rest_after("text", text) {
        return Some(ScriptLine::Text(name, rest));
    }
    if let Some((name, rest)) = name_and_rest_after("frame", text) {
        return Some(ScriptLine::Frame(name, rest));
    }
    let (name, hex) = name_and_rest_after("bytes", text)?;
    Some(ScriptLine::Bytes(name, hex))
}

/// Whether the line is blank or a comment.
fn is_silent(text: &str) -> bool
    ensures { IsTrue result ↔ IsSilent text.now }
{
    text.starts_with('#') || text.bytes().all(|byte| byte == b' ' || byte == b'\t')
}

/// The name of a line that is this word and a name.
fn name_after<'a>(word: &str, text: &'a str) -> Option<&'a str>
    ensures some { IfSome result (λ name. IsName name.now
        × (text.now ≡ word.now ++ SPACE ∷ name.now)) }
    ensures none { IfNone result ((name : List ℕ) → IsName name
        → text.now ≢ word.now ++ SPACE ∷ name) }
{
    let name = rest_after(word, text)?;
    if is_name(name) { Some(name) } else { None }
}

/// The name and the rest of a line that is this word, a name and anything after one more space.
fn name_and_rest_after<'a>(word: &str, text: &'a str) -> Option<(&'a str, &'a str)>
    ensures some { IfSome result (λ parts. IsName parts.0.now
        × (text.now ≡ word.now ++ SPACE ∷ parts.0.now ++ SPACE ∷ parts.1.now)) }
    ensures none { IfNone result ((name rest : List ℕ) → IsName name
        → text.now ≢ word.now ++ SPACE ∷ name ++ SPACE ∷ rest) }
{
    let (name, rest) = rest_after(word, text)?.split_once(' ')?;
    if is_name(name) {
        Some((name, rest))
    } else {
        None
    }
}

/// What follows the word and a space.
fn rest_after<'a>(word: &str, text: &'a str) -> Option<&'a str>
    ensures some { IfSome result (λ rest. text.now ≡ word.now ++ SPACE ∷ rest.now) }
    ensures none { IfNone result ((rest : List ℕ) → text.now ≢ word.now ++ SPACE ∷ rest) }
{
    text.strip_prefix(word)?.strip_prefix(' ')
}

/// The number of a line that is this word and a number.
fn number_after(word: &str, text: &str) -> Option<u64>
    ensures some { IfSome result (λ number. (digits : List ℕ) × IsNumber digits number
        × (text.now ≡ word.now ++ SPACE ∷ digits)) }
    ensures none { IfNone result ((digits : List ℕ) (number : ℕ) → IsNumber digits number
        → text.now ≢ word.now ++ SPACE ∷ digits) }
{
    read_number(rest_after(word, text)?)
}

/// The key and the number of a line that is this word, a key and a number.
fn key_and_number_after(word: &str, text: &str) -> Option<(Key, u64)>
    ensures some { IfSome result (λ parts. (digits : List ℕ) × IsNumber digits parts.1
        × (text.now ≡ word.now ++ SPACE ∷ key_text parts.0 ++ SPACE ∷ digits)) }
    ensures none { IfNone result ((key : Key) (digits : List ℕ) (number : ℕ)
        → IsNumber digits number → text.now ≢ word.now ++ SPACE ∷ key_text key ++ SPACE ∷ digits) }
{
    let (key, digits) = word_and_rest_after(word, text)?;
    Some((read_key(key)?, read_number(digits)?))
}

/// The second word of a line that begins with this one, and anything after one more space.
fn word_and_rest_after<'a>(word: &str, text: &'a str) -> Option<(&'a str, &'a str)>
    ensures some { IfSome result (λ parts. IsWord parts.0.now
        × (text.now ≡ word.now ++ SPACE ∷ parts.0.now ++ SPACE ∷ parts.1.now)) }
    ensures none { IfNone result ((second rest : List ℕ) → IsWord second
        → text.now ≢ word.now ++ SPACE ∷ second ++ SPACE ∷ rest) }
{
    rest_after(word, text)?.split_once(' ')
}

/// Whether the text is one to sixteen ASCII letters.
fn is_name(text: &str) -> bool
    ensures { IsTrue result ↔ IsName text.now }
{
    1 <= text.len() && text.len() <= 16 && text.bytes().all(|byte| byte.is_ascii_alphabetic())
}

/// The number that the text is in decimal digits.
fn read_number(text: &str) -> Option<u64>
    ensures some { IfSome result (λ number. IsNumber text.now number) }
    ensures none { IfNone result ((number : ℕ) → ¬ IsNumber text.now number) }
{
    if text.starts_with('+') {
        return None;
    }
    text.parse().ok()
}

/// The key that this word names.
fn read_key(word: &str) -> Option<Key>
    ensures some { IfSome result (λ key. word.now ≡ key_text key) }
    ensures none { IfNone result ((key : Key) → word.now ≢ key_text key) }
{
    match word {
        "capacity" => Some(Key::Capacity),
        "clients" => Some(Key::Clients),
        "bytes" => Some(Key::Bytes),
        "log" => Some(Key::Log),
        "log-bytes" => Some(Key::LogBytes),
        "saved" => Some(Key::Saved),
        "keep" => Some(Key::Keep),
        "first-offset" => Some(Key::FirstOffset),
        _ => None,
    }
}

/// What this word says of a client.
fn notice_of(word: &str) -> Option<Notice>
    ensures some { IfSome result (λ notice. word.now ≡ notice_text notice) }
    ensures none { IfNone result ((notice : Notice) → word.now ≢ notice_text notice) }
{
    match word {
        "get" => Some(Notice::Get),
        "unget" => Some(Notice::Unget),
        "probe" => Some(Notice::Probe),
        "upgrade" => Some(Notice::Upgrade),
        "unprobe" => Some(Notice::Unprobe),
        "lost" => Some(Notice::Lost),
        "tick" => Some(Notice::Tick),
        _ => None,
    }
}
