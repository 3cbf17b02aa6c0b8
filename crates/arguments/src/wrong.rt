//! What is wrong with options, of which no server is made.

ghost use Rattle.std.specs.Prelude.{◌≡◌, ◌≢◌, [], IfSome, OnErr, OnOk, false, map, not, option_map, string_bytes, true};
ghost use Rattle.std.specs.List.{list_any};
ghost use Rattle.terms.specs.Refusal.{ok_unless};
ghost use Rattle.arguments.specs.Wrong as rules;
ghost use Rattle.arguments.specs.Wrong.{IsFirstBad};

use crate::files::FileError;
use journal::Config;
use page::FolderError;
use settings::{Setting, Settings};
use std::alloc::AllocError;
use std::fmt;
use terms::Text;
use thiserror::Error;

/// What is told of a namespace, an origin, a path, of a token that clients and backends have, and of
/// the demonstration app where backends decide.
const WRONG_SPACE: &str =
    "it begins without /, has a comma or a control character, or is there already, as / is";

const WRONG_ORIGIN: &str =
    "it is none that a browser names, as http://localhost:8080 is one; * stands for all";

const WRONG_PATH: &str =
    "it begins without /, has a ?, a #, a blank or no ASCII, or is the socket's";

const ONE_TOKEN: &str =
    "--backend-token: it has the token of --token-file, by which clients would be backends";

const NOBODY_TELLS: &str =
    "--tell-left: with --backend-token there is no demonstration app that tells it";

/// Why no server is made by these options.
#[derive(Debug, Drop, Error)]
pub(crate) enum Wrong {
    Memory(#[from(alloc)] AllocError),
    NotUtf8,
    Space(Text),
    Setting(Setting),
    Origin(String),
    Metrics(String),
    BurstAlone,
    Page(String, FolderError),
    File(&'static str, String, FileError),
    AudienceAlone,
    NothingExpires,
    NobodyTells,
    /// Clients would be backends.
    OneToken,
}

impl fmt::Display for Wrong {
    fn fmt<W: fmt::Write>(&self, f: &mut fmt::Formatter<W>) -> fmt::Result {
        f.write_str(match self {
            Wrong::Memory(_) => "out of memory",
            Wrong::NotUtf8 => "invalid UTF-8 was detected in one or more arguments",
            Wrong::BurstAlone => "--burst: without --pace nothing is bounded",
            Wrong::AudienceAlone => "--jwt-audience: without --jwt-key no token is verified",
            Wrong::NothingExpires => "--end-expired: without --jwt-key no token expires",
            Wrong::NobodyTells => NOBODY_TELLS,
            Wrong::OneToken => ONE_TOKEN,
            Wrong::Setting(setting) => return write!(f, "bad {setting}"),
            Wrong::Space(space) => return write!(f, "--space {:?}: {WRONG_SPACE}", space.as_str()),
            Wrong::Origin(origin) => return write!(f, "--origin {origin:?}: {WRONG_ORIGIN}"),
            Wrong::Metrics(path) => return write!(f, "--metrics {path:?}: {WRONG_PATH}"),
            Wrong::Page(folder, fault) => return write!(f, "--page {folder}: {fault}"),
            Wrong::File(option, file, fault) => return write!(f, "--{option} {file}: {fault}"),
        })
    }
}

/// Whether one of the bytes may stand in no scheme and no host.
fn has_strange_part(bytes: &[u8]) -> bool
    ensures { result ≡ list_any (λ b. not (rules.is_part_byte b)) bytes.now }
{
    bytes.iter().any(|byte| {
        !(byte.is_ascii_lowercase()
            || byte.is_ascii_digit()
            || matches!(*byte, b'+' | b'-' | b'.' | b'_' | b':' | b'[' | b']'))
    })
}

/// Whether a browser may name this origin (RFC 6454, section 6.2): a scheme with its colon, a slash and
/// another one with a host behind it; or `*`, which stands for all, or `null`.
fn is_origin(text: &str) -> bool
    ensures { result ≡ rules.is_origin text.now }
{
    let Some((scheme, host)) = text.split_once('/') else {
        return text == "*" || text == "null";
    };
    let (scheme, host) = (scheme.as_bytes(), host.as_bytes());
    let is_scheme = scheme.len() > 1
        && scheme[scheme.len() - 1] == b':'
        && !has_strange_part(scheme);
    is_scheme && host.len() > 1 && host[0] == b'/' && !has_strange_part(&host[1..])
}

/// Whether one of the bytes may stand in no path.
fn has_strange_path(bytes: &[u8]) -> bool
    ensures { result ≡ list_any (λ b. not (rules.is_path_byte b)) bytes.now }
{
    bytes.iter().any(|byte| !(byte.is_ascii_graphic() && *byte != b'?' && *byte != b'#'))
}

/// Whether this is the path of the socket.
fn is_of_socket(path: &str) -> bool
    ensures { result ≡ rules.is_of_socket path.now }
{
    path == "/socket.io" || path == "/socket.io/"
}

/// Whether a request may have this path (RFC 9112, section 3.2.1), and it isn't the socket's.
fn is_path(text: &str) -> bool
    ensures { result ≡ rules.is_path text.now }
{
    text.starts_with('/') && !has_strange_path(text.as_bytes()) && !is_of_socket(text)
}

/// Takes the last namespace away, and gives it if limits with those that are left are allowed, and
/// with it they aren't.
fn wrong_last(hub: &mut Config) -> Option<Text>
    ensures { IfSome result (IsFirstBad hub.new) }
{
    let was_bad = hub.is_bad();
    let last = hub.spaces.pop()?;
    if was_bad && !hub.is_bad() {
        return Some(last);
    }
    None
}

/// Takes the first namespace away that is wrong, with those behind it: limits with those that are left
/// are allowed, and with it they aren't.
fn wrong_space(hub: &mut Config) -> Option<Text>
    ensures { IfSome result (IsFirstBad hub.new) }
{
    for _ in 0..hub.spaces.len() {
        if let Some(space) = wrong_last(hub) {
            return Some(space);
        }
    }
    None
}

/// Refuses settings that allow no server. The numbers are in their ranges, so of the limits it is a
/// namespace that is wrong.
fn check_setting(settings: &mut Settings) -> Result<(), Wrong>
    ensures checks { rules.ChecksSetting settings.old settings.new result }
    ensures same { OnOk result (settings.new ≡ settings.old) }
{
    let Some(setting) = settings.wrong() else {
        return Ok(());
    };
    match wrong_space(&mut settings.hub) {
        Some(space) => Err(Wrong::Space(space)),
        None => Err(Wrong::Setting(setting)),
    }
}

/// Refuses an origin that no browser names, the first one.
fn check_origins(origins: &[String]) -> Result<(), Wrong>
    ensures right { OnOk result (rules.are_origins (map string_bytes origins.now) ≡ true) }
    ensures wrong { OnErr result (origins.now ≢ []) }
{
    for origin in origins {
        if !is_origin(origin.as_str()) {
            return Err(Wrong::Origin(origin.clone()?));
        }
    }
    Ok(())
}

/// Refuses a path that no request has, or that is the socket's.
fn check_path(path: &Option<String>) -> Result<(), Wrong>
    ensures right { OnOk result (rules.is_right_path (option_map string_bytes path.now) ≡ true) }
    ensures wrong { OnErr result (rules.is_right_path (option_map string_bytes path.now) ≡ false) }
{
    match path {
        Some(path) if !is_path(path.as_str()) => Err(Wrong::Metrics(path.clone()?)),
        _ => Ok(()),
    }
}

/// Refuses what is asked for where what it needs isn't there.
pub(crate) fn check_need(is_asked: bool, is_there: bool, wrong: Wrong) -> Result<(), Wrong>
    ensures { result ≡ ok_unless (rules.need_refusal is_asked is_there wrong) }
{
    if is_asked && !is_there {
        Err(wrong)
    } else {
        Ok(())
    }
}

/// Refuses backends beside an app that tells who left, and with the token of clients.
pub(crate) fn check_backend(
    backend: &Option<Text>,
    token: &Option<Text>,
    tells_left: bool,
) -> Result<(), Wrong>
    ensures { result ≡ ok_unless (rules.backend_refusal backend.now token.now tells_left) }
{
    let Some(backend) = backend else {
        return Ok(());
    };
    if tells_left {
        return Err(Wrong::NobodyTells);
    }
    match token {
        Some(token) if backend.as_str() == token.as_str() => Err(Wrong::OneToken),
        _ => Ok(()),
    }
}

/// Refuses settings of which no server is made, by the first that is wrong, and then a burst without
/// a pace.
pub(crate) fn check_settings(
    settings: &mut Settings,
    rate: Option<u64>,
    burst: Option<u64>,
) -> Result<(), Wrong>
    ensures right { OnOk result (rules.IsRight settings.old rate burst) }
    ensures same { OnOk result (settings.new ≡ settings.old) }
{
    check_setting(settings)?;
    check_origins(&settings.origins)?;
    check_path(&settings.metrics)?;
    check_need(burst.is_some(), rate.is_some(), Wrong::BurstAlone)
}
