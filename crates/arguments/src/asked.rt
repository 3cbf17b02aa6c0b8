//! The settings that options ask for.

ghost use Rattle.std.specs.Prelude.{◌≡◌, [], None, IfOk, codes, map, option_map, string_bytes};
ghost use Rattle.clap.specs.Words.{found_of};
ghost use Rattle.arguments.specs.Asked as asked;
ghost use Rattle.arguments.specs.Asked.{AsksHub, AsksLimits, AsksNumbers, AsksPace, AsksTexts, AsksTiming, IsSaid, IsSaidIn, IsSaidUnless0};

use clap::ArgMatches;
use connection::Timing;
use guarded::EXPIRY;
use journal::Config;
use settings::usual::UsualLimits;
use settings::{Pace, Settings, usual};
use std::alloc::{AllocError, Global};
use terms::Text;

/// The namespace of the backends.
pub const BACKENDS: &str = "/backend";

/// The number that an option says, or this one where it says none.
fn number(matches: &ArgMatches<'_>, name: &str, usual: u64) -> u64
    ensures { IsSaid (found_of matches.now) name.now usual result }
{
    matches.get_one(name).unwrap_or(usual)
}

/// The same of a size.
fn size(matches: &ArgMatches<'_>, name: &str, usual: usize) -> usize
    ensures { IsSaid (found_of matches.now) name.now usual result }
{
    matches.get_one(name).unwrap_or(usual)
}

/// The limits that are asked for, but for the namespaces.
fn limits(matches: &ArgMatches<'_>) -> UsualLimits
    ensures { AsksLimits (found_of matches.now) result }
{
    let usual = usual::LIMITS;
    UsualLimits {
        clients: size(matches, "clients", usual.clients),
        capacity: size(matches, "capacity", usual.capacity),
        bytes: size(matches, "bytes", usual.bytes),
        log: size(matches, "log", usual.log),
        log_bytes: size(matches, "log-bytes", usual.log_bytes),
        saved: size(matches, "saved", usual.saved),
        keep: number(matches, "keep", usual.keep),
        first_offset: usual.first_offset,
    }
}

/// The timing that is asked for.
fn timing(matches: &ArgMatches<'_>) -> Timing
    ensures { AsksTiming (found_of matches.now) result }
{
    let usual = usual::TIMING;
    Timing {
        ping_interval: number(matches, "ping-interval", usual.ping_interval),
        ping_timeout: number(matches, "ping-timeout", usual.ping_timeout),
        connect_timeout: number(matches, "connect-timeout", usual.connect_timeout),
    }
}

/// The number that an option says, if it isn't 0, which says never.
fn unless_0(matches: &ArgMatches<'_>, name: &str) -> Option<u64>
    ensures { IsSaidUnless0 (found_of matches.now) name.now result }
{
    let number = number(matches, name, 0);
    (number != 0).then_some(number)
}

/// How fast one client may send, if that is bounded: as many events at once as a second where that
/// isn't said.
fn pace(matches: &ArgMatches<'_>) -> Option<Pace>
    ensures { AsksPace (found_of matches.now) result }
{
    let (rate, burst) = (matches.get_one("pace"), matches.get_one("burst"));
    let rate = rate?;
    let burst = burst.unwrap_or(rate);
    Some(Pace { rate, burst })
}

/// The port that is asked for; the parse refuses arguments without one.
fn port(matches: &ArgMatches<'_>) -> u16
    ensures { IsSaidIn 16 (found_of matches.now) (codes "port") 0 result }
{
    matches.get_one("port").unwrap_or(0)
}

/// The namespaces, as they are named, that of the backends where there may be some, and that of the
/// warden where there is one.
fn spaces<'a>(
    alloc: Global,
    named: &[&'a str],
    has_backends: bool,
    has_warden: bool,
) -> Result<Vec<&'a str>, AllocError>
    ensures { IfOk result (λ spaces. map (λ name. name.now) spaces.items
        ≡ asked.spaces_of (map (λ name. name.now) named.now) has_backends has_warden) }
{
    let mut spaces = Vec::new(alloc);
    spaces.push("/")?;
    spaces.extend_from_slice(named)?;
    if has_backends {
        spaces.push(BACKENDS)?;
    }
    if has_warden {
        spaces.push(EXPIRY)?;
    }
    Ok(spaces)
}

/// The limits that are asked for, with the namespaces.
fn hub(alloc: Global, matches: &ArgMatches<'_>, has_warden: bool) -> Result<Config, AllocError>
    ensures { IfOk result (AsksHub (found_of matches.now) has_warden) }
{
    let mut limits = limits(matches);
    if has_warden {
        // It is a client too.
        limits.clients = limits.clients.saturating_add(1);
    }
    let has_backends = matches.get_str("backend-token").is_some();
    let named = matches.get_strs("space").unwrap_or(&[]);
    limits.config(alloc, &spaces(alloc, named, has_backends, has_warden)?)
}

/// Takes the numbers that are asked for.
fn set_numbers(matches: &ArgMatches<'_>, settings: &mut Settings)
    ensures asked { AsksNumbers (found_of matches.now) settings.new }
    ensures others { settings.new ≡ record settings.old {
      connections = settings.new.connections;
      timing = settings.new.timing;
      max_payload = settings.new.max_payload;
      receiving = settings.new.receiving;
      together = settings.new.together;
      poll_entries = settings.new.poll_entries;
      report = settings.new.report;
      pace = settings.new.pace;
      connections_from = settings.new.connections_from;
    } }
{
    settings.connections = unless_0(matches, "connections");
    settings.timing = timing(matches);
    settings.max_payload = number(matches, "max-payload", usual::MAX_PAYLOAD);
    settings.receiving = size(matches, "receiving", usual::RECEIVING);
    settings.together = number(matches, "together", usual::TOGETHER);
    settings.poll_entries = size(matches, "poll-entries", usual::POLL_ENTRIES);
    settings.report = unless_0(matches, "report");
    settings.pace = pace(matches);
    settings.connections_from = matches.get_one("connections-from");
}

/// Copies of texts.
fn copies(alloc: Global, texts: &[&str]) -> Result<Vec<String>, AllocError>
    ensures { IfOk result (λ copies. map string_bytes copies.items
        ≡ map (λ text. text.now) texts.now) }
{
    let mut copies = Vec::new(alloc);
    for text in texts {
        copies.push(String::from_str(alloc, text)?)?;
    }
    Ok(copies)
}

/// A copy of a text, where there is one.
fn copy_of(alloc: Global, text: Option<&str>) -> Result<Option<String>, AllocError>
    ensures { IfOk result (λ copy. option_map string_bytes copy
        ≡ option_map (λ text. text.now) text.entry) }
{
    match text {
        Some(text) => Ok(Some(String::from_str(alloc, text)?)),
        None => Ok(None),
    }
}

/// The namespace of the backends, where there may be some.
fn backend_space(alloc: Global, has_backends: bool) -> Result<Option<Text>, AllocError>
    ensures { IfOk result (λ space. space ≡ asked.backend_space has_backends) }
{
    if has_backends {
        Ok(Some(Text::copy_of(alloc, BACKENDS)?))
    } else {
        Ok(None)
    }
}

/// Takes the texts that are asked for.
fn set_texts(
    alloc: Global,
    matches: &ArgMatches<'_>,
    settings: &mut Settings,
) -> Result<(), AllocError>
    ensures asked { IfOk result (λ _. AsksTexts (found_of matches.now) settings.new) }
    ensures others { settings.new ≡ record settings.old {
      host = settings.new.host;
      origins = settings.new.origins;
      metrics = settings.new.metrics;
      backends = settings.new.backends;
    } }
{
    let host = matches.get_str("host").unwrap_or(usual::HOST);
    let origins = matches.get_strs("origin").unwrap_or(&[]);
    let has_backends = matches.get_str("backend-token").is_some();
    settings.host = String::from_str(alloc, host)?;
    settings.origins = copies(alloc, origins)?;
    settings.metrics = copy_of(alloc, matches.get_str("metrics"))?;
    settings.backends = backend_space(alloc, has_backends)?;
    Ok(())
}

/// The settings that are asked for, where so many threads serve if none says how many. A warden has a
/// client and a namespace of its own.
pub(crate) fn read_settings(
    alloc: Global,
    matches: &ArgMatches<'_>,
    processors: usize,
    has_warden: bool,
) -> Result<Settings, AllocError>
    ensures port { IfOk result (λ settings.
        IsSaidIn 16 (found_of matches.now) (codes "port") 0 settings.port) }
    ensures workers { IfOk result (λ settings.
        IsSaid (found_of matches.now) (codes "workers") processors settings.workers) }
    ensures hub { IfOk result (λ settings. AsksHub (found_of matches.now) has_warden settings.hub) }
    ensures numbers { IfOk result (AsksNumbers (found_of matches.now)) }
    ensures texts { IfOk result (AsksTexts (found_of matches.now)) }
    ensures later { IfOk result (λ settings. (settings.page ≡ []) × (settings.warding ≡ None)) }
{
    let workers = size(matches, "workers", processors);
    let mut settings = Settings::usual(alloc, port(matches), workers)?;
    set_texts(alloc, matches, &mut settings)?;
    settings.hub = hub(alloc, matches, has_warden)?;
    set_numbers(matches, &mut settings);
    Ok(settings)
}
