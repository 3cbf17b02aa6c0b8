//! What a server's settings come to.

ghost use Rattle.std.specs.Prelude.{◌≡◌, ◌<◌, IfOk, option_copied, option_map, string_bytes};
ghost use Rattle.std.specs.Box.{box_value};
ghost use Rattle.tcp_streams.specs.Rules as rules;

use connection::Timing;
use eio_wire::Numbers;
use http_edge::Request;
use journal::Config;
use loop_rules::Pace;
use page::{File, Page};
use settings::{Settings, Warding};
use std::alloc::{AllocError, Global};

/// A second, in milliseconds.
const SECOND: u64 = 1_000;

/// The settings by which a loop goes, and a core pings its clients.
#[derive(Drop)]
pub struct Rules {
    /// How many loops serve.
    pub loops: usize,
    /// How many entries one payload over HTTP may have.
    pub poll_entries: usize,
    /// How many bytes all that one loop is receiving may have.
    pub share: usize,
    /// The origins of the pages that are served, `*` for all. Where there are none, all are.
    pub origins: Vec<String>,
    /// The files that are served beside the socket's path.
    pub page: Page,
    /// The path at which a GET is answered by the counts, if one is.
    pub metrics: Option<String>,
    /// Every how many seconds the log is told the totals, if it is.
    pub report: Option<u64>,
    /// When a client is pinged, and when it is given up, in milliseconds.
    pub timing: Timing,
    /// How long the clients of a backend for which much waits aren't read at a stretch, in
    /// milliseconds: less than what they have for the answer to a ping.
    pub stretch: u64,
    /// What clients are told of that, in milliseconds, and of their payloads, in bytes.
    pub numbers: Numbers,
    /// How fast one client may send, if that is bounded.
    pub pace: Option<Pace>,
    /// By what the sockets of tokens that have expired are ended, if they are.
    pub warding: Option<Warding>,
    /// How long a session is saved, in milliseconds.
    pub keep: u64,
    ghost some: { 0 < loops },
}

impl Rules {
    ghost use Rattle.tcp_streams.specs.Settled.{GoesBy};

    /// What the loops go by, and the limits of the hub.
    pub fn with_limits(
        alloc: Global,
        settings: Settings,
    ) -> Result<(Box<Rules>, Box<Config>), AllocError>
        requires { 0 < settings.workers }
        ensures rules { IfOk result (λ made. GoesBy settings (box_value made.0)) }
        ensures limits { IfOk result (λ made. box_value made.1 ≡ settings.hub) }
    {
        let answered = settings.timing.ping_timeout;
        // Who sends too fast waits for no longer than three eighths of the time that it has for
        // the answer to a ping, so that what it sends now and the answer behind it come in time;
        // but for a second where that is longer.
        let most = (answered / 8 * 3).max(SECOND);
        let rules = Rules {
            pace: settings.pace.map(|pace| Pace {
                rate: pace.rate,
                burst: pace.burst,
                stretch: most,
            }),
            numbers: settings.numbers(),
            timing: settings.timing,
            stretch: answered / 4 * 3,
            loops: settings.workers,
            poll_entries: settings.poll_entries,
            share: settings.receiving / settings.workers,
            origins: settings.origins,
            page: settings.page,
            metrics: settings.metrics,
            report: settings.report,
            warding: settings.warding,
            keep: settings.hub.keep,
        };
        Ok((Box::new(alloc, rules)?, Box::new(alloc, settings.hub)?))
    }

    /// Whether a request asks for the counts.
    pub fn asks_for_counts(&self, request: &Request) -> bool
        ensures { result ≡ rules.asks_for_counts
            (option_map string_bytes self.now.metrics) request.now }
    {
        let is_get = request.method.as_str() == "GET";
        is_get && matches!(&self.metrics, Some(path) if path.as_str() == request.path.as_str())
    }

    /// The file of the page that a request asks for (RFC 9110, sections 9.3.1 and 9.3.2).
    pub fn file_for(&self, request: &Request) -> Option<&File>
        ensures { option_copied result ≡ rules.file_for self.now.page request.now }
    {
        match request.method.as_str() {
            "GET" | "HEAD" => self.page.look_up(request.path.as_str()),
            _ => None,
        }
    }
}
