//! The counting of what a server does and refuses, and the counts as text (Prometheus, "Exposition
//! formats", the text-based format).

ghost use Rattle.std.specs.Prelude.{◌≡◌, IfOk, OnOk, map, string_bytes};
ghost use Rattle.metrics.specs.Counting as counting;
ghost use Rattle.metrics.specs.Metrics as metrics;
ghost use Rattle.metrics.specs.Metrics.{Adds};
ghost use Rattle.metrics.specs.Reason.{reasons};

use crate::reason::{REASONS, Reason};
use journal::Totals;
use std::alloc::{AllocError, Global};
use std::fmt::Write;

/// What a core holds at a moment.
#[derive(Clone, Copy, Debug, Default, PartialEq, Eq)]
pub struct Sizes {
    /// The clients that are open.
    pub clients: u64,
    /// The sockets that are connected.
    pub sockets: u64,
    /// The rooms that have a socket, each socket's own one among them.
    pub rooms: u64,
    /// The sessions that are saved, outdated ones among them.
    pub saved: u64,
    /// The broadcasts that are logged.
    pub logged: u64,
}

/// What a core has done, and what it holds then.
#[derive(Clone, Copy, Debug, Default, PartialEq, Eq)]
pub struct CoreCounts {
    pub totals: Totals,
    /// The events of clients that went to no backend.
    pub unheard: u64,
    pub sizes: Sizes,
}

/// What one loop had.
#[derive(Clone, Copy, Debug, PartialEq, Eq)]
pub struct LoopCounts {
    /// Which loop it is.
    pub number: u64,
    /// The connections that it was given.
    pub connections: u64,
    /// The requests that came whole over them.
    pub requests: u64,
}

/// How often something was refused for a reason.
#[derive(Clone, Copy, Debug, PartialEq, Eq)]
pub struct Refusals {
    pub reason: Reason,
    pub count: u64,
}

/// What a server tells.
#[derive(Debug, Drop)]
pub struct Metrics {
    pub core: CoreCounts,
    /// In the order of their numbers.
    pub loops: Vec<LoopCounts>,
    pub refused: Vec<Refusals>,
    /// How often a client's connection wasn't read, since the client sent too fast.
    pub paced: u64,
}

/// Adds names with one number: of each the name, the kind, what it says, and the number.
macro_rules! push_rows {
    ($text:expr; $($name:literal, $kind:literal, $help:literal, $number:expr;)*) => {
        $(push_row($text, $name, $kind, $help, $number)?;)*
    };
}

impl Metrics {
    /// Nothing was counted yet, of so many loops.
    pub fn new(alloc: Global, loops: usize) -> Result<Metrics, AllocError>
        ensures core { IfOk result (λ m. m.core ≡ counting.nothing) }
        ensures loops { IfOk result (λ m. m.loops.items ≡ counting.nothing_of loops) }
        ensures refused { IfOk result (λ m. m.refused.items ≡ map counting.nothing_for reasons) }
        ensures paced { IfOk result (λ m. m.paced ≡ 0) }
    {
        let mut counts = Metrics {
            core: CoreCounts::default(),
            loops: Vec::new(alloc),
            refused: Vec::new(alloc),
            paced: 0,
        };
        for number in 0..loops {
            counts.loops.push(LoopCounts {
                number: number as u64,
                connections: 0,
                requests: 0,
            })?;
        }
        for reason in REASONS {
            counts.refused.push(Refusals { reason, count: 0 })?;
        }
        Ok(counts)
    }

    /// A loop was given a connection.
    pub fn note_connection(&mut self, number: usize)
        ensures counted { self.new.loops.items
            ≡ counting.in_loop counting.with_connection number self.old.loops.items }
        ensures core { self.new.core ≡ self.old.core }
        ensures refused { self.new.refused ≡ self.old.refused }
        ensures paced { self.new.paced ≡ self.old.paced }
    {
        if let Some(it) = self.loops.get_mut(number) {
            it.connections = it.connections.saturating_add(1);
        }
    }

    /// A request came whole to a loop.
    pub fn note_request(&mut self, number: usize)
        ensures counted { self.new.loops.items
            ≡ counting.in_loop counting.with_request number self.old.loops.items }
        ensures core { self.new.core ≡ self.old.core }
        ensures refused { self.new.refused ≡ self.old.refused }
        ensures paced { self.new.paced ≡ self.old.paced }
    {
        if let Some(it) = self.loops.get_mut(number) {
            it.requests = it.requests.saturating_add(1);
        }
    }

    /// Something was refused.
    pub fn note_refused(&mut self, reason: Reason)
        ensures counted { self.new.refused.items
            ≡ counting.with_refused reason self.old.refused.items }
        ensures core { self.new.core ≡ self.old.core }
        ensures loops { self.new.loops ≡ self.old.loops }
        ensures paced { self.new.paced ≡ self.old.paced }
    {
        if let Some(it) = self.refused.get_mut(reason as usize) {
            it.count = it.count.saturating_add(1);
        }
    }

    /// So many times more a client sent too fast.
    pub fn note_paced(&mut self, times: u64)
        ensures counted { self.new.paced ≡ counting.so_many_more times self.old.paced }
        ensures core { self.new.core ≡ self.old.core }
        ensures loops { self.new.loops ≡ self.old.loops }
        ensures refused { self.new.refused ≡ self.old.refused }
    {
        self.paced = self.paced.saturating_add(times);
    }

    /// The counts, each with what it says.
    #[tactic(auto, unfolding(crate::specs::Metrics::text_of))]
    pub fn text(&self, alloc: Global) -> Result<String, AllocError>
        ensures { IfOk result (λ text. string_bytes text ≡ metrics.text_of
            self.now.core self.now.loops.items self.now.refused.items self.now.paced) }
    {
        let mut text = totals_text(alloc, &self.core.totals)?;
        push_rows! { &mut text;
            "socketio_unheard_total", "counter", "Events of clients that went to no backend.",
                self.core.unheard;
        }
        text.push_str(sizes_text(alloc, &self.core.sizes)?.as_str())?;
        text.push_str(connections_text(alloc, self.loops.as_slice())?.as_str())?;
        text.push_str(requests_text(alloc, self.loops.as_slice())?.as_str())?;
        text.push_str(refused_text(alloc, self.refused.as_slice())?.as_str())?;
        push_rows! { &mut text;
            "socketio_paced_total", "counter",
                "Times that a client sent too fast and wasn't read.", self.paced;
        }
        Ok(text)
    }
}

fn totals_text(alloc: Global, totals: &Totals) -> Result<String, AllocError>
    ensures { IfOk result (λ text. string_bytes text ≡ metrics.totals_text totals.now) }
{
    let mut text = String::new(alloc);
    push_rows! { &mut text;
        "socketio_commands_total", "counter", "Changes of the state that were accepted.",
            totals.commands;
        "socketio_messages_placed_total", "counter", "Messages put into outboxes.", totals.placed;
        "socketio_messages_dropped_total", "counter", "Messages that had no place in one.",
            totals.dropped;
        "socketio_messages_taken_total", "counter", "Messages handed to clients.", totals.taken;
        "socketio_messages_discarded_total", "counter",
            "Messages that waited when their client ended.", totals.discarded;
        "socketio_messages_waiting", "gauge", "Messages that wait.", totals.waiting;
    }
    Ok(text)
}

fn sizes_text(alloc: Global, sizes: &Sizes) -> Result<String, AllocError>
    ensures { IfOk result (λ text. string_bytes text ≡ metrics.sizes_text sizes.now) }
{
    let mut text = String::new(alloc);
    push_rows! { &mut text;
        "socketio_clients", "gauge", "Clients that are open.", sizes.clients;
        "socketio_sockets", "gauge", "Sockets that are connected to a namespace.", sizes.sockets;
        "socketio_rooms", "gauge", "Rooms that have a socket, each socket's own one among them.",
            sizes.rooms;
        "socketio_sessions_saved", "gauge", "Saved sessions, outdated ones among them.",
            sizes.saved;
        "socketio_log_entries", "gauge", "Broadcasts that are logged.", sizes.logged;
    }
    Ok(text)
}

fn connections_text(alloc: Global, loops: &[LoopCounts]) -> Result<String, AllocError>
    ensures { IfOk result (λ text. string_bytes text ≡ metrics.connections_text loops.now) }
{
    let mut text = String::new(alloc);
    let name = "socketio_connections_total";
    let help = "Connections that a loop was given.";
    push_head(&mut text, name, "counter", help)?;
    for it in loops {
        push_labelled(&mut text, name, it.number, it.connections)?;
    }
    Ok(text)
}

fn requests_text(alloc: Global, loops: &[LoopCounts]) -> Result<String, AllocError>
    ensures { IfOk result (λ text. string_bytes text ≡ metrics.requests_text loops.now) }
{
    let mut text = String::new(alloc);
    let name = "socketio_requests_total";
    let help = "Requests that came whole to a loop.";
    push_head(&mut text, name, "counter", help)?;
    for it in loops {
        push_requests(&mut text, it)?;
    }
    Ok(text)
}

fn refused_text(alloc: Global, refused: &[Refusals]) -> Result<String, AllocError>
    ensures { IfOk result (λ text. string_bytes text ≡ metrics.refused_text refused.now) }
{
    let mut text = String::new(alloc);
    let name = "socketio_refused_total";
    push_head(&mut text, name, "counter", "What was refused, by reason.")?;
    for it in refused {
        push_reason(&mut text, name, it.reason.label(), it.count)?;
    }
    Ok(text)
}

/// Adds what numbers of a name say.
fn push_head(text: &mut String, name: &str, kind: &str, help: &str) -> Result<(), AllocError>
    ensures { OnOk result (Adds text.old text.new (metrics.head name.now kind.now help.now)) }
{
    write!(text, "# HELP {name} {help}\n# TYPE {name} {kind}\n")
}

/// Adds a name with one number.
fn push_row(
    text: &mut String,
    name: &str,
    kind: &str,
    help: &str,
    number: u64,
) -> Result<(), AllocError>
    ensures { OnOk result (Adds text.old text.new (metrics.row name.now kind.now help.now number)) }
{
    push_head(text, name, kind, help)?;
    write!(text, "{name} {number}\n")
}

fn push_requests(text: &mut String, it: &LoopCounts) -> Result<(), AllocError>
    ensures { OnOk result (Adds text.old text.new (metrics.requests_of it.now)) }
{
    push_labelled(text, "socketio_requests_total", it.number, it.requests)
}

/// Adds a number of a loop.
fn push_labelled(text: &mut String, name: &str, number: u64, count: u64) -> Result<(), AllocError>
    ensures { OnOk result (Adds text.old text.new (metrics.of_loop name.now number count)) }
{
    write!(text, "{name}{{loop=\"{number}\"}} {count}\n")
}

/// Adds a number of a reason.
fn push_reason(text: &mut String, name: &str, reason: &str, count: u64) -> Result<(), AllocError>
    ensures { OnOk result (Adds text.old text.new (metrics.for_reason name.now reason.now count)) }
{
    write!(text, "{name}{{reason=\"{reason}\"}} {count}\n")
}
