//! How long connections may take.

ghost use Rattle.std.specs.Prelude.{◌≡◌};
ghost use Rattle.loop_rules.specs.Link as one;
ghost use Rattle.loop_rules.specs.Links as all;
ghost use Rattle.loop_rules.specs.Lateness as late;

use crate::link::{Do, Link, Seen};
use crate::links::Links;

/// How long a request may take to come, in milliseconds.
const REQUEST: u64 = 10_000;

/// How long a GET waits: less than what clients wait for, and less than the time between two pings.
const WAIT: u64 = 20_000;

/// How long a WebSocket may take until its client speaks over it.
const PROBE: u64 = 10_000;

/// How long a connection may take nothing of what is to be sent.
const STALL: u64 = 30_000;

/// How long a connection may take to end.
const END: u64 = 2_000;

/// What a connection is at.
#[derive(Clone, Copy, Debug, PartialEq, Eq)]
pub enum Period {
    /// Its request is coming.
    Request,
    /// It is a GET that waits.
    Waits,
    /// It is a WebSocket over which no client speaks yet.
    Knocks,
    /// It is served.
    Served,
    /// It is served no more, and its bytes go out.
    Sends,
    /// It ends.
    Ends,
}

/// What is to be done with a connection where this period took too long, or its bytes, of which
/// some are unsent, have not gone on for too long, or all that serve are to fail.
pub fn find_overdue(link: Link, period: Period, unsent: usize, cutting: bool, now: u64) -> Do
    ensures { result ≡ one.overdue_of period unsent cutting now link }
{
    let age = now.saturating_sub(link.since);
    let is_stuck = unsent > 0 && now.saturating_sub(link.moved) >= STALL;
    match period {
        _ if cutting && !matches!(period, Period::Ends) => Do::Fail,
        Period::Request if age >= REQUEST => Do::End,
        Period::Waits if age >= WAIT => Do::GiveUp,
        Period::Knocks if age >= PROBE => Do::Cut,
        // In its stint it finds whether its client is still there.
        Period::Knocks => Do::Queue,
        Period::Served if is_stuck => Do::Fail,
        Period::Sends if is_stuck => Do::End,
        Period::Ends if age >= END => Do::End,
        _ => Do::Nothing,
    }
}

impl Links {
    /// What is to be done with a connection that took too long, or where all are to end. A POST
    /// that has to wait isn't late by that; another one is called once its client waits no more.
    pub fn keep_deadline(&mut self, key: usize, seen: Seen, cutting: bool, now: u64) -> Do
        ensures what { result ≡ late.due_at key seen cutting now self.old }
        ensures links { self.new.links.items
            ≡ all.put_at key (late.kept_link key seen cutting now self.old) self.old.links.items }
        ensures takers { self.new.roster.takers ≡ self.old.roster.takers }
    {
        let is_taker = self.is_taker(key);
        let mut link = self.keep_waiting(key, now);
        let period = link.period(seen.idle, is_taker, cutting);
        let what = find_overdue(link, period, seen.unsent, cutting, now);
        if matches!(what, Do::Fail) {
            link = link.fail(now);
        }
        self.put(key, link);
        if !matches!(what, Do::Nothing | Do::End) {
            self.roster.rota.call(key);
        }
        match what {
            Do::End => Do::End,
            Do::GiveUp => Do::GiveUp,
            Do::Cut | Do::Fail => Do::Cut,
            _ => Do::Nothing,
        }
    }

    /// Whether what is put for its client goes over a connection.
    pub fn is_taker(&self, key: usize) -> bool
        ensures { result ≡ all.is_taker_at key self.now }
    {
        let client = self.client(key);
        client.is_some_and(|client| self.roster.takers.is_taker(client, key))
    }

    /// A connection, as it is by now: a POST that has to wait isn't late by that.
    fn keep_waiting(&mut self, key: usize, now: u64) -> Link
        ensures link { result ≡ late.waited key now self.old }
        ensures links { self.new.links ≡ self.old.links }
        ensures takers { self.new.roster.takers ≡ self.old.roster.takers }
    {
        let mut link = self.link(key);
        let sender = link.sender(key);
        let has_to = self.is_pressed(sender, now) || link.paced > now;
        if link.waits && !has_to {
            self.roster.rota.call(key);
        }
        if has_to && link.course.is_post() {
            self.receiving.keep(key, sender, now);
            link.since = now;
        }
        link
    }
}
