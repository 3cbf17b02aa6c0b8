//! Whom the warden watches, and what it says, and reads as an event of its namespace.

ghost use Rattle.std.specs.Prelude.{◌≡◌, ◌≢◌, ◌⊎◌, ◌++◌, ◌+◌, ◌/◌, ◌-◌, ℕ, List, min, [], filter, length, take, IfOk, OnOk, OnErr, MatchOption, None, Some, option_and_then, option_map};
ghost use Rattle.guarded.specs.Deadlines as deadlines;
ghost use Rattle.guarded.specs.Deadlines.{Changes};
ghost use Rattle.guarded.specs.Reading.{told_by};
ghost use Rattle.json.specs.Json.{document};
ghost use Rattle.tcp_server.specs.Progress.{ends_stretch};
ghost use Rattle.tcp_server.specs.Wards as wards;

use crate::warden::{Progress, Stage, ends_stretch};
use events::{Event, WsFrame};
use guarded::{Deadlines, Due, Told, connect_text, end_text, read_told};
use std::alloc::{AllocError, Global};
use terms::Text;

/// How many entries it takes together.
const ENTRIES: usize = 256;

/// What an event of its namespace begins with (Socket.IO protocol 5, "Packet encoding").
const EVENT: &str = "2/expiry,";

/// A message begins with `4`, and the answer to a ping is `3` (Engine.IO protocol 4, "Protocol").
const CONNECT_MESSAGE: &str = "40/expiry,";

const EVENT_MESSAGE: &str = "42/expiry,";

const PONG: &str = "3";

/// The sockets that came with a token that expires, and those of them that are to be ended.
#[derive(Drop)]
pub(crate) struct Wards {
    pub(crate) deadlines: Deadlines,
    pub(crate) due: Vec<Due>,
}

impl Wards {
    /// Notes what it is told. One that is away now may come back up to this moment. Answers whether
    /// one has come back, which may be due already.
    pub(crate) fn note(&mut self, told: Told, until: u64) -> Result<bool, AllocError>
        ensures noted { OnOk result (wards.Notes until told self.old.deadlines self.new.deadlines) }
        ensures back { IfOk result (λ back. back ≡ wards.is_back told) }
        ensures refused { OnErr result (self.new.deadlines ≡ self.old.deadlines) }
        ensures due { self.new.due ≡ self.old.due }
    {
        match told {
            Told::Came {
                room,
                space,
                expires,
            } => self.deadlines.note_came(room, space, expires)?,
            Told::Back(room) => {
                self.deadlines.note_back(room);
                return Ok(true);
            }
            Told::Away(room) => self.deadlines.note_left(room, until),
            Told::Gone(room) => self.deadlines.note_gone(room),
        }
        Ok(false)
    }

    /// Forgets whose session can't come back any more, and lists who is to be ended: whose token's
    /// time is over, where the wall clock said `began` at moment 0. Without memory for it the list
    /// stays.
    pub(crate) fn look(&mut self, alloc: Global, began: u32, now: u64)
        ensures forgets { self.new.deadlines
            ≡ filter (λ socket. deadlines.stays now socket.1) self.old.deadlines }
        ensures lists { let seconds = min (began + now / 1000) u64.MAX in
            (self.new.due.items ≡ deadlines.due_at seconds self.new.deadlines)
            ⊎ (self.new.due ≡ self.old.due) }
    {
        self.deadlines.forget(now);
        let seconds = u64::from(began).saturating_add(now / 1_000);
        if let Ok(due) = self.deadlines.due(alloc, seconds) {
            self.due = due;
        }
    }

    /// The last one that is due has been ended: its session may come back up to this moment.
    /// Answers whether no more are ended at a stretch.
    pub(crate) fn strike(&mut self, until: u64) -> bool
        ensures others { self.new.due.items
            ≡ take (length self.old.due.items - 1) self.old.due.items }
        ensures left { MatchOption (wards.last self.old.due.items)
            (self.new.deadlines ≡ self.old.deadlines)
            (λ due. Changes due.room (option_map (deadlines.until (Some until)))
            self.old.deadlines self.new.deadlines) }
        ensures ends { result ≡ ends_stretch (length self.new.due.items) }
    {
        if let Some(due) = self.due.pop() {
            self.deadlines.note_left(due.room, until);
        }
        ends_stretch(self.due.len())
    }
}

/// What it is told by a text that it took, if by an event of its namespace.
pub(crate) fn told_in(alloc: Global, text: &str) -> Result<Option<Told>, AllocError>
    ensures event { IfOk result (λ told. (payload : List ℕ) → text.now ≡ wards.event_text payload
        → told ≡ option_and_then told_by (document payload)) }
    ensures other { IfOk result (λ told.
        ((payload : List ℕ) → text.now ≢ wards.event_text payload) → told ≡ None) }
{
    match text.strip_prefix(EVENT) {
        Some(payload) => read_told(alloc, payload),
        None => Ok(None),
    }
}

/// A text that its client sends, of two parts.
fn says(alloc: Global, client: u128, head: &str, rest: &str) -> Result<Event, AllocError>
    ensures { IfOk result (λ event. event ≡ wards.says client (head.now ++ rest.now)) }
{
    let mut text = String::from_str(alloc, head)?;
    text.push_str(rest)?;
    let frame = WsFrame::Text(Text::from_string(text));
    Ok(Event::Frame { client, frame })
}

/// Its next event, where this far it is, by this token it joins, and these are due.
pub(crate) fn event_of(
    alloc: Global,
    progress: Progress,
    token: &str,
    due: &[Due],
) -> Result<Event, AllocError>
    ensures { IfOk result (λ event. event ≡ wards.event_of progress token.now due.now) }
{
    let client = progress.client;
    match (progress.stage, due.last()) {
        (Stage::Opens, _) => Ok(Event::Opened { socket: true }),
        (Stage::Joins, _) => {
            let payload = connect_text(alloc, token)?;
            says(alloc, client, CONNECT_MESSAGE, payload.as_str())
        }
        (Stage::Answers, _) => says(alloc, client, PONG, ""),
        (Stage::Ends, Some(due)) => {
            let payload = end_text(alloc, due.space.as_str(), due.room)?;
            says(alloc, client, EVENT_MESSAGE, payload.as_str())
        }
        (Stage::Takes | Stage::Ends, _) => Ok(Event::FrameTake {
            client,
            most: ENTRIES,
        }),
    }
}
