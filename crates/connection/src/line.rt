//! What the server keeps of one client beside the hub.
#![tactic(auto, unfolding(crate::specs::History::frames, crate::specs::History::failure, crate::specs::History::IsLegal, crate::specs::History::clock_calls, crate::specs::History::book_calls, crate::specs::History::is_getting, crate::specs::History::is_ping_due))]

ghost use Rattle.std.specs.Prelude.{◌≡◌, List, [], ◌∷◌, length, Some, None, Err, IfOk, IfErr, IfSome, OnOk, OnErr};
ghost use Rattle.sio_wire.specs.Frames.{text as text_frame, binary as binary_frame, RefusesText, binary_refusal, held, exceeds};
ghost use Rattle.sio_wire.specs.declared.assembler.Progress.{Progress};
ghost use Rattle.connection.specs.ClockHistory.{Opening};
ghost use Rattle.connection.specs.Heartbeat.{due};
ghost use Rattle.connection.specs.Upgrade.{transport, probe_refusal, unprobed_refusal};
ghost use Rattle.connection.specs.Questions.{next_id, question_at};
ghost use Rattle.connection.specs.Book.{ask_refusal, answer_of};
ghost use Rattle.connection.specs.History.{Call, Ticked, Ponged, Probed, Upgraded, ProbeLost, GetBegan, GetEnded, PingCarried, Connected, Disconnected, Asked, Answered, clock_calls, book_calls, frames, failure, is_getting, is_ping_due};
ghost use Rattle.connection.specs.Line.{PlainLine, LeadsTo, ForEachHistory, HasHistory, Advances, Hears, StepsBy};

use crate::{AckBook, AckError, Clock, ClockError, Due, Timing, Transport, ack_book};
use sio_wire::{Assembler, Scratch, SioError, SioPacket};
use std::alloc::Global;
use std::collections::BTreeMap;
use std::marker::Model;
use terms::{Sid, let_go};

/// A client's line: its assembler and its clock, whether a GET of it waits and whether it is due a
/// ping, and the questions to its sockets. All moments are milliseconds of one clock.
///
/// Contracts see the parts of `PlainLine`, and speak of histories: how the line was opened, and the
/// calls since then that lead to these parts. Every line has such a history.
pub struct Line {
    assembler: Assembler,
    clock: Clock,
    /// A GET waits for a payload.
    getting: bool,
    /// The next payload or frame carries a ping.
    ping: bool,
    /// The questions to each socket that was asked one.
    books: BTreeMap<Sid, AckBook>,
}

/// Written out, so that a crate above takes the drop of all that lies in it by this one call.
impl Drop for Line {
    fn drop(self) {
        let_go!(self; assembler, clock, getting, ping, books);
    }
}

impl Model for Line {
    ghost use Rattle.connection.specs.Line.{PlainLine, HasHistory, plain_line};

    ghost Value = { PlainLine };

    ghost view = { λ l. plain_line l.assembler l.clock l.getting l.ping l.books.entries };

    ghost invariant = { λ l.
        HasHistory (plain_line l.assembler l.clock l.getting l.ping l.books.entries) };
}

impl Line {
    /// The line of a client that opens now, over a WebSocket or by polling. It takes no memory.
    pub fn open(alloc: Global, now: u64, timing: Timing, socket: bool) -> Line
        ensures { LeadsTo (record { now = now; timing = timing; socket = socket }) [] result }
    {
        Line {
            assembler: Assembler::new(),
            clock: Clock::open(now, timing, socket),
            getting: false,
            ping: false,
            books: BTreeMap::new(alloc),
        }
    }

    /// How the client speaks.
    pub fn transport(&self) -> Transport
        ensures value { ForEachHistory self.now (λ o h. result ≡ transport o (clock_calls h)) }
        ensures reached { HasHistory self.now }
    {
        self.clock.state().transport
    }

    /// Whether a GET waits.
    pub fn is_getting(&self) -> bool
        ensures { ForEachHistory self.now (λ o h. result ≡ is_getting h) }
    {
        self.getting
    }

    /// Whether a ping is due.
    pub fn is_ping_due(&self) -> bool
        ensures { ForEachHistory self.now (λ o h. result ≡ is_ping_due h) }
    {
        self.ping
    }

    /// The client sent a message of text. Gives the packet that it makes whole, in whose namespace
    /// and payload U+001E stands nowhere. After an error other than `Memory` the assembler has
    /// failed, and each further frame is answered with that error.
    pub fn text(
        &mut self,
        alloc: Global,
        scratch: &mut Scratch,
        text: &str,
    ) -> Result<Option<SioPacket>, SioError>
        ensures { Hears (text_frame text.now) (RefusesText self.old.assembler text.now)
            self.old result self.new }
    {
        self.assembler.text(alloc, scratch, text)
    }

    /// The client sent a message of bytes. As `text`.
    pub fn binary(&mut self, alloc: Global, bytes: &[u8]) -> Result<Option<SioPacket>, SioError>
        ensures { Hears (binary_frame bytes.now) (λ e. binary_refusal self.old.assembler ≡ Some e)
            self.old result self.new }
    {
        self.assembler.binary(alloc, bytes)
    }

    /// Whether a message of these bytes, with the attachments that came so far, has more bytes than
    /// the limit. Where none is awaited it hasn't.
    pub fn exceeds(&self, bytes: &[u8], limit: usize) -> bool
        ensures { result ≡ exceeds self.now.assembler limit (length bytes.now) }
    {
        self.assembler.exceeds(bytes, limit)
    }

    /// How many bytes the attachments have that came of the client's packet that isn't whole. It
    /// stays at the greatest usize, and is 0 where none is awaited.
    pub fn held(&self) -> usize
        ensures { result ≡ held self.now.assembler }
    {
        self.assembler.held()
    }

    /// The client sent a pong. One that isn't awaited changes only the last moment.
    pub fn pong(&mut self, now: u64)
        ensures { Advances self.old (Ponged now ∷ []) self.new }
    {
        self.clock.pong(now);
    }

    /// Forgets the questions that ran out, and answers what is due. `SendPing` makes a ping due.
    pub fn tick(&mut self, now: u64) -> Due
        ensures due { ForEachHistory self.old (λ o h. result ≡ due o (clock_calls h) now) }
        ensures advances { Advances self.old (Ticked now result ∷ []) self.new }
    {
        self.books.retain(|_, book| {
            book.expire(now);
            true
        });
        let due = self.clock.tick(now);
        if due == Due::SendPing {
            self.ping = true;
        }
        due
    }

    /// A probe over a WebSocket begins.
    pub fn probe(&mut self) -> Result<(), ClockError>
        ensures { StepsBy Probed probe_refusal self.old result self.new }
    {
        self.clock.probe()
    }

    /// The client speaks over the WebSocket from now on.
    pub fn upgrade(&mut self) -> Result<(), ClockError>
        ensures { StepsBy Upgraded unprobed_refusal self.old result self.new }
    {
        self.clock.upgrade()
    }

    /// The probe failed, and the client polls on.
    pub fn probe_lost(&mut self) -> Result<(), ClockError>
        ensures { StepsBy ProbeLost unprobed_refusal self.old result self.new }
    {
        self.clock.probe_lost()
    }

    /// A GET begins to wait.
    pub fn begin_get(&mut self)
        ensures { Advances self.old (GetBegan ∷ []) self.new }
    {
        self.getting = true;
    }

    /// No GET waits any more.
    pub fn end_get(&mut self)
        ensures { Advances self.old (GetEnded ∷ []) self.new }
    {
        self.getting = false;
    }

    /// The ping that was due was carried to the client.
    pub fn carry_ping(&mut self)
        ensures { Advances self.old (PingCarried ∷ []) self.new }
    {
        self.ping = false;
    }

    /// A socket was connected: the connection timeout is over, and it has no open question.
    pub fn connect(&mut self, sid: Sid)
        ensures { Advances self.old (Connected sid ∷ []) self.new }
    {
        self.clock.joined();
        self.books.remove(&sid);
    }

    /// A socket was disconnected, and its questions with it.
    pub fn disconnect(&mut self, sid: Sid)
        ensures { Advances self.old (Disconnected sid ∷ []) self.new }
    {
        self.books.remove(&sid);
    }

    /// Asks a question of a socket that runs out at a moment, and answers its id, the next one of
    /// the socket, from 0.
    pub fn ask(&mut self, alloc: Global, sid: Sid, tag: u64, until: u64) -> Result<u64, AckError>
        ensures refused { ForEachHistory self.old (λ o h.
            IfSome (ask_refusal 0 (book_calls sid h)) (λ e. result ≡ Err e)) }
        ensures memory_alone { ForEachHistory self.old (λ o h.
            ask_refusal 0 (book_calls sid h) ≡ None → IfErr result (λ e. e ≡ AckError.Memory)) }
        ensures id { IfOk result (λ id.
            ForEachHistory self.old (λ o h. id ≡ next_id 0 (book_calls sid h))) }
        ensures advances { OnOk result (Advances self.old (Asked sid tag until ∷ []) self.new) }
        ensures unchanged { OnErr result (Advances self.old [] self.new) }
    {
        ack_book::ask(alloc, &mut self.books, sid, tag, until)
    }

    /// Takes a socket's answer to a question: gives its tag and forgets its id.
    pub fn answer(&mut self, sid: Sid, id: u64) -> Result<u64, AckError>
        ensures answer { ForEachHistory self.old (λ o h.
            result ≡ answer_of (question_at 0 (book_calls sid h) id)) }
        ensures advances { OnOk result (Advances self.old (Answered sid id ∷ []) self.new) }
        ensures unchanged { OnErr result (Advances self.old [] self.new) }
    {
        ack_book::answer(&mut self.books, sid, id)
    }
}

/// What an assembler holds is told by the frames that it took and the one that it refused: where no
/// frame came it waits for nothing. It has no effect.
pub fn frames_tell()
    ensures told { (o : Opening) (g h : List Call) (k l : PlainLine) → LeadsTo o g k → LeadsTo o h l
        → frames g ≡ frames h → failure g ≡ failure h → k.assembler ≡ l.assembler }
    ensures ready { (o : Opening) (l : PlainLine) → LeadsTo o [] l → l.assembler ≡ Progress.Ready }
{}
