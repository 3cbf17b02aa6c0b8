//! Clocks, lines and books of questions.

use crate::play::{Part, play};
use connection::{AckBook, AckError, Clock, ClockError, ClockState, Due, Line, Timing, Transport};
use sio_wire::{Scratch, SioError, SioPacket};
use std::alloc::Global;
use terms::Sid;

const DEFAULTS: Timing = Timing {
    ping_interval: 25_000,
    ping_timeout: 20_000,
    connect_timeout: 45_000,
};

/// What a row expects that isn't refused.
const YES: Result<bool, AckError> = Ok(true);

const UNKNOWN: Result<bool, AckError> = Err(AckError::UnknownId);

const SPENT: Result<bool, AckError> = Err(AckError::Spent);

/// What is done, with its answer where it has one.
pub enum Deed {
    Tick(u64, Due),
    Pong(u64),
    Probe(Result<(), ClockError>),
    Lose(Result<(), ClockError>),
    Upgrade(Result<(), ClockError>),
    /// How it is carried now.
    Over(Transport),
    /// Something joined a clock, or a clock is in this state.
    Joined,
    Is(ClockState),
    /// A GET begins or ends, or waits or not.
    Begin,
    End,
    Gets(bool),
    /// A ping is to be carried or not, or is carried.
    PingDue(bool),
    CarryPing,
    Connect(u128),
    Disconnect(u128),
    Text(&'static str, Frame),
    Bytes(&'static [u8], Frame),
    /// The socket is asked with this tag until a moment, and the question has this id.
    Ask(u128, u64, u64, u64),
    /// The socket answers to this id, by which the question had this tag.
    Answer(u128, u64, u64),
    /// So many questions of a book run out at a moment, or are left.
    Expire(u64, usize),
    Left(usize),
}

/// What comes of a frame: a packet with this payload and so many attachments, a part of one, or a
/// fault.
#[derive(Clone, Copy)]
pub enum Frame {
    Whole(&'static str, usize),
    Part,
    Fault(SioError),
}

type Rows = &'static [(Deed, Result<bool, AckError>)];

impl Part for Clock {
    type Row = Deed;

    type Fault = AckError;

    const MEMORY: AckError = AckError::Memory;

    fn act(&mut self, _alloc: Global, row: &Deed) -> Result<bool, AckError> {
        Ok(match row {
            Deed::Tick(now, due) => self.tick(*now) == *due,
            Deed::Pong(now) => {
                self.pong(*now);
                true
            }
            Deed::Probe(answer) => self.probe() == *answer,
            Deed::Lose(answer) => self.probe_lost() == *answer,
            Deed::Upgrade(answer) => self.upgrade() == *answer,
            Deed::Over(transport) => self.state().transport == *transport,
            Deed::Joined => {
                self.joined();
                true
            }
            Deed::Is(state) => self.state() == *state,
            _ => false,
        })
    }
}

/// Whether this came of a frame.
fn is_frame(answer: Result<Option<SioPacket>, SioError>, want: Frame) -> Result<bool, AckError> {
    Ok(match (answer, want) {
        (Err(SioError::Memory), _) => return Err(AckError::Memory),
        (Ok(Some(packet)), Frame::Whole(payload, attachments)) => {
            packet.header.payload.as_str() == payload && packet.attachments.len() == attachments
        }
        (Ok(None), Frame::Part) => true,
        (Err(fault), Frame::Fault(wanted)) => fault == wanted,
        _ => false,
    })
}

/// Whether this comes of a text frame.
fn is_read(line: &mut Line, alloc: Global, text: &str, want: Frame) -> Result<bool, AckError> {
    let mut scratch = Scratch::new(alloc);
    is_frame(line.text(alloc, &mut scratch, text), want)
}

impl Part for Line {
    type Row = Deed;

    type Fault = AckError;

    const MEMORY: AckError = AckError::Memory;

    fn act(&mut self, alloc: Global, row: &Deed) -> Result<bool, AckError> {
        match row {
            Deed::Begin => self.begin_get(),
            Deed::End => self.end_get(),
            Deed::CarryPing => self.carry_ping(),
            Deed::Pong(now) => self.pong(*now),
            Deed::Connect(sid) => self.connect(Sid::new(*sid)),
            Deed::Disconnect(sid) => self.disconnect(Sid::new(*sid)),
            Deed::Text(text, frame) => return is_read(self, alloc, text, *frame),
            Deed::Bytes(bytes, frame) => return is_frame(self.binary(alloc, bytes), *frame),
            Deed::Ask(sid, tag, until, id) => {
                return Ok(self.ask(alloc, Sid::new(*sid), *tag, *until)? == *id);
            }
            Deed::Answer(sid, id, tag) => return Ok(self.answer(Sid::new(*sid), *id)? == *tag),
            _ => return Ok(tells(self, row)),
        }
        Ok(true)
    }
}

/// Whether the line answers so, where no memory is needed.
fn tells(line: &mut Line, row: &Deed) -> bool {
    match row {
        Deed::Gets(waits) => line.is_getting() == *waits,
        Deed::PingDue(is_due) => line.is_ping_due() == *is_due,
        Deed::Tick(now, due) => line.tick(*now) == *due,
        Deed::Over(transport) => line.transport() == *transport,
        Deed::Probe(answer) => line.probe() == *answer,
        Deed::Lose(answer) => line.probe_lost() == *answer,
        Deed::Upgrade(answer) => line.upgrade() == *answer,
        _ => false,
    }
}

/// A book of questions, of which each socket of a line has one.
impl Part for AckBook {
    type Row = Deed;

    type Fault = AckError;

    const MEMORY: AckError = AckError::Memory;

    fn size(&self) -> usize {
        self.len()
    }

    fn act(&mut self, alloc: Global, row: &Deed) -> Result<bool, AckError> {
        Ok(match row {
            Deed::Ask(_, tag, until, id) => self.ask(alloc, *tag, *until)? == *id,
            Deed::Answer(_, id, tag) => self.answer(*id)? == *tag,
            Deed::Expire(now, many) => self.expire(*now) == *many,
            Deed::Left(many) => self.len() == *many,
            _ => false,
        })
    }
}

#[test]
fn clocks(rt: HostRuntime) {
    static NO_PONG: Rows = &[
        (Deed::Tick(24_999, Due::Nothing), YES),
        (Deed::Tick(25_000, Due::SendPing), YES),
        (Deed::Tick(25_000, Due::Nothing), YES),
        (Deed::Tick(44_999, Due::Nothing), YES),
        (Deed::Tick(45_000, Due::PingTimeout), YES),
        (Deed::Tick(45_000, Due::PingTimeout), YES),
    ];
    static PONG_IN_TIME: Rows = &[
        (Deed::Joined, YES),
        (Deed::Tick(25_000, Due::SendPing), YES),
        (Deed::Pong(44_999), YES),
        (Deed::Tick(45_000, Due::Nothing), YES),
        (Deed::Tick(69_998, Due::Nothing), YES),
        (Deed::Tick(69_999, Due::SendPing), YES),
    ];
    static NOTHING_JOINED: Rows = &[
        (Deed::Tick(25_000, Due::SendPing), YES),
        (Deed::Pong(44_999), YES),
        (Deed::Tick(45_000, Due::ConnectTimeout), YES),
    ];
    static EARLIER_MOMENT: Rows = &[
        (Deed::Tick(30_000, Due::SendPing), YES),
        (Deed::Tick(10, Due::Nothing), YES),
        (
            Deed::Is(ClockState {
                transport: Transport::Polling,
                awaiting: true,
                joined: false,
                last: 30_000,
            }),
            YES,
        ),
    ];
    static UPGRADE: Rows = &[
        (Deed::Upgrade(Err(ClockError::NotProbing)), YES),
        (Deed::Lose(Err(ClockError::NotProbing)), YES),
        (Deed::Probe(Ok(())), YES),
        (Deed::Probe(Err(ClockError::AlreadyProbing)), YES),
        (Deed::Lose(Ok(())), YES),
        (Deed::Probe(Ok(())), YES),
        (Deed::Upgrade(Ok(())), YES),
        (Deed::Probe(Err(ClockError::AlreadyUpgraded)), YES),
        (Deed::Upgrade(Err(ClockError::AlreadyUpgraded)), YES),
        (Deed::Lose(Err(ClockError::AlreadyUpgraded)), YES),
    ];
    static GREATEST_MOMENT: Rows = &[
        (Deed::Tick(u64::MAX, Due::Nothing), YES),
        (Deed::Over(Transport::Socket), YES),
    ];
    for rows in [
        NO_PONG,
        PONG_IN_TIME,
        NOTHING_JOINED,
        EARLIER_MOMENT,
        UPGRADE,
    ] {
        play(&rt, &mut Clock::open(0, DEFAULTS, false), rows);
    }
    play(
        &rt,
        &mut Clock::open(u64::MAX - 1, DEFAULTS, true),
        GREATEST_MOMENT,
    );
}

#[test]
fn lines(rt: HostRuntime) {
    static GET: Rows = &[
        (Deed::Gets(false), YES),
        (Deed::Begin, YES),
        (Deed::Gets(true), YES),
        (Deed::End, YES),
        (Deed::Gets(false), YES),
    ];
    static PING: Rows = &[
        (Deed::Connect(7), YES),
        (Deed::Tick(24_999, Due::Nothing), YES),
        (Deed::PingDue(false), YES),
        (Deed::Tick(25_000, Due::SendPing), YES),
        (Deed::PingDue(true), YES),
        (Deed::CarryPing, YES),
        (Deed::PingDue(false), YES),
        (Deed::Pong(44_999), YES),
        (Deed::Tick(45_000, Due::Nothing), YES),
        (Deed::Tick(69_999, Due::SendPing), YES),
        (Deed::Tick(89_999, Due::PingTimeout), YES),
    ];
    static NOTHING_JOINED: Rows = &[
        (Deed::Tick(25_000, Due::SendPing), YES),
        (Deed::Pong(25_000), YES),
        (Deed::Tick(45_000, Due::ConnectTimeout), YES),
    ];
    static UPGRADE: Rows = &[
        (Deed::Over(Transport::Polling), YES),
        (Deed::Upgrade(Err(ClockError::NotProbing)), YES),
        (Deed::Probe(Ok(())), YES),
        (Deed::Over(Transport::Probing), YES),
        (Deed::Lose(Ok(())), YES),
        (Deed::Over(Transport::Polling), YES),
        (Deed::Probe(Ok(())), YES),
        (Deed::Upgrade(Ok(())), YES),
        (Deed::Over(Transport::Socket), YES),
    ];
    static FRAMES: Rows = &[
        (Deed::Text("2[\"say\"]", Frame::Whole("[\"say\"]", 0)), YES),
        (
            Deed::Text(
                "51-[\"say\",{\"_placeholder\":true,\"num\":0}]",
                Frame::Part,
            ),
            YES,
        ),
        (
            Deed::Bytes(
                &[1, 2],
                Frame::Whole("[\"say\",{\"_placeholder\":true,\"num\":0}]", 1),
            ),
            YES,
        ),
    ];
    static FAILED: Rows = &[
        (
            Deed::Bytes(&[1], Frame::Fault(SioError::BinaryUnawaited)),
            YES,
        ),
        (
            Deed::Text("0", Frame::Fault(SioError::BinaryUnawaited)),
            YES,
        ),
        (
            Deed::Bytes(&[1], Frame::Fault(SioError::BinaryUnawaited)),
            YES,
        ),
    ];
    static EACH_SOCKET_ASKED: Rows = &[
        (Deed::Connect(1), YES),
        (Deed::Connect(2), YES),
        (Deed::Ask(1, 70, 100, 0), YES),
        (Deed::Ask(1, 71, 200, 1), YES),
        (Deed::Ask(2, 72, 300, 0), YES),
        (Deed::Answer(2, 1, 0), UNKNOWN),
        (Deed::Tick(100, Due::Nothing), YES),
        (Deed::Answer(1, 0, 0), UNKNOWN),
        (Deed::Answer(1, 1, 71), YES),
        (Deed::Answer(1, 1, 0), UNKNOWN),
        (Deed::Answer(2, 0, 72), YES),
    ];
    static GONE_WITH_THE_SOCKET: Rows = &[
        (Deed::Connect(1), YES),
        (Deed::Ask(1, 70, 100, 0), YES),
        (Deed::Disconnect(1), YES),
        (Deed::Answer(1, 0, 0), UNKNOWN),
        (Deed::Connect(1), YES),
        (Deed::Ask(1, 71, 100, 0), YES),
        (Deed::Connect(1), YES),
        (Deed::Answer(1, 0, 0), UNKNOWN),
    ];
    for rows in [
        GET,
        PING,
        NOTHING_JOINED,
        UPGRADE,
        FRAMES,
        FAILED,
        EACH_SOCKET_ASKED,
        GONE_WITH_THE_SOCKET,
    ] {
        play(&rt, &mut Line::open(rt.alloc(), 0, DEFAULTS, false), rows);
    }
    static OVER_A_SOCKET: Rows = &[(Deed::Over(Transport::Socket), YES)];
    play(
        &rt,
        &mut Line::open(rt.alloc(), 0, DEFAULTS, true),
        OVER_A_SOCKET,
    );
}

#[test]
fn books(rt: HostRuntime) {
    static RUN_OUT: Rows = &[
        (Deed::Ask(0, 7, 100, 0), YES),
        (Deed::Ask(0, 8, 200, 1), YES),
        (Deed::Ask(0, 9, 300, 2), YES),
        (Deed::Left(3), YES),
        (Deed::Answer(0, 1, 8), YES),
        (Deed::Answer(0, 1, 0), UNKNOWN),
        (Deed::Answer(0, 3, 0), UNKNOWN),
        (Deed::Expire(99, 0), YES),
        (Deed::Expire(100, 1), YES),
        (Deed::Answer(0, 0, 0), UNKNOWN),
        (Deed::Left(1), YES),
        (Deed::Ask(0, 10, 50, 3), YES),
        (Deed::Expire(u64::MAX, 2), YES),
        (Deed::Left(0), YES),
    ];
    static LAST_ID: Rows = &[
        (Deed::Ask(0, 1, 1, 999_999_999_999_999), YES),
        (Deed::Ask(0, 1, 1, 0), SPENT),
        (Deed::Answer(0, 999_999_999_999_999, 1), YES),
        (Deed::Ask(0, 1, 1, 0), SPENT),
    ];
    static PAST_IT: Rows = &[(Deed::Ask(0, 1, 1, 0), SPENT)];
    for (first, rows) in [
        (0, RUN_OUT),
        (999_999_999_999_999, LAST_ID),
        (u64::MAX, PAST_IT),
    ] {
        play(&rt, &mut AckBook::new(rt.alloc(), first), rows);
    }
}
