//! Broadcasts to members whose outboxes grow, and a log that its bytes bound.

use crate::play::{Part, play};
use crate::rooms::{R, room};
use hub_state::State;
use journal::{Cast, Config, Form, HubError, Totals};
use recovery::Pid;
use std::alloc::{AllocError, Global};
use terms::{Attachments, Sid, Text};

/// What is called, with what it answers last. A client's socket has the client's number.
pub enum Row {
    Open(u128),
    Attach(u128),
    Join(u128),
    /// A logged broadcast to the room, which so many get and so many miss.
    Say(u64, u64),
    /// A client takes at most so many entries, and gets so many.
    Take(u128, usize, usize),
    /// So many entries wait for a client.
    Waits(u128, usize),
    /// So many broadcasts are logged.
    Logged(usize),
}

type Rows = &'static [(Row, Result<bool, HubError>)];

const YES: Result<bool, HubError> = Ok(true);

/// The counts, how many steps there are and what they keep, the log, and what waits for each of
/// four clients: all that may be read with no allocation.
#[derive(Clone, Copy, PartialEq, Eq)]
struct Look {
    totals: Totals,
    steps: usize,
    held: u64,
    logged: usize,
    next: Option<u64>,
    waits: [(Option<usize>, Option<usize>); 4],
}

fn seen(state: &State) -> Look {
    let mut waits = [(None, None); 4];
    for client in 0..4usize {
        let number = client as u128;
        waits[client] = (state.waiting(number), state.waiting_bytes(number));
    }
    Look {
        totals: state.totals(),
        steps: state.steps().len(),
        held: state.held(),
        logged: state.log_len(),
        next: state.next_offset(),
        waits,
    }
}

impl Part for State {
    type Row = Row;

    type Fault = HubError;

    const MEMORY: HubError = HubError::Memory;

    /// A call for which memory is refused leaves all as it was; where it doesn't, the row's answer
    /// is another one.
    fn act(&mut self, alloc: Global, row: &Row) -> Result<bool, HubError> {
        let before = seen(self);
        let done = does(self, alloc, row);
        if done == Err(HubError::Memory) && seen(self) != before {
            return Ok(false);
        }
        done
    }
}

/// Whether the call answers what the row says.
fn does(state: &mut State, alloc: Global, row: &Row) -> Result<bool, HubError> {
    match row {
        Row::Open(client) => state.open(alloc, *client, 0)?,
        Row::Attach(client) => {
            let (sid, pid) = (Sid::new(*client), Pid::new(*client));
            state.attach(alloc, *client, "/", sid, pid, 0)?;
        }
        Row::Join(client) => state.join(alloc, Sid::new(*client), room(R), 0)?,
        Row::Say(placed, dropped) => return says(state, alloc, *placed, *dropped),
        Row::Take(client, most, want) => {
            return Ok(state.take(alloc, *client, *most, 0)?.len() == *want);
        }
        Row::Waits(client, want) => return Ok(state.waiting(*client) == Some(*want)),
        Row::Logged(want) => return Ok(state.log_len() == *want),
    }
    Ok(true)
}

/// Whether so many get a broadcast, and so many miss it.
fn says(state: &mut State, alloc: Global, placed: u64, dropped: u64) -> Result<bool, HubError> {
    let done = state.cast(alloc, cast(alloc)?, 0)?;
    let got = (done.placed, done.dropped, done.clients.len() as u64);
    Ok(got == (placed, dropped, placed))
}

/// A broadcast whose entry has 25 bytes, and 65 more in the log.
fn cast(alloc: Global) -> Result<Cast, AllocError> {
    let mut rooms = Vec::new(alloc);
    rooms.push(room(R))?;
    Ok(Cast {
        space: Text::copy_of(alloc, "/")?,
        rooms,
        excepted: Vec::new(alloc),
        form: Form::Event { logged: true },
        payload: Text::copy_of(alloc, "[\"a\"]")?,
        attachments: Attachments::new(alloc),
    })
}

/// A hub of which twelve entries may wait for a client, and 300 bytes be logged.
fn made(alloc: Global) -> Result<State, HubError> {
    let mut spaces = Vec::new(alloc);
    spaces.push(Text::copy_of(alloc, "/")?)?;
    State::new(
        alloc,
        Config {
            clients: 4,
            capacity: 12,
            bytes: 10_000,
            log: 9,
            log_bytes: 300,
            saved: 4,
            keep: 1_000,
            first_offset: 1,
            spaces,
        },
    )
}

/// The same, where the memory for the first one was refused too.
fn hub(alloc: Global) -> Result<State, HubError> {
    match made(alloc) {
        Err(HubError::Memory) => made(alloc),
        state => state,
    }
}

#[test]
fn outboxes_grow(rt: HostRuntime) -> Result<(), HubError> {
    // An answer to CONNECT waits for each.
    static JOINED: Rows = &[
        (Row::Open(1), YES),
        (Row::Open(2), YES),
        (Row::Open(3), YES),
        (Row::Attach(1), YES),
        (Row::Attach(2), YES),
        (Row::Attach(3), YES),
        (Row::Join(1), YES),
        (Row::Join(2), YES),
        (Row::Join(3), YES),
        // The second one has an empty outbox from here on, so it grows at other broadcasts.
        (Row::Take(2, 9, 1), YES),
    ];
    static TO_THREE: Rows = &[(Row::Say(3, 0), YES)];
    static FULL: Rows = &[
        (Row::Waits(1, 12), YES),
        (Row::Waits(2, 11), YES),
        (Row::Logged(3), YES),
        (Row::Say(1, 2), YES),
        (Row::Say(0, 3), YES),
        // What has emptied gave its memory back, and takes some again.
        (Row::Take(3, 99, 12), YES),
        (Row::Waits(3, 0), YES),
        (Row::Say(1, 2), YES),
        (Row::Take(1, 5, 5), YES),
        (Row::Say(2, 1), YES),
        (Row::Waits(1, 8), YES),
        (Row::Waits(2, 12), YES),
        (Row::Waits(3, 2), YES),
        (Row::Logged(3), YES),
    ];
    let mut state = hub(rt.alloc())?;
    play(&rt, &mut state, JOINED);
    for _ in 0..11u32 {
        play(&rt, &mut state, TO_THREE);
    }
    play(&rt, &mut state, FULL);
    Ok(())
}
