//! A hub that plays the deeds of a row. Each client has one socket, in `/`, whose session id and
//! private id are the client's own number, where nothing else is said.

use crate::fault::Fault;
use crate::rows::{Counted, Deed, MISSPELLED, Measured, NOW, Row};
use http_edge::Gathered;
use hub_totals::{Hub, Pass};
use journal::{Cast, Form, HubError};
use recovery::Pid;
use std::alloc::Global;
use std::rt::Clock;
use std::sync::ledger::Ledger;
use std::time::Instant;
use terms::{Attachments, Room, Sid, Text};

/// How many entries may wait for a client.
pub const CAPACITY: usize = 128;

/// The namespace in which few clients have a socket, beside their one in `/`.
pub const FEW: &str = "/few";

/// The first session id of the sockets that clients have beside, or after, the one of their number.
const SECOND: u128 = 1 << 64;

/// An event of 64 bytes.
const PAYLOAD: &str = "[\"news\",\"01234567890123456789012345678901234567890123456789012\"]";

/// What a piece of a request has, but for the last one, which may be shorter.
static PIECE: [u8; 1_024] = [b'4'; 1_024];

/// A hub with its pass.
#[derive(Drop)]
struct Hall<C: Ledger, T: Ledger> {
    hub: Hub<C, T>,
    pass: Pass<C, T>,
    clients: u64,
}

/// Plays the row over this hub.
pub fn play_hub<C: Ledger, T: Ledger, R: Clock + AllocGlobal>(
    rt: &R,
    row: &Row<'_>,
    hub: Hub<C, T>,
    pass: Pass<C, T>,
) -> Measured {
    let (clients, deeds) = (row.sizes.sockets, row.deeds(rt.alloc())?);
    let mut hall = Box::new(rt.alloc(), Hall { hub, pass, clients })?;
    let mut counted = Counted::default();
    for deed in &deeds {
        let start = Instant::now(rt)?;
        let number = hall.repeat(rt.alloc(), deed)?;
        if deed.timed {
            counted.add(number, start.elapsed(rt)?);
        }
    }
    Ok((counted, hall.hub.state().totals()))
}

impl<C: Ledger, T: Ledger> Hall<C, T> {
    /// Does a deed so often, and says how many that counts for.
    fn repeat(&mut self, alloc: Global, deed: &Deed<'_>) -> Result<u64, Fault> {
        let mut number = 0u64;
        for client in 0..deed.times {
            number = number.saturating_add(self.act(alloc, deed.name, client)?);
        }
        Ok(number)
    }

    /// Does a deed, for the client with the number, and says how many it counts for.
    fn act(&mut self, alloc: Global, deed: &str, number: u64) -> Result<u64, Fault> {
        match deed {
            "cast" => self.cast(alloc, "/", "members", false)?,
            "log" => self.cast(alloc, "/", "members", true)?,
            "call" => self.cast(alloc, "/", "", false)?,
            "tell" => self.cast(alloc, FEW, "", false)?,
            // Each sixteenth is for the room, the others for nobody.
            "fill" if number % 16 == 15 => self.cast(alloc, "/", "members", true)?,
            "fill" => self.cast(alloc, "/", "nobody", true)?,
            "sweep" => self.sweep()?,
            // It counts for the steps since the last one.
            "seal" => return Ok(self.hub.seal(alloc)?.steps.len() as u64),
            "join_all" | "leave_all" | "end_all" => self.act_together(alloc, deed)?,
            _ => match deed.parse::<usize>() {
                Ok(body) => gather(alloc, body)?,
                Err(_) => self.client_does(deed, u128::from(number))?,
            },
        }
        Ok(1)
    }

    /// What one client does. Where a socket of it connects, the answer to CONNECT waits then.
    fn client_does(&mut self, deed: &str, id: u128) -> Result<(), Fault> {
        let (hub, pass, sid, pid) = (&mut self.hub, &mut self.pass, Sid::new(id), Pid::new(id));
        let (other, second) = (Sid::new(SECOND | id), Pid::new(SECOND | id));
        match deed {
            "open" => hub.open(pass, id, NOW)?,
            "attach" => hub.attach(pass, id, "/", sid, pid, NOW)?,
            "enter" => hub.attach(pass, id, FEW, other, second, NOW)?,
            "return" => hub.attach(pass, id, "/", other, second, NOW)?,
            "join" => hub.join(pass, sid, named("members"), NOW)?,
            "leave" => hub.leave(pass, sid, named("members"), NOW)?,
            "park" => hub.park(pass, id, NOW)?,
            "take" => drop(hub.take_away(pass, id, CAPACITY, NOW)?),
            // The session comes back, which had the log's first broadcast.
            "recover" => drop(hub.recover(pass, id, "/", pid, 1, NOW)?),
            _ => return Err(MISSPELLED),
        }
        Ok(())
    }

    /// All that is kept of the past is dropped: as many sessions as there are clients.
    fn sweep(&mut self) -> Result<(), Fault> {
        let swept = self.hub.sweep(&mut self.pass, 1_000_000)?;
        if swept.saved as u64 == self.clients {
            return Ok(());
        }
        Err(Fault::Wrong("a session was not saved"))
    }

    /// An event for a room of a namespace, or without one for everybody in it.
    fn cast(&mut self, alloc: Global, space: &str, room: &str, logged: bool) -> Result<(), Fault> {
        let mut rooms = Vec::new(alloc);
        if !room.is_empty() {
            rooms.push(named(room))?;
        }
        let event = Cast {
            space: Text::copy_of(alloc, space)?,
            rooms,
            excepted: Vec::new(alloc),
            form: Form::Event { logged },
            payload: Text::copy_of(alloc, PAYLOAD)?,
            attachments: Attachments::new(alloc),
        };
        let _done = self.hub.cast(&mut self.pass, event, NOW)?;
        Ok(())
    }

    /// All in the room join another together, leave it together, or end together.
    fn act_together(&mut self, alloc: Global, deed: &str) -> Result<(), HubError> {
        let (hub, pass, guests) = (&mut self.hub, &mut self.pass, named("guests"));
        let rooms = Vec::from_slice(alloc, &[named("members")])?;
        let none = Vec::new(alloc);
        match deed {
            "join_all" => drop(hub.sockets_join(pass, "/", rooms, none, guests, NOW)?),
            "leave_all" => drop(hub.sockets_leave(pass, "/", rooms, none, guests, NOW)?),
            _ => drop(hub.disconnect_sockets(pass, "/", rooms, none, NOW)?),
        }
        Ok(())
    }
}

/// The room of this name, which is short.
fn named(name: &str) -> Room {
    Room::read(name).unwrap_or(Room::own(Sid::new(0)))
}

/// Gathers a request whose body, of so many bytes, comes in pieces.
fn gather(alloc: Global, body: usize) -> Result<(), Fault> {
    let head = format!(in alloc;
        "POST /socket.io/?EIO=4 HTTP/1.1\r\nContent-Length: {body}\r\n\r\n"
    )?;
    let mut gathered = Gathered::new(alloc);
    let mut got = gathered.feed(alloc, head.as_bytes());
    for first in (0..body).step_by(PIECE.len()) {
        let piece = PIECE.get(..body.saturating_sub(first)).unwrap_or(&PIECE);
        got = gathered.feed(alloc, piece);
    }
    match got {
        Ok(Some(_)) => Ok(()),
        _ => Err(Fault::Wrong("a request was not read")),
    }
}
