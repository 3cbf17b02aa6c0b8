//! What a hub's state says of its backends, and who got something of an event.

ghost use Rattle.std.specs.Prelude.{◌≡◌, ◌&&◌, Some, None, OnOk, filter, if◌then◌else◌, length, map};
ghost use Rattle.backend_watch.specs.Digits as digits;
ghost use Rattle.backend_watch.specs.Receivers as receivers;
ghost use Rattle.backend_watch.specs.Watching as watching;
ghost use Rattle.backend_watch.specs.Watching.{IsToldOf, Lists, ListsAll, ListsReceivers};

use events::{Answered, Event, Outcome};
use hub_state::State;
use loop_rules::Backlog;
use std::alloc::{AllocError, Global};
use terms::{Room, Sid, Text};

/// A backend that is pressed, as a client, with the digits that it is told of, a bit each.
#[derive(Clone, Copy)]
pub struct Pressed {
    pub client: u128,
    pub digits: u16,
}

/// The digits of those that are listed, together.
pub fn digits_together(listed: &[Pressed]) -> u16
    ensures { result ≡ watching.digits_listed listed.now }
{
    let mut digits = 0;
    for pressed in listed {
        digits |= pressed.digits;
    }
    digits
}

fn is_listed(client: u128, listed: &[Pressed]) -> bool
    ensures { result ≡ watching.is_listed client listed.now }
{
    listed.iter().any(|pressed| pressed.client == client)
}

/// Takes a client off the list.
fn strike(client: u128, listed: &mut Vec<Pressed>)
    ensures { listed.new.items ≡ watching.without client listed.old.items }
{
    listed.retain(|pressed| pressed.client != client);
}

/// The state of a hub once an event was done, and what is known of its backends.
#[derive(Drop)]
pub struct Sight<'a> {
    pub alloc: Global,
    pub state: &'a State,
    /// The namespace that the backends join, and the names of the others.
    pub space: &'a str,
    pub others: &'a [Text],
    /// How many entries and bytes may wait for a client.
    pub capacity: usize,
    pub bytes: usize,
}

impl Sight<'_> {
    /// A client's session in the namespace of the backends.
    fn backend(&self, client: u128) -> Option<Sid>
        ensures { result ≡ watching.session self.now.state.now client self.now.space.now }
    {
        self.state.socket_of(client, self.space)
    }

    /// Whether a client is a backend.
    pub fn is_backend(&self, client: u128) -> bool
        ensures { result ≡ watching.is_backend self.now.state.now self.now.space.now client }
    {
        self.backend(client).is_some()
    }

    /// The digits that a backend is told of, which are rooms that it is in; all where there is no
    /// memory to list them.
    fn digits_told(&self, backend: Sid) -> u16
        ensures { IsToldOf self.now.state.now backend result }
    {
        let Ok(rooms) = self.state.rooms_of(self.alloc, backend) else {
            return u16::MAX;
        };
        let (mut digits, rooms) = (0, rooms.as_slice());
        for room in rooms {
            digits |= named_digit(*room);
        }
        digits
    }

    /// The digits with which a client's sessions in the other namespaces begin, where its event
    /// brings messages. A backend has none.
    pub fn digits_brought(&self, client: u128, event: &Event) -> Option<u16>
        ensures { let own = watching.own_digits self.now.state.now self.now.space.now self.now.others.now client
            in result ≡ (if watching.brings event.now then Some own else None) }
    {
        if !matches!(event, Event::Post { .. } | Event::Frame { .. }) {
            return None;
        }
        if self.is_backend(client) {
            return Some(0);
        }
        let (mut digits, others) = (0, self.others);
        for name in others {
            let session = self.state.socket_of(client, name.as_str());
            digits |= session.map_or(0, first_digit);
        }
        Some(digits)
    }

    /// What waits for a client.
    fn backlog(&self, client: u128) -> Backlog
        ensures { result
            ≡ watching.backlog self.now.state.now self.now.capacity self.now.bytes client }
    {
        Backlog {
            entries: self.state.waiting(client).unwrap_or(0),
            bytes: self.state.waiting_bytes(client).unwrap_or(0),
            most_entries: self.capacity,
            most_bytes: self.bytes,
        }
    }

    /// A client that is listed may be pressed no more, since it took something, or ended: it is no
    /// backend, or less than half waits for it of what may. Answers whether that is so.
    pub fn relieve(&self, client: u128, listed: &mut Vec<Pressed>) -> bool
        ensures over { result ≡ (watching.is_listed client listed.old.items
            && watching.is_over self.now.state.now self.now.space.now
            self.now.capacity self.now.bytes client) }
        ensures left { listed.new.items
            ≡ (if result then watching.without client listed.old.items else listed.old.items) }
    {
        let is_over = is_listed(client, listed.as_slice())
            && (!self.is_backend(client) || self.backlog(client).is_low());
        if is_over {
            strike(client, listed);
        }
        is_over
    }

    /// Lists a client that is pressed, where it isn't listed yet. Refused for want of memory.
    fn list(&self, client: u128, listed: &mut Vec<Pressed>) -> Result<(), AllocError>
        ensures ok { OnOk result (Lists self.now.state.now self.now.space.now
            self.now.capacity self.now.bytes listed.old.items client listed.new.items) }
    {
        if is_listed(client, listed.as_slice()) || !self.backlog(client).is_much() {
            return Ok(());
        }
        let Some(backend) = self.backend(client) else {
            return Ok(());
        };
        let digits = self.digits_told(backend);
        listed.push(Pressed { client, digits })?;
        Ok(())
    }

    /// Lists those of these clients that are pressed.
    fn list_all(&self, clients: &[u128], listed: &mut Vec<Pressed>) -> Result<(), AllocError>
        ensures ok { OnOk result (ListsAll self.now.state.now self.now.space.now
            self.now.capacity self.now.bytes listed.old.items clients.now listed.new.items) }
    {
        for client in clients {
            self.list(*client, listed)?;
        }
        Ok(())
    }

    /// Lists the backends that are pressed, of those that got something of a client's event. Where
    /// a backend brought it, none is listed. Where there is no memory for one, the rest isn't
    /// listed.
    pub fn press(
        &self,
        client: u128,
        got: &Answered,
        listed: &mut Vec<Pressed>,
    ) -> Result<(), AllocError>
        ensures ok { OnOk result (ListsReceivers self.now.state.now self.now.space.now
            self.now.capacity self.now.bytes client got.now listed.old.items listed.new.items) }
    {
        if self.is_backend(client) {
            return Ok(());
        }
        let lists = lists_of(got);
        for clients in lists {
            self.list_all(clients.as_slice(), listed)?;
        }
        Ok(())
    }

    /// How many broadcasts of a client's event got to no backend; none where a backend brought it.
    pub fn unheard(&self, client: u128, got: &Answered) -> u64
        ensures { result ≡ watching.unheard self.now.state.now self.now.space.now client got.now }
    {
        if self.is_backend(client) {
            return 0;
        }
        count_empty(lists_of(got)) as u64
    }
}

/// The digit with which a session id begins, of the sixteen, which have a bit each.
fn first_digit(sid: Sid) -> u16
    ensures { result ≡ digits.first_digit sid }
{
    1 << ((sid.number() >> 124) as u32)
}

/// The digit that a room is named by, if it is.
fn named_digit(room: Room) -> u16
    ensures { result ≡ digits.named_digit room }
{
    let [character] = room.bytes() else {
        return 0;
    };
    match *character {
        b'0'..=b'9' => 1 << u32::from(*character - b'0'),
        b'a'..=b'f' => 1 << u32::from(*character - b'a' + 10),
        _ => 0,
    }
}

/// The clients that got something, one list for each broadcast, without the event's own client.
fn lists_of(got: &Answered) -> &[Vec<u128>]
    ensures { map (λ ids. ids.items) result.now ≡ receivers.lists_of got.now }
{
    match got {
        Ok(Outcome::Done(done) | Outcome::Lost { done, .. } | Outcome::Ticked { done, .. }) => {
            done.clients.lists()
        }
        _ => &[],
    }
}

fn count_empty(lists: &[Vec<u128>]) -> usize
    ensures { result ≡ length (filter (λ ids. receivers.is_empty ids.items) lists.now) }
{
    lists.iter().filter(|ids| ids.is_empty()).count()
}
