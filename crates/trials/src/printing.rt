//! What is answered, and what is seen of a hub, in text.

use crate::words::Words;
use hub_state::{EndedSocket, State};
use journal::{BaseClient, HubError, Step, Totals, What};
use recovery::{Logged, Saved};
use std::alloc::{AllocError, Global};
use std::str;
use terms::{Entry, Room, Sid};

/// Writes an entry, followed by its attachments.
pub fn write_entry(entry: &Entry, text: &mut String) -> Result<(), AllocError> {
    write!(text, "  {}", entry.text.as_str())?;
    for part in entry.attachments.as_slice() {
        write!(text, " {:?}", part.as_slice())?;
    }
    Ok(())
}

pub fn write_entries(entries: &[Entry], text: &mut String) -> Result<(), AllocError> {
    for entry in entries {
        write_entry(entry, text)?;
    }
    Ok(())
}

pub fn write_sids(sids: &[Sid], text: &mut String) -> Result<(), AllocError> {
    write!(text, "  {}:", sids.len())?;
    for sid in sids {
        write!(text, " {}", sid.number())?;
    }
    Ok(())
}

pub fn write_totals(totals: Totals, text: &mut String) -> Result<(), AllocError> {
    let (commands, placed, dropped) = (totals.commands, totals.placed, totals.dropped);
    let (taken, discarded, waiting) = (totals.taken, totals.discarded, totals.waiting);
    write!(
        text,
        "  {commands} {placed} {dropped} {taken} {discarded} {waiting}"
    )
}

fn name_of(step: &Step) -> &'static str {
    match step.what {
        What::Opened(_) => "opened",
        What::Attached(_) => "attached",
        What::Recovered(_) => "recovered",
        What::Joined(_, _) => "joined",
        What::Left(_, _) => "left",
        What::Cast(_) => "cast",
        What::Told(_) => "told",
        What::Took(_, _, _) => "took",
        What::Parked(_) => "parked",
        What::Ended(_, _) => "ended",
        What::Closed(_) => "closed",
        What::Swept => "swept",
        What::AllJoined(_) => "all-joined",
        What::AllLeft(_) => "all-left",
        What::AllEnded(_) => "all-ended",
    }
}

fn write_steps(steps: &[Step], text: &mut String) -> Result<(), AllocError> {
    write!(text, "  {}:", steps.len())?;
    for step in steps {
        write!(text, " {}", name_of(step))?;
    }
    Ok(())
}

fn write_rooms(rooms: &[Room], text: &mut String) -> Result<(), AllocError> {
    for room in rooms {
        text.push(' ')?;
        write_room(room, text)?;
    }
    text.push_str(" |")
}

/// A room's name is a text.
fn write_room(room: &Room, text: &mut String) -> Result<(), AllocError> {
    match str::from_utf8(room.bytes()) {
        Ok(name) => text.push_str(name),
        Err(_) => Ok(()),
    }
}

/// Sockets that ended: of each its client, the place of its namespace, its ids, how it ended, and the
/// rooms that it was in.
fn write_ended(ended_sockets: &[EndedSocket], text: &mut String) -> Result<(), AllocError> {
    for gone in ended_sockets {
        let (socket, ending) = (gone.socket, gone.ending);
        let (sid, pid) = (socket.sid.number(), socket.pid.number());
        write!(
            text,
            "  {} {} {sid} {pid} {ending:?}",
            socket.client, socket.space
        )?;
        write_rooms(&gone.rooms, text)?;
    }
    Ok(())
}

fn write_session(saved: &Saved, text: &mut String) -> Result<(), AllocError> {
    let (pid, sid) = (saved.pid.number(), saved.sid.number());
    write!(text, "  {pid} {sid} {} {}", saved.lost_at, saved.space)?;
    write_rooms(&saved.rooms, text)
}

fn write_logged(logged: &Logged, text: &mut String) -> Result<(), AllocError> {
    write!(text, "  {} {} {}", logged.offset, logged.at, logged.space)?;
    write_rooms(&logged.rooms, text)?;
    write_rooms(&logged.excepted, text)?;
    write_entry(&logged.entry, text)
}

/// Writes what a line asks of a hub.
pub fn see(
    alloc: Global,
    state: &State,
    words: &Words<'_>,
    text: &mut String,
) -> Result<(), HubError> {
    if words.word(0) == "members" {
        let sids = state.members(alloc, words.word(1), words.room(2))?;
        return Ok(write_sids(&sids, text)?);
    }
    Ok(tell(state, words, text)?)
}

fn tell(state: &State, words: &Words<'_>, text: &mut String) -> Result<(), AllocError> {
    match words.word(0) {
        "totals" => write_totals(state.totals(), text),
        "client" => write_client(state, words, text),
        "waits" => write_waiting(state, words.id(1), text),
        "front" => write_front(state, words, text),
        "connected" => write!(text, "  {}", state.is_connected(words.sid(1))),
        "next" => write!(text, "  {:?}", state.next_offset()),
        "held" => write!(text, "  {}", state.held()),
        "space" => write!(text, "  {}", state.has_space(words.word(1))),
        "steps" => write_steps(state.steps(), text),
        "ended" => write_ended(state.ended_sockets(), text),
        "base" => write_base(state, text),
        "kept" => write_kept(state, text),
        "mirrors" => write_mirrors(state, text),
        _ => text.push_str("  no such command"),
    }
}

/// Whether a client is open, its socket in a namespace, how many entries wait for it, and how many
/// bytes they have.
fn write_client(state: &State, words: &Words<'_>, text: &mut String) -> Result<(), AllocError> {
    let client = words.id(1);
    let sid = state.socket_of(client, words.word(2));
    write!(text, "  {} {:?}", state.is_open(client), sid)?;
    let (waiting, bytes) = (state.waiting(client), state.waiting_bytes(client));
    write!(text, " {waiting:?} {bytes:?}")
}

fn write_front(state: &State, words: &Words<'_>, text: &mut String) -> Result<(), AllocError> {
    match state.front(words.id(1), words.number(2) as usize) {
        Some(entry) => write!(text, "  {}", entry.text.as_str()),
        None => text.push_str("  none"),
    }
}

/// All that waits for a client.
fn write_waiting(state: &State, client: u128, text: &mut String) -> Result<(), AllocError> {
    for index in 0..state.waiting(client).unwrap_or(0) {
        if let Some(entry) = state.front(client, index) {
            write_entry(entry, text)?;
        }
    }
    Ok(())
}

/// The clients of the base, how many broadcasts its log has, and how many sessions it saves.
fn write_base(state: &State, text: &mut String) -> Result<(), AllocError> {
    let base = state.base();
    text.push(' ')?;
    for client in &base.clients {
        write!(text, " {}", client.client)?;
    }
    write!(text, " log {} saved {}", base.log.len(), base.saved.len())
}

/// A client of the base: its sockets, each with the place of its namespace and its ids, and what
/// waits.
fn write_base_client(client: &BaseClient, text: &mut String) -> Result<(), AllocError> {
    write!(text, "  client {}", client.client)?;
    for (index, sid, pid) in &client.sockets {
        write!(text, " {index} {} {}", sid.number(), pid.number())?;
    }
    for entry in &client.waiting {
        write_entry(entry, text)?;
    }
    Ok(())
}

/// The whole base: its moment, its next offset and its counts, its clients, who is in which room,
/// its sessions and its log.
fn write_kept(state: &State, text: &mut String) -> Result<(), AllocError> {
    let base = state.base();
    write!(text, "  at {} next {:?}", base.at, base.next)?;
    write_totals(base.totals, text)?;
    for client in &base.clients {
        write_base_client(client, text)?;
    }
    for (sid, room) in &base.pairs {
        write!(text, "  {} in ", sid.number())?;
        write_room(room, text)?;
    }
    for session in &base.saved {
        write_session(session, text)?;
    }
    for logged in &base.log {
        write_logged(logged, text)?;
    }
    Ok(())
}

/// How many sockets and how many rooms the maps of rooms have.
fn write_mirrors(state: &State, text: &mut String) -> Result<(), AllocError> {
    let (inside, members) = state.mirrors();
    write!(text, "  {} {}", inside.len(), members.len())
}
