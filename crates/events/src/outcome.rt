//! What an event is answered with.

ghost use Rattle.std.specs.Prelude.{◌≡◌, ◌-◌, ◌<◌, ◌++◌, ◌∷◌, List, [], Some, map, IfOk, OnOk, vec_len, vec_capacity};
ghost use Rattle.std.specs.Arc.{arc_value};
ghost use Rattle.events.specs.Frames.{PlainFrames, frames_of, frames_taken};
ghost use Rattle.events.specs.Plain.{PlainDone, PlainReceivers, nothing_done};

use crate::cause::Cause;
use crate::event::WsFrame;
use crate::fault::CoreError;
use journal::Swept;
use room_maps::RoomError;
use std::alloc::{AllocError, Global};
use std::marker::Model;
use std::sync::Arc;
use terms::{Entry, Text};

/// What an event is answered with.
pub type Answered = Result<Outcome, CoreError>;

/// What became of an event that was done to its end.
#[derive(Drop)]
pub enum Outcome {
    /// A client was opened, and its open packet has this text.
    Opened(Opening),
    /// The event was worked on.
    Done(Done),
    /// A GET waits.
    Begun,
    /// This payload was taken.
    Payload(Text),
    /// These frames were taken.
    Frames(Frames),
    /// Nothing was there to be taken.
    Nothing,
    /// A probe runs, and this text answers it.
    Probed(Text),
    /// The client is gone, and its sessions were saved or not. The app may have sent events then.
    Lost { saved: bool, done: Done },
    /// A ping is due now or not, and the client was given up where it was closed. The app may have
    /// sent events then.
    Ticked { ping: bool, done: Done },
    /// So much was dropped.
    Swept(Swept),
}

/// A client that was opened.
#[derive(Drop)]
pub struct Opening {
    /// Its session id.
    pub client: u128,
    /// The text of its open packet.
    pub text: Text,
}

/// What was done of an event. In a contract it is plain data.
#[derive(Drop)]
pub struct Done {
    /// The packets that were worked on, those that are ignored and one that closed the client among
    /// them. It stays at the greatest usize.
    pub packets: usize,
    /// The effects that were done of all packets together. It stays at the greatest usize.
    pub effects: usize,
    /// Why the first effect was skipped that the rooms didn't allow.
    pub skipped: Option<RoomError>,
    /// Whether an answer came to a question that isn't open.
    pub ignored: bool,
    /// Why the client was closed, where it was.
    pub closed: Option<Cause>,
    /// The clients that got something, one list for each broadcast, without the event's own client.
    pub clients: Receivers,
    /// The bytes of the attachments that came of the client's packet which isn't whole, where the
    /// event worked on packets. It stays at the greatest usize.
    pub unfinished: usize,
}

impl Model for Done {
    ghost Value = { PlainDone };

    ghost view = { λ d. record {
      packets = d.packets;
      effects = d.effects;
      skipped = d.skipped;
      ignored = d.ignored;
      closed = d.closed;
      clients = d.clients.lists;
      unfinished = d.unfinished;
    } };
}

impl Done {
    /// Nothing was done yet.
    pub fn nothing(alloc: Global) -> Done
        ensures { result ≡ nothing_done }
    {
        Done {
            packets: 0,
            effects: 0,
            skipped: None,
            ignored: false,
            closed: None,
            clients: Receivers::new(alloc),
            unfinished: 0,
        }
    }

    /// Nothing was done, and the client was closed.
    pub fn closed(alloc: Global, cause: Cause) -> Done
        ensures { result ≡ record nothing_done { closed = Some cause } }
    {
        let mut done = Done::nothing(alloc);
        done.closed = Some(cause);
        done
    }
}

/// The clients that got something, one list for each broadcast. In a contract they are these lists,
/// and how many more can be added.
#[derive(Drop)]
pub struct Receivers {
    lists: Vec<Vec<u128>>,
}

impl Model for Receivers {
    ghost Value = { PlainReceivers };

    ghost view = { λ r. record {
      lists = map (λ ids. ids.items) r.lists.items;
      free = vec_capacity r.lists - vec_len r.lists;
    } };
}

impl Receivers {
    /// Nobody yet. It takes no memory.
    pub fn new(alloc: Global) -> Receivers
        ensures { result.lists ≡ [] }
    {
        let lists = Vec::new(alloc);
        Receivers { lists }
    }

    /// The lists, in the order of the broadcasts. A client may be in several of them.
    pub fn lists(&self) -> &[Vec<u128>]
        ensures { map (λ ids. ids.items) result.now ≡ self.now.lists }
    {
        self.lists.as_slice()
    }

    /// Makes sure that one more list can be added.
    pub fn reserve(&mut self) -> Result<(), AllocError>
        ensures same { self.new.lists ≡ self.old.lists }
        ensures ok { OnOk result (0 < self.new.free) }
    {
        self.lists.reserve(1)?;
        Ok(())
    }

    /// Adds a list where one can be added.
    pub fn push(&mut self, ids: Vec<u128>)
        requires { 0 < self.old.free }
        ensures { self.new.lists ≡ self.old.lists ++ ids.items ∷ [] }
    {
        self.lists.push_reserved(ids);
    }
}

/// Frames for a WebSocket, in order, and whether more waits behind them: a ping or none, and then
/// those of entries, each shared with all who have it. In a contract they are plain data.
#[derive(Drop)]
pub struct Frames {
    ping: bool,
    entries: Vec<Arc<Entry>>,
    more: bool,
}

impl Model for Frames {
    ghost Value = { PlainFrames };

    ghost view = { λ f. record {
      list = frames_taken f.ping (map arc_value f.entries.items);
      more = f.more;
    } };
}

impl Frames {
    /// A ping first or not, and then the frames of entries. More waits behind them or not. It takes
    /// no memory.
    pub fn new(ping: bool, entries: Vec<Arc<Entry>>, more: bool) -> Frames
        ensures { result
            ≡ record { list = frames_taken ping (map arc_value entries.items); more = more } }
    {
        Frames {
            ping,
            entries,
            more,
        }
    }

    /// Whether a ping goes first, and the entries whose frames follow it.
    pub fn parts(&self) -> (bool, &[Arc<Entry>])
        ensures { self.now.list ≡ frames_taken result.0 (map arc_value result.1.now) }
    {
        (self.ping, self.entries.as_slice())
    }

    /// Whether more waits behind them.
    pub fn has_more(&self) -> bool
        ensures { result ≡ self.now.more }
    {
        self.more
    }

    /// Copies of the frames.
    pub fn copies(&self, alloc: Global) -> Result<Vec<WsFrame>, AllocError>
        ensures { IfOk result (λ frames. frames.items ≡ self.now.list) }
    {
        let (ping, entries) = self.parts();
        let mut frames = Vec::new(alloc);
        if ping {
            frames.push(WsFrame::Text(Text::copy_of(alloc, "2")?))?;
        }
        for entry in entries {
            push_frames(alloc, &mut frames, entry)?;
        }
        Ok(frames)
    }
}

/// Adds copies of the frames of an entry.
fn push_frames(alloc: Global, frames: &mut Vec<WsFrame>, entry: &Entry) -> Result<(), AllocError>
    ensures { OnOk result (frames.new.items ≡ frames.old.items ++ frames_of entry.now) }
{
    let text = entry.text.as_str();
    let mut message = String::with_capacity(alloc, text.len().saturating_add(1))?;
    message.push_str("4")?;
    message.push_str(text)?;
    frames.push(WsFrame::Text(Text::from_string(message)))?;
    for attachment in entry.attachments.as_slice() {
        frames.push(WsFrame::Bytes(attachment.clone()?))?;
    }
    Ok(())
}
