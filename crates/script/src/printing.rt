//! What a script line prints.

ghost use Rattle.std.specs.Prelude.{◌≡◌, ◌++◌, Some, IfOk, OnOk, string_bytes};
ghost use Rattle.script.specs.Printing.{fault_name, reason_name, ids_text, frame_text, frames_text, is_read, posted_of};

use events::{Cause, CoreFault, Done, WsFrame};
use journal::{Swept, Totals};
use room_maps::RoomError;
use std::alloc::{AllocError, Global};
use std::fmt;
use terms::{Sid, Text, ascii_text, id_text, name_of};

/// The answer to one line of a script. Its `Display` is the line that is printed.
#[derive(Drop)]
pub enum Answer<'a> {
    /// A client was opened under this name; it was sent this open packet.
    Opened(&'a str, Text),
    /// What became of a payload or a frame.
    Posted(Posted),
    /// It was done, and there is no more to say of it.
    Ok,
    /// The client was closed.
    Closed(Cause),
    /// The payload that waited for the client of this name, if any did.
    Taken(&'a str, Option<Text>),
    /// The frames that waited for a client, each in a line of its own.
    Frames(Text),
    /// The client of this name probes; it was sent this text.
    Probed(&'a str, Text),
    /// Whether a ping is due to the client of this name, and why it was given up, where it was.
    Ticked(&'a str, bool, Option<Cause>),
    /// The client is gone, and its sessions have no space.
    NotSaved,
    /// The ids of sockets, with a space before each, or `None` where there are none.
    Members(Option<Text>),
    /// What the server has counted.
    Totals(Totals),
    /// The number of steps that an epoch has.
    Sealed(usize),
    /// What the server dropped.
    Swept(Swept),
    /// The server refused the event.
    Refused(CoreFault),
    /// There is no such namespace.
    UnknownNamespace,
    /// The line is none that is served.
    BadLine,
}

/// What became of a payload or a frame.
#[derive(Clone, Copy)]
pub struct Posted {
    /// Whether it was read.
    read: bool,
    /// Why the first effect was skipped that the rooms didn't allow.
    skipped: Option<RoomError>,
    /// Whether an answer came to a question that isn't open.
    ignored: bool,
    /// Why the client was closed, where it was.
    closed: Option<Cause>,
}

impl Posted {
    /// What is told of packets that were worked on, where they were read or not.
    pub(crate) fn of(done: &Done, read: bool) -> Posted
        ensures { result ≡ posted_of done.now read }
    {
        Posted {
            read,
            skipped: done.skipped,
            ignored: done.ignored,
            closed: done.closed,
        }
    }
}

/// Whether a payload was read. It wasn't where it closed the client for what no payload is, before
/// any packet of it was worked on.
pub(crate) fn is_read(done: &Done) -> bool
    ensures { result ≡ is_read done.now }
{
    done.packets != 0
        || !matches!(
            done.closed,
            Some(Cause::Empty | Cause::BadType | Cause::BadBase64)
        )
}

/// The ids of sockets, each after a space.
pub(crate) fn id_list(alloc: Global, sids: &[Sid]) -> Result<Text, AllocError>
    ensures { IfOk result (λ list. list ≡ ids_text sids.now) }
{
    let mut list = String::new(alloc);
    for sid in sids {
        list.push_str(" ")?;
        list.push_str(ascii_text(&id_text(sid.number())))?;
    }
    Ok(Text::from_string(list))
}

/// The frames for the client of this name, each in a line of its own.
pub(crate) fn frame_lines(alloc: Global, name: &str, frames: &[WsFrame]) -> Result<Text, AllocError>
    ensures { IfOk result (λ lines. lines ≡ frames_text name.now frames.now) }
{
    let mut lines = String::new(alloc);
    let Some((first, rest)) = frames.split_first() else {
        return Ok(Text::from_string(lines));
    };
    push_frame(alloc, &mut lines, name, first)?;
    for frame in rest {
        lines.push_str("\n")?;
        push_frame(alloc, &mut lines, name, frame)?;
    }
    Ok(Text::from_string(lines))
}

/// Adds the line of a frame.
fn push_frame(
    alloc: Global,
    lines: &mut String,
    name: &str,
    frame: &WsFrame,
) -> Result<(), AllocError>
    ensures { OnOk result
        (string_bytes lines.new ≡ string_bytes lines.old ++ frame_text name.now frame.now) }
{
    lines.push_str(name)?;
    match frame {
        WsFrame::Text(text) => {
            lines.push_str(" text ")?;
            lines.push_str(text.as_str())
        }
        WsFrame::Bytes(bytes) => {
            lines.push_str(" bytes ")?;
            lines.push_str(hex::encode(alloc, bytes.as_slice())?.as_str())
        }
    }
}

impl fmt::Display for Answer<'_> {
    ghost use Rattle.script.specs.Printing.{answer_text};

    ghost output = { λ answer. Some (answer_text answer) };

    fn fmt<W: fmt::Write>(&self, f: &mut fmt::Formatter<W>) -> fmt::Result {
        match self {
            Answer::Opened(name, text)
            | Answer::Probed(name, text)
            | Answer::Taken(name, Some(text)) => write!(f, "{name} {}", text.as_str()),
            Answer::Posted(posted) => write!(f, "{posted}"),
            Answer::Ok => f.write_str("ok"),
            Answer::Closed(cause) => write!(f, "closed: {}", cause.name()),
            Answer::Taken(name, None) => write!(f, "{name} -"),
            Answer::Frames(lines) => f.write_str(lines.as_str()),
            Answer::Ticked(name, _, Some(cause)) => { write!(f, "{name} closed: {}", cause.name()) }
            Answer::Ticked(name, true, None) => write!(f, "{name} ping"),
            Answer::Ticked(name, false, None) => write!(f, "{name} nothing"),
            Answer::NotSaved => f.write_str("ok, not saved: SavedFull"),
            Answer::Members(Some(ids)) => write!(f, "members{}", ids.as_str()),
            Answer::Members(None) => f.write_str("members -"),
            Answer::Totals(counted) => write!(f, "{counted}"),
            Answer::Sealed(steps) => write!(f, "sealed {steps}"),
            Answer::Swept(swept) => write!(f, "swept log {}, saved {}", swept.log, swept.saved),
            Answer::Refused(fault) => write!(f, "refused: {}", fault_name(*fault)),
            Answer::UnknownNamespace => f.write_str("refused: UnknownNamespace"),
            Answer::BadLine => f.write_str("bad line"),
        }
    }
}

impl fmt::Display for Posted {
    ghost use Rattle.script.specs.Printing.{posted_text};

    ghost output = { λ posted. Some (posted_text posted) };

    fn fmt<W: fmt::Write>(&self, f: &mut fmt::Formatter<W>) -> fmt::Result {
        f.write_str(if self.read { "ok" } else { "400" })?;
        if let Some(reason) = self.skipped {
            write!(f, ", skipped: {}", reason_name(reason))?;
        }
        if self.ignored {
            f.write_str(", ignored")?;
        }
        if let Some(cause) = self.closed {
            write!(f, ", closed: {}", cause.name())?;
        }
        Ok(())
    }
}

fn fault_name(fault: CoreFault) -> &'static str
    ensures { result.now ≡ fault_name fault }
{
    name_of!(fault, CoreFault: Memory UnknownClient WrongTransport AlreadyProbing AlreadyUpgraded
        NotProbing TooManyClients IdTaken Spent BadEffect BadConfig)
}

fn reason_name(reason: RoomError) -> &'static str
    ensures { result.now ≡ reason_name reason }
{
    name_of!(reason, RoomError: Memory UnknownSocket AlreadyIn NotIn OwnRoom TooManyRooms SidTaken)
}
