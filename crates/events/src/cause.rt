//! Why the server closed a client, and how a socket ended.

ghost use Rattle.std.specs.Prelude.{◌≡◌, ◌≢◌};
ghost use Rattle.eio_wire.specs.declared.error.WireError.TheVariants as wire;
ghost use Rattle.sio_wire.specs.declared.error.SioError.TheVariants as sio;
ghost use Rattle.events.specs.Cause.{cause_name, cause_of_wire, cause_of_sio};
ghost use Rattle.events.specs.Ending as words;

use eio_wire::WireError;
use journal::{Ending, Side};
use sio_wire::SioError;
use terms::name_of;

/// Why the server closed a client, or that the client closed itself.
#[derive(Clone, Copy, Debug, PartialEq, Eq)]
pub enum Cause {
    /// An Engine.IO packet with no type.
    Empty,
    /// An Engine.IO packet of an unknown type.
    BadType,
    /// A binary Engine.IO packet that is no base64.
    BadBase64,
    /// A Socket.IO packet of an unknown type.
    BadKind,
    /// A binary packet with no number of attachments.
    BadCount,
    /// An acknowledgement id that is too long.
    BadId,
    /// A payload that is no JSON.
    BadJson,
    /// A payload or an id that the packet's type doesn't allow, or a control character in the
    /// namespace.
    BadShape,
    /// An event with a name that the protocol keeps for itself.
    Reserved,
    /// A placeholder with no attachment.
    BadPlaceholder,
    /// More than 32 attachments.
    TooMany,
    /// A text where attachments were awaited.
    TextAwaitingBinary,
    /// An attachment where none was awaited.
    BinaryUnawaited,
    /// A packet for a namespace that the client hasn't joined.
    NotJoined,
    /// A CONNECT to a namespace that the client has joined.
    AlreadyConnected,
    /// A ping, which only the server sends.
    PingFromClient,
    /// The client closed the connection.
    ClientClosed,
    /// A GET while another one waits.
    DoubleGet,
    /// A frame that is too long, or attachments that are too long together.
    TooLong,
    /// No pong came to a ping in time.
    PingTimeout,
    /// No namespace was joined in time.
    ConnectTimeout,
    /// What the client must be told has no space in its outbox.
    OutboxFull,
}

impl Cause {
    /// The cause where a payload or a packet can't be read.
    pub fn of_wire(fault: WireError) -> Cause
        requires read { (fault ≢ wire.Memory) × (fault ≢ wire.Separator) }
        ensures { result ≡ cause_of_wire fault }
    {
        match fault {
            WireError::Empty => Cause::Empty,
            WireError::BadType => Cause::BadType,
            WireError::BadBase64 => Cause::BadBase64,
            WireError::Memory | WireError::Separator => unreachable!(),
        }
    }

    /// The cause where the assembler refuses a frame.
    pub fn of_sio(fault: SioError) -> Cause
        requires read { fault ≢ sio.Memory }
        ensures { result ≡ cause_of_sio fault }
    {
        match fault {
            SioError::BadKind => Cause::BadKind,
            SioError::BadCount => Cause::BadCount,
            SioError::BadId => Cause::BadId,
            SioError::BadJson => Cause::BadJson,
            SioError::BadShape => Cause::BadShape,
            SioError::Reserved => Cause::Reserved,
            SioError::BadPlaceholder => Cause::BadPlaceholder,
            SioError::TooMany => Cause::TooMany,
            SioError::TextAwaitingBinary => Cause::TextAwaitingBinary,
            SioError::BinaryUnawaited => Cause::BinaryUnawaited,
            SioError::Memory => unreachable!(),
        }
    }

    /// The name of the variant.
    pub fn name(self) -> &'static str
        ensures { result.now ≡ cause_name self }
    {
        name_of!(self, Cause: Empty BadType BadBase64 BadKind BadCount BadId BadJson BadShape Reserved
            BadPlaceholder TooMany TextAwaitingBinary BinaryUnawaited NotJoined AlreadyConnected
            PingFromClient ClientClosed DoubleGet TooLong PingTimeout ConnectTimeout OutboxFull)
    }
}

/// How a socket ended, in a word, as apps tell it.
pub fn ending_word(ending: Ending) -> &'static str
    ensures { result.now ≡ words.ending_word ending }
{
    match ending {
        Ending::Saved => "saved",
        Ending::Closed => "closed",
        Ending::Alone(Side::Client) => "left",
        Ending::Alone(Side::Server) => "alone",
        Ending::Together => "together",
    }
}
