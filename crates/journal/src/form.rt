//! What a broadcast is to those whom it reaches (Socket.IO protocol 5, "Sending and receiving data"
//! and "Acknowledgement").

ghost use Rattle.std.specs.Prelude.{◌≡◌, ◌<◌, ◌^◌, IfSome};
ghost use Rattle.journal.specs.Broadcast.{id_of, is_logged, kind_of};

use sio_wire::Kind;

/// What a broadcast is.
#[derive(Clone, Copy, Debug, PartialEq, Eq)]
pub enum Form {
    /// An event without an id. Where it is logged it gets an offset, so that a session that comes
    /// back gets it too.
    Event { logged: bool },
    /// An event that asks each socket for an acknowledgement under this id. It is never logged.
    Question(u64),
    /// The acknowledgement of an event that came with this id. It is never logged.
    Answer(u64),
}

impl Form {
    /// Whether it gets an offset and is logged.
    pub fn is_logged(self) -> bool
        ensures { result ≡ is_logged self }
    {
        matches!(self, Form::Event { logged: true })
    }

    /// The id of its packet.
    pub fn id(self) -> Option<u64>
        ensures id { result ≡ id_of self }
        ensures fits { IfSome result (λ id. id < 2 ^ 64) }
    {
        match self {
            Form::Event { .. } => None,
            Form::Question(id) | Form::Answer(id) => Some(id),
        }
    }

    /// The type of its packet, where it has so many attachments.
    pub fn kind(self, attachments: usize) -> Kind
        ensures { result ≡ kind_of self attachments }
    {
        match (self, attachments) {
            (Form::Answer(_), 0) => Kind::Ack,
            (Form::Answer(_), _) => Kind::BinaryAck,
            (_, 0) => Kind::Event,
            _ => Kind::BinaryEvent,
        }
    }
}
