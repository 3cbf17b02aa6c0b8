//! Why a server refuses something.

ghost use Rattle.std.specs.Prelude.{◌≡◌};
ghost use Rattle.metrics.specs.Reason as reason;

use events::CoreFault;
use http_edge::{EdgeError, Refusal, Target};

/// Why something was refused.
#[derive(Clone, Copy, Debug, PartialEq, Eq)]
pub enum Reason {
    /// A connection more than may be open.
    NoPlace,
    /// What came can't be read as a request.
    Unreadable,
    /// There is nothing at the path.
    NotFound,
    /// The request asks for what isn't allowed, or comes from a page that isn't served.
    NotAllowed,
    /// It is of a client that isn't there.
    UnknownClient,
    /// It is of a client that speaks over another transport, or is changing it.
    OutOfTurn,
    /// A client more than there may be.
    TooManyClients,
    /// There was no memory for it.
    OutOfMemory,
    /// The app wanted what can't be done.
    BadEffect,
    /// A number of the server has come to its end, or an id was drawn twice.
    Spent,
    /// A connection more than may be open from one address.
    ManyFromAddress,
}

/// All of them.
pub(crate) static REASONS: [Reason; 11] = [
    Reason::NoPlace,
    Reason::Unreadable,
    Reason::NotFound,
    Reason::NotAllowed,
    Reason::UnknownClient,
    Reason::OutOfTurn,
    Reason::TooManyClients,
    Reason::OutOfMemory,
    Reason::BadEffect,
    Reason::Spent,
    Reason::ManyFromAddress,
];

impl Reason {
    /// How it is called.
    pub fn label(self) -> &'static str
        ensures { result.now ≡ reason.label self }
    {
        match self {
            Reason::NoPlace => "no_place",
            Reason::Unreadable => "unreadable",
            Reason::NotFound => "not_found",
            Reason::NotAllowed => "not_allowed",
            Reason::UnknownClient => "unknown_client",
            Reason::OutOfTurn => "out_of_turn",
            Reason::TooManyClients => "too_many_clients",
            Reason::OutOfMemory => "out_of_memory",
            Reason::BadEffect => "bad_effect",
            Reason::Spent => "spent",
            Reason::ManyFromAddress => "many_from_address",
        }
    }

    /// Why what came is no request; none where nobody is there any more.
    pub fn of_edge(error: EdgeError) -> Option<Reason>
        ensures { result ≡ reason.of_edge error }
    {
        match error {
            EdgeError::Memory => Some(Reason::OutOfMemory),
            EdgeError::Device | EdgeError::EarlyEnd | EdgeError::TurnsSpent => None,
            EdgeError::BadHead
            | EdgeError::HeadTooLong
            | EdgeError::BodyTooLong
            | EdgeError::NoLength
            | EdgeError::NotUtf8 => Some(Reason::Unreadable),
        }
    }

    /// Why a request with this target isn't served, if it isn't.
    pub fn of_target(target: Target) -> Option<Reason>
        ensures { result ≡ reason.of_target target }
    {
        match target {
            Target::NotFound => Some(Reason::NotFound),
            Target::Refuse(Refusal::UnknownSession) => Some(Reason::UnknownClient),
            Target::Refuse(_) => Some(Reason::NotAllowed),
            _ => None,
        }
    }

    /// Why an event was refused.
    pub fn of_core(fault: CoreFault) -> Reason
        ensures { result ≡ reason.of_core fault }
    {
        match fault {
            CoreFault::Memory => Reason::OutOfMemory,
            CoreFault::UnknownClient => Reason::UnknownClient,
            CoreFault::WrongTransport
            | CoreFault::AlreadyProbing
            | CoreFault::AlreadyUpgraded
            | CoreFault::NotProbing => Reason::OutOfTurn,
            CoreFault::TooManyClients => Reason::TooManyClients,
            CoreFault::IdTaken | CoreFault::Spent => Reason::Spent,
            CoreFault::BadEffect | CoreFault::BadConfig => Reason::BadEffect,
        }
    }
}
