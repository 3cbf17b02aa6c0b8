//! The answers over HTTP.

ghost use Rattle.std.specs.Prelude.{◌≡◌, Some, cond, option_map};
ghost use Rattle.peers.specs.Responses as responses;
ghost use Rattle.peers.specs.Responses.{answer_to, plain_response};

use crate::moments::NOOP;
use crate::poll_stage::{PollStage, waits_on};
use events::{Answered, Cause, CoreFault, Outcome};
use http_edge::{EdgeError, Refusal, Status, Target, refusal_body};

/// An answer over HTTP.
#[derive(Drop)]
pub struct Response<'b> {
    pub status: Status,
    pub body: &'b str,
}

/// The answer where no request was read, or none where there is nobody to be answered.
pub fn response_to_fault(fault: EdgeError) -> Option<Response<'static>>
    ensures { option_map plain_response result ≡ responses.of_edge fault }
{
    match fault {
        EdgeError::Memory => Some(response_with(Status::Unavailable, "")),
        EdgeError::Device | EdgeError::EarlyEnd | EdgeError::TurnsSpent => None,
        EdgeError::BodyTooLong => Some(response_with(Status::TooLarge, "")),
        EdgeError::BadHead | EdgeError::HeadTooLong | EdgeError::NoLength | EdgeError::NotUtf8 => {
            refused(Refusal::BadRequest)
        }
    }
}

/// The answer where no peer serves a target, or none.
pub fn response_to_target(target: Target) -> Option<Response<'static>>
    ensures { option_map plain_response result ≡ responses.of_target target }
{
    match target {
        Target::NotFound => Some(response_with(Status::NotFound, "")),
        Target::Refuse(refusal) => refused(refusal),
        Target::Preflight => Some(response_with(Status::NoContent, "")),
        _ => None,
    }
}

fn response_with(status: Status, body: &str) -> Response<'_>
    ensures { plain_response result ≡ record { status = status; body = body.now } }
{
    Response { status, body }
}

fn refused(refusal: Refusal) -> Option<Response<'static>>
    ensures { option_map plain_response result ≡ Some (responses.refused refusal) }
{
    Some(response_with(Status::BadRequest, refusal_body(refusal)))
}

/// The answer where an event was refused, of a GET that was begun or of another request.
fn response_to_refusal(fault: CoreFault, begun: bool) -> Option<Response<'static>>
    ensures { option_map plain_response result
        ≡ cond begun (responses.of_begun fault) (responses.of_refusal fault) }
{
    match fault {
        CoreFault::UnknownClient if begun => Some(response_with(Status::Success, "1")),
        CoreFault::UnknownClient => refused(Refusal::UnknownSession),
        CoreFault::WrongTransport => refused(Refusal::BadRequest),
        fault if !begun && waits_on(fault) => Some(response_with(Status::Unavailable, "")),
        _ => None,
    }
}

/// What is answered over HTTP to a peer at this stage, when its event got this answer.
pub(crate) fn response_to<'g>(stage: &PollStage, got: &'g Answered) -> Option<Response<'g>>
    ensures { option_map plain_response result ≡ answer_to stage.now got.now }
{
    let body = match (stage, got) {
        (PollStage::Opening, Ok(Outcome::Opened(opening))) => opening.text.as_str(),
        // A POST is refused where its client was closed since nothing of it was read.
        (PollStage::Posting { .. }, Ok(Outcome::Done(done))) => match (done.packets, done.closed) {
            (0, Some(Cause::Empty | Cause::BadType | Cause::BadBase64)) => {
                return refused(Refusal::BadRequest);
            }
            _ => "ok",
        },
        // Another GET waits.
        (PollStage::Beginning { .. }, Ok(Outcome::Done(done))) => match done.closed {
            Some(Cause::DoubleGet) => return refused(Refusal::BadRequest),
            _ => return None,
        },
        (PollStage::Taking { .. }, Ok(Outcome::Payload(text))) => text.as_str(),
        (PollStage::Ending { .. }, Ok(Outcome::Done(_))) => NOOP,
        (
            PollStage::Opening | PollStage::Posting { .. } | PollStage::Beginning { .. },
            Err(error),
        ) => return response_to_refusal(error.fault, false),
        (PollStage::Taking { .. } | PollStage::Ending { .. }, Err(error)) => {
            return response_to_refusal(error.fault, true);
        }
        _ => return None,
    };
    Some(response_with(Status::Success, body))
}
