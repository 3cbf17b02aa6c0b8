//! Which targets make a peer, and what is replied where none is made.

use http_edge::EdgeError::{
    self, BadHead, BodyTooLong, Device, EarlyEnd, HeadTooLong, Memory, NoLength, NotUtf8,
    TurnsSpent,
};
use http_edge::{Refusal, Target};
use peers::{PollRequest, Response, SocketRequest, response_to_fault, response_to_target};
use std::alloc::Global;

/// The status and the body of a response, or nothing.
type Said = Option<(u16, &'static str)>;

const REFUSED: Said = Some((400, "{\"code\":3,\"message\":\"Bad request\"}"));

fn said(response: Option<Response<'static>>) -> Said {
    let response = response?;
    Some((response.status.line().0, response.body))
}

#[test]
fn where_no_peer_is_made(rt: HostRuntime) {
    static FAULTS: [(EdgeError, Said); 9] = [
        (Memory, Some((503, ""))),
        (Device, None),
        (EarlyEnd, None),
        (BadHead, REFUSED),
        (HeadTooLong, REFUSED),
        (BodyTooLong, Some((413, ""))),
        (NoLength, REFUSED),
        (NotUtf8, REFUSED),
        (TurnsSpent, None),
    ];
    for (fault, want) in FAULTS {
        assert!(rt; said(response_to_fault(fault)) == want, "{fault:?}");
    }
}

/// The client of the request over HTTP that a target asks for, if any.
fn asked_of(alloc: Global, target: Target) -> Option<Option<u128>> {
    match PollRequest::of(target, String::new(alloc))? {
        PollRequest::Open => Some(None),
        PollRequest::Get { client } | PollRequest::Post { client, .. } => Some(Some(client)),
    }
}

/// What a target is replied where it makes no peer, whose request it is, and which WebSocket it
/// opens.
type Row = (Target, Said, Option<Option<u128>>, Option<SocketRequest>);

#[test]
fn targets(rt: HostRuntime) {
    static ROWS: [Row; 8] = [
        (Target::NotFound, Some((404, "")), None, None),
        (Target::Preflight, Some((204, "")), None, None),
        (Target::Refuse(Refusal::BadRequest), REFUSED, None, None),
        (Target::OpenSocket, None, None, Some(SocketRequest::Open)),
        (
            Target::ProbeSocket(7),
            None,
            None,
            Some(SocketRequest::Probe { client: 7 }),
        ),
        (Target::OpenPoll, None, Some(None), None),
        (Target::Poll(7), None, Some(Some(7)), None),
        (Target::Post(7), None, Some(Some(7)), None),
    ];
    for (index, (target, response, request, socket)) in ROWS.iter().enumerate() {
        assert!(rt;
            said(response_to_target(*target)) == *response,
            "target {index}"
        );
        assert!(rt; asked_of(rt.alloc(), *target) == *request, "target {index}");
        assert!(rt; SocketRequest::of(*target) == *socket, "target {index}");
    }
}
