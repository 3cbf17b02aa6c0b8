//! Requests that end, break or take too long while they are read.

use crate::edge::spoken::{Piece, Spoken};
use http_edge::{EdgeError, OnStream, Request, read_request};
use std::alloc::Global;

static POST: &[u8] = b"POST /socket.io/?transport=polling HTTP/1.1\r\nContent-Length: 2\r\n\r\n40";

/// What is read in so many turns of so many bytes of a POST, which come one by one. Behind them the
/// stream breaks or ends.
fn read(alloc: Global, count: usize, breaks: bool, turns: u64) -> Result<Request, EdgeError> {
    let mut pieces = Vec::new(alloc);
    for at in 0..count {
        let end = at.saturating_add(1);
        pieces.push(Piece::Bytes(POST.get(at..end).unwrap_or(b"")))?;
    }
    if breaks {
        pieces.push(Piece::Fail)?;
    }
    let mut wire = OnStream::new(Spoken::new(alloc, pieces, 0));
    read_request(alloc, &mut wire, turns)
}

/// Why that isn't read. Where memory was refused it is asked again: of a run's allocations at most
/// one is, so the second answer is that of ample memory.
fn fault(alloc: Global, count: usize, breaks: bool, turns: u64) -> Option<EdgeError> {
    match read(alloc, count, breaks, turns) {
        Err(EdgeError::Memory) => read(alloc, count, breaks, turns).err(),
        answer => answer.err(),
    }
}

#[test]
fn turns(rt: HostRuntime) {
    let length = POST.len() as u64;
    for (turns, want) in [
        (length.saturating_sub(1), Some(EdgeError::TurnsSpent)),
        (length, None),
        (0, Some(EdgeError::TurnsSpent)),
    ] {
        let got = fault(rt.alloc(), POST.len(), false, turns);
        assert!(rt; got == want, "in {turns}");
    }
}

#[test]
fn fails_at_each_byte(rt: HostRuntime) {
    for count in 0..POST.len() {
        for (breaks, want) in [(true, EdgeError::Device), (false, EdgeError::EarlyEnd)] {
            let got = fault(rt.alloc(), count, breaks, 1_000);
            assert!(rt; got == Some(want), "after {count}, breaks: {breaks}");
        }
    }
}
