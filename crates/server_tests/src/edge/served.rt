//! How a peer is served by a core.

use events::{Peer, PeerFault};
use relay::RelayApp;
use std::alloc::Global;
use std::sync::ledger::Ledger;
use usual_core::UsualCore;

/// How it ended with a peer.
#[derive(Clone, Copy, Debug, PartialEq, Eq)]
pub enum End {
    Over,
    Failed(PeerFault),
    Spent,
}

/// One event of the peer. Says whether it had one.
fn serve_once<C: Ledger, T: Ledger, P: Peer>(
    alloc: Global,
    usual: &mut UsualCore<C, T>,
    peer: &mut P,
) -> Result<bool, PeerFault> {
    let Some((event, now)) = peer.next()? else {
        return Ok(false);
    };
    let got = usual.apply(alloc, &RelayApp, &event, now);
    peer.answer(&got)?;
    Ok(true)
}

/// Serves a peer for so many events at the most.
pub fn serve<C: Ledger, T: Ledger, P: Peer>(
    alloc: Global,
    usual: &mut UsualCore<C, T>,
    peer: &mut P,
    most: u64,
) -> End {
    for _ in 0..most {
        match serve_once(alloc, usual, peer) {
            Ok(true) => {}
            Ok(false) => return End::Over,
            Err(fault) => return End::Failed(fault),
        }
    }
    End::Spent
}
