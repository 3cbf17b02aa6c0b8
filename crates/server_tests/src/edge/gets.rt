//! GETs that wait, served by a core.

use crate::edge::asker::{Asker, Still, asker};
use crate::edge::served::{End, serve};
use events::Event;
use peers::PollRequest;
use relay::RelayApp;
use std::alloc::Global;
use std::sync::ledger::Ledger;
use usual_core::{OnCore, UsualCore, UsualSettings, on_new_core};

/// What is done with a GET of a client, and seen of it.
#[derive(Clone, Copy)]
enum Move {
    /// So many events at the most are served, and it ends so.
    Serve(u64, End),
    /// It is given up.
    GiveUp,
    /// It needn't be driven until something is put for its client, or has to.
    IsIdle(bool),
    /// All that was written ends so.
    Writes(&'static [u8]),
    /// Its client probes.
    Probe,
}

use Move::{GiveUp, IsIdle, Probe, Serve, Writes};

const NOOP: &[u8] = b"\r\n\r\n6";

const CLOSE: &[u8] = b"\r\n\r\n1";

const REFUSED: &[u8] = b"\r\n\r\n{\"code\":3,\"message\":\"Bad request\"}";

/// Two GETs of a client, the first and the second, one pair after another. The clients 1 and 2
/// poll.
static ROWS: [(u128, &[(usize, Move)]); 4] = [
    // For one nothing comes: it asks 1,200 times, and then ends.
    (
        1,
        &[
            (1, Serve(1, End::Spent)),
            (1, IsIdle(false)),
            (1, Serve(1_199, End::Spent)),
            (1, IsIdle(true)),
            (1, Serve(2, End::Spent)),
            (1, Serve(1, End::Over)),
            (1, Writes(NOOP)),
        ],
    ),
    // One that is given up ends with its next event, and waits no more.
    (
        1,
        &[
            (1, GiveUp),
            (1, Serve(3, End::Spent)),
            (1, GiveUp),
            (1, Serve(1, End::Spent)),
            (1, Serve(1, End::Over)),
            (1, Writes(NOOP)),
        ],
    ),
    // A client that probes is answered by a noop packet.
    (
        1,
        &[
            (1, Serve(1, End::Spent)),
            (1, Probe),
            (1, Serve(9, End::Over)),
            (1, Writes(NOOP)),
        ],
    ),
    // One beside another that waits ends both.
    (
        2,
        &[
            (1, Serve(3, End::Spent)),
            (2, Serve(9, End::Over)),
            (1, Serve(9, End::Over)),
            (2, Writes(REFUSED)),
            (1, Writes(CLOSE)),
        ],
    ),
];

fn getter(alloc: Global, client: u128) -> Asker<Still> {
    asker(alloc, Still, PollRequest::Get { client }, 1_000)
}

/// Opens a client by a request.
fn opens<C: Ledger, T: Ledger>(alloc: Global, usual: &mut UsualCore<C, T>) -> bool {
    let mut peer = asker(alloc, Still, PollRequest::Open, 1_000);
    serve(alloc, usual, &mut peer, 1) == End::Spent
}

/// Whether it goes as the move says.
fn goes<C: Ledger, T: Ledger>(
    alloc: Global,
    usual: &mut UsualCore<C, T>,
    peer: &mut Asker<Still>,
    client: u128,
    one: Move,
) -> bool {
    match one {
        Serve(most, end) => serve(alloc, usual, peer, most) == end,
        GiveUp => {
            peer.give_up();
            true
        }
        IsIdle(idle) => peer.is_idle() == idle,
        Writes(end) => peer.wire_mut().get_mut().written.as_slice().ends_with(end),
        Probe => usual
            .apply(alloc, &RelayApp, &Event::Probe { client }, 0)
            .is_ok(),
    }
}

/// Makes these moves with two new GETs of a client. Says whether all goes as they say.
fn all_go<C: Ledger, T: Ledger>(
    alloc: Global,
    usual: &mut UsualCore<C, T>,
    client: u128,
    moves: &[(usize, Move)],
) -> bool {
    let (mut first, mut second) = (getter(alloc, client), getter(alloc, client));
    let mut is_right = true;
    for (index, one) in moves {
        let is_so = match *index {
            1 => goes(alloc, usual, &mut first, client, *one),
            _ => goes(alloc, usual, &mut second, client, *one),
        };
        is_right = is_so && is_right;
    }
    is_right
}

/// Plays all rows, and gives the index of the first one that doesn't go as it should, if any.
#[derive(Clone, Copy)]
struct AllRows;

impl OnCore for AllRows {
    type Found = Option<usize>;

    fn run<C: Ledger + Send + Sync, T: Ledger + Send + Sync>(
        self,
        alloc: Global,
        usual: &mut UsualCore<C, T>,
    ) -> Option<usize> {
        if !opens(alloc, usual) || !opens(alloc, usual) {
            return Some(ROWS.len());
        }
        for (index, (client, moves)) in ROWS.iter().enumerate() {
            if !all_go(alloc, usual, *client, *moves) {
                return Some(index);
            }
        }
        None
    }
}

/// Of a run's allocations at most one is refused, so one of two runs has ample memory.
#[test]
fn gets_that_wait(rt: HostRuntime) {
    let once = || on_new_core(rt.alloc(), &UsualSettings::usual(3), AllRows);
    let (first, second) = (once(), once());
    assert!(rt;
        first == Ok(None) || second == Ok(None),
        "{first:?} {second:?}"
    );
}
