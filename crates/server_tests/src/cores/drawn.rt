//! Ids that are in use are drawn again: that of a client, of a socket, and of a session that is
//! saved.

use crate::cores::acts::Act::{self, IsLost, Opens, Posts};
use events::{CoreError, CoreFault};
use relay::{Counter, RelayApp};
use std::alloc::{AllocError, Global};
use std::sync::ledger::Ledger;
use usual_core::{OnCore, UsualCore, UsualSettings, on_new_core};

/// The id that is drawn next, where that isn't the one after the last, what happens, and after how
/// many packets an id is taken, if one is.
static ROWS: [(Option<u128>, Act, Option<usize>); 8] = [
    (None, Opens, None),
    (None, Posts(1, "40"), None),
    (Some(1), Opens, Some(0)),
    (Some(4), Opens, None),
    (Some(2), Posts(4, "3\u{1e}40\u{1e}42[\"x\"]"), Some(1)),
    (None, IsLost(1), None),
    (Some(2), Posts(4, "40"), Some(0)),
    (Some(1), Opens, None),
];

/// The rows are played.
#[derive(Clone, Copy)]
struct AllRows;

impl OnCore for AllRows {
    type Found = Result<bool, AllocError>;

    /// Whether each row ends as it should.
    fn run<C: Ledger + Send + Sync, T: Ledger + Send + Sync>(
        self,
        alloc: Global,
        usual: &mut UsualCore<C, T>,
    ) -> Result<bool, AllocError> {
        for (next, act, taken) in ROWS {
            if let Some(id) = next {
                usual.ids = Counter::starting_at(id);
            }
            let got = usual.apply(alloc, &RelayApp, &act.event(alloc)?, 0);
            let want = taken.map(|packets| CoreError {
                fault: CoreFault::IdTaken,
                packets,
                effects: 0,
            });
            if got.err() != want {
                return Ok(false);
            }
        }
        Ok(true)
    }
}

fn goes(alloc: Global) -> bool {
    on_new_core(alloc, &UsualSettings::usual(3), AllRows) == Ok(Ok(true))
}

/// Of a run's allocations at most one is refused, so one of two runs has ample memory.
#[test]
fn ids_in_use(rt: HostRuntime) {
    assert!(rt; goes(rt.alloc()) || goes(rt.alloc()));
}
