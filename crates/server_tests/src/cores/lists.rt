//! A list of events, each of which is answered in its turn.

use crate::cores::acts::Act::{self, Opens, Posts, Takes};
use crate::vague::Vague;
use events::{CoreError, CoreFault, Event};
use std::alloc::{AllocError, Global};
use std::sync::ledger::Ledger;
use usual_core::{OnCore, UsualCore, UsualSettings, on_new_core};

/// What happens, and where that fails why, after how many packets and effects of the next.
static ROWS: [(Act, Option<(CoreFault, usize, usize)>); 5] = [
    (Opens, None),
    (Posts(1, "40"), None),
    (Posts(9, "40"), Some((CoreFault::UnknownClient, 0, 0))),
    (
        Posts(1, "3\u{1e}42[\"x\"]"),
        Some((CoreFault::BadEffect, 1, 1)),
    ),
    (Takes(1), None),
];

/// How many changes of the hub's state are accepted then: the client opens, its socket connects, is
/// told goodbye and ends, and the client takes.
const COMMANDS: u64 = 5;

fn parts_of(error: &CoreError) -> (CoreFault, usize, usize) {
    (error.fault, error.packets, error.effects)
}

/// All rows as one list.
#[derive(Clone, Copy)]
struct OneList;

/// The events of the rows, all at one moment.
fn events(alloc: Global) -> Result<Vec<(Event, u64)>, AllocError> {
    let mut events = Vec::new(alloc);
    for (act, _) in ROWS {
        events.push((act.event(alloc)?, 0))?;
    }
    Ok(events)
}

impl OnCore for OneList {
    type Found = Result<bool, AllocError>;

    /// Whether each row is answered as it should be, and nothing else is done.
    fn run<C: Ledger + Send + Sync, T: Ledger + Send + Sync>(
        self,
        alloc: Global,
        usual: &mut UsualCore<C, T>,
    ) -> Result<bool, AllocError> {
        let events = events(alloc)?;
        let UsualCore { core, pass, ids } = usual;
        let mut answers = Vec::with_capacity(alloc, events.len())?;
        for (event, now) in events.as_slice() {
            answers.push(core.apply(alloc, pass, &Vague, event, *now, ids))?;
        }
        let mut rows = ROWS.iter().zip(answers.as_slice());
        let are_right = rows.all(|((_, want), got)| *want == got.as_ref().err().map(parts_of));
        let is_whole = answers.len() == ROWS.len();
        Ok(are_right && is_whole && core.hub().state().totals().commands == COMMANDS)
    }
}

fn goes(alloc: Global) -> bool {
    on_new_core(alloc, &UsualSettings::usual(3), OneList) == Ok(Ok(true))
}

/// Of a run's allocations at most one is refused, so one of two runs has ample memory.
#[test]
fn a_list_of_events(rt: HostRuntime) {
    assert!(rt; goes(rt.alloc()) || goes(rt.alloc()));
}
