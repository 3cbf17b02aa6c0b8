//! A payload whose growths are refused.

use crate::cores::acts::Act::{self, Opens, Posts, Takes};
use events::{CoreError, CoreFault};
use hub_state::State;
use relay::RelayApp;
use std::alloc::Global;
use std::sync::ledger::Ledger;
use terms::Room;
use usual_core::{OnCore, UsualCore, UsualSettings, on_new_core};

/// Two clients join a room. The first one joins another room, and speaks to the first.
static JOINED: [Act; 6] = [
    Opens,
    Posts(1, "40\u{1e}42[\"join\",\"r\"]"),
    Takes(1),
    Opens,
    Posts(4, "40\u{1e}42[\"join\",\"r\"]"),
    Takes(4),
];

const TWO_PACKETS: Act = Posts(1, "42[\"join\",\"q\"]\u{1e}42[\"say\",\"r\",\"x\"]");

/// How many of the two packets are done, by what the hub tells: the members of the other room, the
/// commands and the entries that were placed.
fn done_of(alloc: Global, state: &State) -> Option<(usize, u64, u64)> {
    let members = state.members(alloc, "/", Room::read("q")?).ok()?;
    let totals = state.totals();
    Some((members.len(), totals.commands, totals.placed))
}

/// The same where the payload ended so: both are done, or so many, of which each has one effect.
fn done_by(before: (usize, u64, u64), error: Option<CoreError>) -> Option<(usize, u64, u64)> {
    let (_, commands, placed) = before;
    match error {
        None => Some((1, commands.checked_add(2)?, placed.checked_add(1)?)),
        Some(error) if error.fault == CoreFault::Memory && error.packets <= 1 => {
            let effects = error.packets.checked_add(error.effects)?;
            Some((effects, commands.checked_add(effects as u64)?, placed))
        }
        Some(_) => None,
    }
}

/// Why this is refused, if it is.
fn refusal<C: Ledger, T: Ledger>(
    alloc: Global,
    usual: &mut UsualCore<C, T>,
    act: Act,
) -> Option<Option<CoreError>> {
    let event = act.event(alloc).ok()?;
    Some(usual.apply(alloc, &RelayApp, &event, 0).err())
}

/// Whether so much of the payload is done as is told; nothing where memory was refused elsewhere.
#[derive(Clone, Copy)]
struct TellsHowFar;

impl OnCore for TellsHowFar {
    type Found = Option<bool>;

    fn run<C: Ledger + Send + Sync, T: Ledger + Send + Sync>(
        self,
        alloc: Global,
        usual: &mut UsualCore<C, T>,
    ) -> Option<bool> {
        for act in JOINED {
            if refusal(alloc, usual, act)?.is_some() {
                return None;
            }
        }
        let before = done_of(alloc, usual.core.hub().state())?;
        let error = refusal(alloc, usual, TWO_PACKETS)?;
        let after = done_of(alloc, usual.core.hub().state())?;
        Some(done_by(before, error) == Some(after))
    }
}

#[test]
fn a_refused_growth_ends_between_two_packets(rt: HostRuntime) {
    for _ in 0..2 {
        if let Ok(Some(is_right)) = on_new_core(rt.alloc(), &UsualSettings::usual(3), TellsHowFar) {
            assert!(rt; is_right);
            return;
        }
    }
    panic!(rt; "no memory in two runs");
}
