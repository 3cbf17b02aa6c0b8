//! A new core, and what is done with it.

ghost use Rattle.std.specs.Prelude.{◌≡◌};

use crate::made_with::{PARTS, UsualSettings};
use dispatch::Core;
use events::{Answered, App, CoreError, CoreFault, Event};
use hub_gate::Locked;
use hub_totals::Pass;
use journal::Totals;
use relay::Counter;
use std::alloc::Global;
use std::marker::Brand;
use std::sync::ledger::{Blank, Ledger};

/// A core with its pass and its ids. Of a new one the first client has the id 1.
#[derive(Drop)]
pub struct UsualCore<C: Ledger, T: Ledger> {
    pub core: Core<C, T>,
    pub pass: Pass<C, T>,
    pub ids: Counter,
}

impl<C: Ledger, T: Ledger> UsualCore<C, T> {
    /// What the core answers to an event.
    pub fn apply<A: App>(&mut self, alloc: Global, app: &A, event: &Event, now: u64) -> Answered {
        let UsualCore { core, pass, ids } = self;
        core.apply(alloc, pass, app, event, now, ids)
    }
}

/// What is done with a new core, its pass and its ids, which are only lent: whoever drops a core has to prove it of all its parts.
pub trait OnCore: Drop {
    type Found: Drop;

    /// What is found with this core.
    fn run<C: Ledger + Send + Sync, T: Ledger + Send + Sync>(
        self,
        alloc: Global,
        usual: &mut UsualCore<C, T>,
    ) -> Self::Found;
}

/// What is done with a new core under its lock, which is only lent too, and with its first pass.
pub trait OnLocked: Drop {
    type Found: Drop;

    /// What is found with this core.
    fn run<C: Ledger + Send + Sync, T: Ledger + Send + Sync>(
        self,
        alloc: Global,
        locked: &Locked<C, T>,
        pass: Pass<C, T>,
    ) -> Self::Found;
}

/// Makes a core with these settings, whose ledgers are its own, and does this with it. Refused as
/// `BadConfig`, then for `Memory`.
pub fn on_new_core<W: OnCore>(
    alloc: Global,
    settings: &UsualSettings,
    work: W,
) -> Result<W::Found, CoreError> {
    let (commands, taken) = (Blank::new(PARTS), Blank::new(PARTS));
    on_core_of::<Brand, Brand, W>(alloc, settings, work, commands, taken)
}

/// The same with these ledgers.
fn on_core_of<C: Ledger + Send + Sync, T: Ledger + Send + Sync, W: OnCore>(
    alloc: Global,
    settings: &UsualSettings,
    work: W,
    commands: Blank,
    taken: Blank,
) -> Result<W::Found, CoreError>
    requires commands { (commands.name ≡ C.name)
        × (commands.parts ≡ C.parts) × (commands.parts ≡ 65536) }
    requires taken { (taken.name ≡ T.name) × (taken.parts ≡ T.parts) × (taken.parts ≡ 65536) }
{
    let mut usual = new_core::<C, T>(alloc, settings, commands, taken)?;
    Ok(work.run(alloc, &mut usual))
}

/// Makes a core with these settings under a lock, and does this with it. Gives what is found, and the
/// core's totals at the end.
pub fn on_new_locked<W: OnLocked>(
    alloc: Global,
    settings: &UsualSettings,
    work: W,
) -> Result<(W::Found, Totals), CoreError> {
    let (commands, taken) = (Blank::new(PARTS), Blank::new(PARTS));
    on_locked_of::<Brand, Brand, W>(alloc, settings, work, commands, taken)
}

/// The same with these ledgers.
fn on_locked_of<C: Ledger + Send + Sync, T: Ledger + Send + Sync, W: OnLocked>(
    alloc: Global,
    settings: &UsualSettings,
    work: W,
    commands: Blank,
    taken: Blank,
) -> Result<(W::Found, Totals), CoreError>
    requires commands { (commands.name ≡ C.name)
        × (commands.parts ≡ C.parts) × (commands.parts ≡ 65536) }
    requires taken { (taken.name ≡ T.name) × (taken.parts ≡ T.parts) × (taken.parts ≡ 65536) }
{
    let usual = new_core::<C, T>(alloc, settings, commands, taken)?;
    let UsualCore { core, pass, .. } = Box::into_inner(usual);
    let locked = Locked::new(core);
    let found = work.run(alloc, &locked, pass);
    let core = locked.into_core();
    Ok((found, core.hub().state().totals()))
}

fn new_core<C: Ledger, T: Ledger>(
    alloc: Global,
    settings: &UsualSettings,
    commands: Blank,
    taken: Blank,
) -> Result<Box<UsualCore<C, T>>, CoreError>
    requires commands { (commands.name ≡ C.name)
        × (commands.parts ≡ C.parts) × (commands.parts ≡ 65536) }
    requires taken { (taken.name ≡ T.name) × (taken.parts ≡ T.parts) × (taken.parts ≡ 65536) }
{
    let UsualSettings {
        timing,
        numbers,
        ..
    } = *settings;
    let Ok(config) = settings.limits.config(alloc, settings.spaces) else {
        return Err(CoreFault::Memory.at_once());
    };
    let (core, pass) = Core::new(alloc, config, timing, numbers, commands, taken)?;
    let ids = Counter::new();
    Box::new(alloc, UsualCore { core, pass, ids }).map_err(|_| CoreFault::Memory.at_once())
}
