//! A gate that looks, after each event, at what the hub's state says of those whom it concerns.

ghost use Rattle.std.specs.Prelude.{◌≡◌, ◌||◌, Some, OnOk};
ghost use Rattle.backend_watch.specs.Watching.{digits_listed};
ghost use Rattle.tcp_server.specs.Gates as gates;

use backend_watch::{Pressed, Sight, digits_together};
use dispatch::Core;
use events::{Answered, Event, Outcome};
use guarded::EXPIRY;
use hub_gate::Turnstile;
use hub_state::State;
use std::alloc::{AllocError, Global};
use std::sync::ledger::Ledger;
use std::sync::{Mutex, Wait};
use tcp_loops::Base;
use tcp_streams::{Backends, Shown, Sign};

/// A gate at which nobody waits. Under the lock it looks whether something waits for who sent a
/// message, and at what an event put for backends, where there may be some.
#[derive(Drop)]
pub(crate) struct Gate<'a, R, L> {
    pub(crate) base: &'a Base<'a, R, L>,
    /// The backends that are pressed. It is taken under the core's lock.
    pub(crate) pressed: Mutex<Vec<Pressed>>,
}

/// Whether the event was a message over a WebSocket, whose client goes on.
fn is_served(event: &Event, got: &Answered) -> bool
    ensures { result ≡ gates.is_served event.now got.now }
{
    let is_done = matches!(got, Ok(Outcome::Done(done)) if done.closed.is_none());
    is_done && matches!(event, Event::Frame { .. })
}

/// The client that is looked at after an event, if one is: any where there may be backends.
fn looked_at(has_backends: bool, event: &Event, got: &Answered) -> Option<u128>
    ensures { result ≡ gates.looked_at has_backends event.now got.now }
{
    if has_backends || is_served(event, got) {
        event.client()
    } else {
        None
    }
}

/// What is shown of a client after its event, which brought messages of these digits, or none: that,
/// and of a message that was served whether nothing waits for its client. Else nothing is shown.
fn sign_of(
    state: &State,
    client: u128,
    event: &Event,
    got: &Answered,
    digits: Option<u16>,
) -> Option<Sign>
    ensures { result ≡ gates.sign_of client (gates.is_served event.now got.now)
        (gates.rests state.now client event.now got.now) digits }
{
    let is_served = is_served(event, got);
    let rests = is_served && state.waiting(client) == Some(0);
    (is_served || digits.is_some()).then(|| Sign {
        client,
        rests,
        digits,
    })
}

/// What the state says, of backends of which this is known.
fn sight_of<'a>(alloc: Global, backends: &'a Backends, state: &'a State) -> Sight<'a>
    ensures { gates.IsSightOf backends.now state.now result }
{
    Sight {
        alloc,
        state,
        space: backends.space.as_str(),
        others: backends.others.as_slice(),
        capacity: backends.capacity,
        bytes: backends.bytes,
    }
}

/// Takes a client off the list that is pressed no more, and lists whom its event pressed.
fn watch(
    sight: &Sight,
    client: u128,
    got: &Answered,
    pressed: &mut Vec<Pressed>,
    shown: &mut Shown,
) -> Result<(), AllocError>
    ensures listed { OnOk result
        (gates.Lists sight.now client got.now pressed.old.items pressed.new.items) }
    ensures relieved { shown.new.relieved ≡ (shown.old.relieved
        || gates.is_relieved sight.now client pressed.old.items) }
    ensures pressed { shown.new.pressed ≡ Some (digits_listed pressed.new.items) }
    ensures signs { shown.new.signs ≡ shown.old.signs }
{
    shown.relieved |= sight.relieve(client, pressed);
    let listed = sight.press(client, got, pressed);
    shown.pressed = Some(digits_together(pressed.as_slice()));
    listed
}

/// How many broadcasts of a client's event went to no backend. What the warden is told of those
/// that it ends itself isn't for backends: a client in `/expiry` is the warden.
fn unheard(sight: &Sight, client: u128, got: &Answered, has_warden: bool) -> u64
    ensures { result ≡ gates.unheard sight.now.state.now sight.now.space.now client
        got.now has_warden }
{
    if has_warden && sight.state.socket_of(client, EXPIRY).is_some() {
        return 0;
    }
    sight.unheard(client, got)
}

impl<R: Wait, L> Gate<'_, R, L> {
    /// Shows what an event of a client showed, of backends, if there may be some, and of itself.
    fn show(&self, state: &State, client: u128, event: &Event, got: &Answered, shown: &mut Shown) {
        let (base, mut digits) = (self.base, None);
        if let Some(backends) = &base.shared.backends {
            let sight = sight_of(base.alloc, backends, state);
            let mut pressed = self.pressed.lock(base.rt);
            // Where one isn't listed for want of memory, its clients are read on.
            let _ = watch(&sight, client, got, &mut *pressed, shown);
            let has_warden = base.rules.warding.is_some();
            backends.note_unheard(base.rt, unheard(&sight, client, got, has_warden));
            digits = sight.digits_brought(client, event);
        }
        if let Some(sign) = sign_of(state, client, event, got, digits) {
            // Where there is no memory for it, it is as if nothing had been shown.
            if shown.signs.push(sign).is_err() {
                shown.signs.clear();
            }
        }
    }
}

impl<R: Wait, L> Turnstile for Gate<'_, R, L> {
    fn before(&self, _worker: usize, _turn: u64) {}

    fn applied<C: Ledger, T: Ledger>(
        &self,
        worker: usize,
        core: &Core<C, T>,
        event: &Event,
        got: &Answered,
    ) {
        let base = self.base;
        let Some(client) = looked_at(base.shared.backends.is_some(), event, got) else {
            return;
        };
        let state = core.hub().state();
        match base.shared.showing.get(worker) {
            Some(place) => {
                let mut shown = place.lock(base.rt);
                self.show(state, client, event, got, &mut *shown);
            }
            // It isn't shown to the warden.
            None => self.show(state, client, event, got, &mut Shown::new(base.alloc)),
        }
    }

    fn after(&self, _worker: usize, _turn: u64) {}
}
