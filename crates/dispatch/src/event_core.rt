//! The whole state of the server, and what each event does to it.

ghost use Rattle.std.specs.Prelude.{◌≡◌, ℕ, ◌+◌, List, [], ◌∷◌, length, Some, None, is_some, IsOk, IfOk, IfErr, IfSome, OnOk};
ghost use Rattle.std.specs.Ordering.{nat_cmp};
ghost use Rattle.terms.specs.Listing.{ListsRising};
ghost use Rattle.journal.specs.Config.{config_refusal};
ghost use Rattle.journal.specs.Membership.{is_open};
ghost use Rattle.journal.specs.Seal.{Seals};
ghost use Rattle.hub_totals.specs.Pass.{AtLeast, GivesPass, IsBlankOf, Settles};
ghost use Rattle.dispatch.specs.Following.{Spares};
ghost use Rattle.connection.specs.Line.{PlainLine};
ghost use Rattle.dispatch.specs.Holding.{line_of, standing, Agree, IsClean, IsNew};
ghost use Rattle.dispatch.specs.Takes.{IsOn};
ghost use Rattle.events.specs.Answer.{at_once};
ghost use Rattle.dispatch.specs.Answers.{fault_of_config};
ghost use Rattle.dispatch.specs.Counting.{TurnsFor};
ghost use Rattle.dispatch.specs.Handed.{Turn, Handed};
ghost use Rattle.dispatch.specs.Machine.{Row, Does, IsOf, listed};

use crate::clients::{self, Handshake, Lines, transport_of};
use crate::hearing::hear_after;
use crate::polling;
use crate::scene::{Call, Means};
use connection::{Timing, Transport};
use eio_wire::Numbers;
use events::{Answered, App, CoreError, CoreFault, Event, IdSource};
use hub_state::State;
use hub_totals::{Hub, NotAll, Pass};
use journal::{Config, Epoch, HubError, Totals};
use sio_wire::Scratch;
use std::alloc::{AllocError, Global};
use std::collections::HashMap;
use std::marker::Model;
use std::sync::ledger::{Blank, Ledger};
use terms::let_go;

/// The hub, and a line for each of its open clients. In a contract it is the hub's value, the lines
/// by their clients, and what each new client is told. Each core has a line for just the open
/// clients, and U+001E, which separates the packets of a payload, stands in no entry of it.
pub struct Core<C: Ledger, T: Ledger> {
    hub: Hub<C, T>,
    lines: Lines,
    told: Handshake,
    // One is kept, since it is large, and is cleared where it is made.
    scratch: Box<Scratch>,
}

/// Written out, so that a crate above takes the drop of all that lies in it by this one call.
impl<C: Ledger, T: Ledger> Drop for Core<C, T> {
    fn drop(self) {
        let_go!(self; hub, lines, told, scratch);
    }
}

impl<C: Ledger, T: Ledger> Model for Core<C, T> {
    ghost use Rattle.dispatch.specs.Holding.{PlainCore, Agree, IsClean};

    ghost Value = { PlainCore };

    ghost view = { λ c. record {
      hub = c.hub;
      lines = c.lines.entries;
      told = c.told;
    } };

    ghost invariant = { λ c. Agree c.hub.history c.lines.entries × IsClean c.hub.history };
}

impl<C: Ledger, T: Ledger> Core<C, T> {
    /// A core with no clients, and its first pass. Refused as `BadConfig`, then for `Memory`.
    pub fn new(
        alloc: Global,
        config: Config,
        timing: Timing,
        numbers: Numbers,
        commands: Blank,
        taken: Blank,
    ) -> Result<(Core<C, T>, Pass<C, T>), CoreError>
        requires commands { IsBlankOf C.name C.parts commands }
        requires taken { IsBlankOf T.name T.parts taken }
        ensures config { OnOk result (config_refusal config ≡ None) }
        ensures made { IfOk result (λ made.
            IsNew config (record { timing = timing; numbers = numbers }) made.0 made.1) }
        ensures handed { IfOk result (λ made. (c : ℕ) → Handed c [] made.0.hub.history) }
        ensures err { IfErr result (λ e. e ≡ at_once (fault_of_config (config_refusal config))) }
    {
        let lines = HashMap::new(alloc);
        let told = Handshake { timing, numbers };
        match Hub::new(alloc, config, commands, taken) {
            Ok((hub, pass)) => match Box::new(alloc, Scratch::new(alloc)) {
                Ok(scratch) => Ok((
                    Core {
                        hub,
                        lines,
                        told,
                        scratch,
                    },
                    pass,
                )),
                Err(_) => Err(CoreFault::Memory.at_once()),
            },
            Err(HubError::BadConfig) => Err(CoreFault::BadConfig.at_once()),
            Err(_) => Err(CoreFault::Memory.at_once()),
        }
    }

    /// Does what an event does. Then the app hears of the sockets that it ended, and what the app
    /// wants then is done, until a fault. An error of the event itself stays, but for want of memory
    /// to hear.
    pub fn apply<A: App, I: IdSource>(
        &mut self,
        alloc: Global,
        pass: &mut Pass<C, T>,
        app: &A,
        event: &Event,
        now: u64,
        ids: &mut I,
    ) -> Answered
        ensures does { Does (A.policy app.now) self.old.told now event.now
            (standing self.old.hub.history self.old.lines (I.stream ids.old)) result
            (standing self.new.hub.history self.new.lines (I.stream ids.new)) }
        ensures settings { self.new.told ≡ self.old.told }
        ensures handed { (c : ℕ) (turns : List Turn) → Handed c turns self.old.hub.history
            → Handed c ((event.now, result) ∷ turns) self.new.hub.history }
        ensures turns { (c : ℕ) → IsOf event.now (I.stream ids.old) c
            → TurnsFor c self.old.hub self.new.hub pass.old pass.new }
        ensures spares { IfOk result (λ o. (c : ℕ) → IsOf event.now (I.stream ids.old) c
            → Spares c self.old.hub.history self.new.hub.history (listed o)) }
    {
        let before = self.hub.state.totals();
        let call = Call { alloc, moment: now };
        let Core {
            hub,
            lines,
            told,
            scratch,
        } = self;
        let ended = hub.state.ended_sockets().len();
        let means = Means { call, scratch };
        let said = do_row(means, &mut hub.state, lines, told, app, event, ids);
        let answer = hear_after(call, &mut hub.state, app, event.client(), ended, said);
        hub.books.catch_up(pass, &before, &hub.state);
        answer
    }

    /// The hub, which tells all that can be asked of it.
    pub fn hub(&self) -> &Hub<C, T>
        ensures { result.now ≡ self.now.hub }
    {
        &self.hub
    }

    /// Changes nothing. It tells what every core keeps: a line for just the open clients, and no
    /// U+001E in any entry.
    pub fn facts(&self)
        ensures agree { Agree self.now.hub.history self.now.lines }
        ensures clean { IsClean self.now.hub.history }
    {
        let _fields = &self.hub;
    }

    /// How a client speaks, or `None` where it isn't open.
    pub fn transport(&self, client: u128) -> Option<Transport>
        ensures known { let h = self.now.hub.history in
            is_some result ≡ is_open h.base h.journal client }
        ensures on { IfSome result (λ on.
            (line : PlainLine) × (line_of self.now.lines client ≡ Some line) × IsOn on line) }
    {
        transport_of(&self.lines, client)
    }

    /// The open clients, rising.
    pub fn clients(&self, alloc: Global) -> Result<Vec<u128>, CoreError>
        ensures ok { let h = self.now.hub.history in
            IfOk result (λ clients. ListsRising nat_cmp (is_open h.base h.journal) clients.items) }
        ensures err { IfErr result (λ e. e ≡ at_once CoreFault.Memory) }
    {
        let listed: Result<Vec<u128>, AllocError> = self.lines.keys().copied().collect(alloc);
        let Ok(mut clients) = listed else {
            return Err(CoreFault::Memory.at_once());
        };
        clients.sort_unstable();
        Ok(clients)
    }

    /// How many clients are open: each has a line.
    pub fn clients_len(&self) -> usize
        ensures { result ≡ length self.now.lines }
    {
        self.lines.len()
    }

    /// A pass that has counted nothing, for one more thread. Refused as `Spent` alone, after 65,534
    /// of them.
    pub fn new_pass(&mut self) -> Result<Pass<C, T>, HubError>
        ensures gives { GivesPass self.old.hub.rest result self.new.hub.rest }
        ensures kept { let hub = record self.old.hub { rest = self.new.hub.rest } in
            self.new ≡ record self.old { hub = hub } }
    {
        self.hub.new_pass()
    }

    /// Changes nothing. It tells that the hub's counts are at least what the pass has counted.
    pub fn audit(&mut self, pass: &mut Pass<C, T>)
        ensures same { (self.new ≡ self.old) × (pass.new ≡ pass.old) }
        ensures at_least { AtLeast self.old.hub pass.old }
    {
        self.hub.audit(pass);
    }

    /// The hub's counts, where the pass has all of its commands and all that it handed out, and
    /// else what the pass lacks. It lacks nothing where every other pass was absorbed. Changes
    /// nothing.
    pub fn settle(&mut self, pass: &mut Pass<C, T>) -> Result<Totals, NotAll>
        ensures same { (self.new ≡ self.old) × (pass.new ≡ pass.old) }
        ensures settles { Settles self.old.hub pass.old result }
        ensures whole { let parts = self.old.hub.rest + pass.old.parts in
            parts ≡ C.parts → parts ≡ T.parts → IsOk result }
    {
        self.hub.settle(pass)
    }

    /// Makes the present state of the hub its base, and hands out the old base with the steps since
    /// then. It is no command and no event: the lines stay, and what clients are handed is counted
    /// anew, from what waits. Refused for `Memory` alone.
    pub fn seal(&mut self, alloc: Global) -> Result<Epoch, HubError>
        ensures seals { Seals self.old.hub.history result self.new.hub.history }
        ensures handed { OnOk result ((c : ℕ) → Handed c [] self.new.hub.history) }
        ensures kept { let hub = record self.old.hub { history = self.new.hub.history } in
            self.new ≡ record self.old { hub = hub } }
    {
        self.hub.seal(alloc)
    }
}

/// Does what an event does to the hub's state and to the clients' lines, before the app hears of
/// the sockets that it ended.
fn do_row<A: App, I: IdSource>(
    means: Means<'_>,
    state: &mut State,
    lines: &mut Lines,
    handshake: &Handshake,
    app: &A,
    event: &Event,
    ids: &mut I,
) -> Answered
    requires agree { Agree state.old lines.old.entries }
    requires clean { IsClean state.old }
    ensures { Row (A.policy app.now) handshake.now means.entry.call.moment event.now
        (standing state.old lines.old.entries (I.stream ids.old)) result
        (standing state.new lines.new.entries (I.stream ids.new)) }
{
    match event {
        Event::Opened { socket } => {
            let visit = means.call.of(ids.draw());
            clients::open(visit, state, lines, handshake, *socket)
        }
        Event::Post { client, body } => {
            polling::post(
                means.call.of(*client),
                state,
                lines,
                app,
                ids,
                means.scratch,
                body.as_str(),
            )
        }
        Event::Frame { client, frame } => {
            clients::receive(
                means.call.of(*client),
                state,
                lines,
                app,
                ids,
                means.scratch,
                frame,
            )
        }
        Event::PollBegin { client } => polling::begin(means.call.of(*client), state, lines),
        Event::PollEnd { client } => polling::end(means.call.alloc, lines, *client),
        Event::PollTake { client, most } => {
            polling::take(means.call.of(*client), state, lines, *most)
        }
        Event::FrameTake { client, most } => {
            clients::take(means.call.of(*client), state, lines, *most)
        }
        Event::Probe { client } => polling::probe(means.call.alloc, lines, *client),
        Event::Upgraded { client } => polling::upgrade(means.call.alloc, lines, *client),
        Event::ProbeLost { client } => polling::probe_lost(means.call.alloc, lines, *client),
        Event::TransportLost { client } => clients::lose(means.call.of(*client), state, lines),
        Event::Tick { client } => clients::tick(means.call.of(*client), state, lines),
        Event::Sweep => clients::sweep(means.call, state),
    }
}
