//! A hub that many threads use: each counts what it has had accepted in a pass of its own.
#![tactic(auto, unfolding(journal::specs::Totals::commands, journal::specs::Totals::handed_out, journal::specs::Journal::total))]

ghost use Rattle.std.specs.Prelude.{◌≡◌, ℕ, ◌+◌, None, IsOk, IfOk, IfErr, OnOk, length, min, unwrap_or, take, Result};
ghost use Rattle.journal.specs.Config.{config_refusal};
ghost use Rattle.journal.specs.ManySockets.{joining, leaving, dismissal};
ghost use Rattle.journal.specs.Membership.{place_of};
ghost use Rattle.journal.specs.Plain.{PlainCast, PlainCastDone};
ghost use Rattle.journal.specs.Seal.{Seals};
ghost use Rattle.journal.specs.Totals as totals;
ghost use Rattle.journal.specs.declared.ending.Side.{Side};
ghost use Rattle.journal.specs.declared.error.HubError.{HubError};
ghost use Rattle.journal.specs.declared.step.What.{What};
ghost use Rattle.journal.specs.declared.step.What.TheVariants.{Closed, Left, Opened, Parked};
ghost use Rattle.hub_state.specs.Recovering.{recovery_asked};
ghost use Rattle.hub_state.specs.Words.{socket_for, told, took, waits, AllHear};
ghost use Rattle.hub_totals.specs.Pass.{new_hub, new_pass, AtLeast, CastDoesCounted, DoesCounted, Drops, GivesPass, IsBlankOf, PlainHub, PlainPass, Rises, Settles};

use crate::books::{Books, NotAll, Pass};
use hub_state::State;
use journal::{Cast, CastDone, Config, Dismissed, Epoch, HubError, Side, Swept, Totals};
use recovery::Pid;
use std::alloc::Global;
use std::marker::Model;
use std::sync::ledger::{Blank, Ledger};
use terms::{Entry, Room, Sid};

type Result<X = (), E = HubError> = std::result::Result<X, E>;

/// The answer of the state to a command, counted with the entries that it handed out where it is
/// accepted.
macro_rules! counted {
    ($hub:expr, $pass:expr, $command:ident($($given:expr),*)) => {
        counted!($hub, $pass, $command($($given),*), answer => 0)
    };
    ($hub:expr, $pass:expr, $command:ident($($given:expr),*), $answer:ident => $entries:expr) => {
        match $hub.state.$command($hub.alloc, $($given),*) {
            Ok($answer) => {
                $hub.books.count($pass, &$hub.state, $entries);
                Ok($answer)
            }
            Err(error) => Err(error),
        }
    };
}

/// A hub with its books. `C` is the ledger of the commands that it accepts, `T` that of the entries
/// that it hands out; both are this hub's alone, so a pass at these types is a pass of this hub.
///
/// In a contract it is its history and the number of parts of each ledger that no pass was given.
/// Each command is `State`'s, with the pass that counts it: where it is accepted, the history is
/// one step longer and the pass has one command more, and a `take` also the entries that it handed
/// out. Where it is refused, both are as before. So the pass rises as the hub's totals do
/// (`counted_commands_rise`). A command takes no more time or memory than `State`'s.
#[derive(Drop)]
pub struct Hub<C: Ledger, T: Ledger> {
    alloc: Global,
    /// The clients, sockets, rooms, sessions and the log. Who changes it by its own commands, and
    /// not by the hub's, counts them with `Books::catch_up` before the hub is used again.
    pub state: State,
    /// The totals of the commands and of the entries that were handed out, of which each pass has
    /// its share. They are the state's: that is the type's invariant.
    pub books: Books<C, T>,
}

impl<C: Ledger, T: Ledger> Model for Hub<C, T> {
    ghost Value = { PlainHub };

    ghost view = { λ h. record { history = h.state; rest = h.books.rest } };

    ghost invariant = { λ h. (h.books.commands ≡ totals.commands h.state.base h.state.journal)
        × (h.books.taken ≡ totals.handed_out h.state.base h.state.journal) };
}

impl<C: Ledger, T: Ledger> Hub<C, T> {
    /// The state, of which all can be asked that a hub tells.
    pub fn state(&self) -> &State
        ensures { result.now ≡ self.now.history }
    {
        &self.state
    }

    /// A hub with no clients and an empty journal, and its first pass. Each blank is a ledger cut
    /// into 65,536 parts, of which a pass takes one. Refused as `BadConfig`, then for `Memory`. It
    /// compares each two of the namespaces, and copies their names once.
    pub fn new(
        alloc: Global,
        config: Config,
        commands: Blank,
        taken: Blank,
    ) -> Result<(Hub<C, T>, Pass<C, T>)>
        requires commands { IsBlankOf C.name C.parts commands }
        requires taken { IsBlankOf T.name T.parts taken }
        ensures config { OnOk result (config_refusal config ≡ None) }
        ensures hub { IfOk result (λ made. made.0 ≡ new_hub config) }
        ensures pass { IfOk result (λ made. made.1 ≡ new_pass) }
        ensures err { IfErr result (λ e. e ≡ unwrap_or (config_refusal config) HubError.Memory) }
    {
        let state = State::new(alloc, config)?;
        let (books, pass) = Books::open(commands, taken);
        let hub = Hub {
            alloc,
            state,
            books,
        };
        Ok((hub, pass))
    }

    /// A pass that has counted nothing, for one more thread. Refused as `Spent` alone, after 65,534
    /// of them.
    pub fn new_pass(&mut self) -> Result<Pass<C, T>>
        ensures gives { GivesPass self.old.rest result self.new.rest }
        ensures kept { self.new.history ≡ self.old.history }
    {
        self.books.new_pass()
    }

    /// Changes nothing. It tells that the hub's counts are u64s, and at least what the pass has
    /// counted.
    pub fn audit(&mut self, pass: &mut Pass<C, T>)
        ensures same { (self.new ≡ self.old) × (pass.new ≡ pass.old) }
        ensures at_least { AtLeast self.old pass.old }
    {
        let totals = self.state.totals();
        let _lack = self.books.lacks(pass, &totals);
    }

    /// The hub's counts, where the pass has all of its commands and all that it handed out, and
    /// else what the pass lacks. It lacks nothing where every other pass was absorbed. Changes
    /// nothing.
    pub fn settle(&mut self, pass: &mut Pass<C, T>) -> Result<Totals, NotAll>
        ensures same { (self.new ≡ self.old) × (pass.new ≡ pass.old) }
        ensures settles { Settles self.old pass.old result }
        ensures whole { self.old.rest + pass.old.parts ≡ C.parts
            → self.old.rest + pass.old.parts ≡ T.parts → IsOk result }
    {
        let totals = self.state.totals();
        let lack = self.books.lacks(pass, &totals);
        if lack.commands != 0 || lack.taken != 0 {
            return Err(lack);
        }
        Ok(totals)
    }

    /// Opens a client. As `State::open`, counted in the pass.
    pub fn open(&mut self, pass: &mut Pass<C, T>, client: u128, now: u64) -> Result
        ensures does { DoesCounted self.old self.new pass.old pass.new now (Opened client) result }
    {
        counted!(self, pass, open(client, now))
    }

    /// Connects a client's new socket to a namespace. As `State::attach`, counted in the pass.
    pub fn attach(
        &mut self,
        pass: &mut Pass<C, T>,
        client: u128,
        space: &str,
        sid: Sid,
        pid: Pid,
        now: u64,
    ) -> Result
        ensures does { let socket = socket_for self.old.history client space.now sid pid in
            DoesCounted self.old self.new pass.old pass.new now (What.Attached socket) result }
    {
        counted!(self, pass, attach(client, space, sid, pid, now))
    }

    /// A socket joins a room. As `State::join`, counted in the pass.
    pub fn join(&mut self, pass: &mut Pass<C, T>, sid: Sid, room: Room, now: u64) -> Result
        ensures does { DoesCounted self.old self.new pass.old pass.new now
            (What.Joined sid room) result }
    {
        counted!(self, pass, join(sid, room, now))
    }

    /// A socket leaves a room. As `State::leave`, counted in the pass.
    pub fn leave(&mut self, pass: &mut Pass<C, T>, sid: Sid, room: Room, now: u64) -> Result
        ensures does { DoesCounted self.old self.new pass.old pass.new now (Left sid room) result }
    {
        counted!(self, pass, leave(sid, room, now))
    }

    /// Ends a socket by the server. As `State::end`, counted in the pass.
    pub fn end(&mut self, pass: &mut Pass<C, T>, sid: Sid, now: u64) -> Result
        ensures does { DoesCounted self.old self.new pass.old pass.new now
            (What.Ended sid Side.Server) result }
    {
        counted!(self, pass, end(sid, Side::Server, now))
    }

    /// Closes a client. As `State::close`, counted in the pass.
    pub fn close(&mut self, pass: &mut Pass<C, T>, client: u128, now: u64) -> Result
        ensures does { DoesCounted self.old self.new pass.old pass.new now (Closed client) result }
    {
        counted!(self, pass, close(client, now))
    }

    /// Puts an entry at the end of a client's outbox. As `State::tell`, counted in the pass.
    pub fn tell(&mut self, pass: &mut Pass<C, T>, client: u128, entry: Entry, now: u64) -> Result
        ensures does { DoesCounted self.old self.new pass.old pass.new now
            (told client entry) result }
    {
        counted!(self, pass, tell(client, entry, now))
    }

    /// Hands out the first entries that wait for a client. As `State::take`, counted in the pass.
    pub fn take(
        &mut self,
        pass: &mut Pass<C, T>,
        client: u128,
        most: usize,
        now: u64,
    ) -> Result<Vec<Entry>>
        ensures entries { IfOk result (λ v. v.items ≡ take most (waits self.old.history client)) }
        ensures does { let what = took self.old.history client most in
            DoesCounted self.old self.new pass.old pass.new now what result }
    {
        counted!(self, pass, take(client, most, now), entries => entries.len() as u64)
    }

    /// Takes away the first entries that wait. As `State::take_away`, counted in the pass.
    pub fn take_away(
        &mut self,
        pass: &mut Pass<C, T>,
        client: u128,
        most: usize,
        now: u64,
    ) -> Result<usize>
        ensures number { IfOk result (λ n. n ≡ min most (length (waits self.old.history client))) }
        ensures does { let what = took self.old.history client most in
            DoesCounted self.old self.new pass.old pass.new now what result }
    {
        counted!(self, pass, take_away(client, most, now), number => number as u64)
    }

    /// Broadcasts an event to sockets of a namespace. As `State::cast`, counted in the pass.
    pub fn cast(&mut self, pass: &mut Pass<C, T>, cast: Cast, now: u64) -> Result<CastDone>
        ensures does { CastDoesCounted self.old self.new pass.old pass.new now cast result }
        ensures continuity { AllHear self.new.history }
    {
        counted!(self, pass, cast(cast, now))
    }

    /// All sockets that match join a room. As `State::sockets_join`, counted in the pass.
    pub fn sockets_join(
        &mut self,
        pass: &mut Pass<C, T>,
        space: &str,
        rooms: Vec<Room>,
        excepted: Vec<Room>,
        room: Room,
        now: u64,
    ) -> Result<Vec<Sid>>
        ensures changed { let h = self.old.history in let place = place_of h.limits space.now in
            IfOk result (λ s. s.items ≡ (joining h place rooms.items excepted.items room).changed) }
        ensures does { let place = place_of self.old.history.limits space.now in
            let change = joining self.old.history place rooms.items excepted.items room in
            DoesCounted self.old self.new pass.old pass.new now (What.AllJoined change) result }
    {
        counted!(self, pass, sockets_join(space, rooms, excepted, room, now))
    }

    /// All sockets that match leave a room. As `State::sockets_leave`, counted in the pass.
    pub fn sockets_leave(
        &mut self,
        pass: &mut Pass<C, T>,
        space: &str,
        rooms: Vec<Room>,
        excepted: Vec<Room>,
        room: Room,
        now: u64,
    ) -> Result<Vec<Sid>>
        ensures changed { let h = self.old.history in let place = place_of h.limits space.now in
            IfOk result (λ s. s.items ≡ (leaving h place rooms.items excepted.items room).changed) }
        ensures does { let place = place_of self.old.history.limits space.now in
            let change = leaving self.old.history place rooms.items excepted.items room in
            DoesCounted self.old self.new pass.old pass.new now (What.AllLeft change) result }
    {
        counted!(self, pass, sockets_leave(space, rooms, excepted, room, now))
    }

    /// All sockets that match end. As `State::disconnect_sockets`, counted in the pass.
    pub fn disconnect_sockets(
        &mut self,
        pass: &mut Pass<C, T>,
        space: &str,
        rooms: Vec<Room>,
        excepted: Vec<Room>,
        now: u64,
    ) -> Result<Dismissed>
        ensures done { let place = place_of self.old.history.limits space.now in
            let all = dismissal self.old.history place rooms.items excepted.items in
            IfOk result (λ done. (done.ended.items ≡ all.ended) × (done.told.items ≡ all.told)) }
        ensures does { let place = place_of self.old.history.limits space.now in
            let all = dismissal self.old.history place rooms.items excepted.items in
            DoesCounted self.old self.new pass.old pass.new now (What.AllEnded all) result }
    {
        counted!(self, pass, disconnect_sockets(space, rooms, excepted, now))
    }

    /// Parks a client that was lost. As `State::park`, counted in the pass.
    pub fn park(&mut self, pass: &mut Pass<C, T>, client: u128, now: u64) -> Result
        ensures does { DoesCounted self.old self.new pass.old pass.new now (Parked client) result }
    {
        counted!(self, pass, park(client, now))
    }

    /// Brings a saved session back at a client. As `State::recover`, counted in the pass.
    pub fn recover(
        &mut self,
        pass: &mut Pass<C, T>,
        client: u128,
        space: &str,
        pid: Pid,
        offset: u64,
        now: u64,
    ) -> Result<Sid>
        ensures sid { let back = recovery_asked client space.now pid offset self.old.history in
            IfOk result (λ sid. sid ≡ back.socket.sid) }
        ensures does { let back = recovery_asked client space.now pid offset self.old.history in
            DoesCounted self.old self.new pass.old pass.new now (What.Recovered back) result }
        ensures continuity { AllHear self.new.history }
    {
        counted!(self, pass, recover(client, space, pid, offset, now))
    }

    /// Drops outdated log entries and sessions. As `State::sweep`, counted in the pass.
    pub fn sweep(&mut self, pass: &mut Pass<C, T>, now: u64) -> Result<Swept>
        ensures does { DoesCounted self.old self.new pass.old pass.new now What.Swept result }
        ensures counts { IfOk result (λ swept. Drops swept self.old.history self.new.history) }
    {
        counted!(self, pass, sweep(now))
    }

    /// Makes the present state the base. As `State::seal`; it is no command, and in no pass.
    pub fn seal(&mut self, alloc: Global) -> Result<Epoch>
        ensures seals { Seals self.old.history result self.new.history }
        ensures parts { self.new.rest ≡ self.old.rest }
    {
        self.state.seal(alloc)
    }
}

/// A pass rises by as much as its hub's totals, by a command that was accepted and, as neither
/// rises, by one that was refused.
pub fn counted_commands_rise<X>()
    ensures command { (before after : PlainHub) (old new : PlainPass) (now : ℕ) (what : What)
        (result : Result X HubError)
        → DoesCounted before after old new now what result → Rises before after old new }
    ensures cast { (before after : PlainHub) (old new : PlainPass) (now : ℕ) (cast : PlainCast)
        (result : Result PlainCastDone HubError)
        → CastDoesCounted before after old new now cast result → Rises before after old new }
{}
