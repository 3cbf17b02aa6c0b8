//! The counts of commands and of entries that were handed out, which a hub raises together with its
//! passes: totals that several holders raise, and each holder's part of them.

ghost use Rattle.std.specs.Prelude.{◌≡◌, ◌+◌, ◌-◌, ◌<◌, ◌≤◌, min};
ghost use Rattle.journal.specs.Totals as totals;
ghost use Rattle.hub_totals.specs.Pass.{books_of, new_pass, GivesPass, IsBlankOf, PlainBooks, PlainCounter, PlainPart, PlainPass};

use hub_state::State;
use journal::{HubError, Totals};
use std::marker::Model;
use std::sync::ledger::{Blank, Book, Ledger, Share};

/// A total, which takes no bytes, and the parts of its ledger that no holder was given.
#[derive(Drop)]
struct Counter<L: Ledger> {
    parts: u64,
    book: Book<L>,
    rest: Share<L>,
}

impl<L: Ledger> Model for Counter<L> {
    ghost Value = { PlainCounter };

    ghost view = { λ c. record { total = c.book.total; rest = c.parts } };

    ghost invariant = { λ c. (c.rest.amount ≡ 0) × (c.rest.parts ≡ c.parts) × (0 < c.parts) };
}

/// What one holder added to a total. No amount passes a total that is a u64.
#[derive(Drop)]
struct Part<L: Ledger> {
    number: u64,
    share: Share<L>,
}

impl<L: Ledger> Model for Part<L> {
    ghost Value = { PlainPart };

    ghost view = { λ p. record { amount = p.share.amount; parts = p.share.parts } };

    ghost invariant = { λ p. (p.number ≡ min p.share.amount 18446744073709551615)
        × (0 < p.share.parts) };
}

impl<L: Ledger> Counter<L> {
    /// A total of 0, of which no holder has any of the 65,536 parts.
    fn open(blank: Blank) -> Counter<L>
        requires { IsBlankOf L.name L.parts blank }
        ensures { result ≡ record { total = 0; rest = 65536 } }
    {
        let (book, rest) = blank.open::<L>();
        let parts = 65_536;
        Counter { parts, book, rest }
    }

    /// A holder more, with one part and nothing added.
    fn part(&mut self) -> Part<L>
        requires { 1 < self.old.rest }
        ensures part { result ≡ record { amount = 0; parts = 1 } }
        ensures counter { self.new ≡ record { total = self.old.total; rest = self.old.rest - 1 } }
    {
        let share = self.rest.split_off(1, 0);
        self.parts -= 1;
        Part { number: 0, share }
    }

    /// Raises the total and what its holder added, both by so much.
    fn raise(&mut self, part: &mut Part<L>, by: u64)
        requires { self.old.total + by ≤ 18446744073709551615 }
        ensures counter { self.new ≡ record { total = self.old.total + by; rest = self.old.rest } }
        ensures part { part.new ≡ record { amount = part.old.amount + by; parts = part.old.parts } }
    {
        self.book.audit(&mut part.share);
        self.book.add(&mut part.share, by);
        part.number += by;
    }

    /// What the others added of a total, which is nothing where the holder and the rest together
    /// have every part. Changes nothing.
    fn lacks(&mut self, part: &mut Part<L>, total: u64) -> u64
        requires { total ≡ self.old.total }
        ensures same { (self.new ≡ self.old) × (part.new ≡ part.old) }
        ensures lacks { part.old.amount + result ≡ total }
        ensures whole { self.old.rest + part.old.parts ≡ L.parts → result ≡ 0 }
    {
        self.rest.give(&mut part.share, self.parts, 0);
        self.book.audit(&mut part.share);
        part.share.give(&mut self.rest, self.parts, 0);
        total - part.number
    }
}

impl<L: Ledger> Part<L> {
    /// Takes over what another holder added.
    fn absorb(&mut self, other: Part<L>)
        ensures { self.new ≡ record
            { amount = self.old.amount + other.amount; parts = self.old.parts + other.parts } }
    {
        self.share.merge(other.share);
        self.number = self.number.saturating_add(other.number);
    }
}

/// What one thread has had accepted: how many commands, and how many entries they handed out. No
/// pass is made or raised but by its hub, and no hub counts a command but in a pass, so what all
/// passes of a hub have together is what the hub has. `C` and `T` are the ledgers of commands and
/// of entries, which belong to one hub.
///
/// In a contract it is these two amounts and its parts, and the amounts are exact. A pass that is
/// dropped takes what it counted out of the sum.
pub struct Pass<C: Ledger, T: Ledger> {
    commands: Part<C>,
    taken: Part<T>,
}

/// Written out, so that a crate above takes the drop of all that lies in it by this one call.
impl<C: Ledger, T: Ledger> Drop for Pass<C, T> {
    fn drop(self) {
        let Self { commands, taken } = self;
    }
}

impl<C: Ledger, T: Ledger> Model for Pass<C, T> {
    ghost Value = { PlainPass };

    ghost view = { λ p. record
        { commands = p.commands.amount; taken = p.taken.amount; parts = p.commands.parts } };

    ghost invariant = { λ p. p.taken.parts ≡ p.commands.parts };
}

/// What a pass lacks of its hub's counts. It isn't nothing.
#[derive(Clone, Copy, Debug, PartialEq, Eq)]
pub struct NotAll {
    /// The commands that were accepted with other passes.
    pub commands: u64,
    /// The entries that were handed out with other passes.
    pub taken: u64,
}

impl<C: Ledger, T: Ledger> Pass<C, T> {
    /// How many commands were accepted with this pass. It would stay at the greatest u64; the hub's
    /// own count, which `audit` shows to be at least this one, never passes it.
    pub fn commands(&self) -> u64
        ensures { result ≡ min self.now.commands u64.MAX }
    {
        self.commands.number
    }

    /// How many entries were handed out with this pass, as above.
    pub fn taken(&self) -> u64
        ensures { result ≡ min self.now.taken u64.MAX }
    {
        self.taken.number
    }

    /// Takes over what another pass of the same hub counted, with its parts.
    pub fn absorb(&mut self, other: Pass<C, T>)
        ensures { self.new ≡ record {
          commands = self.old.commands + other.commands;
          taken = self.old.taken + other.taken;
          parts = self.old.parts + other.parts;
        } }
    {
        let Pass { commands, taken } = other;
        self.commands.absorb(commands);
        self.taken.absorb(taken);
    }
}

/// The books of both ledgers. In a contract they are both totals, and the number of parts of each
/// ledger that no pass was given.
#[derive(Drop)]
pub struct Books<C: Ledger, T: Ledger> {
    commands: Counter<C>,
    taken: Counter<T>,
}

impl<C: Ledger, T: Ledger> Model for Books<C, T> {
    ghost Value = { PlainBooks };

    ghost view = { λ b. record
        { commands = b.commands.total; taken = b.taken.total; rest = b.commands.rest } };

    ghost invariant = { λ b. b.taken.rest ≡ b.commands.rest };
}

impl<C: Ledger, T: Ledger> Books<C, T> {
    /// Both totals 0, and the first pass.
    pub(crate) fn open(commands: Blank, taken: Blank) -> (Books<C, T>, Pass<C, T>)
        requires commands { IsBlankOf C.name C.parts commands }
        requires taken { IsBlankOf T.name T.parts taken }
        ensures books { result.0 ≡ record { commands = 0; taken = 0; rest = 65535 } }
        ensures pass { result.1 ≡ new_pass }
    {
        let (mut all_commands, mut all_taken) = (Counter::open(commands), Counter::open(taken));
        let (commands, taken) = (all_commands.part(), all_taken.part());
        let pass = Pass { commands, taken };
        let (commands, taken) = (all_commands, all_taken);
        (Books { commands, taken }, pass)
    }

    /// Raises the books and the pass by the command that the state has just accepted, and by the
    /// entries that it handed out. The totals are u64s, so the pass's numbers stay exact.
    pub(crate) fn count(&mut self, pass: &mut Pass<C, T>, state: &State, entries: u64)
        requires { (totals.commands state.now.base state.now.journal ≡ self.old.commands + 1)
            × (totals.handed_out state.now.base state.now.journal ≡ self.old.taken + entries) }
        ensures books { self.new ≡ books_of state.now self.old.rest }
        ensures pass { pass.new ≡ record pass.old
            { commands = pass.old.commands + 1; taken = pass.old.taken + entries } }
    {
        let _fits = state.totals();
        self.commands.raise(&mut pass.commands, 1);
        self.taken.raise(&mut pass.taken, entries);
    }

    /// Raises the books to the totals of a state, and the pass by as much. `before` is what the
    /// state told before it was changed. A hub whose state was changed is whole again after it.
    pub fn catch_up(&mut self, pass: &mut Pass<C, T>, before: &Totals, state: &State)
        requires before { (before.now.commands ≡ self.old.commands)
            × (before.now.taken ≡ self.old.taken) }
        requires grown { (self.old.commands ≤ totals.commands state.now.base state.now.journal)
            × (self.old.taken ≤ totals.handed_out state.now.base state.now.journal) }
        ensures books { self.new ≡ books_of state.now self.old.rest }
        ensures pass { (pass.new.commands + self.old.commands
            ≡ pass.old.commands + self.new.commands)
            × (pass.new.taken + self.old.taken ≡ pass.old.taken + self.new.taken)
            × (pass.new.parts ≡ pass.old.parts) }
    {
        let now = state.totals();
        self.commands
            .raise(&mut pass.commands, now.commands - before.commands);
        self.taken.raise(&mut pass.taken, now.taken - before.taken);
    }

    /// A new pass, which has nothing. Refused as `Spent` where the rest has its last part alone.
    pub(crate) fn new_pass(&mut self) -> Result<Pass<C, T>, HubError>
        ensures gives { GivesPass self.old.rest result self.new.rest }
        ensures kept { self.new ≡ record self.old { rest = self.new.rest } }
    {
        if self.commands.parts == 1 {
            return Err(HubError::Spent);
        }
        let (commands, taken) = (self.commands.part(), self.taken.part());
        Ok(Pass { commands, taken })
    }

    /// What the pass lacks of these totals, which are the books'. Changes nothing.
    pub(crate) fn lacks(&mut self, pass: &mut Pass<C, T>, totals: &Totals) -> NotAll
        requires { (totals.now.commands ≡ self.old.commands) × (totals.now.taken ≡ self.old.taken) }
        ensures same { (self.new ≡ self.old) × (pass.new ≡ pass.old) }
        ensures commands { pass.old.commands + result.commands ≡ self.old.commands }
        ensures taken { pass.old.taken + result.taken ≡ self.old.taken }
        ensures no_command { self.old.rest + pass.old.parts ≡ C.parts → result.commands ≡ 0 }
        ensures no_entry { self.old.rest + pass.old.parts ≡ T.parts → result.taken ≡ 0 }
    {
        NotAll {
            commands: self.commands.lacks(&mut pass.commands, totals.commands),
            taken: self.taken.lacks(&mut pass.taken, totals.taken),
        }
    }
}
