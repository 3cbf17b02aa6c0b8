//! The steps since the base, and how many bytes they own.

ghost use Rattle.std.specs.Prelude.{◌≡◌, ◌∷◌, [], ◌+◌, ◌*◌, ◌-◌, ◌<◌, min, length, reverse, vec_len, vec_capacity, IfErr, OnOk};
ghost use Rattle.terms.specs.Entry.{entry_size};
ghost use Rattle.journal.specs.Totals as totals;
ghost use Rattle.journal.specs.declared.error.HubError.TheVariants.{Memory};
ghost use Rattle.hub_state.specs.Steps.{PlainSteps};

use journal::{HubError, Step, What};
use std::alloc::Global;
use std::marker::Model;
use std::mem::replace;
use terms::{Entry, Room, Sid};

/// The steps since the base. In a contract they are the steps, the newest first, and how many
/// more can be added.
#[derive(Drop)]
pub struct Steps {
    steps: Vec<Step>,
    /// How many bytes they own together. It stays at the greatest u64.
    bytes: u64,
}

impl Model for Steps {
    ghost Value = { PlainSteps };

    ghost view = { λ s. record {
      steps = reverse s.steps.items;
      free = vec_capacity s.steps - vec_len s.steps;
    } };

    ghost invariant = { λ s. s.bytes
        ≡ min (totals.held (reverse s.steps.items)) 18446744073709551615 };
}

/// How many bytes the name of a room takes, however long it is.
const ROOM: u64 = 65;

/// How many bytes an id takes.
const ID: u64 = 16;

/// How many bytes an offset takes.
const OFFSET: u64 = 8;

/// How many bytes so many items of a size take, or the greatest u64.
fn size_of(count: usize, each: u64) -> u64
    ensures { result ≡ min (each * count) u64.MAX }
{
    each.saturating_mul(count as u64)
}

/// How many bytes an entry has, or the greatest u64.
fn entry_size(entry: &Entry) -> u64
    ensures { result ≡ min (entry_size entry.now) u64.MAX }
{
    entry.size().unwrap_or(usize::MAX) as u64
}

/// How many bytes lists of rooms, of sockets and of clients take, or the greatest u64.
fn lists_size(rooms: &[Room], excepted: &[Room], sids: &[Sid], clients: usize) -> u64
    ensures { result ≡ min (65 * length rooms.now + 65 * length excepted.now
        + 16 * length sids.now + 16 * clients) u64.MAX }
{
    let rooms = size_of(rooms.len(), ROOM).saturating_add(size_of(excepted.len(), ROOM));
    let ids = size_of(sids.len(), ID).saturating_add(size_of(clients, ID));
    rooms.saturating_add(ids)
}

/// How many bytes a step owns, or the greatest u64.
fn held_by(what: &What) -> u64
    ensures { result ≡ min (totals.held_by what.now) u64.MAX }
{
    match what {
        What::Recovered(back) => {
            size_of(back.rooms.len(), ROOM).saturating_add(size_of(back.missed.len(), OFFSET))
        }
        What::AllJoined(change) | What::AllLeft(change) => {
            lists_size(&change.rooms, &change.excepted, &change.changed, 0)
        }
        What::Cast(cast) => {
            let lists = lists_size(&cast.rooms, &cast.excepted, &cast.dropped, 0);
            entry_size(&cast.entry).saturating_add(lists)
        }
        What::Told(message) => entry_size(&message.entry),
        What::AllEnded(all) => { lists_size(&all.rooms, &all.excepted, &all.ended, all.told.len()) }
        _ => 0,
    }
}

impl Steps {
    /// No steps.
    #[tactic(auto, unfolding(journal::specs::Totals::held, journal::specs::Journal::total))]
    pub fn new(alloc: Global) -> Steps
        ensures { result.steps ≡ [] }
    {
        Steps {
            steps: Vec::new(alloc),
            bytes: 0,
        }
    }

    /// Makes sure that one more step can be added. Refused for `Memory`.
    pub fn reserve(&mut self) -> Result<(), HubError>
        ensures same { self.new.steps ≡ self.old.steps }
        ensures ok { OnOk result (0 < self.new.free) }
        ensures memory { IfErr result (λ e. e ≡ HubError.Memory) }
    {
        Ok(self.steps.reserve(1)?)
    }

    /// Adds a step where one can be added.
    #[tactic(auto, unfolding(journal::specs::Totals::held, journal::specs::Journal::total))]
    pub fn push(&mut self, step: Step)
        requires { 0 < self.old.free }
        ensures { self.new.steps ≡ step ∷ self.old.steps }
    {
        self.bytes = self.bytes.saturating_add(held_by(&step.what));
        self.steps.push_reserved(step);
    }

    /// The steps, the oldest first.
    pub fn as_slice(&self) -> &[Step]
        ensures { result.now ≡ reverse self.now.steps }
    {
        &self.steps
    }

    /// How many bytes the steps own together, each step for itself. It stays at the greatest u64.
    pub fn held(&self) -> u64
        ensures { result ≡ min (totals.held self.now.steps) 18446744073709551615 }
    {
        self.bytes
    }

    /// Takes all steps out, the oldest first.
    #[tactic(auto, unfolding(journal::specs::Totals::held, journal::specs::Journal::total))]
    pub fn take(&mut self, alloc: Global) -> Vec<Step>
        ensures steps { reverse result.items ≡ self.old.steps }
        ensures none { self.new.steps ≡ [] }
    {
        self.bytes = 0;
        replace(&mut self.steps, Vec::new(alloc))
    }
}
