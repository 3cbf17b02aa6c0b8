//! Entries are put into clients' outboxes and handed out.

ghost use Rattle.std.specs.Prelude.{◌≡◌, ◌+◌, ◌≤◌, ◌++◌, false, length, map, min, take, string_bytes, IfOk, IfErr, IfSome, OnOk, OnErr, None, Some, vec_capacity, vec_len, nat_eq};
ghost use Rattle.std.specs.HashMap.{get};
ghost use Rattle.std.specs.Arc.{arc_value};
ghost use Rattle.journal.specs.Outboxes.{has_no_space};
ghost use Rattle.journal.specs.Command.{Does};
ghost use Rattle.journal.specs.Fields.{held_entries, without_first, with_entry};
ghost use Rattle.journal.specs.declared.step.What.{What};
ghost use Rattle.hub_state.specs.Changes.{ChangesClient, SameClients, without_newest, refusal_now};
ghost use Rattle.hub_state.specs.Words.{waits, plain_entry, told, took};

use crate::client::Clients;
use crate::state::cast::is_full;
use crate::state::{NONE, Result, State};
use journal::{Counts, HubError, Message, What};
use std::alloc::{AllocError, Global};
use std::sync::Arc;
use terms::{Attachments, Entry, Text};

/// Takes the first entries of a client's outbox out, to the end of a list that has room for them.
fn hand_out(clients: &mut Clients, client: u128, count: usize, taken: &mut Vec<Arc<Entry>>)
    requires { vec_len taken.old + count ≤ vec_capacity taken.old }
    ensures left { ChangesClient (without_first count) client clients.old clients.new }
    ensures taken { map arc_value taken.new.items ≡ map arc_value taken.old.items
        ++ take count (held_entries (get nat_eq clients.old client)) }
{
    if let Some(known) = clients.get_mut(&client) {
        known.outbox.take_first(count, taken);
    }
}

/// An entry of a text alone, which outboxes may share.
pub(crate) fn shared_text(alloc: Global, text: String) -> Result<Arc<Entry>, AllocError>
    ensures { IfOk result (λ entry. arc_value entry ≡ plain_entry (string_bytes text)) }
{
    let text = Text::from_string(text);
    let attachments = Attachments::new(alloc);
    Ok(Arc::new(alloc, Entry { text, attachments })?)
}

/// Puts an entry at the end of a client's outbox, which has space for it.
pub(crate) fn put_entry(
    clients: &mut Clients,
    client: u128,
    entry: Arc<Entry>,
) -> Result<(), AllocError>
    requires { IfSome (get nat_eq clients.old client) (λ known. let outbox = known.outbox
        in has_no_space outbox.capacity outbox.bytes outbox.waiting (arc_value entry) ≡ false) }
    ensures ok { OnOk result
        (ChangesClient (with_entry (arc_value entry)) client clients.old clients.new) }
    ensures err { OnErr result (SameClients clients.old clients.new) }
{
    if let Some(known) = clients.get_mut(&client) {
        known.outbox.push(entry)?;
    }
    Ok(())
}

/// Takes the newest entries of a client's outbox away again, as many as are named.
pub(crate) fn take_back(clients: &mut Clients, client: u128, count: usize)
    ensures { ChangesClient (without_newest count) client clients.old clients.new }
{
    if let Some(known) = clients.get_mut(&client) {
        known.outbox.pop_last(count);
    }
}

impl State {
    /// Puts an entry at the end of a client's outbox. Refused as `UnknownClient`, `OutboxFull`,
    /// `Spent`, then for `Memory`. It takes one look-up.
    pub fn tell(&mut self, alloc: Global, client: u128, entry: Entry, now: u64) -> Result
        ensures { Does self.old self.new now (told client entry) result }
    {
        if !self.is_open(client) {
            return Err(HubError::UnknownClient);
        }
        if is_full(&self.clients, client, &entry) {
            return Err(HubError::OutboxFull);
        }
        self.may_count(1, 0)?;
        let entry = Arc::new(alloc, entry)?;
        let shared = Arc::try_clone(&entry)?;
        self.records.steps.reserve()?;
        put_entry(&mut self.clients, client, shared)?;
        let told = Message { client, entry };
        let added = Counts { placed: 1, ..NONE };
        self.records.add(now, What::Told(told), added);
        Ok(())
    }

    /// How many entries a `take` hands out, or why it is refused.
    fn takes(&self, client: u128, most: usize) -> Result<usize>
        ensures number { IfOk result (λ n. n ≡ min most (length (waits self.now client))) }
        ensures accepted { IfOk result (λ n.
            refusal_now self.now (What.Took client most n) ≡ None) }
        ensures refused { IfErr result (λ e.
            refusal_now self.now (took self.now client most) ≡ Some e) }
    {
        self.facts();
        let waits = self.waiting(client).ok_or(HubError::UnknownClient)?;
        self.may_count(0, 0)?;
        Ok(most.min(waits))
    }

    /// Hands out the first `most` entries that wait for a client, or all where fewer wait. Refused
    /// as `UnknownClient`, `Spent`, then for `Memory`. It looks the client up, and copies what
    /// it hands out.
    pub fn take(&mut self, alloc: Global, client: u128, most: usize, now: u64) -> Result<Vec<Entry>>
        ensures entries { IfOk result (λ all. all.items ≡ take most (waits self.old client)) }
        ensures does { Does self.old self.new now (took self.old client most) result }
    {
        let number = self.takes(client, most)?;
        let entries = match self.clients.get(&client) {
            Some(known) => known.outbox.copies(alloc, number)?,
            None => Vec::new(alloc),
        };
        self.take_away(alloc, client, most, now)?;
        Ok(entries)
    }

    /// Takes entries as `take`, each shared.
    pub fn take_shared(
        &mut self,
        alloc: Global,
        client: u128,
        most: usize,
        now: u64,
    ) -> Result<Vec<Arc<Entry>>>
        ensures entries { IfOk result (λ all.
            map arc_value all.items ≡ take most (waits self.old client)) }
        ensures does { Does self.old self.new now (took self.old client most) result }
    {
        let number = self.takes(client, most)?;
        let mut entries = Vec::with_capacity(alloc, number)?;
        self.records.steps.reserve()?;
        hand_out(&mut self.clients, client, number, &mut entries);
        let taken = number as u64;
        let added = Counts { taken, ..NONE };
        self.records
            .add(now, What::Took(client, most, number), added);
        Ok(entries)
    }

    /// Takes entries as `take`, but tells only how many they are: who wants them has read them by
    /// `outbox`.
    pub fn take_away(&mut self, alloc: Global, client: u128, most: usize, now: u64) -> Result<usize>
        ensures number { IfOk result (λ n. n ≡ min most (length (waits self.old client))) }
        ensures does { Does self.old self.new now (took self.old client most) result }
    {
        Ok(self.take_shared(alloc, client, most, now)?.len())
    }
}
