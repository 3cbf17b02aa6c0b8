//! The present state becomes the base.

ghost use Rattle.std.specs.Prelude.{◌≡◌, map, IfOk, is_some, nat_eq};
ghost use Rattle.std.specs.List.{flat_map};
ghost use Rattle.std.specs.Ordering.{nat_cmp};
ghost use Rattle.std.specs.HashMap.{get};
ghost use Rattle.terms.specs.Listing.{ListsRising};
ghost use Rattle.journal.specs.Seal.{ids_of, base_at, LeadsTo, Seals};
ghost use Rattle.hub_state.specs.Words.{RunsOn};

use crate::client::Clients;
use crate::state::{Result, State};
use journal::{Base, BaseClient, Epoch, Socket};
use recovery::Pid;
use std::alloc::{AllocError, Global};
use std::mem::replace;
use terms::Sid;

/// The namespace, the session id and the private session id of each of the sockets.
fn socket_ids(alloc: Global, sockets: &[Socket]) -> Result<Vec<(u16, Sid, Pid)>, AllocError>
    ensures { IfOk result (λ ids. ids.items ≡ map ids_of sockets.now) }
{
    sockets
        .iter()
        .map(|socket| (socket.space, socket.sid, socket.pid))
        .collect(alloc)
}

/// The ids of the open clients, rising.
fn ids_rising(alloc: Global, clients: &Clients) -> Result<Vec<u128>, AllocError>
    ensures { IfOk result (λ ids.
        ListsRising nat_cmp (λ c. is_some (get nat_eq clients.now c)) ids.items) }
{
    let mut ids: Vec<u128> = clients.keys().copied().collect(alloc)?;
    ids.sort_unstable();
    Ok(ids)
}

/// These clients as a base has them. They share the entries that wait.
fn copy_clients(
    alloc: Global,
    clients: &Clients,
    ids: &[u128],
) -> Result<Vec<BaseClient>, AllocError>
    ensures { IfOk result (λ copies. copies.items
        ≡ flat_map (λ c. base_at c (get nat_eq clients.now c)) ids.now) }
{
    let mut copies = Vec::with_capacity(alloc, ids.len())?;
    for client in ids {
        if let Some(known) = clients.get(client) {
            copies.push(BaseClient {
                client: *client,
                sockets: socket_ids(alloc, &known.sockets)?,
                waiting: known.outbox.share_first(alloc, known.outbox.len())?,
            })?;
        }
    }
    Ok(copies)
}

impl State {
    /// The present state as a base.
    fn present(&self, alloc: Global) -> Result<Base, AllocError>
        ensures leads { IfOk result (λ base.
            LeadsTo self.now.base self.now.limits self.now.journal base) }
        ensures run { IfOk result (λ _. RunsOn self.now) }
    {
        let ids = ids_rising(alloc, &self.clients)?;
        let clients = copy_clients(alloc, &self.clients, &ids)?;
        let Ok(pairs) = self.live.rooms.pairs(alloc) else {
            return Err(AllocError);
        };
        let Ok(log) = self.log.list(alloc) else {
            return Err(AllocError);
        };
        let Ok(saved) = self.saved.list(alloc) else {
            return Err(AllocError);
        };
        Ok(Base {
            at: self.records.last,
            next: self.next_offset(),
            clients,
            pairs,
            log,
            saved,
            totals: self.totals(),
        })
    }

    /// Closes the journal: the present state becomes the base, from which an empty journal begins,
    /// and the old base is handed out with the old journal. It is no command and makes no step, and
    /// nothing that can be asked of the hub changes but its base and its steps. Refused for
    /// `Memory` alone. It takes time and memory for the present state, whose entries are shared,
    /// and none for the journal.
    pub fn seal(&mut self, alloc: Global) -> Result<Epoch>
        ensures { Seals self.old result self.new }
    {
        let present = self.present(alloc)?;
        let base = replace(&mut self.base, present);
        let steps = self.records.steps.take(alloc);
        self.ended_sockets.clear();
        Ok(Epoch { base, steps })
    }
}
