//! The state from which a journal begins, and a closed part of a hub's history.

ghost use Rattle.std.specs.Prelude.{map, reverse};
ghost use Rattle.std.specs.Arc.{arc_value};
ghost use Rattle.journal.specs.Plain.{PlainBase, PlainBaseClient};
ghost use Rattle.journal.specs.Seal.{PlainEpoch};

use crate::step::Step;
use crate::totals::Totals;
use recovery::{Logged, Pid, Saved};
use std::marker::Model;
use std::sync::Arc;
use terms::{Entry, Room, Sid};

/// The state of a hub before its first step, as data. In a contract it is plain data.
#[derive(Drop)]
pub struct Base {
    /// The last moment, in milliseconds.
    pub at: u64,
    /// The next offset, or `None` where the greatest has been used.
    pub next: Option<u64>,
    /// The clients, rising.
    pub clients: Vec<BaseClient>,
    /// Each socket's rooms, rising.
    pub pairs: Vec<(Sid, Room)>,
    /// The log, rising by offset.
    pub log: Vec<Logged>,
    /// The saved sessions, rising by private id.
    pub saved: Vec<Saved>,
    pub totals: Totals,
}

impl Model for Base {
    ghost Value = { PlainBase };

    ghost view = { λ b. record {
      at = b.at;
      next = b.next;
      clients = b.clients.items;
      pairs = b.pairs.items;
      log = b.log.items;
      saved = b.saved.items;
      totals = b.totals;
    } };
}

/// A client of a base.
#[derive(Drop)]
pub struct BaseClient {
    pub client: u128,
    /// The place of the namespace, the session id and the private session id of each of its
    /// sockets, in the order in which they were connected.
    pub sockets: Vec<(u16, Sid, Pid)>,
    /// What waits for it, in order.
    pub waiting: Vec<Arc<Entry>>,
}

impl Model for BaseClient {
    ghost Value = { PlainBaseClient };

    ghost view = { λ c. record {
      client = c.client;
      sockets = c.sockets.items;
      waiting = map arc_value c.waiting.items;
    } };
}

/// A base, and its journal up to a seal. In a contract it is plain data, the newest step first.
pub struct Epoch {
    pub base: Base,
    /// The steps since the base, the oldest first.
    pub steps: Vec<Step>,
}

/// Written out, so that a crate above takes the drop of all that lies in it by this one call.
impl Drop for Epoch {
    fn drop(self) {
        let Self { base: _, steps: _ } = self;
    }
}

impl Model for Epoch {
    ghost Value = { PlainEpoch };

    ghost view = { λ e. record { base = e.base; journal = reverse e.steps.items } };
}
