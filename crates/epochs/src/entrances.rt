//! A law about all epochs of a core whose app is behind an entrance.

ghost use Rattle.std.specs.Prelude.{ℕ, List, []};
ghost use Rattle.connection.specs.Line.{PlainLine};
ghost use Rattle.journal.specs.Plain.{Limits};
ghost use Rattle.journal.specs.Journal.{History};
ghost use Rattle.events.specs.declared.event.Event.{Event};
ghost use Rattle.events.specs.Answer.{Answer};
ghost use Rattle.dispatch.specs.declared.clients.Handshake.{Handshake};
ghost use Rattle.dispatch.specs.Machine.{Machine};
ghost use Rattle.dispatch.specs.Holding.{standing, new_core};
ghost use Rattle.epochs.specs.Epochs.{AreAlike, in_one};
ghost use Rattle.epochs.specs.LetIn.{Everyone};
ghost use Rattle.epochs.specs.Entrances.{CameIn};

use events::App;
use guarded::Guarded;

/// Whoever is in a namespace came in by the entrance: its client sent a CONNECT to that namespace,
/// whose payload had a token that was taken at that moment, where one is asked for, or its session
/// came back, and then the client that first had the session did. It has no effect.
pub fn everyone_came_in<A: App>(app: &Guarded<A>)
    ensures { (config : Limits) (told : Handshake)
        (events : List (Event × ℕ)) (answers : List Answer) (sealed : List History) (h : History)
        (lines : List (ℕ × PlainLine)) (ids left : ℕ → ℕ)
        → Machine (⟦<Guarded<A> as App>⟧.policy app.now) told events answers
        (standing (new_core config told).hub.history [] ids) (standing (in_one sealed h) lines left)
        → AreAlike h (in_one sealed h)
        → Everyone (CameIn app.now.entrance app.now.apart.items config events (in_one sealed h).journal) h }
{}
