//! A law about all epochs of a core whose app is the switchboard behind an entrance, with a warden or
//! without.

ghost use Rattle.std.specs.Prelude.{◌≡◌, ℕ, true, List, []};
ghost use Rattle.connection.specs.Line.{PlainLine};
ghost use Rattle.journal.specs.Plain.{Limits};
ghost use Rattle.journal.specs.Journal.{History};
ghost use Rattle.journal.specs.Membership.{is_space, place_of};
ghost use Rattle.events.specs.declared.event.Event.{Event};
ghost use Rattle.events.specs.Answer.{Answer};
ghost use Rattle.switchboard.specs.Telling.{BACKENDS};
ghost use Rattle.dispatch.specs.declared.clients.Handshake.{Handshake};
ghost use Rattle.dispatch.specs.Machine.{Machine};
ghost use Rattle.dispatch.specs.Holding.{standing, new_core};
ghost use Rattle.epochs.specs.Epochs.{AreAlike, in_one};
ghost use Rattle.epochs.specs.LetIn.{Everyone};
ghost use Rattle.epochs.specs.Backends.{CameByToken};

use events::App;
use guarded::{Expiring, Guarded};
use switchboard::Switchboard;

/// Whoever is in `/backend` came by the token: its client sent a CONNECT to `/backend` whose payload
/// has the token, or its session came back, and then the client that first had the session did. It
/// has no effect.
pub fn backends_came_by_token(app: &Guarded<Expiring<Switchboard>>)
    ensures { (config : Limits) (told : Handshake)
        (events : List (Event × ℕ)) (answers : List Answer) (sealed : List History) (h : History)
        (lines : List (ℕ × PlainLine)) (ids left : ℕ → ℕ)
        → is_space config (place_of config BACKENDS) ≡ true
        → Machine (⟦<Guarded<Expiring<Switchboard>> as App>⟧.policy app.now) told events answers
        (standing (new_core config told).hub.history [] ids) (standing (in_one sealed h) lines left)
        → AreAlike h (in_one sealed h)
        → Everyone (λ sid space. space ≡ place_of config BACKENDS
        → CameByToken app.now.app.app.token events (in_one sealed h).journal sid space) h }
{}
