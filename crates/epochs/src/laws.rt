//! Laws about all epochs together.

ghost use Rattle.std.specs.Prelude.{◌≡◌, ℕ, true, false, List, [], ◌∷◌, ◌++◌};
ghost use Rattle.terms.specs.declared.entry.Entry.{Entry};
ghost use Rattle.connection.specs.Line.{PlainLine};
ghost use Rattle.journal.specs.declared.step.What.{What};
ghost use Rattle.journal.specs.Journal.{History, with_step};
ghost use Rattle.journal.specs.Membership.{is_open};
ghost use Rattle.journal.specs.Outboxes.{begins};
ghost use Rattle.journal.specs.Plain.{Limits};
ghost use Rattle.journal.specs.Seal.{PlainEpoch, SealsAs, IsLegalAndSound};
ghost use Rattle.dispatch.specs.Following.{is_turn, Follows, CastsNothing, Spares};
ghost use Rattle.events.specs.declared.event.Event.{Event};
ghost use Rattle.events.specs.Answer.{Answer};
ghost use Rattle.epochs.specs.Epochs.{all_placements, BeginsAfter, HandedInAll, SparesInAll};
ghost use Rattle.epochs.specs.Epochs.{AreAlike, in_one};
ghost use Rattle.epochs.specs.LetIn.{IsLetInBy, IsLetIn, AttachesOnly, HaveHistories, Everyone, WasLetIn};
ghost use Rattle.dispatch.specs.declared.clients.Handshake.{Handshake};
ghost use Rattle.dispatch.specs.Machine.{Does, Machine};
ghost use Rattle.dispatch.specs.Holding.{Standing, standing, new_core, Agree};
ghost use Rattle.dispatch.specs.Handed.{Turn, is_opened_in, Handed};

use events::App;

/// What a client's takes hand out in all epochs is what was put for it in all of them, but for what
/// waits. The account of the first epoch is one of all; where the client is open at a seal, that of
/// the next epoch goes on from there; and one that opens the client begins anew. It has no effect.
pub fn handed_in_all_epochs()
    ensures first { (c : ℕ) (turns : List Turn) (h : History)
        → Handed c turns h → HandedInAll c turns [] h }
    ensures next { (c : ℕ) (earlier turns : List Turn) (sealed : List History) (g h : History)
        → HandedInAll c earlier sealed g → is_open g.base g.journal c ≡ true → BeginsAfter g h
        → Handed c turns h → HandedInAll c (turns ++ earlier) (g ∷ sealed) h }
    ensures anew { (c : ℕ) (earlier turns : List Turn) (sealed : List History) (h : History)
        → is_opened_in c turns ≡ true
        → Handed c turns h → HandedInAll c (turns ++ earlier) sealed h }
{}

/// Whom an event spares in its own epoch, it spares in all: what was put for them in all epochs is
/// as it was. A step that doesn't open a client puts the same for it at the end of what was put in
/// its epoch and in all. It has no effect.
pub fn others_are_spared_in_all_epochs()
    ensures spared { (c : ℕ) (before after : History)
        (sealed : List History) (lists : List (List ℕ))
        → Follows (is_turn c) before after
        → Spares c before after lists → SparesInAll sealed c before after lists }
    ensures silent { (c : ℕ) (before after : History) (sealed : List History)
        (follows : Follows (is_turn c) before after)
        → CastsNothing follows.steps → SparesInAll sealed c before after [] }
    ensures step { (h : History) (now : ℕ) (what : What)
        (sealed : List History) (c : ℕ) (more : List Entry)
        → begins c what ≡ false
        → all_placements [] (with_step h now what) c ≡ all_placements [] h c ++ more
        → all_placements sealed (with_step h now what) c ≡ all_placements sealed h c ++ more }
{}

/// What an event does at the present history it does at all epochs as one: from the oldest base with
/// the steps of all of them it leads, by the same steps and with the same answer and lines, to what
/// says the same again. So the events before and after any number of seals are one account. It has
/// no effect.
pub fn does_in_all_epochs<A: App>(app: &A)
    // the present history and all epochs as one say the same at the beginning, and after a seal
    ensures first { (h : History) → IsLegalAndSound h → AreAlike h (in_one [] h) }
    ensures sealed { (sealed : List History) (g h : History) (epoch : PlainEpoch)
        → AreAlike g (in_one sealed g) → SealsAs g epoch h → IsLegalAndSound h
        → AreAlike h (in_one (g ∷ sealed) h) }

    // an event does the same in both, and leaves them so
    ensures does { (now : ℕ) (told : Handshake) (event : Event) (answer : Answer)
        (sealed : List History) (h k : History) (old new : List (ℕ × PlainLine)) (ids left : ℕ → ℕ)
        → AreAlike h (in_one sealed h) → Agree h old
        → Does (A.policy app.now) told now event (standing h old ids) answer (standing k new left)
        → Does (A.policy app.now) told now event
        (standing (in_one sealed h) old ids) answer (standing (in_one sealed k) new left)
        × AreAlike k (in_one sealed k) × Agree k new }
    ensures back { (now : ℕ) (told : Handshake) (event : Event) (answer : Answer)
        (sealed : List History) (h m : History) (old new : List (ℕ × PlainLine)) (ids left : ℕ → ℕ)
        → AreAlike h (in_one sealed h) → Agree h old
        → Does (A.policy app.now) told now event
        (standing (in_one sealed h) old ids) answer (standing m new left)
        → (k : History) × (m ≡ in_one sealed k)
        × Does (A.policy app.now) told now event
        (standing h old ids) answer (standing k new left) }

    // the account of all events so far, with one more
    ensures account { (now : ℕ) (told : Handshake) (event : Event)
        (answer : Answer) (events : List (Event × ℕ)) (answers : List Answer) (s : Standing)
        (sealed : List History) (h k : History) (old new : List (ℕ × PlainLine))
        (left rest : ℕ → ℕ) → AreAlike h (in_one sealed h) → Agree h old
        → Machine (A.policy app.now) told events answers s (standing (in_one sealed h) old left)
        → Does (A.policy app.now) told now event
        (standing h old left) answer (standing k new rest)
        → Machine (A.policy app.now) told
        (events ++ (event, now) ∷ []) (answers ++ answer ∷ [])
        s (standing (in_one sealed k) new rest) }
{}

/// Whoever is there was let in. An event attaches a socket only of its own client, by a CONNECT that
/// it brings and that the app lets in, with the namespace and the payload that stand there. So who is
/// connected after any number of events and seals, or may come back, was attached so: with a session
/// its socket comes back that was attached before. It has no effect.
pub fn everyone_was_let_in<A: App>(app: &A)
    ensures event { (now : ℕ) (told : Handshake) (event : Event) (answer : Answer)
        (s t : Standing) → HaveHistories s.core
        → Does (A.policy app.now) told now event s answer t
        → AttachesOnly (IsLetInBy (A.policy app.now) s.core.history.limits (event, now))
        s.core.history t.core.history × HaveHistories t.core }
    ensures events { (told : Handshake) (events : List (Event × ℕ))
        (answers : List Answer) (s t : Standing) → HaveHistories s.core
        → Machine (A.policy app.now) told events answers s t
        → AttachesOnly (IsLetIn (A.policy app.now) s.core.history.limits events)
        s.core.history t.core.history × HaveHistories t.core }

    // from a new core on, over all epochs
    ensures everyone { (config : Limits) (told : Handshake)
        (events : List (Event × ℕ)) (answers : List Answer) (sealed : List History) (h : History)
        (lines : List (ℕ × PlainLine)) (ids left : ℕ → ℕ)
        → Machine (A.policy app.now) told events answers
        (standing (new_core config told).hub.history [] ids) (standing (in_one sealed h) lines left)
        → AreAlike h (in_one sealed h)
        → Everyone (WasLetIn (A.policy app.now) config events (in_one sealed h).journal) h }
{}
