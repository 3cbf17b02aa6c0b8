//! Laws about the steps of an event.

ghost use Rattle.std.specs.Prelude.{◌≡◌, ℕ, true, List, []};
ghost use Rattle.std.specs.List.{AllByRecursion};
ghost use Rattle.eio_wire.specs.Payload.{IsWhole};
ghost use Rattle.journal.specs.Journal.{History};
ghost use Rattle.journal.specs.Membership.{is_open};
ghost use Rattle.events.specs.declared.app.Effect.{Effect};
ghost use Rattle.events.specs.declared.app.Who.{Who};
ghost use Rattle.events.specs.declared.fault.Stopped.{Stopped};
ghost use Rattle.events.specs.App.{AllClean};
ghost use Rattle.dispatch.specs.Effects.{Scene, ActsInTurn, StandsWith, StopsAfter};
ghost use Rattle.dispatch.specs.Following.{is_turn, Follows, CastsNothing, Spares, WorksFor};
ghost use Rattle.dispatch.specs.Runs.{Runs};

/// An event without a broadcast leaves what was put for every other client as it was, whether it
/// ended with an error or not. It has no effect.
pub fn others_are_spared()
    ensures { (c : ℕ) (before after : History) (follows : Follows (is_turn c) before after)
        → CastsNothing follows.steps → Spares c before after [] }
{}

/// The effects of a packet, done to their end or until one ends the event, are work for its client:
/// they open nobody and take nothing, speak of no other client but where they are for many, put
/// something for the listed clients alone, and bring in no U+001E where none of them and no name of
/// a namespace has one. The client stays open unless it was closed. It has no effect.
pub fn effects_are_work()
    ensures done { (who : Who) (now : ℕ) (f : History) (effects : List Effect) (s t : Scene)
        → AllByRecursion IsWhole f.limits.spaces → AllClean effects → StandsWith who s
        → WorksFor who.client f s.history s.done.clients
        → Runs (ActsInTurn who now) effects s t
        → StandsWith who t × WorksFor who.client f t.history t.done.clients }
    ensures stopped { (who : Who) (now before : ℕ) (f : History) (effects : List Effect)
        (s : Scene) (stopped : Stopped) (t : Scene)
        → AllByRecursion IsWhole f.limits.spaces → AllClean effects → StandsWith who s
        → WorksFor who.client f s.history s.done.clients
        → StopsAfter who now before effects s stopped t
        → (is_open t.history.base t.history.journal who.client ≡ true)
        × WorksFor who.client f t.history t.done.clients }
{}
