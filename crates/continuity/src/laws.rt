//! Laws about the definitions, which hold of every legal base and journal.

ghost use Rattle.std.specs.Prelude.{◌≡◌, ℕ, ◌<◌, ◌||◌, List, true, [], ◌∷◌};
ghost use Rattle.journal.specs.declared.step.Step.{Step};
ghost use Rattle.journal.specs.Plain.{Limits, PlainBase};
ghost use Rattle.journal.specs.Membership.{is_open, sid_of, socket_with};
ghost use Rattle.journal.specs.Sessions.{sessions, is_pid_saved};
ghost use Rattle.journal.specs.Log.{log};
ghost use Rattle.journal.specs.Legal.{IsLegal};
ghost use Rattle.journal.specs.Journal.{History};
ghost use Rattle.journal.specs.Seal.{IsSealed, IsLegalAndSound};
ghost use Rattle.recovery.specs.PacketLog.{stands};
ghost use Rattle.continuity.specs.Heard.{has, all_given};
ghost use Rattle.continuity.specs.Truly.{NamesTruly, HearsWhatIsDue};
ghost use Rattle.continuity.specs.LastWords.{is_last_open, last_socket, is_lost};
ghost use Rattle.continuity.specs.Within.{IsWithin};
ghost use Rattle.continuity.specs.Worked as worked;

/// A session whose client names truly what it got last, whose rooms stay the same over each break
/// from that broadcast on, and for which no outbox was full, has heard, while it is connected, just
/// what it should have: no logged broadcast is missing, none comes twice, and they are in order.
pub fn heard_is_due()
    ensures { (base : PlainBase) (limits : Limits) (journal : List Step) (pid : ℕ)
        → IsLegal base limits journal → HearsWhatIsDue base limits journal pid }
{}

/// What the log reaches back to, it has whole: each broadcast of the journal, and each of the
/// base's log, that came after one that stands in the log stands in it too.
pub fn log_has_all_after()
    ensures { (base : PlainBase) (limits : Limits) (journal : List Step) (seen later : ℕ)
        → IsLegal base limits journal → stands seen (log base limits journal) ≡ true → seen < later
        → (has (all_given journal) later || stands later (log base limits [])) ≡ true
        → stands later (log base limits journal) ≡ true }
{}

/// A worked history: A says 1 to 5, and B, which is lost twice, has heard each once and in order.
pub fn worked_history()
    // after the first break, at which B had named 1 and 2 still waited for it
    ensures once { worked.BHears worked.new_hub worked.first_break (1 ∷ 2 ∷ 3 ∷ []) }

    // after the second, at which it named 4, or 3 although it got 4
    ensures twice { worked.BHears worked.new_hub
        (worked.named_4 worked.first_break) (1 ∷ 2 ∷ 3 ∷ 4 ∷ 5 ∷ []) }
    ensures again { worked.BHears worked.new_hub
        (worked.named_3 worked.first_break) (1 ∷ 2 ∷ 3 ∷ 4 ∷ 5 ∷ []) }

    // it named truly what it got last, and its rooms stayed the same
    ensures truly { NamesTruly worked.new_hub worked.limits (worked.named_4 worked.first_break) 6 }

    // with a seal between the two
    ensures sealed { worked.BHears worked.sealed (worked.named_4 []) (4 ∷ 5 ∷ []) }
    ensures sealed_again { worked.BHears worked.sealed (worked.named_3 []) (4 ∷ 5 ∷ []) }
{}

/// A client is open, and a socket is connected, as the last step that speaks of it says; a session
/// is saved where a step lost its socket with its client, or the base has it, and it neither came
/// back since nor was swept.
pub fn last_words_of_sessions()
    ensures clients { (base : PlainBase) (journal : List Step) (client : ℕ)
        → is_open base journal client ≡ is_last_open base journal client }
    ensures connected_sockets { (base : PlainBase) (limits : Limits) (journal : List Step) (sid : ℕ)
        → IsLegal base limits journal
        → socket_with sid_of base journal sid ≡ last_socket base journal sid }
    ensures saved_sessions { (base : PlainBase) (limits : Limits) (journal : List Step) (pid : ℕ)
        → IsLegal base limits journal
        → is_pid_saved (sessions base limits journal) pid ≡ is_lost base limits [] journal pid }
{}

/// Where the base keeps within the limits, all that follows does: how many clients are open, how
/// many sessions are saved, and how many entries and bytes wait for a client.
pub fn limits_are_kept()
    ensures { (base : PlainBase) (limits : Limits) (journal : List Step)
        → IsLegal base limits journal → IsWithin base limits [] → IsWithin base limits journal }
{}

/// Where a hub keeps within the limits, it does so after a seal: the new base with no steps does.
pub fn seals_keep_limits()
    ensures { (before after : History) → IsLegalAndSound before → IsSealed before after
        → IsWithin before.base before.limits before.journal
        → IsWithin after.base after.limits after.journal }
{}
