//! Laws about the definitions, which hold of every base and journal.

ghost use Rattle.std.specs.Prelude.{◌≡◌, ℕ, Bool, List};
ghost use Rattle.room_maps.specs.Membership.{is_in};
ghost use Rattle.terms.specs.declared.entry.Entry.{Entry};
ghost use Rattle.journal.specs.Plain.{Limits, PlainBase};
ghost use Rattle.journal.specs.Journal.{History, with_step};
ghost use Rattle.journal.specs.Membership.{rooms};
ghost use Rattle.journal.specs.LastWord.{is_last_in};
ghost use Rattle.journal.specs.Entries.{BringsOnly, HoldsOnly};
ghost use Rattle.journal.specs.Seal.{SaysTheSame, IsLegalAndSound, MayFollow};
ghost use Rattle.journal.specs.declared.step.Step.{Step};
ghost use Rattle.journal.specs.declared.step.What.{What};

/// A socket is in a room exactly where the last step that speaks of the two says so.
pub fn last_words()
    ensures { (base : PlainBase) (journal : List Step) (sid : ℕ) (room : List ℕ)
        → is_in (rooms base journal) sid room ≡ is_last_in base journal sid room }
{}

/// What waits was in the base or was brought in by a step: a test that all of these entries pass is
/// passed by all that wait, that were put for a client, and that are in the log.
pub fn what_waits()
    ensures { (good : Entry → Bool) (base : PlainBase) (limits : Limits) (journal : List Step)
        → BringsOnly good base limits journal → HoldsOnly good base limits journal }
{}

/// Epochs compose. After two histories that say the same, as those before and after a seal do, the
/// same steps are allowed, and after such a step both say the same again, and the one is sound if
/// the other is. So the last base and journal say what all steps of all epochs do.
pub fn epochs_compose()
    // what is allowed after the second history is allowed after the first, and the other way round
    ensures back { (g h : History) (now : ℕ) (what : What)
        → IsLegalAndSound g → IsLegalAndSound h → SaysTheSame g h → MayFollow h now what
        → MayFollow g now what × SaysTheSame (with_step g now what) (with_step h now what) }
    ensures forth { (g h : History) (now : ℕ) (what : What)
        → IsLegalAndSound g → IsLegalAndSound h → SaysTheSame g h → MayFollow g now what
        → MayFollow h now what × SaysTheSame (with_step g now what) (with_step h now what) }

    // for the next step, and for the next seal
    ensures sound { (g h : History) (now : ℕ) (what : What)
        → IsLegalAndSound g → IsLegalAndSound h → SaysTheSame g h → MayFollow h now what
        → IsLegalAndSound (with_step h now what) → IsLegalAndSound (with_step g now what) }
    ensures onward { (g h k : History) → SaysTheSame g h → SaysTheSame h k → SaysTheSame g k }
{}
