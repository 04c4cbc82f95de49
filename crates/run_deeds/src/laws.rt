//! What holds of all events that are woven.
ghost use Rattle.std.specs.Prelude.{ℕ};
ghost use Rattle.run_deeds.specs.ServiceWeaving.{LawOfServices};
ghost use Rattle.run_deeds.specs.Weaving.{LawOfTurns};

/// The laws of the events of a run: what is woven call by call is what the functions give that are read aloud. There is
/// nothing to do.
pub fn laws_of_weaving()
    // Of so many turns.
    ensures turns { (turns : ℕ) → LawOfTurns turns }

    // Of calls that ask for a request, whichever they are.
    ensures services { LawOfServices }
{}
