//! What holds of all captures that are replayed.
ghost use Rattle.std.specs.Prelude.{◌≡◌, ◌↔◌, ℕ, List};
ghost use Rattle.time_machine.specs.declared.conf.Conf.{Conf};
ghost use Rattle.replay_run.specs.declared.end.ReplayWhy.{ReplayWhy};
ghost use Rattle.replay_run.specs.Judged.{ReplaysTo, SpellsGrowing};

/// Laws of replays. There is nothing to do.
pub fn laws_of_replays()
    // Bytes decide one end at most.
    ensures one_end { (conf : Conf) (bytes : List ℕ) (why other : ReplayWhy)
        → ReplaysTo conf bytes why → ReplaysTo conf bytes other → why ≡ other }
    // A replay is done just where the bytes spell a history that grows and end below 2^40.
    ensures done { (conf : Conf) (bytes : List ℕ)
        → ReplaysTo conf bytes ReplayWhy.Done ↔ SpellsGrowing conf bytes }
{}
