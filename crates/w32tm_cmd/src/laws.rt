//! What holds of runs of `/member` and `/service`, and of replays of their captures.
ghost use Rattle.std.specs.Prelude.{◌≡◌, ◌⊎◌, ℕ, List};
ghost use Rattle.w32tm_text.specs.declared.status.Status.{Status};
ghost use Rattle.all_lives.specs.Laws.{Joins};
ghost use Rattle.all_lives.specs.Runs.{HaveConf, all_told};
ghost use Rattle.time_machine.specs.declared.conf.Conf.{Conf};
ghost use Rattle.time_machine.specs.Laws.{CountsRise};
ghost use Rattle.w32tm_cmd.specs.AllRuns.{AreOnOneDisk, KeeperCall, MovesOnceInAll, RefusesEarlier};
ghost use Rattle.w32tm_cmd.specs.AllRuns.{ReplaysJoined, SendsNoneTwice, runs_of};
ghost use Rattle.w32tm_cmd.specs.Again.{Records, ReplaysAgain, WritesSameLines};
ghost use Rattle.w32tm_cmd.specs.Replay.{IsReplayFaultless};
ghost use Rattle.edge_seen.specs.Seen.{Seen};

use crate::outside::{Outside, Tells};
use edge_io::{Clock, Entropy, Link, Sink, Source, Wire};
use slot_disk::Disk;

/// The laws of runs whose capture was recorded, of a disk at the entry and at the exit of one. There is nothing to do.
pub fn laws_of_recorded_runs<D: Disk>(_entry: &D, _exit: &D)
    // A capture that `/member` recorded in a run that ended well is replayed to the same lines under the same settings,
    // but for the link's line, where the replay is done.
    ensures same_lines { (turns : ℕ) (before now later last : Seen) (capture : List ℕ)
        → (run : Records turns (D.told _entry.now) (D.told _exit.now) before now capture)
        → ReplaysAgain run.lived.settings capture later last Status.Done
        → WritesSameLines run.lived.end.quiet run.lived.end.lost before now later last }
    // It is done where no call of the replay failed, unless memory was wanted for its settings or partners.
    ensures done { (turns : ℕ) (before now later last : Seen) (capture : List ℕ) (result : Status)
        → (run : Records turns (D.told _entry.now) (D.told _exit.now) before now capture)
        → ReplaysAgain run.lived.settings capture later last result → IsReplayFaultless later last
        → (result ≡ Status.Done) ⊎ (result ≡ Status.NoMemory) }
{}

/// The laws of all calls of `/member` and `/service` on one disk, in any order, whatever each answered and at whatever call
/// of the disk it was stopped.
/// Each begins with what the one before it may have left, and nobody else writes to the disk. There is nothing to do.
pub fn laws_of_all_runs<S: Source, O: Sink, L: Link, C: Clock, D: Disk, E: Entropy, W: Wire>(
    _outside: &Outside<S, O, L, C, D, E, W>,
)
    // No timestamp is sent twice, whatever the settings of each call: on the link, and in the words of the time machine.
    ensures stamps { let seen = ⟦<Outside<S, O, L, C, D, E, W> as Tells>⟧.seen in
        (calls : List (KeeperCall seen D.told)) → AreOnOneDisk calls → SendsNoneTwice calls }
    ensures counts { let seen = ⟦<Outside<S, O, L, C, D, E, W> as Tells>⟧.seen in
        (calls : List (KeeperCall seen D.told)) → AreOnOneDisk calls → CountsRise (all_told (runs_of calls)) }
    // Over all restarts each request corrects the clock at most once, and a reply to an earlier run's request is refused.
    ensures once { let seen = ⟦<Outside<S, O, L, C, D, E, W> as Tells>⟧.seen in
        (calls : List (KeeperCall seen D.told)) → AreOnOneDisk calls → MovesOnceInAll calls }
    ensures earlier { let seen = ⟦<Outside<S, O, L, C, D, E, W> as Tells>⟧.seen in
        (calls : List (KeeperCall seen D.told)) → AreOnOneDisk calls → RefusesEarlier calls }
    // Under the same settings the joined histories grow, and their events lead to what they led to in their own runs.
    ensures joined { let seen = ⟦<Outside<S, O, L, C, D, E, W> as Tells>⟧.seen in
        (conf : Conf) (calls : List (KeeperCall seen D.told)) → AreOnOneDisk calls → HaveConf conf (runs_of calls)
        → Joins conf (runs_of calls) }
    // The joined captures of calls that ended well replay to the lines of all of them.
    ensures replayed { let seen = ⟦<Outside<S, O, L, C, D, E, W> as Tells>⟧.seen in
        (conf : Conf) (calls : List (KeeperCall seen D.told)) → AreOnOneDisk calls → HaveConf conf (runs_of calls)
        → ReplaysJoined conf calls }
{}
