//! What holds of all runs on one disk.
ghost use Rattle.all_lives.specs.Laws.{LawOfCounts, LawOfEarlier, LawOfJoined, LawOfMoves, LawOfStamps};

use slot_disk::Disk;

/// The laws of runs that follow one another on disks of one kind. There is nothing to do.
pub fn laws_of_all_lives<D: Disk>(_disk: &D)
    // No timestamp is sent twice, and no request corrects the clock twice, whatever the settings of each run.
    ensures stamps { LawOfStamps D.told }
    ensures counts { LawOfCounts D.told }
    ensures moves { LawOfMoves D.told }
    // A reply to a request of an earlier run is refused.
    ensures earlier { LawOfEarlier D.told }
    // Runs under the same settings are one history.
    ensures joined { LawOfJoined D.told }
{}
