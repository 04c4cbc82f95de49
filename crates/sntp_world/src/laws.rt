//! Laws of the world.
ghost use Rattle.sntp_world.specs.Accuracy.{LawOfAccuracy, LawOfNearness, LawOfReplies, LawOfRunning, LawOfStamps};
ghost use Rattle.sntp_world.specs.Laws.{LawOfClocks, LawOfHistories, LawOfOneEffect, LawOfOneWorld, LawOfPackets, LawOfRequests};
ghost use Rattle.sntp_world.specs.Simulation.{LawOfOneRun};

/// What holds of each world, whatever operations led to it.
pub fn laws_of_worlds()
    ensures histories { LawOfHistories }
    ensures clocks { LawOfClocks }
    ensures packets { LawOfPackets }
    ensures requests { LawOfRequests }
    ensures stamps { LawOfStamps }
    ensures replies { LawOfReplies }
    ensures running { LawOfRunning }
    ensures accuracy { LawOfAccuracy }
    ensures nearness { LawOfNearness }
    ensures one_world { LawOfOneWorld }
    ensures one_effect { LawOfOneEffect }
    ensures one_run { LawOfOneRun }
{}
