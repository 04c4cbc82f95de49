//! Laws of the time machine.
ghost use Rattle.time_machine.specs.Laws.{LawOfAccepted, LawOfAnswer, LawOfBelow, LawOfCounts, LawOfEarlier, LawOfJoins, LawOfLives, LawOfMore, LawOfMoves, LawOfNone, LawOfOne, LawOfReply, LawOfRight, LawOfRoom, LawOfSends, LawOfTimes};
ghost use Rattle.time_machine.specs.Positions.{LawOfBase, LawOfBegin, LawOfChanges, LawOfEight, LawOfFirst, LawOfGreatest, LawOfLeaving, LawOfLifeWords, LawOfMoved, LawOfNothing, LawOfOpen, LawOfPoll, LawOfPrefix, LawOfSent, LawOfSince, LawOfSource, LawOfThisLife};

/// What holds of histories, whatever is in them: of those that grow, of every one where that isn't asked.
pub fn laws_of_histories()
    // Each count that is sent is above all those that were sent before it.
    ensures counts { LawOfCounts }
    // An arrival is accepted if and only if it answers an open request and no reason for a refusal applies.
    ensures reply { LawOfReply }
    ensures right { LawOfRight }
    // An accepted arrival answers an open request. No two answer the same one, and none one of an earlier life.
    ensures accepted { LawOfAccepted }
    ensures moves { LawOfMoves }
    ensures lives { LawOfLives }
    // A reply to a request of an earlier life is refused, as NoRequest where none of the reasons before that applies.
    // So is one with a count that isn't above the mark of the life in which it comes.
    ensures earlier { LawOfEarlier }
    ensures below { LawOfBelow }
    // At most eight requests are open, and an arrival answers one of them at most.
    ensures room { LawOfRoom }
    ensures one { LawOfOne }
    ensures answer { LawOfAnswer }
    // Each timestamp of a reply stands for one moment near its arrival.
    ensures times { LawOfTimes }
    // One history may come after another.
    ensures joins { LawOfJoins }
    // An event sends where it says so, and adds what it leads to.
    ensures sends { LawOfSends }
    ensures none { LawOfNone }
    ensures more { LawOfMore }
{}

/// What the words of the machine say of positions in a history.
pub fn laws_of_positions()
    ensures since { LawOfSince }
    ensures life { LawOfThisLife }
    ensures life_words { LawOfLifeWords }
    ensures sent { LawOfSent }
    ensures moved { LawOfMoved }
    ensures base { LawOfBase }
    ensures leaving { LawOfLeaving }
    ensures nothing { LawOfNothing }
    ensures source { LawOfSource }
    ensures changes { LawOfChanges }
    ensures poll { LawOfPoll }
    ensures open_requests { LawOfOpen }
    ensures eight { LawOfEight }
    ensures greatest { LawOfGreatest }
    ensures first { LawOfFirst }
    ensures begin { LawOfBegin }
    ensures prefix { LawOfPrefix }
{}
