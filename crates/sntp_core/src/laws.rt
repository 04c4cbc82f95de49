//! What holds of each member.
ghost use Rattle.sntp_core.specs.Standing.{LawOfFollowing};

/// An event may follow on a member just where the history for which it stands, followed by the event, grows.
pub fn laws_of_members()
    ensures following { LawOfFollowing }
{}
