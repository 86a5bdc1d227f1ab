//! Laws of the steps of a follower, each the contract of a function that does nothing.

ghost use Rattle.follower_steps.specs.Laws.{AcknowledgedNeverFalls, DeliveriesLeaveNoneDue};
ghost use Rattle.follower_steps.specs.Laws.{RefusesNoneForNumber, FollowsTheLeader, WaitsNearby};
ghost use Rattle.follower_steps.specs.Laws.{CrashesKeepTheHeld, CrashesAcknowledgeTheTold};

/// Whatever arrives of a leader's chain, in whatever order and however often, and wherever the
/// follower crashes: its blocks are a prefix of the leader's, and it holds every block that it
/// acknowledged.
pub fn follows_the_leader()
    ensures { FollowsTheLeader }
{}

/// The number of acknowledged blocks never falls, whatever arrives.
pub fn acknowledged_never_falls()
    ensures { AcknowledgedNeverFalls }
{}

/// After a whole delivery no block waits that is due.
pub fn deliveries_leave_none_due()
    ensures { DeliveriesLeaveNoneDue }
{}

/// Whatever arrives: at most one block with each number waits, none is more than `MAX_AHEAD` ahead,
/// between two deliveries at most `MAX_AHEAD` wait, and the bytes of each spell its number.
pub fn waits_nearby()
    ensures { WaitsNearby }
{}

/// Whatever arrives: the chain refuses no block because the next one has another number.
pub fn refuses_none_for_number()
    ensures { RefusesNoneForNumber }
{}

/// A crash leaves the blocks that are held, and none that waits.
pub fn crashes_keep_the_held()
    ensures { CrashesKeepTheHeld }
{}

/// After a crash within a delivery the blocks that were held before its last turn are acknowledged.
pub fn crashes_acknowledge_the_told()
    ensures { CrashesAcknowledgeTheTold }
{}
